// The statements on arrays, each as its definition says. A refused one changes nothing and makes no
// element.
ghost use Rattle.std.specs.Prelude.{◌≡◌, ◌+◌, ◌≤◌, [], ◌∷◌, ◌++◌, length, count_by, All, IfOk, OnOk, OnErr};
ghost use Rattle.cow_model.specs.Answers.{refusal_in};
ghost use Rattle.cow_model.specs.Literals.{FitsText};
ghost use Rattle.cow_model.specs.Operation as spec;
ghost use Rattle.cow_model.specs.Plain.{max_count, same_items};
ghost use Rattle.cow_model.specs.Printed.{line, truth};
ghost use Rattle.cow_model.specs.declared.value.Plain.TheVariants as plain;
ghost use Rattle.kind_array.specs.Values.{array, is_array};
ghost use Rattle.cow_value.specs.Seen.{keeps_kind};
ghost use Rattle.cow_value.specs.Calls.{IsReady, Does, Costs, Made};
ghost use Rattle.cow_value.specs.Seen.{fresh, literal};
ghost use Rattle.cow_model.specs.Turns.{whole, keyed, popping};

use crate::slice::SliceValue;
use cow_array::Array;
use cow_cell::{Holder, Stock};
use cow_elements::lines::{put_number, put_or_nil, put_truth};
use cow_elements::positions::{MAX_COUNT, index, index_to_end, stretch};
use cow_elements::queries::get;
use cow_elements::reading::{end_all, read_all};
use cow_elements::{Element, Listed, keeps, put_list};
use cow_item::Item;
use cow_model::{Literal, NoMemory, Refusal, Side, Statement};
use cow_value::{Collection, Holds, Meets, Shown};
use std::alloc::Global;

/// `append N A`
fn append<T: Element<Q>, Q: Stock>(
    a: &mut Array<T, Q>,
    alloc: Global,
    atom: &Literal,
    h: &mut Holder<Q>,
) -> Result<Result<(), Refusal>, NoMemory>
    requires length { FitsText atom.now }
    requires ready { IsReady 1 (array a.old) h.old }
    ensures does { Does (whole (spec.append atom.now)) (array a.old) (array a.new) [] [] result }
    ensures paid { Costs T.is_counted (literal T.is_counted (atom.now ∷ []))
        (whole (spec.append atom.now)) (array a.old) (array a.new) h.old h.new result }
{
    if a.count() >= MAX_COUNT {
        return Ok(Err(Refusal::Full));
    }
    let x = T::read(alloc, atom, h)?;
    match a.append(x, h) {
        Ok(()) => Ok(Ok(())),
        Err((refused, x)) => {
            x.end(h);
            Err(refused)
        }
    }
}

/// `insert N I A`
fn insert_at<T: Element<Q>, Q: Stock>(
    a: &mut Array<T, Q>,
    alloc: Global,
    i: i64,
    atom: &Literal,
    h: &mut Holder<Q>,
) -> Result<Result<(), Refusal>, NoMemory>
    requires length { FitsText atom.now }
    requires ready { IsReady 1 (array a.old) h.old }
    ensures does { Does (whole (spec.insert_at i atom.now))
        (array a.old) (array a.new) [] [] result }
    ensures paid { Costs T.is_counted (literal T.is_counted (atom.now ∷ []))
        (whole (spec.insert_at i atom.now)) (array a.old) (array a.new) h.old h.new result }
{
    let Some(place) = index_to_end(a.count(), i) else {
        return Ok(Err(Refusal::OutOfRange));
    };
    if a.count() >= MAX_COUNT {
        return Ok(Err(Refusal::Full));
    }
    let x = T::read(alloc, atom, h)?;
    match a.insert(place, x, h) {
        Ok(()) => Ok(Ok(())),
        Err((refused, x)) => {
            x.end(h);
            Err(refused)
        }
    }
}

/// `set N I A`
fn set<T: Element<Q>, Q: Stock>(
    a: &mut Array<T, Q>,
    alloc: Global,
    i: i64,
    atom: &Literal,
    h: &mut Holder<Q>,
) -> Result<Result<(), Refusal>, NoMemory>
    requires length { FitsText atom.now }
    requires ready { IsReady 1 (array a.old) h.old }
    ensures does { Does (whole (spec.set i atom.now)) (array a.old) (array a.new) [] [] result }
    ensures paid { Costs T.is_counted (literal T.is_counted (atom.now ∷ []))
        (whole (spec.set i atom.now)) (array a.old) (array a.new) h.old h.new result }
{
    let Some(place) = index(0, a.count(), i) else {
        return Ok(Err(Refusal::OutOfRange));
    };
    let x = T::read(alloc, atom, h)?;
    match a.set(place, x, h) {
        Ok(old) => {
            old.end(h);
            Ok(Ok(()))
        }
        Err((refused, x)) => {
            x.end(h);
            Err(refused)
        }
    }
}

/// `swap N I J`
fn swap<T: Element<Q>, Q: Stock>(
    a: &mut Array<T, Q>,
    i: i64,
    j: i64,
    h: &mut Holder<Q>,
) -> Result<Result<(), Refusal>, NoMemory>
    requires ready { IsReady 0 (array a.old) h.old }
    ensures does { Does (whole (spec.swap i j)) (array a.old) (array a.new) [] [] result }
    ensures paid { Costs T.is_counted (literal T.is_counted [])
        (whole (spec.swap i j)) (array a.old) (array a.new) h.old h.new result }
{
    let Some(first) = index(0, a.count(), i) else {
        return Ok(Err(Refusal::OutOfRange));
    };
    let Some(second) = index(0, a.count(), j) else {
        return Ok(Err(Refusal::OutOfRange));
    };
    a.swap_at(first, second, h)?;
    Ok(Ok(()))
}

/// `reverse N`
fn reverse<T: Element<Q>, Q: Stock>(
    a: &mut Array<T, Q>,
    h: &mut Holder<Q>,
) -> Result<Result<(), Refusal>, NoMemory>
    requires ready { IsReady 0 (array a.old) h.old }
    ensures does { Does (whole spec.reversed) (array a.old) (array a.new) [] [] result }
    ensures paid { Costs T.is_counted (literal T.is_counted [])
        (whole spec.reversed) (array a.old) (array a.new) h.old h.new result }
{
    a.reverse(h)?;
    Ok(Ok(()))
}

/// `reserve N C`: room for C more elements.
fn reserve<T: Element<Q>, Q: Stock>(
    a: &mut Array<T, Q>,
    c: i64,
    h: &mut Holder<Q>,
) -> Result<Result<(), Refusal>, NoMemory>
    requires ready { IsReady 0 (array a.old) h.old }
    ensures does { Does (whole (spec.reserve c)) (array a.old) (array a.new) [] [] result }
    ensures paid { Costs T.is_counted (literal T.is_counted [])
        (whole (spec.reserve c)) (array a.old) (array a.new) h.old h.new result }
{
    let Some(more) = index_to_end(MAX_COUNT, c) else {
        return Ok(Err(Refusal::OutOfRange));
    };
    a.reserve(more, h)?;
    Ok(Ok(()))
}

/// `clear N`
fn clear<T: Element<Q>, Q: Stock>(
    a: &mut Array<T, Q>,
    h: &mut Holder<Q>,
) -> Result<Result<(), Refusal>, NoMemory>
    requires ready { IsReady 0 (array a.old) h.old }
    ensures does { Does (whole spec.clear) (array a.old) (array a.new) [] [] result }
    ensures paid { Costs T.is_counted (literal T.is_counted [])
        (whole spec.clear) (array a.old) (array a.new) h.old h.new result }
{
    a.clear(h)?;
    Ok(Ok(()))
}

/// `remove N X`
fn remove<T: Element<Q>, Q: Stock>(
    a: &mut Array<T, Q>,
    x: &Literal,
    text: &mut Vec<u8>,
    h: &mut Holder<Q>,
) -> Result<Result<(), Refusal>, NoMemory>
    requires ready { IsReady 1 (array a.old) h.old }
    ensures does { Does (keyed x.now (spec.remove x.now)) (array a.old) (array a.new)
        text.old.items text.new.items result }
    ensures paid { Costs T.is_counted (literal T.is_counted (x.now ∷ []))
        (keyed x.now (spec.remove x.now)) (array a.old) (array a.new) h.old h.new result }
{
    let Literal::Int(i) = x else {
        return Ok(Err(Refusal::WrongKind));
    };
    let Some(place) = index(0, a.count(), *i) else {
        return Ok(Err(Refusal::OutOfRange));
    };
    let before = text.len();
    put_or_nil(a.get(place), text)?;
    match a.remove(place, h) {
        Ok(old) => {
            old.end(h);
            Ok(Ok(()))
        }
        Err(refused) => {
            text.truncate(before);
            Err(refused)
        }
    }
}

/// `pop N END`
fn pop<T: Element<Q>, Q: Stock>(
    a: &mut Array<T, Q>,
    side: Side,
    text: &mut Vec<u8>,
    h: &mut Holder<Q>,
) -> Result<Result<(), Refusal>, NoMemory>
    requires ready { IsReady 0 (array a.old) h.old }
    ensures does { Does (popping side) (array a.old) (array a.new)
        text.old.items text.new.items result }
    ensures paid { Costs T.is_counted (literal T.is_counted [])
        (popping side) (array a.old) (array a.new) h.old h.new result }
{
    let Side::Last = side else {
        return Ok(Err(Refusal::WrongKind));
    };
    let before = text.len();
    put_or_nil(a.get(a.count().saturating_sub(1)), text)?;
    match a.pop_last(h) {
        Ok(None) => Ok(Ok(())),
        Ok(Some(old)) => {
            old.end(h);
            Ok(Ok(()))
        }
        Err(refused) => {
            text.truncate(before);
            Err(refused)
        }
    }
}

/// `splice N I J A*`
fn splice<T: Element<Q>, Q: Stock>(
    a: &mut Array<T, Q>,
    alloc: Global,
    i: i64,
    j: i64,
    atoms: &[Literal],
    h: &mut Holder<Q>,
) -> Result<Result<(), Refusal>, NoMemory>
    requires texts { All FitsText atoms.now }
    requires ready { IsReady (length atoms.now) (array a.old) h.old }
    ensures does { Does (whole (spec.splice i j atoms.now))
        (array a.old) (array a.new) [] [] result }
    ensures paid { Costs T.is_counted (literal T.is_counted atoms.now)
        (whole (spec.splice i j atoms.now)) (array a.old) (array a.new) h.old h.new result }
{
    let Some((from, to)) = stretch(a.count(), i, j) else {
        return Ok(Err(Refusal::OutOfRange));
    };
    if atoms.len() > MAX_COUNT - (a.count() - (to - from)) {
        return Ok(Err(Refusal::Full));
    }
    let items = read_all(alloc, atoms, h)?;
    match a.replace(from, to, items, h) {
        Ok(()) => Ok(Ok(())),
        Err((refused, items)) => {
            end_all(items, h);
            Err(refused)
        }
    }
}

/// Why `extend N M` is refused, where both are arrays.
fn extend_refusal<T: Element<Q>, Q: Stock>(a: &Array<T, Q>, other: &Array<T, Q>) -> Option<Refusal>
    requires small { length a.now.value ≤ max_count }
    ensures { result ≡ refusal_in
        ((whole (λ v. spec.extend v (plain.Array other.now.value))).run (plain.Array a.now.value)) }
{
    if other.count() > MAX_COUNT - a.count() {
        Some(Refusal::Full)
    } else {
        None
    }
}

/// `extend N M`
fn extend<T: Element<Q>, Q: Stock>(
    a: &mut Array<T, Q>,
    other: &Array<T, Q>,
    h: &mut Holder<Q>,
) -> Result<Result<(), Refusal>, NoMemory>
    requires small { length other.now.value ≤ max_count }
    requires ready { IsReady (length other.now.value) (array a.old) h.old }
    ensures does { Does (whole (λ v. spec.extend v (plain.Array other.now.value)))
        (array a.old) (array a.new) [] [] result }
    ensures paid { Costs T.is_counted (literal T.is_counted other.now.value)
        (whole (λ v. spec.extend v (plain.Array other.now.value)))
        (array a.old) (array a.new) h.old h.new result }
{
    if let Some(why) = extend_refusal(a, other) {
        return Ok(Err(why));
    }
    a.extend(other, h)?;
    Ok(Ok(()))
}

/// `let N = array A*`. Each atom counts one copy.
pub fn make<T: Element<Q>, Q: Stock>(
    alloc: Global,
    atoms: &[Literal],
    h: &mut Holder<Q>,
) -> Result<Array<T, Q>, NoMemory>
    requires texts { All FitsText atoms.now }
    requires small { length atoms.now ≤ max_count }
    requires spare { length atoms.now + 1 ≤ h.old.spare }
    ensures ok { IfOk result (λ a. array a ≡ fresh (plain.Array atoms.now)) }
    ensures paid { Made T.is_counted (plain.Array atoms.now) (length atoms.now) h.old h.new result }
{
    if atoms.is_empty() {
        return Array::new(alloc, h);
    }
    let items = read_all(alloc, atoms, h)?;
    match Array::from_vec(alloc, items, h) {
        Ok(a) => Ok(a),
        Err((refused, items)) => {
            end_all(items, h);
            Err(refused)
        }
    }
}

/// `equal N M`
fn equal<T: Element<Q>, Q: Stock>(
    a: &Array<T, Q>,
    other: &Array<T, Q>,
    text: &mut Vec<u8>,
) -> Result<(), NoMemory>
    ensures ok { OnOk result (text.new.items ≡ text.old.items
        ++ line (truth (same_items a.now.value other.now.value))) }
    ensures err { OnErr result (text.new.items ≡ text.old.items) }
{
    put_truth(a.equals(other), text)
}

/// An array as a value of a script.
#[derive(Drop)]
pub struct ArrayValue<T: Element<Q>, Q: Stock> {
    /// The collection.
    pub held: Array<T, Q>,
}

impl<T: Element<Q>, Q: Stock> Shown for ArrayValue<T, Q> {
    ghost seen = { λ v. array v.held };

    ghost counted = { T.is_counted };

    ghost is_kind = { is_array };
}

impl<T: Element<Q>, Q: Stock> Collection<Q> for ArrayValue<T, Q> {
    ghost takes = { keeps_kind };

    fn count(&self) -> usize {
        self.held.count()
    }

    fn size(&self) -> usize {
        self.held.count()
    }

    fn stop(&self) -> usize {
        self.held.count()
    }

    fn copy(&mut self, h: &mut Holder<Q>) -> ArrayValue<T, Q> {
        ArrayValue {
            held: self.held.copy(h),
        }
    }

    fn end(self, h: &mut Holder<Q>) {
        let ArrayValue { held } = self;
        held.end(h);
    }

    fn put(&self, text: &mut Vec<u8>) -> Result<(), NoMemory> {
        put_list(self, text)
    }

    fn change(
        &mut self,
        alloc: Global,
        statement: &Statement,
        text: &mut Vec<u8>,
        h: &mut Holder<Q>,
    ) -> Result<Result<(), Refusal>, NoMemory> {
        match statement {
            Statement::Append { atom, .. } => append(&mut self.held, alloc, atom, h),
            Statement::InsertAt { i, atom, .. } => insert_at(&mut self.held, alloc, *i, atom, h),
            Statement::Remove { atom, .. } => remove(&mut self.held, atom, text, h),
            Statement::Set { i, atom, .. } => set(&mut self.held, alloc, *i, atom, h),
            Statement::Pop { side, .. } => pop(&mut self.held, *side, text, h),
            Statement::Swap { i, j, .. } => swap(&mut self.held, *i, *j, h),
            Statement::Reverse { .. } => reverse(&mut self.held, h),
            Statement::Splice { i, j, atoms, .. } => {
                splice(&mut self.held, alloc, *i, *j, atoms.as_slice(), h)
            }
            Statement::Reserve { c, .. } => reserve(&mut self.held, *c, h),
            Statement::Clear { .. } => clear(&mut self.held, h),
            _ => Ok(Err(Refusal::WrongKind)),
        }
    }

    fn parts(&self, statement: &Statement) -> bool {
        match statement {
            Statement::Set { i, atom, .. } => !keeps::set(self, 0, *i, atom),
            Statement::Swap { i, j, .. } => !keeps::swap(self, *i, *j),
            Statement::Reverse { .. } => !keeps::is_palindrome(self),
            Statement::Splice { i, j, atoms, .. } => {
                !keeps::splice(self, *i, *j, atoms.as_slice())
            }
            Statement::Reserve { .. } => false,
            Statement::Clear { .. } | Statement::Pop { .. } => self.held.count() != 0,
            _ => true,
        }
    }

    fn cost(&self, _statement: &Statement, alone: bool) -> usize {
        if alone { 0 } else { self.held.count() }
    }

    fn both_cost(&self, alone: bool) -> usize {
        if alone { 0 } else { self.held.count() }
    }

    fn tell(
        &self,
        statement: &Statement,
        text: &mut Vec<u8>,
    ) -> Result<Result<(), Refusal>, NoMemory> {
        match statement {
            Statement::Count { .. } => {
                put_number(self.held.count(), text)?;
                Ok(Ok(()))
            }
            Statement::Get { atom, .. } => get(self, 0, atom, text),
            _ => Ok(Err(Refusal::WrongKind)),
        }
    }

    fn slice_refusal(&self, i: i64, j: i64) -> Option<Refusal> {
        match stretch(self.held.count(), i, j) {
            Some(_) => None,
            None => Some(Refusal::OutOfRange),
        }
    }
}

impl<T: Element<Q>, Q: Stock, V: Holds<ArrayValue<T, Q>> + Holds<SliceValue<T, Q>>> Meets<V, Q>
    for ArrayValue<T, Q> {
    fn change_by(
        &mut self,
        statement: &Statement,
        other: &V,
        h: &mut Holder<Q>,
    ) -> Result<Result<(), Refusal>, NoMemory> {
        let Statement::Extend { .. } = statement else {
            return Ok(Err(Refusal::WrongKind));
        };
        let Some(other) = Holds::<ArrayValue<T, Q>>::as_kind(other) else {
            return Ok(Err(Refusal::WrongKind));
        };
        extend(&mut self.held, &other.held, h)
    }

    fn refusal_by(&self, statement: &Statement, other: &V) -> Option<Refusal> {
        let Statement::Extend { .. } = statement else {
            return Some(Refusal::WrongKind);
        };
        let Some(other) = Holds::<ArrayValue<T, Q>>::as_kind(other) else {
            return Some(Refusal::WrongKind);
        };
        extend_refusal(&self.held, &other.held)
    }

    fn parts_by(&self, statement: &Statement, other: &V) -> bool {
        let Statement::Extend { .. } = statement else {
            return true;
        };
        let Some(other) = Holds::<ArrayValue<T, Q>>::as_kind(other) else {
            return true;
        };
        other.held.count() != 0
    }

    fn tell_both(
        &self,
        statement: &Statement,
        other: &V,
        text: &mut Vec<u8>,
    ) -> Result<Result<(), Refusal>, NoMemory> {
        let Statement::Equal { .. } = statement else {
            return Ok(Err(Refusal::WrongKind));
        };
        let Some(other) = Holds::<ArrayValue<T, Q>>::as_kind(other) else {
            return Ok(Err(Refusal::WrongKind));
        };
        equal(&self.held, &other.held, text)?;
        Ok(Ok(()))
    }

    fn slice(&mut self, i: i64, j: i64, h: &mut Holder<Q>) -> Result<V, Refusal> {
        let Some((from, to)) = stretch(self.held.count(), i, j) else {
            return Err(Refusal::OutOfRange);
        };
        let held = self.held.slice(from, to, h);
        Ok(V::of(SliceValue { held }))
    }
}

impl<T: Element<Q>, Q: Stock> Listed<T, Q> for ArrayValue<T, Q> {
    ghost elements = { λ v. v.held.value };

    fn size(&self) -> usize {
        self.held.count()
    }

    fn at(&self, place: usize) -> Option<&T> {
        self.held.get(place)
    }
}
