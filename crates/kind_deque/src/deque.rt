// The statements on deques, each as its definition says. A refused one changes nothing and makes no
// element.
ghost use Rattle.std.specs.Prelude.{◌≡◌, ◌+◌, ◌≤◌, [], ◌∷◌, ◌++◌, length, All, IfOk, OnOk, OnErr};
ghost use Rattle.cow_model.specs.Literals.{FitsText};
ghost use Rattle.cow_model.specs.Operation as spec;
ghost use Rattle.cow_model.specs.Plain.{max_count, same_items};
ghost use Rattle.cow_model.specs.Printed.{line, truth};
ghost use Rattle.cow_model.specs.Turns.{whole, keyed, popping};
ghost use Rattle.cow_model.specs.declared.statement.Side.TheVariants as side;
ghost use Rattle.cow_model.specs.declared.value.Plain.TheVariants as plain;
ghost use Rattle.kind_deque.specs.Values.{deque, is_deque};
ghost use Rattle.cow_value.specs.Seen.{keeps_kind};
ghost use Rattle.cow_value.specs.Calls.{IsReady, Does, Costs, Made};
ghost use Rattle.cow_value.specs.Seen.{fresh, literal};

use cow_cell::{Holder, Stock};
use cow_deque::Deque;
use cow_elements::lines::{put_number, put_or_nil, put_truth};
use cow_elements::positions::{MAX_COUNT, index, index_to_end};
use cow_elements::queries::get;
use cow_elements::reading::{end_all, read_all};
use cow_elements::{Element, Listed, keeps, put_list};
use cow_item::Item;
use cow_model::{Literal, NoMemory, Refusal, Side, Statement};
use cow_value::{Collection, Holds, Meets, Shown};
use std::alloc::Global;

/// `append N A`
fn append<T: Element<Q>, Q: Stock>(
    q: &mut Deque<T, Q>,
    alloc: Global,
    atom: &Literal,
    h: &mut Holder<Q>,
) -> Result<Result<(), Refusal>, NoMemory>
    requires length { FitsText atom.now }
    requires ready { IsReady 1 (deque q.old) h.old }
    ensures does { Does (whole (spec.append atom.now)) (deque q.old) (deque q.new) [] [] result }
    ensures paid { Costs T.is_counted (literal T.is_counted (atom.now ∷ []))
        (whole (spec.append atom.now)) (deque q.old) (deque q.new) h.old h.new result }
{
    if q.count() >= MAX_COUNT {
        return Ok(Err(Refusal::Full));
    }
    let x = T::read(alloc, atom, h)?;
    match q.append(x, h) {
        Ok(()) => Ok(Ok(())),
        Err((refused, x)) => {
            x.end(h);
            Err(refused)
        }
    }
}

/// `prepend N A`
fn prepend<T: Element<Q>, Q: Stock>(
    q: &mut Deque<T, Q>,
    alloc: Global,
    atom: &Literal,
    h: &mut Holder<Q>,
) -> Result<Result<(), Refusal>, NoMemory>
    requires length { FitsText atom.now }
    requires ready { IsReady 1 (deque q.old) h.old }
    ensures does { Does (whole (spec.prepend atom.now)) (deque q.old) (deque q.new) [] [] result }
    ensures paid { Costs T.is_counted (literal T.is_counted (atom.now ∷ []))
        (whole (spec.prepend atom.now)) (deque q.old) (deque q.new) h.old h.new result }
{
    if q.count() >= MAX_COUNT {
        return Ok(Err(Refusal::Full));
    }
    let x = T::read(alloc, atom, h)?;
    match q.prepend(x, h) {
        Ok(()) => Ok(Ok(())),
        Err((refused, x)) => {
            x.end(h);
            Err(refused)
        }
    }
}

/// `insert N I A`
fn insert_at<T: Element<Q>, Q: Stock>(
    q: &mut Deque<T, Q>,
    alloc: Global,
    i: i64,
    atom: &Literal,
    h: &mut Holder<Q>,
) -> Result<Result<(), Refusal>, NoMemory>
    requires length { FitsText atom.now }
    requires ready { IsReady 1 (deque q.old) h.old }
    ensures does { Does (whole (spec.insert_at i atom.now))
        (deque q.old) (deque q.new) [] [] result }
    ensures paid { Costs T.is_counted (literal T.is_counted (atom.now ∷ []))
        (whole (spec.insert_at i atom.now)) (deque q.old) (deque q.new) h.old h.new result }
{
    let Some(place) = index_to_end(q.count(), i) else {
        return Ok(Err(Refusal::OutOfRange));
    };
    if q.count() >= MAX_COUNT {
        return Ok(Err(Refusal::Full));
    }
    let x = T::read(alloc, atom, h)?;
    match q.insert(place, x, h) {
        Ok(()) => Ok(Ok(())),
        Err((refused, x)) => {
            x.end(h);
            Err(refused)
        }
    }
}

/// `set N I A`
fn set<T: Element<Q>, Q: Stock>(
    q: &mut Deque<T, Q>,
    alloc: Global,
    i: i64,
    atom: &Literal,
    h: &mut Holder<Q>,
) -> Result<Result<(), Refusal>, NoMemory>
    requires length { FitsText atom.now }
    requires ready { IsReady 1 (deque q.old) h.old }
    ensures does { Does (whole (spec.set i atom.now)) (deque q.old) (deque q.new) [] [] result }
    ensures paid { Costs T.is_counted (literal T.is_counted (atom.now ∷ []))
        (whole (spec.set i atom.now)) (deque q.old) (deque q.new) h.old h.new result }
{
    let Some(place) = index(0, q.count(), i) else {
        return Ok(Err(Refusal::OutOfRange));
    };
    let x = T::read(alloc, atom, h)?;
    match q.set(place, x, h) {
        Ok(old) => {
            old.end(h);
            Ok(Ok(()))
        }
        Err((refused, x)) => {
            x.end(h);
            Err(refused)
        }
    }
}

/// `remove N X`
fn remove<T: Element<Q>, Q: Stock>(
    q: &mut Deque<T, Q>,
    x: &Literal,
    text: &mut Vec<u8>,
    h: &mut Holder<Q>,
) -> Result<Result<(), Refusal>, NoMemory>
    requires ready { IsReady 1 (deque q.old) h.old }
    ensures does { Does (keyed x.now (spec.remove x.now)) (deque q.old) (deque q.new)
        text.old.items text.new.items result }
    ensures paid { Costs T.is_counted (literal T.is_counted (x.now ∷ []))
        (keyed x.now (spec.remove x.now)) (deque q.old) (deque q.new) h.old h.new result }
{
    let Literal::Int(i) = x else {
        return Ok(Err(Refusal::WrongKind));
    };
    let Some(place) = index(0, q.count(), *i) else {
        return Ok(Err(Refusal::OutOfRange));
    };
    let before = text.len();
    put_or_nil(q.get(place), text)?;
    match q.remove(place, h) {
        Ok(old) => {
            old.end(h);
            Ok(Ok(()))
        }
        Err(refused) => {
            text.truncate(before);
            Err(refused)
        }
    }
}

/// `pop N first`
fn pop_first<T: Element<Q>, Q: Stock>(
    q: &mut Deque<T, Q>,
    text: &mut Vec<u8>,
    h: &mut Holder<Q>,
) -> Result<Result<(), Refusal>, NoMemory>
    requires ready { IsReady 0 (deque q.old) h.old }
    ensures does { Does (popping side.First) (deque q.old) (deque q.new)
        text.old.items text.new.items result }
    ensures paid { Costs T.is_counted (literal T.is_counted [])
        (popping side.First) (deque q.old) (deque q.new) h.old h.new result }
{
    let before = text.len();
    put_or_nil(q.get(0), text)?;
    match q.pop_first(h) {
        Ok(None) => Ok(Ok(())),
        Ok(Some(old)) => {
            old.end(h);
            Ok(Ok(()))
        }
        Err(refused) => {
            text.truncate(before);
            Err(refused)
        }
    }
}

/// `pop N last`
fn pop_last<T: Element<Q>, Q: Stock>(
    q: &mut Deque<T, Q>,
    text: &mut Vec<u8>,
    h: &mut Holder<Q>,
) -> Result<Result<(), Refusal>, NoMemory>
    requires ready { IsReady 0 (deque q.old) h.old }
    ensures does { Does (popping side.Last) (deque q.old) (deque q.new)
        text.old.items text.new.items result }
    ensures paid { Costs T.is_counted (literal T.is_counted [])
        (popping side.Last) (deque q.old) (deque q.new) h.old h.new result }
{
    let before = text.len();
    put_or_nil(q.get(q.count().saturating_sub(1)), text)?;
    match q.pop_last(h) {
        Ok(None) => Ok(Ok(())),
        Ok(Some(old)) => {
            old.end(h);
            Ok(Ok(()))
        }
        Err(refused) => {
            text.truncate(before);
            Err(refused)
        }
    }
}

/// `pop N END`
fn pop<T: Element<Q>, Q: Stock>(
    q: &mut Deque<T, Q>,
    side: Side,
    text: &mut Vec<u8>,
    h: &mut Holder<Q>,
) -> Result<Result<(), Refusal>, NoMemory>
    requires ready { IsReady 0 (deque q.old) h.old }
    ensures does { Does (popping side) (deque q.old) (deque q.new)
        text.old.items text.new.items result }
    ensures paid { Costs T.is_counted (literal T.is_counted [])
        (popping side) (deque q.old) (deque q.new) h.old h.new result }
{
    match side {
        Side::First => pop_first(q, text, h),
        Side::Last => pop_last(q, text, h),
        _ => Ok(Err(Refusal::WrongKind)),
    }
}

/// `rotate N C`: the first C elements stand last.
fn rotate<T: Element<Q>, Q: Stock>(
    q: &mut Deque<T, Q>,
    c: i64,
    h: &mut Holder<Q>,
) -> Result<Result<(), Refusal>, NoMemory>
    requires ready { IsReady 0 (deque q.old) h.old }
    ensures does { Does (whole (spec.rotate c)) (deque q.old) (deque q.new) [] [] result }
    ensures paid { Costs T.is_counted (literal T.is_counted [])
        (whole (spec.rotate c)) (deque q.old) (deque q.new) h.old h.new result }
{
    let Some(first) = index_to_end(q.count(), c) else {
        return Ok(Err(Refusal::OutOfRange));
    };
    q.rotate(first, h)?;
    Ok(Ok(()))
}

/// `reserve N C`: room for C more elements.
fn reserve<T: Element<Q>, Q: Stock>(
    q: &mut Deque<T, Q>,
    c: i64,
    h: &mut Holder<Q>,
) -> Result<Result<(), Refusal>, NoMemory>
    requires ready { IsReady 0 (deque q.old) h.old }
    ensures does { Does (whole (spec.reserve c)) (deque q.old) (deque q.new) [] [] result }
    ensures paid { Costs T.is_counted (literal T.is_counted [])
        (whole (spec.reserve c)) (deque q.old) (deque q.new) h.old h.new result }
{
    let Some(more) = index_to_end(MAX_COUNT, c) else {
        return Ok(Err(Refusal::OutOfRange));
    };
    q.reserve(more, h)?;
    Ok(Ok(()))
}

/// `equal N M`
fn equal<T: Element<Q>, Q: Stock>(
    q: &Deque<T, Q>,
    other: &Deque<T, Q>,
    text: &mut Vec<u8>,
) -> Result<(), NoMemory>
    ensures ok { OnOk result (text.new.items ≡ text.old.items
        ++ line (truth (same_items q.now.value other.now.value))) }
    ensures err { OnErr result (text.new.items ≡ text.old.items) }
{
    put_truth(q.equals(other), text)
}

/// `let N = deque A*`. Each atom counts one copy.
pub fn make<T: Element<Q>, Q: Stock>(
    alloc: Global,
    atoms: &[Literal],
    h: &mut Holder<Q>,
) -> Result<Deque<T, Q>, NoMemory>
    requires texts { All FitsText atoms.now }
    requires small { length atoms.now ≤ max_count }
    requires spare { length atoms.now + 1 ≤ h.old.spare }
    ensures ok { IfOk result (λ q. deque q ≡ fresh (plain.Deque atoms.now)) }
    ensures paid { Made T.is_counted (plain.Deque atoms.now) (length atoms.now) h.old h.new result }
{
    if atoms.is_empty() {
        return Deque::new(alloc, h);
    }
    let items = read_all(alloc, atoms, h)?;
    match Deque::from_vec(alloc, items, h) {
        Ok(q) => Ok(q),
        Err((refused, items)) => {
            end_all(items, h);
            Err(refused)
        }
    }
}

/// A deque as a value of a script.
#[derive(Drop)]
pub struct DequeValue<T: Element<Q>, Q: Stock> {
    /// The collection.
    pub held: Deque<T, Q>,
}

impl<T: Element<Q>, Q: Stock> Shown for DequeValue<T, Q> {
    ghost seen = { λ v. deque v.held };

    ghost counted = { T.is_counted };

    ghost is_kind = { is_deque };
}

impl<T: Element<Q>, Q: Stock> Collection<Q> for DequeValue<T, Q> {
    ghost takes = { keeps_kind };

    fn count(&self) -> usize {
        self.held.count()
    }

    fn size(&self) -> usize {
        self.held.count()
    }

    fn stop(&self) -> usize {
        self.held.count()
    }

    fn copy(&mut self, h: &mut Holder<Q>) -> DequeValue<T, Q> {
        DequeValue {
            held: self.held.copy(h),
        }
    }

    fn end(self, h: &mut Holder<Q>) {
        let DequeValue { held } = self;
        held.end(h);
    }

    fn put(&self, text: &mut Vec<u8>) -> Result<(), NoMemory> {
        put_list(self, text)
    }

    fn change(
        &mut self,
        alloc: Global,
        statement: &Statement,
        text: &mut Vec<u8>,
        h: &mut Holder<Q>,
    ) -> Result<Result<(), Refusal>, NoMemory> {
        match statement {
            Statement::Append { atom, .. } => append(&mut self.held, alloc, atom, h),
            Statement::Prepend { atom, .. } => prepend(&mut self.held, alloc, atom, h),
            Statement::InsertAt { i, atom, .. } => insert_at(&mut self.held, alloc, *i, atom, h),
            Statement::Remove { atom, .. } => remove(&mut self.held, atom, text, h),
            Statement::Set { i, atom, .. } => set(&mut self.held, alloc, *i, atom, h),
            Statement::Pop { side, .. } => pop(&mut self.held, *side, text, h),
            Statement::Rotate { c, .. } => rotate(&mut self.held, *c, h),
            Statement::Reserve { c, .. } => reserve(&mut self.held, *c, h),
            _ => Ok(Err(Refusal::WrongKind)),
        }
    }

    fn parts(&self, statement: &Statement) -> bool {
        match statement {
            Statement::Set { i, atom, .. } => !keeps::set(self, 0, *i, atom),
            Statement::Rotate { c, .. } => !keeps::rotate(self, *c),
            Statement::Reserve { .. } => false,
            Statement::Pop { .. } => self.held.count() != 0,
            _ => true,
        }
    }

    fn cost(&self, _statement: &Statement, alone: bool) -> usize {
        if alone { 0 } else { self.held.count() }
    }

    fn both_cost(&self, alone: bool) -> usize {
        if alone { 0 } else { self.held.count() }
    }

    fn tell(
        &self,
        statement: &Statement,
        text: &mut Vec<u8>,
    ) -> Result<Result<(), Refusal>, NoMemory> {
        match statement {
            Statement::Count { .. } => {
                put_number(self.held.count(), text)?;
                Ok(Ok(()))
            }
            Statement::Get { atom, .. } => get(self, 0, atom, text),
            _ => Ok(Err(Refusal::WrongKind)),
        }
    }

    fn slice_refusal(&self, _i: i64, _j: i64) -> Option<Refusal> {
        Some(Refusal::WrongKind)
    }
}

impl<T: Element<Q>, Q: Stock, V: Holds<DequeValue<T, Q>>> Meets<V, Q> for DequeValue<T, Q> {
    fn change_by(
        &mut self,
        _statement: &Statement,
        _other: &V,
        _h: &mut Holder<Q>,
    ) -> Result<Result<(), Refusal>, NoMemory> {
        Ok(Err(Refusal::WrongKind))
    }

    fn refusal_by(&self, _statement: &Statement, _other: &V) -> Option<Refusal> {
        Some(Refusal::WrongKind)
    }

    fn parts_by(&self, _statement: &Statement, _other: &V) -> bool {
        true
    }

    fn tell_both(
        &self,
        statement: &Statement,
        other: &V,
        text: &mut Vec<u8>,
    ) -> Result<Result<(), Refusal>, NoMemory> {
        let Statement::Equal { .. } = statement else {
            return Ok(Err(Refusal::WrongKind));
        };
        let Some(other) = other.as_kind() else {
            return Ok(Err(Refusal::WrongKind));
        };
        equal(&self.held, &other.held, text)?;
        Ok(Ok(()))
    }

    fn slice(&mut self, _i: i64, _j: i64, _h: &mut Holder<Q>) -> Result<V, Refusal> {
        Err(Refusal::WrongKind)
    }
}

impl<T: Element<Q>, Q: Stock> Listed<T, Q> for DequeValue<T, Q> {
    ghost elements = { λ v. v.held.value };

    fn size(&self) -> usize {
        self.held.count()
    }

    fn at(&self, place: usize) -> Option<&T> {
        self.held.get(place)
    }
}
