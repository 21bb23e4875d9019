// The statements on slices, each as its definition says. A refused one changes nothing and makes no
// element.
ghost use Rattle.std.specs.Prelude.{◌≡◌, ◌≤◌, [], ◌∷◌, ◌++◌, OnOk, OnErr};
ghost use Rattle.cow_model.specs.Literals.{FitsText};
ghost use Rattle.cow_model.specs.Operation as spec;
ghost use Rattle.cow_model.specs.Plain.{max_count, same_items};
ghost use Rattle.cow_model.specs.Printed.{line, truth};
ghost use Rattle.kind_array.specs.Values.{slice, is_slice};
ghost use Rattle.cow_value.specs.Seen.{keeps_kind};
ghost use Rattle.cow_value.specs.Calls.{IsReady, Does, Costs};
ghost use Rattle.cow_value.specs.Seen.{literal};
ghost use Rattle.cow_model.specs.Turns.{whole, popping};

use cow_array::ArraySlice;
use cow_cell::{Holder, Stock};
use cow_elements::lines::{put_number, put_or_nil, put_truth};
use cow_elements::positions::{MAX_COUNT, index};
use cow_elements::queries::get;
use cow_elements::{Element, Listed, keeps, put_list_from};
use cow_item::Item;
use cow_model::{Literal, NoMemory, Refusal, Side, Statement};
use cow_value::{Collection, Holds, Meets, Shown};
use std::alloc::Global;

/// `append N A`
fn append<T: Element<Q>, Q: Stock>(
    s: &mut ArraySlice<T, Q>,
    alloc: Global,
    atom: &Literal,
    h: &mut Holder<Q>,
) -> Result<Result<(), Refusal>, NoMemory>
    requires length { FitsText atom.now }
    requires ready { IsReady 1 (slice s.old) h.old }
    ensures does { Does (whole (spec.append atom.now)) (slice s.old) (slice s.new) [] [] result }
    ensures paid { Costs T.is_counted (literal T.is_counted (atom.now ∷ []))
        (whole (spec.append atom.now)) (slice s.old) (slice s.new) h.old h.new result }
{
    if s.count() >= MAX_COUNT {
        return Ok(Err(Refusal::Full));
    }
    let x = T::read(alloc, atom, h)?;
    match s.append(x, h) {
        Ok(()) => Ok(Ok(())),
        Err((refused, x)) => {
            x.end(h);
            Err(refused)
        }
    }
}

/// `set N I A`
fn set<T: Element<Q>, Q: Stock>(
    s: &mut ArraySlice<T, Q>,
    alloc: Global,
    i: i64,
    atom: &Literal,
    h: &mut Holder<Q>,
) -> Result<Result<(), Refusal>, NoMemory>
    requires length { FitsText atom.now }
    requires ready { IsReady 1 (slice s.old) h.old }
    ensures does { Does (whole (spec.set i atom.now)) (slice s.old) (slice s.new) [] [] result }
    ensures paid { Costs T.is_counted (literal T.is_counted (atom.now ∷ []))
        (whole (spec.set i atom.now)) (slice s.old) (slice s.new) h.old h.new result }
{
    let Some(place) = index(s.start(), s.count(), i) else {
        return Ok(Err(Refusal::OutOfRange));
    };
    let x = T::read(alloc, atom, h)?;
    match s.set(s.start() + place, x, h) {
        Ok(old) => {
            old.end(h);
            Ok(Ok(()))
        }
        Err((refused, x)) => {
            x.end(h);
            Err(refused)
        }
    }
}

/// `pop N END`: no memory for a change, and at most one copy.
fn pop<T: Element<Q>, Q: Stock>(
    s: &mut ArraySlice<T, Q>,
    side: Side,
    text: &mut Vec<u8>,
    h: &mut Holder<Q>,
) -> Result<Result<(), Refusal>, NoMemory>
    requires ready { IsReady 0 (slice s.old) h.old }
    ensures does { Does (popping side) (slice s.old) (slice s.new)
        text.old.items text.new.items result }
    ensures paid { Costs T.is_counted (literal T.is_counted [])
        (popping side) (slice s.old) (slice s.new) h.old h.new result }
{
    let Side::First = side else {
        return Ok(Err(Refusal::WrongKind));
    };
    put_or_nil(s.get(s.start()), text)?;
    if let Some(old) = s.pop_first(h) {
        old.end(h);
    }
    Ok(Ok(()))
}

/// `equal N M`: by elements alone.
fn equal<T: Element<Q>, Q: Stock>(
    s: &ArraySlice<T, Q>,
    other: &ArraySlice<T, Q>,
    text: &mut Vec<u8>,
) -> Result<(), NoMemory>
    ensures ok { OnOk result (text.new.items ≡ text.old.items
        ++ line (truth (same_items s.now.value.items other.now.value.items))) }
    ensures err { OnErr result (text.new.items ≡ text.old.items) }
{
    put_truth(s.equals(other), text)
}

/// A slice as a value of a script.
#[derive(Drop)]
pub struct SliceValue<T: Element<Q>, Q: Stock> {
    /// The collection.
    pub held: ArraySlice<T, Q>,
}

impl<T: Element<Q>, Q: Stock> Shown for SliceValue<T, Q> {
    ghost seen = { λ v. slice v.held };

    ghost counted = { T.is_counted };

    ghost is_kind = { is_slice };
}

impl<T: Element<Q>, Q: Stock> Collection<Q> for SliceValue<T, Q> {
    ghost takes = { keeps_kind };

    fn count(&self) -> usize {
        self.held.count()
    }

    fn size(&self) -> usize {
        self.held.count()
    }

    fn stop(&self) -> usize {
        self.held.stop()
    }

    fn copy(&mut self, h: &mut Holder<Q>) -> SliceValue<T, Q> {
        SliceValue {
            held: self.held.copy(h),
        }
    }

    fn end(self, h: &mut Holder<Q>) {
        let SliceValue { held } = self;
        held.end(h);
    }

    fn put(&self, text: &mut Vec<u8>) -> Result<(), NoMemory> {
        put_list_from(self, self.held.start(), text)
    }

    fn change(
        &mut self,
        alloc: Global,
        statement: &Statement,
        text: &mut Vec<u8>,
        h: &mut Holder<Q>,
    ) -> Result<Result<(), Refusal>, NoMemory> {
        match statement {
            Statement::Append { atom, .. } => append(&mut self.held, alloc, atom, h),
            Statement::Set { i, atom, .. } => set(&mut self.held, alloc, *i, atom, h),
            Statement::Pop { side, .. } => pop(&mut self.held, *side, text, h),
            _ => Ok(Err(Refusal::WrongKind)),
        }
    }

    fn parts(&self, statement: &Statement) -> bool {
        match statement {
            Statement::Set { i, atom, .. } => !keeps::set(self, self.held.start(), *i, atom),
            Statement::Pop { .. } => false,
            _ => true,
        }
    }

    fn cost(&self, statement: &Statement, alone: bool) -> usize {
        match statement {
            Statement::Pop {
                side: Side::First,
                ..
            } => usize::from(!alone),
            _ if alone => 0,
            _ => self.held.count(),
        }
    }

    fn both_cost(&self, alone: bool) -> usize {
        if alone { 0 } else { self.held.count() }
    }

    fn tell(
        &self,
        statement: &Statement,
        text: &mut Vec<u8>,
    ) -> Result<Result<(), Refusal>, NoMemory> {
        match statement {
            Statement::Count { .. } => {
                put_number(self.held.count(), text)?;
                Ok(Ok(()))
            }
            Statement::Get { atom, .. } => get(self, self.held.start(), atom, text),
            _ => Ok(Err(Refusal::WrongKind)),
        }
    }

    fn slice_refusal(&self, _i: i64, _j: i64) -> Option<Refusal> {
        Some(Refusal::WrongKind)
    }
}

impl<T: Element<Q>, Q: Stock, V: Holds<SliceValue<T, Q>>> Meets<V, Q> for SliceValue<T, Q> {
    fn change_by(
        &mut self,
        _statement: &Statement,
        _other: &V,
        _h: &mut Holder<Q>,
    ) -> Result<Result<(), Refusal>, NoMemory> {
        Ok(Err(Refusal::WrongKind))
    }

    fn refusal_by(&self, _statement: &Statement, _other: &V) -> Option<Refusal> {
        Some(Refusal::WrongKind)
    }

    fn parts_by(&self, _statement: &Statement, _other: &V) -> bool {
        true
    }

    fn tell_both(
        &self,
        statement: &Statement,
        other: &V,
        text: &mut Vec<u8>,
    ) -> Result<Result<(), Refusal>, NoMemory> {
        let Statement::Equal { .. } = statement else {
            return Ok(Err(Refusal::WrongKind));
        };
        let Some(other) = other.as_kind() else {
            return Ok(Err(Refusal::WrongKind));
        };
        equal(&self.held, &other.held, text)?;
        Ok(Ok(()))
    }

    fn slice(&mut self, _i: i64, _j: i64, _h: &mut Holder<Q>) -> Result<V, Refusal> {
        Err(Refusal::WrongKind)
    }
}

impl<T: Element<Q>, Q: Stock> Listed<T, Q> for SliceValue<T, Q> {
    ghost elements = { λ v. v.held.value.items };

    fn size(&self) -> usize {
        self.held.count()
    }

    fn at(&self, place: usize) -> Option<&T> {
        if place < self.held.stop() - self.held.start() {
            self.held.get(self.held.start() + place)
        } else {
            None
        }
    }
}
