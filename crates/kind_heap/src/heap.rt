// The statements on heaps, each as its definition says. A refused one changes nothing and makes no element.
ghost use Rattle.std.specs.Prelude.{◌≡◌, ◌+◌, ◌≤◌, ◌↔◌, [], ◌∷◌, ◌++◌, length, option_map, Some, All, IsTrue, IfOk, OnOk, OnErr};
ghost use Rattle.std.specs.Io.{StartsWith};
ghost use Rattle.cow_model.specs.Literals.{FitsText};
ghost use Rattle.cow_model.specs.Operation as spec;
ghost use Rattle.cow_model.specs.Plain.{max_count};
ghost use Rattle.cow_model.specs.Printed.{line, list_text, nil_or, atom_text};
ghost use Rattle.cow_model.specs.Turns.{whole, keyed, popping, TellsParts};
ghost use Rattle.cow_model.specs.declared.statement.Kind.TheVariants as kind;
ghost use Rattle.cow_model.specs.declared.statement.Side.TheVariants as side;
ghost use Rattle.cow_model.specs.declared.value.Plain.TheVariants as plain;
ghost use Rattle.kind_heap.specs.Values.{heap, is_heap};
ghost use Rattle.cow_value.specs.Seen.{keeps_kind};
ghost use Rattle.cow_value.specs.Calls.{IsReady, Does, Costs, Made};
ghost use Rattle.cow_value.specs.Seen.{fresh, literal};

use cow_cell::{Holder, Stock};
use cow_elements::lines::{put_number, put_or_nil};
use cow_elements::positions::MAX_COUNT;
use cow_elements::reading::{end_all, read_all};
use cow_elements::{Element, put_list};
use cow_heap::Heap;
use cow_item::Item;
use cow_model::{Literal, NoMemory, Refusal, Side, Statement};
use cow_value::{Collection, Meets, Shown};
use std::alloc::Global;

/// `insert N A`
fn insert<T: Element<Q>, Q: Stock>(
    s: &mut Heap<T, Q>,
    alloc: Global,
    atom: &Literal,
    h: &mut Holder<Q>,
) -> Result<Result<(), Refusal>, NoMemory>
    requires length { FitsText atom.now }
    requires ready { IsReady 1 (heap s.old) h.old }
    ensures does { Does (keyed atom.now (spec.insert atom.now)) (heap s.old) (heap s.new) [] [] result }
    ensures paid { Costs T.is_counted (literal T.is_counted (atom.now ∷ []))
        (keyed atom.now (spec.insert atom.now)) (heap s.old) (heap s.new) h.old h.new result }
{
    if s.count() >= MAX_COUNT {
        return Ok(Err(Refusal::Full));
    }
    let x = T::read(alloc, atom, h)?;
    match s.insert(x, h) {
        Ok(()) => Ok(Ok(())),
        Err((refused, x)) => {
            x.end(h);
            Err(refused)
        }
    }
}

/// `pop N min`
fn pop_min<T: Element<Q>, Q: Stock>(
    s: &mut Heap<T, Q>,
    text: &mut Vec<u8>,
    h: &mut Holder<Q>,
) -> Result<Result<(), Refusal>, NoMemory>
    requires ready { IsReady 0 (heap s.old) h.old }
    ensures does { Does (popping side.Min) (heap s.old) (heap s.new)
        text.old.items text.new.items result }
    ensures paid { Costs T.is_counted (literal T.is_counted [])
        (popping side.Min) (heap s.old) (heap s.new) h.old h.new result }
{
    let before = text.len();
    put_or_nil(s.min(), text)?;
    match s.pop_min(h) {
        Ok(None) => Ok(Ok(())),
        Ok(Some(old)) => {
            old.end(h);
            Ok(Ok(()))
        }
        Err(refused) => {
            text.truncate(before);
            Err(refused)
        }
    }
}

/// `pop N max`
fn pop_max<T: Element<Q>, Q: Stock>(
    s: &mut Heap<T, Q>,
    text: &mut Vec<u8>,
    h: &mut Holder<Q>,
) -> Result<Result<(), Refusal>, NoMemory>
    requires ready { IsReady 0 (heap s.old) h.old }
    ensures does { Does (popping side.Max) (heap s.old) (heap s.new)
        text.old.items text.new.items result }
    ensures paid { Costs T.is_counted (literal T.is_counted [])
        (popping side.Max) (heap s.old) (heap s.new) h.old h.new result }
{
    let before = text.len();
    put_or_nil(s.max(), text)?;
    match s.pop_max(h) {
        Ok(None) => Ok(Ok(())),
        Ok(Some(old)) => {
            old.end(h);
            Ok(Ok(()))
        }
        Err(refused) => {
            text.truncate(before);
            Err(refused)
        }
    }
}

/// `replace N min A`
fn replace_min<T: Element<Q>, Q: Stock>(
    s: &mut Heap<T, Q>,
    alloc: Global,
    atom: &Literal,
    text: &mut Vec<u8>,
    h: &mut Holder<Q>,
) -> Result<Result<(), Refusal>, NoMemory>
    requires length { FitsText atom.now }
    requires ready { IsReady 1 (heap s.old) h.old }
    ensures does { Does (whole (spec.replace side.Min atom.now)) (heap s.old) (heap s.new)
        text.old.items text.new.items result }
    ensures paid { Costs T.is_counted (literal T.is_counted (atom.now ∷ []))
        (whole (spec.replace side.Min atom.now)) (heap s.old) (heap s.new) h.old h.new result }
{
    if s.is_empty() {
        return Ok(Err(Refusal::OutOfRange));
    }
    let x = T::read(alloc, atom, h)?;
    let before = text.len();
    if let Err(refused) = put_or_nil(s.min(), text) {
        x.end(h);
        return Err(refused);
    }
    match s.replace_min(x, h) {
        Ok(old) => {
            old.end(h);
            Ok(Ok(()))
        }
        Err((refused, x)) => {
            x.end(h);
            text.truncate(before);
            Err(refused)
        }
    }
}

/// `replace N max A`
fn replace_max<T: Element<Q>, Q: Stock>(
    s: &mut Heap<T, Q>,
    alloc: Global,
    atom: &Literal,
    text: &mut Vec<u8>,
    h: &mut Holder<Q>,
) -> Result<Result<(), Refusal>, NoMemory>
    requires length { FitsText atom.now }
    requires ready { IsReady 1 (heap s.old) h.old }
    ensures does { Does (whole (spec.replace side.Max atom.now)) (heap s.old) (heap s.new)
        text.old.items text.new.items result }
    ensures paid { Costs T.is_counted (literal T.is_counted (atom.now ∷ []))
        (whole (spec.replace side.Max atom.now)) (heap s.old) (heap s.new) h.old h.new result }
{
    if s.is_empty() {
        return Ok(Err(Refusal::OutOfRange));
    }
    let x = T::read(alloc, atom, h)?;
    let before = text.len();
    if let Err(refused) = put_or_nil(s.max(), text) {
        x.end(h);
        return Err(refused);
    }
    match s.replace_max(x, h) {
        Ok(old) => {
            old.end(h);
            Ok(Ok(()))
        }
        Err((refused, x)) => {
            x.end(h);
            text.truncate(before);
            Err(refused)
        }
    }
}

// Whether an element at an end is the atom.
fn is_end<T: Element<Q>, Q: Stock>(x: Option<&T>, atom: &Literal) -> bool
    ensures { IsTrue result ↔ (option_map (λ y. T.plain y.now) x.entry ≡ Some atom.now) }
{
    match x {
        Some(x) => x.is_literal(atom),
        None => false,
    }
}

/// Whether `replace N min A` leaves it alone.
fn replace_min_parts<T: Element<Q>, Q: Stock>(s: &Heap<T, Q>, atom: &Literal) -> bool
    ensures { TellsParts result (whole (spec.replace side.Min atom.now)) (plain.Heap s.now.value) }
{
    !is_end(s.min(), atom)
}

/// Whether `replace N max A` leaves it alone.
fn replace_max_parts<T: Element<Q>, Q: Stock>(s: &Heap<T, Q>, atom: &Literal) -> bool
    ensures { TellsParts result (whole (spec.replace side.Max atom.now)) (plain.Heap s.now.value) }
{
    !is_end(s.max(), atom)
}

/// `let N = heap A*`, in linear time. Each atom counts one copy.
pub fn make<T: Element<Q>, Q: Stock>(
    alloc: Global,
    atoms: &[Literal],
    h: &mut Holder<Q>,
) -> Result<Heap<T, Q>, NoMemory>
    requires texts { All FitsText atoms.now }
    requires small { length atoms.now ≤ max_count }
    requires spare { length atoms.now + 1 ≤ h.old.spare }
    ensures ok { IfOk result (λ s. heap s ≡ fresh (spec.made kind.Heap atoms.now)) }
    ensures paid { Made T.is_counted (spec.made kind.Heap atoms.now) (length atoms.now)
        h.old h.new result }
{
    if atoms.is_empty() {
        return Heap::new(alloc, h);
    }
    let items = read_all(alloc, atoms, h)?;
    match Heap::from_vec(alloc, items, h) {
        Ok(s) => Ok(s),
        Err((refused, items)) => {
            end_all(items, h);
            Err(refused)
        }
    }
}

// Appends the printed form. Want of memory leaves a part of it.
fn put_sorted<T: Element<Q>, Q: Stock>(s: &Heap<T, Q>, text: &mut Vec<u8>) -> Result<(), NoMemory>
    ensures ok { OnOk result (text.new.items ≡ text.old.items ++ list_text s.now.value) }
    ensures front { StartsWith text.new.items text.old.items }
{
    let elements = s.sorted(*text.allocator())?;
    put_list(&elements, text)
}

/// A heap as a value of a script.
#[derive(Drop)]
pub struct HeapValue<T: Element<Q>, Q: Stock> {
    /// The collection.
    pub held: Heap<T, Q>,
}

impl<T: Element<Q>, Q: Stock> Shown for HeapValue<T, Q> {
    ghost seen = { λ v. heap v.held };

    ghost counted = { T.is_counted };

    ghost is_kind = { is_heap };
}

impl<T: Element<Q>, Q: Stock> Collection<Q> for HeapValue<T, Q> {
    ghost takes = { keeps_kind };

    fn count(&self) -> usize {
        self.held.count()
    }

    fn size(&self) -> usize {
        self.held.count()
    }

    fn stop(&self) -> usize {
        self.held.count()
    }

    fn copy(&mut self, h: &mut Holder<Q>) -> HeapValue<T, Q> {
        HeapValue {
            held: self.held.copy(h),
        }
    }

    fn end(self, h: &mut Holder<Q>) {
        let HeapValue { held } = self;
        held.end(h);
    }

    fn put(&self, text: &mut Vec<u8>) -> Result<(), NoMemory> {
        put_sorted(&self.held, text)
    }

    fn change(
        &mut self,
        alloc: Global,
        statement: &Statement,
        text: &mut Vec<u8>,
        h: &mut Holder<Q>,
    ) -> Result<Result<(), Refusal>, NoMemory> {
        match statement {
            Statement::Insert { atom, .. } => insert(&mut self.held, alloc, atom, h),
            Statement::Pop { side, .. } => match side {
                Side::Min => pop_min(&mut self.held, text, h),
                Side::Max => pop_max(&mut self.held, text, h),
                _ => Ok(Err(Refusal::WrongKind)),
            },
            Statement::Replace { side, atom, .. } => match side {
                Side::Min => replace_min(&mut self.held, alloc, atom, text, h),
                Side::Max => replace_max(&mut self.held, alloc, atom, text, h),
                _ => Ok(Err(Refusal::WrongKind)),
            },
            _ => Ok(Err(Refusal::WrongKind)),
        }
    }

    fn parts(&self, statement: &Statement) -> bool {
        match statement {
            Statement::Pop { .. } => !self.held.is_empty(),
            Statement::Replace { side, atom, .. } => match side {
                Side::Min => replace_min_parts(&self.held, atom),
                Side::Max => replace_max_parts(&self.held, atom),
                _ => true,
            },
            _ => true,
        }
    }

    fn cost(&self, _statement: &Statement, alone: bool) -> usize {
        if alone { 0 } else { self.held.count() }
    }

    fn both_cost(&self, alone: bool) -> usize {
        if alone { 0 } else { self.held.count() }
    }

    fn tell(
        &self,
        statement: &Statement,
        text: &mut Vec<u8>,
    ) -> Result<Result<(), Refusal>, NoMemory> {
        match statement {
            Statement::Count { .. } => put_number(self.held.count(), text)?,
            Statement::Peek { side, .. } => match side {
                Side::Min => put_or_nil(self.held.min(), text)?,
                Side::Max => put_or_nil(self.held.max(), text)?,
                _ => return Ok(Err(Refusal::WrongKind)),
            },
            _ => return Ok(Err(Refusal::WrongKind)),
        }
        Ok(Ok(()))
    }

    fn slice_refusal(&self, _i: i64, _j: i64) -> Option<Refusal> {
        Some(Refusal::WrongKind)
    }
}

impl<T: Element<Q>, Q: Stock, V: Shown> Meets<V, Q> for HeapValue<T, Q> {
    fn change_by(
        &mut self,
        _statement: &Statement,
        _other: &V,
        _h: &mut Holder<Q>,
    ) -> Result<Result<(), Refusal>, NoMemory> {
        Ok(Err(Refusal::WrongKind))
    }

    fn refusal_by(&self, _statement: &Statement, _other: &V) -> Option<Refusal> {
        Some(Refusal::WrongKind)
    }

    fn parts_by(&self, _statement: &Statement, _other: &V) -> bool {
        true
    }

    fn tell_both(
        &self,
        _statement: &Statement,
        _other: &V,
        _text: &mut Vec<u8>,
    ) -> Result<Result<(), Refusal>, NoMemory> {
        Ok(Err(Refusal::WrongKind))
    }

    fn slice(&mut self, _i: i64, _j: i64, _h: &mut Holder<Q>) -> Result<V, Refusal> {
        Err(Refusal::WrongKind)
    }
}
