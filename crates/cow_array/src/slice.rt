ghost use Rattle.std.specs.Prelude.{◌≡◌, ℕ, ◌+◌, ◌-◌, ◌*◌, ◌<◌, ◌≤◌, ◌^◌, List, [], ◌∷◌, ◌++◌, length, map, take, drop, count_by, slice_get, slice_set, IfOk, IfErr, OnOk, OnErr, IsOk, IsSome, IsNone, IfSome, IfNone, IsTrue, ◌↔◌, All, option_map, true, false, if◌then◌else◌};
ghost use Rattle.cow_model.specs.Purse.{Moves, less, more, unit_if};
ghost use Rattle.cow_model.specs.Flat.{need, copies, settled, HasRoom, Stays, Becomes};
ghost use Rattle.cow_array.specs.Slice.{element, with_element};
ghost use Rattle.cow_array.specs.Words.{AddsUnit, PaysShown};
ghost use Rattle.cow_row.specs.Changes.{InPlace, HandsBack};
ghost use Rattle.std.specs.List.{push};

use crate::array::Array;
use cow_cell::{Counted, Holder, Stock};
use cow_item::{Item, Key};
use cow_model::NoMemory;
use cow_row::{Row, storage};
use std::alloc::Global;
use std::marker::Model;

/// A run of an array's elements that keeps their indices, after Swift's `ArraySlice`. It shares the
/// array's storage and keeps that alive, with the items that it doesn't show. Costs are those of `Array`.
#[derive(Drop)]
pub struct ArraySlice<T: Item<Q>, Q: Stock> {
    pub(crate) cell: Counted<Row<T>, Q>,
    /// Where its elements begin in the storage.
    pub(crate) from: usize,
    pub(crate) count: usize,
    /// The index of its first element.
    pub(crate) start: usize,
    pub(crate) alloc: Global,
}

impl<T: Item<Q>, Q: Stock> Model for ArraySlice<T, Q> {
    ghost use Rattle.std.specs.Prelude.{◌+◌, ◌-◌, ◌≤◌, ◌<◌, ◌^◌, List, length, map, take, drop, count_by, All};
    ghost use Rattle.cow_model.specs.Flat.{Flat};
    ghost use Rattle.cow_array.specs.Slice.{Slice};
    ghost use Rattle.cow_row.specs.RowView.{IsSound};

    ghost Value = { Flat Slice };

    ghost view = { λ a. record { value = record { items = map T.plain (take a.count (drop a.from a.cell.value.items)); start = a.start; units = count_by T.is_counted (map T.plain a.cell.value.items) }; alone = a.cell.alone; room = a.cell.value.capacity - (a.from + a.count) } };

    ghost invariant = { λ a. IsSound T.IsSettled a.cell.value × (a.from + a.count ≤ length a.cell.value.items) × (a.from ≤ a.start) × (a.start + a.count ≤ 2 ^ 31) × (a.count < 2 ^ 31) };
}

impl<T: Item<Q>, Q: Stock> ArraySlice<T, Q> {
    /// How many elements there are: Swift's `count`. One step.
    #[tactic(auto, using(cow_row::proofs::Runs::row_steps))]
    pub fn count(&self) -> usize
        ensures value { result ≡ length self.now.value.items }
        ensures small { result < 2 ^ 31 }
    {
        self.count
    }

    /// Whether there is no element: Swift's `isEmpty`. One step.
    #[tactic(auto, using(cow_row::proofs::Runs::row_steps))]
    pub fn is_empty(&self) -> bool
        ensures { IsTrue result ↔ (self.now.value.items ≡ []) }
    {
        self.count == 0
    }

    /// The elements, in order, for reading. One step.
    #[tactic(auto, using(cow_row::proofs::Runs::row_steps))]
    pub fn as_slice(&self) -> &[T]
        ensures value { map T.plain result.now ≡ self.now.value.items }
        ensures settled { All T.IsSettled result.now }
    {
        self.cell.get().run(self.from, self.count)
    }

    /// The index of the first element: Swift's `startIndex`. One step.
    pub fn start(&self) -> usize
        ensures { result ≡ self.now.value.start }
    {
        self.start
    }

    /// The index after the last element: Swift's `endIndex`. One step.
    #[tactic(auto, using(cow_row::proofs::Runs::row_steps))]
    pub fn stop(&self) -> usize
        ensures value { result ≡ self.now.value.start + length self.now.value.items }
        ensures small { result ≤ 2 ^ 31 }
    {
        self.start + self.count
    }

    /// The element of index `i`; `None` exactly where that is none of the slice's. One step.
    #[tactic(auto, using(cow_row::proofs::Runs::row_steps))]
    pub fn get(&self, i: usize) -> Option<&T>
        ensures below { i < self.now.value.start → IsNone result }
        ensures value { self.now.value.start ≤ i
            → option_map (λ x. T.plain x.now) result ≡ element self.now.value i }
        ensures settled { IfSome result (λ x. T.IsSettled x.now) }
    {
        if self.start <= i && i - self.start < self.count {
            Some(self.cell.get().get(self.from + (i - self.start)))
        } else {
            None
        }
    }

    /// A second whole value, in one step: both show the elements, and neither is alone.
    pub fn copy(&mut self, h: &mut Holder<Q>) -> ArraySlice<T, Q>
        requires { 1 ≤ h.old.spare }
        ensures same { self.new ≡ settled self.old }
        ensures copy { result ≡ settled self.old }
        ensures spent { h.new ≡ less 1 h.old }
    {
        ArraySlice {
            cell: self.cell.share(h),
            from: self.from,
            count: self.count,
            start: self.start,
            alloc: self.alloc,
        }
    }

    /// The same of a slice that isn't alone. Any number of threads may call it on one slice.
    pub fn copy_settled(&self, h: &mut Holder<Q>) -> ArraySlice<T, Q>
        requires settled { self.now.alone ≡ false }
        requires spare { 1 ≤ h.old.spare }
        ensures copy { result ≡ self.now }
        ensures spent { h.new ≡ less 1 h.old }
    {
        ArraySlice {
            cell: self.cell.share_settled(h),
            from: self.from,
            count: self.count,
            start: self.start,
            alloc: self.alloc,
        }
    }

    /// Not known to be alone any more. Nothing at run time.
    pub fn settle(&mut self)
        ensures { self.new ≡ settled self.old }
    {
        self.cell.settle();
    }

    /// The handle is given back; the last one of a storage ends its items, shown or not.
    pub fn end(self, h: &mut Holder<Q>)
        ensures moved { Moves self.value.units 0 (more 1 h.old) h.new }
        ensures exact { self.alone ≡ true → h.new ≡ more self.value.units (more 1 h.old) }
        ensures never_less { h.old.spare + 1 ≤ h.new.spare }
    {
        let ArraySlice { cell, .. } = self;
        storage::end_cell(cell, h);
    }

    /// `x` stands in the place of the element of index `i`, which is handed out. One step where the
    /// storage is unshared, else the slice's own elements are copied.
    #[tactic(auto, using(cow_row::proofs::Runs::row_steps))]
    pub fn set(&mut self, i: usize, x: T, h: &mut Holder<Q>) -> Result<T, (NoMemory, T)>
        requires above { self.old.value.start ≤ i }
        requires below { i < self.old.value.start + length self.old.value.items }
        requires spare { need (length self.old.value.items) ≤ h.old.spare }
        ensures items { OnOk result
            (self.new.value.items ≡ with_element self.old.value i (T.plain x)) }
        ensures start { self.new.value.start ≡ self.old.value.start }
        ensures units { OnOk result (AddsUnit (T.is_counted (T.plain x)) self.old self.new) }
        ensures alone { OnOk result (self.new.alone ≡ true) }
        ensures old { IfOk result (λ y. element self.old.value i ≡ Some (T.plain y)) }
        ensures within { InPlace 0 0 result self.old self.new }
        ensures refused { IfErr result (HandsBack x self.old self.new h.old h.new) }
        ensures falls { h.old.spare ≤ h.new.spare + length self.old.value.items }
        ensures moved { PaysShown T.WEIGHT self.old h.old h.new }
    {
        match storage::prepare_run(&mut self.cell, self.from, self.count, self.alloc, 0, h) {
            Ok(from) => self.from = from,
            Err(refused) => return Err((refused, x)),
        }
        let mut x = x;
        x.settle();
        Ok(self.cell.only().replace(self.from + (i - self.start), x))
    }

    /// `x` stands last, and the start stays. One step over many calls where the storage is unshared,
    /// else the slice's own elements are copied. An item that the storage holds behind the slice ends,
    /// and `x` takes its place.
    #[tactic(auto, using(cow_row::proofs::Runs::row_steps))]
    pub fn append(&mut self, x: T, h: &mut Holder<Q>) -> Result<(), (NoMemory, T)>
        requires growth { length self.old.value.items + 1 < 2 ^ 31 }
        requires stop { self.old.value.start + length self.old.value.items < 2 ^ 31 }
        requires spare { need (length self.old.value.items) ≤ h.old.spare }
        ensures items { OnOk result
            (self.new.value.items ≡ push self.old.value.items (T.plain x)) }
        ensures start { self.new.value.start ≡ self.old.value.start }
        ensures units { OnOk result (AddsUnit (T.is_counted (T.plain x)) self.old self.new) }
        ensures alone { OnOk result (self.new.alone ≡ true) }
        ensures within { InPlace 1 0 result self.old self.new }
        ensures doubled { self.old.room ≡ 0
            → OnOk result (length self.old.value.items ≤ self.new.room + 1) }
        ensures refused { IfErr result (HandsBack x self.old self.new h.old h.new) }
        ensures falls { h.old.spare ≤ h.new.spare + length self.old.value.items }
        ensures moved { PaysShown T.WEIGHT self.old h.old h.new }
    {
        match storage::prepare_run(&mut self.cell, self.from, self.count, self.alloc, 1, h) {
            Ok(from) => self.from = from,
            Err(refused) => return Err((refused, x)),
        }
        let mut x = x;
        x.settle();
        storage::put_behind(self.cell.only(), self.from + self.count, x, h);
        self.count += 1;
        Ok(())
    }

    /// The array of the elements. Nothing is copied where the handle is alone: the items that the
    /// slice doesn't show end, and its own move to the first place.
    #[tactic(auto, using(cow_row::proofs::Runs::row_steps))]
    pub fn into_array(self, h: &mut Holder<Q>) -> Result<Array<T, Q>, (NoMemory, ArraySlice<T, Q>)>
        requires spare { need (length self.value.items) ≤ h.old.spare }
        ensures ok { IfOk result (λ a. Becomes self.value.items a) }
        ensures within { self.alone ≡ true → IsOk result }
        ensures refused { IfErr result (λ e. (e.1 ≡ self) × (h.new ≡ h.old)) }
        ensures exact { self.alone ≡ true
            → h.new.spare + count_by T.is_counted self.value.items ≡ h.old.spare + self.value.units }
        ensures falls { h.old.spare ≤ h.new.spare + length self.value.items }
        ensures moved { PaysShown T.WEIGHT self h.old h.new }
    {
        let ArraySlice {
            mut cell,
            from,
            count,
            start,
            alloc,
        } = self;
        if let Some(row) = cell.sole(h) {
            storage::keep_run(row, from, count, h);
            return Ok(Array { cell, alloc });
        }
        match storage::renew(&mut cell, from, count, alloc, count, h) {
            Ok(()) => Ok(Array { cell, alloc }),
            Err(refused) => Err((
                refused,
                ArraySlice {
                    cell,
                    from,
                    count,
                    start,
                    alloc,
                },
            )),
        }
    }

    /// The first element, taken out; `None` exactly where there is none. One step, and no memory: an
    /// unshared storage hands its item out, and of a shared one the item is copied.
    #[tactic(auto, using(cow_row::proofs::Runs::row_steps))]
    pub fn pop_first(&mut self, h: &mut Holder<Q>) -> Option<T>
        requires { 1 ≤ h.old.spare }
        ensures first { option_map T.plain result ≡ slice_get self.old.value.items 0 }
        ensures rest { self.new.value.items ≡ drop 1 self.old.value.items }
        ensures start { IfSome result (λ _. self.new.value.start ≡ self.old.value.start + 1) }
        ensures units { self.new.value.units ≤ self.old.value.units }
        ensures room { self.new.room ≡ self.old.room }
        ensures empty { IfNone result ((self.new ≡ self.old) × (h.new ≡ h.old)) }
        ensures alone { self.old.alone ≡ true → self.new.alone ≡ true }
        ensures paid { IfSome result (λ x.
            Moves (unit_if (T.is_counted (T.plain x))) (copies self.old.alone T.WEIGHT) h.old h.new) }
    {
        if self.count == 0 {
            return None;
        }
        let from = self.from;
        self.count -= 1;
        self.start += 1;
        if let Some(row) = self.cell.sole(h) {
            return Some(row.swap_remove_front(from));
        }
        self.from += 1;
        Some(self.cell.get().get(from).copy(h))
    }
}

impl<T: Key<Q>, Q: Stock> ArraySlice<T, Q> {
    /// Whether the two have the same elements in the same order, wherever they start. One pass at most.
    #[tactic(auto, using(cow_row::proofs::Runs::row_steps))]
    pub fn equals(&self, other: &ArraySlice<T, Q>) -> bool
        ensures { IsTrue result ↔ (self.now.value.items ≡ other.now.value.items) }
    {
        if self.count != other.count {
            return false;
        }
        let left = self.cell.get();
        let right = other.cell.get();
        for i in 0..self.count {
            if !left.get(self.from + i).same(right.get(other.from + i)) {
                return false;
            }
        }
        true
    }
}
