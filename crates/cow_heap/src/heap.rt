ghost use Rattle.std.specs.Prelude.{◌≡◌, ℕ, ◌+◌, ◌-◌, ◌*◌, ◌<◌, ◌≤◌, ◌^◌, List, vec_len, [], ◌∷◌, length, map, min, count_by, slice_get, remove, IfOk, IfErr, OnOk, OnErr, IsOk, All, option_map, IfSome, IfNone, Some, IsTrue, ◌↔◌, true, false};
ghost use Rattle.std.specs.List.{push};
ghost use Rattle.cow_heap.specs.Heaps.{IsHeap, ascent, seen};
ghost use Rattle.cow_row.specs.Changes.{InPlace, HandsBack, Doubles, Returns};
ghost use Rattle.cow_model.specs.Flat.{Becomes, Stays, HasRoom, need, settled};
ghost use Rattle.cow_model.specs.Lists.{Pays};
ghost use Rattle.cow_model.specs.Members.{ascending, in_order};
ghost use Rattle.cow_model.specs.Purse.{Moves, less, more};
ghost use Rattle.cow_row.specs.Words.{IsWide};

use crate::{ends, levels};
use cow_cell::{Counted, Holder, Stock};
use cow_item::Key;
use cow_model::NoMemory;
use cow_row::{Row, row, storage};
use std::alloc::Global;
use std::marker::Model;

/// Elements of which the least and the greatest are at hand, repeats among them, over counted storage: Swift's
/// `Heap`. A copy shares the storage until one of the two is changed.
///
/// A change of a storage that others hold copies the elements first, in linear time; what is said below of
/// costs holds where the storage is unshared. Only `new`, `from_vec` and the calls that answer `NoMemory` take
/// memory.
#[derive(Drop)]
pub struct Heap<T: Key<Q>, Q: Stock> {
    cell: Counted<Row<T>, Q>,
    alloc: Global,
}

impl<T: Key<Q>, Q: Stock> Model for Heap<T, Q> {
    ghost use Rattle.std.specs.Prelude.{◌<◌, ◌^◌, List, length};
    ghost use Rattle.cow_heap.specs.Heaps.{IsHeap, seen};
    ghost use Rattle.cow_model.specs.Flat.{Flat};
    ghost use Rattle.cow_model.specs.declared.plain.Literal.{Literal};

    ghost Value = { Flat (List Literal) };

    ghost view = { λ s. seen T.plain s.cell };

    ghost invariant = { λ s. IsHeap T.plain T.IsSettled s.cell.value × (length s.cell.value.items < 2 ^ 31) };
}

impl<T: Key<Q>, Q: Stock> Heap<T, Q> {
    /// An empty heap: Swift's `init()`. Takes one block of memory. Answers `NoMemory` only for want of it.
    pub fn new(alloc: Global, h: &mut Holder<Q>) -> Result<Heap<T, Q>, NoMemory>
        requires { 1 ≤ h.old.spare }
        ensures ok { IfOk result (λ s. Becomes [] s) }
        ensures spent { OnOk result (h.new ≡ less 1 h.old) }
        ensures refused { OnErr result (h.new ≡ h.old) }
    {
        let cell = storage::empty(alloc, 0, h)?;
        Ok(Heap { cell, alloc })
    }

    /// A heap of these items, none of them copied: Swift's `init(_:)`. Linear in their number.
    pub fn from_vec(
        alloc: Global,
        items: Vec<T>,
        h: &mut Holder<Q>,
    ) -> Result<Heap<T, Q>, (NoMemory, Vec<T>)>
        requires growth { vec_len items < 2 ^ 31 }
        requires spare { 1 ≤ h.old.spare }
        ensures ok { IfOk result (λ s. Becomes (ascending (map T.plain items.items)) s) }
        ensures spent { OnOk result (h.new ≡ less 1 h.old) }
        ensures refused { IfErr result (λ e. (e.1 ≡ items) × (h.new ≡ h.old)) }
    {
        let mut cell = match storage::empty(alloc, items.len(), h) {
            Ok(cell) => cell,
            Err(refused) => return Err((refused, items)),
        };
        let row = cell.only();
        row::replace_run(row, 0, 0, items, h);
        levels::build(row);
        Ok(Heap { cell, alloc })
    }

    /// How many elements there are: Swift's `count`. One step.
    pub fn count(&self) -> usize
        ensures value { result ≡ length self.now.value }
        ensures small { result < 2 ^ 31 }
    {
        self.cell.get().len()
    }

    /// Whether there is no element: Swift's `isEmpty`. One step.
    pub fn is_empty(&self) -> bool
        ensures { IsTrue result ↔ (self.now.value ≡ []) }
    {
        self.cell.get().is_empty()
    }

    /// The least element; `None` exactly where there is none. Swift's `min`. One step.
    pub fn min(&self) -> Option<&T>
        ensures value { option_map (λ x. T.plain x.now) result ≡ slice_get self.now.value 0 }
        ensures ascends { ascending self.now.value ≡ self.now.value }
        ensures settled { IfSome result (λ x. T.IsSettled x.now) }
    {
        let row = self.cell.get();
        if row.is_empty() {
            return None;
        }
        Some(row.get(0))
    }

    /// The greatest element; `None` exactly where there is none. Swift's `max`. One step.
    pub fn max(&self) -> Option<&T>
        ensures value { option_map (λ x. T.plain x.now) result
            ≡ slice_get self.now.value (length self.now.value - 1) }
        ensures ascends { ascending self.now.value ≡ self.now.value }
        ensures settled { IfSome result (λ x. T.IsSettled x.now) }
    {
        let row = self.cell.get();
        if row.is_empty() {
            return None;
        }
        Some(row.get(levels::max_place(row)))
    }

    /// A second whole value, in one step: both show the elements, and neither is alone.
    pub fn copy(&mut self, h: &mut Holder<Q>) -> Heap<T, Q>
        requires { 1 ≤ h.old.spare }
        ensures same { self.new ≡ settled self.old }
        ensures copy { result ≡ settled self.old }
        ensures spent { h.new ≡ less 1 h.old }
    {
        Heap {
            cell: self.cell.share(h),
            alloc: self.alloc,
        }
    }

    /// The same of a heap that isn't alone. Any number of threads may call it on one heap.
    pub fn copy_settled(&self, h: &mut Holder<Q>) -> Heap<T, Q>
        requires settled { self.now.alone ≡ false }
        requires spare { 1 ≤ h.old.spare }
        ensures copy { result ≡ self.now }
        ensures spent { h.new ≡ less 1 h.old }
    {
        Heap {
            cell: self.cell.share_settled(h),
            alloc: self.alloc,
        }
    }

    /// Not known to be alone any more. Nothing at run time.
    pub fn settle(&mut self)
        ensures { self.new ≡ settled self.old }
    {
        self.cell.settle();
    }

    /// The handle is given back; the last one of a storage ends its items, in one pass.
    pub fn end(self, h: &mut Holder<Q>)
        ensures moved { Moves (count_by T.is_counted self.value) 0 (more 1 h.old) h.new }
        ensures exact { Returns T.is_counted self (more 1 h.old) h.new }
        ensures never_less { h.old.spare + 1 ≤ h.new.spare }
    {
        let Heap { cell, alloc: _ } = self;
        storage::end_cell(cell, h);
    }

    /// `x` is added: Swift's `insert`. Logarithmic in the count over many calls: a full storage at least doubles.
    pub fn insert(&mut self, x: T, h: &mut Holder<Q>) -> Result<(), (NoMemory, T)>
        requires growth { length self.old.value + 1 < 2 ^ 31 }
        requires spare { need (length self.old.value) ≤ h.old.spare }
        ensures ok { OnOk result (Becomes (in_order (T.plain x) self.old.value) self.new) }
        ensures within { InPlace 1 0 result self.old self.new }
        ensures doubled { Doubles 1 result self.old self.new }
        ensures refused { IfErr result (HandsBack x self.old self.new h.old h.new) }
        ensures paid { Pays T.is_counted T.WEIGHT self.old h.old h.new }
        ensures free { self.old.alone ≡ true → h.new ≡ h.old }
    {
        if let Err(refused) = prepare(&mut self.cell, self.alloc, 1, h) {
            return Err((refused, x));
        }
        let mut x = x;
        x.settle();
        ends::insert(self.cell.only(), x);
        Ok(())
    }

    /// The least element, taken out; `None` exactly where there is none. Swift's `popMin`. Logarithmic in the count.
    pub fn pop_min(&mut self, h: &mut Holder<Q>) -> Result<Option<T>, NoMemory>
        requires spare { need (length self.old.value) ≤ h.old.spare }
        ensures least { IfOk result (λ o. IfSome o (λ x.
            self.old.value ≡ T.plain x ∷ self.new.value)) }
        ensures alone { IfOk result (λ o. IfSome o (λ _. self.new.alone ≡ true)) }
        ensures none { IfOk result (λ o. IfNone o
            ((self.old.value ≡ []) × (self.new ≡ self.old))) }
        ensures empty { self.old.value ≡ [] → IsOk result }
        ensures within { InPlace 0 (min 1 (length self.old.value)) result self.old self.new }
        ensures refused { OnErr result (Stays self.old self.new × (h.new ≡ h.old)) }
        ensures paid { Pays T.is_counted T.WEIGHT self.old h.old h.new }
        ensures free { self.old.alone ≡ true → h.new ≡ h.old }
    {
        if self.count() == 0 {
            return Ok(None);
        }
        prepare(&mut self.cell, self.alloc, 0, h)?;
        Ok(Some(ends::pop_min(self.cell.only())))
    }

    /// The greatest element, taken out; `None` exactly where there is none. Swift's `popMax`. Logarithmic in the
    /// count.
    pub fn pop_max(&mut self, h: &mut Holder<Q>) -> Result<Option<T>, NoMemory>
        requires spare { need (length self.old.value) ≤ h.old.spare }
        ensures greatest { IfOk result (λ o. IfSome o (λ x.
            self.old.value ≡ push self.new.value (T.plain x))) }
        ensures alone { IfOk result (λ o. IfSome o (λ _. self.new.alone ≡ true)) }
        ensures none { IfOk result (λ o. IfNone o
            ((self.old.value ≡ []) × (self.new ≡ self.old))) }
        ensures empty { self.old.value ≡ [] → IsOk result }
        ensures within { InPlace 0 (min 1 (length self.old.value)) result self.old self.new }
        ensures refused { OnErr result (Stays self.old self.new × (h.new ≡ h.old)) }
        ensures paid { Pays T.is_counted T.WEIGHT self.old h.old h.new }
        ensures free { self.old.alone ≡ true → h.new ≡ h.old }
    {
        if self.count() == 0 {
            return Ok(None);
        }
        prepare(&mut self.cell, self.alloc, 0, h)?;
        Ok(Some(ends::pop_max(self.cell.only())))
    }

    /// The least element, which is handed out, with `x` in its stead: Swift's `replaceMin(with:)`. Logarithmic in
    /// the count.
    pub fn replace_min(&mut self, x: T, h: &mut Holder<Q>) -> Result<T, (NoMemory, T)>
        requires some { 0 < length self.old.value }
        requires spare { need (length self.old.value) ≤ h.old.spare }
        ensures ok { OnOk result
            (Becomes (in_order (T.plain x) (remove self.old.value 0)) self.new) }
        ensures old { IfOk result (λ y. slice_get self.old.value 0 ≡ Some (T.plain y)) }
        ensures within { InPlace 0 0 result self.old self.new }
        ensures refused { IfErr result (HandsBack x self.old self.new h.old h.new) }
        ensures paid { Pays T.is_counted T.WEIGHT self.old h.old h.new }
        ensures free { self.old.alone ≡ true → h.new ≡ h.old }
    {
        if let Err(refused) = prepare(&mut self.cell, self.alloc, 0, h) {
            return Err((refused, x));
        }
        let mut x = x;
        x.settle();
        Ok(ends::replace_min(self.cell.only(), x))
    }

    /// The greatest element, which is handed out, with `x` in its stead: Swift's `replaceMax(with:)`. Logarithmic
    /// in the count.
    pub fn replace_max(&mut self, x: T, h: &mut Holder<Q>) -> Result<T, (NoMemory, T)>
        requires some { 0 < length self.old.value }
        requires spare { need (length self.old.value) ≤ h.old.spare }
        ensures ok { OnOk result (Becomes
            (in_order (T.plain x) (remove self.old.value (length self.old.value - 1))) self.new) }
        ensures old { IfOk result (λ y.
            slice_get self.old.value (length self.old.value - 1) ≡ Some (T.plain y)) }
        ensures within { InPlace 0 0 result self.old self.new }
        ensures refused { IfErr result (HandsBack x self.old self.new h.old h.new) }
        ensures paid { Pays T.is_counted T.WEIGHT self.old h.old h.new }
        ensures free { self.old.alone ≡ true → h.new ≡ h.old }
    {
        if let Err(refused) = prepare(&mut self.cell, self.alloc, 0, h) {
            return Err((refused, x));
        }
        let mut x = x;
        x.settle();
        Ok(ends::replace_max(self.cell.only(), x))
    }

    /// All elements in ascending order, for reading. Takes memory for the references, and sorts them.
    pub fn sorted(&self, alloc: Global) -> Result<Vec<&T>, NoMemory>
        ensures value { IfOk result (λ v. map (λ x. T.plain x.now) v.items ≡ self.now.value) }
        ensures settled { IfOk result (λ v. All (λ x. T.IsSettled x.now) v.items) }
    {
        let mut items = references(alloc, self.cell.get().as_slice())?;
        items.sort_unstable_by(|x, y| x.order(y));
        Ok(items)
    }
}

/// A reference to each item, in order.
fn references<T>(alloc: Global, items: &[T]) -> Result<Vec<&T>, NoMemory>
    ensures { IfOk result (λ v. map (λ x. x.now) v.items ≡ items.now) }
{
    match items.iter().collect(alloc) {
        Ok(references) => Ok(references),
        Err(_) => Err(NoMemory),
    }
}

/// Makes the handle alone, with room for `extra` more items. The items stay in order of levels.
#[inline]
fn prepare<T: Key<Q>, Q: Stock>(
    cell: &mut Counted<Row<T>, Q>,
    alloc: Global,
    extra: usize,
    h: &mut Holder<Q>,
) -> Result<(), NoMemory>
    requires heap { IsHeap T.plain T.IsSettled cell.old.value }
    requires growth { length cell.old.value.items + extra ≤ 2 ^ 31 }
    requires spare { need (length (ascent T.plain cell.old.value.items)) ≤ h.old.spare }
    ensures heap { IsHeap T.plain T.IsSettled cell.new.value }
    ensures value { ascent T.plain cell.new.value.items ≡ ascent T.plain cell.old.value.items }
    ensures count { length cell.new.value.items ≡ length cell.old.value.items }
    ensures alone { OnOk result (cell.new.alone ≡ true) }
    ensures room { OnOk result (length cell.old.value.items + extra ≤ cell.new.value.capacity) }
    ensures within { HasRoom extra (seen T.plain cell.old) → IsOk result × (cell.new ≡ cell.old) }
    ensures doubled { cell.old.value.capacity < length cell.old.value.items + extra
        → OnOk result (IsWide (2 * length cell.old.value.items) cell.new.value) }
    ensures refused { OnErr result
        (Stays (seen T.plain cell.old) (seen T.plain cell.new) × (h.new ≡ h.old)) }
    ensures paid { Pays T.is_counted T.WEIGHT (seen T.plain cell.old) h.old h.new }
    ensures free { cell.old.alone ≡ true → h.new ≡ h.old }
{
    storage::prepare(cell, alloc, extra, h)
}
