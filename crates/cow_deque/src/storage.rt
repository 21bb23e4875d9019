ghost use Rattle.std.specs.Prelude.{◌≡◌, ℕ, ◌+◌, ◌*◌, ◌<◌, ◌≤◌, ◌^◌, [], ◌++◌, length, map, max, vec_len, OnOk, OnErr, IfOk, IsOk, IsTrue, All, true};
ghost use Rattle.cow_model.specs.Purse.{Moves, less, more, noted};
ghost use Rattle.cow_cell.specs.Words.{Holds, unsure};
ghost use Rattle.cow_row.specs.RowView.{IsSound};
ghost use Rattle.cow_row.specs.Words.{units, IsFresh, IsWide, StandsBy, Costs, Returns, Gains};

use crate::ring::{Ring, copy_items};
use cow_cell::{Counted, Holder, Stock};
use cow_item::Item;
use cow_model::NoMemory;
use cow_row::storage::grown;
use std::alloc::Global;
use std::mem;

/// Ends each item, from front to back. Takes no memory.
fn end_items<T: Item<Q>, Q: Stock>(ring: &mut Ring<T>, h: &mut Holder<Q>)
    ensures { h.new ≡ more (units T.plain T.is_counted ring.old.items) h.old }
{
    while let Some(x) = ring.pop_front() {
        x.end(h);
    }
}

/// Ends the handle, and its items where it was the last one. Takes no memory.
pub fn end_cell<T: Item<Q>, Q: Stock>(cell: Counted<Ring<T>, Q>, h: &mut Holder<Q>)
    ensures moved { Moves (units T.plain T.is_counted cell.value.items) 0 (more 1 h.old) h.new }
    ensures exact { Returns T.plain T.is_counted cell (more 1 h.old) h.new }
    ensures never_less { h.old.spare + 1 ≤ h.new.spare }
{
    if let Some(mut ring) = cell.end(h) {
        end_items(&mut ring, h);
    }
}

/// An alone handle of a new storage without items, with room for `capacity`. Takes memory for both.
pub fn empty<T: Item<Q>, Q: Stock>(
    alloc: Global,
    capacity: usize,
    h: &mut Holder<Q>,
) -> Result<Counted<Ring<T>, Q>, NoMemory>
    requires bound { capacity ≤ 2 ^ 32 }
    requires spare { 1 ≤ h.old.spare }
    ensures ok { IfOk result (λ c. Holds (record { items = []; front = 0; capacity = capacity }) c) }
    ensures spent { OnOk result (h.new ≡ less 1 h.old) }
    ensures refused { OnErr result (h.new ≡ h.old) }
{
    let ring = Ring::with_capacity(alloc, capacity)?;
    match Counted::new(alloc, ring, h) {
        Ok(cell) => Ok(cell),
        Err((refused, _ring)) => Err(refused),
    }
}

/// Puts a new storage in place of one that others hold too: of copies of its items, at a capacity. All its memory
/// is taken first, then the items are copied, which can't be refused, and last the old handle is ended. Linear in
/// their number.
#[cold]
#[inline(never)]
fn renew<T: Item<Q>, Q: Stock>(
    cell: &mut Counted<Ring<T>, Q>,
    alloc: Global,
    capacity: usize,
    h: &mut Holder<Q>,
) -> Result<(), NoMemory>
    requires sound { IsSound T.IsSettled cell.old.value }
    requires room { length cell.old.value.items ≤ capacity }
    requires bound { capacity ≤ 2 ^ 32 }
    requires spare { length cell.old.value.items + 1 ≤ h.old.spare }
    ensures same { map T.plain cell.new.value.items ≡ map T.plain cell.old.value.items }
    ensures count { length cell.new.value.items ≡ length cell.old.value.items }
    ensures sound { IsSound T.IsSettled cell.new.value }
    ensures ready { OnOk result ((cell.new.alone ≡ true) × (cell.new.value.capacity ≡ capacity)) }
    ensures refused { OnErr result ((cell.new ≡ cell.old) × (h.new ≡ h.old)) }
    ensures moved { Costs T.plain T.is_counted (T.WEIGHT * length cell.old.value.items)
        (unsure cell.old) h.old h.new }
{
    let mut fresh = empty(alloc, capacity, h)?;
    copy_items(cell.get(), fresh.only(), h);
    let old = mem::replace(cell, fresh);
    end_cell(old, h);
    Ok(())
}

/// Whether the handle is alone with room for `wanted` items. It is known to be alone then.
#[inline]
fn has_room<T: Drop, Q: Stock>(
    cell: &mut Counted<Ring<T>, Q>,
    wanted: usize,
    h: &mut Holder<Q>,
) -> bool
    ensures value { cell.new.value ≡ cell.old.value }
    ensures alone { IsTrue result → cell.new.alone ≡ true }
    ensures room { IsTrue result → wanted ≤ cell.old.value.capacity }
    ensures yes { cell.old.alone ≡ true → wanted ≤ cell.old.value.capacity → IsTrue result }
    ensures same { cell.old.alone ≡ true → cell.new ≡ cell.old }
    ensures purse { h.new ≡ h.old }
{
    match cell.sole(h) {
        Some(ring) => wanted <= ring.capacity(),
        None => false,
    }
}

/// Makes the handle alone, with room for `extra` more items. An unshared storage stays, and grows where it has to:
/// its items move, once each. One that others hold too is renewed. One look at the handle where there is nothing to
/// do.
#[inline]
pub fn prepare<T: Item<Q>, Q: Stock>(
    cell: &mut Counted<Ring<T>, Q>,
    alloc: Global,
    extra: usize,
    h: &mut Holder<Q>,
) -> Result<(), NoMemory>
    requires sound { IsSound T.IsSettled cell.old.value }
    requires growth { length cell.old.value.items + extra ≤ 2 ^ 31 }
    requires spare { length cell.old.value.items + 1 ≤ h.old.spare }
    ensures same { map T.plain cell.new.value.items ≡ map T.plain cell.old.value.items }
    ensures count { length cell.new.value.items ≡ length cell.old.value.items }
    ensures sound { IsSound T.IsSettled cell.new.value }
    ensures alone { OnOk result (cell.new.alone ≡ true) }
    ensures room { OnOk result (length cell.old.value.items + extra ≤ cell.new.value.capacity) }
    ensures doubled { cell.old.value.capacity < length cell.old.value.items + extra
        → OnOk result (IsWide (2 * length cell.old.value.items) cell.new.value) }
    ensures in_place { StandsBy (length cell.old.value.items + extra) result cell.old cell.new }
    ensures free { cell.old.alone ≡ true → h.new ≡ h.old }
    ensures refused { OnErr result ((cell.new.value ≡ cell.old.value) × (h.new ≡ h.old)) }
    ensures kept { OnErr result (cell.old.alone ≡ true → cell.new.alone ≡ true) }
    ensures moved { Costs T.plain T.is_counted (T.WEIGHT * length cell.old.value.items) cell.old
        h.old h.new }
{
    let held = cell.get().len();
    if has_room(cell, held + extra, h) {
        return Ok(());
    }
    let capacity = grown(cell.get().capacity(), held + extra);
    if let Some(ring) = cell.sole(h) {
        return ring.reserve(alloc, capacity);
    }
    renew(cell, alloc, grown(held, held + extra), h)
}

/// Makes the handle alone, with room for `capacity` items in all, and takes memory for no more.
pub fn reserve<T: Item<Q>, Q: Stock>(
    cell: &mut Counted<Ring<T>, Q>,
    alloc: Global,
    capacity: usize,
    h: &mut Holder<Q>,
) -> Result<(), NoMemory>
    requires sound { IsSound T.IsSettled cell.old.value }
    requires room { length cell.old.value.items ≤ capacity }
    requires bound { capacity ≤ 2 ^ 32 }
    requires spare { length cell.old.value.items + 1 ≤ h.old.spare }
    ensures same { map T.plain cell.new.value.items ≡ map T.plain cell.old.value.items }
    ensures count { length cell.new.value.items ≡ length cell.old.value.items }
    ensures sound { IsSound T.IsSettled cell.new.value }
    ensures alone { OnOk result (cell.new.alone ≡ true) }
    ensures enough { OnOk result (capacity ≤ cell.new.value.capacity) }
    ensures most { cell.new.value.capacity ≤ max capacity cell.old.value.capacity }
    ensures in_place { StandsBy capacity result cell.old cell.new }
    ensures free { cell.old.alone ≡ true → h.new ≡ h.old }
    ensures refused { OnErr result ((cell.new.value ≡ cell.old.value) × (h.new ≡ h.old)) }
    ensures kept { OnErr result (cell.old.alone ≡ true → cell.new.alone ≡ true) }
    ensures moved { Costs T.plain T.is_counted (T.WEIGHT * length cell.old.value.items) cell.old
        h.old h.new }
{
    if let Some(ring) = cell.sole(h) {
        return ring.reserve(alloc, capacity);
    }
    renew(cell, alloc, capacity, h)
}

/// The items, settled, stand last, in their order. Takes no memory.
pub fn push_all<T: Item<Q>, Q: Stock>(ring: &mut Ring<T>, items: Vec<T>)
    requires room { length ring.old.items + vec_len items ≤ ring.old.capacity }
    requires settled { All T.IsSettled ring.old.items }
    ensures same { Gains T.plain items.items ring.old.items ring.new.items }
    ensures count { length ring.new.items ≡ length ring.old.items + vec_len items }
    ensures settled { All T.IsSettled ring.new.items }
    ensures capacity { ring.new.capacity ≡ ring.old.capacity }
{
    for x in items {
        let mut x = x;
        x.settle();
        ring.push(x);
    }
}
