ghost use Rattle.std.specs.Prelude.{◌≡◌, ℕ, ◌+◌, ◌-◌, ◌*◌, ◌<◌, ◌≤◌, ◌^◌, List, [], ◌∷◌, ◌++◌, length, map, take, drop, count_by, max, vec_len, OnOk, OnErr, IfOk, IfErr, IsOk, IsTrue, All, ◌⊎◌, true, false, if◌then◌else◌};
ghost use Rattle.cow_model.specs.Purse.{Moves, less, more};
ghost use Rattle.std.specs.List.{splice};
ghost use Rattle.cow_cell.specs.Words.{Holds, unsure};
ghost use Rattle.cow_row.specs.RowView.{IsSound};
ghost use Rattle.cow_row.specs.Trades.{TradesRun};
ghost use Rattle.cow_row.specs.Words.{run_of, places, units, IsFresh, IsWide, StandsBy, Costs, Returns, ShowsRun, SameRun, Splices, Spends, Balances, NoGain, NoMoreUnits, AddsUnit};

use crate::row::{self, Row};
pub use crate::row::{copy_run, end_items};
use cow_cell::{Counted, Holder, Stock};
use cow_item::Item;
use cow_model::NoMemory;
use std::alloc::Global;
use std::cmp::min;
use std::mem;

/// Ends the handle, and its items where it was the last one. Takes no memory.
pub fn end_cell<T: Item<Q>, Q: Stock>(cell: Counted<Row<T>, Q>, h: &mut Holder<Q>)
    ensures moved { Moves (units T.plain T.is_counted cell.value.items) 0 (more 1 h.old) h.new }
    ensures exact { Returns T.plain T.is_counted cell (more 1 h.old) h.new }
    ensures never_less { h.old.spare + 1 ≤ h.new.spare }
{
    if let Some(mut row) = cell.end(h) {
        end_items(&mut row, h);
    }
}

/// A capacity in which `wanted` items fit: `capacity` where they do, else at least twice that and at
/// least 4.
pub fn grown(capacity: usize, wanted: usize) -> usize
    requires { wanted ≤ 2 ^ 31 }
    ensures enough { wanted ≤ result }
    ensures same { wanted ≤ capacity → result ≡ capacity }
    ensures doubled { capacity < wanted → 2 * capacity ≤ result }
    ensures start { capacity < wanted → 4 ≤ result }
    ensures bound { capacity ≤ 2 ^ 32 → result ≤ 2 ^ 32 }
{
    if wanted <= capacity {
        return capacity;
    }
    let doubled = if capacity < 2 { 4 } else { capacity * 2 };
    if doubled < wanted { wanted } else { doubled }
}

/// An alone handle of a new storage without items, with room for `capacity`. Takes memory for both.
pub fn empty<T: Item<Q>, Q: Stock>(
    alloc: Global,
    capacity: usize,
    h: &mut Holder<Q>,
) -> Result<Counted<Row<T>, Q>, NoMemory>
    requires bound { capacity ≤ 2 ^ 32 }
    requires spare { 1 ≤ h.old.spare }
    ensures ok { IfOk result (λ c. Holds (record { items = []; front = 0; capacity = capacity }) c) }
    ensures spent { OnOk result (h.new ≡ less 1 h.old) }
    ensures refused { OnErr result (h.new ≡ h.old) }
{
    let row = Row::with_capacity(alloc, capacity)?;
    match Counted::new(alloc, row, h) {
        Ok(cell) => Ok(cell),
        Err((refused, _row)) => Err(refused),
    }
}

/// Puts a new storage in place of one that others hold too: of copies of the `count` items from
/// `start` on, at a capacity. All its memory is taken first, then the items are copied, which can't be
/// refused, and last the old handle is ended. Linear in `count`.
#[cold]
#[inline(never)]
pub fn renew<T: Item<Q>, Q: Stock>(
    cell: &mut Counted<Row<T>, Q>,
    start: usize,
    count: usize,
    alloc: Global,
    capacity: usize,
    h: &mut Holder<Q>,
) -> Result<(), NoMemory>
    requires sound { IsSound T.IsSettled cell.old.value }
    requires within { start + count ≤ length cell.old.value.items }
    requires room { count ≤ capacity }
    requires bound { capacity ≤ 2 ^ 32 }
    requires spare { count + 1 ≤ h.old.spare }
    ensures same { OnOk result (ShowsRun T.plain start count cell.old.value cell.new.value) }
    ensures count { OnOk result (length cell.new.value.items ≡ count) }
    ensures sound { IsSound T.IsSettled cell.new.value }
    ensures ready { OnOk result (IsFresh capacity cell.new) }
    ensures refused { OnErr result ((cell.new ≡ cell.old) × (h.new ≡ h.old)) }
    ensures falls { h.old.spare ≤ h.new.spare + count }
    ensures no_gain { NoGain T.plain T.is_counted cell.old.value cell.new.value h.old h.new }
    ensures moved { Costs T.plain T.is_counted (T.WEIGHT * count) (unsure cell.old) h.old h.new }
{
    let mut fresh = empty(alloc, capacity, h)?;
    copy_run(cell.get(), start, count, fresh.only(), h);
    let old = mem::replace(cell, fresh);
    end_cell(old, h);
    Ok(())
}

/// Makes the handle alone, with room for `extra` more items behind the `count` from `start` on, and
/// answers where these begin then. An unshared storage stays, with all its items; one that others
/// hold too is renewed from the run alone. One step where there is nothing to do: one look at the handle.
#[inline]
pub fn prepare_run<T: Item<Q>, Q: Stock>(
    cell: &mut Counted<Row<T>, Q>,
    start: usize,
    count: usize,
    alloc: Global,
    extra: usize,
    h: &mut Holder<Q>,
) -> Result<usize, NoMemory>
    requires sound { IsSound T.IsSettled cell.old.value }
    requires within { start + count ≤ length cell.old.value.items }
    requires growth { start + count + extra ≤ 2 ^ 31 }
    requires spare { count + 1 ≤ h.old.spare }
    ensures same { IfOk result (λ s. SameRun T.plain count start s cell.old.value cell.new.value) }
    ensures place { IfOk result (λ s. s ≤ start) }
    ensures within { IfOk result (λ s. s + count ≤ length cell.new.value.items) }
    ensures fewer { length cell.new.value.items ≤ length cell.old.value.items }
    ensures units { NoMoreUnits T.plain T.is_counted cell.old.value cell.new.value }
    ensures sound { IsSound T.IsSettled cell.new.value }
    ensures front { cell.new.value.front ≤ cell.old.value.front }
    ensures alone { OnOk result (cell.new.alone ≡ true) }
    ensures room { IfOk result (λ s. s + count + extra ≤ cell.new.value.capacity) }
    ensures doubled { cell.old.value.capacity < start + count + extra
        → IfOk result (λ s. IsWide (s + 2 * count) cell.new.value) }
    ensures in_place { StandsBy (start + count + extra) result cell.old cell.new }
    ensures still { cell.old.alone ≡ true → IfOk result (λ s. s ≡ start) }
    ensures free { cell.old.alone ≡ true → h.new ≡ h.old }
    ensures kept_or_renewed { IfOk result (λ s.
        (h.new ≡ h.old) ⊎ (length cell.new.value.items ≡ s + count)) }
    ensures refused { OnErr result ((cell.new.value ≡ cell.old.value) × (h.new ≡ h.old)) }
    ensures kept { OnErr result (cell.old.alone ≡ true → cell.new.alone ≡ true) }
    ensures falls { h.old.spare ≤ h.new.spare + count }
    ensures no_gain { NoGain T.plain T.is_counted cell.old.value cell.new.value h.old h.new }
    ensures moved { Costs T.plain T.is_counted (T.WEIGHT * count) cell.old h.old h.new }
{
    if has_room(cell, start + count + extra, h) {
        return Ok(start);
    }
    let capacity = grown(cell.get().capacity(), start + count + extra);
    if let Some(row) = cell.sole(h) {
        row.reserve(alloc, capacity)?;
        return Ok(start);
    }
    renew(cell, start, count, alloc, grown(count, count + extra), h)?;
    Ok(0)
}

/// Whether the handle is alone with room for `wanted` items. It is known to be alone then.
#[inline]
fn has_room<T: Drop, Q: Stock>(
    cell: &mut Counted<Row<T>, Q>,
    wanted: usize,
    h: &mut Holder<Q>,
) -> bool
    ensures value { cell.new.value ≡ cell.old.value }
    ensures alone { IsTrue result → cell.new.alone ≡ true }
    ensures room { IsTrue result → wanted ≤ cell.old.value.capacity }
    ensures yes { cell.old.alone ≡ true → wanted ≤ cell.old.value.capacity → IsTrue result }
    ensures same { cell.old.alone ≡ true → cell.new ≡ cell.old }
    ensures purse { h.new ≡ h.old }
{
    match cell.sole(h) {
        Some(row) => wanted <= row.capacity(),
        None => false,
    }
}

/// Makes the handle alone, with room for `extra` more items. One look at the handle where there is nothing to
/// do.
#[inline]
pub fn prepare<T: Item<Q>, Q: Stock>(
    cell: &mut Counted<Row<T>, Q>,
    alloc: Global,
    extra: usize,
    h: &mut Holder<Q>,
) -> Result<(), NoMemory>
    requires sound { IsSound T.IsSettled cell.old.value }
    requires growth { length cell.old.value.items + extra ≤ 2 ^ 31 }
    requires spare { length cell.old.value.items + 1 ≤ h.old.spare }
    ensures same { map T.plain cell.new.value.items ≡ map T.plain cell.old.value.items }
    ensures count { length cell.new.value.items ≡ length cell.old.value.items }
    ensures sound { IsSound T.IsSettled cell.new.value }
    ensures front { cell.new.value.front ≤ cell.old.value.front }
    ensures alone { OnOk result (cell.new.alone ≡ true) }
    ensures room { OnOk result (length cell.old.value.items + extra ≤ cell.new.value.capacity) }
    ensures doubled { cell.old.value.capacity < length cell.old.value.items + extra
        → OnOk result (IsWide (2 * length cell.old.value.items) cell.new.value) }
    ensures free { cell.old.alone ≡ true → h.new ≡ h.old }
    ensures in_place { StandsBy (length cell.old.value.items + extra) result cell.old cell.new }
    ensures refused { OnErr result ((cell.new.value ≡ cell.old.value) × (h.new ≡ h.old)) }
    ensures kept { OnErr result (cell.old.alone ≡ true → cell.new.alone ≡ true) }
    ensures no_gain { h.new.spare ≤ h.old.spare }
    ensures moved { Costs T.plain T.is_counted (T.WEIGHT * length cell.old.value.items) cell.old
        h.old h.new }
{
    let len = cell.get().len();
    prepare_run(cell, 0, len, alloc, extra, h)?;
    Ok(())
}

/// Makes the handle alone, with room for `capacity` items in all, and takes memory for no more.
pub fn reserve<T: Item<Q>, Q: Stock>(
    cell: &mut Counted<Row<T>, Q>,
    alloc: Global,
    capacity: usize,
    h: &mut Holder<Q>,
) -> Result<(), NoMemory>
    requires sound { IsSound T.IsSettled cell.old.value }
    requires room { length cell.old.value.items ≤ capacity }
    requires bound { capacity ≤ 2 ^ 32 }
    requires spare { length cell.old.value.items + 1 ≤ h.old.spare }
    ensures same { map T.plain cell.new.value.items ≡ map T.plain cell.old.value.items }
    ensures count { length cell.new.value.items ≡ length cell.old.value.items }
    ensures sound { IsSound T.IsSettled cell.new.value }
    ensures front { cell.new.value.front ≤ cell.old.value.front }
    ensures alone { OnOk result (cell.new.alone ≡ true) }
    ensures enough { OnOk result (capacity ≤ cell.new.value.capacity) }
    ensures most { cell.new.value.capacity ≤ max capacity (places cell.old.value) }
    ensures in_place { StandsBy capacity result cell.old cell.new }
    ensures free { cell.old.alone ≡ true → h.new ≡ h.old }
    ensures refused { OnErr result ((cell.new.value ≡ cell.old.value) × (h.new ≡ h.old)) }
    ensures kept { OnErr result (cell.old.alone ≡ true → cell.new.alone ≡ true) }
    ensures moved { Costs T.plain T.is_counted (T.WEIGHT * length cell.old.value.items) cell.old
        h.old h.new }
{
    let len = cell.get().len();
    if let Some(row) = cell.sole(h) {
        return row.reserve(alloc, capacity);
    }
    renew(cell, 0, len, alloc, capacity, h)
}

/// `items`, settled, stand in the place of the `count` items from `start` on, which end, and the handle is alone.
/// An unshared storage ends them in their places, and moves what stands behind once. Of one that others hold
/// too only the items that stay are copied.
pub fn replace_run<T: Item<Q>, Q: Stock>(
    cell: &mut Counted<Row<T>, Q>,
    start: usize,
    count: usize,
    alloc: Global,
    items: Vec<T>,
    h: &mut Holder<Q>,
) -> Result<(), (NoMemory, Vec<T>)>
    requires sound { IsSound T.IsSettled cell.old.value }
    requires within { start + count ≤ length cell.old.value.items }
    requires growth { length cell.old.value.items + vec_len items ≤ 2 ^ 31 + count }
    requires spare { length cell.old.value.items + 1 ≤ h.old.spare + count }
    ensures same { OnOk result (Splices T.plain start count items.items cell.old.value cell.new.value) }
    ensures sound { IsSound T.IsSettled cell.new.value }
    ensures front { cell.new.value.front ≤ cell.old.value.front }
    ensures alone { OnOk result (cell.new.alone ≡ true) }
    ensures in_place { cell.old.alone ≡ true
        → length cell.old.value.items + vec_len items ≤ cell.old.value.capacity + count
        → IsOk result × (cell.new.value.capacity ≡ cell.old.value.capacity) }
    ensures exact { cell.old.alone ≡ true → OnOk result
        (h.new ≡ more (units T.plain T.is_counted (run_of start count cell.old.value.items)) h.old) }
    ensures refused { OnErr result ((cell.new.value ≡ cell.old.value) × (h.new ≡ h.old)) }
    ensures back { IfErr result (λ e. e.1 ≡ items) }
    ensures kept { OnErr result (cell.old.alone ≡ true → cell.new.alone ≡ true) }
    ensures paid { TradesRun T.plain T.is_counted T.WEIGHT start count cell.old h.old h.new }
{
    let wanted = cell.get().len() - count + items.len();
    if let Some(row) = cell.sole(h) {
        let capacity = grown(row.capacity(), wanted);
        if let Err(refused) = row.reserve(alloc, capacity) {
            return Err((refused, items));
        }
        row::replace_run(row, start, count, items, h);
        return Ok(());
    }
    renew_around(cell, start, count, alloc, items, h)
}

/// Puts a new storage in place of one that others hold too: of copies of the items before `start` and behind the
/// `count` from there on, with `items`, settled, between them. Memory is taken and the old handle ended as by
/// `renew`.
#[cold]
#[inline(never)]
fn renew_around<T: Item<Q>, Q: Stock>(
    cell: &mut Counted<Row<T>, Q>,
    start: usize,
    count: usize,
    alloc: Global,
    items: Vec<T>,
    h: &mut Holder<Q>,
) -> Result<(), (NoMemory, Vec<T>)>
    requires sound { IsSound T.IsSettled cell.old.value }
    requires within { start + count ≤ length cell.old.value.items }
    requires growth { length cell.old.value.items + vec_len items ≤ 2 ^ 31 + count }
    requires spare { length cell.old.value.items + 1 ≤ h.old.spare + count }
    ensures same { OnOk result (Splices T.plain start count items.items cell.old.value cell.new.value) }
    ensures sound { IsSound T.IsSettled cell.new.value }
    ensures ready { OnOk result ((cell.new.alone ≡ true) × (cell.new.value.front ≡ 0)) }
    ensures refused { OnErr result ((cell.new ≡ cell.old) × (h.new ≡ h.old)) }
    ensures back { IfErr result (λ e. e.1 ≡ items) }
    ensures paid { TradesRun T.plain T.is_counted T.WEIGHT start count (unsure cell.old) h.old h.new }
{
    let held = cell.get().len();
    let wanted = held - count + items.len();
    let capacity = grown(min(held, wanted), wanted);
    let mut fresh = match empty(alloc, capacity, h) {
        Ok(fresh) => fresh,
        Err(refused) => return Err((refused, items)),
    };
    copy_around(cell.get(), start, count, items, fresh.only(), h);
    end_cell(mem::replace(cell, fresh), h);
    Ok(())
}

/// Copies of the items before `start` stand in the empty row `to`, then `items`, settled, then copies of the
/// items behind the `count` from `start` on. Takes no memory.
fn copy_around<T: Item<Q>, Q: Stock>(
    from: &Row<T>,
    start: usize,
    count: usize,
    items: Vec<T>,
    to: &mut Row<T>,
    h: &mut Holder<Q>,
)
    requires within { start + count ≤ length from.now.items }
    requires small { length from.now.items ≤ 2 ^ 31 }
    requires settled { All T.IsSettled from.now.items }
    requires empty { to.old.items ≡ [] }
    requires room { length from.now.items + vec_len items ≤ to.old.capacity + count }
    requires spare { length from.now.items ≤ h.old.spare + count }
    ensures same { Splices T.plain start count items.items from.now to.new }
    ensures settled { All T.IsSettled to.new.items }
    ensures capacity { to.new.capacity ≡ to.old.capacity }
    ensures front { to.new.front ≡ to.old.front }
    ensures spends { Spends T.plain T.is_counted (splice from.now.items start (start + count) []) h.old h.new }
    ensures copied { h.new.copied ≤ h.old.copied + T.WEIGHT * (length from.now.items - count) }
    ensures kept { h.old.copied ≤ h.new.copied }
{
    let behind = start + count;
    copy_run(from, 0, start, to, h);
    row::replace_run(to, start, 0, items, h);
    copy_run(from, behind, from.len() - behind, to, h);
}

/// Makes the row empty and the handle alone. An unshared row keeps its places.
pub fn clear<T: Item<Q>, Q: Stock>(
    cell: &mut Counted<Row<T>, Q>,
    alloc: Global,
    h: &mut Holder<Q>,
) -> Result<(), NoMemory>
    requires sound { IsSound T.IsSettled cell.old.value }
    requires spare { 1 ≤ h.old.spare }
    ensures empty { OnOk result ((cell.new.value.items ≡ []) × (cell.new.alone ≡ true)) }
    ensures front { cell.new.value.front ≤ cell.old.value.front }
    ensures always { cell.old.alone ≡ true → IsOk result }
    ensures room { cell.old.alone ≡ true → cell.new.value.capacity ≡ cell.old.value.capacity }
    ensures exact { Returns T.plain T.is_counted cell.old h.old h.new }
    ensures refused { OnErr result ((cell.new ≡ cell.old) × (h.new ≡ h.old)) }
    ensures moved { Moves (units T.plain T.is_counted cell.old.value.items) 0 h.old h.new }
{
    if let Some(row) = cell.sole(h) {
        end_items(row, h);
        return Ok(());
    }
    renew(cell, 0, 0, alloc, 0, h)
}

/// Ends all items but the `count` from `start` on, which stand from the first place on then. Takes
/// no memory.
pub fn keep_run<T: Item<Q>, Q: Stock>(
    row: &mut Row<T>,
    start: usize,
    count: usize,
    h: &mut Holder<Q>,
)
    requires within { start + count ≤ length row.old.items }
    requires small { length row.old.items ≤ 2 ^ 31 }
    ensures items { row.new.items ≡ run_of start count row.old.items }
    ensures front { row.new.front ≡ 0 }
    ensures capacity { row.new.capacity ≡ places row.old }
    ensures spare { Balances T.plain T.is_counted row.old row.new h.old h.new }
    ensures copied { h.new.copied ≡ h.old.copied }
{
    while start + count < row.len() {
        match row.pop() {
            Some(x) => x.end(h),
            None => unreachable!(),
        }
    }
    for _i in 0..start {
        match row.pop_front() {
            Some(x) => x.end(h),
            None => unreachable!(),
        }
    }
    row.to_front();
}

/// `x` stands behind the first `count` items. An item that stood there ends. Takes no memory.
pub fn put_behind<T: Item<Q>, Q: Stock>(row: &mut Row<T>, count: usize, x: T, h: &mut Holder<Q>)
    requires within { count ≤ length row.old.items }
    requires room { count < row.old.capacity }
    requires small { length row.old.items ≤ 2 ^ 31 }
    ensures items { take (count + 1) row.new.items ≡ take count row.old.items ++ x ∷ [] }
    ensures more { length row.new.items ≡ max (length row.old.items) (count + 1) }
    ensures settled { All T.IsSettled row.old.items → T.IsSettled x
        → All T.IsSettled row.new.items }
    ensures units { AddsUnit T.plain T.is_counted x row.old row.new }
    ensures front { row.new.front ≡ row.old.front }
    ensures capacity { row.new.capacity ≡ row.old.capacity }
    ensures last { length row.old.items ≡ count → h.new ≡ h.old }
    ensures paid { Moves (units T.plain T.is_counted row.old.items) 0 h.old h.new }
    ensures never_less { h.old.spare ≤ h.new.spare }
{
    if count == row.len() {
        row.push(x);
    } else {
        row.replace(count, x).end(h);
    }
}
