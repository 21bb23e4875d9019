// The bodies that changes share, each on a counted storage of pairs.
ghost use Rattle.std.specs.Prelude.{◌≡◌, ℕ, ◌+◌, ◌*◌, ◌<◌, ◌≤◌, ◌^◌, [], length, IfOk, OnOk, OnErr, IsOk, true};
ghost use Rattle.cow_cell.specs.Words.{unsure};
ghost use Rattle.cow_dict.specs.Dictionaries.{held, Costs, GivesBack};
ghost use Rattle.cow_dict.specs.Storages.{AreWhole, listed};
ghost use Rattle.cow_members.specs.Members.{listed as keys_of};
ghost use Rattle.cow_model.specs.Purse.{Moves, less, more};
ghost use Rattle.cow_row.specs.Words.{IsWide};

use crate::pairs;
use crate::pairs::Pairs;
use core::mem;
use cow_cell::{Counted, Holder, Stock};
use cow_item::{Item, Key};
use cow_model::NoMemory;
use cow_row::storage::grown;
use std::alloc::Global;

/// Ends the handle, and its pairs where it was the last one. Takes no memory.
pub fn end_cell<K: Key<Q>, V: Item<Q>, Q: Stock>(cell: Counted<Pairs<K, V>, Q>, h: &mut Holder<Q>)
    requires whole { AreWhole K.plain K.hash_of K.IsSettled V.IsSettled cell.value }
    ensures moved { Moves (held K.is_counted V.is_counted K.plain V.plain cell.value) 0
        (more 1 h.old) h.new }
    ensures exact { GivesBack K.is_counted V.is_counted K.plain V.plain cell (more 1 h.old) h.new }
    ensures never_less { h.old.spare + 1 ≤ h.new.spare }
{
    if let Some(ended) = cell.end(h) {
        pairs::end_all(ended, h);
    }
}

/// An alone handle of a new storage without pairs. Takes memory for both.
pub fn empty<K: Key<Q>, V: Item<Q>, Q: Stock>(
    alloc: Global,
    h: &mut Holder<Q>,
) -> Result<Counted<Pairs<K, V>, Q>, NoMemory>
    requires { 1 ≤ h.old.spare }
    ensures whole { IfOk result (λ c. AreWhole K.plain K.hash_of K.IsSettled V.IsSettled c.value) }
    ensures empty { IfOk result (λ c. c.value.members.keys.items ≡ []) }
    ensures alone { IfOk result (λ c. c.alone ≡ true) }
    ensures spent { OnOk result (h.new ≡ less 1 h.old) }
    ensures refused { OnErr result (h.new ≡ h.old) }
{
    let fresh = pairs::new(alloc)?;
    match Counted::new(alloc, fresh, h) {
        Ok(cell) => Ok(cell),
        Err((refused, _pairs)) => Err(refused),
    }
}

/// Puts a new storage in place of one that others hold too: copies of all pairs, with room for `capacity`. All its
/// memory is taken first, then the pairs are copied, which can't be refused, and last the old handle is ended.
/// Linear in the number of pairs and of buckets.
#[cold]
#[inline(never)]
fn renew<K: Key<Q>, V: Item<Q>, Q: Stock>(
    cell: &mut Counted<Pairs<K, V>, Q>,
    alloc: Global,
    capacity: usize,
    h: &mut Holder<Q>,
) -> Result<(), NoMemory>
    requires whole { AreWhole K.plain K.hash_of K.IsSettled V.IsSettled cell.old.value }
    requires room { length cell.old.value.members.keys.items ≤ capacity }
    requires bound { capacity ≤ 2 ^ 32 }
    requires spare { 2 * length cell.old.value.members.keys.items + 1 ≤ h.old.spare }
    ensures whole { AreWhole K.plain K.hash_of K.IsSettled V.IsSettled cell.new.value }
    ensures same { listed K.plain V.plain cell.new.value ≡ listed K.plain V.plain cell.old.value }
    ensures keys { keys_of K.plain cell.new.value.members
        ≡ keys_of K.plain cell.old.value.members }
    ensures capacity { OnOk result (cell.new.value.values.capacity ≡ capacity) }
    ensures alone { OnOk result (cell.new.alone ≡ true) }
    ensures refused { OnErr result ((cell.new ≡ cell.old) × (h.new ≡ h.old)) }
    ensures no_gain { h.new.spare ≤ h.old.spare }
    ensures moved { Costs K.is_counted V.is_counted K.plain V.plain
        ((K.WEIGHT + V.WEIGHT) * length cell.old.value.members.keys.items)
        (unsure cell.old) h.old h.new }
{
    let blank = pairs::blank(cell.get(), alloc, capacity)?;
    let mut fresh = match Counted::new(alloc, blank, h) {
        Ok(fresh) => fresh,
        Err((refused, _blank)) => return Err(refused),
    };
    pairs::fill(fresh.only(), cell.get(), h);
    let old = mem::replace(cell, fresh);
    end_cell(old, h);
    Ok(())
}

/// Makes the handle alone, with room for `extra` more pairs. One look at the handle, and nothing more where it is
/// alone with room.
pub fn prepare<K: Key<Q>, V: Item<Q>, Q: Stock>(
    cell: &mut Counted<Pairs<K, V>, Q>,
    alloc: Global,
    extra: usize,
    h: &mut Holder<Q>,
) -> Result<(), NoMemory>
    requires whole { AreWhole K.plain K.hash_of K.IsSettled V.IsSettled cell.old.value }
    requires growth { length cell.old.value.members.keys.items + extra ≤ 2 ^ 31 }
    requires spare { 2 * length cell.old.value.members.keys.items + 1 ≤ h.old.spare }
    ensures whole { AreWhole K.plain K.hash_of K.IsSettled V.IsSettled cell.new.value }
    ensures same { listed K.plain V.plain cell.new.value ≡ listed K.plain V.plain cell.old.value }
    ensures keys { keys_of K.plain cell.new.value.members
        ≡ keys_of K.plain cell.old.value.members }
    ensures alone { OnOk result (cell.new.alone ≡ true) }
    ensures room { OnOk result
        (length cell.old.value.members.keys.items + extra ≤ cell.new.value.values.capacity) }
    ensures doubled { cell.old.value.values.capacity
        < length cell.old.value.members.keys.items + extra
        → OnOk result
        (IsWide (2 * length cell.old.value.members.keys.items) cell.new.value.values) }
    ensures in_place { cell.old.alone ≡ true
        → length cell.old.value.members.keys.items + extra ≤ cell.old.value.values.capacity
        → IsOk result × (cell.new ≡ cell.old) }
    ensures free { cell.old.alone ≡ true → h.new ≡ h.old }
    ensures refused { OnErr result
        ((cell.new.value.values ≡ cell.old.value.values) × (h.new ≡ h.old)) }
    ensures kept { OnErr result (cell.old.alone ≡ true → cell.new.alone ≡ true) }
    ensures no_gain { h.new.spare ≤ h.old.spare }
    ensures moved { Costs K.is_counted V.is_counted K.plain V.plain
        ((K.WEIGHT + V.WEIGHT) * length cell.old.value.members.keys.items) cell.old h.old h.new }
{
    let len = cell.get().len();
    if let Some(shown) = cell.sole(h) {
        return pairs::reserve(shown, alloc, extra);
    }
    renew(cell, alloc, grown(len, len + extra), h)
}
