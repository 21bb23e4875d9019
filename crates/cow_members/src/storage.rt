// The bodies that changes share, each on a counted storage of members.
ghost use Rattle.std.specs.Prelude.{◌≡◌, ℕ, ◌+◌, ◌*◌, ◌<◌, ◌≤◌, ◌^◌, [], length, map, IfOk, OnOk, OnErr, IsOk, IsTrue, true};
ghost use Rattle.cow_cell.specs.Words.{unsure};
ghost use Rattle.cow_members.specs.Members.{AreSound, listed};
ghost use Rattle.cow_model.specs.Purse.{Moves, less, more};
ghost use Rattle.cow_row.specs.Words.{IsWide};
ghost use Rattle.cow_members.specs.Sets.{held, Costs, GivesBack};

use crate::members::{self, Members};
use core::mem;
use cow_cell::{Counted, Holder, Stock};
use cow_item::Key;
use cow_model::NoMemory;
use cow_row::storage::grown;
use std::alloc::Global;

/// Ends the handle, and its keys where it was the last one. Takes no memory.
pub fn end_cell<K: Key<Q>, Q: Stock>(cell: Counted<Members<K>, Q>, h: &mut Holder<Q>)
    ensures moved { Moves (held K.plain K.is_counted cell) 0 (more 1 h.old) h.new }
    ensures exact { GivesBack K.plain K.is_counted cell (more 1 h.old) h.new }
    ensures never_less { h.old.spare + 1 ≤ h.new.spare }
{
    if let Some(members) = cell.end(h) {
        members::end_all(members, h);
    }
}

/// An alone handle of a new storage without keys. Takes memory for both.
pub fn empty<K: Key<Q>, Q: Stock>(
    alloc: Global,
    h: &mut Holder<Q>,
) -> Result<Counted<Members<K>, Q>, NoMemory>
    requires { 1 ≤ h.old.spare }
    ensures sound { IfOk result (λ c. AreSound K.plain K.hash_of K.IsSettled c.value) }
    ensures empty { IfOk result (λ c. c.value.keys.items ≡ []) }
    ensures alone { IfOk result (λ c. c.alone ≡ true) }
    ensures spent { OnOk result (h.new ≡ less 1 h.old) }
    ensures refused { OnErr result (h.new ≡ h.old) }
{
    let members = members::new(alloc)?;
    match Counted::new(alloc, members, h) {
        Ok(cell) => Ok(cell),
        Err((refused, _members)) => Err(refused),
    }
}

/// Puts a new storage in place of one that others hold too: copies of all keys, with room for `capacity`. All its
/// memory is taken first, then the keys are copied, which can't be refused, and last the old handle is ended.
/// Linear in the number of keys and of buckets.
#[cold]
#[inline(never)]
fn renew<K: Key<Q>, Q: Stock>(
    cell: &mut Counted<Members<K>, Q>,
    alloc: Global,
    capacity: usize,
    h: &mut Holder<Q>,
) -> Result<(), NoMemory>
    requires sound { AreSound K.plain K.hash_of K.IsSettled cell.old.value }
    requires room { length cell.old.value.keys.items ≤ capacity }
    requires bound { capacity ≤ 2 ^ 32 }
    requires spare { length cell.old.value.keys.items + 1 ≤ h.old.spare }
    ensures sound { AreSound K.plain K.hash_of K.IsSettled cell.new.value }
    ensures same { listed K.plain cell.new.value ≡ listed K.plain cell.old.value }
    ensures capacity { OnOk result (cell.new.value.keys.capacity ≡ capacity) }
    ensures alone { OnOk result (cell.new.alone ≡ true) }
    ensures refused { OnErr result ((cell.new ≡ cell.old) × (h.new ≡ h.old)) }
    ensures no_gain { h.new.spare ≤ h.old.spare }
    ensures moved { Costs K.plain K.is_counted (K.WEIGHT * length cell.old.value.keys.items)
        (unsure cell.old) h.old h.new }
{
    let blank = members::blank(cell.get(), alloc, capacity)?;
    let mut fresh = match Counted::new(alloc, blank, h) {
        Ok(fresh) => fresh,
        Err((refused, _blank)) => return Err(refused),
    };
    members::fill(fresh.only(), cell.get(), h);
    let old = mem::replace(cell, fresh);
    end_cell(old, h);
    Ok(())
}

/// Whether the handle is alone with room for `wanted` keys. It is known to be alone then.
#[inline]
fn has_room<K: Drop, Q: Stock>(
    cell: &mut Counted<Members<K>, Q>,
    wanted: usize,
    h: &mut Holder<Q>,
) -> bool
    ensures value { cell.new.value ≡ cell.old.value }
    ensures alone { IsTrue result → cell.new.alone ≡ true }
    ensures room { IsTrue result → wanted ≤ cell.old.value.keys.capacity }
    ensures yes { cell.old.alone ≡ true → wanted ≤ cell.old.value.keys.capacity → IsTrue result }
    ensures same { cell.old.alone ≡ true → cell.new ≡ cell.old }
    ensures purse { h.new ≡ h.old }
{
    match cell.sole(h) {
        Some(members) => wanted <= members.capacity(),
        None => false,
    }
}

/// Makes the handle alone, with room for `extra` more keys. One look at the handle, and nothing more where it is
/// alone with room.
#[inline]
pub fn prepare<K: Key<Q>, Q: Stock>(
    cell: &mut Counted<Members<K>, Q>,
    alloc: Global,
    extra: usize,
    h: &mut Holder<Q>,
) -> Result<(), NoMemory>
    requires sound { AreSound K.plain K.hash_of K.IsSettled cell.old.value }
    requires growth { length cell.old.value.keys.items + extra ≤ 2 ^ 31 }
    requires spare { length cell.old.value.keys.items + 1 ≤ h.old.spare }
    ensures sound { AreSound K.plain K.hash_of K.IsSettled cell.new.value }
    ensures same { listed K.plain cell.new.value ≡ listed K.plain cell.old.value }
    ensures alone { OnOk result (cell.new.alone ≡ true) }
    ensures room { OnOk result
        (length cell.old.value.keys.items + extra ≤ cell.new.value.keys.capacity) }
    ensures doubled { cell.old.value.keys.capacity < length cell.old.value.keys.items + extra
        → OnOk result (IsWide (2 * length cell.old.value.keys.items) cell.new.value.keys) }
    ensures in_place { cell.old.alone ≡ true
        → length cell.old.value.keys.items + extra ≤ cell.old.value.keys.capacity
        → IsOk result × (cell.new ≡ cell.old) }
    ensures free { cell.old.alone ≡ true → h.new ≡ h.old }
    ensures refused { OnErr result
        ((cell.new.value.keys ≡ cell.old.value.keys) × (h.new ≡ h.old)) }
    ensures kept { OnErr result (cell.old.alone ≡ true → cell.new.alone ≡ true) }
    ensures no_gain { h.new.spare ≤ h.old.spare }
    ensures moved { Costs K.plain K.is_counted (K.WEIGHT * length cell.old.value.keys.items)
        cell.old h.old h.new }
{
    let len = cell.get().len();
    if has_room(cell, len + extra, h) {
        return Ok(());
    }
    if let Some(members) = cell.sole(h) {
        return members::reserve(members, alloc, extra);
    }
    renew(cell, alloc, grown(len, len + extra), h)
}
