// Keys of which each is wanted once.
ghost use Rattle.std.specs.Prelude.{◌≡◌, ◌+◌, ◌≤◌, ◌<◌, ◌^◌, [], length, map, IfOk, All, IsPermutation};
ghost use Rattle.cow_members.specs.Members.{AreSound, listed, set_of};
ghost use Rattle.cow_model.specs.Members.{ascending, in_order, union, with_member};
ghost use Rattle.cow_treeset.specs.TreeSets.{key_of, IsHashed};

use cow_cell::{Holder, Stock};
use cow_item::Key;
use cow_members::{Members, members};
use cow_model::NoMemory;
use std::alloc::Global;

/// Each key once, with its hash; of keys that are the same the first stays, and the others end. Takes memory for a table
/// and for the list. Refused, all keys are ended.
pub(crate) fn distinct<K: Key<Q>, Q: Stock>(
    alloc: Global,
    keys: Vec<K>,
    h: &mut Holder<Q>,
) -> Result<Vec<(u32, K, ())>, NoMemory>
    requires growth { length keys.items < 2 ^ 31 }
    ensures hashes { IfOk result (λ v. All (IsHashed K.hash_of K.plain) v.items) }
    ensures set { IfOk result (λ v. ascending (map (key_of K.plain) v.items)
        ≡ union in_order [] (map K.plain keys.items)) }
    ensures fewer { IfOk result (λ v. length v.items ≤ length keys.items) }
    ensures spare { h.old.spare ≤ h.new.spare }
    ensures copied { h.new.copied ≡ h.old.copied }
{
    let mut found = match room_for(alloc, keys.len()) {
        Ok(found) => found,
        Err(refused) => {
            end_all(keys, h);
            return Err(refused);
        }
    };
    for k in keys {
        put_key(&mut found, k, h);
    }
    taken_out(alloc, found, h)
}

/// No keys, with room for `count` of them.
fn room_for<K: Key<Q>, Q: Stock>(alloc: Global, count: usize) -> Result<Members<K>, NoMemory>
    requires growth { count < 2 ^ 31 }
    ensures sound { IfOk result (AreSound K.plain K.hash_of K.IsSettled) }
    ensures empty { IfOk result (λ m. m.keys.items ≡ []) }
    ensures room { IfOk result (λ m. count ≤ m.keys.capacity) }
{
    let mut found = members::new(alloc)?;
    members::reserve(&mut found, alloc, count)?;
    Ok(found)
}

/// The key is one of those found. Where one was that is the same, `k` ends.
fn put_key<K: Key<Q>, Q: Stock>(found: &mut Members<K>, k: K, h: &mut Holder<Q>)
    requires sound { AreSound K.plain K.hash_of K.IsSettled found.old }
    requires room { length found.old.keys.items < found.old.keys.capacity }
    requires growth { length found.old.keys.items < 2 ^ 31 }
    ensures sound { AreSound K.plain K.hash_of K.IsSettled found.new }
    ensures set { set_of K.plain found.new
        ≡ with_member in_order (set_of K.plain found.old) (K.plain k) }
    ensures count { length found.new.keys.items ≤ length found.old.keys.items + 1 }
    ensures capacity { found.new.keys.capacity ≡ found.old.keys.capacity }
    ensures spare { h.old.spare ≤ h.new.spare }
    ensures copied { h.new.copied ≡ h.old.copied }
{
    let hash = k.hash();
    match members::place_of(found, hash, &k) {
        Some(_) => k.end(h),
        None => members::push(found, hash, k),
    }
}

/// The keys with their hashes, moved out. Takes memory for the list; refused, they are ended.
fn taken_out<K: Key<Q>, Q: Stock>(
    alloc: Global,
    found: Members<K>,
    h: &mut Holder<Q>,
) -> Result<Vec<(u32, K, ())>, NoMemory>
    requires sound { AreSound K.plain K.hash_of K.IsSettled found }
    ensures hashes { IfOk result (λ v. All (IsHashed K.hash_of K.plain) v.items) }
    ensures same { IfOk result (λ v. IsPermutation (listed K.plain found)
        (map (key_of K.plain) v.items)) }
    ensures spare { h.old.spare ≤ h.new.spare }
    ensures copied { h.new.copied ≡ h.old.copied }
{
    let Ok(mut out) = Vec::with_capacity(alloc, found.len()) else {
        members::end_all(found, h);
        return Err(NoMemory);
    };
    let mut found = found;
    for _ in 0..found.len() {
        let last = found.len() - 1;
        let k = members::take(&mut found, last);
        let hash = k.hash();
        if out.push((hash, k, ())).is_err() {
            unreachable!()
        }
    }
    Ok(out)
}

/// Ends each key.
fn end_all<K: Key<Q>, Q: Stock>(keys: Vec<K>, h: &mut Holder<Q>)
    ensures spare { h.old.spare ≤ h.new.spare }
    ensures copied { h.new.copied ≡ h.old.copied }
{
    for k in keys {
        k.end(h);
    }
}
