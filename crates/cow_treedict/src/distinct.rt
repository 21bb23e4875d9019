// Pairs of which each key is wanted once, with the last value that stands under it.
ghost use Rattle.std.specs.Prelude.{◌≡◌, ◌+◌, ◌≤◌, ◌<◌, ◌^◌, [], length, map, IfOk, All, IsPermutation};
ghost use Rattle.cow_champ.specs.Node.{hashed};
ghost use Rattle.cow_dict.specs.Storages.{AreWhole, pair_of, listed, map_of, by_key};
ghost use Rattle.cow_model.specs.Canon.{IsDistinct};
ghost use Rattle.cow_model.specs.Pairs.{in_order, put};
ghost use Rattle.cow_treedict.specs.Trees.{plain_pair, map_from, IsHashed};

use cow_cell::{Holder, Stock};
use cow_dict::pairs;
use cow_dict::pairs::Pairs;
use cow_item::{Item, Key};
use cow_members::members;
use cow_model::NoMemory;
use std::alloc::Global;

/// Each key once, with its hash and the last value that stands under it; of keys that are the same the first stays, and
/// the others end with their values. Takes memory for a table and for the list. Refused, all items are ended.
pub(crate) fn distinct<K: Key<Q>, V: Item<Q>, Q: Stock>(
    alloc: Global,
    pairs: Vec<(K, V)>,
    h: &mut Holder<Q>,
) -> Result<Vec<(u32, K, V)>, NoMemory>
    requires growth { length pairs.items < 2 ^ 31 }
    ensures hashes { IfOk result (λ v. All (IsHashed K.hash_of K.plain) v.items) }
    ensures distinct { IfOk result (λ v. IsDistinct (map (hashed K.plain V.plain) v.items)) }
    ensures map { IfOk result (λ v. by_key (map (hashed K.plain V.plain) v.items)
        ≡ map_from (map (plain_pair K.plain V.plain) pairs.items)) }
    ensures fewer { IfOk result (λ v. length v.items ≤ length pairs.items) }
    ensures spare { h.old.spare ≤ h.new.spare }
    ensures copied { h.new.copied ≡ h.old.copied }
{
    let mut found = match room_for(alloc, pairs.len()) {
        Ok(found) => found,
        Err(refused) => {
            end_all(pairs, h);
            return Err(refused);
        }
    };
    for pair in pairs {
        put_pair(&mut found, pair, h);
    }
    taken_out(alloc, found, h)
}

/// No pairs, with room for `count` of them.
fn room_for<K: Key<Q>, V: Item<Q>, Q: Stock>(
    alloc: Global,
    count: usize,
) -> Result<Pairs<K, V>, NoMemory>
    requires growth { count < 2 ^ 31 }
    ensures whole { IfOk result (AreWhole K.plain K.hash_of K.IsSettled V.IsSettled) }
    ensures empty { IfOk result (λ p. p.members.keys.items ≡ []) }
    ensures room { IfOk result (λ p. count ≤ p.values.capacity) }
{
    let mut found = pairs::new(alloc)?;
    pairs::reserve(&mut found, alloc, count)?;
    Ok(found)
}

/// The value stands under the key. Where one stood there, that one ends, and so does the key.
fn put_pair<K: Key<Q>, V: Item<Q>, Q: Stock>(
    found: &mut Pairs<K, V>,
    pair: (K, V),
    h: &mut Holder<Q>,
)
    requires whole { AreWhole K.plain K.hash_of K.IsSettled V.IsSettled found.old }
    requires room { length found.old.members.keys.items < found.old.values.capacity }
    requires growth { length found.old.members.keys.items < 2 ^ 31 }
    ensures whole { AreWhole K.plain K.hash_of K.IsSettled V.IsSettled found.new }
    ensures map { map_of K.plain V.plain found.new
        ≡ put in_order (map_of K.plain V.plain found.old) (plain_pair K.plain V.plain pair) }
    ensures count { length found.new.members.keys.items ≤ length found.old.members.keys.items + 1 }
    ensures capacity { found.new.values.capacity ≡ found.old.values.capacity }
    ensures spare { h.old.spare ≤ h.new.spare }
    ensures copied { h.new.copied ≡ h.old.copied }
{
    let (k, v) = pair;
    let hash = k.hash();
    match members::place_of(found.members(), hash, &k) {
        Some(i) => {
            pairs::replace(found, i, v).end(h);
            k.end(h);
        }
        None => pairs::push(found, hash, k, v),
    }
}

/// The pairs with the hashes of their keys, moved out. Takes memory for the list; refused, they are ended.
fn taken_out<K: Key<Q>, V: Item<Q>, Q: Stock>(
    alloc: Global,
    found: Pairs<K, V>,
    h: &mut Holder<Q>,
) -> Result<Vec<(u32, K, V)>, NoMemory>
    requires whole { AreWhole K.plain K.hash_of K.IsSettled V.IsSettled found }
    ensures hashes { IfOk result (λ v. All (IsHashed K.hash_of K.plain) v.items) }
    ensures same { IfOk result (λ v. IsPermutation (listed K.plain V.plain found)
        (map (hashed K.plain V.plain) v.items)) }
    ensures spare { h.old.spare ≤ h.new.spare }
    ensures copied { h.new.copied ≡ h.old.copied }
{
    let Ok(mut out) = Vec::with_capacity(alloc, found.len()) else {
        pairs::end_all(found, h);
        return Err(NoMemory);
    };
    let mut found = found;
    for _ in 0..found.len() {
        let last = found.len() - 1;
        let (k, v) = pairs::take(&mut found, last);
        let hash = k.hash();
        if out.push((hash, k, v)).is_err() {
            unreachable!()
        }
    }
    Ok(out)
}

/// Ends the items of each pair.
fn end_all<K: Key<Q>, V: Item<Q>, Q: Stock>(pairs: Vec<(K, V)>, h: &mut Holder<Q>)
    ensures spare { h.old.spare ≤ h.new.spare }
    ensures copied { h.new.copied ≡ h.old.copied }
{
    for pair in pairs {
        end_pair(pair, h);
    }
}

/// Ends a key and a value.
fn end_pair<K: Key<Q>, V: Item<Q>, Q: Stock>(pair: (K, V), h: &mut Holder<Q>)
    ensures spare { h.old.spare ≤ h.new.spare }
    ensures copied { h.new.copied ≡ h.old.copied }
{
    let (k, v) = pair;
    k.end(h);
    v.end(h);
}
