// Copies of pairs, for a dictionary that is made of them.
ghost use Rattle.std.specs.Prelude.{◌≡◌, ◌+◌, ◌*◌, ◌<◌, ◌≤◌, ◌++◌, ◌∷◌, [], length, map, All, vec_len, vec_capacity};
ghost use Rattle.cow_champ.specs.Node.{hashed, seen_pair, SeenSettled};
ghost use Rattle.cow_champ.specs.Spending.{Spends};
ghost use Rattle.cow_dict.specs.Storages.{pair_of};
ghost use Rattle.cow_treedict.specs.Trees.{IsHashed};

use cow_cell::{Holder, Stock};
use cow_item::{Item, Key};

/// Copies of a key, beside its hash, and of a value stand last in `into`, which has room for them.
pub(crate) fn push_copy<K: Key<Q>, V: Item<Q>, Q: Stock>(
    into: &mut Vec<(u32, K, V)>,
    k: &K,
    v: &V,
    h: &mut Holder<Q>,
)
    requires key { K.IsSettled k.now }
    requires value { V.IsSettled v.now }
    requires room { vec_len into.old < vec_capacity into.old }
    requires spare { 2 ≤ h.old.spare }
    requires hashes { All (IsHashed K.hash_of K.plain) into.old.items }
    ensures hashes { All (IsHashed K.hash_of K.plain) into.new.items }
    ensures same { map (hashed K.plain V.plain) into.new.items
        ≡ map (hashed K.plain V.plain) into.old.items ++ pair_of (K.plain k.now) (V.plain v.now) ∷ [] }
    ensures more { vec_len into.new ≡ vec_len into.old + 1 }
    ensures room { vec_capacity into.old ≤ vec_capacity into.new }
    ensures spent { Spends 2 (K.WEIGHT + V.WEIGHT) h.old h.new }
{
    let key = k.copy(h);
    let value = v.copy(h);
    let hash = key.hash();
    if into.push((hash, key, value)).is_err() {
        unreachable!()
    }
}

/// Copies of all these pairs stand last in `into`, in their order.
pub(crate) fn copy_all<K: Key<Q>, V: Item<Q>, Q: Stock>(
    pairs: &Vec<(&K, &V)>,
    into: &mut Vec<(u32, K, V)>,
    h: &mut Holder<Q>,
)
    requires settled { All (SeenSettled K.IsSettled V.IsSettled) pairs.now.items }
    requires room { vec_len into.old + length pairs.now.items ≤ vec_capacity into.old }
    requires spare { 2 * length pairs.now.items ≤ h.old.spare }
    requires hashes { All (IsHashed K.hash_of K.plain) into.old.items }
    ensures hashes { All (IsHashed K.hash_of K.plain) into.new.items }
    ensures same { map (hashed K.plain V.plain) into.new.items
        ≡ map (hashed K.plain V.plain) into.old.items ++ map (seen_pair K.plain V.plain) pairs.now.items }
    ensures more { vec_len into.new ≡ vec_len into.old + length pairs.now.items }
    ensures room { vec_capacity into.old ≤ vec_capacity into.new }
    ensures spent { Spends (2 * length pairs.now.items)
        ((K.WEIGHT + V.WEIGHT) * length pairs.now.items) h.old h.new }
{
    for t in pairs {
        push_copy(into, t.0, t.1, h);
    }
}
