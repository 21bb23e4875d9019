// Copies of the members of a set, for another that is made of them.
ghost use Rattle.std.specs.Prelude.{◌≡◌, ◌+◌, ◌*◌, ◌≤◌, ◌<◌, ◌++◌, ◌∷◌, [], length, map, filter, All, vec_len, vec_capacity};
ghost use Rattle.cow_champ.specs.Spending.{Spends};
ghost use Rattle.cow_members.specs.Sets.{kept_by};
ghost use Rattle.cow_treeset.specs.TreeSets.{key_of, IsHashed};

use crate::set::TreeSet;
use cow_cell::{Holder, Stock};
use cow_champ::Level;
use cow_item::Key;

/// A copy of a key, beside its hash, stands last in `into`, which has room for it.
fn push_copy<K: Key<Q>, Q: Stock>(into: &mut Vec<(u32, K, ())>, k: &K, h: &mut Holder<Q>)
    requires settled { K.IsSettled k.now }
    requires room { vec_len into.old < vec_capacity into.old }
    requires spare { 1 ≤ h.old.spare }
    requires hashes { All (IsHashed K.hash_of K.plain) into.old.items }
    ensures hashes { All (IsHashed K.hash_of K.plain) into.new.items }
    ensures same { map (key_of K.plain) into.new.items
        ≡ map (key_of K.plain) into.old.items ++ K.plain k.now ∷ [] }
    ensures more { vec_len into.new ≡ vec_len into.old + 1 }
    ensures room { vec_capacity into.old ≤ vec_capacity into.new }
    ensures spent { Spends 1 K.WEIGHT h.old h.new }
{
    let key = k.copy(h);
    let hash = key.hash();
    if into.push((hash, key, ())).is_err() {
        unreachable!()
    }
}

/// Copies of those keys that `others` has stand last in `into`, in their order, where `keep` is true; of those that it
/// hasn't, where it is false.
pub(crate) fn copy_kept<K: Key<Q>, Q: Stock, C: Level<K, (), Q>>(
    keys: &Vec<(&K, &())>,
    others: &TreeSet<K, Q, C>,
    keep: bool,
    into: &mut Vec<(u32, K, ())>,
    h: &mut Holder<Q>,
)
    requires settled { All (λ t. K.IsSettled t.0.now) keys.now.items }
    requires room { vec_len into.old + length keys.now.items ≤ vec_capacity into.old }
    requires spare { length keys.now.items ≤ h.old.spare }
    requires hashes { All (IsHashed K.hash_of K.plain) into.old.items }
    ensures hashes { All (IsHashed K.hash_of K.plain) into.new.items }
    ensures same { map (key_of K.plain) into.new.items ≡ map (key_of K.plain) into.old.items
        ++ filter (kept_by keep others.now.value) (map (λ t. K.plain t.0.now) keys.now.items) }
    ensures most { vec_len into.new ≤ vec_len into.old + length keys.now.items }
    ensures room { vec_capacity into.old ≤ vec_capacity into.new }
    ensures spent { Spends (length keys.now.items)
        (K.WEIGHT * length keys.now.items) h.old h.new }
{
    for t in keys {
        if others.stays(t.0, keep) {
            push_copy(into, t.0, h);
        }
    }
}

/// Copies of all these keys stand last in `into`, in their order.
pub(crate) fn copy_all<K: Key<Q>, Q: Stock>(
    keys: &Vec<(&K, &())>,
    into: &mut Vec<(u32, K, ())>,
    h: &mut Holder<Q>,
)
    requires settled { All (λ t. K.IsSettled t.0.now) keys.now.items }
    requires room { vec_len into.old + length keys.now.items ≤ vec_capacity into.old }
    requires spare { length keys.now.items ≤ h.old.spare }
    requires hashes { All (IsHashed K.hash_of K.plain) into.old.items }
    ensures hashes { All (IsHashed K.hash_of K.plain) into.new.items }
    ensures same { map (key_of K.plain) into.new.items ≡ map (key_of K.plain) into.old.items
        ++ map (λ t. K.plain t.0.now) keys.now.items }
    ensures more { vec_len into.new ≡ vec_len into.old + length keys.now.items }
    ensures room { vec_capacity into.old ≤ vec_capacity into.new }
    ensures spent { Spends (length keys.now.items)
        (K.WEIGHT * length keys.now.items) h.old h.new }
{
    for t in keys {
        push_copy(into, t.0, h);
    }
}
