// Changes by which pairs keep their order: what goes is closed up, and pairs change places.
ghost use Rattle.std.specs.Prelude.{◌≡◌, ◌+◌, ◌<◌, ◌^◌, length, remove, swap, reverse, slice_get, Some};
ghost use Rattle.cow_dict.specs.Storages.{AreWhole, listed};

use crate::pairs::Pairs;
use cow_cell::Stock;
use cow_item::{Item, Key};
use cow_members::order;

/// The pair at position `i`, taken out; those behind it stand one position before theirs. One pass over the table, but
/// for the last pair.
pub fn remove_at<K: Key<Q>, V: Item<Q>, Q: Stock>(pairs: &mut Pairs<K, V>, i: usize) -> (K, V)
    requires whole { AreWhole K.plain K.hash_of K.IsSettled V.IsSettled pairs.old }
    requires within { i < length pairs.old.members.keys.items }
    ensures whole { AreWhole K.plain K.hash_of K.IsSettled V.IsSettled pairs.new }
    ensures key { slice_get pairs.old.members.keys.items i ≡ Some result.0 }
    ensures value { slice_get pairs.old.values.items i ≡ Some result.1 }
    ensures same { listed K.plain V.plain pairs.new ≡ remove (listed K.plain V.plain pairs.old) i }
    ensures count { length pairs.new.members.keys.items + 1
        ≡ length pairs.old.members.keys.items }
    ensures capacity { pairs.new.values.capacity ≡ pairs.old.values.capacity }
{
    let k = order::remove_at(&mut pairs.members, i);
    let v = pairs.values.remove(i);
    (k, v)
}

/// The pairs at the positions `i` and `j` in each other's place.
pub fn swap<K: Key<Q>, V: Item<Q>, Q: Stock>(pairs: &mut Pairs<K, V>, i: usize, j: usize)
    requires whole { AreWhole K.plain K.hash_of K.IsSettled V.IsSettled pairs.old }
    requires first { i < length pairs.old.members.keys.items }
    requires second { j < length pairs.old.members.keys.items }
    requires small { length pairs.old.members.keys.items < 2 ^ 31 }
    ensures whole { AreWhole K.plain K.hash_of K.IsSettled V.IsSettled pairs.new }
    ensures same { listed K.plain V.plain pairs.new ≡ swap (listed K.plain V.plain pairs.old) i j }
    ensures count { length pairs.new.members.keys.items ≡ length pairs.old.members.keys.items }
    ensures capacity { pairs.new.values.capacity ≡ pairs.old.values.capacity }
{
    order::swap(&mut pairs.members, i, j);
    pairs.values.swap(i, j);
}

/// The pairs in the opposite order. Linear in their number.
pub fn reverse<K: Key<Q>, V: Item<Q>, Q: Stock>(pairs: &mut Pairs<K, V>)
    requires whole { AreWhole K.plain K.hash_of K.IsSettled V.IsSettled pairs.old }
    requires small { length pairs.old.members.keys.items < 2 ^ 31 }
    ensures whole { AreWhole K.plain K.hash_of K.IsSettled V.IsSettled pairs.new }
    ensures same { listed K.plain V.plain pairs.new ≡ reverse (listed K.plain V.plain pairs.old) }
    ensures count { length pairs.new.members.keys.items ≡ length pairs.old.members.keys.items }
    ensures capacity { pairs.new.values.capacity ≡ pairs.old.values.capacity }
{
    order::reverse(&mut pairs.members);
    pairs.values.reverse();
}
