// Which types are roots of tries.
ghost use Rattle.std.specs.Prelude.{◌≡◌};
ghost use Rattle.std.proofs.Common.{refl};

use cow_cell::Stock;
use cow_champ::{Branch, Collide};
use cow_item::{Item, Key};
use cow_trim::Trim;

/// A level that stands where its type says: at level `AT`, over levels in order.
pub trait Stands<K: Key<Q>, V: Item<Q>, Q: Stock, const AT: u32>: Trim<K, V, Q> {
    ghost level: { Self.LEVEL ≡ AT };

    ghost stacked: { Self.Stacked };
}

impl<K: Key<Q>, V: Item<Q>, Q: Stock> Stands<K, V, Q, 7> for Collide<K, V> {
    ghost level = { refl };

    ghost stacked = { _ };
}

impl<K: Key<Q>, V: Item<Q>, Q: Stock, C: Stands<K, V, Q, 7>> Stands<K, V, Q, 6>
    for Branch<K, V, C, Q, 6> {
    ghost level = { refl };

    ghost stacked = { (C.stacked, C.level) };
}

impl<K: Key<Q>, V: Item<Q>, Q: Stock, C: Stands<K, V, Q, 6>> Stands<K, V, Q, 5>
    for Branch<K, V, C, Q, 5> {
    ghost level = { refl };

    ghost stacked = { (C.stacked, C.level) };
}

impl<K: Key<Q>, V: Item<Q>, Q: Stock, C: Stands<K, V, Q, 5>> Stands<K, V, Q, 4>
    for Branch<K, V, C, Q, 4> {
    ghost level = { refl };

    ghost stacked = { (C.stacked, C.level) };
}

impl<K: Key<Q>, V: Item<Q>, Q: Stock, C: Stands<K, V, Q, 4>> Stands<K, V, Q, 3>
    for Branch<K, V, C, Q, 3> {
    ghost level = { refl };

    ghost stacked = { (C.stacked, C.level) };
}

impl<K: Key<Q>, V: Item<Q>, Q: Stock, C: Stands<K, V, Q, 3>> Stands<K, V, Q, 2>
    for Branch<K, V, C, Q, 2> {
    ghost level = { refl };

    ghost stacked = { (C.stacked, C.level) };
}

impl<K: Key<Q>, V: Item<Q>, Q: Stock, C: Stands<K, V, Q, 2>> Stands<K, V, Q, 1>
    for Branch<K, V, C, Q, 1> {
    ghost level = { refl };

    ghost stacked = { (C.stacked, C.level) };
}

/// The type of a trie's root.
pub trait Root<K: Key<Q>, V: Item<Q>, Q: Stock>: Trim<K, V, Q> {
    ghost root: { Self.LEVEL ≡ 0 };

    ghost stacked: { Self.Stacked };
}

impl<K: Key<Q>, V: Item<Q>, Q: Stock, C: Stands<K, V, Q, 1>> Root<K, V, Q>
    for Branch<K, V, C, Q, 0> {
    ghost root = { refl };

    ghost stacked = { (C.stacked, C.level) };
}
