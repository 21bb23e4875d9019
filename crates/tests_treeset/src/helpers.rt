//! Calls on sets that ask first whether their conditions hold.
ghost use Rattle.std.specs.Prelude.{◌≡◌, ◌≤◌, ◌<◌, ◌+◌, ◌^◌, length, IsTrue};
ghost use Rattle.cow_model.specs.Flat.{need};

use cow_cell::{Holder, Stock};
use cow_champ::Level;
use cow_item::Key;
use cow_treeset::TreeSet;
use cow_trim::Trim;
use std::alloc::Global;

/// A set of these keys.
pub(crate) fn made<Q: Stock, C: Level<i64, (), Q>>(
    alloc: Global,
    keys: Vec<i64>,
    h: &mut Holder<Q>,
) -> Option<TreeSet<i64, Q, C>>
    requires root { C.LEVEL ≡ 0 }
    requires stacked { C.Stacked }
{
    if keys.len() > 1000 || h.spare() < 20_000 {
        return None;
    }
    TreeSet::from_keys(alloc, keys, h).ok()
}

/// The same of a list of them.
pub(crate) fn made_of<Q: Stock, C: Level<i64, (), Q>>(
    alloc: Global,
    keys: &[i64],
    h: &mut Holder<Q>,
) -> Option<TreeSet<i64, Q, C>>
    requires root { C.LEVEL ≡ 0 }
    requires stacked { C.Stacked }
{
    let keys = Vec::from_slice(alloc, keys).ok()?;
    made(alloc, keys, h)
}

/// Whether the set is small, and the holder can pay for a change of one key.
pub(crate) fn can_change<K: Key<Q>, Q: Stock, C: Level<K, (), Q>>(
    s: &TreeSet<K, Q, C>,
    h: &Holder<Q>,
) -> bool
    ensures small { IsTrue result → length s.now.value + 1 < 2 ^ 31 }
    ensures paid { IsTrue result → need (length s.now.value) ≤ h.now.spare }
{
    s.count() < 1000 && h.spare() >= 40_000
}

/// The same of a change by another set.
pub(crate) fn can_combine<Q: Stock, C: Level<i64, (), Q>>(
    s: &TreeSet<i64, Q, C>,
    u: &TreeSet<i64, Q, C>,
    h: &Holder<Q>,
) -> bool
    ensures small { IsTrue result → length s.now.value + length u.now.value < 2 ^ 31 }
    ensures paid { IsTrue result → need (length s.now.value + length u.now.value) ≤ h.now.spare }
{
    s.count() < 1000 && u.count() < 1000 && h.spare() >= 40_000
}

/// Inserts a key: whether it is new.
pub(crate) fn insert<K: Key<Q>, Q: Stock, C: Level<K, (), Q>>(
    s: &mut TreeSet<K, Q, C>,
    k: K,
    h: &mut Holder<Q>,
) -> Option<bool> {
    if !can_change(s, h) {
        return None;
    }
    s.insert(k, h).ok()
}

/// Puts a key in, and tells what it hands out.
pub(crate) fn update<Q: Stock, C: Level<i64, (), Q>>(
    s: &mut TreeSet<i64, Q, C>,
    k: i64,
    h: &mut Holder<Q>,
) -> Option<Option<i64>> {
    if !can_change(s, h) {
        return None;
    }
    s.update(k, h).ok()
}

/// Removes a key: the member that it was.
pub(crate) fn remove<K: Key<Q>, Q: Stock, C: Trim<K, (), Q>>(
    s: &mut TreeSet<K, Q, C>,
    k: &K,
    h: &mut Holder<Q>,
) -> Option<Option<K>> {
    if !can_change(s, h) {
        return None;
    }
    s.remove(k, h).ok()
}

/// Whether these are the keys, in this order.
pub(crate) fn are_keys(shown: &[&i64], expected: &[i64]) -> bool {
    if shown.len() != expected.len() {
        return false;
    }
    for i in 0..expected.len() {
        if *shown[i] != expected[i] {
            return false;
        }
    }
    true
}

/// Whether the set has just these members, in this order by `sorted`.
pub(crate) fn has_keys<Q: Stock, C: Level<i64, (), Q>>(
    alloc: Global,
    s: &TreeSet<i64, Q, C>,
    expected: &[i64],
) -> Option<bool> {
    let sorted = s.sorted(alloc).ok()?;
    Some(s.count() == expected.len() && are_keys(sorted.as_slice(), expected))
}
