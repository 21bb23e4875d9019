//! What no clause says: that calls of sets succeed, how few keys are copied, and that each key is dropped once. Keys of
//! one home, of one hash and of a run of buckets that goes round the end; growth; and memory that is refused.
ghost use Rattle.std.specs.Prelude.{◌≤◌, ◌<◌, ◌+◌, ◌^◌, length, IsTrue};
ghost use Rattle.cow_cell.specs.Opens.{Opens};
ghost use Rattle.cow_model.specs.Flat.{need};

use crate::noted::{Noted, key_of};
use cow_cell::{Holder, Opening, Stock};
use cow_item::Key;
use cow_model::NoMemory;
use cow_set::Set;
use std::alloc::Global;
use std::marker::Brand;
use std::sync::Arc;
use std::sync::atomic::AtomicU64;
use std::sync::atomic::Ordering::SeqCst;
use std::test::Fail;

const WHOLE: u64 = 0x4000_0000_0000_0000;

/// Whether the holder can pay for a change of the set.
fn can_pay<K: Key<Q>, Q: Stock>(s: &Set<K, Q>, h: &Holder<Q>) -> bool
    ensures { IsTrue result → need (length s.now.value) ≤ h.now.spare }
{
    16 * (s.count() as u64) + 512 <= h.spare()
}

/// Adds one key: whether it is new.
fn add<K: Key<Q>, Q: Stock>(s: &mut Set<K, Q>, k: K, h: &mut Holder<Q>) -> Option<bool> {
    if s.count() > 10_000 || !can_pay(s, h) {
        return None;
    }
    s.insert(k, h).ok()
}

/// Adds keys.
fn add_all<Q: Stock>(s: &mut Set<i64, Q>, keys: &[i64], h: &mut Holder<Q>) -> Option<()> {
    for k in keys {
        add(s, *k, h)?;
    }
    Some(())
}

/// Takes a key out: the member that was there.
fn take<K: Key<Q>, Q: Stock>(s: &mut Set<K, Q>, k: &K, h: &mut Holder<Q>) -> Option<Option<K>> {
    if !can_pay(s, h) {
        return None;
    }
    s.remove(k, h).ok()
}

/// Whether these keys are the members, in order and by `contains`.
fn are_members<Q: Stock>(s: &Set<i64, Q>, sorted: &[&i64], expected: &[i64]) -> bool {
    if sorted.len() != expected.len() || s.count() != expected.len() {
        return false;
    }
    for i in 0..expected.len() {
        if *sorted[i] != expected[i] || !s.contains(&expected[i]) {
            return false;
        }
    }
    true
}

/// Whether the set has these members, in key order, and by `contains`.
fn shows<Q: Stock>(alloc: Global, s: &Set<i64, Q>, expected: &[i64]) -> Option<bool> {
    let sorted = s.sorted(alloc).ok()?;
    Some(are_members(s, sorted.as_slice(), expected))
}

/// A set of these keys, with its holder.
fn set_of<Q: Stock>(
    alloc: Global,
    opening: Opening,
    keys: &[i64],
) -> Option<(Set<i64, Q>, Holder<Q>)>
    requires { Opens Q.Stock opening }
{
    let mut h = Holder::<Q>::fresh(opening);
    let mut s = Set::new(alloc, &mut h).ok()?;
    add_all(&mut s, keys, &mut h)?;
    Some((s, h))
}

/// A further set of these members.
fn another<Q: Stock>(alloc: Global, keys: &[i64], h: &mut Holder<Q>) -> Option<Set<i64, Q>> {
    if h.spare() == 0 {
        return None;
    }
    let mut s = Set::new(alloc, h).ok()?;
    add_all(&mut s, keys, h)?;
    Some(s)
}

/// Row `set-one-home`: what its calls answer on four keys of one home among 8 buckets, and whether its list is shown.
fn one_home<Q: Stock>(
    alloc: Global,
    s: &mut Set<i64, Q>,
    h: &mut Holder<Q>,
) -> Option<(bool, bool, Option<i64>, bool)> {
    let again = add(s, 9, h)?;
    let new = add(s, 25, h)?;
    let taken = take(s, &9, h)?;
    Some((again, new, taken, shows(alloc, s, &[1, 17, 25])?))
}

/// The same from the start.
fn set_one_home<Q: Stock>(
    alloc: Global,
    opening: Opening,
) -> Option<(bool, bool, Option<i64>, bool)>
    requires { Opens Q.Stock opening }
{
    let (mut s, mut h) = set_of::<Q>(alloc, opening, &[1, 9, 17])?;
    let answers = one_home(alloc, &mut s, &mut h);
    s.end(&mut h);
    answers
}

#[test]
fn a_removal_cuts_no_key_off_from_its_home(rt: HostRuntime) -> Result<(), Fail> {
    let answers = set_one_home::<Brand>(rt.alloc(), Opening::new());
    assert_eq!(rt; answers, Some((false, true, Some(9), true)));
    Ok(())
}

/// Keys of the last two homes of 8 buckets, which lie round the end: whether all are there after one was taken out.
fn round_the_end<Q: Stock>(alloc: Global, opening: Opening) -> Option<(Option<i64>, bool)>
    requires { Opens Q.Stock opening }
{
    let (mut s, mut h) = set_of::<Q>(alloc, opening, &[7, 15, 6, 14, 23])?;
    let taken = take(&mut s, &7, &mut h);
    let shown = shows(alloc, &s, &[6, 14, 15, 23]);
    s.end(&mut h);
    Some((taken?, shown?))
}

#[test]
fn a_run_goes_round_the_end_of_the_buckets(rt: HostRuntime) -> Result<(), Fail> {
    let answers = round_the_end::<Brand>(rt.alloc(), Opening::new());
    assert_eq!(rt; answers, Some((Some(7), true)));
    Ok(())
}

/// Adds `count` keys that follow each other.
fn add_row<Q: Stock>(s: &mut Set<i64, Q>, count: i64, h: &mut Holder<Q>) -> Option<()> {
    for i in 0..count {
        add(s, i, h)?;
    }
    Some(())
}

/// Takes the even ones of them out.
fn take_even<Q: Stock>(s: &mut Set<i64, Q>, count: i64, h: &mut Holder<Q>) -> Option<()> {
    for i in 0..count {
        if i % 2 == 0 {
            take(s, &i, h)??;
        }
    }
    Some(())
}

/// Whether just the odd ones below `count` are there, in key order.
fn shows_odd<Q: Stock>(alloc: Global, s: &Set<i64, Q>, count: i64) -> Option<bool> {
    let sorted = s.sorted(alloc).ok()?;
    let mut next = 1;
    for k in sorted {
        if *k != next || next > count {
            return Some(false);
        }
        next = next.wrapping_add(2);
    }
    Some(next > count)
}

/// A thousand keys come, and the even ones go.
fn thousand<Q: Stock>(alloc: Global, opening: Opening) -> Option<(bool, u64, u64)>
    requires { Opens Q.Stock opening }
{
    let mut h = Holder::<Q>::fresh(opening);
    let mut s = Set::new(alloc, &mut h).ok()?;
    add_row(&mut s, 1000, &mut h)?;
    take_even(&mut s, 1000, &mut h)?;
    let shown = shows_odd(alloc, &s, 1000)?;
    s.end(&mut h);
    Some((shown, h.copied(), h.spare()))
}

#[test]
fn a_set_grows_and_loses_half_of_its_members_and_copies_nothing(
    rt: HostRuntime,
) -> Result<(), Fail> {
    let found = thousand::<Brand>(rt.alloc(), Opening::new());
    assert_eq!(rt; found, Some((true, 0, WHOLE)));
    Ok(())
}

/// Whether the holder can pay for a change of the set by another.
fn can_pay_both<Q: Stock>(s: &Set<i64, Q>, t: &Set<i64, Q>, h: &Holder<Q>) -> bool
    ensures small { IsTrue result → length s.now.value + length t.now.value < 2 ^ 31 }
    ensures spare { IsTrue result → need (length s.now.value + length t.now.value) ≤ h.now.spare }
{
    s.count() < 10_000
        && t.count() < 10_000
        && 16 * ((s.count() + t.count()) as u64) + 512 <= h.spare()
}

/// Row `set-algebra` up to its intersection: whether the lists are shown.
fn join<Q: Stock>(
    alloc: Global,
    s: &mut Set<i64, Q>,
    u: &Set<i64, Q>,
    h: &mut Holder<Q>,
) -> Option<bool> {
    if !can_pay_both(s, u, h) {
        return None;
    }
    s.union(u, h).ok()?;
    let joined = shows(alloc, s, &[1, 2, 3, 4])?;
    if !can_pay_both(s, u, h) {
        return None;
    }
    s.intersection(u, h).ok()?;
    Some(joined && shows(alloc, s, &[3, 4])?)
}

/// Its difference and its symmetric difference.
fn differ<Q: Stock>(
    alloc: Global,
    s: &mut Set<i64, Q>,
    u: &Set<i64, Q>,
    v: &Set<i64, Q>,
    h: &mut Holder<Q>,
) -> Option<bool> {
    if !can_pay_both(s, v, h) {
        return None;
    }
    s.subtracting(v, h).ok()?;
    let less = shows(alloc, s, &[3])?;
    if !can_pay_both(s, u, h) {
        return None;
    }
    s.symmetric_difference(u, h).ok()?;
    Some(less && shows(alloc, s, &[4])?)
}

/// Puts a key over: the member that was there.
fn put<Q: Stock>(s: &mut Set<i64, Q>, k: i64, h: &mut Holder<Q>) -> Option<Option<i64>> {
    if s.count() > 10_000 || !can_pay(s, h) {
        return None;
    }
    s.update(k, h).ok()
}

/// Its last calls: what `update` answers, and `is_subset` and `is_disjoint`.
fn ask<Q: Stock>(
    s: &mut Set<i64, Q>,
    u: &Set<i64, Q>,
    v: &Set<i64, Q>,
    h: &mut Holder<Q>,
) -> Option<(Option<i64>, Option<i64>, bool, bool)> {
    let four = put(s, 4, h)?;
    let eight = put(s, 8, h)?;
    Some((four, eight, v.is_subset(s), u.is_disjoint(v)))
}

/// Row `set-algebra` on three sets of one holder.
fn set_algebra<Q: Stock>(
    alloc: Global,
    opening: Opening,
) -> Option<(bool, bool, (Option<i64>, Option<i64>, bool, bool))>
    requires { Opens Q.Stock opening }
{
    let (mut s, mut h) = set_of::<Q>(alloc, opening, &[1, 2, 3])?;
    let u = another(alloc, &[3, 4], &mut h)?;
    let joined = join(alloc, &mut s, &u, &mut h)?;
    let v = another(alloc, &[4], &mut h)?;
    let differed = differ(alloc, &mut s, &u, &v, &mut h)?;
    Some((joined, differed, ask(&mut s, &u, &v, &mut h)?))
}

#[test]
fn the_algebra_of_sets_gives_its_row(rt: HostRuntime) -> Result<(), Fail> {
    let found = set_algebra::<Brand>(rt.alloc(), Opening::new());
    assert_eq!(rt; found, Some((true, true, (Some(4), None, true, false))));
    Ok(())
}

/// Whether a copy keeps its members where the other is changed, how many keys were copied, and whether a call that
/// changes nothing copies none.
fn shared<Q: Stock>(alloc: Global, opening: Opening) -> Option<(bool, bool, u64, u64)>
    requires { Opens Q.Stock opening }
{
    let (mut s, mut h) = set_of::<Q>(alloc, opening, &[1, 2, 3, 4, 5, 6])?;
    if h.spare() == 0 {
        return None;
    }
    let mut c = s.copy(&mut h);
    add(&mut c, 3, &mut h)?;
    let none = h.copied();
    add(&mut c, 7, &mut h)?;
    let shown = shows(alloc, &s, &[1, 2, 3, 4, 5, 6])?;
    let changed = shows(alloc, &c, &[1, 2, 3, 4, 5, 6, 7])?;
    Some((shown, changed, none, h.copied()))
}

#[test]
fn a_change_of_a_shared_set_copies_its_members_once(rt: HostRuntime) -> Result<(), Fail> {
    let found = shared::<Brand>(rt.alloc(), Opening::new());
    assert_eq!(rt; found, Some((true, true, 0, 6)));
    Ok(())
}

/// Four numbers of one hash, of which one is looked for before it comes: what the calls of a set of them answer, and
/// whether its list is shown after one was taken out.
fn one_hash<Q: Stock>(alloc: Global, opening: Opening) -> Option<(bool, bool, Option<i64>, bool)>
    requires { Opens Q.Stock opening }
{
    let (mut s, mut h) = set_of::<Q>(alloc, opening, &[0, -1, 4_294_967_297])?;
    let early = s.contains(&8_589_934_594);
    let new = add(&mut s, 8_589_934_594, &mut h);
    let taken = take(&mut s, &-1, &mut h);
    let shown = shows(alloc, &s, &[0, 4_294_967_297, 8_589_934_594]);
    s.end(&mut h);
    Some((early, new?, taken?, shown?))
}

#[test]
fn keys_of_one_hash_are_told_apart(rt: HostRuntime) -> Result<(), Fail> {
    let found = one_hash::<Brand>(rt.alloc(), Opening::new());
    assert_eq!(rt; found, Some((false, true, Some(-1), true)));
    Ok(())
}

/// An empty set. Where memory is refused, it is tried once more.
fn new_again<K: Key<Q>, Q: Stock>(alloc: Global, h: &mut Holder<Q>) -> Option<Set<K, Q>> {
    if h.spare() < 2 {
        return None;
    }
    match Set::new(alloc, h) {
        Ok(s) => Some(s),
        Err(NoMemory) => Set::new(alloc, h).ok(),
    }
}

/// Adds a key. Where memory is refused, it is tried once more with the key that was handed back.
fn add_again<K: Key<Q>, Q: Stock>(s: &mut Set<K, Q>, k: K, h: &mut Holder<Q>) -> Option<bool> {
    if s.count() > 10_000 || !can_pay(s, h) {
        return None;
    }
    match s.insert(k, h) {
        Ok(new) => Some(new),
        Err((NoMemory, k)) => add(s, k, h),
    }
}

/// Adds the numbers below `count`, each as a key whose value counts its drop.
fn add_noted<Q: Stock>(
    alloc: Global,
    s: &mut Set<Noted<Q>, Q>,
    count: i64,
    drops: &Arc<AtomicU64>,
    h: &mut Holder<Q>,
) -> Option<()> {
    for number in 0..count {
        add_again(s, key_of(alloc, number, drops, h)?, h)?;
    }
    Some(())
}

/// Twenty keys come into a set, one of them twice, and another goes. Then one more comes into a copy of the set.
fn change_noted<Q: Stock>(
    alloc: Global,
    s: &mut Set<Noted<Q>, Q>,
    drops: &Arc<AtomicU64>,
    h: &mut Holder<Q>,
) -> Option<bool> {
    add_noted(alloc, s, 20, drops, h)?;
    add_noted(alloc, s, 1, drops, h)?;
    take(s, &key_of(alloc, 4, drops, h)?, h)?;
    if h.spare() == 0 {
        return None;
    }
    let mut copy = s.copy(h);
    add_again(&mut copy, key_of(alloc, 20, drops, h)?, h)
}

/// Whether that was done, and how many keys were copied. Both sets are dropped.
fn noted_sets<Q: Stock>(
    alloc: Global,
    opening: Opening,
    drops: &Arc<AtomicU64>,
) -> Option<(bool, u64)>
    requires { Opens Q.Stock opening }
{
    let mut h = Holder::<Q>::fresh(opening);
    let mut s = new_again(alloc, &mut h)?;
    let done = change_noted(alloc, &mut s, drops, &mut h);
    Some((done?, h.copied()))
}

/// 23 keys are made, one of them to look for the one that goes; 19 are copied, which share the values of the others.
/// `bench/refused.sh` has each allocation refused in turn, and nothing differs.
#[test]
fn each_key_is_dropped_once_where_memory_is_refused(rt: HostRuntime) -> Result<(), Fail> {
    let drops = match Arc::new(rt.alloc(), AtomicU64::new(0)) {
        Ok(drops) => drops,
        Err(_) => Arc::new(rt.alloc(), AtomicU64::new(0))?,
    };
    let done = noted_sets::<Brand>(rt.alloc(), Opening::new(), &drops);
    assert_eq!(rt; (done, drops.load(SeqCst)), (Some((true, 19)), 23));
    Ok(())
}
