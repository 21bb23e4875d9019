//! What no clause says: that `new` succeeds, that a handle whose twins have ended is found to be the
//! only one while other blocks are live, and that a value is dropped once.
ghost use Rattle.std.specs.Prelude.{◌≡◌, ◌≤◌, ◌^◌, false};
ghost use Rattle.cow_cell.specs.Opens.{Opens};

use crate::drops::Dropped;
use cow_cell::{Counted, Holder, Opening, Stock};
use std::alloc::Global;
use std::marker::Brand;
use std::sync::atomic::{AtomicU64, Ordering};
use std::test::Fail;
use std::thread;
use std::thread::Threads;

/// All units of a stock.
const STOCK: u64 = 1 << 62;

/// Whether a handle is found to be the only one, beside its twin and after the twin's end, what it
/// shows after a write, and the spare at the end. A second block is live meanwhile.
fn tested_twice<Q: Stock>(alloc: Global, opening: Opening) -> Option<(bool, bool, u64, u64)>
    requires { Opens Q.Stock opening }
{
    let mut h = Holder::<Q>::fresh(opening);
    let beside = Counted::new(alloc, 1u64, &mut h).ok()?;
    let mut one = Counted::new(alloc, 2u64, &mut h).ok()?;
    let two = one.share(&mut h);
    let shared = one.sole(&mut h).is_some();
    two.end(&mut h);
    let sole = match one.sole(&mut h) {
        Some(value) => {
            *value = 7;
            true
        }
        None => false,
    };
    let shown = *one.get();
    one.end(&mut h);
    beside.end(&mut h);
    Some((shared, sole, shown, h.spare()))
}

#[test]
fn a_handle_whose_twin_has_ended_is_sole(rt: HostRuntime) -> Result<(), Fail> {
    let found = tested_twice::<Brand>(rt.alloc(), Opening::new());
    assert_eq!(rt; found, Some((false, true, 7, STOCK)));
    Ok(())
}

/// One thread ends one handle, and another drops its twin.
fn ended_and_dropped<Q: Stock + Send + Sync, R: Threads + Sync>(
    rt: &R,
    alloc: Global,
    opening: Opening,
    drops: &AtomicU64,
)
    requires { Opens Q.Stock opening }
{
    let mut h = Holder::<Q>::fresh(opening);
    if let Ok(mut one) = Counted::new(alloc, Dropped { drops }, &mut h) {
        let two = one.share(&mut h);
        thread::join(rt, move || drop(one.end(&mut h)), move || drop(two));
    }
}

#[test]
fn two_threads_drop_a_value_once(rt: HostRuntime) -> Result<(), Fail> {
    for round in 0..1000usize {
        let drops = AtomicU64::new(0);
        ended_and_dropped::<Brand, HostRuntime>(&rt, rt.alloc(), Opening::new(), &drops);
        assert_eq!(rt; drops.load(Ordering::SeqCst), 1, "in round {round}");
    }
    Ok(())
}

/// Shares a handle that other threads share too, tests the twin and ends it, many times. Answers how
/// many twins were found to be the only handle.
fn visit<'a, Q: Stock>(one: &Counted<Dropped<'a>, Q>, mut h: Holder<Q>) -> (u64, Holder<Q>)
    requires settled { one.now.alone ≡ false }
    requires spare { 1 ≤ h.spare }
{
    let mut sole = 0u64;
    for _ in 0..1000usize {
        let mut twin = one.share_settled(&mut h);
        if twin.sole(&mut h).is_some() {
            sole = sole.saturating_add(1);
        }
        twin.end(&mut h);
    }
    (sole, h)
}

/// Two threads that do so.
fn visit_by_two<'a, Q: Stock + Send + Sync, R: Threads + Sync>(
    rt: &R,
    one: &Counted<Dropped<'a>, Q>,
    mut h: Holder<Q>,
) -> (u64, Holder<Q>)
    requires settled { one.now.alone ≡ false }
    requires spare { 2 ≤ h.spare }
{
    let g = h.split(1);
    let (left, right) = thread::join(
        rt,
        move ||
            requires settled { one.now.alone ≡ false }
            requires spare { 1 ≤ h.spare }
        { visit(one, h) },
        move ||
            requires settled { one.now.alone ≡ false }
            requires spare { 1 ≤ g.spare }
        { visit(one, g) },
    );
    let (sole, mut h) = left;
    h.join(right.1);
    (sole.saturating_add(right.0), h)
}

/// How often one of four threads found its twin to be the only handle, whether the handle that was
/// shared is found to be so afterwards, and the spare at the end, when that handle has been dropped.
fn visited_by_four<Q: Stock + Send + Sync, R: Threads + Sync>(
    rt: &R,
    alloc: Global,
    opening: Opening,
    drops: &AtomicU64,
) -> Option<(u64, bool, u64)>
    requires { Opens Q.Stock opening }
{
    let mut h = Holder::<Q>::fresh(opening);
    let beside = Counted::new(alloc, 1u64, &mut h).ok()?;
    let mut one = Counted::new(alloc, Dropped { drops }, &mut h).ok()?;
    one.settle();
    let seen = &one;
    let (g, k) = (h.split(2), h.split(2));
    let (left, right) = thread::join(
        rt,
        move ||
            requires settled { seen.now.alone ≡ false }
            requires spare { 2 ≤ g.spare }
        { visit_by_two(rt, seen, g) },
        move ||
            requires settled { seen.now.alone ≡ false }
            requires spare { 2 ≤ k.spare }
        { visit_by_two(rt, seen, k) },
    );
    h.join(left.1);
    h.join(right.1);
    let sole = one.sole(&mut h).is_some();
    drop(one);
    beside.end(&mut h);
    Some((left.0.saturating_add(right.0), sole, h.spare()))
}

#[test]
fn four_threads_share_test_and_end_one_block(rt: HostRuntime) -> Result<(), Fail> {
    let drops = AtomicU64::new(0);
    let found = visited_by_four::<Brand, HostRuntime>(&rt, rt.alloc(), Opening::new(), &drops);
    assert_eq!(rt; found, Some((0, true, STOCK - 1)));
    assert_eq!(rt; drops.load(Ordering::SeqCst), 1);
    Ok(())
}
