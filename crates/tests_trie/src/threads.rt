//! Two threads that change a copy of one trie each, beside a third handle.
ghost use Rattle.std.specs.Prelude.{◌≡◌, ◌≤◌, ◌<◌, ◌+◌, ◌^◌, length};
ghost use Rattle.cow_cell.specs.Opens.{Opens};
ghost use Rattle.cow_model.specs.Flat.{need};

use cow_cell::{Holder, Opening, Stock};
use cow_champ::{Branch, Collide, Level};
use cow_treedict::TreeDictionary;
use std::alloc::Global;
use std::marker::Brand;
use std::test::Fail;
use std::thread;
use std::thread::Threads;

/// The value that each thread found under the key that it had put, that of the third handle, and whether each unit is
/// back.
type Found = Option<(Option<i64>, Option<i64>, Option<i64>, bool)>;

/// Puts `v` under key 32: the value there then, or none where the change was refused.
fn changed<Q: Stock, C: Level<i64, i64, Q>>(
    mut t: TreeDictionary<i64, i64, Q, C>,
    v: i64,
    mut h: Holder<Q>,
) -> (Option<i64>, Holder<Q>)
    requires growth { length t.value + 1 < 2 ^ 31 }
    requires spare { need (length t.value) ≤ h.spare }
{
    let shown = match t.update(32, v, &mut h) {
        Ok(_) => value_at(&t, 32),
        Err(_) => None,
    };
    t.end(&mut h);
    (shown, h)
}

/// The value under a key.
fn value_at<Q: Stock, C: Level<i64, i64, Q>>(
    t: &TreeDictionary<i64, i64, Q, C>,
    k: i64,
) -> Option<i64> {
    match t.get(&k) {
        Some(v) => Some(*v),
        None => None,
    }
}

/// A dictionary of three keys, of which two are in one child, and two copies of it.
fn copied_twice<Q: Stock, C: Level<i64, i64, Q>>(
    alloc: Global,
    opening: Opening,
) -> Option<
    (
        TreeDictionary<i64, i64, Q, C>,
        TreeDictionary<i64, i64, Q, C>,
        TreeDictionary<i64, i64, Q, C>,
        Holder<Q>,
    ),
>
    requires opens { Opens Q.Stock opening }
    requires root { C.LEVEL ≡ 0 }
    requires stacked { C.Stacked }
{
    let mut h = Holder::<Q>::fresh(opening);
    let pairs = Vec::from_slice(alloc, &[(0, 1), (32, 2), (5, 3)]).ok()?;
    if pairs.len() != 3 {
        return None;
    }
    let mut a = TreeDictionary::<i64, i64, Q, C>::from_pairs(alloc, pairs, &mut h).ok()?;
    if h.spare() < 2 {
        return None;
    }
    let b = a.copy(&mut h);
    let c = a.copy_settled(&mut h);
    Some((a, b, c, h))
}

/// Two copies are changed by two threads.
fn changed_by_two<Q: Stock + Send + Sync, C: Level<i64, i64, Q> + Send + Sync, R: Threads + Sync>(
    rt: &R,
    alloc: Global,
    opening: Opening,
) -> Found
    requires opens { Opens Q.Stock opening }
    requires root { C.LEVEL ≡ 0 }
    requires stacked { C.Stacked }
{
    let (a, b, c, mut h) = copied_twice::<Q, C>(alloc, opening)?;
    if b.count() != 3 || c.count() != 3 || h.spare() < 2000 {
        return None;
    }
    let g = h.split(1000);
    let k = h.split(1000);
    let (one, two) = thread::join(
        rt,
        move ||
            requires growth { length b.value + 1 < 2 ^ 31 }
            requires spare { need (length b.value) ≤ g.spare }
        { changed(b, 20, g) },
        move ||
            requires growth { length c.value + 1 < 2 ^ 31 }
            requires spare { need (length c.value) ≤ k.spare }
        { changed(c, 30, k) },
    );
    let left = value_at(&a, 32);
    h.join(one.1);
    h.join(two.1);
    a.end(&mut h);
    Some((one.0, two.0, left, h.spare() == 0x4000_0000_0000_0000))
}

/// The same over a root, of which nothing is known below.
fn over_0<Q: Stock + Send + Sync, C: Level<i64, i64, Q> + Send + Sync, R: Threads + Sync>(
    rt: &R,
    alloc: Global,
    opening: Opening,
) -> Found
    requires opens { Opens Q.Stock opening }
    requires above { C.LEVEL ≡ 1 }
    requires stacked { C.Stacked }
{
    changed_by_two::<Q, Branch<i64, i64, C, Q, 0>, R>(rt, alloc, opening)
}

/// With level 1 over a level below it.
fn over_1<Q: Stock + Send + Sync, C: Level<i64, i64, Q> + Send + Sync, R: Threads + Sync>(
    rt: &R,
    alloc: Global,
    opening: Opening,
) -> Found
    requires opens { Opens Q.Stock opening }
    requires above { C.LEVEL ≡ 2 }
    requires stacked { C.Stacked }
{
    over_0::<Q, Branch<i64, i64, C, Q, 1>, R>(rt, alloc, opening)
}

/// With level 2 over a level below it.
fn over_2<Q: Stock + Send + Sync, C: Level<i64, i64, Q> + Send + Sync, R: Threads + Sync>(
    rt: &R,
    alloc: Global,
    opening: Opening,
) -> Found
    requires opens { Opens Q.Stock opening }
    requires above { C.LEVEL ≡ 3 }
    requires stacked { C.Stacked }
{
    over_1::<Q, Branch<i64, i64, C, Q, 2>, R>(rt, alloc, opening)
}

/// With level 3 over a level below it.
fn over_3<Q: Stock + Send + Sync, C: Level<i64, i64, Q> + Send + Sync, R: Threads + Sync>(
    rt: &R,
    alloc: Global,
    opening: Opening,
) -> Found
    requires opens { Opens Q.Stock opening }
    requires above { C.LEVEL ≡ 4 }
    requires stacked { C.Stacked }
{
    over_2::<Q, Branch<i64, i64, C, Q, 3>, R>(rt, alloc, opening)
}

/// With level 4 over a level below it.
fn over_4<Q: Stock + Send + Sync, C: Level<i64, i64, Q> + Send + Sync, R: Threads + Sync>(
    rt: &R,
    alloc: Global,
    opening: Opening,
) -> Found
    requires opens { Opens Q.Stock opening }
    requires above { C.LEVEL ≡ 5 }
    requires stacked { C.Stacked }
{
    over_3::<Q, Branch<i64, i64, C, Q, 4>, R>(rt, alloc, opening)
}

/// With level 5 over a level below it.
fn over_5<Q: Stock + Send + Sync, C: Level<i64, i64, Q> + Send + Sync, R: Threads + Sync>(
    rt: &R,
    alloc: Global,
    opening: Opening,
) -> Found
    requires opens { Opens Q.Stock opening }
    requires above { C.LEVEL ≡ 6 }
    requires stacked { C.Stacked }
{
    over_4::<Q, Branch<i64, i64, C, Q, 5>, R>(rt, alloc, opening)
}

/// The same over seven levels, one function for each, since one that names them all stops at the checker's limit.
fn over_levels<Q: Stock + Send + Sync, R: Threads + Sync>(
    rt: &R,
    alloc: Global,
    opening: Opening,
) -> Found
    requires { Opens Q.Stock opening }
{
    over_5::<Q, Branch<i64, i64, Collide<i64, i64>, Q, 6>, R>(rt, alloc, opening)
}

#[test]
fn two_threads_change_a_copy_each(rt: HostRuntime) -> Result<(), Fail> {
    let found = over_levels::<Brand, HostRuntime>(&rt, rt.alloc(), Opening::new());
    assert_eq!(rt; found, Some((Some(20), Some(30), Some(2), true)));
    Ok(())
}
