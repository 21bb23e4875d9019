//! Calls on one key: which keys a set then has, in which order a walk comes by them, and how few are copied.
ghost use Rattle.std.specs.Prelude.{◌≡◌};
ghost use Rattle.cow_cell.specs.Opens.{Opens};

use crate::helpers::{are_keys, has_keys, insert, made_of};
use cow_cell::{Holder, Opening, Stock};
use cow_champ::Level;
use cow_levels::{Task, over_levels};
use cow_treeset::TreeSet;
use cow_trim::Trim;
use std::alloc::Global;
use std::marker::Brand;
use std::test::Fail;

/// What calls on three keys of one hash and one of another answer: how many have hash 0, whether an insertion of one that
/// is there and of one that isn't tells so, whether the walk and the sorted list have the order that is expected, how many
/// keys were copied, and whether each unit is back.
type OfOneHash = Option<(usize, bool, bool, bool, bool, u64, bool)>;

#[derive(Drop)]
struct OneHash {
    alloc: Global,
    opening: Opening,
}

impl<Q: Stock> Task<i64, (), Q> for OneHash {
    type Out = OfOneHash;

    ghost use Rattle.std.specs.Prelude.{⊤};
    ghost use Rattle.cow_cell.specs.Opens.{Opens};

    ghost Takes = { λ t. Opens Q.Stock t.opening };

    ghost Gives = { λ t r. ⊤ };

    fn run<C: Trim<i64, (), Q> + Send + Sync>(self) -> OfOneHash {
        let OneHash { alloc, opening } = self;
        let mut h = Holder::<Q>::fresh(opening);
        let mut s = made_of::<Q, C>(alloc, &[4_294_967_297, 0, -1, 0], &mut h)?;
        let answers = one_hash(alloc, &mut s, &mut h);
        s.end(&mut h);
        let (alike, old, new, walks, sorts) = answers?;
        let whole = h.spare() == 0x4000_0000_0000_0000;
        Some((alike, old, new, walks, sorts, h.copied(), whole))
    }
}

/// The first five of these.
fn one_hash<Q: Stock, C: Level<i64, (), Q>>(
    alloc: Global,
    s: &mut TreeSet<i64, Q, C>,
    h: &mut Holder<Q>,
) -> Option<(usize, bool, bool, bool, bool)> {
    let old = insert(s, 0, h)?;
    let new = insert(s, 7, h)?;
    let walks = is_walked(alloc, s, &[-1, 0, 4_294_967_297, 7])?;
    let sorts = has_keys(alloc, s, &[-1, 0, 7, 4_294_967_297])?;
    Some((s.hash_count(0), old, new, walks, sorts))
}

/// Whether a walk comes by these keys, in this order.
fn is_walked<Q: Stock, C: Level<i64, (), Q>>(
    alloc: Global,
    s: &TreeSet<i64, Q, C>,
    expected: &[i64],
) -> Option<bool> {
    let walked = s.references(alloc).ok()?;
    Some(are_keys(walked.as_slice(), expected))
}

/// The same over seven levels.
fn keys_of_one_hash<Q: Stock + Send + Sync>(alloc: Global, opening: Opening) -> OfOneHash
    requires { Opens Q.Stock opening }
{
    over_levels::<i64, (), Q, OneHash>(OneHash { alloc, opening })
}

#[test]
fn keys_of_one_hash_are_told_apart_and_stand_by_key(rt: HostRuntime) -> Result<(), Fail> {
    let answers = keys_of_one_hash::<Brand>(rt.alloc(), Opening::new());
    assert_eq!(rt; answers, Some((3, false, true, true, true, 0, true)));
    Ok(())
}

/// How many keys were copied by a hundred insertions, and by one more in a second handle; and whether the first and the
/// second handle have that key then.
type OfShared = Option<(u64, u64, bool, bool)>;

#[derive(Drop)]
struct Shared {
    alloc: Global,
    opening: Opening,
}

impl<Q: Stock> Task<i64, (), Q> for Shared {
    type Out = OfShared;

    ghost use Rattle.std.specs.Prelude.{⊤};
    ghost use Rattle.cow_cell.specs.Opens.{Opens};

    ghost Takes = { λ t. Opens Q.Stock t.opening };

    ghost Gives = { λ t r. ⊤ };

    fn run<C: Trim<i64, (), Q> + Send + Sync>(self) -> OfShared {
        let Shared { alloc, opening } = self;
        let mut h = Holder::<Q>::fresh(opening);
        if h.spare() == 0 {
            return None;
        }
        let mut s = TreeSet::<i64, Q, C>::new(alloc, &mut h).ok()?;
        let answer = change_a_copy(&mut s, &mut h);
        s.end(&mut h);
        answer
    }
}

/// A hundred keys, and then one more in a copy.
fn change_a_copy<Q: Stock, C: Level<i64, (), Q>>(
    s: &mut TreeSet<i64, Q, C>,
    h: &mut Holder<Q>,
) -> OfShared {
    for k in 0..100 {
        insert(s, k, h)?;
    }
    let before = h.copied();
    if h.spare() == 0 {
        return None;
    }
    let mut u = s.copy(h);
    let new = insert(&mut u, 101, h);
    let there = u.contains(&101);
    u.end(h);
    new?;
    Some((before, h.copied(), s.contains(&101), there))
}

/// The same over seven levels.
fn shared_set<Q: Stock + Send + Sync>(alloc: Global, opening: Opening) -> OfShared
    requires { Opens Q.Stock opening }
{
    over_levels::<i64, (), Q, Shared>(Shared { alloc, opening })
}

#[test]
fn a_change_copies_the_path_that_is_shared_and_no_other_handle_sees_it(
    rt: HostRuntime,
) -> Result<(), Fail> {
    let answers = shared_set::<Brand>(rt.alloc(), Opening::new());
    assert_eq!(rt; answers, Some((0, 3, false, true)));
    Ok(())
}
