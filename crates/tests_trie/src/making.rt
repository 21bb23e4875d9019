//! Dictionaries that are made of pairs, of two others, or of those pairs of one whose keys pass a test: that the calls
//! succeed, and how few items are copied.
ghost use Rattle.std.specs.Prelude.{◌≡◌, ◌≤◌, ◌<◌, ◌+◌, ◌^◌, length, IsTrue};
ghost use Rattle.cow_cell.specs.Opens.{Opens};
ghost use Rattle.cow_model.specs.Flat.{need};

use cow_cell::{Holder, Opening, Stock};
use cow_champ::Level;
use cow_dict::Merge;
use cow_levels::{Task, over_levels};
use cow_treedict::TreeDictionary;
use cow_trim::Trim;
use std::alloc::Global;
use std::marker::Brand;
use std::test::Fail;

/// A dictionary of these pairs.
fn made_of<Q: Stock, C: Level<i64, i64, Q>>(
    alloc: Global,
    pairs: &[(i64, i64)],
    h: &mut Holder<Q>,
) -> Option<TreeDictionary<i64, i64, Q, C>>
    requires root { C.LEVEL ≡ 0 }
    requires stacked { C.Stacked }
{
    if pairs.len() > 1000 || h.spare() < 20_000 {
        return None;
    }
    let pairs = Vec::from_slice(alloc, pairs).ok()?;
    TreeDictionary::from_pairs(alloc, pairs, h).ok()
}

/// Whether the holder can pay for a merge of the two, and they are small.
fn can_merge<Q: Stock, C: Level<i64, i64, Q>>(
    t: &TreeDictionary<i64, i64, Q, C>,
    u: &TreeDictionary<i64, i64, Q, C>,
    h: &Holder<Q>,
) -> bool
    ensures small { IsTrue result → length t.now.value + length u.now.value < 2 ^ 31 }
    ensures paid { IsTrue result → need (length t.now.value + length u.now.value) ≤ h.now.spare }
{
    t.count() < 1000 && u.count() < 1000 && h.spare() >= 40_000
}

/// Whether the dictionary has just these pairs, in this order by `sorted`.
fn has_pairs<Q: Stock, C: Level<i64, i64, Q>>(
    alloc: Global,
    t: &TreeDictionary<i64, i64, Q, C>,
    pairs: &[(i64, i64)],
) -> Option<bool> {
    let sorted = t.sorted(alloc).ok()?;
    if sorted.len() != pairs.len() {
        return Some(false);
    }
    for i in 0..pairs.len() {
        if *sorted[i].0 != pairs[i].0 || *sorted[i].1 != pairs[i].1 {
            return Some(false);
        }
    }
    Some(true)
}

/// Pairs of which a dictionary is made, and those that it then has.
#[derive(Drop)]
struct Made<'a> {
    alloc: Global,
    opening: Opening,
    pairs: &'a [(i64, i64)],
    expected: &'a [(i64, i64)],
}

impl<'a, Q: Stock> Task<i64, i64, Q> for Made<'a> {
    type Out = Option<(bool, u64, bool)>;

    ghost use Rattle.std.specs.Prelude.{⊤};
    ghost use Rattle.cow_cell.specs.Opens.{Opens};

    ghost Takes = { λ t. Opens Q.Stock t.opening };

    ghost Gives = { λ t r. ⊤ };

    fn run<C: Trim<i64, i64, Q> + Send + Sync>(self) -> Option<(bool, u64, bool)> {
        let Made {
            alloc,
            opening,
            pairs,
            expected,
        } = self;
        let mut h = Holder::<Q>::fresh(opening);
        let t = made_of::<Q, C>(alloc, pairs, &mut h)?;
        let agrees = has_pairs(alloc, &t, expected);
        t.end(&mut h);
        Some((agrees?, h.copied(), h.spare() == 0x4000_0000_0000_0000))
    }
}

/// Whether a dictionary of these pairs has those; how many items were copied; and whether each unit is back.
fn of_pairs<Q: Stock + Send + Sync>(
    alloc: Global,
    opening: Opening,
    pairs: &[(i64, i64)],
    expected: &[(i64, i64)],
) -> Option<(bool, u64, bool)>
    requires { Opens Q.Stock opening }
{
    over_levels::<i64, i64, Q, Made>(Made {
        alloc,
        opening,
        pairs,
        expected,
    })
}

#[test]
fn the_last_value_of_a_key_stands_and_nothing_is_copied(rt: HostRuntime) -> Result<(), Fail> {
    let answers = of_pairs::<Brand>(
        rt.alloc(),
        Opening::new(),
        &[
            (32, 1),
            (0, 2),
            (-1, 3),
            (32, 4),
            (4_294_967_297, 5),
            (0, 6),
        ],
        &[(-1, 3), (0, 6), (32, 4), (4_294_967_297, 5)],
    );
    assert_eq!(rt; answers, Some((true, 0, true)));
    Ok(())
}

#[test]
fn no_pairs_make_an_empty_dictionary(rt: HostRuntime) -> Result<(), Fail> {
    let answers = of_pairs::<Brand>(rt.alloc(), Opening::new(), &[], &[]);
    assert_eq!(rt; answers, Some((true, 0, true)));
    Ok(())
}

/// Two dictionaries of these pairs, the rule by which the other is merged into the one, and what that then has.
#[derive(Drop)]
struct Merged<'a> {
    alloc: Global,
    opening: Opening,
    one: &'a [(i64, i64)],
    other: &'a [(i64, i64)],
    rule: Merge,
    expected: &'a [(i64, i64)],
}

impl<'a, Q: Stock> Task<i64, i64, Q> for Merged<'a> {
    type Out = Option<(bool, bool, u64)>;

    ghost use Rattle.std.specs.Prelude.{⊤};
    ghost use Rattle.cow_cell.specs.Opens.{Opens};

    ghost Takes = { λ t. Opens Q.Stock t.opening };

    ghost Gives = { λ t r. ⊤ };

    fn run<C: Trim<i64, i64, Q> + Send + Sync>(self) -> Option<(bool, bool, u64)> {
        let Merged {
            alloc,
            opening,
            one,
            other,
            rule,
            expected,
        } = self;
        let mut h = Holder::<Q>::fresh(opening);
        let mut t = made_of::<Q, C>(alloc, one, &mut h)?;
        let u = made_of::<Q, C>(alloc, other, &mut h)?;
        merge(&mut t, &u, rule, &mut h)?;
        let agrees = has_pairs(alloc, &t, expected)?;
        let stays = has_pairs(alloc, &u, other)?;
        t.end(&mut h);
        u.end(&mut h);
        Some((agrees, stays, h.copied()))
    }
}

/// Merges the other into the one.
fn merge<Q: Stock, C: Level<i64, i64, Q>>(
    t: &mut TreeDictionary<i64, i64, Q, C>,
    u: &TreeDictionary<i64, i64, Q, C>,
    rule: Merge,
    h: &mut Holder<Q>,
) -> Option<()> {
    if !can_merge(t, u, h) {
        return None;
    }
    t.merge(u, rule, h).ok()
}

/// Whether the merged dictionary has what is expected, and the other what it had; and how many items were copied.
fn of_two<Q: Stock + Send + Sync>(
    alloc: Global,
    opening: Opening,
    one: &[(i64, i64)],
    other: &[(i64, i64)],
    rule: Merge,
    expected: &[(i64, i64)],
) -> Option<(bool, bool, u64)>
    requires { Opens Q.Stock opening }
{
    over_levels::<i64, i64, Q, Merged>(Merged {
        alloc,
        opening,
        one,
        other,
        rule,
        expected,
    })
}

#[test]
fn a_merge_keeps_or_takes_the_value_under_a_key_of_both(rt: HostRuntime) -> Result<(), Fail> {
    let one = [(0, 1), (32, 2), (5, 3)];
    let other = [(-1, 10), (32, 20)];
    let kept = of_two::<Brand>(
        rt.alloc(),
        Opening::new(),
        &one,
        &other,
        Merge::Keep,
        &[(-1, 10), (0, 1), (5, 3), (32, 2)],
    );
    assert_eq!(rt; kept, Some((true, true, 8)));
    let taken = of_two::<Brand>(
        rt.alloc(),
        Opening::new(),
        &one,
        &other,
        Merge::Take,
        &[(-1, 10), (0, 1), (5, 3), (32, 20)],
    );
    assert_eq!(rt; taken, Some((true, true, 8)));
    Ok(())
}

#[test]
fn a_merge_with_nothing_copies_nothing(rt: HostRuntime) -> Result<(), Fail> {
    let pairs = [(0, 1), (32, 2)];
    let answers = of_two::<Brand>(rt.alloc(), Opening::new(), &pairs, &[], Merge::Take, &pairs);
    assert_eq!(rt; answers, Some((true, true, 0)));
    Ok(())
}

/// Keeps the pairs whose keys are at least `least`.
fn keep_from<Q: Stock, C: Level<i64, i64, Q>>(
    t: &mut TreeDictionary<i64, i64, Q, C>,
    least: i64,
    h: &mut Holder<Q>,
) -> Option<()> {
    if !can_filter(t, h) {
        return None;
    }
    t.filter_keys(|k| *k >= least, h).ok()
}

/// Whether the holder can pay for a filter.
fn can_filter<Q: Stock, C: Level<i64, i64, Q>>(
    t: &TreeDictionary<i64, i64, Q, C>,
    h: &Holder<Q>,
) -> bool
    ensures { IsTrue result → need (length t.now.value) ≤ h.now.spare }
{
    t.count() < 1000 && h.spare() >= 20_000
}

/// A dictionary of these pairs, the least key that is kept of it, and what it then has.
#[derive(Drop)]
struct Kept<'a> {
    alloc: Global,
    opening: Opening,
    pairs: &'a [(i64, i64)],
    least: i64,
    expected: &'a [(i64, i64)],
}

impl<'a, Q: Stock> Task<i64, i64, Q> for Kept<'a> {
    type Out = Option<(bool, u64, bool)>;

    ghost use Rattle.std.specs.Prelude.{⊤};
    ghost use Rattle.cow_cell.specs.Opens.{Opens};

    ghost Takes = { λ t. Opens Q.Stock t.opening };

    ghost Gives = { λ t r. ⊤ };

    fn run<C: Trim<i64, i64, Q> + Send + Sync>(self) -> Option<(bool, u64, bool)> {
        let Kept {
            alloc,
            opening,
            pairs,
            least,
            expected,
        } = self;
        let mut h = Holder::<Q>::fresh(opening);
        let mut t = made_of::<Q, C>(alloc, pairs, &mut h)?;
        let done = keep_from(&mut t, least, &mut h);
        let agrees = has_pairs(alloc, &t, expected);
        t.end(&mut h);
        done?;
        Some((agrees?, h.copied(), h.spare() == 0x4000_0000_0000_0000))
    }
}

/// Whether the dictionary then has what is expected; how many items were copied; and whether each unit is back.
fn of_one<Q: Stock + Send + Sync>(
    alloc: Global,
    opening: Opening,
    pairs: &[(i64, i64)],
    least: i64,
    expected: &[(i64, i64)],
) -> Option<(bool, u64, bool)>
    requires { Opens Q.Stock opening }
{
    over_levels::<i64, i64, Q, Kept>(Kept {
        alloc,
        opening,
        pairs,
        least,
        expected,
    })
}

#[test]
fn a_filter_copies_the_pairs_that_stay(rt: HostRuntime) -> Result<(), Fail> {
    let answers = of_one::<Brand>(
        rt.alloc(),
        Opening::new(),
        &[(32, 1), (0, 2), (-1, 3), (4_294_967_297, 4), (-32, 5)],
        0,
        &[(0, 2), (32, 1), (4_294_967_297, 4)],
    );
    assert_eq!(rt; answers, Some((true, 6, true)));
    Ok(())
}

#[test]
fn a_filter_by_which_all_pairs_stay_copies_nothing(rt: HostRuntime) -> Result<(), Fail> {
    let answers = of_one::<Brand>(
        rt.alloc(),
        Opening::new(),
        &[(32, 1), (0, 2)],
        0,
        &[(0, 2), (32, 1)],
    );
    assert_eq!(rt; answers, Some((true, 0, true)));
    Ok(())
}
