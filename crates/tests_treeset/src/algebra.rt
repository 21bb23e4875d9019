//! What two sets make, and how few keys are copied.
ghost use Rattle.std.specs.Prelude.{◌≡◌};
ghost use Rattle.cow_cell.specs.Opens.{Opens};

use crate::helpers::{can_combine, has_keys, made_of, update};
use cow_cell::{Holder, Opening, Stock};
use cow_champ::Level;
use cow_levels::{Task, over_levels};
use cow_treeset::TreeSet;
use cow_trim::Trim;
use std::alloc::Global;
use std::marker::Brand;
use std::test::Fail;

/// What is made of two sets.
#[derive(Copy, Clone, Drop)]
enum Operation {
    Union,
    Intersection,
    Subtracting,
    SymmetricDifference,
}

/// Two sets of these keys, what is made of them, and what that is to have.
#[derive(Drop)]
struct Combined<'a> {
    alloc: Global,
    opening: Opening,
    one: &'a [i64],
    other: &'a [i64],
    operation: Operation,
    expected: &'a [i64],
}

impl<'a, Q: Stock> Task<i64, (), Q> for Combined<'a> {
    type Out = Option<(bool, bool, u64)>;

    ghost use Rattle.std.specs.Prelude.{⊤};
    ghost use Rattle.cow_cell.specs.Opens.{Opens};

    ghost Takes = { λ t. Opens Q.Stock t.opening };

    ghost Gives = { λ t r. ⊤ };

    fn run<C: Trim<i64, (), Q> + Send + Sync>(self) -> Option<(bool, bool, u64)> {
        let Combined {
            alloc,
            opening,
            one,
            other,
            operation,
            expected,
        } = self;
        let mut h = Holder::<Q>::fresh(opening);
        let mut s = made_of::<Q, C>(alloc, one, &mut h)?;
        let answer = with_other(alloc, &mut s, other, operation, expected, &mut h);
        s.end(&mut h);
        answer
    }
}

/// Changes a set by one of the keys `other`; whether it then has what is expected, and the other what it had; and how many
/// keys were copied.
fn with_other<Q: Stock, C: Level<i64, (), Q>>(
    alloc: Global,
    s: &mut TreeSet<i64, Q, C>,
    other: &[i64],
    operation: Operation,
    expected: &[i64],
    h: &mut Holder<Q>,
) -> Option<(bool, bool, u64)>
    requires root { C.LEVEL ≡ 0 }
    requires stacked { C.Stacked }
{
    let u = made_of::<Q, C>(alloc, other, h)?;
    let done = combine(s, &u, operation, h);
    let stays = has_keys(alloc, &u, other);
    u.end(h);
    done?;
    Some((has_keys(alloc, s, expected)?, stays?, h.copied()))
}

/// Changes the one by the other.
fn combine<Q: Stock, C: Level<i64, (), Q>>(
    s: &mut TreeSet<i64, Q, C>,
    u: &TreeSet<i64, Q, C>,
    operation: Operation,
    h: &mut Holder<Q>,
) -> Option<()> {
    if !can_combine(s, u, h) {
        return None;
    }
    match operation {
        Operation::Union => s.union(u, h).ok(),
        Operation::Intersection => s.intersection(u, h).ok(),
        Operation::Subtracting => s.subtracting(u, h).ok(),
        Operation::SymmetricDifference => s.symmetric_difference(u, h).ok(),
    }
}

/// Whether the set that is made has what is expected, and the other what it had; and how many keys were copied.
fn of_two<Q: Stock + Send + Sync>(
    alloc: Global,
    opening: Opening,
    one: &[i64],
    other: &[i64],
    operation: Operation,
    expected: &[i64],
) -> Option<(bool, bool, u64)>
    requires { Opens Q.Stock opening }
{
    over_levels::<i64, (), Q, Combined>(Combined {
        alloc,
        opening,
        one,
        other,
        operation,
        expected,
    })
}

#[test]
fn a_union_has_the_keys_of_either_and_an_intersection_those_of_both(
    rt: HostRuntime,
) -> Result<(), Fail> {
    let union = of_two::<Brand>(
        rt.alloc(),
        Opening::new(),
        &[1, 2, 3],
        &[3, 4],
        Operation::Union,
        &[1, 2, 3, 4],
    );
    assert_eq!(rt; union, Some((true, true, 4)));
    let both = of_two::<Brand>(
        rt.alloc(),
        Opening::new(),
        &[1, 2, 3],
        &[3, 4],
        Operation::Intersection,
        &[3],
    );
    assert_eq!(rt; both, Some((true, true, 1)));
    Ok(())
}

#[test]
fn the_keys_of_one_alone_are_left_after_a_subtraction_and_a_symmetric_difference(
    rt: HostRuntime,
) -> Result<(), Fail> {
    let rest = of_two::<Brand>(
        rt.alloc(),
        Opening::new(),
        &[1, 2, 3],
        &[3, 4],
        Operation::Subtracting,
        &[1, 2],
    );
    assert_eq!(rt; rest, Some((true, true, 2)));
    let alone = of_two::<Brand>(
        rt.alloc(),
        Opening::new(),
        &[1, 2, 3],
        &[3, 4],
        Operation::SymmetricDifference,
        &[1, 2, 4],
    );
    assert_eq!(rt; alone, Some((true, true, 3)));
    Ok(())
}

#[test]
fn keys_of_one_hash_are_told_apart_in_two_sets(rt: HostRuntime) -> Result<(), Fail> {
    let alone = of_two::<Brand>(
        rt.alloc(),
        Opening::new(),
        &[-1, 0],
        &[0, 4_294_967_297],
        Operation::SymmetricDifference,
        &[-1, 4_294_967_297],
    );
    assert_eq!(rt; alone, Some((true, true, 2)));
    Ok(())
}

#[test]
fn a_set_that_doesnt_change_copies_nothing(rt: HostRuntime) -> Result<(), Fail> {
    let one = [1, 2, 3];
    let there = of_two::<Brand>(
        rt.alloc(),
        Opening::new(),
        &one,
        &[2, 3],
        Operation::Union,
        &one,
    );
    assert_eq!(rt; there, Some((true, true, 0)));
    let apart = of_two::<Brand>(
        rt.alloc(),
        Opening::new(),
        &one,
        &[8],
        Operation::Subtracting,
        &one,
    );
    assert_eq!(rt; apart, Some((true, true, 0)));
    Ok(())
}

/// What becomes of the sets 1 2 3, 3 4 and 4: whether the first has what is expected after a union, an intersection, a
/// subtraction and a symmetric difference; what an update with 4 and one with 8 hand out; and how the sets then stand to
/// each other.
type OfOperations = Option<([bool; 4], Option<i64>, Option<i64>, bool, bool)>;

#[derive(Drop)]
struct Operations {
    alloc: Global,
    opening: Opening,
}

impl<Q: Stock> Task<i64, (), Q> for Operations {
    type Out = OfOperations;

    ghost use Rattle.std.specs.Prelude.{⊤};
    ghost use Rattle.cow_cell.specs.Opens.{Opens};

    ghost Takes = { λ t. Opens Q.Stock t.opening };

    ghost Gives = { λ t r. ⊤ };

    fn run<C: Trim<i64, (), Q> + Send + Sync>(self) -> OfOperations {
        let Operations { alloc, opening } = self;
        let mut h = Holder::<Q>::fresh(opening);
        let mut s = made_of::<Q, C>(alloc, &[1, 2, 3], &mut h)?;
        let answer = after_each(alloc, &mut s, &mut h);
        s.end(&mut h);
        answer
    }
}

/// The same of the first set, with the two others made and ended.
fn after_each<Q: Stock, C: Level<i64, (), Q>>(
    alloc: Global,
    s: &mut TreeSet<i64, Q, C>,
    h: &mut Holder<Q>,
) -> OfOperations
    requires root { C.LEVEL ≡ 0 }
    requires stacked { C.Stacked }
{
    let u = made_of::<Q, C>(alloc, &[3, 4], h)?;
    let answer = after_each_of_two(alloc, s, &u, h);
    u.end(h);
    answer
}

/// The same, with the third set made and ended.
fn after_each_of_two<Q: Stock, C: Level<i64, (), Q>>(
    alloc: Global,
    s: &mut TreeSet<i64, Q, C>,
    u: &TreeSet<i64, Q, C>,
    h: &mut Holder<Q>,
) -> OfOperations
    requires root { C.LEVEL ≡ 0 }
    requires stacked { C.Stacked }
{
    let v = made_of::<Q, C>(alloc, &[4], h)?;
    let shown = shown(alloc, s, u, &v, h);
    let old = update(s, 4, h);
    let new = update(s, 8, h);
    let subset = v.is_subset(s);
    let disjoint = u.is_disjoint(&v);
    v.end(h);
    Some((shown?, old?, new?, subset, disjoint))
}

/// Whether the set has what is expected after each of the four operations.
fn shown<Q: Stock, C: Level<i64, (), Q>>(
    alloc: Global,
    s: &mut TreeSet<i64, Q, C>,
    u: &TreeSet<i64, Q, C>,
    v: &TreeSet<i64, Q, C>,
    h: &mut Holder<Q>,
) -> Option<[bool; 4]> {
    combine(s, u, Operation::Union, h)?;
    let all = has_keys(alloc, s, &[1, 2, 3, 4])?;
    combine(s, u, Operation::Intersection, h)?;
    let both = has_keys(alloc, s, &[3, 4])?;
    combine(s, v, Operation::Subtracting, h)?;
    let rest = has_keys(alloc, s, &[3])?;
    combine(s, u, Operation::SymmetricDifference, h)?;
    let alone = has_keys(alloc, s, &[4])?;
    Some([all, both, rest, alone])
}

/// The same over seven levels.
fn operate<Q: Stock + Send + Sync>(alloc: Global, opening: Opening) -> OfOperations
    requires { Opens Q.Stock opening }
{
    over_levels::<i64, (), Q, Operations>(Operations { alloc, opening })
}

#[test]
fn one_set_after_each_operation_and_how_it_stands_to_others(rt: HostRuntime) -> Result<(), Fail> {
    let answers = operate::<Brand>(rt.alloc(), Opening::new());
    let expected = Some(([true, true, true, true], Some(4), None, true, false));
    assert_eq!(rt; answers, expected);
    Ok(())
}
