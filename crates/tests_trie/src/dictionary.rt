//! What no clause says: that calls of tree dictionaries succeed, in which order a trie has its keys, and how few pairs are
//! copied.
ghost use Rattle.std.specs.Prelude.{◌≤◌, ◌<◌, ◌+◌, ◌^◌, length, IsTrue};
ghost use Rattle.cow_cell.specs.Opens.{Opens};
ghost use Rattle.cow_model.specs.Flat.{need};

use cow_cell::{Holder, Opening, Stock};
use cow_champ::Level;
use cow_levels::{Task, over_levels};
use cow_treedict::TreeDictionary;
use cow_trim::Trim;
use std::alloc::Global;
use std::marker::Brand;
use std::test::Fail;

/// Whether the holder can pay for a change of the dictionary.
fn can_pay<Q: Stock, C: Level<i64, i64, Q>>(
    t: &TreeDictionary<i64, i64, Q, C>,
    h: &Holder<Q>,
) -> bool
    ensures { IsTrue result → need (length t.now.value) ≤ h.now.spare }
{
    16 * (t.count() as u64) + 512 <= h.spare()
}

/// Puts one value: what stood there.
pub(crate) fn put<Q: Stock, C: Level<i64, i64, Q>>(
    t: &mut TreeDictionary<i64, i64, Q, C>,
    k: i64,
    v: i64,
    h: &mut Holder<Q>,
) -> Option<Option<i64>> {
    if t.count() > 200_000 || !can_pay(t, h) {
        return None;
    }
    t.update(k, v, h).ok()
}

/// Puts a value under each of these keys, which is the key's place.
pub(crate) fn put_all<Q: Stock, C: Level<i64, i64, Q>>(
    t: &mut TreeDictionary<i64, i64, Q, C>,
    keys: &[i64],
    h: &mut Holder<Q>,
) -> Option<()> {
    for i in 0..keys.len() {
        put(t, keys[i], i as i64, h)?;
    }
    Some(())
}

/// The value under a key.
fn value_of<Q: Stock, C: Level<i64, i64, Q>>(
    t: &TreeDictionary<i64, i64, Q, C>,
    k: i64,
) -> Option<i64> {
    match t.get(&k) {
        Some(v) => Some(*v),
        None => None,
    }
}

/// Whether these are the keys, in this order.
fn are_keys(pairs: &[(&i64, &i64)], expected: &[i64]) -> bool {
    if pairs.len() != expected.len() {
        return false;
    }
    for i in 0..expected.len() {
        if *pairs[i].0 != expected[i] {
            return false;
        }
    }
    true
}

/// Keys that are put one after the other, and the order in which they are then expected.
#[derive(Drop)]
struct Ordered<'a> {
    alloc: Global,
    opening: Opening,
    keys: &'a [i64],
    by_digit: &'a [i64],
    by_key: &'a [i64],
}

impl<'a, Q: Stock> Task<i64, i64, Q> for Ordered<'a> {
    type Out = Option<(bool, bool)>;

    ghost use Rattle.std.specs.Prelude.{⊤};
    ghost use Rattle.cow_cell.specs.Opens.{Opens};

    ghost Takes = { λ t. Opens Q.Stock t.opening };

    ghost Gives = { λ t r. ⊤ };

    fn run<C: Trim<i64, i64, Q> + Send + Sync>(self) -> Option<(bool, bool)> {
        let Ordered {
            alloc,
            opening,
            keys,
            by_digit,
            by_key,
        } = self;
        let mut h = Holder::<Q>::fresh(opening);
        let mut t = TreeDictionary::<i64, i64, Q, C>::new(alloc, &mut h).ok()?;
        let answer = walk_and_sort(alloc, &mut t, keys, by_digit, by_key, &mut h);
        t.end(&mut h);
        answer
    }
}

/// Whether the keys that are put stand in this order in the trie, and in that one by `sorted`.
fn walk_and_sort<Q: Stock, C: Level<i64, i64, Q>>(
    alloc: Global,
    t: &mut TreeDictionary<i64, i64, Q, C>,
    keys: &[i64],
    by_digit: &[i64],
    by_key: &[i64],
    h: &mut Holder<Q>,
) -> Option<(bool, bool)> {
    put_all(t, keys, h)?;
    let walked = t.references(alloc).ok()?;
    let sorted = t.sorted(alloc).ok()?;
    Some((
        are_keys(walked.as_slice(), by_digit),
        are_keys(sorted.as_slice(), by_key),
    ))
}

/// The same over seven levels.
fn stand<Q: Stock + Send + Sync>(
    alloc: Global,
    opening: Opening,
    keys: &[i64],
    by_digit: &[i64],
    by_key: &[i64],
) -> Option<(bool, bool)>
    requires { Opens Q.Stock opening }
{
    over_levels::<i64, i64, Q, Ordered>(Ordered {
        alloc,
        opening,
        keys,
        by_digit,
        by_key,
    })
}

#[test]
fn keys_of_one_digit_stand_in_a_child_and_those_of_one_hash_by_key(
    rt: HostRuntime,
) -> Result<(), Fail> {
    let child = stand::<Brand>(
        rt.alloc(),
        Opening::new(),
        &[0, 32, 1],
        &[0, 32, 1],
        &[0, 1, 32],
    );
    assert_eq!(rt; child, Some((true, true)));
    Ok(())
}

/// What calls on three keys of one hash and one of another answer.
#[derive(Drop)]
struct OneHash {
    alloc: Global,
    opening: Opening,
}

impl<Q: Stock> Task<i64, i64, Q> for OneHash {
    type Out = Option<(usize, Option<i64>, Option<i64>, bool)>;

    ghost use Rattle.std.specs.Prelude.{⊤};
    ghost use Rattle.cow_cell.specs.Opens.{Opens};

    ghost Takes = { λ t. Opens Q.Stock t.opening };

    ghost Gives = { λ t r. ⊤ };

    fn run<C: Trim<i64, i64, Q> + Send + Sync>(self) -> Self::Out {
        let OneHash { alloc, opening } = self;
        let mut h = Holder::<Q>::fresh(opening);
        let mut t = TreeDictionary::<i64, i64, Q, C>::new(alloc, &mut h).ok()?;
        let answer = one_hash(alloc, &mut t, &mut h);
        t.end(&mut h);
        answer
    }
}

/// How many keys have hash 0; the old and the new value of one of them; and whether they stand by key.
fn one_hash<Q: Stock, C: Level<i64, i64, Q>>(
    alloc: Global,
    t: &mut TreeDictionary<i64, i64, Q, C>,
    h: &mut Holder<Q>,
) -> Option<(usize, Option<i64>, Option<i64>, bool)> {
    put_all(t, &[4_294_967_297, 0, 7, -1], h)?;
    let old = put(t, 0, 50, h)?;
    let walked = t.references(alloc).ok()?;
    Some((
        t.hash_count(0),
        old,
        value_of(t, 0),
        are_keys(walked.as_slice(), &[-1, 0, 4_294_967_297, 7]),
    ))
}

/// The same over seven levels.
fn keys_of_one_hash<Q: Stock + Send + Sync>(
    alloc: Global,
    opening: Opening,
) -> Option<(usize, Option<i64>, Option<i64>, bool)>
    requires { Opens Q.Stock opening }
{
    over_levels::<i64, i64, Q, OneHash>(OneHash { alloc, opening })
}

#[test]
fn keys_of_one_hash_are_told_apart_and_stand_by_key(rt: HostRuntime) -> Result<(), Fail> {
    let answers = keys_of_one_hash::<Brand>(rt.alloc(), Opening::new());
    assert_eq!(rt; answers, Some((3, Some(1), Some(50), true)));
    Ok(())
}

/// What two handles of one trie show after the one was changed, and how many items were copied.
#[derive(Drop)]
struct Shared {
    alloc: Global,
    opening: Opening,
}

impl<Q: Stock> Task<i64, i64, Q> for Shared {
    type Out = Option<(u64, u64, Option<i64>, Option<i64>)>;

    ghost use Rattle.std.specs.Prelude.{⊤};
    ghost use Rattle.cow_cell.specs.Opens.{Opens};

    ghost Takes = { λ t. Opens Q.Stock t.opening };

    ghost Gives = { λ t r. ⊤ };

    fn run<C: Trim<i64, i64, Q> + Send + Sync>(self) -> Self::Out {
        let Shared { alloc, opening } = self;
        let mut h = Holder::<Q>::fresh(opening);
        let mut t = TreeDictionary::<i64, i64, Q, C>::new(alloc, &mut h).ok()?;
        let answer = change_a_copy(&mut t, &mut h);
        t.end(&mut h);
        answer
    }
}

/// A hundred keys, the copies that were made, then a second handle in which one of them gets another value, the copies
/// that were made by then, and the value in both.
fn change_a_copy<Q: Stock, C: Level<i64, i64, Q>>(
    t: &mut TreeDictionary<i64, i64, Q, C>,
    h: &mut Holder<Q>,
) -> Option<(u64, u64, Option<i64>, Option<i64>)> {
    for k in 0..100 {
        put(t, k, k, h)?;
    }
    let before = h.copied();
    if h.spare() == 0 {
        return None;
    }
    let mut u = t.copy(h);
    let changed = put(&mut u, 5, 50, h);
    let shown = value_of(&u, 5);
    u.end(h);
    changed?;
    Some((before, h.copied(), value_of(t, 5), shown))
}

/// The same over seven levels.
fn shared_trie<Q: Stock + Send + Sync>(
    alloc: Global,
    opening: Opening,
) -> Option<(u64, u64, Option<i64>, Option<i64>)>
    requires { Opens Q.Stock opening }
{
    over_levels::<i64, i64, Q, Shared>(Shared { alloc, opening })
}

#[test]
fn a_change_copies_the_path_that_is_shared_and_no_other_handle_sees_it(
    rt: HostRuntime,
) -> Result<(), Fail> {
    let answers = shared_trie::<Brand>(rt.alloc(), Opening::new());
    assert_eq!(rt; answers, Some((0, 6, Some(5), Some(50))));
    Ok(())
}

/// Random puts, of which many find their key there.
#[derive(Drop)]
struct Many {
    alloc: Global,
    opening: Opening,
    count: usize,
}

impl<Q: Stock> Task<i64, i64, Q> for Many {
    type Out = Option<bool>;

    ghost use Rattle.std.specs.Prelude.{⊤};
    ghost use Rattle.cow_cell.specs.Opens.{Opens};

    ghost Takes = { λ t. Opens Q.Stock t.opening };

    ghost Gives = { λ t r. ⊤ };

    fn run<C: Trim<i64, i64, Q> + Send + Sync>(self) -> Option<bool> {
        let Many {
            alloc,
            opening,
            count,
        } = self;
        let mut h = Holder::<Q>::fresh(opening);
        let mut t = TreeDictionary::<i64, i64, Q, C>::new(alloc, &mut h).ok()?;
        let answer = agree(alloc, &mut t, count, &mut h);
        t.end(&mut h);
        answer
    }
}

/// Numbers below 2^17 in an order of no meaning.
fn random_keys(alloc: Global, count: usize) -> Option<Vec<i64>> {
    let mut keys = Vec::new(alloc);
    let mut last = 1u64;
    for _ in 0..count {
        last = last
            .wrapping_mul(0x5851_f42d_4c95_7f2d)
            .wrapping_add(0x1405_7b7e_f767_814f);
        keys.push((last >> 47) as i64).ok()?;
    }
    Some(keys)
}

/// Each number of a sorted list once.
fn distinct(alloc: Global, sorted: &[i64]) -> Option<Vec<i64>> {
    let mut keys = Vec::new(alloc);
    for i in 0..sorted.len() {
        if i == 0 || sorted[i - 1] != sorted[i] {
            keys.push(sorted[i]).ok()?;
        }
    }
    Some(keys)
}

/// Whether the dictionary has exactly the keys that were put, in their order, and as many as it counts.
fn agree<Q: Stock, C: Level<i64, i64, Q>>(
    alloc: Global,
    t: &mut TreeDictionary<i64, i64, Q, C>,
    count: usize,
    h: &mut Holder<Q>,
) -> Option<bool> {
    let mut keys = random_keys(alloc, count)?;
    put_all(t, keys.as_slice(), h)?;
    keys.sort_unstable();
    let expected = distinct(alloc, keys.as_slice())?;
    let sorted = t.sorted(alloc).ok()?;
    Some(t.count() == expected.len() && are_keys(sorted.as_slice(), expected.as_slice()))
}

/// The same over seven levels.
fn random_trie<Q: Stock + Send + Sync>(
    alloc: Global,
    opening: Opening,
    count: usize,
) -> Option<bool>
    requires { Opens Q.Stock opening }
{
    over_levels::<i64, i64, Q, Many>(Many {
        alloc,
        opening,
        count,
    })
}

#[test]
fn a_hundred_thousand_random_puts_agree_with_a_sorted_list(rt: HostRuntime) -> Result<(), Fail> {
    let answer = random_trie::<Brand>(rt.alloc(), Opening::new(), 100_000);
    assert_eq!(rt; answer, Some(true));
    Ok(())
}
