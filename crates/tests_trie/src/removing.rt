//! Keys that go: that a trie from which they went is the one that is built of the pairs left, and what is copied.
ghost use Rattle.std.specs.Prelude.{◌≡◌, ◌≤◌, ◌<◌, ◌+◌, ◌^◌, length, IsTrue};
ghost use Rattle.cow_cell.specs.Opens.{Opens};
ghost use Rattle.cow_model.specs.Flat.{need};

use cow_cell::{Holder, Opening, Stock};
use cow_champ::Level;
use cow_levels::{Task, over_levels};
use cow_treedict::TreeDictionary;
use cow_trim::Trim;
use std::alloc::Global;
use std::marker::Brand;
use std::test::Fail;

/// Whether the dictionary is small, and the holder can pay for a change of it.
fn can_change<Q: Stock, C: Level<i64, i64, Q>>(
    t: &TreeDictionary<i64, i64, Q, C>,
    h: &Holder<Q>,
) -> bool
    ensures small { IsTrue result → length t.now.value + 1 < 2 ^ 31 }
    ensures paid { IsTrue result → need (length t.now.value) ≤ h.now.spare }
{
    t.count() < 1000 && h.spare() >= 40_000
}

/// Puts one value: what stood there.
fn put<Q: Stock, C: Level<i64, i64, Q>>(
    t: &mut TreeDictionary<i64, i64, Q, C>,
    k: i64,
    v: i64,
    h: &mut Holder<Q>,
) -> Option<Option<i64>> {
    if !can_change(t, h) {
        return None;
    }
    t.update(k, v, h).ok()
}

/// Removes one key: what stood there.
fn remove<Q: Stock, C: Trim<i64, i64, Q>>(
    t: &mut TreeDictionary<i64, i64, Q, C>,
    k: i64,
    h: &mut Holder<Q>,
) -> Option<Option<i64>> {
    if !can_change(t, h) {
        return None;
    }
    t.remove(&k, h).ok()
}

/// One of 36 keys, of which three have each hash; and the hashes are equal in their low digits, in more and more of them.
fn key_at(i: u32) -> i64 {
    let hashes = [
        0,
        0x20,
        0x400,
        0x8000,
        0x10_0000,
        0x200_0000,
        0x4000_0000,
        0xc000_0000,
        1,
        0x21,
        0x421,
        0xffff_ffff,
    ];
    let hash: u32 = hashes[(i % 12) as usize];
    let high = i / 12 % 3;
    (high as i64) * 4_294_967_296 + ((hash ^ high) as i64)
}

/// The next state of a generator of numbers of no meaning.
fn next(state: u64) -> u64 {
    state
        .wrapping_mul(0x5851_f42d_4c95_7f2d)
        .wrapping_add(0x1405_7b7e_f767_814f)
}

/// A key goes, or has the value `v`: what stood there.
fn change<Q: Stock, C: Trim<i64, i64, Q>>(
    t: &mut TreeDictionary<i64, i64, Q, C>,
    k: i64,
    v: Option<i64>,
    h: &mut Holder<Q>,
) -> Option<Option<i64>> {
    match v {
        Some(v) => put(t, k, v, h),
        None => remove(t, k, h),
    }
}

/// At place `i` of the list stands `v`: what stood there.
fn stand(values: &mut [Option<i64>], i: usize, v: Option<i64>) -> Option<Option<i64>> {
    if i >= values.len() {
        return None;
    }
    let old = values[i];
    values[i] = v;
    Some(old)
}

/// A put or a removal of one of the keys; whether it answers what stood there by the list, which then has what stands there
/// now.
fn step<Q: Stock, C: Trim<i64, i64, Q>>(
    t: &mut TreeDictionary<i64, i64, Q, C>,
    values: &mut [Option<i64>],
    state: u64,
    v: i64,
    h: &mut Holder<Q>,
) -> Option<bool> {
    let i = (state >> 40) as u32 % 36;
    let now = if (state >> 33) & 1 == 1 {
        None
    } else {
        Some(v)
    };
    let old = change(t, key_at(i), now, h)?;
    let stood = stand(values, i as usize, now)?;
    Some(old == stood)
}

/// Puts and removals of keys in an order of no meaning; whether each answers what stood there. `values` is what then
/// stands under each key.
fn play<Q: Stock, C: Trim<i64, i64, Q>>(
    t: &mut TreeDictionary<i64, i64, Q, C>,
    values: &mut [Option<i64>],
    seed: u64,
    h: &mut Holder<Q>,
) -> Option<bool> {
    let mut state = next(seed);
    let mut right = true;
    for v in 0..60 {
        state = next(state);
        right = step(t, values, state, v, h)? && right;
    }
    Some(right)
}

/// The pairs that stand there.
fn pairs_of(alloc: Global, values: &[Option<i64>]) -> Option<Vec<(i64, i64)>> {
    let mut pairs = Vec::new(alloc);
    for i in 0..values.len() {
        if let Some(v) = values[i] {
            let key = key_at(u32::try_from(i).ok()?);
            pairs.push((key, v)).ok()?;
        }
    }
    Some(pairs)
}

/// Whether the lists are the same.
fn are_same(one: &[(&i64, &i64)], other: &[(&i64, &i64)]) -> bool {
    if one.len() != other.len() {
        return false;
    }
    for i in 0..one.len() {
        if *one[i].0 != *other[i].0 || *one[i].1 != *other[i].1 {
            return false;
        }
    }
    true
}

/// Whether two tries have the same pairs in the same order of digits.
fn walk_alike<Q: Stock, C: Level<i64, i64, Q>>(
    alloc: Global,
    t: &TreeDictionary<i64, i64, Q, C>,
    u: &TreeDictionary<i64, i64, Q, C>,
) -> Option<bool> {
    let one = t.references(alloc).ok()?;
    let other = u.references(alloc).ok()?;
    Some(are_same(one.as_slice(), other.as_slice()))
}

/// How many units of the stock are in use: a trie of integers has one a node.
fn used<Q: Stock>(h: &Holder<Q>) -> u64 {
    0x4000_0000_0000_0000u64.wrapping_sub(h.spare())
}

/// A dictionary of these pairs.
fn built_of<Q: Stock, C: Level<i64, i64, Q>>(
    alloc: Global,
    pairs: Vec<(i64, i64)>,
    h: &mut Holder<Q>,
) -> Option<TreeDictionary<i64, i64, Q, C>>
    requires root { C.LEVEL ≡ 0 }
    requires stacked { C.Stacked }
{
    if pairs.len() > 1000 || h.spare() < 20_000 {
        return None;
    }
    TreeDictionary::from_pairs(alloc, pairs, h).ok()
}

/// Whether a dictionary is the one that is built of these pairs: its keys stand in the same order, and there are as many
/// nodes, so none of them is one that no pairs are told apart in.
fn is_built<Q: Stock, C: Level<i64, i64, Q>>(
    alloc: Global,
    t: &TreeDictionary<i64, i64, Q, C>,
    pairs: Vec<(i64, i64)>,
    h: &mut Holder<Q>,
) -> Option<bool>
    requires root { C.LEVEL ≡ 0 }
    requires stacked { C.Stacked }
{
    let nodes = used(h);
    let u = built_of::<Q, C>(alloc, pairs, h)?;
    let more = used(h).wrapping_sub(nodes);
    let alike = walk_alike(alloc, t, &u);
    u.end(h);
    Some(alike? && more == nodes)
}

/// One list of puts and removals, on a dictionary of nothing: whether each answers what stood there, and whether the trie
/// is at last the one that is built of the pairs left.
fn end_alike<Q: Stock, C: Trim<i64, i64, Q>>(
    alloc: Global,
    t: &mut TreeDictionary<i64, i64, Q, C>,
    seed: u64,
    h: &mut Holder<Q>,
) -> Option<bool>
    requires root { C.LEVEL ≡ 0 }
    requires stacked { C.Stacked }
{
    let mut values = [None; 36];
    let answers = play(t, &mut values, seed, h)?;
    let pairs = pairs_of(alloc, &values)?;
    let built = is_built(alloc, t, pairs, h)?;
    Some(answers && built)
}

/// The same on a dictionary that is made for it.
fn one_list<Q: Stock, C: Trim<i64, i64, Q>>(
    alloc: Global,
    seed: u64,
    h: &mut Holder<Q>,
) -> Option<bool>
    requires root { C.LEVEL ≡ 0 }
    requires stacked { C.Stacked }
{
    if h.spare() == 0 {
        return None;
    }
    let mut t = TreeDictionary::<i64, i64, Q, C>::new(alloc, h).ok()?;
    let answer = end_alike(alloc, &mut t, seed, h);
    t.end(h);
    answer
}

/// How many lists in a row end so.
fn in_a_row<Q: Stock, C: Trim<i64, i64, Q>>(
    alloc: Global,
    count: u64,
    h: &mut Holder<Q>,
) -> Option<u64>
    requires root { C.LEVEL ≡ 0 }
    requires stacked { C.Stacked }
{
    for seed in 0..count {
        if !one_list::<Q, C>(alloc, seed, h)? {
            return Some(seed);
        }
    }
    Some(count)
}

/// Lists of puts and removals, each on a dictionary of its own.
#[derive(Drop)]
struct Lists {
    alloc: Global,
    opening: Opening,
    count: u64,
}

impl<Q: Stock> Task<i64, i64, Q> for Lists {
    type Out = Option<(u64, u64, bool)>;

    ghost use Rattle.std.specs.Prelude.{⊤};
    ghost use Rattle.cow_cell.specs.Opens.{Opens};

    ghost Takes = { λ t. Opens Q.Stock t.opening };

    ghost Gives = { λ t r. ⊤ };

    fn run<C: Trim<i64, i64, Q> + Send + Sync>(self) -> Self::Out {
        let Lists {
            alloc,
            opening,
            count,
        } = self;
        let mut h = Holder::<Q>::fresh(opening);
        let row = in_a_row::<Q, C>(alloc, count, &mut h);
        Some((row?, h.copied(), used(&h) == 0))
    }
}

/// How many lists in a row end in the trie that is built of the pairs left; how many items were copied; and whether each
/// unit is back.
fn play_lists<Q: Stock + Send + Sync>(
    alloc: Global,
    opening: Opening,
    count: u64,
) -> Option<(u64, u64, bool)>
    requires { Opens Q.Stock opening }
{
    over_levels::<i64, i64, Q, Lists>(Lists {
        alloc,
        opening,
        count,
    })
}

#[test]
fn a_thousand_lists_of_puts_and_removals_end_in_the_trie_of_the_pairs_left(
    rt: HostRuntime,
) -> Result<(), Fail> {
    let answers = play_lists::<Brand>(rt.alloc(), Opening::new(), 1000);
    assert_eq!(rt; answers, Some((1000, 0, true)));
    Ok(())
}

/// Two keys of one digit, of which one goes.
#[derive(Drop)]
struct Lifted {
    alloc: Global,
    opening: Opening,
}

impl<Q: Stock> Task<i64, i64, Q> for Lifted {
    type Out = Option<(u64, Option<i64>, u64, Option<i64>)>;

    ghost use Rattle.std.specs.Prelude.{⊤};
    ghost use Rattle.cow_cell.specs.Opens.{Opens};

    ghost Takes = { λ t. Opens Q.Stock t.opening };

    ghost Gives = { λ t r. ⊤ };

    fn run<C: Trim<i64, i64, Q> + Send + Sync>(self) -> Self::Out {
        let Lifted { alloc, opening } = self;
        let mut h = Holder::<Q>::fresh(opening);
        let mut t = TreeDictionary::<i64, i64, Q, C>::new(alloc, &mut h).ok()?;
        let answer = lift(&mut t, &mut h);
        t.end(&mut h);
        answer
    }
}

/// How many nodes there are with both keys, what stood under the one that goes, how many nodes are left, and what stands
/// under the other.
fn lift<Q: Stock, C: Trim<i64, i64, Q>>(
    t: &mut TreeDictionary<i64, i64, Q, C>,
    h: &mut Holder<Q>,
) -> Option<(u64, Option<i64>, u64, Option<i64>)> {
    put(t, 0, 1, h)?;
    put(t, 32, 2, h)?;
    let before = used(h);
    let gone = remove(t, 32, h)?;
    let after = used(h);
    let left = match t.get(&0) {
        Some(v) => Some(*v),
        None => None,
    };
    Some((before, gone, after, left))
}

/// The same over seven levels.
fn lifted_trie<Q: Stock + Send + Sync>(
    alloc: Global,
    opening: Opening,
) -> Option<(u64, Option<i64>, u64, Option<i64>)>
    requires { Opens Q.Stock opening }
{
    over_levels::<i64, i64, Q, Lifted>(Lifted { alloc, opening })
}

#[test]
fn the_last_pair_of_a_child_moves_up_to_the_root(rt: HostRuntime) -> Result<(), Fail> {
    let answers = lifted_trie::<Brand>(rt.alloc(), Opening::new());
    assert_eq!(rt; answers, Some((2, Some(2), 1, Some(1))));
    Ok(())
}
