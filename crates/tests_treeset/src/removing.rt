//! Keys that go: that a trie from which they went is the one that is built of the keys left, and what is copied.
ghost use Rattle.std.specs.Prelude.{◌≡◌};
ghost use Rattle.cow_cell.specs.Opens.{Opens};

use crate::helpers::{has_keys, insert, made, made_of, remove};
use cow_cell::{Holder, Opening, Stock};
use cow_champ::Level;
use cow_item::{Atom, Item, Text};
use cow_levels::{Task, over_levels};
use cow_treeset::TreeSet;
use cow_trim::Trim;
use std::alloc::Global;
use std::marker::Brand;
use std::test::Fail;

/// One of 36 keys, of which three have each hash; and the hashes are equal in their low digits, in more and more of them.
fn key_at(i: usize) -> i64 {
    let hashes: [u32; 12] = [
        0,
        0x20,
        0x400,
        0x8000,
        0x10_0000,
        0x200_0000,
        0x4000_0000,
        0xc000_0000,
        1,
        0x21,
        0x421,
        0xffff_ffff,
    ];
    let hash = hashes[i % 12];
    let high = (i / 12 % 3) as u32;
    (high as i64) * 4_294_967_296 + ((hash ^ high) as i64)
}

/// The next state of a generator of numbers of no meaning.
fn next(state: u64) -> u64 {
    state
        .wrapping_mul(0x5851_f42d_4c95_7f2d)
        .wrapping_add(0x1405_7b7e_f767_814f)
}

/// A key goes, or comes; whether the answer tells if it was there.
fn turn<Q: Stock, C: Trim<i64, (), Q>>(
    s: &mut TreeSet<i64, Q, C>,
    k: i64,
    goes: bool,
    there: bool,
    h: &mut Holder<Q>,
) -> Option<bool> {
    if !goes {
        return Some(insert(s, k, h)? != there);
    }
    match remove(s, &k, h)? {
        Some(gone) => Some(there && gone == k),
        None => Some(!there),
    }
}

/// Insertions and removals of keys in an order of no meaning; whether each answers if the key was there. `there` is which
/// of the keys then are.
fn play<Q: Stock, C: Trim<i64, (), Q>>(
    s: &mut TreeSet<i64, Q, C>,
    there: &mut [bool; 36],
    seed: u64,
    h: &mut Holder<Q>,
) -> Option<bool> {
    let mut state = next(seed);
    for _ in 0..60 {
        state = next(state);
        let i = ((state >> 40) % 36) as usize;
        let goes = (state >> 33) & 1 == 1;
        if !turn(s, key_at(i), goes, there[i], h)? {
            return Some(false);
        }
        there[i] = !goes;
    }
    Some(true)
}

/// The keys that are there.
fn keys_of(alloc: Global, there: &[bool; 36]) -> Option<Vec<i64>> {
    let mut keys = Vec::new(alloc);
    for i in 0..36 {
        if there[i] {
            keys.push(key_at(i)).ok()?;
        }
    }
    Some(keys)
}

/// Whether two tries have the same keys in the same order of digits.
fn walk_alike<Q: Stock, C: Level<i64, (), Q>>(
    alloc: Global,
    s: &TreeSet<i64, Q, C>,
    u: &TreeSet<i64, Q, C>,
) -> Option<bool> {
    let one = s.references(alloc).ok()?;
    let other = u.references(alloc).ok()?;
    if one.len() != other.len() {
        return Some(false);
    }
    for i in 0..one.len() {
        if *one[i] != *other[i] {
            return Some(false);
        }
    }
    Some(true)
}

/// Whether a set of `nodes` nodes is the one that is built of these keys: its keys stand in the same order, and there are
/// as many nodes, so none of them is one that no keys are told apart in.
fn is_built<Q: Stock, C: Level<i64, (), Q>>(
    alloc: Global,
    s: &TreeSet<i64, Q, C>,
    nodes: u64,
    there: &[bool; 36],
    h: &mut Holder<Q>,
) -> Option<bool>
    requires root { C.LEVEL ≡ 0 }
    requires stacked { C.Stacked }
{
    let keys = keys_of(alloc, there)?;
    let before = h.spare();
    let u = made::<Q, C>(alloc, keys, h)?;
    let built = before.wrapping_sub(h.spare());
    let alike = walk_alike(alloc, s, &u);
    u.end(h);
    Some(alike? && built == nodes)
}

/// One list of insertions and removals in an empty set, which is all for which `before` was spent.
fn played<Q: Stock, C: Trim<i64, (), Q>>(
    alloc: Global,
    s: &mut TreeSet<i64, Q, C>,
    before: u64,
    seed: u64,
    h: &mut Holder<Q>,
) -> Option<bool>
    requires root { C.LEVEL ≡ 0 }
    requires stacked { C.Stacked }
{
    let mut there = [false; 36];
    if !play(s, &mut there, seed, h)? {
        return Some(false);
    }
    let nodes = before.wrapping_sub(h.spare());
    is_built(alloc, s, nodes, &there, h)
}

/// The same of a set of its own, which ends.
fn one_list<Q: Stock, C: Trim<i64, (), Q>>(
    alloc: Global,
    seed: u64,
    h: &mut Holder<Q>,
) -> Option<bool>
    requires root { C.LEVEL ≡ 0 }
    requires stacked { C.Stacked }
{
    let before = h.spare();
    if before == 0 {
        return None;
    }
    let mut s = TreeSet::<i64, Q, C>::new(alloc, h).ok()?;
    let answer = played(alloc, &mut s, before, seed, h);
    s.end(h);
    answer
}

/// How many lists in a row end in the trie that is built of the keys left.
fn lists_that_agree<Q: Stock, C: Trim<i64, (), Q>>(
    alloc: Global,
    count: u64,
    h: &mut Holder<Q>,
) -> Option<u64>
    requires root { C.LEVEL ≡ 0 }
    requires stacked { C.Stacked }
{
    for seed in 0..count {
        if !one_list::<Q, C>(alloc, seed, h)? {
            return Some(seed);
        }
    }
    Some(count)
}

/// Lists of insertions and removals, each on a set of its own.
#[derive(Drop)]
struct Lists {
    alloc: Global,
    opening: Opening,
    count: u64,
}

impl<Q: Stock> Task<i64, (), Q> for Lists {
    type Out = (Option<u64>, u64, bool);

    ghost use Rattle.std.specs.Prelude.{⊤};
    ghost use Rattle.cow_cell.specs.Opens.{Opens};

    ghost Takes = { λ t. Opens Q.Stock t.opening };

    ghost Gives = { λ t r. ⊤ };

    fn run<C: Trim<i64, (), Q> + Send + Sync>(self) -> (Option<u64>, u64, bool) {
        let Lists {
            alloc,
            opening,
            count,
        } = self;
        let mut h = Holder::<Q>::fresh(opening);
        let ended = lists_that_agree::<Q, C>(alloc, count, &mut h);
        (ended, h.copied(), h.spare() == 0x4000_0000_0000_0000)
    }
}

/// How many lists in a row end in the trie that is built of the keys left; how many keys were copied; and whether each
/// unit is back.
fn play_lists<Q: Stock + Send + Sync>(
    alloc: Global,
    opening: Opening,
    count: u64,
) -> (Option<u64>, u64, bool)
    requires { Opens Q.Stock opening }
{
    over_levels::<i64, (), Q, Lists>(Lists {
        alloc,
        opening,
        count,
    })
}

#[test]
fn a_thousand_lists_of_insertions_and_removals_end_in_the_trie_of_the_keys_left(
    rt: HostRuntime,
) -> Result<(), Fail> {
    let answers = play_lists::<Brand>(rt.alloc(), Opening::new(), 1000);
    assert_eq!(rt; answers, (Some(1000), 0, true));
    Ok(())
}

/// Which keys go one after the other, whether those are left that are expected, and how many nodes there were at first and
/// at last.
type OfLosses = Option<(Option<i64>, bool, Option<i64>, bool, u64, u64)>;

/// Keys of which a set is made, two that go, and what is expected after each of them.
#[derive(Drop)]
struct Losses<'a> {
    alloc: Global,
    opening: Opening,
    keys: &'a [i64],
    gone: (i64, i64),
    after_one: &'a [i64],
    after_both: &'a [i64],
}

impl<'a, Q: Stock> Task<i64, (), Q> for Losses<'a> {
    type Out = OfLosses;

    ghost use Rattle.std.specs.Prelude.{⊤};
    ghost use Rattle.cow_cell.specs.Opens.{Opens};

    ghost Takes = { λ t. Opens Q.Stock t.opening };

    ghost Gives = { λ t r. ⊤ };

    fn run<C: Trim<i64, (), Q> + Send + Sync>(self) -> OfLosses {
        let Losses {
            alloc,
            opening,
            keys,
            gone,
            after_one,
            after_both,
        } = self;
        let mut h = Holder::<Q>::fresh(opening);
        let mut s = made_of::<Q, C>(alloc, keys, &mut h)?;
        let answer = lose_both(alloc, &mut s, gone, after_one, after_both, &mut h);
        s.end(&mut h);
        answer
    }
}

/// Two keys go.
fn lose_both<Q: Stock, C: Trim<i64, (), Q>>(
    alloc: Global,
    s: &mut TreeSet<i64, Q, C>,
    gone: (i64, i64),
    after_one: &[i64],
    after_both: &[i64],
    h: &mut Holder<Q>,
) -> OfLosses {
    let all = 0x4000_0000_0000_0000u64;
    let before = all.wrapping_sub(h.spare());
    let one = remove(s, &gone.0, h)?;
    let others = has_keys(alloc, s, after_one)?;
    let other = remove(s, &gone.1, h)?;
    let rest = has_keys(alloc, s, after_both)?;
    let after = all.wrapping_sub(h.spare());
    Some((one, others, other, rest, before, after))
}

/// The same over seven levels.
fn lose<Q: Stock + Send + Sync>(
    alloc: Global,
    opening: Opening,
    keys: &[i64],
    gone: (i64, i64),
    after_one: &[i64],
    after_both: &[i64],
) -> OfLosses
    requires { Opens Q.Stock opening }
{
    over_levels::<i64, (), Q, Losses>(Losses {
        alloc,
        opening,
        keys,
        gone,
        after_one,
        after_both,
    })
}

#[test]
fn the_last_of_the_keys_of_one_hash_moves_up_through_all_levels(
    rt: HostRuntime,
) -> Result<(), Fail> {
    let answers = lose::<Brand>(
        rt.alloc(),
        Opening::new(),
        &[0, -1, 4_294_967_297],
        (-1, 0),
        &[0, 4_294_967_297],
        &[4_294_967_297],
    );
    assert_eq!(rt; answers, Some((Some(-1), true, Some(0), true, 8, 1)));
    Ok(())
}

#[test]
fn a_key_that_is_no_member_leaves_the_nodes(rt: HostRuntime) -> Result<(), Fail> {
    let answers = lose::<Brand>(
        rt.alloc(),
        Opening::new(),
        &[0, 32],
        (64, 32),
        &[0, 32],
        &[0],
    );
    assert_eq!(rt; answers, Some((None, true, Some(32), true, 2, 1)));
    Ok(())
}

/// How many keys are copied by removals in a second handle, of a key that is no member and of one that is; and whether the
/// first and the second handle have that one then.
type OfShared = Option<(u64, u64, bool, bool)>;

#[derive(Drop)]
struct Shared {
    alloc: Global,
    opening: Opening,
}

impl<Q: Stock> Task<i64, (), Q> for Shared {
    type Out = OfShared;

    ghost use Rattle.std.specs.Prelude.{⊤};
    ghost use Rattle.cow_cell.specs.Opens.{Opens};

    ghost Takes = { λ t. Opens Q.Stock t.opening };

    ghost Gives = { λ t r. ⊤ };

    fn run<C: Trim<i64, (), Q> + Send + Sync>(self) -> OfShared {
        let Shared { alloc, opening } = self;
        let mut h = Holder::<Q>::fresh(opening);
        let mut s = made_of::<Q, C>(alloc, &[], &mut h)?;
        let answer = lose_of_a_copy(&mut s, &mut h);
        s.end(&mut h);
        answer
    }
}

/// A hundred keys, of which one goes from a copy.
fn lose_of_a_copy<Q: Stock, C: Trim<i64, (), Q>>(
    s: &mut TreeSet<i64, Q, C>,
    h: &mut Holder<Q>,
) -> OfShared {
    for k in 0..100 {
        insert(s, k, h)?;
    }
    if h.spare() == 0 {
        return None;
    }
    let mut u = s.copy(h);
    let answer = lose_one(&mut u, h);
    let there = u.contains(&50);
    u.end(h);
    let (absent, present) = answer?;
    Some((absent, present, s.contains(&50), there))
}

/// How many keys are copied where 200 goes, and then where 50 does.
fn lose_one<Q: Stock, C: Trim<i64, (), Q>>(
    u: &mut TreeSet<i64, Q, C>,
    h: &mut Holder<Q>,
) -> Option<(u64, u64)> {
    remove(u, &200, h)?;
    let absent = h.copied();
    remove(u, &50, h)?;
    Some((absent, h.copied()))
}

/// The same over seven levels.
fn shared_set<Q: Stock + Send + Sync>(alloc: Global, opening: Opening) -> OfShared
    requires { Opens Q.Stock opening }
{
    over_levels::<i64, (), Q, Shared>(Shared { alloc, opening })
}

#[test]
fn a_removal_copies_the_path_that_is_shared_and_no_other_handle_sees_it(
    rt: HostRuntime,
) -> Result<(), Fail> {
    let answers = shared_set::<Brand>(rt.alloc(), Opening::new());
    assert_eq!(rt; answers, Some((0, 3, true, false)));
    Ok(())
}

/// Whether a text is there beside an integer of the same hash, which integer goes then, and whether the text is left.
type OfTexts = Option<(bool, Option<i64>, bool)>;

#[derive(Drop)]
struct Texts {
    alloc: Global,
    opening: Opening,
}

impl<Q: Stock> Task<Atom<Q>, (), Q> for Texts {
    type Out = OfTexts;

    ghost use Rattle.std.specs.Prelude.{⊤};
    ghost use Rattle.cow_cell.specs.Opens.{Opens};

    ghost Takes = { λ t. Opens Q.Stock t.opening };

    ghost Gives = { λ t r. ⊤ };

    fn run<C: Trim<Atom<Q>, (), Q> + Send + Sync>(self) -> OfTexts {
        let Texts { alloc, opening } = self;
        let mut h = Holder::<Q>::fresh(opening);
        if h.spare() == 0 {
            return None;
        }
        let mut u = TreeSet::<Atom<Q>, Q, C>::new(alloc, &mut h).ok()?;
        let answer = lose_integer(alloc, &mut u, &mut h);
        u.end(&mut h);
        answer
    }
}

/// The empty text, whose hash is 2,166,136,261.
fn empty_text<Q: Stock>(alloc: Global, h: &mut Holder<Q>) -> Option<Atom<Q>> {
    if h.spare() == 0 {
        return None;
    }
    let text = Text::new(alloc, b"", h).ok()?;
    Some(Atom::Text(text))
}

/// An integer goes beside a text of its hash.
fn lose_integer<Q: Stock, C: Trim<Atom<Q>, (), Q>>(
    alloc: Global,
    u: &mut TreeSet<Atom<Q>, Q, C>,
    h: &mut Holder<Q>,
) -> OfTexts {
    insert(u, Atom::Int(2_166_136_261), h)?;
    let text = empty_text(alloc, h)?;
    insert(u, text, h)?;
    let text = empty_text(alloc, h)?;
    let there = u.contains(&text);
    text.end(h);
    let gone = match remove(u, &Atom::Int(2_166_136_261), h)? {
        Some(Atom::Int(x)) => Some(x),
        _ => None,
    };
    Some((there, gone, is_empty_text(alloc, u)?))
}

/// Whether the empty text is the only member.
fn is_empty_text<Q: Stock, C: Level<Atom<Q>, (), Q>>(
    alloc: Global,
    u: &TreeSet<Atom<Q>, Q, C>,
) -> Option<bool> {
    let keys = u.sorted(alloc).ok()?;
    if keys.len() != 1 {
        return Some(false);
    }
    match keys[0] {
        Atom::Text(text) => Some(text.bytes().is_empty()),
        Atom::Int(_) => Some(false),
    }
}

/// The same over seven levels.
fn texts_and_integers<Q: Stock + Send + Sync>(alloc: Global, opening: Opening) -> OfTexts
    requires { Opens Q.Stock opening }
{
    over_levels::<Atom<Q>, (), Q, Texts>(Texts { alloc, opening })
}

#[test]
fn an_integer_goes_and_a_text_of_its_hash_stays(rt: HostRuntime) -> Result<(), Fail> {
    let answers = texts_and_integers::<Brand>(rt.alloc(), Opening::new());
    assert_eq!(rt; answers, Some((true, Some(2_166_136_261), true)));
    Ok(())
}
