//! What no clause says: that calls of ordered sets succeed, how few members are copied, and that the units of all members
//! that end come back. Members that come and go in the middle, and the order of those that come from another set.
ghost use Rattle.std.specs.Prelude.{◌≤◌, ◌<◌, ◌+◌, ◌^◌, length, IsTrue};
ghost use Rattle.cow_cell.specs.Opens.{Opens};
ghost use Rattle.cow_model.specs.Flat.{need};

use cow_cell::{Holder, Opening, Stock};
use cow_item::{Atom, Item, Key, Text};
use cow_ordered::OrderedSet;
use std::alloc::Global;
use std::marker::Brand;
use std::test::Fail;

const WHOLE: u64 = 0x4000_0000_0000_0000;

/// Whether the holder can pay for a change of the set, which can grow.
fn can_change<K: Key<Q>, Q: Stock>(s: &OrderedSet<K, Q>, h: &Holder<Q>) -> bool
    ensures small { IsTrue result → length s.now.value + 1 < 2 ^ 31 }
    ensures spare { IsTrue result → need (length s.now.value) ≤ h.now.spare }
{
    s.count() < 10_000 && 16 * (s.count() as u64) + 512 <= h.spare()
}

/// Adds one key last: whether it is new.
fn add<K: Key<Q>, Q: Stock>(s: &mut OrderedSet<K, Q>, k: K, h: &mut Holder<Q>) -> Option<bool> {
    if !can_change(s, h) {
        return None;
    }
    s.append(k, h).ok()
}

/// Adds keys.
fn add_all<Q: Stock>(s: &mut OrderedSet<i64, Q>, keys: &[i64], h: &mut Holder<Q>) -> Option<()> {
    for k in keys {
        add(s, *k, h)?;
    }
    Some(())
}

/// A set of these keys, with its holder.
fn set_of<Q: Stock>(
    alloc: Global,
    opening: Opening,
    keys: &[i64],
) -> Option<(OrderedSet<i64, Q>, Holder<Q>)>
    requires { Opens Q.Stock opening }
{
    let mut h = Holder::<Q>::fresh(opening);
    let mut s = OrderedSet::new(alloc, &mut h).ok()?;
    add_all(&mut s, keys, &mut h)?;
    Some((s, h))
}

/// A further set of these members.
fn another<Q: Stock>(alloc: Global, keys: &[i64], h: &mut Holder<Q>) -> Option<OrderedSet<i64, Q>> {
    if h.spare() == 0 {
        return None;
    }
    let mut s = OrderedSet::new(alloc, h).ok()?;
    add_all(&mut s, keys, h)?;
    Some(s)
}

/// Whether these are the members in this order, each found at its position.
fn shows<Q: Stock>(s: &OrderedSet<i64, Q>, expected: &[i64]) -> bool {
    let members = s.as_slice();
    if members.len() != expected.len() {
        return false;
    }
    for i in 0..expected.len() {
        if members[i] != expected[i] || s.index_of(&expected[i]) != Some(i) {
            return false;
        }
    }
    true
}

/// Row `oset-calls`: what the calls answer by which a key comes.
fn put_in<Q: Stock>(s: &mut OrderedSet<i64, Q>, h: &mut Holder<Q>) -> Option<(bool, bool, bool)> {
    let three = add(s, 3, h)?;
    let four = add(s, 4, h)?;
    if !can_change(s, h) {
        return None;
    }
    let nine = s.insert_at(0, 9, h).ok()?;
    Some((three, four, nine))
}

/// The first two members change places, and then all stand in the opposite order: whether the list is shown.
fn turn<Q: Stock>(s: &mut OrderedSet<i64, Q>, h: &mut Holder<Q>) -> Option<bool> {
    if s.count() < 2 || !can_change(s, h) {
        return None;
    }
    s.swap_at(0, 1, h).ok()?;
    if !can_change(s, h) {
        return None;
    }
    s.reverse(h).ok()?;
    Some(shows(s, &[4, 3, 9, 5]))
}

/// A member goes, and the first of the others.
fn take_out<Q: Stock>(s: &mut OrderedSet<i64, Q>, h: &mut Holder<Q>) -> Option<(Option<i64>, i64)> {
    if !can_change(s, h) {
        return None;
    }
    let five = s.remove(&5, h).ok()?;
    if s.is_empty() || !can_change(s, h) {
        return None;
    }
    Some((five, s.remove_at(0, h).ok()?))
}

/// The whole row: at its end also where the last key stands, and whether there is a tenth member.
fn ordered_calls<Q: Stock>(
    alloc: Global,
    opening: Opening,
) -> Option<
    (
        (bool, bool, bool),
        bool,
        (Option<i64>, i64),
        (Option<usize>, bool),
    ),
>
    requires { Opens Q.Stock opening }
{
    let (mut s, mut h) = set_of::<Q>(alloc, opening, &[5, 3])?;
    let came = put_in(&mut s, &mut h)?;
    let turned = turn(&mut s, &mut h)?;
    let went = take_out(&mut s, &mut h)?;
    Some((came, turned, went, (s.index_of(&9), s.at(9).is_some())))
}

#[test]
fn the_calls_of_an_ordered_set_give_their_row(rt: HostRuntime) -> Result<(), Fail> {
    let found = ordered_calls::<Brand>(rt.alloc(), Opening::new());
    let expected = ((false, true, true), true, (Some(5), 4), (Some(1), false));
    assert_eq!(rt; found, Some(expected));
    Ok(())
}

/// Whether the holder can pay for a change of the set by another.
fn can_join<Q: Stock>(s: &OrderedSet<i64, Q>, t: &OrderedSet<i64, Q>, h: &Holder<Q>) -> bool
    ensures small { IsTrue result → length s.now.value + length t.now.value < 2 ^ 31 }
    ensures spare { IsTrue result → need (length s.now.value + length t.now.value) ≤ h.now.spare }
{
    s.count() < 10_000
        && t.count() < 10_000
        && 16 * ((s.count() + t.count()) as u64) + 512 <= h.spare()
}

/// The members of either: whether the list is shown.
fn join<Q: Stock>(
    s: &mut OrderedSet<i64, Q>,
    t: &OrderedSet<i64, Q>,
    expected: &[i64],
    h: &mut Holder<Q>,
) -> Option<bool> {
    if !can_join(s, t, h) {
        return None;
    }
    s.union(t, h).ok()?;
    Some(shows(s, expected))
}

/// The members of both: whether the list is shown.
fn meet<Q: Stock>(
    s: &mut OrderedSet<i64, Q>,
    t: &OrderedSet<i64, Q>,
    expected: &[i64],
    h: &mut Holder<Q>,
) -> Option<bool> {
    if !can_join(s, t, h) {
        return None;
    }
    s.intersection(t, h).ok()?;
    Some(shows(s, expected))
}

/// The members that the other hasn't: whether the list is shown.
fn lessen<Q: Stock>(
    s: &mut OrderedSet<i64, Q>,
    t: &OrderedSet<i64, Q>,
    expected: &[i64],
    h: &mut Holder<Q>,
) -> Option<bool> {
    if !can_join(s, t, h) {
        return None;
    }
    s.subtracting(t, h).ok()?;
    Some(shows(s, expected))
}

/// The members of one alone: whether the list is shown.
fn differ<Q: Stock>(
    s: &mut OrderedSet<i64, Q>,
    t: &OrderedSet<i64, Q>,
    expected: &[i64],
    h: &mut Holder<Q>,
) -> Option<bool> {
    if !can_join(s, t, h) {
        return None;
    }
    s.symmetric_difference(t, h).ok()?;
    Some(shows(s, expected))
}

/// Row `set-algebra` on three sets: whether each list is shown.
fn combine<Q: Stock>(
    s: &mut OrderedSet<i64, Q>,
    u: &OrderedSet<i64, Q>,
    v: &OrderedSet<i64, Q>,
    h: &mut Holder<Q>,
) -> Option<bool> {
    let joined = join(s, u, &[1, 2, 3, 4], h)?;
    let met = meet(s, u, &[3, 4], h)?;
    let less = lessen(s, v, &[3], h)?;
    let differed = differ(s, u, &[4], h)?;
    Some(joined && met && less && differed)
}

/// Puts a key over: the member that was there.
fn put<Q: Stock>(s: &mut OrderedSet<i64, Q>, k: i64, h: &mut Holder<Q>) -> Option<Option<i64>> {
    if !can_change(s, h) {
        return None;
    }
    s.update(k, h).ok()
}

/// Its last calls: what `update` answers, and `is_subset` and `is_disjoint`.
fn ask<Q: Stock>(
    s: &mut OrderedSet<i64, Q>,
    u: &OrderedSet<i64, Q>,
    v: &OrderedSet<i64, Q>,
    h: &mut Holder<Q>,
) -> Option<(Option<i64>, Option<i64>, bool, bool)> {
    let four = put(s, 4, h)?;
    let eight = put(s, 8, h)?;
    Some((four, eight, v.is_subset(s), u.is_disjoint(v)))
}

/// The whole row.
fn set_algebra<Q: Stock>(
    alloc: Global,
    opening: Opening,
) -> Option<(bool, (Option<i64>, Option<i64>, bool, bool))>
    requires { Opens Q.Stock opening }
{
    let (mut s, mut h) = set_of::<Q>(alloc, opening, &[1, 2, 3])?;
    let u = another(alloc, &[3, 4], &mut h)?;
    let v = another(alloc, &[4], &mut h)?;
    let combined = combine(&mut s, &u, &v, &mut h)?;
    Some((combined, ask(&mut s, &u, &v, &mut h)?))
}

#[test]
fn the_algebra_of_ordered_sets_gives_its_row(rt: HostRuntime) -> Result<(), Fail> {
    let found = set_algebra::<Brand>(rt.alloc(), Opening::new());
    assert_eq!(rt; found, Some((true, (Some(4), None, true, false))));
    Ok(())
}

/// Members out of order, by which those of another set are taken out, put in, and both: whether the first set's members
/// come first, then the other's, each in its order. Also whether one order is told from another.
fn in_order<Q: Stock>(alloc: Global, opening: Opening) -> Option<(bool, bool, bool, bool)>
    requires { Opens Q.Stock opening }
{
    let (mut s, mut h) = set_of::<Q>(alloc, opening, &[30, 10, 40, 20])?;
    let t = another(alloc, &[50, 20, 5, 30], &mut h)?;
    let differed = differ(&mut s, &t, &[10, 40, 50, 5], &mut h)?;
    let joined = join(&mut s, &t, &[10, 40, 50, 5, 20, 30], &mut h)?;
    let met = meet(&mut s, &t, &[50, 5, 20, 30], &mut h)?;
    Some((differed, joined, met, s.equals(&t)))
}

#[test]
fn members_of_the_other_set_follow_in_its_order(rt: HostRuntime) -> Result<(), Fail> {
    let found = in_order::<Brand>(rt.alloc(), Opening::new());
    assert_eq!(rt; found, Some((true, true, true, false)));
    Ok(())
}

/// Takes the first member out, `count` times: whether each time it is the next number.
fn take_first<Q: Stock>(s: &mut OrderedSet<i64, Q>, count: i64, h: &mut Holder<Q>) -> Option<bool> {
    for i in 0..count {
        if s.is_empty() || !can_change(s, h) {
            return None;
        }
        if s.remove_at(0, h).ok()? != i {
            return Some(false);
        }
    }
    Some(true)
}

/// Adds the numbers below `count`.
fn add_row<Q: Stock>(s: &mut OrderedSet<i64, Q>, count: i64, h: &mut Holder<Q>) -> Option<()> {
    for i in 0..count {
        add(s, i, h)?;
    }
    Some(())
}

/// A thousand keys come, and the first 600 go from the front: whether they went in order, where one of the others
/// stands then, and how many members were copied.
fn queue<Q: Stock>(
    alloc: Global,
    opening: Opening,
) -> Option<(bool, Option<usize>, Option<usize>, u64)>
    requires { Opens Q.Stock opening }
{
    let mut h = Holder::<Q>::fresh(opening);
    let mut s = OrderedSet::new(alloc, &mut h).ok()?;
    add_row(&mut s, 1000, &mut h)?;
    let went = take_first(&mut s, 600, &mut h)?;
    Some((went, s.index_of(&999), s.index_of(&599), h.copied()))
}

#[test]
fn members_that_go_from_the_front_leave_the_others_in_their_places(
    rt: HostRuntime,
) -> Result<(), Fail> {
    let found = queue::<Brand>(rt.alloc(), Opening::new());
    assert_eq!(rt; found, Some((true, Some(399), None, 0)));
    Ok(())
}

/// Whether a copy keeps its members where the other is changed, how many keys a call copied that changes nothing, and
/// how many were copied in all.
fn shared<Q: Stock>(alloc: Global, opening: Opening) -> Option<(bool, bool, u64, u64)>
    requires { Opens Q.Stock opening }
{
    let (mut s, mut h) = set_of::<Q>(alloc, opening, &[6, 5, 4, 3, 2, 1])?;
    if h.spare() == 0 {
        return None;
    }
    let mut c = s.copy(&mut h);
    add(&mut c, 3, &mut h)?;
    let none = h.copied();
    turn_round(&mut c, &mut h)?;
    let shown = shows(&s, &[6, 5, 4, 3, 2, 1]);
    let changed = shows(&c, &[1, 2, 3, 4, 5, 6]);
    Some((shown, changed, none, h.copied()))
}

/// The members in the opposite order.
fn turn_round<Q: Stock>(s: &mut OrderedSet<i64, Q>, h: &mut Holder<Q>) -> Option<()> {
    if !can_change(s, h) {
        return None;
    }
    s.reverse(h).ok()
}

#[test]
fn a_change_of_a_shared_ordered_set_copies_its_members_once(rt: HostRuntime) -> Result<(), Fail> {
    let found = shared::<Brand>(rt.alloc(), Opening::new());
    assert_eq!(rt; found, Some((true, true, 0, 6)));
    Ok(())
}

/// Adds three texts, one of them twice: whether each was new.
fn add_texts<Q: Stock>(
    alloc: Global,
    s: &mut OrderedSet<Atom<Q>, Q>,
    h: &mut Holder<Q>,
) -> Option<bool> {
    let mut all_new = true;
    for bytes in [b"nut", b"fig", b"pea", b"fig"] {
        if h.spare() == 0 {
            return None;
        }
        let text = Text::new(alloc, bytes, h).ok()?;
        all_new = add(s, Atom::Text(text), h)? && all_new;
    }
    Some(all_new)
}

/// Takes the text in the middle out, and ends it.
fn take_middle<Q: Stock>(s: &mut OrderedSet<Atom<Q>, Q>, h: &mut Holder<Q>) -> Option<bool> {
    if s.count() < 2 || !can_change(s, h) {
        return None;
    }
    let middle = s.remove_at(1, h).ok()?;
    middle.end(h);
    match s.last()? {
        Atom::Text(text) => Some(text.bytes() == b"pea".as_slice()),
        _ => Some(false),
    }
}

/// What these calls answer, and whether all units are back when the set has ended.
fn texts_end<Q: Stock>(alloc: Global, opening: Opening) -> Option<(bool, bool, bool)>
    requires { Opens Q.Stock opening }
{
    let mut h = Holder::<Q>::fresh(opening);
    let mut s = OrderedSet::<Atom<Q>, Q>::new(alloc, &mut h).ok()?;
    let all_new = add_texts(alloc, &mut s, &mut h);
    let left = take_middle(&mut s, &mut h);
    s.end(&mut h);
    Some((all_new?, left?, h.spare() == WHOLE))
}

#[test]
fn an_ordered_set_of_texts_gives_their_units_back(rt: HostRuntime) -> Result<(), Fail> {
    let found = texts_end::<Brand>(rt.alloc(), Opening::new());
    assert_eq!(rt; found, Some((false, true, true)));
    Ok(())
}
