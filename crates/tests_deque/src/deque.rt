//! What no clause says: that calls of deques succeed, how few elements are copied, and that what is held in a ring
//! that goes round its end is kept.
ghost use Rattle.std.specs.Prelude.{◌≤◌, ◌<◌, ◌+◌, ◌^◌, length, IsTrue};
ghost use Rattle.cow_cell.specs.Opens.{Opens};
ghost use Rattle.cow_model.specs.Flat.{need};

use cow_cell::{Holder, Opening, Stock};
use cow_deque::Deque;
use cow_item::{Atom, Item, Text};
use std::alloc::Global;
use std::marker::Brand;
use std::test::Fail;

const WHOLE: u64 = 0x4000_0000_0000_0000;

/// Whether the holder can pay for a change of the deque.
fn can_pay<T: Item<Q>, Q: Stock>(q: &Deque<T, Q>, h: &Holder<Q>) -> bool
    ensures { IsTrue result → need (length q.now.value) ≤ h.now.spare }
{
    16 * (q.count() as u64) + 512 <= h.spare()
}

/// A deque of these elements, made at once.
fn deque_of<Q: Stock>(alloc: Global, elements: &[i64], h: &mut Holder<Q>) -> Option<Deque<i64, Q>> {
    let mut items = Vec::new(alloc);
    for x in elements {
        items.push(*x).ok()?;
    }
    if items.len() > 1000 || h.spare() == 0 {
        return None;
    }
    Deque::from_vec(alloc, items, h).ok()
}

/// Adds one element at the end.
fn append<Q: Stock>(q: &mut Deque<i64, Q>, x: i64, h: &mut Holder<Q>) -> Option<()> {
    if q.count() > 1000 || !can_pay(q, h) {
        return None;
    }
    q.append(x, h).ok()
}

/// Adds one element at the front.
fn prepend<Q: Stock>(q: &mut Deque<i64, Q>, x: i64, h: &mut Holder<Q>) -> Option<()> {
    if q.count() > 1000 || !can_pay(q, h) {
        return None;
    }
    q.prepend(x, h).ok()
}

/// Puts one element at place `i`.
fn insert<Q: Stock>(q: &mut Deque<i64, Q>, i: usize, x: i64, h: &mut Holder<Q>) -> Option<()> {
    if q.count() > 1000 || q.count() < i || !can_pay(q, h) {
        return None;
    }
    q.insert(i, x, h).ok()
}

/// Takes the element at place `i` out.
fn remove<Q: Stock>(q: &mut Deque<i64, Q>, i: usize, h: &mut Holder<Q>) -> Option<i64> {
    if q.count() <= i || !can_pay(q, h) {
        return None;
    }
    q.remove(i, h).ok()
}

/// Takes the first element out.
fn first<Q: Stock>(q: &mut Deque<i64, Q>, h: &mut Holder<Q>) -> Option<i64> {
    if !can_pay(q, h) {
        return None;
    }
    q.pop_first(h).ok()?
}

/// Takes the last element out.
fn last<Q: Stock>(q: &mut Deque<i64, Q>, h: &mut Holder<Q>) -> Option<i64> {
    if !can_pay(q, h) {
        return None;
    }
    q.pop_last(h).ok()?
}

/// The first `k` elements go last.
fn rotate<Q: Stock>(q: &mut Deque<i64, Q>, k: usize, h: &mut Holder<Q>) -> Option<()> {
    if q.count() < k || !can_pay(q, h) {
        return None;
    }
    q.rotate(k, h).ok()
}

/// Whether the deque's two slices, its count, and its elements by place are those of this list.
fn shows<Q: Stock>(q: &Deque<i64, Q>, expected: &[i64]) -> bool {
    let (front, rest) = q.as_slices();
    if q.count() != expected.len() || q.is_empty() != expected.is_empty() {
        return false;
    }
    if front.iter().chain(rest.iter()).ne(expected.iter()) {
        return false;
    }
    for i in 0..expected.len() {
        if q.get(i).copied() != Some(expected[i]) {
            return false;
        }
    }
    q.first().copied() == expected.first().copied() && q.last().copied() == expected.last().copied()
}

/// The calls of row `deque-ring`: what its pops answer, and whether its two lists are shown.
fn ring<Q: Stock>(
    q: &mut Deque<i64, Q>,
    h: &mut Holder<Q>,
) -> Option<((i64, i64, i64), bool, bool)> {
    let popped = (first(q, h)?, first(q, h)?, first(q, h)?);
    append(q, 5, h)?;
    append(q, 6, h)?;
    append(q, 7, h)?;
    let shown = shows(q, &[4, 5, 6, 7]);
    rotate(q, 1, h)?;
    Some((popped, shown, shows(q, &[5, 6, 7, 4])))
}

/// Row `deque-ring`, and the copies made.
fn row_ring<Q: Stock>(
    alloc: Global,
    opening: Opening,
) -> Option<(((i64, i64, i64), bool, bool), u64)>
    requires { Opens Q.Stock opening }
{
    let mut h = Holder::<Q>::fresh(opening);
    let mut q = deque_of(alloc, &[1, 2, 3, 4], &mut h)?;
    let found = ring(&mut q, &mut h);
    q.end(&mut h);
    Some((found?, h.copied()))
}

#[test]
fn a_ring_goes_round_its_end_and_copies_nothing(rt: HostRuntime) -> Result<(), Fail> {
    let found = row_ring::<Brand>(rt.alloc(), Opening::new());
    assert_eq!(rt; found, Some((((1, 2, 3), true, true), 0)));
    Ok(())
}

/// The calls of row `deque-calls`: what is removed and popped, and whether its list is shown.
fn calls<Q: Stock>(q: &mut Deque<i64, Q>, h: &mut Holder<Q>) -> Option<(i64, i64, bool)> {
    prepend(q, 0, h)?;
    insert(q, 2, 7, h)?;
    if q.is_empty() || !can_pay(q, h) {
        return None;
    }
    q.set(0, 5, h).ok()?;
    let removed = remove(q, 1, h)?;
    let popped = last(q, h)?;
    if !can_pay(q, h) {
        return None;
    }
    q.reserve(8, h).ok()?;
    Some((removed, popped, shows(q, &[5, 7, 2])))
}

/// Row `deque-calls`, and the copies made.
fn row_calls<Q: Stock>(alloc: Global, opening: Opening) -> Option<((i64, i64, bool), u64)>
    requires { Opens Q.Stock opening }
{
    let mut h = Holder::<Q>::fresh(opening);
    let mut q = deque_of(alloc, &[1, 2, 3], &mut h)?;
    let found = calls(&mut q, &mut h);
    q.end(&mut h);
    Some((found?, h.copied()))
}

#[test]
fn each_call_of_an_alone_deque_copies_nothing(rt: HostRuntime) -> Result<(), Fail> {
    let found = row_calls::<Brand>(rt.alloc(), Opening::new());
    assert_eq!(rt; found, Some(((1, 3, true), 0)));
    Ok(())
}

/// Fills a deque of ten from both ends, so that it goes round the end when it grows, and then puts elements in and
/// takes them out on both sides of its middle.
fn edit<Q: Stock>(q: &mut Deque<i64, Q>, h: &mut Holder<Q>) -> Option<(bool, bool, bool)> {
    for (low, high) in [(4, 5), (3, 6), (2, 7), (1, 8), (0, 9)] {
        prepend(q, low, h)?;
        append(q, high, h)?;
    }
    let filled = shows(q, &[0, 1, 2, 3, 4, 5, 6, 7, 8, 9]);
    insert(q, 2, 20, h)?;
    insert(q, 9, 90, h)?;
    let inserted = shows(q, &[0, 1, 20, 2, 3, 4, 5, 6, 7, 90, 8, 9]);
    remove(q, 9, h)?;
    remove(q, 2, h)?;
    remove(q, 0, h)?;
    remove(q, 8, h)?;
    Some((filled, inserted, shows(q, &[1, 2, 3, 4, 5, 6, 7, 8])))
}

/// What `edit` shows.
fn edited<Q: Stock>(alloc: Global, opening: Opening) -> Option<(bool, bool, bool)>
    requires { Opens Q.Stock opening }
{
    let mut h = Holder::<Q>::fresh(opening);
    let mut q = Deque::<i64, Q>::new(alloc, &mut h).ok()?;
    let found = edit(&mut q, &mut h);
    q.end(&mut h);
    found
}

#[test]
fn a_deque_that_goes_round_its_end_grows_and_is_edited(rt: HostRuntime) -> Result<(), Fail> {
    let found = edited::<Brand>(rt.alloc(), Opening::new());
    assert_eq!(rt; found, Some((true, true, true)));
    Ok(())
}

/// Turns a deque of five with room for more by each number of places: whether each turn shows.
fn turn<Q: Stock>(q: &mut Deque<i64, Q>, h: &mut Holder<Q>) -> Option<(bool, bool, bool)> {
    rotate(q, 1, h)?;
    let one = shows(q, &[2, 3, 4, 5, 1]);
    rotate(q, 3, h)?;
    let three = shows(q, &[5, 1, 2, 3, 4]);
    rotate(q, 5, h)?;
    Some((one, three, shows(q, &[5, 1, 2, 3, 4])))
}

/// What `turn` shows of a deque with room.
fn turned<Q: Stock>(alloc: Global, opening: Opening) -> Option<(bool, bool, bool)>
    requires { Opens Q.Stock opening }
{
    let mut h = Holder::<Q>::fresh(opening);
    let mut q = deque_of(alloc, &[1, 2, 3, 4], &mut h)?;
    append(&mut q, 5, &mut h)?;
    let found = turn(&mut q, &mut h);
    q.end(&mut h);
    found
}

#[test]
fn a_deque_with_room_turns_either_way(rt: HostRuntime) -> Result<(), Fail> {
    let found = turned::<Brand>(rt.alloc(), Opening::new());
    assert_eq!(rt; found, Some((true, true, true)));
    Ok(())
}

/// A copy of a deque of four takes an element more: the copies made, and whether both show their lists.
fn changed_copy<Q: Stock>(alloc: Global, opening: Opening) -> Option<(u64, bool, bool)>
    requires { Opens Q.Stock opening }
{
    let mut h = Holder::<Q>::fresh(opening);
    let mut q = deque_of(alloc, &[1, 2, 3, 4], &mut h)?;
    rotate(&mut q, 2, &mut h)?;
    if h.spare() == 0 {
        return None;
    }
    let mut copy = q.copy(&mut h);
    let added = prepend(&mut copy, 9, &mut h);
    let kept = shows(&q, &[3, 4, 1, 2]);
    let shown = shows(&copy, &[9, 3, 4, 1, 2]);
    q.end(&mut h);
    copy.end(&mut h);
    added?;
    Some((h.copied(), kept, shown))
}

#[test]
fn a_change_of_a_shared_deque_leaves_its_copy(rt: HostRuntime) -> Result<(), Fail> {
    let found = changed_copy::<Brand>(rt.alloc(), Opening::new());
    assert_eq!(rt; found, Some((4, true, true)));
    Ok(())
}

/// A deque of three texts that goes round its end.
fn texts<Q: Stock>(alloc: Global, q: &mut Deque<Atom<Q>, Q>, h: &mut Holder<Q>) -> Option<()> {
    for bytes in [b"nut", b"fig", b"oak"] {
        if q.count() > 1000 || !can_pay(q, h) {
            return None;
        }
        let text = Text::new(alloc, bytes, h).ok()?;
        if !can_pay(q, h) {
            return None;
        }
        q.prepend(Atom::Text(text), h).ok()?;
    }
    Some(())
}

/// Whether all units are back when a deque of texts has ended.
fn ended<Q: Stock>(alloc: Global, opening: Opening) -> Option<bool>
    requires { Opens Q.Stock opening }
{
    let mut h = Holder::<Q>::fresh(opening);
    let mut q = Deque::<Atom<Q>, Q>::new(alloc, &mut h).ok()?;
    let found = texts(alloc, &mut q, &mut h);
    q.end(&mut h);
    found?;
    Some(h.spare() == WHOLE)
}

#[test]
fn a_deque_of_texts_gives_its_units_back(rt: HostRuntime) -> Result<(), Fail> {
    let found = ended::<Brand>(rt.alloc(), Opening::new());
    assert_eq!(rt; found, Some(true));
    Ok(())
}
