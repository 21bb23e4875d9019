//! What no clause says: that calls of heaps succeed, and how few elements are copied.
ghost use Rattle.std.specs.Prelude.{◌≤◌, ◌<◌, ◌+◌, ◌^◌, length, IsTrue};
ghost use Rattle.cow_cell.specs.Opens.{Opens};
ghost use Rattle.cow_model.specs.Flat.{need};

use cow_cell::{Holder, Opening, Stock};
use cow_heap::Heap;
use cow_item::{Atom, Item, Key, Text};
use std::alloc::Global;
use std::marker::Brand;
use std::test::Fail;
use std::thread;
use std::thread::Threads;

const WHOLE: u64 = 0x4000_0000_0000_0000;

/// Whether the holder can pay for a change of the heap.
fn can_pay<T: Key<Q>, Q: Stock>(s: &Heap<T, Q>, h: &Holder<Q>) -> bool
    ensures { IsTrue result → need (length s.now.value) ≤ h.now.spare }
{
    16 * (s.count() as u64) + 512 <= h.spare()
}

/// A vector of these elements.
fn vec_of(alloc: Global, elements: &[i64]) -> Option<Vec<i64>> {
    let mut items = Vec::new(alloc);
    for x in elements {
        items.push(*x).ok()?;
    }
    Some(items)
}

/// A heap of these elements, made at once.
fn heap_of<Q: Stock>(alloc: Global, elements: &[i64], h: &mut Holder<Q>) -> Option<Heap<i64, Q>> {
    let items = vec_of(alloc, elements)?;
    if items.len() > 1000 || h.spare() == 0 {
        return None;
    }
    Heap::from_vec(alloc, items, h).ok()
}

/// Adds one element.
fn add<Q: Stock>(s: &mut Heap<i64, Q>, x: i64, h: &mut Holder<Q>) -> Option<()> {
    if s.count() > 1000 || !can_pay(s, h) {
        return None;
    }
    s.insert(x, h).ok()
}

/// Adds these elements, one after the other.
fn add_all<Q: Stock>(s: &mut Heap<i64, Q>, elements: &[i64], h: &mut Holder<Q>) -> Option<()> {
    for x in elements {
        add(s, *x, h)?;
    }
    Some(())
}

/// Whether the heap's ascending list, its least and its greatest element, its count and `is_empty` are those of
/// this list, which ascends.
fn shows<Q: Stock>(alloc: Global, s: &Heap<i64, Q>, expected: &[i64]) -> bool {
    let Ok(sorted) = s.sorted(alloc) else {
        return false;
    };
    if s.min().copied() != expected.first().copied()
        || s.max().copied() != expected.last().copied()
        || s.is_empty() != expected.is_empty()
        || s.count() != expected.len()
        || sorted.len() != expected.len()
    {
        return false;
    }
    for (x, y) in sorted.iter().zip(expected.iter()) {
        if **x != *y {
            return false;
        }
    }
    true
}

/// The least element, taken out.
fn least<Q: Stock>(s: &mut Heap<i64, Q>, h: &mut Holder<Q>) -> Option<Option<i64>> {
    if !can_pay(s, h) {
        return None;
    }
    s.pop_min(h).ok()
}

/// The greatest element, taken out.
fn greatest<Q: Stock>(s: &mut Heap<i64, Q>, h: &mut Holder<Q>) -> Option<Option<i64>> {
    if !can_pay(s, h) {
        return None;
    }
    s.pop_max(h).ok()
}

/// The pops of row `heap-ends`.
type Ends = (
    Option<i64>,
    Option<i64>,
    Option<i64>,
    Option<i64>,
    Option<i64>,
);

/// What the pops of row `heap-ends` answer.
fn pop_ends<Q: Stock>(s: &mut Heap<i64, Q>, h: &mut Holder<Q>) -> Option<Ends> {
    let first = greatest(s, h)?;
    let second = least(s, h)?;
    let third = greatest(s, h)?;
    let fourth = least(s, h)?;
    let fifth = greatest(s, h)?;
    Some((first, second, third, fourth, fifth))
}

/// Row `heap-ends`, of a heap to which its elements were added: what its pops answer, and the copies made.
fn added_ends<Q: Stock>(alloc: Global, opening: Opening) -> Option<(Ends, u64)>
    requires { Opens Q.Stock opening }
{
    let mut h = Holder::<Q>::fresh(opening);
    let mut s = Heap::<i64, Q>::new(alloc, &mut h).ok()?;
    let added = add_all(&mut s, &[2, 1, 2, 3], &mut h);
    let popped = pop_ends(&mut s, &mut h);
    s.end(&mut h);
    added?;
    Some((popped?, h.copied()))
}

#[test]
fn a_heap_of_added_elements_gives_them_from_both_ends(rt: HostRuntime) -> Result<(), Fail> {
    let found = added_ends::<Brand>(rt.alloc(), Opening::new());
    assert_eq!(rt;
        found,
        Some(((Some(3), Some(1), Some(2), Some(2), None), 0))
    );
    Ok(())
}

/// The same of a heap that was made of a vector.
fn made_ends<Q: Stock>(alloc: Global, opening: Opening) -> Option<(Ends, u64)>
    requires { Opens Q.Stock opening }
{
    let mut h = Holder::<Q>::fresh(opening);
    let mut s = heap_of(alloc, &[2, 1, 2, 3], &mut h)?;
    let popped = pop_ends(&mut s, &mut h);
    s.end(&mut h);
    Some((popped?, h.copied()))
}

#[test]
fn a_heap_made_at_once_gives_its_elements_from_both_ends(rt: HostRuntime) -> Result<(), Fail> {
    let found = made_ends::<Brand>(rt.alloc(), Opening::new());
    assert_eq!(rt;
        found,
        Some(((Some(3), Some(1), Some(2), Some(2), None), 0))
    );
    Ok(())
}

/// The calls of row `heap-calls` after its first: the greatest after 9 was added, and what the two replacements
/// hand out.
fn turn<Q: Stock>(s: &mut Heap<i64, Q>, h: &mut Holder<Q>) -> Option<(i64, i64, i64)> {
    add(s, 9, h)?;
    let top = *s.max()?;
    if s.is_empty() || !can_pay(s, h) {
        return None;
    }
    let low = s.replace_min(7, h).ok()?;
    if s.is_empty() || !can_pay(s, h) {
        return None;
    }
    let high = s.replace_max(0, h).ok()?;
    Some((top, low, high))
}

/// Row `heap-calls`: what its calls answer, whether its list is shown, and the copies made.
fn heap_calls<Q: Stock>(alloc: Global, opening: Opening) -> Option<((i64, i64, i64), bool, u64)>
    requires { Opens Q.Stock opening }
{
    let mut h = Holder::<Q>::fresh(opening);
    let mut s = heap_of(alloc, &[4, 1, 3], &mut h)?;
    let found = turn(&mut s, &mut h);
    let shown = shows(alloc, &s, &[0, 3, 4, 7]);
    s.end(&mut h);
    Some((found?, shown, h.copied()))
}

#[test]
fn each_call_of_an_alone_heap_copies_nothing(rt: HostRuntime) -> Result<(), Fail> {
    let found = heap_calls::<Brand>(rt.alloc(), Opening::new());
    assert_eq!(rt; found, Some(((9, 1, 9), true, 0)));
    Ok(())
}

/// A copy of a heap of four takes an element more: the copies made, and whether both show their lists.
fn changed_copy<Q: Stock>(alloc: Global, opening: Opening) -> Option<(u64, bool, bool)>
    requires { Opens Q.Stock opening }
{
    let mut h = Holder::<Q>::fresh(opening);
    let mut s = heap_of(alloc, &[5, -1, 8, 5], &mut h)?;
    if h.spare() == 0 {
        return None;
    }
    let mut copy = s.copy(&mut h);
    let added = add(&mut copy, 6, &mut h);
    let kept = shows(alloc, &s, &[-1, 5, 5, 8]);
    let shown = shows(alloc, &copy, &[-1, 5, 5, 6, 8]);
    s.end(&mut h);
    copy.end(&mut h);
    added?;
    Some((h.copied(), kept, shown))
}

#[test]
fn a_change_of_a_shared_heap_leaves_its_copy(rt: HostRuntime) -> Result<(), Fail> {
    let found = changed_copy::<Brand>(rt.alloc(), Opening::new());
    assert_eq!(rt; found, Some((4, true, true)));
    Ok(())
}

/// A heap whose copy has ended pops its least: that element, and the copies made.
fn pop_after_copy<Q: Stock>(alloc: Global, opening: Opening) -> Option<(Option<i64>, u64)>
    requires { Opens Q.Stock opening }
{
    let mut h = Holder::<Q>::fresh(opening);
    let mut s = heap_of(alloc, &[3, 2, 1], &mut h)?;
    s.settle();
    if h.spare() == 0 {
        return None;
    }
    let copy = s.copy_settled(&mut h);
    copy.end(&mut h);
    let popped = least(&mut s, &mut h);
    s.end(&mut h);
    Some((popped?, h.copied()))
}

#[test]
fn a_heap_whose_copy_has_ended_copies_nothing(rt: HostRuntime) -> Result<(), Fail> {
    let found = pop_after_copy::<Brand>(rt.alloc(), Opening::new());
    assert_eq!(rt; found, Some((Some(1), 0)));
    Ok(())
}

/// Adds an atom.
fn add_atom<Q: Stock>(s: &mut Heap<Atom<Q>, Q>, x: Atom<Q>, h: &mut Holder<Q>) -> Option<()> {
    if s.count() > 1000 || !can_pay(s, h) {
        return None;
    }
    s.insert(x, h).ok()
}

/// A heap of two texts and an integer, and whether the integer is the least and the text that comes last the
/// greatest.
fn mixed<Q: Stock>(alloc: Global, s: &mut Heap<Atom<Q>, Q>, h: &mut Holder<Q>) -> Option<bool> {
    for bytes in [b"nut", b"fig"] {
        if h.spare() == 0 {
            return None;
        }
        let text = Text::new(alloc, bytes, h).ok()?;
        add_atom(s, Atom::Text(text), h)?;
    }
    add_atom(s, Atom::Int(7), h)?;
    match (s.min()?, s.max()?) {
        (Atom::Int(7), Atom::Text(text)) => Some(text.bytes() == b"nut".as_slice()),
        _ => Some(false),
    }
}

/// Whether texts come after integers in a heap of both, and whether all units are back when it has ended.
fn mixed_ends<Q: Stock>(alloc: Global, opening: Opening) -> Option<(bool, bool)>
    requires { Opens Q.Stock opening }
{
    let mut h = Holder::<Q>::fresh(opening);
    let mut s = Heap::<Atom<Q>, Q>::new(alloc, &mut h).ok()?;
    let found = mixed(alloc, &mut s, &mut h);
    s.end(&mut h);
    Some((found?, h.spare() == WHOLE))
}

#[test]
fn a_heap_of_atoms_gives_its_units_back(rt: HostRuntime) -> Result<(), Fail> {
    let found = mixed_ends::<Brand>(rt.alloc(), Opening::new());
    assert_eq!(rt; found, Some((true, true)));
    Ok(())
}

/// Takes the greatest element out of a heap, ends both, and answers how many elements were left.
fn left_by<Q: Stock + Send + Sync>(
    mut s: Heap<Atom<Q>, Q>,
    mut h: Holder<Q>,
) -> (Option<usize>, Holder<Q>)
    requires spare { need (length s.value) ≤ h.spare }
{
    let popped = s.pop_max(&mut h);
    let left = s.count();
    s.end(&mut h);
    match popped {
        Ok(Some(x)) => {
            x.end(&mut h);
            (Some(left), h)
        }
        _ => (None, h),
    }
}

/// A heap of one text, and a copy of it.
fn copied<Q: Stock>(
    alloc: Global,
    opening: Opening,
) -> Option<(Heap<Atom<Q>, Q>, Heap<Atom<Q>, Q>, Holder<Q>)>
    requires { Opens Q.Stock opening }
{
    let mut h = Holder::<Q>::fresh(opening);
    let mut s = Heap::<Atom<Q>, Q>::new(alloc, &mut h).ok()?;
    let text = Text::new(alloc, b"nut", &mut h).ok()?;
    s.insert(Atom::Text(text), &mut h).ok()?;
    let copy = s.copy(&mut h);
    Some((s, copy, h))
}

/// How many elements two threads left of a heap and its copy, and whether each unit is back.
fn popped_by_two<Q: Stock + Send + Sync, R: Threads + Sync>(
    rt: &R,
    alloc: Global,
    opening: Opening,
) -> Option<(Option<usize>, Option<usize>, bool)>
    requires { Opens Q.Stock opening }
{
    let (s, copy, mut h) = copied::<Q>(alloc, opening)?;
    if s.count() != 1 || copy.count() != 1 || h.spare() < 2000 {
        return None;
    }
    let g = h.split(1000);
    let k = h.split(1000);
    let (one, two) = thread::join(
        rt,
        move ||
            requires spare { need (length s.value) ≤ g.spare }
        { left_by(s, g) },
        move ||
            requires spare { need (length copy.value) ≤ k.spare }
        { left_by(copy, k) },
    );
    h.join(one.1);
    h.join(two.1);
    Some((one.0, two.0, h.spare() == WHOLE))
}

#[test]
fn two_threads_pop_a_heap_and_its_copy(rt: HostRuntime) -> Result<(), Fail> {
    let found = popped_by_two::<Brand, HostRuntime>(&rt, rt.alloc(), Opening::new());
    assert_eq!(rt; found, Some((Some(0), Some(0), true)));
    Ok(())
}
