//! What no clause says: that calls of arrays and slices succeed, and how few elements are copied.
ghost use Rattle.std.specs.Prelude.{◌≤◌, ◌<◌, ◌+◌, ◌^◌, length, IsTrue};
ghost use Rattle.cow_cell.specs.Opens.{Opens};
ghost use Rattle.cow_model.specs.Flat.{need};

use cow_array::{Array, ArraySlice};
use cow_cell::{Holder, Opening, Stock};
use cow_item::{Atom, Text};
use std::alloc::Global;
use std::marker::Brand;
use std::test::Fail;
use std::thread;
use std::thread::Threads;

/// Whether the holder can pay for a change of the array.
fn can_pay<Q: Stock>(a: &Array<i64, Q>, h: &Holder<Q>) -> bool
    ensures { IsTrue result → need (length a.now.value) ≤ h.now.spare }
{
    16 * (a.count() as u64) + 512 <= h.spare()
}

/// Whether the holder can pay for a change of the slice.
fn can_pay_slice<Q: Stock>(s: &ArraySlice<i64, Q>, h: &Holder<Q>) -> bool
    ensures { IsTrue result → need (length s.now.value.items) ≤ h.now.spare }
{
    16 * (s.count() as u64) + 512 <= h.spare()
}

/// Whether the array shows these elements, one by one and as a slice.
fn shows<Q: Stock>(a: &Array<i64, Q>, expected: &[i64]) -> bool {
    if a.as_slice() != expected || a.is_empty() != expected.is_empty() {
        return false;
    }
    for i in 0..expected.len() {
        match a.get(i) {
            Some(x) if *x == expected[i] => {}
            _ => return false,
        }
    }
    true
}

/// Whether the slice shows these elements from `start` on, and none below.
fn shows_slice<Q: Stock>(s: &ArraySlice<i64, Q>, start: usize, expected: &[i64]) -> bool {
    if s.start() != start || s.as_slice() != expected || s.is_empty() || start > 1000 {
        return false;
    }
    for i in 0..expected.len() {
        match s.get(start + i) {
            Some(x) if *x == expected[i] => {}
            _ => return false,
        }
    }
    start == 0 || s.get(start - 1).is_none()
}

/// A vector of these elements.
fn vec_of(alloc: Global, elements: &[i64]) -> Option<Vec<i64>> {
    let mut items = Vec::new(alloc);
    for x in elements {
        items.push(*x).ok()?;
    }
    Some(items)
}

/// An array of these elements, with its holder.
fn array_of<Q: Stock>(
    alloc: Global,
    opening: Opening,
    elements: &[i64],
) -> Option<(Array<i64, Q>, Holder<Q>)>
    requires { Opens Q.Stock opening }
{
    let mut h = Holder::<Q>::fresh(opening);
    let items = vec_of(alloc, elements)?;
    if items.len() > 1000 {
        return None;
    }
    let a = Array::from_vec(alloc, items, &mut h).ok()?;
    Some((a, h))
}

/// The calls of row `array-calls` before its splice.
fn turn<Q: Stock>(a: &mut Array<i64, Q>, h: &mut Holder<Q>) -> Option<()> {
    if a.count() != 3 || !can_pay(a, h) {
        return None;
    }
    a.insert(1, 9, h).ok()?;
    if a.count() != 4 || !can_pay(a, h) {
        return None;
    }
    a.swap_at(0, 3, h).ok()?;
    if !can_pay(a, h) {
        return None;
    }
    a.reverse(h).ok()
}

/// Its splice, and what it reserves: whether its list is shown then.
fn splice<Q: Stock>(alloc: Global, a: &mut Array<i64, Q>, h: &mut Holder<Q>) -> Option<bool> {
    let items = vec_of(alloc, &[7, 8, 5])?;
    if a.count() != 4 || items.len() != 3 || h.spare() < 2000 {
        return None;
    }
    a.replace(1, 3, items, h).ok()?;
    if !can_pay(a, h) {
        return None;
    }
    a.reserve(10, h).ok()?;
    Some(shows(a, &[3, 7, 8, 5, 2]))
}

/// Its last calls: what `remove` and `count` answer.
fn empty<Q: Stock>(a: &mut Array<i64, Q>, h: &mut Holder<Q>) -> Option<(i64, usize)> {
    if a.count() != 5 || !can_pay(a, h) {
        return None;
    }
    let first = a.remove(0, h).ok()?;
    if !can_pay(a, h) {
        return None;
    }
    a.clear(h).ok()?;
    Some((first, a.count()))
}

/// The calls of row `array-calls`: whether its list was shown, what `remove` and `count` answered, and the
/// copies made.
fn array_calls<Q: Stock>(alloc: Global, opening: Opening) -> Option<(bool, i64, usize, u64)>
    requires { Opens Q.Stock opening }
{
    let (mut a, mut h) = array_of::<Q>(alloc, opening, &[3, 1, 2])?;
    turn(&mut a, &mut h)?;
    let shown = splice(alloc, &mut a, &mut h)?;
    let (first, count) = empty(&mut a, &mut h)?;
    a.end(&mut h);
    Some((shown, first, count, h.copied()))
}

#[test]
fn each_call_of_an_alone_array_copies_nothing(rt: HostRuntime) -> Result<(), Fail> {
    let found = array_calls::<Brand>(rt.alloc(), Opening::new());
    assert_eq!(rt; found, Some((true, 3, 0, 0)));
    Ok(())
}

/// Row `empty-array`: the last element of an empty array.
fn last_of_none<Q: Stock>(alloc: Global, opening: Opening) -> Option<Option<i64>>
    requires { Opens Q.Stock opening }
{
    let mut h = Holder::<Q>::fresh(opening);
    let mut a = Array::<i64, Q>::new(alloc, &mut h).ok()?;
    if !can_pay(&a, &h) {
        return None;
    }
    let last = a.pop_last(&mut h).ok()?;
    a.end(&mut h);
    Some(last)
}

#[test]
fn an_empty_array_has_no_last_element(rt: HostRuntime) -> Result<(), Fail> {
    let found = last_of_none::<Brand>(rt.alloc(), Opening::new());
    assert_eq!(rt; found, Some(None));
    Ok(())
}

/// Sets place 0 of an array of one element to 7: what stood there, and whether 7 is shown.
fn set_first<Q: Stock>(a: &mut Array<i64, Q>, h: &mut Holder<Q>) -> Option<(i64, bool)> {
    if a.count() != 1 || !can_pay(a, h) {
        return None;
    }
    let old = a.set(0, 7, h).ok()?;
    Some((old, shows(a, &[7])))
}

/// Place 0 of the array 1 is set to 7.
fn first_set<Q: Stock>(alloc: Global, opening: Opening) -> Option<(i64, bool)>
    requires { Opens Q.Stock opening }
{
    let (mut a, mut h) = array_of::<Q>(alloc, opening, &[1])?;
    let found = set_first(&mut a, &mut h);
    a.end(&mut h);
    found
}

#[test]
fn the_only_element_can_be_set(rt: HostRuntime) -> Result<(), Fail> {
    let found = first_set::<Brand>(rt.alloc(), Opening::new());
    assert_eq!(rt; found, Some((1, true)));
    Ok(())
}

/// The slice of two elements of the array from `start` on.
fn slice_of<Q: Stock>(
    a: &mut Array<i64, Q>,
    start: usize,
    h: &mut Holder<Q>,
) -> Option<ArraySlice<i64, Q>> {
    if start > 1000 || a.count() < start + 2 || h.spare() == 0 {
        return None;
    }
    Some(a.slice(start, start + 2, h))
}

/// Appends 9 to a slice and pops its first element: that element, where the slice starts then, and whether
/// it shows its list.
fn slide<Q: Stock>(s: &mut ArraySlice<i64, Q>, h: &mut Holder<Q>) -> Option<(i64, usize, bool)> {
    if s.start() != 1 || s.count() != 2 || !can_pay_slice(s, h) {
        return None;
    }
    s.append(9, h).ok()?;
    if h.spare() == 0 {
        return None;
    }
    let first = s.pop_first(h)?;
    Some((first, s.start(), shows_slice(s, 2, &[3, 9])))
}

/// Whether an array made from the slice shows its list.
fn rebase<Q: Stock>(s: ArraySlice<i64, Q>, h: &mut Holder<Q>) -> Option<bool> {
    if !can_pay_slice(&s, h) {
        return None;
    }
    let b = s.into_array(h).ok()?;
    let shown = shows(&b, &[3, 9]);
    b.end(h);
    Some(shown)
}

/// Row `slice-calls`: the popped element, where the slice starts then, whether each list was shown, and the
/// copies made.
fn slice_calls<Q: Stock>(alloc: Global, opening: Opening) -> Option<(i64, usize, bool, u64)>
    requires { Opens Q.Stock opening }
{
    let (mut a, mut h) = array_of::<Q>(alloc, opening, &[1, 2, 3, 4])?;
    let mut s = slice_of(&mut a, 1, &mut h)?;
    let (first, start, slid) = slide(&mut s, &mut h)?;
    let rebased = rebase(s, &mut h)?;
    let kept = shows(&a, &[1, 2, 3, 4]);
    a.end(&mut h);
    Some((first, start, slid && rebased && kept, h.copied()))
}

#[test]
fn a_changed_slice_copies_its_own_elements(rt: HostRuntime) -> Result<(), Fail> {
    let found = slice_calls::<Brand>(rt.alloc(), Opening::new());
    assert_eq!(rt; found, Some((2, 2, true, 2)));
    Ok(())
}

/// Sets index 2 of a slice to 31: what stood there, and whether the slice shows its list.
fn set_index<Q: Stock>(s: &mut ArraySlice<i64, Q>, h: &mut Holder<Q>) -> Option<(i64, bool)> {
    if s.start() != 2 || s.count() != 2 || !can_pay_slice(s, h) {
        return None;
    }
    let old = s.set(2, 31, h).ok()?;
    Some((old, shows_slice(s, 2, &[31, 40])))
}

/// Row `slice-keeps-indices`: what stood at index 2, and whether slice and array show theirs.
fn index_set<Q: Stock>(alloc: Global, opening: Opening) -> Option<(i64, bool, bool)>
    requires { Opens Q.Stock opening }
{
    let (mut a, mut h) = array_of::<Q>(alloc, opening, &[10, 20, 30, 40, 50])?;
    let mut s = slice_of(&mut a, 2, &mut h)?;
    let (old, sliced) = set_index(&mut s, &mut h)?;
    let kept = shows(&a, &[10, 20, 30, 40, 50]);
    s.end(&mut h);
    a.end(&mut h);
    Some((old, sliced, kept))
}

#[test]
fn a_slice_keeps_its_indices(rt: HostRuntime) -> Result<(), Fail> {
    let found = index_set::<Brand>(rt.alloc(), Opening::new());
    assert_eq!(rt; found, Some((30, true, true)));
    Ok(())
}

/// Row `extend-self` by a copy, and then a set of place 0: whether the array shows its list, and what stood at
/// place 0.
fn change_shared<Q: Stock>(
    a: &mut Array<i64, Q>,
    b: &Array<i64, Q>,
    h: &mut Holder<Q>,
) -> Option<(bool, i64)> {
    if a.count() != 2 || b.count() != 2 || h.spare() < 1000 {
        return None;
    }
    a.extend(b, h).ok()?;
    let extended = shows(a, &[1, 2, 1, 2]);
    if a.count() != 4 || !can_pay(a, h) {
        return None;
    }
    let old = a.set(0, 7, h).ok()?;
    Some((extended && shows(a, &[7, 2, 1, 2]), old))
}

/// The same on a new array: whether it shows its list and its copy the old one, what stood at place 0, and the
/// copies made.
fn shared_changes<Q: Stock>(alloc: Global, opening: Opening) -> Option<(bool, bool, i64, u64)>
    requires { Opens Q.Stock opening }
{
    let (mut a, mut h) = array_of::<Q>(alloc, opening, &[1, 2])?;
    if h.spare() == 0 {
        return None;
    }
    let b = a.copy(&mut h);
    let (right, old) = change_shared(&mut a, &b, &mut h)?;
    let kept = shows(&b, &[1, 2]) && !a.equals(&b);
    let copied = h.copied();
    a.end(&mut h);
    b.end(&mut h);
    Some((right, kept, old, copied))
}

#[test]
fn a_change_of_a_shared_array_leaves_its_copy(rt: HostRuntime) -> Result<(), Fail> {
    let found = shared_changes::<Brand>(rt.alloc(), Opening::new());
    assert_eq!(rt; found, Some((true, true, 1, 4)));
    Ok(())
}

/// 100 appends after `reserve(100)`.
fn append_hundred<Q: Stock>(a: &mut Array<i64, Q>, h: &mut Holder<Q>) -> Option<()> {
    if !can_pay(a, h) {
        return None;
    }
    a.reserve(100, h).ok()?;
    for i in 0..100 {
        if a.count() > 1000 || !can_pay(a, h) {
            return None;
        }
        a.append(i, h).ok()?;
    }
    Some(())
}

/// The same on a new array: how many elements it has then, and how many copies were made.
fn hundred<Q: Stock>(alloc: Global, opening: Opening) -> Option<(usize, u64)>
    requires { Opens Q.Stock opening }
{
    let mut h = Holder::<Q>::fresh(opening);
    let mut a = Array::<i64, Q>::new(alloc, &mut h).ok()?;
    append_hundred(&mut a, &mut h)?;
    let made = a.count();
    a.end(&mut h);
    Some((made, h.copied()))
}

#[test]
fn appends_within_the_room_copy_nothing(rt: HostRuntime) -> Result<(), Fail> {
    let found = hundred::<Brand>(rt.alloc(), Opening::new());
    assert_eq!(rt; found, Some((100, 0)));
    Ok(())
}

/// Where a slice of four elements starts and stops, and whether it equals its copy and not another slice.
fn copied_slice<Q: Stock>(alloc: Global, opening: Opening) -> Option<(usize, usize, bool, bool)>
    requires { Opens Q.Stock opening }
{
    let (mut a, mut h) = array_of::<Q>(alloc, opening, &[1, 2, 3, 4])?;
    let mut s = slice_of(&mut a, 1, &mut h)?;
    let other = slice_of(&mut a, 2, &mut h)?;
    if h.spare() == 0 {
        return None;
    }
    let copy = s.copy(&mut h);
    Some((s.start(), s.stop(), s.equals(&copy), s.equals(&other)))
}

#[test]
fn a_slice_equals_its_copy(rt: HostRuntime) -> Result<(), Fail> {
    let found = copied_slice::<Brand>(rt.alloc(), Opening::new());
    assert_eq!(rt; found, Some((1, 3, true, false)));
    Ok(())
}

/// What one thread does: appends to its copy and ends it.
fn changed<Q: Stock + Send + Sync>(
    mut a: Array<Atom<Q>, Q>,
    x: i64,
    mut h: Holder<Q>,
) -> (usize, Holder<Q>)
    requires growth { length a.value + 1 < 2 ^ 31 }
    requires spare { need (length a.value) ≤ h.spare }
{
    let count = match a.append(Atom::Int(x), &mut h) {
        Ok(()) => a.count(),
        Err(_) => 0,
    };
    a.end(&mut h);
    (count, h)
}

/// An array of one text, and two copies of it.
fn copied_twice<Q: Stock>(
    alloc: Global,
    opening: Opening,
) -> Option<
    (
        Array<Atom<Q>, Q>,
        Array<Atom<Q>, Q>,
        Array<Atom<Q>, Q>,
        Holder<Q>,
    ),
>
    requires { Opens Q.Stock opening }
{
    let mut h = Holder::<Q>::fresh(opening);
    let mut a = Array::<Atom<Q>, Q>::new(alloc, &mut h).ok()?;
    let text = Text::new(alloc, b"nut", &mut h).ok()?;
    a.append(Atom::Text(text), &mut h).ok()?;
    let b = a.copy(&mut h);
    let c = a.copy_settled(&mut h);
    Some((a, b, c, h))
}

/// The counts that two threads found, and whether each unit is back.
fn changed_by_two<Q: Stock + Send + Sync, R: Threads + Sync>(
    rt: &R,
    alloc: Global,
    opening: Opening,
) -> Option<(usize, usize, usize, bool)>
    requires { Opens Q.Stock opening }
{
    let (a, b, c, mut h) = copied_twice::<Q>(alloc, opening)?;
    if b.count() != 1 || c.count() != 1 || h.spare() < 2000 {
        return None;
    }
    let g = h.split(1000);
    let k = h.split(1000);
    let (one, two) = thread::join(
        rt,
        move ||
            requires growth { length b.value + 1 < 2 ^ 31 }
            requires spare { need (length b.value) ≤ g.spare }
        { changed(b, 1, g) },
        move ||
            requires growth { length c.value + 1 < 2 ^ 31 }
            requires spare { need (length c.value) ≤ k.spare }
        { changed(c, 2, k) },
    );
    let left = a.count();
    h.join(one.1);
    h.join(two.1);
    a.end(&mut h);
    Some((one.0, two.0, left, h.spare() == 0x4000_0000_0000_0000))
}

#[test]
fn two_threads_change_a_copy_each(rt: HostRuntime) -> Result<(), Fail> {
    let found = changed_by_two::<Brand, HostRuntime>(&rt, rt.alloc(), Opening::new());
    assert_eq!(rt; found, Some((2, 2, 1, true)));
    Ok(())
}
