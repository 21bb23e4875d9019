// Whether a statement leaves a list of elements the same, told before it is done: no memory is
// taken and no element is made.
ghost use Rattle.std.specs.Prelude.{◌≡◌, ◌+◌, ◌-◌, ◌<◌, ◌≤◌, ◌↔◌, ◌++◌, take, drop, reverse, length, slice_get, slice_set, Some, IfSome, IsTrue};
ghost use Rattle.std.specs.List as lists;
ghost use Rattle.cow_model.specs.Operation as spec;
ghost use Rattle.cow_model.specs.Plain.{same_items};
ghost use Rattle.cow_deque.specs.Rings.{turned, Wraps};

use crate::element::Element;
use crate::listed::Listed;
use crate::positions::{index, index_to_end, stretch};
use cow_cell::Stock;
use cow_item::Key;
use cow_model::Literal;

// Whether the element at a place is the atom.
fn is_at<T: Element<Q>, Q: Stock, L: Listed<T, Q>>(list: &L, place: usize, atom: &Literal) -> bool
    ensures { IsTrue result ↔ (slice_get (L.elements list.now) place ≡ Some atom.now) }
{
    match list.at(place) {
        Some(x) => x.is_literal(atom),
        None => false,
    }
}

// Whether the elements at two places are one.
fn agree<T: Element<Q>, Q: Stock, L: Listed<T, Q>>(list: &L, i: usize, j: usize) -> bool
    ensures { IsTrue result
        ↔ (slice_get (L.elements list.now) i ≡ slice_get (L.elements list.now) j) }
{
    match (list.at(i), list.at(j)) {
        (Some(x), Some(y)) => x.same(y),
        (None, None) => true,
        _ => false,
    }
}

/// Whether the list is the same in the opposite order.
pub fn is_palindrome<T: Element<Q>, Q: Stock, L: Listed<T, Q>>(list: &L) -> bool
    ensures { IsTrue result ↔ (L.elements list.now ≡ reverse (L.elements list.now)) }
{
    let n = list.size();
    for i in 0..n {
        if !agree(list, i, n - 1 - i) {
            return false;
        }
    }
    true
}

// The place that is `k` behind place `i` of `n`, counted round the end.
fn behind(i: usize, k: usize, n: usize) -> usize
    requires place { i < n }
    requires within { k ≤ n }
    ensures { Wraps k i n result }
{
    if i < n - k { i + k } else { i - (n - k) }
}

// Whether the list is the same where its first `k` elements stand last.
fn repeats<T: Element<Q>, Q: Stock, L: Listed<T, Q>>(list: &L, k: usize) -> bool
    requires within { k ≤ length (L.elements list.now) }
    ensures { IsTrue result ↔ (L.elements list.now ≡ turned k (L.elements list.now)) }
{
    let n = list.size();
    for i in 0..n {
        let j = behind(i, k, n);
        if !agree(list, i, j) {
            return false;
        }
    }
    true
}

// Whether the elements from one place up to another are the atoms.
fn shows<T: Element<Q>, Q: Stock, L: Listed<T, Q>>(
    list: &L,
    from: usize,
    to: usize,
    atoms: &[Literal],
) -> bool
    requires order { from ≤ to }
    requires within { to ≤ length (L.elements list.now) }
    ensures { IsTrue result ↔ (take (to - from) (drop from (L.elements list.now)) ≡ atoms.now) }
{
    if to - from != atoms.len() {
        return false;
    }
    for k in 0..atoms.len() {
        if !is_at(list, from + k, &atoms[k]) {
            return false;
        }
    }
    true
}

/// Whether `set N I A` leaves it the same, of a list whose first element has the index `start`.
pub fn set<T: Element<Q>, Q: Stock, L: Listed<T, Q>>(
    list: &L,
    start: usize,
    i: i64,
    atom: &Literal,
) -> bool
    ensures { IfSome (spec.index start (length (L.elements list.now)) i)
        (λ k. result
        ≡ same_items (L.elements list.now) (slice_set (L.elements list.now) k atom.now)) }
{
    match index(start, list.size(), i) {
        Some(place) => is_at(list, place, atom),
        None => false,
    }
}

/// Whether `swap N I J` leaves it the same.
pub fn swap<T: Element<Q>, Q: Stock, L: Listed<T, Q>>(list: &L, i: i64, j: i64) -> bool
    ensures { IfSome (spec.index 0 (length (L.elements list.now)) i)
        (λ k. IfSome (spec.index 0 (length (L.elements list.now)) j)
        (λ m. result ≡ same_items (L.elements list.now) (lists.swap (L.elements list.now) k m))) }
{
    match (index(0, list.size(), i), index(0, list.size(), j)) {
        (Some(first), Some(second)) => agree(list, first, second),
        _ => false,
    }
}

/// Whether `rotate N C` leaves it the same.
pub fn rotate<T: Element<Q>, Q: Stock, L: Listed<T, Q>>(list: &L, c: i64) -> bool
    ensures { IfSome (spec.index 0 (length (L.elements list.now) + 1) c)
        (λ k. result ≡ same_items (L.elements list.now) (turned k (L.elements list.now))) }
{
    match index_to_end(list.size(), c) {
        Some(first) => repeats(list, first),
        None => false,
    }
}

/// Whether `splice N I J A*` leaves it the same.
pub fn splice<T: Element<Q>, Q: Stock, L: Listed<T, Q>>(
    list: &L,
    i: i64,
    j: i64,
    atoms: &[Literal],
) -> bool
    ensures { IfSome (spec.stretch (length (L.elements list.now)) i j)
        (λ r. result ≡ same_items (L.elements list.now)
        (take r.0 (L.elements list.now) ++ atoms.now ++ drop r.1 (L.elements list.now))) }
{
    match stretch(list.size(), i, j) {
        Some((from, to)) => shows(list, from, to, atoms),
        None => false,
    }
}
