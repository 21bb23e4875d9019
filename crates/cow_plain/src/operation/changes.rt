// Statements that put the elements of a value into another form or order.
ghost use Rattle.std.specs.Prelude.{◌≡◌, ◌+◌, length, slice_set, IfOk};
ghost use Rattle.cow_model.specs.Operation as spec;
ghost use Rattle.cow_model.specs.Plain.{max_count};
ghost use Rattle.cow_plain.specs.Kinds.{of_items};

use crate::lists::{self, copied, joined, part, replaced, spliced};
use crate::operation::answers::{
    Answer, index, index_to_end, out_of_range, silent, stretch, wrong,
};
use crate::operation::kinds::Listed;
use cow_model::{Literal, NoMemory, Pair, Plain};
use sqlite_items::Items;
use std::alloc::Global;

/// `slice M I J`: the elements `i` to `j - 1` of an array, with their indices.
pub fn slice(alloc: Global, i: i64, j: i64, value: &Plain) -> Result<Answer, NoMemory>
    ensures { IfOk result (λ answer. answer ≡ spec.slice i j value.now) }
{
    let Plain::Array(items) = value else {
        return wrong();
    };
    match stretch(items.len(), i, j) {
        Some((place, end)) => {
            let start = place as u64;
            let items = part(alloc, items.as_slice(), place, end)?;
            silent(alloc, Plain::Slice { start, items })
        }
        None => out_of_range(),
    }
}

// The element at an index of a list from 0 on becomes another.
fn set_in(
    alloc: Global,
    kind: Listed,
    i: i64,
    atom: &Literal,
    items: &[Literal],
) -> Result<Answer, NoMemory>
    ensures { IfOk result (λ answer. answer ≡ spec.at_place (spec.index 0 (length items.now) i) (λ k. spec.silent (of_items kind (slice_set items.now k atom.now)))) }
{
    match index(0, items.len(), i) {
        Some(at) => silent(alloc, kind.of(replaced(alloc, items, at, atom)?)),
        None => out_of_range(),
    }
}

// The element at an index of a slice becomes another.
fn set_in_slice(
    alloc: Global,
    start: u64,
    i: i64,
    atom: &Literal,
    items: &[Literal],
) -> Result<Answer, NoMemory>
    ensures { IfOk result (λ answer. answer ≡ spec.set i atom.now (Plain.Slice start items.now)) }
{
    match index(start, items.len(), i) {
        Some(at) => {
            let items = replaced(alloc, items, at, atom)?;
            silent(alloc, Plain::Slice { start, items })
        }
        None => out_of_range(),
    }
}

/// `set N I A`: the element at an index becomes another.
pub fn set(alloc: Global, i: i64, atom: &Literal, value: &Plain) -> Result<Answer, NoMemory>
    ensures { IfOk result (λ answer. answer ≡ spec.set i atom.now value.now) }
{
    match value {
        Plain::Array(items) => set_in(alloc, Listed::Array, i, atom, items.as_slice()),
        Plain::Slice { start, items } => set_in_slice(alloc, *start, i, atom, items.as_slice()),
        Plain::Deque(items) => set_in(alloc, Listed::Deque, i, atom, items.as_slice()),
        _ => wrong(),
    }
}

// Two elements change places.
fn swapped(
    alloc: Global,
    kind: Listed,
    i: i64,
    j: i64,
    items: &[Literal],
) -> Result<Answer, NoMemory>
    ensures { IfOk result (λ answer. answer ≡ spec.swapped (of_items kind) i j items.now) }
{
    let Some(first) = index(0, items.len(), i) else {
        return out_of_range();
    };
    let Some(second) = index(0, items.len(), j) else {
        return out_of_range();
    };
    silent(alloc, kind.of(lists::swapped(alloc, items, first, second)?))
}

// Two pairs change places.
fn swapped_pairs(alloc: Global, i: i64, j: i64, pairs: &[Pair]) -> Result<Answer, NoMemory>
    ensures { IfOk result (λ answer. answer ≡ spec.swapped Plain.ODict i j pairs.now) }
{
    let Some(first) = index(0, pairs.len(), i) else {
        return out_of_range();
    };
    let Some(second) = index(0, pairs.len(), j) else {
        return out_of_range();
    };
    let pairs = lists::swapped(alloc, pairs, first, second)?;
    silent(alloc, Plain::ODict(pairs))
}

/// `swap N I J`: two elements, or two pairs, change places.
pub fn swap(alloc: Global, i: i64, j: i64, value: &Plain) -> Result<Answer, NoMemory>
    ensures { IfOk result (λ answer. answer ≡ spec.swap i j value.now) }
{
    match value {
        Plain::Array(items) => swapped(alloc, Listed::Array, i, j, items.as_slice()),
        Plain::OSet(items) => swapped(alloc, Listed::OSet, i, j, items.as_slice()),
        Plain::ODict(pairs) => swapped_pairs(alloc, i, j, pairs.as_slice()),
        _ => wrong(),
    }
}

/// `reverse N`: the last element, or pair, comes first.
pub fn reversed(alloc: Global, value: &Plain) -> Result<Answer, NoMemory>
    ensures { IfOk result (λ answer. answer ≡ spec.reversed value.now) }
{
    match value {
        Plain::Array(items) => {
            let items = lists::reversed(alloc, items.as_slice())?;
            silent(alloc, Plain::Array(items))
        }
        Plain::OSet(items) => {
            let items = lists::reversed(alloc, items.as_slice())?;
            silent(alloc, Plain::OSet(items))
        }
        Plain::ODict(pairs) => {
            let pairs = lists::reversed(alloc, pairs.as_slice())?;
            silent(alloc, Plain::ODict(pairs))
        }
        _ => wrong(),
    }
}

/// `rotate N C`: the first `c` elements go to the end.
pub fn rotate(alloc: Global, c: i64, value: &Plain) -> Result<Answer, NoMemory>
    ensures { IfOk result (λ answer. answer ≡ spec.rotate c value.now) }
{
    let Plain::Deque(items) = value else {
        return wrong();
    };
    let items = items.as_slice();
    match index_to_end(items.len(), c) {
        Some(at) => {
            let items = joined(alloc, &items[at..], &items[..at])?;
            silent(alloc, Plain::Deque(items))
        }
        None => out_of_range(),
    }
}

/// `splice N I J A*`: atoms in the place of the elements `i` to `j - 1`.
pub fn splice(
    alloc: Global,
    i: i64,
    j: i64,
    atoms: &[Literal],
    value: &Plain,
) -> Result<Answer, NoMemory>
    ensures { IfOk result (λ answer. answer ≡ spec.splice i j atoms.now value.now) }
{
    let Plain::Array(items) = value else {
        return wrong();
    };
    match stretch(items.len(), i, j) {
        Some((place, end)) => {
            let items = spliced(alloc, items.as_slice(), place, end, atoms)?;
            silent(alloc, Plain::Array(items))
        }
        None => out_of_range(),
    }
}

// The value stays, where the number of elements may be reserved.
fn reserved(alloc: Global, kind: Listed, c: i64, items: &[Literal]) -> Result<Answer, NoMemory>
    ensures { IfOk result (λ answer. answer ≡ spec.at_place (spec.index 0 (max_count + 1) c) (λ k. spec.silent (of_items kind items.now))) }
{
    match index_to_end(65_536, c) {
        Some(_) => silent(alloc, kind.of(copied(alloc, items)?)),
        None => out_of_range(),
    }
}

/// `reserve N C`: the value as it is.
pub fn reserve(alloc: Global, c: i64, value: &Plain) -> Result<Answer, NoMemory>
    ensures { IfOk result (λ answer. answer ≡ spec.reserve c value.now) }
{
    match value {
        Plain::Array(items) => reserved(alloc, Listed::Array, c, items.as_slice()),
        Plain::Deque(items) => reserved(alloc, Listed::Deque, c, items.as_slice()),
        _ => wrong(),
    }
}

/// `clear N`: no elements are left.
pub fn clear(alloc: Global, value: &Plain) -> Result<Answer, NoMemory>
    ensures { IfOk result (λ answer. answer ≡ spec.clear value.now) }
{
    match value {
        Plain::Array(_) => silent(alloc, Plain::Array(Items::new(alloc))),
        _ => wrong(),
    }
}

/// `rebase N`: a slice as an array.
pub fn rebase(alloc: Global, value: &Plain) -> Result<Answer, NoMemory>
    ensures { IfOk result (λ answer. answer ≡ spec.rebase value.now) }
{
    match value {
        Plain::Slice { items, .. } => {
            let items = copied(alloc, items.as_slice())?;
            silent(alloc, Plain::Array(items))
        }
        _ => wrong(),
    }
}
