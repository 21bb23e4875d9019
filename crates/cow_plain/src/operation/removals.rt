// Statements that take something out of a value.
ghost use Rattle.std.specs.Prelude.{◌≡◌, ◌<◌, length, IfOk, IfSome};
ghost use Rattle.std.specs.List as list;
ghost use Rattle.cow_model.specs.Members as members;
ghost use Rattle.cow_model.specs.Operation as spec;
ghost use Rattle.cow_model.specs.Pairs as maps;
ghost use Rattle.cow_model.specs.Printed as printed;
ghost use Rattle.cow_plain.specs.Kinds.{of_items, of_pairs};

use crate::lists::{copied, removed};
use crate::members::{Placing, place, place_in};
use crate::operation::answers::{
    Answer, element, first_index, index, last_index, out_of_range, replies, wrong,
};
use crate::operation::kinds::{Listed, Mapped};
use crate::pairs::{self, value_in};
use crate::printed::{atom_text, nil_or};
use cow_model::{Literal, NoMemory, Pair, Plain, Side};
use std::alloc::Global;

// The element at a place goes.
fn removed_item(
    alloc: Global,
    kind: Listed,
    items: &[Literal],
    at: usize,
) -> Result<Answer, NoMemory>
    requires { at < length items.now }
    ensures { IfOk result (λ answer. answer ≡ spec.removed (of_items kind) items.now at) }
{
    let old = element(alloc, items, at)?;
    replies(alloc, old.as_slice(), kind.of(removed(alloc, items, at)?))
}

// The element at a position goes, where the position is an integer.
fn removed_at(
    alloc: Global,
    kind: Listed,
    position: &Literal,
    items: &[Literal],
) -> Result<Answer, NoMemory>
    ensures { IfOk result (λ answer. answer ≡ spec.removed_at (of_items kind) position.now items.now) }
{
    let Literal::Int(i) = position else {
        return wrong();
    };
    match index(0, items.len(), *i) {
        Some(at) => removed_item(alloc, kind, items, at),
        None => out_of_range(),
    }
}

// A member goes, where it is there.
fn removed_member(
    alloc: Global,
    kind: Listed,
    atom: &Literal,
    items: &[Literal],
) -> Result<Answer, NoMemory>
    ensures { IfOk result (λ answer. answer ≡ spec.removed_member (of_items kind) items.now (members.place_in atom.now items.now)) }
{
    match place_in(atom, items) {
        Some(at) => removed_item(alloc, kind, items, at),
        None => replies(alloc, b"nil", kind.copied(alloc, items)?),
    }
}

// The pair of a key goes that stands at a place, and its value is printed.
fn taken(
    alloc: Global,
    kind: Mapped,
    key: &Literal,
    pairs: &[Pair],
    at: usize,
) -> Result<Answer, NoMemory>
    requires { at < length pairs.now }
    ensures { IfOk result (λ answer. answer ≡ spec.replies (spec.value_under key.now pairs.now) (of_pairs kind (list.remove pairs.now at))) }
{
    let old = nil_or(alloc, value_in(key, pairs))?;
    replies(alloc, old.as_slice(), kind.of(removed(alloc, pairs, at)?))
}

// The pair of a key goes, where it is there.
fn removed_key(
    alloc: Global,
    kind: Mapped,
    key: &Literal,
    pairs: &[Pair],
) -> Result<Answer, NoMemory>
    ensures { IfOk result (λ answer. answer ≡ spec.removed_key (of_pairs kind) pairs.now key.now (maps.place_in key.now pairs.now)) }
{
    match pairs::place_in(key, pairs) {
        Some(at) => taken(alloc, kind, key, pairs, at),
        None => replies(alloc, b"nil", kind.copied(alloc, pairs)?),
    }
}

/// `remove N X`: the element at a position, a member, or the pair of a key goes and is printed.
pub fn remove(alloc: Global, x: &Literal, value: &Plain) -> Result<Answer, NoMemory>
    ensures { IfOk result (λ answer. answer ≡ spec.remove x.now value.now) }
{
    match value {
        Plain::Array(items) => removed_at(alloc, Listed::Array, x, items.as_slice()),
        Plain::Deque(items) => removed_at(alloc, Listed::Deque, x, items.as_slice()),
        Plain::Set(items) => removed_member(alloc, Listed::Set, x, items.as_slice()),
        Plain::TSet(items) => removed_member(alloc, Listed::TSet, x, items.as_slice()),
        Plain::OSet(items) => removed_member(alloc, Listed::OSet, x, items.as_slice()),
        Plain::Dict(pairs) => removed_key(alloc, Mapped::Dict, x, pairs.as_slice()),
        Plain::ODict(pairs) => removed_key(alloc, Mapped::ODict, x, pairs.as_slice()),
        Plain::TDict(pairs) => removed_key(alloc, Mapped::TDict, x, pairs.as_slice()),
        _ => wrong(),
    }
}

// The pair at a place goes.
fn removed_pair(alloc: Global, pairs: &[Pair], at: usize) -> Result<Answer, NoMemory>
    requires { at < length pairs.now }
    ensures { IfOk result (λ answer. answer ≡ spec.replies (spec.pair pairs.now at) (Plain.ODict (list.remove pairs.now at))) }
{
    let old = nil_or(alloc, pairs.get(at))?;
    replies(
        alloc,
        old.as_slice(),
        Plain::ODict(removed(alloc, pairs, at)?),
    )
}

/// `removeat N I`: the element or pair at a place goes and is printed.
pub fn remove_at(alloc: Global, i: i64, value: &Plain) -> Result<Answer, NoMemory>
    ensures { IfOk result (λ answer. answer ≡ spec.remove_at i value.now) }
{
    match value {
        Plain::OSet(items) => match index(0, items.len(), i) {
            Some(at) => removed_item(alloc, Listed::OSet, items.as_slice(), at),
            None => out_of_range(),
        },
        Plain::ODict(pairs) => match index(0, pairs.len(), i) {
            Some(at) => removed_pair(alloc, pairs.as_slice(), at),
            None => out_of_range(),
        },
        _ => wrong(),
    }
}

// A first element goes.
fn popped(
    alloc: Global,
    kind: Listed,
    first: &Literal,
    others: &[Literal],
) -> Result<Answer, NoMemory>
    ensures { IfOk result (λ answer. answer ≡ spec.replies (printed.atom_text first.now) (of_items kind others.now)) }
{
    let text = atom_text(alloc, first)?;
    replies(alloc, text.as_slice(), kind.copied(alloc, others)?)
}

// The first element goes, where there is one.
fn first_popped(alloc: Global, kind: Listed, items: &[Literal]) -> Result<Answer, NoMemory>
    ensures { IfOk result (λ answer. answer ≡ spec.first_popped (of_items kind) items.now) }
{
    match items {
        [] => replies(alloc, b"nil", kind.copied(alloc, items)?),
        [first, others @ ..] => popped(alloc, kind, first, others),
    }
}

// The last element goes, where there is one.
fn last_popped(alloc: Global, kind: Listed, items: &[Literal]) -> Result<Answer, NoMemory>
    ensures { IfOk result (λ answer. answer ≡ spec.last_popped (of_items kind) items.now) }
{
    let last = items.len().saturating_sub(1);
    let text = element(alloc, items, last)?;
    let items = copied(alloc, &items[..last])?;
    replies(alloc, text.as_slice(), kind.of(items))
}

// A slice of copies of these atoms, and a line.
fn replies_slice(
    alloc: Global,
    text: &[u8],
    start: u64,
    items: &[Literal],
) -> Result<Answer, NoMemory>
    ensures { IfOk result (λ answer. answer ≡ spec.replies text.now (Plain.Slice start items.now)) }
{
    let items = copied(alloc, items)?;
    replies(alloc, text, Plain::Slice { start, items })
}

// The first element of a slice goes, where there is one, and with it its index.
fn slice_popped(alloc: Global, start: u64, items: &[Literal]) -> Result<Answer, NoMemory>
    ensures { IfOk result (λ answer. answer ≡ spec.slice_popped start items.now) }
{
    match items {
        [] => replies_slice(alloc, b"nil", start, items),
        [first, others @ ..] => {
            let start = start.checked_add(1).ok_or(NoMemory)?;
            let text = atom_text(alloc, first)?;
            replies_slice(alloc, text.as_slice(), start, others)
        }
    }
}

/// `pop N END`: the element at an end goes, where there is one; it, or `nil`, is printed.
pub fn pop(alloc: Global, side: Side, value: &Plain) -> Result<Answer, NoMemory>
    ensures { IfOk result (λ answer. answer ≡ spec.pop side value.now) }
{
    match (side, value) {
        (Side::Last, Plain::Array(items)) => last_popped(alloc, Listed::Array, items.as_slice()),
        (Side::First, Plain::Slice { start, items }) => {
            slice_popped(alloc, *start, items.as_slice())
        }
        (Side::First, Plain::Deque(items)) => first_popped(alloc, Listed::Deque, items.as_slice()),
        (Side::Last, Plain::Deque(items)) => last_popped(alloc, Listed::Deque, items.as_slice()),
        (Side::Min, Plain::Heap(items)) => first_popped(alloc, Listed::Heap, items.as_slice()),
        (Side::Max, Plain::Heap(items)) => last_popped(alloc, Listed::Heap, items.as_slice()),
        _ => wrong(),
    }
}

// An element of a heap becomes another.
fn replaced(
    alloc: Global,
    atom: &Literal,
    items: &[Literal],
    at: Option<usize>,
) -> Result<Answer, NoMemory>
    requires { IfSome at (λ k. k < length items.now) }
    ensures { IfOk result (λ answer. answer ≡ spec.replaced atom.now items.now at) }
{
    let Some(at) = at else {
        return out_of_range();
    };
    let old = element(alloc, items, at)?;
    let rest = removed(alloc, items, at)?;
    let items = place(alloc, Placing::InOrder, atom, rest.as_slice())?;
    replies(alloc, old.as_slice(), Plain::Heap(items))
}

/// `replace N END A`: the least or greatest element of a heap becomes another; the old one is printed.
pub fn replace(alloc: Global, side: Side, atom: &Literal, value: &Plain) -> Result<Answer, NoMemory>
    ensures { IfOk result (λ answer. answer ≡ spec.replace side atom.now value.now) }
{
    match (side, value) {
        (Side::Min, Plain::Heap(items)) => {
            replaced(alloc, atom, items.as_slice(), first_index(items.len()))
        }
        (Side::Max, Plain::Heap(items)) => {
            replaced(alloc, atom, items.as_slice(), last_index(items.len()))
        }
        _ => wrong(),
    }
}
