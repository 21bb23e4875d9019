// Statements that make a value or add to it.
ghost use Rattle.std.specs.Prelude.{◌≡◌, ◌≤◌, ◌++◌, ◌∷◌, length, fold, [], IfOk};
ghost use Rattle.std.specs.List as list;
ghost use Rattle.cow_model.specs.Members as members;
ghost use Rattle.cow_model.specs.Operation as spec;
ghost use Rattle.cow_model.specs.Pairs as pairs;
ghost use Rattle.cow_plain.specs.Kinds.{of_items, of_pairs};
ghost use Rattle.cow_plain.specs.Placings.{placing_of, pair_placing_of};

use crate::lists::{copied, inserted};
use crate::members::{Placing, ascending, member, place, union};
use crate::operation::answers::{Answer, index_to_end, out_of_range, replies, silent, wrong};
use crate::operation::kinds::{Listed, Mapped};
use crate::pairs::{self, paired, put_all, value_in};
use crate::printed::{atom_text, nil_or};
use cow_model::{Kind, Literal, NoMemory, Pair, Plain};
use sqlite_items::Items;
use std::alloc::Global;

// The set of the atoms.
fn set_of(
    alloc: Global,
    kind: Listed,
    placing: Placing,
    atoms: &[Literal],
) -> Result<Plain, NoMemory>
    ensures { IfOk result (λ value. value ≡ of_items kind (members.union (placing_of placing) [] atoms.now)) }
{
    let empty = Items::new(alloc);
    Ok(kind.of(union(alloc, placing, empty.as_slice(), atoms)?))
}

// The map of keys and values in turn.
fn map_of(
    alloc: Global,
    kind: Mapped,
    placing: Placing,
    atoms: &[Literal],
) -> Result<Plain, NoMemory>
    ensures { IfOk result (λ value. value ≡ of_pairs kind (fold (pairs.put (pair_placing_of placing)) [] (pairs.paired atoms.now))) }
{
    let empty = Items::new(alloc);
    let pairs = paired(alloc, atoms)?;
    Ok(kind.of(put_all(alloc, placing, empty.as_slice(), pairs.as_slice())?))
}

// The heap of the atoms.
fn heap_of(alloc: Global, atoms: &[Literal]) -> Result<Plain, NoMemory>
    ensures { IfOk result (λ value. value ≡ Plain.Heap (members.ascending atoms.now)) }
{
    Ok(Plain::Heap(ascending(alloc, atoms)?))
}

/// `let N = KIND A*`: each atom or pair is added in order.
pub fn made(alloc: Global, kind: Kind, atoms: &[Literal]) -> Result<Plain, NoMemory>
    ensures { IfOk result (λ value. value ≡ spec.made kind atoms.now) }
{
    match kind {
        Kind::Array => Listed::Array.copied(alloc, atoms),
        Kind::Deque => Listed::Deque.copied(alloc, atoms),
        Kind::Set => set_of(alloc, Listed::Set, Placing::InOrder, atoms),
        Kind::Dict => map_of(alloc, Mapped::Dict, Placing::InOrder, atoms),
        Kind::OSet => set_of(alloc, Listed::OSet, Placing::Last, atoms),
        Kind::ODict => map_of(alloc, Mapped::ODict, Placing::Last, atoms),
        Kind::Heap => heap_of(alloc, atoms),
        Kind::TSet => set_of(alloc, Listed::TSet, Placing::InOrder, atoms),
        Kind::TDict => map_of(alloc, Mapped::TDict, Placing::InOrder, atoms),
    }
}

// A set with a member, and if it is new.
fn joined(
    alloc: Global,
    kind: Listed,
    placing: Placing,
    atom: &Literal,
    items: &[Literal],
) -> Result<Answer, NoMemory>
    ensures { IfOk result (λ answer. answer ≡ spec.joined (of_items kind) (placing_of placing) atom.now items.now) }
{
    if member(atom, items) {
        replies(alloc, b"false", kind.of(copied(alloc, items)?))
    } else {
        let items = place(alloc, placing, atom, items)?;
        replies(alloc, b"true", kind.of(items))
    }
}

// An ordered set with a member at a place, and if it is new.
fn joined_at(
    alloc: Global,
    at: usize,
    atom: &Literal,
    items: &[Literal],
) -> Result<Answer, NoMemory>
    requires { at ≤ length items.now }
    ensures { IfOk result (λ answer. answer ≡ spec.joined Plain.OSet (λ b others. list.insert others at b) atom.now items.now) }
{
    if member(atom, items) {
        replies(alloc, b"false", Plain::OSet(copied(alloc, items)?))
    } else {
        let items = inserted(alloc, items, at, atom)?;
        replies(alloc, b"true", Plain::OSet(items))
    }
}

// A list with an atom at its end.
fn added_to(
    alloc: Global,
    kind: Listed,
    atom: &Literal,
    items: &[Literal],
) -> Result<Answer, NoMemory>
    ensures { IfOk result (λ answer. answer ≡ spec.silent (of_items kind (items.now ++ atom.now ∷ []))) }
{
    silent(alloc, kind.of(inserted(alloc, items, items.len(), atom)?))
}

// A slice with an atom at its end.
fn added_to_slice(
    alloc: Global,
    start: u64,
    atom: &Literal,
    items: &[Literal],
) -> Result<Answer, NoMemory>
    ensures { IfOk result (λ answer. answer ≡ spec.append atom.now (Plain.Slice start items.now)) }
{
    let items = inserted(alloc, items, items.len(), atom)?;
    silent(alloc, Plain::Slice { start, items })
}

/// `append N A`: one more element at the end, or member of an ordered set, which says if it is new.
pub fn append(alloc: Global, atom: &Literal, value: &Plain) -> Result<Answer, NoMemory>
    ensures { IfOk result (λ answer. answer ≡ spec.append atom.now value.now) }
{
    match value {
        Plain::Array(items) => added_to(alloc, Listed::Array, atom, items.as_slice()),
        Plain::Slice { start, items } => added_to_slice(alloc, *start, atom, items.as_slice()),
        Plain::Deque(items) => added_to(alloc, Listed::Deque, atom, items.as_slice()),
        Plain::OSet(items) => joined(alloc, Listed::OSet, Placing::Last, atom, items.as_slice()),
        _ => wrong(),
    }
}

/// `prepend N A`: one more element at the front.
pub fn prepend(alloc: Global, atom: &Literal, value: &Plain) -> Result<Answer, NoMemory>
    ensures { IfOk result (λ answer. answer ≡ spec.prepend atom.now value.now) }
{
    match value {
        Plain::Deque(items) => {
            let items = inserted(alloc, items.as_slice(), 0, atom)?;
            silent(alloc, Plain::Deque(items))
        }
        _ => wrong(),
    }
}

/// `insert N A`: one more member, or one more element of a heap. A set says if it is new.
pub fn insert(alloc: Global, atom: &Literal, value: &Plain) -> Result<Answer, NoMemory>
    ensures { IfOk result (λ answer. answer ≡ spec.insert atom.now value.now) }
{
    match value {
        Plain::Set(items) => joined(alloc, Listed::Set, Placing::InOrder, atom, items.as_slice()),
        Plain::TSet(items) => joined(
            alloc,
            Listed::TSet,
            Placing::InOrder,
            atom,
            items.as_slice(),
        ),
        Plain::Heap(items) => {
            let items = place(alloc, Placing::InOrder, atom, items.as_slice())?;
            silent(alloc, Plain::Heap(items))
        }
        _ => wrong(),
    }
}

// A list with an atom at a place up to its end.
fn inserted_at(
    alloc: Global,
    kind: Listed,
    i: i64,
    atom: &Literal,
    items: &[Literal],
) -> Result<Answer, NoMemory>
    ensures { IfOk result (λ answer. answer ≡ spec.inserted (of_items kind) i atom.now items.now) }
{
    match index_to_end(items.len(), i) {
        Some(at) => silent(alloc, kind.of(inserted(alloc, items, at, atom)?)),
        None => out_of_range(),
    }
}

// An ordered set with a member at a place up to its end.
fn joined_to_end(
    alloc: Global,
    i: i64,
    atom: &Literal,
    items: &[Literal],
) -> Result<Answer, NoMemory>
    ensures { IfOk result (λ answer. answer ≡ spec.insert_at i atom.now (Plain.OSet items.now)) }
{
    match index_to_end(items.len(), i) {
        Some(at) => joined_at(alloc, at, atom, items),
        None => out_of_range(),
    }
}

/// `insert N I A`: one more element at a place up to the end. An ordered set says if it is new.
pub fn insert_at(alloc: Global, i: i64, atom: &Literal, value: &Plain) -> Result<Answer, NoMemory>
    ensures { IfOk result (λ answer. answer ≡ spec.insert_at i atom.now value.now) }
{
    match value {
        Plain::Array(items) => inserted_at(alloc, Listed::Array, i, atom, items.as_slice()),
        Plain::Deque(items) => inserted_at(alloc, Listed::Deque, i, atom, items.as_slice()),
        Plain::OSet(items) => joined_to_end(alloc, i, atom, items.as_slice()),
        _ => wrong(),
    }
}

// A set with a member, where the old one is printed.
fn updated(
    alloc: Global,
    kind: Listed,
    placing: Placing,
    atom: &Literal,
    items: &[Literal],
) -> Result<Answer, NoMemory>
    ensures { IfOk result (λ answer. answer ≡ spec.updated (of_items kind) (placing_of placing) atom.now items.now) }
{
    if member(atom, items) {
        let old = atom_text(alloc, atom)?;
        replies(alloc, old.as_slice(), kind.of(copied(alloc, items)?))
    } else {
        let items = place(alloc, placing, atom, items)?;
        replies(alloc, b"nil", kind.of(items))
    }
}

/// `update N A`: one more member; the old one, or `nil`, is printed.
pub fn update(alloc: Global, atom: &Literal, value: &Plain) -> Result<Answer, NoMemory>
    ensures { IfOk result (λ answer. answer ≡ spec.update atom.now value.now) }
{
    match value {
        Plain::Set(items) => updated(alloc, Listed::Set, Placing::InOrder, atom, items.as_slice()),
        Plain::TSet(items) => {
            updated(
                alloc,
                Listed::TSet,
                Placing::InOrder,
                atom,
                items.as_slice(),
            )
        }
        Plain::OSet(items) => updated(alloc, Listed::OSet, Placing::Last, atom, items.as_slice()),
        _ => wrong(),
    }
}

// The value under a key is put, and the old one printed.
fn put_in(
    alloc: Global,
    kind: Mapped,
    placing: Placing,
    pair: &Pair,
    pairs: &[Pair],
) -> Result<Answer, NoMemory>
    ensures { IfOk result (λ answer. answer ≡ spec.put_in (of_pairs kind) (pair_placing_of placing) pair.now pairs.now) }
{
    let old = nil_or(alloc, value_in(&pair.key, pairs))?;
    let pairs = pairs::put(alloc, placing, pairs, pair)?;
    replies(alloc, old.as_slice(), kind.of(pairs))
}

/// `put N K V`: a value under a key; the old one, or `nil`, is printed.
pub fn put(alloc: Global, pair: &Pair, value: &Plain) -> Result<Answer, NoMemory>
    ensures { IfOk result (λ answer. answer ≡ spec.put pair.now value.now) }
{
    match value {
        Plain::Dict(pairs) => put_in(
            alloc,
            Mapped::Dict,
            Placing::InOrder,
            pair,
            pairs.as_slice(),
        ),
        Plain::ODict(pairs) => put_in(alloc, Mapped::ODict, Placing::Last, pair, pairs.as_slice()),
        Plain::TDict(pairs) => {
            put_in(
                alloc,
                Mapped::TDict,
                Placing::InOrder,
                pair,
                pairs.as_slice(),
            )
        }
        _ => wrong(),
    }
}
