// What statements that only read print.
ghost use Rattle.std.specs.Prelude.{◌≡◌, IfOk};
ghost use Rattle.std.specs.Fmt.{decimal};
ghost use Rattle.cow_model.specs.Operation as operation;
ghost use Rattle.cow_model.specs.Printed as printed;
ghost use Rattle.cow_model.specs.Query as spec;

use crate::members::{disjoint as are_disjoint, member, place_in, subset as is_subset};
use crate::operation::{element, index};
use crate::pairs;
use crate::pairs::value_in;
use crate::plain::{count, same_list};
use crate::printed::{decimal, nil_or, truth};
use cow_model::{Bytes, Literal, NoMemory, Pair, Plain, Refusal, Side};
use std::alloc::Global;

/// The text of a line, or why there is none.
pub type Told = Result<Bytes, Refusal>;

/// A statement has nothing for values of this kind.
pub fn no_answer() -> Result<Told, NoMemory>
    ensures { IfOk result (λ told. told ≡ spec.wrong) }
{
    Ok(Err(Refusal::WrongKind))
}

/// `count N`
pub fn count_of(alloc: Global, value: &Plain) -> Result<Told, NoMemory>
    ensures { IfOk result (λ told. told ≡ spec.count_of value.now) }
{
    Ok(Ok(decimal(alloc, count(value) as u64)?))
}

// The element at a position, where the position is an integer.
fn get_at(alloc: Global, start: u64, x: &Literal, items: &[Literal]) -> Result<Told, NoMemory>
    ensures { IfOk result (λ told. told ≡ spec.get_at start x.now items.now) }
{
    let Literal::Int(i) = x else {
        return no_answer();
    };
    element_at(alloc, index(start, items.len(), *i), items)
}

// The element at a place, which has to be there.
fn element_at(alloc: Global, place: Option<usize>, items: &[Literal]) -> Result<Told, NoMemory>
    ensures { IfOk result (λ told. told ≡ spec.at_place place (operation.element items.now)) }
{
    match place {
        Some(place) => Ok(Ok(element(alloc, items, place)?)),
        None => Ok(Err(Refusal::OutOfRange)),
    }
}

// The pair at a place, which has to be there.
fn pair_at(alloc: Global, place: Option<usize>, pairs: &[Pair]) -> Result<Told, NoMemory>
    ensures { IfOk result (λ told. told ≡ spec.at_place place (operation.pair pairs.now)) }
{
    match place {
        Some(place) => Ok(Ok(nil_or(alloc, pairs.get(place))?)),
        None => Ok(Err(Refusal::OutOfRange)),
    }
}

/// `get N X`
pub fn get(alloc: Global, x: &Literal, value: &Plain) -> Result<Told, NoMemory>
    ensures { IfOk result (λ told. told ≡ spec.get x.now value.now) }
{
    match value {
        Plain::Array(items) | Plain::Deque(items) => get_at(alloc, 0, x, items.as_slice()),
        Plain::Slice { start, items } => get_at(alloc, *start, x, items.as_slice()),
        Plain::Dict(pairs) | Plain::ODict(pairs) | Plain::TDict(pairs) => {
            Ok(Ok(nil_or(alloc, value_in(x, pairs.as_slice()))?))
        }
        _ => no_answer(),
    }
}

/// `at N I`
pub fn at(alloc: Global, i: i64, value: &Plain) -> Result<Told, NoMemory>
    ensures { IfOk result (λ told. told ≡ spec.at i value.now) }
{
    match value {
        Plain::OSet(items) => element_at(alloc, index(0, items.len(), i), items.as_slice()),
        Plain::ODict(pairs) => pair_at(alloc, index(0, pairs.len(), i), pairs.as_slice()),
        _ => no_answer(),
    }
}

/// `has N A`
pub fn has(alloc: Global, a: &Literal, value: &Plain) -> Result<Told, NoMemory>
    ensures { IfOk result (λ told. told ≡ spec.has a.now value.now) }
{
    let there = match value {
        Plain::Set(items) | Plain::TSet(items) | Plain::OSet(items) => member(a, items.as_slice()),
        Plain::Dict(pairs) | Plain::ODict(pairs) | Plain::TDict(pairs) => {
            pairs::place_in(a, pairs.as_slice()).is_some()
        }
        _ => return no_answer(),
    };
    Ok(Ok(truth(alloc, there)?))
}

// A place in decimal, or `nil`.
fn place_text(alloc: Global, place: Option<usize>) -> Result<Bytes, NoMemory>
    ensures { IfOk result (λ text. text ≡ printed.nil_or decimal place) }
{
    match place {
        Some(place) => decimal(alloc, place as u64),
        None => nil_or::<Literal>(alloc, None),
    }
}

/// `place N A`
pub fn place(alloc: Global, a: &Literal, value: &Plain) -> Result<Told, NoMemory>
    ensures { IfOk result (λ told. told ≡ spec.place a.now value.now) }
{
    let place = match value {
        Plain::OSet(items) => place_in(a, items.as_slice()),
        Plain::ODict(pairs) => pairs::place_in(a, pairs.as_slice()),
        _ => return no_answer(),
    };
    Ok(Ok(place_text(alloc, place)?))
}

/// `peek N END`
pub fn peek(alloc: Global, side: Side, value: &Plain) -> Result<Told, NoMemory>
    ensures { IfOk result (λ told. told ≡ spec.peek side value.now) }
{
    match (side, value) {
        (Side::Min, Plain::Heap(items)) => Ok(Ok(element(alloc, items.as_slice(), 0)?)),
        (Side::Max, Plain::Heap(items)) => {
            let last = items.len().saturating_sub(1);
            Ok(Ok(element(alloc, items.as_slice(), last)?))
        }
        _ => no_answer(),
    }
}

/// `subset N M`
pub fn subset(alloc: Global, value: &Plain, other: &Plain) -> Result<Told, NoMemory>
    ensures { IfOk result (λ told. told ≡ spec.subset value.now other.now) }
{
    match (value, other) {
        (Plain::Set(items), Plain::Set(others))
        | (Plain::TSet(items), Plain::TSet(others))
        | (Plain::OSet(items), Plain::OSet(others)) => {
            let answer = is_subset(items.as_slice(), others.as_slice());
            Ok(Ok(truth(alloc, answer)?))
        }
        _ => no_answer(),
    }
}

/// `disjoint N M`
pub fn disjoint(alloc: Global, value: &Plain, other: &Plain) -> Result<Told, NoMemory>
    ensures { IfOk result (λ told. told ≡ spec.disjoint value.now other.now) }
{
    match (value, other) {
        (Plain::Set(items), Plain::Set(others))
        | (Plain::TSet(items), Plain::TSet(others))
        | (Plain::OSet(items), Plain::OSet(others)) => {
            let answer = are_disjoint(items.as_slice(), others.as_slice());
            Ok(Ok(truth(alloc, answer)?))
        }
        _ => no_answer(),
    }
}

/// `equal N M`
pub fn equal(alloc: Global, value: &Plain, other: &Plain) -> Result<Told, NoMemory>
    ensures { IfOk result (λ told. told ≡ spec.equal value.now other.now) }
{
    let answer = match (value, other) {
        (Plain::Array(items), Plain::Array(others))
        | (Plain::Slice { items, .. }, Plain::Slice { items: others, .. })
        | (Plain::Deque(items), Plain::Deque(others))
        | (Plain::Set(items), Plain::Set(others))
        | (Plain::OSet(items), Plain::OSet(others))
        | (Plain::TSet(items), Plain::TSet(others)) => {
            same_list(items.as_slice(), others.as_slice())
        }
        (Plain::Dict(pairs), Plain::Dict(others))
        | (Plain::ODict(pairs), Plain::ODict(others))
        | (Plain::TDict(pairs), Plain::TDict(others)) => {
            same_list(pairs.as_slice(), others.as_slice())
        }
        _ => return no_answer(),
    };
    Ok(Ok(truth(alloc, answer)?))
}
