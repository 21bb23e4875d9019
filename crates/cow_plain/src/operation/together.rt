// Statements on two values.
ghost use Rattle.std.specs.Prelude.{◌≡◌, IfOk};
ghost use Rattle.cow_model.specs.Operation as spec;
ghost use Rattle.cow_plain.specs.Combinings.{combined};
ghost use Rattle.cow_plain.specs.Kinds.{of_items};
ghost use Rattle.cow_plain.specs.Placings.{placing_of};

use crate::lists::joined;
use crate::members::{self, Placing};
use crate::operation::answers::{Answer, silent, wrong};
use crate::operation::kinds::Listed;
use crate::pairs;
use cow_model::{Literal, NoMemory, Plain};
use sqlite_items::Items;
use std::alloc::Global;

/// `extend N M`: the other array's elements at the end.
pub fn extend(alloc: Global, value: &Plain, other: &Plain) -> Result<Answer, NoMemory>
    ensures { IfOk result (λ answer. answer ≡ spec.extend value.now other.now) }
{
    match (value, other) {
        (Plain::Array(items), Plain::Array(others)) => {
            let items = joined(alloc, items.as_slice(), others.as_slice())?;
            silent(alloc, Plain::Array(items))
        }
        _ => wrong(),
    }
}

/// What two sets are put together to.
#[derive(Clone, Copy, Debug)]
pub enum Combining {
    Union,
    Inter,
    Minus,
    SymDiff,
}

// Two sets put together.
fn combined(
    alloc: Global,
    combining: Combining,
    placing: Placing,
    items: &[Literal],
    others: &[Literal],
) -> Result<Items<Literal>, NoMemory>
    ensures { IfOk result (λ made. made ≡ combined combining (placing_of placing) items.now others.now) }
{
    match combining {
        Combining::Union => members::union(alloc, placing, items, others),
        Combining::Inter => members::inter(alloc, items, others),
        Combining::Minus => members::minus(alloc, items, others),
        Combining::SymDiff => members::symdiff(alloc, placing, items, others),
    }
}

// A set of two sets put together.
fn set_of(
    alloc: Global,
    kind: Listed,
    combining: Combining,
    placing: Placing,
    items: &Items<Literal>,
    others: &Items<Literal>,
) -> Result<Answer, NoMemory>
    ensures { IfOk result (λ answer. answer ≡ spec.silent (of_items kind (combined combining (placing_of placing) items.now others.now))) }
{
    let (items, others) = (items.as_slice(), others.as_slice());
    silent(
        alloc,
        kind.of(combined(alloc, combining, placing, items, others)?),
    )
}

// A set operation on two values of one kind of sets.
fn on_sets(
    alloc: Global,
    combining: Combining,
    value: &Plain,
    other: &Plain,
) -> Result<Answer, NoMemory>
    ensures { IfOk result (λ answer. answer ≡ spec.on_sets (combined combining) value.now other.now) }
{
    match (value, other) {
        (Plain::Set(items), Plain::Set(others)) => {
            set_of(
                alloc,
                Listed::Set,
                combining,
                Placing::InOrder,
                items,
                others,
            )
        }
        (Plain::TSet(items), Plain::TSet(others)) => {
            set_of(
                alloc,
                Listed::TSet,
                combining,
                Placing::InOrder,
                items,
                others,
            )
        }
        (Plain::OSet(items), Plain::OSet(others)) => {
            set_of(alloc, Listed::OSet, combining, Placing::Last, items, others)
        }
        _ => wrong(),
    }
}

/// `union N M`: the members of either.
pub fn union(alloc: Global, value: &Plain, other: &Plain) -> Result<Answer, NoMemory>
    ensures { IfOk result (λ answer. answer ≡ spec.union value.now other.now) }
{
    on_sets(alloc, Combining::Union, value, other)
}

/// `inter N M`: the members of both.
pub fn inter(alloc: Global, value: &Plain, other: &Plain) -> Result<Answer, NoMemory>
    ensures { IfOk result (λ answer. answer ≡ spec.inter value.now other.now) }
{
    on_sets(alloc, Combining::Inter, value, other)
}

/// `minus N M`: the members that the other hasn't.
pub fn minus(alloc: Global, value: &Plain, other: &Plain) -> Result<Answer, NoMemory>
    ensures { IfOk result (λ answer. answer ≡ spec.minus value.now other.now) }
{
    on_sets(alloc, Combining::Minus, value, other)
}

/// `symdiff N M`: the members of exactly one.
pub fn symdiff(alloc: Global, value: &Plain, other: &Plain) -> Result<Answer, NoMemory>
    ensures { IfOk result (λ answer. answer ≡ spec.symdiff value.now other.now) }
{
    on_sets(alloc, Combining::SymDiff, value, other)
}

/// `merge N M keep`, and `merge N M take`: the keys of both, with the value that the last word says under
/// a key of both.
pub fn merge(alloc: Global, take: bool, value: &Plain, other: &Plain) -> Result<Answer, NoMemory>
    ensures { IfOk result (λ answer. answer ≡ spec.merge take value.now other.now) }
{
    match (value, other) {
        (Plain::Dict(pairs), Plain::Dict(others)) => {
            let (pairs, others) = (pairs.as_slice(), others.as_slice());
            let pairs = pairs::merge(alloc, Placing::InOrder, take, pairs, others)?;
            silent(alloc, Plain::Dict(pairs))
        }
        (Plain::TDict(pairs), Plain::TDict(others)) => {
            let (pairs, others) = (pairs.as_slice(), others.as_slice());
            let pairs = pairs::merge(alloc, Placing::InOrder, take, pairs, others)?;
            silent(alloc, Plain::TDict(pairs))
        }
        _ => wrong(),
    }
}

/// `within N M`: the pairs whose keys are members of a set.
pub fn within(alloc: Global, value: &Plain, other: &Plain) -> Result<Answer, NoMemory>
    ensures { IfOk result (λ answer. answer ≡ spec.within value.now other.now) }
{
    match (value, other) {
        (Plain::Dict(pairs), Plain::Set(items)) => {
            let pairs = pairs::within(alloc, pairs.as_slice(), items.as_slice())?;
            silent(alloc, Plain::Dict(pairs))
        }
        (Plain::TDict(pairs), Plain::Set(items)) => {
            let pairs = pairs::within(alloc, pairs.as_slice(), items.as_slice())?;
            silent(alloc, Plain::TDict(pairs))
        }
        _ => wrong(),
    }
}
