// What a statement makes of the values of its names.
ghost use Rattle.std.specs.Prelude.{◌≡◌, IfOk};
ghost use Rattle.cow_model.specs.Changes as spec;
ghost use Rattle.cow_model.specs.Operation as operation;
ghost use Rattle.cow_model.specs.declared.statement.Statement.{out-Statement};

use crate::copies::Whole;
use crate::operation::{
    Answer, append, clear, extend, insert, insert_at, inter, merge, minus, prepend, put, rebase,
    remove, remove_at, replace, reserve, reversed, rotate, set, splice, swap, symdiff, union,
    update, within, wrong,
};
use crate::query::{Told, at, count_of, disjoint, equal, get, has, no_answer, peek, place, subset};
use cow_model::{Literal, NoMemory, Pair, Plain, Statement};
use std::alloc::Global;

// A key and a value, copied.
fn pair(alloc: Global, key: &Literal, value: &Literal) -> Result<Pair, NoMemory>
    ensures { IfOk result (λ p. p ≡ record { key = key.now; value = value.now }) }
{
    let key = key.whole(alloc)?;
    let value = value.whole(alloc)?;
    Ok(Pair { key, value })
}

// `put N K V`
fn put_pair(
    alloc: Global,
    key: &Literal,
    under: &Literal,
    value: &Plain,
) -> Result<Answer, NoMemory>
    ensures { IfOk result (λ answer. answer ≡ operation.put (record { key = key.now; value = under.now }) value.now) }
{
    let pair = pair(alloc, key, under)?;
    put(alloc, &pair, value)
}

/// What a statement that changes one value makes of it.
pub fn changed(alloc: Global, statement: &Statement, value: &Plain) -> Result<Answer, NoMemory>
    ensures { IfOk result (λ answer. answer ≡ spec.change_of (out-Statement statement.now) value.now) }
{
    match statement {
        Statement::Append { atom, .. } => append(alloc, atom, value),
        Statement::Prepend { atom, .. } => prepend(alloc, atom, value),
        Statement::Insert { atom, .. } => insert(alloc, atom, value),
        Statement::InsertAt { i, atom, .. } => insert_at(alloc, *i, atom, value),
        Statement::Update { atom, .. } => update(alloc, atom, value),
        Statement::Remove { atom, .. } => remove(alloc, atom, value),
        Statement::RemoveAt { i, .. } => remove_at(alloc, *i, value),
        Statement::Set { i, atom, .. } => set(alloc, *i, atom, value),
        Statement::Replace { side, atom, .. } => replace(alloc, *side, atom, value),
        Statement::Swap { i, j, .. } => swap(alloc, *i, *j, value),
        Statement::Reverse { .. } => reversed(alloc, value),
        Statement::Rotate { c, .. } => rotate(alloc, *c, value),
        Statement::Splice { i, j, atoms, .. } => splice(alloc, *i, *j, atoms.as_slice(), value),
        Statement::Reserve { c, .. } => reserve(alloc, *c, value),
        Statement::Clear { .. } => clear(alloc, value),
        Statement::Rebase { .. } => rebase(alloc, value),
        Statement::Put {
            key,
            value: put_value,
            ..
        } => { put_pair(alloc, key, put_value, value) }
        _ => wrong(),
    }
}

/// What a statement that changes one value by another makes of it.
pub fn changed_by(
    alloc: Global,
    statement: &Statement,
    value: &Plain,
    other: &Plain,
) -> Result<Answer, NoMemory>
    ensures { IfOk result (λ answer. answer ≡ spec.change_by_of (out-Statement statement.now) value.now other.now) }
{
    match statement {
        Statement::Extend { .. } => extend(alloc, value, other),
        Statement::Union { .. } => union(alloc, value, other),
        Statement::Inter { .. } => inter(alloc, value, other),
        Statement::Minus { .. } => minus(alloc, value, other),
        Statement::SymDiff { .. } => symdiff(alloc, value, other),
        Statement::Merge { take, .. } => merge(alloc, *take, value, other),
        Statement::Within { .. } => within(alloc, value, other),
        _ => wrong(),
    }
}

/// What a statement that reads one value prints.
pub fn told_of(alloc: Global, statement: &Statement, value: &Plain) -> Result<Told, NoMemory>
    ensures { IfOk result (λ told. told ≡ spec.query_of (out-Statement statement.now) value.now) }
{
    match statement {
        Statement::Count { .. } => count_of(alloc, value),
        Statement::Get { atom, .. } => get(alloc, atom, value),
        Statement::At { i, .. } => at(alloc, *i, value),
        Statement::Has { atom, .. } => has(alloc, atom, value),
        Statement::Place { atom, .. } => place(alloc, atom, value),
        Statement::Peek { side, .. } => peek(alloc, *side, value),
        _ => no_answer(),
    }
}

/// What a statement that reads two values prints.
pub fn told_of_both(
    alloc: Global,
    statement: &Statement,
    value: &Plain,
    other: &Plain,
) -> Result<Told, NoMemory>
    ensures { IfOk result (λ told. told ≡ spec.query_both_of (out-Statement statement.now) value.now other.now) }
{
    match statement {
        Statement::Subset { .. } => subset(alloc, value, other),
        Statement::Disjoint { .. } => disjoint(alloc, value, other),
        Statement::Equal { .. } => equal(alloc, value, other),
        _ => no_answer(),
    }
}
