// The rows of the statements that change a value.
ghost use Rattle.std.specs.Prelude.{◌≡◌, IfOk};
ghost use Rattle.cow_model.specs.Turns as spec;
ghost use Rattle.cow_model.specs.declared.statement.Statement.{out-Statement};

use crate::operation::{Answer, fitting, pop};
use crate::plain::size;
use crate::sharing::{key_cost, own_cost, pop_cost, pop_parts};
use crate::statements::{changed, changed_by};
use cow_model::{NoMemory, Plain, Statement};
use std::alloc::Global;

/// What a statement that changes one value makes of it.
pub fn answer(alloc: Global, statement: &Statement, value: &Plain) -> Result<Answer, NoMemory>
    ensures { IfOk result (λ answer. answer ≡ (spec.turn_of (out-Statement statement.now)).run value.now) }
{
    match statement {
        Statement::Pop { side, .. } => pop(alloc, *side, value),
        _ => Ok(fitting(changed(alloc, statement, value)?)),
    }
}

/// The most copies that it makes beside those of new atoms.
pub fn cost(statement: &Statement, alone: bool, value: &Plain) -> Result<u64, NoMemory>
    ensures { IfOk result (λ n. n ≡ (spec.turn_of (out-Statement statement.now)).cost alone value.now) }
{
    match statement {
        Statement::Insert { atom, .. }
        | Statement::Update { atom, .. }
        | Statement::Remove { atom, .. }
        | Statement::Put { key: atom, .. } => key_cost(atom, alone, value),
        Statement::Pop { side, .. } => pop_cost(*side, alone, value),
        _ => own_cost(alone, value),
    }
}

/// Whether a value that it changes is alone afterwards.
pub fn parts(statement: &Statement, value: &Plain) -> bool
    ensures { result ≡ (spec.turn_of (out-Statement statement.now)).parts value.now }
{
    match statement {
        Statement::Pop { side, .. } => pop_parts(*side, value),
        _ => true,
    }
}

/// What a statement that changes one value by another makes of it.
pub fn answer_by(
    alloc: Global,
    statement: &Statement,
    value: &Plain,
    other: &Plain,
) -> Result<Answer, NoMemory>
    ensures { IfOk result (λ answer.
        answer ≡ (spec.turn_by_of (out-Statement statement.now) other.now).run value.now) }
{
    Ok(fitting(changed_by(alloc, statement, value, other)?))
}

/// How many atoms of the other it adds at most.
pub fn added(statement: &Statement, other: &Plain) -> Result<u64, NoMemory>
    ensures { IfOk result (λ n. n ≡ spec.added_of (out-Statement statement.now) other.now) }
{
    match statement {
        Statement::Inter { .. } | Statement::Minus { .. } | Statement::Within { .. } => Ok(0),
        _ => size(other),
    }
}
