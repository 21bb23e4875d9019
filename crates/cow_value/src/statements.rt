// What a statement tells of itself.
ghost use Rattle.std.specs.Prelude.{◌≡◌, None, true};
ghost use Rattle.cow_model.specs.Sharing as sharing;
ghost use Rattle.cow_model.specs.Turns.{added_of};
ghost use Rattle.cow_model.specs.declared.statement.Statement.{out-Statement};
ghost use Rattle.cow_value.specs.Built as spec;

use crate::collection::Collection;
use cow_cell::Stock;
use cow_model::{Kind, Statement};

/// The number of its literal atoms.
pub fn literals(statement: &Statement) -> usize
    ensures { result ≡ sharing.literals (out-Statement statement.now) }
{
    match statement {
        Statement::Let { atoms, .. } | Statement::Splice { atoms, .. } => atoms.len(),
        Statement::Append { .. }
        | Statement::Prepend { .. }
        | Statement::Insert { .. }
        | Statement::InsertAt { .. }
        | Statement::Update { .. }
        | Statement::Remove { .. }
        | Statement::Set { .. }
        | Statement::Get { .. }
        | Statement::Has { .. }
        | Statement::Place { .. }
        | Statement::Replace { .. } => 1,
        Statement::Put { .. } => 2,
        _ => 0,
    }
}

/// How many atoms of the other value a statement adds at most.
pub fn added<V: Collection<Q>, Q: Stock>(statement: &Statement, other: &V) -> usize
    ensures { result ≡ added_of (out-Statement statement.now) (V.seen other.now).value }
{
    match statement {
        Statement::Inter { .. } | Statement::Minus { .. } | Statement::Within { .. } => 0,
        _ => other.size(),
    }
}

/// The line of a statement that isn't built: its word isn't, or in a `let` its kind. `None` exactly
/// where it is built.
pub fn unbuilt_line(statement: &Statement) -> Option<u64>
    ensures line { result ≡ spec.unbuilt_at (out-Statement statement.now) }
    ensures none { result ≡ None → spec.is_built (out-Statement statement.now) ≡ true }
{
    match statement {
        Statement::Let { line, kind, .. } => match kind {
            Kind::Array
            | Kind::Deque
            | Kind::Set
            | Kind::Dict
            | Kind::OSet
            | Kind::ODict
            | Kind::Heap => None,
            _ => Some(*line),
        },
        Statement::Lazy { line, .. } => Some(*line),
        _ => None,
    }
}
