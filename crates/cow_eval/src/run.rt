// What one statement does, by its word.
ghost use Rattle.std.specs.Prelude.{◌≡◌, ℕ, ◌+◌, ◌≤◌, ◌<◌, ◌^◌, [], true, IsOk, OnOk};
ghost use Rattle.cow_model.specs.Atoms.{counted_in, IsBareStep};
ghost use Rattle.cow_model.specs.Purse.{RisesBy};
ghost use Rattle.cow_model.specs.Run as run;
ghost use Rattle.cow_model.specs.Sharing as sharing;
ghost use Rattle.cow_model.specs.Step as spec;
ghost use Rattle.cow_model.specs.declared.statement.Statement.{out-Statement};
ghost use Rattle.cow_eval.specs.Entries.{most_units};
ghost use Rattle.cow_eval.specs.Envs.{AreNear, CanAct, CanRun, Reads, Runs, env_of};
ghost use Rattle.cow_eval.specs.Statements.{IsRunnable, is_free, AreThere};

use crate::both::turn_by;
use crate::env::Env;
use crate::statement::{ask, ask_both, assign, discard, make, show, slice, turn};
use cow_cell::{Holder, Stock};
use cow_model::{NoMemory, Statement};
use cow_value::{Values, literals};
use std::alloc::Global;

// What a statement that reads values does.
fn asking<V: Values<Q>, Q: Stock>(
    statement: &Statement,
    env: &mut Env<V, Q>,
    text: &mut Vec<u8>,
) -> Result<(), NoMemory>
    ensures { Reads (spec.asking (env_of env.old) (out-Statement statement.now))
        env.old env.new text.old.items text.new.items result }
{
    match statement {
        Statement::Count { name, .. }
        | Statement::Get { name, .. }
        | Statement::At { name, .. }
        | Statement::Has { name, .. }
        | Statement::Place { name, .. }
        | Statement::Peek { name, .. } => ask(statement, name.as_slice(), env, text),
        Statement::Subset { name, other, .. }
        | Statement::Disjoint { name, other, .. }
        | Statement::Equal { name, other, .. } => {
            ask_both(statement, name.as_slice(), other.as_slice(), env, text)
        }
        _ => Ok(()),
    }
}

// What a statement that changes a value by another does.
fn changing_by<V: Values<Q>, Q: Stock>(
    statement: &Statement,
    env: &mut Env<V, Q>,
    h: &mut Holder<Q>,
    text: &mut Vec<u8>,
) -> Result<(), NoMemory>
    requires ready { CanAct env.old h.old }
    ensures { Runs V.counted (counted_in V.counted (out-Statement statement.now) ≡ 0)
        (sharing.literals (out-Statement statement.now))
        (spec.changing_by (env_of env.old) (out-Statement statement.now))
        env.old env.new text.old.items text.new.items h.old h.new result }
{
    match statement {
        Statement::Extend { name, other, .. }
        | Statement::Union { name, other, .. }
        | Statement::Inter { name, other, .. }
        | Statement::Minus { name, other, .. }
        | Statement::SymDiff { name, other, .. }
        | Statement::Merge { name, other, .. }
        | Statement::Within { name, other, .. } => {
            turn_by(statement, name.as_slice(), other.as_slice(), env, h, text)
        }
        _ => asking(statement, env, text),
    }
}

// What a statement that changes values does.
fn changing<V: Values<Q>, Q: Stock>(
    alloc: Global,
    statement: &Statement,
    env: &mut Env<V, Q>,
    h: &mut Holder<Q>,
    text: &mut Vec<u8>,
) -> Result<(), NoMemory>
    requires statement { IsRunnable (out-Statement statement.now) }
    requires ready { CanAct env.old h.old }
    ensures { Runs V.counted (counted_in V.counted (out-Statement statement.now) ≡ 0)
        (sharing.literals (out-Statement statement.now))
        (spec.changing (env_of env.old) (out-Statement statement.now))
        env.old env.new text.old.items text.new.items h.old h.new result }
{
    match statement {
        Statement::Append { name, .. }
        | Statement::Prepend { name, .. }
        | Statement::Insert { name, .. }
        | Statement::InsertAt { name, .. }
        | Statement::Update { name, .. }
        | Statement::Remove { name, .. }
        | Statement::RemoveAt { name, .. }
        | Statement::Set { name, .. }
        | Statement::Pop { name, .. }
        | Statement::Replace { name, .. }
        | Statement::Swap { name, .. }
        | Statement::Reverse { name, .. }
        | Statement::Rotate { name, .. }
        | Statement::Splice { name, .. }
        | Statement::Reserve { name, .. }
        | Statement::Clear { name, .. }
        | Statement::Rebase { name, .. }
        | Statement::Put { name, .. } => turn(alloc, statement, name.as_slice(), env, h, text),
        _ => changing_by(statement, env, h, text),
    }
}

// What a statement does once its literals are allowed.
fn act<V: Values<Q>, Q: Stock>(
    alloc: Global,
    statement: &Statement,
    env: &mut Env<V, Q>,
    h: &mut Holder<Q>,
    text: &mut Vec<u8>,
) -> Result<(), NoMemory>
    requires statement { IsRunnable (out-Statement statement.now) }
    requires ready { CanAct env.old h.old }
    ensures there { is_free (out-Statement statement.now) ≡ true →
        AreThere (env_of env.old).names (out-Statement statement.now) → IsOk result }
    ensures least { OnOk result (RisesBy (run.least_layer (env_of env.old) (out-Statement statement.now)) h.old h.new) }
    ensures step { Runs V.counted (IsBareStep V.counted (out-Statement statement.now))
        (sharing.literals (out-Statement statement.now))
        (spec.act (env_of env.old) [] (out-Statement statement.now))
        env.old env.new text.old.items text.new.items h.old h.new result }
{
    match statement {
        Statement::Let {
            name,
            kind,
            atoms,
            ..
        } => {
            let atoms = atoms.as_slice();
            make(alloc, name.as_slice(), *kind, atoms, env, h, text)
        }
        Statement::Assign { name, other, .. } => {
            assign(alloc, name.as_slice(), other.as_slice(), env, h, text)
        }
        Statement::Slice {
            name,
            other,
            i,
            j,
            ..
        } => {
            let other = other.as_slice();
            slice(alloc, name.as_slice(), other, *i, *j, env, h, text)
        }
        Statement::Discard { name, .. } => discard(name.as_slice(), env, h, text),
        Statement::Show { name, .. } => show(name.as_slice(), env, text),
        _ => changing(alloc, statement, env, h, text),
    }
}

/// Runs one statement that is no fork and no give: appends what it prints to `text`, and leaves the environment
/// after it.
///
/// A statement looks at each of the at most 64 names. `let N = M`, a slice and `drop` are one step beside that;
/// a change is linear in the elements at most.
///
/// No more is copied than what is allowed rises by, which is at most 2^22, and a `let` that isn't refused copies its literals. Where
/// no text is held or brought in, spare and the number of names add up to as much as before.
///
/// Errors: `NoMemory` alone. The text is then as it was. Of the environment nothing is said but that it can be
/// ended, and that what it allows covers the copies and is no more than `Ok` would have left.
///
/// The statement is one of a script (`IsRunnable`). A holder with 2^40 units, an environment that allows at most
/// 2^63 copies, and slices that stop below 2^31 meet the other condition.
pub fn run_step<V: Values<Q>, Q: Stock>(
    alloc: Global,
    statement: &Statement,
    env: &mut Env<V, Q>,
    h: &mut Holder<Q>,
    text: &mut Vec<u8>,
) -> Result<(), NoMemory>
    requires statement { IsRunnable (out-Statement statement.now) }
    requires ready { CanRun 1 env.old h.old }
    ensures there { is_free (out-Statement statement.now) ≡ true →
        AreThere (env_of env.old).names (out-Statement statement.now) → IsOk result }
    ensures least { OnOk result (RisesBy (run.least_layer (env_of env.old) (out-Statement statement.now)) h.old h.new) }
    ensures next { (n : ℕ) → CanRun (n + 1) env.old h.old → OnOk result (CanRun n env.new h.new) }
    ensures near { (n : ℕ) → n < 2 ^ 30 → AreNear (n + 1) env.old.names → OnOk result (AreNear n env.new.names) }
    ensures rises { env.new.allowed ≤ env.old.allowed + most_units }
    ensures step { Runs V.counted (IsBareStep V.counted (out-Statement statement.now)) 0
        (spec.step (env_of env.old) [] (out-Statement statement.now))
        env.old env.new text.old.items text.new.items h.old h.new result }
{
    env.allowed += literals(statement) as u64;
    act(alloc, statement, env, h, text)
}
