// Statements and blocks of the whole language.
ghost use Rattle.std.specs.Prelude.{◌≡◌, ℕ, ◌≤◌, ◌+◌, ◌*◌, ◌^◌, true, map, All, IsOk, OnOk};
ghost use Rattle.cow_model.specs.Atoms.{IsBareLayer, IsBareBlock};
ghost use Rattle.cow_model.specs.Fronts.{GrowsWithin};
ghost use Rattle.cow_model.specs.Purse.{RisesBy};
ghost use Rattle.cow_model.specs.Run as run;
ghost use Rattle.cow_model.specs.declared.statement.Statement.{out-Statement};
ghost use Rattle.cow_views.specs.Asks.{asks_from, asks_layer, raised_by};
ghost use Rattle.cow_eval.specs.Envs.{CanRun, env_of};
ghost use Rattle.cow_eval.specs.Statements.{is_free, AreThere};
ghost use Rattle.cow_tasks.specs.Blocks.{IsRunnableLayer, HasParts, Performs, count_of, count_in, is_fork, has_fork, stays_of, outcome_of};

use crate::fork::fork;
use cow_cell::{Holder, Stock};
use cow_crew::Gate;
use cow_eval::{Env, look, run_step};
use cow_model::{NoMemory, Statement};
use cow_rule::Rule;
use cow_views::Views;
use std::alloc::Global;
use std::thread::Threads;

/// Runs one statement that is no give: appends what it prints to `text`, and leaves the environment after it. The
/// tasks of a fork run on at most `workers` threads, task i after `gate.pass(i)`. A lazy statement names one of the
/// rules by its place; no call changes a rule's shape.
///
/// A statement looks at each of the at most 64 names. `let N = M`, a slice and `drop` are one step beside that;
/// a change and a lazy statement are linear in the elements at most. A fork is a step for each capture, and its tasks' statements.
///
/// No more is copied than what is allowed rises by, on whatever thread, and a `let` that isn't refused copies its
/// literals. Where no text is held or brought in, spare and the number of names add up to as much as before.
///
/// Errors: `NoMemory` alone. The text is then as it was; of a fork it grew by a front of what `Ok` would have
/// printed. Of the environment nothing is said but that it can be ended, and that what it allows covers the copies
/// and is no more than `Ok` would have left.
///
/// The statement is one of a script (`IsRunnableLayer`). With n statements, those of tasks counted, a holder with
/// 2^40 units and 2^22 for each, and of a fork 17 times that, an environment that allows at most 2^62 copies, and
/// slices that stop n places below 2^31 meet the other conditions.
pub fn run_statement<R: Threads + Sync, V: Views<Q> + Send, Q: Stock + Send + Sync, G: Gate>(
    rt: &R,
    alloc: Global,
    statement: &Statement,
    env: &mut Env<V, Q>,
    rules: &mut Vec<Box<dyn Rule>>,
    gate: &G,
    workers: u32,
    h: &mut Holder<Q>,
    text: &mut Vec<u8>,
) -> Result<(), NoMemory>
    requires statement { IsRunnableLayer (out-Statement statement.now) }
    requires workers { 1 ≤ workers }
    requires ready { CanRun (count_of (out-Statement statement.now)) env.old h.old }
    requires parts { is_fork (out-Statement statement.now) ≡ true →
        HasParts (count_of (out-Statement statement.now)) h.old }
    ensures there { is_free (out-Statement statement.now) ≡ true →
        AreThere (env_of env.old).names (out-Statement statement.now) → IsOk result }
    ensures least { OnOk result (RisesBy (run.least_layer (env_of env.old) (out-Statement statement.now)) h.old h.new) }
    ensures next { (n : ℕ) → CanRun (n + count_of (out-Statement statement.now)) env.old h.old →
        OnOk result (CanRun n env.new h.new) }
    ensures shapes { map shape_of rules.new.items ≡ map shape_of rules.old.items }
    ensures asked { OnOk result (map asked_of rules.new.items ≡ raised_by
        (λ k. asks_layer (env_of env.old) (map shape_of rules.old.items) k (out-Statement statement.now))
        (map asked_of rules.old.items)) }
    ensures step { Performs V.counted (IsBareLayer V.counted (out-Statement statement.now))
        (is_fork (out-Statement statement.now)) (count_of (out-Statement statement.now))
        (run.run_one (env_of env.old) (map shape_of rules.old.items) statement.now)
        (stays_of (out-Statement statement.now)
        (run.run_one (env_of env.old) (map shape_of rules.old.items) statement.now)
        text.old.items text.new.items)
        env.old env.new text.old.items text.new.items h.old h.new result }
{
    match statement {
        Statement::Fork { tasks, .. } => {
            fork(rt, alloc, tasks.as_slice(), env, gate, workers, h, text)
        }
        Statement::Lazy { name, i, verb, .. } => {
            look(alloc, name.as_slice(), *i, *verb, env, rules, h, text)
        }
        _ => run_step(alloc, statement, env, h, text),
    }
}

/// Runs statements in turn: appends what they print to `text`, and leaves the environment after them.
///
/// Copies and units move as by `run_statement`, added up.
///
/// Errors: `NoMemory` alone. The text then grew by a front of what `Ok` would have printed.
///
/// The statements are those of the main block of a script (`IsRunnableLayer`), at most 2^30 with those of tasks. The
/// other conditions are those of `run_statement`, for all of them.
pub fn run_block<R: Threads + Sync, V: Views<Q> + Send, Q: Stock + Send + Sync, G: Gate>(
    rt: &R,
    alloc: Global,
    block: &[Statement],
    env: &mut Env<V, Q>,
    rules: &mut Vec<Box<dyn Rule>>,
    gate: &G,
    workers: u32,
    h: &mut Holder<Q>,
    text: &mut Vec<u8>,
) -> Result<(), NoMemory>
    requires block { All (λ s. IsRunnableLayer (out-Statement s)) block.now }
    requires workers { 1 ≤ workers }
    requires ready { CanRun (count_in block.now) env.old h.old }
    requires parts { has_fork block.now ≡ true → HasParts (count_in block.now) h.old }
    ensures least { OnOk result
        (RisesBy (run.least_from (env_of env.old) (map shape_of rules.old.items) block.now) h.old h.new) }
    ensures shapes { map shape_of rules.new.items ≡ map shape_of rules.old.items }
    ensures asked { OnOk result (map asked_of rules.new.items ≡ raised_by
        (λ k. asks_from (env_of env.old) (map shape_of rules.old.items) k block.now)
        (map asked_of rules.old.items)) }
    ensures steps { Performs V.counted (IsBareBlock V.counted block.now) (has_fork block.now) (count_in block.now)
        (outcome_of (env_of env.old) (map shape_of rules.old.items) block.now)
        (GrowsWithin text.old.items text.new.items
        (run.text_from (env_of env.old) (map shape_of rules.old.items) block.now))
        env.old env.new text.old.items text.new.items h.old h.new result }
{
    for statement in block {
        run_statement(rt, alloc, statement, env, rules, gate, workers, h, text)?;
    }
    Ok(())
}
