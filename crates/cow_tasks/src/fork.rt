// A fork, from its captures to its join.
ghost use Rattle.std.specs.Prelude.{◌≡◌, ℕ, ◌≤◌, ◌+◌, [], All, true, OnOk};
ghost use Rattle.cow_model.specs.Atoms.{IsBareTask};
ghost use Rattle.cow_model.specs.Fork.{fork_in};
ghost use Rattle.cow_model.specs.Fronts.{GrowsWithin};
ghost use Rattle.cow_eval.specs.Envs.{CanRun, env_of};
ghost use Rattle.cow_tasks.specs.Blocks.{AreRunnable, HasParts, Performs, count_tasks};

use crate::captures::make_tasks;
use crate::join::{assign_all, join_all};
use cow_cell::{Holder, Stock};
use cow_crew::{Gate, run_all};
use cow_eval::Env;
use cow_model::{NoMemory, TaskBlock};
use cow_value::Values;
use std::alloc::Global;
use std::thread::Threads;

/// `fork`, its tasks and its `end`.
///
/// The captures are made in written order; then the tasks run, on at most `workers` threads; then the parent takes
/// their texts and what they give, in the tasks' order. Each task's holder has the parent's spare divided by the
/// number of tasks and one.
///
/// Errors: `NoMemory` alone. The text then grew by a front of what `Ok` would have printed.
pub fn fork<R: Threads + Sync, V: Values<Q> + Send, Q: Stock + Send + Sync, G: Gate>(
    rt: &R,
    alloc: Global,
    blocks: &[TaskBlock],
    env: &mut Env<V, Q>,
    gate: &G,
    workers: u32,
    h: &mut Holder<Q>,
    text: &mut Vec<u8>,
) -> Result<(), NoMemory>
    requires tasks { AreRunnable blocks.now }
    requires workers { 1 ≤ workers }
    requires ready { CanRun (1 + count_tasks blocks.now) env.old h.old }
    requires parts { HasParts (1 + count_tasks blocks.now) h.old }
    ensures next { (n : ℕ) → CanRun (n + (1 + count_tasks blocks.now)) env.old h.old → OnOk result (CanRun n env.new h.new) }
    ensures step { Performs V.counted (All (IsBareTask V.counted) blocks.now) true (1 + count_tasks blocks.now)
        (fork_in (env_of env.old) [] blocks.now)
        (GrowsWithin text.old.items text.new.items (fork_in (env_of env.old) [] blocks.now).text)
        env.old env.new text.old.items text.new.items h.old h.new result }
{
    let share = h.spare() / (blocks.len() as u64 + 1);
    let tasks = make_tasks(alloc, blocks, share, env, h, text)?;
    let outs = run_all(rt, alloc, tasks, workers, gate)?;
    let gives = join_all(alloc, outs, env, h, text)?;
    assign_all(gives, env, h, text)
}
