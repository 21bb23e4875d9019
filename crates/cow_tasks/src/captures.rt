// Captures: what tasks are given by their parent.
ghost use Rattle.std.specs.Prelude.{◌≡◌, ◌≤◌, ◌+◌, ◌*◌, length, [], All, IfOk, OnErr};
ghost use Rattle.cow_model.specs.Fork.{captured, captured_all, forked};
ghost use Rattle.cow_model.specs.Fronts.{IsFrontOf};
ghost use Rattle.cow_model.specs.Purse.{part};
ghost use Rattle.cow_model.specs.declared.statement.TaskBlock.{out-TaskBlock};
ghost use Rattle.cow_eval.specs.Envs.{CanRun, entry_in};
ghost use Rattle.cow_tasks.specs.Blocks.{IsRunnableTask, captures_in, statements_in, count_tasks, count_captures};
ghost use Rattle.cow_tasks.specs.Captures.{Captures, Free, MakesOne, Makes, captured_at, captured_start, copying, moving, forked_at};

use crate::task::Task;
use cow_cell::{Holder, Stock};
use cow_eval::{Env, refuse};
use cow_model::{Capture, NoMemory, Refusal, TaskBlock};
use cow_value::Values;
use std::alloc::Global;

// A capture of a second whole value.
fn capture_copy<V: Values<Q>, Q: Stock>(
    alloc: Global,
    name: &[u8],
    parent: &mut Env<V, Q>,
    task: &mut Env<V, Q>,
    h: &mut Holder<Q>,
    text: &mut Vec<u8>,
) -> Result<(), NoMemory>
    requires spare { 1 ≤ h.old.spare }
    ensures { Captures V.counted 1
        (captured (captured_at parent.old task.old text.old.items) (copying name.now) (entry_in name.now parent.old))
        parent.old parent.new task.old task.new text.old.items text.new.items h.old h.new result }
{
    match parent.lend(alloc, name, h)? {
        Some(entry) => task.accept(entry, h),
        None => refuse(text, Refusal::NoName),
    }
}

// A capture of the whole value, which leaves the parent.
fn capture_whole<V: Values<Q>, Q: Stock>(
    name: &[u8],
    parent: &mut Env<V, Q>,
    task: &mut Env<V, Q>,
    h: &mut Holder<Q>,
    text: &mut Vec<u8>,
) -> Result<(), NoMemory>
    ensures { Captures V.counted 1
        (captured (captured_at parent.old task.old text.old.items) (moving name.now) (entry_in name.now parent.old))
        parent.old parent.new task.old task.new text.old.items text.new.items h.old h.new result }
{
    match parent.take(name) {
        Some(entry) => task.accept(entry, h),
        None => refuse(text, Refusal::NoName),
    }
}

// One capture of a task.
fn capture<V: Values<Q>, Q: Stock>(
    alloc: Global,
    capture: &Capture,
    parent: &mut Env<V, Q>,
    task: &mut Env<V, Q>,
    h: &mut Holder<Q>,
    text: &mut Vec<u8>,
) -> Result<(), NoMemory>
    requires spare { 1 ≤ h.old.spare }
    ensures { Captures V.counted 1
        (captured (captured_at parent.old task.old text.old.items) capture.now
        (entry_in capture.now.name parent.old))
        parent.old parent.new task.old task.new text.old.items text.new.items h.old h.new result }
{
    let name = capture.name.as_slice();
    if capture.moves {
        capture_whole(name, parent, task, h, text)
    } else {
        capture_copy(alloc, name, parent, task, h, text)
    }
}

// The captures of a task in turn.
fn capture_all<V: Values<Q>, Q: Stock>(
    alloc: Global,
    captures: &[Capture],
    parent: &mut Env<V, Q>,
    task: &mut Env<V, Q>,
    h: &mut Holder<Q>,
    text: &mut Vec<u8>,
) -> Result<(), NoMemory>
    requires spare { length captures.now ≤ h.old.spare }
    ensures { Captures V.counted (length captures.now)
        (captured_all (captured_at parent.old task.old text.old.items) captures.now)
        parent.old parent.new task.old task.new text.old.items text.new.items h.old h.new result }
{
    for one in captures {
        capture(alloc, one, parent, task, h, text)?;
    }
    Ok(())
}

// A task with its captures, and so many units of its parent's holder.
fn make_task<'s, V: Values<Q>, Q: Stock>(
    alloc: Global,
    block: &'s TaskBlock,
    share: u64,
    parent: &mut Env<V, Q>,
    h: &mut Holder<Q>,
    text: &mut Vec<u8>,
) -> Result<Task<'s, V, Q>, NoMemory>
    requires block { IsRunnableTask block.now }
    requires ready { CanRun (length (statements_in block.now)) parent.old (part share) }
    requires units { share + captures_in block.now ≤ h.old.spare }
    ensures makes { IfOk result (MakesOne V.counted share (captures_in block.now)
        (captured_all (captured_start parent.old text.old.items) (out-TaskBlock block.now).captures)
        parent.old parent.new text.old.items text.new.items h.old h.new) }
    ensures statements { IfOk result (λ t. t.statements ≡ statements_in block.now) }
    ensures kept { OnErr result (IsFrontOf text.new.items
        (captured_all (captured_start parent.old text.old.items) (out-TaskBlock block.now).captures).text) }
    ensures free { Free parent.old parent.new text.old.items text.new.items h.old h.new }
{
    let mut env = Env::new(alloc);
    capture_all(alloc, block.captures.as_slice(), parent, &mut env, h, text)?;
    Ok(Task {
        statements: block.statements.as_slice(),
        env,
        h: h.split(share),
        alloc,
    })
}

/// The tasks of a fork, each with its captures and with so many units of the parent's holder.
///
/// A copy is one step, and so is a value that moves; each name is looked for among the at most 64. A name that isn't
/// there is told.
///
/// Errors: `NoMemory` alone. The tasks that were made are dropped then.
pub fn make_tasks<'s, V: Values<Q>, Q: Stock>(
    alloc: Global,
    blocks: &'s [TaskBlock],
    share: u64,
    parent: &mut Env<V, Q>,
    h: &mut Holder<Q>,
    text: &mut Vec<u8>,
) -> Result<Vec<Task<'s, V, Q>>, NoMemory>
    requires blocks { All IsRunnableTask blocks.now }
    requires ready { CanRun (count_tasks blocks.now) parent.old (part share) }
    requires units { share * length blocks.now + count_captures blocks.now ≤ h.old.spare }
    ensures makes { IfOk result (λ tasks. Makes V.counted share blocks.now
        parent.old parent.new text.old.items text.new.items h.old h.new tasks.items) }
    ensures kept { OnErr result (IsFrontOf text.new.items
        (forked (forked_at parent.old [] text.old.items) blocks.now).text) }
    ensures free { Free parent.old parent.new text.old.items text.new.items h.old h.new }
{
    let mut tasks = Vec::new(alloc);
    for block in blocks {
        let task = make_task(alloc, block, share, parent, h, text)?;
        tasks.push(task)?;
    }
    Ok(tasks)
}
