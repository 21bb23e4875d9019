//! All jobs of a list, by workers that draw them.
ghost use Rattle.std.specs.Prelude.{◌≡◌, ◌<◌, ◌≤◌, All, sum_by, vec_len, IfOk};
ghost use Rattle.cow_crew.specs.Order.{InOrder};
ghost use Rattle.cow_crew.specs.Passes.{IsIdle, IsOver, Works};

use crate::board::Board;
use crate::job::{Gate, Job};
use crate::pass::Pass;
use cow_model::NoMemory;
use std::alloc::Global;
use std::thread;
use std::thread::Threads;

// Draws and serves until a number is past the jobs.
fn work<J: Job, G: Gate>(board: &Board<J>, mut pass: Pass<J>, gate: &G) -> Pass<J>
    requires { IsIdle board.now pass }
    ensures { Works board.now pass result }
{
    while board.draw(&mut pass).is_some() {
        board.serve(&mut pass, gate);
    }
    pass
}

// So many passes. Their parts add up to those of the one that is given.
fn make_passes<J: Job>(
    alloc: Global,
    board: &Board<J>,
    mut pass: Pass<J>,
    count: usize,
) -> Result<Vec<Pass<J>>, NoMemory>
    requires idle { IsIdle board.now pass }
    requires count { (1 ≤ count) × (count < pass.parts) }
    ensures idle { IfOk result (λ v. All (IsIdle board.now) v.items) }
    ensures parts { IfOk result (λ v. sum_by (λ p. p.parts) v.items ≡ pass.parts) }
    ensures some { IfOk result (λ v. 0 < vec_len v) }
{
    let mut all = Vec::with_capacity(alloc, count)?;
    for _made in 1..count {
        let another = board.split(&mut pass);
        all.push(another)?;
    }
    all.push(pass)?;
    Ok(all)
}

// Each pass works in a thread of its own, where one can be made.
fn work_all<R: Threads + Sync, J: Job, G: Gate>(
    rt: &R,
    board: &Board<J>,
    passes: Vec<Pass<J>>,
    gate: &G,
) -> Result<Vec<Pass<J>>, NoMemory>
    requires { All (IsIdle board.now) passes.items }
    ensures { IfOk result (λ v. InOrder (Works board.now) passes.items v.items) }
{
    let done = thread::map_vec(
        rt,
        passes,
        &|pass: Pass<J>| -> Pass<J>
            requires { IsIdle board.now pass }
            ensures { Works board.entry.now pass result }
        { work(board, pass, gate) },
    )?;
    Ok(done)
}

// One pass of passes that have ended.
fn join_all<J: Job>(board: &Board<J>, mut passes: Vec<Pass<J>>) -> Pass<J>
    requires some { 0 < vec_len passes }
    requires over { All (IsOver board.now) passes.items }
    ensures over { IsOver board.now result }
    ensures parts { result.parts ≡ sum_by (λ p. p.parts) passes.items }
{
    let Some(mut whole) = passes.pop() else {
        unreachable!()
    };
    while let Some(pass) = passes.pop() {
        board.join(&mut whole, pass);
    }
    whole
}

/// Runs each job once, on at most `workers` threads, job i after `gate.pass(i)`. The i-th result
/// is one that the i-th job gives.
///
/// Each worker draws its next job when it is done with one, by one atomic step, so none is idle
/// while a job waits to be run. A gate that waits holds up its own worker alone. Where the system
/// has no thread left, a worker runs in a thread that there is. The memory is that of a slot a
/// job, of a pass a worker and of the results.
///
/// `NoMemory` comes for want of memory alone. Jobs that were not run and results are dropped then.
pub fn run_all<R: Threads + Sync, J: Job, G: Gate>(
    rt: &R,
    alloc: Global,
    jobs: Vec<J>,
    workers: u32,
    gate: &G,
) -> Result<Vec<J::Out>, NoMemory>
    requires workers { 1 ≤ workers }
    requires count { vec_len jobs ≤ 65536 }
    ensures { IfOk result (λ outs. InOrder J.gives jobs.items outs.items) }
{
    let count = jobs.len();
    if count == 0 {
        return Ok(Vec::new(alloc));
    }
    let (board, pass) = Board::open(alloc, jobs)?;
    let passes = make_passes(alloc, &board, pass, count.min(workers as usize))?;
    let passes = work_all(rt, &board, passes, gate)?;
    let whole = join_all(&board, passes);
    board.close(whole)
}
