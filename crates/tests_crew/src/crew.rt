//! What no clause says: that memory suffices, that workers run jobs at the same time, that no job
//! waits behind another one's gate, and that a job runs after its own.
ghost use Rattle.std.specs.Prelude.{◌≡◌, ◌≤◌, vec_len, IsTrue};
ghost use Rattle.cow_crew.specs.Passes.{IsOf, HasEnded, MayDraw};

use cow_crew::{Board, Gate, Job, OpenGate, Pass, run_all};
use cow_model::NoMemory;
use std::alloc::{AllocError, Global};
use std::sync::atomic::{AtomicU64, Ordering};
use std::test::Fail;

/// A job that answers its own number.
#[derive(Drop)]
struct Number(u64);

impl Job for Number {
    type Out = u64;

    ghost gives = { λ j x. x ≡ j.0 };

    fn run(self) -> u64 {
        self.0
    }
}

/// Jobs that answer the numbers from `first` on.
fn numbers(alloc: Global, first: u64, count: usize) -> Result<Vec<Number>, AllocError> {
    let mut jobs = Vec::with_capacity(alloc, count)?;
    for i in 0..count {
        jobs.push(Number(first.saturating_add(i as u64)))?;
    }
    Ok(jobs)
}

#[test]
fn three_jobs_answer_in_order(rt: HostRuntime) -> Result<(), Fail> {
    for workers in [1u32, 2, 8, 64] {
        let jobs = numbers(rt.alloc(), 7, 3)?;
        assert!(rt; jobs.len() <= 65536);
        let outs = run_all(&rt, rt.alloc(), jobs, workers, &OpenGate).ok();
        assert!(rt;
            outs.is_some_and(|outs| outs.as_slice() == [7, 8, 9].as_slice()),
            "at {workers} workers"
        );
    }
    Ok(())
}

#[test]
fn a_thousand_jobs_answer_in_order(rt: HostRuntime) -> Result<(), Fail> {
    for workers in [1u32, 3, 64] {
        let jobs = numbers(rt.alloc(), 0, 1000)?;
        assert!(rt; jobs.len() <= 65536);
        let Ok(outs) = run_all(&rt, rt.alloc(), jobs, workers, &OpenGate) else {
            assert!(rt; false, "no memory at {workers} workers");
            return Ok(());
        };
        assert_eq!(rt; outs.len(), 1000);
        for (i, out) in outs.iter().enumerate() {
            assert_eq!(rt; *out, i as u64, "at {workers} workers");
        }
    }
    Ok(())
}

#[test]
fn no_jobs_have_no_results(rt: HostRuntime) -> Result<(), Fail> {
    let jobs: Vec<Number> = Vec::new(rt.alloc());
    let outs = run_all(&rt, rt.alloc(), jobs, 5, &OpenGate);
    assert!(rt; outs.is_ok_and(|outs| outs.is_empty()));
    Ok(())
}

/// Whether a pass draws 0, 1 and 2, and then None. It serves what it draws.
fn serves_three(board: &Board<Number>, pass: &mut Pass<Number>) -> bool
    requires of { IsOf board.now pass.old }
    requires ready { MayDraw pass.old }
    ensures of { IsOf board.now pass.new }
    ensures parts { pass.new.parts ≡ pass.old.parts }
    ensures over { IsTrue result → HasEnded pass.new }
{
    for number in 0..3u32 {
        let Some(found) = board.draw(pass) else {
            return false;
        };
        if found != number {
            return false;
        }
        board.serve(pass, &OpenGate);
    }
    board.draw(pass).is_none()
}

/// The results of a board that one pass serves so.
fn served_alone(alloc: Global, jobs: Vec<Number>) -> Result<Option<Vec<u64>>, NoMemory>
    requires some { 1 ≤ vec_len jobs }
    requires few { vec_len jobs ≤ 65536 }
{
    let (board, mut pass) = Board::open(alloc, jobs)?;
    if serves_three(&board, &mut pass) {
        Ok(Some(board.close(pass)?))
    } else {
        Ok(None)
    }
}

#[test]
fn one_pass_serves_three_jobs_and_closes_its_board(rt: HostRuntime) -> Result<(), Fail> {
    let jobs = numbers(rt.alloc(), 7, 3)?;
    assert!(rt; jobs.len() == 3);
    let outs = served_alone(rt.alloc(), jobs).ok().flatten();
    assert!(rt; outs.is_some_and(|outs| outs.as_slice() == [7, 8, 9].as_slice()));
    Ok(())
}

/// A gate where one job waits, for a while, until both others have come to theirs.
#[derive(Drop)]
struct Late {
    late: u32,
    came: [AtomicU64; 3],
    ran_out: AtomicU64,
}

impl Late {
    fn new(late: u32) -> Late {
        Late {
            late,
            came: [AtomicU64::new(0), AtomicU64::new(0), AtomicU64::new(0)],
            ran_out: AtomicU64::new(0),
        }
    }

    /// Whether all jobs but this one have come.
    fn others_came(&self, task: u32) -> bool {
        for (other, came) in self.came.iter().enumerate() {
            if other as u32 != task && came.load(Ordering::SeqCst) == 0 {
                return false;
            }
        }
        true
    }
}

impl Gate for Late {
    fn pass(&self, task: u32) {
        if task >= 3 {
            return;
        }
        if task != self.late {
            self.came[task as usize].store(1, Ordering::SeqCst);
            return;
        }
        for _ in 0..268_435_456u32 {
            if self.others_came(task) {
                return;
            }
        }
        self.ran_out.store(1, Ordering::SeqCst);
    }
}

#[test]
fn two_workers_serve_two_jobs_while_a_third_waits(rt: HostRuntime) -> Result<(), Fail> {
    for late in 0..3u32 {
        let gate = Late::new(late);
        let jobs = numbers(rt.alloc(), 4, 3)?;
        assert!(rt; jobs.len() <= 65536);
        let outs = run_all(&rt, rt.alloc(), jobs, 2, &gate).ok();
        assert!(rt;
            outs.is_some_and(|outs| outs.as_slice() == [4, 5, 6].as_slice()),
            "job {late} late"
        );
        assert_eq!(rt; gate.ran_out.load(Ordering::SeqCst), 0, "job {late} late");
    }
    Ok(())
}

/// A gate that counts how often each job passes.
#[derive(Drop)]
struct Counting<'a> {
    passes: &'a [AtomicU64],
}

impl<'a> Gate for Counting<'a> {
    fn pass(&self, task: u32) {
        if let Some(passes) = self.passes.get(task as usize) {
            passes.fetch_add(1, Ordering::SeqCst);
        }
    }
}

/// A job that answers how often its gate was passed.
#[derive(Drop)]
struct Passed<'a> {
    passes: &'a AtomicU64,
}

impl<'a> Job for Passed<'a> {
    type Out = u64;

    ghost gives = { λ j x. Unit {0} };

    fn run(self) -> u64 {
        self.passes.load(Ordering::SeqCst)
    }
}

#[test]
fn each_job_runs_once_after_its_gate(rt: HostRuntime) -> Result<(), Fail> {
    let mut passes = Vec::new(rt.alloc());
    for _ in 0..200usize {
        passes.push(AtomicU64::new(0))?;
    }
    let mut jobs = Vec::new(rt.alloc());
    for passes in passes.iter() {
        jobs.push(Passed { passes })?;
    }
    let gate = Counting {
        passes: passes.as_slice(),
    };
    assert!(rt; jobs.len() <= 65536);
    let Ok(outs) = run_all(&rt, rt.alloc(), jobs, 3, &gate) else {
        assert!(rt; false, "no memory");
        return Ok(());
    };
    assert_eq!(rt; outs.len(), 200);
    for out in outs.iter() {
        assert_eq!(rt; *out, 1);
    }
    for passes in passes.iter() {
        assert_eq!(rt; passes.load(Ordering::SeqCst), 1);
    }
    Ok(())
}
