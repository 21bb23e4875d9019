//! Worked rows of forks, on several numbers of workers and through a gate that shows two at once.
use crate::lines::lines;
use crate::program::run_through;
use cow_crew::{Gate, OpenGate};
use cow_run::Status;
use std::alloc::Global;
use std::sync::atomic::{AtomicU64, Ordering};
use std::test::Fail;
use std::thread::Threads;

/// The words of a run, by the number of its workers.
const WORKERS: [&[&str]; 4] = [
    &["run", "--workers", "1"],
    &["run", "--workers", "2"],
    &["run", "--workers", "8"],
    &["run", "--workers", "64"],
];

/// The same words, each with the census.
const CENSUSES: [&[&str]; 4] = [
    &["run", "--workers", "1", "--census"],
    &["run", "--workers", "2", "--census"],
    &["run", "--workers", "8", "--census"],
    &["run", "--workers", "64", "--census"],
];

/// Two tasks change a copy each of the same array.
const TWO_COPIES: &str =
    "let a = array 1 / fork / task copy a / append a 2 / show a / give a as b / end / task copy a / append a 3 / show a / give a as c / end / end / show a / show b / show c";

const TWO_COPIES_TEXT: &str = "[1, 2] / [1, 3] / [1] / [1, 2] / [1, 3]";

/// One task changes a copy of an array, and the other one takes it.
const COPY_TAKE: &str =
    "let c = array 1 2 / fork / task copy c / append c 3 / show c / end / task take c / append c 4 / show c / end / end / show c";

/// Its texts: either task may find the storage unique.
const COPY_TAKE_TEXTS: [&str; 2] = [
    "[1, 2, 3] / [1, 2, 4] / ! no name / copied 6 of at most 8",
    "[1, 2, 3] / [1, 2, 4] / ! no name / copied 8 of at most 8",
];

/// Whether a run of a row ends well and prints one of these texts.
fn prints<R: Threads + Sync, G: Gate>(
    rt: &R,
    alloc: Global,
    words: &[&str],
    row: &str,
    texts: &[&str],
    gate: &G,
) -> Result<bool, Fail> {
    let script = lines(alloc, row)?;
    let ran = run_through(rt, alloc, words, script.as_slice(), gate)?;
    if ran.ended.status != Status::Ok {
        return Ok(false);
    }
    for text in texts {
        if lines(alloc, text)?.as_slice() == ran.text.as_slice() {
            return Ok(true);
        }
    }
    Ok(false)
}

#[test]
fn two_tasks_change_copies_of_their_own(rt: HostRuntime) -> Result<(), Fail> {
    for words in WORKERS {
        let is_as_told = prints(
            &rt,
            rt.alloc(),
            words,
            TWO_COPIES,
            &[TWO_COPIES_TEXT],
            &OpenGate,
        )?;
        assert!(rt; is_as_told, "by {words:?}");
    }
    Ok(())
}

#[test]
fn a_value_is_copied_by_one_task_and_taken_by_another(rt: HostRuntime) -> Result<(), Fail> {
    for words in CENSUSES {
        let is_as_told = prints(
            &rt,
            rt.alloc(),
            words,
            COPY_TAKE,
            &COPY_TAKE_TEXTS,
            &OpenGate,
        )?;
        assert!(rt; is_as_told, "by {words:?}");
    }
    Ok(())
}

/// A gate where task 0 waits, for a while, until task 1 has come to its own.
#[derive(Drop)]
struct SecondFirst {
    came: AtomicU64,
    ran_out: AtomicU64,
}

impl Gate for SecondFirst {
    fn pass(&self, task: u32) {
        if task != 0 {
            self.came.store(1, Ordering::SeqCst);
            return;
        }
        for _ in 0..268_435_456u32 {
            if self.came.load(Ordering::SeqCst) != 0 {
                return;
            }
        }
        self.ran_out.store(1, Ordering::SeqCst);
    }
}

#[test]
fn two_workers_run_two_tasks_at_once(rt: HostRuntime) -> Result<(), Fail> {
    let gate = SecondFirst {
        came: AtomicU64::new(0),
        ran_out: AtomicU64::new(0),
    };
    let words = &["run", "--workers", "2"];
    assert!(rt;
        prints(
            &rt,
            rt.alloc(),
            words,
            TWO_COPIES,
            &[TWO_COPIES_TEXT],
            &gate
        )?
    );
    assert_eq!(rt; gate.ran_out.load(Ordering::SeqCst), 0);
    Ok(())
}
