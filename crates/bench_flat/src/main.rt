//! What the calls of a deque, a heap, an ordered set and an ordered dictionary cost. `bench/flat.sh` counts this program's
//! instructions and times it beside `bench/std_flat.rs`, which does the same over collections of Rust's standard library and
//! of `indexmap`; no gate does.
//!
//! `bench_flat WORKLOAD KEYS SIZE ROUNDS` runs a workload over collections of SIZE numbers and prints a number that shows what
//! was done. With no words it runs each on a small collection. The files of the four kinds tell their workloads.
//!
//! KEYS are `row`, numbers that follow each other, or `scattered`, the same multiplied.
#![tactic(auto)]

ghost use Rattle.std.specs.Prelude.{◌≡◌, ◌≤◌, ◌^◌, OnOk};
ghost use Rattle.cow_cell.specs.Opens.{Opens};

use cow_cell::{Holder, Opening, Stock};
use cow_model::NoMemory;
use std::alloc::Global;
use std::io;
use std::marker::Brand;

mod deque;
mod dictionary;
mod heap;
mod set;

/// The most elements of a collection here.
const MOST: usize = 0x10_0000;

/// Units enough for any change here.
const ENOUGH: u64 = 0x100_0000_0000;

/// How many steps a round has whose steps are linear in the size.
const STEPS: usize = 100;

/// What can be run.
#[derive(Clone, Copy)]
enum Workload {
    Deque(deque::Workload),
    Heap(heap::Workload),
    Set(set::Workload),
    Dictionary(dictionary::Workload),
}

/// The workloads, each with its word.
const WORKLOADS: [(&str, Workload); 38] = [
    ("deque-append", Workload::Deque(deque::Workload::Append)),
    ("deque-prepend", Workload::Deque(deque::Workload::Prepend)),
    (
        "deque-pop-first",
        Workload::Deque(deque::Workload::PopFirst),
    ),
    ("deque-pop-last", Workload::Deque(deque::Workload::PopLast)),
    ("deque-queue", Workload::Deque(deque::Workload::Queue)),
    ("deque-rotate", Workload::Deque(deque::Workload::Rotate)),
    ("deque-insert", Workload::Deque(deque::Workload::Insert)),
    ("deque-remove", Workload::Deque(deque::Workload::Remove)),
    ("deque-get", Workload::Deque(deque::Workload::Get)),
    ("deque-walk", Workload::Deque(deque::Workload::Walk)),
    ("deque-copy", Workload::Deque(deque::Workload::Copy)),
    ("heap-insert", Workload::Heap(heap::Workload::Insert)),
    ("heap-ends", Workload::Heap(heap::Workload::Ends)),
    ("heap-pop-min", Workload::Heap(heap::Workload::PopMin)),
    ("heap-pop-max", Workload::Heap(heap::Workload::PopMax)),
    ("heap-build", Workload::Heap(heap::Workload::Build)),
    (
        "heap-replace-min",
        Workload::Heap(heap::Workload::ReplaceMin),
    ),
    (
        "heap-replace-max",
        Workload::Heap(heap::Workload::ReplaceMax),
    ),
    ("heap-copy", Workload::Heap(heap::Workload::Copy)),
    ("oset-append", Workload::Set(set::Workload::Append)),
    ("oset-find", Workload::Set(set::Workload::Find)),
    ("oset-miss", Workload::Set(set::Workload::Miss)),
    ("oset-index-of", Workload::Set(set::Workload::IndexOf)),
    ("oset-at", Workload::Set(set::Workload::At)),
    ("oset-pop", Workload::Set(set::Workload::Pop)),
    ("oset-remove", Workload::Set(set::Workload::Remove)),
    ("oset-insert", Workload::Set(set::Workload::Insert)),
    ("oset-union", Workload::Set(set::Workload::Union)),
    (
        "oset-intersection",
        Workload::Set(set::Workload::Intersection),
    ),
    ("oset-copy", Workload::Set(set::Workload::Copy)),
    ("odict-put", Workload::Dictionary(dictionary::Workload::Put)),
    ("odict-get", Workload::Dictionary(dictionary::Workload::Get)),
    (
        "odict-miss",
        Workload::Dictionary(dictionary::Workload::Miss),
    ),
    (
        "odict-update",
        Workload::Dictionary(dictionary::Workload::Update),
    ),
    ("odict-pop", Workload::Dictionary(dictionary::Workload::Pop)),
    (
        "odict-remove",
        Workload::Dictionary(dictionary::Workload::Remove),
    ),
    (
        "odict-walk",
        Workload::Dictionary(dictionary::Workload::Walk),
    ),
    (
        "odict-copy",
        Workload::Dictionary(dictionary::Workload::Copy),
    ),
];

/// The kinds of keys, each with its word and with what the numbers from 0 on are multiplied by.
const KEYS: [(&str, u64); 2] = [("row", 1), ("scattered", 0x9e37_79b9_7f4a_7c15)];

/// Over how many numbers of which kind a workload is run, and how often.
#[derive(Clone, Copy)]
struct Task {
    scale: u64,
    size: usize,
    rounds: u64,
}

impl Task {
    /// The `i`-th number.
    #[inline]
    fn number(self, i: usize) -> i64 {
        (i as u64).wrapping_mul(self.scale).cast_signed()
    }
}

/// Lets a change be made, of a collection of so many elements: there are units enough for it. It always does.
#[inline]
fn ready<Q: Stock>(count: usize, h: &Holder<Q>) -> Result<(), NoMemory>
    ensures small { OnOk result (count ≤ 2 ^ 20) }
    ensures spare { OnOk result (2 ^ 40 ≤ h.now.spare) }
{
    if count <= MOST && ENOUGH <= h.spare() {
        Ok(())
    } else {
        Err(NoMemory)
    }
}

/// Runs a workload on a stock of its own.
fn run<Q: Stock>(
    alloc: Global,
    opening: Opening,
    workload: Workload,
    task: Task,
) -> Result<i64, NoMemory>
    requires opens { Opens Q.Stock opening }
{
    let mut h = Holder::<Q>::fresh(opening);
    match workload {
        Workload::Deque(workload) => deque::run(alloc, workload, task, &mut h),
        Workload::Heap(workload) => heap::run(alloc, workload, task, &mut h),
        Workload::Set(workload) => set::run(alloc, workload, task, &mut h),
        Workload::Dictionary(workload) => dictionary::run(alloc, workload, task, &mut h),
    }
}

/// Runs one workload and prints what it answers.
fn report<R: Alloc<A = Global> + Print>(
    rt: &R,
    words: (&str, &str),
    workload: Workload,
    task: Task,
) -> io::Result<()> {
    let (word, kind) = words;
    match run::<Brand>(rt.alloc(), Opening::new(), workload, task) {
        Ok(n) => println!(rt; "{word} {kind} {n}"),
        Err(NoMemory) => println!(rt; "{word} {kind}: no memory"),
    }
}

/// Runs each workload that the words ask for; each of them, on a small collection, where they ask for none.
fn main(rt: HostRuntime) -> io::Result<()> {
    let words: Vec<String> = std::env::args(&rt)?.collect(rt.alloc())?;
    for (word, workload) in WORKLOADS {
        for (kind, scale) in KEYS {
            if let [_, asked, which, size, rounds] = words.as_slice() {
                if word == asked.as_str() && kind == which.as_str() {
                    let size = size.as_str().parse::<usize>().unwrap_or(0).min(MOST / 2);
                    let rounds = rounds.as_str().parse::<u64>().unwrap_or(0);
                    let task = Task {
                        scale,
                        size,
                        rounds,
                    };
                    report(&rt, (word, kind), workload, task)?;
                }
            } else {
                let task = Task {
                    scale,
                    size: 10,
                    rounds: 3,
                };
                report(&rt, (word, kind), workload, task)?;
            }
        }
    }
    Ok(())
}
