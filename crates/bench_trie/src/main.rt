//! What the calls of a tree dictionary cost. `bench/tries.sh` counts this program's instructions and times it beside
//! `bench/std_tries.rs`, which does the same over the hash maps of `im` and of Rust's standard library; no gate does.
//!
//! `bench_trie WORKLOAD KEYS SIZE ROUNDS` runs a workload over trees of SIZE pairs of numbers and prints a number that shows
//! what was done. With no words it runs each on a small tree. `workload` tells the workloads.
//!
//! KEYS are `row`, numbers that follow each other, or `scattered`, the same multiplied.
#![tactic(auto)]

ghost use Rattle.std.specs.Prelude.{◌≡◌, ◌≤◌, ◌^◌, OnOk};
ghost use Rattle.cow_cell.specs.Opens.{Opens};

use cow_cell::{Holder, Opening, Stock};
use cow_levels::over_levels;
use cow_model::NoMemory;
use std::alloc::Global;
use std::io;
use std::marker::Brand;

mod workload;

use workload::{Bench, Workload};

/// The most pairs of a tree here.
const MOST: usize = 0x10_0000;

/// Units enough for any change here.
const ENOUGH: u64 = 0x100_0000_0000;

/// The workloads, each with its word.
const WORKLOADS: [(&str, Workload); 9] = [
    ("build", Workload::Build),
    ("put", Workload::Put),
    ("remove", Workload::Remove),
    ("update", Workload::Update),
    ("copy", Workload::Copy),
    ("lend", Workload::Lend),
    ("find", Workload::Find),
    ("miss", Workload::Miss),
    ("walk", Workload::Walk),
];

/// The kinds of keys, each with its word and with what the numbers from 0 on are multiplied by.
const KEYS: [(&str, u64); 2] = [("row", 1), ("scattered", 0x9e37_79b9_7f4a_7c15)];

/// Over how many numbers of which kind a workload is run, and how often.
#[derive(Clone, Copy)]
struct Task {
    scale: u64,
    size: usize,
    rounds: u64,
}

impl Task {
    /// The `i`-th number.
    #[inline]
    fn number(self, i: usize) -> i64 {
        (i as u64).wrapping_mul(self.scale).cast_signed()
    }
}

/// Lets a change be made, of a tree of so many pairs: there are units enough for it. It always does.
#[inline]
fn ready<Q: Stock>(count: usize, h: &Holder<Q>) -> Result<(), NoMemory>
    ensures small { OnOk result (count ≤ 2 ^ 20) }
    ensures spare { OnOk result (2 ^ 40 ≤ h.now.spare) }
{
    if count <= MOST && ENOUGH <= h.spare() {
        Ok(())
    } else {
        Err(NoMemory)
    }
}

/// Runs a workload on a stock of its own.
fn run<Q: Stock + Send + Sync>(
    alloc: Global,
    opening: Opening,
    workload: Workload,
    task: Task,
) -> Result<i64, NoMemory>
    requires opens { Opens Q.Stock opening }
{
    over_levels::<i64, i64, Q, Bench>(Bench {
        alloc,
        opening,
        workload,
        task,
    })
}

/// Runs one workload and prints what it answers.
fn report<R: Alloc<A = Global> + Print>(
    rt: &R,
    words: (&str, &str),
    workload: Workload,
    task: Task,
) -> io::Result<()> {
    let (word, kind) = words;
    match run::<Brand>(rt.alloc(), Opening::new(), workload, task) {
        Ok(n) => println!(rt; "{word} {kind} {n}"),
        Err(NoMemory) => println!(rt; "{word} {kind}: no memory"),
    }
}

/// Runs each workload that the words ask for; each of them, on a small tree, where they ask for none.
fn main(rt: HostRuntime) -> io::Result<()> {
    let words: Vec<String> = std::env::args(&rt)?.collect(rt.alloc())?;
    for (word, workload) in WORKLOADS {
        for (kind, scale) in KEYS {
            if let [_, asked, which, size, rounds] = words.as_slice() {
                if word == asked.as_str() && kind == which.as_str() {
                    let size = size.as_str().parse::<usize>().unwrap_or(0).min(MOST);
                    let rounds = rounds.as_str().parse::<u64>().unwrap_or(0);
                    let task = Task {
                        scale,
                        size,
                        rounds,
                    };
                    report(&rt, (word, kind), workload, task)?;
                }
            } else {
                let task = Task {
                    scale,
                    size: 100,
                    rounds: 3,
                };
                report(&rt, (word, kind), workload, task)?;
            }
        }
    }
    Ok(())
}
