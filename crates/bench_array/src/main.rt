//! What the steps of an array cost. `bench/arrays.sh` counts this program's instructions and times it beside
//! `bench/arc_vec.rs`, which does the same over Rust's `Arc<Vec<_>>`; no gate does.
//!
//! `bench_array WORKLOAD SIZE ROUNDS` runs a workload over arrays of SIZE elements and prints a number that shows
//! what was done: `append`, `get`, `set` and `copy` over integers, `append-atoms` and `copy-atoms` over atoms.
//! With no words it runs each on a small array.
#![tactic(auto)]

ghost use Rattle.std.specs.Prelude.{◌≡◌, ◌≤◌, ◌^◌, length, true, IfOk, OnOk};
ghost use Rattle.cow_cell.specs.Opens.{Opens};
ghost use Rattle.cow_model.specs.Purse.{less};

use cow_array::Array;
use cow_cell::{Holder, Opening, Stock};
use cow_item::{Atom, Item};
use cow_model::NoMemory;
use std::alloc::Global;
use std::io;
use std::marker::Brand;

/// The most elements of an array here.
const MOST: usize = 0x10_0000;

/// Units enough for any change here.
const ENOUGH: u64 = 0x100_0000_0000;

/// What can be run.
#[derive(Clone, Copy)]
enum Workload {
    Append,
    Get,
    Set,
    Copy,
    AppendAtoms,
    CopyAtoms,
}

/// The workloads, each with its word.
const WORKLOADS: [(&str, Workload); 6] = [
    ("append", Workload::Append),
    ("get", Workload::Get),
    ("set", Workload::Set),
    ("copy", Workload::Copy),
    ("append-atoms", Workload::AppendAtoms),
    ("copy-atoms", Workload::CopyAtoms),
];

/// An element that is made of a number.
trait Numbered<Q: Stock>: Item<Q> {
    fn of(x: i64) -> Self;
}

impl<Q: Stock> Numbered<Q> for i64 {
    fn of(x: i64) -> i64 {
        x
    }
}

impl<Q: Stock> Numbered<Q> for Atom<Q> {
    fn of(x: i64) -> Atom<Q> {
        Atom::Int(x)
    }
}

/// An array of the numbers below `size`, appended one by one.
fn filled<T: Numbered<Q>, Q: Stock>(
    alloc: Global,
    size: usize,
    h: &mut Holder<Q>,
) -> Result<Array<T, Q>, NoMemory>
    requires size { size ≤ 2 ^ 20 }
    requires spare { 2 ^ 40 ≤ h.old.spare }
    ensures filled { IfOk result (λ a. (a.alone ≡ true) × (length a.value ≡ size)) }
    ensures paid { OnOk result (h.new ≡ less 1 h.old) }
{
    let mut a = Array::<T, Q>::new(alloc, h)?;
    for i in 0..size {
        a.append(T::of(i as i64), h).map_err(|e| e.0)?;
    }
    Ok(a)
}

/// Fills an array in each round, and ends it. Answers how many elements were appended.
fn append<T: Numbered<Q>, Q: Stock>(
    alloc: Global,
    opening: Opening,
    size: usize,
    rounds: u64,
) -> Result<i64, NoMemory>
    requires opens { Opens Q.Stock opening }
    requires size { size ≤ 2 ^ 20 }
{
    let mut h = Holder::<Q>::fresh(opening);
    let mut sum = 0i64;
    for _ in 0..rounds {
        if ENOUGH <= h.spare() {
            let a = filled::<T, Q>(alloc, size, &mut h)?;
            sum = sum.wrapping_add(a.count() as i64);
            a.end(&mut h);
        }
    }
    Ok(sum)
}

/// Reads each number in each round. Answers their sum.
fn get<Q: Stock>(alloc: Global, opening: Opening, size: usize, rounds: u64) -> Result<i64, NoMemory>
    requires opens { Opens Q.Stock opening }
    requires size { size ≤ 2 ^ 20 }
{
    let mut h = Holder::<Q>::fresh(opening);
    let a = filled::<i64, Q>(alloc, size, &mut h)?;
    let mut sum = 0i64;
    for _ in 0..rounds {
        for i in 0..a.count() {
            if let Some(x) = a.get(i) {
                sum = sum.wrapping_add(*x);
            }
        }
    }
    a.end(&mut h);
    Ok(sum)
}

/// Sets each number of an unshared array in each round. Answers the sum of what stood there.
fn set<Q: Stock>(alloc: Global, opening: Opening, size: usize, rounds: u64) -> Result<i64, NoMemory>
    requires opens { Opens Q.Stock opening }
    requires size { size ≤ 2 ^ 20 }
{
    let mut h = Holder::<Q>::fresh(opening);
    let mut a = filled::<i64, Q>(alloc, size, &mut h)?;
    let mut sum = 0i64;
    for _ in 0..rounds {
        for i in 0..size {
            let old = a.set(i, 7, &mut h).map_err(|e| e.0)?;
            sum = sum.wrapping_add(old);
        }
    }
    a.end(&mut h);
    Ok(sum)
}

/// Sets the first element of a copy in each round, so that all are copied, and ends the copy. Answers how many
/// elements the copies had.
fn copy<T: Numbered<Q>, Q: Stock>(
    alloc: Global,
    opening: Opening,
    size: usize,
    rounds: u64,
) -> Result<i64, NoMemory>
    requires opens { Opens Q.Stock opening }
    requires size { size ≤ 2 ^ 20 }
{
    let mut h = Holder::<Q>::fresh(opening);
    let mut a = filled::<T, Q>(alloc, size, &mut h)?;
    let mut sum = 0i64;
    for _ in 0..rounds {
        if 0 < a.count() && a.count() <= MOST && ENOUGH <= h.spare() {
            let mut b = a.copy(&mut h);
            let old = b.set(0, T::of(7), &mut h).map_err(|e| e.0)?;
            old.end(&mut h);
            sum = sum.wrapping_add(b.count() as i64);
            b.end(&mut h);
        }
    }
    a.end(&mut h);
    Ok(sum)
}

/// Runs a workload on a stock of its own.
fn run<Q: Stock>(
    alloc: Global,
    opening: Opening,
    workload: Workload,
    size: usize,
    rounds: u64,
) -> Result<i64, NoMemory>
    requires opens { Opens Q.Stock opening }
    requires size { size ≤ 2 ^ 20 }
{
    match workload {
        Workload::Append => append::<i64, Q>(alloc, opening, size, rounds),
        Workload::Get => get::<Q>(alloc, opening, size, rounds),
        Workload::Set => set::<Q>(alloc, opening, size, rounds),
        Workload::Copy => copy::<i64, Q>(alloc, opening, size, rounds),
        Workload::AppendAtoms => append::<Atom<Q>, Q>(alloc, opening, size, rounds),
        Workload::CopyAtoms => copy::<Atom<Q>, Q>(alloc, opening, size, rounds),
    }
}

/// Runs one workload and prints what it answers.
fn report<R: Alloc<A = Global> + Print>(
    rt: &R,
    word: &str,
    workload: Workload,
    size: usize,
    rounds: u64,
) -> io::Result<()> {
    let size = size.min(MOST);
    match run::<Brand>(rt.alloc(), Opening::new(), workload, size, rounds) {
        Ok(n) => println!(rt; "{word} {n}"),
        Err(NoMemory) => println!(rt; "{word}: no memory"),
    }
}

fn main(rt: HostRuntime) -> io::Result<()> {
    let words: Vec<String> = std::env::args(&rt)?.collect(rt.alloc())?;
    if let [_, asked, size, rounds] = words.as_slice() {
        for (word, workload) in WORKLOADS {
            if word == asked.as_str() {
                let size = size.as_str().parse::<usize>().unwrap_or(0);
                let rounds = rounds.as_str().parse::<u64>().unwrap_or(0);
                report(&rt, word, workload, size, rounds)?;
            }
        }
        return Ok(());
    }
    for (word, workload) in WORKLOADS {
        report(&rt, word, workload, 10, 3)?;
    }
    Ok(())
}
