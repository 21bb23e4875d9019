//! What the steps of a counted cell cost. `bench/cell.sh` times this program beside `bench/arc.rs`,
//! which does the same over Rust's `Arc`; no gate times it.
//!
//! `bench_cell WORKLOAD ROUNDS` runs one of `share`, `sole` and `get` and prints a number that shows
//! what was done. With no words it runs each for a few rounds.
#![tactic(auto)]

ghost use Rattle.std.specs.Prelude.{◌≡◌, ℕ, ◌+◌, ◌≤◌, ◌^◌};
ghost use Rattle.cow_cell.specs.Opens.{Opens};

use cow_cell::{Counted, Holder, Opening, Stock};
use cow_model::NoMemory;
use std::alloc::Global;
use std::io;
use std::marker::Brand;

/// How many blocks `get` reads in a round.
const BLOCKS: usize = 1000;

/// Shares a handle and ends the twin. Answers how many twins weren't the last handle.
fn share<Q: Stock>(alloc: Global, opening: Opening, rounds: u64) -> Result<u64, NoMemory>
    requires { Opens Q.Stock opening }
{
    let mut h = Holder::<Q>::fresh(opening);
    let mut one = Counted::new(alloc, 1u64, &mut h).map_err(|e| e.0)?;
    let mut left = 0u64;
    for _ in 0..rounds {
        let twin = one.share(&mut h);
        if twin.end(&mut h).is_none() {
            left = left.wrapping_add(1);
        }
    }
    Ok(left)
}

/// Adds 1 to the value of an unshared block. Answers the value.
fn sole<Q: Stock>(alloc: Global, opening: Opening, rounds: u64) -> Result<u64, NoMemory>
    requires { Opens Q.Stock opening }
{
    let mut h = Holder::<Q>::fresh(opening);
    let mut one = Counted::new(alloc, 0u64, &mut h).map_err(|e| e.0)?;
    for _ in 0..rounds {
        if let Some(value) = one.sole(&mut h) {
            *value = value.wrapping_add(1);
        }
    }
    Ok(*one.get())
}

/// Reads the values of all blocks. Answers their sum.
fn get<Q: Stock>(alloc: Global, opening: Opening, rounds: u64) -> Result<u64, NoMemory>
    requires { Opens Q.Stock opening }
{
    let mut h = Holder::<Q>::fresh(opening);
    let mut handles = Vec::new(alloc);
    for _ in 0..BLOCKS {
        let one = Counted::new(alloc, 1u64, &mut h).map_err(|e| e.0)?;
        handles.push(one)?;
    }
    let mut sum = 0u64;
    for _ in 0..rounds {
        for one in handles.iter() {
            sum = sum.wrapping_add(*one.get());
        }
    }
    Ok(sum)
}

/// Runs one workload and prints what it answers.
fn report<R: Alloc<A = Global> + Print>(rt: &R, workload: &str, rounds: u64) -> io::Result<()> {
    let done = match workload {
        "share" => share::<Brand>(rt.alloc(), Opening::new(), rounds),
        "sole" => sole::<Brand>(rt.alloc(), Opening::new(), rounds),
        "get" => get::<Brand>(rt.alloc(), Opening::new(), rounds),
        _ => return println!(rt; "share, sole or get"),
    };
    match done {
        Ok(n) => println!(rt; "{workload} {n}"),
        Err(NoMemory) => println!(rt; "{workload}: no memory"),
    }
}

fn main(rt: HostRuntime) -> io::Result<()> {
    let words: Vec<String> = std::env::args(&rt)?.collect(rt.alloc())?;
    if let [_, workload, rounds] = words.as_slice() {
        return report(
            &rt,
            workload.as_str(),
            rounds.as_str().parse::<u64>().unwrap_or(0),
        );
    }
    for workload in ["share", "sole", "get"] {
        report(&rt, workload, 10)?;
    }
    Ok(())
}
