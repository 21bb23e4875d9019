//! What the calls of a set and of a dictionary cost. `bench/hashed.sh` counts this program's instructions and times it beside
//! `bench/std_sets.rs`, which does the same over collections of Rust's standard library and others; no gate does.
//!
//! `bench_hashed WORKLOAD KEYS SIZE ROUNDS` runs a workload over sets of SIZE keys and prints a number that shows what
//! was done. With no words it runs each on a small set.
//!
//! | workload | a round |
//! |---|---|
//! | `insert`, `insert-atoms` | a set is filled, key by key |
//! | `remove`, `remove-atoms` | a set is filled, and each key is taken out |
//! | `find`, `find-atoms` | each member is looked for |
//! | `miss`, `miss-atoms` | as many keys that aren't there are looked for |
//! | `copy` | a copy of a set takes one key more, so that all are copied |
//! | `union` | a copy of a set takes in another, with which it has half of its members in common |
//! | `insert-pairs`, `remove-pairs`, `find-pairs`, `miss-pairs` | the same as of sets, of dictionaries whose values are numbers |
//!
//! KEYS are `row`, numbers that follow each other; `scattered`, the same multiplied; or `crowd`, numbers whose hashes
//! differ and whose homes lie side by side, so that all of them are one run of buckets.
#![tactic(auto)]

ghost use Rattle.std.specs.Prelude.{◌≡◌, ◌≤◌, ◌^◌, length, true, IfOk, OnOk};
ghost use Rattle.cow_cell.specs.Opens.{Opens};

use cow_cell::{Holder, Opening, Stock};
use cow_item::{Atom, Key};
use cow_model::NoMemory;
use cow_set::Set;
use std::alloc::Global;
use std::io;
use std::marker::Brand;

mod pairs;

/// The most keys of a set here.
const MOST: usize = 0x10_0000;

/// Units enough for any change here.
const ENOUGH: u64 = 0x100_0000_0000;

/// What can be run.
#[derive(Clone, Copy)]
enum Workload {
    Insert,
    Remove,
    Find,
    Miss,
    Copy,
    Union,
}

/// What a collection holds.
#[derive(Clone, Copy)]
enum Held {
    Numbers,
    Atoms,
    Pairs,
}

/// The workloads, each with its word and what its collection holds.
const WORKLOADS: [(&str, Workload, Held); 14] = [
    ("insert", Workload::Insert, Held::Numbers),
    ("remove", Workload::Remove, Held::Numbers),
    ("find", Workload::Find, Held::Numbers),
    ("miss", Workload::Miss, Held::Numbers),
    ("copy", Workload::Copy, Held::Numbers),
    ("union", Workload::Union, Held::Numbers),
    ("insert-atoms", Workload::Insert, Held::Atoms),
    ("remove-atoms", Workload::Remove, Held::Atoms),
    ("find-atoms", Workload::Find, Held::Atoms),
    ("miss-atoms", Workload::Miss, Held::Atoms),
    ("insert-pairs", Workload::Insert, Held::Pairs),
    ("remove-pairs", Workload::Remove, Held::Pairs),
    ("find-pairs", Workload::Find, Held::Pairs),
    ("miss-pairs", Workload::Miss, Held::Pairs),
];

/// The kinds of keys, each with its word and with what the numbers from 0 on are multiplied by.
const KEYS: [(&str, u64); 3] = [
    ("row", 1),
    ("scattered", 0x9e37_79b9_7f4a_7c15),
    ("crowd", 0x4_0000),
];

/// The `i`-th number.
#[inline]
fn number(scale: u64, i: usize) -> i64 {
    (i as u64).wrapping_mul(scale).cast_signed()
}

/// A key that is made of a number.
trait Numbered<Q: Stock>: Key<Q> {
    fn of(x: i64) -> Self;
}

impl<Q: Stock> Numbered<Q> for i64 {
    fn of(x: i64) -> i64 {
        x
    }
}

impl<Q: Stock> Numbered<Q> for Atom<Q> {
    fn of(x: i64) -> Atom<Q> {
        Atom::Int(x)
    }
}

/// Adds a key to an alone set.
#[inline]
fn add<K: Numbered<Q>, Q: Stock>(
    s: &mut Set<K, Q>,
    key: K,
    h: &mut Holder<Q>,
) -> Result<bool, NoMemory>
    requires alone { s.old.alone ≡ true }
    requires spare { 2 ^ 40 ≤ h.old.spare }
    ensures alone { s.new.alone ≡ true }
    ensures spare { 2 ^ 40 ≤ h.new.spare }
{
    if s.count() > MOST {
        return Err(NoMemory);
    }
    match s.insert(key, h) {
        Ok(new) => Ok(new),
        Err((NoMemory, _key)) => Err(NoMemory),
    }
}

/// A set of the keys from the `first` on, `size` in all, added one by one.
fn filled<K: Numbered<Q>, Q: Stock>(
    alloc: Global,
    scale: u64,
    first: usize,
    size: usize,
    h: &mut Holder<Q>,
) -> Result<Set<K, Q>, NoMemory>
    requires first { first ≤ 2 ^ 20 }
    requires size { size ≤ 2 ^ 20 }
    requires spare { 2 ^ 41 ≤ h.old.spare }
    ensures alone { IfOk result (λ s. s.alone ≡ true) }
    ensures spare { 2 ^ 40 ≤ h.new.spare }
{
    let mut s = Set::<K, Q>::new(alloc, h)?;
    for i in 0..size {
        add(&mut s, K::of(number(scale, first + i)), h)?;
    }
    Ok(s)
}

/// Fills a set in each round, and ends it. Answers how many keys were added.
fn insert<K: Numbered<Q>, Q: Stock>(
    alloc: Global,
    opening: Opening,
    scale: u64,
    size: usize,
    rounds: u64,
) -> Result<i64, NoMemory>
    requires opens { Opens Q.Stock opening }
    requires size { size ≤ 2 ^ 20 }
{
    let mut h = Holder::<Q>::fresh(opening);
    let mut sum = 0i64;
    for _ in 0..rounds {
        if ENOUGH <= h.spare() / 2 {
            let s = filled::<K, Q>(alloc, scale, 0, size, &mut h)?;
            sum = sum.wrapping_add(s.count() as i64);
            s.end(&mut h);
        }
    }
    Ok(sum)
}

/// Takes a key out of an alone set, and answers whether it was there.
#[inline]
fn take<K: Numbered<Q>, Q: Stock>(
    s: &mut Set<K, Q>,
    key: &K,
    h: &mut Holder<Q>,
) -> Result<bool, NoMemory>
    requires alone { s.old.alone ≡ true }
    requires spare { 2 ^ 40 ≤ h.old.spare }
    ensures alone { s.new.alone ≡ true }
    ensures spare { 2 ^ 40 ≤ h.new.spare }
{
    if s.count() > MOST {
        return Err(NoMemory);
    }
    match s.remove(key, h)? {
        Some(k) => {
            k.end(h);
            Ok(true)
        }
        None => Ok(false),
    }
}

/// Takes the first `size` keys out of an alone set. Answers how many were there.
fn emptied<K: Numbered<Q>, Q: Stock>(
    s: &mut Set<K, Q>,
    scale: u64,
    size: usize,
    h: &mut Holder<Q>,
) -> Result<i64, NoMemory>
    requires alone { s.old.alone ≡ true }
    requires spare { 2 ^ 40 ≤ h.old.spare }
{
    let mut sum = 0i64;
    for i in 0..size {
        if take(s, &K::of(number(scale, i)), h)? {
            sum = sum.wrapping_add(1);
        }
    }
    Ok(sum)
}

/// Fills a set in each round, and takes each key out. Answers how many were taken out.
fn remove<K: Numbered<Q>, Q: Stock>(
    alloc: Global,
    opening: Opening,
    scale: u64,
    size: usize,
    rounds: u64,
) -> Result<i64, NoMemory>
    requires opens { Opens Q.Stock opening }
    requires size { size ≤ 2 ^ 20 }
{
    let mut h = Holder::<Q>::fresh(opening);
    let mut sum = 0i64;
    for _ in 0..rounds {
        if ENOUGH <= h.spare() / 2 {
            let mut s = filled::<K, Q>(alloc, scale, 0, size, &mut h)?;
            sum = sum.wrapping_add(emptied(&mut s, scale, size, &mut h)?);
            s.end(&mut h);
        }
    }
    Ok(sum)
}

/// Looks for `size` keys from the `first` on in each round, in a set of the first `size` keys. Answers how many were
/// there.
fn find<K: Numbered<Q>, Q: Stock>(
    alloc: Global,
    opening: Opening,
    scale: u64,
    first: usize,
    size: usize,
    rounds: u64,
) -> Result<i64, NoMemory>
    requires opens { Opens Q.Stock opening }
    requires first { first ≤ 2 ^ 20 }
    requires size { size ≤ 2 ^ 20 }
{
    let mut h = Holder::<Q>::fresh(opening);
    let s = filled::<K, Q>(alloc, scale, 0, size, &mut h)?;
    let mut sum = 0i64;
    for _ in 0..rounds {
        for i in 0..size {
            if s.contains(&K::of(number(scale, first + i))) {
                sum = sum.wrapping_add(1);
            }
        }
    }
    s.end(&mut h);
    Ok(sum)
}

/// Adds a key to a copy of a set in each round, so that all keys are copied, and ends the copy. Answers how many keys
/// the copies had.
fn copy<Q: Stock>(
    alloc: Global,
    opening: Opening,
    scale: u64,
    size: usize,
    rounds: u64,
) -> Result<i64, NoMemory>
    requires opens { Opens Q.Stock opening }
    requires size { size ≤ 2 ^ 20 }
{
    let mut h = Holder::<Q>::fresh(opening);
    let mut s = filled::<i64, Q>(alloc, scale, 0, size, &mut h)?;
    let mut sum = 0i64;
    for _ in 0..rounds {
        if s.count() <= MOST && ENOUGH <= h.spare() / 2 {
            let mut other = s.copy(&mut h);
            other.insert(-1, &mut h).map_err(|e| e.0)?;
            sum = sum.wrapping_add(other.count() as i64);
            other.end(&mut h);
        }
    }
    s.end(&mut h);
    Ok(sum)
}

/// Makes the union of a copy of a set and another in each round, and ends it. Answers how many keys it had.
fn union<Q: Stock>(
    alloc: Global,
    opening: Opening,
    scale: u64,
    size: usize,
    rounds: u64,
) -> Result<i64, NoMemory>
    requires opens { Opens Q.Stock opening }
    requires size { size ≤ 2 ^ 20 }
{
    let mut h = Holder::<Q>::fresh(opening);
    let other = filled::<i64, Q>(alloc, scale, size / 2, size, &mut h)?;
    let mut sum = 0i64;
    if h.spare() / 2 < ENOUGH {
        return Ok(sum);
    }
    let mut s = filled::<i64, Q>(alloc, scale, 0, size, &mut h)?;
    for _ in 0..rounds {
        if s.count() <= MOST && other.count() <= MOST && ENOUGH <= h.spare() / 2 {
            let mut both = s.copy(&mut h);
            both.union(&other, &mut h)?;
            sum = sum.wrapping_add(both.count() as i64);
            both.end(&mut h);
        }
    }
    s.end(&mut h);
    Ok(sum)
}

/// Runs a workload over keys of one type.
fn run_of<K: Numbered<Q>, Q: Stock>(
    alloc: Global,
    opening: Opening,
    workload: Workload,
    scale: u64,
    size: usize,
    rounds: u64,
) -> Result<i64, NoMemory>
    requires opens { Opens Q.Stock opening }
    requires size { size ≤ 2 ^ 20 }
{
    match workload {
        Workload::Insert => insert::<K, Q>(alloc, opening, scale, size, rounds),
        Workload::Remove => remove::<K, Q>(alloc, opening, scale, size, rounds),
        Workload::Find => find::<K, Q>(alloc, opening, scale, 0, size, rounds),
        Workload::Miss => find::<K, Q>(alloc, opening, scale, size, size, rounds),
        Workload::Copy => copy::<Q>(alloc, opening, scale, size, rounds),
        Workload::Union => union::<Q>(alloc, opening, scale, size, rounds),
    }
}

/// Runs a workload on a stock of its own.
fn run<Q: Stock>(
    alloc: Global,
    opening: Opening,
    workload: (Workload, Held),
    scale: u64,
    size: usize,
    rounds: u64,
) -> Result<i64, NoMemory>
    requires opens { Opens Q.Stock opening }
    requires size { size ≤ 2 ^ 20 }
{
    let (workload, held) = workload;
    match held {
        Held::Numbers => run_of::<i64, Q>(alloc, opening, workload, scale, size, rounds),
        Held::Atoms => run_of::<Atom<Q>, Q>(alloc, opening, workload, scale, size, rounds),
        Held::Pairs => pairs::run::<Q>(alloc, opening, workload, scale, size, rounds),
    }
}

/// Runs one workload and prints what it answers.
fn report<R: Alloc<A = Global> + Print>(
    rt: &R,
    words: (&str, &str),
    workload: (Workload, Held),
    scale: u64,
    size: usize,
    rounds: u64,
) -> io::Result<()> {
    let size = size.min(MOST);
    let (word, kind) = words;
    match run::<Brand>(rt.alloc(), Opening::new(), workload, scale, size, rounds) {
        Ok(n) => println!(rt; "{word} {kind} {n}"),
        Err(NoMemory) => println!(rt; "{word} {kind}: no memory"),
    }
}

/// Runs each workload that the words ask for; each of them, on a small set, where they ask for none.
fn main(rt: HostRuntime) -> io::Result<()> {
    let words: Vec<String> = std::env::args(&rt)?.collect(rt.alloc())?;
    for (word, workload, held) in WORKLOADS {
        for (kind, scale) in KEYS {
            if let [_, asked, which, size, rounds] = words.as_slice() {
                if word == asked.as_str() && kind == which.as_str() {
                    let size = size.as_str().parse::<usize>().unwrap_or(0);
                    let rounds = rounds.as_str().parse::<u64>().unwrap_or(0);
                    report(&rt, (word, kind), (workload, held), scale, size, rounds)?;
                }
            } else {
                report(&rt, (word, kind), (workload, held), scale, 10, 3)?;
            }
        }
    }
    Ok(())
}
