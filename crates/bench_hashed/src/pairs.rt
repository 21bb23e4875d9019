// The workloads over dictionaries of numbers.
ghost use Rattle.std.specs.Prelude.{◌≡◌, ◌≤◌, ◌^◌, true, IfOk};
ghost use Rattle.cow_cell.specs.Opens.{Opens};

use crate::{ENOUGH, MOST, Workload, number};
use cow_cell::{Holder, Opening, Stock};
use cow_dict::Dictionary;
use cow_model::NoMemory;
use std::alloc::Global;

/// Puts a number under a key of an alone dictionary.
#[inline]
fn put<Q: Stock>(
    d: &mut Dictionary<i64, i64, Q>,
    key: i64,
    h: &mut Holder<Q>,
) -> Result<(), NoMemory>
    requires alone { d.old.alone ≡ true }
    requires spare { 2 ^ 40 ≤ h.old.spare }
    ensures alone { d.new.alone ≡ true }
    ensures spare { 2 ^ 40 ≤ h.new.spare }
{
    if d.count() > MOST {
        return Err(NoMemory);
    }
    match d.update(key, key, h) {
        Ok(_old) => Ok(()),
        Err((NoMemory, _key, _value)) => Err(NoMemory),
    }
}

/// A dictionary of the first `size` keys, put one by one.
fn filled<Q: Stock>(
    alloc: Global,
    scale: u64,
    size: usize,
    h: &mut Holder<Q>,
) -> Result<Dictionary<i64, i64, Q>, NoMemory>
    requires size { size ≤ 2 ^ 20 }
    requires spare { 2 ^ 41 ≤ h.old.spare }
    ensures alone { IfOk result (λ d. d.alone ≡ true) }
    ensures spare { 2 ^ 40 ≤ h.new.spare }
{
    let mut d = Dictionary::<i64, i64, Q>::new(alloc, h)?;
    for i in 0..size {
        put(&mut d, number(scale, i), h)?;
    }
    Ok(d)
}

/// Fills a dictionary in each round, and ends it. Answers how many pairs there were.
fn insert<Q: Stock>(
    alloc: Global,
    opening: Opening,
    scale: u64,
    size: usize,
    rounds: u64,
) -> Result<i64, NoMemory>
    requires opens { Opens Q.Stock opening }
    requires size { size ≤ 2 ^ 20 }
{
    let mut h = Holder::<Q>::fresh(opening);
    let mut sum = 0i64;
    for _ in 0..rounds {
        if ENOUGH <= h.spare() / 2 {
            let d = filled::<Q>(alloc, scale, size, &mut h)?;
            sum = sum.wrapping_add(d.count() as i64);
            d.end(&mut h);
        }
    }
    Ok(sum)
}

/// Takes a key out of an alone dictionary, and answers whether it was there.
#[inline]
fn take<Q: Stock>(
    d: &mut Dictionary<i64, i64, Q>,
    key: i64,
    h: &mut Holder<Q>,
) -> Result<bool, NoMemory>
    requires alone { d.old.alone ≡ true }
    requires spare { 2 ^ 40 ≤ h.old.spare }
    ensures alone { d.new.alone ≡ true }
    ensures spare { 2 ^ 40 ≤ h.new.spare }
{
    if d.count() > MOST {
        return Err(NoMemory);
    }
    match d.remove(&key, h)? {
        Some(_value) => Ok(true),
        None => Ok(false),
    }
}

/// Takes the first `size` keys out of an alone dictionary. Answers how many were there.
fn emptied<Q: Stock>(
    d: &mut Dictionary<i64, i64, Q>,
    scale: u64,
    size: usize,
    h: &mut Holder<Q>,
) -> Result<i64, NoMemory>
    requires alone { d.old.alone ≡ true }
    requires spare { 2 ^ 40 ≤ h.old.spare }
{
    let mut sum = 0i64;
    for i in 0..size {
        if take(d, number(scale, i), h)? {
            sum = sum.wrapping_add(1);
        }
    }
    Ok(sum)
}

/// Fills a dictionary in each round, and takes each key out. Answers how many were taken out.
fn remove<Q: Stock>(
    alloc: Global,
    opening: Opening,
    scale: u64,
    size: usize,
    rounds: u64,
) -> Result<i64, NoMemory>
    requires opens { Opens Q.Stock opening }
    requires size { size ≤ 2 ^ 20 }
{
    let mut h = Holder::<Q>::fresh(opening);
    let mut sum = 0i64;
    for _ in 0..rounds {
        if ENOUGH <= h.spare() / 2 {
            let mut d = filled::<Q>(alloc, scale, size, &mut h)?;
            sum = sum.wrapping_add(emptied(&mut d, scale, size, &mut h)?);
            d.end(&mut h);
        }
    }
    Ok(sum)
}

/// Looks for `size` keys from the `first` on in each round, in a dictionary of the first `size` keys. Answers how many
/// had a value.
fn find<Q: Stock>(
    alloc: Global,
    opening: Opening,
    scale: u64,
    first: usize,
    size: usize,
    rounds: u64,
) -> Result<i64, NoMemory>
    requires opens { Opens Q.Stock opening }
    requires first { first ≤ 2 ^ 20 }
    requires size { size ≤ 2 ^ 20 }
{
    let mut h = Holder::<Q>::fresh(opening);
    let d = filled::<Q>(alloc, scale, size, &mut h)?;
    let mut sum = 0i64;
    for _ in 0..rounds {
        for i in 0..size {
            if d.get(&number(scale, first + i)).is_some() {
                sum = sum.wrapping_add(1);
            }
        }
    }
    d.end(&mut h);
    Ok(sum)
}

/// Runs a workload; those of two sets answer 0.
pub(crate) fn run<Q: Stock>(
    alloc: Global,
    opening: Opening,
    workload: Workload,
    scale: u64,
    size: usize,
    rounds: u64,
) -> Result<i64, NoMemory>
    requires opens { Opens Q.Stock opening }
    requires size { size ≤ 2 ^ 20 }
{
    match workload {
        Workload::Insert => insert::<Q>(alloc, opening, scale, size, rounds),
        Workload::Remove => remove::<Q>(alloc, opening, scale, size, rounds),
        Workload::Find => find::<Q>(alloc, opening, scale, 0, size, rounds),
        Workload::Miss => find::<Q>(alloc, opening, scale, size, size, rounds),
        _ => Ok(0),
    }
}
