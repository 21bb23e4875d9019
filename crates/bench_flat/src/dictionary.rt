// The workloads over ordered dictionaries of numbers. A round of each:
//
// put: a dictionary is filled. get, miss: the value of each key, or of as many others, is looked for. update: each key gets
// another value. pop: a dictionary is filled, and emptied from its end. remove: 100 pairs are taken from the middle by their keys,
// and put last. walk: all pairs are read in slices. copy: a key of a copy gets another value, so that all pairs are copied.
ghost use Rattle.std.specs.Prelude.{◌≡◌, ◌≤◌, ◌^◌};

use crate::{STEPS, Task, ready};
use cow_cell::{Holder, Stock};
use cow_model::NoMemory;
use cow_ordered::OrderedDictionary;
use std::alloc::Global;

/// What can be run.
#[derive(Clone, Copy)]
pub(crate) enum Workload {
    Put,
    Get,
    Miss,
    Update,
    Pop,
    Remove,
    Walk,
    Copy,
}

/// Puts a value under a key. Answers what stood there.
#[inline]
fn put<Q: Stock>(
    d: &mut OrderedDictionary<i64, i64, Q>,
    key: i64,
    value: i64,
    h: &mut Holder<Q>,
) -> Result<i64, NoMemory> {
    ready(d.count(), h)?;
    match d.update(key, value, h) {
        Ok(Some(old)) => Ok(old),
        Ok(None) => Ok(0),
        Err((NoMemory, _key, _value)) => Err(NoMemory),
    }
}

/// A dictionary of the numbers, each under itself, put one by one.
fn filled<Q: Stock>(
    alloc: Global,
    task: Task,
    h: &mut Holder<Q>,
) -> Result<OrderedDictionary<i64, i64, Q>, NoMemory> {
    ready(0, h)?;
    let mut d = OrderedDictionary::<i64, i64, Q>::new(alloc, h)?;
    for i in 0..task.size {
        put(&mut d, task.number(i), task.number(i), h)?;
    }
    Ok(d)
}

/// Fills a dictionary in each round, and ends it.
fn filled_each<Q: Stock>(alloc: Global, task: Task, h: &mut Holder<Q>) -> Result<i64, NoMemory> {
    let mut sum = 0i64;
    for _ in 0..task.rounds {
        let d = filled(alloc, task, h)?;
        sum = sum.wrapping_add(d.count() as i64);
        d.end(h);
    }
    Ok(sum)
}

/// Looks for the values of the keys from the `first` on in each round.
fn got<Q: Stock>(
    alloc: Global,
    first: usize,
    task: Task,
    h: &mut Holder<Q>,
) -> Result<i64, NoMemory> {
    let d = filled(alloc, task, h)?;
    let mut sum = 0i64;
    for _ in 0..task.rounds {
        for i in 0..task.size {
            if let Some(x) = d.get(&task.number(first.wrapping_add(i))) {
                sum = sum.wrapping_add(*x);
            }
        }
    }
    d.end(h);
    Ok(sum)
}

/// Puts another value under each key in each round.
fn updated<Q: Stock>(alloc: Global, task: Task, h: &mut Holder<Q>) -> Result<i64, NoMemory> {
    let mut d = filled(alloc, task, h)?;
    let mut sum = 0i64;
    for _ in 0..task.rounds {
        for i in 0..task.size {
            sum = sum.wrapping_add(put(&mut d, task.number(i), task.number(i), h)?);
        }
    }
    d.end(h);
    Ok(sum)
}

/// Fills a dictionary in each round, and empties it from its end.
fn popped<Q: Stock>(alloc: Global, task: Task, h: &mut Holder<Q>) -> Result<i64, NoMemory> {
    let mut sum = 0i64;
    for _ in 0..task.rounds {
        let mut d = filled(alloc, task, h)?;
        for _i in 0..task.size {
            let count = d.count();
            ready(count, h)?;
            if count > 0 {
                let (key, _value) = d.remove_at(count - 1, h)?;
                sum = sum.wrapping_add(key);
            }
        }
        d.end(h);
    }
    Ok(sum)
}

/// The key in the middle.
#[inline]
fn middle<Q: Stock>(d: &OrderedDictionary<i64, i64, Q>) -> i64 {
    match d.at(d.count() / 2) {
        Some((key, _value)) => *key,
        None => 0,
    }
}

/// Takes pairs from the middle in each round, and puts each last.
fn removed<Q: Stock>(alloc: Global, task: Task, h: &mut Holder<Q>) -> Result<i64, NoMemory> {
    let mut d = filled(alloc, task, h)?;
    let mut sum = 0i64;
    for _ in 0..task.rounds {
        for _i in 0..STEPS {
            let key = middle(&d);
            ready(d.count(), h)?;
            if let Some(old) = d.remove(&key, h)? {
                sum = sum.wrapping_add(old);
            }
            put(&mut d, key, key, h)?;
        }
    }
    d.end(h);
    Ok(sum)
}

/// Reads all pairs in slices in each round, and puts another value under the first key.
fn walked<Q: Stock>(alloc: Global, task: Task, h: &mut Holder<Q>) -> Result<i64, NoMemory> {
    let mut d = filled(alloc, task, h)?;
    let mut sum = 0i64;
    for _ in 0..task.rounds {
        let (keys, values) = d.as_slices();
        for key in keys {
            sum = sum.wrapping_add(*key);
        }
        for value in values {
            sum = sum.wrapping_add(*value);
        }
        put(&mut d, 0, sum, h)?;
    }
    d.end(h);
    Ok(sum)
}

/// Puts another value under a key of a copy in each round, so that all pairs are copied, and ends the copy.
fn copied<Q: Stock>(alloc: Global, task: Task, h: &mut Holder<Q>) -> Result<i64, NoMemory> {
    let mut d = filled(alloc, task, h)?;
    let mut sum = 0i64;
    for _ in 0..task.rounds {
        ready(d.count(), h)?;
        let mut other = d.copy(h);
        sum = sum.wrapping_add(put(&mut other, task.number(1), 7, h)?);
        other.end(h);
    }
    d.end(h);
    Ok(sum)
}

/// Runs a workload.
pub(crate) fn run<Q: Stock>(
    alloc: Global,
    workload: Workload,
    task: Task,
    h: &mut Holder<Q>,
) -> Result<i64, NoMemory> {
    match workload {
        Workload::Put => filled_each(alloc, task, h),
        Workload::Get => got(alloc, 0, task, h),
        Workload::Miss => got(alloc, task.size, task, h),
        Workload::Update => updated(alloc, task, h),
        Workload::Pop => popped(alloc, task, h),
        Workload::Remove => removed(alloc, task, h),
        Workload::Walk => walked(alloc, task, h),
        Workload::Copy => copied(alloc, task, h),
    }
}
