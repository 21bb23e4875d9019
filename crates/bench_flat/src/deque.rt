// The workloads over deques of numbers. A round of each:
//
// append, prepend: a deque is filled by it. pop-first, pop-last: a deque is filled by append, and emptied. queue: each step
// takes the first number out and puts one last. rotate: a third of the numbers goes to the back. insert, remove: 100 numbers
// come into the middle or go from it, and at the end as many go or come. get: each number is read by its place. walk: all are
// read in slices. copy: a number of a copy is set, so that all are copied.
ghost use Rattle.std.specs.Prelude.{◌≡◌, ◌≤◌, ◌^◌};

use crate::{STEPS, Task, ready};
use cow_cell::{Holder, Stock};
use cow_deque::Deque;
use cow_model::NoMemory;
use std::alloc::Global;

/// What can be run.
#[derive(Clone, Copy)]
pub(crate) enum Workload {
    Append,
    Prepend,
    PopFirst,
    PopLast,
    Queue,
    Rotate,
    Insert,
    Remove,
    Get,
    Walk,
    Copy,
}

/// Puts a number last.
#[inline]
fn append<Q: Stock>(d: &mut Deque<i64, Q>, x: i64, h: &mut Holder<Q>) -> Result<(), NoMemory> {
    ready(d.count(), h)?;
    d.append(x, h).map_err(|e| e.0)
}

/// Takes the first number out.
#[inline]
fn pop_first<Q: Stock>(d: &mut Deque<i64, Q>, h: &mut Holder<Q>) -> Result<i64, NoMemory> {
    ready(d.count(), h)?;
    match d.pop_first(h)? {
        Some(x) => Ok(x),
        None => Ok(0),
    }
}

/// Takes the last number out.
#[inline]
fn pop_last<Q: Stock>(d: &mut Deque<i64, Q>, h: &mut Holder<Q>) -> Result<i64, NoMemory> {
    ready(d.count(), h)?;
    match d.pop_last(h)? {
        Some(x) => Ok(x),
        None => Ok(0),
    }
}

/// A deque of the numbers, put last one by one.
fn filled<Q: Stock>(
    alloc: Global,
    task: Task,
    h: &mut Holder<Q>,
) -> Result<Deque<i64, Q>, NoMemory> {
    ready(0, h)?;
    let mut d = Deque::<i64, Q>::new(alloc, h)?;
    for i in 0..task.size {
        append(&mut d, task.number(i), h)?;
    }
    Ok(d)
}

/// Fills a deque in each round, and ends it.
fn appended<Q: Stock>(alloc: Global, task: Task, h: &mut Holder<Q>) -> Result<i64, NoMemory> {
    let mut sum = 0i64;
    for _ in 0..task.rounds {
        let d = filled(alloc, task, h)?;
        sum = sum.wrapping_add(d.count() as i64);
        d.end(h);
    }
    Ok(sum)
}

/// Fills a deque from its front in each round, and ends it.
fn prepended<Q: Stock>(alloc: Global, task: Task, h: &mut Holder<Q>) -> Result<i64, NoMemory> {
    let mut sum = 0i64;
    for _ in 0..task.rounds {
        ready(0, h)?;
        let mut d = Deque::<i64, Q>::new(alloc, h)?;
        for i in 0..task.size {
            ready(d.count(), h)?;
            d.prepend(task.number(i), h).map_err(|e| e.0)?;
        }
        sum = sum.wrapping_add(d.count() as i64);
        d.end(h);
    }
    Ok(sum)
}

/// Fills a deque in each round, and empties it from its front.
fn popped_first<Q: Stock>(alloc: Global, task: Task, h: &mut Holder<Q>) -> Result<i64, NoMemory> {
    let mut sum = 0i64;
    for _ in 0..task.rounds {
        let mut d = filled(alloc, task, h)?;
        for _i in 0..task.size {
            sum = sum.wrapping_add(pop_first(&mut d, h)?);
        }
        d.end(h);
    }
    Ok(sum)
}

/// Fills a deque in each round, and empties it from its back.
fn popped_last<Q: Stock>(alloc: Global, task: Task, h: &mut Holder<Q>) -> Result<i64, NoMemory> {
    let mut sum = 0i64;
    for _ in 0..task.rounds {
        let mut d = filled(alloc, task, h)?;
        for _i in 0..task.size {
            sum = sum.wrapping_add(pop_last(&mut d, h)?);
        }
        d.end(h);
    }
    Ok(sum)
}

/// Takes the first number out and puts one last, as many times a round as there are numbers.
fn queued<Q: Stock>(alloc: Global, task: Task, h: &mut Holder<Q>) -> Result<i64, NoMemory> {
    let mut d = filled(alloc, task, h)?;
    let mut sum = 0i64;
    for _ in 0..task.rounds {
        for i in 0..task.size {
            sum = sum.wrapping_add(pop_first(&mut d, h)?);
            append(&mut d, task.number(i), h)?;
        }
    }
    d.end(h);
    Ok(sum)
}

/// A third of the numbers goes to the back in each round.
fn rotated<Q: Stock>(alloc: Global, task: Task, h: &mut Holder<Q>) -> Result<i64, NoMemory> {
    let mut d = filled(alloc, task, h)?;
    let mut sum = 0i64;
    for _ in 0..task.rounds {
        let count = d.count();
        ready(count, h)?;
        d.rotate(count / 3, h)?;
        if let Some(x) = d.first() {
            sum = sum.wrapping_add(*x);
        }
    }
    d.end(h);
    Ok(sum)
}

/// Puts numbers into the middle in each round, and takes as many from the back.
fn inserted<Q: Stock>(alloc: Global, task: Task, h: &mut Holder<Q>) -> Result<i64, NoMemory> {
    let mut d = filled(alloc, task, h)?;
    let mut sum = 0i64;
    for _ in 0..task.rounds {
        for i in 0..STEPS {
            let count = d.count();
            ready(count, h)?;
            d.insert(count / 2, task.number(i), h).map_err(|e| e.0)?;
        }
        for _i in 0..STEPS {
            sum = sum.wrapping_add(pop_last(&mut d, h)?);
        }
    }
    d.end(h);
    Ok(sum)
}

/// Takes numbers from the middle in each round, and puts as many last.
fn removed<Q: Stock>(alloc: Global, task: Task, h: &mut Holder<Q>) -> Result<i64, NoMemory> {
    let mut d = filled(alloc, task, h)?;
    let mut sum = 0i64;
    for _ in 0..task.rounds {
        for _i in 0..STEPS {
            let count = d.count();
            ready(count, h)?;
            if count > 0 {
                sum = sum.wrapping_add(d.remove(count / 2, h)?);
            }
        }
        for i in 0..STEPS {
            append(&mut d, task.number(i), h)?;
        }
    }
    d.end(h);
    Ok(sum)
}

/// Reads each number by its place in each round.
fn got<Q: Stock>(alloc: Global, task: Task, h: &mut Holder<Q>) -> Result<i64, NoMemory> {
    let d = filled(alloc, task, h)?;
    let mut sum = 0i64;
    for _ in 0..task.rounds {
        for i in 0..d.count() {
            if let Some(x) = d.get(i) {
                sum = sum.wrapping_add(*x);
            }
        }
    }
    d.end(h);
    Ok(sum)
}

/// Reads all numbers in slices in each round, and puts the first one last.
fn walked<Q: Stock>(alloc: Global, task: Task, h: &mut Holder<Q>) -> Result<i64, NoMemory> {
    let mut d = filled(alloc, task, h)?;
    let mut sum = 0i64;
    for _ in 0..task.rounds {
        let (front, rest) = d.as_slices();
        for x in front {
            sum = sum.wrapping_add(*x);
        }
        for x in rest {
            sum = sum.wrapping_add(*x);
        }
        let first = pop_first(&mut d, h)?;
        append(&mut d, first, h)?;
    }
    d.end(h);
    Ok(sum)
}

/// Sets a number of a copy in each round, so that all are copied, and ends the copy.
fn copied<Q: Stock>(alloc: Global, task: Task, h: &mut Holder<Q>) -> Result<i64, NoMemory> {
    let mut d = filled(alloc, task, h)?;
    let mut sum = 0i64;
    for _ in 0..task.rounds {
        ready(d.count(), h)?;
        let mut other = d.copy(h);
        if other.count() > 0 {
            ready(other.count(), h)?;
            let old = other.set(0, 7, h).map_err(|e| e.0)?;
            sum = sum.wrapping_add(old);
        }
        sum = sum.wrapping_add(other.count() as i64);
        other.end(h);
    }
    d.end(h);
    Ok(sum)
}

/// Runs a workload.
pub(crate) fn run<Q: Stock>(
    alloc: Global,
    workload: Workload,
    task: Task,
    h: &mut Holder<Q>,
) -> Result<i64, NoMemory> {
    match workload {
        Workload::Append => appended(alloc, task, h),
        Workload::Prepend => prepended(alloc, task, h),
        Workload::PopFirst => popped_first(alloc, task, h),
        Workload::PopLast => popped_last(alloc, task, h),
        Workload::Queue => queued(alloc, task, h),
        Workload::Rotate => rotated(alloc, task, h),
        Workload::Insert => inserted(alloc, task, h),
        Workload::Remove => removed(alloc, task, h),
        Workload::Get => got(alloc, task, h),
        Workload::Walk => walked(alloc, task, h),
        Workload::Copy => copied(alloc, task, h),
    }
}
