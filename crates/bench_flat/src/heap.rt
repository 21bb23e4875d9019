// The workloads over heaps of numbers. A round of each:
//
// insert: a heap is filled. ends: the same, and the least and the greatest number are read after each. pop-min, pop-max: a
// heap is filled, and emptied from one end. build: a heap is made of a vector. replace-min, replace-max: each step puts a number
// in the place of the one at an end. copy: the least number of a copy is replaced, so that all are copied.
ghost use Rattle.std.specs.Prelude.{◌≡◌, ◌≤◌, ◌^◌};

use crate::{MOST, Task, ready};
use cow_cell::{Holder, Stock};
use cow_heap::Heap;
use cow_model::NoMemory;
use std::alloc::Global;

/// What can be run.
#[derive(Clone, Copy)]
pub(crate) enum Workload {
    Insert,
    Ends,
    PopMin,
    PopMax,
    Build,
    ReplaceMin,
    ReplaceMax,
    Copy,
}

/// Adds a number.
#[inline]
fn insert<Q: Stock>(s: &mut Heap<i64, Q>, x: i64, h: &mut Holder<Q>) -> Result<(), NoMemory> {
    ready(s.count(), h)?;
    s.insert(x, h).map_err(|e| e.0)
}

/// A heap of the numbers, added one by one.
fn filled<Q: Stock>(
    alloc: Global,
    task: Task,
    h: &mut Holder<Q>,
) -> Result<Heap<i64, Q>, NoMemory> {
    ready(0, h)?;
    let mut s = Heap::<i64, Q>::new(alloc, h)?;
    for i in 0..task.size {
        insert(&mut s, task.number(i), h)?;
    }
    Ok(s)
}

/// Fills a heap in each round, and ends it.
fn inserted<Q: Stock>(alloc: Global, task: Task, h: &mut Holder<Q>) -> Result<i64, NoMemory> {
    let mut sum = 0i64;
    for _ in 0..task.rounds {
        let s = filled(alloc, task, h)?;
        sum = sum.wrapping_add(s.count() as i64);
        s.end(h);
    }
    Ok(sum)
}

/// The sum of the least and the greatest number.
#[inline]
fn ends<Q: Stock>(s: &Heap<i64, Q>) -> i64 {
    let least = match s.min() {
        Some(x) => *x,
        None => 0,
    };
    match s.max() {
        Some(x) => least.wrapping_add(*x),
        None => least,
    }
}

/// Fills a heap in each round, and reads its ends after each number.
fn looked_at<Q: Stock>(alloc: Global, task: Task, h: &mut Holder<Q>) -> Result<i64, NoMemory> {
    let mut sum = 0i64;
    for _ in 0..task.rounds {
        ready(0, h)?;
        let mut s = Heap::<i64, Q>::new(alloc, h)?;
        for i in 0..task.size {
            insert(&mut s, task.number(i), h)?;
            sum = sum.wrapping_add(ends(&s));
        }
        s.end(h);
    }
    Ok(sum)
}

/// Fills a heap in each round, and takes the least number out until there is none.
fn popped_min<Q: Stock>(alloc: Global, task: Task, h: &mut Holder<Q>) -> Result<i64, NoMemory> {
    let mut sum = 0i64;
    for _ in 0..task.rounds {
        let mut s = filled(alloc, task, h)?;
        for _i in 0..task.size {
            ready(s.count(), h)?;
            if let Some(x) = s.pop_min(h)? {
                sum = sum.wrapping_mul(3).wrapping_add(x);
            }
        }
        s.end(h);
    }
    Ok(sum)
}

/// Fills a heap in each round, and takes the greatest number out until there is none.
fn popped_max<Q: Stock>(alloc: Global, task: Task, h: &mut Holder<Q>) -> Result<i64, NoMemory> {
    let mut sum = 0i64;
    for _ in 0..task.rounds {
        let mut s = filled(alloc, task, h)?;
        for _i in 0..task.size {
            ready(s.count(), h)?;
            if let Some(x) = s.pop_max(h)? {
                sum = sum.wrapping_mul(3).wrapping_add(x);
            }
        }
        s.end(h);
    }
    Ok(sum)
}

/// A vector of the numbers.
fn numbers(alloc: Global, task: Task) -> Result<Vec<i64>, NoMemory> {
    let mut items = Vec::<i64>::new(alloc);
    for i in 0..task.size {
        items.push(task.number(i)).map_err(|_| NoMemory)?;
    }
    Ok(items)
}

/// Makes a heap of a vector in each round, and ends it.
fn built<Q: Stock>(alloc: Global, task: Task, h: &mut Holder<Q>) -> Result<i64, NoMemory> {
    let mut sum = 0i64;
    for _ in 0..task.rounds {
        let items = numbers(alloc, task)?;
        ready(0, h)?;
        if items.len() <= MOST {
            let s = Heap::<i64, Q>::from_vec(alloc, items, h).map_err(|e| e.0)?;
            sum = sum.wrapping_add(ends(&s));
            s.end(h);
        }
    }
    Ok(sum)
}

/// Puts a number in the place of the least one, as many times a round as there are numbers.
fn replaced_min<Q: Stock>(alloc: Global, task: Task, h: &mut Holder<Q>) -> Result<i64, NoMemory> {
    let mut s = filled(alloc, task, h)?;
    let mut sum = 0i64;
    for _ in 0..task.rounds {
        for i in 0..task.size {
            ready(s.count(), h)?;
            if s.count() > 0 {
                let old = s.replace_min(task.number(i), h).map_err(|e| e.0)?;
                sum = sum.wrapping_add(old);
            }
        }
    }
    s.end(h);
    Ok(sum)
}

/// Puts a number in the place of the greatest one, as many times a round as there are numbers.
fn replaced_max<Q: Stock>(alloc: Global, task: Task, h: &mut Holder<Q>) -> Result<i64, NoMemory> {
    let mut s = filled(alloc, task, h)?;
    let mut sum = 0i64;
    for _ in 0..task.rounds {
        for i in 0..task.size {
            ready(s.count(), h)?;
            if s.count() > 0 {
                let old = s.replace_max(task.number(i), h).map_err(|e| e.0)?;
                sum = sum.wrapping_add(old);
            }
        }
    }
    s.end(h);
    Ok(sum)
}

/// Replaces the least number of a copy in each round, so that all are copied, and ends the copy.
fn copied<Q: Stock>(alloc: Global, task: Task, h: &mut Holder<Q>) -> Result<i64, NoMemory> {
    let mut s = filled(alloc, task, h)?;
    let mut sum = 0i64;
    for _ in 0..task.rounds {
        ready(s.count(), h)?;
        let mut other = s.copy(h);
        ready(other.count(), h)?;
        if other.count() > 0 {
            let old = other.replace_min(7, h).map_err(|e| e.0)?;
            sum = sum.wrapping_add(old);
        }
        other.end(h);
    }
    s.end(h);
    Ok(sum)
}

/// Runs a workload.
pub(crate) fn run<Q: Stock>(
    alloc: Global,
    workload: Workload,
    task: Task,
    h: &mut Holder<Q>,
) -> Result<i64, NoMemory> {
    match workload {
        Workload::Insert => inserted(alloc, task, h),
        Workload::Ends => looked_at(alloc, task, h),
        Workload::PopMin => popped_min(alloc, task, h),
        Workload::PopMax => popped_max(alloc, task, h),
        Workload::Build => built(alloc, task, h),
        Workload::ReplaceMin => replaced_min(alloc, task, h),
        Workload::ReplaceMax => replaced_max(alloc, task, h),
        Workload::Copy => copied(alloc, task, h),
    }
}
