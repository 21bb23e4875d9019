// The workloads over ordered sets of numbers. A round of each:
//
// append: a set is filled. find, miss: each member, or as many other keys, are looked for. index-of: the position of each member
// is. at: each member is read by its position. pop: a set is filled, and emptied from its end. remove: 100 members are taken from the
// middle by their keys, and put last. insert: 100 keys come first, and as many go from the end. union: a copy takes in another set,
// with which it has half of its members in common. intersection: a copy keeps what it has in common with that. copy: the last member
// of a copy is taken out, so that all are copied.
ghost use Rattle.std.specs.Prelude.{◌≡◌, ◌≤◌, ◌^◌};

use crate::{STEPS, Task, ready};
use cow_cell::{Holder, Stock};
use cow_model::NoMemory;
use cow_ordered::OrderedSet;
use std::alloc::Global;

/// What can be run.
#[derive(Clone, Copy)]
pub(crate) enum Workload {
    Append,
    Find,
    Miss,
    IndexOf,
    At,
    Pop,
    Remove,
    Insert,
    Union,
    Intersection,
    Copy,
}

/// Puts a key last.
#[inline]
fn append<Q: Stock>(
    s: &mut OrderedSet<i64, Q>,
    key: i64,
    h: &mut Holder<Q>,
) -> Result<bool, NoMemory> {
    ready(s.count(), h)?;
    s.append(key, h).map_err(|e| e.0)
}

/// Takes the last member out.
#[inline]
fn pop<Q: Stock>(s: &mut OrderedSet<i64, Q>, h: &mut Holder<Q>) -> Result<i64, NoMemory> {
    let count = s.count();
    ready(count, h)?;
    if count == 0 {
        return Ok(0);
    }
    s.remove_at(count - 1, h)
}

/// A set of the numbers from the `first` on, put last one by one.
fn filled_from<Q: Stock>(
    alloc: Global,
    first: usize,
    task: Task,
    h: &mut Holder<Q>,
) -> Result<OrderedSet<i64, Q>, NoMemory> {
    ready(0, h)?;
    let mut s = OrderedSet::<i64, Q>::new(alloc, h)?;
    for i in 0..task.size {
        append(&mut s, task.number(first.wrapping_add(i)), h)?;
    }
    Ok(s)
}

/// A set of the numbers.
fn filled<Q: Stock>(
    alloc: Global,
    task: Task,
    h: &mut Holder<Q>,
) -> Result<OrderedSet<i64, Q>, NoMemory> {
    filled_from(alloc, 0, task, h)
}

/// Fills a set in each round, and ends it.
fn appended<Q: Stock>(alloc: Global, task: Task, h: &mut Holder<Q>) -> Result<i64, NoMemory> {
    let mut sum = 0i64;
    for _ in 0..task.rounds {
        let s = filled(alloc, task, h)?;
        sum = sum.wrapping_add(s.count() as i64);
        s.end(h);
    }
    Ok(sum)
}

/// Looks for the keys from the `first` on in each round.
fn found<Q: Stock>(
    alloc: Global,
    first: usize,
    task: Task,
    h: &mut Holder<Q>,
) -> Result<i64, NoMemory> {
    let s = filled(alloc, task, h)?;
    let mut sum = 0i64;
    for _ in 0..task.rounds {
        for i in 0..task.size {
            if s.contains(&task.number(first.wrapping_add(i))) {
                sum = sum.wrapping_add(1);
            }
        }
    }
    s.end(h);
    Ok(sum)
}

/// Looks for the position of each member in each round.
fn indexed<Q: Stock>(alloc: Global, task: Task, h: &mut Holder<Q>) -> Result<i64, NoMemory> {
    let s = filled(alloc, task, h)?;
    let mut sum = 0i64;
    for _ in 0..task.rounds {
        for i in 0..task.size {
            if let Some(place) = s.index_of(&task.number(i)) {
                sum = sum.wrapping_add(place as i64);
            }
        }
    }
    s.end(h);
    Ok(sum)
}

/// Reads each member by its position in each round.
fn read<Q: Stock>(alloc: Global, task: Task, h: &mut Holder<Q>) -> Result<i64, NoMemory> {
    let s = filled(alloc, task, h)?;
    let mut sum = 0i64;
    for _ in 0..task.rounds {
        for i in 0..task.size {
            if let Some(key) = s.at(i) {
                sum = sum.wrapping_add(*key);
            }
        }
    }
    s.end(h);
    Ok(sum)
}

/// Fills a set in each round, and empties it from its end.
fn popped<Q: Stock>(alloc: Global, task: Task, h: &mut Holder<Q>) -> Result<i64, NoMemory> {
    let mut sum = 0i64;
    for _ in 0..task.rounds {
        let mut s = filled(alloc, task, h)?;
        for _i in 0..task.size {
            sum = sum.wrapping_add(pop(&mut s, h)?);
        }
        s.end(h);
    }
    Ok(sum)
}

/// The member in the middle.
#[inline]
fn middle<Q: Stock>(s: &OrderedSet<i64, Q>) -> i64 {
    match s.at(s.count() / 2) {
        Some(key) => *key,
        None => 0,
    }
}

/// Takes members from the middle in each round, and puts each last.
fn removed<Q: Stock>(alloc: Global, task: Task, h: &mut Holder<Q>) -> Result<i64, NoMemory> {
    let mut s = filled(alloc, task, h)?;
    let mut sum = 0i64;
    for _ in 0..task.rounds {
        for _i in 0..STEPS {
            let key = middle(&s);
            ready(s.count(), h)?;
            if let Some(old) = s.remove(&key, h)? {
                sum = sum.wrapping_add(old);
            }
            append(&mut s, key, h)?;
        }
    }
    s.end(h);
    Ok(sum)
}

/// Puts keys first in each round, and takes as many from the end.
fn inserted<Q: Stock>(alloc: Global, task: Task, h: &mut Holder<Q>) -> Result<i64, NoMemory> {
    let mut s = filled(alloc, task, h)?;
    let mut sum = 0i64;
    let mut next = task.size;
    for _ in 0..task.rounds {
        for _i in 0..STEPS {
            ready(s.count(), h)?;
            s.insert_at(0, task.number(next), h).map_err(|e| e.0)?;
            next = next.wrapping_add(1);
            sum = sum.wrapping_add(pop(&mut s, h)?);
        }
    }
    s.end(h);
    Ok(sum)
}

/// Makes the union of a copy and another set in each round, and ends it.
fn united<Q: Stock>(alloc: Global, task: Task, h: &mut Holder<Q>) -> Result<i64, NoMemory> {
    let other = filled_from(alloc, task.size / 2, task, h)?;
    let mut s = filled(alloc, task, h)?;
    let mut sum = 0i64;
    for _ in 0..task.rounds {
        ready(other.count(), h)?;
        let mut both = s.copy(h);
        ready(both.count(), h)?;
        both.union(&other, h)?;
        sum = sum.wrapping_add(both.count() as i64);
        both.end(h);
    }
    s.end(h);
    Ok(sum)
}

/// Makes the intersection of a copy and another set in each round, and ends it.
fn common<Q: Stock>(alloc: Global, task: Task, h: &mut Holder<Q>) -> Result<i64, NoMemory> {
    let other = filled_from(alloc, task.size / 2, task, h)?;
    let mut s = filled(alloc, task, h)?;
    let mut sum = 0i64;
    for _ in 0..task.rounds {
        ready(other.count(), h)?;
        let mut both = s.copy(h);
        ready(both.count(), h)?;
        both.intersection(&other, h)?;
        sum = sum.wrapping_add(both.count() as i64);
        both.end(h);
    }
    s.end(h);
    Ok(sum)
}

/// Takes the last member out of a copy in each round, so that all are copied, and ends the copy.
fn copied<Q: Stock>(alloc: Global, task: Task, h: &mut Holder<Q>) -> Result<i64, NoMemory> {
    let mut s = filled(alloc, task, h)?;
    let mut sum = 0i64;
    for _ in 0..task.rounds {
        ready(s.count(), h)?;
        let mut other = s.copy(h);
        sum = sum.wrapping_add(pop(&mut other, h)?);
        other.end(h);
    }
    s.end(h);
    Ok(sum)
}

/// Runs a workload.
pub(crate) fn run<Q: Stock>(
    alloc: Global,
    workload: Workload,
    task: Task,
    h: &mut Holder<Q>,
) -> Result<i64, NoMemory> {
    match workload {
        Workload::Append => appended(alloc, task, h),
        Workload::Find => found(alloc, 0, task, h),
        Workload::Miss => found(alloc, task.size, task, h),
        Workload::IndexOf => indexed(alloc, task, h),
        Workload::At => read(alloc, task, h),
        Workload::Pop => popped(alloc, task, h),
        Workload::Remove => removed(alloc, task, h),
        Workload::Insert => inserted(alloc, task, h),
        Workload::Union => united(alloc, task, h),
        Workload::Intersection => common(alloc, task, h),
        Workload::Copy => copied(alloc, task, h),
    }
}
