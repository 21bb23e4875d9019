// The workloads over tree dictionaries of numbers. A round of each:
//
// build: a tree is made of a list of pairs, and ended. put: a tree is filled pair by pair, and ended. remove: a tree is filled
// pair by pair, and emptied key by key. update: each key gets another value, and nobody else has the tree. copy: for each key a copy is made, the key gets another value in it, and the
// copy is ended. lend: the same without the change. find, miss: the value of each key, or of as many others, is looked
// for. walk: references to all pairs are listed, and read.
ghost use Rattle.std.specs.Prelude.{◌≡◌, ◌≤◌, ◌^◌};

use crate::{Task, ready};
use cow_cell::{Holder, Opening, Stock};
use cow_model::NoMemory;
use cow_treedict::TreeDictionary;
use cow_trim::Trim;
use std::alloc::Global;

/// What can be run.
#[derive(Clone, Copy)]
pub(crate) enum Workload {
    Build,
    Put,
    Remove,
    Update,
    Copy,
    Lend,
    Find,
    Miss,
    Walk,
}

/// A workload with what it is run over.
#[derive(Drop)]
pub(crate) struct Bench {
    pub(crate) alloc: Global,
    pub(crate) opening: Opening,
    pub(crate) workload: Workload,
    pub(crate) task: Task,
}

impl<Q: Stock> cow_levels::Task<i64, i64, Q> for Bench {
    type Out = Result<i64, NoMemory>;

    ghost use Rattle.std.specs.Prelude.{⊤};
    ghost use Rattle.cow_cell.specs.Opens.{Opens};

    ghost Takes = { λ b. Opens Q.Stock b.opening };

    ghost Gives = { λ b r. ⊤ };

    fn run<C: Trim<i64, i64, Q> + Send + Sync>(self) -> Result<i64, NoMemory> {
        let Bench {
            alloc,
            opening,
            workload,
            task,
        } = self;
        let mut h = Holder::<Q>::fresh(opening);
        match workload {
            Workload::Build => built_each::<Q, C>(alloc, task, &mut h),
            Workload::Put => filled_each::<Q, C>(alloc, task, &mut h),
            Workload::Remove => emptied_each::<Q, C>(alloc, task, &mut h),
            _ => {
                let mut t = filled::<Q, C>(alloc, task, &mut h)?;
                let answer = over(alloc, workload, &mut t, task, &mut h);
                t.end(&mut h);
                answer
            }
        }
    }
}

/// Puts a value under a key. Answers what stood there.
#[inline]
fn put<Q: Stock, C: Trim<i64, i64, Q>>(
    t: &mut TreeDictionary<i64, i64, Q, C>,
    key: i64,
    value: i64,
    h: &mut Holder<Q>,
) -> Result<i64, NoMemory> {
    ready(t.count(), h)?;
    match t.update(key, value, h) {
        Ok(Some(old)) => Ok(old),
        Ok(None) => Ok(0),
        Err((NoMemory, _key, _value)) => Err(NoMemory),
    }
}

/// A tree of the numbers, each under itself, put one by one.
fn filled<Q: Stock, C: Trim<i64, i64, Q>>(
    alloc: Global,
    task: Task,
    h: &mut Holder<Q>,
) -> Result<TreeDictionary<i64, i64, Q, C>, NoMemory>
    requires root { C.LEVEL ≡ 0 }
    requires stacked { C.Stacked }
{
    ready(0, h)?;
    let mut t = TreeDictionary::<i64, i64, Q, C>::new(alloc, h)?;
    for i in 0..task.size {
        put(&mut t, task.number(i), task.number(i), h)?;
    }
    Ok(t)
}

/// Fills a tree in each round, and ends it.
fn filled_each<Q: Stock, C: Trim<i64, i64, Q>>(
    alloc: Global,
    task: Task,
    h: &mut Holder<Q>,
) -> Result<i64, NoMemory>
    requires root { C.LEVEL ≡ 0 }
    requires stacked { C.Stacked }
{
    let mut sum = 0i64;
    for _ in 0..task.rounds {
        let t = filled::<Q, C>(alloc, task, h)?;
        sum = sum.wrapping_add(t.count() as i64);
        t.end(h);
    }
    Ok(sum)
}

/// Fills a tree in each round, and takes out key by key.
fn emptied_each<Q: Stock, C: Trim<i64, i64, Q>>(
    alloc: Global,
    task: Task,
    h: &mut Holder<Q>,
) -> Result<i64, NoMemory>
    requires root { C.LEVEL ≡ 0 }
    requires stacked { C.Stacked }
{
    let mut sum = 0i64;
    for _ in 0..task.rounds {
        let mut t = filled::<Q, C>(alloc, task, h)?;
        for i in 0..task.size {
            ready(t.count(), h)?;
            if let Some(x) = t.remove(&task.number(i), h)? {
                sum = sum.wrapping_add(x);
            }
        }
        t.end(h);
    }
    Ok(sum)
}

/// The numbers, each beside itself.
fn pairs(alloc: Global, task: Task) -> Result<Vec<(i64, i64)>, NoMemory> {
    let Ok(mut pairs) = Vec::with_capacity(alloc, task.size) else {
        return Err(NoMemory);
    };
    for i in 0..task.size {
        if pairs.push((task.number(i), task.number(i))).is_err() {
            return Err(NoMemory);
        }
    }
    Ok(pairs)
}

/// Makes a tree of a list of pairs in each round, and ends it.
fn built_each<Q: Stock, C: Trim<i64, i64, Q>>(
    alloc: Global,
    task: Task,
    h: &mut Holder<Q>,
) -> Result<i64, NoMemory>
    requires root { C.LEVEL ≡ 0 }
    requires stacked { C.Stacked }
{
    let mut sum = 0i64;
    for _ in 0..task.rounds {
        let pairs = pairs(alloc, task)?;
        ready(pairs.len(), h)?;
        let t = TreeDictionary::<i64, i64, Q, C>::from_pairs(alloc, pairs, h)?;
        sum = sum.wrapping_add(t.count() as i64);
        t.end(h);
    }
    Ok(sum)
}

/// The rounds of a workload that begins with a full tree.
fn over<Q: Stock, C: Trim<i64, i64, Q>>(
    alloc: Global,
    workload: Workload,
    t: &mut TreeDictionary<i64, i64, Q, C>,
    task: Task,
    h: &mut Holder<Q>,
) -> Result<i64, NoMemory> {
    let mut sum = 0i64;
    for _ in 0..task.rounds {
        let found = match workload {
            Workload::Update => updated(t, task, h)?,
            Workload::Copy => copied(t, task, h)?,
            Workload::Lend => lent(t, task, h)?,
            Workload::Find => got(t, 0, task),
            Workload::Miss => got(t, task.size, task),
            Workload::Walk => walked(alloc, t)?,
            Workload::Build | Workload::Put | Workload::Remove => 0,
        };
        sum = sum.wrapping_add(found);
    }
    Ok(sum)
}

/// Puts another value under each key.
fn updated<Q: Stock, C: Trim<i64, i64, Q>>(
    t: &mut TreeDictionary<i64, i64, Q, C>,
    task: Task,
    h: &mut Holder<Q>,
) -> Result<i64, NoMemory> {
    let mut sum = 0i64;
    for i in 0..task.size {
        sum = sum.wrapping_add(put(t, task.number(i), (i as u64).cast_signed(), h)?);
    }
    Ok(sum)
}

/// Puts another value under each key, each in a copy of its own.
fn copied<Q: Stock, C: Trim<i64, i64, Q>>(
    t: &mut TreeDictionary<i64, i64, Q, C>,
    task: Task,
    h: &mut Holder<Q>,
) -> Result<i64, NoMemory> {
    let mut sum = 0i64;
    for i in 0..task.size {
        ready(t.count(), h)?;
        let mut other = t.copy(h);
        let old = put(&mut other, task.number(i), 7, h);
        other.end(h);
        sum = sum.wrapping_add(old?);
    }
    Ok(sum)
}

/// Makes as many copies as there are keys, and ends each.
fn lent<Q: Stock, C: Trim<i64, i64, Q>>(
    t: &mut TreeDictionary<i64, i64, Q, C>,
    task: Task,
    h: &mut Holder<Q>,
) -> Result<i64, NoMemory> {
    let mut sum = 0i64;
    for _ in 0..task.size {
        ready(t.count(), h)?;
        let other = t.copy(h);
        sum = sum.wrapping_add(other.count() as i64);
        other.end(h);
    }
    Ok(sum)
}

/// Looks for the values of the keys from the `first` on.
fn got<Q: Stock, C: Trim<i64, i64, Q>>(
    t: &TreeDictionary<i64, i64, Q, C>,
    first: usize,
    task: Task,
) -> i64 {
    let mut sum = 0i64;
    for i in 0..task.size {
        if let Some(x) = t.get(&task.number(first.wrapping_add(i))) {
            sum = sum.wrapping_add(*x);
        }
    }
    sum
}

/// Lists references to all pairs, and reads them.
fn walked<Q: Stock, C: Trim<i64, i64, Q>>(
    alloc: Global,
    t: &TreeDictionary<i64, i64, Q, C>,
) -> Result<i64, NoMemory> {
    let pairs = t.references(alloc)?;
    let mut sum = 0i64;
    for (key, value) in pairs {
        sum = sum.wrapping_add(*key).wrapping_add(*value);
    }
    Ok(sum)
}
