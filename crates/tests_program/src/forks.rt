//! Random scripts with forks, on several numbers of workers, against the plain program of the definitions.
use crate::numbers::Numbers;
use crate::random::is_as_told;
use cow_plain::{Told, run_script};
use std::alloc::{AllocError, Global};
use std::test::Fail;
use std::thread::Threads;

/// The words of a run, by the number of its workers.
const WORKERS: &[&[&str]] = &[
    &["run", "--workers", "1", "--census"],
    &["run", "--workers", "2", "--census"],
    &["run", "--workers", "4", "--census"],
    &["run", "--workers", "8", "--census"],
];

/// How many scripts a test runs, and how many turns each has: a turn is a line, or one in four times a fork.
const SCRIPTS: u64 = 100;

const TURNS: u64 = 16;

/// How a script begins, so that the first captures find names.
const FIRST: &str = "let a = array 1 2 3\nlet b = array L\nlet c = a\nlet d = slice a 0 2\n";

/// The groups of a task's captures.
const GROUPS: &[&str] = &[" copy N N", " copy N N N", " copy N", " take N"];

/// The forms of every other line of a task.
const OWN: &[&str] = &[
    "give N as N\n",
    "give N as N\n",
    "let N = slice N 0 1\n",
    "let N = slice N P P\n",
    "append N A\n",
    "show N\n",
];

/// A task: up to three groups of captures, and up to nine statements, gives among them.
fn put_task(numbers: &mut Numbers, script: &mut Vec<u8>) -> Result<(), AllocError> {
    numbers.put("task", script)?;
    for _ in 0..numbers.next() % 4 {
        let group = numbers.one_of(GROUPS);
        numbers.put(group, script)?;
    }
    numbers.put("\n", script)?;
    for _ in 0..numbers.next() % 10 {
        if numbers.next() % 2 == 0 {
            let form = numbers.one_of(OWN);
            numbers.put(form, script)?;
        } else {
            numbers.line(script)?;
        }
    }
    numbers.put("end\n", script)
}

/// A fork of up to four tasks.
fn put_fork(numbers: &mut Numbers, script: &mut Vec<u8>) -> Result<(), AllocError> {
    numbers.put("fork\n", script)?;
    for _ in 0..numbers.next() % 5 {
        put_task(numbers, script)?;
    }
    numbers.put("end\n", script)
}

/// The script of a seed.
fn script_of(alloc: Global, seed: u64) -> Result<Vec<u8>, AllocError> {
    let mut numbers = Numbers::of(seed);
    let mut script = Vec::new(alloc);
    numbers.put(FIRST, &mut script)?;
    for _ in 0..TURNS {
        if numbers.next() % 4 == 0 {
            put_fork(&mut numbers, &mut script)?;
        } else {
            numbers.line(&mut script)?;
        }
    }
    Ok(script)
}

/// Whether a script is run as told on each number of workers.
fn is_as_told_by_all<R: Threads + Sync>(
    rt: &R,
    alloc: Global,
    script: &[u8],
    told: &Told,
) -> Result<bool, Fail> {
    for words in WORKERS {
        if !is_as_told(rt, alloc, words, script, told)? {
            return Ok(false);
        }
    }
    Ok(true)
}

/// Whether the script of a seed is run as the definitions say.
fn is_as_defined<R: Threads + Sync>(rt: &R, alloc: Global, seed: u64) -> Result<bool, Fail> {
    let script = script_of(alloc, seed)?;
    let Ok(Ok(told)) = run_script(alloc, script.as_slice(), &[]) else {
        return Err("no script, or no memory".into());
    };
    is_as_told_by_all(rt, alloc, script.as_slice(), &told)
}

/// The first of a test's seeds, which begin at this one, whose script isn't.
fn first_unlike<R: Threads + Sync>(rt: &R, alloc: Global, first: u64) -> Result<Option<u64>, Fail> {
    for more in 0..SCRIPTS {
        let seed = first.wrapping_add(more);
        if !is_as_defined(rt, alloc, seed)? {
            return Ok(Some(seed));
        }
    }
    Ok(None)
}

#[test]
fn forks_of_100_seeds_from_0_print_what_the_definitions_say(rt: HostRuntime) -> Result<(), Fail> {
    assert_eq!(rt; first_unlike(&rt, rt.alloc(), 0)?, None);
    Ok(())
}

#[test]
fn forks_of_100_seeds_from_100_print_what_the_definitions_say(rt: HostRuntime) -> Result<(), Fail> {
    assert_eq!(rt; first_unlike(&rt, rt.alloc(), 100)?, None);
    Ok(())
}

#[test]
fn forks_of_100_seeds_from_200_print_what_the_definitions_say(rt: HostRuntime) -> Result<(), Fail> {
    assert_eq!(rt; first_unlike(&rt, rt.alloc(), 200)?, None);
    Ok(())
}

#[test]
fn forks_of_100_seeds_from_300_print_what_the_definitions_say(rt: HostRuntime) -> Result<(), Fail> {
    assert_eq!(rt; first_unlike(&rt, rt.alloc(), 300)?, None);
    Ok(())
}

#[test]
fn forks_of_100_seeds_from_400_print_what_the_definitions_say(rt: HostRuntime) -> Result<(), Fail> {
    assert_eq!(rt; first_unlike(&rt, rt.alloc(), 400)?, None);
    Ok(())
}

#[test]
fn forks_of_100_seeds_from_500_print_what_the_definitions_say(rt: HostRuntime) -> Result<(), Fail> {
    assert_eq!(rt; first_unlike(&rt, rt.alloc(), 500)?, None);
    Ok(())
}

#[test]
fn forks_of_100_seeds_from_600_print_what_the_definitions_say(rt: HostRuntime) -> Result<(), Fail> {
    assert_eq!(rt; first_unlike(&rt, rt.alloc(), 600)?, None);
    Ok(())
}

#[test]
fn forks_of_100_seeds_from_700_print_what_the_definitions_say(rt: HostRuntime) -> Result<(), Fail> {
    assert_eq!(rt; first_unlike(&rt, rt.alloc(), 700)?, None);
    Ok(())
}

#[test]
fn forks_of_100_seeds_from_800_print_what_the_definitions_say(rt: HostRuntime) -> Result<(), Fail> {
    assert_eq!(rt; first_unlike(&rt, rt.alloc(), 800)?, None);
    Ok(())
}

#[test]
fn forks_of_100_seeds_from_900_print_what_the_definitions_say(rt: HostRuntime) -> Result<(), Fail> {
    assert_eq!(rt; first_unlike(&rt, rt.alloc(), 900)?, None);
    Ok(())
}

#[test]
fn forks_of_100_seeds_from_1000_print_what_the_definitions_say(
    rt: HostRuntime,
) -> Result<(), Fail> {
    assert_eq!(rt; first_unlike(&rt, rt.alloc(), 1_000)?, None);
    Ok(())
}

#[test]
fn forks_of_100_seeds_from_1100_print_what_the_definitions_say(
    rt: HostRuntime,
) -> Result<(), Fail> {
    assert_eq!(rt; first_unlike(&rt, rt.alloc(), 1_100)?, None);
    Ok(())
}

#[test]
fn forks_of_100_seeds_from_1200_print_what_the_definitions_say(
    rt: HostRuntime,
) -> Result<(), Fail> {
    assert_eq!(rt; first_unlike(&rt, rt.alloc(), 1_200)?, None);
    Ok(())
}

#[test]
fn forks_of_100_seeds_from_1300_print_what_the_definitions_say(
    rt: HostRuntime,
) -> Result<(), Fail> {
    assert_eq!(rt; first_unlike(&rt, rt.alloc(), 1_300)?, None);
    Ok(())
}

#[test]
fn forks_of_100_seeds_from_1400_print_what_the_definitions_say(
    rt: HostRuntime,
) -> Result<(), Fail> {
    assert_eq!(rt; first_unlike(&rt, rt.alloc(), 1_400)?, None);
    Ok(())
}

#[test]
fn forks_of_100_seeds_from_1500_print_what_the_definitions_say(
    rt: HostRuntime,
) -> Result<(), Fail> {
    assert_eq!(rt; first_unlike(&rt, rt.alloc(), 1_500)?, None);
    Ok(())
}

#[test]
fn forks_of_100_seeds_from_1600_print_what_the_definitions_say(
    rt: HostRuntime,
) -> Result<(), Fail> {
    assert_eq!(rt; first_unlike(&rt, rt.alloc(), 1_600)?, None);
    Ok(())
}

#[test]
fn forks_of_100_seeds_from_1700_print_what_the_definitions_say(
    rt: HostRuntime,
) -> Result<(), Fail> {
    assert_eq!(rt; first_unlike(&rt, rt.alloc(), 1_700)?, None);
    Ok(())
}

#[test]
fn forks_of_100_seeds_from_1800_print_what_the_definitions_say(
    rt: HostRuntime,
) -> Result<(), Fail> {
    assert_eq!(rt; first_unlike(&rt, rt.alloc(), 1_800)?, None);
    Ok(())
}

#[test]
fn forks_of_100_seeds_from_1900_print_what_the_definitions_say(
    rt: HostRuntime,
) -> Result<(), Fail> {
    assert_eq!(rt; first_unlike(&rt, rt.alloc(), 1_900)?, None);
    Ok(())
}
