// Random scripts over the statements that are built, against the plain program of the definitions.
use crate::numbers::Numbers;
use crate::program::{CENSUS, Ended, Ran, run_with};
use crate::yardstick::RULES;
use cow_plain::{Told, run_script};
use cow_run::Status;
use std::alloc::{AllocError, Global};
use std::test::Fail;
use std::thread::Threads;

/// How many scripts a test runs, and how many lines each has.
const SCRIPTS: u64 = 500;

const LINES: u64 = 24;

/// A line outside of forks alone.
const VIEW: &str = "lazy N R V\n";

/// The script of a seed. One line in eight is a lazy statement.
fn script_of(alloc: Global, seed: u64) -> Result<Vec<u8>, AllocError> {
    let mut numbers = Numbers::of(seed);
    let mut script = Vec::new(alloc);
    for _ in 0..LINES {
        if numbers.next() % 8 == 0 {
            numbers.put(VIEW, &mut script)?;
        } else {
            numbers.line(&mut script)?;
        }
    }
    Ok(script)
}

/// The text of the definitions, and the line of the census behind it.
fn text_of(alloc: Global, told: &Told, copied: u64) -> Result<Vec<u8>, Fail> {
    let census = format!(in alloc; "copied {copied} of at most {}\n", told.bound)?;
    let mut text = Vec::from_slice(alloc, told.text.as_slice())?;
    text.extend_from_slice(census.as_bytes())?;
    Ok(text)
}

/// Whether a run by these words, `--census` among them, prints what the definitions say, and copies within
/// their bounds.
pub fn is_as_told<R: Threads + Sync>(
    rt: &R,
    alloc: Global,
    words: &[&str],
    script: &[u8],
    told: &Told,
) -> Result<bool, Fail> {
    let Ran { ended, text } = run_with(rt, alloc, words, script)?;
    let Ended { status, copied, .. } = ended;
    let is_within = told.least <= copied && copied <= told.bound;
    let wanted = text_of(alloc, told, copied)?;
    Ok(status == Status::Ok && is_within && text.as_slice() == wanted.as_slice())
}

/// Whether a script is run as the definitions say.
pub fn runs_as_defined<R: Threads + Sync>(
    rt: &R,
    alloc: Global,
    script: &[u8],
) -> Result<bool, Fail> {
    let Ok(Ok(told)) = run_script(alloc, script, &RULES) else {
        return Err("no script, or no memory".into());
    };
    is_as_told(rt, alloc, CENSUS, script, &told)
}

/// Whether the script of a seed is.
fn is_as_defined<R: Threads + Sync>(rt: &R, alloc: Global, seed: u64) -> Result<bool, Fail> {
    let script = script_of(alloc, seed)?;
    runs_as_defined(rt, alloc, script.as_slice())
}

/// The first of a test's seeds, which begin at this one, whose script isn't.
fn first_unlike<R: Threads + Sync>(rt: &R, alloc: Global, first: u64) -> Result<Option<u64>, Fail> {
    for more in 0..SCRIPTS {
        let seed = first.wrapping_add(more);
        if !is_as_defined(rt, alloc, seed)? {
            return Ok(Some(seed));
        }
    }
    Ok(None)
}

#[test]
fn scripts_of_500_seeds_from_0_print_what_the_definitions_say(rt: HostRuntime) -> Result<(), Fail> {
    assert_eq!(rt; first_unlike(&rt, rt.alloc(), 0)?, None);
    Ok(())
}

#[test]
fn scripts_of_500_seeds_from_500_print_what_the_definitions_say(
    rt: HostRuntime,
) -> Result<(), Fail> {
    assert_eq!(rt; first_unlike(&rt, rt.alloc(), 500)?, None);
    Ok(())
}

#[test]
fn scripts_of_500_seeds_from_1000_print_what_the_definitions_say(
    rt: HostRuntime,
) -> Result<(), Fail> {
    assert_eq!(rt; first_unlike(&rt, rt.alloc(), 1_000)?, None);
    Ok(())
}

#[test]
fn scripts_of_500_seeds_from_1500_print_what_the_definitions_say(
    rt: HostRuntime,
) -> Result<(), Fail> {
    assert_eq!(rt; first_unlike(&rt, rt.alloc(), 1_500)?, None);
    Ok(())
}

#[test]
fn scripts_of_500_seeds_from_2000_print_what_the_definitions_say(
    rt: HostRuntime,
) -> Result<(), Fail> {
    assert_eq!(rt; first_unlike(&rt, rt.alloc(), 2_000)?, None);
    Ok(())
}

#[test]
fn scripts_of_500_seeds_from_2500_print_what_the_definitions_say(
    rt: HostRuntime,
) -> Result<(), Fail> {
    assert_eq!(rt; first_unlike(&rt, rt.alloc(), 2_500)?, None);
    Ok(())
}
