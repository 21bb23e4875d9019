// Lists up to the end of a line.
ghost use Rattle.std.specs.Prelude.{◌≡◌};
ghost use Rattle.cow_model.specs.Readers as spec;
ghost use Rattle.cow_lexis.specs.Reads.{Gives, Reads};
ghost use Rattle.cow_script.specs.Atoms.{one_more};

use crate::readers::name;
use crate::words::group;
use cow_lexis::{Stop, Tokens};
use cow_model::{Capture, Due, Flaw, Literal};
use sqlite_items::Items;
use std::alloc::Global;

/// The most atoms of a line.
const MAX_ATOMS: usize = 65_536;

// One more atom may stand behind `n` others.
fn one_more_atom(n: usize) -> Result<(), Flaw>
    ensures { result ≡ one_more n }
{
    if n >= MAX_ATOMS {
        return Err(Flaw::Limit {
            quantity: MAX_ATOMS as u64 + 1,
            bound: MAX_ATOMS as u64,
        });
    }
    Ok(())
}

/// Atoms are due up to the end of the line. Integers are asked for first.
pub fn all_atoms(alloc: Global, tokens: &mut Tokens<'_>) -> Result<Items<Literal>, Stop>
    ensures { Reads (spec.all_atoms tokens.old) result tokens.new }
{
    let mut atoms = Vec::new(alloc);
    let mut content = Vec::new(alloc);
    loop {
        if let Some(x) = tokens.next_integer() {
            one_more_atom(atoms.len())?;
            atoms.push(Literal::Int(x))?;
            continue;
        }
        let Some(atom) = tokens.next_atom(alloc, &mut content)? else {
            return Ok(Items::from_vec(atoms));
        };
        one_more_atom(atoms.len())?;
        atoms.push(atom)?;
    }
}

// A name of a group that moves, or doesn't.
fn captured(alloc: Global, moves: bool, token: &[u8]) -> Result<(Due, Option<Capture>), Stop>
    ensures { Gives (spec.captured moves token.now) result }
{
    let name = name(alloc, token)?;
    Ok((Due::NextName { moves }, Some(Capture { moves, name })))
}

// What is due behind a token, and what it captures.
fn capture(alloc: Global, due: Due, token: &[u8]) -> Result<(Due, Option<Capture>), Stop>
    ensures { Gives (spec.capture_of due token.now) result }
{
    match due {
        Due::Group => match group(token) {
            Some(moves) => Ok((Due::FirstName { moves }, None)),
            None => Err(Stop::Flaw(Flaw::BadWord)),
        },
        Due::FirstName { moves } => captured(alloc, moves, token),
        Due::NextName { moves } => match group(token) {
            Some(moves) => Ok((Due::FirstName { moves }, None)),
            None => captured(alloc, moves, token),
        },
    }
}

// Nothing more stands behind `task`.
fn captures_end(due: Due) -> Result<(), Flaw>
    ensures { result ≡ spec.captures_end due }
{
    match due {
        Due::FirstName { .. } => Err(Flaw::BadWord),
        Due::Group | Due::NextName { .. } => Ok(()),
    }
}

/// Groups of names are due up to the end of the line.
pub fn all_captures(alloc: Global, tokens: &mut Tokens<'_>) -> Result<Items<Capture>, Stop>
    ensures { Reads (spec.all_captures tokens.old) result tokens.new }
{
    let mut captures = Vec::new(alloc);
    let mut due = Due::Group;
    while let Some(token) = tokens.next() {
        let (next, found) = capture(alloc, due, token)?;
        if let Some(capture) = found {
            captures.push(capture)?;
        }
        due = next;
    }
    captures_end(due)?;
    Ok(Items::from_vec(captures))
}
