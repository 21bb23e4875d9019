ghost use Rattle.std.specs.Prelude.{◌≡◌};
ghost use Rattle.cow_model.specs.Parse as spec;
ghost use Rattle.cow_model.specs.Parse.{script_of};
ghost use Rattle.cow_script.specs.Reads.{Parses, stop_at};

use crate::line::with_line;
use cow_lexis::{Stop, next_line};
use cow_model::{Flaw, ParseFault, Reading, Script, Standing};
use sqlite_items::Items;
use std::alloc::Global;
use thiserror::Error;

/// Why no script was read.
#[derive(Clone, Copy, Debug, PartialEq, Eq, Error)]
pub enum ParseStop {
    /// What is wrong with the first faulty line.
    #[error("{0}")]
    Fault(ParseFault),
    #[error("out of memory")]
    NoMemory,
}

fn fault_at(line: u64, flaw: Flaw) -> ParseFault
    ensures { result ≡ spec.fault_at line flaw }
{
    match flaw {
        Flaw::BadWord => ParseFault::BadWord { line },
        Flaw::BadAtom => ParseFault::BadAtom { line },
        Flaw::BadName => ParseFault::BadName { line },
        Flaw::ForkShape => ParseFault::ForkShape { line },
        Flaw::Limit { quantity, bound } => ParseFault::Limit {
            line,
            quantity,
            bound,
        },
    }
}

fn stop_at(line: u64, stop: Stop) -> ParseStop
    ensures { result ≡ stop_at line stop }
{
    match stop {
        Stop::Flaw(flaw) => ParseStop::Fault(fault_at(line, flaw)),
        Stop::NoMemory => ParseStop::NoMemory,
    }
}

// The script that was read, where no fork is open.
fn closed(reading: Reading) -> Result<Script, ParseStop>
    ensures { Parses (spec.closed reading.statements reading.standing) result }
{
    match reading.standing {
        Standing::Outside => Ok(Script {
            statements: reading.statements,
        }),
        Standing::InFork { fork, .. } | Standing::InTask { fork, .. } => {
            Err(ParseStop::Fault(ParseFault::ForkShape { line: fork }))
        }
    }
}

/// The script that the bytes are.
///
/// Errors: `Fault` exactly where the bytes are no script, with what is wrong with their first faulty
/// line, or with the line of a fork that has no end; `NoMemory`. Takes time linear in the number of
/// bytes, and memory for texts, names and lists alone.
pub fn parse(alloc: Global, bytes: &[u8]) -> Result<Script, ParseStop>
    ensures { Parses (script_of bytes.now) result }
{
    let mut reading = Reading {
        statements: Items::new(alloc),
        standing: Standing::Outside,
    };
    let mut rest = bytes;
    let mut line = 0u64;
    while let Some((empty, text, after)) = next_line(rest) {
        line += empty as u64 + 1;
        match with_line(alloc, line, text, reading) {
            Ok(more) => reading = more,
            Err(stop) => return Err(stop_at(line, stop)),
        }
        rest = after;
    }
    closed(reading)
}
