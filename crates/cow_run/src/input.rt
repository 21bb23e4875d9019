// Reading a source to its end.
ghost use Rattle.std.specs.Prelude.{◌≡◌, ◌≤◌, IfOk, IsErrOf, OnErr};
ghost use Rattle.cow_port.specs.Causes.{Rose};
ghost use Rattle.cow_run.specs.Input.{ReadsWhole, ReadsTooMuch, ReadsPart, ReadsSome};

use cow_port::Source;
use std::alloc::{AllocError, Global};

/// The most bytes of a script.
const MAX_BYTES: usize = 1_048_576;

/// Why not all bytes were read.
#[derive(Clone, Copy, Debug, PartialEq, Eq)]
pub enum ReadStop {
    /// The source failed.
    Failed,
    /// Byte 1,048,577 was read.
    TooLong,
    NoMemory,
}

impl From<AllocError> for ReadStop {
    ghost use Rattle.std.specs.Prelude.{◌≡◌};
    ghost use Rattle.cow_run.specs.declared.input.ReadStop.TheVariants.{NoMemory};

    ghost from_gives = { λ _ e. e ≡ NoMemory };

    fn from(_: AllocError) -> Self {
        ReadStop::NoMemory
    }
}

/// All the bytes of a source, up to the most of a script. Each turn takes at least one byte, and no more
/// than 1,048,577 bytes are read in all.
pub fn read_all<S: Source>(alloc: Global, source: &mut S) -> Result<Vec<u8>, ReadStop>
    ensures whole { IfOk result
        (λ bytes. ReadsWhole (S.left source.old) (S.left source.new) bytes.items) }
    ensures too_long { IsErrOf result ReadStop.TooLong →
        ReadsTooMuch (S.left source.old) (S.left source.new) }
    ensures failed { IsErrOf result ReadStop.Failed →
        ReadsPart (S.left source.old) (S.left source.new) × Rose (S.faults source.old) (S.faults source.new) }
    ensures stopped { OnErr result (ReadsSome (S.left source.old) (S.left source.new)) }
    ensures later { S.faults source.old ≤ S.faults source.new }
{
    let mut bytes = Vec::new(alloc);
    let mut room = [0; 4096];
    while bytes.len() <= MAX_BYTES {
        let most = (MAX_BYTES + 1 - bytes.len()).min(room.len());
        let Ok(count) = source.read(&mut room[..most]) else {
            return Err(ReadStop::Failed);
        };
        if count == 0 {
            return Ok(bytes);
        }
        bytes.extend_from_slice(&room[..count])?;
    }
    Err(ReadStop::TooLong)
}
