// Writing texts to a sink.
ghost use Rattle.std.specs.Prelude.{◌≡◌, ◌≤◌, OnOk, OnErr};
ghost use Rattle.std.specs.Io.KnownBytes.{Appends};
ghost use Rattle.cow_port.specs.Causes.{Rose};
ghost use Rattle.cow_run.specs.Lines.{usage_text, not_built_text, fault_text, census_if};
ghost use Rattle.cow_run.specs.Output.{WritesFront, WritesLine};

use crate::lines::{census_line, fault_line, not_built_line};
use cow_port::{Failed, Sink};
use cow_script::ParseFault;

/// The line that tells how the program is used.
const USAGE: &[u8] = b"usage: cowrun run [--workers w] [--census] | make SEED N | judge\n";

/// Writes all of a text in one piece, and what is left behind a part that was taken in one piece again.
/// An empty text makes no call.
#[tactic(auto, using(crate::proofs::Known::appends_take))]
pub fn write_all<K: Sink>(sink: &mut K, text: &[u8]) -> Result<(), Failed>
    ensures ok { OnOk result (Appends (K.held sink.old) (K.held sink.new) text.now) }
    ensures err { OnErr result (WritesFront (K.held sink.old) (K.held sink.new) text.now) }
    ensures failed { OnErr result (Rose (K.faults sink.old) (K.faults sink.new)) }
    ensures later { K.faults sink.old ≤ K.faults sink.new }
{
    let mut at = 0;
    while at < text.len() {
        at += sink.write(&text[at..])?;
    }
    Ok(())
}

/// Writes the usage line. A write that fails there is told by the sink's faults alone.
pub fn write_usage<K: Sink>(sink: &mut K)
    ensures line { WritesLine (K.held sink.old) (K.held sink.new)
        (Rose (K.faults sink.old) (K.faults sink.new)) usage_text }
    ensures later { K.faults sink.old ≤ K.faults sink.new }
{
    let _ = write_all(sink, USAGE);
}

/// Writes the line of a statement that isn't built. A write that fails there is told by the sink's faults
/// alone. Takes no memory.
pub fn write_not_built<K: Sink>(sink: &mut K, line: u64)
    ensures line { WritesLine (K.held sink.old) (K.held sink.new)
        (Rose (K.faults sink.old) (K.faults sink.new)) (not_built_text line) }
    ensures later { K.faults sink.old ≤ K.faults sink.new }
{
    let _ = write_all(sink, not_built_line(line).as_slice());
}

/// Writes the line of a fault of the script. A write that fails there is told by the sink's faults alone.
/// Takes no memory.
pub fn write_fault<K: Sink>(sink: &mut K, fault: ParseFault)
    ensures line { WritesLine (K.held sink.old) (K.held sink.new)
        (Rose (K.faults sink.old) (K.faults sink.new)) (fault_text fault) }
    ensures later { K.faults sink.old ≤ K.faults sink.new }
{
    let _ = write_all(sink, fault_line(fault).as_slice());
}

/// Writes the line of the census in one piece, where it is asked for. Takes no memory.
pub fn write_census<K: Sink>(
    sink: &mut K,
    census: bool,
    copied: u64,
    most: u64,
) -> Result<(), Failed>
    ensures ok { OnOk result (Appends (K.held sink.old) (K.held sink.new)
        (census_if census copied most)) }
    ensures err { OnErr result (WritesFront (K.held sink.old) (K.held sink.new)
        (census_if census copied most)) }
    ensures failed { OnErr result (Rose (K.faults sink.old) (K.faults sink.new)) }
    ensures later { K.faults sink.old ≤ K.faults sink.new }
{
    if !census {
        return write_all(sink, &[]);
    }
    write_all(sink, census_line(copied, most).as_slice())
}
