// The lines that name a line of the script or tell the copies, built in room of their own: they take no memory.
ghost use Rattle.std.specs.Prelude.{◌≡◌, ◌+◌, ◌≤◌, ◌++◌, length};
ghost use Rattle.std.specs.Fmt.{decimal};
ghost use Rattle.cow_run.specs.Lines.{at_line, over_text, fault_text, not_built_text, census_text};

use arrayvec::ArrayVec;
use cow_script::ParseFault;
use itoa::Buffer;

/// A line.
pub type Line = ArrayVec<u8, 128>;

// Appends a number, which has at most 20 digits.
fn put_number(line: &mut Line, number: u64)
    requires room { length line.old.items + 20 ≤ 128 }
    ensures number { line.new.items ≡ line.old.items ++ decimal number }
    ensures length { length line.new.items ≤ length line.old.items + 20 }
{
    let mut digits = Buffer::new();
    line.try_extend_from_slice(digits.format(number).as_bytes())
        .unwrap();
}

// The line of a line of the script, of which `what` is said.
fn at_line(number: u64, what: &[u8]) -> Line
    requires short { length what.now ≤ 65 }
    ensures line { result.items ≡ at_line number what.now }
{
    let mut line = Line::new();
    line.try_extend_from_slice(b"line ").unwrap();
    put_number(&mut line, number);
    line.try_extend_from_slice(what).unwrap();
    line
}

// What is said of a limit behind the number of its line.
fn over_limit(quantity: u64, bound: u64) -> Line
    ensures text { result.items ≡ over_text quantity bound }
    ensures length { length result.items ≤ 65 }
{
    let mut line = Line::new();
    line.try_extend_from_slice(b": ").unwrap();
    put_number(&mut line, quantity);
    line.try_extend_from_slice(b" is over the limit of ")
        .unwrap();
    put_number(&mut line, bound);
    line.try_extend_from_slice(b"\n").unwrap();
    line
}

/// The line of a fault of the script.
pub fn fault_line(fault: ParseFault) -> Line
    ensures { result.items ≡ fault_text fault }
{
    match fault {
        ParseFault::BadWord { line } => at_line(line, b": bad word\n"),
        ParseFault::BadAtom { line } => at_line(line, b": bad atom\n"),
        ParseFault::BadName { line } => at_line(line, b": bad name\n"),
        ParseFault::ForkShape { line } => at_line(line, b": bad fork\n"),
        ParseFault::Limit {
            line,
            quantity,
            bound,
        } => at_line(line, over_limit(quantity, bound).as_slice()),
    }
}

/// The line of a statement that isn't built.
pub fn not_built_line(line: u64) -> Line
    ensures { result.items ≡ not_built_text line }
{
    at_line(line, b": not built\n")
}

/// The line of the census.
pub fn census_line(copied: u64, most: u64) -> Line
    ensures { result.items ≡ census_text copied most }
{
    let mut line = Line::new();
    line.try_extend_from_slice(b"copied ").unwrap();
    put_number(&mut line, copied);
    line.try_extend_from_slice(b" of at most ").unwrap();
    put_number(&mut line, most);
    line.try_extend_from_slice(b"\n").unwrap();
    line
}
