// One line: its tests, in their order.
ghost use Rattle.std.specs.Prelude.{◌≡◌};
ghost use Rattle.cow_model.specs.Parse as spec;
ghost use Rattle.cow_model.specs.declared.word.Word.TheVariants as word;
ghost use Rattle.cow_lexis.specs.Reads.{Gives};

use crate::lists::all_captures;
use crate::readers::{due_token, no_more};
use crate::standing::{counted, ended, forked, stands, stated, tasked};
use crate::statement::statement;
use crate::words::{is_word, word};
use cow_lexis::{Stop, Tokens, is_printable};
use cow_model::{Flaw, Form, Reading, Word};
use std::alloc::Global;

// Adds a statement of this form.
#[tactic(auto, unfolding(cow_model::specs::Parse::read_on))]
fn read_statement(
    alloc: Global,
    line: u64,
    form: Form,
    count: u64,
    reading: Reading,
    tokens: &mut Tokens<'_>,
) -> Result<Reading, Stop>
    ensures { Gives (spec.read_on line (word.Statement form) count reading tokens.old) result }
{
    let statement = statement(alloc, line, form, tokens)?;
    Ok(stated(count, statement, reading)?)
}

// Opens a fork.
#[tactic(auto, unfolding(cow_model::specs::Parse::read_on))]
fn read_fork(
    alloc: Global,
    line: u64,
    count: u64,
    reading: Reading,
    tokens: &mut Tokens<'_>,
) -> Result<Reading, Stop>
    ensures { Gives (spec.read_on line word.Fork count reading tokens.old) result }
{
    no_more(tokens)?;
    Ok(forked(alloc, line, reading))
}

// Opens a task with what it captures.
#[tactic(auto, unfolding(cow_model::specs::Parse::read_on))]
fn read_task(
    alloc: Global,
    line: u64,
    count: u64,
    reading: Reading,
    tokens: &mut Tokens<'_>,
) -> Result<Reading, Stop>
    ensures { Gives (spec.read_on line word.Task count reading tokens.old) result }
{
    let captures = all_captures(alloc, tokens)?;
    Ok(tasked(alloc, line, captures, reading))
}

// Closes the task or the fork that is open.
#[tactic(auto, unfolding(cow_model::specs::Parse::read_on))]
fn read_end(
    line: u64,
    count: u64,
    reading: Reading,
    tokens: &mut Tokens<'_>,
) -> Result<Reading, Stop>
    ensures { Gives (spec.read_on line word.End count reading tokens.old) result }
{
    no_more(tokens)?;
    Ok(ended(reading)?)
}

// Adds what the tokens behind the first word say.
fn read_on(
    alloc: Global,
    line: u64,
    word: Word,
    count: u64,
    reading: Reading,
    tokens: &mut Tokens<'_>,
) -> Result<Reading, Stop>
    ensures { Gives (spec.read_on line word count reading tokens.old) result }
{
    match word {
        Word::Statement(form) => read_statement(alloc, line, form, count, reading, tokens),
        Word::Fork => read_fork(alloc, line, count, reading, tokens),
        Word::Task => read_task(alloc, line, count, reading, tokens),
        Word::End => read_end(line, count, reading, tokens),
    }
}

// A line that isn't skipped: its first word, where it stands, how many there are, its other tokens.
#[tactic(auto, unfolding(cow_model::specs::Parse::told))]
fn told(
    alloc: Global,
    line: u64,
    first: &[u8],
    reading: Reading,
    tokens: &mut Tokens<'_>,
) -> Result<Reading, Stop>
    ensures { Gives (spec.told line first.now tokens.old reading) result }
{
    let word = word(first).ok_or(Flaw::BadWord)?;
    stands(word, &reading.standing)?;
    let count = counted(word, &reading.standing)?;
    read_on(alloc, line, word, count, reading, tokens)
}

fn is_heading(first: &[u8]) -> bool
    ensures { result ≡ spec.is_heading first.now }
{
    is_word(first, b"#cow")
}

// A line that begins with `#`: `#cow 1` as the first line, or a comment.
#[tactic(auto, unfolding(cow_model::specs::Parse::remark))]
fn remark(line: u64, first: &[u8], tokens: &mut Tokens<'_>) -> Result<(), Stop>
    ensures { Gives (spec.remark line first.now tokens.old) result }
{
    if !is_heading(first) {
        return Ok(());
    }
    if line != 1 {
        return Err(Stop::Flaw(Flaw::BadWord));
    }
    due_token(b"1", tokens)?;
    no_more(tokens)
}

fn is_remark(first: &[u8]) -> bool
    ensures { result ≡ spec.is_remark first.now }
{
    matches!(first, [b'#', ..])
}

// Adds what the tokens of a line say.
#[tactic(auto, unfolding(cow_model::specs::Parse::with_tokens))]
fn with_tokens(
    alloc: Global,
    line: u64,
    reading: Reading,
    tokens: &mut Tokens<'_>,
) -> Result<Reading, Stop>
    ensures { Gives (spec.with_tokens line tokens.old reading) result }
{
    let Some(first) = tokens.next() else {
        return Ok(reading);
    };
    if is_remark(first) {
        remark(line, first, tokens)?;
        return Ok(reading);
    }
    told(alloc, line, first, reading, tokens)
}

/// Adds what a line says to what was read.
#[tactic(auto, unfolding(cow_model::specs::Parse::with_line))]
pub fn with_line(alloc: Global, line: u64, text: &[u8], reading: Reading) -> Result<Reading, Stop>
    ensures { Gives (spec.with_line line text.now reading) result }
{
    if !is_printable(text) {
        return Err(Stop::Flaw(Flaw::BadWord));
    }
    with_tokens(alloc, line, reading, &mut Tokens::new(text))
}
