ghost use Rattle.std.specs.Prelude.{◌≡◌, ◌≢◌, ◌+◌, ◌<◌, [], ◌∷◌, length, take, drop, nat_le, slice_index};
ghost use Rattle.cow_model.specs.Lexis as spec;
ghost use Rattle.cow_model.specs.Lexis.{tokens_of};
ghost use Rattle.cow_model.specs.declared.reading.Quoting.TheVariants.{Start, Plain};
ghost use Rattle.cow_model.specs.declared.plain.Literal.TheVariants as literal;
ghost use Rattle.cow_lexis.specs.Cuts.{behind_token, cut_len, first_token, NextToken};
ghost use Rattle.cow_lexis.specs.Fronts.{TakesAtom, TakesToken};
ghost use Rattle.cow_lexis.specs.Reads.{Reads, atom_ahead};

use crate::atoms::{front_atom, front_int, front_plain_text};
use crate::places::{behind_byte, place_of};
use crate::stop::Stop;
use cow_model::{Bytes, Literal, Quoting};
use std::alloc::Global;
use std::marker::Model;

/// The tokens of a line that aren't read yet. They are slices of the line, and no call but
/// [`Tokens::next_atom`] takes memory.
#[derive(Drop)]
pub struct Tokens<'a> {
    rest: &'a [u8],
}

impl<'a> Model for Tokens<'a> {
    ghost use Rattle.std.specs.Prelude.{List, ℕ};
    ghost use Rattle.cow_model.specs.Lexis.{tokens_of};

    ghost Value = { List (List ℕ) };

    ghost view = { λ t. tokens_of t.rest.now };
}

fn is_cut(at: Quoting, byte: u8) -> bool
    ensures { result ≡ spec.is_cut at byte }
{
    match at {
        Quoting::Start | Quoting::Plain => byte == b' ',
        Quoting::Quoted | Quoting::Escaped => false,
    }
}

fn quoting_after(at: Quoting, byte: u8) -> Quoting
    ensures { result ≡ spec.quoting_after at byte }
{
    match at {
        Quoting::Start if byte == b'"' => Quoting::Quoted,
        Quoting::Start | Quoting::Plain => Quoting::Plain,
        Quoting::Quoted if byte == b'"' => Quoting::Plain,
        Quoting::Quoted if byte == b'\\' => Quoting::Escaped,
        Quoting::Quoted | Quoting::Escaped => Quoting::Quoted,
    }
}

// How many bytes stand before the first space.
fn plain_len(line: &[u8]) -> usize
    ensures { result ≡ cut_len Plain line.now }
{
    match place_of(b' ', line) {
        Some(at) => at,
        None => line.len(),
    }
}

// How many bytes stand before the first cut, where a text may stand among them.
fn quoted_len(line: &[u8]) -> usize
    ensures { result ≡ cut_len Start line.now }
{
    let mut at = Quoting::Start;
    for (i, byte) in line.iter().enumerate() {
        if is_cut(at, *byte) {
            return i;
        }
        at = quoting_after(at, *byte);
    }
    line.len()
}

// How many bytes stand before the first cut.
fn token_len(line: &[u8]) -> usize
    ensures { result ≡ cut_len Start line.now }
{
    match line {
        [b'"', ..] => quoted_len(line),
        _ => plain_len(line),
    }
}

// What stands before the first cut, and what stands behind it.
fn cut(line: &[u8]) -> (&[u8], &[u8])
    ensures before { result.0.now ≡ first_token line.now }
    ensures after { result.1.now ≡ behind_token line.now }
{
    let at = token_len(line);
    if at < line.len() {
        (&line[..at], &line[at + 1..])
    } else {
        (line, &[])
    }
}

// A line without the spaces that it begins with.
fn without_spaces(line: &[u8]) -> &[u8]
    ensures tokens { tokens_of result.now ≡ tokens_of line.now }
    ensures begins { 0 < length result.now → slice_index result.now 0 ≢ 32 }
{
    let mut rest = line;
    while let Some(more) = behind_byte(b' ', rest) {
        rest = more;
    }
    rest
}

// The first token of a line, and what stands behind it.
fn next_token(line: &[u8]) -> Option<(&[u8], &[u8])>
    ensures { NextToken line.now result }
{
    let line = without_spaces(line);
    if line.is_empty() {
        return None;
    }
    Some(cut(line))
}

impl<'a> Tokens<'a> {
    /// The tokens of a line.
    pub fn new(line: &'a [u8]) -> Tokens<'a>
        ensures { result ≡ tokens_of line.now }
    {
        Tokens { rest: line }
    }

    /// The next token. Linear in its bytes and the spaces before it.
    pub fn next(&mut self) -> Option<&'a [u8]>
        ensures { TakesToken self.old result self.new }
    {
        let (token, after) = next_token(self.rest)?;
        self.rest = after;
        Some(token)
    }

    /// The next token where it is an integer; else nothing is taken. Each byte is read once, and no memory is
    /// taken.
    #[inline(always)]
    pub fn next_integer(&mut self) -> Option<i64>
        ensures { TakesAtom literal.Int self.old result self.new }
    {
        let line = without_spaces(self.rest);
        if line.is_empty() || line[0] == b'"' {
            return None;
        }
        let (x, after) = front_int(line)?;
        self.rest = after;
        Some(x)
    }

    // The content of the next token where it is a text without escapes; else nothing is taken.
    #[inline(always)]
    fn next_plain_text(&mut self) -> Option<&'a [u8]>
        ensures { TakesAtom (λ content. literal.Text content.now) self.old result self.new }
    {
        let line = without_spaces(self.rest);
        if line.is_empty() {
            return None;
        }
        let (content, after) = front_plain_text(line)?;
        self.rest = after;
        Some(content)
    }

    // The atom that the next token is, or `None` where there is no token.
    #[inline(never)]
    fn next_other(&mut self, alloc: Global, content: &mut Vec<u8>) -> Result<Option<Literal>, Stop>
        ensures { Reads (atom_ahead self.old) result self.new }
    {
        let line = without_spaces(self.rest);
        if line.is_empty() {
            self.rest = line;
            return Ok(None);
        }
        let (atom, after) = front_atom(alloc, line, content)?;
        self.rest = after;
        Ok(Some(atom))
    }

    /// The atom that the next token is, or `None` where there is no token. A text up to its first escape
    /// is read twice, and else each byte once. A caller who expects integers asks [`Tokens::next_integer`] first,
    /// which is the shorter way to one. Only a text takes memory: one block where it has more than 30
    /// bytes, and the room of `content`, which holds nothing that is used again, where it has an escape.
    ///
    /// Errors: `Flaw` exactly as `atom_of` says of the token; `NoMemory`. After either, which tokens are left
    /// is not said.
    #[inline(always)]
    pub fn next_atom(
        &mut self,
        alloc: Global,
        content: &mut Vec<u8>,
    ) -> Result<Option<Literal>, Stop>
        ensures { Reads (atom_ahead self.old) result self.new }
    {
        if let Some(content) = self.next_plain_text() {
            return Ok(Some(Literal::Text(Bytes::from_slice(alloc, content)?)));
        }
        Ok(self.next_other(alloc, content)?)
    }

    /// Whether three tokens are left at least. Reads those three alone.
    pub fn are_three(&self) -> bool
        ensures { result ≡ nat_le 3 (length self.now) }
    {
        let mut ahead = Tokens { rest: self.rest };
        ahead.next().is_some() && ahead.next().is_some() && ahead.next().is_some()
    }
}
