// Lines, cut off the front of a text.
ghost use Rattle.std.specs.Prelude.{◌≡◌, ◌+◌, ◌<◌, ◌∷◌, ◌==◌, length, IfSome};
ghost use Rattle.std.specs.List.{before_first, after_first};
ghost use Rattle.cow_model.specs.Lexis as spec;
ghost use Rattle.cow_lexis.specs.Cuts.{NextLine, with_empty};

use crate::places::{behind_byte, place_of};

// What stands before the first such byte, and what stands behind it.
fn cut(text: &[u8], byte: u8) -> (&[u8], &[u8])
    ensures before { result.0.now ≡ before_first (λ b. b == byte) text.now }
    ensures after { result.1.now ≡ after_first (λ b. b == byte) text.now }
    ensures shorter { 0 < length text.now → length result.1.now < length text.now }
{
    match place_of(byte, text) {
        Some(at) => (&text[..at], &text[at + 1..]),
        None => (text, &[]),
    }
}

// What stands behind eight newlines, where a text begins with them.
fn behind_eight(text: &[u8]) -> Option<&[u8]>
    ensures { IfSome result (λ more. text.now ≡ 10 ∷ 10 ∷ 10 ∷ 10 ∷ 10 ∷ 10 ∷ 10 ∷ 10 ∷ more.now) }
{
    match text {
        [
            b'\n',
            b'\n',
            b'\n',
            b'\n',
            b'\n',
            b'\n',
            b'\n',
            b'\n',
            more @ ..,
        ] => Some(more),
        _ => None,
    }
}

// How many newlines a text begins with, and what stands behind them. Takes eight at a time.
fn skip_newlines(text: &[u8]) -> (usize, &[u8])
    ensures lines { spec.lines_of text.now ≡ with_empty result.0 (spec.lines_of result.1.now) }
    ensures bytes { result.0 + length result.1.now ≡ length text.now }
{
    let mut rest = text;
    while let Some(more) = behind_eight(rest) {
        rest = more;
    }
    while let Some(more) = behind_byte(b'\n', rest) {
        rest = more;
    }
    (text.len() - rest.len(), rest)
}

/// The first line of a text that isn't empty, with the number of empty ones before it, and what stands
/// behind its newline; `None` where no line or none but empty ones are left. Linear in the bytes up to that
/// newline, and takes no memory.
pub fn next_line(text: &[u8]) -> Option<(usize, &[u8], &[u8])>
    ensures line { NextLine text.now result }
    ensures bytes { IfSome result (λ cut. cut.0 + length cut.2.now < length text.now) }
{
    let (empty, rest) = skip_newlines(text);
    if rest.is_empty() {
        return None;
    }
    let (line, after) = cut(rest, b'\n');
    Some((empty, line, after))
}

fn is_printable_byte(byte: u8) -> bool
    ensures { result ≡ spec.is_printable_byte byte }
{
    b' ' <= byte && byte <= b'~'
}

/// Whether a line has only the bytes that a script may have. Looks at each byte, many at a time, and takes
/// no memory.
pub fn is_printable(line: &[u8]) -> bool
    ensures { result ≡ spec.is_printable line.now }
{
    let mut all = true;
    for byte in line {
        all &= is_printable_byte(*byte);
    }
    all
}
