// The first place of a byte.
ghost use Rattle.std.specs.Prelude.{◌≡◌, ◌==◌};
ghost use Rattle.std.specs.List.{position};
ghost use Rattle.memchr.specs.Find.{IsFirstByte, is_byte2};
ghost use Rattle.cow_lexis.specs.Cuts.{BehindByte, FirstEscape};

use memchr::{memchr, memchr2};

/// The first place of this byte in a text.
pub(crate) fn place_of(byte: u8, text: &[u8]) -> Option<usize>
    ensures { result ≡ position (λ b. b == byte) text.now }
{
    memchr(byte, text)
}

/// What stands behind this byte, where a text begins with it.
#[inline(always)]
pub(crate) fn behind_byte(byte: u8, text: &[u8]) -> Option<&[u8]>
    ensures { BehindByte byte text.now result }
{
    match text {
        [first, more @ ..] if *first == byte => Some(more),
        _ => None,
    }
}

// The first place of a `"` or a `\`.
#[inline(never)]
fn place_of_escape(text: &[u8]) -> Option<usize>
    ensures { IsFirstByte (is_byte2 34 92) text.now result }
{
    memchr2(b'"', b'\\', text)
}

/// The bytes before the first `"` or `\`, that byte, and what stands behind it; `None` where a text has
/// neither. Linear in the bytes before it. Takes no memory.
#[inline(always)]
pub fn next_escape(text: &[u8]) -> Option<(&[u8], u8, &[u8])>
    ensures { FirstEscape text.now result }
{
    match place_of_escape(text) {
        Some(at) => Some((&text[..at], text[at], &text[at + 1..])),
        None => None,
    }
}
