// The atom at the front of a line.
ghost use Rattle.std.specs.Prelude.{◌∷◌};
ghost use Rattle.cow_lexis.specs.Cuts.{BehindEnd};
ghost use Rattle.cow_lexis.specs.Fronts.{FrontInt, FrontText};
ghost use Rattle.cow_lexis.specs.Reads.{ReadsFront};

use crate::integers::front_integer;
use crate::places::{behind_byte, next_escape};
use crate::stop::Stop;
use crate::texts::front_content;
use cow_model::{Bytes, Flaw, Literal};
use std::alloc::Global;

/// The most bytes of a text.
const MAX_TEXT: usize = 255;

// What stands behind a token that ends here, or `None` where it goes on.
#[inline(always)]
fn behind(rest: &[u8]) -> Option<&[u8]>
    ensures { BehindEnd rest.now result }
{
    match rest {
        [] => Some(rest),
        [b' ', after @ ..] => Some(after),
        _ => None,
    }
}

// The text at the front of a line, whose opening quote is read. `content` is room for its content.
#[inline(never)]
fn front_text<'a>(
    alloc: Global,
    text: &'a [u8],
    content: &mut Vec<u8>,
) -> Result<(Literal, &'a [u8]), Stop>
    ensures { ReadsFront (34 ∷ text.now) result }
{
    let Some(rest) = front_content(text, content)? else {
        return Err(Stop::Flaw(Flaw::BadAtom));
    };
    let Some(after) = behind(rest) else {
        return Err(Stop::Flaw(Flaw::BadAtom));
    };
    let quantity = content.len();
    if quantity > MAX_TEXT {
        return Err(Stop::Flaw(Flaw::Limit {
            quantity: quantity as u64,
            bound: MAX_TEXT as u64,
        }));
    }
    let bytes = Bytes::from_slice(alloc, content)?;
    Ok((Literal::Text(bytes), after))
}

/// The content of the text that the first token of a line is, where it has no escape and no more than 255
/// bytes, and what stands behind that token. Each byte is read once.
#[inline(always)]
pub(crate) fn front_plain_text(line: &[u8]) -> Option<(&[u8], &[u8])>
    ensures { FrontText line.now result }
{
    let text = behind_byte(b'"', line)?;
    let (content, byte, rest) = next_escape(text)?;
    if byte != b'"' {
        return None;
    }
    if content.len() > MAX_TEXT {
        return None;
    }
    Some((content, behind(rest)?))
}

/// The integer that the first token of a line is, and what stands behind that token. Each byte is read
/// once.
#[inline(always)]
pub(crate) fn front_int(line: &[u8]) -> Option<(i64, &[u8])>
    ensures { FrontInt line.now result }
{
    let (x, len) = front_integer(line)?;
    Some((x, behind(&line[len..])?))
}

/// The atom that the first token of a line is, and what stands behind that token. Each byte is read once.
/// `content` is room for the content of a text.
pub(crate) fn front_atom<'a>(
    alloc: Global,
    line: &'a [u8],
    content: &mut Vec<u8>,
) -> Result<(Literal, &'a [u8]), Stop>
    ensures { ReadsFront line.now result }
{
    if let Some(text) = behind_byte(b'"', line) {
        return front_text(alloc, text, content);
    }
    match front_int(line) {
        Some((x, after)) => Ok((Literal::Int(x), after)),
        None => Err(Stop::Flaw(Flaw::BadAtom)),
    }
}
