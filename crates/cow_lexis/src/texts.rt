// The content of a text, read from the front of a line.
ghost use Rattle.std.specs.Prelude.{◌≡◌, ◌<◌, length, IfOk, IfSome};
ghost use Rattle.cow_model.specs.Atom.{is_escapable};
ghost use Rattle.cow_lexis.specs.Cuts.{EscapedByte, ReadsContent, ReadsEscaped};

use crate::places::next_escape;
use cow_model::NoMemory;

fn is_escapable(byte: u8) -> bool
    ensures { result ≡ is_escapable byte }
{
    byte == b'"' || byte == b'\\'
}

// The byte right behind a `\`, where that may stand before it, and what stands behind it.
fn behind_backslash(text: &[u8]) -> Option<(u8, &[u8])>
    ensures front { EscapedByte text.now result }
    ensures shorter { IfSome result (λ cut. length cut.1.now < length text.now) }
{
    match text {
        [byte, more @ ..] if is_escapable(*byte) => Some((*byte, more)),
        _ => None,
    }
}

// Appends the content right behind a `\`, and answers what stands behind the closing quote, or `None` where there
// is no text. Each run between two escapes is appended in one piece.
fn read_escaped<'a>(text: &'a [u8], content: &mut Vec<u8>) -> Result<Option<&'a [u8]>, NoMemory>
    ensures { IfOk result (ReadsEscaped text.now content.old.items content.new.items) }
{
    let mut rest = text;
    while let Some((escaped, more)) = behind_backslash(rest) {
        content.push(escaped)?;
        let Some((run, byte, after)) = next_escape(more) else {
            return Ok(None);
        };
        content.extend_from_slice(run)?;
        if byte == b'"' {
            return Ok(Some(after));
        }
        rest = after;
    }
    Ok(None)
}

/// Puts the content of the text whose opening quote is read into `content`, in the place of what that held, and
/// answers what stands behind its closing quote, or `None` where there is no text. Each run between two escapes
/// is copied in one piece. Takes no memory but the room of `content`.
pub(crate) fn front_content<'a>(
    text: &'a [u8],
    content: &mut Vec<u8>,
) -> Result<Option<&'a [u8]>, NoMemory>
    ensures { IfOk result (ReadsContent text.now content.new.items) }
{
    let Some((run, byte, after)) = next_escape(text) else {
        return Ok(None);
    };
    content.clear();
    content.extend_from_slice(run)?;
    if byte == b'"' {
        return Ok(Some(after));
    }
    match read_escaped(after, content)? {
        Some(behind) => Ok(Some(behind)),
        None => Ok(None),
    }
}
