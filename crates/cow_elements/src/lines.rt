// The lines that statements print, each whole or not at all.
ghost use Rattle.std.specs.Prelude.{◌≡◌, ◌++◌, codes, option_map, OnOk, OnErr};
ghost use Rattle.std.specs.Fmt.{decimal};
ghost use Rattle.std.specs.Io.{StartsWith};
ghost use Rattle.cow_model.specs.Printed.{atom_text, line, nil_or};
ghost use Rattle.cow_model.specs.Operation.{element};
ghost use Rattle.cow_model.specs.Printed as printed;

use crate::element::Element;
use crate::listed::Listed;
use cow_cell::Stock;
use cow_model::NoMemory;
use cow_print::whole_or_none;
use itoa::Buffer;

// The element and a newline. Want of memory leaves a part of them.
fn put_part<T: Element<Q>, Q: Stock>(x: &T, text: &mut Vec<u8>) -> Result<(), NoMemory>
    ensures ok { OnOk result (text.new.items ≡ text.old.items ++ line (atom_text (T.plain x.now))) }
    ensures front { StartsWith text.new.items text.old.items }
{
    x.put(text)?;
    text.push(b'\n')?;
    Ok(())
}

/// The line of an element.
pub fn put_element<T: Element<Q>, Q: Stock>(x: &T, text: &mut Vec<u8>) -> Result<(), NoMemory>
    ensures ok { OnOk result (text.new.items ≡ text.old.items ++ line (atom_text (T.plain x.now))) }
    ensures err { OnErr result (text.new.items ≡ text.old.items) }
{
    let before = text.len();
    let appended = put_part(x, text);
    whole_or_none(text, before, appended)
}

/// The line of an element, or `nil` where there is none.
pub fn put_or_nil<T: Element<Q>, Q: Stock>(
    x: Option<&T>,
    text: &mut Vec<u8>,
) -> Result<(), NoMemory>
    ensures ok { OnOk result (text.new.items ≡ text.old.items
        ++ line (nil_or atom_text (option_map (λ y. T.plain y.now) x.entry))) }
    ensures err { OnErr result (text.new.items ≡ text.old.items) }
{
    match x {
        Some(x) => put_element(x, text),
        None => put_nil(text),
    }
}

/// The line of the element at a place of a list, or `nil`.
pub fn put_element_at<T: Element<Q>, Q: Stock, L: Listed<T, Q>>(
    list: &L,
    place: usize,
    text: &mut Vec<u8>,
) -> Result<(), NoMemory>
    ensures ok { OnOk result (text.new.items ≡ text.old.items
        ++ line (element (L.elements list.now) place)) }
    ensures err { OnErr result (text.new.items ≡ text.old.items) }
{
    put_or_nil(list.at(place), text)
}

/// The line `nil`.
pub fn put_nil(text: &mut Vec<u8>) -> Result<(), NoMemory>
    ensures ok { OnOk result (text.new.items ≡ text.old.items ++ line (codes "nil")) }
    ensures err { OnErr result (text.new.items ≡ text.old.items) }
{
    text.extend_from_slice(b"nil\n")?;
    Ok(())
}

// The number and a newline. Want of memory leaves a part of them.
fn put_number_part(n: usize, text: &mut Vec<u8>) -> Result<(), NoMemory>
    ensures ok { OnOk result (text.new.items ≡ text.old.items ++ line (decimal n)) }
    ensures front { StartsWith text.new.items text.old.items }
{
    let mut buffer = Buffer::new();
    text.extend_from_slice(buffer.format(n).as_bytes())?;
    text.push(b'\n')?;
    Ok(())
}

/// The line of a number.
pub fn put_number(n: usize, text: &mut Vec<u8>) -> Result<(), NoMemory>
    ensures ok { OnOk result (text.new.items ≡ text.old.items ++ line (decimal n)) }
    ensures err { OnErr result (text.new.items ≡ text.old.items) }
{
    let before = text.len();
    let appended = put_number_part(n, text);
    whole_or_none(text, before, appended)
}

/// The line of `true` or `false`.
pub fn put_truth(is_true: bool, text: &mut Vec<u8>) -> Result<(), NoMemory>
    ensures ok { OnOk result (text.new.items ≡ text.old.items ++ line (printed.truth is_true)) }
    ensures err { OnErr result (text.new.items ≡ text.old.items) }
{
    let line: &[u8] = if is_true { b"true\n" } else { b"false\n" };
    text.extend_from_slice(line)?;
    Ok(())
}
