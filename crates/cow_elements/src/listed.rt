// What shows a list of elements, and how that is printed.
ghost use Rattle.std.specs.Prelude.{◌≡◌, ◌<◌, ◌^◌, ◌++◌, List, map, drop, codes, length, option_map, slice_get, OnOk, OnErr};
ghost use Rattle.std.specs.Fmt.{decimal};
ghost use Rattle.std.specs.Io.{StartsWith};
ghost use Rattle.std.specs.List.{flat_map};
ghost use Rattle.cow_model.specs.Printed.{atom_text, behind_comma, list_text, separated};
ghost use Rattle.cow_model.specs.declared.plain.Literal.{Literal};

use crate::element::Element;
use cow_cell::Stock;
use cow_model::NoMemory;
use itoa::Buffer;

/// What shows a list of elements.
pub trait Listed<T: Element<Q>, Q: Stock> {
    /// The list.
    ghost elements: { Self → List Literal };

    fn size(&self) -> usize
        ensures { result ≡ length (elements self.now) };

    /// The element at a place; `None` exactly where there is none.
    fn at(&self, place: usize) -> Option<&T>
        ensures { option_map (λ x. T.plain x.now) result ≡ slice_get (elements self.now) place };
}

fn put_behind_comma<T: Element<Q>, Q: Stock>(x: &T, text: &mut Vec<u8>) -> Result<(), NoMemory>
    ensures ok { OnOk result
        (text.new.items ≡ text.old.items ++ behind_comma (atom_text (T.plain x.now))) }
    ensures front { StartsWith text.new.items text.old.items }
{
    text.extend_from_slice(b", ")?;
    x.put(text)?;
    Ok(())
}

// The elements but the first, each behind a comma.
fn put_others<T: Element<Q>, Q: Stock, L: Listed<T, Q>>(
    list: &L,
    text: &mut Vec<u8>,
) -> Result<(), NoMemory>
    ensures ok { OnOk result (text.new.items ≡ text.old.items
        ++ flat_map behind_comma (map atom_text (drop 1 (L.elements list.now)))) }
    ensures front { StartsWith text.new.items text.old.items }
{
    for place in 1..list.size() {
        match list.at(place) {
            Some(x) => put_behind_comma(x, text)?,
            None => unreachable!(),
        }
    }
    Ok(())
}

// The elements with commas between them.
fn put_separated<T: Element<Q>, Q: Stock, L: Listed<T, Q>>(
    list: &L,
    text: &mut Vec<u8>,
) -> Result<(), NoMemory>
    ensures ok { OnOk result (text.new.items ≡ text.old.items
        ++ separated (map atom_text (L.elements list.now))) }
    ensures front { StartsWith text.new.items text.old.items }
{
    match list.at(0) {
        None => Ok(()),
        Some(x) => {
            x.put(text)?;
            put_others(list, text)
        }
    }
}

/// The printed form of a list. Want of memory leaves a part of it.
pub fn put_list<T: Element<Q>, Q: Stock, L: Listed<T, Q>>(
    list: &L,
    text: &mut Vec<u8>,
) -> Result<(), NoMemory>
    ensures ok { OnOk result (text.new.items ≡ text.old.items ++ list_text (L.elements list.now)) }
    ensures front { StartsWith text.new.items text.old.items }
{
    text.extend_from_slice(b"[")?;
    put_separated(list, text)?;
    text.extend_from_slice(b"]")?;
    Ok(())
}

/// The printed form of a list, and then ` from ` and its start. Want of memory leaves a part of it.
pub fn put_list_from<T: Element<Q>, Q: Stock, L: Listed<T, Q>>(
    list: &L,
    start: usize,
    text: &mut Vec<u8>,
) -> Result<(), NoMemory>
    ensures ok { OnOk result (text.new.items ≡ text.old.items
        ++ list_text (L.elements list.now) ++ codes " from " ++ decimal start) }
    ensures front { StartsWith text.new.items text.old.items }
{
    put_list(list, text)?;
    text.extend_from_slice(b" from ")?;
    let mut buffer = Buffer::new();
    text.extend_from_slice(buffer.format(start).as_bytes())?;
    Ok(())
}

/// Elements in the order in which they are printed.
impl<'a, T: Element<Q>, Q: Stock> Listed<T, Q> for Vec<&'a T> {
    ghost elements = { λ v. map (λ x. T.plain x.now) v.items };

    fn size(&self) -> usize {
        self.len()
    }

    fn at(&self, place: usize) -> Option<&T> {
        match self.get(place) {
            Some(x) => Some(*x),
            None => None,
        }
    }
}
