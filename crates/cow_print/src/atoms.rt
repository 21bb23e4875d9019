// The printed forms of atoms and of pairs.
ghost use Rattle.std.specs.Prelude.{◌≡◌, ◌++◌, OnOk, OnErr};
ghost use Rattle.std.specs.Io.{StartsWith};
ghost use Rattle.std.specs.List.{flat_map};
ghost use Rattle.std.specs.Fmt.{signed_decimal};
ghost use Rattle.cow_model.specs.Printed as spec;
ghost use Rattle.cow_item.specs.Atoms.{plain_of_atom};
ghost use Rattle.cow_print.specs.Shown.{list_of, pair_of, pairs_of, plain_of, quoted};

use crate::printed::{Printed, put_items, whole_or_none};
use cow_cell::Stock;
use cow_item::Atom;
use cow_lexis::next_escape;
use cow_model::NoMemory;
use itoa::Buffer;

fn put_integer(text: &mut Vec<u8>, integer: i64) -> Result<(), NoMemory>
    ensures ok { OnOk result (text.new.items ≡ text.old.items ++ signed_decimal integer) }
    ensures front { StartsWith text.new.items text.old.items }
{
    let mut buffer = Buffer::new();
    text.extend_from_slice(buffer.format(integer).as_bytes())?;
    Ok(())
}

// The bytes up to each escape in one piece. Want of memory leaves a part of them.
fn put_escaped(text: &mut Vec<u8>, bytes: &[u8]) -> Result<(), NoMemory>
    ensures ok { OnOk result (text.new.items ≡ text.old.items ++ flat_map spec.escaped bytes.now) }
    ensures front { StartsWith text.new.items text.old.items }
{
    let mut rest = bytes;
    while let Some((run, byte, after)) = next_escape(rest) {
        text.extend_from_slice(run)?;
        text.extend_from_slice(&[b'\\', byte])?;
        rest = after;
    }
    text.extend_from_slice(rest)?;
    Ok(())
}

// The bytes in quotes. Want of memory leaves a part of them.
fn put_quoted(text: &mut Vec<u8>, bytes: &[u8]) -> Result<(), NoMemory>
    ensures ok { OnOk result (text.new.items ≡ text.old.items ++ quoted bytes.now) }
    ensures front { StartsWith text.new.items text.old.items }
{
    text.push(b'"')?;
    put_escaped(text, bytes)?;
    text.push(b'"')?;
    Ok(())
}

impl<'a, Q: Stock> Printed for &'a Atom<Q> {
    ghost form = { λ a. spec.atom_text (plain_of a) };

    fn put(&self, text: &mut Vec<u8>) -> Result<(), NoMemory> {
        match self {
            Atom::Int(integer) => put_integer(text, *integer),
            Atom::Text(bytes) => put_quoted(text, bytes.bytes()),
        }
    }
}

impl<'a, Q: Stock> Printed for (&'a Atom<Q>, &'a Atom<Q>) {
    ghost form = { λ p. spec.pair_text (pair_of p) };

    fn put(&self, text: &mut Vec<u8>) -> Result<(), NoMemory> {
        let (key, value) = self;
        key.put(text)?;
        text.extend_from_slice(b": ")?;
        value.put(text)
    }
}

// The atoms in brackets. Want of memory leaves a part of them.
fn put_list_part<Q: Stock>(text: &mut Vec<u8>, items: &[&Atom<Q>]) -> Result<(), NoMemory>
    ensures ok { OnOk result (text.new.items ≡ text.old.items ++ list_of items.now) }
    ensures front { StartsWith text.new.items text.old.items }
{
    put_items(text, items)
}

// The pairs in brackets, or `[:]`. Want of memory leaves a part of them.
fn put_pairs_part<Q: Stock>(
    text: &mut Vec<u8>,
    pairs: &[(&Atom<Q>, &Atom<Q>)],
) -> Result<(), NoMemory>
    ensures ok { OnOk result (text.new.items ≡ text.old.items ++ pairs_of pairs.now) }
    ensures front { StartsWith text.new.items text.old.items }
{
    if pairs.is_empty() {
        text.extend_from_slice(b"[:]")?;
        return Ok(());
    }
    put_items(text, pairs)
}

/// Appends the printed form of an atom: an integer in decimal, or a text in quotes, in which `"` and `\`
/// stand behind a `\`. Linear in the bytes of the atom. `NoMemory` comes only for want of memory, and
/// `text` is then as it was; nothing is allocated but the room of `text`.
pub fn put_atom<Q: Stock>(text: &mut Vec<u8>, a: &Atom<Q>) -> Result<(), NoMemory>
    ensures ok { OnOk result
        (text.new.items ≡ text.old.items ++ spec.atom_text (plain_of_atom a.now)) }
    ensures err { OnErr result (text.new.items ≡ text.old.items) }
{
    let before = text.len();
    let appended = a.put(text);
    whole_or_none(text, before, appended)
}

/// Appends the printed form of a list of atoms, as `[1, "a", 3]`. Linear in the bytes of the atoms and
/// their number. `NoMemory` comes only for want of memory, and `text` is then as it was; nothing is
/// allocated but the room of `text`.
pub fn put_list<Q: Stock>(text: &mut Vec<u8>, items: &[&Atom<Q>]) -> Result<(), NoMemory>
    ensures ok { OnOk result (text.new.items ≡ text.old.items ++ list_of items.now) }
    ensures err { OnErr result (text.new.items ≡ text.old.items) }
{
    let before = text.len();
    let appended = put_list_part(text, items);
    whole_or_none(text, before, appended)
}

/// Appends the printed form of keys and their values, as `[1: "a", 2: "b"]`, or `[:]` where there are
/// none. Linear in the bytes of the atoms and their number. `NoMemory` comes only for want of memory, and
/// `text` is then as it was; nothing is allocated but the room of `text`.
pub fn put_pairs<Q: Stock>(
    text: &mut Vec<u8>,
    pairs: &[(&Atom<Q>, &Atom<Q>)],
) -> Result<(), NoMemory>
    ensures ok { OnOk result (text.new.items ≡ text.old.items ++ pairs_of pairs.now) }
    ensures err { OnErr result (text.new.items ≡ text.old.items) }
{
    let before = text.len();
    let appended = put_pairs_part(text, pairs);
    whole_or_none(text, before, appended)
}
