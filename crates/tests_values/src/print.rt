ghost use Rattle.cow_cell.specs.Opens.{Opens};

use cow_cell::{Holder, Opening, Stock};
use cow_item::{Atom, Text};
use cow_print::{put_atom, put_list, put_pairs};
use std::alloc::Global;
use std::marker::Brand;
use std::test::Fail;

// An integer, a text with an escape, a text with both, and an empty text, printed behind `> ` each.
fn printed_atoms<Q: Stock>(alloc: Global, opening: Opening) -> Option<Vec<u8>>
    requires { Opens Q.Stock opening }
{
    let mut h = Holder::<Q>::fresh(opening);
    let integer = Atom::<Q>::Int(-1);
    let quote = Atom::Text(Text::new(alloc, b"x\"y", &mut h).ok()?);
    let both = Atom::Text(Text::new(alloc, b"\\a\"\"", &mut h).ok()?);
    let empty = Atom::Text(Text::new(alloc, b"", &mut h).ok()?);
    let mut text = Vec::from_slice(alloc, b"> ").ok()?;
    put_atom(&mut text, &integer).ok()?;
    put_atom(&mut text, &quote).ok()?;
    put_atom(&mut text, &both).ok()?;
    put_atom(&mut text, &empty).ok()?;
    Some(text)
}

#[test]
fn atoms_are_printed_with_their_escapes(rt: HostRuntime) -> Result<(), Fail> {
    let text = printed_atoms::<Brand>(rt.alloc(), Opening::new()).ok_or("a text")?;
    assert_eq!(rt;
        text.as_slice(),
        b"> -1\"x\\\"y\"\"\\\\a\\\"\\\"\"\"\"".as_slice()
    );
    Ok(())
}

// A list of both kinds, an empty list, pairs, and no pairs, on a line each.
fn printed_lists<Q: Stock>(alloc: Global, opening: Opening) -> Option<Vec<u8>>
    requires { Opens Q.Stock opening }
{
    let mut h = Holder::<Q>::fresh(opening);
    let integer = Atom::<Q>::Int(3);
    let quote = Atom::Text(Text::new(alloc, b"x\"y", &mut h).ok()?);
    let empty = Atom::Text(Text::new(alloc, b"", &mut h).ok()?);
    let mut text = Vec::new(alloc);
    put_list(&mut text, &[&integer, &quote, &empty]).ok()?;
    text.push(b'\n').ok()?;
    put_list::<Q>(&mut text, &[]).ok()?;
    text.push(b'\n').ok()?;
    put_pairs(&mut text, &[(&integer, &quote), (&empty, &integer)]).ok()?;
    text.push(b'\n').ok()?;
    put_pairs::<Q>(&mut text, &[]).ok()?;
    Some(text)
}

#[test]
fn lists_and_pairs_are_printed(rt: HostRuntime) -> Result<(), Fail> {
    let text = printed_lists::<Brand>(rt.alloc(), Opening::new()).ok_or("a text")?;
    let want = b"[3, \"x\\\"y\", \"\"]\n[]\n[3: \"x\\\"y\", \"\": 3]\n[:]".as_slice();
    assert_eq!(rt; text.as_slice(), want);
    Ok(())
}
