// The worked rows of arrays and slices, by the trait alone: what is printed, and the copies made.
ghost use Rattle.std.specs.Prelude.{◌≡◌, ◌≤◌, ◌<◌, ◌^◌, IsTrue};
ghost use Rattle.cow_cell.specs.Opens.{Opens};
ghost use Rattle.cow_model.specs.Atoms.{FitsTexts};
ghost use Rattle.cow_model.specs.Plain as plain;
ghost use Rattle.cow_model.specs.Sharing.{literals};
ghost use Rattle.cow_model.specs.declared.statement.Statement.{out-Statement};

use cow_cell::{Holder, Opening, Stock};
use cow_item::Atom;
use cow_kinds::Value;
use cow_model::{Kind, Literal, Name, NoMemory, Refusal, Side, Statement};
use cow_value::{Collection, Meets, Values};
use sqlite_items::Items;
use std::alloc::Global;
use std::marker::Brand;
use std::test::Fail;

/// Whether a statement of few atoms may be done to the value.
fn is_ready<V: Values<Q>, Q: Stock>(v: &V, h: &Holder<Q>) -> bool
    ensures small { IsTrue result → plain.count (V.seen v.now).value ≤ 1000 }
    ensures size { IsTrue result → plain.size (V.seen v.now).value ≤ 1000 }
    ensures stop { IsTrue result → plain.stop (V.seen v.now).value < 2 ^ 31 }
    ensures spare { IsTrue result → 100000 ≤ h.now.spare }
{
    v.count() <= 1000 && v.size() <= 1000 && v.stop() <= 1000 && h.spare() >= 100_000
}

/// The name of every statement here.
fn name(alloc: Global) -> Name {
    Name::from_vec(Vec::new(alloc))
}

/// The line of a refusal.
fn tell(done: Result<Result<(), Refusal>, NoMemory>, text: &mut Vec<u8>) -> Option<()> {
    if let Err(why) = done.ok()? {
        text.extend_from_slice(why.line()).ok()?;
    }
    Some(())
}

/// Does a statement that changes one value.
fn change<V: Values<Q>, Q: Stock>(
    alloc: Global,
    v: &mut V,
    statement: &Statement,
    text: &mut Vec<u8>,
    h: &mut Holder<Q>,
) -> Option<()>
    requires texts { FitsTexts (out-Statement statement.now) }
    requires few { literals (out-Statement statement.now) ≤ 100 }
{
    if !is_ready(v, h) {
        return None;
    }
    let done = v.change(alloc, statement, text, h);
    tell(done, text)
}

/// `show`
fn show<V: Values<Q>, Q: Stock>(v: &V, text: &mut Vec<u8>) -> Option<()> {
    v.put(text).ok()?;
    text.push(b'\n').ok()?;
    Some(())
}

/// The calls of row `array-calls` before `show`.
fn turned<V: Values<Q>, Q: Stock>(
    alloc: Global,
    v: &mut V,
    text: &mut Vec<u8>,
    h: &mut Holder<Q>,
) -> Option<()> {
    let line = 1;
    let atom = Literal::Int(9);
    let insert = Statement::InsertAt {
        line,
        name: name(alloc),
        i: 1,
        atom,
    };
    change(alloc, v, &insert, text, h)?;
    let swap = Statement::Swap {
        line,
        name: name(alloc),
        i: 0,
        j: 3,
    };
    change(alloc, v, &swap, text, h)?;
    change(
        alloc,
        v,
        &Statement::Reverse {
            line,
            name: name(alloc),
        },
        text,
        h,
    )?;
    let mut atoms = Items::new(alloc);
    atoms.push(Literal::Int(7)).ok()?;
    atoms.push(Literal::Int(8)).ok()?;
    atoms.push(Literal::Int(5)).ok()?;
    let splice = Statement::Splice {
        line,
        name: name(alloc),
        i: 1,
        j: 3,
        atoms,
    };
    change(alloc, v, &splice, text, h)?;
    change(
        alloc,
        v,
        &Statement::Reserve {
            line,
            name: name(alloc),
            c: 10,
        },
        text,
        h,
    )
}

/// Row `array-calls`: what is printed, and the copies made.
fn array_calls<Q: Stock>(alloc: Global, opening: Opening) -> Option<(Vec<u8>, u64)>
    requires { Opens Q.Stock opening }
{
    let mut h = Holder::<Q>::fresh(opening);
    let mut text = Vec::new(alloc);
    let atoms = [Literal::Int(3), Literal::Int(1), Literal::Int(2)];
    let mut v = Value::<Atom<Q>, Q>::make(alloc, Kind::Array, &atoms, &mut h).ok()?;
    turned(alloc, &mut v, &mut text, &mut h)?;
    show(&v, &mut text)?;
    let line = 1;
    let atom = Literal::Int(0);
    change(
        alloc,
        &mut v,
        &Statement::Remove {
            line,
            name: name(alloc),
            atom,
        },
        &mut text,
        &mut h,
    )?;
    change(
        alloc,
        &mut v,
        &Statement::Clear {
            line,
            name: name(alloc),
        },
        &mut text,
        &mut h,
    )?;
    let told = v.tell(
        &Statement::Count {
            line,
            name: name(alloc),
        },
        &mut text,
    );
    tell(told, &mut text)?;
    v.end(&mut h);
    Some((text, h.copied()))
}

#[test]
fn an_array_is_changed(rt: HostRuntime) -> Result<(), Fail> {
    let (text, copied) = array_calls::<Brand>(rt.alloc(), Opening::new()).ok_or("memory")?;
    assert_eq!(rt; text.as_slice(), b"[3, 7, 8, 5, 2]\n3\n0\n".as_slice());
    assert_eq!(rt; copied, 7);
    Ok(())
}

/// The calls of row `slice-calls` on the slice.
fn turned_slice<V: Values<Q>, Q: Stock>(
    alloc: Global,
    s: &mut V,
    text: &mut Vec<u8>,
    h: &mut Holder<Q>,
) -> Option<()> {
    let line = 1;
    let atom = Literal::Int(9);
    let append = Statement::Append {
        line,
        name: name(alloc),
        atom,
    };
    change(alloc, s, &append, text, h)?;
    let pop = Statement::Pop {
        line,
        name: name(alloc),
        side: Side::First,
    };
    change(alloc, s, &pop, text, h)?;
    show(s, text)?;
    change(
        alloc,
        s,
        &Statement::Rebase {
            line,
            name: name(alloc),
        },
        text,
        h,
    )?;
    show(s, text)
}

/// Row `slice-calls`: what is printed, and the copies made.
fn slice_calls<Q: Stock>(alloc: Global, opening: Opening) -> Option<(Vec<u8>, u64)>
    requires { Opens Q.Stock opening }
{
    let mut h = Holder::<Q>::fresh(opening);
    let mut text = Vec::new(alloc);
    let atoms = [
        Literal::Int(1),
        Literal::Int(2),
        Literal::Int(3),
        Literal::Int(4),
    ];
    let mut a = Value::<Atom<Q>, Q>::make(alloc, Kind::Array, &atoms, &mut h).ok()?;
    if h.spare() == 0 {
        return None;
    }
    let mut s = a.slice(1, 3, &mut h).ok()?;
    turned_slice(alloc, &mut s, &mut text, &mut h)?;
    show(&a, &mut text)?;
    s.end(&mut h);
    a.end(&mut h);
    Some((text, h.copied()))
}

#[test]
fn a_slice_is_changed(rt: HostRuntime) -> Result<(), Fail> {
    let (text, copied) = slice_calls::<Brand>(rt.alloc(), Opening::new()).ok_or("memory")?;
    assert_eq!(rt;
        text.as_slice(),
        b"2\n[3, 9] from 2\n[3, 9]\n[1, 2, 3, 4]\n".as_slice()
    );
    assert_eq!(rt; copied, 7);
    Ok(())
}
