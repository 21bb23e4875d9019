// Pairs of a key and a value: how they are made of literals, and how they are printed.
ghost use Rattle.std.specs.Prelude.{◌≡◌, ◌+◌, ◌≤◌, ◌++◌, List, map, codes, drop, IfOk, OnOk, OnErr};
ghost use Rattle.std.specs.Io.{StartsWith};
ghost use Rattle.std.specs.List.{flat_map};
ghost use Rattle.cow_elements.specs.Shared.{pair_of};
ghost use Rattle.cow_model.specs.Literals.{FitsText};
ghost use Rattle.cow_model.specs.Printed.{behind_comma, pair_text, pairs_text, separated};
ghost use Rattle.cow_model.specs.Purse.{unit_if};

use crate::element::Element;
use cow_cell::{Holder, Stock};
use cow_model::{Literal, NoMemory};
use std::alloc::Global;

/// The elements of a key and its value, each counted. Want of memory leaves none.
pub fn read_pair<T: Element<Q>, Q: Stock>(
    alloc: Global,
    key: &Literal,
    value: &Literal,
    h: &mut Holder<Q>,
) -> Result<(T, T), NoMemory>
    requires key { FitsText key.now }
    requires value { FitsText value.now }
    requires spare { 2 ≤ h.old.spare }
    ensures ok { IfOk result (λ p. (T.plain p.0 ≡ key.now) × (T.plain p.1 ≡ value.now)) }
    ensures spare { OnOk result (h.new.spare
        + (unit_if (T.is_counted key.now) + unit_if (T.is_counted value.now)) ≡ h.old.spare) }
    ensures kept { OnErr result (h.new.spare ≡ h.old.spare) }
    ensures copied { h.new.copied ≤ h.old.copied + 2 }
    ensures never { h.old.copied ≤ h.new.copied }
{
    let k = T::read(alloc, key, h)?;
    match T::read(alloc, value, h) {
        Ok(v) => Ok((k, v)),
        Err(refused) => {
            k.end(h);
            Err(refused)
        }
    }
}

// A pair. Want of memory leaves a part of it.
/// A pair. Want of memory leaves a part of it.
pub fn put_pair<T: Element<Q>, Q: Stock>(
    pair: &(&T, &T),
    text: &mut Vec<u8>,
) -> Result<(), NoMemory>
    ensures ok { OnOk result (text.new.items
        ≡ text.old.items ++ pair_text (pair_of (T.plain pair.now.0.now) (T.plain pair.now.1.now))) }
    ensures front { StartsWith text.new.items text.old.items }
{
    let (key, value) = pair;
    key.put(text)?;
    text.extend_from_slice(b": ")?;
    value.put(text)?;
    Ok(())
}

/// A comma, and then a pair. Want of memory leaves a part of them.
pub fn put_behind_comma<T: Element<Q>, Q: Stock>(
    pair: &(&T, &T),
    text: &mut Vec<u8>,
) -> Result<(), NoMemory>
    ensures ok { OnOk result (text.new.items ≡ text.old.items
        ++ behind_comma (pair_text (pair_of (T.plain pair.now.0.now) (T.plain pair.now.1.now)))) }
    ensures front { StartsWith text.new.items text.old.items }
{
    text.extend_from_slice(b", ")?;
    put_pair(pair, text)
}

// The pairs but the first, each behind a comma.
fn put_others<T: Element<Q>, Q: Stock>(
    pairs: &[(&T, &T)],
    text: &mut Vec<u8>,
) -> Result<(), NoMemory>
    ensures ok { OnOk result (text.new.items ≡ text.old.items ++ flat_map behind_comma
        (map (λ p. pair_text (pair_of (T.plain p.0.now) (T.plain p.1.now))) pairs.now)) }
    ensures front { StartsWith text.new.items text.old.items }
{
    for pair in pairs {
        put_behind_comma(pair, text)?;
    }
    Ok(())
}

/// The printed form of pairs. Want of memory leaves a part of it.
pub fn put_pairs<T: Element<Q>, Q: Stock>(
    pairs: &[(&T, &T)],
    text: &mut Vec<u8>,
) -> Result<(), NoMemory>
    ensures ok { OnOk result (text.new.items ≡ text.old.items
        ++ pairs_text (map (λ p. pair_of (T.plain p.0.now) (T.plain p.1.now)) pairs.now)) }
    ensures front { StartsWith text.new.items text.old.items }
{
    match pairs {
        [] => {
            text.extend_from_slice(b"[:]")?;
            Ok(())
        }
        [first, others @ ..] => {
            text.extend_from_slice(b"[")?;
            put_pair(first, text)?;
            put_others(others, text)?;
            text.extend_from_slice(b"]")?;
            Ok(())
        }
    }
}
