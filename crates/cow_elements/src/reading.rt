// Elements that are made of the literals of a statement, and how they end.
ghost use Rattle.std.specs.Prelude.{◌≡◌, ◌≤◌, ◌+◌, [], ◌∷◌, ◌++◌, map, length, count_by, All, IfOk, OnOk, OnErr};
ghost use Rattle.cow_model.specs.Literals.{FitsText};
ghost use Rattle.cow_model.specs.Purse.{less, more, noted, unit_if};

use crate::element::Element;
use cow_cell::{Holder, Stock};
use cow_model::{Literal, NoMemory};
use std::alloc::Global;

/// Ends elements.
pub fn end_all<T: Element<Q>, Q: Stock>(items: Vec<T>, h: &mut Holder<Q>)
    ensures { h.new ≡ more (count_by T.is_counted (map T.plain items.items)) h.old }
{
    let mut items = items;
    while let Some(x) = items.pop() {
        x.end(h);
    }
}

// Appends the element of a literal, which isn't counted, or leaves the items as they were.
fn read_one<T: Element<Q>, Q: Stock>(
    alloc: Global,
    literal: &Literal,
    items: &mut Vec<T>,
    h: &mut Holder<Q>,
) -> Result<(), NoMemory>
    requires text { FitsText literal.now }
    requires spare { 1 ≤ h.old.spare }
    ensures ok { OnOk result
        (map T.plain items.new.items ≡ map T.plain items.old.items ++ literal.now ∷ []) }
    ensures spent { OnOk result (h.new ≡ less (unit_if (T.is_counted literal.now)) h.old) }
    ensures same { OnErr result (items.new.items ≡ items.old.items) }
    ensures refused { OnErr result (h.new ≡ h.old) }
{
    let x = T::uncounted(alloc, literal, h)?;
    if let Err(failed) = items.push(x) {
        failed.value.end(h);
        return Err(NoMemory);
    }
    Ok(())
}

// The elements of the literals, in order, which aren't counted. Want of memory leaves some of them.
fn read_into<T: Element<Q>, Q: Stock>(
    alloc: Global,
    literals: &[Literal],
    items: &mut Vec<T>,
    h: &mut Holder<Q>,
) -> Result<(), NoMemory>
    requires texts { All FitsText literals.now }
    requires spare { length literals.now ≤ h.old.spare }
    requires empty { items.old.items ≡ [] }
    ensures ok { OnOk result (map T.plain items.new.items ≡ literals.now) }
    ensures units { h.new.spare + count_by T.is_counted (map T.plain items.new.items)
        ≡ h.old.spare }
    ensures copied { h.new.copied ≡ h.old.copied }
{
    for literal in literals {
        read_one(alloc, literal, items, h)?;
    }
    Ok(())
}

/// The elements of the literals, in order, with one count of as many copies. Want of memory changes nothing.
pub fn read_all<T: Element<Q>, Q: Stock>(
    alloc: Global,
    literals: &[Literal],
    h: &mut Holder<Q>,
) -> Result<Vec<T>, NoMemory>
    requires texts { All FitsText literals.now }
    requires spare { length literals.now ≤ h.old.spare }
    ensures ok { IfOk result (λ items. map T.plain items.items ≡ literals.now) }
    ensures spent { OnOk result
        (h.new ≡ noted (length literals.now) (less (count_by T.is_counted literals.now) h.old)) }
    ensures refused { OnErr result (h.new ≡ h.old) }
{
    let mut items = Vec::with_capacity(alloc, literals.len())?;
    if let Err(refused) = read_into(alloc, literals, &mut items, h) {
        end_all(items, h);
        return Err(refused);
    }
    h.note(literals.len() as u64);
    Ok(items)
}
