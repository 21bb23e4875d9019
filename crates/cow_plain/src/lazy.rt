// Lazy views of an array through a rule.
ghost use Rattle.std.specs.Prelude.{◌≡◌, IfOk, map, filter};
ghost use Rattle.cow_model.specs.Lazy as spec;

use crate::copies::Whole;
use cow_model::{Literal, NoMemory, Shape};
use sqlite_items::Items;
use std::alloc::Global;

// What a rule makes of an integer.
fn value_by(shape: Shape, x: i64) -> i64
    ensures { result ≡ spec.value_by shape x }
{
    match shape {
        Shape::Add(k) => x.saturating_add(k),
        Shape::Negate => x.checked_neg().unwrap_or(i64::MAX),
        Shape::Even | Shape::Below(_) => x,
    }
}

// Whether a rule keeps an integer.
fn keeps(shape: Shape, x: i64) -> bool
    ensures { result ≡ spec.keeps shape x }
{
    match shape {
        Shape::Add(_) | Shape::Negate => true,
        Shape::Even => x.unsigned_abs() % 2 == 0,
        Shape::Below(k) => x < k,
    }
}

// An atom through a rule that maps.
fn mapped(alloc: Global, shape: Shape, atom: &Literal) -> Result<Literal, NoMemory>
    ensures { IfOk result (λ made. made ≡ spec.mapped shape atom.now) }
{
    match atom {
        Literal::Int(x) => Ok(Literal::Int(value_by(shape, *x))),
        Literal::Text(_) => atom.whole(alloc),
    }
}

// Whether a rule that filters keeps an atom.
fn passes(shape: Shape, atom: &Literal) -> bool
    ensures { result ≡ spec.passes shape atom.now }
{
    match atom {
        Literal::Int(x) => keeps(shape, *x),
        Literal::Text(_) => false,
    }
}

// The atoms through a rule that maps.
fn all_mapped(alloc: Global, shape: Shape, items: &[Literal]) -> Result<Items<Literal>, NoMemory>
    ensures { IfOk result (λ made. made ≡ map (spec.mapped shape) items.now) }
{
    let mut made = Vec::new(alloc);
    for atom in items {
        made.push(mapped(alloc, shape, atom)?)?;
    }
    Ok(Items::from_vec(made))
}

// The atoms that a rule keeps.
fn all_kept(alloc: Global, shape: Shape, items: &[Literal]) -> Result<Items<Literal>, NoMemory>
    ensures { IfOk result (λ made. made ≡ filter (spec.passes shape) items.now) }
{
    let mut made = Vec::new(alloc);
    for atom in items {
        if passes(shape, atom) {
            made.push(atom.whole(alloc)?)?;
        }
    }
    Ok(Items::from_vec(made))
}

/// The atoms of a view.
pub fn view(alloc: Global, shape: Shape, items: &[Literal]) -> Result<Items<Literal>, NoMemory>
    ensures { IfOk result (λ made. made ≡ spec.view shape items.now) }
{
    match shape {
        Shape::Add(_) | Shape::Negate => all_mapped(alloc, shape, items),
        Shape::Even | Shape::Below(_) => all_kept(alloc, shape, items),
    }
}
