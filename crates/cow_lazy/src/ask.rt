// One element of a base through a rule, and all of them one after the other.
ghost use Rattle.std.specs.Prelude.{◌≡◌, ◌+◌, ◌*◌, ◌<◌, ◌≤◌, ◌^◌, ◌++◌, [], ◌∷◌, map, filter, length, count_by, slice_get, option_map, All, IfSome, IfNone, IfOk, OnOk, OnErr, vec_len};
ghost use Rattle.cow_rule.specs.Asked.{raised, RisesTo};
ghost use Rattle.cow_model.specs.Flat.{Becomes};
ghost use Rattle.cow_model.specs.Lazy as lazy;
ghost use Rattle.cow_model.specs.Lazy.{view, asks, integers_in};
ghost use Rattle.cow_model.specs.Purse.{less, more, noted, unit_if};
ghost use Rattle.cow_model.specs.declared.statement.Verb.TheVariants as verb;

use crate::operand::Operand;
use cow_array::Array;
use cow_cell::{Holder, Stock};
use cow_model::{NoMemory, Shape};
use cow_rule::Rule;
use std::alloc::Global;

// What a rule makes of an element: of an integer another one, of a text a second item of it.
fn mapped<T: Operand<Q>, Q: Stock>(x: &T, rule: &mut Box<dyn Rule>, h: &mut Holder<Q>) -> T
    requires settled { T.IsSettled x.now }
    requires spare { 1 ≤ h.old.spare }
    ensures plain { T.plain result ≡ lazy.mapped (shape_of rule.old) (T.plain x.now) }
    ensures settled { T.IsSettled result }
    ensures spent { h.new ≡ less (unit_if (T.is_counted (T.plain result))) h.old }
    ensures shape { shape_of rule.new ≡ shape_of rule.old }
    ensures asked { asked_of rule.new
        ≡ raised (integers_in (T.plain x.now ∷ [])) (asked_of rule.old) }
{
    match x.integer() {
        Some(n) => T::of_integer(rule.map(n)),
        None => x.twin(h),
    }
}

// Whether a rule that filters keeps an element.
pub(crate) fn is_kept<T: Operand<Q>, Q: Stock>(x: &T, rule: &mut Box<dyn Rule>) -> bool
    ensures value { result ≡ lazy.passes (shape_of rule.old) (T.plain x.now) }
    ensures shape { shape_of rule.new ≡ shape_of rule.old }
    ensures asked { asked_of rule.new
        ≡ raised (integers_in (T.plain x.now ∷ [])) (asked_of rule.old) }
{
    match x.integer() {
        Some(n) => rule.keep(n),
        None => false,
    }
}

// The element that the view shows in the place of this one, if it shows any. Nobody has counted it.
pub(crate) fn seen<T: Operand<Q>, Q: Stock>(
    x: &T,
    shape: Shape,
    rule: &mut Box<dyn Rule>,
    h: &mut Holder<Q>,
) -> Option<T>
    requires settled { T.IsSettled x.now }
    requires rule { shape_of rule.old ≡ shape }
    requires spare { 1 ≤ h.old.spare }
    ensures some { IfSome result (λ y. view shape (T.plain x.now ∷ []) ≡ T.plain y ∷ []) }
    ensures none { IfNone result (view shape (T.plain x.now ∷ []) ≡ []) }
    ensures spent { IfSome result (λ y.
        h.new ≡ less (unit_if (T.is_counted (T.plain y))) h.old) }
    ensures free { IfNone result (h.new ≡ h.old) }
    ensures shape { shape_of rule.new ≡ shape_of rule.old }
    ensures asked { asked_of rule.new
        ≡ raised (integers_in (T.plain x.now ∷ [])) (asked_of rule.old) }
{
    match shape {
        Shape::Add(_) | Shape::Negate => Some(mapped(x, rule, h)),
        Shape::Even | Shape::Below(_) => {
            if is_kept(x, rule) {
                Some(x.twin(h))
            } else {
                None
            }
        }
    }
}

// The first element of the view of these, which nobody has counted. The rule is asked no further than there.
pub(crate) fn first<T: Operand<Q>, Q: Stock>(
    items: &[T],
    shape: Shape,
    rule: &mut Box<dyn Rule>,
    h: &mut Holder<Q>,
) -> Option<T>
    requires settled { All T.IsSettled items.now }
    requires rule { shape_of rule.old ≡ shape }
    requires spare { 1 ≤ h.old.spare }
    ensures first { option_map T.plain result
        ≡ slice_get (view shape (map T.plain items.now)) 0 }
    ensures spent { IfSome result (λ y.
        h.new ≡ less (unit_if (T.is_counted (T.plain y))) h.old) }
    ensures free { IfNone result (h.new ≡ h.old) }
    ensures shape { shape_of rule.new ≡ shape_of rule.old }
    ensures asked { asked_of rule.new
        ≡ raised (asks (map T.plain items.now) shape verb.First) (asked_of rule.old) }
{
    for x in items {
        if let Some(y) = seen(x, shape, rule, h) {
            return Some(y);
        }
    }
    None
}

// How many of these a rule that filters keeps. Each integer is asked about once.
pub(crate) fn count_kept<T: Operand<Q>, Q: Stock>(items: &[T], rule: &mut Box<dyn Rule>) -> usize
    ensures value { result
        ≡ length (filter (lazy.passes (shape_of rule.old)) (map T.plain items.now)) }
    ensures shape { shape_of rule.new ≡ shape_of rule.old }
    ensures asked { asked_of rule.new
        ≡ raised (integers_in (map T.plain items.now)) (asked_of rule.old) }
{
    let mut kept = 0;
    for x in items {
        if is_kept(x, rule) {
            kept += 1;
        }
    }
    kept
}

// Appends what the view shows of one element, which nobody has counted, or leaves the list as it was.
fn take<T: Operand<Q>, Q: Stock>(
    x: &T,
    shape: Shape,
    rule: &mut Box<dyn Rule>,
    taken: &mut Vec<T>,
    h: &mut Holder<Q>,
) -> Result<(), NoMemory>
    requires settled { T.IsSettled x.now }
    requires rule { shape_of rule.old ≡ shape }
    requires spare { 1 ≤ h.old.spare }
    ensures ok { OnOk result (map T.plain taken.new.items
        ≡ map T.plain taken.old.items ++ view shape (T.plain x.now ∷ [])) }
    ensures few { length taken.new.items ≤ length taken.old.items + 1 }
    ensures units { h.new.spare + count_by T.is_counted (map T.plain taken.new.items)
        ≡ h.old.spare + count_by T.is_counted (map T.plain taken.old.items) }
    ensures copied { h.new.copied ≡ h.old.copied }
    ensures shape { shape_of rule.new ≡ shape_of rule.old }
    ensures asked { asked_of rule.new
        ≡ raised (integers_in (T.plain x.now ∷ [])) (asked_of rule.old) }
{
    let Some(y) = seen(x, shape, rule, h) else {
        return Ok(());
    };
    if let Err(failed) = taken.push(y) {
        failed.value.end(h);
        return Err(NoMemory);
    }
    Ok(())
}

// All elements of the view of these, which nobody has counted. Want of memory leaves some of them.
pub(crate) fn take_all<T: Operand<Q>, Q: Stock>(
    items: &[T],
    shape: Shape,
    rule: &mut Box<dyn Rule>,
    taken: &mut Vec<T>,
    h: &mut Holder<Q>,
) -> Result<(), NoMemory>
    requires settled { All T.IsSettled items.now }
    requires rule { shape_of rule.old ≡ shape }
    requires spare { length items.now ≤ h.old.spare }
    requires empty { taken.old.items ≡ [] }
    ensures ok { OnOk result
        (map T.plain taken.new.items ≡ view shape (map T.plain items.now)) }
    ensures few { length taken.new.items ≤ length items.now }
    ensures units { h.new.spare + count_by T.is_counted (map T.plain taken.new.items)
        ≡ h.old.spare }
    ensures copied { h.new.copied ≡ h.old.copied }
    ensures shape { shape_of rule.new ≡ shape_of rule.old }
    ensures asked { OnOk result (asked_of rule.new
        ≡ raised (integers_in (map T.plain items.now)) (asked_of rule.old)) }
    ensures once { RisesTo (integers_in (map T.plain items.now))
        (asked_of rule.old) (asked_of rule.new) }
{
    for x in items {
        take(x, shape, rule, taken, h)?;
    }
    Ok(())
}

// All elements of the view of an array, which nobody has counted. Want of memory leaves the holder as it was.
pub(crate) fn collected<T: Operand<Q>, Q: Stock>(
    alloc: Global,
    base: &Array<T, Q>,
    shape: Shape,
    rule: &mut Box<dyn Rule>,
    h: &mut Holder<Q>,
) -> Result<Vec<T>, NoMemory>
    requires rule { shape_of rule.old ≡ shape }
    requires spare { length base.now.value ≤ h.old.spare }
    ensures ok { IfOk result (λ taken. map T.plain taken.items ≡ view shape base.now.value) }
    ensures small { IfOk result (λ taken. vec_len taken < 2 ^ 31) }
    ensures units { IfOk result (λ taken.
        h.new.spare + count_by T.is_counted (map T.plain taken.items) ≡ h.old.spare) }
    ensures falls { h.old.spare ≤ h.new.spare + length base.now.value }
    ensures copied { h.new.copied ≡ h.old.copied }
    ensures refused { OnErr result (h.new ≡ h.old) }
    ensures shape { shape_of rule.new ≡ shape_of rule.old }
    ensures asked { OnOk result (asked_of rule.new
        ≡ raised (integers_in base.now.value) (asked_of rule.old)) }
    ensures once { RisesTo (integers_in base.now.value) (asked_of rule.old) (asked_of rule.new) }
{
    let mut taken = Vec::with_capacity(alloc, base.count())?;
    if let Err(refused) = take_all(base.as_slice(), shape, rule, &mut taken, h) {
        end_all(taken, h);
        return Err(refused);
    }
    Ok(taken)
}

// An array of these, each counted as one copy. Want of memory ends them.
pub(crate) fn array_of<T: Operand<Q>, Q: Stock>(
    alloc: Global,
    taken: Vec<T>,
    h: &mut Holder<Q>,
) -> Result<Array<T, Q>, NoMemory>
    requires growth { vec_len taken < 2 ^ 31 }
    requires spare { 1 ≤ h.old.spare }
    ensures ok { IfOk result (λ a. Becomes (map T.plain taken.items) a) }
    ensures spent { OnOk result (h.new
        ≡ noted (T.WEIGHT * length (map T.plain taken.items)) (less 1 h.old)) }
    ensures refused { OnErr result
        (h.new ≡ more (count_by T.is_counted (map T.plain taken.items)) h.old) }
{
    let copied = T::WEIGHT * taken.len() as u64;
    match Array::from_vec(alloc, taken, h) {
        Ok(made) => {
            h.note(copied);
            Ok(made)
        }
        Err((refused, taken)) => {
            end_all(taken, h);
            Err(refused)
        }
    }
}

// Ends elements.
pub(crate) fn end_all<T: Operand<Q>, Q: Stock>(items: Vec<T>, h: &mut Holder<Q>)
    ensures { h.new ≡ more (count_by T.is_counted (map T.plain items.items)) h.old }
{
    let mut items = items;
    while let Some(x) = items.pop() {
        x.end(h);
    }
}
