//! What no clause says: that calls of views succeed. And the worked rows, with how often each rule was asked.
ghost use Rattle.std.specs.Prelude.{◌≡◌, ◌≤◌, length, IsTrue};
ghost use Rattle.cow_cell.specs.Opens.{Opens};
ghost use Rattle.cow_model.specs.Flat.{need};
ghost use Rattle.cow_model.specs.declared.shape.Shape.TheVariants as shape;

use cow_array::Array;
use cow_cell::{Holder, Opening, Stock};
use cow_item::{Atom, Item, Text};
use cow_lazy::{LazyView, Operand, PlainRule, Rule};
use cow_model::Shape;
use std::alloc::Global;
use std::marker::Brand;
use std::test::Fail;

const WHOLE: u64 = 0x4000_0000_0000_0000;

/// An array of these integers.
fn array_of<Q: Stock>(
    alloc: Global,
    elements: &[i64],
    h: &mut Holder<Q>,
) -> Option<Array<Atom<Q>, Q>> {
    let mut items = Vec::new(alloc);
    for x in elements {
        items.push(Atom::Int(*x)).ok()?;
    }
    if items.len() > 1000 || h.spare() == 0 {
        return None;
    }
    Array::from_vec(alloc, items, h).ok()
}

/// Whether the holder can pay for all elements of a view of the array.
fn can_pay<T: Item<Q>, Q: Stock>(a: &Array<T, Q>, h: &Holder<Q>) -> bool
    ensures { IsTrue result → need (length a.now.value) ≤ h.now.spare }
{
    16 * (a.count() as u64) + 512 <= h.spare()
}

/// Whether the array has these integers and nothing else.
fn shows<Q: Stock>(a: &Array<Atom<Q>, Q>, expected: &[i64]) -> bool {
    if a.count() != expected.len() {
        return false;
    }
    for (x, y) in a.as_slice().iter().zip(expected.iter()) {
        if x.integer() != Some(*y) {
            return false;
        }
    }
    true
}

/// The integer that the first element of the view is.
fn first_of<Q: Stock>(
    view: &mut LazyView<Atom<Q>, Q>,
    rule: &mut Box<dyn Rule>,
    h: &mut Holder<Q>,
) -> Option<i64>
    requires { shape_of rule.old ≡ view.old.shape }
    ensures same { view.new ≡ view.old }
    ensures shape { shape_of rule.new ≡ shape_of rule.old }
{
    if h.spare() == 0 {
        return None;
    }
    let found = view.first(rule, h)?;
    let x = found.integer();
    found.end(h);
    x
}

/// Row `lazy-asks`, rule 3: the first element and the number of elements, each with how often the rule was asked
/// for it, and the copies.
fn even_ones<Q: Stock>(alloc: Global, opening: Opening) -> Option<(i64, u64, usize, u64, u64)>
    requires { Opens Q.Stock opening }
{
    let mut h = Holder::<Q>::fresh(opening);
    let a = array_of(alloc, &[1, 3, 4, 6], &mut h)?;
    let shape = Shape::Even;
    let mut rule: Box<dyn Rule> = Box::new(alloc, PlainRule { shape, asked: 0 }).ok()?;
    let mut view = LazyView::new(a, rule.shape());
    let first = first_of(&mut view, &mut rule, &mut h);
    let for_first = rule.asked();
    let count = view.count(&mut rule);
    let for_both = rule.asked();
    view.end(&mut h);
    Some((first?, for_first, count, for_both, h.copied()))
}

#[test]
fn a_filter_is_asked_up_to_its_first_element(rt: HostRuntime) -> Result<(), Fail> {
    let found = even_ones::<Brand>(rt.alloc(), Opening::new());
    assert_eq!(rt; found, Some((4, 3, 2, 7, 1)));
    Ok(())
}

/// The view of these integers through a rule, all of it: whether it is what is expected, how often the rule was
/// asked, the copies, and whether each unit is back in the end.
fn whole<Q: Stock>(
    alloc: Global,
    elements: &[i64],
    expected: &[i64],
    rule: &mut Box<dyn Rule>,
    h: &mut Holder<Q>,
) -> Option<(bool, u64, u64, bool)> {
    let a = array_of(alloc, elements, h)?;
    if !can_pay(&a, h) {
        return None;
    }
    let mut view = LazyView::new(a, rule.shape());
    let made = view.collect(alloc, rule, h).ok()?;
    let shown = shows(&made, expected);
    made.end(h);
    view.end(h);
    Some((shown, rule.asked(), h.copied(), h.spare() == WHOLE))
}

/// Row `lazy-asks`, rule 0.
fn one_more<Q: Stock>(alloc: Global, opening: Opening) -> Option<(bool, u64, u64, bool)>
    requires { Opens Q.Stock opening }
{
    let mut h = Holder::<Q>::fresh(opening);
    let shape = Shape::Add(1);
    let mut rule: Box<dyn Rule> = Box::new(alloc, PlainRule { shape, asked: 0 }).ok()?;
    whole(alloc, &[1, 3, 4, 6], &[2, 4, 5, 7], &mut rule, &mut h)
}

#[test]
fn a_map_is_asked_about_each_integer(rt: HostRuntime) -> Result<(), Fail> {
    let found = one_more::<Brand>(rt.alloc(), Opening::new());
    assert_eq!(rt; found, Some((true, 4, 4, true)));
    Ok(())
}

/// A rule stops at the ends of 64 bits: the greatest integer and one less, and one more each.
fn at_the_end<Q: Stock>(alloc: Global, opening: Opening) -> Option<(bool, u64, u64, bool)>
    requires { Opens Q.Stock opening }
{
    let mut h = Holder::<Q>::fresh(opening);
    let shape = Shape::Add(1);
    let mut rule: Box<dyn Rule> = Box::new(alloc, PlainRule { shape, asked: 0 }).ok()?;
    let elements = [9_223_372_036_854_775_807, 9_223_372_036_854_775_806];
    let expected = [9_223_372_036_854_775_807, 9_223_372_036_854_775_807];
    whole(alloc, &elements, &expected, &mut rule, &mut h)
}

#[test]
fn a_sum_stands_still_at_the_greatest_integer(rt: HostRuntime) -> Result<(), Fail> {
    let found = at_the_end::<Brand>(rt.alloc(), Opening::new());
    assert_eq!(rt; found, Some((true, 2, 2, true)));
    Ok(())
}

/// The least integer has no negation within 64 bits, so it becomes the greatest.
fn negated<Q: Stock>(alloc: Global, opening: Opening) -> Option<(bool, u64, u64, bool)>
    requires { Opens Q.Stock opening }
{
    let mut h = Holder::<Q>::fresh(opening);
    let shape = Shape::Negate;
    let mut rule: Box<dyn Rule> = Box::new(alloc, PlainRule { shape, asked: 0 }).ok()?;
    let elements = [-9_223_372_036_854_775_808, 0, 5];
    let expected = [9_223_372_036_854_775_807, 0, -5];
    whole(alloc, &elements, &expected, &mut rule, &mut h)
}

#[test]
fn the_least_integer_is_negated_to_the_greatest(rt: HostRuntime) -> Result<(), Fail> {
    let found = negated::<Brand>(rt.alloc(), Opening::new());
    assert_eq!(rt; found, Some((true, 3, 3, true)));
    Ok(())
}

/// What is below 100, by a rule that was asked almost as often as can be told.
fn below<Q: Stock>(alloc: Global, opening: Opening) -> Option<(bool, u64, u64, bool)>
    requires { Opens Q.Stock opening }
{
    let mut h = Holder::<Q>::fresh(opening);
    let shape = Shape::Below(100);
    let asked = 18_446_744_073_709_551_613;
    let mut rule: Box<dyn Rule> = Box::new(alloc, PlainRule { shape, asked }).ok()?;
    whole(alloc, &[100, 99, 101, -7], &[99, -7], &mut rule, &mut h)
}

#[test]
fn the_number_of_answers_stands_still_at_its_last_value(rt: HostRuntime) -> Result<(), Fail> {
    let found = below::<Brand>(rt.alloc(), Opening::new());
    assert_eq!(rt; found, Some((true, 18_446_744_073_709_551_615, 2, true)));
    Ok(())
}

/// An array of a text and an integer, as the second row of views has it.
fn text_and_one<Q: Stock>(alloc: Global, h: &mut Holder<Q>) -> Option<Array<Atom<Q>, Q>> {
    if h.spare() < 2 {
        return None;
    }
    let mut items = Vec::new(alloc);
    let text = Text::new(alloc, b"x", h).ok()?;
    items.push(Atom::Text(text)).ok()?;
    items.push(Atom::Int(1)).ok()?;
    if items.len() > 1000 || h.spare() == 0 {
        return None;
    }
    Array::from_vec(alloc, items, h).ok()
}

/// The row's first statement: whether the first element is the text, and how often the rule was asked.
fn text_first<Q: Stock>(alloc: Global, opening: Opening) -> Option<(bool, u64, bool)>
    requires { Opens Q.Stock opening }
{
    let mut h = Holder::<Q>::fresh(opening);
    let a = text_and_one(alloc, &mut h)?;
    let shape = Shape::Add(1);
    let mut rule: Box<dyn Rule> = Box::new(alloc, PlainRule { shape, asked: 0 }).ok()?;
    let mut view = LazyView::new(a, rule.shape());
    if h.spare() == 0 {
        return None;
    }
    let first = view.first(&mut rule, &mut h)?;
    let is_text = match &first {
        Atom::Text(text) => text.bytes() == b"x".as_slice(),
        Atom::Int(_) => false,
    };
    first.end(&mut h);
    view.end(&mut h);
    Some((is_text, rule.asked(), h.spare() == WHOLE))
}

#[test]
fn a_text_passes_a_map_unasked(rt: HostRuntime) -> Result<(), Fail> {
    let found = text_first::<Brand>(rt.alloc(), Opening::new());
    assert_eq!(rt; found, Some((true, 0, true)));
    Ok(())
}

/// The row's second statement: whether the view has no element, and how often the rule was asked.
fn no_first<Q: Stock>(alloc: Global, opening: Opening) -> Option<(bool, u64, bool)>
    requires { Opens Q.Stock opening }
{
    let mut h = Holder::<Q>::fresh(opening);
    let a = text_and_one(alloc, &mut h)?;
    let shape = Shape::Even;
    let mut rule: Box<dyn Rule> = Box::new(alloc, PlainRule { shape, asked: 0 }).ok()?;
    let mut view = LazyView::new(a, rule.shape());
    if h.spare() == 0 {
        return None;
    }
    let is_none = view.first(&mut rule, &mut h).is_none();
    view.end(&mut h);
    Some((is_none, rule.asked(), h.spare() == WHOLE))
}

#[test]
fn a_filter_drops_a_text_unasked(rt: HostRuntime) -> Result<(), Fail> {
    let found = no_first::<Brand>(rt.alloc(), Opening::new());
    assert_eq!(rt; found, Some((true, 1, true)));
    Ok(())
}

/// Both atoms of that row through a map, of a copy of the array: how many elements there are, how often the rule was
/// asked for their number and then for all, the copies, and whether each unit is back.
fn both<Q: Stock>(alloc: Global, opening: Opening) -> Option<(usize, u64, u64, u64, bool)>
    requires { Opens Q.Stock opening }
{
    let mut h = Holder::<Q>::fresh(opening);
    let mut a = text_and_one(alloc, &mut h)?;
    let shape = Shape::Negate;
    let mut rule: Box<dyn Rule> = Box::new(alloc, PlainRule { shape, asked: 0 }).ok()?;
    if h.spare() == 0 {
        return None;
    }
    let copy = a.copy(&mut h);
    if !can_pay(&copy, &h) {
        return None;
    }
    let mut view = LazyView::new(copy, rule.shape());
    let count = view.count(&mut rule);
    let for_count = rule.asked();
    let made = view.collect(alloc, &mut rule, &mut h).ok()?;
    made.end(&mut h);
    view.end(&mut h);
    a.end(&mut h);
    Some((
        count,
        for_count,
        rule.asked(),
        h.copied(),
        h.spare() == WHOLE,
    ))
}

#[test]
fn a_map_has_as_many_elements_as_its_array_and_asks_for_none(rt: HostRuntime) -> Result<(), Fail> {
    let found = both::<Brand>(rt.alloc(), Opening::new());
    assert_eq!(rt; found, Some((2, 0, 1, 2, true)));
    Ok(())
}

/// A rule of a caller's own, which keeps the even integers.
#[derive(Drop)]
struct Evens {
    asked: u64,
}

impl Rule for Evens {
    ghost shape_of = { λ _. shape.Even };

    ghost asked_of = { λ r. r.asked };

    fn shape(&self) -> Shape {
        Shape::Even
    }

    fn asked(&self) -> u64 {
        self.asked
    }

    fn map(&mut self, x: i64) -> i64 {
        self.asked = self.asked.saturating_add(1);
        x
    }

    fn keep(&mut self, x: i64) -> bool {
        self.asked = self.asked.saturating_add(1);
        x % 2 == 0
    }
}

/// An array of plain integers through a rule of a caller's own: how many are even, and how often it was asked.
fn even_numbers<Q: Stock>(alloc: Global, opening: Opening) -> Option<(usize, u64)>
    requires { Opens Q.Stock opening }
{
    let mut h = Holder::<Q>::fresh(opening);
    let mut items = Vec::new(alloc);
    for x in [-4i64, -3, 0, 7, 8] {
        items.push(x).ok()?;
    }
    if items.len() > 1000 || h.spare() == 0 {
        return None;
    }
    let a = Array::from_vec(alloc, items, &mut h).ok()?;
    let mut rule: Box<dyn Rule> = Box::new(alloc, Evens { asked: 0 }).ok()?;
    let mut view = LazyView::new(a, rule.shape());
    let count = view.count(&mut rule);
    view.end(&mut h);
    Some((count, rule.asked()))
}

#[test]
fn a_view_is_seen_through_a_rule_of_the_callers_own(rt: HostRuntime) -> Result<(), Fail> {
    let found = even_numbers::<Brand>(rt.alloc(), Opening::new());
    assert_eq!(rt; found, Some((3, 5)));
    Ok(())
}
