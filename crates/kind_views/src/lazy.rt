// Lazy statements on an array: what its view through a rule shows.
ghost use Rattle.std.specs.Prelude.{◌≡◌, ◌++◌, ◌≤◌, length, OnOk, OnErr};
ghost use Rattle.cow_model.specs.Flat.{need};
ghost use Rattle.cow_model.specs.Lazy.{asks, view};
ghost use Rattle.cow_model.specs.Printed.{line, list_text};
ghost use Rattle.cow_model.specs.Purse.{Moves};
ghost use Rattle.cow_model.specs.declared.statement.Verb.TheVariants as verbs;
ghost use Rattle.cow_rule.specs.Asked.{raised};
ghost use Rattle.cow_value.specs.Calls.{IsReady};
ghost use Rattle.cow_value.specs.Seen.{units};
ghost use Rattle.cow_views.specs.Views.{Looks, view_cost, view_line};
ghost use Rattle.kind_array.specs.Values.{array};
ghost use Rattle.kind_views.specs.Looking.{Looked};

use cow_array::Array;
use cow_cell::{Holder, Stock};
use cow_elements::lines::{put_number, put_or_nil};
use cow_elements::{Element, put_list};
use cow_item::Item;
use cow_lazy::{LazyView, Operand};
use cow_model::{NoMemory, Verb};
use cow_rule::Rule;
use kind_array::ArrayValue;
use std::alloc::Global;

// The line of an array, whole or not at all.
fn put_line<T: Element<Q>, Q: Stock>(
    a: &ArrayValue<T, Q>,
    text: &mut Vec<u8>,
) -> Result<(), NoMemory>
    ensures ok { OnOk result (text.new.items ≡ text.old.items ++ line (list_text a.now.held.value)) }
    ensures err { OnErr result (text.new.items ≡ text.old.items) }
{
    let before = text.len();
    if put_list(a, text).is_err() || text.push(b'\n').is_err() {
        text.truncate(before);
        return Err(NoMemory);
    }
    Ok(())
}

// The line of the first element of a view.
fn put_first<T: Element<Q> + Operand<Q>, Q: Stock>(
    view: &mut LazyView<T, Q>,
    rule: &mut Box<dyn Rule>,
    text: &mut Vec<u8>,
    h: &mut Holder<Q>,
) -> Result<(), NoMemory>
    requires rule { shape_of rule.old ≡ view.old.shape }
    requires spare { 1 ≤ h.old.spare }
    ensures looked { Looked verbs.First view.old view.new text.old.items text.new.items h.old h.new result }
    ensures shape { shape_of rule.new ≡ shape_of rule.old }
    ensures asked { asked_of rule.new
        ≡ raised (asks view.old.base.value view.old.shape verbs.First) (asked_of rule.old) }
{
    let first = view.first(rule, h);
    let put = put_or_nil(first.as_ref(), text);
    if let Some(x) = first {
        x.end(h);
    }
    put
}

// The line of all elements of a view.
fn put_all<T: Element<Q> + Operand<Q>, Q: Stock>(
    view: &mut LazyView<T, Q>,
    alloc: Global,
    rule: &mut Box<dyn Rule>,
    text: &mut Vec<u8>,
    h: &mut Holder<Q>,
) -> Result<(), NoMemory>
    requires rule { shape_of rule.old ≡ view.old.shape }
    requires spare { need (length view.old.base.value) ≤ h.old.spare }
    ensures looked { Looked verbs.Show view.old view.new text.old.items text.new.items h.old h.new result }
    ensures shape { shape_of rule.new ≡ shape_of rule.old }
    ensures asked { OnOk result (asked_of rule.new
        ≡ raised (asks view.old.base.value view.old.shape verbs.Show) (asked_of rule.old)) }
{
    let held = view.collect(alloc, rule, h)?;
    let shown = ArrayValue { held };
    let put = put_line(&shown, text);
    shown.held.end(h);
    put
}

// The line of a view.
fn put_view<T: Element<Q> + Operand<Q>, Q: Stock>(
    view: &mut LazyView<T, Q>,
    alloc: Global,
    rule: &mut Box<dyn Rule>,
    verb: Verb,
    text: &mut Vec<u8>,
    h: &mut Holder<Q>,
) -> Result<(), NoMemory>
    requires rule { shape_of rule.old ≡ view.old.shape }
    requires spare { need (length view.old.base.value) ≤ h.old.spare }
    ensures looked { Looked verb view.old view.new text.old.items text.new.items h.old h.new result }
    ensures shape { shape_of rule.new ≡ shape_of rule.old }
    ensures asked { OnOk result (asked_of rule.new
        ≡ raised (asks view.old.base.value view.old.shape verb) (asked_of rule.old)) }
{
    match verb {
        Verb::First => put_first(view, rule, text, h),
        Verb::Show => put_all(view, alloc, rule, text, h),
        Verb::Count => put_number(view.count(rule), text),
    }
}

/// `lazy N I VERB`, through the rule that I names. The view is over a second handle, which ends with it.
pub fn look<T: Element<Q> + Operand<Q>, Q: Stock>(
    a: &mut Array<T, Q>,
    alloc: Global,
    rule: &mut Box<dyn Rule>,
    verb: Verb,
    text: &mut Vec<u8>,
    h: &mut Holder<Q>,
) -> Result<(), NoMemory>
    requires ready { IsReady 0 (array a.old) h.old }
    ensures looks { Looks (shape_of rule.old) verb (array a.old) (array a.new)
        text.old.items text.new.items result }
    ensures shape { shape_of rule.new ≡ shape_of rule.old }
    ensures asked { OnOk result (asked_of rule.new
        ≡ raised (asks a.old.value (shape_of rule.old) verb) (asked_of rule.old)) }
    ensures paid { Moves (units T.is_counted (array a.old)) (view_cost verb a.old.value) h.old h.new }
    ensures never_less { h.old.spare ≤ h.new.spare }
{
    let mut view = LazyView::new(a.copy(h), rule.shape());
    let put = put_view(&mut view, alloc, rule, verb, text, h);
    view.end(h);
    put
}
