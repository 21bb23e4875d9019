// The one statement that gives a value of another kind: an array of a slice.
ghost use Rattle.std.specs.Prelude.{◌≡◌, ◌≤◌, []};
ghost use Rattle.cow_kinds.specs.Values as values;
ghost use Rattle.cow_model.specs.Flat.{need};
ghost use Rattle.cow_model.specs.Operation as spec;
ghost use Rattle.cow_model.specs.Plain as plain;
ghost use Rattle.cow_model.specs.Plain.{max_count};
ghost use Rattle.cow_model.specs.Turns.{whole};
ghost use Rattle.cow_value.specs.Calls.{IsReady, Does, Costs};
ghost use Rattle.cow_value.specs.Seen.{literal};

use crate::value::Value;
use cow_array::Array;
use cow_cell::{Holder, Stock};
use cow_elements::Element;
use cow_model::{NoMemory, Refusal};
use cow_value::Collection;
use kind_array::{ArrayValue, SliceValue};
use std::alloc::Global;
use std::mem;

// A slice as the array of its elements. Want of memory hands it back as it was.
fn as_array<T: Element<Q>, Q: Stock>(
    v: Value<T, Q>,
    h: &mut Holder<Q>,
) -> (Result<Result<(), Refusal>, NoMemory>, Value<T, Q>)
    requires small { plain.count (values.seen v).value ≤ max_count }
    requires spare { need (plain.count (values.seen v).value) ≤ h.old.spare }
    ensures does { Does (whole spec.rebase) (values.seen v) (values.seen result.1) [] [] result.0 }
    ensures paid { Costs T.is_counted (literal T.is_counted []) (whole spec.rebase)
        (values.seen v) (values.seen result.1) h.old h.new result.0 }
{
    match v {
        Value::Slice(s) => match s.held.into_array(h) {
            Ok(held) => (Ok(Ok(())), Value::Array(ArrayValue { held })),
            Err((refused, held)) => (Err(refused), Value::Slice(SliceValue { held })),
        },
        other => (Ok(Err(Refusal::WrongKind)), other),
    }
}

/// `rebase N`. The place of the value holds an empty array meanwhile.
pub fn rebase<T: Element<Q>, Q: Stock>(
    v: &mut Value<T, Q>,
    alloc: Global,
    h: &mut Holder<Q>,
) -> Result<Result<(), Refusal>, NoMemory>
    requires ready { IsReady 0 (values.seen v.old) h.old }
    ensures does { Does (whole spec.rebase) (values.seen v.old) (values.seen v.new) [] [] result }
    ensures paid { Costs T.is_counted (literal T.is_counted []) (whole spec.rebase)
        (values.seen v.old) (values.seen v.new) h.old h.new result }
{
    let Value::Slice(_) = v else {
        return Ok(Err(Refusal::WrongKind));
    };
    let held = Array::new(alloc, h)?;
    let empty = Value::Array(ArrayValue { held });
    let (done, value) = as_array(mem::replace(v, empty), h);
    mem::replace(v, value).end(h);
    done
}
