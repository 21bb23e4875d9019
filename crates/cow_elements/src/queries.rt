// What statements that only read print of a list of elements.
ghost use Rattle.cow_model.specs.Query as spec;
ghost use Rattle.cow_value.specs.Calls.{Tells};

use crate::element::Element;
use crate::lines::put_element_at;
use crate::listed::Listed;
use crate::positions::index;
use cow_cell::Stock;
use cow_model::{Literal, NoMemory, Refusal};

/// `get N X` of a list whose first element has the index `start`.
pub fn get<T: Element<Q>, Q: Stock, L: Listed<T, Q>>(
    list: &L,
    start: usize,
    x: &Literal,
    text: &mut Vec<u8>,
) -> Result<Result<(), Refusal>, NoMemory>
    ensures { Tells (spec.get_at start x.now (L.elements list.now))
        text.old.items text.new.items result }
{
    let Literal::Int(i) = x else {
        return Ok(Err(Refusal::WrongKind));
    };
    let Some(place) = index(start, list.size(), *i) else {
        return Ok(Err(Refusal::OutOfRange));
    };
    put_element_at(list, place, text)?;
    Ok(Ok(()))
}
