// What stands behind the first words that share a form.
ghost use Rattle.cow_model.specs.Forms as spec;
ghost use Rattle.cow_lexis.specs.Reads.{Reads};

use crate::readers::{due_atom, due_integer, due_name, due_side, no_more};
use cow_lexis::{Stop, Tokens};
use cow_model::{Literal, Name, Side};
use std::alloc::Global;

/// `N`
#[tactic(auto, unfolding(cow_model::specs::Forms::lone_name))]
pub fn lone_name(alloc: Global, tokens: &mut Tokens<'_>) -> Result<Name, Stop>
    ensures { Reads (spec.lone_name tokens.old) result tokens.new }
{
    let name = due_name(alloc, tokens)?;
    no_more(tokens)?;
    Ok(name)
}

/// `N A`
#[tactic(auto, unfolding(cow_model::specs::Forms::name_atom))]
pub fn name_atom(alloc: Global, tokens: &mut Tokens<'_>) -> Result<(Name, Literal), Stop>
    ensures { Reads (spec.name_atom tokens.old) result tokens.new }
{
    let name = due_name(alloc, tokens)?;
    let atom = due_atom(alloc, tokens)?;
    no_more(tokens)?;
    Ok((name, atom))
}

/// `N I`
#[tactic(auto, unfolding(cow_model::specs::Forms::name_place))]
pub fn name_place(alloc: Global, tokens: &mut Tokens<'_>) -> Result<(Name, i64), Stop>
    ensures { Reads (spec.name_place tokens.old) result tokens.new }
{
    let name = due_name(alloc, tokens)?;
    let i = due_integer(tokens)?;
    no_more(tokens)?;
    Ok((name, i))
}

/// `N I A`
#[tactic(auto, unfolding(cow_model::specs::Forms::name_place_atom))]
pub fn name_place_atom(alloc: Global, tokens: &mut Tokens<'_>) -> Result<(Name, i64, Literal), Stop>
    ensures { Reads (spec.name_place_atom tokens.old) result tokens.new }
{
    let name = due_name(alloc, tokens)?;
    let i = due_integer(tokens)?;
    let atom = due_atom(alloc, tokens)?;
    no_more(tokens)?;
    Ok((name, i, atom))
}

/// `N END`
#[tactic(auto, unfolding(cow_model::specs::Forms::name_side))]
pub fn name_side(alloc: Global, tokens: &mut Tokens<'_>) -> Result<(Name, Side), Stop>
    ensures { Reads (spec.name_side tokens.old) result tokens.new }
{
    let name = due_name(alloc, tokens)?;
    let side = due_side(tokens)?;
    no_more(tokens)?;
    Ok((name, side))
}

/// `N M`
#[tactic(auto, unfolding(cow_model::specs::Forms::two_names))]
pub fn two_names(alloc: Global, tokens: &mut Tokens<'_>) -> Result<(Name, Name), Stop>
    ensures { Reads (spec.two_names tokens.old) result tokens.new }
{
    let name = due_name(alloc, tokens)?;
    let other = due_name(alloc, tokens)?;
    no_more(tokens)?;
    Ok((name, other))
}

/// `N END A`
#[tactic(auto, unfolding(cow_model::specs::Forms::name_side_atom))]
pub fn name_side_atom(alloc: Global, tokens: &mut Tokens<'_>) -> Result<(Name, Side, Literal), Stop>
    ensures { Reads (spec.name_side_atom tokens.old) result tokens.new }
{
    let name = due_name(alloc, tokens)?;
    let side = due_side(tokens)?;
    let atom = due_atom(alloc, tokens)?;
    no_more(tokens)?;
    Ok((name, side, atom))
}

/// `N I J`
#[tactic(auto, unfolding(cow_model::specs::Forms::name_places))]
pub fn name_places(alloc: Global, tokens: &mut Tokens<'_>) -> Result<(Name, i64, i64), Stop>
    ensures { Reads (spec.name_places tokens.old) result tokens.new }
{
    let name = due_name(alloc, tokens)?;
    let i = due_integer(tokens)?;
    let j = due_integer(tokens)?;
    no_more(tokens)?;
    Ok((name, i, j))
}

/// `N K V`
#[tactic(auto, unfolding(cow_model::specs::Forms::name_atoms))]
pub fn name_atoms(alloc: Global, tokens: &mut Tokens<'_>) -> Result<(Name, Literal, Literal), Stop>
    ensures { Reads (spec.name_atoms tokens.old) result tokens.new }
{
    let name = due_name(alloc, tokens)?;
    let key = due_atom(alloc, tokens)?;
    let value = due_atom(alloc, tokens)?;
    no_more(tokens)?;
    Ok((name, key, value))
}
