// Statements of one line.
ghost use Rattle.std.specs.Prelude.{◌≡◌, nat_le, length};
ghost use Rattle.cow_model.specs.Forms as spec;
ghost use Rattle.cow_model.specs.declared.word.Form.TheVariants as form;
ghost use Rattle.cow_lexis.specs.Reads.{Reads};

use crate::groups::{read_on_atom, read_on_name, read_on_other, read_on_place, read_on_side};
use crate::lists::all_atoms;
use crate::readers::{due_integer, due_name, due_preference, due_token, due_verb, no_more};
use crate::shapes::{name_atom, name_atoms, name_place_atom, name_places, name_side_atom};
use crate::value::assignment;
use cow_lexis::{Stop, Tokens};
use cow_model::{Form, Statement};
use std::alloc::Global;

// `splice N I J A*`
#[tactic(auto, unfolding(cow_model::specs::Forms::splice))]
fn splice(alloc: Global, line: u64, tokens: &mut Tokens<'_>) -> Result<Statement, Stop>
    ensures { Reads (spec.splice line tokens.old) result tokens.new }
{
    let name = due_name(alloc, tokens)?;
    let i = due_integer(tokens)?;
    let j = due_integer(tokens)?;
    let atoms = all_atoms(alloc, tokens)?;
    Ok(Statement::Splice {
        line,
        name,
        i,
        j,
        atoms,
    })
}

// `merge N M keep` and `merge N M take`
#[tactic(auto, unfolding(cow_model::specs::Forms::merge))]
fn merge(alloc: Global, line: u64, tokens: &mut Tokens<'_>) -> Result<Statement, Stop>
    ensures { Reads (spec.merge line tokens.old) result tokens.new }
{
    let name = due_name(alloc, tokens)?;
    let other = due_name(alloc, tokens)?;
    let take = due_preference(tokens)?;
    no_more(tokens)?;
    Ok(Statement::Merge {
        line,
        name,
        other,
        take,
    })
}

// `lazy N I VERB`
#[tactic(auto, unfolding(cow_model::specs::Forms::lazy))]
fn lazy(alloc: Global, line: u64, tokens: &mut Tokens<'_>) -> Result<Statement, Stop>
    ensures { Reads (spec.lazy line tokens.old) result tokens.new }
{
    let name = due_name(alloc, tokens)?;
    let i = due_integer(tokens)?;
    let verb = due_verb(tokens)?;
    no_more(tokens)?;
    Ok(Statement::Lazy {
        line,
        name,
        i,
        verb,
    })
}

// `give Y as Z`
#[tactic(auto, unfolding(cow_model::specs::Forms::give))]
fn give(alloc: Global, line: u64, tokens: &mut Tokens<'_>) -> Result<Statement, Stop>
    ensures { Reads (spec.give line tokens.old) result tokens.new }
{
    let name = due_name(alloc, tokens)?;
    due_token(b"as", tokens)?;
    let to = due_name(alloc, tokens)?;
    no_more(tokens)?;
    Ok(Statement::Give { line, name, to })
}

// `insert N A`
#[tactic(auto, unfolding(cow_model::specs::Forms::insert_atom))]
fn insert_atom(alloc: Global, line: u64, tokens: &mut Tokens<'_>) -> Result<Statement, Stop>
    ensures { Reads (spec.insert_atom line tokens.old) result tokens.new }
{
    let (name, atom) = name_atom(alloc, tokens)?;
    Ok(Statement::Insert { line, name, atom })
}

// `insert N I A`
#[tactic(auto, unfolding(cow_model::specs::Forms::insert_at))]
fn insert_at(alloc: Global, line: u64, tokens: &mut Tokens<'_>) -> Result<Statement, Stop>
    ensures { Reads (spec.insert_at line tokens.old) result tokens.new }
{
    let (name, i, atom) = name_place_atom(alloc, tokens)?;
    Ok(Statement::InsertAt {
        line,
        name,
        i,
        atom,
    })
}

// `insert N A`, and with more tokens `insert N I A`
#[tactic(auto, unfolding(cow_model::specs::Forms::insert))]
fn insert(alloc: Global, line: u64, tokens: &mut Tokens<'_>) -> Result<Statement, Stop>
    ensures { Reads (spec.insert line tokens.old) result tokens.new }
{
    if tokens.are_three() {
        insert_at(alloc, line, tokens)
    } else {
        insert_atom(alloc, line, tokens)
    }
}

// `set N I A`
#[tactic(auto, unfolding(cow_model::specs::Forms::statement_of))]
fn set(alloc: Global, line: u64, tokens: &mut Tokens<'_>) -> Result<Statement, Stop>
    ensures { Reads (spec.statement_of line form.Set tokens.old) result tokens.new }
{
    let (name, i, atom) = name_place_atom(alloc, tokens)?;
    Ok(Statement::Set {
        line,
        name,
        i,
        atom,
    })
}

// `replace N S A`
#[tactic(auto, unfolding(cow_model::specs::Forms::statement_of))]
fn replace(alloc: Global, line: u64, tokens: &mut Tokens<'_>) -> Result<Statement, Stop>
    ensures { Reads (spec.statement_of line form.Replace tokens.old) result tokens.new }
{
    let (name, side, atom) = name_side_atom(alloc, tokens)?;
    Ok(Statement::Replace {
        line,
        name,
        side,
        atom,
    })
}

// `swap N I J`
#[tactic(auto, unfolding(cow_model::specs::Forms::statement_of))]
fn swap(alloc: Global, line: u64, tokens: &mut Tokens<'_>) -> Result<Statement, Stop>
    ensures { Reads (spec.statement_of line form.Swap tokens.old) result tokens.new }
{
    let (name, i, j) = name_places(alloc, tokens)?;
    Ok(Statement::Swap { line, name, i, j })
}

// `put N K V`
#[tactic(auto, unfolding(cow_model::specs::Forms::statement_of))]
fn put(alloc: Global, line: u64, tokens: &mut Tokens<'_>) -> Result<Statement, Stop>
    ensures { Reads (spec.statement_of line form.Put tokens.old) result tokens.new }
{
    let (name, key, value) = name_atoms(alloc, tokens)?;
    Ok(Statement::Put {
        line,
        name,
        key,
        value,
    })
}

/// The statement that the tokens behind a first word are.
#[tactic(auto, unfolding(cow_model::specs::Forms::statement_of))]
pub fn statement(
    alloc: Global,
    line: u64,
    form: Form,
    tokens: &mut Tokens<'_>,
) -> Result<Statement, Stop>
    ensures { Reads (spec.statement_of line form tokens.old) result tokens.new }
{
    match form {
        Form::Let => assignment(alloc, line, tokens),
        Form::OnName(word) => read_on_name(alloc, line, word, tokens),
        Form::OnAtom(word) => read_on_atom(alloc, line, word, tokens),
        Form::OnPlace(word) => read_on_place(alloc, line, word, tokens),
        Form::OnSide(word) => read_on_side(alloc, line, word, tokens),
        Form::OnOther(word) => read_on_other(alloc, line, word, tokens),
        Form::Insert => insert(alloc, line, tokens),
        Form::Set => set(alloc, line, tokens),
        Form::Replace => replace(alloc, line, tokens),
        Form::Swap => swap(alloc, line, tokens),
        Form::Splice => splice(alloc, line, tokens),
        Form::Put => put(alloc, line, tokens),
        Form::Merge => merge(alloc, line, tokens),
        Form::Lazy => lazy(alloc, line, tokens),
        Form::Give => give(alloc, line, tokens),
    }
}
