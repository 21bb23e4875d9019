// `let`.
ghost use Rattle.std.specs.Prelude.{◌≡◌};
ghost use Rattle.cow_model.specs.Forms as spec;
ghost use Rattle.cow_lexis.specs.Reads.{Reads};

use crate::lists::all_atoms;
use crate::readers::{due_name, due_token, name, no_more};
use crate::shapes::name_places;
use crate::words::{is_word, kind};
use cow_lexis::{Stop, Tokens};
use cow_model::{Flaw, Kind, Literal, Name, Statement};
use sqlite_items::Items;
use std::alloc::Global;

fn is_paired(kind: Kind) -> bool
    ensures { result ≡ spec.is_paired kind }
{
    matches!(kind, Kind::Dict | Kind::ODict | Kind::TDict)
}

// Pairs are an even number of atoms.
fn in_pairs(kind: Kind, atoms: &Items<Literal>) -> Result<(), Flaw>
    ensures { result ≡ spec.in_pairs kind atoms.now }
{
    if is_paired(kind) && atoms.len() % 2 != 0 {
        return Err(Flaw::BadAtom);
    }
    Ok(())
}

// `A*` behind `let N = KIND`
#[tactic(auto, unfolding(cow_model::specs::Forms::made))]
fn made(
    alloc: Global,
    line: u64,
    name: Name,
    kind: Kind,
    tokens: &mut Tokens<'_>,
) -> Result<Statement, Stop>
    ensures { Reads (spec.made line name kind tokens.old) result tokens.new }
{
    let atoms = all_atoms(alloc, tokens)?;
    in_pairs(kind, &atoms)?;
    Ok(Statement::Let {
        line,
        name,
        kind,
        atoms,
    })
}

// `M I J` behind `let N = slice`
#[tactic(auto, unfolding(cow_model::specs::Forms::sliced))]
fn sliced(alloc: Global, line: u64, name: Name, tokens: &mut Tokens<'_>) -> Result<Statement, Stop>
    ensures { Reads (spec.sliced line name tokens.old) result tokens.new }
{
    let (other, i, j) = name_places(alloc, tokens)?;
    Ok(Statement::Slice {
        line,
        name,
        other,
        i,
        j,
    })
}

// Nothing more behind `let N = M`
#[tactic(auto, unfolding(cow_model::specs::Forms::assigned))]
fn assigned(line: u64, name: Name, other: Name, tokens: &mut Tokens<'_>) -> Result<Statement, Stop>
    ensures { Reads (spec.assigned line name other tokens.old) result tokens.new }
{
    no_more(tokens)?;
    Ok(Statement::Assign { line, name, other })
}

fn is_slice(token: &[u8]) -> bool
    ensures { result ≡ spec.is_slice token.now }
{
    is_word(token, b"slice")
}

// What stands behind `let N =`, where the first token of it is no kind.
#[tactic(auto, unfolding(cow_model::specs::Forms::no_kind))]
fn no_kind(
    alloc: Global,
    line: u64,
    target: Name,
    token: &[u8],
    tokens: &mut Tokens<'_>,
) -> Result<Statement, Stop>
    ensures { Reads (spec.no_kind line target token.now tokens.old) result tokens.new }
{
    if is_slice(token) {
        return sliced(alloc, line, target, tokens);
    }
    let other = name(alloc, token)?;
    assigned(line, target, other, tokens)
}

// What stands behind `let N =`
#[tactic(auto, unfolding(cow_model::specs::Forms::value_of))]
fn value(alloc: Global, line: u64, name: Name, tokens: &mut Tokens<'_>) -> Result<Statement, Stop>
    ensures { Reads (spec.value_of line name tokens.old) result tokens.new }
{
    let Some(token) = tokens.next() else {
        return Err(Stop::Flaw(Flaw::BadWord));
    };
    match kind(token) {
        Some(kind) => made(alloc, line, name, kind, tokens),
        None => no_kind(alloc, line, name, token, tokens),
    }
}

/// `let N = KIND A*`, `let N = M`, `let N = slice M I J`
#[tactic(auto, unfolding(cow_model::specs::Forms::assignment))]
pub fn assignment(alloc: Global, line: u64, tokens: &mut Tokens<'_>) -> Result<Statement, Stop>
    ensures { Reads (spec.assignment line tokens.old) result tokens.new }
{
    let name = due_name(alloc, tokens)?;
    due_token(b"=", tokens)?;
    value(alloc, line, name, tokens)
}
