// Statements of the words that share a form.
ghost use Rattle.std.specs.Prelude.{◌≡◌};
ghost use Rattle.cow_model.specs.Forms as spec;
ghost use Rattle.cow_model.specs.declared.word.Form.TheVariants as form;
ghost use Rattle.cow_lexis.specs.Reads.{Reads};

use crate::shapes::{lone_name, name_atom, name_place, name_side, two_names};
use cow_lexis::{Stop, Tokens};
use cow_model::{
    AtomWord, Literal, Name, NameWord, OtherWord, PlaceWord, Side, SideWord, Statement,
};
use std::alloc::Global;

// `WORD N`
fn on_name(line: u64, word: NameWord, name: Name) -> Statement
    ensures { result ≡ spec.on_name line word name }
{
    match word {
        NameWord::Drop => Statement::Discard { line, name },
        NameWord::Show => Statement::Show { line, name },
        NameWord::Count => Statement::Count { line, name },
        NameWord::Reverse => Statement::Reverse { line, name },
        NameWord::Clear => Statement::Clear { line, name },
        NameWord::Rebase => Statement::Rebase { line, name },
    }
}

// `WORD N A`
fn on_atom(line: u64, word: AtomWord, name: Name, atom: Literal) -> Statement
    ensures { result ≡ spec.on_atom line word name atom }
{
    match word {
        AtomWord::Append => Statement::Append { line, name, atom },
        AtomWord::Prepend => Statement::Prepend { line, name, atom },
        AtomWord::Update => Statement::Update { line, name, atom },
        AtomWord::Remove => Statement::Remove { line, name, atom },
        AtomWord::Get => Statement::Get { line, name, atom },
        AtomWord::Has => Statement::Has { line, name, atom },
        AtomWord::Place => Statement::Place { line, name, atom },
    }
}

// `WORD N I`
fn on_place(line: u64, word: PlaceWord, name: Name, i: i64) -> Statement
    ensures { result ≡ spec.on_place line word name i }
{
    match word {
        PlaceWord::RemoveAt => Statement::RemoveAt { line, name, i },
        PlaceWord::At => Statement::At { line, name, i },
        PlaceWord::Rotate => Statement::Rotate { line, name, c: i },
        PlaceWord::Reserve => Statement::Reserve { line, name, c: i },
    }
}

// `WORD N END`
fn on_side(line: u64, word: SideWord, name: Name, side: Side) -> Statement
    ensures { result ≡ spec.on_side line word name side }
{
    match word {
        SideWord::Pop => Statement::Pop { line, name, side },
        SideWord::Peek => Statement::Peek { line, name, side },
    }
}

// `WORD N M`
fn on_other(line: u64, word: OtherWord, name: Name, other: Name) -> Statement
    ensures { result ≡ spec.on_other line word name other }
{
    match word {
        OtherWord::Extend => Statement::Extend { line, name, other },
        OtherWord::Union => Statement::Union { line, name, other },
        OtherWord::Inter => Statement::Inter { line, name, other },
        OtherWord::Minus => Statement::Minus { line, name, other },
        OtherWord::SymDiff => Statement::SymDiff { line, name, other },
        OtherWord::Subset => Statement::Subset { line, name, other },
        OtherWord::Disjoint => Statement::Disjoint { line, name, other },
        OtherWord::Equal => Statement::Equal { line, name, other },
        OtherWord::Within => Statement::Within { line, name, other },
    }
}

/// `WORD N`
#[tactic(auto, unfolding(cow_model::specs::Forms::statement_of))]
pub fn read_on_name(
    alloc: Global,
    line: u64,
    word: NameWord,
    tokens: &mut Tokens<'_>,
) -> Result<Statement, Stop>
    ensures { Reads (spec.statement_of line (form.OnName word) tokens.old) result tokens.new }
{
    let name = lone_name(alloc, tokens)?;
    Ok(on_name(line, word, name))
}

/// `WORD N A`
#[tactic(auto, unfolding(cow_model::specs::Forms::statement_of))]
pub fn read_on_atom(
    alloc: Global,
    line: u64,
    word: AtomWord,
    tokens: &mut Tokens<'_>,
) -> Result<Statement, Stop>
    ensures { Reads (spec.statement_of line (form.OnAtom word) tokens.old) result tokens.new }
{
    let (name, atom) = name_atom(alloc, tokens)?;
    Ok(on_atom(line, word, name, atom))
}

/// `WORD N I`
#[tactic(auto, unfolding(cow_model::specs::Forms::statement_of))]
pub fn read_on_place(
    alloc: Global,
    line: u64,
    word: PlaceWord,
    tokens: &mut Tokens<'_>,
) -> Result<Statement, Stop>
    ensures { Reads (spec.statement_of line (form.OnPlace word) tokens.old) result tokens.new }
{
    let (name, i) = name_place(alloc, tokens)?;
    Ok(on_place(line, word, name, i))
}

/// `WORD N END`
#[tactic(auto, unfolding(cow_model::specs::Forms::statement_of))]
pub fn read_on_side(
    alloc: Global,
    line: u64,
    word: SideWord,
    tokens: &mut Tokens<'_>,
) -> Result<Statement, Stop>
    ensures { Reads (spec.statement_of line (form.OnSide word) tokens.old) result tokens.new }
{
    let (name, side) = name_side(alloc, tokens)?;
    Ok(on_side(line, word, name, side))
}

/// `WORD N M`
#[tactic(auto, unfolding(cow_model::specs::Forms::statement_of))]
pub fn read_on_other(
    alloc: Global,
    line: u64,
    word: OtherWord,
    tokens: &mut Tokens<'_>,
) -> Result<Statement, Stop>
    ensures { Reads (spec.statement_of line (form.OnOther word) tokens.old) result tokens.new }
{
    let (name, other) = two_names(alloc, tokens)?;
    Ok(on_other(line, word, name, other))
}
