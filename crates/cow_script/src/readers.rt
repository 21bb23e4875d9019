// What is due next on a line.
ghost use Rattle.std.specs.Prelude.{◌≡◌, IfOk};
ghost use Rattle.cow_model.specs.Words.{side_of, verb_of, preference_of};
ghost use Rattle.cow_model.specs.Readers as spec;
ghost use Rattle.cow_lexis.specs.Reads.{Gives, Reads};
ghost use Rattle.cow_script.specs.Reads.{Takes};

use crate::words::{is_word, preference, side, verb};
use cow_lexis::{Stop, Tokens, integer, is_name};
use cow_model::{Flaw, Literal, Name, Side, Verb};
use std::alloc::Global;

/// The name that a token is.
pub fn name(alloc: Global, token: &[u8]) -> Result<Name, Stop>
    ensures { Gives (spec.name_of token.now) result }
{
    if !is_name(token) {
        return Err(Stop::Flaw(Flaw::BadName));
    }
    Ok(Name::from_vec(Vec::from_slice(alloc, token)?))
}

// The next token, whatever it is.
fn due<'a>(tokens: &mut Tokens<'a>) -> Result<&'a [u8], Flaw>
    ensures { Takes tokens.old result tokens.new }
{
    tokens.next().ok_or(Flaw::BadWord)
}

/// A name is due.
#[tactic(auto, unfolding(cow_model::specs::Readers::due_name))]
pub fn due_name(alloc: Global, tokens: &mut Tokens<'_>) -> Result<Name, Stop>
    ensures { Reads (spec.due_name tokens.old) result tokens.new }
{
    let token = due(tokens)?;
    name(alloc, token)
}

/// An atom is due.
#[tactic(auto, unfolding(cow_model::specs::Readers::due_atom))]
pub fn due_atom(alloc: Global, tokens: &mut Tokens<'_>) -> Result<Literal, Stop>
    ensures { Reads (spec.due_atom tokens.old) result tokens.new }
{
    let mut content = Vec::new(alloc);
    match tokens.next_atom(alloc, &mut content)? {
        Some(atom) => Ok(atom),
        None => Err(Stop::Flaw(Flaw::BadWord)),
    }
}

/// An integer is due.
#[tactic(auto, unfolding(cow_model::specs::Readers::due_integer))]
pub fn due_integer(tokens: &mut Tokens<'_>) -> Result<i64, Stop>
    ensures { Reads (spec.due_integer tokens.old) result tokens.new }
{
    let token = due(tokens)?;
    integer(token).ok_or(Stop::Flaw(Flaw::BadAtom))
}

/// The end of a value is due.
#[tactic(auto, unfolding(cow_model::specs::Readers::due_word))]
pub fn due_side(tokens: &mut Tokens<'_>) -> Result<Side, Stop>
    ensures { Reads (spec.due_word side_of tokens.old) result tokens.new }
{
    let token = due(tokens)?;
    side(token).ok_or(Stop::Flaw(Flaw::BadWord))
}

/// What a lazy statement asks is due.
#[tactic(auto, unfolding(cow_model::specs::Readers::due_word))]
pub fn due_verb(tokens: &mut Tokens<'_>) -> Result<Verb, Stop>
    ensures { Reads (spec.due_word verb_of tokens.old) result tokens.new }
{
    let token = due(tokens)?;
    verb(token).ok_or(Stop::Flaw(Flaw::BadWord))
}

/// Whose value a merge takes is due.
#[tactic(auto, unfolding(cow_model::specs::Readers::due_word))]
pub fn due_preference(tokens: &mut Tokens<'_>) -> Result<bool, Stop>
    ensures { Reads (spec.due_word preference_of tokens.old) result tokens.new }
{
    let token = due(tokens)?;
    preference(token).ok_or(Stop::Flaw(Flaw::BadWord))
}

/// This very token is due.
#[tactic(auto, unfolding(cow_model::specs::Readers::due_token))]
pub fn due_token(word: &[u8], tokens: &mut Tokens<'_>) -> Result<(), Stop>
    ensures { Reads (spec.due_token word.now tokens.old) result tokens.new }
{
    let token = due(tokens)?;
    if !is_word(token, word) {
        return Err(Stop::Flaw(Flaw::BadWord));
    }
    Ok(())
}

/// Nothing more is due.
#[tactic(auto, unfolding(cow_model::specs::Readers::no_more))]
pub fn no_more(tokens: &mut Tokens<'_>) -> Result<(), Stop>
    ensures { Reads (spec.no_more tokens.old) result tokens.new }
{
    match tokens.next() {
        None => Ok(()),
        Some(_) => Err(Stop::Flaw(Flaw::BadWord)),
    }
}
