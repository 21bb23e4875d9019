// What becomes of an environment, and what is printed.
ghost use Rattle.std.specs.Prelude.{◌≡◌, IfOk, false};
ghost use Rattle.cow_model.specs.Step as spec;
ghost use Rattle.cow_model.specs.Changes.{flag_of};
ghost use Rattle.cow_model.specs.Sharing as sharing;

use crate::environment::{allow, given, has_place, named, settled};
use crate::operation::Answer;
use crate::plain::same_plain;
use crate::printed::line;
use crate::query::Told;
use crate::sharing::alone_if;
use cow_model::{Bytes, Entry, Environment, NoMemory, Outcome, Plain, Refusal};
use std::alloc::Global;

/// A statement that is refused changes nothing.
pub fn refused(alloc: Global, env: Environment, why: Refusal) -> Result<Outcome, NoMemory>
    ensures { IfOk result (λ out. out ≡ spec.refused env why) }
{
    let text = Bytes::from_vec(Vec::from_slice(alloc, why.line())?);
    Ok(Outcome { env, text })
}

/// Nothing is printed.
pub fn quiet(alloc: Global, env: Environment) -> Outcome
    ensures { result ≡ spec.quiet env }
{
    let text = Bytes::from_vec(Vec::new(alloc));
    Outcome { env, text }
}

/// A name stands for a value.
pub fn gives(
    alloc: Global,
    name: &[u8],
    value: Plain,
    alone: bool,
    env: Environment,
) -> Result<Environment, NoMemory>
    ensures { IfOk result (λ made. made ≡ spec.gives name.now value alone env) }
{
    let name = named(alloc, name)?;
    let names = given(Entry { name, value, alone }, env.names)?;
    Ok(Environment {
        names,
        room: env.room,
        allowed: env.allowed,
    })
}

/// A name's value isn't alone any longer.
pub fn settles(alloc: Global, name: &[u8], env: Environment) -> Result<Environment, NoMemory>
    ensures { IfOk result (λ made. made ≡ spec.settles name.now env) }
{
    let names = settled(alloc, name, env.names)?;
    Ok(Environment {
        names,
        room: env.room,
        allowed: env.allowed,
    })
}

// A name that has place stands for a value.
fn given_in(
    alloc: Global,
    env: Environment,
    name: &[u8],
    value: Plain,
    alone: bool,
) -> Result<Outcome, NoMemory>
    ensures { IfOk result (λ out. out ≡ spec.quiet (spec.gives name.now value alone env)) }
{
    let env = gives(alloc, name, value, alone, env)?;
    Ok(quiet(alloc, env))
}

/// `let N = KIND A*`
pub fn let_in(
    alloc: Global,
    env: Environment,
    name: &[u8],
    value: Plain,
) -> Result<Outcome, NoMemory>
    ensures { IfOk result (λ out. out ≡ spec.let_in env name.now value) }
{
    if has_place(name, env.names.as_slice()) {
        given_in(alloc, env, name, value, true)
    } else {
        refused(alloc, env, Refusal::Full)
    }
}

// A second value of a name that has place.
fn second_given(
    alloc: Global,
    env: Environment,
    name: &[u8],
    other: &[u8],
    value: Plain,
) -> Result<Outcome, NoMemory>
    ensures { IfOk result (λ out. out ≡ spec.quiet (spec.gives name.now value false (spec.settles other.now env))) }
{
    let env = settles(alloc, other, env)?;
    given_in(alloc, env, name, value, false)
}

/// A second value made of another's: neither is alone.
pub fn second_in(
    alloc: Global,
    env: Environment,
    name: &[u8],
    other: &[u8],
    value: Plain,
) -> Result<Outcome, NoMemory>
    ensures { IfOk result (λ out. out ≡ spec.second_in env name.now other.now value) }
{
    if has_place(name, env.names.as_slice()) {
        second_given(alloc, env, name, other, value)
    } else {
        refused(alloc, env, Refusal::Full)
    }
}

/// A line that uses room.
pub fn print_in(alloc: Global, env: Environment, text: Bytes) -> Result<Outcome, NoMemory>
    ensures { IfOk result (λ out. out ≡ spec.print_in env text) }
{
    let length = text.as_slice().len() as u64;
    if env.room < length {
        return refused(alloc, env, Refusal::TextFull);
    }
    let env = Environment {
        names: env.names,
        room: env.room - length,
        allowed: env.allowed,
    };
    Ok(Outcome { env, text })
}

/// A line that was told, or the refusal.
pub fn told(alloc: Global, env: Environment, told: Told) -> Result<Outcome, NoMemory>
    ensures { IfOk result (λ out. out ≡ spec.told env told) }
{
    match told {
        Ok(text) => {
            let text = line(alloc, text.as_slice())?;
            Ok(Outcome { env, text })
        }
        Err(why) => refused(alloc, env, why),
    }
}

/// What two values told: one name for both isn't alone afterwards.
pub fn told_both(
    alloc: Global,
    env: Environment,
    name: &[u8],
    other: &[u8],
    told: Told,
) -> Result<Outcome, NoMemory>
    ensures { IfOk result (λ out. out ≡ spec.told_both env name.now other.now told) }
{
    match told {
        Ok(text) => {
            let env = if name == other {
                settles(alloc, name, env)?
            } else {
                env
            };
            let text = line(alloc, text.as_slice())?;
            Ok(Outcome { env, text })
        }
        Err(why) => refused(alloc, env, why),
    }
}

/// The flag of a value after an answer, by whether the statement parts it.
pub fn flag_after(parts: bool, e: &Entry, answer: &Answer) -> bool
    ensures { result ≡ flag_of (sharing.alone_if parts e.now.alone e.now.value) answer.now }
{
    match answer {
        Ok(done) => alone_if(parts, e.alone, &e.value, &done.value),
        Err(_) => false,
    }
}

/// A name's value becomes another, so many copies are allowed, and `alone` is its flag.
pub fn becomes(
    alloc: Global,
    env: Environment,
    name: &[u8],
    cost: u64,
    alone: bool,
    answer: Answer,
) -> Result<Outcome, NoMemory>
    ensures { IfOk result (λ out. out ≡ spec.becomes env name.now cost (λ value. alone) answer) }
{
    match answer {
        Ok(done) => {
            let env = gives(alloc, name, done.value, alone, env)?;
            let env = allow(cost, env)?;
            Ok(Outcome {
                env,
                text: done.reply,
            })
        }
        Err(why) => refused(alloc, env, why),
    }
}
