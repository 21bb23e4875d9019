// A statement that changes one name's value by another's.
ghost use Rattle.std.specs.Prelude.{◌≡◌, ◌+◌, ◌*◌, ◌^◌, ◌≤◌, ◌<◌, length, All, ⊤, false};
ghost use Rattle.std.specs.Str.{bytes_eq};
ghost use Rattle.cow_model.specs.Plain.{stop};
ghost use Rattle.cow_model.specs.declared.statement.Statement.{out-Statement};
ghost use Rattle.cow_eval.specs.Envs.{Runs, CanAct, env_of, ChangesBy};
ghost use Rattle.cow_model.specs.Step.{turned_by};

use crate::entry::Entry;
use crate::env::Env;
use crate::names::find;
use crate::statement::refuse;
use cow_cell::{Holder, Stock};
use cow_model::{NoMemory, Refusal, Statement};
use cow_value::Values;

// Changes the value at a place by that at a later one.
fn change_by_later<V: Values<Q>, Q: Stock>(
    names: &mut [Entry<V, Q>],
    at: usize,
    by: usize,
    statement: &Statement,
    h: &mut Holder<Q>,
) -> Result<Result<(), Refusal>, NoMemory>
    requires order { at < by }
    requires within { by < length names.old }
    requires near { All (λ e. stop e.seen.value + 1 ≤ 2 ^ 31) names.old }
    requires spare { 2 ^ 39 ≤ h.old.spare }
    ensures { ChangesBy V.counted (out-Statement statement.now) at by names.old names.new h.old h.new result }
{
    let (front, back) = names.split_at_mut(by);
    front[at].change_by(statement, &back[0], h)
}

// Changes the value at a place by that at an earlier one.
fn change_by_earlier<V: Values<Q>, Q: Stock>(
    names: &mut [Entry<V, Q>],
    at: usize,
    by: usize,
    statement: &Statement,
    h: &mut Holder<Q>,
) -> Result<Result<(), Refusal>, NoMemory>
    requires order { by < at }
    requires within { at < length names.old }
    requires near { All (λ e. stop e.seen.value + 1 ≤ 2 ^ 31) names.old }
    requires spare { 2 ^ 39 ≤ h.old.spare }
    ensures { ChangesBy V.counted (out-Statement statement.now) at by names.old names.new h.old h.new result }
{
    let (front, back) = names.split_at_mut(at);
    back[0].change_by(statement, &front[by], h)
}

// Changes the value at a place by that at another.
fn change_by_place<V: Values<Q>, Q: Stock>(
    names: &mut Vec<Entry<V, Q>>,
    at: usize,
    by: usize,
    statement: &Statement,
    h: &mut Holder<Q>,
) -> Result<Result<(), Refusal>, NoMemory>
    requires apart { at ≡ by → ⊥ }
    requires at { at < length names.old.items }
    requires by { by < length names.old.items }
    requires near { All (λ e. stop e.seen.value + 1 ≤ 2 ^ 31) names.old.items }
    requires spare { 2 ^ 39 ≤ h.old.spare }
    ensures { ChangesBy V.counted (out-Statement statement.now) at by names.old.items names.new.items h.old h.new result }
{
    if at < by {
        change_by_later(names, at, by, statement, h)
    } else {
        change_by_earlier(names, at, by, statement, h)
    }
}

// Changes a name's value by itself.
fn turn_by_itself<V: Values<Q>, Q: Stock>(
    statement: &Statement,
    name: &[u8],
    env: &mut Env<V, Q>,
    h: &mut Holder<Q>,
    text: &mut Vec<u8>,
) -> Result<(), NoMemory>
    requires ready { CanAct env.old h.old }
    ensures { Runs V.counted ⊤ 0 (turned_by (env_of env.old) name.now name.now (out-Statement statement.now))
        env.old env.new text.old.items text.new.items h.old h.new result }
{
    let Some(at) = find(&env.names, name) else {
        return refuse(text, Refusal::NoName);
    };
    let entry = &mut env.names[at];
    let before = env.allowed;
    env.allowed = before + (entry.both_cost(true) + entry.added(statement)) as u64;
    match entry.change_by_itself(statement, h)? {
        Ok(()) => Ok(()),
        Err(why) => {
            env.allowed = before;
            refuse(text, why)
        }
    }
}

// Changes a name's value by another name's.
fn turn_by_other<V: Values<Q>, Q: Stock>(
    statement: &Statement,
    name: &[u8],
    other: &[u8],
    env: &mut Env<V, Q>,
    h: &mut Holder<Q>,
    text: &mut Vec<u8>,
) -> Result<(), NoMemory>
    requires apart { bytes_eq name.now other.now ≡ false }
    requires ready { CanAct env.old h.old }
    ensures { Runs V.counted ⊤ 0 (turned_by (env_of env.old) name.now other.now (out-Statement statement.now))
        env.old env.new text.old.items text.new.items h.old h.new result }
{
    let Some(at) = find(&env.names, name) else {
        return refuse(text, Refusal::NoName);
    };
    let Some(by) = find(&env.names, other) else {
        return refuse(text, Refusal::NoName);
    };
    let copies = env.names[at].both_cost(false) + env.names[by].added(statement);
    let before = env.allowed;
    env.allowed = before + copies as u64;
    match change_by_place(&mut env.names, at, by, statement, h)? {
        Ok(()) => Ok(()),
        Err(why) => {
            env.allowed = before;
            refuse(text, why)
        }
    }
}

/// A statement that changes one value by another: the row that the table gives it.
pub fn turn_by<V: Values<Q>, Q: Stock>(
    statement: &Statement,
    name: &[u8],
    other: &[u8],
    env: &mut Env<V, Q>,
    h: &mut Holder<Q>,
    text: &mut Vec<u8>,
) -> Result<(), NoMemory>
    requires ready { CanAct env.old h.old }
    ensures { Runs V.counted ⊤ 0 (turned_by (env_of env.old) name.now other.now (out-Statement statement.now))
        env.old env.new text.old.items text.new.items h.old h.new result }
{
    if name == other {
        turn_by_itself(statement, name, env, h, text)
    } else {
        turn_by_other(statement, name, other, env, h, text)
    }
}
