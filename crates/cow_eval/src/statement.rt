// One statement on one name, or that gives a name a value, as its definition says.
ghost use Rattle.std.specs.Prelude.{◌≡◌, ◌++◌, ◌^◌, ◌≤◌, ◌<◌, ◌+◌, [], true, false, ⊤, IfOk, IfSome, IfNone, IsOk, is_some, length, count_by, All, OnOk, OnErr, if◌then◌else◌};
ghost use Rattle.std.specs.Io.{StartsWith};
ghost use Rattle.cow_model.specs.Atoms.{FitsTexts, counted_in, is_tree_kind};
ghost use Rattle.cow_model.specs.Changes.{query_of, query_both_of};
ghost use Rattle.cow_model.specs.Env.{place_of, has_place};
ghost use Rattle.cow_model.specs.Literals.{FitsText};
ghost use Rattle.cow_model.specs.Operation as operation;
ghost use Rattle.cow_model.specs.Plain.{max_count, stop};
ghost use Rattle.cow_model.specs.Printed.{line, plain_text, refusal};
ghost use Rattle.cow_model.specs.Purse.{RisesBy};
ghost use Rattle.cow_model.specs.Sharing.{literals};
ghost use Rattle.cow_model.specs.Step as spec;
ghost use Rattle.cow_model.specs.Turns.{turn_of};
ghost use Rattle.cow_model.specs.declared.statement.Statement.{out-Statement};
ghost use Rattle.cow_value.specs.Built.{is_built_kind};
ghost use Rattle.cow_eval.specs.Envs.{Runs, Reads, CanAct, Fits, env_of};

use crate::entry::Entry;
use crate::env::Env;
use crate::names::find;
use cow_cell::{Holder, Stock};
use cow_model::{Kind, Literal, NoMemory, Refusal, Statement};
use cow_value::Values;
use std::alloc::Global;

/// Appends the line of a refusal, whole or not at all.
pub fn refuse(text: &mut Vec<u8>, why: Refusal) -> Result<(), NoMemory>
    ensures ok { OnOk result (text.new.items ≡ text.old.items ++ refusal why) }
    ensures err { OnErr result (text.new.items ≡ text.old.items) }
{
    text.extend_from_slice(why.line())?;
    Ok(())
}

/// `let N = KIND A*`
pub fn make<V: Values<Q>, Q: Stock>(
    alloc: Global,
    name: &[u8],
    kind: Kind,
    atoms: &[Literal],
    env: &mut Env<V, Q>,
    h: &mut Holder<Q>,
    text: &mut Vec<u8>,
) -> Result<(), NoMemory>
    requires built { is_built_kind kind ≡ true }
    requires texts { All FitsText atoms.now }
    requires few { length atoms.now ≤ max_count }
    requires ready { CanAct env.old h.old }
    ensures least { OnOk result
        (RisesBy (if has_place name.now (env_of env.old).names then length atoms.now else 0) h.old h.new) }
    ensures step { Runs V.counted
        ((is_tree_kind kind ≡ false) × (count_by V.counted atoms.now ≡ 0)) (length atoms.now)
        (spec.let_in (env_of env.old) name.now (operation.made kind atoms.now))
        env.old env.new text.old.items text.new.items h.old h.new result }
{
    if !env.has_place(name) {
        return refuse(text, Refusal::Full);
    }
    let value = V::make(alloc, kind, atoms, h)?;
    env.give(alloc, name, value, true, h)
}

/// `let N = M`
pub fn assign<V: Values<Q>, Q: Stock>(
    alloc: Global,
    name: &[u8],
    other: &[u8],
    env: &mut Env<V, Q>,
    h: &mut Holder<Q>,
    text: &mut Vec<u8>,
) -> Result<(), NoMemory>
    requires ready { CanAct env.old h.old }
    ensures there { is_some (place_of name.now (env_of env.old).names) ≡ true →
        is_some (place_of other.now (env_of env.old).names) ≡ true → IsOk result }
    ensures step { Runs V.counted ⊤ 0 (spec.assign_in (env_of env.old) name.now other.now)
        env.old env.new text.old.items text.new.items h.old h.new result }
{
    let Some(from) = find(&env.names, other) else {
        return refuse(text, Refusal::NoName);
    };
    if !env.has_place(name) {
        return refuse(text, Refusal::Full);
    }
    let value = env.names[from].copy(h);
    env.give(alloc, name, value, false, h)
}

/// `let N = slice M I J`
pub fn slice<V: Values<Q>, Q: Stock>(
    alloc: Global,
    name: &[u8],
    other: &[u8],
    i: i64,
    j: i64,
    env: &mut Env<V, Q>,
    h: &mut Holder<Q>,
    text: &mut Vec<u8>,
) -> Result<(), NoMemory>
    requires ready { CanAct env.old h.old }
    ensures { Runs V.counted ⊤ 0 (spec.slice_in (env_of env.old) name.now other.now i j)
        env.old env.new text.old.items text.new.items h.old h.new result }
{
    let Some(from) = find(&env.names, other) else {
        return refuse(text, Refusal::NoName);
    };
    if !env.has_place(name) {
        let why = env.names[from].slice_refusal(i, j);
        return refuse(text, why.unwrap_or(Refusal::Full));
    }
    match env.names[from].slice(i, j, h) {
        Err(why) => refuse(text, why),
        Ok(value) => env.give(alloc, name, value, false, h),
    }
}

/// `drop N`
pub fn discard<V: Values<Q>, Q: Stock>(
    name: &[u8],
    env: &mut Env<V, Q>,
    h: &mut Holder<Q>,
    text: &mut Vec<u8>,
) -> Result<(), NoMemory>
    ensures ended { is_some (place_of name.now (env_of env.old).names) ≡ true →
        IsOk result × (h.old.spare + 1 ≤ h.new.spare) }
    ensures step { Runs V.counted ⊤ 0 (spec.discard_in (env_of env.old) name.now)
        env.old env.new text.old.items text.new.items h.old h.new result }
{
    let Some(at) = find(&env.names, name) else {
        return refuse(text, Refusal::NoName);
    };
    env.names.remove(at).end(h);
    Ok(())
}

// Appends the printed form and a newline, whole or not at all.
fn put_line<V: Values<Q>, Q: Stock>(entry: &Entry<V, Q>, text: &mut Vec<u8>) -> Result<(), NoMemory>
    ensures ok { OnOk result (text.new.items ≡ text.old.items ++ line (plain_text entry.now.seen.value)) }
    ensures err { OnErr result (text.new.items ≡ text.old.items) }
{
    let before = text.len();
    if entry.put(text).is_err() || text.push(b'\n').is_err() {
        text.truncate(before);
        return Err(NoMemory);
    }
    Ok(())
}

// The same where the line is no longer than `room`, of which it answers what is left.
fn put_within<V: Values<Q>, Q: Stock>(
    entry: &Entry<V, Q>,
    room: u64,
    text: &mut Vec<u8>,
) -> Result<Option<u64>, NoMemory>
    ensures fits { IfOk result (λ r. IfSome r (λ left. Fits (line (plain_text entry.now.seen.value)) room left
        text.old.items text.new.items)) }
    ensures longer { IfOk result (λ r. IfNone r ((text.new.items ≡ text.old.items)
        × (room < length (line (plain_text entry.now.seen.value))))) }
    ensures err { OnErr result (text.new.items ≡ text.old.items) }
{
    let before = text.len();
    put_line(entry, text)?;
    let length = (text.len() - before) as u64;
    if length > room {
        text.truncate(before);
        return Ok(None);
    }
    Ok(Some(room - length))
}

/// `show N`
pub fn show<V: Values<Q>, Q: Stock>(
    name: &[u8],
    env: &mut Env<V, Q>,
    text: &mut Vec<u8>,
) -> Result<(), NoMemory>
    ensures { Reads (spec.show_in (env_of env.old) name.now) env.old env.new text.old.items text.new.items result }
{
    let Some(at) = find(&env.names, name) else {
        return refuse(text, Refusal::NoName);
    };
    match put_within(&env.names[at], env.room, text)? {
        Some(left) => {
            env.room = left;
            Ok(())
        }
        None => refuse(text, Refusal::TextFull),
    }
}

/// A statement that reads one value.
pub fn ask<V: Values<Q>, Q: Stock>(
    statement: &Statement,
    name: &[u8],
    env: &Env<V, Q>,
    text: &mut Vec<u8>,
) -> Result<(), NoMemory>
    ensures { Reads (spec.ask (env_of env.now) name.now (query_of (out-Statement statement.now)))
        env.now env.now text.old.items text.new.items result }
{
    let Some(at) = find(&env.names, name) else {
        return refuse(text, Refusal::NoName);
    };
    match env.names[at].tell(statement, text)? {
        Ok(()) => Ok(()),
        Err(why) => refuse(text, why),
    }
}

/// A statement that reads two values. One name for both isn't alone afterwards.
pub fn ask_both<V: Values<Q>, Q: Stock>(
    statement: &Statement,
    name: &[u8],
    other: &[u8],
    env: &mut Env<V, Q>,
    text: &mut Vec<u8>,
) -> Result<(), NoMemory>
    ensures { Reads (spec.ask_both (env_of env.old) name.now other.now (query_both_of (out-Statement statement.now)))
        env.old env.new text.old.items text.new.items result }
{
    let Some(at) = find(&env.names, name) else {
        return refuse(text, Refusal::NoName);
    };
    let Some(by) = find(&env.names, other) else {
        return refuse(text, Refusal::NoName);
    };
    match env.names[at].tell_both(statement, &env.names[by], text)? {
        Ok(()) => {
            if name == other {
                env.names[at].settle();
            }
            Ok(())
        }
        Err(why) => refuse(text, why),
    }
}

/// A statement that changes one value: the row that the table gives it.
pub fn turn<V: Values<Q>, Q: Stock>(
    alloc: Global,
    statement: &Statement,
    name: &[u8],
    env: &mut Env<V, Q>,
    h: &mut Holder<Q>,
    text: &mut Vec<u8>,
) -> Result<(), NoMemory>
    requires texts { FitsTexts (out-Statement statement.now) }
    requires few { literals (out-Statement statement.now) ≤ max_count }
    requires ready { CanAct env.old h.old }
    ensures { Runs V.counted (counted_in V.counted (out-Statement statement.now) ≡ 0) (literals (out-Statement statement.now))
        (spec.turned (env_of env.old) name.now (turn_of (out-Statement statement.now)))
        env.old env.new text.old.items text.new.items h.old h.new result }
{
    let Some(at) = find(&env.names, name) else {
        return refuse(text, Refusal::NoName);
    };
    let entry = &mut env.names[at];
    let before = env.allowed;
    env.allowed = before + entry.cost(statement) as u64;
    match entry.change(alloc, statement, text, h)? {
        Ok(()) => Ok(()),
        Err(why) => {
            env.allowed = before;
            refuse(text, why)
        }
    }
}
