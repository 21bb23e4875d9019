// The join of a fork: what the parent takes of its tasks.
ghost use Rattle.std.specs.Prelude.{◌≡◌, ◌++◌, ◌+◌, ◌<◌, ◌^◌, ◌∷◌, [], map, sum_by, IsOk, IfOk, OnOk, OnErr};
ghost use Rattle.cow_model.specs.Fork.{assigned, assigned_all};
ghost use Rattle.cow_model.specs.Fronts.{GrowsWithin};
ghost use Rattle.cow_eval.specs.Entries.{entry_of};
ghost use Rattle.cow_tasks.specs.Joins.{Assigns, Joins, StopsIn, TakesIn, outcome_at};

use crate::task::TaskOut;
use cow_cell::{Holder, Stock};
use cow_eval::{Entry, Env, refuse};
use cow_model::{NoMemory, Refusal};
use cow_value::Values;
use std::alloc::Global;

// Takes the text of a task, and what it gives, where none before it ran out of memory. Where this one did, its text
// alone.
fn take_in<V: Values<Q>, Q: Stock>(
    joined: Result<(), NoMemory>,
    said: &[u8],
    given: Vec<Entry<V, Q>>,
    outcome: Result<(), NoMemory>,
    gives: &mut Vec<Entry<V, Q>>,
    text: &mut Vec<u8>,
) -> Result<(), NoMemory>
    ensures before { OnOk result (IsOk joined) }
    ensures told { OnOk result (IsOk outcome) }
    ensures text { OnOk result (text.new.items ≡ text.old.items ++ said.now) }
    ensures gives { OnOk result (gives.new.items ≡ gives.old.items ++ given.items) }
    ensures stopped { OnErr joined (text.new.items ≡ text.old.items) }
    ensures err { OnErr result (GrowsWithin text.old.items text.new.items said.now) }
{
    joined?;
    text.extend_from_slice(said)?;
    outcome?;
    for entry in given {
        gives.push(entry)?;
    }
    Ok(())
}

/// Joins tasks in their order: their units and copies, what they were allowed, their texts up to the first that ran
/// out of memory, and what they give, which it answers.
pub fn join_all<V: Values<Q>, Q: Stock>(
    alloc: Global,
    outs: Vec<TaskOut<V, Q>>,
    env: &mut Env<V, Q>,
    h: &mut Holder<Q>,
    text: &mut Vec<u8>,
) -> Result<Vec<Entry<V, Q>>, NoMemory>
    requires few { env.old.allowed + sum_by (λ o. o.allowed) outs.items < 2 ^ 64 }
    ensures joins { Joins outs.items env.old env.new h.old h.new }
    ensures ok { IfOk result (λ gives. TakesIn outs.items text.old.items text.new.items gives.items) }
    ensures err { OnErr result (StopsIn outs.items text.old.items text.new.items) }
{
    let mut gives = Vec::new(alloc);
    let mut joined = Ok(());
    for out in outs {
        let TaskOut {
            text: said,
            gives: given,
            h: part,
            allowed,
            outcome,
        } = out;
        h.join(part);
        env.allow(allowed);
        joined = take_in(joined, &said, given, outcome, &mut gives, text);
    }
    joined?;
    Ok(gives)
}

// Assigns what a task gave, where there is a place for its name.
fn assign<V: Values<Q>, Q: Stock>(
    entry: Entry<V, Q>,
    env: &mut Env<V, Q>,
    h: &mut Holder<Q>,
    text: &mut Vec<u8>,
) -> Result<(), NoMemory>
    ensures { Assigns V.counted (entry ∷ []) (assigned (outcome_at env.old text.old.items) (entry_of entry))
        env.old env.new text.old.items text.new.items h.old h.new result }
{
    if env.has_place(entry.name()) {
        return env.accept(entry, h);
    }
    entry.end(h);
    refuse(text, Refusal::Full)
}

/// Assigns in turn what the tasks gave. One for which there is no place is told, and ends.
pub fn assign_all<V: Values<Q>, Q: Stock>(
    gives: Vec<Entry<V, Q>>,
    env: &mut Env<V, Q>,
    h: &mut Holder<Q>,
    text: &mut Vec<u8>,
) -> Result<(), NoMemory>
    ensures { Assigns V.counted gives.items
        (assigned_all (outcome_at env.old text.old.items) (map entry_of gives.items))
        env.old env.new text.old.items text.new.items h.old h.new result }
{
    for entry in gives {
        assign(entry, env, h, text)?;
    }
    Ok(())
}
