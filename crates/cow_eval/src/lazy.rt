// Lazy statements: what an array shows through a rule.
ghost use Rattle.std.specs.Prelude.{◌≡◌, ℕ, ◌+◌, ◌<◌, map, ⊤, OnOk, IfSome};
ghost use Rattle.cow_model.specs.Operation.{index};
ghost use Rattle.cow_model.specs.Step as spec;
ghost use Rattle.cow_views.specs.Asks.{asks_entry, raised_by};
ghost use Rattle.cow_eval.specs.Envs.{CanRun, Runs, entry_in, env_of};

use crate::env::Env;
use crate::names::find;
use crate::statement::refuse;
use cow_cell::{Holder, Stock};
use cow_model::{NoMemory, Refusal, Verb};
use cow_rule::Rule;
use cow_views::Views;
use std::alloc::Global;

// The place of the rule that a number names among n.
fn rule_at(n: usize, i: i64) -> Option<usize>
    ensures place { result ≡ index 0 n i }
    ensures within { IfSome result (λ k. k < n) }
{
    let place = u64::try_from(i).ok()?;
    if place < n as u64 {
        Some(place as usize)
    } else {
        None
    }
}

/// Runs `lazy N I VERB`: looks at an array through the rule that I names, of those that are lent. Appends what it
/// prints to `text`, and leaves the environment after it.
///
/// The rule is asked as often as the definitions say, and no other rule is; no rule's shape changes. Linear in the
/// elements at most; `first` goes no further than its answer.
///
/// Errors: `NoMemory` alone. The text is then as it was. Of the environment nothing is said but that it can be
/// ended, and that what it allows covers the copies and is no more than `Ok` would have left.
pub fn look<V: Views<Q>, Q: Stock>(
    alloc: Global,
    name: &[u8],
    i: i64,
    verb: Verb,
    env: &mut Env<V, Q>,
    rules: &mut [Box<dyn Rule>],
    h: &mut Holder<Q>,
    text: &mut Vec<u8>,
) -> Result<(), NoMemory>
    requires ready { CanRun 1 env.old h.old }
    ensures next { (n : ℕ) → CanRun (n + 1) env.old h.old → OnOk result (CanRun n env.new h.new) }
    ensures shapes { map shape_of rules.new ≡ map shape_of rules.old }
    ensures asked { OnOk result (map asked_of rules.new ≡ raised_by
        (λ k. asks_entry (map shape_of rules.old) i verb k (entry_in name.now env.old))
        (map asked_of rules.old)) }
    ensures step { Runs V.counted ⊤ 0
        (spec.lazy_in (env_of env.old) (map shape_of rules.old) name.now i verb)
        env.old env.new text.old.items text.new.items h.old h.new result }
{
    let Some(at) = find(&env.names, name) else {
        return refuse(text, Refusal::NoName);
    };
    if !env.names[at].has_views() {
        return refuse(text, Refusal::WrongKind);
    }
    let Some(place) = rule_at(rules.len(), i) else {
        return refuse(text, Refusal::NoRule);
    };
    let entry = &mut env.names[at];
    env.allowed += entry.view_cost(verb) as u64;
    match entry.look(alloc, &mut rules[place], verb, env.room, text, h)? {
        Some(left) => {
            env.room = left;
            Ok(())
        }
        None => refuse(text, Refusal::TextFull),
    }
}
