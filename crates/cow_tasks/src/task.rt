// A task: its statements on an environment and with a holder of its own.
ghost use Rattle.std.specs.Prelude.{◌≡◌, ◌++◌, ◌+◌, ◌≤◌, [], length, All, ⊤, IfOk, OnOk};
ghost use Rattle.cow_model.specs.Atoms.{IsBareStep};
ghost use Rattle.cow_model.specs.Fork.{give_in, task_step, task_run};
ghost use Rattle.cow_model.specs.declared.statement.Statement.{out-Statement};
ghost use Rattle.cow_eval.specs.Envs.{CanRun, entry_in};
ghost use Rattle.cow_eval.specs.Statements.{IsRunnable};
ghost use Rattle.cow_tasks.specs.Tasks.{Ends, Works, task_at};

use cow_cell::{Holder, Stock};
use cow_crew::Job;
use cow_eval::{Entry, Env, refuse, run_step};
use cow_model::{Name, NoMemory, Refusal, Statement};
use cow_value::Values;
use std::alloc::Global;
use std::marker::Model;

/// A task of a fork, before it runs.
#[derive(Drop)]
pub struct Task<'s, V: Values<Q>, Q: Stock> {
    pub(crate) statements: &'s [Statement],
    pub(crate) env: Env<V, Q>,
    pub(crate) h: Holder<Q>,
    pub(crate) alloc: Global,
}

impl<'s, V: Values<Q>, Q: Stock> Model for Task<'s, V, Q> {
    ghost use Rattle.std.specs.Coded.{codes};
    ghost use Rattle.cow_model.specs.contracts.statement.Statement as statement;
    ghost use Rattle.cow_tasks.specs.Tasks.{SeenTask, IsReady};

    ghost Value = { SeenTask };

    ghost coded = { Prim.hlevel (codes, statement.the_row.coded) };

    ghost view = { λ t. record { statements = t.statements.now; env = t.env; h = t.h } };

    ghost invariant = { λ t. IsReady (record { statements = t.statements.now; env = t.env; h = t.h }) };
}

/// What a task hands over at its end: what it printed, what it gives in the order in which it gave it, its holder,
/// and how many copies the sharing rule allowed it. After want of memory the text is a front of the whole.
#[derive(Drop)]
pub struct TaskOut<V: Values<Q>, Q: Stock> {
    pub(crate) text: Vec<u8>,
    pub(crate) gives: Vec<Entry<V, Q>>,
    pub(crate) h: Holder<Q>,
    pub(crate) allowed: u64,
    pub(crate) outcome: Result<(), NoMemory>,
}

impl<V: Values<Q>, Q: Stock> Model for TaskOut<V, Q> {
    ghost use Rattle.cow_tasks.specs.Tasks.{SeenOut};

    ghost Value = { SeenOut };

    ghost view = { λ o. record {
      text = o.text.items;
      gives = o.gives.items;
      h = o.h;
      allowed = o.allowed;
      outcome = o.outcome;
    } };
}

// An entry under another name. Want of memory gives its handle back.
fn rename<V: Values<Q>, Q: Stock>(
    alloc: Global,
    entry: Entry<V, Q>,
    to: &[u8],
    h: &mut Holder<Q>,
) -> Result<Entry<V, Q>, NoMemory>
    ensures ok { IfOk result (λ e. e ≡ record entry { name = to.now }) }
    ensures spent { OnOk result (h.new ≡ h.old) }
    ensures copied { h.new.copied ≡ h.old.copied }
    ensures falls { h.old.spare ≤ h.new.spare }
{
    match Vec::from_slice(alloc, to) {
        Ok(name) => Ok(entry.renamed(Name::from_vec(name))),
        Err(_) => {
            entry.end(h);
            Err(NoMemory)
        }
    }
}

// `give NAME as TO`: the value leaves the task at once.
fn give<V: Values<Q>, Q: Stock>(
    alloc: Global,
    name: &[u8],
    to: &[u8],
    env: &mut Env<V, Q>,
    gives: &mut Vec<Entry<V, Q>>,
    h: &mut Holder<Q>,
    text: &mut Vec<u8>,
) -> Result<(), NoMemory>
    requires ready { CanRun 1 env.old h.old }
    ensures { Works V.counted ⊤ 1
        (give_in (task_at env.old text.old.items gives.old.items) to.now (entry_in name.now env.old))
        env.old env.new gives.old.items gives.new.items text.old.items text.new.items h.old h.new result }
{
    let Some(entry) = env.take(name) else {
        return refuse(text, Refusal::NoName);
    };
    let entry = rename(alloc, entry, to, h)?;
    match gives.push(entry) {
        Ok(()) => Ok(()),
        Err(failed) => {
            failed.value.end(h);
            Err(NoMemory)
        }
    }
}

// A statement of a task.
fn step<V: Values<Q>, Q: Stock>(
    alloc: Global,
    statement: &Statement,
    env: &mut Env<V, Q>,
    gives: &mut Vec<Entry<V, Q>>,
    h: &mut Holder<Q>,
    text: &mut Vec<u8>,
) -> Result<(), NoMemory>
    requires statement { IsRunnable (out-Statement statement.now) }
    requires ready { CanRun 1 env.old h.old }
    ensures { Works V.counted (IsBareStep V.counted (out-Statement statement.now)) 1
        (task_step [] (task_at env.old text.old.items gives.old.items) (out-Statement statement.now))
        env.old env.new gives.old.items gives.new.items text.old.items text.new.items h.old h.new result }
{
    match statement {
        Statement::Give { name, to, .. } => {
            give(alloc, name.as_slice(), to.as_slice(), env, gives, h, text)
        }
        _ => run_step(alloc, statement, env, h, text),
    }
}

// The statements of a task in turn.
fn steps<V: Values<Q>, Q: Stock>(
    alloc: Global,
    statements: &[Statement],
    env: &mut Env<V, Q>,
    gives: &mut Vec<Entry<V, Q>>,
    h: &mut Holder<Q>,
    text: &mut Vec<u8>,
) -> Result<(), NoMemory>
    requires statements { All (λ s. IsRunnable (out-Statement s)) statements.now }
    requires ready { CanRun (length statements.now) env.old h.old }
    ensures { Works V.counted (All (λ s. IsBareStep V.counted (out-Statement s)) statements.now)
        (length statements.now)
        (task_run [] (task_at env.old text.old.items gives.old.items) statements.now)
        env.old env.new gives.old.items gives.new.items text.old.items text.new.items h.old h.new result }
{
    for statement in statements {
        step(alloc, statement, env, gives, h, text)?;
    }
    Ok(())
}

impl<'s, V: Values<Q> + Send, Q: Stock + Send + Sync> Job for Task<'s, V, Q> {
    type Out = TaskOut<V, Q>;

    ghost gives = { Ends V.counted };

    fn run(self) -> TaskOut<V, Q> {
        let Task {
            statements,
            mut env,
            mut h,
            alloc,
        } = self;
        let mut text = Vec::new(alloc);
        let mut gives = Vec::new(alloc);
        let outcome = steps(alloc, statements, &mut env, &mut gives, &mut h, &mut text);
        let allowed = env.allowed();
        env.end(&mut h);
        TaskOut {
            text,
            gives,
            h,
            allowed,
            outcome,
        }
    }
}
