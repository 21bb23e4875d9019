// Where lines may stand, and what they add to what was read.
ghost use Rattle.std.specs.Prelude.{◌≡◌, ◌<◌, IfOk};
ghost use Rattle.cow_model.specs.Parse as spec;

use cow_model::{Capture, Flaw, Form, NoMemory, Reading, Standing, Statement, TaskBlock, Word};
use sqlite_items::Items;
use std::alloc::Global;

/// The most tasks of a fork.
const MAX_TASKS: u64 = 16;

/// The most statements `give` of a task.
const MAX_GIVES: u64 = 64;

fn is_outside(at: &Standing) -> bool
    ensures { result ≡ spec.is_outside at.now }
{
    matches!(at, Standing::Outside)
}

fn is_in_fork(at: &Standing) -> bool
    ensures { result ≡ spec.is_in_fork at.now }
{
    matches!(at, Standing::InFork { .. })
}

fn is_in_task(at: &Standing) -> bool
    ensures { result ≡ spec.is_in_task at.now }
{
    matches!(at, Standing::InTask { .. })
}

fn statement_may_stand(form: Form, at: &Standing) -> bool
    ensures { result ≡ spec.statement_may_stand form at.now }
{
    match form {
        Form::Lazy => is_outside(at),
        Form::Give => is_in_task(at),
        _ => !is_in_fork(at),
    }
}

fn may_stand(word: Word, at: &Standing) -> bool
    ensures { result ≡ spec.may_stand word at.now }
{
    match word {
        Word::Statement(form) => statement_may_stand(form, at),
        Word::Fork => is_outside(at),
        Word::Task => is_in_fork(at),
        Word::End => !is_outside(at),
    }
}

/// The line stands where it may.
#[tactic(auto, unfolding(cow_model::specs::Parse::stands))]
pub fn stands(word: Word, at: &Standing) -> Result<(), Flaw>
    ensures { result ≡ spec.stands word at.now }
{
    if !may_stand(word, at) {
        return Err(Flaw::ForkShape);
    }
    Ok(())
}

// One more than `n`. The first number over the bound is one more than that.
fn one_more(n: u64, bound: u64) -> Result<u64, Flaw>
    requires { bound < 100 }
    ensures { result ≡ spec.one_more n bound }
{
    if n < bound {
        Ok(n + 1)
    } else {
        Err(Flaw::Limit {
            quantity: bound + 1,
            bound,
        })
    }
}

/// How many tasks of the fork, or statements `give` of the task, there are with this line.
#[tactic(auto, unfolding(cow_model::specs::Parse::counted))]
pub fn counted(word: Word, at: &Standing) -> Result<u64, Flaw>
    ensures { result ≡ spec.counted word at.now }
{
    match (word, at) {
        (Word::Task, Standing::InFork { tasks, .. }) => one_more(tasks.len() as u64, MAX_TASKS),
        (Word::Statement(Form::Give), Standing::InTask { gives, .. }) => {
            one_more(*gives, MAX_GIVES)
        }
        (_, Standing::InTask { gives, .. }) => Ok(*gives),
        _ => Ok(0),
    }
}

fn with_statement(task: TaskBlock, statement: Statement) -> Result<TaskBlock, NoMemory>
    ensures { IfOk result (λ t. t ≡ spec.with_statement task statement) }
{
    let TaskBlock {
        line,
        captures,
        mut statements,
    } = task;
    statements.push(statement)?;
    Ok(TaskBlock {
        line,
        captures,
        statements,
    })
}

/// A line that is a statement, with which the open task has `count` statements `give`.
#[tactic(auto, unfolding(cow_model::specs::Parse::stated))]
pub fn stated(count: u64, statement: Statement, reading: Reading) -> Result<Reading, NoMemory>
    ensures { IfOk result (λ r. r ≡ spec.stated count statement reading) }
{
    let Reading {
        mut statements,
        standing,
    } = reading;
    match standing {
        Standing::InTask {
            fork,
            tasks,
            task,
            ..
        } => {
            let task = with_statement(task, statement)?;
            let standing = Standing::InTask {
                fork,
                tasks,
                task,
                gives: count,
            };
            Ok(Reading {
                statements,
                standing,
            })
        }
        standing => {
            statements.push(statement)?;
            Ok(Reading {
                statements,
                standing,
            })
        }
    }
}

/// A line `fork`.
#[tactic(auto, unfolding(cow_model::specs::Parse::forked))]
pub fn forked(alloc: Global, line: u64, reading: Reading) -> Reading
    ensures { result ≡ spec.forked line reading }
{
    let standing = Standing::InFork {
        fork: line,
        tasks: Items::new(alloc),
    };
    Reading {
        statements: reading.statements,
        standing,
    }
}

fn tasked_at(alloc: Global, line: u64, captures: Items<Capture>, at: Standing) -> Standing
    ensures { result ≡ spec.tasked_at line captures at }
{
    match at {
        Standing::InFork { fork, tasks } => {
            let task = TaskBlock {
                line,
                captures,
                statements: Items::new(alloc),
            };
            Standing::InTask {
                fork,
                tasks,
                task,
                gives: 0,
            }
        }
        at => at,
    }
}

/// A line `task`.
#[tactic(auto, unfolding(cow_model::specs::Parse::tasked))]
pub fn tasked(alloc: Global, line: u64, captures: Items<Capture>, reading: Reading) -> Reading
    ensures { result ≡ spec.tasked line captures reading }
{
    let Reading {
        statements,
        standing,
    } = reading;
    let standing = tasked_at(alloc, line, captures, standing);
    Reading {
        statements,
        standing,
    }
}

/// A line `end`.
#[tactic(auto, unfolding(cow_model::specs::Parse::ended))]
pub fn ended(reading: Reading) -> Result<Reading, NoMemory>
    ensures { IfOk result (λ r. r ≡ spec.ended reading) }
{
    let Reading {
        mut statements,
        standing,
    } = reading;
    let standing = match standing {
        Standing::InTask {
            fork,
            mut tasks,
            task,
            ..
        } => {
            tasks.push(task)?;
            Standing::InFork { fork, tasks }
        }
        Standing::InFork { fork, tasks } => {
            statements.push(Statement::Fork { line: fork, tasks })?;
            Standing::Outside
        }
        Standing::Outside => Standing::Outside,
    };
    Ok(Reading {
        statements,
        standing,
    })
}
