// Forks: the captures are made, the tasks run one after another, and what they give is assigned.
ghost use Rattle.std.specs.Prelude.{◌≡◌, ◌++◌, ◌∷◌, [], List, IfOk};
ghost use Rattle.cow_model.specs.Env as environment;
ghost use Rattle.cow_model.specs.Fork as spec;
ghost use Rattle.cow_model.specs.declared.outcome.Entry.{Entry};
ghost use Rattle.cow_model.specs.declared.statement.Statement.{out-Statement};

use crate::copies::Whole;
use crate::environment::{allow, entry_of, given, has_place, named, settled, start_with, without};
use crate::lists::{copied as copied_list, extend};
use crate::step::step;
use cow_model::{
    Bytes, Capture, Captured, Entry, Environment, Forked, NoMemory, Outcome, Refusal, Shape,
    Statement, Task, TaskBlock,
};
use sqlite_items::Items;
use std::alloc::Global;

// A text and then another.
fn added(alloc: Global, text: &Bytes, more: &[u8]) -> Result<Bytes, NoMemory>
    ensures { IfOk result (λ made. made ≡ text.now ++ more.now) }
{
    let mut made = Vec::from_slice(alloc, text.as_slice())?;
    made.extend_from_slice(more)?;
    Ok(Bytes::from_vec(made))
}

// A capture of an entry that is moved.
fn moved(alloc: Global, c: Captured, e: Entry) -> Result<Captured, NoMemory>
    ensures { IfOk result (λ made. made ≡ record c { parent = environment.without e.name c.parent; names = environment.given e c.names }) }
{
    let parent = without(e.name.as_slice(), c.parent);
    let names = given(e, c.names)?;
    Ok(Captured {
        parent,
        names,
        text: c.text,
    })
}

// A capture of an entry that is copied, which leaves neither alone.
fn copied(alloc: Global, c: Captured, e: Entry) -> Result<Captured, NoMemory>
    ensures { IfOk result (λ made. made ≡ record c { parent = environment.settled e.name c.parent; names = environment.given (environment.shared e) c.names }) }
{
    let parent = settled(alloc, e.name.as_slice(), c.parent)?;
    let e = Entry {
        name: e.name,
        value: e.value,
        alone: false,
    };
    let names = given(e, c.names)?;
    Ok(Captured {
        parent,
        names,
        text: c.text,
    })
}

// A capture, where its name is there.
fn captured(alloc: Global, c: Captured, capture: &Capture) -> Result<Captured, NoMemory>
    ensures { IfOk result (λ made. made ≡ spec.captured c capture.now (environment.entry_of capture.now.name c.parent)) }
{
    let Some(e) = entry_of(capture.name.as_slice(), c.parent.as_slice()) else {
        let text = added(alloc, &c.text, Refusal::NoName.line())?;
        return Ok(Captured {
            parent: c.parent,
            names: c.names,
            text,
        });
    };
    let e = e.whole(alloc)?;
    if capture.moves {
        moved(alloc, c, e)
    } else {
        copied(alloc, c, e)
    }
}

// Captures in turn.
fn captured_all(alloc: Global, c: Captured, captures: &[Capture]) -> Result<Captured, NoMemory>
    ensures { IfOk result (λ made. made ≡ spec.captured_all c captures.now) }
{
    let mut made = c;
    for capture in captures {
        made = captured(alloc, made, capture)?;
    }
    Ok(made)
}

// The captures of a task, from the names that its parent has left.
fn captured_by(alloc: Global, parent: Items<Entry>, task: &TaskBlock) -> Result<Captured, NoMemory>
    ensures { IfOk result (λ made. made ≡ spec.captured_by parent task.now) }
{
    let start = Captured {
        parent,
        names: Items::new(alloc),
        text: Bytes::from_vec(Vec::new(alloc)),
    };
    captured_all(alloc, start, task.captures.as_slice())
}

// A fork once a further task has its captures.
fn forked_on(alloc: Global, f: Forked, c: Captured) -> Result<Forked, NoMemory>
    ensures { IfOk result (λ made. made ≡ spec.forked_on f c) }
{
    let text = added(alloc, &f.text, c.text.as_slice())?;
    let mut tasks = f.tasks;
    tasks.push(c.names)?;
    Ok(Forked {
        parent: c.parent,
        text,
        tasks,
    })
}

// The captures of the tasks in written order.
fn forked(alloc: Global, f: Forked, tasks: &[TaskBlock]) -> Result<Forked, NoMemory>
    ensures { IfOk result (λ made. made ≡ spec.forked f tasks.now) }
{
    let mut made = f;
    for task in tasks {
        let parent = copied_list(alloc, made.parent.as_slice())?;
        let c = captured_by(alloc, parent, task)?;
        made = forked_on(alloc, made, c)?;
    }
    Ok(made)
}

// An entry leaves a task under another name.
fn given_out(alloc: Global, task: Task, e: Entry, to: &[u8]) -> Result<Task, NoMemory>
    ensures { IfOk result (λ made. made ≡ record task {
      env = environment.renamed (environment.without e.name task.env.names) task.env;
      gives = task.gives ++ record e { name = to.now } ∷ [];
    }) }
{
    let to = named(alloc, to)?;
    let Entry { name, value, alone } = e;
    let Task {
        env,
        text,
        mut gives,
    } = task;
    let env = Environment {
        names: without(name.as_slice(), env.names),
        room: env.room,
        allowed: env.allowed,
    };
    gives.push(Entry {
        name: to,
        value,
        alone,
    })?;
    Ok(Task { env, text, gives })
}

// `give Y as Z`: Y's entry leaves the task under the name Z.
fn give_in(alloc: Global, task: Task, name: &[u8], to: &[u8]) -> Result<Task, NoMemory>
    ensures { IfOk result (λ made. made ≡ spec.give_in task to.now (environment.entry_of name.now task.env.names)) }
{
    let Some(e) = entry_of(name, task.env.names.as_slice()) else {
        let text = added(alloc, &task.text, Refusal::NoName.line())?;
        return Ok(Task {
            env: task.env,
            text,
            gives: task.gives,
        });
    };
    let e = e.whole(alloc)?;
    given_out(alloc, task, e, to)
}

// A statement of a task.
fn task_step(
    alloc: Global,
    shapes: &[Shape],
    task: Task,
    statement: &Statement,
) -> Result<Task, NoMemory>
    ensures { IfOk result (λ made. made ≡ spec.task_step shapes.now task (out-Statement statement.now)) }
{
    if let Statement::Give { name, to, .. } = statement {
        return give_in(alloc, task, name.as_slice(), to.as_slice());
    }
    let out = step(alloc, task.env, shapes, statement)?;
    let text = added(alloc, &task.text, out.text.as_slice())?;
    Ok(Task {
        env: out.env,
        text,
        gives: task.gives,
    })
}

// The statements of a task in turn.
fn task_run(
    alloc: Global,
    shapes: &[Shape],
    task: Task,
    statements: &[Statement],
) -> Result<Task, NoMemory>
    ensures { IfOk result (λ made. made ≡ spec.task_run shapes.now task statements.now) }
{
    let mut made = task;
    for statement in statements {
        made = task_step(alloc, shapes, made, statement)?;
    }
    Ok(made)
}

// A task at its end, from the names that it was given.
fn task_end(
    alloc: Global,
    shapes: &[Shape],
    names: &[Entry],
    task: &TaskBlock,
) -> Result<Task, NoMemory>
    ensures { IfOk result (λ made. made ≡ spec.task_end shapes.now names.now task.now) }
{
    let start = Task {
        env: start_with(copied_list(alloc, names)?),
        text: Bytes::from_vec(Vec::new(alloc)),
        gives: Items::new(alloc),
    };
    task_run(alloc, shapes, start, task.statements.as_slice())
}

// The tasks at their ends, from the names that each was given.
fn tasks_run(
    alloc: Global,
    shapes: &[Shape],
    names: &[Items<Entry>],
    tasks: &[TaskBlock],
) -> Result<Vec<Task>, NoMemory>
    ensures { IfOk result (λ made. made.items ≡ spec.tasks_run shapes.now names.now tasks.now) }
{
    let mut made = Vec::new(alloc);
    let mut names = names;
    let mut tasks = tasks;
    while let [task, behind @ ..] = tasks {
        let [first, more @ ..] = names else {
            return Ok(made);
        };
        made.push(task_end(alloc, shapes, first.as_slice(), task)?)?;
        names = more;
        tasks = behind;
    }
    Ok(made)
}

// The parent takes a task's text, and what it allowed.
fn joined(alloc: Global, out: Outcome, task: &Task) -> Result<Outcome, NoMemory>
    ensures { IfOk result (λ made. made ≡ spec.joined out task.now) }
{
    let text = added(alloc, &out.text, task.text.as_slice())?;
    let env = allow(task.env.allowed, out.env)?;
    Ok(Outcome { env, text })
}

// Tasks in order.
fn joined_all(alloc: Global, out: Outcome, tasks: &[Task]) -> Result<Outcome, NoMemory>
    ensures { IfOk result (λ made. made ≡ spec.joined_all out tasks.now) }
{
    let mut made = out;
    for task in tasks {
        made = joined(alloc, made, task)?;
    }
    Ok(made)
}

// An entry that a task gave is assigned, where the parent has place for its name.
fn assigned(alloc: Global, out: Outcome, e: &Entry) -> Result<Outcome, NoMemory>
    ensures { IfOk result (λ made. made ≡ spec.assigned out e.now) }
{
    if !has_place(e.name.as_slice(), out.env.names.as_slice()) {
        let text = added(alloc, &out.text, Refusal::Full.line())?;
        return Ok(Outcome { env: out.env, text });
    }
    let Outcome { env, text } = out;
    let env = Environment {
        names: given(e.whole(alloc)?, env.names)?,
        room: env.room,
        allowed: env.allowed,
    };
    Ok(Outcome { env, text })
}

// Entries in turn.
fn assigned_all(alloc: Global, out: Outcome, entries: &[Entry]) -> Result<Outcome, NoMemory>
    ensures { IfOk result (λ made. made ≡ spec.assigned_all out entries.now) }
{
    let mut made = out;
    for e in entries {
        made = assigned(alloc, made, e)?;
    }
    Ok(made)
}

// What the tasks give, in task order.
fn given_by(alloc: Global, tasks: &[Task]) -> Result<Items<Entry>, NoMemory>
    ensures { IfOk result (λ made. made ≡ spec.given_by tasks.now) }
{
    let mut made = Vec::new(alloc);
    for task in tasks {
        extend(alloc, &mut made, task.gives.as_slice())?;
    }
    Ok(Items::from_vec(made))
}

// A fork whose tasks have run: first their texts, then what they give.
fn ended(alloc: Global, out: Outcome, tasks: &[Task]) -> Result<Outcome, NoMemory>
    ensures { IfOk result (λ made. made ≡ spec.ended out tasks.now) }
{
    let gives = given_by(alloc, tasks)?;
    let out = joined_all(alloc, out, tasks)?;
    assigned_all(alloc, out, gives.as_slice())
}

/// `fork`, its tasks and its `end`.
pub fn fork_in(
    alloc: Global,
    env: Environment,
    shapes: &[Shape],
    tasks: &[TaskBlock],
) -> Result<Outcome, NoMemory>
    ensures { IfOk result (λ out. out ≡ spec.fork_in env shapes.now tasks.now) }
{
    let start = Forked {
        parent: env.names,
        text: Bytes::from_vec(Vec::new(alloc)),
        tasks: Items::new(alloc),
    };
    let f = forked(alloc, start, tasks)?;
    let ends = tasks_run(alloc, shapes, f.tasks.as_slice(), tasks)?;
    let env = Environment {
        names: f.parent,
        room: env.room,
        allowed: env.allowed,
    };
    ended(alloc, Outcome { env, text: f.text }, &ends)
}
