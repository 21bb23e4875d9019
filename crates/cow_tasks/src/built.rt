// The first statement that can't be run yet.
ghost use Rattle.std.specs.Prelude.{◌≡◌, None, All};
ghost use Rattle.cow_model.specs.declared.statement.Statement.{out-Statement};
ghost use Rattle.cow_tasks.specs.Blocks as spec;

use cow_model::{Script, Statement, TaskBlock};
use cow_value::unbuilt_line;

// The line of the first statement of a task that isn't built.
fn first_in_task(statements: &[Statement]) -> Option<u64>
    ensures { result ≡ spec.unbuilt_in_task statements.now }
{
    for statement in statements {
        let line = unbuilt_line(statement);
        if line.is_some() {
            return line;
        }
    }
    None
}

// The same of tasks in turn.
fn first_in_tasks(tasks: &[TaskBlock]) -> Option<u64>
    ensures { result ≡ spec.unbuilt_in_tasks tasks.now }
{
    for task in tasks {
        let line = first_in_task(task.statements.as_slice());
        if line.is_some() {
            return line;
        }
    }
    None
}

// The line of a statement that isn't built, or of the first one in its tasks. Lazy statements, which stand outside of
// forks, are built there.
fn first_in(statement: &Statement) -> Option<u64>
    ensures { result ≡ spec.unbuilt_in (out-Statement statement.now) }
{
    match statement {
        Statement::Fork { tasks, .. } => first_in_tasks(tasks.as_slice()),
        Statement::Lazy { .. } => None,
        _ => unbuilt_line(statement),
    }
}

// The same of statements in turn.
fn first_line(statements: &[Statement]) -> Option<u64>
    ensures { result ≡ spec.unbuilt_line statements.now }
{
    for statement in statements {
        let line = first_in(statement);
        if line.is_some() {
            return line;
        }
    }
    None
}

/// The line of the first statement that isn't built, those of tasks among them; `None` exactly where all are built.
/// Takes no memory, and looks at each once.
pub fn first_unbuilt(script: &Script) -> Option<u64>
    ensures line { result ≡ spec.unbuilt_line script.now.statements }
    ensures none { result ≡ None → All spec.IsBuilt script.now.statements }
{
    first_line(script.statements.as_slice())
}
