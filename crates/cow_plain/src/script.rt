// What a script prints, and how many copies the sharing rule allows it.
ghost use Rattle.std.specs.Prelude.{◌≡◌, ◌++◌, IfOk};
ghost use Rattle.cow_model.specs.Run as spec;
ghost use Rattle.cow_model.specs.Parse.{script_of};
ghost use Rattle.cow_plain.specs.Scripts.{Tells, Says};
ghost use Rattle.cow_model.specs.declared.statement.Statement.{out-Statement};

use crate::environment::{has_place, start_with};
use crate::fork::fork_in;
use crate::step::{step, sum};
use cow_model::{Bytes, Environment, NoMemory, Outcome, ParseFault, Shape, Statement};
use cow_script::{ParseStop, parse};
use sqlite_items::Items;
use std::alloc::Global;

/// What a script prints, and how many copies it makes, at least and at most.
#[derive(Debug, Drop)]
pub struct Told {
    pub text: Bytes,
    pub least: u64,
    pub bound: u64,
}

// A statement of the main block.
fn run_one(
    alloc: Global,
    env: Environment,
    shapes: &[Shape],
    statement: &Statement,
) -> Result<Outcome, NoMemory>
    ensures { IfOk result (λ out. out ≡ spec.run_one env shapes.now statement.now) }
{
    match statement {
        Statement::Fork { tasks, .. } => fork_in(alloc, env, shapes, tasks.as_slice()),
        _ => step(alloc, env, shapes, statement),
    }
}

// The atoms that a statement makes, at least.
fn least_of(env: &Environment, statement: &Statement) -> usize
    ensures { result ≡ spec.least_layer env.now (out-Statement statement.now) }
{
    match statement {
        Statement::Let { name, atoms, .. } if has_place(name.as_slice(), env.names.as_slice()) => {
            atoms.len()
        }
        _ => 0,
    }
}

/// Runs statements in turn, from an empty environment, with these rules for lazy views.
pub fn run(alloc: Global, statements: &[Statement], shapes: &[Shape]) -> Result<Told, NoMemory>
    ensures { IfOk result (λ told. Tells statements.now shapes.now told) }
{
    let mut env = start_with(Items::new(alloc));
    let mut text = Vec::new(alloc);
    let mut least = 0u64;
    for statement in statements {
        least = sum(least, least_of(&env, statement) as u64)?;
        let out = run_one(alloc, env, shapes, statement)?;
        text.extend_from_slice(out.text.as_slice())?;
        env = out.env;
    }
    Ok(Told {
        text: Bytes::from_vec(text),
        least,
        bound: env.allowed,
    })
}

/// What the definitions say of these bytes, with these rules for lazy views: what the script prints, or
/// its fault.
pub fn run_script(
    alloc: Global,
    bytes: &[u8],
    shapes: &[Shape],
) -> Result<Result<Told, ParseFault>, NoMemory>
    ensures { IfOk result (λ said. Says (script_of bytes.now) shapes.now said) }
{
    match parse(alloc, bytes) {
        Ok(script) => Ok(Ok(run(alloc, script.statements.as_slice(), shapes)?)),
        Err(ParseStop::Fault(fault)) => Ok(Err(fault)),
        Err(ParseStop::NoMemory) => Err(NoMemory),
    }
}
