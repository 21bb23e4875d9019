// What a statement does that is no fork and no give.
ghost use Rattle.std.specs.Prelude.{◌≡◌, ◌+◌, IfOk, List, length, slice_get, if◌then◌else◌};
ghost use Rattle.std.specs.Fmt as fmt;
ghost use Rattle.cow_model.specs.Env as environment;
ghost use Rattle.cow_model.specs.Operation as operation;
ghost use Rattle.cow_model.specs.Printed as printed;
ghost use Rattle.cow_model.specs.Sharing as sharing;
ghost use Rattle.cow_model.specs.Step as spec;
ghost use Rattle.cow_model.specs.Changes.{query_of, query_both_of};
ghost use Rattle.cow_model.specs.Turns.{turn_of, added_of};
ghost use Rattle.cow_model.specs.declared.statement.Statement.{out-Statement};

use crate::copies::Whole;
use crate::environment::{allow, entry_of, without};
use crate::lazy::view;
use crate::operation::{index, made, slice};
use crate::outcomes::{
    becomes, flag_after, let_in, print_in, quiet, refused, second_in, settles, told, told_both,
};
use crate::printed::{decimal, line, list_text, nil_or, plain_text};
use crate::sharing::{both_cost, literals};
use crate::statements::{told_of, told_of_both};
use crate::turns::{added, answer, answer_by, cost, parts};
use cow_model::{
    Bytes, Entry, Environment, Kind, Literal, NoMemory, Outcome, Plain, Refusal, Shape, Statement,
    Verb,
};
use std::alloc::Global;

// `let N = M`
fn assign_in(
    alloc: Global,
    env: Environment,
    name: &[u8],
    other: &[u8],
) -> Result<Outcome, NoMemory>
    ensures { IfOk result (λ out. out ≡ spec.assign_in env name.now other.now) }
{
    let Some(e) = entry_of(other, env.names.as_slice()) else {
        return refused(alloc, env, Refusal::NoName);
    };
    let value = e.value.whole(alloc)?;
    second_in(alloc, env, name, other, value)
}

// `let N = slice M I J`
fn slice_in(
    alloc: Global,
    env: Environment,
    name: &[u8],
    other: &[u8],
    i: i64,
    j: i64,
) -> Result<Outcome, NoMemory>
    ensures { IfOk result (λ out. out ≡ spec.slice_in env name.now other.now i j) }
{
    let Some(e) = entry_of(other, env.names.as_slice()) else {
        return refused(alloc, env, Refusal::NoName);
    };
    match slice(alloc, i, j, &e.value)? {
        Ok(done) => second_in(alloc, env, name, other, done.value),
        Err(why) => refused(alloc, env, why),
    }
}

// `drop N`
fn discard_in(alloc: Global, env: Environment, name: &[u8]) -> Result<Outcome, NoMemory>
    ensures { IfOk result (λ out. out ≡ spec.discard_in env name.now) }
{
    if entry_of(name, env.names.as_slice()).is_none() {
        return refused(alloc, env, Refusal::NoName);
    }
    let env = Environment {
        names: without(name, env.names),
        room: env.room,
        allowed: env.allowed,
    };
    Ok(quiet(alloc, env))
}

// `show N`
fn show_in(alloc: Global, env: Environment, name: &[u8]) -> Result<Outcome, NoMemory>
    ensures { IfOk result (λ out. out ≡ spec.show_in env name.now) }
{
    let Some(e) = entry_of(name, env.names.as_slice()) else {
        return refused(alloc, env, Refusal::NoName);
    };
    let text = plain_text(alloc, &e.value)?;
    let text = line(alloc, text.as_slice())?;
    print_in(alloc, env, text)
}

// A statement that reads one value.
fn ask(
    alloc: Global,
    env: Environment,
    name: &[u8],
    statement: &Statement,
) -> Result<Outcome, NoMemory>
    ensures { IfOk result (λ out. out ≡ spec.ask env name.now (query_of (out-Statement statement.now))) }
{
    let Some(e) = entry_of(name, env.names.as_slice()) else {
        return refused(alloc, env, Refusal::NoName);
    };
    let answer = told_of(alloc, statement, &e.value)?;
    told(alloc, env, answer)
}

// A statement that reads two values.
fn ask_both(
    alloc: Global,
    env: Environment,
    name: &[u8],
    other: &[u8],
    statement: &Statement,
) -> Result<Outcome, NoMemory>
    ensures { IfOk result (λ out. out ≡ spec.ask_both env name.now other.now (query_both_of (out-Statement statement.now))) }
{
    let Some(e) = entry_of(name, env.names.as_slice()) else {
        return refused(alloc, env, Refusal::NoName);
    };
    let Some(f) = entry_of(other, env.names.as_slice()) else {
        return refused(alloc, env, Refusal::NoName);
    };
    let answer = told_of_both(alloc, statement, &e.value, &f.value)?;
    told_both(alloc, env, name, other, answer)
}

// A statement that changes one value.
fn turn(
    alloc: Global,
    env: Environment,
    name: &[u8],
    statement: &Statement,
) -> Result<Outcome, NoMemory>
    ensures { IfOk result (λ out. out ≡ spec.turned env name.now (turn_of (out-Statement statement.now))) }
{
    let Some(e) = entry_of(name, env.names.as_slice()) else {
        return refused(alloc, env, Refusal::NoName);
    };
    let copies = cost(statement, e.alone, &e.value)?;
    let parts = parts(statement, &e.value);
    let answer = answer(alloc, statement, &e.value)?;
    let alone = flag_after(parts, e, &answer);
    becomes(alloc, env, name, copies, alone, answer)
}

/// The sum of two numbers of copies. Want of memory stands for a number past 64 bits.
pub fn sum(own: u64, added: u64) -> Result<u64, NoMemory>
    ensures { IfOk result (λ n. n ≡ own + added) }
{
    match own.checked_add(added) {
        Some(n) => Ok(n),
        None => Err(NoMemory),
    }
}

// What a statement that changes N by M allows: for N's elements, where the two are one value or not, and for
// those of M that are added.
fn copies_by(statement: &Statement, e: &Entry, f: &Entry, is_one: bool) -> Result<u64, NoMemory>
    ensures { IfOk result (λ n. n ≡ sharing.both_cost (if is_one then environment.shared e.now else e.now)
        + added_of (out-Statement statement.now) f.now.value) }
{
    let own = if is_one {
        both_cost(false, &e.value)?
    } else {
        both_cost(e.alone, &e.value)?
    };
    sum(own, added(statement, &f.value)?)
}

// A statement that changes N's value by M's.
fn turn_by(
    alloc: Global,
    env: Environment,
    name: &[u8],
    other: &[u8],
    statement: &Statement,
) -> Result<Outcome, NoMemory>
    ensures { IfOk result (λ out. out ≡ spec.turned_by env name.now other.now (out-Statement statement.now)) }
{
    let Some(e) = entry_of(name, env.names.as_slice()) else {
        return refused(alloc, env, Refusal::NoName);
    };
    let Some(f) = entry_of(other, env.names.as_slice()) else {
        return refused(alloc, env, Refusal::NoName);
    };
    let copies = copies_by(statement, e, f, name == other)?;
    let answer = answer_by(alloc, statement, &e.value, &f.value)?;
    let alone = name != other && flag_after(true, e, &answer);
    becomes(alloc, env, name, copies, alone, answer)
}

// The environment after a lazy statement.
fn looked(
    alloc: Global,
    env: Environment,
    name: &[u8],
    copies: u64,
) -> Result<Environment, NoMemory>
    ensures { IfOk result (λ made. made ≡ spec.looked env name.now copies) }
{
    let env = settles(alloc, name, env)?;
    allow(copies, env)
}

// The first of some atoms, as a line.
fn first_line(alloc: Global, seen: &[Literal]) -> Result<Bytes, NoMemory>
    ensures { IfOk result (λ text. text ≡ printed.line (printed.nil_or printed.atom_text (slice_get seen.now 0))) }
{
    let text = nil_or(alloc, seen.first())?;
    line(alloc, text.as_slice())
}

// Atoms as a line.
fn list_line(alloc: Global, seen: &[Literal]) -> Result<Bytes, NoMemory>
    ensures { IfOk result (λ text. text ≡ printed.line (printed.list_text seen.now)) }
{
    let text = list_text(alloc, seen)?;
    line(alloc, text.as_slice())
}

// Their number as a line.
fn count_line(alloc: Global, seen: &[Literal]) -> Result<Bytes, NoMemory>
    ensures { IfOk result (λ text. text ≡ printed.line (fmt.decimal (length seen.now))) }
{
    let text = decimal(alloc, seen.len() as u64)?;
    line(alloc, text.as_slice())
}

// What a lazy statement prints of a view of an array.
fn view_in(
    alloc: Global,
    env: Environment,
    name: &[u8],
    count: usize,
    seen: &[Literal],
    verb: Verb,
) -> Result<Outcome, NoMemory>
    ensures { IfOk result (λ out. (items : List Literal) → length items ≡ count → out ≡ spec.view_in env name.now items seen.now verb) }
{
    match verb {
        Verb::First => {
            let env = looked(alloc, env, name, 1)?;
            let text = first_line(alloc, seen)?;
            Ok(Outcome { env, text })
        }
        Verb::Show => {
            let env = looked(alloc, env, name, count as u64)?;
            let text = list_line(alloc, seen)?;
            print_in(alloc, env, text)
        }
        Verb::Count => {
            let env = looked(alloc, env, name, 0)?;
            let text = count_line(alloc, seen)?;
            Ok(Outcome { env, text })
        }
    }
}

// The rule that a number names.
fn shape_of(shapes: &[Shape], i: i64) -> Option<Shape>
    ensures { result ≡ spec.shape_of shapes.now (operation.index 0 (length shapes.now) i) }
{
    let place = index(0, shapes.len(), i)?;
    shapes.get(place).copied()
}

// `lazy N I VERB`
fn lazy_in(
    alloc: Global,
    env: Environment,
    shapes: &[Shape],
    name: &[u8],
    i: i64,
    verb: Verb,
) -> Result<Outcome, NoMemory>
    ensures { IfOk result (λ out. out ≡ spec.lazy_in env shapes.now name.now i verb) }
{
    let Some(e) = entry_of(name, env.names.as_slice()) else {
        return refused(alloc, env, Refusal::NoName);
    };
    let Plain::Array(items) = &e.value else {
        return refused(alloc, env, Refusal::WrongKind);
    };
    let Some(shape) = shape_of(shapes, i) else {
        return refused(alloc, env, Refusal::NoRule);
    };
    let seen = view(alloc, shape, items.as_slice())?;
    let count = items.len();
    view_in(alloc, env, name, count, seen.as_slice(), verb)
}

// `let N = KIND A*`
fn make_in(
    alloc: Global,
    env: Environment,
    name: &[u8],
    kind: Kind,
    atoms: &[Literal],
) -> Result<Outcome, NoMemory>
    ensures { IfOk result (λ out. out ≡ spec.let_in env name.now (operation.made kind atoms.now)) }
{
    let value = made(alloc, kind, atoms)?;
    let_in(alloc, env, name, value)
}

// What a statement that reads values does.
fn asking(alloc: Global, env: Environment, statement: &Statement) -> Result<Outcome, NoMemory>
    ensures { IfOk result (λ out. out ≡ spec.asking env (out-Statement statement.now)) }
{
    match statement {
        Statement::Count { name, .. }
        | Statement::Get { name, .. }
        | Statement::At { name, .. }
        | Statement::Has { name, .. }
        | Statement::Place { name, .. }
        | Statement::Peek { name, .. } => ask(alloc, env, name.as_slice(), statement),
        Statement::Subset { name, other, .. }
        | Statement::Disjoint { name, other, .. }
        | Statement::Equal { name, other, .. } => {
            ask_both(alloc, env, name.as_slice(), other.as_slice(), statement)
        }
        _ => Ok(quiet(alloc, env)),
    }
}

// What a statement that changes a value by another does.
fn changing_by(alloc: Global, env: Environment, statement: &Statement) -> Result<Outcome, NoMemory>
    ensures { IfOk result (λ out. out ≡ spec.changing_by env (out-Statement statement.now)) }
{
    match statement {
        Statement::Extend { name, other, .. }
        | Statement::Union { name, other, .. }
        | Statement::Inter { name, other, .. }
        | Statement::Minus { name, other, .. }
        | Statement::SymDiff { name, other, .. }
        | Statement::Merge { name, other, .. }
        | Statement::Within { name, other, .. } => {
            turn_by(alloc, env, name.as_slice(), other.as_slice(), statement)
        }
        _ => asking(alloc, env, statement),
    }
}

// What a statement that changes values does.
fn changing(alloc: Global, env: Environment, statement: &Statement) -> Result<Outcome, NoMemory>
    ensures { IfOk result (λ out. out ≡ spec.changing env (out-Statement statement.now)) }
{
    match statement {
        Statement::Append { name, .. }
        | Statement::Prepend { name, .. }
        | Statement::Insert { name, .. }
        | Statement::InsertAt { name, .. }
        | Statement::Update { name, .. }
        | Statement::Remove { name, .. }
        | Statement::RemoveAt { name, .. }
        | Statement::Set { name, .. }
        | Statement::Pop { name, .. }
        | Statement::Replace { name, .. }
        | Statement::Swap { name, .. }
        | Statement::Reverse { name, .. }
        | Statement::Rotate { name, .. }
        | Statement::Splice { name, .. }
        | Statement::Reserve { name, .. }
        | Statement::Clear { name, .. }
        | Statement::Rebase { name, .. }
        | Statement::Put { name, .. } => turn(alloc, env, name.as_slice(), statement),
        _ => changing_by(alloc, env, statement),
    }
}

// What a statement does once its literals are allowed.
fn act(
    alloc: Global,
    env: Environment,
    shapes: &[Shape],
    statement: &Statement,
) -> Result<Outcome, NoMemory>
    ensures { IfOk result (λ out. out ≡ spec.act env shapes.now (out-Statement statement.now)) }
{
    match statement {
        Statement::Let {
            name,
            kind,
            atoms,
            ..
        } => { make_in(alloc, env, name.as_slice(), *kind, atoms.as_slice()) }
        Statement::Assign { name, other, .. } => {
            assign_in(alloc, env, name.as_slice(), other.as_slice())
        }
        Statement::Slice {
            name,
            other,
            i,
            j,
            ..
        } => { slice_in(alloc, env, name.as_slice(), other.as_slice(), *i, *j) }
        Statement::Discard { name, .. } => discard_in(alloc, env, name.as_slice()),
        Statement::Show { name, .. } => show_in(alloc, env, name.as_slice()),
        Statement::Lazy { name, i, verb, .. } => {
            lazy_in(alloc, env, shapes, name.as_slice(), *i, *verb)
        }
        _ => changing(alloc, env, statement),
    }
}

/// What a statement does that is no fork and no give.
pub fn step(
    alloc: Global,
    env: Environment,
    shapes: &[Shape],
    statement: &Statement,
) -> Result<Outcome, NoMemory>
    ensures { IfOk result (λ out. out ≡ spec.step env shapes.now (out-Statement statement.now)) }
{
    let env = allow(literals(statement) as u64, env)?;
    act(alloc, env, shapes, statement)
}
