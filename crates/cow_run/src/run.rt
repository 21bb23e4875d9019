// Running a script: from a source to a sink.
ghost use Rattle.std.specs.Prelude.{◌≡◌, ◌≢◌, ℕ, ◌+◌, ◌*◌, ◌^◌, ◌≤◌, [], All, map, length, OnOk, OnErr, IsErrOf};
ghost use Rattle.std.specs.Io.KnownBytes.{Appends};
ghost use Rattle.cow_model.specs.Env.{start};
ghost use Rattle.cow_model.specs.Atoms.{IsBareLayer, IsBareBlock};
ghost use Rattle.cow_model.specs.Purse.{whole, RisesBy, RisesWithin};
ghost use Rattle.cow_model.specs.Run.{run_one, text_of, bound, least_layer, least};
ghost use Rattle.cow_model.specs.declared.statement.Statement.{out-Statement};
ghost use Rattle.cow_views.specs.Asks.{asks_from, asks_layer, raised_by};
ghost use Rattle.cow_eval.specs.Entries.{most_units};
ghost use Rattle.cow_eval.specs.Envs.{CanRun, env_of, IsBare, Balances};
ghost use Rattle.cow_tasks.specs.Blocks.{HasParts, IsRunnableLayer, count_in, count_of};
ghost use Rattle.cow_port.specs.Causes.{Rose};
ghost use Rattle.cow_run.specs.Input.{max_bytes};
ghost use Rattle.cow_run.specs.Output.{WritesFront};
ghost use Rattle.cow_run.specs.Answer.{Answers, lent, stock_units, whole_text};
ghost use Rattle.cow_run.specs.Runs.{IsRead, SaysUnits, StatementsAnswered, BytesAnswered};

use crate::input::{ReadStop, read_all};
use crate::options::Running;
use crate::output::{write_all, write_census, write_fault, write_not_built};
use crate::status::Status;
use cow_cell::{Holder, Stock};
use cow_crew::Gate;
use cow_elements::Element;
use cow_eval::Env;
use cow_item::Atom;
use cow_kinds::Value;
use cow_lazy::Operand;
use cow_model::{NoMemory, Script, Statement};
use cow_port::{Failed, Sink, Source};
use cow_rule::Rule;
use cow_script::{ParseFault, ParseStop, parse};
use cow_tasks::{first_unbuilt, run_statement};
use cow_views::Views;
use std::alloc::Global;
use std::thread::Threads;

/// The units of a stock.
const STOCK: u64 = 0x4000_0000_0000_0000;

/// The fault of a script of more than 1,048,576 bytes.
const TOO_LONG: ParseFault = ParseFault::Limit {
    line: 0,
    quantity: 1_048_577,
    bound: 1_048_576,
};

// Why a script was not run to its end.
#[derive(Clone, Copy, Debug, PartialEq, Eq)]
enum RunStop {
    WriteFault,
    NoMemory,
}

impl From<NoMemory> for RunStop {
    ghost use Rattle.std.specs.Prelude.{◌≡◌};
    ghost use Rattle.cow_run.specs.declared.run.RunStop.TheVariants as stop;

    ghost from_gives = { λ _ e. e ≡ stop.NoMemory };

    fn from(_: NoMemory) -> Self {
        RunStop::NoMemory
    }
}

impl From<Failed> for RunStop {
    ghost use Rattle.std.specs.Prelude.{◌≡◌};
    ghost use Rattle.cow_run.specs.declared.run.RunStop.TheVariants as stop;

    ghost from_gives = { λ _ e. e ≡ stop.WriteFault };

    fn from(_: Failed) -> Self {
        RunStop::WriteFault
    }
}

// Runs a statement, and writes what it prints. `text` is room for that.
fn run_and_write<R: Threads + Sync, V: Views<Q> + Send, Q: Stock + Send + Sync, K: Sink, G: Gate>(
    rt: &R,
    alloc: Global,
    statement: &Statement,
    env: &mut Env<V, Q>,
    rules: &mut Vec<Box<dyn Rule>>,
    gate: &G,
    workers: u32,
    text: &mut Vec<u8>,
    sink: &mut K,
    h: &mut Holder<Q>,
) -> Result<(), RunStop>
    requires statement { IsRunnableLayer (out-Statement statement.now) }
    requires workers { 1 ≤ workers }
    requires ready { CanRun (count_of (out-Statement statement.now)) env.old h.old }
    requires parts { HasParts (count_of (out-Statement statement.now)) h.old }
    ensures next { (n : ℕ) → CanRun (n + count_of (out-Statement statement.now)) env.old h.old →
        OnOk result (CanRun n env.new h.new) }
    ensures shapes { map shape_of rules.new.items ≡ map shape_of rules.old.items }
    ensures asked { OnOk result (map asked_of rules.new.items ≡ raised_by
        (λ k. asks_layer (env_of env.old) (map shape_of rules.old.items) k (out-Statement statement.now))
        (map asked_of rules.old.items)) }
    ensures env { OnOk result (env_of env.new ≡ (run_one (env_of env.old) (map shape_of rules.old.items) statement.now).env) }
    ensures ok { OnOk result (Appends (K.held sink.old) (K.held sink.new)
        (run_one (env_of env.old) (map shape_of rules.old.items) statement.now).text) }
    ensures err { OnErr result (WritesFront (K.held sink.old) (K.held sink.new)
        (run_one (env_of env.old) (map shape_of rules.old.items) statement.now).text) }
    ensures most { env.new.allowed ≤ (run_one (env_of env.old) (map shape_of rules.old.items) statement.now).env.allowed }
    ensures copied { RisesWithin env.old.allowed env.new.allowed h.old h.new }
    ensures falls { OnOk result
        (h.old.spare ≤ h.new.spare + count_of (out-Statement statement.now) * most_units) }
    ensures least { OnOk result
        (RisesBy (least_layer (env_of env.old) (out-Statement statement.now)) h.old h.new) }
    ensures bare { IsBare V.counted env.old.names → IsBareLayer V.counted (out-Statement statement.now) →
        OnOk result (Balances V.counted 0 env.old.names env.new.names h.old h.new) }
    ensures fault { IsErrOf result RunStop.WriteFault →
        Rose (K.faults sink.old) (K.faults sink.new) }
    ensures later { K.faults sink.old ≤ K.faults sink.new }
{
    text.clear();
    run_statement(rt, alloc, statement, env, rules, gate, workers, h, text)?;
    write_all(sink, text)?;
    Ok(())
}

// Runs statements in turn, and writes what each prints before the next one runs.
fn run_statements<R: Threads + Sync, V: Views<Q> + Send, Q: Stock + Send + Sync, K: Sink, G: Gate>(
    rt: &R,
    alloc: Global,
    statements: &[Statement],
    env: &mut Env<V, Q>,
    rules: &mut Vec<Box<dyn Rule>>,
    gate: &G,
    workers: u32,
    sink: &mut K,
    h: &mut Holder<Q>,
) -> Result<(), RunStop>
    requires runs { All (λ s. IsRunnableLayer (out-Statement s)) statements.now }
    requires few { count_in statements.now ≤ 2 ^ 21 }
    requires workers { 1 ≤ workers }
    requires start { env_of env.old ≡ start }
    requires empty { env.old.names ≡ [] }
    requires fresh { h.old ≡ whole }
    ensures shapes { map shape_of rules.new.items ≡ map shape_of rules.old.items }
    ensures asked { OnOk result (map asked_of rules.new.items ≡ raised_by
        (λ k. asks_from start (map shape_of rules.old.items) k statements.now)
        (map asked_of rules.old.items)) }
    ensures ok { OnOk result (Appends (K.held sink.old) (K.held sink.new)
        (text_of statements.now (map shape_of rules.old.items))) }
    ensures err { OnErr result (WritesFront (K.held sink.old) (K.held sink.new)
        (text_of statements.now (map shape_of rules.old.items))) }
    ensures allowed { OnOk result (env.new.allowed ≡ bound statements.now (map shape_of rules.old.items)) }
    ensures most { h.new.copied ≤ bound statements.now (map shape_of rules.old.items) }
    ensures least { OnOk result (RisesBy (least statements.now (map shape_of rules.old.items)) h.old h.new) }
    ensures bare { IsBareBlock V.counted statements.now →
        OnOk result (IsBare V.counted env.new.names × (h.new.spare + length env.new.names ≡ stock_units)) }
    ensures fault { IsErrOf result RunStop.WriteFault →
        Rose (K.faults sink.old) (K.faults sink.new) }
    ensures later { K.faults sink.old ≤ K.faults sink.new }
{
    let mut text = Vec::new(alloc);
    for statement in statements {
        run_and_write(
            rt, alloc, statement, env, rules, gate, workers, &mut text, sink, h,
        )?;
    }
    Ok(())
}

// Runs a script over values of this type, writes the census where it is asked for, and ends the values of
// all names.
fn run_script<R: Threads + Sync, V: Views<Q> + Send, Q: Stock + Send + Sync, K: Sink, G: Gate>(
    rt: &R,
    alloc: Global,
    statements: &[Statement],
    running: Running,
    sink: &mut K,
    rules: &mut Vec<Box<dyn Rule>>,
    gate: &G,
    h: &mut Holder<Q>,
) -> Result<(), RunStop>
    requires runs { All (λ s. IsRunnableLayer (out-Statement s)) statements.now }
    requires few { count_in statements.now ≤ 2 ^ 21 }
    requires workers { 1 ≤ running.workers }
    requires fresh { h.old ≡ whole }
    ensures shapes { map shape_of rules.new.items ≡ map shape_of rules.old.items }
    ensures asked { OnOk result (map asked_of rules.new.items ≡ raised_by
        (λ k. asks_from start (map shape_of rules.old.items) k statements.now)
        (map asked_of rules.old.items)) }
    ensures ok { OnOk result (Appends (K.held sink.old) (K.held sink.new)
        (whole_text running.census h.new.copied (map shape_of rules.old.items) statements.now)) }
    ensures err { OnErr result (WritesFront (K.held sink.old) (K.held sink.new)
        (whole_text running.census h.new.copied (map shape_of rules.old.items) statements.now)) }
    ensures most { h.new.copied ≤ bound statements.now (map shape_of rules.old.items) }
    ensures least { OnOk result (least statements.now (map shape_of rules.old.items) ≤ h.new.copied) }
    ensures bare { IsBareBlock V.counted statements.now → OnOk result (h.new.spare ≡ stock_units) }
    ensures fault { IsErrOf result RunStop.WriteFault →
        Rose (K.faults sink.old) (K.faults sink.new) }
    ensures later { K.faults sink.old ≤ K.faults sink.new }
{
    let mut env = Env::<V, Q>::new(alloc);
    run_statements(
        rt,
        alloc,
        statements,
        &mut env,
        rules,
        gate,
        running.workers,
        sink,
        h,
    )?;
    write_census(sink, running.census, h.copied(), env.allowed())?;
    env.end(h);
    Ok(())
}

// The same over the values of all kinds, of elements of this type: a step between values of any type and those whose
// elements are atoms, since a call that names all of it at once costs the check more than it may.
fn run_values<
    R: Threads + Sync,
    T: Element<Q> + Operand<Q> + Send + Sync,
    Q: Stock + Send + Sync,
    K: Sink,
    G: Gate,
>(
    rt: &R,
    alloc: Global,
    statements: &[Statement],
    running: Running,
    sink: &mut K,
    rules: &mut Vec<Box<dyn Rule>>,
    gate: &G,
    h: &mut Holder<Q>,
) -> Result<(), RunStop>
    requires runs { All (λ s. IsRunnableLayer (out-Statement s)) statements.now }
    requires few { count_in statements.now ≤ 2 ^ 21 }
    requires workers { 1 ≤ running.workers }
    requires fresh { h.old ≡ whole }
    ensures shapes { map shape_of rules.new.items ≡ map shape_of rules.old.items }
    ensures asked { OnOk result (map asked_of rules.new.items ≡ raised_by
        (λ k. asks_from start (map shape_of rules.old.items) k statements.now)
        (map asked_of rules.old.items)) }
    ensures ok { OnOk result (Appends (K.held sink.old) (K.held sink.new)
        (whole_text running.census h.new.copied (map shape_of rules.old.items) statements.now)) }
    ensures err { OnErr result (WritesFront (K.held sink.old) (K.held sink.new)
        (whole_text running.census h.new.copied (map shape_of rules.old.items) statements.now)) }
    ensures most { h.new.copied ≤ bound statements.now (map shape_of rules.old.items) }
    ensures least { OnOk result (least statements.now (map shape_of rules.old.items) ≤ h.new.copied) }
    ensures bare { IsBareBlock T.is_counted statements.now → OnOk result (h.new.spare ≡ stock_units) }
    ensures fault { IsErrOf result RunStop.WriteFault →
        Rose (K.faults sink.old) (K.faults sink.new) }
    ensures later { K.faults sink.old ≤ K.faults sink.new }
{
    run_script::<R, Value<T, Q>, Q, K, G>(rt, alloc, statements, running, sink, rules, gate, h)
}

// How a run ends that wrote all: whether all units came back.
fn counted<Q: Stock>(h: &Holder<Q>) -> Status
    ensures { SaysUnits h.now result }
{
    if h.spare() == STOCK {
        return Status::Ok;
    }
    Status::Leak {
        spare: h.spare(),
        stock: STOCK,
    }
}

// Runs a script over the values of all kinds, unless one of them isn't built.
fn run_built<R: Threads + Sync, Q: Stock + Send + Sync, K: Sink, G: Gate>(
    rt: &R,
    alloc: Global,
    script: &Script,
    running: Running,
    sink: &mut K,
    rules: &mut Vec<Box<dyn Rule>>,
    gate: &G,
    h: &mut Holder<Q>,
) -> Status
    requires read { IsRead script.now.statements }
    requires workers { 1 ≤ running.workers }
    requires fresh { h.old ≡ whole }
    ensures shapes { map shape_of rules.new.items ≡ map shape_of rules.old.items }
    ensures answer { StatementsAnswered (K.held sink.old) (K.held sink.new)
        (Rose (K.faults sink.old) (K.faults sink.new)) running.census
        (lent (map shape_of rules.old.items) (map asked_of rules.old.items) (map asked_of rules.new.items))
        script.now.statements h.new result }
    ensures write_fault { result ≡ Status.WriteFault →
        Rose (K.faults sink.old) (K.faults sink.new) }
{
    if let Some(line) = first_unbuilt(script) {
        write_not_built(sink, line);
        return Status::NotYet { line };
    }
    let statements = script.statements.as_slice();
    match run_values::<R, Atom<Q>, Q, K, G>(rt, alloc, statements, running, sink, rules, gate, h) {
        Ok(()) => counted(h),
        Err(RunStop::WriteFault) => Status::WriteFault,
        Err(RunStop::NoMemory) => Status::NoMemory,
    }
}

// Runs the script that these bytes are, where they are one.
fn run_bytes<R: Threads + Sync, Q: Stock + Send + Sync, K: Sink, G: Gate>(
    rt: &R,
    alloc: Global,
    bytes: &[u8],
    running: Running,
    sink: &mut K,
    rules: &mut Vec<Box<dyn Rule>>,
    gate: &G,
    h: &mut Holder<Q>,
) -> Status
    requires short { length bytes.now ≤ max_bytes }
    requires workers { 1 ≤ running.workers }
    requires fresh { h.old ≡ whole }
    ensures usage { result ≢ Status.Usage }
    ensures read_fault { result ≢ Status.ReadFault }
    ensures shapes { map shape_of rules.new.items ≡ map shape_of rules.old.items }
    ensures answer { BytesAnswered (K.held sink.old) (K.held sink.new)
        (Rose (K.faults sink.old) (K.faults sink.new)) running.census
        (lent (map shape_of rules.old.items) (map asked_of rules.old.items) (map asked_of rules.new.items))
        bytes.now h.new result }
    ensures write_fault { result ≡ Status.WriteFault →
        Rose (K.faults sink.old) (K.faults sink.new) }
{
    match parse(alloc, bytes) {
        Ok(script) => run_built(rt, alloc, &script, running, sink, rules, gate, h),
        Err(ParseStop::Fault(fault)) => {
            write_fault(sink, fault);
            Status::Script(fault)
        }
        Err(ParseStop::NoMemory) => Status::NoMemory,
    }
}

/// Reads a script from the source to its end, runs it, and writes what it prints to the sink, and the census
/// where it is asked for.
pub fn run<R: Threads + Sync, Q: Stock + Send + Sync, S: Source, K: Sink, G: Gate>(
    rt: &R,
    alloc: Global,
    running: Running,
    source: &mut S,
    sink: &mut K,
    rules: &mut Vec<Box<dyn Rule>>,
    gate: &G,
    h: &mut Holder<Q>,
) -> Status
    requires workers { 1 ≤ running.workers }
    requires fresh { h.old ≡ whole }
    ensures usage { result ≢ Status.Usage }
    ensures shapes { map shape_of rules.new.items ≡ map shape_of rules.old.items }
    ensures answer { Answers (S.left source.old) (S.left source.new) (K.held sink.old) (K.held sink.new)
        (Rose (K.faults sink.old) (K.faults sink.new)) running.census
        (lent (map shape_of rules.old.items) (map asked_of rules.old.items) (map asked_of rules.new.items))
        h.new result }
    ensures read_fault { result ≡ Status.ReadFault →
        Rose (S.faults source.old) (S.faults source.new) }
    ensures write_fault { result ≡ Status.WriteFault →
        Rose (K.faults sink.old) (K.faults sink.new) }
{
    match read_all(alloc, source) {
        Ok(bytes) => run_bytes(rt, alloc, &bytes, running, sink, rules, gate, h),
        Err(ReadStop::Failed) => Status::ReadFault,
        Err(ReadStop::NoMemory) => Status::NoMemory,
        Err(ReadStop::TooLong) => {
            write_fault(sink, TOO_LONG);
            Status::Script(TOO_LONG)
        }
    }
}
