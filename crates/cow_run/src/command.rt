ghost use Rattle.std.specs.Prelude.{◌≡◌, ◌≢◌, ◌↔◌, ◌⊎◌, map, None};
ghost use Rattle.cow_model.specs.Purse.{whole};
ghost use Rattle.cow_port.specs.Causes.{Rose};
ghost use Rattle.cow_run.specs.Answer.{Answers, RunsWhole, lent};
ghost use Rattle.cow_run.specs.Options as spec;
ghost use Rattle.cow_run.specs.Options.{asks_census};

use crate::options::options;
use crate::output::write_usage;
use crate::run::run;
use crate::status::Status;
use cow_cell::{Holder, Stock};
use cow_crew::Gate;
use cow_port::{Sink, Source};
use cow_rule::Rule;
use std::alloc::Global;
use std::thread::Threads;

/// The whole program, but for the words, the source, the sink and the holder that it is given: reads a script of
/// at most 1,048,576 bytes from the source to its end, runs it, and writes what each statement prints
/// before the next one runs. With `--census` a line that tells the copies follows. The tasks of a fork run on
/// at most as many threads as `--workers` says, 1 to 64, or else 4, task i after `gate.pass(i)`; what is written
/// is the same for every number of workers and every order in which they come.
///
/// - `Usage` comes exactly where the words are no option, before anything is read.
/// - `ReadFault` and `WriteFault` come only where the faults of the source or the sink rose.
/// - `Script` comes with a limit of line 0 exactly where byte 1,048,577 was read, and else exactly where the
///   bytes are no script, with what is wrong with their first faulty line.
/// - `NotYet` comes exactly where they are a script with a line that isn't built, with the first such line.
/// - `NoMemory` is free to come.
/// - `Ok` says that the source was read to its end, that the sink took exactly what the run writes, and that
///   all units are back: no storage that the run made is held any more. `Leak` says the first two, and how many
///   units are back. It never comes of a script without texts.
///
/// The rules are those that lazy statements name by their places. No call changes a rule's shape; after `Ok` and `Leak`
/// each was asked as often as the lazy statements of the script's main part say (`asks_from`), or stands at its last
/// value.
///
/// The holder afterwards has the number of items that were copied, which the census tells. After `Ok`, `Leak`,
/// `WriteFault` and `NoMemory` it is at most what the sharing rule allows the script (`bound`), or nothing where
/// none was run; after `Ok` and `Leak` it is at least what the script has to make (`least`). On `Usage`, `Script`
/// and `NotYet` one line is written; a write that fails there leaves the status as it is.
pub fn cowrun<R: Threads + Sync, Q: Stock + Send + Sync, S: Source, K: Sink, G: Gate>(
    rt: &R,
    alloc: Global,
    words: &[&str],
    source: &mut S,
    sink: &mut K,
    rules: &mut Vec<Box<dyn Rule>>,
    gate: &G,
    h: &mut Holder<Q>,
) -> Status
    requires fresh { h.old ≡ whole }
    ensures usage { (result ≡ Status.Usage) ↔ (spec.options (map (λ w. w.now) words.now) ≡ None) }

    // The rules keep their shapes.
    ensures shapes { map shape_of rules.new.items ≡ map shape_of rules.old.items }

    // What was read and written, the holder, and how often each rule was asked, are what the status says.
    ensures answer { Answers (S.left source.old) (S.left source.new) (K.held sink.old) (K.held sink.new)
        (Rose (K.faults sink.old) (K.faults sink.new)) (asks_census (spec.options (map (λ w. w.now) words.now)))
        (lent (map shape_of rules.old.items) (map asked_of rules.old.items) (map asked_of rules.new.items))
        h.new result }
    ensures read_fault { result ≡ Status.ReadFault →
        Rose (S.faults source.old) (S.faults source.new) }
    ensures write_fault { result ≡ Status.WriteFault →
        Rose (K.faults sink.old) (K.faults sink.new) }

    // Without faults a built script is run to its end, unless memory runs out.
    ensures complete { spec.options (map (λ w. w.now) words.now) ≢ None →
        RunsWhole (S.left source.old) (K.held sink.old) (K.held sink.new)
        (Rose (S.faults source.old) (S.faults source.new) ⊎ Rose (K.faults sink.old) (K.faults sink.new))
        (asks_census (spec.options (map (λ w. w.now) words.now)))
        (map shape_of rules.old.items) h.new result }
{
    match options(words) {
        Some(running) => run(rt, alloc, running, source, sink, rules, gate, h),
        None => {
            write_usage(sink);
            Status::Usage
        }
    }
}
