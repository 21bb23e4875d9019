//! The program: joins the top call to the command line, to the system's streams and threads, and to a new stock.
//!
//! No proof speaks of what the command line and the streams give and take. Without memory for the words
//! nothing is read or written, and the status is that of want of memory.
#![tactic(auto)]

ghost use Rattle.cow_cell.specs.Opens.{Opens};

use cow_cell::{Holder, Opening, Stock};
use cow_crew::OpenGate;
use cow_model::Shape;
use cow_port::{ReaderSource, Sink, Source, WriterSink};
use cow_rule::{PlainRule, Rule};
use cow_run::{Status, cowrun};
use std::alloc::{AllocError, Global};
use std::marker::Brand;
use std::process::ExitCode;
use std::thread::Threads;
use std::{env, io};

// The words behind the program's name. Where one of them is no text there are none, which is no option.
fn words_given(rt: &HostRuntime) -> Result<Vec<String>, AllocError> {
    let mut words = Vec::new(rt.alloc());
    let given = match env::args(rt) {
        Ok(given) => given,
        Err(why) if why.kind() == io::ErrorKind::OutOfMemory => return Err(AllocError),
        Err(_) => return Ok(words),
    };
    for word in given.skip(1) {
        words.push(word)?;
    }
    Ok(words)
}

// The words, as the top call takes them.
fn as_strs(alloc: Global, words: &[String]) -> Result<Vec<&str>, AllocError> {
    words.iter().map(|word| word.as_str()).collect(alloc)
}

/// What the five rules that lazy statements name do, in the order of their numbers.
const SHAPES: [Shape; 5] = [
    Shape::Add(1),
    Shape::Negate,
    Shape::Add(10),
    Shape::Even,
    Shape::Below(100),
];

// Runs over the stock that is opened.
fn run_words<R: Threads + Sync, Q: Stock + Send + Sync, S: Source, K: Sink>(
    rt: &R,
    alloc: Global,
    words: &[&str],
    source: &mut S,
    sink: &mut K,
    rules: &mut Vec<Box<dyn Rule>>,
    opening: Opening,
) -> Status
    requires { Opens Q.Stock opening }
{
    let mut h = Holder::<Q>::fresh(opening);
    cowrun(rt, alloc, words, source, sink, rules, &OpenGate, &mut h)
}

fn main(rt: HostRuntime) -> ExitCode {
    let alloc = rt.alloc();
    let Ok(given) = words_given(&rt) else {
        return ExitCode::from(Status::NoMemory);
    };
    let Ok(words) = as_strs(alloc, &given) else {
        return ExitCode::from(Status::NoMemory);
    };
    let mut rules: Vec<Box<dyn Rule>> = Vec::new(alloc);
    for shape in SHAPES {
        let Ok(rule) = Box::new(alloc, PlainRule { shape, asked: 0 }) else {
            return ExitCode::from(Status::NoMemory);
        };
        if rules.push(rule).is_err() {
            return ExitCode::from(Status::NoMemory);
        }
    }
    let mut source = ReaderSource {
        reader: rt.reader(),
        faults: 0,
    };
    let mut sink = WriterSink {
        writer: io::writer(&rt),
        faults: 0,
    };
    let opening = Opening::new();
    let status = run_words::<_, Brand, _, _>(
        &rt,
        alloc,
        &words,
        &mut source,
        &mut sink,
        &mut rules,
        opening,
    );
    ExitCode::from(status)
}
