// The program as a user sees it: what it prints and how it ends.
ghost use Rattle.cow_cell.specs.Opens.{Opens};

use crate::lines::lines;
use crate::yardstick::RULES;
use cow_cell::{Holder, Opening, Stock};
use cow_crew::{Gate, OpenGate};
use cow_plain::run_script;
use cow_port::{MemorySink, MemorySource, PlainSource, Sink, Source};
use cow_rule::{PlainRule, Rule};
use cow_run::{Status, cowrun};
use cow_script::ParseFault;
use std::alloc::Global;
use std::marker::Brand;
use std::test::Fail;
use std::thread::Threads;

const USAGE: &[u8] = b"usage: cowrun run [--workers w] [--census] | make SEED N | judge\n";

/// How a run ended, how many items were copied with its holder, and how often each of its rules was asked.
#[derive(Clone, Copy, Debug, PartialEq, Eq)]
pub struct Ended {
    pub status: Status,
    pub copied: u64,
    pub asked: [u64; 5],
}

/// How a run ended, and what it wrote.
#[derive(Drop)]
pub struct Ran {
    pub ended: Ended,
    pub text: Vec<u8>,
}

/// Runs over a new stock, with the five rules of the program.
fn run_over<R: Threads + Sync, Q: Stock + Send + Sync, S: Source, K: Sink, G: Gate>(
    rt: &R,
    alloc: Global,
    opening: Opening,
    words: &[&str],
    source: &mut S,
    sink: &mut K,
    gate: &G,
) -> Ended
    requires { Opens Q.Stock opening }
{
    let mut h = Holder::<Q>::fresh(opening);
    let mut rules: Vec<Box<dyn Rule>> = Vec::new(alloc);
    let mut asked = [0; 5];
    for shape in RULES {
        let Ok(rule) = Box::new(alloc, PlainRule { shape, asked: 0 }) else {
            break;
        };
        if rules.push(rule).is_err() {
            break;
        }
    }
    let status = cowrun(rt, alloc, words, source, sink, &mut rules, gate, &mut h);
    for (number, rule) in asked.iter_mut().zip(rules.iter()) {
        *number = rule.asked();
    }
    Ended {
        status,
        copied: h.copied(),
        asked,
    }
}

/// Runs over these devices.
fn run_on<R: Threads + Sync, S: Source, K: Sink, G: Gate>(
    rt: &R,
    alloc: Global,
    words: &[&str],
    source: &mut S,
    sink: &mut K,
    gate: &G,
) -> Ended {
    run_over::<R, Brand, S, K, G>(rt, alloc, Opening::new(), words, source, sink, gate)
}

/// A sink with room for what it is given, that takes at most `most` bytes a call.
fn sink_of(alloc: Global, room: usize, most: usize, failing: Vec<u64>) -> Result<MemorySink, Fail> {
    Ok(MemorySink {
        bytes: Vec::with_capacity(alloc, room)?,
        most,
        calls: 0,
        failing,
        faults: 0,
    })
}

/// Runs a script with ample memory, devices that don't fail, and this gate.
pub fn run_through<R: Threads + Sync, G: Gate>(
    rt: &R,
    alloc: Global,
    words: &[&str],
    script: &[u8],
    gate: &G,
) -> Result<Ran, Fail> {
    let mut source = PlainSource {
        bytes: Vec::from_slice(alloc, script)?,
        at: 0,
    };
    let mut sink = sink_of(alloc, 8_000_000, usize::MAX, Vec::new(alloc))?;
    let ended = run_on(rt, alloc, words, &mut source, &mut sink, gate);
    Ok(Ran {
        ended,
        text: sink.bytes,
    })
}

/// Runs a script with ample memory and devices that don't fail.
pub fn run_with<R: Threads + Sync>(
    rt: &R,
    alloc: Global,
    words: &[&str],
    script: &[u8],
) -> Result<Ran, Fail> {
    run_through(rt, alloc, words, script, &OpenGate)
}

/// Whether the program ends and prints as the plain program of the definitions answers, but for lines that
/// aren't built.
fn is_as_defined<R: Threads + Sync>(rt: &R, alloc: Global, script: &[u8]) -> Result<bool, Fail> {
    let ran = run_with(rt, alloc, &["run"], script)?;
    let Ok(said) = run_script(alloc, script, &RULES) else {
        return Err("memory".into());
    };
    Ok(match (ran.ended.status, said) {
        (Status::Ok, Ok(told)) => ran.text.as_slice() == told.text.as_slice(),
        (Status::NotYet { .. }, Ok(_)) => true,
        (Status::Script(fault), Err(other)) => fault == other,
        _ => false,
    })
}

/// `let NAME = array` with an atom `count` times.
fn array_line(alloc: Global, name: &str, atom: &str, count: usize) -> Result<Vec<u8>, Fail> {
    let mut line = Vec::from_slice(alloc, b"let ")?;
    line.extend_from_slice(name.as_bytes())?;
    line.extend_from_slice(b" = array")?;
    for _ in 0..count {
        line.push(b' ')?;
        line.extend_from_slice(atom.as_bytes())?;
    }
    line.push(b'\n')?;
    Ok(line)
}

/// Scripts with the words, what they print, and the status.
const ROWS: &[(&[&str], &str, &str, u8)] = &[
    // append_to_copy
    (
        CENSUS,
        "let a = array 1 2 3 / let b = a / append b 4 / show a / show b",
        "[1, 2, 3] / [1, 2, 3, 4] / copied 7 of at most 7",
        0,
    ),
    // empty_script
    (RUN, "", "", 0),
    (CENSUS, "", "copied 0 of at most 0", 0),
    // assign_copies_nothing
    (
        CENSUS,
        "let a = array 1 2 3 / let b = a / show b",
        "[1, 2, 3] / copied 3 of at most 3",
        0,
    ),
    // slice_keeps_indices
    (
        CENSUS,
        "let a = array 10 20 30 40 50 / let s = slice a 2 4 / set s 2 31 / show s / show a / get s 1",
        "[31, 40] from 2 / [10, 20, 30, 40, 50] / ! out of range / copied 8 of at most 9",
        0,
    ),
    // extend_self
    (
        CENSUS,
        "let a = array 1 2 / extend a a / show a",
        "[1, 2, 1, 2] / copied 6 of at most 6",
        0,
    ),
    // a storage that nobody else holds any more is changed in place, where the rule allows three copies
    (
        CENSUS,
        "let a = array 1 2 3 / let b = a / drop a / append b 4 / show b",
        "[1, 2, 3, 4] / copied 4 of at most 7",
        0,
    ),
    // empty_array
    (
        RUN,
        "let a = array / pop a last / remove a 0 / remove a \"x\" / pop a min / show a",
        "nil / ! out of range / ! wrong kind / ! wrong kind / []",
        0,
    ),
    // cut_word
    (RUN, "let a = array 1 2 / appe", "line 2: bad word", 3),
    // array_calls
    (
        RUN,
        "let a = array 3 1 2 / insert a 1 9 / swap a 0 3 / reverse a / splice a 1 3 7 8 5 / reserve a 10 / show a / remove a 0 / clear a / count a",
        "[3, 7, 8, 5, 2] / 3 / 0",
        0,
    ),
    // slice_calls
    (
        RUN,
        "let a = array 1 2 3 4 / let s = slice a 1 3 / append s 9 / pop s first / show s / rebase s / show s / show a",
        "2 / [3, 9] from 2 / [3, 9] / [1, 2, 3, 4]",
        0,
    ),
    // deque_ring
    (
        CENSUS,
        "let q = deque 1 2 3 4 / pop q first / pop q first / pop q first / append q 5 / append q 6 / append q 7 / show q / rotate q 1 / show q",
        "1 / 2 / 3 / [4, 5, 6, 7] / [5, 6, 7, 4] / copied 7 of at most 7",
        0,
    ),
    // deque_calls
    (
        CENSUS,
        "let q = deque 1 2 3 / prepend q 0 / insert q 2 7 / set q 0 5 / remove q 1 / pop q last / reserve q 8 / show q",
        "1 / 3 / [5, 7, 2] / copied 6 of at most 7",
        0,
    ),
    // set_one_home: all four have one home bucket of 8
    (
        CENSUS,
        "let s = set 1 9 17 / insert s 9 / insert s 25 / remove s 9 / has s 25 / has s 17 / show s",
        "false / true / 9 / true / true / [1, 17, 25] / copied 5 of at most 8",
        0,
    ),
    // set_algebra
    (
        CENSUS,
        "let s = set 1 2 3 / let u = set 3 4 / union s u / show s / inter s u / show s / let v = set 4 / minus s v / show s / symdiff s u / show s / update s 4 / update s 8 / subset v s / disjoint u v",
        "[1, 2, 3, 4] / [3, 4] / [3] / [4] / 4 / nil / true / false / copied 10 of at most 12",
        0,
    ),
    // set_algebra for oset
    (
        CENSUS,
        "let s = oset 1 2 3 / let u = oset 3 4 / union s u / show s / inter s u / show s / let v = oset 4 / minus s v / show s / symdiff s u / show s / update s 4 / update s 8 / subset v s / disjoint u v",
        "[1, 2, 3, 4] / [3, 4] / [3] / [4] / 4 / nil / true / false / copied 10 of at most 12",
        0,
    ),
    // oset_calls
    (
        CENSUS,
        "let o = oset 5 3 / append o 3 / append o 4 / insert o 0 9 / swap o 0 1 / reverse o / show o / remove o 5 / removeat o 0 / place o 9 / at o 9",
        "false / true / true / [4, 3, 9, 5] / 5 / 4 / 1 / ! out of range / copied 5 of at most 7",
        0,
    ),
    // odict_order
    (
        CENSUS,
        "let o = odict 2 20 1 10 3 30 / put o 1 11 / remove o 2 / show o / let p = odict 3 30 1 11 / equal o p / let x = dict 1 11 3 30 / let y = dict 3 30 1 11 / equal x y",
        "10 / 20 / [1: 11, 3: 30] / false / true / copied 20 of at most 21",
        0,
    ),
    // odict_calls
    (
        CENSUS,
        "let p = odict 1 10 2 20 / swap p 0 1 / show p / reverse p / removeat p 0 / at p 0",
        "[2: 20, 1: 10] / 1: 10 / 2: 20 / copied 4 of at most 4",
        0,
    ),
    // a set that a statement leaves the same still shares its storage, and copies nothing
    (
        CENSUS,
        "let s = set 1 2 3 / let t = s / union s t / inter s t / remove s 4 / show t",
        "nil / [1, 2, 3] / copied 3 of at most 16",
        0,
    ),
    // dict_put
    (
        CENSUS,
        "let d = dict 1 10 / put d 1 2 / put d 3 4 / show d / let e = dict / show e",
        "10 / nil / [1: 2, 3: 4] / [:] / copied 6 of at most 6",
        0,
    ),
    // stock
    (
        CENSUS,
        "let stock = dict \"nut\" 40 \"bolt\" 12 / let before = stock / put stock \"bolt\" 9 / put stock \"gear\" 3 / show before / show stock / equal before stock",
        "12 / nil / [\"bolt\": 12, \"nut\": 40] / [\"bolt\": 9, \"gear\": 3, \"nut\": 40] / false / copied 12 of at most 12",
        0,
    ),
    // dict_merge
    (
        RUN,
        "let d = dict 1 10 2 20 / let e = dict 2 21 3 30 / let f = d / merge d e keep / show d / merge f e take / show f / let w = set 1 3 / within d w / show d / remove d 3",
        "[1: 10, 2: 20, 3: 30] / [1: 10, 2: 21, 3: 30] / [1: 10, 3: 30] / 30",
        0,
    ),
    // heap_ends
    (
        CENSUS,
        "let h = heap 2 1 2 3 / pop h max / pop h min / pop h max / pop h min / pop h max",
        "3 / 1 / 2 / 2 / nil / copied 4 of at most 4",
        0,
    ),
    // heap_calls
    (
        CENSUS,
        "let h = heap 4 1 3 / insert h 9 / peek h max / replace h min 7 / replace h max 0 / show h",
        "9 / 1 / 9 / [0, 3, 4, 7] / copied 6 of at most 6",
        0,
    ),
    // faults, each with its line
    (RUN, "let array = array", "line 1: bad name", 3),
    (RUN, "let a = array 01", "line 1: bad atom", 3),
    (RUN, "let a = array \"", "line 1: bad atom", 3),
    (RUN, "end", "line 1: bad fork", 3),
    (RUN, "let a = array 1 / fork", "line 2: bad fork", 3),
    (CENSUS, "show a / show", "line 2: bad word", 3),
    // a text with an escape
    (
        RUN,
        "#cow 1 / let a = array \"x\\\"y\" / show a",
        "[\"x\\\"y\"]",
        0,
    ),
    // lines that aren't built
    (RUN, "let s = tset 1", "line 1: not built", 9),
    (
        CENSUS,
        "let a = array 1 / show a / lazy a 0 show / let t = tdict 1 2",
        "line 4: not built",
        9,
    ),
    // a fault comes before a line that isn't built
    (RUN, "let s = tset 1 / show", "line 2: bad word", 3),
];

const RUN: &[&str] = &["run"];

pub const CENSUS: &[&str] = &["run", "--census"];

#[test]
fn worked_rows_print_their_text(rt: HostRuntime) -> Result<(), Fail> {
    let alloc = rt.alloc();
    for (words, row, text, code) in ROWS {
        let script = lines(alloc, row)?;
        let ran = run_with(&rt, alloc, words, script.as_slice())?;
        let wanted = lines(alloc, text)?;
        assert_eq!(rt; ran.ended.status.code(), *code, "at {row}");
        assert_eq!(rt; ran.text.as_slice(), wanted.as_slice(), "at {row}");
    }
    Ok(())
}

/// Words that are no option at this stage.
const NO_OPTIONS: [&[&str]; 7] = [
    &[],
    &["run", "--workers", "0"],
    &["run", "--census", "--census"],
    &["--census"],
    &["run", "run"],
    &["Run"],
    &["judge"],
];

#[test]
fn words_that_are_no_option_give_the_usage_line(rt: HostRuntime) -> Result<(), Fail> {
    for words in NO_OPTIONS {
        let ran = run_with(&rt, rt.alloc(), words, b"show a")?;
        assert_eq!(rt; ran.ended.status, Status::Usage);
        assert_eq!(rt; ran.ended.status.code(), 2);
        assert_eq!(rt; ran.text.as_slice(), USAGE);
    }
    Ok(())
}

/// The fault of a script of 1,048,577 bytes or more.
const TOO_LONG: ParseFault = ParseFault::Limit {
    line: 0,
    quantity: 1_048_577,
    bound: 1_048_576,
};

#[test]
fn the_length_of_a_script_is_limited(rt: HostRuntime) -> Result<(), Fail> {
    let alloc = rt.alloc();
    let text = b"line 0: 1048577 is over the limit of 1048576\n";
    let mut script = vec![in alloc; b' '; 1_048_577]?;
    let ran = run_with(&rt, alloc, RUN, script.as_slice())?;
    assert_eq!(rt; ran.ended.status, Status::Script(TOO_LONG));
    assert_eq!(rt; ran.ended.status.code(), 3);
    assert_eq!(rt; ran.text.as_slice(), text.as_slice());
    // An early line that is faulty changes nothing.
    script[0] = b'?';
    let ran = run_with(&rt, alloc, CENSUS, script.as_slice())?;
    assert_eq!(rt; ran.ended.status, Status::Script(TOO_LONG));
    let newlines = vec![in alloc; b'\n'; 1_048_576]?;
    let ran = run_with(&rt, alloc, RUN, newlines.as_slice())?;
    assert_eq!(rt; ran.ended.status, Status::Ok);
    assert_eq!(rt; ran.text.len(), 0);
    Ok(())
}

/// Scripts of every form, odd ones, and refused statements among them.
const SCRIPTS: [&[u8]; 48] = [
    b"let a = array 1\nlet a = array 2 3\nshow a\n",
    b"let a = array 1\nlet a = a\nappend a 2\nshow a\n",
    b"let a = array 1\nlet b = a\nlet c = b\nappend a 2\nappend c 3\nshow a\nshow b\nshow c\n",
    b"let a = array 1\nlet b = a\nlet a = array\nshow a\nshow b\n",
    b"show a\n",
    b"append a 1\n",
    b"let a = b\nshow a\n",
    b"let a = array 1\nlet a = b\nshow a\n",
    b"\n\n  \nlet a = array\n\nshow a\n \n",
    b"   let   a  =   array    1   2  \n  show    a  ",
    b"let a = array 1\nshow a\nshow a\nshow a",
    b"let a = array -1 -2 -300\nappend a -4\nshow a",
    b"let abcdefghijklmnop = array 1\nshow abcdefghijklmnop",
    b"let abcdefghijklmnopq = array 1\n",
    b"let a_1 = array\nlet z9_ = a_1\nshow z9_",
    b"let _a = array\n",
    b"let 1a = array\n",
    b"let A = array\n",
    b"let a-b = array\n",
    b"let set = array\n",
    b"let as = array\n",
    b"let copy = array\n",
    b"let arrays = array\nshow arrays",
    b"let a = array array\n",
    b"let a = arrays\n",
    b"let a = tset 1\n",
    b"let a = slice b 0 1\n",
    b"let a array 1\n",
    b"let a == array 1\n",
    b"let a =array 1\n",
    b"let a = array 01\n",
    b"let a = array -0\n",
    b"let a = array +1\n",
    b"let a = array 1.5\n",
    b"let a = array -\n",
    b"let a = array 0x1\n",
    b"let a = array \"x\"\n",
    b"let a = array 9223372036854775808\n",
    b"let a = array -9223372036854775809\n",
    b"let a = array 99999999999999999999999\n",
    b"let a = array 1\r\n",
    b"let a = array\t1\n",
    b"let\n",
    b"let a\n",
    b"let a =\n",
    b"append a\n",
    b"append a 1 2\n",
    b"show a b\n",
];

#[test]
fn the_program_is_the_plain_program_of_the_definitions(rt: HostRuntime) -> Result<(), Fail> {
    for script in SCRIPTS {
        assert!(rt; is_as_defined(&rt, rt.alloc(), script)?, "{script:?}");
    }
    Ok(())
}

#[test]
fn a_value_has_at_most_65536_elements(rt: HostRuntime) -> Result<(), Fail> {
    let alloc = rt.alloc();
    let mut script = array_line(alloc, "a", "1", 65_536)?;
    script.extend_from_slice(b"append a 1\ncount a\nlet b = a\nappend b 4\nappend z 5\n")?;
    let ran = run_with(&rt, alloc, RUN, script.as_slice())?;
    assert_eq!(rt; ran.ended.status, Status::Ok);
    assert_eq!(rt;
        ran.text.as_slice(),
        b"! full\n65536\n! full\n! no name\n".as_slice()
    );
    let script = array_line(alloc, "a", "1", 65_537)?;
    let ran = run_with(&rt, alloc, RUN, script.as_slice())?;
    assert_eq!(rt; ran.ended.status.code(), 3);
    assert_eq!(rt;
        ran.text.as_slice(),
        b"line 1: 65537 is over the limit of 65536\n".as_slice()
    );
    Ok(())
}

#[test]
fn a_block_has_at_most_64_names(rt: HostRuntime) -> Result<(), Fail> {
    let alloc = rt.alloc();
    let mut script = Vec::new(alloc);
    for name in 10..74 {
        script.extend_from_slice(format!(in alloc; "let n{name} = array {name}\n")?.as_bytes())?;
    }
    script.extend_from_slice(
        b"let x = array\nlet x = n10\nlet x = y\nlet n73 = n10\nshow n73\nshow x\n",
    )?;
    let ran = run_with(&rt, alloc, RUN, script.as_slice())?;
    assert_eq!(rt; ran.ended.status, Status::Ok);
    let text = b"! full\n! full\n! no name\n[10]\n! no name\n";
    assert_eq!(rt; ran.text.as_slice(), text.as_slice());
    assert!(rt; is_as_defined(&rt, alloc, script.as_slice())?);
    Ok(())
}

#[test]
fn show_fills_its_room_to_the_last_byte(rt: HostRuntime) -> Result<(), Fail> {
    let alloc = rt.alloc();
    // Its line has 65,535 * 14 + 13 digits, 65,535 commas with spaces, two brackets and a newline: a
    // quarter of the room.
    let mut script = array_line(alloc, "a", "12345678901234", 65_535)?;
    script.extend_from_slice(b"append a 1234567890123\nlet b = array\n")?;
    script.extend_from_slice(b"show a\nshow a\nshow a\nshow a\nshow b\nshow z\n")?;
    let ran = run_with(&rt, alloc, RUN, script.as_slice())?;
    assert_eq!(rt; ran.ended.status, Status::Ok);
    let refused = b"! text full\n! no name\n";
    assert_eq!(rt; ran.text.len(), 4_194_304 + refused.len());
    assert!(rt; ran.text.as_slice().ends_with(refused));
    Ok(())
}

const DEVICES: &[u8] = b"let a = array 1 2\nshow a\nshow z\n";

const DEVICES_TEXT: &[u8] = b"[1, 2]\n! no name\ncopied 2 of at most 2\n";

/// Sources by the most bytes of a call, with the number of calls that read the script and its end.
const SOURCES: [(usize, u64); 3] = [(1, 33), (2, 17), (7, 6)];

/// Sinks by the most bytes of a call, with how many bytes are taken before each call.
const SINKS: [(usize, &[usize]); 2] = [
    (
        1,
        &[
            0, 1, 2, 3, 4, 5, 6, 7, 8, 9, 10, 11, 12, 13, 14, 15, 16, 17, 18, 19, 20, 21, 22, 23,
            24, 25, 26, 27, 28, 29, 30, 31, 32, 33, 34, 35, 36, 37, 38,
        ],
    ),
    (3, &[0, 3, 6, 7, 10, 13, 16, 17, 20, 23, 26, 29, 32, 35, 38]),
];

#[test]
fn sources_that_fail_at_each_call_leave_nothing(rt: HostRuntime) -> Result<(), Fail> {
    let alloc = rt.alloc();
    for (most, calls) in SOURCES {
        for failing in 1..calls + 2 {
            let mut source = MemorySource {
                bytes: Vec::from_slice(alloc, DEVICES)?,
                at: 0,
                most,
                calls: 0,
                failing: vec![in alloc; failing]?,
                faults: 0,
            };
            let mut sink = sink_of(alloc, 1_000, usize::MAX, Vec::new(alloc))?;
            let status = run_on(&rt, alloc, CENSUS, &mut source, &mut sink, &OpenGate).status;
            if failing <= calls {
                assert_eq!(rt; status, Status::ReadFault);
                assert_eq!(rt; status.code(), 4);
                assert_eq!(rt; sink.calls, 0);
            } else {
                assert_eq!(rt; status, Status::Ok);
                assert_eq!(rt; sink.bytes.as_slice(), DEVICES_TEXT);
            }
        }
    }
    Ok(())
}

#[test]
fn sinks_that_fail_at_each_call_have_a_prefix(rt: HostRuntime) -> Result<(), Fail> {
    let alloc = rt.alloc();
    for (most, before) in SINKS {
        for (call, taken) in before.iter().enumerate() {
            let mut source = PlainSource {
                bytes: Vec::from_slice(alloc, DEVICES)?,
                at: 0,
            };
            let mut sink = sink_of(alloc, 1_000, most, vec![in alloc; call as u64 + 1]?)?;
            let status = run_on(&rt, alloc, CENSUS, &mut source, &mut sink, &OpenGate).status;
            assert_eq!(rt; status, Status::WriteFault);
            assert_eq!(rt; status.code(), 5);
            assert_eq!(rt; Some(sink.bytes.as_slice()), DEVICES_TEXT.get(..*taken));
        }
    }
    Ok(())
}

#[test]
fn a_whole_piece_a_statement_is_written_before_the_next_runs(rt: HostRuntime) -> Result<(), Fail> {
    let alloc = rt.alloc();
    let mut source = PlainSource {
        bytes: Vec::from_slice(alloc, b"let a = array 1\nshow a\nshow a\n")?,
        at: 0,
    };
    let mut sink = sink_of(alloc, 1_000, usize::MAX, vec![in alloc; 2]?)?;
    let status = run_on(&rt, alloc, RUN, &mut source, &mut sink, &OpenGate).status;
    assert_eq!(rt; status, Status::WriteFault);
    assert_eq!(rt; sink.calls, 2);
    assert_eq!(rt; sink.bytes.as_slice(), b"[1]\n".as_slice());
    Ok(())
}
