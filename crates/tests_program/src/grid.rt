// Every statement on a value of every kind, and on a name that isn't there, against the plain program of the definitions.
use crate::random::runs_as_defined;
use std::alloc::{AllocError, Global};
use std::test::Fail;
use std::thread::Threads;

/// How a value of each kind is made, under the name that stands for N.
const MADE: &[&str] = &[
    "let N = array 3 1 2 1\n",
    "let f = array 9 3 1 2 8\nlet N = slice f 1 4\n",
    "let N = deque 3 1 2\n",
    "let N = set 1 33 \"x\" 4294967297 2\n",
    "let N = dict 1 10 33 \"x\" 4294967297 30 2 20\n",
    "let N = oset 33 1 2 4294967297\n",
    "let N = odict 33 30 1 10 2 20\n",
    "let N = heap 3 1 2 3\n",
];

/// The statements on one value: of each word one that mostly can be run, and one that mostly is refused.
const ALONE: &[&str] = &[
    "let d = N\n",
    "let d = slice N 1 2\n",
    "let d = slice N 1 9\n",
    "drop N\n",
    "show N\n",
    "count N\n",
    "append N 7\n",
    "append N 1\n",
    "prepend N 7\n",
    "insert N 7\n",
    "insert N 1\n",
    "insert N 1 7\n",
    "insert N 1 2\n",
    "insert N 9 7\n",
    "update N 7\n",
    "update N 1\n",
    "remove N 1\n",
    "remove N 9\n",
    "remove N \"x\"\n",
    "removeat N 1\n",
    "removeat N 9\n",
    "set N 1 7\n",
    "set N 9 7\n",
    "get N 1\n",
    "get N 9\n",
    "get N \"x\"\n",
    "at N 1\n",
    "at N 9\n",
    "has N 1\n",
    "has N 9\n",
    "place N 1\n",
    "place N 9\n",
    "pop N first\n",
    "pop N last\n",
    "pop N min\n",
    "pop N max\n",
    "peek N first\n",
    "peek N last\n",
    "peek N min\n",
    "peek N max\n",
    "replace N first 7\n",
    "replace N last 7\n",
    "replace N min 7\n",
    "replace N max 0\n",
    "swap N 0 1\n",
    "swap N 0 9\n",
    "reverse N\n",
    "rotate N 1\n",
    "rotate N 9\n",
    "splice N 0 1 7 8\n",
    "splice N 1 0 7\n",
    "reserve N 8\n",
    "reserve N 65537\n",
    "clear N\n",
    "rebase N\n",
    "put N 1 7\n",
    "put N 7 8\n",
];

/// The same of views, which no fork has.
const VIEWS: &[&str] = &[
    "lazy N 0 show\n",
    "lazy N 3 first\n",
    "lazy N 4 count\n",
    "lazy N 9 show\n",
];

/// The statements on two values, N and M.
const BOTH: &[&str] = &[
    "let N = M\n",
    "extend N M\n",
    "union N M\n",
    "inter N M\n",
    "minus N M\n",
    "symdiff N M\n",
    "subset N M\n",
    "disjoint N M\n",
    "equal N M\n",
    "merge N M keep\n",
    "merge N M take\n",
    "within N M\n",
];

/// What stands before and behind a statement: its first value is alone, one of two, or a value beside another that is.
const AROUND: &[(&str, &str)] = &[
    ("drop z\n", "show N\n"),
    ("drop z\nlet c = N\n", "show N\nshow c\n"),
    ("drop z\nlet c = M\n", "show N\nshow M\nshow c\n"),
];

/// A fork: what stands before the first task's statement, between it and the second task's, and behind that.
const FORK: (&str, &str, &str) = (
    "fork\ntask copy n m\n",
    "show n\ngive n as g\nend\ntask copy n m\n",
    "give n as h\nend\nend\nshow n\nshow g\nshow h\n",
);

/// A form, with these names.
fn put(form: &str, name: &str, other: &str, script: &mut Vec<u8>) -> Result<(), AllocError> {
    for byte in form.as_bytes() {
        match byte {
            b'N' => script.extend_from_slice(name.as_bytes())?,
            b'M' => script.extend_from_slice(other.as_bytes())?,
            byte => script.push(*byte)?,
        }
    }
    Ok(())
}

/// New values of two kinds, `n` and `m`.
fn put_values(kinds: (&str, &str), script: &mut Vec<u8>) -> Result<(), AllocError> {
    put(kinds.1, "m", "m", script)?;
    put(kinds.0, "n", "m", script)
}

/// A statement on new values of two kinds, and on a name that isn't there.
fn put_statement(
    form: &str,
    kinds: (&str, &str),
    around: &(&str, &str),
    script: &mut Vec<u8>,
) -> Result<(), AllocError> {
    put_values(kinds, script)?;
    put(around.0, "n", "m", script)?;
    put(form, "n", "m", script)?;
    put(form, "z", "n", script)?;
    put(form, "n", "z", script)?;
    put(around.1, "n", "m", script)
}

/// A fork with a statement on copies of two new values in each of its two tasks.
fn put_fork(form: &str, kinds: (&str, &str), script: &mut Vec<u8>) -> Result<(), AllocError> {
    put_values(kinds, script)?;
    put(FORK.0, "n", "m", script)?;
    put(form, "n", "m", script)?;
    put(FORK.1, "n", "m", script)?;
    put(form, "n", "n", script)?;
    put(FORK.2, "n", "m", script)
}

/// A script of statements on new values of two kinds, in each surrounding.
fn script_of(alloc: Global, forms: &[&str], kinds: (&str, &str)) -> Result<Vec<u8>, AllocError> {
    let mut script = Vec::new(alloc);
    for around in AROUND {
        for form in forms {
            put_statement(form, kinds, around, &mut script)?;
        }
    }
    Ok(script)
}

/// A script of forks with statements on values of two kinds.
fn forks_of(alloc: Global, forms: &[&str], kinds: (&str, &str)) -> Result<Vec<u8>, AllocError> {
    let mut script = Vec::new(alloc);
    for form in forms {
        put_fork(form, kinds, &mut script)?;
    }
    Ok(script)
}

/// Whether statements on values of two kinds, and these in forks, are run as the definitions say.
fn are_as_defined<R: Threads + Sync>(
    rt: &R,
    alloc: Global,
    forms: &[&str],
    kinds: (&str, &str),
) -> Result<bool, Fail> {
    let script = script_of(alloc, forms, kinds)?;
    if !runs_as_defined(rt, alloc, script.as_slice())? {
        return Ok(false);
    }
    let forks = forks_of(alloc, forms, kinds)?;
    runs_as_defined(rt, alloc, forks.as_slice())
}

/// The first kind of which a value that each of these statements is put to isn't run as the definitions say.
fn first_unlike<R: Threads + Sync>(rt: &R, alloc: Global) -> Result<Option<&'static str>, Fail> {
    for made in MADE {
        if !are_as_defined(rt, alloc, ALONE, (made, made))? {
            return Ok(Some(made));
        }
    }
    Ok(None)
}

/// The same of statements on two values: the first kind with which values of a kind aren't run so.
fn first_unlike_beside<R: Threads + Sync>(
    rt: &R,
    alloc: Global,
    made: &str,
) -> Result<Option<&'static str>, Fail> {
    for other in MADE {
        if !are_as_defined(rt, alloc, BOTH, (made, other))? {
            return Ok(Some(other));
        }
    }
    Ok(None)
}

#[test]
fn each_statement_on_a_value_of_each_kind_prints_what_the_definitions_say(
    rt: HostRuntime,
) -> Result<(), Fail> {
    assert_eq!(rt; first_unlike(&rt, rt.alloc())?, None);
    Ok(())
}

#[test]
fn each_statement_on_values_of_each_two_kinds_prints_what_the_definitions_say(
    rt: HostRuntime,
) -> Result<(), Fail> {
    for made in MADE {
        assert_eq!(rt;
            first_unlike_beside(&rt, rt.alloc(), made)?,
            None,
            "of {made}"
        );
    }
    Ok(())
}

#[test]
fn a_view_of_a_value_of_each_kind_prints_what_the_definitions_say(
    rt: HostRuntime,
) -> Result<(), Fail> {
    for made in MADE {
        let script = script_of(rt.alloc(), VIEWS, (made, made))?;
        assert!(rt;
            runs_as_defined(&rt, rt.alloc(), script.as_slice())?,
            "of {made}"
        );
    }
    Ok(())
}
