use cow_script::{ParseFault, ParseStop, parse};
use std::alloc::Global;
use std::test::Fail;

// One line of each form, and a fork with a task.
const EVERY_FORM: &[u8] = b"#cow 1

# every form once
let a = array 1 \"x \\\"y\\\"\" -2
let b = a
let s = slice a 0 2
append a 3
insert a 3
insert a 0 3
at a 0
set a 0 -9223372036854775808
pop a last
replace a min 1
swap a 0 1
splice a 0 1 7 8 9
extend a b
put a 1 2
merge a b take
lazy a 0 first
fork
task copy a s take b
give a as c
end
end
show a";

fn fault_of(alloc: Global, script: &[u8]) -> Option<ParseFault> {
    match parse(alloc, script) {
        Err(ParseStop::Fault(fault)) => Some(fault),
        _ => None,
    }
}

#[test]
fn every_form_is_read(rt: HostRuntime) -> Result<(), Fail> {
    let script = parse(rt.alloc(), EVERY_FORM).ok().ok_or("a script")?;
    assert_eq!(rt; script.statements.len(), 18);
    Ok(())
}

#[test]
fn the_first_faulty_line_is_told(rt: HostRuntime) {
    let alloc = rt.alloc();
    let bad_name = Some(ParseFault::BadName { line: 1 });
    let bad_atom = Some(ParseFault::BadAtom { line: 2 });
    assert_eq!(rt; fault_of(alloc, b"let array = array\nend"), bad_name);
    assert_eq!(rt; fault_of(alloc, b"\nlet a = array 01\nend"), bad_atom);
    assert_eq!(rt; fault_of(alloc, b"\nlet a = dict 1 2 3"), bad_atom);
}

#[test]
fn an_open_fork_is_told_by_its_line(rt: HostRuntime) {
    let open = Some(ParseFault::ForkShape { line: 2 });
    assert_eq!(rt;
        fault_of(rt.alloc(), b"let a = array 1\nfork\ntask\n"),
        open
    );
}
