// Worked rows of lazy statements: what is printed, how many copies are made, and how often each rule is asked.
use crate::lines::lines;
use crate::program::{CENSUS, run_with};
use cow_run::Status;
use std::test::Fail;

/// A script, what it prints, and how often each rule was asked.
const ROWS: &[(&str, &str, [u64; 5])] = &[
    // lazy_asks: rule 3 was asked 3 times and then 4 times
    (
        "let a = array 1 3 4 6 / lazy a 3 first / lazy a 3 count / lazy a 0 show",
        "4 / 2 / [2, 4, 5, 7] / copied 9 of at most 9",
        [4, 0, 0, 7, 0],
    ),
    // a text passes a map unasked, and a filter drops it
    (
        "let a = array \"x\" 1 / lazy a 0 first / lazy a 3 first / lazy a 5 count",
        "\"x\" / nil / ! no rule / copied 3 of at most 4",
        [0, 0, 0, 1, 0],
    ),
    // a map isn't asked for its number
    (
        "let a = array 7 8 9 / lazy a 2 count / lazy a 1 show / lazy a 4 count",
        "3 / [-7, -8, -9] / 3 / copied 6 of at most 6",
        [0, 3, 0, 0, 3],
    ),
    // the name first, then the kind, then the rule
    (
        "let s = set 1 / lazy z 9 show / lazy s 9 show / lazy s 3 show / let a = array / lazy a -1 show / lazy a 3 first",
        "! no name / ! wrong kind / ! wrong kind / ! no rule / nil / copied 1 of at most 2",
        [0; 5],
    ),
    // a view shares the storage, so the rule allows a copy afterwards; none is made, since the view has ended
    (
        "let a = array 1 2 / lazy a 0 first / append a 3 / show a",
        "2 / [1, 2, 3] / copied 4 of at most 6",
        [1, 0, 0, 0, 0],
    ),
    // the rule stops at the ends of 64 bits, and a shared array is looked at where it stands
    (
        "let a = array 9223372036854775807 -9223372036854775808 / let b = a / lazy a 0 show / lazy b 1 show",
        "[9223372036854775807, -9223372036854775807] / [-9223372036854775807, 9223372036854775807] / copied 6 of at most 6",
        [2, 2, 0, 0, 0],
    ),
];

#[test]
fn lazy_statements_ask_no_more_than_they_show(rt: HostRuntime) -> Result<(), Fail> {
    let alloc = rt.alloc();
    for (row, text, asked) in ROWS {
        let script = lines(alloc, row)?;
        let ran = run_with(&rt, alloc, CENSUS, script.as_slice())?;
        let wanted = lines(alloc, text)?;
        assert_eq!(rt; ran.ended.status, Status::Ok, "at {row}");
        assert_eq!(rt; ran.text.as_slice(), wanted.as_slice(), "at {row}");
        assert_eq!(rt; ran.ended.asked, *asked, "at {row}");
    }
    Ok(())
}

#[test]
fn a_view_without_room_for_its_line_has_asked_all(rt: HostRuntime) -> Result<(), Fail> {
    let alloc = rt.alloc();
    // Its line is a little longer than a quarter of the room.
    let mut script = Vec::from_slice(alloc, b"let a = array")?;
    for _ in 0..65_536 {
        script.extend_from_slice(b" 12345678901234")?;
    }
    script.extend_from_slice(b"\nshow a\nshow a\nshow a\nlazy a 0 show\nlazy a 0 first\n")?;
    let ran = run_with(&rt, alloc, &["run"], script.as_slice())?;
    assert_eq!(rt; ran.ended.status, Status::Ok);
    let refused = b"! text full\n12345678901235\n";
    assert_eq!(rt; ran.text.len(), 3 * 1_048_577 + refused.len());
    assert!(rt; ran.text.as_slice().ends_with(refused));
    assert_eq!(rt; ran.ended.asked, [65_537, 0, 0, 0, 0]);
    Ok(())
}
