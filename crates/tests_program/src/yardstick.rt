// Worked rows: what the definitions say of them, run. ` / ` stands for the end of a line.
use crate::lines::lines;
use cow_model::Shape;
use cow_plain::{Told, run_script};
use std::alloc::Global;
use std::test::Fail;

/// The five rules of the program.
pub const RULES: [Shape; 5] = [
    Shape::Add(1),
    Shape::Negate,
    Shape::Add(10),
    Shape::Even,
    Shape::Below(100),
];

// A script and what it prints.
const ROWS: &[(&str, &str)] = &[
    // append_to_copy
    (
        "let a = array 1 2 3 / let b = a / append b 4 / show a / show b",
        "[1, 2, 3] / [1, 2, 3, 4]",
    ),
    ("", ""),
    // assign_copies_nothing
    ("let a = array 1 2 3 / let b = a / show b", "[1, 2, 3]"),
    // slice_keeps_indices
    (
        "let a = array 10 20 30 40 50 / let s = slice a 2 4 / set s 2 31 / show s / show a / get s 1",
        "[31, 40] from 2 / [10, 20, 30, 40, 50] / ! out of range",
    ),
    // extend_self
    ("let a = array 1 2 / extend a a / show a", "[1, 2, 1, 2]"),
    // empty_array
    (
        "let a = array / pop a last / remove a 0 / remove a \"x\" / pop a min / show a",
        "nil / ! out of range / ! wrong kind / ! wrong kind / []",
    ),
    // deque_ring
    (
        "let q = deque 1 2 3 4 / pop q first / pop q first / pop q first / append q 5 / append q 6 / append q 7 / show q / rotate q 1 / show q",
        "1 / 2 / 3 / [4, 5, 6, 7] / [5, 6, 7, 4]",
    ),
    // set_one_home
    (
        "let s = set 1 9 17 / insert s 9 / insert s 25 / remove s 9 / has s 25 / has s 17 / show s",
        "false / true / 9 / true / true / [1, 17, 25]",
    ),
    // dict_put
    (
        "let d = dict 1 10 / put d 1 2 / put d 3 4 / show d / let e = dict / show e",
        "10 / nil / [1: 2, 3: 4] / [:]",
    ),
    // odict_order
    (
        "let o = odict 2 20 1 10 3 30 / put o 1 11 / remove o 2 / show o / let p = odict 3 30 1 11 / equal o p / let x = dict 1 11 3 30 / let y = dict 3 30 1 11 / equal x y",
        "10 / 20 / [1: 11, 3: 30] / false / true",
    ),
    // heap_ends
    (
        "let h = heap 2 1 2 3 / pop h max / pop h min / pop h max / pop h min / pop h max",
        "3 / 1 / 2 / 2 / nil",
    ),
    // tdict_lift
    (
        "let m = tdict 0 1 32 2 / remove m 32 / show m",
        "2 / [0: 1]",
    ),
    // tset_collisions
    (
        "let t = tset 0 -1 4294967297 / remove t -1 / show t / remove t 0 / show t / let u = tset 2166136261 \"\" / has u \"\" / remove u 2166136261 / show u",
        "-1 / [0, 4294967297] / 0 / [4294967297] / true / 2166136261 / [\"\"]",
    ),
    // fork_two_copies
    (
        "let a = array 1 / fork / task copy a / append a 2 / show a / give a as b / end / task copy a / append a 3 / show a / give a as c / end / end / show a / show b / show c",
        "[1, 2] / [1, 3] / [1] / [1, 2] / [1, 3]",
    ),
    // fork_copy_take
    (
        "let c = array 1 2 / fork / task copy c / append c 3 / show c / end / task take c / append c 4 / show c / end / end / show c",
        "[1, 2, 3] / [1, 2, 4] / ! no name",
    ),
    // lazy_asks
    (
        "let a = array 1 3 4 6 / lazy a 3 first / lazy a 3 count / lazy a 0 show",
        "4 / 2 / [2, 4, 5, 7]",
    ),
    // array_calls
    (
        "let a = array 3 1 2 / insert a 1 9 / swap a 0 3 / reverse a / splice a 1 3 7 8 5 / reserve a 10 / show a / remove a 0 / clear a / count a",
        "[3, 7, 8, 5, 2] / 3 / 0",
    ),
    // slice_calls
    (
        "let a = array 1 2 3 4 / let s = slice a 1 3 / append s 9 / pop s first / show s / rebase s / show s / show a",
        "2 / [3, 9] from 2 / [3, 9] / [1, 2, 3, 4]",
    ),
    // deque_calls
    (
        "let q = deque 1 2 3 / prepend q 0 / insert q 2 7 / set q 0 5 / remove q 1 / pop q last / reserve q 8 / show q",
        "1 / 3 / [5, 7, 2]",
    ),
    // set_algebra_set
    (
        "let s = set 1 2 3 / let u = set 3 4 / union s u / show s / inter s u / show s / let v = set 4 / minus s v / show s / symdiff s u / show s / update s 4 / update s 8 / subset v s / disjoint u v",
        "[1, 2, 3, 4] / [3, 4] / [3] / [4] / 4 / nil / true / false",
    ),
    // set_algebra_oset
    (
        "let s = oset 1 2 3 / let u = oset 3 4 / union s u / show s / inter s u / show s / let v = oset 4 / minus s v / show s / symdiff s u / show s / update s 4 / update s 8 / subset v s / disjoint u v",
        "[1, 2, 3, 4] / [3, 4] / [3] / [4] / 4 / nil / true / false",
    ),
    // set_algebra_tset
    (
        "let s = tset 1 2 3 / let u = tset 3 4 / union s u / show s / inter s u / show s / let v = tset 4 / minus s v / show s / symdiff s u / show s / update s 4 / update s 8 / subset v s / disjoint u v",
        "[1, 2, 3, 4] / [3, 4] / [3] / [4] / 4 / nil / true / false",
    ),
    // dict_merge_dict
    (
        "let d = dict 1 10 2 20 / let e = dict 2 21 3 30 / let f = d / merge d e keep / show d / merge f e take / show f / let w = set 1 3 / within d w / show d / remove d 3",
        "[1: 10, 2: 20, 3: 30] / [1: 10, 2: 21, 3: 30] / [1: 10, 3: 30] / 30",
    ),
    // dict_merge_tdict
    (
        "let d = tdict 1 10 2 20 / let e = tdict 2 21 3 30 / let f = d / merge d e keep / show d / merge f e take / show f / let w = set 1 3 / within d w / show d / remove d 3",
        "[1: 10, 2: 20, 3: 30] / [1: 10, 2: 21, 3: 30] / [1: 10, 3: 30] / 30",
    ),
    // oset_calls
    (
        "let o = oset 5 3 / append o 3 / append o 4 / insert o 0 9 / swap o 0 1 / reverse o / show o / remove o 5 / removeat o 0 / place o 9 / at o 9",
        "false / true / true / [4, 3, 9, 5] / 5 / 4 / 1 / ! out of range",
    ),
    // odict_calls
    (
        "let p = odict 1 10 2 20 / swap p 0 1 / show p / reverse p / removeat p 0 / at p 0",
        "[2: 20, 1: 10] / 1: 10 / 2: 20",
    ),
    // heap_calls
    (
        "let h = heap 4 1 3 / insert h 9 / peek h max / replace h min 7 / replace h max 0 / show h",
        "9 / 1 / 9 / [0, 3, 4, 7]",
    ),
    // no_such_name
    ("let a = array 1 / append z 2 / show a", "! no name / [1]"),
    // escapes
    ("#cow 1 / let a = array \"x\\\"y\" / show a", "[\"x\\\"y\"]"),
    // a_change_of_an_alone_value
    ("let a = array 1 2 3 / append a 4 / append a 5", ""),
    // the_same_element_again
    ("let a = array 1 2 / let b = a / set a 0 1 / set a 0 1", ""),
    // first_elements_of_a_shared_slice
    (
        "let a = array 1 2 3 / let s = slice a 0 3 / pop s first / pop s first",
        "1 / 2",
    ),
    // refused_statements
    (
        "let a = array 1 / let b = a / append z 1 / remove a 9",
        "! no name / ! out of range",
    ),
    // one_key_of_a_trie
    ("let t = tset 1 2 / let u = t / insert u 3", "true"),
    // a_lazy_look
    ("let a = array 1 2 / lazy a 0 first / append a 3", "2"),
    // a_value_beside_itself
    ("let a = array 1 / equal a a / append a 2", "true"),
    // a_pair_is_two
    ("let d = dict 1 2 / let e = d / put e 1 3", "2"),
];

// A script, and the copies that it makes, at least and at most.
const COPIES: &[(&str, u64, u64)] = &[
    // append_to_copy
    (
        "let a = array 1 2 3 / let b = a / append b 4 / show a / show b",
        3,
        7,
    ),
    ("", 0, 0),
    // assign_copies_nothing
    ("let a = array 1 2 3 / let b = a / show b", 3, 3),
    // slice_keeps_indices
    (
        "let a = array 10 20 30 40 50 / let s = slice a 2 4 / set s 2 31 / show s / show a / get s 1",
        5,
        9,
    ),
    // extend_self
    ("let a = array 1 2 / extend a a / show a", 2, 6),
    // fork_copy_take
    (
        "let c = array 1 2 / fork / task copy c / append c 3 / show c / end / task take c / append c 4 / show c / end / end / show c",
        2,
        8,
    ),
    // a_change_of_an_alone_value
    ("let a = array 1 2 3 / append a 4 / append a 5", 3, 5),
    // the_same_element_again
    (
        "let a = array 1 2 / let b = a / set a 0 1 / set a 0 1",
        2,
        8,
    ),
    // first_elements_of_a_shared_slice
    (
        "let a = array 1 2 3 / let s = slice a 0 3 / pop s first / pop s first",
        3,
        5,
    ),
    // refused_statements
    (
        "let a = array 1 / let b = a / append z 1 / remove a 9",
        1,
        3,
    ),
    // one_key_of_a_trie
    ("let t = tset 1 2 / let u = t / insert u 3", 2, 5),
    // a_lazy_look
    ("let a = array 1 2 / lazy a 0 first / append a 3", 2, 6),
    // a_value_beside_itself
    ("let a = array 1 / equal a a / append a 2", 1, 3),
    // a_pair_is_two
    ("let d = dict 1 2 / let e = d / put e 1 3", 2, 6),
];

fn told(alloc: Global, script: &str) -> Result<Told, Fail> {
    let bytes = lines(alloc, script)?;
    let said = run_script(alloc, &bytes, &RULES).ok().ok_or("memory")?;
    Ok(said.ok().ok_or("a script")?)
}

#[test]
fn each_worked_row_prints_its_text(rt: HostRuntime) -> Result<(), Fail> {
    for (script, text) in ROWS {
        let wanted = lines(rt.alloc(), text)?;
        let found = told(rt.alloc(), script)?;
        assert_eq!(rt; found.text.as_slice(), wanted.as_slice(), "at {script}");
    }
    Ok(())
}

#[test]
fn each_worked_row_makes_its_copies(rt: HostRuntime) -> Result<(), Fail> {
    for (script, least, most) in COPIES {
        let found = told(rt.alloc(), script)?;
        assert_eq!(rt; found.least, *least, "at {script}");
        assert_eq!(rt; found.bound, *most, "at {script}");
    }
    Ok(())
}
