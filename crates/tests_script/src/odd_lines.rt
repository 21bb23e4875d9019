// Faulty and odd lines, each with what the language says of it: `ok` and the number of statements, or
// the first faulty line and what is wrong with it. Other rows show what was read.
use cow_model::{Capture, Kind, Literal, Name, ParseFault, Side, Statement, TaskBlock, Verb};
use cow_script::{ParseStop, parse};
use std::alloc::Global;
use std::test::Fail;

/// Scripts, each with what is said of it.
type Rows = &'static [(&'static str, &'static str)];

/// Bytes, blank lines, ends of lines.
const BYTES: Rows = &[
    ("", "ok 0"),
    ("\n", "ok 0"),
    ("\n\n", "ok 0"),
    ("   ", "ok 0"),
    (" \n  \n", "ok 0"),
    ("show a", "ok 1"),
    ("show a\n", "ok 1"),
    ("\nshow a\n\nshow b", "ok 2"),
    ("  show   a  ", "ok 1"),
    ("show a\n\n\nshow", "line 4: bad word"),
    ("show a\t", "line 1: bad word"),
    ("\tshow a", "line 1: bad word"),
    ("show\ta", "line 1: bad word"),
    ("show a\r\nshow b\r\n", "line 1: bad word"),
    ("\r", "line 1: bad word"),
    ("\n\r\n", "line 2: bad word"),
    ("show a\u{0}", "line 1: bad word"),
    ("show a\u{1f}", "line 1: bad word"),
    ("show a\u{7f}", "line 1: bad word"),
    ("show a\n \u{7f} ", "line 2: bad word"),
    ("# \u{7f}", "line 1: bad word"),
    ("# \u{e9}", "line 1: bad word"),
    ("#cow 1\t", "line 1: bad word"),
    ("#\t", "line 1: bad word"),
    ("# ~", "ok 0"),
    ("let a = array \"~\"", "ok 1"),
    ("let a = array \"\t\"", "line 1: bad word"),
    ("let a = array \"\u{7f}\"", "line 1: bad word"),
    ("let a = array \"\u{e9}\"", "line 1: bad word"),
];

/// Comments and the line `#cow 1`.
const COMMENTS: Rows = &[
    ("#", "ok 0"),
    ("# note", "ok 0"),
    ("#note", "ok 0"),
    ("  # note", "ok 0"),
    ("## \"open", "ok 0"),
    ("show a # note", "line 1: bad word"),
    ("append a 1 # note", "line 1: bad word"),
    ("let a = array 1 # note", "line 1: bad atom"),
    ("#cow 1", "ok 0"),
    ("#cow 1\nshow a", "ok 1"),
    ("  #cow   1  \n", "ok 0"),
    ("#cow", "line 1: bad word"),
    ("#cow 2", "line 1: bad word"),
    ("#cow 01", "line 1: bad word"),
    ("#cow 1 1", "line 1: bad word"),
    ("#cow 1 # note", "line 1: bad word"),
    ("#cow \"1\"", "line 1: bad word"),
    ("\n#cow 1", "line 2: bad word"),
    ("# note\n#cow 1", "line 2: bad word"),
    ("show a\n#cow 1", "line 2: bad word"),
    ("#cow 1\n#cow 1", "line 2: bad word"),
    ("show a\n#cow", "line 2: bad word"),
    ("#cow1", "ok 0"),
    ("show a\n#cow1 2", "ok 1"),
    ("#cowrun 7", "ok 0"),
    ("# cow 2", "ok 0"),
    ("#Cow 2", "ok 0"),
    ("\"#cow\" 1", "line 1: bad word"),
    ("fork\n#cow 1\nend", "line 2: bad word"),
    ("fork\n# note\n\ntask\n# note\nend\nend", "ok 1"),
];

/// First tokens that are no word of the language.
const FIRST_WORDS: Rows = &[
    ("shows a", "line 1: bad word"),
    ("Show a", "line 1: bad word"),
    ("SHOW a", "line 1: bad word"),
    ("showa", "line 1: bad word"),
    ("sho", "line 1: bad word"),
    ("let a = array 1 2\nappe", "line 2: bad word"),
    ("print a", "line 1: bad word"),
    ("discard a", "line 1: bad word"),
    ("insertat a 1 2", "line 1: bad word"),
    ("assign a b", "line 1: bad word"),
    ("array a", "line 1: bad word"),
    ("slice a 1 2", "line 1: bad word"),
    ("copy a", "line 1: bad word"),
    ("take a", "line 1: bad word"),
    ("keep a", "line 1: bad word"),
    ("first a", "line 1: bad word"),
    ("min a", "line 1: bad word"),
    ("as", "line 1: bad word"),
    ("= a", "line 1: bad word"),
    ("a = array", "line 1: bad word"),
    ("1", "line 1: bad word"),
    ("-", "line 1: bad word"),
    ("\"show\" a", "line 1: bad word"),
    ("\"show a", "line 1: bad word"),
    ("show, a", "line 1: bad word"),
    ("~", "line 1: bad word"),
];

/// Integers, as atoms and as positions.
const INTEGERS: Rows = &[
    ("append a 0", "ok 1"),
    ("append a -1", "ok 1"),
    ("append a 9223372036854775806", "ok 1"),
    ("append a 9223372036854775807", "ok 1"),
    ("append a 9223372036854775808", "line 1: bad atom"),
    ("append a -9223372036854775807", "ok 1"),
    ("append a -9223372036854775808", "ok 1"),
    ("append a -9223372036854775809", "line 1: bad atom"),
    ("append a 10000000000000000000", "line 1: bad atom"),
    ("append a 18446744073709551617", "line 1: bad atom"),
    ("append a -18446744073709551615", "line 1: bad atom"),
    ("append a 99999999999999999999999999", "line 1: bad atom"),
    ("append a -0", "line 1: bad atom"),
    ("append a 00", "line 1: bad atom"),
    ("append a 01", "line 1: bad atom"),
    ("append a -01", "line 1: bad atom"),
    ("append a +1", "line 1: bad atom"),
    ("append a -", "line 1: bad atom"),
    ("append a --1", "line 1: bad atom"),
    ("append a 1-", "line 1: bad atom"),
    ("append a 1x", "line 1: bad atom"),
    ("append a x1", "line 1: bad atom"),
    ("append a 0x1", "line 1: bad atom"),
    ("append a 1.5", "line 1: bad atom"),
    ("append a 1e3", "line 1: bad atom"),
    ("append a 1_000", "line 1: bad atom"),
    ("append a 1,", "line 1: bad atom"),
    ("append a /", "line 1: bad atom"),
    ("append a :", "line 1: bad atom"),
    ("removeat a 0", "ok 1"),
    ("removeat a -9223372036854775808", "ok 1"),
    ("removeat a 9223372036854775807", "ok 1"),
    ("removeat a 9223372036854775808", "line 1: bad atom"),
    ("removeat a -0", "line 1: bad atom"),
    ("at a \"1\"", "line 1: bad atom"),
    ("at a x", "line 1: bad atom"),
    ("rotate a 01", "line 1: bad atom"),
    ("reserve a +1", "line 1: bad atom"),
    ("reserve a 65537", "ok 1"),
    ("lazy a 99 show", "ok 1"),
    ("lazy a -1 show", "ok 1"),
];

/// Texts: quotes and escapes.
const TEXTS: Rows = &[
    (r#"append a """#, "ok 1"),
    (r#"append a "x""#, "ok 1"),
    (r#"append a " ""#, "ok 1"),
    (r#"append a "x y""#, "ok 1"),
    (r#"append a "x"  "#, "ok 1"),
    (r##"append a "# no note""##, "ok 1"),
    (r#"append a "\"""#, "ok 1"),
    (r#"append a "\\""#, "ok 1"),
    (r#"append a "\\\"""#, "ok 1"),
    (r#"append a "a"b"#, "line 1: bad atom"),
    (r#"append a "a"1"#, "line 1: bad atom"),
    (r#"append a "a""b""#, "line 1: bad atom"),
    (r#"append a """""#, "line 1: bad atom"),
    (r#"append a """"#, "line 1: bad atom"),
    (r#"append a "a b"c d"#, "line 1: bad atom"),
    (r#"append a ""#, "line 1: bad atom"),
    (r#"append a "x"#, "line 1: bad atom"),
    (r#"append a "x y"#, "line 1: bad atom"),
    (r#"append a "x \" y"#, "line 1: bad atom"),
    (r#"append a x""#, "line 1: bad atom"),
    (r#"append a x"y""#, "line 1: bad atom"),
    (r#"append a 'x'"#, "line 1: bad atom"),
    (r#"append a "\n""#, "line 1: bad atom"),
    (r#"append a "\x41""#, "line 1: bad atom"),
    (r#"append a "\ ""#, "line 1: bad atom"),
    (r#"append a "\"#, "line 1: bad atom"),
    (r#"append a "\""#, "line 1: bad atom"),
    (r#"append a "\\"""#, "line 1: bad atom"),
    (r#"append a "\\\""#, "line 1: bad atom"),
    (r#"append a "\a" 1"#, "line 1: bad atom"),
    (r#"append a "x" y"#, "line 1: bad word"),
    (r#"append a "x" "y""#, "line 1: bad word"),
    (r#"append a "x y" z"#, "line 1: bad word"),
    (r#"append "a" 1"#, "line 1: bad name"),
    (r#"append "a 1"#, "line 1: bad name"),
    (r#"show "a""#, "line 1: bad name"),
    (r#"pop a "first""#, "line 1: bad word"),
    (r#"merge a b "keep""#, "line 1: bad word"),
    (r#"let a "=" array"#, "line 1: bad word"),
    (r#"let a = "array""#, "line 1: bad name"),
    (r#"let a = array "x" "y z" 1"#, "ok 1"),
    (r#"let a = array "x"y" "z""#, "line 1: bad atom"),
    (r#"let a = array "x" y" z"#, "line 1: bad atom"),
    (r#"let a = array "x\" "y""#, "line 1: bad atom"),
    (r#"let a = array"x""#, "line 1: bad name"),
];

/// Names and words that are none.
const NAMES: Rows = &[
    ("show a", "ok 1"),
    ("show a1", "ok 1"),
    ("show a_", "ok 1"),
    ("show z9_0", "ok 1"),
    ("show abcdefghijklmnop", "ok 1"),
    ("show abcdefghijklmnopq", "line 1: bad name"),
    ("show a234567890123456", "ok 1"),
    ("show a2345678901234567", "line 1: bad name"),
    ("show A", "line 1: bad name"),
    ("show aB", "line 1: bad name"),
    ("show 1a", "line 1: bad name"),
    ("show 5", "line 1: bad name"),
    ("show -1", "line 1: bad name"),
    ("show _a", "line 1: bad name"),
    ("show _", "line 1: bad name"),
    ("show a-b", "line 1: bad name"),
    ("show a.b", "line 1: bad name"),
    ("show a`", "line 1: bad name"),
    ("show a{", "line 1: bad name"),
    ("show #a", "line 1: bad name"),
    ("show =", "line 1: bad name"),
    ("show array", "line 1: bad name"),
    ("show slice", "line 1: bad name"),
    ("show deque", "line 1: bad name"),
    ("show set", "line 1: bad name"),
    ("show dict", "line 1: bad name"),
    ("show oset", "line 1: bad name"),
    ("show odict", "line 1: bad name"),
    ("show heap", "line 1: bad name"),
    ("show tset", "line 1: bad name"),
    ("show tdict", "line 1: bad name"),
    ("show copy", "line 1: bad name"),
    ("show take", "line 1: bad name"),
    ("show as", "line 1: bad name"),
    ("show arrays", "ok 1"),
    ("show tsets", "ok 1"),
    ("show ass", "ok 1"),
    ("show show", "ok 1"),
    ("show let", "ok 1"),
    ("show end", "ok 1"),
    ("show keep", "ok 1"),
    ("show first", "ok 1"),
    ("let set = array", "line 1: bad name"),
    ("let end = array", "ok 1"),
    ("union a set", "line 1: bad name"),
    ("union set a", "line 1: bad name"),
    ("extend a 5", "line 1: bad name"),
    ("within a B", "line 1: bad name"),
    ("merge a take take", "line 1: bad name"),
    ("merge a keep keep", "ok 1"),
    ("fork\ntask\ngive a as as\nend\nend", "line 3: bad name"),
    ("fork\ntask\ngive as as a\nend\nend", "line 3: bad name"),
];

/// The forms of `let`.
const LETS: Rows = &[
    ("let", "line 1: bad word"),
    ("let a", "line 1: bad word"),
    ("let a =", "line 1: bad word"),
    ("let =", "line 1: bad name"),
    ("let = array", "line 1: bad name"),
    ("let 5 5 5", "line 1: bad name"),
    ("let a 5 5", "line 1: bad word"),
    ("let a array 1", "line 1: bad word"),
    ("let a == array", "line 1: bad word"),
    ("let a =array", "line 1: bad word"),
    ("let a=array", "line 1: bad name"),
    ("let a= array", "line 1: bad name"),
    ("let a = = array", "line 1: bad name"),
    ("let a = 5", "line 1: bad name"),
    ("let a = \"x\"", "line 1: bad name"),
    ("let a = copy", "line 1: bad name"),
    ("let a = copy b", "line 1: bad name"),
    ("let a = take", "line 1: bad name"),
    ("let a = as", "line 1: bad name"),
    ("let a = A", "line 1: bad name"),
    ("let a = Array", "line 1: bad name"),
    ("let a = keep", "ok 1"),
    ("let a = b", "ok 1"),
    ("let a = a", "ok 1"),
    ("let a = b c", "line 1: bad word"),
    ("let a = b 1", "line 1: bad word"),
    ("let a = arrays 1", "line 1: bad word"),
    ("let a = array array", "line 1: bad atom"),
    ("let a = array b", "line 1: bad atom"),
    ("let a = array 1 2 x 3", "line 1: bad atom"),
    ("let a = array", "ok 1"),
    ("let a = deque", "ok 1"),
    ("let a = set", "ok 1"),
    ("let a = dict", "ok 1"),
    ("let a = oset", "ok 1"),
    ("let a = odict", "ok 1"),
    ("let a = heap", "ok 1"),
    ("let a = tset", "ok 1"),
    ("let a = tdict", "ok 1"),
    ("let a = slice", "line 1: bad word"),
    ("let a = slice b", "line 1: bad word"),
    ("let a = slice b 1", "line 1: bad word"),
    ("let a = slice b 1 2", "ok 1"),
    ("let a = slice b 1 2 3", "line 1: bad word"),
    ("let a = slice b -1 -2", "ok 1"),
    ("let a = slice b x 2", "line 1: bad atom"),
    ("let a = slice b 1 x", "line 1: bad atom"),
    ("let a = slice b \"1\" 2", "line 1: bad atom"),
    ("let a = slice 1 2 3", "line 1: bad name"),
    ("let a = slice array 0 1", "line 1: bad name"),
    ("let a = slice slice 0 1", "line 1: bad name"),
];

/// Both forms of `insert`.
const INSERTS: Rows = &[
    ("insert", "line 1: bad word"),
    ("insert a", "line 1: bad word"),
    ("insert A", "line 1: bad name"),
    ("insert a 1", "ok 1"),
    ("insert a \"x y\"", "ok 1"),
    ("insert a x", "line 1: bad atom"),
    ("insert A 1", "line 1: bad name"),
    ("insert a 1 2", "ok 1"),
    ("insert a 1 \"x\"", "ok 1"),
    ("insert a \"x\" 2", "line 1: bad atom"),
    ("insert a x 2", "line 1: bad atom"),
    ("insert a 1 x", "line 1: bad atom"),
    ("insert A 1 2", "line 1: bad name"),
    ("insert a 1 2 3", "line 1: bad word"),
    ("insert a 1 2 3 4 5", "line 1: bad word"),
    ("insert a x 2 3", "line 1: bad atom"),
    ("insert a \"x\" 2 3", "line 1: bad atom"),
    ("insert a 1 x 3", "line 1: bad atom"),
    ("insert 5 1 2 3", "line 1: bad name"),
];

/// The groups of `task`.
const TASKS: Rows = &[
    ("fork\ntask\nend\nend", "ok 1"),
    ("fork\ntask copy a\nend\nend", "ok 1"),
    ("fork\ntask copy a b c\nend\nend", "ok 1"),
    ("fork\ntask copy a take b\nend\nend", "ok 1"),
    ("fork\ntask copy a copy b take a\nend\nend", "ok 1"),
    ("fork\ntask take a a\nend\nend", "ok 1"),
    ("fork\ntask x\nend\nend", "line 2: bad word"),
    ("fork\ntask 5\nend\nend", "line 2: bad word"),
    ("fork\ntask \"x\"\nend\nend", "line 2: bad word"),
    ("fork\ntask as\nend\nend", "line 2: bad word"),
    ("fork\ntask a copy\nend\nend", "line 2: bad word"),
    ("fork\ntask copya\nend\nend", "line 2: bad word"),
    ("fork\ntask Copy a\nend\nend", "line 2: bad word"),
    ("fork\ntask copy\nend\nend", "line 2: bad word"),
    ("fork\ntask take\nend\nend", "line 2: bad word"),
    ("fork\ntask copy take\nend\nend", "line 2: bad name"),
    ("fork\ntask copy copy\nend\nend", "line 2: bad name"),
    ("fork\ntask copy take a\nend\nend", "line 2: bad name"),
    ("fork\ntask copy A\nend\nend", "line 2: bad name"),
    ("fork\ntask copy 5\nend\nend", "line 2: bad name"),
    ("fork\ntask copy array\nend\nend", "line 2: bad name"),
    ("fork\ntask copy a take\nend\nend", "line 2: bad word"),
    ("fork\ntask copy a copy\nend\nend", "line 2: bad word"),
    ("fork\ntask copy a take take\nend\nend", "line 2: bad name"),
    ("fork\ntask copy a take 5\nend\nend", "line 2: bad name"),
    ("fork\ntask copy a 5\nend\nend", "line 2: bad name"),
    ("fork\ntask copy a as\nend\nend", "line 2: bad name"),
    ("fork\ntask copy a \"b\"\nend\nend", "line 2: bad name"),
    ("fork\ntask copy a, b\nend\nend", "line 2: bad name"),
    ("fork\ntask copy a # note\nend\nend", "line 2: bad name"),
];

/// Where lines of forks may stand.
const FORKS: Rows = &[
    ("task", "line 1: bad fork"),
    ("give a as b", "line 1: bad fork"),
    ("end", "line 1: bad fork"),
    ("fork", "line 1: bad fork"),
    ("fork\nend", "ok 1"),
    ("fork\nend\nfork\nend", "ok 2"),
    ("fork\ntask", "line 1: bad fork"),
    ("fork\ntask\nend", "line 1: bad fork"),
    ("fork\ntask\nshow a\nend", "line 1: bad fork"),
    ("show a\nfork\n\ntask", "line 2: bad fork"),
    ("fork\nend\nshow a\nfork\ntask\nend", "line 4: bad fork"),
    ("fork\nfork", "line 2: bad fork"),
    ("fork\nshow a", "line 2: bad fork"),
    ("fork\nlet a = array", "line 2: bad fork"),
    ("fork\ngive a as b", "line 2: bad fork"),
    ("fork\nlazy a 0 show", "line 2: bad fork"),
    ("fork\nend\nend", "line 3: bad fork"),
    ("fork\nend\ntask", "line 3: bad fork"),
    ("fork\nend\ngive a as b", "line 3: bad fork"),
    ("fork\ntask\ntask", "line 3: bad fork"),
    ("fork\ntask\nfork", "line 3: bad fork"),
    ("fork\ntask\nlazy a 0 first", "line 3: bad fork"),
    ("fork\ntask\ngive a as b\nend\nend", "ok 1"),
    ("fork\ntask\ndrop a\nlet b = a\nend\nend\nshow b", "ok 2"),
    ("fork\ntask\nend\ntask\nend\nend", "ok 1"),
    ("fork\ntask\nend\nshow a", "line 4: bad fork"),
    ("fork\ntask\nend\ngive a as b", "line 4: bad fork"),
    ("fork\ntask\nend\nend\nend", "line 5: bad fork"),
    ("fork a\nend", "line 1: bad word"),
    ("fork\nend x", "line 2: bad word"),
    ("fork\ntask\nend 1\nend", "line 3: bad word"),
    ("fork\ntask\ngive\nend\nend", "line 3: bad word"),
    ("fork\ntask\ngive a to b\nend\nend", "line 3: bad word"),
    ("fork\ntask\ngive a b\nend\nend", "line 3: bad word"),
    ("fork\ntask\ngive a as 5\nend\nend", "line 3: bad name"),
    ("fork\ntask\ngive 5 as b\nend\nend", "line 3: bad name"),
];

/// Numbers of atoms, where they come in pairs and where they don't.
const PAIRS: Rows = &[
    ("let d = dict 1", "line 1: bad atom"),
    ("let d = dict 1 2", "ok 1"),
    ("let d = dict 1 2 3", "line 1: bad atom"),
    ("let d = odict 1", "line 1: bad atom"),
    ("let d = odict 1 2", "ok 1"),
    ("let d = odict 1 2 3", "line 1: bad atom"),
    ("let d = tdict 1", "line 1: bad atom"),
    ("let d = tdict 1 2", "ok 1"),
    ("let d = tdict 1 2 3", "line 1: bad atom"),
    ("let d = dict \"a b\" 1", "ok 1"),
    ("let d = dict \"a\" 1 \"b\"", "line 1: bad atom"),
    ("let d = dict 1 1 1 1", "ok 1"),
    ("let d = set 1", "ok 1"),
    ("let d = oset 1 2 3", "ok 1"),
    ("let d = tset 1", "ok 1"),
    ("let d = heap 1 2 3", "ok 1"),
    ("let d = deque 1", "ok 1"),
    ("splice d 0 1 5", "ok 1"),
    ("show a\nlet d = dict 1\nshow A", "line 2: bad atom"),
];

/// Two tests that a line fails: the earlier one names the fault.
const MEETINGS: Rows = &[
    // Bytes, and each later test.
    ("shows\t", "line 1: bad word"),
    ("end\t", "line 1: bad word"),
    ("fork\nshow a\u{7f}", "line 2: bad word"),
    ("show A\t", "line 1: bad word"),
    ("append a x\t", "line 1: bad word"),
    ("let d = dict 1 \u{7f}", "line 1: bad word"),
    // The first word, and each later test.
    ("fork\nshows a", "line 2: bad word"),
    ("fork\narray", "line 2: bad word"),
    ("fork\ntask\nforks", "line 3: bad word"),
    ("shows A", "line 1: bad word"),
    ("adds a x", "line 1: bad word"),
    ("lets d = dict 1", "line 1: bad word"),
    // The place, and each later test.
    ("task x", "line 1: bad fork"),
    ("task copy A", "line 1: bad fork"),
    ("give 5", "line 1: bad fork"),
    ("end 1", "line 1: bad fork"),
    ("fork\nshow", "line 2: bad fork"),
    ("fork\nshow A", "line 2: bad fork"),
    ("fork\nappend a x", "line 2: bad fork"),
    ("fork\nfork 1", "line 2: bad fork"),
    ("fork\ntask\ntask x", "line 3: bad fork"),
    ("fork\ntask\nlazy A x", "line 3: bad fork"),
    ("fork\nlet d = dict 1", "line 2: bad fork"),
    // The form, and the pairs.
    ("let D = dict 1", "line 1: bad name"),
    ("let d == dict 1", "line 1: bad word"),
    ("let d = dicts 1", "line 1: bad word"),
    // The tokens from left to right.
    ("append A x y", "line 1: bad name"),
    ("append A", "line 1: bad name"),
    ("append a x y", "line 1: bad atom"),
    ("append a 1 x", "line 1: bad word"),
    ("extend A 5 x", "line 1: bad name"),
    ("swap a x", "line 1: bad atom"),
    ("swap a 1 x 3", "line 1: bad atom"),
    ("swap A", "line 1: bad name"),
    ("set a x y", "line 1: bad atom"),
    ("set a 1 x y", "line 1: bad atom"),
    ("replace A best x", "line 1: bad name"),
    ("replace a best x", "line 1: bad word"),
    ("replace a min x y", "line 1: bad atom"),
    ("pop A best", "line 1: bad name"),
    ("pop a best", "line 1: bad word"),
    ("pop a 1", "line 1: bad word"),
    ("peek a middle", "line 1: bad word"),
    ("merge a B held", "line 1: bad name"),
    ("merge a b held", "line 1: bad word"),
    ("merge a b copy", "line 1: bad word"),
    ("lazy A x last", "line 1: bad name"),
    ("lazy a x last", "line 1: bad atom"),
    ("lazy a 0 last", "line 1: bad word"),
    ("lazy a show", "line 1: bad atom"),
    ("put A x y", "line 1: bad name"),
    ("put a x", "line 1: bad atom"),
    ("put a 1 x 3", "line 1: bad atom"),
    ("splice A x", "line 1: bad name"),
    ("splice a x", "line 1: bad atom"),
    ("splice a 0 \"1\" 5", "line 1: bad atom"),
    ("splice a 0 1 5 x", "line 1: bad atom"),
    ("let a = slice B x", "line 1: bad name"),
    ("let a = slice b x", "line 1: bad atom"),
];

/// The first faulty line is the one that is named.
const FIRST_LINES: Rows = &[
    ("show A\nshow", "line 1: bad name"),
    ("show\nshow A", "line 1: bad word"),
    ("show a\nappend a x\nshows", "line 2: bad atom"),
    ("append a x\nshow a\t", "line 1: bad atom"),
    ("end\n\u{7f}", "line 1: bad fork"),
    ("#cow 2\nshow A", "line 1: bad word"),
    ("show a\nshow b\nshow C\nshow D", "line 3: bad name"),
    ("fork\nshow a\nend\nshow A", "line 2: bad fork"),
    ("fork\ntask\nshow A", "line 3: bad name"),
    ("fork\ntask\nappend a 1x", "line 3: bad atom"),
    ("fork\nend\nfork\ntask\n\u{7f}", "line 5: bad word"),
    ("fork\ntask\nend\nend\nfork\n", "line 5: bad fork"),
    ("show A\nfork", "line 1: bad name"),
];

/// A token too few.
const TOO_FEW: Rows = &[
    ("let a =", "line 1: bad word"),
    ("let a = slice b 1", "line 1: bad word"),
    ("drop", "line 1: bad word"),
    ("show", "line 1: bad word"),
    ("count", "line 1: bad word"),
    ("append a", "line 1: bad word"),
    ("prepend a", "line 1: bad word"),
    ("insert a", "line 1: bad word"),
    ("update a", "line 1: bad word"),
    ("remove a", "line 1: bad word"),
    ("removeat a", "line 1: bad word"),
    ("set a 1", "line 1: bad word"),
    ("get a", "line 1: bad word"),
    ("at a", "line 1: bad word"),
    ("has a", "line 1: bad word"),
    ("place a", "line 1: bad word"),
    ("pop a", "line 1: bad word"),
    ("peek a", "line 1: bad word"),
    ("replace a min", "line 1: bad word"),
    ("swap a 1", "line 1: bad word"),
    ("reverse", "line 1: bad word"),
    ("rotate a", "line 1: bad word"),
    ("splice a 1", "line 1: bad word"),
    ("reserve a", "line 1: bad word"),
    ("clear", "line 1: bad word"),
    ("rebase", "line 1: bad word"),
    ("extend a", "line 1: bad word"),
    ("union a", "line 1: bad word"),
    ("inter a", "line 1: bad word"),
    ("minus a", "line 1: bad word"),
    ("symdiff a", "line 1: bad word"),
    ("subset a", "line 1: bad word"),
    ("disjoint a", "line 1: bad word"),
    ("equal a", "line 1: bad word"),
    ("put a 1", "line 1: bad word"),
    ("merge a b", "line 1: bad word"),
    ("within a", "line 1: bad word"),
    ("lazy a 0", "line 1: bad word"),
    ("fork\ntask take", "line 2: bad word"),
    ("fork\ntask\ngive a as", "line 3: bad word"),
];

/// A token too many.
const TOO_MANY: Rows = &[
    ("let a = b c", "line 1: bad word"),
    ("let a = slice b 1 2 3", "line 1: bad word"),
    ("drop a b", "line 1: bad word"),
    ("show a b", "line 1: bad word"),
    ("count a b", "line 1: bad word"),
    ("append a 1 2", "line 1: bad word"),
    ("prepend a 1 2", "line 1: bad word"),
    ("insert a 1 2 3", "line 1: bad word"),
    ("update a 1 2", "line 1: bad word"),
    ("remove a 1 2", "line 1: bad word"),
    ("removeat a 1 2", "line 1: bad word"),
    ("set a 1 2 3", "line 1: bad word"),
    ("get a 1 2", "line 1: bad word"),
    ("at a 1 2", "line 1: bad word"),
    ("has a 1 2", "line 1: bad word"),
    ("place a 1 2", "line 1: bad word"),
    ("pop a first 1", "line 1: bad word"),
    ("peek a min 1", "line 1: bad word"),
    ("replace a min 1 2", "line 1: bad word"),
    ("swap a 1 2 3", "line 1: bad word"),
    ("reverse a b", "line 1: bad word"),
    ("rotate a 1 2", "line 1: bad word"),
    ("reserve a 1 2", "line 1: bad word"),
    ("clear a b", "line 1: bad word"),
    ("rebase a b", "line 1: bad word"),
    ("extend a b c", "line 1: bad word"),
    ("union a b c", "line 1: bad word"),
    ("inter a b c", "line 1: bad word"),
    ("minus a b c", "line 1: bad word"),
    ("symdiff a b c", "line 1: bad word"),
    ("subset a b c", "line 1: bad word"),
    ("disjoint a b c", "line 1: bad word"),
    ("equal a b c", "line 1: bad word"),
    ("put a 1 2 3", "line 1: bad word"),
    ("merge a b keep c", "line 1: bad word"),
    ("merge a b take 1", "line 1: bad word"),
    ("within a b c", "line 1: bad word"),
    ("lazy a 0 show 1", "line 1: bad word"),
    ("fork 1", "line 1: bad word"),
    ("fork\nend 1", "line 2: bad word"),
    ("fork\ntask\ngive a as b c", "line 3: bad word"),
];

/// A line of each statement, with what is read: the line's number, the statement, its parts. The bytes
/// of a text stand between `<` and `>`.
const STATEMENTS: Rows = &[
    ("let a = array 1 -2", "1 Let a Array 1 -2"),
    ("let a = deque", "1 Let a Deque"),
    ("let a = set 3", "1 Let a Set 3"),
    ("let a = dict 1 \"x\"", "1 Let a Dict 1 <x>"),
    ("let a = oset 2 1 2", "1 Let a OSet 2 1 2"),
    ("let a = odict 2 1", "1 Let a ODict 2 1"),
    ("let a = heap 2 1", "1 Let a Heap 2 1"),
    ("let a = tset \"\"", "1 Let a TSet <>"),
    ("let a = tdict 1 2 3 4", "1 Let a TDict 1 2 3 4"),
    ("let a = b", "1 Assign a b"),
    ("let a = slice b 1 -2", "1 Slice a b 1 -2"),
    ("drop a", "1 Discard a"),
    ("show a", "1 Show a"),
    ("count a", "1 Count a"),
    ("append a 5", "1 Append a 5"),
    ("prepend a \"x\"", "1 Prepend a <x>"),
    ("insert a 5", "1 Insert a 5"),
    ("insert a 1 2", "1 InsertAt a 1 2"),
    ("update a 5", "1 Update a 5"),
    ("remove a \"5\"", "1 Remove a <5>"),
    ("removeat a 5", "1 RemoveAt a 5"),
    ("set a 1 2", "1 Set a 1 2"),
    ("get a 5", "1 Get a 5"),
    ("at a 5", "1 At a 5"),
    ("has a 5", "1 Has a 5"),
    ("place a 5", "1 Place a 5"),
    ("pop a first", "1 Pop a First"),
    ("pop a last", "1 Pop a Last"),
    ("peek a min", "1 Peek a Min"),
    ("replace a max 5", "1 Replace a Max 5"),
    ("swap a 1 2", "1 Swap a 1 2"),
    ("reverse a", "1 Reverse a"),
    ("rotate a 5", "1 Rotate a 5"),
    ("splice a 1 2", "1 Splice a 1 2"),
    ("splice a 1 2 7 \"x\"", "1 Splice a 1 2 7 <x>"),
    ("reserve a 5", "1 Reserve a 5"),
    ("clear a", "1 Clear a"),
    ("rebase a", "1 Rebase a"),
    ("extend a b", "1 Extend a b"),
    ("union a b", "1 Union a b"),
    ("inter a b", "1 Inter a b"),
    ("minus a b", "1 Minus a b"),
    ("symdiff a b", "1 SymDiff a b"),
    ("subset a b", "1 Subset a b"),
    ("disjoint a b", "1 Disjoint a b"),
    ("equal a b", "1 Equal a b"),
    ("put a 1 2", "1 Put a 1 2"),
    ("merge a b keep", "1 Merge a b keep"),
    ("merge a b take", "1 Merge a b take"),
    ("within a b", "1 Within a b"),
    ("lazy a 3 first", "1 Lazy a 3 First"),
    ("lazy a 0 show", "1 Lazy a 0 Show"),
    ("lazy a -1 count", "1 Lazy a -1 Count"),
    ("fork\nend", "1 Fork"),
    (
        "fork\ntask\ngive a as b\nend\nend",
        "1 Fork [2 : 3 Give a b]",
    ),
];

/// Texts without their escapes, tokens between many spaces, lines that count, and forks.
const READINGS: Rows = &[
    (r#"append a "\\\"""#, r#"1 Append a <\">"#),
    (r#"append a "\\n""#, r"1 Append a <\n>"),
    (r#"append a "\\\\""#, r"1 Append a <\\>"),
    (r#"append a "\"x\" y""#, r#"1 Append a <"x" y>"#),
    (r#"append a "  x  ""#, "1 Append a <  x  >"),
    (r#"append a "x"   "#, "1 Append a <x>"),
    (r##"append a "#cow 1""##, "1 Append a <#cow 1>"),
    (r#"put a "" "\"""#, r#"1 Put a <> <">"#),
    (r#"put a "x y" "y x""#, "1 Put a <x y> <y x>"),
    (r#"let a = set "1" 1"#, "1 Let a Set <1> 1"),
    (
        r#"let a = array "x" "\\" "y""#,
        r"1 Let a Array <x> <\> <y>",
    ),
    (
        "let a = heap -9223372036854775808 9223372036854775807 0",
        "1 Let a Heap -9223372036854775808 9223372036854775807 0",
    ),
    ("  let   a  =   array   1  ", "1 Let a Array 1"),
    ("insert a 0 \"0\"", "1 InsertAt a 0 <0>"),
    ("insert a \"0 1\"", "1 Insert a <0 1>"),
    ("let slices = arrays", "1 Assign slices arrays"),
    ("let let = let", "1 Assign let let"),
    ("extend a a", "1 Extend a a"),
    ("#cow 1\n\n# note\nshow a\n\nshow b", "4 Show a; 6 Show b"),
    ("show abcdefghijklmnop", "1 Show abcdefghijklmnop"),
    ("fork\ntask\nend\nend", "1 Fork [2 :]"),
    (
        "fork\ntask copy a b take c copy a\nend\nend",
        "1 Fork [2 copy a copy b take c copy a:]",
    ),
    (
        "fork\n\ntask take a\n\nshow a\ninsert a 1 2\nend\ntask\nend\n\nend\nshow a",
        "1 Fork [3 take a: 5 Show a; 6 InsertAt a 1 2] [8 :]; 12 Show a",
    ),
    (
        "let a = b\nfork\ntask copy end\ngive end as end\ngive a as b\nend\nend\nfork\nend",
        "1 Assign a b; 2 Fork [3 copy end: 4 Give end end; 5 Give a b]; 8 Fork",
    ),
];

/// A script of pieces, each repeated.
type Pieces = &'static [(&'static str, usize)];

/// Such scripts, each with what is said of it.
type Limits = &'static [(Pieces, &'static str)];

/// Texts at their limit.
const LONG_TEXTS: Limits = &[
    (&[("append a \"", 1), ("x", 255), ("\"", 1)], "ok 1"),
    (
        &[("append a \"", 1), ("x", 256), ("\"", 1)],
        "line 1: 256 is over the limit of 255",
    ),
    (
        &[("show a\nappend a \"", 1), (" ", 300), ("\"", 1)],
        "line 2: 300 is over the limit of 255",
    ),
    (&[("append a \"", 1), ("\\\"", 255), ("\"", 1)], "ok 1"),
    (
        &[("append a \"", 1), ("\\\\", 256), ("\"", 1)],
        "line 1: 256 is over the limit of 255",
    ),
    (
        &[("append a \"\\n", 1), ("x", 256), ("\"", 1)],
        "line 1: bad atom",
    ),
    (&[("append a \"", 1), ("x", 256)], "line 1: bad atom"),
    (
        &[("append a \"", 1), ("x", 256), ("\"b", 1)],
        "line 1: bad atom",
    ),
    (
        &[("append a \"", 1), ("x", 256), ("\" y", 1)],
        "line 1: 256 is over the limit of 255",
    ),
    (
        &[("append A \"", 1), ("x", 256), ("\"", 1)],
        "line 1: bad name",
    ),
    (
        &[("append a 1 \"", 1), ("x", 256), ("\"", 1)],
        "line 1: bad word",
    ),
    (
        &[("let d = dict \"", 1), ("x", 256), ("\"", 1)],
        "line 1: 256 is over the limit of 255",
    ),
    (
        &[("let a = set x \"", 1), ("x", 256), ("\"", 1)],
        "line 1: bad atom",
    ),
    (
        &[("let a = set \"", 1), ("x", 256), ("\" x", 1)],
        "line 1: 256 is over the limit of 255",
    ),
    (
        &[
            ("put a \"", 1),
            ("x", 257),
            ("\" \"", 1),
            ("x", 256),
            ("\"", 1),
        ],
        "line 1: 257 is over the limit of 255",
    ),
    (
        &[("get a \"", 1), ("x", 256), ("\"", 1)],
        "line 1: 256 is over the limit of 255",
    ),
    (
        &[("replace a max \"", 1), ("x", 256), ("\"", 1)],
        "line 1: 256 is over the limit of 255",
    ),
    (
        &[("insert a \"", 1), ("x", 256), ("\"", 1)],
        "line 1: 256 is over the limit of 255",
    ),
    (
        &[("insert a 1 \"", 1), ("x", 256), ("\"", 1)],
        "line 1: 256 is over the limit of 255",
    ),
    (
        &[("fork\nappend a \"", 1), ("x", 256), ("\"", 1)],
        "line 2: bad fork",
    ),
    (
        &[("append a \"", 1), ("x", 256), ("\"\t", 1)],
        "line 1: bad word",
    ),
];

/// Long texts where no atom is due are what any text is there.
const MISPLACED_TEXTS: Limits = &[
    (&[("\"", 1), ("x", 256), ("\"", 1)], "line 1: bad word"),
    (&[("#\"", 1), ("x", 256), ("\"", 1)], "ok 0"),
    (&[("show \"", 1), ("x", 256), ("\"", 1)], "line 1: bad name"),
    (
        &[("let a = \"", 1), ("x", 256), ("\"", 1)],
        "line 1: bad name",
    ),
    (
        &[("let a \"", 1), ("x", 256), ("\" array", 1)],
        "line 1: bad word",
    ),
    (
        &[("removeat a \"", 1), ("x", 256), ("\"", 1)],
        "line 1: bad atom",
    ),
    (
        &[("insert a \"", 1), ("x", 256), ("\" 2", 1)],
        "line 1: bad atom",
    ),
    (
        &[("set a \"", 1), ("x", 256), ("\" 2", 1)],
        "line 1: bad atom",
    ),
    (
        &[("splice a 0 \"", 1), ("x", 256), ("\"", 1)],
        "line 1: bad atom",
    ),
    (
        &[("pop a \"", 1), ("x", 256), ("\"", 1)],
        "line 1: bad word",
    ),
    (
        &[("lazy a 0 \"", 1), ("x", 256), ("\"", 1)],
        "line 1: bad word",
    ),
    (
        &[("fork\ntask \"", 1), ("x", 256), ("\"", 1)],
        "line 2: bad word",
    ),
    (
        &[("fork\ntask copy a \"", 1), ("x", 256), ("\"", 1)],
        "line 2: bad name",
    ),
];

/// Lines with many atoms.
const MANY_ATOMS: Limits = &[
    (&[("let a = array", 1), (" 1", 65_536)], "ok 1"),
    (
        &[("let a = array", 1), (" 1", 65_537)],
        "line 1: 65537 is over the limit of 65536",
    ),
    (
        &[("\nlet a = tset", 1), (" 1", 70_000)],
        "line 2: 65537 is over the limit of 65536",
    ),
    (
        &[("let a = array", 1), (" 1", 65_536), (" x", 1)],
        "line 1: bad atom",
    ),
    (
        &[("let a = array", 1), (" 1", 65_537), (" x", 1)],
        "line 1: 65537 is over the limit of 65536",
    ),
    (
        &[
            ("let a = array", 1),
            (" 1", 65_536),
            (" \"", 1),
            ("x", 256),
            ("\"", 1),
        ],
        "line 1: 256 is over the limit of 255",
    ),
    (
        &[("let a = array x", 1), (" 1", 65_537)],
        "line 1: bad atom",
    ),
    (&[("splice a 0 1", 1), (" \"\"", 65_536)], "ok 1"),
    (
        &[("splice a 0 1", 1), (" \"\"", 65_537)],
        "line 1: 65537 is over the limit of 65536",
    ),
    (&[("let d = dict", 1), (" 1", 65_535)], "line 1: bad atom"),
    (&[("let d = dict", 1), (" 1", 65_536)], "ok 1"),
    (
        &[("let d = odict", 1), (" 1", 65_537)],
        "line 1: 65537 is over the limit of 65536",
    ),
    (
        &[("fork\nlet a = array", 1), (" 1", 65_537)],
        "line 2: bad fork",
    ),
    (&[("let A = array", 1), (" 1", 65_537)], "line 1: bad name"),
];

/// Forks with many tasks, and tasks with many gives.
const MANY_TASKS: Limits = &[
    (&[("fork\n", 1), ("task\nend\n", 16), ("end", 1)], "ok 1"),
    (
        &[("fork\n", 1), ("task\nend\n", 17), ("end", 1)],
        "line 34: 17 is over the limit of 16",
    ),
    (
        &[
            ("fork\n", 1),
            ("task\nend\n", 16),
            ("end\nfork\n", 1),
            ("task\nend\n", 16),
            ("end", 1),
        ],
        "ok 2",
    ),
    (
        &[("fork\n", 1), ("task\nend\n", 16), ("task x", 1)],
        "line 34: 17 is over the limit of 16",
    ),
    (
        &[("fork\n", 1), ("task\nend\n", 16), ("task\t", 1)],
        "line 34: bad word",
    ),
    (
        &[("fork\n", 1), ("task\nend\n", 16), ("tasks", 1)],
        "line 34: bad word",
    ),
    (
        &[("fork\n", 1), ("task\nend\n", 15), ("task\ntask", 1)],
        "line 33: bad fork",
    ),
    (
        &[("fork\ntask\n", 1), ("give a as b\n", 64), ("end\nend", 1)],
        "ok 1",
    ),
    (
        &[("fork\ntask\n", 1), ("give a as b\n", 65), ("end\nend", 1)],
        "line 67: 65 is over the limit of 64",
    ),
    (
        &[
            ("fork\ntask\n", 1),
            ("give a as b\n", 64),
            ("end\ntask\n", 1),
            ("give a as b\n", 64),
            ("end\nend", 1),
        ],
        "ok 1",
    ),
    (
        &[("fork\ntask\n", 1), ("give a as b\n", 64), ("give 5", 1)],
        "line 67: 65 is over the limit of 64",
    ),
    (
        &[("fork\ntask\n", 1), ("give a as b\n", 64), ("give\t", 1)],
        "line 67: bad word",
    ),
    (
        &[
            ("fork\ntask\n", 1),
            ("give a as b\n", 64),
            ("end\ngive a as b", 1),
        ],
        "line 68: bad fork",
    ),
];

/// What is wrong, as the program prints it.
fn fault_line(alloc: Global, fault: ParseFault) -> Result<String, Fail> {
    Ok(match fault {
        ParseFault::BadWord { line } => format!(in alloc; "line {line}: bad word")?,
        ParseFault::BadAtom { line } => format!(in alloc; "line {line}: bad atom")?,
        ParseFault::BadName { line } => format!(in alloc; "line {line}: bad name")?,
        ParseFault::ForkShape { line } => format!(in alloc; "line {line}: bad fork")?,
        ParseFault::Limit {
            line,
            quantity,
            bound,
        } => format!(in alloc; "line {line}: {quantity} is over the limit of {bound}")?,
    })
}

/// `ok` and the number of statements, or what is wrong.
fn told(alloc: Global, script: &[u8]) -> Result<String, Fail> {
    match parse(alloc, script) {
        Ok(script) => {
            let count = script.statements.len();
            Ok(format!(in alloc; "ok {count}")?)
        }
        Err(ParseStop::Fault(fault)) => fault_line(alloc, fault),
        Err(ParseStop::NoMemory) => Ok(format!(in alloc; "no memory")?),
    }
}

/// These pieces, each repeated.
fn joined(alloc: Global, pieces: Pieces) -> Result<Vec<u8>, Fail> {
    let mut script = Vec::new(alloc);
    for (piece, count) in pieces {
        for _ in 0..*count {
            script.extend_from_slice(piece.as_bytes())?;
        }
    }
    Ok(script)
}

/// Appends bytes, each as its character.
fn add_bytes(text: &mut String, bytes: &[u8]) -> Result<(), Fail> {
    for byte in bytes {
        text.push(char::from(*byte))?;
    }
    Ok(())
}

/// Appends a space and a word.
fn add_word(text: &mut String, word: &str) -> Result<(), Fail> {
    text.push(' ')?;
    text.push_str(word)?;
    Ok(())
}

/// Appends a space and an integer.
fn add_integer(alloc: Global, text: &mut String, i: i64) -> Result<(), Fail> {
    let digits = format!(in alloc; "{i}")?;
    add_word(text, digits.as_str())
}

/// Appends a space and a name.
fn add_name(text: &mut String, name: &Name) -> Result<(), Fail> {
    text.push(' ')?;
    add_bytes(text, name.as_slice())
}

/// Appends a space and an atom.
fn add_atom(alloc: Global, text: &mut String, atom: &Literal) -> Result<(), Fail> {
    match atom {
        Literal::Int(i) => add_integer(alloc, text, *i),
        Literal::Text(bytes) => {
            text.push_str(" <")?;
            add_bytes(text, bytes.as_slice())?;
            text.push('>')?;
            Ok(())
        }
    }
}

/// Appends a line's number, the statement's word and its first name.
fn add_head(
    alloc: Global,
    text: &mut String,
    line: u64,
    word: &str,
    name: &Name,
) -> Result<(), Fail> {
    let head = format!(in alloc; "{line} {word}")?;
    text.push_str(head.as_str())?;
    add_name(text, name)
}

/// A statement of one name alone.
fn add_lone(alloc: Global, text: &mut String, statement: &Statement) -> Result<bool, Fail> {
    let (line, word, name) = match statement {
        Statement::Discard { line, name } => (*line, "Discard", name),
        Statement::Show { line, name } => (*line, "Show", name),
        Statement::Count { line, name } => (*line, "Count", name),
        Statement::Reverse { line, name } => (*line, "Reverse", name),
        Statement::Clear { line, name } => (*line, "Clear", name),
        Statement::Rebase { line, name } => (*line, "Rebase", name),
        _ => return Ok(false),
    };
    add_head(alloc, text, line, word, name)?;
    Ok(true)
}

/// A statement of a name and an atom.
fn add_with_atom(alloc: Global, text: &mut String, statement: &Statement) -> Result<bool, Fail> {
    let (line, word, name, atom) = match statement {
        Statement::Append { line, name, atom } => (*line, "Append", name, atom),
        Statement::Prepend { line, name, atom } => (*line, "Prepend", name, atom),
        Statement::Insert { line, name, atom } => (*line, "Insert", name, atom),
        Statement::Update { line, name, atom } => (*line, "Update", name, atom),
        Statement::Remove { line, name, atom } => (*line, "Remove", name, atom),
        Statement::Get { line, name, atom } => (*line, "Get", name, atom),
        Statement::Has { line, name, atom } => (*line, "Has", name, atom),
        Statement::Place { line, name, atom } => (*line, "Place", name, atom),
        _ => return Ok(false),
    };
    add_head(alloc, text, line, word, name)?;
    add_atom(alloc, text, atom)?;
    Ok(true)
}

/// A statement of a name and one integer.
fn add_with_place(alloc: Global, text: &mut String, statement: &Statement) -> Result<bool, Fail> {
    let (line, word, name, i) = match statement {
        Statement::RemoveAt { line, name, i } => (*line, "RemoveAt", name, *i),
        Statement::At { line, name, i } => (*line, "At", name, *i),
        Statement::Rotate { line, name, c } => (*line, "Rotate", name, *c),
        Statement::Reserve { line, name, c } => (*line, "Reserve", name, *c),
        _ => return Ok(false),
    };
    add_head(alloc, text, line, word, name)?;
    add_integer(alloc, text, i)?;
    Ok(true)
}

/// A statement of two names.
fn add_with_name(alloc: Global, text: &mut String, statement: &Statement) -> Result<bool, Fail> {
    let (line, word, name, other) = match statement {
        Statement::Assign { line, name, other } => (*line, "Assign", name, other),
        Statement::Extend { line, name, other } => (*line, "Extend", name, other),
        Statement::Union { line, name, other } => (*line, "Union", name, other),
        Statement::Inter { line, name, other } => (*line, "Inter", name, other),
        Statement::Minus { line, name, other } => (*line, "Minus", name, other),
        Statement::SymDiff { line, name, other } => (*line, "SymDiff", name, other),
        Statement::Subset { line, name, other } => (*line, "Subset", name, other),
        Statement::Disjoint { line, name, other } => (*line, "Disjoint", name, other),
        Statement::Equal { line, name, other } => (*line, "Equal", name, other),
        Statement::Within { line, name, other } => (*line, "Within", name, other),
        Statement::Give { line, name, to } => (*line, "Give", name, to),
        _ => return Ok(false),
    };
    add_head(alloc, text, line, word, name)?;
    add_name(text, other)?;
    Ok(true)
}

/// The word of a kind.
fn kind_word(kind: Kind) -> &'static str {
    match kind {
        Kind::Array => "Array",
        Kind::Deque => "Deque",
        Kind::Set => "Set",
        Kind::Dict => "Dict",
        Kind::OSet => "OSet",
        Kind::ODict => "ODict",
        Kind::Heap => "Heap",
        Kind::TSet => "TSet",
        Kind::TDict => "TDict",
    }
}

/// The word of an end.
fn side_word(side: Side) -> &'static str {
    match side {
        Side::First => "First",
        Side::Last => "Last",
        Side::Min => "Min",
        Side::Max => "Max",
    }
}

/// The word of what a lazy statement asks.
fn verb_word(verb: Verb) -> &'static str {
    match verb {
        Verb::First => "First",
        Verb::Show => "Show",
        Verb::Count => "Count",
    }
}

/// A statement of a name and a word: of an end, or of what a view is asked.
fn add_with_word(alloc: Global, text: &mut String, statement: &Statement) -> Result<bool, Fail> {
    match statement {
        Statement::Pop { line, name, side } => {
            add_head(alloc, text, *line, "Pop", name)?;
            add_word(text, side_word(*side))?;
        }
        Statement::Peek { line, name, side } => {
            add_head(alloc, text, *line, "Peek", name)?;
            add_word(text, side_word(*side))?;
        }
        Statement::Replace {
            line,
            name,
            side,
            atom,
        } => {
            add_head(alloc, text, *line, "Replace", name)?;
            add_word(text, side_word(*side))?;
            add_atom(alloc, text, atom)?;
        }
        Statement::Lazy {
            line,
            name,
            i,
            verb,
        } => {
            add_head(alloc, text, *line, "Lazy", name)?;
            add_integer(alloc, text, *i)?;
            add_word(text, verb_word(*verb))?;
        }
        _ => return Ok(false),
    }
    Ok(true)
}

/// A statement of a name, a position and an atom.
fn add_placed(alloc: Global, text: &mut String, statement: &Statement) -> Result<bool, Fail> {
    let (line, word, name, i, atom) = match statement {
        Statement::InsertAt {
            line,
            name,
            i,
            atom,
        } => (*line, "InsertAt", name, *i, atom),
        Statement::Set {
            line,
            name,
            i,
            atom,
        } => (*line, "Set", name, *i, atom),
        _ => return Ok(false),
    };
    add_head(alloc, text, line, word, name)?;
    add_integer(alloc, text, i)?;
    add_atom(alloc, text, atom)?;
    Ok(true)
}

/// A statement of a name and two positions, or two atoms.
fn add_double(alloc: Global, text: &mut String, statement: &Statement) -> Result<bool, Fail> {
    match statement {
        Statement::Swap { line, name, i, j } => {
            add_head(alloc, text, *line, "Swap", name)?;
            add_integer(alloc, text, *i)?;
            add_integer(alloc, text, *j)?;
        }
        Statement::Put {
            line,
            name,
            key,
            value,
        } => {
            add_head(alloc, text, *line, "Put", name)?;
            add_atom(alloc, text, key)?;
            add_atom(alloc, text, value)?;
        }
        _ => return Ok(false),
    }
    Ok(true)
}

/// A statement of another name and more.
fn add_long(alloc: Global, text: &mut String, statement: &Statement) -> Result<bool, Fail> {
    match statement {
        Statement::Slice {
            line,
            name,
            other,
            i,
            j,
        } => {
            add_head(alloc, text, *line, "Slice", name)?;
            add_name(text, other)?;
            add_integer(alloc, text, *i)?;
            add_integer(alloc, text, *j)?;
        }
        Statement::Merge {
            line,
            name,
            other,
            take,
        } => {
            add_head(alloc, text, *line, "Merge", name)?;
            add_name(text, other)?;
            add_word(text, if *take { "take" } else { "keep" })?;
        }
        _ => return Ok(false),
    }
    Ok(true)
}

/// A statement of many atoms.
fn add_listed(alloc: Global, text: &mut String, statement: &Statement) -> Result<bool, Fail> {
    let atoms = match statement {
        Statement::Let {
            line,
            name,
            kind,
            atoms,
        } => {
            add_head(alloc, text, *line, "Let", name)?;
            add_word(text, kind_word(*kind))?;
            atoms
        }
        Statement::Splice {
            line,
            name,
            i,
            j,
            atoms,
        } => {
            add_head(alloc, text, *line, "Splice", name)?;
            add_integer(alloc, text, *i)?;
            add_integer(alloc, text, *j)?;
            atoms
        }
        _ => return Ok(false),
    };
    for atom in atoms.as_slice() {
        add_atom(alloc, text, atom)?;
    }
    Ok(true)
}

/// Appends a statement that is no fork; of a fork, nothing.
fn add_plain(alloc: Global, text: &mut String, statement: &Statement) -> Result<bool, Fail> {
    Ok(
        add_lone(alloc, text, statement)?
            || add_with_atom(alloc, text, statement)?
            || add_with_place(alloc, text, statement)?
            || add_with_name(alloc, text, statement)?
            || add_with_word(alloc, text, statement)?
            || add_placed(alloc, text, statement)?
            || add_double(alloc, text, statement)?
            || add_long(alloc, text, statement)?
            || add_listed(alloc, text, statement)?,
    )
}

/// Appends a capture and a space before it, but for the first.
fn add_captures(text: &mut String, captures: &[Capture]) -> Result<(), Fail> {
    let mut later = false;
    for capture in captures {
        if later {
            text.push(' ')?;
        }
        later = true;
        text.push_str(if capture.moves { "take" } else { "copy" })?;
        add_name(text, &capture.name)?;
    }
    Ok(())
}

/// Appends a task: its line, its captures, its statements.
fn add_task(alloc: Global, text: &mut String, task: &TaskBlock) -> Result<(), Fail> {
    let line = task.line;
    let head = format!(in alloc; " [{line} ")?;
    text.push_str(head.as_str())?;
    add_captures(text, task.captures.as_slice())?;
    text.push(':')?;
    let mut later = false;
    for statement in task.statements.as_slice() {
        text.push_str(if later { "; " } else { " " })?;
        later = true;
        if !add_plain(alloc, text, statement)? {
            text.push_str("Fork")?;
        }
    }
    text.push(']')?;
    Ok(())
}

/// Appends a fork: its line and its tasks.
fn add_fork(alloc: Global, text: &mut String, statement: &Statement) -> Result<(), Fail> {
    if let Statement::Fork { line, tasks } = statement {
        let head = format!(in alloc; "{line} Fork")?;
        text.push_str(head.as_str())?;
        for task in tasks.as_slice() {
            add_task(alloc, text, task)?;
        }
    }
    Ok(())
}

/// All that was read, or what is wrong.
fn shown(alloc: Global, script: &[u8]) -> Result<String, Fail> {
    let script = match parse(alloc, script) {
        Ok(script) => script,
        Err(ParseStop::Fault(fault)) => return fault_line(alloc, fault),
        Err(ParseStop::NoMemory) => return Ok(format!(in alloc; "no memory")?),
    };
    let mut text = String::new(alloc);
    let mut later = false;
    for statement in script.statements.as_slice() {
        if later {
            text.push_str("; ")?;
        }
        later = true;
        if !add_plain(alloc, &mut text, statement)? {
            add_fork(alloc, &mut text, statement)?;
        }
    }
    Ok(text)
}

/// Appends a line on a row that gives something else.
fn add_unlike(
    alloc: Global,
    text: &mut String,
    row: &str,
    found: &str,
    expected: &str,
) -> Result<(), Fail> {
    if found != expected {
        let line = format!(in alloc; "{row:?} gives {found}, not {expected}\n")?;
        text.push_str(line.as_str())?;
    }
    Ok(())
}

/// Appends a line on a script of which something else is said.
fn add_told(alloc: Global, text: &mut String, script: &str, expected: &str) -> Result<(), Fail> {
    let found = told(alloc, script.as_bytes())?;
    add_unlike(alloc, text, script, found.as_str(), expected)
}

/// Appends a line on a script that is read otherwise.
fn add_shown(alloc: Global, text: &mut String, script: &str, expected: &str) -> Result<(), Fail> {
    let found = shown(alloc, script.as_bytes())?;
    add_unlike(alloc, text, script, found.as_str(), expected)
}

/// Appends a line on a script of pieces of which something else is said.
fn add_joined(
    alloc: Global,
    text: &mut String,
    pieces: Pieces,
    expected: &str,
) -> Result<(), Fail> {
    let script = joined(alloc, pieces)?;
    let found = told(alloc, script.as_slice())?;
    let row = format!(in alloc; "{pieces:?}")?;
    add_unlike(alloc, text, row.as_str(), found.as_str(), expected)
}

/// The rows of which something else is said, a line each.
fn told_otherwise(alloc: Global, tables: &[Rows]) -> Result<String, Fail> {
    let mut text = String::new(alloc);
    for rows in tables {
        for (script, expected) in *rows {
            add_told(alloc, &mut text, *script, *expected)?;
        }
    }
    Ok(text)
}

/// The rows that are read otherwise, a line each.
fn shown_otherwise(alloc: Global, tables: &[Rows]) -> Result<String, Fail> {
    let mut text = String::new(alloc);
    for rows in tables {
        for (script, expected) in *rows {
            add_shown(alloc, &mut text, *script, *expected)?;
        }
    }
    Ok(text)
}

/// The rows of pieces of which something else is said, a line each.
fn limited_otherwise(alloc: Global, tables: &[Limits]) -> Result<String, Fail> {
    let mut text = String::new(alloc);
    for rows in tables {
        for (pieces, expected) in *rows {
            add_joined(alloc, &mut text, *pieces, *expected)?;
        }
    }
    Ok(text)
}

#[test]
fn bytes_and_first_words(rt: HostRuntime) -> Result<(), Fail> {
    let found = told_otherwise(rt.alloc(), &[BYTES, COMMENTS, FIRST_WORDS])?;
    assert_eq!(rt; found.as_str(), "");
    Ok(())
}

#[test]
fn a_byte_beyond_the_printable_ones_is_no_comment(rt: HostRuntime) -> Result<(), Fail> {
    let found = told(rt.alloc(), b"# \x80")?;
    assert_eq!(rt; found.as_str(), "line 1: bad word");
    Ok(())
}

#[test]
fn atoms_and_names(rt: HostRuntime) -> Result<(), Fail> {
    let found = told_otherwise(rt.alloc(), &[INTEGERS, TEXTS, NAMES, PAIRS])?;
    assert_eq!(rt; found.as_str(), "");
    Ok(())
}

#[test]
fn forms_and_forks(rt: HostRuntime) -> Result<(), Fail> {
    let found = told_otherwise(rt.alloc(), &[LETS, INSERTS, TASKS, FORKS])?;
    assert_eq!(rt; found.as_str(), "");
    Ok(())
}

#[test]
fn the_earlier_test_and_line_name_the_fault(rt: HostRuntime) -> Result<(), Fail> {
    let found = told_otherwise(rt.alloc(), &[MEETINGS, FIRST_LINES])?;
    assert_eq!(rt; found.as_str(), "");
    Ok(())
}

#[test]
fn each_statement_has_its_tokens(rt: HostRuntime) -> Result<(), Fail> {
    let found = told_otherwise(rt.alloc(), &[TOO_FEW, TOO_MANY])?;
    assert_eq!(rt; found.as_str(), "");
    Ok(())
}

#[test]
fn each_statement_is_read_with_its_parts(rt: HostRuntime) -> Result<(), Fail> {
    let found = shown_otherwise(rt.alloc(), &[STATEMENTS, READINGS])?;
    assert_eq!(rt; found.as_str(), "");
    Ok(())
}

#[test]
fn limits_are_named_with_their_numbers(rt: HostRuntime) -> Result<(), Fail> {
    let tables = [LONG_TEXTS, MISPLACED_TEXTS, MANY_ATOMS, MANY_TASKS];
    let found = limited_otherwise(rt.alloc(), &tables)?;
    assert_eq!(rt; found.as_str(), "");
    Ok(())
}
