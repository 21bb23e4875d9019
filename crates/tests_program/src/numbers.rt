//! Random lines of scripts, over the statements that are built.
use std::alloc::AllocError;

/// The forms of a line: N is a name, A an atom, K a key, L some atoms, P a position, E an end, R a rule, and V what is
/// asked of a view.
const LISTS: &[&str] = &[
    "let N = array L",
    "let N = array L A A",
    "let N = N",
    "let N = N",
    "let N = N",
    "let N = slice N P P",
    "let N = slice N P P",
    "let N = set K",
    "drop N",
    "show N",
    "show N",
    "count N",
    "append N A",
    "append N A",
    "insert N A",
    "insert N P A",
    "remove N A",
    "set N P A",
    "set N P A",
    "get N A",
    "pop N E",
    "pop N E",
    "swap N P P",
    "reverse N",
    "splice N P P L",
    "reserve N P",
    "clear N",
    "rebase N",
    "extend N N",
    "equal N N",
];

const DEQUES: &[&str] = &[
    "let N = deque L",
    "let N = deque L A A",
    "let N = deque 1 1 A",
    "let N = N",
    "let N = N",
    "let N = N",
    "let N = array L",
    "drop N",
    "show N",
    "show N",
    "count N",
    "append N A",
    "append N A",
    "prepend N A",
    "prepend N A",
    "insert N A",
    "insert N P A",
    "insert N P A",
    "remove N A",
    "remove N A",
    "set N P A",
    "set N P A",
    "get N A",
    "pop N E",
    "pop N first",
    "pop N last",
    "rotate N P",
    "rotate N P",
    "rotate N P",
    "reserve N P",
    "swap N P P",
    "reverse N",
    "splice N P P L",
    "clear N",
    "extend N N",
    "equal N N",
    "equal N N",
];

const SETS: &[&str] = &[
    "let N = set K K K L",
    "let N = set K K",
    "let N = set",
    "let N = N",
    "let N = N",
    "let N = heap K K",
    "drop N",
    "show N",
    "show N",
    "count N",
    "insert N K",
    "insert N K",
    "insert N K",
    "update N K",
    "update N K",
    "remove N K",
    "remove N K",
    "has N K",
    "has N K",
    "union N N",
    "union N N",
    "inter N N",
    "minus N N",
    "symdiff N N",
    "symdiff N N",
    "subset N N",
    "disjoint N N",
    "equal N N",
    "append N A",
    "clear N",
];

const DICTS: &[&str] = &[
    "let N = dict K A K A K A",
    "let N = dict K A K A",
    "let N = dict",
    "let N = N",
    "let N = N",
    "let N = set K K K",
    "let N = set K K K",
    "drop N",
    "show N",
    "show N",
    "count N",
    "put N K A",
    "put N K A",
    "put N K A",
    "get N K",
    "get N K",
    "remove N K",
    "remove N K",
    "has N K",
    "merge N N keep",
    "merge N N keep",
    "merge N N take",
    "merge N N take",
    "within N N",
    "within N N",
    "equal N N",
    "union N N",
    "insert N K",
    "append N A",
];

const ORDERED: &[&str] = &[
    "let N = oset K K K L",
    "let N = oset K K K",
    "let N = oset",
    "let N = N",
    "let N = N",
    "let N = set K K",
    "drop N",
    "show N",
    "show N",
    "count N",
    "append N K",
    "append N K",
    "append N A",
    "insert N P K",
    "insert N P K",
    "insert N P A",
    "update N K",
    "update N K",
    "remove N K",
    "remove N K",
    "removeat N P",
    "removeat N P",
    "at N P",
    "has N K",
    "place N K",
    "place N K",
    "swap N P P",
    "swap N P P",
    "reverse N",
    "union N N",
    "union N N",
    "inter N N",
    "minus N N",
    "symdiff N N",
    "symdiff N N",
    "subset N N",
    "disjoint N N",
    "equal N N",
    "insert N K",
    "clear N",
];

const ORDERED_PAIRS: &[&str] = &[
    "let N = odict K A K A K A",
    "let N = odict K A K A",
    "let N = odict",
    "let N = N",
    "let N = N",
    "let N = dict K A K A",
    "drop N",
    "show N",
    "show N",
    "count N",
    "put N K A",
    "put N K A",
    "put N K A",
    "get N K",
    "remove N K",
    "remove N K",
    "removeat N P",
    "removeat N P",
    "at N P",
    "at N P",
    "has N K",
    "place N K",
    "place N K",
    "swap N P P",
    "swap N P P",
    "reverse N",
    "reverse N",
    "equal N N",
    "equal N N",
    "merge N N take",
    "append N A",
];

const HEAPS: &[&str] = &[
    "let N = heap K K K L",
    "let N = heap L A A",
    "let N = heap",
    "let N = N",
    "let N = N",
    "let N = array L",
    "drop N",
    "show N",
    "show N",
    "count N",
    "insert N K",
    "insert N K",
    "insert N A",
    "insert N A",
    "pop N min",
    "pop N max",
    "pop N E",
    "peek N min",
    "peek N max",
    "peek N E",
    "replace N min A",
    "replace N max A",
    "replace N E K",
    "equal N N",
    "append N A",
];

/// The forms of the kinds that are built. A script has those of one.
const FORMS: &[&[&str]] = &[LISTS, DEQUES, SETS, DICTS, ORDERED, ORDERED_PAIRS, HEAPS];

const NAMES: &[&str] = &["a", "b", "c", "d"];

const ATOMS: &[&str] = &["0", "1", "2", "3", "-7", "\"\"", "\"x\"", "\"a \\\"b\\\"\""];

/// Of one home, and the last three of one hash with the first.
const KEYS: &[&str] = &[
    "0",
    "8",
    "16",
    "64",
    "-8",
    "\"x\"",
    "4294967297",
    "8589934594",
    "12884901891",
];

const PLACES: &[&str] = &["0", "0", "1", "1", "2", "3", "5", "-1"];

const ENDS: &[&str] = &["first", "first", "last", "last", "min"];

const RULES: &[&str] = &["0", "1", "2", "3", "3", "4", "5", "-1"];

const VERBS: &[&str] = &["first", "show", "count"];

/// A sequence of numbers that its first number tells, and the forms of its lines.
#[derive(Drop)]
pub struct Numbers {
    last: u64,
    forms: &'static [&'static str],
}

impl Numbers {
    /// The sequence of a seed, which tells the kind of its lines.
    pub fn of(seed: u64) -> Numbers {
        let forms = FORMS
            .get(seed as usize % FORMS.len())
            .copied()
            .unwrap_or(LISTS);
        Numbers { last: seed, forms }
    }

    /// The next number, below 2^31.
    pub fn next(&mut self) -> u64 {
        self.last = self
            .last
            .wrapping_mul(6_364_136_223_846_793_005)
            .wrapping_add(1_442_695_040_888_963_407);
        self.last >> 33
    }

    /// One of the words.
    pub fn one_of<'a>(&mut self, words: &[&'a str]) -> &'a str {
        let at = self.next() as usize % words.len().max(1);
        words.get(at).copied().unwrap_or("")
    }

    /// Up to three atoms.
    fn atoms(&mut self, script: &mut Vec<u8>) -> Result<(), AllocError> {
        for _ in 0..self.next() % 4 {
            script.extend_from_slice(self.one_of(ATOMS).as_bytes())?;
            script.push(b' ')?;
        }
        Ok(())
    }

    /// What this form stands for.
    pub fn put(&mut self, form: &str, script: &mut Vec<u8>) -> Result<(), AllocError> {
        for byte in form.as_bytes() {
            match byte {
                b'N' => script.extend_from_slice(self.one_of(NAMES).as_bytes())?,
                b'A' => script.extend_from_slice(self.one_of(ATOMS).as_bytes())?,
                b'K' => script.extend_from_slice(self.one_of(KEYS).as_bytes())?,
                b'P' => script.extend_from_slice(self.one_of(PLACES).as_bytes())?,
                b'E' => script.extend_from_slice(self.one_of(ENDS).as_bytes())?,
                b'R' => script.extend_from_slice(self.one_of(RULES).as_bytes())?,
                b'V' => script.extend_from_slice(self.one_of(VERBS).as_bytes())?,
                b'L' => self.atoms(script)?,
                other => script.push(*other)?,
            }
        }
        Ok(())
    }

    /// A line of a form that is built.
    pub fn line(&mut self, script: &mut Vec<u8>) -> Result<(), AllocError> {
        let form = self.one_of(self.forms);
        self.put(form, script)?;
        script.push(b'\n')?;
        Ok(())
    }
}
