use crate::name::Name;
use crate::plain::Literal;
use sqlite_items::Items;

/// What a value is made as by `let N = KIND ..`. A slice is made from an array and is no kind.
#[derive(Clone, Copy, Debug, PartialEq, Eq)]
pub enum Kind {
    Array,
    Deque,
    Set,
    Dict,
    OSet,
    ODict,
    Heap,
    TSet,
    TDict,
}

/// The end of a value at which `pop`, `peek` and `replace` work.
#[derive(Clone, Copy, Debug, PartialEq, Eq)]
pub enum Side {
    First,
    Last,
    Min,
    Max,
}

/// What a lazy statement asks of its view.
#[derive(Clone, Copy, Debug, PartialEq, Eq)]
pub enum Verb {
    First,
    Show,
    Count,
}

/// A name that a task is given by its parent.
#[derive(Debug, Drop)]
pub struct Capture {
    /// Whether the value is taken out of the parent (`take`), and not copied (`copy`).
    pub moves: bool,
    pub name: Name,
}

/// A task of a fork.
#[cycle(statement)]
#[derive(Drop)]
pub struct TaskBlock {
    pub line: u64,
    pub captures: Items<Capture>,
    pub statements: Items<Statement>,
}

/// A statement of a script. Its `line` is where it stands, counted from 1.
#[cycle(statement)]
#[derive(Drop)]
pub enum Statement {
    /// `let NAME = KIND ATOMS`
    Let {
        line: u64,
        name: Name,
        kind: Kind,
        atoms: Items<Literal>,
    },
    /// `let NAME = OTHER`
    Assign {
        line: u64,
        name: Name,
        other: Name,
    },
    /// `let NAME = slice OTHER I J`
    Slice {
        line: u64,
        name: Name,
        other: Name,
        i: i64,
        j: i64,
    },
    /// `drop NAME`
    Discard {
        line: u64,
        name: Name,
    },
    /// `show NAME`
    Show {
        line: u64,
        name: Name,
    },
    /// `count NAME`
    Count {
        line: u64,
        name: Name,
    },
    /// `append NAME ATOM`
    Append {
        line: u64,
        name: Name,
        atom: Literal,
    },
    /// `prepend NAME ATOM`
    Prepend {
        line: u64,
        name: Name,
        atom: Literal,
    },
    /// `insert NAME ATOM`
    Insert {
        line: u64,
        name: Name,
        atom: Literal,
    },
    /// `insert NAME I ATOM`
    InsertAt {
        line: u64,
        name: Name,
        i: i64,
        atom: Literal,
    },
    /// `update NAME ATOM`
    Update {
        line: u64,
        name: Name,
        atom: Literal,
    },
    /// `remove NAME X`
    Remove {
        line: u64,
        name: Name,
        atom: Literal,
    },
    /// `removeat NAME I`
    RemoveAt {
        line: u64,
        name: Name,
        i: i64,
    },
    /// `set NAME I ATOM`
    Set {
        line: u64,
        name: Name,
        i: i64,
        atom: Literal,
    },
    /// `get NAME X`
    Get {
        line: u64,
        name: Name,
        atom: Literal,
    },
    /// `at NAME I`
    At {
        line: u64,
        name: Name,
        i: i64,
    },
    /// `has NAME ATOM`
    Has {
        line: u64,
        name: Name,
        atom: Literal,
    },
    /// `place NAME ATOM`
    Place {
        line: u64,
        name: Name,
        atom: Literal,
    },
    /// `pop NAME END`
    Pop {
        line: u64,
        name: Name,
        side: Side,
    },
    /// `peek NAME END`
    Peek {
        line: u64,
        name: Name,
        side: Side,
    },
    /// `replace NAME END ATOM`
    Replace {
        line: u64,
        name: Name,
        side: Side,
        atom: Literal,
    },
    /// `swap NAME I J`
    Swap {
        line: u64,
        name: Name,
        i: i64,
        j: i64,
    },
    /// `reverse NAME`
    Reverse {
        line: u64,
        name: Name,
    },
    /// `rotate NAME C`
    Rotate {
        line: u64,
        name: Name,
        c: i64,
    },
    /// `splice NAME I J ATOMS`
    Splice {
        line: u64,
        name: Name,
        i: i64,
        j: i64,
        atoms: Items<Literal>,
    },
    /// `reserve NAME C`
    Reserve {
        line: u64,
        name: Name,
        c: i64,
    },
    /// `clear NAME`
    Clear {
        line: u64,
        name: Name,
    },
    /// `rebase NAME`
    Rebase {
        line: u64,
        name: Name,
    },
    /// `extend NAME OTHER`
    Extend {
        line: u64,
        name: Name,
        other: Name,
    },
    /// `union NAME OTHER`
    Union {
        line: u64,
        name: Name,
        other: Name,
    },
    /// `inter NAME OTHER`
    Inter {
        line: u64,
        name: Name,
        other: Name,
    },
    /// `minus NAME OTHER`
    Minus {
        line: u64,
        name: Name,
        other: Name,
    },
    /// `symdiff NAME OTHER`
    SymDiff {
        line: u64,
        name: Name,
        other: Name,
    },
    /// `subset NAME OTHER`
    Subset {
        line: u64,
        name: Name,
        other: Name,
    },
    /// `disjoint NAME OTHER`
    Disjoint {
        line: u64,
        name: Name,
        other: Name,
    },
    /// `equal NAME OTHER`
    Equal {
        line: u64,
        name: Name,
        other: Name,
    },
    /// `put NAME KEY VALUE`
    Put {
        line: u64,
        name: Name,
        key: Literal,
        value: Literal,
    },
    /// `merge NAME OTHER keep`, or `take`
    Merge {
        line: u64,
        name: Name,
        other: Name,
        take: bool,
    },
    /// `within NAME OTHER`
    Within {
        line: u64,
        name: Name,
        other: Name,
    },
    /// `lazy NAME I VERB`
    Lazy {
        line: u64,
        name: Name,
        i: i64,
        verb: Verb,
    },
    /// `fork`, its tasks and its `end`
    Fork {
        line: u64,
        tasks: Items<TaskBlock>,
    },
    /// `give NAME as TO`
    Give {
        line: u64,
        name: Name,
        to: Name,
    },
}

/// A script as it was read.
#[derive(Drop)]
pub struct Script {
    pub statements: Items<Statement>,
}
