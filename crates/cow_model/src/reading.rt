use crate::statement::{Statement, TaskBlock};
use sqlite_items::Items;

/// Where a byte of a line stands, by what comes before it.
#[derive(Clone, Copy, Debug, PartialEq, Eq)]
pub enum Quoting {
    /// Before a token, or as its first byte.
    Start,
    /// In a token, outside of quotes.
    Plain,
    /// In quotes.
    Quoted,
    /// In quotes, right behind a `\` that escapes it.
    Escaped,
}

/// What may come next behind `task`.
#[derive(Clone, Copy, Debug, PartialEq, Eq)]
pub enum Due {
    /// The word of the first group, or nothing.
    Group,
    /// The first name of a group.
    FirstName { moves: bool },
    /// One more name of the group, the word of another one, or nothing.
    NextName { moves: bool },
}

/// The fork and the task in which a line stands.
#[derive(Drop)]
pub enum Standing {
    Outside,
    /// In the fork of line `fork`, outside of its tasks.
    InFork {
        fork: u64,
        tasks: Items<TaskBlock>,
    },
    /// In a task, behind this many `give` statements of it.
    InTask {
        fork: u64,
        tasks: Items<TaskBlock>,
        task: TaskBlock,
        gives: u64,
    },
}

/// How far a script is read: the statements outside of forks, and what is open.
#[derive(Drop)]
pub struct Reading {
    pub statements: Items<Statement>,
    pub standing: Standing,
}
