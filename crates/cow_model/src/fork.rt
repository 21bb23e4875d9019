use crate::outcome::{Entry, Environment};
use crate::plain::Bytes;
use sqlite_items::Items;

/// The names of a parent and of its task after captures, and the lines of those that were refused.
#[derive(Debug, Drop)]
pub struct Captured {
    pub parent: Items<Entry>,
    pub names: Items<Entry>,
    pub text: Bytes,
}

/// A fork after captures: the parent's names, the lines of refused captures, and each task's names.
#[derive(Debug, Drop)]
pub struct Forked {
    pub parent: Items<Entry>,
    pub text: Bytes,
    pub tasks: Items<Items<Entry>>,
}

/// A task in the middle of its run: its environment, its text, and the entries that it has given.
#[derive(Debug, Drop)]
pub struct Task {
    pub env: Environment,
    pub text: Bytes,
    pub gives: Items<Entry>,
}
