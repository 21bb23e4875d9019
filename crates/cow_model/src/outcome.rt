use crate::name::Name;
use crate::plain::Bytes;
use crate::value::Plain;
use sqlite_items::Items;

/// The value of a name after a statement, and the line that the statement prints, or nothing.
#[derive(Debug, Drop)]
pub struct Done {
    pub value: Plain,
    pub reply: Bytes,
}

/// A name, its value, and whether the sharing rule takes that to be alone in its storage.
#[derive(Debug, Drop)]
pub struct Entry {
    pub name: Name,
    pub value: Plain,
    pub alone: bool,
}

/// The names of a block, how many bytes `show` may still print in it, and how many copies the
/// sharing rule has allowed it.
#[derive(Debug, Drop)]
pub struct Environment {
    pub names: Items<Entry>,
    pub room: u64,
    pub allowed: u64,
}

/// The environment after a statement, and what the statement prints.
#[derive(Debug, Drop)]
pub struct Outcome {
    pub env: Environment,
    pub text: Bytes,
}
