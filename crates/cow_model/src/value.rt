use crate::plain::Literal;
use sqlite_items::Items;

/// A key with its value.
#[derive(Debug, Drop)]
pub struct Pair {
    pub key: Literal,
    pub value: Literal,
}

/// A plain value: what a value of a script is apart from how it is stored.
#[derive(Debug, Drop)]
pub enum Plain {
    /// A list.
    Array(Items<Literal>),
    /// A list, and the index of its first element.
    Slice { start: u64, items: Items<Literal> },
    /// A list.
    Deque(Items<Literal>),
    /// A set, as the ascending list of its members.
    Set(Items<Literal>),
    /// A map, as the list of its pairs by ascending key.
    Dict(Items<Pair>),
    /// A list without repeats.
    OSet(Items<Literal>),
    /// A list of pairs with distinct keys.
    ODict(Items<Pair>),
    /// An ascending list, with repeats.
    Heap(Items<Literal>),
    /// A set, as the ascending list of its members.
    TSet(Items<Literal>),
    /// A map, as the list of its pairs by ascending key.
    TDict(Items<Pair>),
}
