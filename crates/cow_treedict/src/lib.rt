//! Persistent dictionaries over counted storage, after `TreeDictionary` of swift-collections.
//!
//! A [`TreeDictionary`] is a counted root node of a CHAMP trie (`cow_champ`). A copy is one retain and shares all nodes; a
//! change copies those nodes on the path of its key that others hold, at most 32 pairs a level and the keys of one hash
//! below them, and shares the rest.
//!
//! Contracts see a dictionary as the list of its pairs by ascending key and whether the handle is known to be alone
//! (`docs/CONTRACTS.md`). A tree has no room: that field is 0. A change takes the memory of its whole path before anything
//! that is shown changes, so an answer `NoMemory` leaves every value as it was and hands back what was given; only
//! `from_pairs` ends the items that it was given. The pairs
//! are read by `get`, by ascending key by `sorted`, or by ascending digits of their hashes by `references`.
//!
//! The invariant: the root's node is whole, of level 0, and has the canonical shape of its pairs, whatever the changes
//! were that led to it; the pairs are counted, and are fewer than 2^31.
//!
//! The last parameter of the type is the root's node type. Whatever works on trees is generic in it, and a `Task` of
//! `cow_levels` is run with it; [`Tree`] is the type that it then is.
//!
//! `dictionary` has the type and its calls, `distinct` the pairs that `from_pairs` builds a trie of, `merging` the copies
//! of those that `merge` does, `questions` what is asked of all keys, `removal` the call by which a pair goes, `filtering`
//! the one by which those stay whose keys pass a test, and `tree` the type of a root.
//!
//! Every call that takes memory may always answer want of it by its contract, but `remove` where the key isn't there and
//! `filter_keys` where all pairs stay; tests show that they succeed. How many nodes `update` and `remove` copy depends on who
//! else holds them, so their contracts bound the copies of an alone dictionary too, and tests show that there are none where
//! nobody else holds the trie.
#![tactic(auto)]

mod dictionary;
mod distinct;
mod filtering;
mod merging;
mod questions;
mod removal;
mod tree;

pub use dictionary::TreeDictionary;
pub use tree::Tree;
