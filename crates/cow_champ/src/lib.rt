//! Nodes of a CHAMP trie over counted cells: a compressed hash-array mapped prefix tree, after Steindorfer and Vinju,
//! "Optimizing Hash-Array Mapped Tries for Fast and Lean Immutable JVM Collections".
//!
//! A trie is a counted root node. A branch looks at five bits of a key's hash: at that digit it has nothing, one pair,
//! or a counted child for all pairs of the digit. Below the seventh branch all hashes of a node are equal, and its
//! pairs stand in key order. So the shape of a trie is a function of its pairs (`canon`), whatever the changes were
//! that led to it.
//!
//! # The invariant
//!
//! - A branch has two bit maps, of the digits with a pair and of those with a child, and no digit is in both. Its two
//!   rows are dense: as long as their maps have members, in the order of the digits (`Fits`).
//! - The handles of children and the items in rows are settled, so that a node that others hold can be copied. Whether
//!   a child is shared is asked of its handle, by one atomic load, on the way down.
//! - A level stands over any level: `Branch<K, V, C, Q, AT>` has children `C`. That the levels count up to the
//!   collision node's is the condition `Stacked` of every call. `LEVEL` is 0 at the root.
//!
//! `IsWhole` says the first two, and `IsCanonical` that the shape is canonical; `put` keeps both.
//!
//! # What the layer above may use
//!
//! - `Level`: the calls, each with one contract for all levels. Contracts speak of a node's `shape` and its `pairs`,
//!   of `copied` and of spare, and of no bit map, row or handle.
//! - `Branch` and `Collide`, to put levels on one another. Whatever works on tries is generic in the root's type;
//!   `cow_levels` makes that type.
//! - The fields of nodes, `bits` and `branch::add`, for `cow_trim` alone: it takes keys out, and keeps nodes whole.
//!
//! | module | what it has |
//! |---|---|
//! | `level` | the trait, and what is the same on all levels: unsharing, `put`, `pair`, `build`, `end` |
//! | `collide`, `branch` | the two kinds of nodes |
//! | `bits`, `keys`, `rows` | digits and bit maps; keys by plain values; rows of pairs and of handles |
//! | `walks`, `groups` | what stands at a digit, for walks; pairs by digit, for `build` |
//!
//! # What the contracts leave open
//!
//! - Any call that takes memory may answer want of it. Tests show that the calls succeed.
//! - A handle in a row isn't known to be alone, so `put` may always copy the path by its contract. A test counts that
//!   it copies nothing where nobody else holds the trie.
#![tactic(auto)]

pub mod bits;
pub mod branch;
mod collide;
mod groups;
mod keys;
mod level;
mod rows;
mod walks;

pub use branch::Branch;
pub use collide::Collide;
pub use level::Level;
pub use rows::Entry;
