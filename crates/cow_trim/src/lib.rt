//! Removal of keys from the nodes of a trie: what is left is canonical again.
//!
//! A collision node closes up. A branch gives a key up by its digit: its own entry goes, or the key goes from the child that
//! stands there. A child of which one pair is left is emptied and ends, and the branch has that pair as an entry then, so no
//! chain of nodes leads to a single pair. At the root the last pair stays.
//!
//! # The invariant
//!
//! That of `cow_champ`: a node is whole, and its shape is the canonical one of its pairs. This crate reads and changes the
//! fields of nodes, as no other does but `cow_champ`, and keeps both. All memory is taken on the way down, before anything
//! that is shown changes.
//!
//! # What the layer above may use
//!
//! - `Trim::cut`, on a root, and `Cut`, its answer. Contracts speak of a node's `shape` and its `pairs`, of `copied` and of
//!   spare. The other calls of `Trim` are for the levels among themselves.
//!
//! | module | what it has |
//! |---|---|
//! | `trim` | the trait, and what is the same on all levels: the look-up, unsharing, what becomes of the last pair |
//! | `collide`, `branch` | the two kinds of nodes |
//!
//! # What the contracts leave open
//!
//! A removal of a key that is there may always answer want of memory, and may always copy the path. Tests show that it
//! succeeds, and copies nothing where nobody else holds the trie.
#![tactic(auto)]

mod branch;
mod collide;
mod trim;

pub use trim::{Cut, Trim};
