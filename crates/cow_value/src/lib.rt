//! What a value of any kind is to the layer above: traits, with each contract once.
//!
//! Contracts see of a value its plain value, whether it is known to be alone, and its hidden units
//! (`specs/Seen.antt`). What a call relies on and promises is one record each (`specs/Calls.antt`),
//! over the row that the table of `cow_model` gives a statement.
//!
//! - [`Collection`] and [`Meets`] are implemented by each kind and by the type `V` of all kinds: what a
//!   statement on one value does, and one on two. By [`Holds`] a kind sees which values of `V` are its own.
//! - [`Values`] is the type of all kinds that are built. The layer above is generic in it,
//!   `V: Values<Q>`: it sees no kind, no element and no storage.
//! - What a statement tells of itself without a value: its number of literals, and where it isn't
//!   built its line.
#![tactic(auto)]

mod collection;
mod statements;

pub use collection::{Collection, Holds, Meets, Shown, Values};
pub use statements::{added, literals, unbuilt_line};
