//! Raw memory as a list of filled and empty places.
//!
//! A `Buf<T>` is one block of memory with room for a fixed number of values. Contracts see it as a list of
//! `Option<T>`, as long as the capacity: the i-th is `None` where the i-th place is empty. A value gets in by
//! `put` and out by `take`, is read by `at` and `at_mut`, a run of places is read by `run` as one slice, and
//! moves by `shift`, `drain_into` and `move_into`.
//!
//! A place costs the size of a `T` and nothing more: which places are filled is known by the contracts alone. So
//! nothing is looked at and nothing is noted at run time, a new buffer is one allocation, and a run moves by one
//! move of memory. For the same reason a buffer can't be dropped: the layer above, which knows its run of filled
//! places, takes the values out and calls `free`. A buffer is `Send` where `T` is, and `Sync` where `T` is.
//!
//! - `buf`: the buffer, in safe code. Its invariant: it keeps the number of its places, which are at most 2^32.
//! - `memory`: the owner of the block, and the only functions that touch its pointer, each with a proof by hand.
//!   A function takes a value out of a filled place or puts one into an empty place, so that no value is lost,
//!   and none is had twice.
#![tactic(auto)]

mod buf;
mod memory;

pub use buf::Buf;
