//! The kind of arrays and slices: what one statement does to one of them.
//!
//! Each statement is a function whose contract is its row of the table of `cow_model`, and the trait of
//! `cow_value` sends it to its function. What contracts see of the kind is in `specs/Values.antt`.
//! An array and a slice of it share their storage, and an array is made of a slice again, so one crate has both.
//!
//! There is no invariant beyond that of the collection. The layer above uses the trait, and `make`.
#![tactic(auto)]

mod array;
mod slice;

pub use array::{ArrayValue, make};
pub use slice::SliceValue;
