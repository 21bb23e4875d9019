//! The type of the values of all kinds that are built.
//!
//! A [`Value`] is a value of one of them, each a crate of its own (`kind_array` and so on). What contracts
//! see of it is in `specs/Values.antt`. It keeps no invariant beyond those of its kinds. The layer above
//! puts an element type in and uses the trait of `cow_value` alone.
#![tactic(auto)]

mod rebase;
mod value;

pub use cow_elements::Element;
pub use value::Value;
