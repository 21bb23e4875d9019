//! The kind of ordered dictionaries: what one statement does to one of them.
//!
//! Each statement is a function whose contract is its row of the table of `cow_model`, and the trait of
//! `cow_value` sends it to its function. What contracts see of the kind is in `specs/Values.antt`.
//!
//! There is no invariant beyond that of the collection. The layer above uses the trait, and `make`.
#![tactic(auto)]

mod odict;

pub use odict::{OrderedDictValue, make};
