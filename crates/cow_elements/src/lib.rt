//! What the kinds of values share: the elements that they hold, where an index points, what is printed
//! of a list of elements, and whether a statement leaves one the same.
//!
//! An [`Element`] is a key that is made of a literal and that is printed; an `Atom` is one. [`Listed`] is
//! what shows a list of elements: the functions on lists work on any kind that has it.
//!
//! Nothing here keeps an invariant. A kind's crate uses all of it.
#![tactic(auto)]

mod element;
pub mod keeps;
pub mod lines;
mod listed;
pub mod pairs;
pub mod positions;
pub mod queries;
pub mod reading;

pub use element::{Element, Sought};
pub use listed::{Listed, put_list, put_list_from};
