//! What arrays show through rules: what a lazy statement does to one of them.
//!
//! [`look`] makes a view over a second handle of the array, prints what the statement asks of it, and ends it. There is
//! no invariant. The layer above uses [`look`], for values that are arrays.
#![tactic(auto)]

mod lazy;

pub use lazy::look;
