//! What a value shows through rules: the part of values that lazy statements need.
//!
//! [`Views`] is implemented by the type of the values of all kinds. What a lazy statement prints and allows is in
//! `specs/Views.antt`, and how often statements ask rules in `specs/Asks.antt`. There is no invariant. The layer above
//! uses the trait, and lends it the rules that its caller made.
#![tactic(auto)]

mod views;

pub use views::Views;
