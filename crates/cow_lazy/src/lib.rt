//! Lazy views of arrays through boxed rules, after Swift's `lazy.map` and `lazy.filter`.
//!
//! - `Rule`, `PlainRule`: what is asked about integers, of `cow_rule`. The caller boxes rules and lends them.
//! - `Operand`: an element that may be an integer. A rule is asked about integers alone: a text passes a map
//!   unasked, and a filter drops it unasked.
//! - `LazyView<T, Q>`: an array and a shape. Making it asks nothing and stores nothing; `first`, `count` and
//!   `collect` ask the rule that they are lent, as often as `asks` of the definitions says.
//!
//! Contracts see of a view the array under it and its shape, and of a rule its shape and how often it was asked. The
//! elements of a view and what a call asks are those of `cow_model`'s definitions (`view`, `asks`). There is no
//! invariant: the condition of each call is that the rule has the view's shape. The layer above uses the clauses
//! of `LazyView`, `Operand` and `Rule`.
//!
//! `collect` alone takes memory. It may always answer want of it, so a body that only does so meets the contract;
//! the tests show that it succeeds. After such an answer view and holder are as they were, and each integer was asked
//! about once at most.
#![tactic(auto)]

mod ask;
mod operand;
mod view;

pub use cow_rule::{PlainRule, Rule};
pub use operand::Operand;
pub use view::LazyView;
