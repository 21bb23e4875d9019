//! Rules: what is asked about integers.
//!
//! - `Rule`: contracts see of a rule its shape, which says what it answers, and how often it has been asked. Whoever
//!   makes a rule boxes it and lends it: what asks one takes a `&mut Box<dyn Rule>`, and sees no more of it.
//! - `PlainRule`: the rule that is these two.
//!
//! What a shape answers are the definitions of `cow_model` (`value_by`, `keeps`). There is no invariant. The layers
//! above use the clauses of `Rule`: lazy views, and whatever lends them a rule.
#![tactic(auto)]

mod rule;

pub use rule::{PlainRule, Rule};
