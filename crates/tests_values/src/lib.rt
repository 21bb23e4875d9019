//! Tests of values of any kind and of printed forms, by public names.
//!
//! `kinds` is for `cow_kinds`, through the trait of `cow_value`, and `print` for `cow_print`. Nothing stands above
//! this crate.
#![tactic(auto)]

#[cfg(test)]
mod kinds;
#[cfg(test)]
mod print;
