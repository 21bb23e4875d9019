//! Tests of lazy views and their rules, by public names. Nothing stands above this crate.
#![tactic(auto)]

#[cfg(test)]
mod lazy;
