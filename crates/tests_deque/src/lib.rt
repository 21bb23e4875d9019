//! Tests of deques, by public names. Nothing stands above this crate.
#![tactic(auto)]

#[cfg(test)]
mod deque;
