//! Tests of heaps, by public names. Nothing stands above this crate.
#![tactic(auto)]

#[cfg(test)]
mod heap;
