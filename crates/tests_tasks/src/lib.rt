//! Tests of blocks of the whole language, by public names: what a caller of the library prints by `run_block`, over
//! values of the library's own.
//!
//! Nothing stands above this crate.
#![tactic(auto)]

#[cfg(test)]
mod blocks;
