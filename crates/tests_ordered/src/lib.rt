//! Tests of ordered collections, by public names: ordered sets and dictionaries.
//!
//! A module holds the tests of one file of `cow_ordered` and has its name. `bench/refused.sh tests_ordered` runs these
//! tests with each allocation refused in turn. Nothing stands above this crate.
#![tactic(auto)]

#[cfg(test)]
mod dictionary;
#[cfg(test)]
mod set;
