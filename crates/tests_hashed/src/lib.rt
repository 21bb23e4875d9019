//! Tests of hashed collections, by public names: tables and sets.
//!
//! A module holds the tests of one crate and has its name, without `cow_`; `noted` has a key that counts its drops,
//! and a hash that all such keys have. `bench/refused.sh` runs these tests with each allocation refused in turn.
//! Nothing stands above this crate.
#![tactic(auto)]

#[cfg(test)]
mod noted;
#[cfg(test)]
mod set;
#[cfg(test)]
mod table;
