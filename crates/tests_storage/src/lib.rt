//! Tests of counted storage, by public names: cells, items, rows and arrays.
//!
//! A module holds the tests of one crate and has its name, without `cow_`; `drops` has a value that counts its
//! drops. Nothing stands above this crate.
#![tactic(auto)]

#[cfg(test)]
mod array;
#[cfg(test)]
mod cell;
#[cfg(test)]
mod drops;
#[cfg(test)]
mod item;
#[cfg(test)]
mod row;
