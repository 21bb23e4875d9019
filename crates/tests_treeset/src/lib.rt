//! Tests of tree sets, by public names. Nothing stands above this crate.
#![tactic(auto)]

#[cfg(test)]
mod algebra;
#[cfg(test)]
mod helpers;
#[cfg(test)]
mod keys;
#[cfg(test)]
mod removing;
