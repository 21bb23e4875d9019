//! Tests of tree collections, by public names. Nothing stands above this crate.
#![tactic(auto)]

#[cfg(test)]
mod dictionary;
#[cfg(test)]
mod making;
#[cfg(test)]
mod nodes;
#[cfg(test)]
mod removing;
#[cfg(test)]
mod threads;
