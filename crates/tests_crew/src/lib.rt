//! Tests of workers, by the public names of `cow_crew`. Nothing stands above this crate.
#![tactic(auto)]

#[cfg(test)]
mod crew;
