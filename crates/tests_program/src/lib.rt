//! Tests of the top call, by public names: what it prints and how it ends, beside the definitions as they run.
//!
//! `program`, `random`, `grid`, `fork_rows`, `forks` and `lazy_rows` are for `cow_run`, `yardstick` is for `cow_plain`;
//! `lines` and `numbers` write scripts. Nothing stands above this crate.
#![tactic(auto)]

#[cfg(test)]
mod fork_rows;
#[cfg(test)]
mod forks;
#[cfg(test)]
mod grid;
#[cfg(test)]
mod lazy_rows;
#[cfg(test)]
mod lines;
#[cfg(test)]
mod numbers;
#[cfg(test)]
mod program;
#[cfg(test)]
mod random;
#[cfg(test)]
mod yardstick;
