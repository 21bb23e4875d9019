//! Tests of what comes before a script runs, by public names: sources and sinks, and bytes to statements.
//!
//! `port` is for `cow_port`; `script` and `odd_lines`, a table, are for `cow_script`. Nothing stands above this
//! crate.
#![tactic(auto)]

#[cfg(test)]
mod odd_lines;
#[cfg(test)]
mod port;
#[cfg(test)]
mod script;
