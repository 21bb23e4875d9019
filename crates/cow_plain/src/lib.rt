//! The definitions of the script language, run plainly: whole copies, one thread, lists for everything.
//!
//! Every function here answers exactly what the definition of its name in `cow_model` says, so that the
//! tests of other crates have something to compare with. It is slow on purpose and no part of the
//! program. Want of memory is its one answer beside the definition's.
#![tactic(auto)]

mod copies;
mod environment;
mod fork;
mod lazy;
mod lists;
mod members;
mod operation;
mod outcomes;
mod pairs;
mod plain;
mod printed;
mod query;
mod script;
mod sharing;
mod statements;
mod step;
mod turns;

pub use copies::Whole;
pub use script::{Told, run, run_script};
