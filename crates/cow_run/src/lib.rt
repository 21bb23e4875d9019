//! The top call: runs a script from a source to a sink.
//!
//! [`cowrun`] is generic over its source and sink, and its contract is the whole table of answers. Below it
//! stand reading ([`input`]), running ([`run`]) and writing ([`output`], [`lines`]). The layer above uses
//! [`cowrun`] and [`Status`] and nothing else.
#![tactic(auto)]

mod command;
mod input;
mod lines;
mod options;
mod output;
mod run;
mod status;

pub use command::cowrun;
pub use status::Status;
