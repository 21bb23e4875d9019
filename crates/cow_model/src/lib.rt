//! The ground of the library: scripts as they are read, what they mean, and the words of contracts.
//!
//! Nothing here shares storage or runs. Its types hold plain values, and its `specs/` say what every
//! crate above promises:
//!
//! - `Lexis`, `Integer`, `Atom`, `Name`, `Words`, `Readers`, `Forms`, `Parse`: which statements the bytes of
//!   a script are, or which fault they have;
//! - `Plain`, `Order`, `Members`, `Pairs`, `Printed`: plain values, as lists, sets and maps, and how they print;
//! - `Operation`, `Query`, `Changes`: what a statement makes of a value, and what it reads of one;
//! - `Env`, `Step`, `Fork`, `Run`: what a script prints, on one thread, with a whole value for each name;
//! - `Sharing`: how many copies a statement allows, and when a value is taken to be alone;
//! - `Lazy`, `Generator`: views of arrays through rules, and the generator of scripts;
//! - `Fronts`: what may be written of a text when a run stops early;
//! - `Hash`, `Literals`: the hashes of plain atoms, and what kind of atom one is;
//! - `Held`: where the bytes of a text stand;
//! - `Purse`, `Flat`, `Lists`: what a contract says of a holder and of a collection over one storage.
//!
//! docs/MEANING.md leads through them. `proofs/Rows` and `proofs/ParseRows` compute worked scripts, so a
//! definition that says something else is an error of the check.
#![tactic(auto)]

mod fault;
mod fork;
mod memory;
mod name;
mod outcome;
mod plain;
mod reading;
mod refusal;
mod shape;
mod statement;
mod value;
mod word;

pub use fault::{Flaw, ParseFault};
pub use fork::{Captured, Forked, Task};
pub use memory::NoMemory;
pub use name::Name;
pub use outcome::{Done, Entry, Environment, Outcome};
pub use plain::{Bytes, Literal};
pub use reading::{Due, Quoting, Reading, Standing};
pub use refusal::Refusal;
pub use shape::Shape;
pub use statement::{Capture, Kind, Script, Side, Statement, TaskBlock, Verb};
pub use value::{Pair, Plain};
pub use word::{AtomWord, Form, NameWord, OtherWord, PlaceWord, SideWord, Word};
