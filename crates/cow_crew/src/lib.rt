//! Jobs that several threads draw from one table and run, with their results in the order of the
//! jobs.
//!
//! A `Board` is a table of the kit's `atomic_table` with one word and a slot for each job. The
//! word is the number of draws. Whoever has a `Pass` draws the next number by one fetch_add; where
//! it is that of a job, the pass then has the slot, takes the job out, runs it and puts the result
//! in, and gives the slot back with its next draw. A number past the jobs ends the pass. `run_all`
//! does this with a pass for each worker.
//!
//! # The invariant
//!
//! At every moment between two atomic steps (`specs/Rule.antt`):
//!
//! - each number below the word stands in one pass, once, and no other number stands in any;
//! - the slot of a job that nobody drew holds the job; the slot of the last number of a pass is
//!   with that pass; every other slot holds a result that its job gives;
//! - the passes have one part more than there are jobs, and no pass has drawn more ends than it has
//!   parts. So the word is at most `2 n + 1` for n jobs and never wraps.
//!
//! So each job is run by one pass, once. A pass that has all parts, and whose last number is past
//! the jobs, is the only one that has drawn anything, so every slot is home with its result.
//!
//! # What the layer above may use
//!
//! `Job`, `Gate`, `OpenGate` and `run_all`, whose contract is `InOrder` of `specs/Order.antt`; the
//! lemmas of `proofs/Order.antt` lift it to whole lists. `Board` and `Pass` are for threads of a
//! caller's own: a board is Send and Sync, a pass is Send.
//!
//! | call | atomic steps | memory |
//! |---|---|---|
//! | `Board::open` | none: no other thread knows the board | the slots and one word |
//! | `split`, `join` | one load | none |
//! | `draw` | one fetch_add | none |
//! | `serve` | none | what the job asks for |
//! | `close` | none: no other thread has a pass that drew | the results |
//!
//! No call waits, and none tries a step again.
//!
//! # What the contracts leave open
//!
//! - `open`, `close` and `run_all` may always answer want of memory. Tests show that they succeed.
//! - No clause says that two threads work, which of them runs a job, or that the gate is passed
//!   first. Tests with gates show that two jobs run at once, whichever job waits for the other two.
//! - Jobs and results that are dropped for want of memory are in no clause.
#![tactic(auto)]

mod board;
mod crew;
mod job;
mod pass;
mod place;
mod rule;
mod slots;

pub use board::Board;
pub use crew::run_all;
pub use job::{Gate, Job, OpenGate};
pub use pass::Pass;
