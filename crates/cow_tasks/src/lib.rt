//! Forks: tasks on several workers, and statements and blocks of the whole language.
//!
//! A fork gives each task an environment of its own, of copies and of whole values of its parent's, and a part of
//! its parent's holder. [`Task`] is a job of `cow_crew`: a worker runs its statements, ends what it still holds,
//! and hands over its text, what it gives, and its holder as a [`TaskOut`]. At the join the parent takes these in
//! the tasks' order, whatever finished first. So what a block prints and leaves is that of one thread
//! (`specs/Tasks.antt` says this of a task, `specs/Blocks.antt` of a block).
//!
//! The layer above uses [`run_statement`] and [`run_block`], which are generic in the type of values, as
//! `cow_eval` is, and [`first_unbuilt`], which tells the first statement that no crate below can run yet.
//!
//! What a task may rely on is the invariant of its type: its statements are those of a script, and its holder and
//! environment let all of them run. So a job has no condition of its own.
#![tactic(auto)]

mod block;
mod built;
mod captures;
mod fork;
mod join;
mod task;

pub use block::{run_block, run_statement};
pub use built::first_unbuilt;
pub use task::{Task, TaskOut};
