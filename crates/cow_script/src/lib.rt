//! Scripts: from bytes to statements, and the printed forms of atoms, lists and pairs.
//!
//! [`parse`] reads the bytes of a script and answers its statements, or what is wrong with its first
//! faulty line. It reads each line once, token by token, with no recursion on the input, so its time is
//! linear in the bytes. Tokens are slices of the input: only texts, names and lists take memory.
//!
//! # What is promised
//!
//! The contract of [`parse`] is one equation. For every bytes, `Ok` has exactly the statements that
//! `script_of` of `cow_model` gives for them, and `Fault` is exactly the fault that it gives: which of the
//! five, at which line, with which numbers. `NoMemory` may come at any time. Nothing is kept between
//! calls, so there is no state that could be spoiled.
//!
//! [`put_atom`], [`put_list`] and [`put_pairs`] append to a text exactly what `Printed` of `cow_model`
//! says of the plain values, whole; refused, they leave the text as it was.
//!
//! # How it is read
//!
//! The code has the shape of the definition, and each function is proved to be its part of it.
//!
//! - `cuts`, `tokens`: the lines of a text, the tokens of a line, the bytes that a line may have.
//! - `integers`, `names`, `atoms`, `words`: what one token is.
//! - `readers`, `lists`: what is due next on a line; a reader takes it or says what is wrong there.
//! - `shapes`, `groups`, `value`, `statement`: the forms of statements.
//! - `standing`, `line`: where a line may stand, and its tests in their order.
//! - `script`: the loop over the lines.
//! - `printed`: the printed forms.
//!
//! # What a caller may use
//!
//! [`parse`], [`ParseStop`], and [`Script`] and [`ParseFault`] of `cow_model`, of which the types of
//! statements are too. A contract above cites `script_of`, and what it says of a script holds of
//! `script.statements`. One that prints cites `Printed` of `cow_model`, and `plain_of` and `pair_of` of
//! `specs/Shown.antt`.
//!
//! # What the contracts leave open
//!
//! - A call that may answer `NoMemory`, such as [`parse`] or [`put_list`], may always do so. Tests show
//!   that each of the public ones succeeds.
//! - No clause says how many steps a call takes, or that it takes no more memory than is told here.
#![tactic(auto)]

mod groups;
mod line;
mod lists;
mod readers;
mod script;
mod shapes;
mod standing;
mod statement;
mod value;
mod words;

pub use cow_model::{ParseFault, Script};
pub use script::{ParseStop, parse};
