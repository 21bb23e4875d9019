//! Printed forms: what statements print of atoms, lists and pairs.
//!
//! [`put_atom`], [`put_list`] and [`put_pairs`] append to a text exactly what `Printed` of `cow_model` says of the
//! plain values. Each appends its form whole, or leaves the text as it was: [`whole_or_none`] takes back what
//! want of memory has left of it, and whoever prints something of its own calls it too. A form is appended
//! by runs: an integer by `itoa`, a text up to its next `"` or `\` in one piece. Nothing takes memory but the
//! room of the text.
//!
//! - `printed`: [`Printed`], what has a printed form, and lists of it.
//! - `atoms`: the forms of atoms and pairs, and the three calls.
//!
//! The layer above cites `Printed` of `cow_model`, and `plain_of` and `pair_of` of `specs/Shown.antt`. An item type of
//! its own has the trait [`Printed`] and is then printed in a list by [`put_items`].
//!
//! Any call may answer `NoMemory` as far as the contracts say; a test shows that each succeeds.
#![tactic(auto)]

mod atoms;
mod printed;

pub use atoms::{put_atom, put_list, put_pairs};
pub use printed::{Printed, put_items, whole_or_none};
