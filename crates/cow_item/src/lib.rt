//! Items, which counted storage can hold, and keys, which collections can look up.
//!
//! An item is seen by its plain value: a `Literal`, that is an integer or a list of numbers. An item may hold
//! one handle of counted storage, which is one unit out of its holder. `Item` says how it is copied, settled
//! and ended, and that `copied` rises by its WEIGHT, which is 0 or 1, at each `copy`. Items have no `Clone`: in
//! generic code `twin` is the only call that makes a second element, and `copy` is `twin` and one count. Whoever
//! calls `twin` for a run of items counts the run.
//!
//! A `Key` is an item with a hash, an equality and an order, each a function of the plain value. So equal keys
//! have equal hashes, `same` is equality, and `order` is total and agrees with it.
//!
//! - `item`: the two traits. The layer above uses their clauses alone.
//! - `numbers`: i64 and `()` as items and keys.
//! - `text`: `Text`, a counted text of at most 255 bytes.
//! - `atom`: `Atom`, an integer or a text, and how it is read from a script's `Literal`.
//! - `equivalent`: what a key can be looked for by: another key, or for an atom a script's `Literal`.
//! - `hash`: the hashes of integers and texts.
//!
//! `tests` has an item and key of a user's own, two numbers and a text, and an item whose value counts its
//! drops.
#![tactic(auto)]

mod atom;
mod equivalent;
mod hash;
mod item;
mod numbers;
mod text;

pub use atom::Atom;
pub use equivalent::Equivalent;
pub use item::{Item, Key};
pub use text::Text;
