//! What the bytes of a script are before their meaning: lines, tokens, integers, texts and names.
//!
//! Everything is read from the front of what is left, once: a line up to its newline, a token up to its
//! space, an atom with the token that it is. Lines and tokens are slices of the input; only the content of
//! a text takes memory. No call recurses, and each is linear in the bytes that it reads.
//!
//! - `places`: the first place of a byte, by vectors.
//! - `lines`: the next line, empty lines, and the bytes that a line may have.
//! - `integers`: the integer at the front of a line, in one pass over its digits with one test of its range.
//! - `texts`: the content of the text at the front of a line, by the runs between its escapes.
//! - `atoms`: the atom at the front of a line.
//! - `tokens`: [`Tokens`], the tokens of a line that aren't read yet.
//! - `names`: which words are names.
//! - `stop`: [`Stop`], why a line isn't read: a flaw of it, or want of memory.
//!
//! The invariant of each step is one equation with a definition of `cow_model`: `lines_of`, `tokens_of`,
//! `atom_of`, `integer_of`, `is_name`. The layer above uses [`next_line`], [`is_printable`],
//! [`Tokens`], [`integer`], [`is_name`] and [`next_escape`], and says of its own steps what `specs/Reads.antt` has
//! words for: `Gives` and `Reads`.
#![tactic(auto)]

mod atoms;
mod integers;
mod lines;
mod names;
mod places;
mod stop;
mod texts;
mod tokens;

pub use integers::integer;
pub use lines::{is_printable, next_line};
pub use names::is_name;
pub use places::next_escape;
pub use stop::Stop;
pub use tokens::Tokens;
