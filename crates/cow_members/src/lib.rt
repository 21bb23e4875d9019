//! Distinct keys in a row, beside the table of their hashes: what a set is, and what a dictionary has beside its
//! values.
//!
//! Contracts of [`Members`] see the row of keys and the pairs of the table. What they keep is one record, `AreSound`,
//! which each function asks for and promises: the keys are settled, distinct and indexed by the table, and where the
//! row has a place for a key, so has the table. The set that they stand for is the ascending list of the plain keys
//! (`set_of`), so it doesn't depend on their positions.
//!
//! A caller hashes a key once, looks it up by `place_of`, takes memory by `reserve`, and changes by calls that take
//! none. Copies are made in two steps, `blank`, which takes all memory, and `fill`, which can't be refused, so that the
//! caller takes memory of its own between them. A removal puts the last key in the place of the one that goes, so a dictionary does the same with its values.
//!
//! What collections share stands beside it: `storage` has the steps of a change on a counted storage of members,
//! `algebra` what two collections of members do to each other, and `order` the changes by which keys keep their order.
//!
//! `new`, `blank` and a `reserve` without room may always answer want of memory, so a body that only does so meets
//! the contract. The tests of the collections show that they succeed.
#![tactic(auto)]

pub mod algebra;
pub mod members;
pub mod order;
pub mod storage;

pub use members::Members;
