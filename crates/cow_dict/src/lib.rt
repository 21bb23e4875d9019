//! Dictionaries over counted storage, after Swift's `Dictionary`.
//!
//! A [`Dictionary`] has its keys in a row, beside a table of their hashes, and its values in a second row, each at the
//! position of its key. A copy is one retain and shares the storage; a change of a storage that others hold copies the
//! pairs first, and a change of an unshared one works in place.
//!
//! Contracts see a dictionary as the list of its pairs by ascending key, whether the handle is known to be alone, and
//! the room (`docs/CONTRACTS.md`). A call that finds nothing to change leaves the handle as it was: it takes no memory,
//! and a dictionary that isn't alone still shares its storage. A change takes the room of table and rows before it moves
//! a pair, so an answer `NoMemory` leaves every value as it was and hands back what was given. A key that is there stays
//! where its value is replaced, and the one that was given ends. The pairs are read by `get`, by ascending key by
//! `sorted`, or all at once, in no promised order, by `as_slices`.
//!
//! The invariant is that of its members, and one settled value for each key. `dictionary` has the type and its calls,
//! `pairs` the steps on one pair, `algebra` what a dictionary does with another or with a test of keys, `storage` what
//! the changes share. Ordered dictionaries work on the same pairs, by `pairs`, `storage`, and `order`, by which they keep
//! their order.
//!
//! `new` and `sorted` may always answer want of memory, so a body that only does so meets the contract. A change of a
//! storage that isn't known to be unshared may answer it too. That such calls succeed is tested: the program's random
//! scripts run dictionaries, and ordered dictionaries have tests of their own.
#![tactic(auto)]

mod algebra;
mod dictionary;
pub mod order;
pub mod pairs;
mod rule;
pub mod storage;

pub use dictionary::Dictionary;
pub use rule::Merge;
