//! Ordered sets and dictionaries over counted storage, after Swift's `OrderedSet` and `OrderedDictionary`.
//!
//! An [`OrderedSet`] has its keys in a row, in their order, beside a table of their hashes and positions. So the members
//! are read by position as an array's elements are, and looked up as a set's. An [`OrderedDictionary`] has besides a row
//! of values, each at the position of its key. A copy is one retain and shares the storage; a change of a storage that
//! others hold copies the keys first, and a change of an unshared one works in place.
//!
//! Contracts see an ordered set as the list of its members, and an ordered dictionary as that of its pairs, without
//! repeats, whether the handle is known to be alone, and the room (`docs/CONTRACTS.md`). A call that finds nothing to
//! change leaves the handle as it was: it takes no memory, and a handle that isn't alone still shares its storage. A
//! change takes the room of rows and table before it moves a key, so an answer `NoMemory` leaves every value as it was and
//! hands back what was given.
//!
//! The invariant is that of the members: they are settled, distinct, and indexed by the table; and each key has one
//! settled value. The steps of changes are those of `cow_members` and of `cow_dict`: `storage`, `algebra`, `pairs`, and
//! `order`, by which keys keep their order. A key that comes or goes in the middle moves the positions behind it, in one
//! pass over the table; at the end it does so in a few steps. `alike` compares two rows.
//!
//! `new` may always answer want of memory, so a body that only does so meets the contract. A change of a storage that
//! isn't known to be unshared may answer it too. `tests_ordered` shows that such calls succeed.
#![tactic(auto)]

mod alike;
mod dictionary;
mod set;

pub use dictionary::OrderedDictionary;
pub use set::OrderedSet;
