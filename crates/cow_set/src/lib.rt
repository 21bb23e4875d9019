//! Sets over counted storage, after Swift's `Set`.
//!
//! A [`Set`] has its keys in a row, beside a table of their hashes. A copy is one retain and shares the storage; a
//! change of a storage that others hold copies the keys first, and a change of an unshared one works in place.
//!
//! Contracts see a set as the ascending list of its members, whether the handle is known to be alone, and the room
//! (`docs/CONTRACTS.md`). A call that finds nothing to change leaves the handle as it was: it takes no memory, and a
//! set that isn't alone still shares its storage. A change takes the room of row and table before it moves a key, so
//! an answer `NoMemory` leaves every value as it was and hands back what was given. The members are read by `contains`,
//! in key order by `sorted`, or all at once, in no promised order, by `as_slice`.
//!
//! The invariant is that of its members: they are settled, distinct, and indexed by the table. What changes are made of
//! stands in `cow_members`: `storage`, and `algebra` for what two sets do to each other.
//!
//! `new` and `sorted` may always answer want of memory, so a body that only does so meets the contract. A change of a
//! storage that isn't known to be unshared may answer it too. The tests of hashed collections show that they succeed.
#![tactic(auto)]

mod set;

pub use set::Set;
