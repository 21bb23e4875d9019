//! Arrays and slices over counted storage, after Swift's `Array` and `ArraySlice`.
//!
//! - `Array<T, Q>`: a list of elements. A copy is one retain and shares the storage; a change of a
//!   storage that others hold copies the items first, and a change of an unshared one works in place.
//! - `ArraySlice<T, Q>`: a run of an array's elements. It shares the storage, keeps the array's
//!   indices, and keeps the storage alive, with the items that it doesn't show.
//!
//! Contracts see a list, whether the handle is known to be alone, and the room (`docs/CONTRACTS.md`);
//! of a slice they see its start besides, and the units of all items in its storage. A change takes all
//! its memory before it moves an item, so an answer `NoMemory` leaves every value as it was and hands
//! back what was given. Elements are read by `get`, or all at once as a slice of std by `as_slice`.
//!
//! The invariant of both: the items of the storage are settled, so that a copy of one can't be refused.
//! An array's items begin at the first place of the buffer; a slice's may begin behind it, since its
//! `pop_first` takes the first item out and moves none.
//!
//! `new` and `from_vec` may always answer want of memory, so a body that only does so meets the contract. A
//! change of a storage that isn't known to be unshared may answer it too. The tests show that such calls
//! succeed.
#![tactic(auto)]

mod array;
mod slice;

pub use array::Array;
pub use slice::ArraySlice;
