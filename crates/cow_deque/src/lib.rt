//! Deques over counted storage, after Swift's `Deque`.
//!
//! `Deque<T, Q>` is a list whose two ends take an element more, or give one, in one step each over many calls. A copy is
//! one retain and shares the storage; a change of a storage that others hold copies the items first, and a change of an
//! unshared one works in place.
//!
//! Contracts see the list from front to back, whether the handle is known to be alone, and the room
//! (`docs/CONTRACTS.md`). A change takes all its memory before it moves an item, so an answer `NoMemory` leaves the
//! deque as it was and hands back what was given. Elements are read by `get`, `first` and `last`, or all at once as two
//! slices of std by `as_slices`.
//!
//! - `ring`: items in a buffer, from any place on and round its end. Its invariant: read from that place on, round the
//!   end, the items stand side by side, and the places behind them are empty. Contracts see it as a row of `cow_row`
//!   without empty places in front, so the words for rows serve for rings.
//! - `gaps`: what an insertion and a removal are made of: one empty place that moves through the items.
//! - `pours`: how the items go from one buffer into a longer one, each once.
//! - `storage`: the bodies that changes share, each on a `Counted<Ring<T>>`, as `cow_row` has them for rows.
//!
//! The invariant of a deque: the items of the storage are settled, so that a copy of one can't be refused.
//!
//! `new` and `from_vec` may always answer want of memory, so a body that only does so meets the contract. A
//! change of a storage that isn't known to be unshared may answer it too. The tests show that such calls
//! succeed.
#![tactic(auto)]

mod deque;
mod gaps;
mod pours;
mod ring;
mod storage;

pub use deque::Deque;
