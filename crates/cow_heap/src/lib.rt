//! Heaps with two ends over counted storage, after Swift's `Heap`.
//!
//! `Heap<T, Q>` gives its least and its greatest element in one step each, and takes either out in logarithmic
//! time. A copy is one retain and shares the storage; a change of a storage that others hold copies the items first,
//! and a change of an unshared one works in place.
//!
//! Contracts see the ascending list of the elements, repeats among them, whether the handle is known to be
//! alone, and the room (`docs/CONTRACTS.md`). A change takes all its memory before it moves an item, so an answer
//! `NoMemory` leaves the heap as it was and hands back what was given.
//!
//! The items lie in one row as a min-max heap (Atkinson, Sack, Santoro and Strothotte, "Min-max heaps and
//! generalized priority queues"). The first place is level 0, and the children of place i are the places 2 i + 1
//! and 2 i + 2, one level below it. The invariant: the items are settled, so that a copy of one can't be
//! refused, begin at the first place, and are in order of levels: on an even level an item isn't greater, on an odd
//! level not less than its children and grandchildren. So the first item is the least, and the greater of the next
//! two the greatest. `levels` has the steps that mend this order, `ends` what comes and goes by them, each on a
//! row; neither asks for memory or makes a copy.
//!
//! `new`, `from_vec` and `sorted` may always answer want of memory, so a body that only does so meets the
//! contract, and so may a change of a storage that isn't known to be unshared. The tests show that such calls succeed.
#![tactic(auto)]

mod ends;
mod heap;
mod levels;

pub use heap::Heap;
