//! Persistent sets over counted storage, after `TreeSet` of swift-collections.
//!
//! A [`TreeSet`] is a counted root node of a CHAMP trie (`cow_champ`), whose keys are the members; the values are `()`,
//! which has no bytes and no weight. A copy is one retain and shares all nodes; a change of one key copies those nodes on
//! its path that others hold, at most 32 keys a level and the keys of one hash below them, and shares the rest.
//!
//! Contracts see a set as the ascending list of its members and whether the handle is known to be alone, in the words of
//! `cow_set` (`docs/CONTRACTS.md`). A tree has no room: that field is 0. A call that finds nothing to change leaves the
//! handle as it was. A change takes the memory of its whole path before anything that is shown changes, and what is made of
//! two sets is a new trie of copies, put in place at the end; so an answer `NoMemory` leaves every value as it was and hands
//! back what was given. Only `from_keys` ends the keys that it was given. The members are read by `contains`, in key order by
//! `sorted`, or by ascending digits of their hashes by `references`.
//!
//! The invariant: the root's node is whole, of level 0, and has the canonical shape of its pairs, whatever the changes
//! were that led to it; the pairs are counted, and are fewer than 2^31.
//!
//! The last parameter of the type is the root's node type. Whatever works on trees is generic in it, and a `Task` of
//! `cow_levels` makes it; [`Tree`] is the type that it then is.
//!
//! `set` has the type and its calls, `removal` the one by which a member goes, `algebra` what two sets make, `counts` how
//! many members would come, `distinct` the keys that `from_keys` builds a trie of, `copies` those of other changes, and
//! `tree` the type of a root.
//!
//! Every call that takes memory may always answer want of it by its contract; tests show that they succeed. How many nodes
//! `insert` and `remove` copy depends on who else holds them, so their contracts bound the copies of an alone set too, and
//! tests show that there are none where nobody else holds the trie.
#![tactic(auto)]

mod algebra;
mod copies;
mod counts;
mod distinct;
mod removal;
mod set;
mod tree;

pub use set::TreeSet;
pub use tree::Tree;
