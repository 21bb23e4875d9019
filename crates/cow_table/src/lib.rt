//! A table that finds keys by their hashes, which stand elsewhere: sets, dictionaries and their ordered forms keep
//! one beside their rows.
//!
//! A [`Table`] is a ring of buckets of 8 bytes. A filled bucket has a hash of 32 bits and the position of the key in
//! its row. Contracts see the list of these pairs, which have distinct positions, and the room: how many more fit
//! without growth. No clause says in which order the pairs stand: each is pointwise, by `hash_at`, beside the
//! number of pairs. The layer above calls `reserve` before it changes anything; `add`, `remove_at` and `rename`
//! then take no memory and can't be refused.
//!
//! The invariant: the number of buckets is a power of two from 8 to 2^32, of which at most three quarters are
//! filled; no free bucket lies between a pair and the home of its hash, its low bits; and positions are distinct.
//! So a search that begins at the home and meets a free bucket has seen every pair of that hash. A removal keeps
//! this by moving later pairs of the run back into the hole. No pair stands further from its home than the
//! table's reach, so a search ends there too, and the moves end where a bucket is further from the hole.
//!
//! `new`, `twin` and a `reserve` without room may always answer want of memory, so a body that only does so meets
//! the contract. The tests of hashed collections show that they succeed.
#![tactic(auto)]

mod ring;
mod table;

pub use table::Table;
