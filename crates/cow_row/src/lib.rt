//! A row of items in a buffer, and what every flat collection does with a counted one.
//!
//! - `Row<T>`: items side by side in a `Buf`, with empty places before and behind them. Contracts see
//!   the items, the number of empty places before them, and the capacity from the first item's place on.
//!   Its invariant: these are the buffer's filled places, and there are no others. So the row knows by two
//!   numbers what its drop has to take out.
//! - `storage`: the bodies that changes share, each on a `Counted<Row<T>>`. `prepare` makes a handle
//!   alone with room: where it is alone with room already, that is one look at the handle. Else it grows an
//!   unshared row by moving its items, or goes by `renew`, which takes all memory of the new storage first,
//!   copies the items, which can't be refused, and ends the old handle last. After an `Ok` of `prepare` the
//!   handle is known to be alone, so the collection writes by `only`, which looks at nothing. `replace_run` is
//!   a whole change, since of a row that others hold it copies no item that it would end.
//!
//! The layer above names no buffer and no place, but for a table of hashes, which reads keys at their places (`buf`): it changes a row by list calls, each of which is one
//! step or one move of memory, but for `reverse` and for `replace_run`, which takes one move and a step
//! for each item that comes or goes. A run of items is read as one slice, copied by one loop that writes
//! items and nothing else, with one count of its copies, and ended by one loop.
//!
//! `Row::with_capacity`, `empty` and what renews a storage may always answer want of memory, so a body that only
//! does so is proved. The tests of the collections show that they succeed.
#![tactic(auto)]

pub mod row;
pub mod storage;

pub use row::Row;
