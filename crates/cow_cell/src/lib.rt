//! The counted cell: one block of memory behind an atomic count, the handles that share it from any
//! number of threads, and the holder that lends their units. docs/CELL.md tells it at length.
//!
//! `Counted<T, Q>` is one handle of a block that keeps a count and a `T`, as Rust's `Arc` is. In
//! Swift's words `share` is a strong retain, `end` and the drop are a strong release, and `sole` is
//! `isKnownUniquelyReferenced`: it lends the value for writing where no other handle is live. Every
//! copy-on-write collection stands on that one call. Where its answer is known, `only` lends the value
//! and asks nothing.
//!
//! # The invariant
//!
//! At every moment between two atomic steps the count of a live block is the number of its live
//! handles (`specs/Cell.antt`). So no block is read after it was freed, none is written while two
//! handles hold it, and each is freed by one release.
//!
//! - A handle is `alone` where it is known that no other handle of its block is live. This is a ghost
//!   value: it takes no memory, and no code can ask for it.
//! - A stock has 2^62 units, and each live handle is one of them out of the holders. So the holder
//!   that `share`, `sole` or `end` is given has fewer, and no count overflows. The stock is the
//!   type parameter `Q`, so that a handle meets only holders of its own stock, by its type.
//!
//! # What the layer above may use
//!
//! The contracts in `handle.rt` and `holder.rt`, that of `only`, and the words of `specs/Words.antt`, `Opens.antt` and
//! `Follows.antt`. It never opens a block. Whoever starts a stock enters a function that is generic
//! over `Q: Stock` with an `Opening`, and puts in `Brand`.
//!
//! | call | atomic steps | memory |
//! |---|---|---|
//! | `new` | none: no other thread knows the block | one block |
//! | `share`, `share_settled` | one fetch_add | none |
//! | `sole` | one load | none |
//! | `end`, drop | one fetch_sub | none; the last one frees the block |
//! | `get`, `only`, `settle`, all of `Holder` | none | none |
//!
//! Each step is sequentially consistent and stands in one small function that is proved by hand:
//! `retain`, `release`, `unique`. No call waits: a lock round the block would take the handle `Wait`,
//! which no signature here has.
//!
//! # What the contracts leave open
//!
//! - `new` may always answer want of memory. A test shows that it succeeds.
//! - `sole` and `end` may answer None wherever another unit of the stock is out, be it of another
//!   block. A test keeps a second block live and asks for Some. (A handle keeps no flag, so no body
//!   can tell an alone handle, to which it has to answer Some, from another one that finds 1.)
//! - A drop has no clause, so one that forgets the block would be proved. Its step is that of an `end`, and
//!   no holder gets the unit. Tests count the drops.
//! - `Opening::new` has no clause. What it makes stands in its type: an `Opening` owns all the units of
//!   one stock, and no other function makes one.
//! - Clauses say which of the six steps of `specs/OneCell.antt` a call made, and what that tells of the
//!   units. By which atomic instruction it was made is read in the three functions above; the invariant lets
//!   each change the count by what its handles change, and by nothing else.
#![tactic(auto)]

mod block;
mod counted;
mod handle;
mod holder;
mod raw_box;
mod unique;
mod units;

pub use counted::Counted;
pub use holder::Holder;
pub use units::{Opening, Stock};
