// The public type, and the search that looks at keys.
ghost use Rattle.std.specs.Prelude.{◌≡◌, ◌≢◌, ℕ, ◌+◌, ◌-◌, ◌*◌, ◌%◌, ◌<◌, ◌≤◌, ◌^◌, ◌↔◌, IsTrue, [], length, map, slice_set, Some, None, option_map, IfOk, OnOk, OnErr, IfSome, IfNone, IsOk};
ghost use Rattle.cow_buf.specs.Places.{place};
ghost use Rattle.cow_table.specs.Pairs.{Pair, hash_at, Gains, Loses, Keeps, Renames, Closes, Opens, Below, Indexes, HasKey, Lacks};
ghost use Rattle.cow_table.specs.Ring.{seen, cells, IsSize, IsRing, IsNear, HasFree, pairs_of};

use crate::ring::{
    Bucket, FREE, close_all, empty, fill, grown, home, most, next, open_all, refill, seek,
};
use cow_buf::Buf;
use cow_cell::Stock;
use cow_item::{Equivalent, Key};
use cow_model::NoMemory;
use std::alloc::Global;
use std::cmp::max;
use std::marker::Model;

/// Pairs of a hash and a position in a ring of buckets, found by the hash: linear probing with moves back into a
/// hole, in place of marks of what was removed.
///
/// A call on one pair takes a step for each bucket from the pair's home to the next free one: few, where hashes
/// differ in their low bits, since a quarter of the buckets is free, and all pairs at worst. `reach` is how far from
/// its home a pair was put at most since the buckets were made: a look-up takes no more steps, and a removal looks no
/// further from the hole. Only `new`, `twin` and a `reserve` without room take memory.
#[derive(Drop)]
pub struct Table {
    buckets: Vec<Bucket>,
    room: usize,
    reach: usize,
    alloc: Global,
}

impl Model for Table {
    ghost use Rattle.cow_table.specs.Pairs.{TableView};
    ghost use Rattle.cow_table.specs.Ring.{cells, pairs_of, IsTable};

    ghost Value = { TableView };

    ghost view = { λ t. record { pairs = pairs_of (cells t.buckets.items); room = t.room } };

    ghost invariant = { λ t. IsTable t.buckets.items t.room t.reach };
}

/// Whether the key at the bucket's position is `key`. It is looked at only where the hashes are equal.
fn fits<K: Key<Q>, E: Equivalent<K, Q>, Q: Stock>(
    bucket: Bucket,
    hash: u32,
    keys: &Buf<K>,
    key: &E,
) -> bool
    requires keys { option_map (λ k. K.hash_of (K.plain k)) (place keys.now bucket.position)
        ≡ Some bucket.hash }
    requires hash { hash ≡ K.hash_of (E.sought key.now) }
    ensures { IsTrue result ↔ HasKey K.plain keys.now (E.sought key.now) bucket.position }
{
    bucket.hash == hash && key.stands_for(keys.at(bucket.position as usize))
}

/// The position of the pair whose key is `key`, in buckets where no pair stands more than `reach` after its home.
fn search<K: Key<Q>, E: Equivalent<K, Q>, Q: Stock>(
    buckets: &[Bucket],
    reach: usize,
    hash: u32,
    keys: &Buf<K>,
    key: &E,
) -> Option<usize>
    requires ring { IsRing (cells buckets.now) }
    requires free { HasFree (cells buckets.now) }
    requires near { IsNear reach (cells buckets.now) }
    requires hash { hash ≡ K.hash_of (E.sought key.now) }
    requires keys { Indexes K.plain K.hash_of keys.now (pairs_of (cells buckets.now)) }
    ensures found { IfSome result (HasKey K.plain keys.now (E.sought key.now)) }
    ensures there { IfSome result (λ p. hash_at (pairs_of (cells buckets.now)) p ≡ Some hash) }
    ensures absent { IfNone result
        (Lacks K.plain keys.now (pairs_of (cells buckets.now)) (E.sought key.now)) }
{
    let count = buckets.len();
    let start = home(hash, count);
    let mut at = start;
    let mut left = reach;
    'probe: loop {
        let bucket = buckets[at];
        if bucket.position == FREE {
            return None;
        }
        if fits(bucket, hash, keys, key) {
            return Some(bucket.position as usize);
        }
        if left == 0 {
            return None;
        }
        left -= 1;
        at = next(at, count);
    }
}

impl Table {
    /// No pairs, in 8 buckets, with room for 6. Answers `NoMemory` only for want of memory.
    pub fn new(alloc: Global) -> Result<Table, NoMemory>
        ensures { IfOk result (λ t. t ≡ record { pairs = []; room = 6 }) }
    {
        match Vec::from_elem(
            alloc,
            Bucket {
                hash: 0,
                position: FREE,
            },
            8,
        ) {
            Ok(buckets) => Ok(Table {
                buckets,
                room: 6,
                reach: 0,
                alloc,
            }),
            Err(_) => Err(NoMemory),
        }
    }

    /// The position of the pair whose key is `key`, which has this hash; `None` exactly where there is none. A key
    /// is looked at only where its hash is equal.
    pub fn find<K: Key<Q>, E: Equivalent<K, Q>, Q: Stock>(
        &self,
        hash: u32,
        keys: &Buf<K>,
        key: &E,
    ) -> Option<usize>
        requires hash { hash ≡ K.hash_of (E.sought key.now) }
        requires keys { Indexes K.plain K.hash_of keys.now self.now.pairs }
        ensures found { IfSome result (HasKey K.plain keys.now (E.sought key.now)) }
        ensures there { IfSome result (λ p. hash_at self.now.pairs p ≡ Some hash) }
        ensures absent { IfNone result (Lacks K.plain keys.now self.now.pairs (E.sought key.now)) }
    {
        search(self.buckets.as_slice(), self.reach, hash, keys, key)
    }

    /// Room for `n` more pairs. Where there is none, the buckets are doubled until there is, in one step for each
    /// of them. All memory is taken before anything changes.
    pub fn reserve(&mut self, n: usize) -> Result<(), NoMemory>
        requires { length self.old.pairs + n ≤ 3 * 2 ^ 30 }
        ensures pairs { Keeps self.old.pairs self.new.pairs }
        ensures ok { OnOk result (n ≤ self.new.room) }
        ensures within { n ≤ self.old.room → IsOk result × (self.new ≡ self.old) }
        ensures refused { OnErr result (self.new ≡ self.old) }
    {
        if n <= self.room {
            return Ok(());
        }
        *self = self.wider(n)?;
        Ok(())
    }

    /// A table of the same pairs, with room for `n` more, in as many buckets or doubled ones.
    fn wider(&self, n: usize) -> Result<Table, NoMemory>
        requires { length self.now.pairs + n ≤ 3 * 2 ^ 30 }
        ensures pairs { IfOk result (λ t. Keeps self.now.pairs t.pairs) }
        ensures room { IfOk result (λ t. n ≤ t.room) }
    {
        let held = most(self.buckets.len()) - self.room;
        let count = grown(self.buckets.len(), held + n);
        match Vec::from_elem(
            self.alloc,
            Bucket {
                hash: 0,
                position: FREE,
            },
            count,
        ) {
            Ok(mut buckets) => {
                let reach = refill(self.buckets.as_slice(), buckets.as_mut_slice());
                Ok(Table {
                    buckets,
                    room: most(count) - held,
                    reach,
                    alloc: self.alloc,
                })
            }
            Err(_) => Err(NoMemory),
        }
    }

    /// One more pair.
    pub fn add(&mut self, hash: u32, position: usize)
        requires room { 1 ≤ self.old.room }
        requires small { position < 2 ^ 31 }
        requires absent { hash_at self.old.pairs position ≡ None }
        ensures pairs { Gains (record { hash = hash; position = position })
            self.old.pairs self.new.pairs }
        ensures room { self.new.room + 1 ≡ self.old.room }
    {
        let far = fill(self.buckets.as_mut_slice(), hash, position as u32);
        self.reach = max(self.reach, far);
        self.room -= 1;
    }

    /// Takes out a pair. Later pairs of its run move back into the hole. One step for each bucket of the run, up to
    /// the first that is further than `reach` from the hole.
    pub fn remove_at(&mut self, hash: u32, position: usize)
        requires { hash_at self.old.pairs position ≡ Some hash }
        ensures pairs { Loses position self.old.pairs self.new.pairs }
        ensures room { self.new.room ≡ self.old.room + 1 }
    {
        let at = seek(self.buckets.as_slice(), hash, position);
        empty(self.buckets.as_mut_slice(), at, self.reach);
        self.room += 1;
    }

    /// The pair of `from` has the position `to` from then on.
    pub fn rename(&mut self, hash: u32, from: usize, to: usize)
        requires small { to < 2 ^ 31 }
        requires there { hash_at self.old.pairs from ≡ Some hash }
        requires absent { hash_at self.old.pairs to ≡ None }
        ensures pairs { Renames hash from to self.old.pairs self.new.pairs }
        ensures room { self.new.room ≡ self.old.room }
    {
        let at = seek(self.buckets.as_slice(), hash, from);
        self.buckets[at] = Bucket {
            hash,
            position: to as u32,
        };
    }

    /// A table of the same pairs and the same room, by one copy of the buckets. Answers `NoMemory` only for want of
    /// memory.
    pub fn twin(&self) -> Result<Table, NoMemory>
        ensures { IfOk result (λ t. t ≡ self.now) }
    {
        match Vec::from_slice(self.alloc, self.buckets.as_slice()) {
            Ok(buckets) => Ok(Table {
                buckets,
                room: self.room,
                reach: self.reach,
                alloc: self.alloc,
            }),
            Err(_) => Err(NoMemory),
        }
    }

    /// A table of the same pairs, with room for `n` more, for which memory is taken once. Answers `NoMemory` only
    /// for want of memory.
    pub fn twin_with_room(&self, n: usize) -> Result<Table, NoMemory>
        requires { length self.now.pairs + n ≤ 3 * 2 ^ 30 }
        ensures pairs { IfOk result (λ t. Keeps self.now.pairs t.pairs) }
        ensures room { IfOk result (λ t. n ≤ t.room) }
    {
        if n <= self.room {
            self.twin()
        } else {
            self.wider(n)
        }
    }

    /// The positions above `i` are one less, as after an element at `i` was taken out. One pass over the buckets.
    pub fn close_up(&mut self, i: usize)
        requires { hash_at self.old.pairs i ≡ None }
        ensures pairs { Closes i self.old.pairs self.new.pairs }
        ensures room { self.new.room ≡ self.old.room }
    {
        close_all(self.buckets.as_mut_slice(), i);
    }

    /// The positions from `i` on are one more, as before an element is put at `i`. One pass over the buckets.
    pub fn open_up(&mut self, i: usize)
        requires { Below (2 ^ 31 - 1) self.old.pairs }
        ensures pairs { Opens i self.old.pairs self.new.pairs }
        ensures room { self.new.room ≡ self.old.room }
    {
        open_all(self.buckets.as_mut_slice(), i);
    }
}
