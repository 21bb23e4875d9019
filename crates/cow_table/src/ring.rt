// The buckets as a ring: where a search begins and goes on, and what becomes of pairs when others come or go.
ghost use Rattle.std.specs.Prelude.{◌≡◌, ◌≢◌, ℕ, ◌+◌, ◌-◌, ◌*◌, ◌%◌, ◌<◌, ◌≤◌, ◌^◌, ◌↔◌, IsTrue, [], length, map, option_map, slice_set, Some, None};
ghost use Rattle.cow_buf.specs.Places.{place, IsFilled};
ghost use Rattle.cow_table.specs.Pairs.{Pair, hash_at, Gains, Loses, Keeps};
ghost use Rattle.cow_table.specs.Ring.{seen, cells, pairs_of, limit, FilledBefore, PlacedBelow, IsNew, Empties, relabelled, shut, opened, Adds, IsSize, IsNext, IsRing, IsNear, StaysNear, HasFree, HasPair, Settles, distance};

use std::cmp::max;

/// A hash and a position, 8 bytes; nothing where the position is `FREE`.
#[derive(Clone, Copy)]
pub struct Bucket {
    pub(crate) hash: u32,
    pub(crate) position: u32,
}

/// The position of an empty bucket: no key has it.
pub(crate) const FREE: u32 = u32::MAX;

/// The home of a hash, where a search for it begins: its low bits.
pub(crate) fn home(hash: u32, count: usize) -> usize
    requires { IsSize count }
    ensures value { result ≡ hash % count }
    ensures within { result < count }
{
    hash as usize & (count - 1)
}

/// The place after `at`, round the end.
pub(crate) fn next(at: usize, count: usize) -> usize
    requires size { IsSize count }
    requires within { at < count }
    ensures { IsNext count at result }
{
    (at + 1) & (count - 1)
}

/// How many steps it is from place `from` on to place `to`, round the end.
fn steps(from: usize, to: usize, count: usize) -> usize
    requires size { IsSize count }
    requires from { from < count }
    requires to { to < count }
    ensures { result ≡ distance count from to }
{
    if from <= to {
        to - from
    } else {
        to + count - from
    }
}

/// Whether the bucket holds the pair.
fn is_pair(bucket: Bucket, hash: u32, position: usize) -> bool
    ensures { IsTrue result ↔ (bucket.hash ≡ hash) × (bucket.position ≡ position) }
{
    bucket.hash == hash && bucket.position as usize == position
}

/// The place of a pair that is there. One step for each bucket from its home on.
pub(crate) fn seek(buckets: &[Bucket], hash: u32, position: usize) -> usize
    requires size { IsSize (length buckets.now) }
    requires there { HasPair (cells buckets.now) hash position }
    ensures within { result < length buckets.now }
    ensures value { place (cells buckets.now) result ≡ Some (record { hash = hash; position = position }) }
{
    let count = buckets.len();
    let start = home(hash, count);
    let mut at = start;
    'probe: loop {
        let bucket = buckets[at];
        if is_pair(bucket, hash, position) {
            return at;
        }
        at = next(at, count);
    }
}

/// The first free place from the home of a hash on. One step a bucket.
fn vacant(buckets: &[Bucket], hash: u32) -> usize
    requires size { IsSize (length buckets.now) }
    requires free { HasFree (cells buckets.now) }
    ensures within { result < length buckets.now }
    ensures value { place (cells buckets.now) result ≡ None }
    ensures passed { FilledBefore (length buckets.now) (cells buckets.now)
        (hash % length buckets.now) result }
{
    let count = buckets.len();
    let start = home(hash, count);
    let mut at = start;
    'probe: loop {
        let bucket = buckets[at];
        if bucket.position == FREE {
            return at;
        }
        at = next(at, count);
    }
}

/// Adds a pair whose position isn't there, at the first free place from its home on. Answers how far from it.
pub(crate) fn fill(buckets: &mut [Bucket], hash: u32, position: u32) -> usize
    requires ring { IsRing (cells buckets.old) }
    requires free { HasFree (cells buckets.old) }
    requires small { position < 2 ^ 32 - 1 }
    requires absent { hash_at (pairs_of (cells buckets.old)) position ≡ None }
    ensures ring { IsRing (cells buckets.new) }
    ensures pairs { Gains (record { hash = hash; position = position })
        (pairs_of (cells buckets.old)) (pairs_of (cells buckets.new)) }
    ensures near { StaysNear result (cells buckets.old) (cells buckets.new) }
{
    let count = buckets.len();
    let at = vacant(buckets, hash);
    buckets[at] = Bucket { hash, position };
    steps(home(hash, count), at, count)
}

/// Moves the pair at `at` into the hole, unless its home lies after the hole. Answers where the hole is then.
fn settle(buckets: &mut [Bucket], hole: usize, at: usize) -> usize
    requires size { IsSize (length buckets.old) }
    requires hole { hole < length buckets.old }
    requires at { at < length buckets.old }
    requires filled { place (cells buckets.old) at ≢ None }
    ensures { Settles (cells buckets.old) hole at (cells buckets.new) result }
{
    let count = buckets.len();
    let bucket = buckets[at];
    let start = home(bucket.hash, count);
    if steps(start, at, count) <= steps(start, hole, count) {
        return hole;
    }
    buckets[at] = Bucket {
        hash: 0,
        position: FREE,
    };
    buckets[hole] = bucket;
    at
}

/// Takes out the pair at `start`. Later pairs of its run move back into the hole, so that none is cut off from
/// its home. No pair stands more than `reach` buckets after its home, so it looks no further than that from the hole.
pub(crate) fn empty(buckets: &mut [Bucket], start: usize, reach: usize)
    requires ring { IsRing (cells buckets.old) }
    requires within { start < length buckets.old }
    requires filled { IsFilled (cells buckets.old) start }
    requires free { HasFree (cells buckets.old) }
    requires near { IsNear reach (cells buckets.old) }
    ensures ring { IsRing (cells buckets.new) }
    ensures pairs { Empties start (cells buckets.old) (cells buckets.new) }
    ensures near { IsNear reach (cells buckets.new) }
{
    let count = buckets.len();
    buckets[start] = Bucket {
        hash: 0,
        position: FREE,
    };
    let mut hole = start;
    let mut at = next(start, count);
    'shift: loop {
        let bucket = buckets[at];
        if bucket.position == FREE || reach < steps(hole, at, count) {
            return;
        }
        hole = settle(buckets, hole, at);
        at = next(at, count);
    }
}

/// How many pairs a number of buckets hold: three quarters of it.
pub(crate) fn most(count: usize) -> usize
    ensures { result ≡ limit count }
{
    count - count / 4
}

/// The least number of buckets from `count` on, doubled again and again, that hold `wanted` pairs.
pub(crate) fn grown(count: usize, wanted: usize) -> usize
    requires size { IsSize count }
    requires bound { wanted ≤ 3 * 2 ^ 30 }
    ensures size { IsSize result }
    ensures enough { wanted ≤ limit result }
    ensures wider { count ≤ result }
{
    let mut size = count;
    'grow: while most(size) < wanted {
        size *= 2;
    }
    size
}

/// Adds what a bucket of another ring holds. Answers how far from its home.
fn take_over(bucket: Bucket, to: &mut [Bucket]) -> usize
    requires ring { IsRing (cells to.old) }
    requires free { HasFree (cells to.old) }
    requires absent { IsNew (seen bucket) (pairs_of (cells to.old)) }
    ensures ring { IsRing (cells to.new) }
    ensures pairs { Adds (seen bucket) (pairs_of (cells to.old)) (pairs_of (cells to.new)) }
    ensures near { StaysNear result (cells to.old) (cells to.new) }
{
    if bucket.position == FREE {
        0
    } else {
        fill(to, bucket.hash, bucket.position)
    }
}

/// Adds the pairs of one ring to another, which has none and is wide enough. One pass over the first, from its
/// end on. Answers how far a pair stands from its home at most.
pub(crate) fn refill(from: &[Bucket], to: &mut [Bucket]) -> usize
    requires from { IsRing (cells from.now) }
    requires to { IsRing (cells to.old) }
    requires empty { pairs_of (cells to.old) ≡ [] }
    requires room { length (pairs_of (cells from.now)) < length to.old }
    ensures ring { IsRing (cells to.new) }
    ensures pairs { Keeps (pairs_of (cells from.now)) (pairs_of (cells to.new)) }
    ensures near { IsNear result (cells to.new) }
{
    let mut i = from.len();
    let mut reach = 0;
    'refill: while i > 0 {
        i -= 1;
        reach = max(reach, take_over(from[i], to));
    }
    reach
}

/// The bucket with a position above `i` one less.
fn closed(bucket: Bucket, i: usize) -> Bucket
    ensures { seen result ≡ option_map (relabelled (shut i)) (seen bucket) }
{
    if bucket.position == FREE || bucket.position as usize <= i {
        return bucket;
    }
    Bucket {
        hash: bucket.hash,
        position: bucket.position - 1,
    }
}

/// The bucket with a position from `i` on one more.
fn widened(bucket: Bucket, i: usize) -> Bucket
    requires { (e : Pair) → seen bucket ≡ Some e → e.position < 2 ^ 31 - 1 }
    ensures { seen result ≡ option_map (relabelled (opened i)) (seen bucket) }
{
    if bucket.position == FREE || (bucket.position as usize) < i {
        return bucket;
    }
    Bucket {
        hash: bucket.hash,
        position: bucket.position + 1,
    }
}

/// The positions above `i` are one less. One pass.
pub(crate) fn close_all(buckets: &mut [Bucket], i: usize)
    ensures { cells buckets.new ≡ map (option_map (relabelled (shut i))) (cells buckets.old) }
{
    for k in 0..buckets.len() {
        buckets[k] = closed(buckets[k], i);
    }
}

/// The positions from `i` on are one more. One pass.
pub(crate) fn open_all(buckets: &mut [Bucket], i: usize)
    requires { PlacedBelow (2 ^ 31 - 1) (length buckets.old) (cells buckets.old) }
    ensures { cells buckets.new ≡ map (option_map (relabelled (opened i))) (cells buckets.old) }
{
    for k in 0..buckets.len() {
        buckets[k] = widened(buckets[k], i);
    }
}
