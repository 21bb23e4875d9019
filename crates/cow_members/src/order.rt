// Changes by which keys keep their order: what goes is closed up, what comes is put between others, and keys change places.
ghost use Rattle.std.specs.Prelude.{◌≡◌, ℕ, ◌+◌, ◌*◌, ◌<◌, ◌≤◌, ◌^◌, ◌||◌, ◌≢◌, nat_le, length, count_by, filter, take, drop, insert, remove, swap, reverse, slice_get, IsPermutation, Some, None, true, false};
ghost use Rattle.cow_members.specs.Members.{AreSound, listed};
ghost use Rattle.cow_members.specs.Orders.{Exchanges, followed_by, staying};
ghost use Rattle.cow_members.specs.Sets.{kept_by};
ghost use Rattle.cow_model.specs.Members.{last, member, union, symdiff};
ghost use Rattle.cow_row.specs.Words.{Balances, units};
ghost use Rattle.cow_table.specs.Pairs.{hash_at, Below, Closes, Opens};

use crate::algebra::{self, is_kept};
use crate::members::Members;
use cow_cell::{Holder, Stock};
use cow_item::{Item, Key};
use cow_table::Table;

/// The positions above `i`, where no key is, are one less. `count` keys are left: where none stands above, that is
/// nothing.
fn close_behind(table: &mut Table, i: usize, count: usize)
    requires absent { hash_at table.old.pairs i ≡ None }
    requires below { Below (count + 1) table.old.pairs }
    ensures pairs { Closes i table.old.pairs table.new.pairs }
    ensures room { table.new.room ≡ table.old.room }
{
    if i < count {
        table.close_up(i);
    }
}

/// The positions of `count` keys from `i` on are one more. Where there are none, that is nothing.
fn open_behind(table: &mut Table, i: usize, count: usize)
    requires small { count < 2 ^ 31 }
    requires below { Below count table.old.pairs }
    ensures pairs { Opens i table.old.pairs table.new.pairs }
    ensures room { table.new.room ≡ table.old.room }
{
    if i < count {
        table.open_up(i);
    }
}

/// The pairs of the positions `i` and `j`, with these hashes, change places. `free` is a position that no pair has.
fn exchange(table: &mut Table, i: usize, first: u32, j: usize, second: u32, free: usize)
    requires apart { i ≢ j }
    requires first { hash_at table.old.pairs i ≡ Some first }
    requires second { hash_at table.old.pairs j ≡ Some second }
    requires free { hash_at table.old.pairs free ≡ None }
    requires first_below { i < free }
    requires second_below { j < free }
    requires small { free < 2 ^ 31 }
    ensures pairs { Exchanges i first j second table.old.pairs table.new.pairs }
    ensures room { table.new.room ≡ table.old.room }
{
    table.rename(first, i, free);
    table.rename(second, j, i);
    table.rename(first, free, j);
}

/// The key at position `i`, taken out; those behind it stand one position before theirs. One pass over the table, but
/// for the last key.
pub fn remove_at<K: Key<Q>, Q: Stock>(members: &mut Members<K>, i: usize) -> K
    requires sound { AreSound K.plain K.hash_of K.IsSettled members.old }
    requires within { i < length members.old.keys.items }
    ensures sound { AreSound K.plain K.hash_of K.IsSettled members.new }
    ensures value { slice_get members.old.keys.items i ≡ Some result }
    ensures rest { members.new.keys.items ≡ remove members.old.keys.items i }
    ensures count { length members.new.keys.items + 1 ≡ length members.old.keys.items }
    ensures capacity { members.new.keys.capacity ≡ members.old.keys.capacity }
{
    let hash = members.keys.get(i).hash();
    members.table.remove_at(hash, i);
    let key = members.keys.remove(i);
    let count = members.keys.len();
    close_behind(&mut members.table, i, count);
    key
}

/// `k`, which has this hash and isn't there, stands at position `i`, settled; what stood there and behind stands one
/// position behind its own. One pass over the table, but where `k` stands last.
pub fn insert_at<K: Key<Q>, Q: Stock>(members: &mut Members<K>, i: usize, hash: u32, k: K)
    requires sound { AreSound K.plain K.hash_of K.IsSettled members.old }
    requires place { i ≤ length members.old.keys.items }
    requires hash { hash ≡ K.hash_of (K.plain k) }
    requires absent { member (K.plain k) (listed K.plain members.old) ≡ false }
    requires room { length members.old.keys.items < members.old.keys.capacity }
    requires growth { length members.old.keys.items < 2 ^ 31 }
    ensures sound { AreSound K.plain K.hash_of K.IsSettled members.new }
    ensures same { listed K.plain members.new ≡ insert (listed K.plain members.old) i (K.plain k) }
    ensures count { length members.new.keys.items ≡ length members.old.keys.items + 1 }
    ensures capacity { members.new.keys.capacity ≡ members.old.keys.capacity }
{
    let count = members.keys.len();
    open_behind(&mut members.table, i, count);
    members.table.add(hash, i);
    let mut k = k;
    k.settle();
    members.keys.insert(i, k);
}

/// The keys at the positions `i` and `j` in each other's place.
pub fn swap<K: Key<Q>, Q: Stock>(members: &mut Members<K>, i: usize, j: usize)
    requires sound { AreSound K.plain K.hash_of K.IsSettled members.old }
    requires first { i < length members.old.keys.items }
    requires second { j < length members.old.keys.items }
    requires small { length members.old.keys.items < 2 ^ 31 }
    ensures sound { AreSound K.plain K.hash_of K.IsSettled members.new }
    ensures items { members.new.keys.items ≡ swap members.old.keys.items i j }
    ensures count { length members.new.keys.items ≡ length members.old.keys.items }
    ensures capacity { members.new.keys.capacity ≡ members.old.keys.capacity }
{
    if i == j {
        return;
    }
    let first = members.keys.get(i).hash();
    let second = members.keys.get(j).hash();
    let free = members.keys.len();
    exchange(&mut members.table, i, first, j, second, free);
    members.keys.swap(i, j);
}

/// The keys in the opposite order. Linear in their number.
pub fn reverse<K: Key<Q>, Q: Stock>(members: &mut Members<K>)
    requires sound { AreSound K.plain K.hash_of K.IsSettled members.old }
    requires small { length members.old.keys.items < 2 ^ 31 }
    ensures sound { AreSound K.plain K.hash_of K.IsSettled members.new }
    ensures items { members.new.keys.items ≡ reverse members.old.keys.items }
    ensures count { length members.new.keys.items ≡ length members.old.keys.items }
    ensures capacity { members.new.keys.capacity ≡ members.old.keys.capacity }
{
    let len = members.keys.len();
    for i in 0..len / 2 {
        swap(members, i, len - 1 - i);
    }
}

/// Whether the key at position `i` stays: from `end` on each does, and before it those that `others` has, where `keep`
/// is true, or hasn't, where it is false.
fn stays_at<K: Key<Q>, Q: Stock>(
    members: &Members<K>,
    i: usize,
    others: &Members<K>,
    keep: bool,
    end: usize,
) -> bool
    requires others { AreSound K.plain K.hash_of K.IsSettled others.now }
    requires within { i < length members.now.keys.items }
    ensures { (k : K) → slice_get members.now.keys.items i ≡ Some k
        → result ≡ (nat_le end i || kept_by keep (listed K.plain others.now) (K.plain k)) }
{
    end <= i || is_kept(others, members.get(i), keep)
}

/// Puts the key at position `i` behind the `kept` first ones, where it stays; answers how many these are then.
fn keep_next<K: Key<Q>, Q: Stock>(
    members: &mut Members<K>,
    kept: usize,
    i: usize,
    others: &Members<K>,
    keep: bool,
    end: usize,
) -> usize
    requires sound { AreSound K.plain K.hash_of K.IsSettled members.old }
    requires others { AreSound K.plain K.hash_of K.IsSettled others.now }
    requires order { kept ≤ i }
    requires within { i < length members.old.keys.items }
    requires small { length members.old.keys.items < 2 ^ 31 }
    ensures sound { AreSound K.plain K.hash_of K.IsSettled members.new }
    ensures front { (k : K) → slice_get members.old.keys.items i ≡ Some k
        → take result (listed K.plain members.new) ≡ followed_by
        (nat_le end i || kept_by keep (listed K.plain others.now) (K.plain k))
        (K.plain k) (take kept (listed K.plain members.old)) }
    ensures rest { (q : ℕ) → i < q
        → slice_get members.new.keys.items q ≡ slice_get members.old.keys.items q }
    ensures most { result ≤ kept + 1 }
    ensures count { length members.new.keys.items ≡ length members.old.keys.items }
    ensures units { units K.plain K.is_counted members.new.keys.items
        ≡ units K.plain K.is_counted members.old.keys.items }
    ensures capacity { members.new.keys.capacity ≡ members.old.keys.capacity }
{
    if stays_at(members, i, others, keep, end) {
        swap(members, kept, i);
        return kept + 1;
    }
    kept
}

/// Keys that stay stand first, in their order, and the others behind them; answers how many stay. Before `end` these
/// are the ones that `others` has, where `keep` is true, or hasn't, where it is false, and from there on all.
fn gather<K: Key<Q>, Q: Stock>(
    members: &mut Members<K>,
    others: &Members<K>,
    keep: bool,
    end: usize,
) -> usize
    requires sound { AreSound K.plain K.hash_of K.IsSettled members.old }
    requires others { AreSound K.plain K.hash_of K.IsSettled others.now }
    requires small { length members.old.keys.items < 2 ^ 31 }
    ensures sound { AreSound K.plain K.hash_of K.IsSettled members.new }
    ensures front { take result (listed K.plain members.new)
        ≡ staying (kept_by keep (listed K.plain others.now)) end (listed K.plain members.old) }
    ensures within { result ≤ length members.new.keys.items }
    ensures count { length members.new.keys.items ≡ length members.old.keys.items }
    ensures units { units K.plain K.is_counted members.new.keys.items
        ≡ units K.plain K.is_counted members.old.keys.items }
    ensures capacity { members.new.keys.capacity ≡ members.old.keys.capacity }
{
    let mut kept = 0;
    for i in 0..members.len() {
        kept = keep_next(members, kept, i, others, keep, end);
    }
    kept
}

/// Ends the keys from position `count` on, from the last one on.
fn shorten<K: Key<Q>, Q: Stock>(members: &mut Members<K>, count: usize, h: &mut Holder<Q>)
    requires sound { AreSound K.plain K.hash_of K.IsSettled members.old }
    requires within { count ≤ length members.old.keys.items }
    ensures sound { AreSound K.plain K.hash_of K.IsSettled members.new }
    ensures same { listed K.plain members.new ≡ take count (listed K.plain members.old) }
    ensures capacity { members.new.keys.capacity ≡ members.old.keys.capacity }
    ensures count { length members.new.keys.items ≡ count }
    ensures balance { Balances K.plain K.is_counted members.old.keys members.new.keys h.old h.new }
    ensures never_less { h.old.spare ≤ h.new.spare }
    ensures copied { h.new.copied ≡ h.old.copied }
{
    'shorten: while members.len() > count {
        let end = members.len() - 1;
        remove_at(members, end).end(h);
    }
}

/// Ends the keys that don't stay: those that aren't in `others`, where `keep` is true; those that are, where it is
/// false. The others keep their order.
pub fn retain<K: Key<Q>, Q: Stock>(
    members: &mut Members<K>,
    others: &Members<K>,
    keep: bool,
    h: &mut Holder<Q>,
)
    requires sound { AreSound K.plain K.hash_of K.IsSettled members.old }
    requires others { AreSound K.plain K.hash_of K.IsSettled others.now }
    requires small { length members.old.keys.items < 2 ^ 31 }
    ensures sound { AreSound K.plain K.hash_of K.IsSettled members.new }
    ensures same { listed K.plain members.new
        ≡ filter (kept_by keep (listed K.plain others.now)) (listed K.plain members.old) }
    ensures capacity { members.new.keys.capacity ≡ members.old.keys.capacity }
    ensures count { length members.new.keys.items ≤ length members.old.keys.items }
    ensures balance { Balances K.plain K.is_counted members.old.keys members.new.keys h.old h.new }
    ensures never_less { h.old.spare ≤ h.new.spare }
    ensures copied { h.new.copied ≡ h.old.copied }
{
    let end = members.len();
    let kept = gather(members, others, keep, end);
    shorten(members, kept, h);
}

/// Ends the keys that `others` has too, and puts copies of its other keys behind those that stay.
pub fn toggle_all<K: Key<Q>, Q: Stock>(
    members: &mut Members<K>,
    others: &Members<K>,
    h: &mut Holder<Q>,
)
    requires sound { AreSound K.plain K.hash_of K.IsSettled members.old }
    requires others { AreSound K.plain K.hash_of K.IsSettled others.now }
    requires room { length (union last (listed K.plain members.old) (listed K.plain others.now))
        ≤ members.old.keys.capacity }
    requires small { length (union last (listed K.plain members.old) (listed K.plain others.now))
        < 2 ^ 31 }
    requires spare { length others.now.keys.items ≤ h.old.spare }
    ensures sound { AreSound K.plain K.hash_of K.IsSettled members.new }
    ensures same { listed K.plain members.new
        ≡ symdiff last (listed K.plain members.old) (listed K.plain others.now) }
    ensures capacity { members.new.keys.capacity ≡ members.old.keys.capacity }
    ensures count { length members.new.keys.items < 2 ^ 31 }
    ensures falls { h.old.spare ≤ h.new.spare + units K.plain K.is_counted others.now.keys.items }
    ensures rises { h.new.spare ≤ h.old.spare + units K.plain K.is_counted members.old.keys.items
        + units K.plain K.is_counted others.now.keys.items }
    ensures copied { h.new.copied ≤ h.old.copied + K.WEIGHT * length others.now.keys.items }
    ensures kept { h.old.copied ≤ h.new.copied }
{
    let end = members.len();
    algebra::add_missing(members, others, h);
    let kept = gather(members, others, false, end);
    shorten(members, kept, h);
}
