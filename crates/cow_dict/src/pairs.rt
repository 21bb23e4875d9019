// Keys with the table of their hashes, and a row of values beside them: the steps that changes are made of. As with
// members, each call asks for and promises one record, `AreWhole`, and takes memory before it changes anything.
ghost use Rattle.std.specs.Prelude.{◌≡◌, ℕ, ◌+◌, ◌*◌, ◌<◌, ◌≤◌, ◌^◌, [], ◌∷◌, length, map, slice_get, slice_set, IsPermutation, IsTrue, ◌↔◌, IfOk, OnOk, OnErr, IsOk, Some, false};
ghost use Rattle.std.specs.List.{push, swap_remove};
ghost use Rattle.cow_dict.specs.Dictionaries.{held};
ghost use Rattle.cow_dict.specs.Storages.{AreWhole, AreBlank, pair_of, listed};
ghost use Rattle.cow_members.specs.Members.{listed as keys_of};
ghost use Rattle.cow_model.specs.Members.{member};
ghost use Rattle.cow_model.specs.Purse.{Moves, more};
ghost use Rattle.cow_row.specs.Words.{IsWide};

use cow_cell::{Holder, Stock};
use cow_item::{Item, Key};
use cow_members::{Members, members};
use cow_model::NoMemory;
use cow_row::Row;
use cow_row::storage::{copy_run, end_items, grown};
use std::alloc::Global;
use std::cmp::min;
use std::marker::Model;

/// The most pairs that there are.
const MOST: usize = 1 << 31;

/// Keys and their values. Where no cost is said, a call is one step, and where no memory is spoken of, it takes none.
#[derive(Drop)]
pub struct Pairs<K, V> {
    pub(crate) members: Members<K>,
    pub(crate) values: Row<V>,
}

impl<K, V> Model for Pairs<K, V> {
    ghost use Rattle.cow_dict.specs.Storages.{PairsView};

    ghost Value = { PairsView K V };

    ghost view = { λ p. record { members = p.members; values = p.values } };
}

impl<K: Drop, V: Drop> Pairs<K, V> {
    /// How many pairs there are.
    pub fn len(&self) -> usize
        ensures { result ≡ length self.now.members.keys.items }
    {
        self.members.len()
    }

    /// Whether there is no pair.
    pub fn is_empty(&self) -> bool
        ensures { IsTrue result ↔ (self.now.members.keys.items ≡ []) }
    {
        self.members.is_empty()
    }

    /// The key at position `i`.
    pub fn key_at(&self, i: usize) -> &K
        requires { i < length self.now.members.keys.items }
        ensures { slice_get self.now.members.keys.items i ≡ Some result.now }
    {
        self.members.get(i)
    }

    /// The value at position `i`.
    pub fn value_at(&self, i: usize) -> &V
        requires { i < length self.now.values.items }
        ensures { slice_get self.now.values.items i ≡ Some result.now }
    {
        self.values.get(i)
    }

    /// The keys, in the order of their positions.
    pub fn keys(&self) -> &[K]
        ensures { result.now ≡ self.now.members.keys.items }
    {
        self.members.as_slice()
    }

    /// The values, each at the position of its key.
    pub fn values(&self) -> &[V]
        ensures { result.now ≡ self.now.values.items }
    {
        self.values.as_slice()
    }

    /// The keys and the table of their hashes.
    pub fn members(&self) -> &Members<K>
        ensures { result.now ≡ self.now.members }
    {
        &self.members
    }
}

/// No pairs. Takes memory for 8 buckets.
pub fn new<K: Key<Q>, V: Item<Q>, Q: Stock>(alloc: Global) -> Result<Pairs<K, V>, NoMemory>
    ensures whole { IfOk result (AreWhole K.plain K.hash_of K.IsSettled V.IsSettled) }
    ensures empty { IfOk result (λ p. p.members.keys.items ≡ []) }
{
    let members = members::new(alloc)?;
    let values = Row::with_capacity(alloc, 0)?;
    Ok(Pairs { members, values })
}

/// `k`, which has this hash and isn't there, stands last, and `v` beside it, both settled.
pub fn push<K: Key<Q>, V: Item<Q>, Q: Stock>(pairs: &mut Pairs<K, V>, hash: u32, k: K, v: V)
    requires whole { AreWhole K.plain K.hash_of K.IsSettled V.IsSettled pairs.old }
    requires hash { hash ≡ K.hash_of (K.plain k) }
    requires absent { member (K.plain k) (keys_of K.plain pairs.old.members) ≡ false }
    requires room { length pairs.old.members.keys.items < pairs.old.values.capacity }
    requires growth { length pairs.old.members.keys.items < 2 ^ 31 }
    ensures whole { AreWhole K.plain K.hash_of K.IsSettled V.IsSettled pairs.new }
    ensures same { listed K.plain V.plain pairs.new
        ≡ push (listed K.plain V.plain pairs.old) (pair_of (K.plain k) (V.plain v)) }
    ensures keys { keys_of K.plain pairs.new.members
        ≡ push (keys_of K.plain pairs.old.members) (K.plain k) }
    ensures count { length pairs.new.members.keys.items
        ≡ length pairs.old.members.keys.items + 1 }
    ensures capacity { pairs.new.values.capacity ≡ pairs.old.values.capacity }
{
    members::push(&mut pairs.members, hash, k);
    let mut v = v;
    v.settle();
    pairs.values.push(v);
}

/// `v`, settled, stands in the place of the value at position `i`, which is handed out.
pub fn replace<K: Key<Q>, V: Item<Q>, Q: Stock>(pairs: &mut Pairs<K, V>, i: usize, v: V) -> V
    requires whole { AreWhole K.plain K.hash_of K.IsSettled V.IsSettled pairs.old }
    requires within { i < length pairs.old.members.keys.items }
    ensures whole { AreWhole K.plain K.hash_of K.IsSettled V.IsSettled pairs.new }
    ensures value { slice_get pairs.old.values.items i ≡ Some result }
    ensures members { pairs.new.members ≡ pairs.old.members }
    ensures same { map V.plain pairs.new.values.items
        ≡ slice_set (map V.plain pairs.old.values.items) i (V.plain v) }
    ensures capacity { pairs.new.values.capacity ≡ pairs.old.values.capacity }
{
    let mut v = v;
    v.settle();
    pairs.values.replace(i, v)
}

/// The pair at position `i`, taken out; the last one stands in its place. As many steps as the table takes for it.
pub fn take<K: Key<Q>, V: Item<Q>, Q: Stock>(pairs: &mut Pairs<K, V>, i: usize) -> (K, V)
    requires whole { AreWhole K.plain K.hash_of K.IsSettled V.IsSettled pairs.old }
    requires within { i < length pairs.old.members.keys.items }
    ensures whole { AreWhole K.plain K.hash_of K.IsSettled V.IsSettled pairs.new }
    ensures key { slice_get pairs.old.members.keys.items i ≡ Some result.0 }
    ensures value { slice_get pairs.old.values.items i ≡ Some result.1 }
    ensures others { IsPermutation (listed K.plain V.plain pairs.old)
        (pair_of (K.plain result.0) (V.plain result.1) ∷ listed K.plain V.plain pairs.new) }
    ensures rest { pairs.new.members.keys.items
        ≡ swap_remove pairs.old.members.keys.items i result.0 }
    ensures count { length pairs.new.members.keys.items + 1
        ≡ length pairs.old.members.keys.items }
    ensures capacity { pairs.new.values.capacity ≡ pairs.old.values.capacity }
{
    let k = members::take(&mut pairs.members, i);
    let v = swap_remove(&mut pairs.values, i);
    (k, v)
}

/// Item `i`, taken out; the last one stands in its place.
fn swap_remove<T: Drop>(row: &mut Row<T>, i: usize) -> T
    requires { i < length row.old.items }
    ensures value { slice_get row.old.items i ≡ Some result }
    ensures rest { row.new.items ≡ swap_remove row.old.items i result }
    ensures capacity { row.new.capacity ≡ row.old.capacity }
    ensures front { row.new.front ≡ row.old.front }
{
    let last = match row.pop() {
        Some(x) => x,
        None => unreachable!(),
    };
    if i == row.len() {
        return last;
    }
    row.replace(i, last)
}

/// Room for `extra` more pairs. A row of values without room at least doubles, and the members grow with it. All memory
/// is taken before anything changes; where that of the values is refused, only the members have more room. Moves the
/// pairs and copies none.
pub fn reserve<K: Key<Q>, V: Item<Q>, Q: Stock>(
    pairs: &mut Pairs<K, V>,
    alloc: Global,
    extra: usize,
) -> Result<(), NoMemory>
    requires whole { AreWhole K.plain K.hash_of K.IsSettled V.IsSettled pairs.old }
    requires growth { length pairs.old.members.keys.items + extra ≤ 2 ^ 31 }
    ensures whole { AreWhole K.plain K.hash_of K.IsSettled V.IsSettled pairs.new }
    ensures keys { pairs.new.members.keys.items ≡ pairs.old.members.keys.items }
    ensures values { pairs.new.values.items ≡ pairs.old.values.items }
    ensures room { OnOk result
        (length pairs.old.members.keys.items + extra ≤ pairs.new.values.capacity) }
    ensures doubled { pairs.old.values.capacity < length pairs.old.members.keys.items + extra
        → OnOk result (IsWide (2 * length pairs.old.members.keys.items) pairs.new.values) }
    ensures within { length pairs.old.members.keys.items + extra ≤ pairs.old.values.capacity
        → IsOk result × (pairs.new ≡ pairs.old) }
    ensures refused { OnErr result (pairs.new.values ≡ pairs.old.values) }
{
    let len = pairs.values.len();
    let capacity = pairs.values.capacity();
    if len + extra <= capacity {
        return Ok(());
    }
    let wanted = grown(capacity, len + extra);
    members::reserve(&mut pairs.members, alloc, min(wanted, MOST) - len)?;
    pairs.values.reserve(alloc, wanted)
}

/// Pairs for copies of those of `from`, which `fill` puts in: none yet, in rows with room for `capacity` of them, and a
/// table of the same pairs of hash and position. Takes all memory that the copies need. Linear in the number of
/// buckets.
pub fn blank<K: Key<Q>, V: Item<Q>, Q: Stock>(
    from: &Pairs<K, V>,
    alloc: Global,
    capacity: usize,
) -> Result<Pairs<K, V>, NoMemory>
    requires whole { AreWhole K.plain K.hash_of K.IsSettled V.IsSettled from.now }
    requires room { length from.now.members.keys.items ≤ capacity }
    requires bound { capacity ≤ 2 ^ 32 }
    ensures { IfOk result (AreBlank capacity from.now) }
{
    let members = members::blank(&from.members, alloc, capacity)?;
    let values = Row::with_capacity(alloc, capacity)?;
    Ok(Pairs { members, values })
}

/// Puts copies of all pairs of `from` into those that `blank` made of it. One pass over each row, and one count of the
/// copies of each.
#[tactic(auto, using(crate::proofs::Sides::unit_steps))]
pub fn fill<K: Key<Q>, V: Item<Q>, Q: Stock>(
    pairs: &mut Pairs<K, V>,
    from: &Pairs<K, V>,
    h: &mut Holder<Q>,
)
    requires whole { AreWhole K.plain K.hash_of K.IsSettled V.IsSettled from.now }
    requires blank { AreBlank pairs.old.values.capacity from.now pairs.old }
    requires room { length from.now.members.keys.items ≤ pairs.old.values.capacity }
    requires spare { 2 * length from.now.members.keys.items ≤ h.old.spare }
    ensures whole { AreWhole K.plain K.hash_of K.IsSettled V.IsSettled pairs.new }
    ensures same { listed K.plain V.plain pairs.new ≡ listed K.plain V.plain from.now }
    ensures keys { keys_of K.plain pairs.new.members ≡ keys_of K.plain from.now.members }
    ensures capacity { pairs.new.values.capacity ≡ pairs.old.values.capacity }
    ensures spends { h.new.spare + held K.is_counted V.is_counted K.plain V.plain from.now
        ≡ h.old.spare }
    ensures copied { h.new.copied
        ≤ h.old.copied + (K.WEIGHT + V.WEIGHT) * length from.now.members.keys.items }
    ensures kept { h.old.copied ≤ h.new.copied }
{
    members::fill(&mut pairs.members, &from.members, h);
    let count = from.values.len();
    copy_run(&from.values, 0, count, &mut pairs.values, h);
}

/// Ends each pair, in one pass over each row.
#[tactic(auto, using(crate::proofs::Sides::unit_steps))]
pub fn end_all<K: Key<Q>, V: Item<Q>, Q: Stock>(pairs: Pairs<K, V>, h: &mut Holder<Q>)
    requires { length pairs.values.items ≡ length pairs.members.keys.items }
    ensures { h.new ≡ more (held K.is_counted V.is_counted K.plain V.plain pairs) h.old }
{
    let Pairs { members, values } = pairs;
    members::end_all(members, h);
    let mut values = values;
    end_items(&mut values, h);
}
