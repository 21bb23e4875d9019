// The public type, and the steps that changes of a hashed collection are made of.
ghost use Rattle.std.specs.Prelude.{◌≡◌, ◌+◌, ◌*◌, ◌<◌, ◌≤◌, ◌^◌, [], ◌∷◌, length, slice_get, IsPermutation, IsTrue, ◌↔◌, IfSome, IfNone, IfOk, OnOk, OnErr, IsOk, Some, true, false};
ghost use Rattle.std.specs.List.{push, swap_remove};
ghost use Rattle.cow_model.specs.Members.{member};
ghost use Rattle.cow_model.specs.Purse.{more, noted};
ghost use Rattle.cow_row.specs.Words.{IsWide, Spends, units};
ghost use Rattle.cow_members.specs.Members.{MembersView, AreSound, IsBlank, listed, HasAt};

use cow_cell::{Holder, Stock};
use cow_item::{Equivalent, Item, Key};
use cow_model::NoMemory;
use cow_row::Row;
use cow_row::storage::{copy_run, end_items, grown};
use cow_table::Table;
use std::alloc::Global;
use std::cmp::min;
use std::marker::Model;

/// The most keys that members have.
const MOST: usize = 1 << 31;

/// Keys at their positions, and the table of their hashes. Where no cost is said, a call is one step, and where no
/// memory is spoken of, it takes none.
#[derive(Drop)]
pub struct Members<K> {
    pub(crate) keys: Row<K>,
    pub(crate) table: Table,
}

impl<K> Model for Members<K> {
    ghost use Rattle.cow_members.specs.Members.{MembersView};

    ghost Value = { MembersView K };

    ghost view = { λ m. record { keys = m.keys; table = m.table } };
}

impl<K: Drop> Members<K> {
    /// How many keys there are.
    pub fn len(&self) -> usize
        ensures value { result ≡ length self.now.keys.items }
        ensures fits { length self.now.keys.items ≤ self.now.keys.capacity }
    {
        self.keys.len()
    }

    /// Whether there is no key.
    pub fn is_empty(&self) -> bool
        ensures { IsTrue result ↔ (self.now.keys.items ≡ []) }
    {
        self.keys.is_empty()
    }

    /// How many keys fit into the row.
    pub fn capacity(&self) -> usize
        ensures value { result ≡ self.now.keys.capacity }
        ensures bound { result ≤ 2 ^ 32 }
    {
        self.keys.capacity()
    }

    /// The key at position `i`.
    pub fn get(&self, i: usize) -> &K
        requires { i < length self.now.keys.items }
        ensures { slice_get self.now.keys.items i ≡ Some result.now }
    {
        self.keys.get(i)
    }

    /// The keys, in the order of their positions.
    pub fn as_slice(&self) -> &[K]
        ensures { result.now ≡ self.now.keys.items }
    {
        self.keys.as_slice()
    }
}

/// No keys. Takes memory for 8 buckets.
pub fn new<K: Key<Q>, Q: Stock>(alloc: Global) -> Result<Members<K>, NoMemory>
    ensures sound { IfOk result (AreSound K.plain K.hash_of K.IsSettled) }
    ensures empty { IfOk result (λ m. m.keys.items ≡ []) }
    ensures capacity { IfOk result (λ m. m.keys.capacity ≡ 0) }
{
    let table = Table::new(alloc)?;
    let keys = Row::with_capacity(alloc, 0)?;
    Ok(Members { keys, table })
}

/// The position of the key that is the same as `key`, which has this hash; `None` exactly where there is none. As
/// many steps as the table takes for it.
pub fn place_of<K: Key<Q>, E: Equivalent<K, Q>, Q: Stock>(
    members: &Members<K>,
    hash: u32,
    key: &E,
) -> Option<usize>
    requires sound { AreSound K.plain K.hash_of K.IsSettled members.now }
    requires hash { hash ≡ K.hash_of (E.sought key.now) }
    ensures found { IfSome result (HasAt K.plain members.now (E.sought key.now)) }
    ensures within { IfSome result (λ i. i < length members.now.keys.items) }
    ensures there { IfSome result
        (λ _. member (E.sought key.now) (listed K.plain members.now) ≡ true) }
    ensures absent { IfNone result
        (member (E.sought key.now) (listed K.plain members.now) ≡ false) }
{
    members.table.find(hash, members.keys.buf(), key)
}

/// Whether a key is the same as `key`.
pub fn contains<K: Key<Q>, E: Equivalent<K, Q>, Q: Stock>(members: &Members<K>, key: &E) -> bool
    requires { AreSound K.plain K.hash_of K.IsSettled members.now }
    ensures { result ≡ member (E.sought key.now) (listed K.plain members.now) }
{
    place_of(members, key.sought_hash(), key).is_some()
}

/// `k`, which has this hash and isn't there, stands last, settled.
pub fn push<K: Key<Q>, Q: Stock>(members: &mut Members<K>, hash: u32, k: K)
    requires sound { AreSound K.plain K.hash_of K.IsSettled members.old }
    requires hash { hash ≡ K.hash_of (K.plain k) }
    requires absent { member (K.plain k) (listed K.plain members.old) ≡ false }
    requires room { length members.old.keys.items < members.old.keys.capacity }
    requires growth { length members.old.keys.items < 2 ^ 31 }
    ensures sound { AreSound K.plain K.hash_of K.IsSettled members.new }
    ensures same { listed K.plain members.new ≡ push (listed K.plain members.old) (K.plain k) }
    ensures count { length members.new.keys.items ≡ length members.old.keys.items + 1 }
    ensures capacity { members.new.keys.capacity ≡ members.old.keys.capacity }
{
    let position = members.keys.len();
    members.table.add(hash, position);
    let mut k = k;
    k.settle();
    members.keys.push(k);
}

/// `k` stands, settled, in the place of the same key at position `i`, which is handed out.
pub fn replace<K: Key<Q>, Q: Stock>(members: &mut Members<K>, i: usize, k: K) -> K
    requires sound { AreSound K.plain K.hash_of K.IsSettled members.old }
    requires same { HasAt K.plain members.old (K.plain k) i }
    ensures sound { AreSound K.plain K.hash_of K.IsSettled members.new }
    ensures value { slice_get members.old.keys.items i ≡ Some result }
    ensures kept { listed K.plain members.new ≡ listed K.plain members.old }
    ensures count { length members.new.keys.items ≡ length members.old.keys.items }
    ensures capacity { members.new.keys.capacity ≡ members.old.keys.capacity }
{
    let mut k = k;
    k.settle();
    members.keys.replace(i, k)
}

/// The key at position `i`, taken out; the last one stands in its place. As many steps as the table takes for it.
pub fn take<K: Key<Q>, Q: Stock>(members: &mut Members<K>, i: usize) -> K
    requires sound { AreSound K.plain K.hash_of K.IsSettled members.old }
    requires within { i < length members.old.keys.items }
    ensures sound { AreSound K.plain K.hash_of K.IsSettled members.new }
    ensures value { slice_get members.old.keys.items i ≡ Some result }
    ensures rest { members.new.keys.items ≡ swap_remove members.old.keys.items i result }
    ensures others { IsPermutation members.old.keys.items (result ∷ members.new.keys.items) }
    ensures count { length members.new.keys.items + 1 ≡ length members.old.keys.items }
    ensures capacity { members.new.keys.capacity ≡ members.old.keys.capacity }
{
    let hash = members.keys.get(i).hash();
    members.table.remove_at(hash, i);
    let last = match members.keys.pop() {
        Some(k) => k,
        None => unreachable!(),
    };
    let end = members.keys.len();
    if i == end {
        return last;
    }
    members.table.rename(last.hash(), end, i);
    members.keys.replace(i, last)
}

/// Room for `extra` more keys. A row without room at least doubles, and the table grows with it. All memory is taken
/// before anything changes; where the row's is refused, only the table has more room. Moves the keys and copies none.
#[cold]
#[inline(never)]
pub fn reserve<K: Key<Q>, Q: Stock>(
    members: &mut Members<K>,
    alloc: Global,
    extra: usize,
) -> Result<(), NoMemory>
    requires sound { AreSound K.plain K.hash_of K.IsSettled members.old }
    requires growth { length members.old.keys.items + extra ≤ 2 ^ 31 }
    ensures sound { AreSound K.plain K.hash_of K.IsSettled members.new }
    ensures items { members.new.keys.items ≡ members.old.keys.items }
    ensures room { OnOk result (length members.old.keys.items + extra ≤ members.new.keys.capacity) }
    ensures doubled { members.old.keys.capacity < length members.old.keys.items + extra
        → OnOk result (IsWide (2 * length members.old.keys.items) members.new.keys) }
    ensures within { length members.old.keys.items + extra ≤ members.old.keys.capacity
        → IsOk result × (members.new ≡ members.old) }
    ensures refused { OnErr result (members.new.keys ≡ members.old.keys) }
{
    let len = members.keys.len();
    let wanted = grown(members.keys.capacity(), len + extra);
    members.table.reserve(min(wanted, MOST) - len)?;
    members.keys.reserve(alloc, wanted)
}

/// Members for copies of those of `from`, which `fill` puts in: no keys yet, in a row with room for `capacity` of them,
/// and a table of the same pairs. Takes all memory that the copies need. Linear in the number of buckets.
pub fn blank<K: Key<Q>, Q: Stock>(
    from: &Members<K>,
    alloc: Global,
    capacity: usize,
) -> Result<Members<K>, NoMemory>
    requires sound { AreSound K.plain K.hash_of K.IsSettled from.now }
    requires room { length from.now.keys.items ≤ capacity }
    requires bound { capacity ≤ 2 ^ 32 }
    ensures { IfOk result (IsBlank capacity from.now) }
{
    let table = from
        .table
        .twin_with_room(min(capacity, MOST) - from.keys.len())?;
    let keys = Row::with_capacity(alloc, capacity)?;
    Ok(Members { keys, table })
}

/// Puts copies of all keys of `from` into the members that `blank` made of it. One pass, and one count of the copies.
pub fn fill<K: Key<Q>, Q: Stock>(members: &mut Members<K>, from: &Members<K>, h: &mut Holder<Q>)
    requires sound { AreSound K.plain K.hash_of K.IsSettled from.now }
    requires blank { IsBlank members.old.keys.capacity from.now members.old }
    requires room { length from.now.keys.items ≤ members.old.keys.capacity }
    requires spare { length from.now.keys.items ≤ h.old.spare }
    ensures sound { AreSound K.plain K.hash_of K.IsSettled members.new }
    ensures same { listed K.plain members.new ≡ listed K.plain from.now }
    ensures count { length members.new.keys.items ≡ length from.now.keys.items }
    ensures capacity { members.new.keys.capacity ≡ members.old.keys.capacity }
    ensures spends { Spends K.plain K.is_counted from.now.keys.items h.old h.new }
    ensures copied { h.new.copied ≡ (noted (K.WEIGHT * length from.now.keys.items) h.old).copied }
{
    let count = from.keys.len();
    copy_run(&from.keys, 0, count, &mut members.keys, h);
}

/// Ends each key, in one pass.
pub fn end_all<K: Key<Q>, Q: Stock>(members: Members<K>, h: &mut Holder<Q>)
    ensures { h.new ≡ more (units K.plain K.is_counted members.keys.items) h.old }
{
    let Members { keys, table: _ } = members;
    let mut keys = keys;
    end_items(&mut keys, h);
}
