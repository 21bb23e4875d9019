ghost use Rattle.std.specs.Prelude.{◌≡◌, ℕ, ◌+◌, ◌-◌, ◌*◌, ◌<◌, ◌≤◌, ◌^◌, [], length, map, remove, swap, reverse, slice_get, IfOk, IfErr, OnOk, OnErr, IsOk, All, Some, option_map, IfSome, IsTrue, ◌↔◌, true, false};
ghost use Rattle.std.specs.List.{sum_by};
ghost use Rattle.cow_dict.specs.Dictionaries.{has, without, comes, goes, Doubles, HandsBoth, units, key_units, Pays, Returns};
ghost use Rattle.cow_dict.specs.Storages.{pair_of, keys, side_by_side};
ghost use Rattle.cow_members.specs.Ascents.{Ascends};
ghost use Rattle.cow_members.specs.Sets.{ChangesTo, Untouched};
ghost use Rattle.cow_model.specs.Flat.{Becomes, Stays, HasRoom, need, settled};
ghost use Rattle.cow_model.specs.Members.{ascending};
ghost use Rattle.cow_model.specs.Pairs.{last, place_in, value_in, put};
ghost use Rattle.cow_model.specs.Purse.{Moves, less, more};
ghost use Rattle.cow_row.specs.Changes.{InPlace};

use crate::alike::alike;
use cow_cell::{Counted, Holder, Stock};
use cow_dict::pairs::Pairs;
use cow_dict::{order, pairs, storage};
use cow_item::{Equivalent, Item, Key};
use cow_members::members;
use cow_model::NoMemory;
use std::alloc::Global;
use std::marker::Model;

/// A dictionary whose pairs stand in an order of its user's, over counted storage, after Swift's `OrderedDictionary`.
/// A copy shares the storage until one of the two is changed.
///
/// A look-up takes as many steps as the table does: few, where hashes differ in their low bits. A change of a
/// storage that others hold copies the pairs first, in linear time; what is said below of costs holds where the storage
/// is unshared. Only `new` and the calls that answer `NoMemory` take memory.
#[derive(Drop)]
pub struct OrderedDictionary<K: Key<Q>, V: Item<Q>, Q: Stock> {
    pub(crate) cell: Counted<Pairs<K, V>, Q>,
    pub(crate) alloc: Global,
}

impl<K: Key<Q>, V: Item<Q>, Q: Stock> Model for OrderedDictionary<K, V, Q> {
    ghost use Rattle.std.specs.Prelude.{◌-◌, ◌<◌, ◌^◌, List, length};
    ghost use Rattle.cow_dict.specs.Storages.{AreWhole, listed};
    ghost use Rattle.cow_model.specs.Flat.{Flat};
    ghost use Rattle.cow_model.specs.declared.value.Pair.{Pair};

    ghost Value = { Flat (List Pair) };

    ghost view = { λ d. record { value = listed K.plain V.plain d.cell.value; alone = d.cell.alone; room = d.cell.value.values.capacity - length d.cell.value.members.keys.items } };

    ghost invariant = { λ d. AreWhole K.plain K.hash_of K.IsSettled V.IsSettled d.cell.value × (length d.cell.value.members.keys.items < 2 ^ 31) };
}

impl<K: Key<Q>, V: Item<Q>, Q: Stock> OrderedDictionary<K, V, Q> {
    /// An empty dictionary: Swift's `init()`. Takes memory for the storage and for 8 buckets. Answers `NoMemory` only
    /// for want of it.
    pub fn new(alloc: Global, h: &mut Holder<Q>) -> Result<OrderedDictionary<K, V, Q>, NoMemory>
        requires { 1 ≤ h.old.spare }
        ensures ok { IfOk result (λ d. Becomes [] d) }
        ensures spent { OnOk result (h.new ≡ less 1 h.old) }
        ensures refused { OnErr result (h.new ≡ h.old) }
    {
        let cell = storage::empty(alloc, h)?;
        Ok(OrderedDictionary { cell, alloc })
    }

    /// How many pairs there are: Swift's `count`. One step.
    #[tactic(auto, using(crate::proofs::Rows::row_steps))]
    pub fn count(&self) -> usize
        ensures value { result ≡ length self.now.value }
        ensures small { result < 2 ^ 31 }
    {
        self.cell.get().len()
    }

    /// Whether there is no pair: Swift's `isEmpty`. One step.
    #[tactic(auto, using(crate::proofs::Rows::row_steps))]
    pub fn is_empty(&self) -> bool
        ensures { IsTrue result ↔ (self.now.value ≡ []) }
    {
        self.cell.get().is_empty()
    }

    /// The keys and the values for reading, each value at the position of its key: Swift's `keys` and `values`. No key
    /// is there twice. One step.
    pub fn as_slices(&self) -> (&[K], &[V])
        ensures value { side_by_side (map K.plain result.0.now) (map V.plain result.1.now)
            ≡ self.now.value }
        ensures alike { length result.1.now ≡ length result.0.now }
        ensures distinct { Ascends (ascending (keys self.now.value)) }
        ensures keys { All K.IsSettled result.0.now }
        ensures values { All V.IsSettled result.1.now }
    {
        let shown = self.cell.get();
        (shown.keys(), shown.values())
    }

    /// The pair at position `i`; `None` exactly where there is none. Swift's `elements[i]`. One step.
    #[tactic(auto, using(crate::proofs::Rows::row_steps))]
    pub fn at(&self, i: usize) -> Option<(&K, &V)>
        ensures value { option_map (λ p. pair_of (K.plain p.0.now) (V.plain p.1.now)) result
            ≡ slice_get self.now.value i }
        ensures settled { IfSome result (λ p. K.IsSettled p.0.now × V.IsSettled p.1.now) }
    {
        let shown = self.cell.get();
        if i < shown.len() {
            Some((shown.key_at(i), shown.value_at(i)))
        } else {
            None
        }
    }

    /// A second whole value, in one step: both show the pairs, and neither is alone.
    pub fn copy(&mut self, h: &mut Holder<Q>) -> OrderedDictionary<K, V, Q>
        requires { 1 ≤ h.old.spare }
        ensures same { self.new ≡ settled self.old }
        ensures copy { result ≡ settled self.old }
        ensures spent { h.new ≡ less 1 h.old }
    {
        OrderedDictionary {
            cell: self.cell.share(h),
            alloc: self.alloc,
        }
    }

    /// The same of a dictionary that isn't alone. Any number of threads may call it on one dictionary.
    pub fn copy_settled(&self, h: &mut Holder<Q>) -> OrderedDictionary<K, V, Q>
        requires settled { self.now.alone ≡ false }
        requires spare { 1 ≤ h.old.spare }
        ensures copy { result ≡ self.now }
        ensures spent { h.new ≡ less 1 h.old }
    {
        OrderedDictionary {
            cell: self.cell.share_settled(h),
            alloc: self.alloc,
        }
    }

    /// Not known to be alone any more. Nothing at run time.
    pub fn settle(&mut self)
        ensures { self.new ≡ settled self.old }
    {
        self.cell.settle();
    }

    /// The handle is given back; the last one of a storage ends its pairs, in one pass over the keys and one over the
    /// values.
    pub fn end(self, h: &mut Holder<Q>)
        ensures moved { Moves (sum_by (units K.is_counted V.is_counted) self.value) 0
            (more 1 h.old) h.new }
        ensures exact { Returns K.is_counted V.is_counted self (more 1 h.old) h.new }
        ensures never_less { h.old.spare + 1 ≤ h.new.spare }
    {
        let OrderedDictionary { cell, alloc: _ } = self;
        storage::end_cell(cell, h);
    }

    /// Whether `k`, or the key that it stands for, has a value. One look-up.
    #[tactic(auto, using(crate::proofs::Rows::row_steps))]
    pub fn contains_key<E: Equivalent<K, Q>>(&self, k: &E) -> bool
        ensures { result ≡ has (E.sought k.now) self.now.value }
    {
        members::contains(self.cell.get().members(), k)
    }

    /// The position of `k`, or of the key that it stands for; `None` exactly where it isn't there. Swift's
    /// `index(forKey:)`. One look-up.
    pub fn index_of<E: Equivalent<K, Q>>(&self, k: &E) -> Option<usize>
        ensures { result ≡ place_in (E.sought k.now) self.now.value }
    {
        members::place_of(self.cell.get().members(), k.sought_hash(), k)
    }

    /// The value under `k`, or under the key that it stands for: Swift's subscript. `None` exactly where there is none.
    /// One look-up.
    pub fn get<E: Equivalent<K, Q>>(&self, k: &E) -> Option<&V>
        ensures value { option_map (λ v. V.plain v.now) result
            ≡ value_in (E.sought k.now) self.now.value }
        ensures distinct { Ascends (ascending (keys self.now.value)) }
    {
        let shown = self.cell.get();
        match members::place_of(shown.members(), k.sought_hash(), k) {
            Some(i) => Some(shown.value_at(i)),
            None => None,
        }
    }

    /// `v` stands under `k`, and the value that stood there is handed out: Swift's `updateValue(_:forKey:)`. `None`
    /// exactly where there was none, and then the pair stands last. Where there was one, its key stays, in its place, and
    /// `k` ends. One look-up.
    #[tactic(auto, using(crate::proofs::Rows::row_steps))]
    pub fn update(&mut self, k: K, v: V, h: &mut Holder<Q>) -> Result<Option<V>, (NoMemory, K, V)>
        requires growth { length self.old.value + 1 < 2 ^ 31 }
        requires spare { need (length self.old.value) ≤ h.old.spare }
        ensures ok { OnOk result
            (Becomes (put last self.old.value (pair_of (K.plain k) (V.plain v))) self.new) }
        ensures old { IfOk result
            (λ o. option_map V.plain o ≡ value_in (K.plain k) self.old.value) }
        ensures within { InPlace (comes (K.plain k) self.old.value) 0 result self.old self.new }
        ensures doubled { Doubles (comes (K.plain k) self.old.value) result self.old self.new }
        ensures refused { IfErr result (HandsBoth k v self.old self.new h.old h.new) }
        ensures paid { Pays K.is_counted V.is_counted (K.WEIGHT + V.WEIGHT) self.old h.old h.new }
        ensures exact { self.old.alone ≡ true → OnOk result
            (h.new ≡ more (key_units K.is_counted (K.plain k) self.old.value) h.old) }
    {
        let hash = k.hash();
        match members::place_of(self.cell.get().members(), hash, &k) {
            Some(i) => {
                if let Err(refused) = storage::prepare(&mut self.cell, self.alloc, 0, h) {
                    return Err((refused, k, v));
                }
                let old = pairs::replace(self.cell.only(), i, v);
                k.end(h);
                Ok(Some(old))
            }
            None => {
                self.put_new(hash, k, v, h)?;
                Ok(None)
            }
        }
    }

    /// `v` stands under `k`, which has this hash and isn't there, last: `update` for a caller who has looked.
    #[tactic(auto, using(crate::proofs::Rows::row_steps))]
    pub fn put_new(
        &mut self,
        hash: u32,
        k: K,
        v: V,
        h: &mut Holder<Q>,
    ) -> Result<(), (NoMemory, K, V)>
        requires hash { hash ≡ K.hash_of (K.plain k) }
        requires absent { has (K.plain k) self.old.value ≡ false }
        requires growth { length self.old.value + 1 < 2 ^ 31 }
        requires spare { need (length self.old.value) ≤ h.old.spare }
        ensures ok { OnOk result
            (Becomes (put last self.old.value (pair_of (K.plain k) (V.plain v))) self.new) }
        ensures within { InPlace 1 0 result self.old self.new }
        ensures doubled { Doubles 1 result self.old self.new }
        ensures refused { IfErr result (HandsBoth k v self.old self.new h.old h.new) }
        ensures paid { Pays K.is_counted V.is_counted (K.WEIGHT + V.WEIGHT) self.old h.old h.new }
        ensures free { self.old.alone ≡ true → h.new ≡ h.old }
    {
        if let Err(refused) = storage::prepare(&mut self.cell, self.alloc, 1, h) {
            return Err((refused, k, v));
        }
        pairs::push(self.cell.only(), hash, k, v);
        Ok(())
    }

    /// The value under `k`, or under the key that it stands for, taken out; the pairs behind it close up. Swift's
    /// `removeValue(forKey:)`. `None` exactly where there was none, and then nothing changes. The key that was there
    /// ends. One look-up, and one pass over the table, but for the last pair.
    #[tactic(auto, using(crate::proofs::Rows::row_steps))]
    pub fn remove<E: Equivalent<K, Q>>(
        &mut self,
        k: &E,
        h: &mut Holder<Q>,
    ) -> Result<Option<V>, NoMemory>
        requires spare { need (length self.old.value) ≤ h.old.spare }
        ensures ok { OnOk result (ChangesTo (without (E.sought k.now) self.old.value) self.old self.new) }
        ensures old { IfOk result
            (λ o. option_map V.plain o ≡ value_in (E.sought k.now) self.old.value) }
        ensures absent { has (E.sought k.now) self.old.value ≡ false
            → Untouched result self.old self.new h.old h.new }
        ensures within { InPlace 0 (goes (E.sought k.now) self.old.value) result self.old self.new }
        ensures refused { OnErr result (Stays self.old self.new × (h.new ≡ h.old)) }
        ensures paid { Pays K.is_counted V.is_counted (K.WEIGHT + V.WEIGHT) self.old h.old h.new }
        ensures exact { self.old.alone ≡ true → OnOk result
            (h.new ≡ more (key_units K.is_counted (E.sought k.now) self.old.value) h.old) }
    {
        match members::place_of(self.cell.get().members(), k.sought_hash(), k) {
            None => Ok(None),
            Some(i) => {
                storage::prepare(&mut self.cell, self.alloc, 0, h)?;
                let (key, value) = order::remove_at(self.cell.only(), i);
                key.end(h);
                Ok(Some(value))
            }
        }
    }

    /// The pair at position `i`, taken out; those behind it close up: Swift's `remove(at:)`. One pass over the table,
    /// but for the last pair.
    #[tactic(auto, using(crate::proofs::Rows::row_steps))]
    pub fn remove_at(&mut self, i: usize, h: &mut Holder<Q>) -> Result<(K, V), NoMemory>
        requires place { i < length self.old.value }
        requires spare { need (length self.old.value) ≤ h.old.spare }
        ensures ok { OnOk result (Becomes (remove self.old.value i) self.new) }
        ensures old { IfOk result
            (λ p. slice_get self.old.value i ≡ Some (pair_of (K.plain p.0) (V.plain p.1))) }
        ensures within { InPlace 0 1 result self.old self.new }
        ensures refused { OnErr result (Stays self.old self.new × (h.new ≡ h.old)) }
        ensures paid { Pays K.is_counted V.is_counted (K.WEIGHT + V.WEIGHT) self.old h.old h.new }
        ensures free { self.old.alone ≡ true → h.new ≡ h.old }
    {
        storage::prepare(&mut self.cell, self.alloc, 0, h)?;
        Ok(order::remove_at(self.cell.only(), i))
    }

    /// The pairs at the positions `i` and `j` in each other's place: Swift's `swapAt`. Three steps of the table.
    #[tactic(auto, using(crate::proofs::Rows::row_steps))]
    pub fn swap_at(&mut self, i: usize, j: usize, h: &mut Holder<Q>) -> Result<(), NoMemory>
        requires first { i < length self.old.value }
        requires second { j < length self.old.value }
        requires spare { need (length self.old.value) ≤ h.old.spare }
        ensures ok { OnOk result (Becomes (swap self.old.value i j) self.new) }
        ensures within { InPlace 0 0 result self.old self.new }
        ensures refused { OnErr result (Stays self.old self.new × (h.new ≡ h.old)) }
        ensures paid { Pays K.is_counted V.is_counted (K.WEIGHT + V.WEIGHT) self.old h.old h.new }
        ensures free { self.old.alone ≡ true → h.new ≡ h.old }
    {
        storage::prepare(&mut self.cell, self.alloc, 0, h)?;
        order::swap(self.cell.only(), i, j);
        Ok(())
    }

    /// The pairs in the opposite order: Swift's `reverse`. Linear in their number.
    #[tactic(auto, using(crate::proofs::Rows::row_steps))]
    pub fn reverse(&mut self, h: &mut Holder<Q>) -> Result<(), NoMemory>
        requires spare { need (length self.old.value) ≤ h.old.spare }
        ensures ok { OnOk result (Becomes (reverse self.old.value) self.new) }
        ensures within { InPlace 0 0 result self.old self.new }
        ensures refused { OnErr result (Stays self.old self.new × (h.new ≡ h.old)) }
        ensures paid { Pays K.is_counted V.is_counted (K.WEIGHT + V.WEIGHT) self.old h.old h.new }
        ensures free { self.old.alone ≡ true → h.new ≡ h.old }
    {
        storage::prepare(&mut self.cell, self.alloc, 0, h)?;
        order::reverse(self.cell.only());
        Ok(())
    }

    /// Room for at least `n` more pairs: Swift's `reserveCapacity(_:)`. Takes memory where the storage grows, and moves
    /// the pairs once. A storage that grows at least doubles.
    #[tactic(auto, using(crate::proofs::Rows::row_steps))]
    pub fn reserve(&mut self, n: usize, h: &mut Holder<Q>) -> Result<(), NoMemory>
        requires growth { length self.old.value + n ≤ 2 ^ 31 }
        requires spare { need (length self.old.value) ≤ h.old.spare }
        ensures ok { OnOk result (Becomes self.old.value self.new) }
        ensures room { OnOk result (n ≤ self.new.room) }
        ensures within { HasRoom n self.old → IsOk result × (self.new ≡ self.old) }
        ensures refused { OnErr result (Stays self.old self.new × (h.new ≡ h.old)) }
        ensures paid { Pays K.is_counted V.is_counted (K.WEIGHT + V.WEIGHT) self.old h.old h.new }
        ensures free { self.old.alone ≡ true → h.new ≡ h.old }
    {
        storage::prepare(&mut self.cell, self.alloc, n, h)
    }
}

impl<K: Key<Q>, V: Key<Q>, Q: Stock> OrderedDictionary<K, V, Q> {
    /// Whether the two have the same keys with the same values, in the same order: Swift's `==`. One pass over the keys
    /// and one over the values at most, and none where their counts differ.
    pub fn equals(&self, other: &OrderedDictionary<K, V, Q>) -> bool
        ensures { IsTrue result ↔ (self.now.value ≡ other.now.value) }
    {
        let left = self.cell.get();
        let right = other.cell.get();
        alike(left.keys(), right.keys()) && alike(left.values(), right.values())
    }
}
