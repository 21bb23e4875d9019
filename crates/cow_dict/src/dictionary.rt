ghost use Rattle.std.specs.Prelude.{◌≡◌, ℕ, ◌+◌, ◌-◌, ◌*◌, ◌<◌, ◌≤◌, ◌^◌, [], ◌∷◌, length, map, IfOk, IfErr, OnOk, OnErr, IsOk, IfSome, All, Bool, option_map, IsTrue, ◌↔◌, true, false};
ghost use Rattle.std.specs.List.{sum_by, list_all, zip};
ghost use Rattle.cow_dict.specs.Dictionaries.{has, holds, without, kept_by, AnswersBy, takes, comes, goes, Doubles, HandsBoth, units, key_units, Pays, PaysWith, Returns};
ghost use Rattle.cow_dict.specs.Storages.{pair_of, keys, side_by_side, by_key};
ghost use Rattle.cow_members.specs.Ascents.{Ascends};
ghost use Rattle.cow_model.specs.Flat.{Becomes, Stays, HasRoom, need, settled};
ghost use Rattle.cow_model.specs.Members.{subset};
ghost use Rattle.cow_model.specs.Pairs.{in_order, value_in, put, merge};
ghost use Rattle.cow_model.specs.Purse.{Moves, less, more};
ghost use Rattle.cow_model.specs.declared.plain.Literal.{Literal};
ghost use Rattle.cow_row.specs.Changes.{InPlace};
ghost use Rattle.cow_members.specs.Sets.{lacking, ChangesTo, Untouched};

use crate::pairs::Pairs;
use crate::rule::Merge;
use crate::{algebra, pairs, storage};
use cow_cell::{Counted, Holder, Stock};
use cow_item::{Equivalent, Item, Key};
use cow_members::members;
use cow_model::NoMemory;
use std::alloc::Global;
use std::marker::Model;

/// A dictionary of keys and values over counted storage, after Swift's `Dictionary`. A copy shares the storage until
/// one of the two is changed.
///
/// A call on one key takes as many steps as its table does: few, where hashes differ in their low bits. A change of a
/// storage that others hold copies the pairs first, in linear time; what is said below of costs holds where the storage
/// is unshared. Only `new`, `sorted` and the calls that answer `NoMemory` take memory.
#[derive(Drop)]
pub struct Dictionary<K: Key<Q>, V: Item<Q>, Q: Stock> {
    pub(crate) cell: Counted<Pairs<K, V>, Q>,
    pub(crate) alloc: Global,
}

impl<K: Key<Q>, V: Item<Q>, Q: Stock> Model for Dictionary<K, V, Q> {
    ghost use Rattle.std.specs.Prelude.{◌-◌, ◌<◌, ◌^◌, List, length};
    ghost use Rattle.cow_dict.specs.Storages.{AreWhole, map_of};
    ghost use Rattle.cow_model.specs.Flat.{Flat};
    ghost use Rattle.cow_model.specs.declared.value.Pair.{Pair};

    ghost Value = { Flat (List Pair) };

    ghost view = { λ d. record { value = map_of K.plain V.plain d.cell.value; alone = d.cell.alone; room = d.cell.value.values.capacity - length d.cell.value.members.keys.items } };

    ghost invariant = { λ d. AreWhole K.plain K.hash_of K.IsSettled V.IsSettled d.cell.value × (length d.cell.value.members.keys.items < 2 ^ 31) };
}

impl<K: Key<Q>, V: Item<Q>, Q: Stock> Dictionary<K, V, Q> {
    /// An empty dictionary: Swift's `init()`. Takes memory for the storage and for 8 buckets. Answers `NoMemory` only
    /// for want of it.
    pub fn new(alloc: Global, h: &mut Holder<Q>) -> Result<Dictionary<K, V, Q>, NoMemory>
        requires { 1 ≤ h.old.spare }
        ensures ok { IfOk result (λ d. Becomes [] d) }
        ensures spent { OnOk result (h.new ≡ less 1 h.old) }
        ensures refused { OnErr result (h.new ≡ h.old) }
    {
        let cell = storage::empty(alloc, h)?;
        Ok(Dictionary { cell, alloc })
    }

    /// How many pairs there are: Swift's `count`. One step.
    #[tactic(auto, using(crate::proofs::Calls::call_steps))]
    pub fn count(&self) -> usize
        ensures value { result ≡ length self.now.value }
        ensures small { result < 2 ^ 31 }
    {
        self.cell.get().len()
    }

    /// Whether there is no pair: Swift's `isEmpty`. One step.
    #[tactic(auto, using(crate::proofs::Calls::call_steps))]
    pub fn is_empty(&self) -> bool
        ensures { IsTrue result ↔ (self.now.value ≡ []) }
    {
        self.cell.get().is_empty()
    }

    /// The keys and the values for reading, each value at the position of its key, in no promised order: Swift's `keys`
    /// and `values`. One step.
    pub fn as_slices(&self) -> (&[K], &[V])
        ensures value { by_key (side_by_side (map K.plain result.0.now) (map V.plain result.1.now))
            ≡ self.now.value }
        ensures alike { length result.1.now ≡ length result.0.now }
        ensures distinct { Ascends (keys self.now.value) }
        ensures keys { All K.IsSettled result.0.now }
        ensures values { All V.IsSettled result.1.now }
    {
        let shown = self.cell.get();
        (shown.members.as_slice(), shown.values.as_slice())
    }

    /// A second whole value, in one step: both show the pairs, and neither is alone.
    pub fn copy(&mut self, h: &mut Holder<Q>) -> Dictionary<K, V, Q>
        requires { 1 ≤ h.old.spare }
        ensures same { self.new ≡ settled self.old }
        ensures copy { result ≡ settled self.old }
        ensures spent { h.new ≡ less 1 h.old }
    {
        Dictionary {
            cell: self.cell.share(h),
            alloc: self.alloc,
        }
    }

    /// The same of a dictionary that isn't alone. Any number of threads may call it on one dictionary.
    pub fn copy_settled(&self, h: &mut Holder<Q>) -> Dictionary<K, V, Q>
        requires settled { self.now.alone ≡ false }
        requires spare { 1 ≤ h.old.spare }
        ensures copy { result ≡ self.now }
        ensures spent { h.new ≡ less 1 h.old }
    {
        Dictionary {
            cell: self.cell.share_settled(h),
            alloc: self.alloc,
        }
    }

    /// Not known to be alone any more. Nothing at run time.
    pub fn settle(&mut self)
        ensures { self.new ≡ settled self.old }
    {
        self.cell.settle();
    }

    /// The handle is given back; the last one of a storage ends its pairs, in one pass over the keys and one over the
    /// values.
    #[tactic(auto, using(crate::proofs::Calls::call_steps))]
    pub fn end(self, h: &mut Holder<Q>)
        ensures moved { Moves (sum_by (units K.is_counted V.is_counted) self.value) 0
            (more 1 h.old) h.new }
        ensures exact { Returns K.is_counted V.is_counted self (more 1 h.old) h.new }
        ensures never_less { h.old.spare + 1 ≤ h.new.spare }
    {
        let Dictionary { cell, alloc: _ } = self;
        storage::end_cell(cell, h);
    }

    /// Whether `k`, or the key that it stands for, has a value.
    pub fn contains_key<E: Equivalent<K, Q>>(&self, k: &E) -> bool
        ensures { result ≡ has (E.sought k.now) self.now.value }
    {
        members::contains(self.cell.get().members(), k)
    }

    /// The value under `k`, or under the key that it stands for: Swift's `subscript(key:)`. `None` exactly where there
    /// is none.
    pub fn get<E: Equivalent<K, Q>>(&self, k: &E) -> Option<&V>
        ensures value { option_map (λ v. V.plain v.now) result
            ≡ value_in (E.sought k.now) self.now.value }
        ensures distinct { Ascends (keys self.now.value) }
    {
        let shown = self.cell.get();
        match members::place_of(shown.members(), k.sought_hash(), k) {
            Some(i) => Some(shown.value_at(i)),
            None => None,
        }
    }

    /// `v` stands under `k`, and the value that stood there is handed out: Swift's `updateValue(_:forKey:)`. `None`
    /// exactly where there was none. Where there was one, the key that is there stays, and `k` ends.
    #[tactic(auto, using(crate::proofs::Calls::call_steps))]
    pub fn update(&mut self, k: K, v: V, h: &mut Holder<Q>) -> Result<Option<V>, (NoMemory, K, V)>
        requires growth { length self.old.value + 1 < 2 ^ 31 }
        requires spare { need (length self.old.value) ≤ h.old.spare }
        ensures ok { OnOk result
            (Becomes (put in_order self.old.value (pair_of (K.plain k) (V.plain v))) self.new) }
        ensures old { IfOk result
            (λ o. option_map V.plain o ≡ value_in (K.plain k) self.old.value) }
        ensures within { InPlace (comes (K.plain k) self.old.value) 0 result self.old self.new }
        ensures doubled { Doubles (comes (K.plain k) self.old.value) result self.old self.new }
        ensures refused { IfErr result (HandsBoth k v self.old self.new h.old h.new) }
        ensures paid { Pays K.is_counted V.is_counted (K.WEIGHT + V.WEIGHT) self.old h.old h.new }
        ensures exact { self.old.alone ≡ true → OnOk result
            (h.new ≡ more (key_units K.is_counted (K.plain k) self.old.value) h.old) }
    {
        let hash = k.hash();
        match members::place_of(self.cell.get().members(), hash, &k) {
            Some(i) => {
                if let Err(refused) = storage::prepare(&mut self.cell, self.alloc, 0, h) {
                    return Err((refused, k, v));
                }
                let old = pairs::replace(self.cell.only(), i, v);
                k.end(h);
                Ok(Some(old))
            }
            None => {
                self.put_new(hash, k, v, h)?;
                Ok(None)
            }
        }
    }

    /// `v` stands under `k`, which has this hash and isn't there: `update` for a caller who has looked.
    #[tactic(auto, using(crate::proofs::Calls::call_steps))]
    pub fn put_new(
        &mut self,
        hash: u32,
        k: K,
        v: V,
        h: &mut Holder<Q>,
    ) -> Result<(), (NoMemory, K, V)>
        requires hash { hash ≡ K.hash_of (K.plain k) }
        requires absent { has (K.plain k) self.old.value ≡ false }
        requires growth { length self.old.value + 1 < 2 ^ 31 }
        requires spare { need (length self.old.value) ≤ h.old.spare }
        ensures ok { OnOk result
            (Becomes (put in_order self.old.value (pair_of (K.plain k) (V.plain v))) self.new) }
        ensures within { InPlace 1 0 result self.old self.new }
        ensures doubled { Doubles 1 result self.old self.new }
        ensures refused { IfErr result (HandsBoth k v self.old self.new h.old h.new) }
        ensures paid { Pays K.is_counted V.is_counted (K.WEIGHT + V.WEIGHT) self.old h.old h.new }
        ensures free { self.old.alone ≡ true → h.new ≡ h.old }
    {
        if let Err(refused) = storage::prepare(&mut self.cell, self.alloc, 1, h) {
            return Err((refused, k, v));
        }
        pairs::push(self.cell.only(), hash, k, v);
        Ok(())
    }

    /// The value under `k`, or under the key that it stands for, taken out: Swift's `removeValue(forKey:)`. `None`
    /// exactly where there was none, and then nothing changes. The key that was there ends.
    #[tactic(auto, using(crate::proofs::Calls::call_steps))]
    pub fn remove<E: Equivalent<K, Q>>(
        &mut self,
        k: &E,
        h: &mut Holder<Q>,
    ) -> Result<Option<V>, NoMemory>
        requires spare { need (length self.old.value) ≤ h.old.spare }
        ensures ok { OnOk result (ChangesTo (without (E.sought k.now) self.old.value) self.old self.new) }
        ensures old { IfOk result
            (λ o. option_map V.plain o ≡ value_in (E.sought k.now) self.old.value) }
        ensures absent { has (E.sought k.now) self.old.value ≡ false
            → Untouched result self.old self.new h.old h.new }
        ensures within { InPlace 0 (goes (E.sought k.now) self.old.value) result self.old self.new }
        ensures refused { OnErr result (Stays self.old self.new × (h.new ≡ h.old)) }
        ensures paid { Pays K.is_counted V.is_counted (K.WEIGHT + V.WEIGHT) self.old h.old h.new }
        ensures exact { self.old.alone ≡ true → OnOk result
            (h.new ≡ more (key_units K.is_counted (E.sought k.now) self.old.value) h.old) }
    {
        match members::place_of(self.cell.get().members(), k.sought_hash(), k) {
            None => Ok(None),
            Some(i) => {
                storage::prepare(&mut self.cell, self.alloc, 0, h)?;
                let (key, value) = pairs::take(self.cell.only(), i);
                key.end(h);
                Ok(Some(value))
            }
        }
    }

    /// The keys of either: Swift's `merge(_:uniquingKeysWith:)`. Under a key of both stands the value that the rule
    /// says. One or two look-ups a key of `other`.
    #[tactic(auto, using(crate::proofs::Calls::call_steps))]
    pub fn merge(
        &mut self,
        other: &Dictionary<K, V, Q>,
        rule: Merge,
        h: &mut Holder<Q>,
    ) -> Result<(), NoMemory>
        requires growth { length self.old.value + length other.now.value < 2 ^ 31 }
        requires spare { need (length self.old.value + length other.now.value) ≤ h.old.spare }
        ensures ok { OnOk result
            (ChangesTo (merge in_order (takes rule) self.old.value other.now.value) self.old self.new) }
        ensures there { takes rule ≡ false → subset (keys other.now.value) (keys self.old.value) ≡ true
            → Untouched result self.old self.new h.old h.new }
        ensures empty { other.now.value ≡ [] → Untouched result self.old self.new h.old h.new }
        ensures within { HasRoom (lacking (keys self.old.value) (keys other.now.value)) self.old
            → IsOk result }
        ensures refused { OnErr result (Stays self.old self.new × (h.new ≡ h.old)) }
        ensures paid { PaysWith K.is_counted V.is_counted (K.WEIGHT + V.WEIGHT) self.old
            other.now.value h.old h.new }
    {
        let others = other.cell.get();
        let extra = algebra::missing(self.cell.get(), others);
        if algebra::changes_nothing(rule, extra, others.len()) {
            return Ok(());
        }
        storage::prepare(&mut self.cell, self.alloc, extra, h)?;
        algebra::merge_all(self.cell.only(), others, rule, h);
        Ok(())
    }

    /// The pairs to whose key `keep` answers true: Swift's `filter(_:)`, in place. It answers by the plain key alone,
    /// and is asked once or twice of a key.
    #[tactic(auto, using(crate::proofs::Calls::call_steps))]
    pub fn filter_keys<F: Fn(&K) -> bool>(
        &mut self,
        keep: F,
        h: &mut Holder<Q>,
    ) -> Result<(), NoMemory>
        requires callable { F.IsAlwaysCallable keep }
        requires spare { need (length self.old.value) ≤ h.old.spare }
        ensures ok { (p : Literal → Bool) → AnswersBy (λ k. K.plain k.now) (F.post keep) p
            → OnOk result (ChangesTo (kept_by p self.old.value) self.old self.new) }
        ensures there { (p : Literal → Bool) → AnswersBy (λ k. K.plain k.now) (F.post keep) p
            → list_all p (keys self.old.value) ≡ true
            → Untouched result self.old self.new h.old h.new }
        ensures within { self.old.alone ≡ true → IsOk result }
        ensures refused { OnErr result (Stays self.old self.new × (h.new ≡ h.old)) }
        ensures paid { Pays K.is_counted V.is_counted (K.WEIGHT + V.WEIGHT) self.old h.old h.new }
    {
        if algebra::all_stay(self.cell.get(), &keep) {
            return Ok(());
        }
        storage::prepare(&mut self.cell, self.alloc, 0, h)?;
        algebra::retain(self.cell.only(), &keep, h);
        Ok(())
    }

    /// Room for at least `n` more pairs: Swift's `reserveCapacity(_:)`. Takes memory where the storage grows, and moves
    /// the pairs once. A storage that grows at least doubles.
    #[tactic(auto, using(crate::proofs::Calls::call_steps))]
    pub fn reserve(&mut self, n: usize, h: &mut Holder<Q>) -> Result<(), NoMemory>
        requires growth { length self.old.value + n ≤ 2 ^ 31 }
        requires spare { need (length self.old.value) ≤ h.old.spare }
        ensures ok { OnOk result (Becomes self.old.value self.new) }
        ensures room { OnOk result (n ≤ self.new.room) }
        ensures within { HasRoom n self.old → IsOk result × (self.new ≡ self.old) }
        ensures refused { OnErr result (Stays self.old self.new × (h.new ≡ h.old)) }
        ensures paid { Pays K.is_counted V.is_counted (K.WEIGHT + V.WEIGHT) self.old h.old h.new }
        ensures free { self.old.alone ≡ true → h.new ≡ h.old }
    {
        storage::prepare(&mut self.cell, self.alloc, n, h)
    }

    /// How many keys of `other` aren't keys: by so many pairs `merge` grows it. One look-up a key of `other`.
    #[tactic(auto, using(crate::proofs::Calls::call_steps))]
    pub fn lacking(&self, other: &Dictionary<K, V, Q>) -> usize
        ensures value { result ≡ lacking (keys self.now.value) (keys other.now.value) }
        ensures distinct { Ascends (keys self.now.value) × Ascends (keys other.now.value) }
    {
        algebra::missing(self.cell.get(), other.cell.get())
    }

    /// Whether `test` answers true to each key: Swift's `keys.allSatisfy`. It answers by the plain key alone.
    #[tactic(auto, using(crate::proofs::Calls::call_steps))]
    pub fn all_keys<F: Fn(&K) -> bool>(&self, test: F) -> bool
        requires { F.IsAlwaysCallable test }
        ensures { (p : Literal → Bool) → AnswersBy (λ k. K.plain k.now) (F.post test) p
            → result ≡ list_all p (keys self.now.value) }
    {
        algebra::all_stay(self.cell.get(), &test)
    }

    /// References to the pairs by ascending key. Takes memory for them, and n log n comparisons.
    pub fn sorted(&self, alloc: Global) -> Result<Vec<(&K, &V)>, NoMemory>
        ensures { IfOk result
            (λ v. map (λ p. pair_of (K.plain p.0.now) (V.plain p.1.now)) v.items ≡ self.now.value) }
    {
        let shown = self.cell.get();
        let mut pairs = references(alloc, shown.keys(), shown.values())?;
        pairs.sort_unstable_by(|a, b| a.0.order(b.0));
        Ok(pairs)
    }
}

impl<K: Key<Q>, V: Key<Q>, Q: Stock> Dictionary<K, V, Q> {
    /// Whether each pair of `other` is one of these. At most one look-up a key of `other`.
    pub fn includes(&self, other: &Dictionary<K, V, Q>) -> bool
        ensures value { result ≡ list_all (holds self.now.value) other.now.value }
        ensures distinct { Ascends (keys self.now.value) × Ascends (keys other.now.value) }
    {
        algebra::includes(self.cell.get(), other.cell.get())
    }

    /// Whether the two have the same keys, with the same values: Swift's `==`. At most one look-up a key of `other`,
    /// and none where their counts differ.
    pub fn equals(&self, other: &Dictionary<K, V, Q>) -> bool
        ensures { IsTrue result ↔ (self.now.value ≡ other.now.value) }
    {
        algebra::equal(self.cell.get(), other.cell.get())
    }
}

/// A reference to each of the first, beside one to that of the second at its place.
fn references<'a, K, V>(
    alloc: Global,
    first: &'a [K],
    second: &'a [V],
) -> Result<Vec<(&'a K, &'a V)>, NoMemory>
    ensures { IfOk result
        (λ v. map (λ p. (p.0.now, p.1.now)) v.items ≡ zip first.now second.now) }
{
    match first.iter().zip(second.iter()).collect(alloc) {
        Ok(references) => Ok(references),
        Err(_) => Err(NoMemory),
    }
}
