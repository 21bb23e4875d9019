ghost use Rattle.std.specs.Prelude.{◌≡◌, ◌+◌, ◌*◌, ◌<◌, ◌≤◌, ◌^◌, ◌++◌, [], length, map, vec_len, vec_capacity, IfOk, IfErr, OnOk, OnErr, option_map, is_none, All, IsTrue, ◌↔◌, true, false};
ghost use Rattle.cow_champ.specs.Node.{seen_pair, SeenSettled, hashed};
ghost use Rattle.cow_champ.specs.Spending.{Spends, Copies, put_need};
ghost use Rattle.cow_dict.specs.Dictionaries.{has, holds, takes};
ghost use Rattle.cow_dict.specs.Storages.{pair_of, keys, by_key};
ghost use Rattle.cow_members.specs.Ascents.{Ascends};
ghost use Rattle.cow_members.specs.Sets.{ChangesTo, Untouched};
ghost use Rattle.cow_model.specs.Canon.{IsDistinct};
ghost use Rattle.cow_model.specs.Flat.{Becomes, need, settled};
ghost use Rattle.cow_model.specs.Pairs.{in_order, value_in, put, merge};
ghost use Rattle.cow_model.specs.Purse.{less, unit_if};
ghost use Rattle.cow_treedict.specs.Trees.{alike, on_path, map_from, plain_pair, others_of, IsHashed, HandsBoth};

use crate::distinct::distinct;
use crate::merging::{copy_all, push_copy};
use cow_cell::{Counted, Holder, Stock};
use cow_champ::Level;
use cow_dict::Merge;
use cow_item::{Equivalent, Item, Key};
use cow_model::NoMemory;
use std::alloc::Global;
use std::marker::{Model, PhantomData};
use std::mem::replace;

/// A persistent dictionary of keys and values, after `TreeDictionary` of swift-collections: a trie whose nodes are shared
/// between copies until one of them is changed.
///
/// A call on one key takes one step for each level of the trie down to the key, which are seven at most, and below the
/// last of them one for each key of that hash. Only `new`, `from_pairs`, `update`, `remove`, `merge`, `filter_keys`,
/// `references` and `sorted` take memory.
#[derive(Drop)]
pub struct TreeDictionary<K: Key<Q>, V: Item<Q>, Q: Stock, C: Level<K, V, Q>> {
    pub(crate) root: Counted<C, Q>,
    pub(crate) count: usize,
    pub(crate) alloc: Global,
    marker: PhantomData<(K, V)>,
}

impl<K: Key<Q>, V: Item<Q>, Q: Stock, C: Level<K, V, Q>> Model for TreeDictionary<K, V, Q, C> {
    ghost use Rattle.std.specs.Prelude.{◌≡◌, ◌<◌, ◌^◌, List, length};
    ghost use Rattle.cow_dict.specs.Storages.{by_key};
    ghost use Rattle.cow_model.specs.Canon.{pairs, IsCanonical};
    ghost use Rattle.cow_model.specs.Flat.{Flat};
    ghost use Rattle.cow_model.specs.declared.value.Pair.{Pair};

    ghost Value = { Flat (List Pair) };

    ghost view = { λ t. record { value = by_key (pairs (C.shape t.root.value)); alone = t.root.alone; room = 0 } };

    ghost invariant = { λ t. (C.LEVEL ≡ 0) × C.Stacked × C.IsWhole t.root.value × IsCanonical K.hash_of (C.shape t.root.value) C.LEVEL × (t.count ≡ length (pairs (C.shape t.root.value))) × (t.count < 2 ^ 31) };
}

impl<K: Key<Q>, V: Item<Q>, Q: Stock, C: Level<K, V, Q>> TreeDictionary<K, V, Q, C> {
    /// An empty dictionary: Swift's `init()`. Takes memory for the root. Answers `NoMemory` only for want of it.
    pub fn new(alloc: Global, h: &mut Holder<Q>) -> Result<TreeDictionary<K, V, Q, C>, NoMemory>
        requires root { C.LEVEL ≡ 0 }
        requires stacked { C.Stacked }
        requires spare { 1 ≤ h.old.spare }
        ensures ok { IfOk result (λ d. Becomes [] d) }
        ensures spent { OnOk result (h.new ≡ less 1 h.old) }
        ensures refused { OnErr result (h.new ≡ h.old) }
    {
        let node = C::empty(alloc)?;
        match Counted::new(alloc, node, h) {
            Ok(root) => Ok(TreeDictionary {
                root,
                count: 0,
                alloc,
                marker: PhantomData,
            }),
            Err((refused, _node)) => Err(refused),
        }
    }

    /// The dictionary that an empty one becomes when it is updated with the pairs in order: Swift's
    /// `init(_:uniquingKeysWith:)` with the last value of a key, and `init(uniqueKeysWithValues:)` where the keys differ. Of
    /// keys that are the same the first stays. The items are moved in, and none is copied: a few steps a pair, and one for
    /// each level that it passes. Takes memory for the nodes, and meanwhile for a table of the pairs; refused, the items
    /// are ended.
    pub fn from_pairs(
        alloc: Global,
        pairs: Vec<(K, V)>,
        h: &mut Holder<Q>,
    ) -> Result<TreeDictionary<K, V, Q, C>, NoMemory>
        requires root { C.LEVEL ≡ 0 }
        requires stacked { C.Stacked }
        requires growth { length pairs.items < 2 ^ 31 }
        requires spare { need (length pairs.items) ≤ h.old.spare }
        ensures ok { IfOk result
            (λ d. Becomes (map_from (map (plain_pair K.plain V.plain) pairs.items)) d) }
        ensures spare { h.old.spare ≤ h.new.spare + need (length pairs.items) }
        ensures copied { h.new.copied ≡ h.old.copied }
    {
        let pairs = distinct(alloc, pairs, h)?;
        TreeDictionary::built(alloc, pairs, h)
    }

    /// A dictionary of these pairs, whose keys differ. Refused, they are ended.
    pub(crate) fn built(
        alloc: Global,
        pairs: Vec<(u32, K, V)>,
        h: &mut Holder<Q>,
    ) -> Result<TreeDictionary<K, V, Q, C>, NoMemory>
        requires root { C.LEVEL ≡ 0 }
        requires stacked { C.Stacked }
        requires hashes { All (IsHashed K.hash_of K.plain) pairs.items }
        requires distinct { IsDistinct (map (hashed K.plain V.plain) pairs.items) }
        requires small { length pairs.items < 2 ^ 31 }
        requires spare { 14 * length pairs.items + 1 ≤ h.old.spare }
        ensures ok { IfOk result
            (λ d. Becomes (by_key (map (hashed K.plain V.plain) pairs.items)) d) }
        ensures spare { h.old.spare ≤ h.new.spare + (14 * length pairs.items + 1) }
        ensures copied { h.new.copied ≡ h.old.copied }
    {
        let count = pairs.len();
        let root = C::build(alloc, pairs, h)?;
        Ok(TreeDictionary {
            root,
            count,
            alloc,
            marker: PhantomData,
        })
    }

    /// How many pairs there are: Swift's `count`. One step.
    pub fn count(&self) -> usize
        ensures value { result ≡ length self.now.value }
        ensures small { result < 2 ^ 31 }
    {
        self.count
    }

    /// Whether there is no pair: Swift's `isEmpty`. One step.
    pub fn is_empty(&self) -> bool
        ensures { IsTrue result ↔ (self.now.value ≡ []) }
    {
        self.count == 0
    }

    /// A second whole value, in one step: both show the pairs, and neither is alone.
    pub fn copy(&mut self, h: &mut Holder<Q>) -> TreeDictionary<K, V, Q, C>
        requires { 1 ≤ h.old.spare }
        ensures same { self.new ≡ settled self.old }
        ensures copy { result ≡ settled self.old }
        ensures spent { h.new ≡ less 1 h.old }
    {
        TreeDictionary {
            root: self.root.share(h),
            count: self.count,
            alloc: self.alloc,
            marker: PhantomData,
        }
    }

    /// The same of a dictionary that isn't alone. Any number of threads may call it on one dictionary.
    pub fn copy_settled(&self, h: &mut Holder<Q>) -> TreeDictionary<K, V, Q, C>
        requires settled { self.now.alone ≡ false }
        requires spare { 1 ≤ h.old.spare }
        ensures copy { result ≡ self.now }
        ensures spent { h.new ≡ less 1 h.old }
    {
        TreeDictionary {
            root: self.root.share_settled(h),
            count: self.count,
            alloc: self.alloc,
            marker: PhantomData,
        }
    }

    /// Not known to be alone any more. Nothing at run time.
    pub fn settle(&mut self)
        ensures { self.new ≡ settled self.old }
    {
        self.root.settle();
    }

    /// The handle is given back; the last one of a node ends its pairs and, likewise, its children.
    pub fn end(self, h: &mut Holder<Q>)
        ensures spare { h.old.spare + 1 ≤ h.new.spare }
        ensures copied { h.new.copied ≡ h.old.copied }
    {
        let TreeDictionary {
            root,
            count: _,
            alloc: _,
            marker: _,
        } = self;
        C::end(root, h);
    }

    /// Whether `k`, or the key that it stands for, has a value.
    pub fn contains_key<E: Equivalent<K, Q>>(&self, k: &E) -> bool
        ensures { result ≡ has (E.sought k.now) self.now.value }
    {
        self.get(k).is_some()
    }

    /// The value under `k`, or under the key that it stands for: Swift's `subscript(key:)`. `None` exactly where there
    /// is none.
    pub fn get<E: Equivalent<K, Q>>(&self, k: &E) -> Option<&V>
        ensures value { option_map (λ v. V.plain v.now) result ≡ value_in (E.sought k.now) self.now.value }
        ensures distinct { Ascends (keys self.now.value) }
    {
        self.root.get().find(k.sought_hash(), k)
    }

    /// How many keys have this hash.
    pub fn hash_count(&self, hash: u32) -> usize
        ensures { result ≡ alike K.hash_of hash self.now.value }
    {
        self.root.get().hash_count(hash)
    }

    /// `v` stands under `k`, and the value that stood there is handed out: Swift's `updateValue(_:forKey:)`. `None`
    /// exactly where there was none. Where there was one, the key that is there stays, and `k` ends. Takes memory for the
    /// nodes of the path that are copied, and for one more pair.
    pub fn update(&mut self, k: K, v: V, h: &mut Holder<Q>) -> Result<Option<V>, (NoMemory, K, V)>
        requires growth { length self.old.value + 1 < 2 ^ 31 }
        requires spare { need (length self.old.value) ≤ h.old.spare }
        ensures ok { OnOk result
            (Becomes (put in_order self.old.value (pair_of (K.plain k) (V.plain v))) self.new) }
        ensures old { IfOk result
            (λ o. option_map V.plain o ≡ value_in (K.plain k) self.old.value) }
        ensures refused { IfErr result (HandsBoth k v self.old self.new) }
        ensures spent { Spends (put_need 0 (length self.old.value))
            ((K.WEIGHT + V.WEIGHT) * length self.old.value) h.old h.new }
        ensures path { Copies (K.WEIGHT + V.WEIGHT)
            (on_path K.hash_of (K.plain k) self.old.value) h.old h.new }
    {
        let hash = k.hash();
        let old = C::put(&mut self.root, self.alloc, hash, k, v, h)?;
        self.count += newly(&old);
        Ok(old)
    }

    /// The keys of either: Swift's `merge(_:uniquingKeysWith:)`. Under a key of both stands the value that the rule says.
    /// Takes memory for the nodes of a new trie, of copies of all pairs, and puts it in place at the end; linear in the
    /// number of pairs, and a look-up for each of those that the rule sets back. Where `other` is empty, nothing happens.
    pub fn merge(
        &mut self,
        other: &TreeDictionary<K, V, Q, C>,
        rule: Merge,
        h: &mut Holder<Q>,
    ) -> Result<(), NoMemory>
        requires growth { length self.old.value + length other.now.value < 2 ^ 31 }
        requires spare { need (length self.old.value + length other.now.value) ≤ h.old.spare }
        ensures ok { OnOk result
            (ChangesTo (merge in_order (takes rule) self.old.value other.now.value) self.old self.new) }
        ensures empty { other.now.value ≡ [] → Untouched result self.old self.new h.old h.new }
        ensures refused { OnErr result (self.new ≡ self.old) }
        ensures spent { Spends (need (length self.old.value + length other.now.value))
            ((K.WEIGHT + V.WEIGHT) * (length self.old.value + length other.now.value)) h.old h.new }
    {
        if other.is_empty() {
            return Ok(());
        }
        let merged = self.merged(other, rule, h)?;
        let old = replace(self, merged);
        old.end(h);
        Ok(())
    }

    /// What `merge` makes of the two, of copies.
    fn merged(
        &self,
        other: &TreeDictionary<K, V, Q, C>,
        rule: Merge,
        h: &mut Holder<Q>,
    ) -> Result<TreeDictionary<K, V, Q, C>, NoMemory>
        requires growth { length self.now.value + length other.now.value < 2 ^ 31 }
        requires spare { need (length self.now.value + length other.now.value) ≤ h.old.spare }
        ensures ok { IfOk result
            (λ d. Becomes (merge in_order (takes rule) self.now.value other.now.value) d) }
        ensures spent { Spends (need (length self.now.value + length other.now.value))
            ((K.WEIGHT + V.WEIGHT) * (length self.now.value + length other.now.value)) h.old h.new }
    {
        match rule {
            Merge::Keep => self.joined(other, h),
            Merge::Take => other.joined(self, h),
        }
    }

    /// A dictionary of copies: of all these pairs, and of those of `other` whose key isn't one of these.
    fn joined(
        &self,
        other: &TreeDictionary<K, V, Q, C>,
        h: &mut Holder<Q>,
    ) -> Result<TreeDictionary<K, V, Q, C>, NoMemory>
        requires growth { length self.now.value + length other.now.value < 2 ^ 31 }
        requires spare { need (length self.now.value + length other.now.value) ≤ h.old.spare }
        ensures ok { IfOk result
            (λ d. Becomes (merge in_order false self.now.value other.now.value) d) }
        ensures distinct { IfOk result
            (λ _. Ascends (keys self.now.value) × Ascends (keys other.now.value)) }
        ensures spent { Spends (need (length self.now.value + length other.now.value))
            ((K.WEIGHT + V.WEIGHT) * (length self.now.value + length other.now.value)) h.old h.new }
    {
        let mine = self.references(self.alloc)?;
        let theirs = other.references(self.alloc)?;
        let Ok(mut pairs) = Vec::with_capacity(self.alloc, mine.len() + theirs.len()) else {
            return Err(NoMemory);
        };
        copy_all(&mine, &mut pairs, h);
        self.copy_others(&theirs, &mut pairs, h);
        TreeDictionary::built(self.alloc, pairs, h)
    }

    /// Copies of those pairs whose key isn't one of these stand last in `into`, in their order.
    fn copy_others(&self, pairs: &Vec<(&K, &V)>, into: &mut Vec<(u32, K, V)>, h: &mut Holder<Q>)
        requires settled { All (SeenSettled K.IsSettled V.IsSettled) pairs.now.items }
        requires room { vec_len into.old + length pairs.now.items ≤ vec_capacity into.old }
        requires spare { 2 * length pairs.now.items ≤ h.old.spare }
        requires hashes { All (IsHashed K.hash_of K.plain) into.old.items }
        ensures hashes { All (IsHashed K.hash_of K.plain) into.new.items }
        ensures same { map (hashed K.plain V.plain) into.new.items
            ≡ map (hashed K.plain V.plain) into.old.items
            ++ others_of self.now.value (map (seen_pair K.plain V.plain) pairs.now.items) }
        ensures most { vec_len into.new ≤ vec_len into.old + length pairs.now.items }
        ensures spent { Spends (2 * length pairs.now.items)
            ((K.WEIGHT + V.WEIGHT) * length pairs.now.items) h.old h.new }
    {
        for t in pairs {
            if !self.contains_key(t.0) {
                push_copy(into, t.0, t.1, h);
            }
        }
    }

    /// References to the pairs, by ascending digits of the hashes of their keys, and by key where the hashes are equal.
    /// Takes memory for them. Linear in their number.
    pub fn references(&self, alloc: Global) -> Result<Vec<(&K, &V)>, NoMemory>
        ensures value { IfOk result
            (λ v. by_key (map (seen_pair K.plain V.plain) v.items) ≡ self.now.value) }
        ensures settled { IfOk result
            (λ v. All (SeenSettled K.IsSettled V.IsSettled) v.items) }
        ensures distinct { Ascends (keys self.now.value) }
    {
        let mut pairs = Vec::new(alloc);
        self.root.get().walk(&mut pairs)?;
        Ok(pairs)
    }

    /// References to the pairs by ascending key. Takes memory for them, and n log n comparisons.
    pub fn sorted(&self, alloc: Global) -> Result<Vec<(&K, &V)>, NoMemory>
        ensures { IfOk result
            (λ v. map (seen_pair K.plain V.plain) v.items ≡ self.now.value) }
    {
        let mut pairs = self.references(alloc)?;
        pairs.sort_unstable_by(|a, b| a.0.order(b.0));
        Ok(pairs)
    }
}

impl<K: Key<Q>, V: Key<Q>, Q: Stock, C: Level<K, V, Q>> TreeDictionary<K, V, Q, C> {
    /// Whether the two have the same keys, with the same values: Swift's `==`. At most one look-up a key of `other`,
    /// and none where their counts differ.
    pub fn equals(&self, other: &TreeDictionary<K, V, Q, C>) -> bool
        ensures { IsTrue result ↔ (self.now.value ≡ other.now.value) }
    {
        self.count == other.count && other.root.get().all(&|k, v| self.has_pair(k, v))
    }

    /// Whether `v` stands under `k`.
    pub(crate) fn has_pair(&self, k: &K, v: &V) -> bool
        ensures { result ≡ holds self.now.value (pair_of (K.plain k.now) (V.plain v.now)) }
    {
        match self.get(k) {
            Some(w) => w.same(v),
            None => false,
        }
    }
}

/// How many pairs come where the value `old` was handed out.
fn newly<V>(old: &Option<V>) -> usize
    ensures { result ≡ unit_if (is_none old.now) }
{
    match old {
        None => 1,
        Some(_) => 0,
    }
}
