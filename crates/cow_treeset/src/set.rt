ghost use Rattle.std.specs.Prelude.{◌≡◌, ◌+◌, ◌*◌, ◌<◌, ◌≤◌, ◌^◌, [], length, map, not, IfOk, IfErr, OnOk, OnErr, IsOk, All, IsTrue, ◌↔◌, option_map, true, false};
ghost use Rattle.std.specs.List.{list_all};
ghost use Rattle.cow_champ.specs.Spending.{Spends, Copies, put_need};
ghost use Rattle.cow_members.specs.Ascents.{Ascends};
ghost use Rattle.cow_members.specs.Sets.{found, kept_by, ChangesTo};
ghost use Rattle.cow_model.specs.Flat.{Becomes, Stays, need, settled};
ghost use Rattle.cow_model.specs.Members.{ascending, member, in_order, with_member, union, subset, disjoint};
ghost use Rattle.cow_model.specs.Purse.{less, more, unit_if};
ghost use Rattle.cow_treeset.specs.TreeSets.{alike, on_path, key_of, IsHashed, HandsKey};

use crate::distinct::distinct;
use cow_cell::{Counted, Holder, Stock};
use cow_champ::Level;
use cow_item::{Equivalent, Key};
use cow_model::NoMemory;
use std::alloc::Global;
use std::marker::{Model, PhantomData};

/// A persistent set of keys, after `TreeSet` of swift-collections: a trie whose nodes are shared between copies until one
/// of them is changed.
///
/// A call on one key takes one step for each level of the trie down to the key, which are seven at most, and below the
/// last of them one for each key of that hash. Only `new`, `from_keys`, the calls that change a set, `references` and
/// `sorted` take memory.
#[derive(Drop)]
pub struct TreeSet<K: Key<Q>, Q: Stock, C: Level<K, (), Q>> {
    pub(crate) root: Counted<C, Q>,
    pub(crate) count: usize,
    pub(crate) alloc: Global,
    pub(crate) marker: PhantomData<K>,
}

impl<K: Key<Q>, Q: Stock, C: Level<K, (), Q>> Model for TreeSet<K, Q, C> {
    ghost use Rattle.std.specs.Prelude.{◌≡◌, ◌<◌, ◌^◌, List, length};
    ghost use Rattle.cow_model.specs.Canon.{pairs, IsCanonical};
    ghost use Rattle.cow_model.specs.Flat.{Flat};
    ghost use Rattle.cow_model.specs.declared.plain.Literal.{Literal};
    ghost use Rattle.cow_treeset.specs.TreeSets.{set_of};

    ghost Value = { Flat (List Literal) };

    ghost view = { λ t. record { value = set_of (pairs (C.shape t.root.value)); alone = t.root.alone; room = 0 } };

    ghost invariant = { λ t. (C.LEVEL ≡ 0) × C.Stacked × C.IsWhole t.root.value × IsCanonical K.hash_of (C.shape t.root.value) C.LEVEL × (t.count ≡ length (pairs (C.shape t.root.value))) × (t.count < 2 ^ 31) };
}

impl<K: Key<Q>, Q: Stock, C: Level<K, (), Q>> TreeSet<K, Q, C> {
    /// An empty set: Swift's `init()`. Takes memory for the root. Answers `NoMemory` only for want of it.
    pub fn new(alloc: Global, h: &mut Holder<Q>) -> Result<TreeSet<K, Q, C>, NoMemory>
        requires root { C.LEVEL ≡ 0 }
        requires stacked { C.Stacked }
        requires spare { 1 ≤ h.old.spare }
        ensures ok { IfOk result (λ s. Becomes [] s) }
        ensures spent { OnOk result (h.new ≡ less 1 h.old) }
        ensures refused { OnErr result (h.new ≡ h.old) }
    {
        let node = C::empty(alloc)?;
        match Counted::new(alloc, node, h) {
            Ok(root) => Ok(TreeSet {
                root,
                count: 0,
                alloc,
                marker: PhantomData,
            }),
            Err((refused, _node)) => Err(refused),
        }
    }

    /// The set that an empty one becomes when the keys are inserted in order: Swift's `init(_:)`. Of keys that are the
    /// same the first stays. The keys are moved in, and none is copied: a few steps a key, and one for each level that it
    /// passes. Takes memory for the nodes, and meanwhile for a table of the keys; refused, the keys are ended.
    pub fn from_keys(
        alloc: Global,
        keys: Vec<K>,
        h: &mut Holder<Q>,
    ) -> Result<TreeSet<K, Q, C>, NoMemory>
        requires root { C.LEVEL ≡ 0 }
        requires stacked { C.Stacked }
        requires growth { length keys.items < 2 ^ 31 }
        requires spare { need (length keys.items) ≤ h.old.spare }
        ensures ok { IfOk result (λ s. Becomes (union in_order [] (map K.plain keys.items)) s) }
        ensures spare { h.old.spare ≤ h.new.spare + need (length keys.items) }
        ensures copied { h.new.copied ≡ h.old.copied }
    {
        let keys = distinct(alloc, keys, h)?;
        TreeSet::built(alloc, keys, h)
    }

    /// A set of these keys, which differ. Refused, they are ended.
    pub(crate) fn built(
        alloc: Global,
        keys: Vec<(u32, K, ())>,
        h: &mut Holder<Q>,
    ) -> Result<TreeSet<K, Q, C>, NoMemory>
        requires root { C.LEVEL ≡ 0 }
        requires stacked { C.Stacked }
        requires hashes { All (IsHashed K.hash_of K.plain) keys.items }
        requires distinct { Ascends (ascending (map (key_of K.plain) keys.items)) }
        requires small { length keys.items < 2 ^ 31 }
        requires spare { 14 * length keys.items + 1 ≤ h.old.spare }
        ensures ok { IfOk result (λ s. Becomes (ascending (map (key_of K.plain) keys.items)) s) }
        ensures spare { h.old.spare ≤ h.new.spare + (14 * length keys.items + 1) }
        ensures copied { h.new.copied ≡ h.old.copied }
    {
        let count = keys.len();
        let root = C::build(alloc, keys, h)?;
        Ok(TreeSet {
            root,
            count,
            alloc,
            marker: PhantomData,
        })
    }

    /// How many members there are: Swift's `count`. One step.
    pub fn count(&self) -> usize
        ensures value { result ≡ length self.now.value }
        ensures small { result < 2 ^ 31 }
    {
        self.count
    }

    /// Whether there is no member: Swift's `isEmpty`. One step.
    pub fn is_empty(&self) -> bool
        ensures { IsTrue result ↔ (self.now.value ≡ []) }
    {
        self.count == 0
    }

    /// A second whole value, in one step: both show the members, and neither is alone.
    pub fn copy(&mut self, h: &mut Holder<Q>) -> TreeSet<K, Q, C>
        requires { 1 ≤ h.old.spare }
        ensures same { self.new ≡ settled self.old }
        ensures copy { result ≡ settled self.old }
        ensures spent { h.new ≡ less 1 h.old }
    {
        TreeSet {
            root: self.root.share(h),
            count: self.count,
            alloc: self.alloc,
            marker: PhantomData,
        }
    }

    /// The same of a set that isn't alone. Any number of threads may call it on one set.
    pub fn copy_settled(&self, h: &mut Holder<Q>) -> TreeSet<K, Q, C>
        requires settled { self.now.alone ≡ false }
        requires spare { 1 ≤ h.old.spare }
        ensures copy { result ≡ self.now }
        ensures spent { h.new ≡ less 1 h.old }
    {
        TreeSet {
            root: self.root.share_settled(h),
            count: self.count,
            alloc: self.alloc,
            marker: PhantomData,
        }
    }

    /// Not known to be alone any more. Nothing at run time.
    pub fn settle(&mut self)
        ensures { self.new ≡ settled self.old }
    {
        self.root.settle();
    }

    /// The handle is given back; the last one of a node ends its keys and, likewise, its children.
    pub fn end(self, h: &mut Holder<Q>)
        ensures spare { h.old.spare + 1 ≤ h.new.spare }
        ensures copied { h.new.copied ≡ h.old.copied }
    {
        let TreeSet {
            root,
            count: _,
            alloc: _,
            marker: _,
        } = self;
        C::end(root, h);
    }

    /// Whether `k`, or the key that it stands for, is a member: Swift's `contains`.
    pub fn contains<E: Equivalent<K, Q>>(&self, k: &E) -> bool
        ensures value { result ≡ member (E.sought k.now) self.now.value }
        ensures distinct { Ascends self.now.value }
    {
        let _ = &self.root;
        self.has(k.sought_hash(), k)
    }

    /// Whether `k`, which has this hash, is a member.
    pub(crate) fn has<E: Equivalent<K, Q>>(&self, hash: u32, k: &E) -> bool
        requires { hash ≡ K.hash_of (E.sought k.now) }
        ensures { result ≡ member (E.sought k.now) self.now.value }
    {
        self.root.get().find(hash, k).is_some()
    }

    /// How many members have this hash.
    pub fn hash_count(&self, hash: u32) -> usize
        ensures { result ≡ alike K.hash_of hash self.now.value }
    {
        self.root.get().hash_count(hash)
    }

    /// `k` is a member: Swift's `insert`. `true` where it wasn't one before. Else nothing changes, and `k` is ended. Takes
    /// memory for the nodes of the path that are copied, and for one more key.
    pub fn insert(&mut self, k: K, h: &mut Holder<Q>) -> Result<bool, (NoMemory, K)>
        requires growth { length self.old.value + 1 < 2 ^ 31 }
        requires spare { need (length self.old.value) ≤ h.old.spare }
        ensures new { IfOk result (λ b. b ≡ not (member (K.plain k) self.old.value)) }
        ensures ok { OnOk result
            (ChangesTo (with_member in_order self.old.value (K.plain k)) self.old self.new) }
        ensures there { member (K.plain k) self.old.value ≡ true → IsOk result
            × (self.new ≡ self.old) × (h.new ≡ more (unit_if (K.is_counted (K.plain k))) h.old) }
        ensures refused { IfErr result (HandsKey k self.old self.new) }
        ensures spent { Spends (put_need 0 (length self.old.value))
            (K.WEIGHT * length self.old.value) h.old h.new }
        ensures path { Copies K.WEIGHT
            (on_path K.hash_of (K.plain k) self.old.value) h.old h.new }
    {
        let hash = k.hash();
        if self.has(hash, &k) {
            k.end(h);
            return Ok(false);
        }
        self.put_new(hash, k, h)?;
        Ok(true)
    }

    /// `k` is a member: Swift's `update(with:)`. Where one was that is the same, that one stays, as the key of a tree
    /// dictionary does, and `k` is handed out, which nothing tells from it; then nothing changes. `None` exactly where there
    /// was none.
    pub fn update(&mut self, k: K, h: &mut Holder<Q>) -> Result<Option<K>, (NoMemory, K)>
        requires growth { length self.old.value + 1 < 2 ^ 31 }
        requires spare { need (length self.old.value) ≤ h.old.spare }
        ensures old { IfOk result (λ o. option_map K.plain o ≡ found (K.plain k) self.old.value) }
        ensures ok { OnOk result
            (ChangesTo (with_member in_order self.old.value (K.plain k)) self.old self.new) }
        ensures there { member (K.plain k) self.old.value ≡ true → IsOk result
            × (self.new ≡ self.old) × (h.new ≡ h.old) }
        ensures refused { IfErr result (HandsKey k self.old self.new) }
        ensures spent { Spends (put_need 0 (length self.old.value))
            (K.WEIGHT * length self.old.value) h.old h.new }
        ensures path { Copies K.WEIGHT
            (on_path K.hash_of (K.plain k) self.old.value) h.old h.new }
    {
        let hash = k.hash();
        if self.has(hash, &k) {
            return Ok(Some(k));
        }
        self.put_new(hash, k, h)?;
        Ok(None)
    }

    /// `k`, which has this hash and isn't a member, is one.
    fn put_new(&mut self, hash: u32, k: K, h: &mut Holder<Q>) -> Result<(), (NoMemory, K)>
        requires hash { hash ≡ K.hash_of (K.plain k) }
        requires absent { member (K.plain k) self.old.value ≡ false }
        requires growth { length self.old.value + 1 < 2 ^ 31 }
        requires spare { need (length self.old.value) ≤ h.old.spare }
        ensures ok { OnOk result (Becomes (in_order (K.plain k) self.old.value) self.new) }
        ensures refused { IfErr result (HandsKey k self.old self.new) }
        ensures spent { Spends (put_need 0 (length self.old.value))
            (K.WEIGHT * length self.old.value) h.old h.new }
        ensures path { Copies K.WEIGHT
            (on_path K.hash_of (K.plain k) self.old.value) h.old h.new }
    {
        match C::put(&mut self.root, self.alloc, hash, k, (), h) {
            Ok(_) => {
                self.count += 1;
                Ok(())
            }
            Err((refused, k, _)) => Err((refused, k)),
        }
    }

    /// Whether each member is one of `other`, where `keep` is true; whether none is, where it is false.
    pub(crate) fn all_stay(&self, other: &TreeSet<K, Q, C>, keep: bool) -> bool
        ensures value { result ≡ list_all (kept_by keep other.now.value) self.now.value }
        ensures distinct { Ascends self.now.value × Ascends other.now.value }
    {
        let _ = &other.root;
        self.root.get().all(&|k, _| other.stays(k, keep))
    }

    /// Whether a key is a member, where `keep` is true; whether it isn't, where it is false.
    pub(crate) fn stays(&self, k: &K, keep: bool) -> bool
        ensures { result ≡ kept_by keep self.now.value (K.plain k.now) }
    {
        let there = self.contains(k);
        if keep { there } else { !there }
    }

    /// Whether each member is one of `other`: Swift's `isSubset(of:)`. At most one look-up a member, and none where
    /// `other` has fewer.
    pub fn is_subset(&self, other: &TreeSet<K, Q, C>) -> bool
        ensures { result ≡ subset self.now.value other.now.value }
    {
        self.count <= other.count && self.all_stay(other, true)
    }

    /// Whether no member is one of `other`: Swift's `isDisjoint(with:)`. At most one look-up a member of the smaller.
    pub fn is_disjoint(&self, other: &TreeSet<K, Q, C>) -> bool
        ensures { result ≡ disjoint self.now.value other.now.value }
    {
        if self.count <= other.count {
            self.all_stay(other, false)
        } else {
            other.all_stay(self, false)
        }
    }

    /// Whether the two have the same members: Swift's `==`. At most one look-up a member, and none where their counts
    /// differ.
    pub fn equals(&self, other: &TreeSet<K, Q, C>) -> bool
        ensures { IsTrue result ↔ (self.now.value ≡ other.now.value) }
    {
        self.count == other.count && self.all_stay(other, true)
    }

    /// References to the members, each beside its value. Takes memory for them. Linear in their number.
    pub(crate) fn walked(&self) -> Result<Vec<(&K, &())>, NoMemory>
        ensures value { IfOk result
            (λ v. ascending (map (λ t. K.plain t.0.now) v.items) ≡ self.now.value) }
        ensures settled { IfOk result (λ v. All (λ t. K.IsSettled t.0.now) v.items) }
        ensures distinct { Ascends self.now.value }
    {
        let mut pairs = Vec::new(self.alloc);
        self.root.get().walk(&mut pairs)?;
        Ok(pairs)
    }

    /// References to the members, by ascending digits of their hashes, and by key where the hashes are equal. Takes
    /// memory for them. Linear in their number.
    pub fn references(&self, alloc: Global) -> Result<Vec<&K>, NoMemory>
        ensures value { IfOk result
            (λ v. ascending (map (λ k. K.plain k.now) v.items) ≡ self.now.value) }
        ensures distinct { Ascends self.now.value }
    {
        let pairs = self.walked()?;
        firsts::<K, Q>(alloc, &pairs)
    }

    /// References to the members in ascending order: Swift's `sorted()`. Takes memory for them, and n log n comparisons.
    pub fn sorted(&self, alloc: Global) -> Result<Vec<&K>, NoMemory>
        ensures { IfOk result (λ v. map (λ k. K.plain k.now) v.items ≡ self.now.value) }
    {
        let mut keys = self.references(alloc)?;
        keys.sort_unstable_by(|a, b| a.order(b));
        Ok(keys)
    }
}

/// The first of each pair, in order.
fn firsts<'a, K: Key<Q>, Q: Stock>(
    alloc: Global,
    pairs: &Vec<(&'a K, &'a ())>,
) -> Result<Vec<&'a K>, NoMemory>
    ensures { IfOk result (λ v. map (λ k. K.plain k.now) v.items
        ≡ map (λ t. K.plain t.0.now) pairs.now.items) }
{
    let Ok(mut keys) = Vec::with_capacity(alloc, pairs.len()) else {
        return Err(NoMemory);
    };
    for t in pairs {
        if keys.push(t.0).is_err() {
            unreachable!()
        }
    }
    Ok(keys)
}
