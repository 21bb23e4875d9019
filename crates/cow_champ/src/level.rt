ghost use Rattle.std.specs.Prelude.{◌≡◌, ◌≤◌, ◌<◌, ◌+◌, ◌*◌, ◌-◌, ◌^◌, ℕ, min, Bool, IfOk, IfErr, OnOk, OnErr, option_map, true, false, [], map, length, All};
ghost use Rattle.std.specs.List.{list_all};
ghost use Rattle.cow_model.specs.Canon.{Tree, pairs, canon, count_where, is_one, IsCanonical, IsDistinct, AgreeBelow};
ghost use Rattle.cow_model.specs.declared.plain.Literal.{Literal};
ghost use Rattle.cow_champ.specs.Node.{hashed, both, seen_pair, SeenSettled};
ghost use Rattle.cow_champ.specs.Words.{size, held, alike, with_pair, Appends};
ghost use Rattle.cow_champ.specs.Spending.{Own, unshared, CopiesNode, Unshares, put_need, Puts, PutsIn, on_path, Copies, build_need};

use cow_cell::{Counted, Holder, Stock};
use cow_item::{Equivalent, Item, Key};
use cow_model::NoMemory;
use std::alloc::Global;
use std::mem::replace;

/// One level of a trie: the nodes whose entries and children are told apart by the digit `LEVEL` of their
/// keys' hashes, from 0 at the root to 6; and level 7 below them, where all hashes of a node are equal.
///
/// A call takes the key's hash, which it doesn't make again. Its steps: one for each level from this one down to
/// the key, each with a look at one bit map or two, and below the last of them one for each key of that hash.
pub trait Level<K: Key<Q>, V: Item<Q>, Q: Stock>: Sized + Drop {
    /// The tree of entries and children that the node stands for.
    ghost shape: { Self → Tree };

    /// Its rows fit its bit maps, and its items and handles are settled.
    ghost IsWhole: { Self → Type 0 };

    /// It has no entry and no child.
    ghost IsEmpty: { Self → Type 0 };

    /// How many entries and children stand in the node itself.
    ghost own: { Self → Own };

    /// The levels below stand in order.
    ghost Stacked: { Type 0 };

    ghost LEVEL: { ℕ };

    const LEVEL: u32;

    /// A node of nothing. Takes no memory yet.
    fn empty(alloc: Global) -> Result<Self, NoMemory>
        requires stacked { Stacked }
        ensures empty { IfOk result (λ n. IsEmpty n) }
        ensures whole { IfOk result (λ n. IsWhole n) }
        ensures shape { IfOk result (λ n. shape n ≡ canon K.hash_of [] LEVEL) };

    /// The value under a key, or under the one that `key` stands for; None exactly where there is none. Takes no memory.
    fn find<E: Equivalent<K, Q>>(&self, hash: u32, key: &E) -> Option<&V>
        requires stacked { Stacked }
        requires whole { IsWhole self.now }
        requires hash { hash ≡ K.hash_of (E.sought key.now) }
        requires agree { AgreeBelow K.hash_of LEVEL hash (pairs (shape self.now)) }
        requires canonical { IsCanonical K.hash_of (shape self.now) LEVEL }
        ensures { option_map (λ v. V.plain v.now) result ≡ held (E.sought key.now) (shape self.now) };

    /// How many keys have this hash. Takes no memory.
    fn hash_count(&self, hash: u32) -> usize
        requires stacked { Stacked }
        requires whole { IsWhole self.now }
        requires canonical { IsCanonical K.hash_of (shape self.now) LEVEL }
        ensures { result ≡ alike K.hash_of hash (shape self.now) };

    /// Every pair stands last in `into`, by ascending digits of the hashes and, where those are equal, by key; keys and
    /// values are settled, so that they can be copied. Linear in their number. Takes memory where `into` grows; refused, `into` is as it was.
    fn walk<'a>(&'a self, into: &mut Vec<(&'a K, &'a V)>) -> Result<(), NoMemory>
        requires stacked { Stacked }
        requires whole { IsWhole self.now }
        ensures ok { OnOk result
            (Appends (seen_pair K.plain V.plain) (SeenSettled K.IsSettled V.IsSettled)
            (pairs (shape self.now)) into.old.items into.new.items) }
        ensures refused { OnErr result (into.new.items ≡ into.old.items) };

    /// Whether a test is true of every pair. The test answers by the plain pair alone. It is asked of no pair after
    /// one of which it is false. Takes no memory.
    fn all<F: Fn(&K, &V) -> bool>(&self, test: &F) -> bool
        requires stacked { Stacked }
        requires whole { IsWhole self.now }
        requires callable { F.IsAlwaysCallable test.now }
        ensures { (p : Literal → Literal → Bool)
            → ((k : _) (v : _) (r : Bool) → F.post test.now k v r → r ≡ p (K.plain k.now) (V.plain v.now))
            → result ≡ list_all (λ q. p q.key q.value) (pairs (shape self.now)) };

    /// Of how many pairs a test is true; the number stands still at 2^64 - 1. The test answers by the plain pair alone, and
    /// is asked once of each. Takes no memory.
    fn tally<F: Fn(&K, &V) -> bool>(&self, test: &F) -> usize
        requires stacked { Stacked }
        requires whole { IsWhole self.now }
        requires callable { F.IsAlwaysCallable test.now }
        ensures { (p : Literal → Literal → Bool)
            → ((k : _) (v : _) (r : Bool) → F.post test.now k v r → r ≡ p (K.plain k.now) (V.plain v.now))
            → result ≡ min (count_where (λ q. p q.key q.value) (pairs (shape self.now))) (2 ^ 64 - 1) };

    /// A second node of the same shape: its items are copied, and its children get a handle more.
    fn copy_node(&self, alloc: Global, h: &mut Holder<Q>) -> Result<Self, NoMemory>
        requires whole { IsWhole self.now }
        requires spare { unshared (own self.now) ≤ h.old.spare + 1 }
        ensures whole { IfOk result (λ n. IsWhole n) }
        ensures shape { IfOk result (λ n. shape n ≡ shape self.now) }
        ensures own { IfOk result (λ n. own n ≡ own self.now) }
        ensures spent { CopiesNode (K.WEIGHT + V.WEIGHT) (own self.now) h.old h.new };

    /// Ends the items of the node, and its handles. Takes no memory.
    fn end_node(self, h: &mut Holder<Q>)
        ensures spare { h.old.spare ≤ h.new.spare }
        ensures copied { h.new.copied ≡ h.old.copied };

    /// `put` on a node that no other handle shows. The spare for a copy of the node is spent already.
    fn put_in(
        &mut self,
        alloc: Global,
        hash: u32,
        key: K,
        value: V,
        h: &mut Holder<Q>,
    ) -> Result<Option<V>, (NoMemory, K, V)>
        requires stacked { Stacked }
        requires whole { IsWhole self.old }
        requires hash { hash ≡ K.hash_of (K.plain key) }
        requires agree { AgreeBelow K.hash_of LEVEL hash (pairs (shape self.old)) }
        requires canonical { IsCanonical K.hash_of (shape self.old) LEVEL }
        requires spare { put_need LEVEL (size (shape self.old)) ≤ h.old.spare + unshared (own self.old) }
        ensures whole { IsWhole self.new }
        ensures old { IfOk result (λ o. option_map V.plain o ≡ held (K.plain key) (shape self.old)) }
        ensures new { OnOk result (shape self.new
            ≡ with_pair K.hash_of LEVEL (K.plain key) (V.plain value) (shape self.old)) }
        ensures handed_back { IfErr result (λ e. (e.1 ≡ key) × (e.2 ≡ value)) }
        ensures kept { OnErr result (shape self.new ≡ shape self.old) }
        ensures spent { PutsIn (K.WEIGHT + V.WEIGHT) LEVEL (shape self.old) (own self.old) h.old h.new }
        ensures path { Copies (K.WEIGHT + V.WEIGHT)
            (on_path K.hash_of LEVEL hash (pairs (shape self.old)) - (own self.old).held) h.old h.new };

    /// Two pairs whose keys differ, put into a node of nothing. Refused, both are handed back.
    fn pair_in(
        &mut self,
        alloc: Global,
        hash: u32,
        key: K,
        value: V,
        other_hash: u32,
        other_key: K,
        other_value: V,
        h: &mut Holder<Q>,
    ) -> Result<(), (NoMemory, K, V, K, V)>
        requires stacked { Stacked }
        requires empty { IsEmpty self.old }
        requires one { hash ≡ K.hash_of (K.plain key) }
        requires two { other_hash ≡ K.hash_of (K.plain other_key) }
        requires differ { is_one (K.plain other_key) (K.plain key) ≡ false }
        requires spare { 13 ≤ h.old.spare + LEVEL }
        ensures whole { OnOk result (IsWhole self.new) }
        ensures shape { OnOk result (shape self.new ≡ canon K.hash_of
            (both K.plain V.plain (hash, key, value) (other_hash, other_key, other_value)) LEVEL) }
        ensures handed_back { IfErr result
            (λ e. (e.1 ≡ key) × (e.2 ≡ value) × (e.3 ≡ other_key) × (e.4 ≡ other_value)) }
        ensures spare { h.old.spare ≤ h.new.spare + (13 - LEVEL) }
        ensures copied { h.new.copied ≡ h.old.copied };

    /// A node of these pairs, which are taken out. Refused, they are ended.
    fn build_node(
        alloc: Global,
        pairs: &mut Vec<(u32, K, V)>,
        h: &mut Holder<Q>,
    ) -> Result<Self, NoMemory>
        requires stacked { Stacked }
        requires hashes { All (λ p. p.0 ≡ K.hash_of (K.plain p.1)) pairs.old.items }
        requires distinct { IsDistinct (map (hashed K.plain V.plain) pairs.old.items) }
        requires spare { build_need LEVEL (length pairs.old.items) ≤ h.old.spare }
        ensures whole { IfOk result (λ n. IsWhole n) }
        ensures shape { IfOk result
            (λ n. shape n ≡ canon K.hash_of (map (hashed K.plain V.plain) pairs.old.items) LEVEL) }
        ensures taken { pairs.new.items ≡ [] }
        ensures spare { h.old.spare ≤ h.new.spare + build_need LEVEL (length pairs.old.items) }
        ensures copied { h.new.copied ≡ h.old.copied };

    /// Where the levels are stacked, there are at most seven above a collision node.
    ghost at_most: { Stacked → LEVEL ≤ 7 };

    /// A child of a canonical node has two pairs at least.
    ghost few: { (n : Self) → Stacked → IsWhole n → IsCanonical K.hash_of (shape n) LEVEL → (own n).held + 2 * (own n).linked ≤ size (shape n) };

    /// A node has at most 32 entries, or only pairs of one hash.
    ghost near: { (n : Self) (hash : ℕ) → Stacked → IsWhole n → AgreeBelow K.hash_of LEVEL hash (pairs (shape n)) → hash < 2 ^ 32 → (own n).held ≤ on_path K.hash_of LEVEL hash (pairs (shape n)) };

    /// After Ok no other handle shows the node. One atomic load where that was so before; else the node is copied,
    /// and the handle ends.
    final fn make_sole(
        node: &mut Counted<Self, Q>,
        alloc: Global,
        h: &mut Holder<Q>,
    ) -> Result<(), NoMemory>
        requires whole { IsWhole node.old.value }
        requires spare { unshared (own node.old.value) ≤ h.old.spare }
        ensures whole { IsWhole node.new.value }
        ensures shape { shape node.new.value ≡ shape node.old.value }
        ensures own { own node.new.value ≡ own node.old.value }
        ensures alone { OnOk result (node.new.alone ≡ true) }
        ensures stays { node.old.alone ≡ true → node.new.alone ≡ true }
        ensures spent { Unshares (K.WEIGHT + V.WEIGHT) (own node.old.value) h.old h.new }
    {
        match node.sole(h) {
            Some(_) => Ok(()),
            None => Self::unshare(node, alloc, h),
        }
    }

    /// The handle gets a node of its own that shows the same.
    final fn unshare(
        node: &mut Counted<Self, Q>,
        alloc: Global,
        h: &mut Holder<Q>,
    ) -> Result<(), NoMemory>
        requires whole { IsWhole node.old.value }
        requires spare { unshared (own node.old.value) ≤ h.old.spare }
        ensures whole { IsWhole node.new.value }
        ensures shape { shape node.new.value ≡ shape node.old.value }
        ensures own { own node.new.value ≡ own node.old.value }
        ensures alone { OnOk result (node.new.alone ≡ true) }
        ensures stays { node.old.alone ≡ true → node.new.alone ≡ true }
        ensures spent { Unshares (K.WEIGHT + V.WEIGHT) (own node.old.value) h.old h.new }
    {
        let copy = node.get().copy_node(alloc, h)?;
        match Counted::new(alloc, copy, h) {
            Ok(fresh) => {
                let old = replace(node, fresh);
                Self::end(old, h);
                Ok(())
            }
            Err((_, copy)) => {
                copy.end_node(h);
                Err(NoMemory)
            }
        }
    }

    /// Ends the handle, whose unit comes back, and where it was the last one, the node's items and, likewise, its
    /// children. Takes no memory.
    final fn end(node: Counted<Self, Q>, h: &mut Holder<Q>)
        ensures spare { h.old.spare + 1 ≤ h.new.spare }
        ensures copied { h.new.copied ≡ h.old.copied }
    {
        if let Some(n) = node.end(h) {
            n.end_node(h);
        }
    }

    /// The key has the value; answers the value that it had, None exactly where it had none. Of a key that was there
    /// the old one stays, and the new one is ended.
    ///
    /// A node on the path whose handle is the only one is changed in place. Of any other the handle gets a node of
    /// its own, whose children are shared and whose items are copied. All memory of the new path is taken before
    /// anything that is shown changes; refused, the shape is as it was, and key and value are handed back. After Ok the
    /// handle is alone, and one that was alone stays so.
    final fn put(
        node: &mut Counted<Self, Q>,
        alloc: Global,
        hash: u32,
        key: K,
        value: V,
        h: &mut Holder<Q>,
    ) -> Result<Option<V>, (NoMemory, K, V)>
        requires stacked { Stacked }
        requires whole { IsWhole node.old.value }
        requires hash { hash ≡ K.hash_of (K.plain key) }
        requires agree { AgreeBelow K.hash_of LEVEL hash (pairs (shape node.old.value)) }
        requires canonical { IsCanonical K.hash_of (shape node.old.value) LEVEL }
        requires spare { put_need LEVEL (size (shape node.old.value)) ≤ h.old.spare }
        ensures whole { IsWhole node.new.value }
        ensures canonical { IsCanonical K.hash_of (shape node.new.value) LEVEL }
        ensures old { IfOk result (λ o. option_map V.plain o ≡ held (K.plain key) (shape node.old.value)) }
        ensures new { OnOk result (shape node.new.value
            ≡ with_pair K.hash_of LEVEL (K.plain key) (V.plain value) (shape node.old.value)) }
        ensures handed_back { IfErr result (λ e. (e.1 ≡ key) × (e.2 ≡ value)) }
        ensures kept { OnErr result (shape node.new.value ≡ shape node.old.value) }
        ensures alone { OnOk result (node.new.alone ≡ true) }
        ensures stays { node.old.alone ≡ true → node.new.alone ≡ true }
        ensures spent { Puts (K.WEIGHT + V.WEIGHT) LEVEL (shape node.old.value) h.old h.new }
        ensures path { Copies (K.WEIGHT + V.WEIGHT)
            (on_path K.hash_of LEVEL hash (pairs (shape node.old.value))) h.old h.new }
    {
        if Self::make_sole(node, alloc, h).is_err() {
            return Err((NoMemory, key, value));
        }
        node.only().put_in(alloc, hash, key, value, h)
    }

    /// Two pairs whose keys differ, in a node of their own. The pairs are moved in, so nothing is copied. Refused,
    /// both are handed back.
    final fn pair(
        alloc: Global,
        one: (u32, K, V),
        two: (u32, K, V),
        h: &mut Holder<Q>,
    ) -> Result<Counted<Self, Q>, (NoMemory, (u32, K, V), (u32, K, V))>
        requires stacked { Stacked }
        requires one { one.0 ≡ K.hash_of (K.plain one.1) }
        requires two { two.0 ≡ K.hash_of (K.plain two.1) }
        requires differ { is_one (K.plain two.1) (K.plain one.1) ≡ false }
        requires spare { 14 - LEVEL ≤ h.old.spare }
        ensures whole { IfOk result (λ c. IsWhole c.value) }
        ensures shape { IfOk result
            (λ c. shape c.value ≡ canon K.hash_of (both K.plain V.plain one two) LEVEL) }
        ensures handed_back { IfErr result (λ e. (e.1 ≡ one) × (e.2 ≡ two)) }
        ensures spare { h.old.spare ≤ h.new.spare + (14 - LEVEL) }
        ensures copied { h.new.copied ≡ h.old.copied }
    {
        let Ok(node) = Self::empty(alloc) else {
            return Err((NoMemory, one, two));
        };
        let mut made = match Counted::new(alloc, node, h) {
            Ok(made) => made,
            Err((_, node)) => {
                node.end_node(h);
                return Err((NoMemory, one, two));
            }
        };
        let (hash, key, value) = one;
        let (other_hash, other_key, other_value) = two;
        let node = made.only();
        match node.pair_in(
            alloc,
            hash,
            key,
            value,
            other_hash,
            other_key,
            other_value,
            h,
        ) {
            Ok(()) => Ok(made),
            Err((_, key, value, other_key, other_value)) => {
                Self::end(made, h);
                Err((
                    NoMemory,
                    (hash, key, value),
                    (other_hash, other_key, other_value),
                ))
            }
        }
    }

    /// A node of these pairs, whose keys differ, in a handle that is alone. The pairs are moved in, so nothing is
    /// copied: each once a level that it passes. Refused, they are ended.
    final fn build(
        alloc: Global,
        pairs: Vec<(u32, K, V)>,
        h: &mut Holder<Q>,
    ) -> Result<Counted<Self, Q>, NoMemory>
        requires stacked { Stacked }
        requires hashes { All (λ p. p.0 ≡ K.hash_of (K.plain p.1)) pairs.items }
        requires distinct { IsDistinct (map (hashed K.plain V.plain) pairs.items) }
        requires spare { build_need LEVEL (length pairs.items) + 1 ≤ h.old.spare }
        ensures alone { IfOk result (λ c. c.alone ≡ true) }
        ensures whole { IfOk result (λ c. IsWhole c.value) }
        ensures shape { IfOk result
            (λ c. shape c.value ≡ canon K.hash_of (map (hashed K.plain V.plain) pairs.items) LEVEL) }
        ensures spare { h.old.spare ≤ h.new.spare + (build_need LEVEL (length pairs.items) + 1) }
        ensures copied { h.new.copied ≡ h.old.copied }
    {
        let mut pairs = pairs;
        let node = Self::build_node(alloc, &mut pairs, h)?;
        match Counted::new(alloc, node, h) {
            Ok(made) => Ok(made),
            Err((_, node)) => {
                node.end_node(h);
                Err(NoMemory)
            }
        }
    }
}
