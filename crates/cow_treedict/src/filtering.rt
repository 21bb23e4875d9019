// The pairs of a dictionary whose keys pass a test.
ghost use Rattle.std.specs.Prelude.{◌≡◌, ◌+◌, ◌*◌, ◌≤◌, ◌<◌, ◌++◌, ◌∷◌, [], length, map, Bool, IfOk, OnOk, OnErr, All, vec_len, vec_capacity, true};
ghost use Rattle.std.specs.List.{list_all};
ghost use Rattle.cow_champ.specs.Node.{hashed, seen_pair, SeenSettled};
ghost use Rattle.cow_champ.specs.Spending.{Spends};
ghost use Rattle.cow_dict.specs.Dictionaries.{AnswersBy, kept_by};
ghost use Rattle.cow_dict.specs.Storages.{keys, pair_of};
ghost use Rattle.cow_members.specs.Sets.{ChangesTo, Untouched};
ghost use Rattle.cow_model.specs.Canon.{count_where};
ghost use Rattle.cow_model.specs.Flat.{Becomes, need};
ghost use Rattle.cow_model.specs.declared.plain.Literal.{Literal};
ghost use Rattle.cow_model.specs.declared.value.Pair.{Pair};
ghost use Rattle.cow_treedict.specs.Trees.{IsHashed};

use crate::dictionary::TreeDictionary;
use crate::merging::push_copy;
use cow_cell::{Holder, Stock};
use cow_champ::Level;
use cow_item::{Item, Key};
use cow_model::NoMemory;
use std::mem::replace;

impl<K: Key<Q>, V: Item<Q>, Q: Stock, C: Level<K, V, Q>> TreeDictionary<K, V, Q, C> {
    /// The pairs to whose key `keep` answers true: Swift's `filter(_:)`. It answers by the plain key alone, and is asked
    /// once or twice of a key. Where all pairs stay, nothing changes. Else takes memory for the nodes of a new trie, of
    /// copies of the pairs that stay, and puts it in place at the end; linear in the number of pairs.
    pub fn filter_keys<F: Fn(&K) -> bool>(
        &mut self,
        keep: F,
        h: &mut Holder<Q>,
    ) -> Result<(), NoMemory>
        requires callable { F.IsAlwaysCallable keep }
        requires spare { need (length self.old.value) ≤ h.old.spare }
        ensures ok { (p : Literal → Bool) → AnswersBy (λ k. K.plain k.now) (F.post keep) p
            → OnOk result (ChangesTo (kept_by p self.old.value) self.old self.new) }
        ensures there { (p : Literal → Bool) → AnswersBy (λ k. K.plain k.now) (F.post keep) p
            → list_all p (keys self.old.value) ≡ true
            → Untouched result self.old self.new h.old h.new }
        ensures refused { OnErr result (self.new ≡ self.old) }
        ensures spent { Spends (need (length self.old.value))
            ((K.WEIGHT + V.WEIGHT) * length self.old.value) h.old h.new }
    {
        if self.all_stay(&keep) {
            return Ok(());
        }
        let kept = self.kept(&keep, h)?;
        let old = replace(self, kept);
        old.end(h);
        Ok(())
    }

    /// Whether `keep` answers true to each key. It ends at the first to which it doesn't.
    fn all_stay<F: Fn(&K) -> bool>(&self, keep: &F) -> bool
        requires callable { F.IsAlwaysCallable keep.now }
        ensures { (p : Literal → Bool) → AnswersBy (λ k. K.plain k.now) (F.post keep.now) p
            → result ≡ list_all p (keys self.now.value) }
    {
        self.root.get().all(&|k, _| keep(k))
    }

    /// A dictionary of copies of the pairs to whose key `keep` answers true.
    fn kept<F: Fn(&K) -> bool>(
        &self,
        keep: &F,
        h: &mut Holder<Q>,
    ) -> Result<TreeDictionary<K, V, Q, C>, NoMemory>
        requires callable { F.IsAlwaysCallable keep.now }
        requires spare { need (length self.now.value) ≤ h.old.spare }
        ensures ok { (p : Literal → Bool) → AnswersBy (λ k. K.plain k.now) (F.post keep.now) p
            → IfOk result (λ d. Becomes (kept_by p self.now.value) d) }
        ensures spent { Spends (need (length self.now.value))
            ((K.WEIGHT + V.WEIGHT) * length self.now.value) h.old h.new }
    {
        let mine = self.references(self.alloc)?;
        let Ok(mut pairs) = Vec::with_capacity(self.alloc, mine.len()) else {
            return Err(NoMemory);
        };
        copy_kept(&mine, keep, &mut pairs, h);
        TreeDictionary::built(self.alloc, pairs, h)
    }
}

/// A copy of a pair stands last in `into`, where `keep` answers true to its key.
fn push_kept<K: Key<Q>, V: Item<Q>, F: Fn(&K) -> bool, Q: Stock>(
    into: &mut Vec<(u32, K, V)>,
    keep: &F,
    k: &K,
    v: &V,
    h: &mut Holder<Q>,
)
    requires callable { F.IsAlwaysCallable keep.now }
    requires key { K.IsSettled k.now }
    requires value { V.IsSettled v.now }
    requires room { vec_len into.old < vec_capacity into.old }
    requires spare { 2 ≤ h.old.spare }
    requires hashes { All (IsHashed K.hash_of K.plain) into.old.items }
    ensures hashes { All (IsHashed K.hash_of K.plain) into.new.items }
    ensures same { (p : Literal → Bool) → AnswersBy (λ k. K.plain k.now) (F.post keep.now) p
        → map (hashed K.plain V.plain) into.new.items ≡ map (hashed K.plain V.plain) into.old.items
        ++ kept_by p (pair_of (K.plain k.now) (V.plain v.now) ∷ []) }
    ensures fewer { (t : Pair → Bool) → count_where t (map (hashed K.plain V.plain) into.new.items)
        ≤ count_where t (map (hashed K.plain V.plain) into.old.items)
        + count_where t (pair_of (K.plain k.now) (V.plain v.now) ∷ []) }
    ensures most { vec_len into.new ≤ vec_len into.old + 1 }
    ensures room { vec_capacity into.old ≤ vec_capacity into.new }
    ensures spent { Spends 2 (K.WEIGHT + V.WEIGHT) h.old h.new }
{
    if keep(k) {
        push_copy(into, k, v, h);
    }
}

/// Copies of those pairs to whose key `keep` answers true stand last in `into`, in their order.
fn copy_kept<K: Key<Q>, V: Item<Q>, F: Fn(&K) -> bool, Q: Stock>(
    pairs: &Vec<(&K, &V)>,
    keep: &F,
    into: &mut Vec<(u32, K, V)>,
    h: &mut Holder<Q>,
)
    requires callable { F.IsAlwaysCallable keep.now }
    requires settled { All (SeenSettled K.IsSettled V.IsSettled) pairs.now.items }
    requires room { vec_len into.old + length pairs.now.items ≤ vec_capacity into.old }
    requires spare { 2 * length pairs.now.items ≤ h.old.spare }
    requires hashes { All (IsHashed K.hash_of K.plain) into.old.items }
    ensures hashes { All (IsHashed K.hash_of K.plain) into.new.items }
    ensures same { (p : Literal → Bool) → AnswersBy (λ k. K.plain k.now) (F.post keep.now) p
        → map (hashed K.plain V.plain) into.new.items ≡ map (hashed K.plain V.plain) into.old.items
        ++ kept_by p (map (seen_pair K.plain V.plain) pairs.now.items) }
    ensures fewer { (t : Pair → Bool) → count_where t (map (hashed K.plain V.plain) into.new.items)
        ≤ count_where t (map (hashed K.plain V.plain) into.old.items)
        + count_where t (map (seen_pair K.plain V.plain) pairs.now.items) }
    ensures most { vec_len into.new ≤ vec_len into.old + length pairs.now.items }
    ensures spent { Spends (2 * length pairs.now.items)
        ((K.WEIGHT + V.WEIGHT) * length pairs.now.items) h.old h.new }
{
    for t in pairs {
        push_kept(into, keep, t.0, t.1, h);
    }
}
