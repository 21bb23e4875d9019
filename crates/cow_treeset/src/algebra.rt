// What two sets make: a new trie of copies, put in place at the end.
ghost use Rattle.std.specs.Prelude.{◌≡◌, ◌+◌, ◌*◌, ◌<◌, ◌≤◌, ◌^◌, [], length, filter, IfOk, OnOk, OnErr, true, false};
ghost use Rattle.std.specs.List.{list_all};
ghost use Rattle.cow_champ.specs.Spending.{Spends};
ghost use Rattle.cow_members.specs.Sets.{CanPay, kept_by, ChangesTo, Untouched};
ghost use Rattle.cow_model.specs.Flat.{Becomes, need};
ghost use Rattle.cow_model.specs.Members.{in_order, union, inter, minus, symdiff, subset, disjoint};

use crate::copies::{copy_all, copy_kept};
use crate::set::TreeSet;
use cow_cell::{Holder, Stock};
use cow_champ::Level;
use cow_item::Key;
use cow_model::NoMemory;
use std::mem::replace;

impl<K: Key<Q>, Q: Stock, C: Level<K, (), Q>> TreeSet<K, Q, C> {
    /// The members of either: Swift's `formUnion`. Where those of `other` are members, nothing changes. Else takes memory
    /// for the nodes of a new trie, of copies of all members; linear in their number, and one or two look-ups a member of
    /// `other`.
    pub fn union(&mut self, other: &TreeSet<K, Q, C>, h: &mut Holder<Q>) -> Result<(), NoMemory>
        requires growth { length self.old.value + length other.now.value < 2 ^ 31 }
        requires spare { CanPay self.old.value other.now.value h.old }
        ensures ok { OnOk result
            (ChangesTo (union in_order self.old.value other.now.value) self.old self.new) }
        ensures there { subset other.now.value self.old.value ≡ true
            → Untouched result self.old self.new h.old h.new }
        ensures refused { OnErr result (self.new ≡ self.old) }
        ensures spent { Spends (need (length self.old.value + length other.now.value))
            (K.WEIGHT * (length self.old.value + length other.now.value)) h.old h.new }
    {
        if other.all_stay(self, true) {
            return Ok(());
        }
        let joined = self.joined(other, h)?;
        self.becomes(joined, h);
        Ok(())
    }

    /// The members of both: Swift's `formIntersection`. Where all are members of `other`, nothing changes. Else takes
    /// memory for the nodes of a new trie, of copies of the members that stay; linear in their number, and one or two
    /// look-ups a member.
    pub fn intersection(
        &mut self,
        other: &TreeSet<K, Q, C>,
        h: &mut Holder<Q>,
    ) -> Result<(), NoMemory>
        requires spare { CanPay self.old.value other.now.value h.old }
        ensures ok { OnOk result (ChangesTo (inter self.old.value other.now.value) self.old self.new) }
        ensures there { subset self.old.value other.now.value ≡ true
            → Untouched result self.old self.new h.old h.new }
        ensures refused { OnErr result (self.new ≡ self.old) }
        ensures spent { Spends (need (length self.old.value + length other.now.value))
            (K.WEIGHT * length self.old.value) h.old h.new }
    {
        self.retain(other, true, h)
    }

    /// The members that `other` hasn't: Swift's `subtract`. Where it has none of them, nothing changes. Else it costs what
    /// `intersection` does.
    pub fn subtracting(
        &mut self,
        other: &TreeSet<K, Q, C>,
        h: &mut Holder<Q>,
    ) -> Result<(), NoMemory>
        requires spare { CanPay self.old.value other.now.value h.old }
        ensures ok { OnOk result (ChangesTo (minus self.old.value other.now.value) self.old self.new) }
        ensures absent { disjoint self.old.value other.now.value ≡ true
            → Untouched result self.old self.new h.old h.new }
        ensures refused { OnErr result (self.new ≡ self.old) }
        ensures spent { Spends (need (length self.old.value + length other.now.value))
            (K.WEIGHT * length self.old.value) h.old h.new }
    {
        self.retain(other, false, h)
    }

    /// The members that `other` has, where `keep` is true; those that it hasn't, where it is false.
    fn retain(
        &mut self,
        other: &TreeSet<K, Q, C>,
        keep: bool,
        h: &mut Holder<Q>,
    ) -> Result<(), NoMemory>
        requires spare { CanPay self.old.value other.now.value h.old }
        ensures ok { OnOk result
            (ChangesTo (filter (kept_by keep other.now.value) self.old.value) self.old self.new) }
        ensures there { list_all (kept_by keep other.now.value) self.old.value ≡ true
            → Untouched result self.old self.new h.old h.new }
        ensures refused { OnErr result (self.new ≡ self.old) }
        ensures spent { Spends (need (length self.old.value + length other.now.value))
            (K.WEIGHT * length self.old.value) h.old h.new }
    {
        if self.all_stay(other, keep) {
            return Ok(());
        }
        let kept = self.kept(other, keep, h)?;
        self.becomes(kept, h);
        Ok(())
    }

    /// The members of one alone: Swift's `formSymmetricDifference`. Where `other` is empty, nothing changes. Else takes
    /// memory for the nodes of a new trie, of copies of the members that stay or come; linear in the number of members, and
    /// a look-up for each.
    pub fn symmetric_difference(
        &mut self,
        other: &TreeSet<K, Q, C>,
        h: &mut Holder<Q>,
    ) -> Result<(), NoMemory>
        requires growth { length self.old.value + length other.now.value < 2 ^ 31 }
        requires spare { CanPay self.old.value other.now.value h.old }
        ensures ok { OnOk result
            (ChangesTo (symdiff in_order self.old.value other.now.value) self.old self.new) }
        ensures absent { other.now.value ≡ [] → Untouched result self.old self.new h.old h.new }
        ensures refused { OnErr result (self.new ≡ self.old) }
        ensures spent { Spends (need (length self.old.value + length other.now.value))
            (K.WEIGHT * (length self.old.value + length other.now.value)) h.old h.new }
    {
        if other.is_empty() {
            return Ok(());
        }
        let toggled = self.toggled(other, h)?;
        self.becomes(toggled, h);
        Ok(())
    }

    /// The handle shows what `new` did, and the one that it was ends.
    fn becomes(&mut self, new: TreeSet<K, Q, C>, h: &mut Holder<Q>)
        ensures value { self.new ≡ new }
        ensures spare { h.old.spare ≤ h.new.spare }
        ensures copied { h.new.copied ≡ h.old.copied }
    {
        let old = replace(self, new);
        old.end(h);
    }

    /// A set of copies of the members that `other` has, where `keep` is true; of those that it hasn't, where it is false.
    fn kept(
        &self,
        other: &TreeSet<K, Q, C>,
        keep: bool,
        h: &mut Holder<Q>,
    ) -> Result<TreeSet<K, Q, C>, NoMemory>
        requires spare { need (length self.now.value) ≤ h.old.spare }
        ensures ok { IfOk result
            (λ s. Becomes (filter (kept_by keep other.now.value) self.now.value) s) }
        ensures spent { Spends (need (length self.now.value))
            (K.WEIGHT * length self.now.value) h.old h.new }
    {
        let mine = self.walked()?;
        let Ok(mut keys) = Vec::with_capacity(self.alloc, mine.len()) else {
            return Err(NoMemory);
        };
        copy_kept(&mine, other, keep, &mut keys, h);
        TreeSet::built(self.alloc, keys, h)
    }

    /// A set of copies of the members of either.
    fn joined(
        &self,
        other: &TreeSet<K, Q, C>,
        h: &mut Holder<Q>,
    ) -> Result<TreeSet<K, Q, C>, NoMemory>
        requires growth { length self.now.value + length other.now.value < 2 ^ 31 }
        requires spare { CanPay self.now.value other.now.value h.old }
        ensures ok { IfOk result
            (λ s. Becomes (union in_order self.now.value other.now.value) s) }
        ensures spent { Spends (need (length self.now.value + length other.now.value))
            (K.WEIGHT * (length self.now.value + length other.now.value)) h.old h.new }
    {
        let mine = self.walked()?;
        let theirs = other.walked()?;
        let Ok(mut keys) = Vec::with_capacity(self.alloc, mine.len() + theirs.len()) else {
            return Err(NoMemory);
        };
        copy_all(&mine, &mut keys, h);
        copy_kept(&theirs, self, false, &mut keys, h);
        TreeSet::built(self.alloc, keys, h)
    }

    /// A set of copies of the members of one alone.
    fn toggled(
        &self,
        other: &TreeSet<K, Q, C>,
        h: &mut Holder<Q>,
    ) -> Result<TreeSet<K, Q, C>, NoMemory>
        requires growth { length self.now.value + length other.now.value < 2 ^ 31 }
        requires spare { CanPay self.now.value other.now.value h.old }
        ensures ok { IfOk result
            (λ s. Becomes (symdiff in_order self.now.value other.now.value) s) }
        ensures spent { Spends (need (length self.now.value + length other.now.value))
            (K.WEIGHT * (length self.now.value + length other.now.value)) h.old h.new }
    {
        let mine = self.walked()?;
        let theirs = other.walked()?;
        let Ok(mut keys) = Vec::with_capacity(self.alloc, mine.len() + theirs.len()) else {
            return Err(NoMemory);
        };
        copy_kept(&mine, other, false, &mut keys, h);
        copy_kept(&theirs, self, false, &mut keys, h);
        TreeSet::built(self.alloc, keys, h)
    }
}
