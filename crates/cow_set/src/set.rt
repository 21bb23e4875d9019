ghost use Rattle.std.specs.Prelude.{◌≡◌, ℕ, ◌+◌, ◌-◌, ◌*◌, ◌<◌, ◌≤◌, ◌^◌, [], ◌∷◌, ◌++◌, length, map, count_by, filter, not, IfOk, IfErr, OnOk, OnErr, IsOk, All, option_map, IfSome, IfNone, IsTrue, ◌↔◌, true, false};
ghost use Rattle.std.specs.List.{list_all};
ghost use Rattle.cow_members.specs.Ascents.{Ascends};
ghost use Rattle.cow_model.specs.Flat.{Becomes, Stays, HasRoom, need, settled};
ghost use Rattle.cow_model.specs.Lists.{Pays};
ghost use Rattle.cow_model.specs.Members.{ascending, member, in_order, with_member, union, inter, minus, symdiff, subset, disjoint};
ghost use Rattle.cow_model.specs.Purse.{Moves, less, more, unit_if};
ghost use Rattle.cow_row.specs.Changes.{InPlace, HandsBack, Doubles, Returns, PaysWith};
ghost use Rattle.cow_members.specs.Sets.{CanPay, found, without, comes, goes, kept_by, lacking, ChangesTo, Untouched};

use cow_cell::{Counted, Holder, Stock};
use cow_item::{Equivalent, Item, Key};
use cow_members::{Members, algebra, members, storage};
use cow_model::NoMemory;
use std::alloc::Global;
use std::marker::Model;

/// A set of keys over counted storage, after Swift's `Set`. A copy shares the storage until one of the two is changed.
///
/// A call on one key takes as many steps as its table does: few, where hashes differ in their low bits. A change of a
/// storage that others hold copies the keys first, in linear time; what is said below of costs holds where the storage
/// is unshared. Only `new` and the calls that answer `NoMemory` take memory.
#[derive(Drop)]
pub struct Set<K: Key<Q>, Q: Stock> {
    pub(crate) cell: Counted<Members<K>, Q>,
    pub(crate) alloc: Global,
}

impl<K: Key<Q>, Q: Stock> Model for Set<K, Q> {
    ghost use Rattle.std.specs.Prelude.{◌-◌, ◌<◌, ◌^◌, List, length};
    ghost use Rattle.cow_members.specs.Members.{AreSound, set_of};
    ghost use Rattle.cow_model.specs.Flat.{Flat};
    ghost use Rattle.cow_model.specs.declared.plain.Literal.{Literal};

    ghost Value = { Flat (List Literal) };

    ghost view = { λ s. record { value = set_of K.plain s.cell.value; alone = s.cell.alone; room = s.cell.value.keys.capacity - length s.cell.value.keys.items } };

    ghost invariant = { λ s. AreSound K.plain K.hash_of K.IsSettled s.cell.value × (length s.cell.value.keys.items < 2 ^ 31) };
}

impl<K: Key<Q>, Q: Stock> Set<K, Q> {
    /// An empty set: Swift's `init()`. Takes memory for the storage and for 8 buckets. Answers `NoMemory` only for
    /// want of it.
    pub fn new(alloc: Global, h: &mut Holder<Q>) -> Result<Set<K, Q>, NoMemory>
        requires { 1 ≤ h.old.spare }
        ensures ok { IfOk result (λ s. Becomes [] s) }
        ensures spent { OnOk result (h.new ≡ less 1 h.old) }
        ensures refused { OnErr result (h.new ≡ h.old) }
    {
        let cell = storage::empty(alloc, h)?;
        Ok(Set { cell, alloc })
    }

    /// How many members there are: Swift's `count`. One step.
    #[tactic(auto, using(cow_members::proofs::Sets::set_steps))]
    pub fn count(&self) -> usize
        ensures value { result ≡ length self.now.value }
        ensures small { result < 2 ^ 31 }
    {
        self.cell.get().len()
    }

    /// Whether there is no member: Swift's `isEmpty`. One step.
    #[tactic(auto, using(cow_members::proofs::Sets::set_steps))]
    pub fn is_empty(&self) -> bool
        ensures { IsTrue result ↔ (self.now.value ≡ []) }
    {
        self.cell.get().is_empty()
    }

    /// The members for reading, each once, in no promised order. One step.
    pub fn as_slice(&self) -> &[K]
        ensures value { ascending (map K.plain result.now) ≡ self.now.value }
        ensures distinct { Ascends self.now.value }
        ensures settled { All K.IsSettled result.now }
    {
        self.cell.get().as_slice()
    }

    /// A second whole value, in one step: both show the members, and neither is alone.
    pub fn copy(&mut self, h: &mut Holder<Q>) -> Set<K, Q>
        requires { 1 ≤ h.old.spare }
        ensures same { self.new ≡ settled self.old }
        ensures copy { result ≡ settled self.old }
        ensures spent { h.new ≡ less 1 h.old }
    {
        Set {
            cell: self.cell.share(h),
            alloc: self.alloc,
        }
    }

    /// The same of a set that isn't alone. Any number of threads may call it on one set.
    pub fn copy_settled(&self, h: &mut Holder<Q>) -> Set<K, Q>
        requires settled { self.now.alone ≡ false }
        requires spare { 1 ≤ h.old.spare }
        ensures copy { result ≡ self.now }
        ensures spent { h.new ≡ less 1 h.old }
    {
        Set {
            cell: self.cell.share_settled(h),
            alloc: self.alloc,
        }
    }

    /// Not known to be alone any more. Nothing at run time.
    pub fn settle(&mut self)
        ensures { self.new ≡ settled self.old }
    {
        self.cell.settle();
    }

    /// The handle is given back; the last one of a storage ends its members, in one pass.
    #[tactic(auto, using(cow_members::proofs::Sets::set_steps))]
    pub fn end(self, h: &mut Holder<Q>)
        ensures moved { Moves (count_by K.is_counted self.value) 0 (more 1 h.old) h.new }
        ensures exact { Returns K.is_counted self (more 1 h.old) h.new }
        ensures never_less { h.old.spare + 1 ≤ h.new.spare }
    {
        let Set { cell, alloc: _ } = self;
        storage::end_cell(cell, h);
    }

    /// Whether `k`, or the key that it stands for, is a member: Swift's `contains`.
    #[tactic(auto, using(cow_members::proofs::Sets::set_steps))]
    pub fn contains<E: Equivalent<K, Q>>(&self, k: &E) -> bool
        ensures { result ≡ member (E.sought k.now) self.now.value }
    {
        members::contains(self.cell.get(), k)
    }

    /// The member that is the same as `k`, or as the key that it stands for; `None` exactly where there is none. It is
    /// `get` of Rust's `HashSet`.
    #[tactic(auto, using(cow_members::proofs::Sets::set_steps))]
    pub fn find<E: Equivalent<K, Q>>(&self, k: &E) -> Option<&K>
        ensures value { option_map (λ x. K.plain x.now) result
            ≡ found (E.sought k.now) self.now.value }
        ensures distinct { Ascends self.now.value }
    {
        let members = self.cell.get();
        match members::place_of(members, k.sought_hash(), k) {
            Some(i) => Some(members.get(i)),
            None => None,
        }
    }

    /// `k` is a member: Swift's `insert`. `true` where it wasn't one before. Else nothing changes, and `k` is ended.
    #[tactic(auto, using(cow_members::proofs::Sets::set_steps))]
    pub fn insert(&mut self, k: K, h: &mut Holder<Q>) -> Result<bool, (NoMemory, K)>
        requires growth { length self.old.value + 1 < 2 ^ 31 }
        requires spare { need (length self.old.value) ≤ h.old.spare }
        ensures new { IfOk result (λ b. b ≡ not (member (K.plain k) self.old.value)) }
        ensures ok { OnOk result
            (ChangesTo (with_member in_order self.old.value (K.plain k)) self.old self.new) }
        ensures there { member (K.plain k) self.old.value ≡ true → IsOk result
            × (self.new ≡ self.old) × (h.new ≡ more (unit_if (K.is_counted (K.plain k))) h.old) }
        ensures within { InPlace (comes (K.plain k) self.old.value) 0 result self.old self.new }
        ensures doubled { Doubles (comes (K.plain k) self.old.value) result self.old self.new }
        ensures refused { IfErr result (HandsBack k self.old self.new h.old h.new) }
        ensures paid { Pays K.is_counted K.WEIGHT self.old h.old h.new }
        ensures free { self.old.alone ≡ true → member (K.plain k) self.old.value ≡ false
            → h.new ≡ h.old }
    {
        let hash = k.hash();
        match members::place_of(self.cell.get(), hash, &k) {
            Some(_) => {
                k.end(h);
                Ok(false)
            }
            None => {
                self.put_new(hash, k, h)?;
                Ok(true)
            }
        }
    }

    // `k`, which has this hash and isn't a member, is one.
    #[tactic(auto, using(cow_members::proofs::Sets::set_steps))]
    fn put_new(&mut self, hash: u32, k: K, h: &mut Holder<Q>) -> Result<(), (NoMemory, K)>
        requires hash { hash ≡ K.hash_of (K.plain k) }
        requires absent { member (K.plain k) self.old.value ≡ false }
        requires growth { length self.old.value + 1 < 2 ^ 31 }
        requires spare { need (length self.old.value) ≤ h.old.spare }
        ensures ok { OnOk result (Becomes (in_order (K.plain k) self.old.value) self.new) }
        ensures within { InPlace 1 0 result self.old self.new }
        ensures doubled { Doubles 1 result self.old self.new }
        ensures refused { IfErr result (HandsBack k self.old self.new h.old h.new) }
        ensures paid { Pays K.is_counted K.WEIGHT self.old h.old h.new }
        ensures free { self.old.alone ≡ true → h.new ≡ h.old }
    {
        if let Err(refused) = storage::prepare(&mut self.cell, self.alloc, 1, h) {
            return Err((refused, k));
        }
        members::push(self.cell.only(), hash, k);
        Ok(())
    }

    /// `k` is a member, in the place of one that is the same, which is handed out: Swift's `update(with:)`. `None`
    /// exactly where there was none.
    #[tactic(auto, using(cow_members::proofs::Sets::set_steps))]
    pub fn update(&mut self, k: K, h: &mut Holder<Q>) -> Result<Option<K>, (NoMemory, K)>
        requires growth { length self.old.value + 1 < 2 ^ 31 }
        requires spare { need (length self.old.value) ≤ h.old.spare }
        ensures ok { OnOk result (Becomes (with_member in_order self.old.value (K.plain k)) self.new) }
        ensures old { IfOk result (λ o. option_map K.plain o ≡ found (K.plain k) self.old.value) }
        ensures within { InPlace (comes (K.plain k) self.old.value) 0 result self.old self.new }
        ensures doubled { Doubles (comes (K.plain k) self.old.value) result self.old self.new }
        ensures refused { IfErr result (HandsBack k self.old self.new h.old h.new) }
        ensures paid { Pays K.is_counted K.WEIGHT self.old h.old h.new }
        ensures free { self.old.alone ≡ true → h.new ≡ h.old }
    {
        let hash = k.hash();
        match members::place_of(self.cell.get(), hash, &k) {
            Some(i) => {
                if let Err(refused) = storage::prepare(&mut self.cell, self.alloc, 0, h) {
                    return Err((refused, k));
                }
                Ok(Some(members::replace(self.cell.only(), i, k)))
            }
            None => {
                self.put_new(hash, k, h)?;
                Ok(None)
            }
        }
    }

    /// The member that is the same as `k`, taken out: Swift's `remove`. `None` exactly where there was none, and then
    /// nothing changes.
    #[tactic(auto, using(cow_members::proofs::Sets::set_steps))]
    pub fn remove<E: Equivalent<K, Q>>(
        &mut self,
        k: &E,
        h: &mut Holder<Q>,
    ) -> Result<Option<K>, NoMemory>
        requires spare { need (length self.old.value) ≤ h.old.spare }
        ensures ok { OnOk result (ChangesTo (without (E.sought k.now) self.old.value) self.old self.new) }
        ensures old { IfOk result (λ o. option_map K.plain o ≡ found (E.sought k.now) self.old.value) }
        ensures absent { member (E.sought k.now) self.old.value ≡ false
            → IsOk result × (self.new ≡ self.old) × (h.new ≡ h.old) }
        ensures within { InPlace 0 (goes (E.sought k.now) self.old.value) result self.old self.new }
        ensures refused { OnErr result (Stays self.old self.new × (h.new ≡ h.old)) }
        ensures paid { Pays K.is_counted K.WEIGHT self.old h.old h.new }
        ensures free { self.old.alone ≡ true → h.new ≡ h.old }
    {
        match members::place_of(self.cell.get(), k.sought_hash(), k) {
            None => Ok(None),
            Some(i) => {
                storage::prepare(&mut self.cell, self.alloc, 0, h)?;
                Ok(Some(members::take(self.cell.only(), i)))
            }
        }
    }

    /// The members of either: Swift's `formUnion`. One or two look-ups a member of `other`.
    #[tactic(auto, using(cow_members::proofs::Sets::set_steps))]
    pub fn union(&mut self, other: &Set<K, Q>, h: &mut Holder<Q>) -> Result<(), NoMemory>
        requires growth { length self.old.value + length other.now.value < 2 ^ 31 }
        requires spare { CanPay self.old.value other.now.value h.old }
        ensures ok { OnOk result
            (ChangesTo (union in_order self.old.value other.now.value) self.old self.new) }
        ensures there { subset other.now.value self.old.value ≡ true
            → Untouched result self.old self.new h.old h.new }
        ensures within { HasRoom (lacking self.old.value other.now.value) self.old → IsOk result }
        ensures refused { OnErr result (Stays self.old self.new × (h.new ≡ h.old)) }
        ensures paid { PaysWith K.is_counted K.WEIGHT self.old other.now.value h.old h.new }
    {
        let others = other.cell.get();
        let extra = algebra::missing(self.cell.get(), others);
        if extra == 0 {
            return Ok(());
        }
        storage::prepare(&mut self.cell, self.alloc, extra, h)?;
        algebra::add_missing(self.cell.only(), others, h);
        Ok(())
    }

    /// The members of both: Swift's `formIntersection`. One or two look-ups a member.
    #[tactic(auto, using(cow_members::proofs::Sets::set_steps))]
    pub fn intersection(&mut self, other: &Set<K, Q>, h: &mut Holder<Q>) -> Result<(), NoMemory>
        requires spare { CanPay self.old.value other.now.value h.old }
        ensures ok { OnOk result (ChangesTo (inter self.old.value other.now.value) self.old self.new) }
        ensures there { subset self.old.value other.now.value ≡ true
            → Untouched result self.old self.new h.old h.new }
        ensures within { self.old.alone ≡ true → IsOk result }
        ensures refused { OnErr result (Stays self.old self.new × (h.new ≡ h.old)) }
        ensures paid { Pays K.is_counted K.WEIGHT self.old h.old h.new }
    {
        self.retain(other, true, h)
    }

    /// The members that `other` hasn't: Swift's `subtract`. One or two look-ups a member.
    #[tactic(auto, using(cow_members::proofs::Sets::set_steps))]
    pub fn subtracting(&mut self, other: &Set<K, Q>, h: &mut Holder<Q>) -> Result<(), NoMemory>
        requires spare { CanPay self.old.value other.now.value h.old }
        ensures ok { OnOk result (ChangesTo (minus self.old.value other.now.value) self.old self.new) }
        ensures absent { disjoint self.old.value other.now.value ≡ true
            → Untouched result self.old self.new h.old h.new }
        ensures within { self.old.alone ≡ true → IsOk result }
        ensures refused { OnErr result (Stays self.old self.new × (h.new ≡ h.old)) }
        ensures paid { Pays K.is_counted K.WEIGHT self.old h.old h.new }
    {
        self.retain(other, false, h)
    }

    // The members that `other` has, where `keep` is true; those that it hasn't, where it is false.
    #[tactic(auto, using(cow_members::proofs::Sets::set_steps))]
    fn retain(&mut self, other: &Set<K, Q>, keep: bool, h: &mut Holder<Q>) -> Result<(), NoMemory>
        requires spare { CanPay self.old.value other.now.value h.old }
        ensures ok { OnOk result
            (ChangesTo (filter (kept_by keep other.now.value) self.old.value) self.old self.new) }
        ensures there { list_all (kept_by keep other.now.value) self.old.value ≡ true
            → Untouched result self.old self.new h.old h.new }
        ensures within { self.old.alone ≡ true → IsOk result }
        ensures refused { OnErr result (Stays self.old self.new × (h.new ≡ h.old)) }
        ensures paid { Pays K.is_counted K.WEIGHT self.old h.old h.new }
    {
        let others = other.cell.get();
        if algebra::all_stay(self.cell.get(), others, keep) {
            return Ok(());
        }
        storage::prepare(&mut self.cell, self.alloc, 0, h)?;
        algebra::retain(self.cell.only(), others, keep, h);
        Ok(())
    }

    /// The members of one alone: Swift's `formSymmetricDifference`. Two look-ups a member of `other`.
    #[tactic(auto, using(cow_members::proofs::Sets::set_steps))]
    pub fn symmetric_difference(
        &mut self,
        other: &Set<K, Q>,
        h: &mut Holder<Q>,
    ) -> Result<(), NoMemory>
        requires growth { length self.old.value + length other.now.value < 2 ^ 31 }
        requires spare { CanPay self.old.value other.now.value h.old }
        ensures ok { OnOk result
            (ChangesTo (symdiff in_order self.old.value other.now.value) self.old self.new) }
        ensures absent { other.now.value ≡ [] → Untouched result self.old self.new h.old h.new }
        ensures within { HasRoom (lacking self.old.value other.now.value) self.old → IsOk result }
        ensures refused { OnErr result (Stays self.old self.new × (h.new ≡ h.old)) }
        ensures paid { PaysWith K.is_counted K.WEIGHT self.old other.now.value h.old h.new }
    {
        let members = self.cell.get();
        let others = other.cell.get();
        if others.is_empty() {
            return Ok(());
        }
        let extra = algebra::missing(members, others);
        storage::prepare(&mut self.cell, self.alloc, extra, h)?;
        algebra::toggle_all(self.cell.only(), others, h);
        Ok(())
    }

    /// How many members of `other` aren't members: by so many `union` grows it. One look-up a member of `other`.
    #[tactic(auto, using(cow_members::proofs::Sets::set_steps))]
    pub fn lacking(&self, other: &Set<K, Q>) -> usize
        ensures value { result ≡ lacking self.now.value other.now.value }
        ensures distinct { Ascends self.now.value × Ascends other.now.value }
    {
        algebra::missing(self.cell.get(), other.cell.get())
    }

    /// Whether each member is one of `other`: Swift's `isSubset(of:)`. At most one look-up a member, and none where
    /// `other` has fewer.
    #[tactic(auto, using(cow_members::proofs::Sets::set_steps))]
    pub fn is_subset(&self, other: &Set<K, Q>) -> bool
        ensures { result ≡ subset self.now.value other.now.value }
    {
        let members = self.cell.get();
        let others = other.cell.get();
        members.len() <= others.len() && algebra::all_stay(members, others, true)
    }

    /// Whether no member is one of `other`: Swift's `isDisjoint(with:)`. At most one look-up a member of the smaller.
    #[tactic(auto, using(cow_members::proofs::Sets::set_steps))]
    pub fn is_disjoint(&self, other: &Set<K, Q>) -> bool
        ensures { result ≡ disjoint self.now.value other.now.value }
    {
        let members = self.cell.get();
        let others = other.cell.get();
        if members.len() <= others.len() {
            algebra::all_stay(members, others, false)
        } else {
            algebra::all_stay(others, members, false)
        }
    }

    /// Whether the two have the same members: Swift's `==`. At most one look-up a member, and none where their counts
    /// differ.
    #[tactic(auto, using(cow_members::proofs::Sets::set_steps))]
    pub fn equals(&self, other: &Set<K, Q>) -> bool
        ensures { IsTrue result ↔ (self.now.value ≡ other.now.value) }
    {
        let members = self.cell.get();
        let others = other.cell.get();
        members.len() == others.len() && algebra::all_stay(members, others, true)
    }

    /// References to the members in ascending order: Swift's `sorted()`. Takes memory for them, and n log n comparisons.
    pub fn sorted(&self, alloc: Global) -> Result<Vec<&K>, NoMemory>
        ensures { IfOk result (λ v. map (λ k. K.plain k.now) v.items ≡ self.now.value) }
    {
        let mut keys = references(alloc, self.cell.get().as_slice())?;
        keys.sort_unstable_by(|a, b| a.order(b));
        Ok(keys)
    }
}

/// A reference to each item, in order.
fn references<T>(alloc: Global, items: &[T]) -> Result<Vec<&T>, NoMemory>
    ensures { IfOk result (λ v. map (λ x. x.now) v.items ≡ items.now) }
{
    match items.iter().collect(alloc) {
        Ok(references) => Ok(references),
        Err(_) => Err(NoMemory),
    }
}
