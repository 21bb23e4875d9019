ghost use Rattle.std.specs.Prelude.{◌≡◌, ℕ, ◌+◌, ◌-◌, ◌*◌, ◌<◌, ◌≤◌, ◌^◌, [], ◌∷◌, ◌++◌, length, map, count_by, filter, not, remove, swap, reverse, slice_get, IfOk, IfErr, OnOk, OnErr, IsOk, All, Some, option_map, IfSome, IfNone, IsTrue, ◌↔◌, true, false};
ghost use Rattle.std.specs.List.{list_all};
ghost use Rattle.cow_members.specs.Ascents.{Ascends};
ghost use Rattle.cow_members.specs.Sets.{found, without, comes, goes, kept_by, lacking, ChangesTo, Untouched};
ghost use Rattle.cow_model.specs.Flat.{Becomes, Stays, HasRoom, need, settled};
ghost use Rattle.cow_model.specs.Lists.{Pays};
ghost use Rattle.cow_model.specs.Members.{ascending, member, place_in, last, with_member, union, inter, minus, symdiff, subset, disjoint};
ghost use Rattle.cow_model.specs.Purse.{Moves, less, more, unit_if};
ghost use Rattle.cow_ordered.specs.Ordered.{placed_at};
ghost use Rattle.cow_row.specs.Changes.{InPlace, HandsBack, Doubles, Returns, PaysWith};

use crate::alike::alike;
use cow_cell::{Counted, Holder, Stock};
use cow_item::{Equivalent, Item, Key};
use cow_members::{Members, algebra, members, order, storage};
use cow_model::NoMemory;
use std::alloc::Global;
use std::marker::Model;

/// A set of keys in an order of its user's over counted storage, after Swift's `OrderedSet`. A copy shares the storage
/// until one of the two is changed.
///
/// A look-up takes as many steps as the table does: few, where hashes differ in their low bits. A change of a
/// storage that others hold copies the keys first, in linear time; what is said below of costs holds where the storage
/// is unshared. Only `new` and the calls that answer `NoMemory` take memory.
#[derive(Drop)]
pub struct OrderedSet<K: Key<Q>, Q: Stock> {
    pub(crate) cell: Counted<Members<K>, Q>,
    pub(crate) alloc: Global,
}

impl<K: Key<Q>, Q: Stock> Model for OrderedSet<K, Q> {
    ghost use Rattle.std.specs.Prelude.{◌-◌, ◌<◌, ◌^◌, List, length};
    ghost use Rattle.cow_members.specs.Members.{AreSound, listed};
    ghost use Rattle.cow_model.specs.Flat.{Flat};
    ghost use Rattle.cow_model.specs.declared.plain.Literal.{Literal};

    ghost Value = { Flat (List Literal) };

    ghost view = { λ s. record { value = listed K.plain s.cell.value; alone = s.cell.alone; room = s.cell.value.keys.capacity - length s.cell.value.keys.items } };

    ghost invariant = { λ s. AreSound K.plain K.hash_of K.IsSettled s.cell.value × (length s.cell.value.keys.items < 2 ^ 31) };
}

impl<K: Key<Q>, Q: Stock> OrderedSet<K, Q> {
    /// An empty set: Swift's `init()`. Takes memory for the storage and for 8 buckets. Answers `NoMemory` only for
    /// want of it.
    pub fn new(alloc: Global, h: &mut Holder<Q>) -> Result<OrderedSet<K, Q>, NoMemory>
        requires { 1 ≤ h.old.spare }
        ensures ok { IfOk result (λ s. Becomes [] s) }
        ensures spent { OnOk result (h.new ≡ less 1 h.old) }
        ensures refused { OnErr result (h.new ≡ h.old) }
    {
        let cell = storage::empty(alloc, h)?;
        Ok(OrderedSet { cell, alloc })
    }

    /// How many members there are: Swift's `count`. One step.
    #[tactic(auto, using(cow_members::proofs::Sets::set_steps))]
    pub fn count(&self) -> usize
        ensures value { result ≡ length self.now.value }
        ensures small { result < 2 ^ 31 }
    {
        self.cell.get().len()
    }

    /// Whether there is no member: Swift's `isEmpty`. One step.
    #[tactic(auto, using(cow_members::proofs::Sets::set_steps))]
    pub fn is_empty(&self) -> bool
        ensures { IsTrue result ↔ (self.now.value ≡ []) }
    {
        self.cell.get().is_empty()
    }

    /// The members, in order, for reading: Swift's `elements`. None is there twice. One step.
    pub fn as_slice(&self) -> &[K]
        ensures value { map K.plain result.now ≡ self.now.value }
        ensures distinct { Ascends (ascending self.now.value) }
        ensures settled { All K.IsSettled result.now }
    {
        self.cell.get().as_slice()
    }

    /// The member at position `i`; `None` exactly where there is none. Swift's subscript. One step.
    pub fn at(&self, i: usize) -> Option<&K>
        ensures value { option_map (λ k. K.plain k.now) result ≡ slice_get self.now.value i }
        ensures settled { IfSome result (λ k. K.IsSettled k.now) }
    {
        let members = self.cell.get();
        if i < members.len() {
            Some(members.get(i))
        } else {
            None
        }
    }

    /// The first member; `None` exactly where there is none. Swift's `first`. One step.
    pub fn first(&self) -> Option<&K>
        ensures value { option_map (λ k. K.plain k.now) result ≡ slice_get self.now.value 0 }
        ensures settled { IfSome result (λ k. K.IsSettled k.now) }
    {
        self.at(0)
    }

    /// The last member; `None` exactly where there is none. Swift's `last`. One step.
    #[tactic(auto, using(cow_members::proofs::Sets::set_steps))]
    pub fn last(&self) -> Option<&K>
        ensures value { option_map (λ k. K.plain k.now) result
            ≡ slice_get self.now.value (length self.now.value - 1) }
        ensures settled { IfSome result (λ k. K.IsSettled k.now) }
    {
        let count = self.count();
        if count == 0 {
            return None;
        }
        self.at(count - 1)
    }

    /// A second whole value, in one step: both show the members, and neither is alone.
    pub fn copy(&mut self, h: &mut Holder<Q>) -> OrderedSet<K, Q>
        requires { 1 ≤ h.old.spare }
        ensures same { self.new ≡ settled self.old }
        ensures copy { result ≡ settled self.old }
        ensures spent { h.new ≡ less 1 h.old }
    {
        OrderedSet {
            cell: self.cell.share(h),
            alloc: self.alloc,
        }
    }

    /// The same of a set that isn't alone. Any number of threads may call it on one set.
    pub fn copy_settled(&self, h: &mut Holder<Q>) -> OrderedSet<K, Q>
        requires settled { self.now.alone ≡ false }
        requires spare { 1 ≤ h.old.spare }
        ensures copy { result ≡ self.now }
        ensures spent { h.new ≡ less 1 h.old }
    {
        OrderedSet {
            cell: self.cell.share_settled(h),
            alloc: self.alloc,
        }
    }

    /// Not known to be alone any more. Nothing at run time.
    pub fn settle(&mut self)
        ensures { self.new ≡ settled self.old }
    {
        self.cell.settle();
    }

    /// The handle is given back; the last one of a storage ends its members, in one pass.
    pub fn end(self, h: &mut Holder<Q>)
        ensures moved { Moves (count_by K.is_counted self.value) 0 (more 1 h.old) h.new }
        ensures exact { Returns K.is_counted self (more 1 h.old) h.new }
        ensures never_less { h.old.spare + 1 ≤ h.new.spare }
    {
        let OrderedSet { cell, alloc: _ } = self;
        storage::end_cell(cell, h);
    }

    /// Whether `k`, or the key that it stands for, is a member: Swift's `contains`. One look-up.
    pub fn contains<E: Equivalent<K, Q>>(&self, k: &E) -> bool
        ensures { result ≡ member (E.sought k.now) self.now.value }
    {
        members::contains(self.cell.get(), k)
    }

    /// The position of the member that is the same as `k`; `None` exactly where there is none. Swift's
    /// `firstIndex(of:)`. One look-up.
    pub fn index_of<E: Equivalent<K, Q>>(&self, k: &E) -> Option<usize>
        ensures { result ≡ place_in (E.sought k.now) self.now.value }
    {
        members::place_of(self.cell.get(), k.sought_hash(), k)
    }

    /// `k` stands last: Swift's `append`. `true` where it wasn't a member before. Else nothing changes, and `k` is ended.
    /// One look-up.
    #[tactic(auto, using(cow_members::proofs::Sets::set_steps))]
    pub fn append(&mut self, k: K, h: &mut Holder<Q>) -> Result<bool, (NoMemory, K)>
        requires growth { length self.old.value + 1 < 2 ^ 31 }
        requires spare { need (length self.old.value) ≤ h.old.spare }
        ensures new { IfOk result (λ b. b ≡ not (member (K.plain k) self.old.value)) }
        ensures ok { OnOk result
            (ChangesTo (with_member last self.old.value (K.plain k)) self.old self.new) }
        ensures there { member (K.plain k) self.old.value ≡ true → IsOk result
            × (self.new ≡ self.old) × (h.new ≡ more (unit_if (K.is_counted (K.plain k))) h.old) }
        ensures within { InPlace (comes (K.plain k) self.old.value) 0 result self.old self.new }
        ensures doubled { Doubles (comes (K.plain k) self.old.value) result self.old self.new }
        ensures refused { IfErr result (HandsBack k self.old self.new h.old h.new) }
        ensures paid { Pays K.is_counted K.WEIGHT self.old h.old h.new }
        ensures free { self.old.alone ≡ true → member (K.plain k) self.old.value ≡ false
            → h.new ≡ h.old }
    {
        let hash = k.hash();
        match members::place_of(self.cell.get(), hash, &k) {
            Some(_) => {
                k.end(h);
                Ok(false)
            }
            None => {
                self.put_last(hash, k, h)?;
                Ok(true)
            }
        }
    }

    // `k`, which has this hash and isn't a member, stands last.
    #[tactic(auto, using(cow_members::proofs::Sets::set_steps))]
    fn put_last(&mut self, hash: u32, k: K, h: &mut Holder<Q>) -> Result<(), (NoMemory, K)>
        requires hash { hash ≡ K.hash_of (K.plain k) }
        requires absent { member (K.plain k) self.old.value ≡ false }
        requires growth { length self.old.value + 1 < 2 ^ 31 }
        requires spare { need (length self.old.value) ≤ h.old.spare }
        ensures ok { OnOk result (Becomes (last (K.plain k) self.old.value) self.new) }
        ensures within { InPlace 1 0 result self.old self.new }
        ensures doubled { Doubles 1 result self.old self.new }
        ensures refused { IfErr result (HandsBack k self.old self.new h.old h.new) }
        ensures paid { Pays K.is_counted K.WEIGHT self.old h.old h.new }
        ensures free { self.old.alone ≡ true → h.new ≡ h.old }
    {
        if let Err(refused) = storage::prepare(&mut self.cell, self.alloc, 1, h) {
            return Err((refused, k));
        }
        members::push(self.cell.only(), hash, k);
        Ok(())
    }

    /// `k` stands at position `i`; what stood there and behind moves up: Swift's `insert(_:at:)`. `true` where it wasn't a
    /// member before. Else nothing changes, and `k` is ended. One look-up, and one pass over the table, but at the end.
    #[tactic(auto, using(cow_members::proofs::Sets::set_steps))]
    pub fn insert_at(&mut self, i: usize, k: K, h: &mut Holder<Q>) -> Result<bool, (NoMemory, K)>
        requires place { i ≤ length self.old.value }
        requires growth { length self.old.value + 1 < 2 ^ 31 }
        requires spare { need (length self.old.value) ≤ h.old.spare }
        ensures new { IfOk result (λ b. b ≡ not (member (K.plain k) self.old.value)) }
        ensures ok { OnOk result
            (ChangesTo (with_member (placed_at i) self.old.value (K.plain k)) self.old self.new) }
        ensures there { member (K.plain k) self.old.value ≡ true → IsOk result
            × (self.new ≡ self.old) × (h.new ≡ more (unit_if (K.is_counted (K.plain k))) h.old) }
        ensures within { InPlace (comes (K.plain k) self.old.value) 0 result self.old self.new }
        ensures doubled { Doubles (comes (K.plain k) self.old.value) result self.old self.new }
        ensures refused { IfErr result (HandsBack k self.old self.new h.old h.new) }
        ensures paid { Pays K.is_counted K.WEIGHT self.old h.old h.new }
        ensures free { self.old.alone ≡ true → member (K.plain k) self.old.value ≡ false
            → h.new ≡ h.old }
    {
        let hash = k.hash();
        match members::place_of(self.cell.get(), hash, &k) {
            Some(_) => {
                k.end(h);
                Ok(false)
            }
            None => {
                self.put_at(i, hash, k, h)?;
                Ok(true)
            }
        }
    }

    // `k`, which has this hash and isn't a member, stands at position `i`.
    #[tactic(auto, using(cow_members::proofs::Sets::set_steps))]
    fn put_at(&mut self, i: usize, hash: u32, k: K, h: &mut Holder<Q>) -> Result<(), (NoMemory, K)>
        requires place { i ≤ length self.old.value }
        requires hash { hash ≡ K.hash_of (K.plain k) }
        requires absent { member (K.plain k) self.old.value ≡ false }
        requires growth { length self.old.value + 1 < 2 ^ 31 }
        requires spare { need (length self.old.value) ≤ h.old.spare }
        ensures ok { OnOk result (Becomes (placed_at i (K.plain k) self.old.value) self.new) }
        ensures within { InPlace 1 0 result self.old self.new }
        ensures doubled { Doubles 1 result self.old self.new }
        ensures refused { IfErr result (HandsBack k self.old self.new h.old h.new) }
        ensures paid { Pays K.is_counted K.WEIGHT self.old h.old h.new }
        ensures free { self.old.alone ≡ true → h.new ≡ h.old }
    {
        if let Err(refused) = storage::prepare(&mut self.cell, self.alloc, 1, h) {
            return Err((refused, k));
        }
        order::insert_at(self.cell.only(), i, hash, k);
        Ok(())
    }

    /// `k` is a member, in the place of one that is the same, which is handed out: Swift's `updateOrAppend`. `None`
    /// exactly where there was none, and then `k` stands last. One look-up.
    #[tactic(auto, using(cow_members::proofs::Sets::set_steps))]
    pub fn update(&mut self, k: K, h: &mut Holder<Q>) -> Result<Option<K>, (NoMemory, K)>
        requires growth { length self.old.value + 1 < 2 ^ 31 }
        requires spare { need (length self.old.value) ≤ h.old.spare }
        ensures ok { OnOk result (Becomes (with_member last self.old.value (K.plain k)) self.new) }
        ensures old { IfOk result (λ o. option_map K.plain o ≡ found (K.plain k) self.old.value) }
        ensures within { InPlace (comes (K.plain k) self.old.value) 0 result self.old self.new }
        ensures doubled { Doubles (comes (K.plain k) self.old.value) result self.old self.new }
        ensures refused { IfErr result (HandsBack k self.old self.new h.old h.new) }
        ensures paid { Pays K.is_counted K.WEIGHT self.old h.old h.new }
        ensures free { self.old.alone ≡ true → h.new ≡ h.old }
    {
        let hash = k.hash();
        match members::place_of(self.cell.get(), hash, &k) {
            Some(i) => {
                if let Err(refused) = storage::prepare(&mut self.cell, self.alloc, 0, h) {
                    return Err((refused, k));
                }
                Ok(Some(members::replace(self.cell.only(), i, k)))
            }
            None => {
                self.put_last(hash, k, h)?;
                Ok(None)
            }
        }
    }

    /// The member that is the same as `k`, taken out; those behind it close up: Swift's `remove`. `None` exactly where
    /// there was none, and then nothing changes. One look-up, and one pass over the table, but for the last member.
    #[tactic(auto, using(cow_members::proofs::Sets::set_steps))]
    pub fn remove<E: Equivalent<K, Q>>(
        &mut self,
        k: &E,
        h: &mut Holder<Q>,
    ) -> Result<Option<K>, NoMemory>
        requires spare { need (length self.old.value) ≤ h.old.spare }
        ensures ok { OnOk result (ChangesTo (without (E.sought k.now) self.old.value) self.old self.new) }
        ensures old { IfOk result (λ o. option_map K.plain o ≡ found (E.sought k.now) self.old.value) }
        ensures absent { member (E.sought k.now) self.old.value ≡ false
            → IsOk result × (self.new ≡ self.old) × (h.new ≡ h.old) }
        ensures within { InPlace 0 (goes (E.sought k.now) self.old.value) result self.old self.new }
        ensures refused { OnErr result (Stays self.old self.new × (h.new ≡ h.old)) }
        ensures paid { Pays K.is_counted K.WEIGHT self.old h.old h.new }
        ensures free { self.old.alone ≡ true → h.new ≡ h.old }
    {
        match members::place_of(self.cell.get(), k.sought_hash(), k) {
            None => Ok(None),
            Some(i) => {
                storage::prepare(&mut self.cell, self.alloc, 0, h)?;
                Ok(Some(order::remove_at(self.cell.only(), i)))
            }
        }
    }

    /// The member at position `i`, taken out; those behind it close up: Swift's `remove(at:)`. One pass over the table,
    /// but for the last member.
    #[tactic(auto, using(cow_members::proofs::Sets::set_steps))]
    pub fn remove_at(&mut self, i: usize, h: &mut Holder<Q>) -> Result<K, NoMemory>
        requires place { i < length self.old.value }
        requires spare { need (length self.old.value) ≤ h.old.spare }
        ensures ok { OnOk result (Becomes (remove self.old.value i) self.new) }
        ensures old { IfOk result (λ k. slice_get self.old.value i ≡ Some (K.plain k)) }
        ensures within { InPlace 0 1 result self.old self.new }
        ensures refused { OnErr result (Stays self.old self.new × (h.new ≡ h.old)) }
        ensures paid { Pays K.is_counted K.WEIGHT self.old h.old h.new }
        ensures free { self.old.alone ≡ true → h.new ≡ h.old }
    {
        storage::prepare(&mut self.cell, self.alloc, 0, h)?;
        Ok(order::remove_at(self.cell.only(), i))
    }

    /// The members at the positions `i` and `j` in each other's place: Swift's `swapAt`. Three steps of the table.
    #[tactic(auto, using(cow_members::proofs::Sets::set_steps))]
    pub fn swap_at(&mut self, i: usize, j: usize, h: &mut Holder<Q>) -> Result<(), NoMemory>
        requires first { i < length self.old.value }
        requires second { j < length self.old.value }
        requires spare { need (length self.old.value) ≤ h.old.spare }
        ensures ok { OnOk result (Becomes (swap self.old.value i j) self.new) }
        ensures within { InPlace 0 0 result self.old self.new }
        ensures refused { OnErr result (Stays self.old self.new × (h.new ≡ h.old)) }
        ensures paid { Pays K.is_counted K.WEIGHT self.old h.old h.new }
        ensures free { self.old.alone ≡ true → h.new ≡ h.old }
    {
        storage::prepare(&mut self.cell, self.alloc, 0, h)?;
        order::swap(self.cell.only(), i, j);
        Ok(())
    }

    /// The members in the opposite order: Swift's `reverse`. Linear in their number.
    #[tactic(auto, using(cow_members::proofs::Sets::set_steps))]
    pub fn reverse(&mut self, h: &mut Holder<Q>) -> Result<(), NoMemory>
        requires spare { need (length self.old.value) ≤ h.old.spare }
        ensures ok { OnOk result (Becomes (reverse self.old.value) self.new) }
        ensures within { InPlace 0 0 result self.old self.new }
        ensures refused { OnErr result (Stays self.old self.new × (h.new ≡ h.old)) }
        ensures paid { Pays K.is_counted K.WEIGHT self.old h.old h.new }
        ensures free { self.old.alone ≡ true → h.new ≡ h.old }
    {
        storage::prepare(&mut self.cell, self.alloc, 0, h)?;
        order::reverse(self.cell.only());
        Ok(())
    }

    /// The members of either: those of `other` that weren't there stand last, in its order. Swift's `formUnion`. One or
    /// two look-ups a member of `other`.
    #[tactic(auto, using(cow_members::proofs::Sets::set_steps))]
    pub fn union(&mut self, other: &OrderedSet<K, Q>, h: &mut Holder<Q>) -> Result<(), NoMemory>
        requires growth { length self.old.value + length other.now.value < 2 ^ 31 }
        requires spare { need (length self.old.value + length other.now.value) ≤ h.old.spare }
        ensures ok { OnOk result
            (ChangesTo (union last self.old.value other.now.value) self.old self.new) }
        ensures there { subset other.now.value self.old.value ≡ true
            → Untouched result self.old self.new h.old h.new }
        ensures within { HasRoom (lacking self.old.value other.now.value) self.old → IsOk result }
        ensures refused { OnErr result (Stays self.old self.new × (h.new ≡ h.old)) }
        ensures paid { PaysWith K.is_counted K.WEIGHT self.old other.now.value h.old h.new }
    {
        let others = other.cell.get();
        let extra = algebra::missing(self.cell.get(), others);
        if extra == 0 {
            return Ok(());
        }
        storage::prepare(&mut self.cell, self.alloc, extra, h)?;
        algebra::add_missing(self.cell.only(), others, h);
        Ok(())
    }

    /// The members that `other` has too, in their order: Swift's `formIntersection`. One or two look-ups a member.
    pub fn intersection(
        &mut self,
        other: &OrderedSet<K, Q>,
        h: &mut Holder<Q>,
    ) -> Result<(), NoMemory>
        requires spare { need (length self.old.value + length other.now.value) ≤ h.old.spare }
        ensures ok { OnOk result (ChangesTo (inter self.old.value other.now.value) self.old self.new) }
        ensures there { subset self.old.value other.now.value ≡ true
            → Untouched result self.old self.new h.old h.new }
        ensures within { self.old.alone ≡ true → IsOk result }
        ensures refused { OnErr result (Stays self.old self.new × (h.new ≡ h.old)) }
        ensures paid { Pays K.is_counted K.WEIGHT self.old h.old h.new }
    {
        self.retain(other, true, h)
    }

    /// The members that `other` hasn't, in their order: Swift's `subtract`. One or two look-ups a member.
    pub fn subtracting(
        &mut self,
        other: &OrderedSet<K, Q>,
        h: &mut Holder<Q>,
    ) -> Result<(), NoMemory>
        requires spare { need (length self.old.value + length other.now.value) ≤ h.old.spare }
        ensures ok { OnOk result (ChangesTo (minus self.old.value other.now.value) self.old self.new) }
        ensures absent { disjoint self.old.value other.now.value ≡ true
            → Untouched result self.old self.new h.old h.new }
        ensures within { self.old.alone ≡ true → IsOk result }
        ensures refused { OnErr result (Stays self.old self.new × (h.new ≡ h.old)) }
        ensures paid { Pays K.is_counted K.WEIGHT self.old h.old h.new }
    {
        self.retain(other, false, h)
    }

    // The members that `other` has, where `keep` is true; those that it hasn't, where it is false. In their order.
    #[tactic(auto, using(cow_members::proofs::Sets::set_steps))]
    fn retain(
        &mut self,
        other: &OrderedSet<K, Q>,
        keep: bool,
        h: &mut Holder<Q>,
    ) -> Result<(), NoMemory>
        requires spare { need (length self.old.value + length other.now.value) ≤ h.old.spare }
        ensures ok { OnOk result
            (ChangesTo (filter (kept_by keep other.now.value) self.old.value) self.old self.new) }
        ensures there { list_all (kept_by keep other.now.value) self.old.value ≡ true
            → Untouched result self.old self.new h.old h.new }
        ensures within { self.old.alone ≡ true → IsOk result }
        ensures refused { OnErr result (Stays self.old self.new × (h.new ≡ h.old)) }
        ensures paid { Pays K.is_counted K.WEIGHT self.old h.old h.new }
    {
        let others = other.cell.get();
        if algebra::all_stay(self.cell.get(), others, keep) {
            return Ok(());
        }
        storage::prepare(&mut self.cell, self.alloc, 0, h)?;
        order::retain(self.cell.only(), others, keep, h);
        Ok(())
    }

    /// The members of one alone: those that stay in their order, and behind them those of `other` in its order. Swift's
    /// `formSymmetricDifference`. Two look-ups a member of `other`, and one a member.
    #[tactic(auto, using(cow_members::proofs::Sets::set_steps))]
    pub fn symmetric_difference(
        &mut self,
        other: &OrderedSet<K, Q>,
        h: &mut Holder<Q>,
    ) -> Result<(), NoMemory>
        requires growth { length self.old.value + length other.now.value < 2 ^ 31 }
        requires spare { need (length self.old.value + length other.now.value) ≤ h.old.spare }
        ensures ok { OnOk result
            (ChangesTo (symdiff last self.old.value other.now.value) self.old self.new) }
        ensures absent { other.now.value ≡ [] → Untouched result self.old self.new h.old h.new }
        ensures within { HasRoom (lacking self.old.value other.now.value) self.old → IsOk result }
        ensures refused { OnErr result (Stays self.old self.new × (h.new ≡ h.old)) }
        ensures paid { PaysWith K.is_counted K.WEIGHT self.old other.now.value h.old h.new }
    {
        let members = self.cell.get();
        let others = other.cell.get();
        if others.is_empty() {
            return Ok(());
        }
        let extra = algebra::missing(members, others);
        storage::prepare(&mut self.cell, self.alloc, extra, h)?;
        order::toggle_all(self.cell.only(), others, h);
        Ok(())
    }

    /// How many members of `other` aren't members: by so many `union` grows it. One look-up a member of `other`.
    pub fn lacking(&self, other: &OrderedSet<K, Q>) -> usize
        ensures value { result ≡ lacking self.now.value other.now.value }
        ensures distinct { Ascends (ascending self.now.value) }
        ensures others { Ascends (ascending other.now.value) }
    {
        algebra::missing(self.cell.get(), other.cell.get())
    }

    /// Whether each member is one of `other`: Swift's `isSubset(of:)`. At most one look-up a member, and none where
    /// `other` has fewer.
    pub fn is_subset(&self, other: &OrderedSet<K, Q>) -> bool
        ensures { result ≡ subset self.now.value other.now.value }
    {
        let members = self.cell.get();
        let others = other.cell.get();
        members.len() <= others.len() && algebra::all_stay(members, others, true)
    }

    /// Whether no member is one of `other`: Swift's `isDisjoint(with:)`. At most one look-up a member of the smaller.
    pub fn is_disjoint(&self, other: &OrderedSet<K, Q>) -> bool
        ensures { result ≡ disjoint self.now.value other.now.value }
    {
        let members = self.cell.get();
        let others = other.cell.get();
        if members.len() <= others.len() {
            algebra::all_stay(members, others, false)
        } else {
            algebra::all_stay(others, members, false)
        }
    }

    /// Whether the two have the same members in the same order: Swift's `==`. One pass at most, and none where their
    /// counts differ.
    pub fn equals(&self, other: &OrderedSet<K, Q>) -> bool
        ensures { IsTrue result ↔ (self.now.value ≡ other.now.value) }
    {
        alike(self.cell.get().as_slice(), other.cell.get().as_slice())
    }
}
