ghost use Rattle.std.specs.Prelude.{◌≡◌, ℕ, ◌+◌, ◌-◌, ◌*◌, ◌<◌, ◌≤◌, ◌^◌, List, vec_len, [], ◌∷◌, ◌++◌, length, map, count_by, slice_get, slice_set, insert, remove, min, max, IfOk, IfErr, OnOk, OnErr, IsOk, All, option_map, IfSome, IfNone, Some, IsTrue, ◌↔◌, true, false};
ghost use Rattle.std.specs.List.{push};
ghost use Rattle.cow_model.specs.Purse.{Moves, less, more};
ghost use Rattle.cow_model.specs.Lists.{Pays};
ghost use Rattle.cow_model.specs.Flat.{Becomes, Stays, HasRoom, need, settled};
ghost use Rattle.cow_row.specs.Changes.{InPlace, HandsBack, Doubles, Returns};
ghost use Rattle.cow_deque.specs.Rings.{turned};

use crate::ring::Ring;
use crate::storage;
use cow_cell::{Counted, Holder, Stock};
use cow_item::{Item, Key};
use cow_model::NoMemory;
use std::alloc::Global;
use std::marker::Model;

/// A list of elements with two ends over counted storage, after Swift's `Deque`. A copy shares the storage until
/// one of the two is changed.
///
/// A change of a storage that others hold copies the elements first, in linear time; what is said below of
/// costs holds where the storage is unshared. Only `new`, `from_vec` and the calls that answer `NoMemory` take
/// memory.
#[derive(Drop)]
pub struct Deque<T: Item<Q>, Q: Stock> {
    cell: Counted<Ring<T>, Q>,
    alloc: Global,
}

impl<T: Item<Q>, Q: Stock> Model for Deque<T, Q> {
    ghost use Rattle.std.specs.Prelude.{◌-◌, ◌<◌, ◌^◌, List, length, map};
    ghost use Rattle.cow_model.specs.Flat.{Flat};
    ghost use Rattle.cow_row.specs.RowView.{IsSound};
    ghost use Rattle.cow_model.specs.declared.plain.Literal.{Literal};

    ghost Value = { Flat (List Literal) };

    ghost view = { λ d. record { value = map T.plain d.cell.value.items; alone = d.cell.alone; room = d.cell.value.capacity - length d.cell.value.items } };

    ghost invariant = { λ d. IsSound T.IsSettled d.cell.value × (length d.cell.value.items < 2 ^ 31) };
}

impl<T: Item<Q>, Q: Stock> Deque<T, Q> {
    /// An empty deque: Swift's `init()`. Takes one block of memory. Answers `NoMemory` only for want of it.
    pub fn new(alloc: Global, h: &mut Holder<Q>) -> Result<Deque<T, Q>, NoMemory>
        requires { 1 ≤ h.old.spare }
        ensures ok { IfOk result (λ d. Becomes [] d) }
        ensures spent { OnOk result (h.new ≡ less 1 h.old) }
        ensures refused { OnErr result (h.new ≡ h.old) }
    {
        let cell = storage::empty(alloc, 0, h)?;
        Ok(Deque { cell, alloc })
    }

    /// A deque of these items, none of them copied: Swift's `init(_:)`. Linear in their number: they move once.
    pub fn from_vec(
        alloc: Global,
        items: Vec<T>,
        h: &mut Holder<Q>,
    ) -> Result<Deque<T, Q>, (NoMemory, Vec<T>)>
        requires growth { vec_len items < 2 ^ 31 }
        requires spare { 1 ≤ h.old.spare }
        ensures ok { IfOk result (λ d. Becomes (map T.plain items.items) d) }
        ensures spent { OnOk result (h.new ≡ less 1 h.old) }
        ensures refused { IfErr result (λ e. (e.1 ≡ items) × (h.new ≡ h.old)) }
    {
        let mut cell = match storage::empty(alloc, items.len(), h) {
            Ok(cell) => cell,
            Err(refused) => return Err((refused, items)),
        };
        storage::push_all(cell.only(), items);
        Ok(Deque { cell, alloc })
    }

    /// How many elements there are: Swift's `count`. One step.
    pub fn count(&self) -> usize
        ensures value { result ≡ length self.now.value }
        ensures small { result < 2 ^ 31 }
    {
        self.cell.get().len()
    }

    /// Whether there is no element: Swift's `isEmpty`. One step.
    pub fn is_empty(&self) -> bool
        ensures { IsTrue result ↔ (self.now.value ≡ []) }
    {
        self.cell.get().is_empty()
    }

    /// The elements, in order, for reading, in two slices: those up to the end of the storage, and those that go on
    /// at its beginning. The second may be empty. One step.
    pub fn as_slices(&self) -> (&[T], &[T])
        ensures value { map T.plain (result.0.now ++ result.1.now) ≡ self.now.value }
        ensures settled { All T.IsSettled (result.0.now ++ result.1.now) }
    {
        self.cell.get().as_slices()
    }

    /// Element `i`, counted from the front; `None` exactly where there is none. Swift's subscript. One step.
    pub fn get(&self, i: usize) -> Option<&T>
        ensures value { option_map (λ x. T.plain x.now) result ≡ slice_get self.now.value i }
        ensures settled { IfSome result (λ x. T.IsSettled x.now) }
    {
        let ring = self.cell.get();
        if i < ring.len() {
            Some(ring.get(i))
        } else {
            None
        }
    }

    /// The first element; `None` exactly where there is none. Swift's `first`. One step.
    pub fn first(&self) -> Option<&T>
        ensures value { option_map (λ x. T.plain x.now) result ≡ slice_get self.now.value 0 }
        ensures settled { IfSome result (λ x. T.IsSettled x.now) }
    {
        self.get(0)
    }

    /// The last element; `None` exactly where there is none. Swift's `last`. One step.
    pub fn last(&self) -> Option<&T>
        ensures value { option_map (λ x. T.plain x.now) result
            ≡ slice_get self.now.value (length self.now.value - 1) }
        ensures settled { IfSome result (λ x. T.IsSettled x.now) }
    {
        let count = self.count();
        if count == 0 {
            return None;
        }
        self.get(count - 1)
    }

    /// A second whole value, in one step: both show the elements, and neither is alone.
    pub fn copy(&mut self, h: &mut Holder<Q>) -> Deque<T, Q>
        requires { 1 ≤ h.old.spare }
        ensures same { self.new ≡ settled self.old }
        ensures copy { result ≡ settled self.old }
        ensures spent { h.new ≡ less 1 h.old }
    {
        Deque {
            cell: self.cell.share(h),
            alloc: self.alloc,
        }
    }

    /// The same of a deque that isn't alone. Any number of threads may call it on one deque.
    pub fn copy_settled(&self, h: &mut Holder<Q>) -> Deque<T, Q>
        requires settled { self.now.alone ≡ false }
        requires spare { 1 ≤ h.old.spare }
        ensures copy { result ≡ self.now }
        ensures spent { h.new ≡ less 1 h.old }
    {
        Deque {
            cell: self.cell.share_settled(h),
            alloc: self.alloc,
        }
    }

    /// Not known to be alone any more. Nothing at run time.
    pub fn settle(&mut self)
        ensures { self.new ≡ settled self.old }
    {
        self.cell.settle();
    }

    /// The handle is given back; the last one of a storage ends its items, in one pass.
    pub fn end(self, h: &mut Holder<Q>)
        ensures moved { Moves (count_by T.is_counted self.value) 0 (more 1 h.old) h.new }
        ensures exact { Returns T.is_counted self (more 1 h.old) h.new }
        ensures never_less { h.old.spare + 1 ≤ h.new.spare }
    {
        let Deque { cell, alloc: _ } = self;
        storage::end_cell(cell, h);
    }

    /// `x` stands last: Swift's `append`. One step over many calls: a full storage at least doubles.
    pub fn append(&mut self, x: T, h: &mut Holder<Q>) -> Result<(), (NoMemory, T)>
        requires growth { length self.old.value + 1 < 2 ^ 31 }
        requires spare { need (length self.old.value) ≤ h.old.spare }
        ensures ok { OnOk result (Becomes (push self.old.value (T.plain x)) self.new) }
        ensures within { InPlace 1 0 result self.old self.new }
        ensures doubled { Doubles 1 result self.old self.new }
        ensures refused { IfErr result (HandsBack x self.old self.new h.old h.new) }
        ensures paid { Pays T.is_counted T.WEIGHT self.old h.old h.new }
        ensures free { self.old.alone ≡ true → h.new ≡ h.old }
    {
        if let Err(refused) = storage::prepare(&mut self.cell, self.alloc, 1, h) {
            return Err((refused, x));
        }
        let mut x = x;
        x.settle();
        self.cell.only().push(x);
        Ok(())
    }

    /// `x` stands first: Swift's `prepend`. One step over many calls: a full storage at least doubles.
    pub fn prepend(&mut self, x: T, h: &mut Holder<Q>) -> Result<(), (NoMemory, T)>
        requires growth { length self.old.value + 1 < 2 ^ 31 }
        requires spare { need (length self.old.value) ≤ h.old.spare }
        ensures ok { OnOk result (Becomes (T.plain x ∷ self.old.value) self.new) }
        ensures within { InPlace 1 0 result self.old self.new }
        ensures doubled { Doubles 1 result self.old self.new }
        ensures refused { IfErr result (HandsBack x self.old self.new h.old h.new) }
        ensures paid { Pays T.is_counted T.WEIGHT self.old h.old h.new }
        ensures free { self.old.alone ≡ true → h.new ≡ h.old }
    {
        if let Err(refused) = storage::prepare(&mut self.cell, self.alloc, 1, h) {
            return Err((refused, x));
        }
        let mut x = x;
        x.settle();
        self.cell.only().push_front(x);
        Ok(())
    }

    /// `x` stands in the place of element `i`, which is handed out: Swift's subscript, assigned to. One step.
    #[tactic(auto, using(cow_row::proofs::Runs::row_steps))]
    pub fn set(&mut self, i: usize, x: T, h: &mut Holder<Q>) -> Result<T, (NoMemory, T)>
        requires place { i < length self.old.value }
        requires spare { need (length self.old.value) ≤ h.old.spare }
        ensures ok { OnOk result (Becomes (slice_set self.old.value i (T.plain x)) self.new) }
        ensures old { IfOk result (λ y. slice_get self.old.value i ≡ Some (T.plain y)) }
        ensures within { InPlace 0 0 result self.old self.new }
        ensures refused { IfErr result (HandsBack x self.old self.new h.old h.new) }
        ensures paid { Pays T.is_counted T.WEIGHT self.old h.old h.new }
        ensures free { self.old.alone ≡ true → h.new ≡ h.old }
    {
        if let Err(refused) = storage::prepare(&mut self.cell, self.alloc, 0, h) {
            return Err((refused, x));
        }
        let mut x = x;
        x.settle();
        Ok(self.cell.only().replace(i, x))
    }

    /// `x` stands at `i`: Swift's `insert(_:at:)`. The fewer of what stood before it and of what stood there and behind
    /// move by one place, by at most three moves of memory.
    #[tactic(auto, using(cow_row::proofs::Runs::row_steps))]
    pub fn insert(&mut self, i: usize, x: T, h: &mut Holder<Q>) -> Result<(), (NoMemory, T)>
        requires place { i ≤ length self.old.value }
        requires growth { length self.old.value + 1 < 2 ^ 31 }
        requires spare { need (length self.old.value) ≤ h.old.spare }
        ensures ok { OnOk result (Becomes (insert self.old.value i (T.plain x)) self.new) }
        ensures within { InPlace 1 0 result self.old self.new }
        ensures doubled { Doubles 1 result self.old self.new }
        ensures refused { IfErr result (HandsBack x self.old self.new h.old h.new) }
        ensures paid { Pays T.is_counted T.WEIGHT self.old h.old h.new }
        ensures free { self.old.alone ≡ true → h.new ≡ h.old }
    {
        if let Err(refused) = storage::prepare(&mut self.cell, self.alloc, 1, h) {
            return Err((refused, x));
        }
        let mut x = x;
        x.settle();
        self.cell.only().insert(i, x);
        Ok(())
    }

    /// Element `i`, taken out: Swift's `remove(at:)`. The fewer of what stood before it and of what stood behind move by
    /// one place, by at most three moves of memory.
    #[tactic(auto, using(cow_row::proofs::Runs::row_steps))]
    pub fn remove(&mut self, i: usize, h: &mut Holder<Q>) -> Result<T, NoMemory>
        requires place { i < length self.old.value }
        requires spare { need (length self.old.value) ≤ h.old.spare }
        ensures ok { OnOk result (Becomes (remove self.old.value i) self.new) }
        ensures old { IfOk result (λ y. slice_get self.old.value i ≡ Some (T.plain y)) }
        ensures within { InPlace 0 1 result self.old self.new }
        ensures refused { OnErr result (Stays self.old self.new × (h.new ≡ h.old)) }
        ensures paid { Pays T.is_counted T.WEIGHT self.old h.old h.new }
        ensures free { self.old.alone ≡ true → h.new ≡ h.old }
    {
        storage::prepare(&mut self.cell, self.alloc, 0, h)?;
        Ok(self.cell.only().remove(i))
    }

    /// The first element, taken out; `None` exactly where there is none. Swift's `popFirst`. One step.
    #[tactic(auto, using(cow_row::proofs::Runs::row_steps))]
    pub fn pop_first(&mut self, h: &mut Holder<Q>) -> Result<Option<T>, NoMemory>
        requires spare { need (length self.old.value) ≤ h.old.spare }
        ensures first { IfOk result (λ o. IfSome o (λ x.
            self.old.value ≡ T.plain x ∷ self.new.value)) }
        ensures alone { IfOk result (λ o. IfSome o (λ _. self.new.alone ≡ true)) }
        ensures none { IfOk result (λ o. IfNone o
            ((self.old.value ≡ []) × (self.new ≡ self.old))) }
        ensures empty { self.old.value ≡ [] → IsOk result }
        ensures within { InPlace 0 (min 1 (length self.old.value)) result self.old self.new }
        ensures refused { OnErr result (Stays self.old self.new × (h.new ≡ h.old)) }
        ensures paid { Pays T.is_counted T.WEIGHT self.old h.old h.new }
        ensures free { self.old.alone ≡ true → h.new ≡ h.old }
    {
        if self.count() == 0 {
            return Ok(None);
        }
        storage::prepare(&mut self.cell, self.alloc, 0, h)?;
        Ok(self.cell.only().pop_front())
    }

    /// The last element, taken out; `None` exactly where there is none. Swift's `popLast`. One step.
    #[tactic(auto, using(cow_row::proofs::Runs::row_steps))]
    pub fn pop_last(&mut self, h: &mut Holder<Q>) -> Result<Option<T>, NoMemory>
        requires spare { need (length self.old.value) ≤ h.old.spare }
        ensures last { IfOk result (λ o. IfSome o (λ x.
            self.old.value ≡ push self.new.value (T.plain x))) }
        ensures alone { IfOk result (λ o. IfSome o (λ _. self.new.alone ≡ true)) }
        ensures none { IfOk result (λ o. IfNone o
            ((self.old.value ≡ []) × (self.new ≡ self.old))) }
        ensures empty { self.old.value ≡ [] → IsOk result }
        ensures within { InPlace 0 (min 1 (length self.old.value)) result self.old self.new }
        ensures refused { OnErr result (Stays self.old self.new × (h.new ≡ h.old)) }
        ensures paid { Pays T.is_counted T.WEIGHT self.old h.old h.new }
        ensures free { self.old.alone ≡ true → h.new ≡ h.old }
    {
        if self.count() == 0 {
            return Ok(None);
        }
        storage::prepare(&mut self.cell, self.alloc, 0, h)?;
        Ok(self.cell.only().pop())
    }

    /// The first `k` elements stand last, in their order. The fewer of these and the others move, one step each; in a
    /// full storage none does.
    #[tactic(auto, using(cow_row::proofs::Runs::row_steps))]
    pub fn rotate(&mut self, k: usize, h: &mut Holder<Q>) -> Result<(), NoMemory>
        requires place { k ≤ length self.old.value }
        requires spare { need (length self.old.value) ≤ h.old.spare }
        ensures ok { OnOk result (Becomes (turned k self.old.value) self.new) }
        ensures within { InPlace 0 0 result self.old self.new }
        ensures refused { OnErr result (Stays self.old self.new × (h.new ≡ h.old)) }
        ensures paid { Pays T.is_counted T.WEIGHT self.old h.old h.new }
        ensures free { self.old.alone ≡ true → h.new ≡ h.old }
    {
        storage::prepare(&mut self.cell, self.alloc, 0, h)?;
        self.cell.only().rotate(k);
        Ok(())
    }

    /// Room for at least `n` more elements, and for no more than that where the storage grows: Swift's
    /// `reserveCapacity`. Takes memory once, and moves the elements once, where it grows.
    pub fn reserve(&mut self, n: usize, h: &mut Holder<Q>) -> Result<(), NoMemory>
        requires growth { n ≤ 2 ^ 30 }
        requires spare { need (length self.old.value) ≤ h.old.spare }
        ensures ok { OnOk result (Becomes self.old.value self.new) }
        ensures room { OnOk result (n ≤ self.new.room) }
        ensures most { self.new.room ≤ max n self.old.room }
        ensures within { HasRoom n self.old → IsOk result × (self.new ≡ self.old) }
        ensures refused { OnErr result (Stays self.old self.new × (h.new ≡ h.old)) }
        ensures paid { Pays T.is_counted T.WEIGHT self.old h.old h.new }
        ensures free { self.old.alone ≡ true → h.new ≡ h.old }
    {
        let capacity = self.count() + n;
        storage::reserve(&mut self.cell, self.alloc, capacity, h)
    }
}

impl<T: Key<Q>, Q: Stock> Deque<T, Q> {
    /// Whether the two have the same elements in the same order: Swift's `==`. One pass at most.
    pub fn equals(&self, other: &Deque<T, Q>) -> bool
        ensures { IsTrue result ↔ (self.now.value ≡ other.now.value) }
    {
        let left = self.cell.get();
        let right = other.cell.get();
        if left.len() != right.len() {
            return false;
        }
        for i in 0..left.len() {
            if !left.get(i).same(right.get(i)) {
                return false;
            }
        }
        true
    }
}
