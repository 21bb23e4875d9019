ghost use Rattle.std.specs.Prelude.{◌≡◌, ℕ, ◌+◌, ◌-◌, ◌*◌, ◌<◌, ◌≤◌, ◌^◌, List, vec_len, [], ◌∷◌, ◌++◌, length, map, take, count_by, slice_get, slice_range, slice_set, insert, remove, swap, reverse, min, max, IfOk, IfErr, OnOk, OnErr, IsOk, All, option_map, IfSome, IfNone, IsTrue, ◌↔◌, true, false, if◌then◌else◌};
ghost use Rattle.std.specs.List.{splice, push};
ghost use Rattle.cow_model.specs.Purse.{Moves, less, more, unit_if};
ghost use Rattle.cow_row.specs.RowView.{IsSound};
ghost use Rattle.cow_row.specs.Trades.{Trades};
ghost use Rattle.cow_model.specs.Lists.{Pays};
ghost use Rattle.cow_model.specs.Flat.{Becomes, Stays, HasRoom, need, copies, settled};
ghost use Rattle.cow_row.specs.Changes.{InPlace, HandsBack, Doubles, Returns, PaysWith};

use crate::slice::ArraySlice;
use cow_cell::{Counted, Holder, Stock};
use cow_item::{Item, Key};
use cow_model::NoMemory;
use cow_row::{Row, row, storage};
use std::alloc::Global;
use std::marker::Model;

/// A list of elements over counted storage, after Swift's `Array`. A copy shares the storage until
/// one of the two is changed.
///
/// A change of a storage that others hold copies the elements first, in linear time; what is said below of
/// costs holds where the storage is unshared. Only `new`, `from_vec` and the calls that answer `NoMemory` take
/// memory.
#[derive(Drop)]
pub struct Array<T: Item<Q>, Q: Stock> {
    pub(crate) cell: Counted<Row<T>, Q>,
    pub(crate) alloc: Global,
}

impl<T: Item<Q>, Q: Stock> Model for Array<T, Q> {
    ghost use Rattle.std.specs.Prelude.{◌≡◌, ◌-◌, ◌≤◌, ◌<◌, ◌^◌, List, length, map, All};
    ghost use Rattle.cow_model.specs.Flat.{Flat};
    ghost use Rattle.cow_row.specs.RowView.{IsSound};
    ghost use Rattle.cow_model.specs.declared.plain.Literal.{Literal};

    ghost Value = { Flat (List Literal) };

    ghost view = { λ a. record { value = map T.plain a.cell.value.items; alone = a.cell.alone; room = a.cell.value.capacity - length a.cell.value.items } };

    ghost invariant = { λ a. IsSound T.IsSettled a.cell.value × (a.cell.value.front ≡ 0) × (length a.cell.value.items < 2 ^ 31) };
}

impl<T: Item<Q>, Q: Stock> Array<T, Q> {
    /// An empty array: Swift's `init()`. Takes one block of memory. Answers `NoMemory` only for want of it.
    pub fn new(alloc: Global, h: &mut Holder<Q>) -> Result<Array<T, Q>, NoMemory>
        requires { 1 ≤ h.old.spare }
        ensures ok { IfOk result (λ a. Becomes [] a) }
        ensures spent { OnOk result (h.new ≡ less 1 h.old) }
        ensures refused { OnErr result (h.new ≡ h.old) }
    {
        let cell = storage::empty(alloc, 0, h)?;
        Ok(Array { cell, alloc })
    }

    /// An array of these items, none of them copied. Linear in their number: they move once.
    pub fn from_vec(
        alloc: Global,
        items: Vec<T>,
        h: &mut Holder<Q>,
    ) -> Result<Array<T, Q>, (NoMemory, Vec<T>)>
        requires growth { vec_len items < 2 ^ 31 }
        requires spare { 1 ≤ h.old.spare }
        ensures ok { IfOk result (λ a. Becomes (map T.plain items.items) a) }
        ensures spent { OnOk result (h.new ≡ less 1 h.old) }
        ensures refused { IfErr result (λ e. (e.1 ≡ items) × (h.new ≡ h.old)) }
    {
        let mut cell = match storage::empty(alloc, items.len(), h) {
            Ok(cell) => cell,
            Err(refused) => return Err((refused, items)),
        };
        row::replace_run(cell.only(), 0, 0, items, h);
        Ok(Array { cell, alloc })
    }

    /// How many elements there are: Swift's `count`. One step.
    pub fn count(&self) -> usize
        ensures value { result ≡ length self.now.value }
        ensures small { result < 2 ^ 31 }
    {
        self.cell.get().len()
    }

    /// Whether there is no element: Swift's `isEmpty`. One step.
    pub fn is_empty(&self) -> bool
        ensures { IsTrue result ↔ (self.now.value ≡ []) }
    {
        self.cell.get().is_empty()
    }

    /// The elements, in order, for reading: whatever std does with a slice can be done with them. One step.
    pub fn as_slice(&self) -> &[T]
        ensures value { map T.plain result.now ≡ self.now.value }
        ensures settled { All T.IsSettled result.now }
    {
        self.cell.get().as_slice()
    }

    /// Element `i`; `None` exactly where there is none. Swift's subscript. One step.
    pub fn get(&self, i: usize) -> Option<&T>
        ensures value { option_map (λ x. T.plain x.now) result ≡ slice_get self.now.value i }
        ensures settled { IfSome result (λ x. T.IsSettled x.now) }
    {
        let row = self.cell.get();
        if i < row.len() {
            Some(row.get(i))
        } else {
            None
        }
    }

    /// A second whole value, in one step: both show the elements, and neither is alone.
    pub fn copy(&mut self, h: &mut Holder<Q>) -> Array<T, Q>
        requires { 1 ≤ h.old.spare }
        ensures same { self.new ≡ settled self.old }
        ensures copy { result ≡ settled self.old }
        ensures spent { h.new ≡ less 1 h.old }
    {
        Array {
            cell: self.cell.share(h),
            alloc: self.alloc,
        }
    }

    /// The same of an array that isn't alone. Any number of threads may call it on one array.
    pub fn copy_settled(&self, h: &mut Holder<Q>) -> Array<T, Q>
        requires settled { self.now.alone ≡ false }
        requires spare { 1 ≤ h.old.spare }
        ensures copy { result ≡ self.now }
        ensures spent { h.new ≡ less 1 h.old }
    {
        Array {
            cell: self.cell.share_settled(h),
            alloc: self.alloc,
        }
    }

    /// Not known to be alone any more. Nothing at run time.
    pub fn settle(&mut self)
        ensures { self.new ≡ settled self.old }
    {
        self.cell.settle();
    }

    /// The handle is given back; the last one of a storage ends its items, in one pass.
    pub fn end(self, h: &mut Holder<Q>)
        ensures moved { Moves (count_by T.is_counted self.value) 0 (more 1 h.old) h.new }
        ensures exact { Returns T.is_counted self (more 1 h.old) h.new }
        ensures never_less { h.old.spare + 1 ≤ h.new.spare }
    {
        let Array { cell, alloc: _ } = self;
        storage::end_cell(cell, h);
    }

    /// `x` stands last: Swift's `append`. One step over many calls: a full storage at least doubles.
    pub fn append(&mut self, x: T, h: &mut Holder<Q>) -> Result<(), (NoMemory, T)>
        requires growth { length self.old.value + 1 < 2 ^ 31 }
        requires spare { need (length self.old.value) ≤ h.old.spare }
        ensures ok { OnOk result (Becomes (push self.old.value (T.plain x)) self.new) }
        ensures within { InPlace 1 0 result self.old self.new }
        ensures doubled { Doubles 1 result self.old self.new }
        ensures refused { IfErr result (HandsBack x self.old self.new h.old h.new) }
        ensures paid { Pays T.is_counted T.WEIGHT self.old h.old h.new }
        ensures free { self.old.alone ≡ true → h.new ≡ h.old }
    {
        if let Err(refused) = storage::prepare(&mut self.cell, self.alloc, 1, h) {
            return Err((refused, x));
        }
        let mut x = x;
        x.settle();
        self.cell.only().push(x);
        Ok(())
    }

    /// `x` stands in the place of element `i`, which is handed out: Swift's subscript, assigned to. One step.
    #[tactic(auto, using(cow_row::proofs::Runs::row_steps))]
    pub fn set(&mut self, i: usize, x: T, h: &mut Holder<Q>) -> Result<T, (NoMemory, T)>
        requires place { i < length self.old.value }
        requires spare { need (length self.old.value) ≤ h.old.spare }
        ensures ok { OnOk result (Becomes (slice_set self.old.value i (T.plain x)) self.new) }
        ensures old { IfOk result (λ y. slice_get self.old.value i ≡ Some (T.plain y)) }
        ensures within { InPlace 0 0 result self.old self.new }
        ensures refused { IfErr result (HandsBack x self.old self.new h.old h.new) }
        ensures paid { Pays T.is_counted T.WEIGHT self.old h.old h.new }
        ensures free { self.old.alone ≡ true → h.new ≡ h.old }
    {
        if let Err(refused) = storage::prepare(&mut self.cell, self.alloc, 0, h) {
            return Err((refused, x));
        }
        let mut x = x;
        x.settle();
        Ok(self.cell.only().replace(i, x))
    }

    /// `x` stands at `i`; what stood there and behind moves up, by one move of memory. Swift's `insert(at:)`.
    #[tactic(auto, using(cow_row::proofs::Runs::row_steps))]
    pub fn insert(&mut self, i: usize, x: T, h: &mut Holder<Q>) -> Result<(), (NoMemory, T)>
        requires place { i ≤ length self.old.value }
        requires growth { length self.old.value + 1 < 2 ^ 31 }
        requires spare { need (length self.old.value) ≤ h.old.spare }
        ensures ok { OnOk result (Becomes (insert self.old.value i (T.plain x)) self.new) }
        ensures within { InPlace 1 0 result self.old self.new }
        ensures doubled { Doubles 1 result self.old self.new }
        ensures refused { IfErr result (HandsBack x self.old self.new h.old h.new) }
        ensures paid { Pays T.is_counted T.WEIGHT self.old h.old h.new }
        ensures free { self.old.alone ≡ true → h.new ≡ h.old }
    {
        if let Err(refused) = storage::prepare(&mut self.cell, self.alloc, 1, h) {
            return Err((refused, x));
        }
        let mut x = x;
        x.settle();
        self.cell.only().insert(i, x);
        Ok(())
    }

    /// Element `i`, taken out; what stood behind moves down, by one move of memory. Swift's `remove(at:)`.
    #[tactic(auto, using(cow_row::proofs::Runs::row_steps))]
    pub fn remove(&mut self, i: usize, h: &mut Holder<Q>) -> Result<T, NoMemory>
        requires place { i < length self.old.value }
        requires spare { need (length self.old.value) ≤ h.old.spare }
        ensures ok { OnOk result (Becomes (remove self.old.value i) self.new) }
        ensures old { IfOk result (λ y. slice_get self.old.value i ≡ Some (T.plain y)) }
        ensures within { InPlace 0 1 result self.old self.new }
        ensures refused { OnErr result (Stays self.old self.new × (h.new ≡ h.old)) }
        ensures paid { Pays T.is_counted T.WEIGHT self.old h.old h.new }
        ensures free { self.old.alone ≡ true → h.new ≡ h.old }
    {
        storage::prepare(&mut self.cell, self.alloc, 0, h)?;
        Ok(self.cell.only().remove(i))
    }

    /// The last element, taken out; `None` exactly where there is none. Swift's `popLast`. One step.
    #[tactic(auto, using(cow_row::proofs::Runs::row_steps))]
    pub fn pop_last(&mut self, h: &mut Holder<Q>) -> Result<Option<T>, NoMemory>
        requires spare { need (length self.old.value) ≤ h.old.spare }
        ensures last { IfOk result (λ o. IfSome o (λ x.
            self.old.value ≡ push self.new.value (T.plain x))) }
        ensures alone { IfOk result (λ o. IfSome o (λ _. self.new.alone ≡ true)) }
        ensures none { IfOk result (λ o. IfNone o
            ((self.old.value ≡ []) × (self.new ≡ self.old))) }
        ensures empty { self.old.value ≡ [] → IsOk result }
        ensures within { InPlace 0 (min 1 (length self.old.value)) result self.old self.new }
        ensures refused { OnErr result (Stays self.old self.new × (h.new ≡ h.old)) }
        ensures paid { Pays T.is_counted T.WEIGHT self.old h.old h.new }
        ensures free { self.old.alone ≡ true → h.new ≡ h.old }
    {
        if self.count() == 0 {
            return Ok(None);
        }
        storage::prepare(&mut self.cell, self.alloc, 0, h)?;
        Ok(self.cell.only().pop())
    }

    /// Elements `i` and `j` in each other's place: Swift's `swapAt`. One step.
    #[tactic(auto, using(cow_row::proofs::Runs::row_steps))]
    pub fn swap_at(&mut self, i: usize, j: usize, h: &mut Holder<Q>) -> Result<(), NoMemory>
        requires first { i < length self.old.value }
        requires second { j < length self.old.value }
        requires spare { need (length self.old.value) ≤ h.old.spare }
        ensures ok { OnOk result (Becomes (swap self.old.value i j) self.new) }
        ensures within { InPlace 0 0 result self.old self.new }
        ensures refused { OnErr result (Stays self.old self.new × (h.new ≡ h.old)) }
        ensures paid { Pays T.is_counted T.WEIGHT self.old h.old h.new }
        ensures free { self.old.alone ≡ true → h.new ≡ h.old }
    {
        storage::prepare(&mut self.cell, self.alloc, 0, h)?;
        self.cell.only().swap(i, j);
        Ok(())
    }

    /// The elements in the opposite order: Swift's `reverse`. Linear in their number.
    #[tactic(auto, using(cow_row::proofs::Runs::row_steps))]
    pub fn reverse(&mut self, h: &mut Holder<Q>) -> Result<(), NoMemory>
        requires spare { need (length self.old.value) ≤ h.old.spare }
        ensures ok { OnOk result (Becomes (reverse self.old.value) self.new) }
        ensures within { InPlace 0 0 result self.old self.new }
        ensures refused { OnErr result (Stays self.old self.new × (h.new ≡ h.old)) }
        ensures paid { Pays T.is_counted T.WEIGHT self.old h.old h.new }
        ensures free { self.old.alone ≡ true → h.new ≡ h.old }
    {
        storage::prepare(&mut self.cell, self.alloc, 0, h)?;
        self.cell.only().reverse();
        Ok(())
    }

    /// `items` stand in the place of the elements from `i` up to `j`, which end. What stands behind moves
    /// once, by one move of memory. Swift's `replaceSubrange`. One step for each element that comes or goes. Of a
    /// storage that others hold only the elements that stay are copied.
    #[tactic(auto, using(cow_row::proofs::Runs::row_steps))]
    pub fn replace(
        &mut self,
        i: usize,
        j: usize,
        items: Vec<T>,
        h: &mut Holder<Q>,
    ) -> Result<(), (NoMemory, Vec<T>)>
        requires order { i ≤ j }
        requires within { j ≤ length self.old.value }
        requires growth { length self.old.value + vec_len items < 2 ^ 31 + (j - i) }
        requires spare { need (length self.old.value - (j - i)) ≤ h.old.spare }
        ensures ok { OnOk result
            (Becomes (splice self.old.value i j (map T.plain items.items)) self.new) }
        ensures within { InPlace (vec_len items) (j - i) result self.old self.new }
        ensures refused { IfErr result (HandsBack items self.old self.new h.old h.new) }
        ensures exact { self.old.alone ≡ true → OnOk result
            (h.new ≡ more (count_by T.is_counted (slice_range self.old.value i j)) h.old) }
        ensures paid { Trades T.is_counted T.WEIGHT self.old.alone i j self.old.value h.old h.new }
    {
        storage::replace_run(&mut self.cell, i, j - i, self.alloc, items, h)
    }

    /// Copies of the other's elements stand last: Swift's `append(contentsOf:)`. Linear in their number over many
    /// calls: a storage without room for them at least doubles.
    #[tactic(auto, using(cow_row::proofs::Runs::row_steps))]
    pub fn extend(&mut self, other: &Array<T, Q>, h: &mut Holder<Q>) -> Result<(), NoMemory>
        requires growth { length self.old.value + length other.now.value < 2 ^ 31 }
        requires spare { need (length self.old.value + length other.now.value) ≤ h.old.spare }
        ensures ok { OnOk result (Becomes (self.old.value ++ other.now.value) self.new) }
        ensures within { InPlace (length other.now.value) 0 result self.old self.new }
        ensures doubled { Doubles (length other.now.value) result self.old self.new }
        ensures refused { OnErr result (Stays self.old self.new × (h.new ≡ h.old)) }
        ensures paid { PaysWith T.is_counted T.WEIGHT self.old other.now.value h.old h.new }
    {
        let from = other.cell.get();
        storage::prepare(&mut self.cell, self.alloc, from.len(), h)?;
        storage::copy_run(from, 0, from.len(), self.cell.only(), h);
        Ok(())
    }

    /// Room for at least `n` more elements, and for no more than that where the storage grows: Swift's
    /// `reserveCapacity`. Takes memory once, and moves the elements once, where it grows.
    pub fn reserve(&mut self, n: usize, h: &mut Holder<Q>) -> Result<(), NoMemory>
        requires growth { n ≤ 2 ^ 30 }
        requires spare { need (length self.old.value) ≤ h.old.spare }
        ensures ok { OnOk result (Becomes self.old.value self.new) }
        ensures room { OnOk result (n ≤ self.new.room) }
        ensures most { self.new.room ≤ max n self.old.room }
        ensures within { HasRoom n self.old → IsOk result × (self.new ≡ self.old) }
        ensures refused { OnErr result (Stays self.old self.new × (h.new ≡ h.old)) }
        ensures paid { Pays T.is_counted T.WEIGHT self.old h.old h.new }
        ensures free { self.old.alone ≡ true → h.new ≡ h.old }
    {
        let capacity = self.count() + n;
        storage::reserve(&mut self.cell, self.alloc, capacity, h)
    }

    /// No elements. An unshared storage ends its items, in one pass, and keeps its room: Swift's
    /// `removeAll(keepingCapacity:)`.
    pub fn clear(&mut self, h: &mut Holder<Q>) -> Result<(), NoMemory>
        requires spare { need (length self.old.value) ≤ h.old.spare }
        ensures ok { OnOk result (Becomes [] self.new) }
        ensures within { InPlace 0 (length self.old.value) result self.old self.new }
        ensures exact { Returns T.is_counted self.old h.old h.new }
        ensures refused { OnErr result (Stays self.old self.new × (h.new ≡ h.old)) }
        ensures paid { Moves (count_by T.is_counted self.old.value) 0 h.old h.new }
    {
        storage::clear(&mut self.cell, self.alloc, h)
    }

    /// The elements from `i` up to `j`, with their indices, in one step: both show their elements, and
    /// neither is alone.
    #[tactic(auto, using(cow_row::proofs::Runs::row_steps))]
    pub fn slice(&mut self, i: usize, j: usize, h: &mut Holder<Q>) -> ArraySlice<T, Q>
        requires order { i ≤ j }
        requires within { j ≤ length self.old.value }
        requires spare { 1 ≤ h.old.spare }
        ensures same { self.new ≡ settled self.old }
        ensures items { result.value.items ≡ slice_range self.old.value i j }
        ensures start { result.value.start ≡ i }
        ensures units { result.value.units ≡ count_by T.is_counted self.old.value }
        ensures alone { result.alone ≡ false }
        ensures spent { h.new ≡ less 1 h.old }
    {
        ArraySlice {
            cell: self.cell.share(h),
            from: i,
            count: j - i,
            start: i,
            alloc: self.alloc,
        }
    }
}

impl<T: Key<Q>, Q: Stock> Array<T, Q> {
    /// Whether the two have the same elements in the same order: Swift's `==`. One pass at most.
    pub fn equals(&self, other: &Array<T, Q>) -> bool
        ensures { IsTrue result ↔ (self.now.value ≡ other.now.value) }
    {
        let left = self.cell.get();
        let right = other.cell.get();
        if left.len() != right.len() {
            return false;
        }
        for i in 0..left.len() {
            if !left.get(i).same(right.get(i)) {
                return false;
            }
        }
        true
    }
}
