ghost use Rattle.std.specs.Prelude.{◌≡◌, ℕ, ◌+◌, ◌-◌, ◌*◌, ◌<◌, ◌≤◌, ◌^◌, [], ◌∷◌, ◌++◌, length, map, All, slice_get, slice_set, insert, remove, IfOk, IfNone, IfSome, OnOk, OnErr, IsOk, IsTrue, ◌↔◌, Some, None, max};
ghost use Rattle.cow_model.specs.Purse.{noted};
ghost use Rattle.cow_row.specs.Places.{somes, IsPacked};
ghost use Rattle.cow_row.specs.Words.{Spends};
ghost use Rattle.cow_deque.specs.Rings.{turned};

use crate::gaps::{self, wrapped};
use crate::pours::pour;
use core::mem::replace_with;
use cow_buf::Buf;
use cow_cell::{Holder, Stock};
use cow_item::Item;
use cow_model::NoMemory;
use std::alloc::Global;
use std::marker::Model;
use std::mem;

/// Items in a buffer, from the place `head` on, round its end. Where no cost is said, a call is one step, and where
/// no memory is spoken of, it takes none. Dropping a ring drops each item.
pub struct Ring<T> {
    buf: Buf<T>,
    head: usize,
    len: usize,
}

impl<T> Model for Ring<T> {
    ghost use Rattle.std.specs.Prelude.{length};
    ghost use Rattle.cow_row.specs.RowView.{RowView};
    ghost use Rattle.cow_row.specs.Places.{somes};
    ghost use Rattle.cow_deque.specs.Rings.{turned, IsRing};

    ghost Value = { RowView T };

    ghost view = { λ r. record { items = somes (turned r.head r.buf); front = 0; capacity = length r.buf } };

    ghost invariant = { λ r. IsRing r.buf r.head r.len };
}

impl<T: Drop> Drop for Ring<T> {
    fn drop(self) {
        let mut ring = self;
        while let Some(_item) = ring.pop_front() {}
        ring.free();
    }
}

impl<T: Drop> Ring<T> {
    /// An empty ring with room for `n` items. Takes memory for them, and no more.
    pub fn with_capacity(alloc: Global, n: usize) -> Result<Ring<T>, NoMemory>
        requires { n ≤ 2 ^ 32 }
        ensures { IfOk result (λ r. r ≡ record { items = []; front = 0; capacity = n }) }
    {
        let buf = Buf::with_capacity(alloc, n)?;
        Ok(Ring {
            buf,
            head: 0,
            len: 0,
        })
    }

    /// Frees the storage of an empty ring.
    fn free(self)
        requires { self.items ≡ [] }
    {
        let Ring {
            buf,
            head: _,
            len: _,
        } = self;
        buf.free();
    }

    /// How many items there are.
    pub fn len(&self) -> usize
        ensures value { result ≡ length self.now.items }
        ensures fits { length self.now.items ≤ self.now.capacity }
    {
        self.len
    }

    /// Whether there is no item.
    pub fn is_empty(&self) -> bool
        ensures { IsTrue result ↔ (self.now.items ≡ []) }
    {
        self.len == 0
    }

    /// How many items fit.
    pub fn capacity(&self) -> usize
        ensures value { result ≡ self.now.capacity }
        ensures fits { length self.now.items ≤ self.now.capacity }
        ensures bound { result ≤ 2 ^ 32 }
    {
        self.buf.capacity()
    }

    /// Item `i`.
    pub fn get(&self, i: usize) -> &T
        requires { i < length self.now.items }
        ensures { slice_get self.now.items i ≡ Some result.now }
    {
        let place = wrapped(self.head, i, self.buf.capacity());
        self.buf.at(place)
    }

    /// `x` stands last.
    pub fn push(&mut self, x: T)
        requires { length self.old.items < self.old.capacity }
        ensures { self.new ≡ record self.old { items = self.old.items ++ x ∷ [] } }
    {
        let place = wrapped(self.head, self.len, self.buf.capacity());
        self.buf.put(place, x);
        self.len += 1;
    }

    /// `x` stands first.
    pub fn push_front(&mut self, x: T)
        requires { length self.old.items < self.old.capacity }
        ensures { self.new ≡ record self.old { items = x ∷ self.old.items } }
    {
        let capacity = self.buf.capacity();
        let place = wrapped(self.head, capacity - 1, capacity);
        self.buf.put(place, x);
        self.head = place;
        self.len += 1;
    }

    /// `x` stands in the place of item `i`, which is handed out.
    pub fn replace(&mut self, i: usize, x: T) -> T
        requires { i < length self.old.items }
        ensures value { slice_get self.old.items i ≡ Some result }
        ensures ring { self.new ≡ record self.old { items = slice_set self.old.items i x } }
    {
        let place = wrapped(self.head, i, self.buf.capacity());
        let old = self.buf.take(place);
        self.buf.put(place, x);
        old
    }

    /// The last item, taken out.
    pub fn pop(&mut self) -> Option<T>
        ensures empty { IfNone result (self.old.items ≡ []) }
        ensures kept { IfNone result (self.new ≡ self.old) }
        ensures value { IfSome result (λ x. self.old.items ≡ self.new.items ++ x ∷ []) }
        ensures room { IfSome result (λ _. length self.new.items < self.new.capacity) }
        ensures front { self.new.front ≡ self.old.front }
        ensures capacity { self.new.capacity ≡ self.old.capacity }
    {
        if self.len == 0 {
            return None;
        }
        self.len -= 1;
        let place = wrapped(self.head, self.len, self.buf.capacity());
        Some(self.buf.take(place))
    }

    /// The first item, taken out.
    pub fn pop_front(&mut self) -> Option<T>
        ensures empty { IfNone result (self.old.items ≡ []) }
        ensures kept { IfNone result (self.new ≡ self.old) }
        ensures value { IfSome result (λ x. self.old.items ≡ x ∷ self.new.items) }
        ensures room { IfSome result (λ _. length self.new.items < self.new.capacity) }
        ensures front { self.new.front ≡ self.old.front }
        ensures capacity { self.new.capacity ≡ self.old.capacity }
    {
        if self.len == 0 {
            return None;
        }
        let place = wrapped(self.head, 0, self.buf.capacity());
        let first = self.buf.take(place);
        self.head = place + 1;
        self.len -= 1;
        Some(first)
    }

    /// The items, in order, in two slices: those up to the end of the buffer, and those that go on at its beginning.
    pub fn as_slices(&self) -> (&[T], &[T])
        ensures { result.0.now ++ result.1.now ≡ self.now.items }
    {
        let to_end = self.buf.capacity() - self.head;
        if self.len <= to_end {
            let all = self.buf.run(self.head, self.len);
            let none = self.buf.run(0, 0);
            return (all, none);
        }
        let front = self.buf.run(self.head, to_end);
        let rest = self.buf.run(0, self.len - to_end);
        (front, rest)
    }

    /// Room for `n` items in all. Moves each item once, by two moves of memory, and copies none; where it takes memory,
    /// it takes it for `n` items, once. The items stand from the first place on then.
    #[cold]
    #[inline(never)]
    pub fn reserve(&mut self, alloc: Global, n: usize) -> Result<(), NoMemory>
        requires { n ≤ 2 ^ 32 }
        ensures items { self.new.items ≡ self.old.items }
        ensures ok { OnOk result (n ≤ self.new.capacity) }
        ensures most { self.new.capacity ≤ max n self.old.capacity }
        ensures within { n ≤ self.old.capacity → (IsOk result × (self.new ≡ self.old)) }
        ensures refused { OnErr result (self.new ≡ self.old) }
    {
        if n <= self.capacity() {
            return Ok(());
        }
        let mut wider = Buf::with_capacity(alloc, n)?;
        let (head, len) = (self.head, self.len);
        pour(&mut self.buf, head, len, &mut wider);
        self.head = 0;
        mem::replace(&mut self.buf, wider).free();
        Ok(())
    }

    /// The first `k` items stand last, in their order. Moves the fewer of these and the others, one step each, and
    /// none where the ring is full.
    pub fn rotate(&mut self, k: usize)
        requires { k ≤ length self.old.items }
        ensures { self.new ≡ record self.old { items = turned k self.old.items } }
    {
        let len = self.len();
        if k == len {
            return;
        }
        if len == self.capacity() {
            self.head = wrapped(self.head, k, len);
            return;
        }
        if k <= len / 2 {
            self.to_back(k);
            return;
        }
        self.to_front(len - k);
    }

    /// The first `k` items go to the back, one by one.
    fn to_back(&mut self, k: usize)
        requires { k ≤ length self.old.items }
        ensures { self.new ≡ record self.old { items = turned k self.old.items } }
    {
        for _i in 0..k {
            match self.pop_front() {
                Some(x) => self.push(x),
                None => unreachable!(),
            }
        }
    }

    /// The last `n` items go to the front, one by one.
    fn to_front(&mut self, n: usize)
        requires { n ≤ length self.old.items }
        ensures { self.new ≡ record self.old { items = turned (length self.old.items - n) self.old.items } }
    {
        for _i in 0..n {
            match self.pop() {
                Some(x) => self.push_front(x),
                None => unreachable!(),
            }
        }
    }

    /// `x` stands at place `i`. The fewer of the items before it and of those behind move by one place.
    pub fn insert(&mut self, i: usize, x: T)
        requires room { length self.old.items < self.old.capacity }
        requires place { i ≤ length self.old.items }
        ensures { self.new ≡ record self.old { items = insert self.old.items i x } }
    {
        let head = gaps::make_gap(&mut self.buf, self.head, self.len, i);
        let place = wrapped(head, i, self.buf.capacity());
        self.buf.put(place, x);
        self.head = head;
        self.len += 1;
    }

    /// Item `i`, taken out. The fewer of the items before it and of those behind move by one place.
    pub fn remove(&mut self, i: usize) -> T
        requires { i < length self.old.items }
        ensures value { slice_get self.old.items i ≡ Some result }
        ensures ring { self.new ≡ record self.old { items = remove self.old.items i } }
    {
        let place = wrapped(self.head, i, self.buf.capacity());
        let item = self.buf.take(place);
        self.len -= 1;
        let head = gaps::close_gap(&mut self.buf, self.head, self.len, i);
        self.head = head;
        item
    }
}

/// Copies of all items of `from`, in their order, stand in `to`, which is empty, from the first place on. One pass over
/// the two slices, and one count of the copies. Takes no memory.
pub fn copy_items<T: Item<Q>, Q: Stock>(from: &Ring<T>, to: &mut Ring<T>, h: &mut Holder<Q>)
    requires small { length from.now.items ≤ 2 ^ 31 }
    requires settled { All T.IsSettled from.now.items }
    requires empty { to.old.items ≡ [] }
    requires room { length from.now.items ≤ to.old.capacity }
    requires spare { length from.now.items ≤ h.old.spare }
    ensures same { map T.plain to.new.items ≡ map T.plain from.now.items }
    ensures count { length to.new.items ≡ length from.now.items }
    ensures settled { All T.IsSettled to.new.items }
    ensures capacity { to.new.capacity ≡ to.old.capacity }
    ensures units { Spends T.plain T.is_counted from.now.items h.old h.new }
    ensures copied { h.new.copied ≡ (noted (T.WEIGHT * length from.now.items) h.old).copied }
{
    let count = from.len;
    let (front, rest) = from.as_slices();
    let run = (front, 0, h.split(count as u64));
    let left = replace_with(&mut to.buf, run, with_twins);
    let run = (rest, front.len(), left);
    let left = replace_with(&mut to.buf, run, with_twins);
    h.join(left);
    h.note(T::WEIGHT * count as u64);
    to.head = 0;
    to.len = count;
}

/// Puts twins of a slice's items into the places behind the `len` items that stand from the first place on, and answers
/// the buffer and the holder. It has both by value, so that the loop keeps the buffer's pointer and the holder's
/// numbers in registers, and writes items and nothing else.
fn with_twins<T: Item<Q>, Q: Stock>(
    to: Buf<T>,
    run: (&[T], usize, Holder<Q>),
) -> (Buf<T>, Holder<Q>)
    requires small { length run.0.now ≤ 2 ^ 31 }
    requires from_settled { All T.IsSettled run.0.now }
    requires packed { IsPacked to 0 run.1 }
    requires to_settled { All T.IsSettled (somes to) }
    requires room { run.1 + length run.0.now ≤ length to }
    requires spare { length run.0.now ≤ run.2.spare }
    ensures packed { IsPacked result.0 0 (run.entry.1 + length run.entry.0.now) }
    ensures long { length result.0 ≡ length to }
    ensures same { map T.plain (somes result.0) ≡ map T.plain (somes to ++ run.entry.0.now) }
    ensures settled { All T.IsSettled (somes result.0) }
    ensures units { Spends T.plain T.is_counted run.entry.0.now run.entry.2 result.1 }
    ensures copied { result.1.copied ≡ run.entry.2.copied }
{
    let (from, len, h) = run;
    let (mut to, mut h) = (to, h);
    let mut n = len;
    for i in 0..from.len() {
        to.put(n, item(from, i).twin(&mut h));
        n += 1;
    }
    (to, h)
}

/// Item `i` of a slice.
fn item<T>(from: &[T], i: usize) -> &T
    requires { i < length from.now }
    ensures { slice_get from.now i ≡ Some result.now }
{
    &from[i]
}
