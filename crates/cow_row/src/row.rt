ghost use Rattle.std.specs.Prelude.{◌≡◌, ℕ, ◌+◌, ◌-◌, ◌*◌, ◌<◌, ◌≤◌, ◌^◌, [], ◌∷◌, ◌++◌, length, map, count_by, All, IsPermutation, slice_get, slice_set, take, drop, insert, remove, swap, reverse, IfOk, IfNone, IfSome, OnOk, OnErr, IsOk, IsTrue, ◌↔◌, Some, None, max};
ghost use Rattle.std.specs.List.{splice};
ghost use Rattle.cow_buf.specs.Places.{place, IsRun, IsClear, blanked};
ghost use Rattle.cow_model.specs.Purse.{more, noted};
ghost use Rattle.cow_row.specs.Places.{somes, IsPacked};
ghost use Rattle.cow_row.specs.Words.{run_of, fronted, Gains, Spends, Splices, units};

use core::mem::replace_with;
use cow_buf::Buf;
use cow_cell::{Holder, Stock};
use cow_item::Item;
use cow_model::NoMemory;
use std::alloc::Global;
use std::marker::Model;
use std::mem;

/// Items side by side in a buffer, with empty places before and behind them. Where no cost is said, a call is
/// one step, and where no memory is spoken of, it takes none. Dropping a row drops each item.
pub struct Row<T> {
    buf: Buf<T>,
    /// How many places before the first item are empty.
    front: usize,
    len: usize,
}

impl<T> Model for Row<T> {
    ghost use Rattle.std.specs.Prelude.{◌-◌, length};
    ghost use Rattle.cow_row.specs.RowView.{RowView};
    ghost use Rattle.cow_row.specs.Places.{somes, IsPacked};

    ghost Value = { RowView T };

    ghost view = { λ r. record { items = somes r.buf; front = r.front; capacity = length r.buf - r.front } };

    ghost invariant = { λ r. IsPacked r.buf r.front r.len };
}

impl<T: Drop> Drop for Row<T> {
    fn drop(self) {
        let Row {
            mut buf,
            front,
            len,
        } = self;
        for i in 0..len {
            let _item = buf.take(front + i);
        }
        buf.free();
    }
}

impl<T: Drop> Row<T> {
    /// An empty row with room for `n` items. Takes memory for them, and no more.
    pub fn with_capacity(alloc: Global, n: usize) -> Result<Row<T>, NoMemory>
        requires { n ≤ 2 ^ 32 }
        ensures { IfOk result (λ r. r ≡ record { items = []; front = 0; capacity = n }) }
    {
        let buf = Buf::with_capacity(alloc, n)?;
        Ok(Row {
            buf,
            front: 0,
            len: 0,
        })
    }

    /// How many items there are.
    pub fn len(&self) -> usize
        ensures value { result ≡ length self.now.items }
        ensures fits { length self.now.items ≤ self.now.capacity }
    {
        self.len
    }

    /// Whether there is no item.
    pub fn is_empty(&self) -> bool
        ensures { IsTrue result ↔ (self.now.items ≡ []) }
    {
        self.len == 0
    }

    /// How many items fit from the first one's place on.
    pub fn capacity(&self) -> usize
        ensures value { result ≡ self.now.capacity }
        ensures bound { result ≤ 2 ^ 32 }
    {
        self.buf.capacity() - self.front
    }

    /// Item `i`.
    pub fn get(&self, i: usize) -> &T
        requires { i < length self.now.items }
        ensures { slice_get self.now.items i ≡ Some result.now }
    {
        self.buf.at(self.front + i)
    }

    /// The items, in order.
    pub fn as_slice(&self) -> &[T]
        ensures { result.now ≡ self.now.items }
    {
        self.buf.run(self.front, self.len)
    }

    /// The `count` items from `start` on, in order.
    pub fn run(&self, start: usize, count: usize) -> &[T]
        requires { start + count ≤ length self.now.items }
        ensures { result.now ≡ run_of start count self.now.items }
    {
        self.buf.run(self.front + start, count)
    }

    /// The buffer, for a table that finds items by their places in it. Item `i` stands `i` places behind the
    /// empty ones in front.
    pub fn buf(&self) -> &Buf<T>
        ensures { (i : ℕ) → i < length self.now.items
            → place result.now (self.now.front + i) ≡ slice_get self.now.items i }
    {
        &self.buf
    }

    /// `x` stands last.
    pub fn push(&mut self, x: T)
        requires { length self.old.items < self.old.capacity }
        ensures { self.new ≡ record self.old { items = self.old.items ++ x ∷ [] } }
    {
        self.buf.put(self.front + self.len, x);
        self.len += 1;
    }

    /// `x` stands in the place of item `i`, which is handed out.
    pub fn replace(&mut self, i: usize, x: T) -> T
        requires { i < length self.old.items }
        ensures value { slice_get self.old.items i ≡ Some result }
        ensures row { self.new ≡ record self.old { items = slice_set self.old.items i x } }
    {
        let place = self.front + i;
        let old = self.buf.take(place);
        self.buf.put(place, x);
        old
    }

    /// The last item, taken out.
    pub fn pop(&mut self) -> Option<T>
        ensures empty { IfNone result (self.old.items ≡ []) }
        ensures kept { IfNone result (self.new ≡ self.old) }
        ensures value { IfSome result (λ x. self.old.items ≡ self.new.items ++ x ∷ []) }
        ensures front { self.new.front ≡ self.old.front }
        ensures capacity { self.new.capacity ≡ self.old.capacity }
    {
        if self.len == 0 {
            return None;
        }
        self.len -= 1;
        Some(self.buf.take(self.front + self.len))
    }

    /// The first item, taken out. Its place is empty from then on.
    pub fn pop_front(&mut self) -> Option<T>
        ensures empty { IfNone result (self.old.items ≡ []) }
        ensures kept { IfNone result (self.new ≡ self.old) }
        ensures value { IfSome result (λ x. self.old.items ≡ x ∷ self.new.items) }
        ensures front { IfSome result (λ _. self.new.front ≡ self.old.front + 1) }
        ensures capacity { IfSome result (λ _. self.new.capacity + 1 ≡ self.old.capacity) }
    {
        if self.len == 0 {
            return None;
        }
        let first = self.buf.take(self.front);
        self.front += 1;
        self.len -= 1;
        Some(first)
    }

    /// Item `i`, taken out; the first item stands in its place. `remove` moves all that follow instead.
    pub fn swap_remove_front(&mut self, i: usize) -> T
        requires { i < length self.old.items }
        ensures value { slice_get self.old.items i ≡ Some result }
        ensures rest { drop i self.new.items ≡ drop (i + 1) self.old.items }
        ensures others { IsPermutation self.old.items (result ∷ self.new.items) }
        ensures front { self.new.front ≡ self.old.front + 1 }
        ensures capacity { self.new.capacity + 1 ≡ self.old.capacity }
    {
        let first = match self.pop_front() {
            None => unreachable!(),
            Some(first) => first,
        };
        if i == 0 {
            return first;
        }
        self.replace(i - 1, first)
    }

    /// Items `i` and `j` in each other's place.
    pub fn swap(&mut self, i: usize, j: usize)
        requires first { i < length self.old.items }
        requires second { j < length self.old.items }
        ensures { self.new ≡ record self.old { items = swap self.old.items i j } }
    {
        if i == j {
            return;
        }
        let x = self.buf.take(self.front + i);
        let y = self.buf.take(self.front + j);
        self.buf.put(self.front + i, y);
        self.buf.put(self.front + j, x);
    }

    /// The items in the opposite order. Linear in their number.
    pub fn reverse(&mut self)
        ensures { self.new ≡ record self.old { items = reverse self.old.items } }
    {
        let len = self.len();
        for i in 0..len / 2 {
            self.swap(i, len - 1 - i);
        }
    }

    /// Room for `n` items in all. Moves the items and copies none; where it takes memory, it takes it
    /// for `n` items, once.
    #[cold]
    #[inline(never)]
    pub fn reserve(&mut self, alloc: Global, n: usize) -> Result<(), NoMemory>
        requires { n ≤ 2 ^ 32 }
        ensures items { self.new.items ≡ self.old.items }
        ensures ok { OnOk result (n ≤ self.new.capacity) }
        ensures most { self.new.capacity ≤ max n (self.old.front + self.old.capacity) }
        ensures front { self.new.front ≤ self.old.front }
        ensures within { n ≤ self.old.capacity → (IsOk result × (self.new ≡ self.old)) }
        ensures refused { OnErr result (self.new ≡ self.old) }
    {
        if n <= self.capacity() {
            return Ok(());
        }
        if n <= self.buf.capacity() {
            self.to_front();
            return Ok(());
        }
        let mut wider = Buf::with_capacity(alloc, n)?;
        self.to_front();
        let len = self.len;
        self.buf.drain_into(&mut wider, len);
        mem::replace(&mut self.buf, wider).free();
        Ok(())
    }

    /// The items stand from the first place on. One move of memory where they don't.
    pub fn to_front(&mut self)
        ensures { self.new ≡ fronted self.old }
    {
        self.buf.shift(self.front, 0, self.len);
        self.front = 0;
    }

    /// `x` stands at place `i`; what stood there and behind moves up, by one move of memory.
    pub fn insert(&mut self, i: usize, x: T)
        requires room { length self.old.items < self.old.capacity }
        requires place { i ≤ length self.old.items }
        ensures { self.new ≡ record self.old { items = insert self.old.items i x } }
    {
        let place = self.front + i;
        self.buf.shift(place, place + 1, self.len - i);
        self.buf.put(place, x);
        self.len += 1;
    }

    /// Item `i`, taken out; what stood behind moves down, by one move of memory.
    pub fn remove(&mut self, i: usize) -> T
        requires { i < length self.old.items }
        ensures value { slice_get self.old.items i ≡ Some result }
        ensures row { self.new ≡ record self.old { items = remove self.old.items i } }
    {
        let place = self.front + i;
        let item = self.buf.take(place);
        self.buf.shift(place + 1, place, self.len - i - 1);
        self.len -= 1;
        item
    }
}

/// Copies of the `count` items of `from` from `start` on stand last in `to`. One pass over them, and one count
/// of the copies. Takes no memory.
pub fn copy_run<T: Item<Q>, Q: Stock>(
    from: &Row<T>,
    start: usize,
    count: usize,
    to: &mut Row<T>,
    h: &mut Holder<Q>,
)
    requires within { start + count ≤ length from.now.items }
    requires small { length from.now.items ≤ 2 ^ 31 }
    requires from_settled { All T.IsSettled from.now.items }
    requires to_settled { All T.IsSettled to.old.items }
    requires room { length to.old.items + count ≤ to.old.capacity }
    requires spare { count ≤ h.old.spare }
    ensures same { Gains T.plain (run_of start count from.now.items) to.old.items to.new.items }
    ensures count { length to.new.items ≡ length to.old.items + count }
    ensures settled { All T.IsSettled to.new.items }
    ensures capacity { to.new.capacity ≡ to.old.capacity }
    ensures front { to.new.front ≡ to.old.front }
    ensures units { Spends T.plain T.is_counted (run_of start count from.now.items) h.old h.new }
    ensures copied { h.new.copied ≡ (noted (T.WEIGHT * count) h.old).copied }
{
    let (front, len) = (to.front, to.len);
    let run = (from.run(start, count), front, len, h.split(count as u64));
    let rest = replace_with(&mut to.buf, run, with_twins);
    h.join(rest);
    h.note(T::WEIGHT * count as u64);
    to.len = len + count;
}

/// Puts twins of a slice's items into the places behind the `len` items that stand behind `front` empty places,
/// and answers the buffer and the holder. It has both by value, so that the loop keeps the buffer's pointer and
/// the holder's numbers in registers, and writes items and nothing else.
fn with_twins<T: Item<Q>, Q: Stock>(
    to: Buf<T>,
    run: (&[T], usize, usize, Holder<Q>),
) -> (Buf<T>, Holder<Q>)
    requires small { length run.0.now ≤ 2 ^ 31 }
    requires from_settled { All T.IsSettled run.0.now }
    requires packed { IsPacked to run.1 run.2 }
    requires to_settled { All T.IsSettled (somes to) }
    requires room { run.1 + run.2 + length run.0.now ≤ length to }
    requires spare { length run.0.now ≤ run.3.spare }
    ensures packed { IsPacked result.0 run.entry.1 (run.entry.2 + length run.entry.0.now) }
    ensures long { length result.0 ≡ length to }
    ensures same { Gains T.plain run.entry.0.now (somes to) (somes result.0) }
    ensures settled { All T.IsSettled (somes result.0) }
    ensures units { Spends T.plain T.is_counted run.entry.0.now run.entry.3 result.1 }
    ensures copied { result.1.copied ≡ run.entry.3.copied }
{
    let (from, front, len, h) = run;
    let (mut to, mut h) = (to, h);
    let mut n = len;
    for i in 0..from.len() {
        to.put(front + n, item(from, i).twin(&mut h));
        n += 1;
    }
    (to, h)
}

/// Item `i` of a slice.
fn item<T>(from: &[T], i: usize) -> &T
    requires { i < length from.now }
    ensures { slice_get from.now i ≡ Some result.now }
{
    &from[i]
}

/// Ends each item, in one pass; the empty row keeps its places. Takes no memory.
pub fn end_items<T: Item<Q>, Q: Stock>(row: &mut Row<T>, h: &mut Holder<Q>)
    ensures empty { row.new ≡ record row.old { items = [] } }
    ensures paid { h.new ≡ more (units T.plain T.is_counted row.old.items) h.old }
{
    let front = row.front;
    let len = row.len;
    end_places(&mut row.buf, front, len, h);
    row.len = 0;
}

/// The items of `items`, settled, stand in the place of the `count` items from `start` on, which end.
/// What stands behind moves once, by one move of memory. Takes no memory.
pub fn replace_run<T: Item<Q>, Q: Stock>(
    row: &mut Row<T>,
    start: usize,
    count: usize,
    items: Vec<T>,
    h: &mut Holder<Q>,
)
    requires within { start + count ≤ length row.old.items }
    requires room { length row.old.items + length items.items ≤ row.old.capacity + count }
    requires settled { All T.IsSettled row.old.items }
    ensures same { Splices T.plain start count items.items row.old row.new }
    ensures settled { All T.IsSettled row.new.items }
    ensures capacity { row.new.capacity ≡ row.old.capacity }
    ensures front { row.new.front ≡ row.old.front }
    ensures paid { h.new ≡ more (units T.plain T.is_counted (run_of start count row.old.items)) h.old }
{
    let mut items = items;
    settle_all(&mut items);
    let added = items.len();
    let place = row.front + start;
    end_places(&mut row.buf, place, count, h);
    row.buf
        .shift(place + count, place + added, row.len - start - count);
    replace_with(&mut row.buf, (place, items), filled);
    row.len = row.len - count + added;
}

/// Settles each item. Nothing at run time.
fn settle_all<T: Item<Q>, Q: Stock>(items: &mut Vec<T>)
    ensures same { map T.plain items.new.items ≡ map T.plain items.old.items }
    ensures count { length items.new.items ≡ length items.old.items }
    ensures settled { All T.IsSettled items.new.items }
{
    for i in 0..items.len() {
        items[i].settle();
    }
}

/// Ends what the `count` places from `from` on hold, which are empty then.
fn end_places<T: Item<Q>, Q: Stock>(buf: &mut Buf<T>, from: usize, count: usize, h: &mut Holder<Q>)
    requires filled { IsRun buf.old from count }
    requires small { from + count ≤ 2 ^ 32 }
    ensures places { buf.new ≡ blanked None from count buf.old }
    ensures paid { h.new ≡ more (units T.plain T.is_counted (somes (run_of from count buf.old))) h.old }
{
    for i in 0..count {
        buf.take(from + i).end(h);
    }
}

/// Puts the items into the empty places from `run.0` on. The buffer is had by value, as in `with_twins`.
fn filled<T: Drop>(buf: Buf<T>, run: (usize, Vec<T>)) -> (Buf<T>, ())
    requires within { run.0 + length run.1.items ≤ length buf }
    requires empty { IsClear buf run.0 (run.0 + length run.1.items) }
    requires small { run.0 + length run.1.items ≤ 2 ^ 32 }
    ensures { result.0 ≡ splice buf run.0 (run.0 + length run.1.items) (map Some run.1.items) }
{
    let (from, items) = run;
    let mut buf = buf;
    let mut at = from;
    for x in items {
        buf.put(at, x);
        at += 1;
    }
    (buf, ())
}
