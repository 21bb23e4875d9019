ghost use Rattle.std.specs.Prelude.{◌≡◌, ◌+◌, ◌-◌, ◌<◌, ◌≤◌, ◌^◌, length, min};
ghost use Rattle.cow_row.specs.Places.{somes};
ghost use Rattle.cow_deque.specs.Rings.{Wraps, turned, IsRing, HasGap};

use cow_buf::Buf;

/// `head + i`, counted round the end of `n` places.
pub fn wrapped(head: usize, i: usize, n: usize) -> usize
    requires head { head ≤ n }
    requires within { i < n }
    requires small { n ≤ 2 ^ 32 }
    ensures { Wraps head i n result }
{
    let at = head + i;
    if at < n { at } else { at - n }
}

/// The lesser of two numbers.
pub fn lesser(a: usize, b: usize) -> usize
    ensures { result ≡ min a b }
{
    if a < b { a } else { b }
}

/// An empty place comes before item `i` of the `len` items from `head` on: the fewer of the items before it and of
/// those behind it move by one place. Answers where the first item stands then.
pub fn make_gap<T: Drop>(buf: &mut Buf<T>, head: usize, len: usize, i: usize) -> usize
    requires ring { IsRing buf.old head len }
    requires room { len < length buf.old }
    requires place { i ≤ len }
    ensures gap { HasGap buf.new result i }
    ensures items { somes (turned result buf.new) ≡ somes (turned head buf.old) }
    ensures places { length buf.new ≡ length buf.old }
{
    if i < len - i {
        let capacity = buf.capacity();
        let before = wrapped(head, capacity - 1, capacity);
        gap_up(buf, before, 0, i);
        return before;
    }
    gap_down(buf, head, len, i);
    head
}

/// The empty place before item `i` of the `len` items from `head` on goes: the fewer of the items before it and of
/// those behind it move by one place. Answers where the first item stands then.
pub fn close_gap<T: Drop>(buf: &mut Buf<T>, head: usize, len: usize, i: usize) -> usize
    requires gap { HasGap buf.old head i }
    requires count { length (somes (turned head buf.old)) ≡ len }
    ensures ring { IsRing buf.new result len }
    ensures items { somes (turned result buf.new) ≡ somes (turned head buf.old) }
    ensures places { length buf.new ≡ length buf.old }
{
    if i < len - i {
        gap_down(buf, head, i, 0);
        return wrapped(head, 0, buf.capacity()) + 1;
    }
    gap_up(buf, head, i, len);
    head
}

/// The gap before item `from` moves up, until it is before item `to`: the items between move down by one place, by at
/// most three moves of memory.
fn gap_up<T: Drop>(buf: &mut Buf<T>, head: usize, from: usize, to: usize)
    requires gap { HasGap buf.old head from }
    requires order { from ≤ to }
    requires within { to ≤ length (somes (turned head buf.old)) }
    ensures gap { HasGap buf.new head to }
    ensures items { somes (turned head buf.new) ≡ somes (turned head buf.old) }
    ensures places { length buf.new ≡ length buf.old }
{
    let mut k = from;
    while k < to {
        k += slide_up(buf, head, k, to - k);
    }
}

/// The gap before item `k` moves up by one move of memory, as far as the end of the buffer lets it, but by no more
/// than `n` items. Answers by how many.
fn slide_up<T: Drop>(buf: &mut Buf<T>, head: usize, k: usize, n: usize) -> usize
    requires gap { HasGap buf.old head k }
    requires some { 0 < n }
    requires within { k + n ≤ length (somes (turned head buf.old)) }
    ensures gap { HasGap buf.new head (k + result) }
    ensures items { somes (turned head buf.new) ≡ somes (turned head buf.old) }
    ensures places { length buf.new ≡ length buf.old }
    ensures some { 0 < result }
    ensures most { result ≤ n }
{
    let capacity = buf.capacity();
    let gap = wrapped(head, k, capacity);
    if gap + 1 == capacity {
        let item = buf.take(0);
        buf.put(gap, item);
        return 1;
    }
    let moved = lesser(n, capacity - 1 - gap);
    buf.shift(gap + 1, gap, moved);
    moved
}

/// The gap before item `from` moves down, until it is before item `to`: the items between move up by one place, by at
/// most three moves of memory.
fn gap_down<T: Drop>(buf: &mut Buf<T>, head: usize, from: usize, to: usize)
    requires gap { HasGap buf.old head from }
    requires order { to ≤ from }
    ensures gap { HasGap buf.new head to }
    ensures items { somes (turned head buf.new) ≡ somes (turned head buf.old) }
    ensures places { length buf.new ≡ length buf.old }
{
    let mut k = from;
    while to < k {
        k -= slide_down(buf, head, k, k - to);
    }
}

/// The gap before item `k` moves down by one move of memory, as far as the beginning of the buffer lets it, but by no
/// more than `n` items. Answers by how many.
fn slide_down<T: Drop>(buf: &mut Buf<T>, head: usize, k: usize, n: usize) -> usize
    requires gap { HasGap buf.old head k }
    requires some { 0 < n }
    requires within { n ≤ k }
    ensures gap { HasGap buf.new head (k - result) }
    ensures items { somes (turned head buf.new) ≡ somes (turned head buf.old) }
    ensures places { length buf.new ≡ length buf.old }
    ensures some { 0 < result }
    ensures most { result ≤ n }
{
    let capacity = buf.capacity();
    let gap = wrapped(head, k, capacity);
    if gap == 0 {
        let item = buf.take(capacity - 1);
        buf.put(0, item);
        return 1;
    }
    let moved = lesser(n, gap);
    let place = gap - moved;
    buf.shift(place, place + 1, moved);
    moved
}
