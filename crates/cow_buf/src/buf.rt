ghost use Rattle.std.specs.Prelude.{◌≡◌, ℕ, ◌<◌, ◌≤◌, ◌^◌, length, ◌+◌, ◌++◌, map, take, drop, replicate, slice_set, IfOk, Some, None};
ghost use Rattle.std.specs.Borrow.{sem};
ghost use Rattle.std.specs.List.{splice};
ghost use Rattle.cow_buf.specs.Places.{place, IsFilled, IsRun, IsClear, IsClearBut, blanked, shifted};

use crate::memory::Memory;
use cow_model::NoMemory;
use std::alloc::Global;
use std::marker::Model;
use std_alloc::room::may_hold;

/// One block of memory with room for a fixed number of values: a pointer and a number.
///
/// No call but `with_capacity` takes memory. Each is one step, and `shift`, `drain_into` and `move_into` are one
/// move of memory. A buffer doesn't note which places are filled, so it has no drop: whoever has one takes its values
/// out and frees it.
pub struct Buf<T> {
    memory: Memory<T>,
    alloc: Global,
    count: usize,
}

impl<T> Model for Buf<T> {
    ghost use Rattle.std.specs.Prelude.{List, Option};

    ghost Value = { List (Option T) };

    ghost use Rattle.cow_buf.specs.IsBuf.{IsBuf};

    ghost view = { λ b. b.memory.places };

    ghost invariant = { IsBuf };
}

impl<T> Buf<T> {
    ghost use Rattle.cow_buf.specs.BufLends.{lends_place};

    /// `n` empty places, by one allocation and no pass over them. Answers `NoMemory` only for want of memory,
    /// which a block of 2^63 bytes or more is too.
    pub fn with_capacity(alloc: Global, n: usize) -> Result<Buf<T>, NoMemory>
        requires { n ≤ 2 ^ 32 }
        ensures { IfOk result (λ b. b ≡ replicate n None) }
    {
        if !may_hold::<T>(n) {
            return Err(NoMemory);
        }
        match Memory::allocate(&alloc, n) {
            Ok(memory) => Ok(Buf {
                memory,
                alloc,
                count: n,
            }),
            Err(_) => Err(NoMemory),
        }
    }

    /// Frees the block, whose places are all empty.
    pub fn free(self)
        requires { self ≡ replicate (length self) None }
    {
        let Buf {
            memory,
            alloc,
            count,
        } = self;
        memory.free(&alloc, count);
    }

    /// The number of places, filled or empty.
    pub fn capacity(&self) -> usize
        ensures { result ≡ length self.now }
    {
        self.count
    }

    /// Fills an empty place.
    pub fn put(&mut self, i: usize, x: T)
        requires within { i < length self.old }
        requires empty { place self.old i ≡ None }
        ensures { self.new ≡ slice_set self.old i (Some x) }
    {
        self.memory.put(i, x);
    }

    /// Empties a filled place, and answers what it held.
    pub fn take(&mut self, i: usize) -> T
        requires { IsFilled self.old i }
        ensures value { place self.old i ≡ Some result }
        ensures places { self.new ≡ slice_set self.old i None }
    {
        self.memory.take(i)
    }

    /// What a filled place holds.
    pub fn at(&self, i: usize) -> &T
        requires { IsFilled self.now i }
        ensures { place self.now i ≡ Some result.now }
    {
        self.memory.at(i)
    }

    /// What the `n` places from `from` on hold, which are all filled, as one slice.
    pub fn run(&self, from: usize, n: usize) -> &[T]
        requires { IsRun self.now from n }
        ensures { map Some result.now ≡ take n (drop from self.now) }
    {
        self.memory.run(from, n)
    }

    /// What a filled place holds, for writing.
    pub fn at_mut(&mut self, i: usize) -> &mut T
        requires { IsFilled self.old i }
        ensures* writes_back { sem 𝓛 (lends_place T.row self.entry i result) }
        ensures value { place self.old i ≡ Some result.now }
    {
        self.memory.at_mut(i)
    }

    /// Moves the values in the `n` places from `from` on to those from `to` on, which may overlap them. Places
    /// of the new run outside the old one are empty before, and places of the old run outside the new one are
    /// empty after.
    pub fn shift(&mut self, from: usize, to: usize, n: usize)
        requires run { IsRun self.old from n }
        requires to { to + n ≤ length self.old }
        requires clear { IsClearBut self.old to (to + n) from n }
        ensures { self.new ≡ shifted from to n self.old }
    {
        self.memory.move_run(from, to, n);
    }

    /// Moves the values in the first `n` places, which are all there are, to the same places of `other`, which
    /// is empty and at least as long.
    pub fn drain_into(&mut self, other: &mut Buf<T>, n: usize)
        requires run { IsRun self.old 0 n }
        requires rest { IsClear self.old n (length self.old) }
        requires longer { length self.old ≤ length other.old }
        requires empty { other.old ≡ replicate (length other.old) None }
        ensures left { self.new ≡ replicate (length self.old) None }
        ensures came { other.new ≡ self.old ++ drop (length self.old) other.old }
    {
        self.memory.hand_over(&mut other.memory, 0, 0, n);
    }

    /// Moves the values in the `n` places from `from` on to those from `to` on of `other`, which are empty.
    pub fn move_into(&mut self, from: usize, other: &mut Buf<T>, to: usize, n: usize)
        requires run { IsRun self.old from n }
        requires to { to + n ≤ length other.old }
        requires clear { IsClear other.old to (to + n) }
        ensures left { self.new ≡ blanked None from n self.old }
        ensures came { other.new ≡ splice other.old to (to + n) (take n (drop from self.old)) }
    {
        self.memory.hand_over(&mut other.memory, from, to, n);
    }
}
