// One block of memory as a row of places, each of which is empty or holds a value.
ghost use Rattle.std.specs.Prelude.{◌≡◌, ℕ, ◌+◌, ◌<◌, ◌≤◌, min, max, List, Option, Some, None, length, map, take, drop, replicate, slice_set, IfOk};
ghost use Rattle.std.specs.List.{splice};
ghost use Rattle.std.specs.Borrow.{sem};
ghost use Rattle.std.specs.Vec.Ownership.{FitsInBlock};
ghost use Rattle.cow_buf.specs.Places.{place, IsFilled, IsRun, IsClear, IsClearBut, blanked, shifted};
ghost use Rattle.cow_buf.specs.Block.{block_owns, block_lends};

use std::alloc::{AllocError, Allocator, Global};
use std::marker::{Model, Send, Sync};
use std::mem::{align_of, size_of};
use std::{ptr, slice};

// The owner of one block of the global allocator: of the values in its places, and of the right to free it.
pub(crate) struct Memory<T> {
    start: *mut T,
    ghost places: { List (Option T) },
}

impl<T> Model for Memory<T> {
    ghost also_owns = { λ m. block_owns T.row m.start m.places };

    ghost also_shares = { λ m _ κ. block_lends T.row m.start m.places κ };
}

unsafe impl<T: Send> Send for Memory<T> {}

unsafe impl<T: Sync> Sync for Memory<T> {}

impl<T> Memory<T> {
    ghost use Rattle.cow_buf.specs.Follows.{place_follows};

    // A block of `count` empty places.
    pub(crate) fn allocate(heap: &Global, count: usize) -> Result<Memory<T>, AllocError>
        requires { FitsInBlock T.row count }
        ensures { IfOk result (λ m. m.places ≡ replicate count None) }
    {
        match heap.allocate(count * size_of::<T>(), align_of::<T>()) {
            Ok(block) => Ok(Memory {
                start: block as *mut T,
            }),
            Err(refused) => Err(refused),
        }
    }

    // Frees a block of `count` empty places.
    pub(crate) fn free(self, heap: &Global, count: usize)
        requires { self.places ≡ replicate count None }
    {
        let Memory { start } = self;
        unsafe {
            heap.deallocate(start as *mut u8, count * size_of::<T>(), align_of::<T>());
        }
    }

    // Moves a value into an empty place.
    pub(crate) fn put(&mut self, i: usize, x: T)
        requires within { i < length self.old.places }
        requires empty { place self.old.places i ≡ None }
        ensures { self.new.places ≡ slice_set self.old.places i (Some x) }
    {
        unsafe { self.start.add(i).write(x) }
    }

    // Moves the value of a place out.
    pub(crate) fn take(&mut self, i: usize) -> T
        requires { IsFilled self.old.places i }
        ensures value { place self.old.places i ≡ Some result }
        ensures places { self.new.places ≡ slice_set self.old.places i None }
    {
        unsafe { self.start.add(i).read() }
    }

    // Lends the value of a place.
    pub(crate) fn at(&self, i: usize) -> &T
        requires { IsFilled self.now.places i }
        ensures { place self.now.places i ≡ Some result.now }
    {
        unsafe { &*self.start.add(i) }
    }

    // Lends the values of a run.
    pub(crate) fn run(&self, from: usize, n: usize) -> &[T]
        requires { IsRun self.now.places from n }
        ensures { map Some result.now ≡ take n (drop from self.now.places) }
    {
        unsafe { slice::from_raw_parts(self.start.add(from), n) }
    }

    // Lends the value of a place for writing.
    pub(crate) fn at_mut(&mut self, i: usize) -> &mut T
        requires { IsFilled self.old.places i }
        ensures* writes_back { sem 𝓛 (place_follows T.row self.entry i result) }
        ensures value { place self.old.places i ≡ Some result.now }
    {
        unsafe { &mut *self.start.add(i) }
    }

    // One move of memory, where the new run overlaps or touches the old one.
    pub(crate) fn slide(&mut self, from: usize, to: usize, n: usize)
        requires run { IsRun self.old.places from n }
        requires room { to + n ≤ length self.old.places }
        requires clear { IsClearBut self.old.places (min from to) (max from to + n) from n }
        ensures { self.new.places ≡ shifted from to n self.old.places }
    {
        unsafe { ptr::copy(self.start.add(from), self.start.add(to), n) }
    }

    // One copy of memory, where the new run lies apart from the old one.
    pub(crate) fn transfer(&mut self, from: usize, to: usize, n: usize)
        requires run { IsRun self.old.places from n }
        requires room { to + n ≤ length self.old.places }
        requires apart { min from to + n ≤ max from to }
        requires clear { IsClear self.old.places to (to + n) }
        ensures { self.new.places ≡ shifted from to n self.old.places }
    {
        unsafe { ptr::copy_nonoverlapping(self.start.add(from), self.start.add(to), n) }
    }

    // One move of memory, wherever the two runs lie.
    pub(crate) fn move_run(&mut self, from: usize, to: usize, n: usize)
        requires run { IsRun self.old.places from n }
        requires room { to + n ≤ length self.old.places }
        requires clear { IsClearBut self.old.places to (to + n) from n }
        ensures { self.new.places ≡ shifted from to n self.old.places }
    {
        if from.abs_diff(to) < n {
            self.slide(from, to, n);
        } else {
            self.transfer(from, to, n);
        }
    }

    // One copy of memory, where the run goes to another block.
    pub(crate) fn hand_over(&mut self, other: &mut Memory<T>, from: usize, to: usize, n: usize)
        requires run { IsRun self.old.places from n }
        requires room { to + n ≤ length other.old.places }
        requires clear { IsClear other.old.places to (to + n) }
        ensures left { self.new.places ≡ blanked None from n self.old.places }
        ensures came { other.new.places ≡ splice other.old.places to (to + n) (take n (drop from self.old.places)) }
    {
        unsafe { ptr::copy_nonoverlapping(self.start.add(from), other.start.add(to), n) }
    }
}
