ghost use Rattle.std.specs.Prelude.{◌≡◌, ◌↔◌, length, min, take, Some, Contains, IsOk, IsErr, IfOk};
ghost use Rattle.std.specs.Io.{ReadsAtMost, WritesAtMost};
ghost use Rattle.std.specs.Io.KnownBytes.{ReadConsumes, WriteAppends};
ghost use Rattle.cow_port.specs.Causes.{HasCause, TakesSome, one_more};
ghost use Rattle.cow_port.specs.Kept.{rest_of, KeepsSource, KeepsSink};

use crate::port::{Failed, Sink, Source, counted};

// Copies the front of `rest` to the front of `room`, at most `most` bytes, and answers how many.
fn fill(room: &mut [u8], rest: &[u8], most: usize) -> usize
    ensures count { result ≡ min (min (length rest.now) (length room.old)) most }
    ensures front { take result room.new ≡ take result rest.now }
{
    let count = rest.len().min(room.len()).min(most);
    room[..count].copy_from_slice(&rest[..count]);
    count
}

/// A source over bytes in memory, which never fails.
#[derive(Debug, Drop)]
pub struct PlainSource {
    pub bytes: Vec<u8>,
    /// How many of them were read.
    pub at: usize,
}

impl Source for PlainSource {
    ghost left = { λ s. rest_of s.bytes.items s.at };

    ghost faults = { λ _. 0 };

    fn read(&mut self, room: &mut [u8]) -> Result<usize, Failed>
        ensures bound { ReadsAtMost result room.new }
        ensures bytes { ReadConsumes (rest_of self.old.bytes.items self.old.at)
            (rest_of self.new.bytes.items self.new.at) result room.new }
        ensures cause { HasCause 0 0 result }
        ensures never { IsOk result }
        ensures kept { self.new.bytes ≡ self.old.bytes }
    {
        if self.at >= self.bytes.len() {
            return Ok(0);
        }
        let count = fill(room, &self.bytes[self.at..], usize::MAX);
        self.at += count;
        Ok(count)
    }
}

/// A source over bytes in memory that gives them in parts and fails where it is told to.
#[derive(Debug, Drop)]
pub struct MemorySource {
    pub bytes: Vec<u8>,
    /// How many of them were read.
    pub at: usize,
    /// The most bytes that a call gives, where 0 counts as 1.
    pub most: usize,
    /// How often it was called, up to `u64::MAX`.
    pub calls: u64,
    /// The numbers of the calls that fail, counted from 1.
    pub failing: Vec<u64>,
    /// How often it has failed, up to `u64::MAX`.
    pub faults: u64,
}

impl Source for MemorySource {
    ghost left = { λ s. rest_of s.bytes.items s.at };

    ghost faults = { λ s. s.faults };

    fn read(&mut self, room: &mut [u8]) -> Result<usize, Failed>
        ensures bound { ReadsAtMost result room.new }
        ensures bytes { ReadConsumes (rest_of self.old.bytes.items self.old.at)
            (rest_of self.new.bytes.items self.new.at) result room.new }
        ensures cause { HasCause self.old.faults self.new.faults result }
        ensures fails { IsErr result ↔ Contains self.old.failing.items (one_more self.old.calls) }
        ensures kept { KeepsSource self.old self.new }
    {
        self.calls = self.calls.saturating_add(1);
        if self.failing.contains(&self.calls) {
            return Err(counted(&mut self.faults));
        }
        if self.at >= self.bytes.len() {
            return Ok(0);
        }
        let part = fill(room, &self.bytes[self.at..], self.most.max(1));
        self.at += part;
        Ok(part)
    }
}

/// A sink in memory that takes bytes in parts and fails where it is told to. It never grows: where `bytes`
/// has no free capacity, a piece that isn't empty is a fault.
#[derive(Debug, Drop)]
pub struct MemorySink {
    pub bytes: Vec<u8>,
    /// The most bytes that a call takes, where 0 counts as 1.
    pub most: usize,
    /// How often it was called, up to `u64::MAX`.
    pub calls: u64,
    /// The numbers of the calls that fail, counted from 1.
    pub failing: Vec<u64>,
    /// How often it has failed, up to `u64::MAX`.
    pub faults: u64,
}

impl Sink for MemorySink {
    ghost held = { λ s. Some s.bytes.items };

    ghost faults = { λ s. s.faults };

    fn write(&mut self, piece: &[u8]) -> Result<usize, Failed>
        ensures bound { WritesAtMost result piece.now }
        ensures some { IfOk result (λ n. TakesSome n piece.now) }
        ensures bytes { WriteAppends (Some self.old.bytes.items) (Some self.new.bytes.items) result piece.now }
        ensures cause { HasCause self.old.faults self.new.faults result }
        ensures fails { Contains self.old.failing.items (one_more self.old.calls) → IsErr result }
        ensures kept { KeepsSink self.old self.new }
    {
        self.calls = self.calls.saturating_add(1);
        let free = self.bytes.capacity() - self.bytes.len();
        let count = piece.len().min(free).min(self.most.max(1));
        if self.failing.contains(&self.calls) || (count == 0 && !piece.is_empty()) {
            return Err(counted(&mut self.faults));
        }
        match self.bytes.extend_from_slice(&piece[..count]) {
            Ok(()) => Ok(count),
            Err(_) => Err(counted(&mut self.faults)),
        }
    }
}
