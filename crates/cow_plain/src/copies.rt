// Whole copies of plain data.
ghost use Rattle.std.specs.Prelude.{◌≡◌, IfOk};

use crate::lists::copied;
use crate::operation::{Listed, Mapped};
use cow_model::{Bytes, Entry, Literal, Name, NoMemory, Pair, Plain};
use std::alloc::Global;

/// Plain data that can be copied whole.
pub trait Whole: Drop {
    /// A copy of its own.
    fn whole(&self, alloc: Global) -> Result<Self, NoMemory>
        ensures { IfOk result (λ copy. copy ≡ self.now) };
}

impl Whole for Literal {
    fn whole(&self, alloc: Global) -> Result<Self, NoMemory> {
        match self {
            Literal::Int(number) => Ok(Literal::Int(*number)),
            Literal::Text(bytes) => {
                let bytes = Vec::from_slice(alloc, bytes.as_slice())?;
                Ok(Literal::Text(Bytes::from_vec(bytes)))
            }
        }
    }
}

impl Whole for Pair {
    fn whole(&self, alloc: Global) -> Result<Self, NoMemory> {
        let key = self.key.whole(alloc)?;
        let value = self.value.whole(alloc)?;
        Ok(Pair { key, value })
    }
}

// A slice, copied.
fn slice(alloc: Global, start: u64, items: &[Literal]) -> Result<Plain, NoMemory>
    ensures { IfOk result (λ copy. copy ≡ Plain.Slice start items.now) }
{
    let items = copied(alloc, items)?;
    Ok(Plain::Slice { start, items })
}

impl Whole for Plain {
    fn whole(&self, alloc: Global) -> Result<Self, NoMemory> {
        match self {
            Plain::Array(items) => Listed::Array.copied(alloc, items.as_slice()),
            Plain::Slice { start, items } => slice(alloc, *start, items.as_slice()),
            Plain::Deque(items) => Listed::Deque.copied(alloc, items.as_slice()),
            Plain::Set(items) => Listed::Set.copied(alloc, items.as_slice()),
            Plain::Dict(pairs) => Mapped::Dict.copied(alloc, pairs.as_slice()),
            Plain::OSet(items) => Listed::OSet.copied(alloc, items.as_slice()),
            Plain::ODict(pairs) => Mapped::ODict.copied(alloc, pairs.as_slice()),
            Plain::Heap(items) => Listed::Heap.copied(alloc, items.as_slice()),
            Plain::TSet(items) => Listed::TSet.copied(alloc, items.as_slice()),
            Plain::TDict(pairs) => Mapped::TDict.copied(alloc, pairs.as_slice()),
        }
    }
}

impl Whole for Entry {
    fn whole(&self, alloc: Global) -> Result<Self, NoMemory> {
        let name = Name::from_vec(Vec::from_slice(alloc, self.name.as_slice())?);
        let value = self.value.whole(alloc)?;
        Ok(Entry {
            name,
            value,
            alone: self.alone,
        })
    }
}
