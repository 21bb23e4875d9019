// Values by what they are lists of.
ghost use Rattle.std.specs.Prelude.{◌≡◌, IfOk};
ghost use Rattle.cow_plain.specs.Kinds.{of_items, of_pairs};

use crate::lists::copied;
use cow_model::{Literal, NoMemory, Pair, Plain};
use sqlite_items::Items;
use std::alloc::Global;

/// A kind of values that are lists of atoms.
#[derive(Clone, Copy, Debug)]
pub enum Listed {
    Array,
    Deque,
    Set,
    OSet,
    Heap,
    TSet,
}

impl Listed {
    /// The value of these atoms.
    pub fn of(self, items: Items<Literal>) -> Plain
        ensures { result ≡ of_items self items }
    {
        match self {
            Listed::Array => Plain::Array(items),
            Listed::Deque => Plain::Deque(items),
            Listed::Set => Plain::Set(items),
            Listed::OSet => Plain::OSet(items),
            Listed::Heap => Plain::Heap(items),
            Listed::TSet => Plain::TSet(items),
        }
    }

    /// The value of copies of these atoms.
    pub fn copied(self, alloc: Global, items: &[Literal]) -> Result<Plain, NoMemory>
        ensures { IfOk result (λ value. value ≡ of_items self items.now) }
    {
        Ok(self.of(copied(alloc, items)?))
    }
}

/// A kind of values that are lists of pairs.
#[derive(Clone, Copy, Debug)]
pub enum Mapped {
    Dict,
    ODict,
    TDict,
}

impl Mapped {
    /// The value of these pairs.
    pub fn of(self, pairs: Items<Pair>) -> Plain
        ensures { result ≡ of_pairs self pairs }
    {
        match self {
            Mapped::Dict => Plain::Dict(pairs),
            Mapped::ODict => Plain::ODict(pairs),
            Mapped::TDict => Plain::TDict(pairs),
        }
    }

    /// The value of copies of these pairs.
    pub fn copied(self, alloc: Global, pairs: &[Pair]) -> Result<Plain, NoMemory>
        ensures { IfOk result (λ value. value ≡ of_pairs self pairs.now) }
    {
        Ok(self.of(copied(alloc, pairs)?))
    }
}
