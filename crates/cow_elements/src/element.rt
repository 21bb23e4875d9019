ghost use Rattle.std.specs.Prelude.{◌≡◌, ◌≤◌, ◌++◌, ◌↔◌, IsTrue, IfOk, OnOk, OnErr};
ghost use Rattle.std.specs.Io.{StartsWith};
ghost use Rattle.cow_model.specs.Literals.{FitsText};
ghost use Rattle.cow_model.specs.Printed.{atom_text};
ghost use Rattle.cow_model.specs.Purse.{less, noted, unit_if};
ghost use Rattle.std.proofs.Common.{rules};

use cow_cell::{Holder, Stock};
use cow_item::{Atom, Equivalent, Item, Key, Text};
use cow_model::{Literal, NoMemory};
use cow_print::put_atom;
use std::alloc::Global;
use std::marker::PhantomData;

/// What the collections of a script hold: a key that is made of a literal and that is printed. One copy
/// of it counts one.
pub trait Element<Q: Stock>: Key<Q> {
    /// The element of a literal, which nobody has counted: `copied` stays, and spare falls by the element's
    /// units. Whoever makes a run of elements by it counts the run.
    fn uncounted(alloc: Global, literal: &Literal, h: &mut Holder<Q>) -> Result<Self, NoMemory>
        requires length { FitsText literal.now }
        requires spare { 1 ≤ h.old.spare }
        ensures ok { IfOk result (λ x. Self.plain x ≡ literal.now) }
        ensures spent { OnOk result (h.new ≡ less (unit_if (Self.is_counted literal.now)) h.old) }
        ensures refused { OnErr result (h.new ≡ h.old) };

    /// The same, counted: `copied` rises by one.
    fn read(alloc: Global, literal: &Literal, h: &mut Holder<Q>) -> Result<Self, NoMemory>
        requires length { FitsText literal.now }
        requires spare { 1 ≤ h.old.spare }
        ensures ok { IfOk result (λ x. Self.plain x ≡ literal.now) }
        ensures spent { OnOk result
            (h.new ≡ noted 1 (less (unit_if (Self.is_counted literal.now)) h.old)) }
        ensures refused { OnErr result (h.new ≡ h.old) }
    {
        let x = Self::uncounted(alloc, literal, h)?;
        h.note(1);
        Ok(x)
    }

    /// Appends the printed form. Want of memory leaves a part of it.
    fn put(&self, text: &mut Vec<u8>) -> Result<(), NoMemory>
        ensures ok { OnOk result
            (text.new.items ≡ text.old.items ++ atom_text (Self.plain self.now)) }
        ensures front { StartsWith text.new.items text.old.items };

    /// Whether its plain value is the literal. Takes no memory.
    fn is_literal(&self, literal: &Literal) -> bool
        ensures { IsTrue result ↔ (Self.plain self.now ≡ literal.now) };

    /// The hash of the element of the literal. Takes no memory.
    fn literal_hash(literal: &Literal) -> u32
        ensures { result ≡ Self.hash_of literal.now };

    ghost weighs_one: { Self.WEIGHT ≡ 1 };
}

/// A literal by which an element of type `T` is looked for, of which no element is made.
#[derive(Drop)]
pub struct Sought<'a, T> {
    literal: &'a Literal,
    element: PhantomData<T>,
}

impl<'a, T> Sought<'a, T> {
    /// What is looked for is the element of `literal`.
    pub fn by(literal: &'a Literal) -> Sought<'a, T>
        ensures { result.literal.now ≡ literal.now }
    {
        Sought {
            literal,
            element: PhantomData,
        }
    }
}

impl<'a, T: Element<Q>, Q: Stock> Equivalent<T, Q> for Sought<'a, T> {
    ghost sought = { λ s. s.literal.now };

    fn sought_hash(&self) -> u32 {
        T::literal_hash(self.literal)
    }

    fn stands_for(&self, key: &T) -> bool {
        key.is_literal(self.literal)
    }
}

impl<Q: Stock> Element<Q> for Atom<Q> {
    fn uncounted(alloc: Global, literal: &Literal, h: &mut Holder<Q>) -> Result<Atom<Q>, NoMemory> {
        match literal {
            Literal::Int(x) => Ok(Atom::Int(*x)),
            Literal::Text(bytes) => Ok(Atom::Text(Text::new(alloc, bytes.as_slice(), h)?)),
        }
    }

    fn put(&self, text: &mut Vec<u8>) -> Result<(), NoMemory> {
        put_atom(text, self)
    }

    fn is_literal(&self, literal: &Literal) -> bool {
        match (self, literal) {
            (Atom::Int(x), Literal::Int(y)) => *x == *y,
            (Atom::Text(text), Literal::Text(bytes)) => text.bytes() == bytes.as_slice(),
            _ => false,
        }
    }

    fn literal_hash(literal: &Literal) -> u32 {
        Equivalent::<Atom<Q>, Q>::sought_hash(literal)
    }

    ghost weighs_one = { Prim.search rules };
}
