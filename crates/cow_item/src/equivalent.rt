// What a key can be looked for by without a key being made.
ghost use Rattle.std.specs.Prelude.{◌≡◌, ◌↔◌, IsTrue};
ghost use Rattle.cow_model.specs.declared.plain.Literal.{Literal as Plain};

use crate::atom::Atom;
use crate::hash;
use crate::item::Key;
use cow_cell::Stock;
use cow_model::Literal;

/// What stands for a key when one is looked for, after `Equivalent` of the crate of that name: a key itself, or
/// a plain value of which no key is made. No call takes memory.
pub trait Equivalent<K: Key<Q>, Q: Stock> {
    /// The plain value of the key that is looked for.
    ghost sought: { Self → Plain };

    /// The hash of a key of that plain value.
    fn sought_hash(&self) -> u32
        ensures { result ≡ K.hash_of (sought self.now) };

    /// Whether a key has that plain value.
    fn stands_for(&self, key: &K) -> bool
        ensures { IsTrue result ↔ (K.plain key.now ≡ sought self.now) };
}

impl<K: Key<Q>, Q: Stock> Equivalent<K, Q> for K {
    ghost sought = { K.plain };

    fn sought_hash(&self) -> u32 {
        self.hash()
    }

    fn stands_for(&self, key: &K) -> bool {
        key.same(self)
    }
}

impl<Q: Stock> Equivalent<Atom<Q>, Q> for Literal {
    ghost sought = { λ literal. literal };

    fn sought_hash(&self) -> u32 {
        match self {
            Literal::Int(x) => hash::of_int(*x),
            Literal::Text(bytes) => hash::of_bytes(bytes.as_slice()),
        }
    }

    fn stands_for(&self, key: &Atom<Q>) -> bool {
        match (self, key) {
            (Literal::Int(x), Atom::Int(y)) => *x == *y,
            (Literal::Text(bytes), Atom::Text(text)) => text.bytes() == bytes.as_slice(),
            _ => false,
        }
    }
}
