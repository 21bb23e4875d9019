ghost use Rattle.std.specs.Prelude.{◌≡◌, ◌≤◌, IfOk, OnOk, OnErr};
ghost use Rattle.cow_model.specs.Purse.{less, noted, unit_if};
ghost use Rattle.cow_model.specs.Hash.{literal_hash};
ghost use Rattle.cow_model.proofs.Hashes.{literal_fits};
ghost use Rattle.cow_model.specs.Literals.{is_text, FitsText};
ghost use Rattle.cow_item.specs.Atoms.{plain_of_atom, IsSettledAtom};
ghost use Rattle.std.proofs.Common.{rules};

use crate::item::{Item, Key};
use crate::text::Text;
use cow_cell::{Holder, Stock};
use cow_model::{Literal, NoMemory};
use std::alloc::Global;
use std::cmp::Ordering;

/// An element of a script's collections: an integer, or a counted text.
#[derive(Drop)]
pub enum Atom<Q: Stock> {
    Int(i64),
    Text(Text<Q>),
}

impl<Q: Stock> Atom<Q> {
    /// The atom of a literal, which stays in the script: so `copied` rises by one, and spare falls by the
    /// atom's units.
    pub fn read(alloc: Global, literal: &Literal, h: &mut Holder<Q>) -> Result<Atom<Q>, NoMemory>
        requires length { FitsText literal.now }
        requires spare { 1 ≤ h.old.spare }
        ensures ok { IfOk result (λ a. plain_of_atom a ≡ literal.now) }
        ensures spent { OnOk result (h.new ≡ noted 1 (less (unit_if (is_text literal.now)) h.old)) }
        ensures refused { OnErr result (h.new ≡ h.old) }
    {
        match literal {
            Literal::Int(x) => {
                h.note(1);
                Ok(Atom::Int(*x))
            }
            Literal::Text(bytes) => {
                let text = Text::new(alloc, bytes.as_slice(), h)?;
                h.note(1);
                Ok(Atom::Text(text))
            }
        }
    }
}

impl<Q: Stock> Item<Q> for Atom<Q> {
    const WEIGHT: u64 = 1;

    ghost WEIGHT = { 1 };

    ghost plain = { plain_of_atom };

    ghost IsSettled = { IsSettledAtom };

    ghost is_counted = { is_text };

    fn twin(&self, h: &mut Holder<Q>) -> Self {
        match self {
            Atom::Int(x) => Atom::Int(*x),
            Atom::Text(t) => Atom::Text(t.twin(h)),
        }
    }

    fn settle(&mut self) {
        match self {
            Atom::Int(_) => {}
            Atom::Text(t) => t.settle(),
        }
    }

    fn end(self, h: &mut Holder<Q>) {
        match self {
            Atom::Int(_) => {}
            Atom::Text(t) => t.end(h),
        }
    }

    ghost weighs_little = { Prim.search rules };
}

impl<Q: Stock> Key<Q> for Atom<Q> {
    ghost hash_of = { literal_hash };

    fn hash(&self) -> u32 {
        match self {
            Atom::Int(x) => <i64 as Key<Q>>::hash(x),
            Atom::Text(t) => t.hash(),
        }
    }

    fn same(&self, other: &Self) -> bool {
        match (self, other) {
            (Atom::Int(x), Atom::Int(y)) => *x == *y,
            (Atom::Text(s), Atom::Text(t)) => s.same(t),
            _ => false,
        }
    }

    fn order(&self, other: &Self) -> Ordering {
        match (self, other) {
            (Atom::Int(x), Atom::Int(y)) => x.cmp(y),
            (Atom::Int(_), Atom::Text(_)) => Ordering::Less,
            (Atom::Text(_), Atom::Int(_)) => Ordering::Greater,
            (Atom::Text(s), Atom::Text(t)) => s.order(t),
        }
    }

    ghost hash_fits = { literal_fits };
}
