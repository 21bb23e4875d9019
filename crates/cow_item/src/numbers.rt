// Integers, and `()`, whose plain value is 0.
ghost use Rattle.std.specs.Prelude.{pos, false, ⊤};
ghost use Rattle.cow_model.specs.Hash.{literal_hash};
ghost use Rattle.cow_model.proofs.Hashes.{literal_fits};
ghost use Rattle.cow_model.specs.declared.plain.Literal.TheVariants.{Int};
ghost use Rattle.std.proofs.Common.{rules};

use crate::hash;
use crate::item::{Item, Key};
use cow_cell::{Holder, Stock};
use std::cmp::Ordering;

impl<Q: Stock> Item<Q> for i64 {
    const WEIGHT: u64 = 1;

    ghost WEIGHT = { 1 };

    ghost plain = { λ x. Int x };

    ghost IsSettled = { λ _. ⊤ };

    ghost is_counted = { λ _. false };

    fn twin(&self, _h: &mut Holder<Q>) -> Self {
        *self
    }

    fn settle(&mut self) {}

    fn end(self, _h: &mut Holder<Q>) {}

    ghost weighs_little = { Prim.search rules };
}

impl<Q: Stock> Key<Q> for i64 {
    ghost hash_of = { literal_hash };

    fn hash(&self) -> u32 {
        hash::of_int(*self)
    }

    fn same(&self, other: &Self) -> bool {
        *self == *other
    }

    fn order(&self, other: &Self) -> Ordering {
        self.cmp(other)
    }

    ghost hash_fits = { literal_fits };
}

impl<Q: Stock> Item<Q> for () {
    const WEIGHT: u64 = 0;

    ghost WEIGHT = { 0 };

    ghost plain = { λ _. Int (pos 0) };

    ghost IsSettled = { λ _. ⊤ };

    ghost is_counted = { λ _. false };

    fn twin(&self, _h: &mut Holder<Q>) -> Self {}

    fn settle(&mut self) {}

    fn end(self, _h: &mut Holder<Q>) {}

    ghost weighs_little = { Prim.search rules };
}

impl<Q: Stock> Key<Q> for () {
    ghost hash_of = { literal_hash };

    fn hash(&self) -> u32 {
        0
    }

    fn same(&self, _other: &Self) -> bool {
        true
    }

    fn order(&self, _other: &Self) -> Ordering {
        Ordering::Equal
    }

    ghost hash_fits = { literal_fits };
}
