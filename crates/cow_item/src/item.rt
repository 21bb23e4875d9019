ghost use Rattle.std.specs.Prelude.{◌≡◌, ℕ, ◌*◌, ◌^◌, ◌≤◌, ◌<◌, ◌↔◌, Bool, IsTrue};
ghost use Rattle.cow_model.specs.Purse.{less, more, noted, unit_if};
ghost use Rattle.cow_model.specs.Order.{literal_cmp};
ghost use Rattle.cow_model.specs.declared.plain.Literal.{Literal as Plain};

use cow_cell::{Holder, Stock};
use std::cmp::Ordering;

/// What can be kept in counted storage. No call takes memory.
pub trait Item<Q: Stock>: Sized + Drop {
    /// How many copies one call of `copy` counts: 0 or 1.
    const WEIGHT: u64;

    ghost WEIGHT: { ℕ };

    /// The plain value.
    ghost plain: { Self → Plain };

    /// No handle in it is alone.
    ghost IsSettled: { Self → Type 0 };

    /// Whether an item of this plain value holds a handle, which is one unit. Else it has none.
    ghost is_counted: { Plain → Bool };

    /// A second item of the same plain value, which nobody has counted: `copied` stays, and spare falls by the
    /// item's units. Whoever copies a run of items by it counts the run. At most one atomic fetch_add.
    fn twin(&self, h: &mut Holder<Q>) -> Self
        requires settled { IsSettled self.now }
        requires spare { 1 ≤ h.old.spare }
        ensures same { plain result ≡ plain self.now }
        ensures settled { IsSettled result }
        ensures paid { h.new ≡ less (unit_if (is_counted (plain self.now))) h.old };

    /// The same, counted: `copied` rises by WEIGHT.
    fn copy(&self, h: &mut Holder<Q>) -> Self
        requires settled { IsSettled self.now }
        requires spare { 1 ≤ h.old.spare }
        ensures same { plain result ≡ plain self.now }
        ensures settled { IsSettled result }
        ensures paid { h.new ≡ noted WEIGHT (less (unit_if (is_counted (plain self.now))) h.old) }
    {
        h.note(Self::WEIGHT);
        self.twin(h)
    }

    /// Gives up the knowledge that a handle in it is alone, so that it can be copied. Nothing at run time.
    fn settle(&mut self)
        ensures same { plain self.new ≡ plain self.old }
        ensures settled { IsSettled self.new };

    /// Ends the item, and gives its units back to the holder. Dropping it gives none back. At most one atomic
    /// fetch_sub.
    fn end(self, h: &mut Holder<Q>)
        ensures { h.new ≡ more (unit_if (is_counted (plain self))) h.old };

    /// An item counts as one copy at most.
    ghost weighs_little: { WEIGHT ≤ 1 };
}

/// An item that can be looked up. No call takes memory, and each is a function of plain values.
pub trait Key<Q: Stock>: Item<Q> {
    /// The hash of a key of this plain value, so equal plain values have equal hashes.
    ghost hash_of: { Plain → ℕ };

    /// The hash of 32 bits.
    fn hash(&self) -> u32
        ensures { result ≡ hash_of (Self.plain self.now) };

    /// Whether the plain values are equal.
    fn same(&self, other: &Self) -> bool
        ensures { IsTrue result ↔ (Self.plain self.now ≡ Self.plain other.now) };

    /// The order of the plain values, which is total, and Equal exactly where they are equal: integers come
    /// before lists, integers go by value, lists by their numbers, a proper prefix first.
    fn order(&self, other: &Self) -> Ordering
        ensures { result ≡ literal_cmp (Self.plain self.now) (Self.plain other.now) };

    /// A hash fits 32 bits.
    ghost hash_fits: { (p : Plain) → hash_of p < 2 ^ 32 };
}
