ghost use Rattle.std.specs.Prelude.{◌≡◌, ℤ, false};
ghost use Rattle.cow_lazy.specs.Operands.{integer};
ghost use Rattle.cow_model.specs.declared.plain.Literal.TheVariants.{Int};
ghost use Rattle.std.proofs.Common.{refl};

use cow_cell::Stock;
use cow_item::{Atom, Item};

/// An element that may be an integer. A view asks its rule about integers alone. No call takes memory.
pub trait Operand<Q: Stock>: Item<Q> {
    /// The integer that it is; `None` exactly where it is none.
    fn integer(&self) -> Option<i64>
        ensures { result ≡ integer (Self.plain self.now) };

    /// The element of an integer, which nobody has counted.
    fn of_integer(x: i64) -> Self
        ensures plain { Self.plain result ≡ Int x }
        ensures settled { Self.IsSettled result };

    /// An integer has no unit.
    ghost integer_is_free: { (x : ℤ) → Self.is_counted (Int x) ≡ false };
}

impl<Q: Stock> Operand<Q> for Atom<Q> {
    fn integer(&self) -> Option<i64> {
        match self {
            Atom::Int(x) => Some(*x),
            Atom::Text(_) => None,
        }
    }

    fn of_integer(x: i64) -> Self {
        Atom::Int(x)
    }

    ghost integer_is_free = { λ x. refl };
}

impl<Q: Stock> Operand<Q> for i64 {
    fn integer(&self) -> Option<i64> {
        Some(*self)
    }

    fn of_integer(x: i64) -> Self {
        x
    }

    ghost integer_is_free = { λ x. refl };
}
