//! The units of a stock, as tokens that take no bytes.
ghost use Rattle.std.specs.Prelude.{◌≡◌, ℕ, ◌+◌, ◌-◌, ◌^◌, ◌<◌, ◌≤◌};
ghost use Rattle.cow_cell.specs.Stock.{units};

use std::marker::{Brand, Model, PhantomData};

/// A type that stands for one stock of 2^62 units. Holders and handles carry it, so that those of two
/// stocks are of two types. Code stays generic over it; `Brand` is put in where a stock is opened.
pub trait Stock {
    // The ghost name of the units.
    ghost name: { ℕ };

    // The ghost name of the numbers of blocks, for handles that can tell their blocks apart.
    ghost ids: { ℕ };
}

impl Stock for Brand {
    ghost name = { 0 };

    ghost ids = { 0 };
}

/// All the units of a new stock, for `Holder::fresh`. Whoever takes one for a type `Q: Stock` asks
/// that `Q` stand for this stock, as `Opens Q.Stock opening` says.
pub struct Opening {
    marker: PhantomData<()>,
    pub ghost name: { ℕ },
    pub ghost ids: { ℕ },
}

impl Model for Opening {
    ghost also_owns = { λ s. units s.name (2 ^ 62) };
}

/// Some units of the stock `Q`.
pub(crate) struct Units<Q: Stock> {
    pub(crate) marker: PhantomData<Q>,
    pub(crate) ghost count: { ℕ },
}

impl<Q: Stock> Model for Units<Q> {
    ghost also_owns = { λ u. units Q.name u.count };
}

impl Opening {
    /// A new stock, of which nothing was lent yet. Takes no memory and makes no step.
    pub fn new() -> Opening {
        Opening {
            marker: PhantomData,
        }
    }

    // From here on the type stands for the stock.
    pub(crate) fn open<Q: Stock>(self) -> Units<Q>
        requires { self.name ≡ Q.name }
        ensures { result.count ≡ 2 ^ 62 }
    {
        let Self { marker: _ } = self;
        Units {
            marker: PhantomData,
        }
    }
}

impl<Q: Stock> Units<Q> {
    // No unit. A drop has no holder at hand, and loses into this the unit that it frees.
    pub(crate) fn none() -> Units<Q>
        ensures { result.count ≡ 0 }
    {
        Units {
            marker: PhantomData,
        }
    }

    // Cuts off n units.
    pub(crate) fn take(&mut self, n: u64) -> Units<Q>
        requires { n ≤ self.old.count }
        ensures { (result.count ≡ n) × (self.new.count + n ≡ self.old.count) }
    {
        let _ = n;
        Units {
            marker: PhantomData,
        }
    }

    // Adds them. No stock has more than 2^62.
    pub(crate) fn put(&mut self, other: Units<Q>)
        ensures { (self.new.count ≡ self.old.count + other.count) × (self.new.count ≤ 2 ^ 62) }
    {
        let Self { marker: _ } = other;
    }
}

impl Drop for Opening {
    fn drop(self) {
        let Self { marker: _ } = self;
    }
}

impl<Q: Stock> Drop for Units<Q> {
    fn drop(self) {
        let Self { marker: _ } = self;
    }
}

unsafe impl Send for Opening {}

unsafe impl<Q: Stock> Send for Units<Q> {}
