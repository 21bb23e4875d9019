//! What one task may spend, and what it counts.
ghost use Rattle.std.specs.Prelude.{◌≡◌, ℕ, ◌+◌, ◌-◌, ◌^◌, ◌<◌, ◌≤◌};
ghost use Rattle.cow_model.specs.Purse.{Purse, less, more, noted, whole, part};
ghost use Rattle.cow_cell.specs.Opens.{Opens};

use crate::units::{Opening, Stock, Units};
use std::marker::Model;

/// Units of the stock `Q` that no handle has, and the number of items that were copied with it.
///
/// A call that makes, ends, tests or copies handles takes a holder last. Contracts see its two numbers
/// as a `Purse`. No call of it takes memory or makes an atomic step.
#[derive(Drop)]
pub struct Holder<Q: Stock> {
    pub(crate) spare: u64,
    pub(crate) copied: u64,
    pub(crate) units: Units<Q>,
}

impl<Q: Stock> Model for Holder<Q> {
    ghost use Rattle.std.specs.Prelude.{◌≡◌, ◌≤◌, ◌^◌};
    ghost use Rattle.cow_model.specs.Purse.{Purse};

    ghost Value = { Purse };

    ghost view = { λ h. record { spare = h.spare; copied = h.copied } };

    ghost invariant = { λ h. (h.units.count ≡ h.spare) × (h.spare ≤ 2 ^ 62) };
}

impl<Q: Stock> Holder<Q> {
    /// The holder of a new stock: all of its 2^62 units, and no copies.
    pub fn fresh(opening: Opening) -> Holder<Q>
        requires { Opens Q.Stock opening }
        ensures { result ≡ whole }
    {
        Holder {
            spare: 0x4000_0000_0000_0000,
            copied: 0,
            units: opening.open::<Q>(),
        }
    }

    /// The units that it has left. With 2^62 of them no handle of its stock is live.
    pub fn spare(&self) -> u64
        ensures value { result ≡ self.now.spare }
        ensures bound { result ≤ 2 ^ 62 }
    {
        self.spare
    }

    /// The items that were copied with it, or 2^64 - 1 where they are more.
    pub fn copied(&self) -> u64
        ensures { result ≡ self.now.copied }
    {
        self.copied
    }

    /// Counts n more copied items. The number stands still at 2^64 - 1.
    pub fn note(&mut self, n: u64)
        ensures { self.new ≡ noted n self.old }
    {
        self.copied = self.copied.saturating_add(n);
    }

    /// A holder of n of its units and of no copies, for another task.
    pub fn split(&mut self, n: u64) -> Holder<Q>
        requires { n ≤ self.old.spare }
        ensures part { result ≡ part n }
        ensures rest { self.new ≡ less n self.old }
    {
        let units = self.units.take(n);
        self.spare -= n;
        Holder {
            spare: n,
            copied: 0,
            units,
        }
    }

    /// Takes in the units and the copies of another holder of its stock.
    pub fn join(&mut self, other: Holder<Q>)
        ensures sum { self.new ≡ noted other.copied (more other.spare self.old) }
        ensures bound { self.new.spare ≤ 2 ^ 62 }
    {
        let Holder {
            spare,
            copied,
            units,
        } = other;
        self.units.put(units);
        self.spare += spare;
        self.copied = self.copied.saturating_add(copied);
    }
}
