//! Keys whose values count their drops. All of them have one hash.
ghost use Rattle.std.specs.Prelude.{◌≡◌, ◌≤◌, true, false};
ghost use Rattle.cow_model.specs.declared.plain.Literal.TheVariants.{Int};
ghost use Rattle.std.proofs.Common.{rules};

use cow_cell::{Counted, Holder, Stock};
use cow_item::{Item, Key};
use std::alloc::Global;
use std::cmp::Ordering;
use std::sync::Arc;
use std::sync::atomic::AtomicU64;
use std::sync::atomic::Ordering::SeqCst;

/// A number that counts its drop.
struct Dropped {
    number: i64,
    drops: Arc<AtomicU64>,
}

impl Drop for Dropped {
    fn drop(self) {
        let Dropped { number: _, drops } = self;
        drops.fetch_add(1, SeqCst);
    }
}

/// A key: one handle of such a number, which its copies share.
#[derive(Drop)]
pub struct Noted<Q: Stock> {
    cell: Counted<Dropped, Q>,
}

impl<Q: Stock> Item<Q> for Noted<Q> {
    const WEIGHT: u64 = 1;

    ghost WEIGHT = { 1 };

    ghost plain = { λ s. Int s.cell.value.number };

    ghost IsSettled = { λ s. s.cell.alone ≡ false };

    ghost is_counted = { λ _. true };

    fn twin(&self, h: &mut Holder<Q>) -> Self {
        Noted {
            cell: self.cell.share_settled(h),
        }
    }

    fn settle(&mut self) {
        self.cell.settle();
    }

    fn end(self, h: &mut Holder<Q>) {
        let Noted { cell } = self;
        let _last = cell.end(h);
    }

    ghost weighs_little = { Prim.search rules };
}

impl<Q: Stock> Key<Q> for Noted<Q> {
    ghost hash_of = { λ _. 5 };

    fn hash(&self) -> u32 {
        5
    }

    fn same(&self, other: &Self) -> bool {
        self.cell.get().number == other.cell.get().number
    }

    fn order(&self, other: &Self) -> Ordering {
        self.cell.get().number.cmp(&other.cell.get().number)
    }

    ghost hash_fits = { λ _. Prim.search rules };
}

/// A key of this number. Where memory is refused, it is tried once more.
pub fn key_of<Q: Stock>(
    alloc: Global,
    number: i64,
    drops: &Arc<AtomicU64>,
    h: &mut Holder<Q>,
) -> Option<Noted<Q>> {
    if h.spare() == 0 {
        return None;
    }
    let drops = drops.clone().ok()?;
    match Counted::new(alloc, Dropped { number, drops }, h) {
        Ok(cell) => Some(Noted { cell }),
        Err((_refused, dropped)) => match Counted::new(alloc, dropped, h) {
            Ok(cell) => Some(Noted { cell }),
            Err(_) => None,
        },
    }
}
