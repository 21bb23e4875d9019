//! A handle, its life from the first to the last of its block, and what crosses to another thread.
ghost use Rattle.std.specs.Prelude.{◌≡◌, ℕ, ◌+◌, ◌-◌, ◌^◌, ◌<◌, ◌≤◌, Bool, true, false, IfSome, IsSome, IsNone};
ghost use Rattle.cow_cell.specs.Cell.{cell_owns, cell_shares};

use crate::block::Block;
use crate::raw_box::RawBox;
use crate::units::{Stock, Units};
use std::alloc::Global;
use std::marker::{Brand, Model, PhantomData};
use std::sync::atomic::Ordering::SeqCst;
use std::sync::atomic::raw;

/// One handle of a block that keeps a count and a `T`. It is one pointer.
///
/// Contracts see the `value` that it shows, and whether it is `alone`: whether it is known that no
/// other handle of its block is live. Both are ghost values.
pub struct Counted<T, Q: Stock> {
    pub(crate) at: *mut Block<T>,
    alloc: Global,
    marker: PhantomData<Q>,
    pub ghost value: { T },
    pub ghost alone: { Bool },
}

impl<T, Q: Stock> Model for Counted<T, Q> {
    ghost also_owns = { λ c. cell_owns T.row Q.name c.alloc c.at c.alone c.value };

    ghost also_shares = { λ c _ κ. cell_shares T.row Q.name c.alloc c.at c.alone c.value κ };
}

impl<T, Q: Stock> Counted<T, Q> {
    // The first handle. Its unit goes into the block, whose count is 1 already.
    pub(crate) fn of(block: RawBox<Block<T>, Global>, units: &mut Units<Q>) -> Counted<T, Q>
        requires { (block.value.count ≡ 1) × (0 < units.old.count) }
        ensures { (result.value ≡ block.value.value)
            × (result.alone ≡ true)
            × (units.new.count + 1 ≡ units.old.count) }
    {
        let RawBox { at, alloc } = block;
        let _ = units;
        Counted {
            at,
            alloc,
            marker: PhantomData,
        }
    }

    // One more handle, by one fetch_add. A unit goes into the block, where this handle's is already.
    pub(crate) fn retain(&self, units: &mut Units<Q>) -> Counted<T, Q>
        requires { (self.now.alone ≡ false) × (0 < units.old.count) }
        ensures { (result ≡ self.now)
            × (units.new.count + 1 ≡ units.old.count)
            × (units.old.count < 2 ^ 62) }
    {
        let _ = units;
        let at = self.at;
        unsafe { raw::fetch_add::<Brand>(&raw const (*at).count, 1, SeqCst) };
        Counted {
            at,
            alloc: self.alloc,
            marker: PhantomData,
        }
    }

    // One handle less, by one fetch_sub. A unit comes out of the block. The last handle has the block,
    // and every other one leaves a unit in it.
    pub(crate) fn release(self, units: &mut Units<Q>) -> Option<RawBox<Block<T>, Global>>
        ensures { (units.new.count ≡ units.old.count + 1)
            × (units.new.count ≤ 2 ^ 62)
            × IfSome result (λ last. last.value.value ≡ self.value)
            × (self.alone ≡ true → IsSome result)
            × (IsNone result → units.new.count < 2 ^ 62) }
    {
        let Counted {
            at,
            alloc,
            marker: _,
        } = self;
        let _ = units;
        let found = unsafe { raw::fetch_sub::<Brand>(&raw const (*at).count, 1, SeqCst) };
        if found != 1 {
            return None;
        }
        Some(RawBox { at, alloc })
    }
}

/// A release whose unit no holder gets back. The last handle drops the value and frees the block.
impl<T: Drop, Q: Stock> Drop for Counted<T, Q> {
    fn drop(self) {
        let mut lost = Units::none();
        match self.release(&mut lost) {
            None => {}
            Some(last) => drop(last.into_box()),
        }
    }
}

unsafe impl<T: Send + Sync, Q: Stock> Send for Counted<T, Q> {}

unsafe impl<T: Send + Sync, Q: Stock> Sync for Counted<T, Q> {}
