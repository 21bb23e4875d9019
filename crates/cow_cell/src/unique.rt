//! The two ways to the value for writing: the step that tests whether a handle is the only one of its
//! block, and, where that is known, one read of the pointer.
ghost use Rattle.std.specs.Prelude.{◌≡◌, ℕ, ◌+◌, ◌-◌, ◌^◌, ◌<◌, ◌≤◌, Bool, true, false, IfSome, IsSome, IsNone};
ghost use types.Logic.{sem};
ghost use Rattle.cow_cell.specs.Follows.{follows_unique, follows_only};

use crate::counted::Counted;
use crate::units::{Stock, Units};
use std::marker::Brand;
use std::sync::atomic::Ordering::SeqCst;
use std::sync::atomic::raw;

impl<T, Q: Stock> Counted<T, Q> {
    // One load. Where it finds 1, the value is lent for writing, and the handle is alone. Where it
    // finds more, the units at hand, this handle's and another's are three parts of the stock.
    pub(crate) fn unique(&mut self, units: &mut Units<Q>) -> Option<&mut T>
        ensures* writes_back { sem 𝓛 (follows_unique T.row Q.row Q.Stock self.entry result) }
        ensures told { (units.new.count ≡ units.old.count)
            × IfSome result (λ x. x.now ≡ self.old.value)
            × (self.old.alone ≡ true → IsSome result)
            × (IsNone result → units.old.count + 1 < 2 ^ 62)
            × (units.old.count < 2 ^ 62) }
    {
        let _ = units;
        let at = self.at;
        let found = unsafe { raw::load::<Brand>(&raw const (*at).count, SeqCst) };
        if found != 1 {
            return None;
        }
        unsafe { Some(&mut (*at).value) }
    }

    /// The value, for writing, of a handle that is alone: what `sole` lends, where its answer is known. The
    /// handle stays alone, and shows what the reference holds as it ends.
    ///
    /// No atomic step and no test: one read of a pointer, as Rust's `Arc::get_mut_unchecked`. Takes no memory.
    pub fn only(&mut self) -> &mut T
        requires { self.old.alone ≡ true }
        ensures* writes_back { sem 𝓛 (follows_only T.row Q.row Q.Stock self.entry result) }
        ensures value { result.now ≡ self.old.value }
    {
        let at = self.at;
        unsafe { &mut (*at).value }
    }
}
