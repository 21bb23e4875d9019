//! The calls on handles, but for `only`. `get` reads through the pointer and `settle` has no code; all others
//! are safe code over the steps `retain`, `release` and `unique`.
ghost use Rattle.std.specs.Prelude.{◌≡◌, ℕ, ◌+◌, ◌-◌, ◌^◌, ◌<◌, ◌≤◌, true, false, IfSome, IsSome, IfNone, IfOk, IfErr, OnOk, OnErr};
ghost use types.Logic.{sem};
ghost use Rattle.cow_model.specs.Purse.{less, more};
ghost use Rattle.cow_cell.specs.Follows.{follows_unique};
ghost use Rattle.cow_cell.specs.OneCell.{Took, make, retain, leave, last, finds_one, finds_more};
ghost use Rattle.cow_cell.specs.Words.{unsure, Holds};

use crate::block::Block;
use crate::counted::Counted;
use crate::holder::Holder;
use crate::raw_box::RawBox;
use crate::units::Stock;
use cow_model::NoMemory;
use std::alloc::Global;

impl<T, Q: Stock> Counted<T, Q> {
    /// A new block that shows the value, and its one handle, which is alone. One unit of spare goes
    /// into it.
    ///
    /// Takes one block of memory, of the size of a count and a `T`, and makes no atomic step, since no
    /// other thread knows the block. Answers `NoMemory` only for want of memory; the value comes back,
    /// and nothing has changed.
    pub fn new(alloc: Global, value: T, h: &mut Holder<Q>) -> Result<Counted<T, Q>, (NoMemory, T)>
    where
        T: Drop,
        requires { 1 ≤ h.old.spare }
        ensures made { IfOk result (λ c. Holds value c) }
        ensures paid { OnOk result (h.new ≡ less 1 h.old) }
        ensures back { IfErr result (λ e. e.1 ≡ value) }
        ensures kept { OnErr result (h.new ≡ h.old) }
        ensures step { OnOk result (Took make value h.new) }
    {
        match Box::new(alloc, Block { count: 1, value }) {
            Ok(block) => {
                let made = Counted::of(RawBox::from_box(block), &mut h.units);
                h.spare -= 1;
                Ok(made)
            }
            Err(failed) => {
                let Block { count: _, value } = failed.value;
                Err((NoMemory, value))
            }
        }
    }

    /// A second handle of the block, for one unit of spare. Neither is alone then, and `copied` stays.
    ///
    /// Swift's strong retain: one atomic fetch_add. Takes no memory.
    pub fn share(&mut self, h: &mut Holder<Q>) -> Counted<T, Q>
        requires { 1 ≤ h.old.spare }
        ensures settled { self.new ≡ unsure self.old }
        ensures twin { result ≡ unsure self.old }
        ensures paid { h.new ≡ less 1 h.old }
        ensures step { Took retain self.old.value h.new }
    {
        self.settle();
        self.share_settled(h)
    }

    /// The same of a handle that isn't alone. Any number of threads may call it on one handle at once.
    ///
    /// One atomic fetch_add. Takes no memory.
    pub fn share_settled(&self, h: &mut Holder<Q>) -> Counted<T, Q>
        requires settled { self.now.alone ≡ false }
        requires spare { 1 ≤ h.old.spare }
        ensures twin { result ≡ self.now }
        ensures paid { h.new ≡ less 1 h.old }
        ensures step { Took retain self.now.value h.new }
    {
        let twin = self.retain(&mut h.units);
        h.spare -= 1;
        twin
    }

    /// The value of the handle. Only what `sole` and `only` of this handle lend can change it.
    ///
    /// No atomic step: one read of a pointer. Takes no memory.
    pub fn get(&self) -> &T
        ensures { result.now ≡ self.now.value }
    {
        unsafe { &(*self.at).value }
    }

    /// The value, for writing, where no other handle of the block is live. The handle is alone from
    /// then on, and shows what the reference holds as it ends.
    ///
    /// Answers Some wherever the handle was alone, and else where the count that it finds is 1. None
    /// leaves all as it was, and comes only where the unit of another handle is out too.
    ///
    /// Swift's `isKnownUniquelyReferenced`: one atomic load. Takes no memory.
    pub fn sole(&mut self, h: &mut Holder<Q>) -> Option<&mut T>
        ensures* writes_back { sem 𝓛 (follows_unique T.row Q.row Q.Stock self.entry result) }
        ensures value { IfSome result (λ x. x.now ≡ self.old.value) }
        ensures found { self.old.alone ≡ true → IsSome result }
        ensures one { IfSome result (λ _. Took finds_one self.old.value h.new) }
        ensures more { IfNone result (Took finds_more self.old.value h.new) }
        ensures purse { h.new ≡ h.old }
    {
        self.unique(&mut h.units)
    }

    /// Forgets that the handle is alone, so that `share_settled` may be called on it. Its value stays.
    ///
    /// Does nothing at run time.
    pub fn settle(&mut self)
        ensures { self.new ≡ unsure self.old }
    {}

    /// Ends the handle and gives its unit back to the holder. The last handle of a block answers its
    /// value and frees the block.
    ///
    /// Answers Some wherever the handle was alone, and else where the count that it finds is 1. None
    /// comes only where the unit of another handle is out.
    ///
    /// Swift's strong release: one atomic fetch_sub. Takes no memory.
    pub fn end(self, h: &mut Holder<Q>) -> Option<T>
    where
        T: Drop,
        ensures value { IfSome result (λ x. x ≡ self.value) }
        ensures found { self.alone ≡ true → IsSome result }
        ensures last { IfSome result (λ _. Took last self.value h.new) }
        ensures leave { IfNone result (Took leave self.value h.new) }
        ensures paid { h.new ≡ more 1 h.old }
    {
        let last = self.release(&mut h.units);
        h.spare += 1;
        match last {
            None => None,
            Some(block) => {
                let Block { count: _, value } = Box::into_inner(block.into_box());
                Some(value)
            }
        }
    }
}
