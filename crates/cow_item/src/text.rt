ghost use Rattle.std.specs.Prelude.{◌≡◌, ◌≤◌, length, IfOk, OnOk, OnErr, true, false};
ghost use Rattle.cow_model.specs.Purse.{less};
ghost use Rattle.cow_model.specs.Hash.{literal_hash};
ghost use Rattle.cow_model.proofs.Hashes.{literal_fits};
ghost use Rattle.cow_model.specs.declared.plain.Literal.TheVariants.{Text as Chars};
ghost use Rattle.std.proofs.Common.{rules};

use crate::hash;
use crate::item::{Item, Key};
use cow_cell::{Counted, Holder, Stock};
use cow_model::{Bytes, NoMemory};
use std::alloc::Global;
use std::cmp::Ordering;
use std::marker::Model;

/// A counted text of at most 255 bytes. A copy shares them. Up to 30 bytes stand in the block of the count, and more
/// in one of their own.
#[derive(Drop)]
pub struct Text<Q: Stock> {
    cell: Counted<Bytes, Q>,
}

impl<Q: Stock> Model for Text<Q> {
    ghost use Rattle.std.specs.Prelude.{List, ℕ, length, ◌≤◌};
    ghost use Rattle.cow_item.specs.Handles.{Handle};

    ghost Value = { Handle (List ℕ) };

    ghost view = { λ t. record { value = t.cell.value; alone = t.cell.alone } };

    ghost invariant = { λ t. length t.cell.value ≤ 255 };
}

impl<Q: Stock> Text<Q> {
    /// A text of these bytes, in as many steps. It is alone, and `copied` stays. Answers `NoMemory` only for
    /// want of memory, and nothing has changed then.
    pub fn new(alloc: Global, bytes: &[u8], h: &mut Holder<Q>) -> Result<Text<Q>, NoMemory>
        requires length { length bytes.now ≤ 255 }
        requires spare { 1 ≤ h.old.spare }
        ensures ok { IfOk result (λ t. t.value ≡ bytes.now) }
        ensures alone { IfOk result (λ t. t.alone ≡ true) }
        ensures spent { OnOk result (h.new ≡ less 1 h.old) }
        ensures refused { OnErr result (h.new ≡ h.old) }
    {
        let items = match Bytes::from_slice(alloc, bytes) {
            Ok(items) => items,
            Err(_) => return Err(NoMemory),
        };
        match Counted::new(alloc, items, h) {
            Ok(cell) => Ok(Text { cell }),
            Err((refused, _bytes)) => Err(refused),
        }
    }

    /// The bytes, in order. Takes no memory.
    pub fn bytes(&self) -> &[u8]
        ensures value { result.now ≡ self.now.value }
        ensures small { length result.now ≤ 255 }
    {
        self.cell.get().as_slice()
    }
}

impl<Q: Stock> Item<Q> for Text<Q> {
    const WEIGHT: u64 = 1;

    ghost WEIGHT = { 1 };

    ghost plain = { λ t. Chars t.value };

    ghost IsSettled = { λ t. t.alone ≡ false };

    ghost is_counted = { λ _. true };

    fn twin(&self, h: &mut Holder<Q>) -> Self {
        Text {
            cell: self.cell.share_settled(h),
        }
    }

    fn settle(&mut self) {
        self.cell.settle();
    }

    fn end(self, h: &mut Holder<Q>) {
        let Text { cell } = self;
        let _bytes = cell.end(h);
    }

    ghost weighs_little = { Prim.search rules };
}

impl<Q: Stock> Key<Q> for Text<Q> {
    ghost hash_of = { literal_hash };

    fn hash(&self) -> u32 {
        hash::of_bytes(self.bytes())
    }

    fn same(&self, other: &Self) -> bool {
        self.bytes() == other.bytes()
    }

    fn order(&self, other: &Self) -> Ordering {
        self.bytes().cmp(other.bytes())
    }

    ghost hash_fits = { literal_fits };
}
