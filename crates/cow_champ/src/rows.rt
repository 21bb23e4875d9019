// Rows of entries and of handles.
ghost use Rattle.std.specs.Prelude.{◌≡◌, ◌≤◌, ◌*◌, ◌+◌, map, IfOk, All, length, false};
ghost use Rattle.cow_champ.specs.Node.{pair_of, BothSettled, value_of};
ghost use Rattle.cow_champ.specs.Spending.{Spends};

use cow_cell::{Counted, Holder, Stock};
use cow_item::{Item, Key};
use cow_model::NoMemory;
use std::alloc::Global;

/// A key with its value, as a node keeps them.
#[derive(Drop)]
pub struct Entry<K, V> {
    pub key: K,
    pub value: V,
}

/// An entry whose items are settled.
pub(crate) fn settled<K: Key<Q>, V: Item<Q>, Q: Stock>(key: K, value: V) -> Entry<K, V>
    ensures pair { pair_of K.plain V.plain result ≡ record { key = K.plain key; value = V.plain value } }
    ensures settled { BothSettled K.IsSettled V.IsSettled result }
{
    let mut entry = Entry { key, value };
    entry.key.settle();
    entry.value.settle();
    entry
}

/// Copies of the entries, in one row of just their number.
pub(crate) fn copy_entries<K: Key<Q>, V: Item<Q>, Q: Stock>(
    row: &Vec<Entry<K, V>>,
    alloc: Global,
    h: &mut Holder<Q>,
) -> Result<Vec<Entry<K, V>>, NoMemory>
    requires settled { All (BothSettled K.IsSettled V.IsSettled) row.now.items }
    requires spare { 2 * length row.now.items ≤ h.old.spare }
    ensures pairs { IfOk result (λ v. map (pair_of K.plain V.plain) v.items ≡ map (pair_of K.plain V.plain) row.now.items) }
    ensures settled { IfOk result (λ v. All (BothSettled K.IsSettled V.IsSettled) v.items) }
    ensures spent { Spends (2 * length row.now.items) ((K.WEIGHT + V.WEIGHT) * length row.now.items) h.old h.new }
{
    let Ok(mut copies) = Vec::with_capacity(alloc, row.len()) else {
        return Err(NoMemory);
    };
    for e in row {
        let copy = copy_entry(e, h);
        if copies.push(copy).is_err() {
            return Err(NoMemory);
        }
    }
    Ok(copies)
}

/// A copy of an entry.
fn copy_entry<K: Key<Q>, V: Item<Q>, Q: Stock>(e: &Entry<K, V>, h: &mut Holder<Q>) -> Entry<K, V>
    requires settled { BothSettled K.IsSettled V.IsSettled e.now }
    requires spare { 2 ≤ h.old.spare }
    ensures pair { pair_of K.plain V.plain result ≡ pair_of K.plain V.plain e.now }
    ensures settled { BothSettled K.IsSettled V.IsSettled result }
    ensures spent { Spends 2 (K.WEIGHT + V.WEIGHT) h.old h.new }
{
    Entry {
        key: e.key.copy(h),
        value: e.value.copy(h),
    }
}

/// Ends the items of each entry.
pub(crate) fn end_entries<K: Key<Q>, V: Item<Q>, Q: Stock>(row: Vec<Entry<K, V>>, h: &mut Holder<Q>)
    ensures spare { h.old.spare ≤ h.new.spare }
    ensures copied { h.new.copied ≡ h.old.copied }
{
    for e in row {
        let Entry { key, value } = e;
        key.end(h);
        value.end(h);
    }
}

/// A second handle of each child, in one row of just their number. No item is copied.
pub(crate) fn share_children<C: Drop, Q: Stock>(
    row: &Vec<Counted<C, Q>>,
    alloc: Global,
    h: &mut Holder<Q>,
) -> Result<Vec<Counted<C, Q>>, NoMemory>
    requires settled { All (λ c. c.alone ≡ false) row.now.items }
    requires spare { length row.now.items ≤ h.old.spare }
    ensures same { IfOk result (λ v. map (λ c. value_of c) v.items ≡ map (λ c. value_of c) row.now.items) }
    ensures settled { IfOk result (λ v. All (λ c. c.alone ≡ false) v.items) }
    ensures spent { Spends (length row.now.items) 0 h.old h.new }
{
    let Ok(mut shared) = Vec::with_capacity(alloc, row.len()) else {
        return Err(NoMemory);
    };
    for c in row {
        if shared.push(c.share_settled(h)).is_err() {
            return Err(NoMemory);
        }
    }
    Ok(shared)
}
