// Removal from a branch.
ghost use Rattle.std.specs.Prelude.{◌≡◌, ◌≢◌, ◌+◌, ◌*◌, ◌≤◌, ◌<◌, ℕ, length, OnOk, Some, slice_get, vec_len, vec_capacity};
ghost use Rattle.std.specs.Int.{bit_at};
ghost use Rattle.cow_model.specs.Canon.{free, entry};
ghost use Rattle.cow_champ.specs.Node.{slots_of};

use crate::trim::Trim;
use cow_cell::{Counted, Holder, Stock};
use cow_champ::bits::{digit_of, has, place, without_member};
use cow_champ::branch::add;
use cow_champ::{Branch, Entry, Level};
use cow_item::{Equivalent, Item, Key};
use cow_model::NoMemory;
use std::alloc::Global;

impl<K: Key<Q>, V: Item<Q>, C: Trim<K, V, Q>, Q: Stock, const AT: u32> Trim<K, V, Q>
    for Branch<K, V, C, Q, AT> {
    fn cut_in<E: Equivalent<K, Q>>(
        &mut self,
        alloc: Global,
        hash: u32,
        key: &E,
        h: &mut Holder<Q>,
    ) -> Result<(K, V), NoMemory> {
        let d = digit_of(hash, AT);
        if has(self.data, d) {
            Ok(withdraw(self, d))
        } else if has(self.nodes, d) {
            let j = place(self.nodes, d);
            if make_room(self, j).is_err() {
                return Err(NoMemory);
            }
            let child = &mut self.children[j];
            let answer = C::cut_held(child, alloc, hash, key, h);
            child.settle();
            let (gone, left) = answer?;
            match left {
                None => Ok(gone),
                Some((key, value)) => {
                    lift(self, d, key, value, h);
                    Ok(gone)
                }
            }
        } else {
            unreachable!()
        }
    }

    fn is_small(&self) -> bool {
        self.entries.len() + 2 * self.children.len() <= 2
    }

    fn take_only(&mut self) -> Option<(K, V)> {
        if self.children.len() != 0 {
            return None;
        }
        if self.entries.len() != 1 {
            return None;
        }
        self.data = 0;
        self.nodes = 0;
        let Entry { key, value } = self.entries.remove(0);
        Some((key, value))
    }
}

/// The entry at a digit, taken out.
fn withdraw<K: Key<Q>, V: Item<Q>, C: Level<K, V, Q>, Q: Stock, const AT: u32>(
    n: &mut Branch<K, V, C, Q, AT>,
    d: u32,
) -> (K, V)
    requires whole { ⟦<Branch<K, V, C, Q, AT> as Level<K, V, Q>>⟧.IsWhole n.old }
    requires small { d < 32 }
    requires here { bit_at n.old.data d ≡ 1 }
    ensures whole { ⟦<Branch<K, V, C, Q, AT> as Level<K, V, Q>>⟧.IsWhole n.new }
    ensures was { slots_of K.plain V.plain C.shape
        n.old.data n.old.nodes n.old.entries.items n.old.children.items d
        ≡ entry (record { key = K.plain result.0; value = V.plain result.1 }) }
    ensures is { slots_of K.plain V.plain C.shape
        n.new.data n.new.nodes n.new.entries.items n.new.children.items d ≡ free }
    ensures others { (x : ℕ) → x ≢ d
        → slots_of K.plain V.plain C.shape
        n.new.data n.new.nodes n.new.entries.items n.new.children.items x
        ≡ slots_of K.plain V.plain C.shape
        n.old.data n.old.nodes n.old.entries.items n.old.children.items x }
{
    let i = place(n.data, d);
    let Entry { key, value } = n.entries.remove(i);
    n.data = without_member(n.data, d);
    (key, value)
}

/// Room for an entry more, where the child at a place may have no more than two pairs.
fn make_room<K: Key<Q>, V: Item<Q>, C: Trim<K, V, Q>, Q: Stock, const AT: u32>(
    n: &mut Branch<K, V, C, Q, AT>,
    j: usize,
) -> Result<(), NoMemory>
    requires stacked { ⟦<Branch<K, V, C, Q, AT> as Level<K, V, Q>>⟧.Stacked }
    requires whole { ⟦<Branch<K, V, C, Q, AT> as Level<K, V, Q>>⟧.IsWhole n.old }
    requires within { j < length n.old.children.items }
    ensures data { n.new.data ≡ n.old.data }
    ensures nodes { n.new.nodes ≡ n.old.nodes }
    ensures entries { n.new.entries.items ≡ n.old.entries.items }
    ensures children { n.new.children.items ≡ n.old.children.items }
    ensures room { OnOk result ((x : _) → slice_get n.old.children.items j ≡ Some x
        → (C.own x.value).held + 2 * (C.own x.value).linked ≤ 2
        → vec_len n.new.entries < vec_capacity n.new.entries) }
{
    if n.children[j].get().is_small() && n.entries.reserve(1).is_err() {
        return Err(NoMemory);
    }
    Ok(())
}

/// An entry in the place of the child at a digit, which ends. There is room for it.
fn lift<K: Key<Q>, V: Item<Q>, C: Level<K, V, Q>, Q: Stock, const AT: u32>(
    n: &mut Branch<K, V, C, Q, AT>,
    d: u32,
    key: K,
    value: V,
    h: &mut Holder<Q>,
)
    requires whole { ⟦<Branch<K, V, C, Q, AT> as Level<K, V, Q>>⟧.IsWhole n.old }
    requires small { d < 32 }
    requires here { bit_at n.old.nodes d ≡ 1 }
    requires room { vec_len n.old.entries < vec_capacity n.old.entries }
    ensures whole { ⟦<Branch<K, V, C, Q, AT> as Level<K, V, Q>>⟧.IsWhole n.new }
    ensures is { slots_of K.plain V.plain C.shape
        n.new.data n.new.nodes n.new.entries.items n.new.children.items d
        ≡ entry (record { key = K.plain key; value = V.plain value }) }
    ensures others { (x : ℕ) → x ≢ d
        → slots_of K.plain V.plain C.shape
        n.new.data n.new.nodes n.new.entries.items n.new.children.items x
        ≡ slots_of K.plain V.plain C.shape
        n.old.data n.old.nodes n.old.entries.items n.old.children.items x }
    ensures spare { h.old.spare + 1 ≤ h.new.spare }
    ensures copied { h.new.copied ≡ h.old.copied }
{
    let j = place(n.nodes, d);
    let child = n.children.remove(j);
    n.nodes = without_member(n.nodes, d);
    C::end(child, h);
    add(n, d, key, value);
}
