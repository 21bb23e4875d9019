// What stands at one digit of a branch, for calls that go over all of them.
ghost use Rattle.std.specs.Prelude.{◌≡◌, ◌<◌, ◌-◌, ◌^◌, min, Bool, OnOk, OnErr};
ghost use Rattle.std.specs.List.{list_all};
ghost use Rattle.cow_model.specs.Canon.{count_where, slot_pairs};
ghost use Rattle.cow_model.specs.declared.plain.Literal.{Literal};
ghost use Rattle.cow_champ.specs.Node.{seen_pair, SeenSettled, slots_of};
ghost use Rattle.cow_champ.specs.Words.{Appends};

use crate::bits::{has, place};
use crate::branch::Branch;
use crate::level::Level;
use cow_cell::Stock;
use cow_item::{Item, Key};
use cow_model::NoMemory;

/// The pairs at a digit stand last in `into`; refused, it is as it was.
pub(crate) fn walk_at<'a, K: Key<Q>, V: Item<Q>, C: Level<K, V, Q>, Q: Stock, const AT: u32>(
    n: &'a Branch<K, V, C, Q, AT>,
    d: u32,
    into: &mut Vec<(&'a K, &'a V)>,
) -> Result<(), NoMemory>
    requires stacked { ⟦<Branch<K, V, C, Q, AT> as Level<K, V, Q>>⟧.Stacked }
    requires whole { ⟦<Branch<K, V, C, Q, AT> as Level<K, V, Q>>⟧.IsWhole n.now }
    requires small { d < 32 }
    ensures ok { OnOk result (Appends (seen_pair K.plain V.plain) (SeenSettled K.IsSettled V.IsSettled)
        (slot_pairs (slots_of K.plain V.plain C.shape n.now.data n.now.nodes n.now.entries.items n.now.children.items d)) into.old.items into.new.items) }
    ensures refused { OnErr result (into.new.items ≡ into.old.items) }
{
    if has(n.data, d) {
        let e = &n.entries[place(n.data, d)];
        if into.push((&e.key, &e.value)).is_err() {
            return Err(NoMemory);
        }
        Ok(())
    } else if has(n.nodes, d) {
        n.children[place(n.nodes, d)].get().walk(into)
    } else {
        Ok(())
    }
}

/// Whether the test is true of the pairs at a digit.
pub(crate) fn all_at<
    K: Key<Q>,
    V: Item<Q>,
    C: Level<K, V, Q>,
    Q: Stock,
    F: Fn(&K, &V) -> bool,
    const AT: u32,
>(n: &Branch<K, V, C, Q, AT>, d: u32, test: &F) -> bool
    requires stacked { ⟦<Branch<K, V, C, Q, AT> as Level<K, V, Q>>⟧.Stacked }
    requires whole { ⟦<Branch<K, V, C, Q, AT> as Level<K, V, Q>>⟧.IsWhole n.now }
    requires small { d < 32 }
    requires callable { F.IsAlwaysCallable test.now }
    ensures { (p : Literal → Literal → Bool)
        → ((k : _) (v : _) (r : Bool) → F.post test.now k v r → r ≡ p (K.plain k.now) (V.plain v.now))
        → result ≡ list_all (λ q. p q.key q.value) (slot_pairs (slots_of K.plain V.plain C.shape n.now.data n.now.nodes n.now.entries.items n.now.children.items d)) }
{
    if has(n.data, d) {
        let e = &n.entries[place(n.data, d)];
        test(&e.key, &e.value)
    } else if has(n.nodes, d) {
        n.children[place(n.nodes, d)].get().all(test)
    } else {
        true
    }
}

/// Of how many pairs at a digit the test is true.
pub(crate) fn tally_at<
    K: Key<Q>,
    V: Item<Q>,
    C: Level<K, V, Q>,
    Q: Stock,
    F: Fn(&K, &V) -> bool,
    const AT: u32,
>(n: &Branch<K, V, C, Q, AT>, d: u32, test: &F) -> usize
    requires stacked { ⟦<Branch<K, V, C, Q, AT> as Level<K, V, Q>>⟧.Stacked }
    requires whole { ⟦<Branch<K, V, C, Q, AT> as Level<K, V, Q>>⟧.IsWhole n.now }
    requires small { d < 32 }
    requires callable { F.IsAlwaysCallable test.now }
    ensures { (p : Literal → Literal → Bool)
        → ((k : _) (v : _) (r : Bool) → F.post test.now k v r → r ≡ p (K.plain k.now) (V.plain v.now))
        → result ≡ min (count_where (λ q. p q.key q.value) (slot_pairs (slots_of K.plain V.plain C.shape n.now.data n.now.nodes n.now.entries.items n.now.children.items d))) (2 ^ 64 - 1) }
{
    if has(n.data, d) {
        let e = &n.entries[place(n.data, d)];
        if test(&e.key, &e.value) { 1 } else { 0 }
    } else if has(n.nodes, d) {
        n.children[place(n.nodes, d)].get().tally(test)
    } else {
        0
    }
}
