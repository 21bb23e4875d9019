// What a dictionary does with another, and with a test of its keys, on their pairs: by one look-up a key or one call a
// key, and in time linear in the number of pairs.
ghost use Rattle.std.specs.Prelude.{◌≡◌, ℕ, ◌+◌, ◌*◌, ◌≤◌, ◌<◌, ◌^◌, ◌∷◌, [], ◌||◌, not, Bool, true, false, None, length, take, IsTrue, ◌↔◌};
ghost use Rattle.std.specs.List.{list_all};
ghost use Rattle.cow_dict.specs.Dictionaries.{AnswersBy, kept_by, takes, merged, only_if, holds, units, held, Balances};
ghost use Rattle.cow_dict.specs.Storages.{AreWhole, pair_of, keys, listed, map_of};
ghost use Rattle.cow_members.specs.Members.{AreSound, HasAt, listed as keys_of};
ghost use Rattle.cow_model.specs.Members.{last, member, with_member};
ghost use Rattle.cow_model.specs.Order.{same};
ghost use Rattle.cow_model.specs.Pairs.{in_order, value_in, merge};
ghost use Rattle.cow_model.specs.Purse.{unit_if};
ghost use Rattle.cow_model.specs.declared.plain.Literal.{Literal};
ghost use Rattle.cow_members.specs.Sets.{lacking};

use crate::pairs;
use crate::pairs::Pairs;
use crate::rule::Merge;
use cow_cell::{Holder, Stock};
use cow_item::{Item, Key};
use cow_members::{Members, members};

/// Whether `v` stands under `k`.
fn has_pair<K: Key<Q>, V: Key<Q>, Q: Stock>(pairs: &Pairs<K, V>, k: &K, v: &V) -> bool
    requires { AreWhole K.plain K.hash_of K.IsSettled V.IsSettled pairs.now }
    ensures { result
        ≡ holds (listed K.plain V.plain pairs.now) (pair_of (K.plain k.now) (V.plain v.now)) }
{
    match members::place_of(pairs.members(), k.hash(), k) {
        Some(i) => pairs.value_at(i).same(v),
        None => false,
    }
}

/// Whether each pair of `others` is one of `pairs`. It ends at the first that isn't.
pub(crate) fn includes<K: Key<Q>, V: Key<Q>, Q: Stock>(
    pairs: &Pairs<K, V>,
    others: &Pairs<K, V>,
) -> bool
    requires whole { AreWhole K.plain K.hash_of K.IsSettled V.IsSettled pairs.now }
    requires others { AreWhole K.plain K.hash_of K.IsSettled V.IsSettled others.now }
    ensures { result ≡ list_all (holds (listed K.plain V.plain pairs.now))
        (listed K.plain V.plain others.now) }
{
    for i in 0..others.len() {
        if !has_pair(pairs, others.key_at(i), others.value_at(i)) {
            return false;
        }
    }
    true
}

/// Whether the two have the same pairs: as many, and each pair of the one in the other.
pub(crate) fn equal<K: Key<Q>, V: Key<Q>, Q: Stock>(
    pairs: &Pairs<K, V>,
    others: &Pairs<K, V>,
) -> bool
    requires whole { AreWhole K.plain K.hash_of K.IsSettled V.IsSettled pairs.now }
    requires others { AreWhole K.plain K.hash_of K.IsSettled V.IsSettled others.now }
    ensures { IsTrue result ↔ (map_of K.plain V.plain pairs.now ≡ map_of K.plain V.plain others.now) }
{
    pairs.len() == others.len() && includes(pairs, others)
}

/// 1 where `key` isn't in `members`, else 0.
fn missing_once<K: Key<Q>, Q: Stock>(members: &Members<K>, key: &K) -> usize
    requires { AreSound K.plain K.hash_of K.IsSettled members.now }
    ensures { result ≡ unit_if (not (member (K.plain key.now) (keys_of K.plain members.now))) }
{
    if members::contains(members, key) {
        0
    } else {
        1
    }
}

/// How many keys of `others` aren't in `pairs`.
pub(crate) fn missing<K: Key<Q>, V: Item<Q>, Q: Stock>(
    pairs: &Pairs<K, V>,
    others: &Pairs<K, V>,
) -> usize
    requires whole { AreWhole K.plain K.hash_of K.IsSettled V.IsSettled pairs.now }
    requires others { AreWhole K.plain K.hash_of K.IsSettled V.IsSettled others.now }
    ensures value { result
        ≡ lacking (keys (map_of K.plain V.plain pairs.now)) (keys (map_of K.plain V.plain others.now)) }
    ensures most { result ≤ length others.now.members.keys.items }
{
    let mut n = 0;
    for i in 0..others.len() {
        n += missing_once(pairs.members(), others.key_at(i));
    }
    n
}

/// Whether a merge by this rule with `count` pairs, of which `extra` have keys that aren't there, changes nothing.
pub(crate) fn changes_nothing(rule: Merge, extra: usize, count: usize) -> bool
    ensures keep { takes rule ≡ false → IsTrue result ↔ (extra ≡ 0) }
    ensures take { takes rule ≡ true → IsTrue result ↔ (count ≡ 0) }
{
    match rule {
        Merge::Keep => extra == 0,
        Merge::Take => count == 0,
    }
}

/// Puts a copy of `v` in the place of the value at position `i`, which ends, where the rule takes it.
fn replace_by<K: Key<Q>, V: Item<Q>, Q: Stock>(
    pairs: &mut Pairs<K, V>,
    i: usize,
    v: &V,
    rule: Merge,
    h: &mut Holder<Q>,
)
    requires whole { AreWhole K.plain K.hash_of K.IsSettled V.IsSettled pairs.old }
    requires within { i < length pairs.old.members.keys.items }
    requires settled { V.IsSettled v.now }
    requires spare { 1 ≤ h.old.spare }
    ensures whole { AreWhole K.plain K.hash_of K.IsSettled V.IsSettled pairs.new }
    ensures members { pairs.new.members ≡ pairs.old.members }
    ensures same { (a q : Literal) → HasAt K.plain pairs.old.members a i
        → value_in q (listed K.plain V.plain pairs.new)
        ≡ merged (takes rule) (value_in q (pair_of a (V.plain v.now) ∷ []))
        (value_in q (listed K.plain V.plain pairs.old)) }
    ensures capacity { pairs.new.values.capacity ≡ pairs.old.values.capacity }
    ensures balance { Balances K.is_counted V.is_counted K.plain V.plain pairs.old pairs.new h.old h.new }
    ensures falls { h.old.spare ≤ h.new.spare + unit_if (V.is_counted (V.plain v.now)) }
    ensures copied { h.new.copied ≤ h.old.copied + V.WEIGHT }
    ensures kept { h.old.copied ≤ h.new.copied }
{
    match rule {
        Merge::Keep => (),
        Merge::Take => pairs::replace(pairs, i, v.copy(h)).end(h),
    }
}

/// Puts a copy of `v` under `k`, where the rule takes it or no value stands there; under a copy of `k`, where none did.
fn merge_pair<K: Key<Q>, V: Item<Q>, Q: Stock>(
    pairs: &mut Pairs<K, V>,
    k: &K,
    v: &V,
    rule: Merge,
    h: &mut Holder<Q>,
)
    requires whole { AreWhole K.plain K.hash_of K.IsSettled V.IsSettled pairs.old }
    requires key { K.IsSettled k.now }
    requires value { V.IsSettled v.now }
    requires room { length (with_member last (keys_of K.plain pairs.old.members) (K.plain k.now))
        ≤ pairs.old.values.capacity }
    requires small { length (with_member last (keys_of K.plain pairs.old.members) (K.plain k.now))
        ≤ 2 ^ 31 }
    requires spare { 2 ≤ h.old.spare }
    ensures whole { AreWhole K.plain K.hash_of K.IsSettled V.IsSettled pairs.new }
    ensures keys { keys_of K.plain pairs.new.members
        ≡ with_member last (keys_of K.plain pairs.old.members) (K.plain k.now) }
    ensures same { (q : Literal) → value_in q (listed K.plain V.plain pairs.new)
        ≡ merged (takes rule) (value_in q (pair_of (K.plain k.now) (V.plain v.now) ∷ []))
        (value_in q (listed K.plain V.plain pairs.old)) }
    ensures capacity { pairs.new.values.capacity ≡ pairs.old.values.capacity }
    ensures balance { Balances K.is_counted V.is_counted K.plain V.plain pairs.old pairs.new h.old h.new }
    ensures falls { h.old.spare
        ≤ h.new.spare + units K.is_counted V.is_counted (pair_of (K.plain k.now) (V.plain v.now)) }
    ensures copied { h.new.copied ≤ h.old.copied + (K.WEIGHT + V.WEIGHT) }
    ensures kept { h.old.copied ≤ h.new.copied }
{
    let hash = k.hash();
    match members::place_of(pairs.members(), hash, k) {
        Some(i) => replace_by(pairs, i, v, rule, h),
        None => {
            let key = k.copy(h);
            let value = v.copy(h);
            pairs::push(pairs, hash, key, value);
        }
    }
}

/// Brings copies of the pairs of `others` in, by the rule.
pub(crate) fn merge_all<K: Key<Q>, V: Item<Q>, Q: Stock>(
    pairs: &mut Pairs<K, V>,
    others: &Pairs<K, V>,
    rule: Merge,
    h: &mut Holder<Q>,
)
    requires whole { AreWhole K.plain K.hash_of K.IsSettled V.IsSettled pairs.old }
    requires others { AreWhole K.plain K.hash_of K.IsSettled V.IsSettled others.now }
    requires room { length pairs.old.members.keys.items
        + lacking (keys (map_of K.plain V.plain pairs.old)) (keys (map_of K.plain V.plain others.now))
        ≤ pairs.old.values.capacity }
    requires small { length pairs.old.members.keys.items
        + lacking (keys (map_of K.plain V.plain pairs.old)) (keys (map_of K.plain V.plain others.now))
        ≤ 2 ^ 31 }
    requires spare { 2 * length others.now.members.keys.items ≤ h.old.spare }
    ensures whole { AreWhole K.plain K.hash_of K.IsSettled V.IsSettled pairs.new }
    ensures count { length pairs.new.members.keys.items
        ≤ length pairs.old.members.keys.items + length others.now.members.keys.items }
    ensures same { map_of K.plain V.plain pairs.new
        ≡ merge in_order (takes rule) (map_of K.plain V.plain pairs.old)
        (map_of K.plain V.plain others.now) }
    ensures capacity { pairs.new.values.capacity ≡ pairs.old.values.capacity }
    ensures balance { Balances K.is_counted V.is_counted K.plain V.plain pairs.old pairs.new h.old h.new }
    ensures falls { h.old.spare
        ≤ h.new.spare + held K.is_counted V.is_counted K.plain V.plain others.now }
    ensures copied { h.new.copied
        ≤ h.old.copied + (K.WEIGHT + V.WEIGHT) * length others.now.members.keys.items }
    ensures kept { h.old.copied ≤ h.new.copied }
{
    for i in 0..others.len() {
        merge_pair(pairs, others.key_at(i), others.value_at(i), rule, h);
    }
}

/// Whether `keep` answers true to each key. It ends at the first to which it doesn't.
pub(crate) fn all_stay<K: Key<Q>, V: Item<Q>, F: Fn(&K) -> bool, Q: Stock>(
    pairs: &Pairs<K, V>,
    keep: &F,
) -> bool
    requires callable { F.IsAlwaysCallable keep.now }
    ensures { (p : Literal → Bool) → AnswersBy (λ k. K.plain k.now) (F.post keep.now) p
        → result ≡ list_all p (keys (map_of K.plain V.plain pairs.now)) }
{
    for i in 0..pairs.len() {
        if !keep(pairs.key_at(i)) {
            return false;
        }
    }
    true
}

/// Ends the pair at position `i`, unless `keep` answers true to its key. The last pair takes its place.
fn end_unless_kept<K: Key<Q>, V: Item<Q>, F: Fn(&K) -> bool, Q: Stock>(
    pairs: &mut Pairs<K, V>,
    i: usize,
    keep: &F,
    h: &mut Holder<Q>,
)
    requires whole { AreWhole K.plain K.hash_of K.IsSettled V.IsSettled pairs.old }
    requires within { i < length pairs.old.members.keys.items }
    requires callable { F.IsAlwaysCallable keep.now }
    ensures whole { AreWhole K.plain K.hash_of K.IsSettled V.IsSettled pairs.new }
    ensures same { (p : Literal → Bool) → AnswersBy (λ k. K.plain k.now) (F.post keep.now) p
        → (a q : Literal) → HasAt K.plain pairs.old.members a i
        → value_in q (listed K.plain V.plain pairs.new)
        ≡ only_if (not (same q a) || p q) (value_in q (listed K.plain V.plain pairs.old)) }
    ensures front { take i (keys_of K.plain pairs.new.members)
        ≡ take i (keys_of K.plain pairs.old.members) }
    ensures within { i ≤ length pairs.new.members.keys.items }
    ensures count { length pairs.new.members.keys.items ≤ length pairs.old.members.keys.items }
    ensures capacity { pairs.new.values.capacity ≡ pairs.old.values.capacity }
    ensures balance { Balances K.is_counted V.is_counted K.plain V.plain pairs.old pairs.new h.old h.new }
    ensures never_less { h.old.spare ≤ h.new.spare }
    ensures copied { h.new.copied ≡ h.old.copied }
{
    let stays = keep(pairs.key_at(i));
    if !stays {
        let (key, value) = pairs::take(pairs, i);
        key.end(h);
        value.end(h);
    }
}

/// Ends the pairs to whose key `keep` doesn't answer true. It goes from the last to the first, so a pair that takes a
/// place has been looked at.
pub(crate) fn retain<K: Key<Q>, V: Item<Q>, F: Fn(&K) -> bool, Q: Stock>(
    pairs: &mut Pairs<K, V>,
    keep: &F,
    h: &mut Holder<Q>,
)
    requires whole { AreWhole K.plain K.hash_of K.IsSettled V.IsSettled pairs.old }
    requires callable { F.IsAlwaysCallable keep.now }
    ensures whole { AreWhole K.plain K.hash_of K.IsSettled V.IsSettled pairs.new }
    ensures same { (p : Literal → Bool) → AnswersBy (λ k. K.plain k.now) (F.post keep.now) p
        → map_of K.plain V.plain pairs.new ≡ kept_by p (map_of K.plain V.plain pairs.old) }
    ensures count { length pairs.new.members.keys.items ≤ length pairs.old.members.keys.items }
    ensures capacity { pairs.new.values.capacity ≡ pairs.old.values.capacity }
    ensures balance { Balances K.is_counted V.is_counted K.plain V.plain pairs.old pairs.new h.old h.new }
    ensures never_less { h.old.spare ≤ h.new.spare }
    ensures copied { h.new.copied ≡ h.old.copied }
{
    let mut i = pairs.len();
    'retain: while i > 0 {
        i -= 1;
        end_unless_kept(pairs, i, keep, h);
    }
}
