// What two sets do to each other, on their members: by one look-up a key, and in time linear in the number of keys.
ghost use Rattle.std.specs.Prelude.{◌≡◌, ℕ, ◌+◌, ◌*◌, ◌<◌, ◌≤◌, ◌^◌, ◌&&◌, ◌||◌, not, min, length, map, take, All, true, false};
ghost use Rattle.std.specs.List.{list_all};
ghost use Rattle.cow_members.specs.Members.{AreSound, listed, HasAt};
ghost use Rattle.cow_model.specs.Members.{last, member, union, with_member};
ghost use Rattle.cow_model.specs.Order.{same};
ghost use Rattle.cow_model.specs.Purse.{Moves, unit_if};
ghost use Rattle.cow_model.specs.declared.plain.Literal.{Literal};
ghost use Rattle.cow_row.specs.Words.{Balances, units};
ghost use Rattle.cow_members.specs.Sets.{either, kept_by, lacking};

use crate::members::{self, Members};
use cow_cell::{Holder, Stock};
use cow_item::{Item, Key};

/// Whether `key` is in `others`, where `keep` is true; whether it isn't, where it is false.
pub(crate) fn is_kept<K: Key<Q>, Q: Stock>(others: &Members<K>, key: &K, keep: bool) -> bool
    requires { AreSound K.plain K.hash_of K.IsSettled others.now }
    ensures { result ≡ kept_by keep (listed K.plain others.now) (K.plain key.now) }
{
    let there = members::contains(others, key);
    if keep { there } else { !there }
}

/// Whether each key of `members` is in `others`, where `keep` is true; whether none is, where it is false. It ends at
/// the first for which it isn't so.
pub fn all_stay<K: Key<Q>, Q: Stock>(members: &Members<K>, others: &Members<K>, keep: bool) -> bool
    requires others { AreSound K.plain K.hash_of K.IsSettled others.now }
    ensures { result
        ≡ list_all (kept_by keep (listed K.plain others.now)) (listed K.plain members.now) }
{
    for i in 0..members.len() {
        if !is_kept(others, members.get(i), keep) {
            return false;
        }
    }
    true
}

/// 1 where `key` isn't in `members`, else 0.
fn missing_once<K: Key<Q>, Q: Stock>(members: &Members<K>, key: &K) -> usize
    requires { AreSound K.plain K.hash_of K.IsSettled members.now }
    ensures { result ≡ unit_if (not (member (K.plain key.now) (listed K.plain members.now))) }
{
    if members::contains(members, key) {
        0
    } else {
        1
    }
}

/// How many keys of `others` aren't in `members`.
pub fn missing<K: Key<Q>, Q: Stock>(members: &Members<K>, others: &Members<K>) -> usize
    requires sound { AreSound K.plain K.hash_of K.IsSettled members.now }
    requires others { AreSound K.plain K.hash_of K.IsSettled others.now }
    ensures value { result ≡ lacking (listed K.plain members.now) (listed K.plain others.now) }
    ensures most { result ≤ length others.now.keys.items }
{
    let mut n = 0;
    for i in 0..others.len() {
        n += missing_once(members, others.get(i));
    }
    n
}

/// Puts a copy of `key` last, where it isn't there.
fn add_copy<K: Key<Q>, Q: Stock>(members: &mut Members<K>, key: &K, h: &mut Holder<Q>)
    requires sound { AreSound K.plain K.hash_of K.IsSettled members.old }
    requires settled { K.IsSettled key.now }
    requires room { length (with_member last (listed K.plain members.old) (K.plain key.now))
        ≤ members.old.keys.capacity }
    requires small { length (with_member last (listed K.plain members.old) (K.plain key.now))
        ≤ 2 ^ 31 }
    requires spare { 1 ≤ h.old.spare }
    ensures sound { AreSound K.plain K.hash_of K.IsSettled members.new }
    ensures same { listed K.plain members.new
        ≡ with_member last (listed K.plain members.old) (K.plain key.now) }
    ensures capacity { members.new.keys.capacity ≡ members.old.keys.capacity }
    ensures moved { Moves (unit_if (K.is_counted (K.plain key.now))) K.WEIGHT h.old h.new }
    ensures no_gain { h.new.spare ≤ h.old.spare }
{
    let hash = key.hash();
    if members::place_of(members, hash, key).is_none() {
        members::push(members, hash, key.copy(h));
    }
}

/// Puts copies of those keys of `others` last that aren't there.
pub fn add_missing<K: Key<Q>, Q: Stock>(
    members: &mut Members<K>,
    others: &Members<K>,
    h: &mut Holder<Q>,
)
    requires sound { AreSound K.plain K.hash_of K.IsSettled members.old }
    requires others { AreSound K.plain K.hash_of K.IsSettled others.now }
    requires room { length (union last (listed K.plain members.old) (listed K.plain others.now))
        ≤ members.old.keys.capacity }
    requires small { length (union last (listed K.plain members.old) (listed K.plain others.now))
        ≤ 2 ^ 31 }
    requires spare { length others.now.keys.items ≤ h.old.spare }
    ensures sound { AreSound K.plain K.hash_of K.IsSettled members.new }
    ensures same { listed K.plain members.new
        ≡ union last (listed K.plain members.old) (listed K.plain others.now) }
    ensures capacity { members.new.keys.capacity ≡ members.old.keys.capacity }
    ensures moved { Moves (units K.plain K.is_counted others.now.keys.items)
        (K.WEIGHT * length others.now.keys.items) h.old h.new }
    ensures no_gain { h.new.spare ≤ h.old.spare }
{
    for i in 0..others.len() {
        add_copy(members, others.get(i), h);
    }
}

/// Ends the key at position `i`, unless it stays. The last key takes its place.
fn end_unless_kept<K: Key<Q>, Q: Stock>(
    members: &mut Members<K>,
    i: usize,
    others: &Members<K>,
    keep: bool,
    h: &mut Holder<Q>,
)
    requires sound { AreSound K.plain K.hash_of K.IsSettled members.old }
    requires others { AreSound K.plain K.hash_of K.IsSettled others.now }
    requires within { i < length members.old.keys.items }
    ensures sound { AreSound K.plain K.hash_of K.IsSettled members.new }
    ensures same { (a q : Literal) → HasAt K.plain members.old a i
        → member q (listed K.plain members.new) ≡ (member q (listed K.plain members.old)
        && (not (same q a) || kept_by keep (listed K.plain others.now) q)) }
    ensures front { take i (listed K.plain members.new) ≡ take i (listed K.plain members.old) }
    ensures within { i ≤ length members.new.keys.items }
    ensures capacity { members.new.keys.capacity ≡ members.old.keys.capacity }
    ensures count { length members.new.keys.items ≤ length members.old.keys.items }
    ensures balance { Balances K.plain K.is_counted members.old.keys members.new.keys h.old h.new }
    ensures never_less { h.old.spare ≤ h.new.spare }
    ensures copied { h.new.copied ≡ h.old.copied }
{
    if !is_kept(others, members.get(i), keep) {
        members::take(members, i).end(h);
    }
}

/// Ends the keys that don't stay: those that aren't in `others`, where `keep` is true; those that are, where it is
/// false. It goes from the last to the first, so a key that takes a place has been looked at.
pub fn retain<K: Key<Q>, Q: Stock>(
    members: &mut Members<K>,
    others: &Members<K>,
    keep: bool,
    h: &mut Holder<Q>,
)
    requires sound { AreSound K.plain K.hash_of K.IsSettled members.old }
    requires others { AreSound K.plain K.hash_of K.IsSettled others.now }
    ensures sound { AreSound K.plain K.hash_of K.IsSettled members.new }
    ensures same { (q : Literal) → member q (listed K.plain members.new)
        ≡ (member q (listed K.plain members.old) && kept_by keep (listed K.plain others.now) q) }
    ensures capacity { members.new.keys.capacity ≡ members.old.keys.capacity }
    ensures count { length members.new.keys.items ≤ length members.old.keys.items }
    ensures balance { Balances K.plain K.is_counted members.old.keys members.new.keys h.old h.new }
    ensures never_less { h.old.spare ≤ h.new.spare }
    ensures copied { h.new.copied ≡ h.old.copied }
{
    let mut i = members.len();
    'retain: while i > 0 {
        i -= 1;
        end_unless_kept(members, i, others, keep, h);
    }
}

/// Takes out the key that is the same as `key`, and ends it; puts a copy of `key` last, where there is none.
fn toggle<K: Key<Q>, Q: Stock>(members: &mut Members<K>, key: &K, h: &mut Holder<Q>)
    requires sound { AreSound K.plain K.hash_of K.IsSettled members.old }
    requires settled { K.IsSettled key.now }
    requires room { member (K.plain key.now) (listed K.plain members.old) ≡ false
        → length members.old.keys.items < min members.old.keys.capacity (2 ^ 31) }
    requires spare { 1 ≤ h.old.spare }
    ensures sound { AreSound K.plain K.hash_of K.IsSettled members.new }
    ensures same { (q : Literal) → member q (listed K.plain members.new)
        ≡ either (same q (K.plain key.now)) (member q (listed K.plain members.old)) }
    ensures count { length members.new.keys.items ≤ length members.old.keys.items
        + unit_if (not (member (K.plain key.now) (listed K.plain members.old))) }
    ensures capacity { members.new.keys.capacity ≡ members.old.keys.capacity }
    ensures moved { Moves (unit_if (K.is_counted (K.plain key.now))) K.WEIGHT h.old h.new }
{
    let hash = key.hash();
    match members::place_of(members, hash, key) {
        Some(i) => members::take(members, i).end(h),
        None => members::push(members, hash, key.copy(h)),
    }
}

/// Takes out the keys that `others` has too, and puts copies of its other keys in.
pub fn toggle_all<K: Key<Q>, Q: Stock>(
    members: &mut Members<K>,
    others: &Members<K>,
    h: &mut Holder<Q>,
)
    requires sound { AreSound K.plain K.hash_of K.IsSettled members.old }
    requires others { AreSound K.plain K.hash_of K.IsSettled others.now }
    requires room { length members.old.keys.items
        + lacking (listed K.plain members.old) (listed K.plain others.now)
        ≤ min members.old.keys.capacity (2 ^ 31) }
    requires spare { length others.now.keys.items ≤ h.old.spare }
    ensures sound { AreSound K.plain K.hash_of K.IsSettled members.new }
    ensures same { (q : Literal) → member q (listed K.plain members.new)
        ≡ either (member q (listed K.plain others.now)) (member q (listed K.plain members.old)) }
    ensures count { length members.new.keys.items ≤ length members.old.keys.items
        + lacking (listed K.plain members.old) (listed K.plain others.now) }
    ensures capacity { members.new.keys.capacity ≡ members.old.keys.capacity }
    ensures moved { Moves (units K.plain K.is_counted others.now.keys.items)
        (K.WEIGHT * length others.now.keys.items) h.old h.new }
{
    for i in 0..others.len() {
        toggle(members, others.get(i), h);
    }
}
