//! What no clause says: that calls of ordered dictionaries succeed, how few pairs are copied, and that the units of all
//! pairs that end come back. Pairs that go in the middle, and dictionaries that differ in their order alone.
ghost use Rattle.std.specs.Prelude.{◌≤◌, ◌<◌, ◌+◌, ◌^◌, length, IsTrue};
ghost use Rattle.cow_cell.specs.Opens.{Opens};
ghost use Rattle.cow_model.specs.Flat.{need};

use cow_cell::{Holder, Opening, Stock};
use cow_item::{Atom, Item, Key, Text};
use cow_ordered::OrderedDictionary;
use std::alloc::Global;
use std::marker::Brand;
use std::test::Fail;

const WHOLE: u64 = 0x4000_0000_0000_0000;

/// Whether the holder can pay for a change of the dictionary, which can grow.
fn can_change<K: Key<Q>, V: Item<Q>, Q: Stock>(
    d: &OrderedDictionary<K, V, Q>,
    h: &Holder<Q>,
) -> bool
    ensures small { IsTrue result → length d.now.value + 1 < 2 ^ 31 }
    ensures spare { IsTrue result → need (length d.now.value) ≤ h.now.spare }
{
    d.count() < 10_000 && 16 * (d.count() as u64) + 512 <= h.spare()
}

/// Puts a value under a key: the value that was there.
fn put<Q: Stock>(
    d: &mut OrderedDictionary<i64, i64, Q>,
    k: i64,
    v: i64,
    h: &mut Holder<Q>,
) -> Option<Option<i64>> {
    if !can_change(d, h) {
        return None;
    }
    d.update(k, v, h).ok()
}

/// Puts a value under each key.
fn put_all<Q: Stock>(
    d: &mut OrderedDictionary<i64, i64, Q>,
    pairs: &[(i64, i64)],
    h: &mut Holder<Q>,
) -> Option<()> {
    for (k, v) in pairs {
        put(d, *k, *v, h)?;
    }
    Some(())
}

/// A further dictionary of these pairs.
fn another<Q: Stock>(
    alloc: Global,
    pairs: &[(i64, i64)],
    h: &mut Holder<Q>,
) -> Option<OrderedDictionary<i64, i64, Q>> {
    if h.spare() == 0 {
        return None;
    }
    let mut d = OrderedDictionary::new(alloc, h).ok()?;
    put_all(&mut d, pairs, h)?;
    Some(d)
}

/// A dictionary of these pairs, with its holder.
fn dictionary_of<Q: Stock>(
    alloc: Global,
    opening: Opening,
    pairs: &[(i64, i64)],
) -> Option<(OrderedDictionary<i64, i64, Q>, Holder<Q>)>
    requires { Opens Q.Stock opening }
{
    let mut h = Holder::<Q>::fresh(opening);
    let d = another(alloc, pairs, &mut h)?;
    Some((d, h))
}

/// Whether these are the pairs in this order, each found at its position and its value under its key.
fn shows<Q: Stock>(d: &OrderedDictionary<i64, i64, Q>, expected: &[(i64, i64)]) -> bool {
    let (keys, values) = d.as_slices();
    if keys.len() != expected.len() || values.len() != expected.len() {
        return false;
    }
    for i in 0..expected.len() {
        let (k, v) = expected[i];
        if keys[i] != k || values[i] != v || d.index_of(&k) != Some(i) || d.get(&k) != Some(&v) {
            return false;
        }
    }
    true
}

/// The value under a key, taken out.
fn take<Q: Stock>(
    d: &mut OrderedDictionary<i64, i64, Q>,
    k: i64,
    h: &mut Holder<Q>,
) -> Option<Option<i64>> {
    if !can_change(d, h) {
        return None;
    }
    d.remove(&k, h).ok()
}

/// Row `odict-order`: what `put` and `remove` answer, whether the pairs are shown, and whether a dictionary of the same
/// pairs in another order is the same.
fn ordered<Q: Stock>(
    alloc: Global,
    opening: Opening,
) -> Option<(Option<i64>, Option<i64>, bool, bool)>
    requires { Opens Q.Stock opening }
{
    let (mut o, mut h) = dictionary_of::<Q>(alloc, opening, &[(2, 20), (1, 10), (3, 30)])?;
    let ten = put(&mut o, 1, 11, &mut h)?;
    let twenty = take(&mut o, 2, &mut h)?;
    let p = another(alloc, &[(3, 30), (1, 11)], &mut h)?;
    Some((ten, twenty, shows(&o, &[(1, 11), (3, 30)]), o.equals(&p)))
}

#[test]
fn an_update_keeps_the_place_and_equality_regards_the_order(rt: HostRuntime) -> Result<(), Fail> {
    let found = ordered::<Brand>(rt.alloc(), Opening::new());
    assert_eq!(rt; found, Some((Some(10), Some(20), true, false)));
    Ok(())
}

/// The first two pairs change places: whether they are shown.
fn exchange<Q: Stock>(d: &mut OrderedDictionary<i64, i64, Q>, h: &mut Holder<Q>) -> Option<bool> {
    if d.count() < 2 || !can_change(d, h) {
        return None;
    }
    d.swap_at(0, 1, h).ok()?;
    Some(shows(d, &[(2, 20), (1, 10)]))
}

/// All pairs stand in the opposite order.
fn turn_round<Q: Stock>(d: &mut OrderedDictionary<i64, i64, Q>, h: &mut Holder<Q>) -> Option<()> {
    if !can_change(d, h) {
        return None;
    }
    d.reverse(h).ok()
}

/// The first pair, taken out.
fn take_first<Q: Stock>(
    d: &mut OrderedDictionary<i64, i64, Q>,
    h: &mut Holder<Q>,
) -> Option<(i64, i64)> {
    if d.is_empty() || !can_change(d, h) {
        return None;
    }
    d.remove_at(0, h).ok()
}

/// The whole row `odict-calls`: at its end the first pair, and whether there is a second.
fn ordered_calls<Q: Stock>(
    alloc: Global,
    opening: Opening,
) -> Option<(bool, (i64, i64), bool, bool)>
    requires { Opens Q.Stock opening }
{
    let (mut p, mut h) = dictionary_of::<Q>(alloc, opening, &[(1, 10), (2, 20)])?;
    let exchanged = exchange(&mut p, &mut h)?;
    turn_round(&mut p, &mut h)?;
    let first = take_first(&mut p, &mut h)?;
    Some((
        exchanged,
        first,
        p.at(0) == Some((&2, &20)),
        p.at(1).is_some(),
    ))
}

#[test]
fn the_calls_of_an_ordered_dictionary_give_their_row(rt: HostRuntime) -> Result<(), Fail> {
    let found = ordered_calls::<Brand>(rt.alloc(), Opening::new());
    assert_eq!(rt; found, Some((true, (1, 10), true, false)));
    Ok(())
}

/// Whether a copy keeps its pairs where the other is changed, how many atoms a call copied that changes nothing, and how
/// many were copied in all.
fn shared<Q: Stock>(alloc: Global, opening: Opening) -> Option<(bool, bool, u64, u64)>
    requires { Opens Q.Stock opening }
{
    let (mut d, mut h) = dictionary_of::<Q>(alloc, opening, &[(3, 1), (2, 4), (1, 9)])?;
    if h.spare() == 0 {
        return None;
    }
    let mut c = d.copy(&mut h);
    take(&mut c, 4, &mut h)?;
    let none = h.copied();
    turn_round(&mut c, &mut h)?;
    let shown = shows(&d, &[(3, 1), (2, 4), (1, 9)]);
    let changed = shows(&c, &[(1, 9), (2, 4), (3, 1)]);
    Some((shown, changed, none, h.copied()))
}

#[test]
fn a_change_of_a_shared_ordered_dictionary_copies_its_pairs_once(
    rt: HostRuntime,
) -> Result<(), Fail> {
    let found = shared::<Brand>(rt.alloc(), Opening::new());
    assert_eq!(rt; found, Some((true, true, 0, 6)));
    Ok(())
}

/// A text of these bytes.
fn text<Q: Stock>(alloc: Global, bytes: &[u8], h: &mut Holder<Q>) -> Option<Atom<Q>> {
    if h.spare() == 0 || bytes.len() > 255 {
        return None;
    }
    Some(Atom::Text(Text::new(alloc, bytes, h).ok()?))
}

/// Puts a text under a text, and ends the value that was there: whether one was.
fn put_text<Q: Stock>(
    alloc: Global,
    d: &mut OrderedDictionary<Atom<Q>, Atom<Q>, Q>,
    k: &[u8],
    v: &[u8],
    h: &mut Holder<Q>,
) -> Option<bool> {
    let key = text(alloc, k, h)?;
    let value = text(alloc, v, h)?;
    if !can_change(d, h) {
        return None;
    }
    match d.update(key, value, h).ok()? {
        Some(old) => {
            old.end(h);
            Some(true)
        }
        None => Some(false),
    }
}

/// Puts three pairs of texts, one key twice, and takes the second out: whether a value was there each time.
fn change_texts<Q: Stock>(
    alloc: Global,
    d: &mut OrderedDictionary<Atom<Q>, Atom<Q>, Q>,
    h: &mut Holder<Q>,
) -> Option<(bool, bool, bool, bool)> {
    let nut = put_text(alloc, d, b"nut", b"brown", h)?;
    let fig = put_text(alloc, d, b"fig", b"blue", h)?;
    let pea = put_text(alloc, d, b"pea", b"green", h)?;
    let again = put_text(alloc, d, b"nut", b"black", h)?;
    if d.count() < 2 || !can_change(d, h) {
        return None;
    }
    let (key, value) = d.remove_at(1, h).ok()?;
    key.end(h);
    value.end(h);
    Some((nut, fig, pea, again))
}

/// What these calls answer, and whether all units are back when the dictionary has ended.
fn texts_end<Q: Stock>(alloc: Global, opening: Opening) -> Option<((bool, bool, bool, bool), bool)>
    requires { Opens Q.Stock opening }
{
    let mut h = Holder::<Q>::fresh(opening);
    let mut d = OrderedDictionary::<Atom<Q>, Atom<Q>, Q>::new(alloc, &mut h).ok()?;
    let changed = change_texts(alloc, &mut d, &mut h);
    d.end(&mut h);
    Some((changed?, h.spare() == WHOLE))
}

#[test]
fn an_ordered_dictionary_of_texts_gives_their_units_back(rt: HostRuntime) -> Result<(), Fail> {
    let found = texts_end::<Brand>(rt.alloc(), Opening::new());
    assert_eq!(rt; found, Some(((false, false, false, true), true)));
    Ok(())
}
