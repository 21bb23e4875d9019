// The statements on ordered dictionaries, each as its definition says. A refused one changes nothing and makes no element.
ghost use Rattle.std.specs.Prelude.{◌≡◌, ◌+◌, ◌*◌, ◌<◌, ◌≤◌, [], ◌∷◌, ◌++◌, length, map, drop, fold, true, false, All, IfOk, OnOk, OnErr};
ghost use Rattle.std.specs.Fmt.{decimal};
ghost use Rattle.std.specs.Io.{StartsWith};
ghost use Rattle.std.specs.List.{flat_map, sum_by};
ghost use Rattle.cow_model.specs.Flat.{need};
ghost use Rattle.cow_model.specs.Literals.{FitsText};
ghost use Rattle.cow_model.specs.Operation as spec;
ghost use Rattle.cow_model.specs.Operation.{pair, value_under};
ghost use Rattle.cow_model.specs.Pairs.{last, place_in};
ghost use Rattle.cow_model.specs.Pairs as maps;
ghost use Rattle.cow_model.specs.Plain.{max_count, same_pairs};
ghost use Rattle.cow_model.specs.Printed.{behind_comma, line, nil_or, pair_text, pairs_text, truth};
ghost use Rattle.cow_model.specs.Query as query;
ghost use Rattle.cow_model.specs.Turns.{whole, keyed, TellsParts};
ghost use Rattle.cow_model.specs.Units.{pair_units};
ghost use Rattle.cow_model.specs.declared.statement.Kind.TheVariants as kind;
ghost use Rattle.cow_model.specs.declared.value.Plain.TheVariants as plain;
ghost use Rattle.cow_dict.specs.Dictionaries.{comes, has};
ghost use Rattle.cow_elements.specs.Shared.{pair_of};
ghost use Rattle.cow_value.specs.Calls.{IsReady, Does, Costs, Made, Tells};
ghost use Rattle.cow_value.specs.Seen.{fresh, keeps_kind, literal};
ghost use Rattle.kind_odict.specs.OrderedDicts.{Goes, Puts};
ghost use Rattle.kind_odict.specs.Values.{odict, is_odict};

use cow_cell::{Holder, Stock};
use cow_elements::lines::{put_element, put_nil, put_number, put_truth};
use cow_elements::pairs::{put_behind_comma, put_pair, read_pair};
use cow_elements::positions::{MAX_COUNT, index};
use cow_elements::{Element, Sought};
use cow_item::Item;
use cow_model::{Literal, NoMemory, Refusal, Statement};
use cow_ordered::OrderedDictionary;
use cow_print::whole_or_none;
use cow_value::{Collection, Holds, Meets, Shown};
use std::alloc::Global;

// Whether the dictionary is full and hasn't the key, so that no pair can come.
fn is_full<T: Element<Q>, Q: Stock>(d: &OrderedDictionary<T, T, Q>, key: &Literal) -> bool
    requires small { length d.now.value ≤ max_count }
    ensures full { result ≡ true → (length d.now.value ≡ max_count) × (has key.now d.now.value ≡ false) }
    ensures room { result ≡ false → length d.now.value + comes key.now d.now.value ≤ max_count }
{
    d.count() >= MAX_COUNT && !d.contains_key(&Sought::by(key))
}

// The line of the value under a key, or `nil`.
fn put_value<T: Element<Q>, Q: Stock>(
    d: &OrderedDictionary<T, T, Q>,
    key: &Literal,
    text: &mut Vec<u8>,
) -> Result<(), NoMemory>
    ensures ok { OnOk result
        (text.new.items ≡ text.old.items ++ line (value_under key.now d.now.value)) }
    ensures err { OnErr result (text.new.items ≡ text.old.items) }
{
    match d.get(&Sought::by(key)) {
        Some(value) => put_element(value, text),
        None => put_nil(text),
    }
}

// A pair and a newline. Want of memory leaves a part of them.
fn put_pair_part<T: Element<Q>, Q: Stock>(
    pair: &(&T, &T),
    text: &mut Vec<u8>,
) -> Result<(), NoMemory>
    ensures ok { OnOk result (text.new.items ≡ text.old.items
        ++ line (pair_text (pair_of (T.plain pair.now.0.now) (T.plain pair.now.1.now)))) }
    ensures front { StartsWith text.new.items text.old.items }
{
    put_pair(pair, text)?;
    text.push(b'\n')?;
    Ok(())
}

// The line of the pair at a place, or `nil`.
fn put_pair_at<T: Element<Q>, Q: Stock>(
    d: &OrderedDictionary<T, T, Q>,
    place: usize,
    text: &mut Vec<u8>,
) -> Result<(), NoMemory>
    ensures ok { OnOk result (text.new.items ≡ text.old.items ++ line (pair d.now.value place)) }
    ensures err { OnErr result (text.new.items ≡ text.old.items) }
{
    match d.at(place) {
        Some(pair) => {
            let before = text.len();
            let appended = put_pair_part(&pair, text);
            whole_or_none(text, before, appended)
        }
        None => put_nil(text),
    }
}

// The value's element stands under that of the key.
fn add<T: Element<Q>, Q: Stock>(
    d: &mut OrderedDictionary<T, T, Q>,
    alloc: Global,
    key: &Literal,
    value: &Literal,
    h: &mut Holder<Q>,
) -> Result<(), NoMemory>
    requires key { FitsText key.now }
    requires value { FitsText value.now }
    requires ready { IsReady 2 (odict d.old) h.old }
    ensures { Puts T.is_counted (pair_of key.now value.now) d.old d.new h.old h.new result }
{
    let (k, v) = read_pair(alloc, key, value, h)?;
    match d.update(k, v, h) {
        Ok(None) => Ok(()),
        Ok(Some(old)) => {
            old.end(h);
            Ok(())
        }
        Err((refused, k, v)) => {
            k.end(h);
            v.end(h);
            Err(refused)
        }
    }
}

/// `put N K V`
fn put<T: Element<Q>, Q: Stock>(
    d: &mut OrderedDictionary<T, T, Q>,
    alloc: Global,
    key: &Literal,
    value: &Literal,
    text: &mut Vec<u8>,
    h: &mut Holder<Q>,
) -> Result<Result<(), Refusal>, NoMemory>
    requires key { FitsText key.now }
    requires value { FitsText value.now }
    requires ready { IsReady 2 (odict d.old) h.old }
    ensures does { Does (keyed key.now (spec.put (pair_of key.now value.now)))
        (odict d.old) (odict d.new) text.old.items text.new.items result }
    ensures paid { Costs T.is_counted (literal T.is_counted (key.now ∷ value.now ∷ []))
        (keyed key.now (spec.put (pair_of key.now value.now)))
        (odict d.old) (odict d.new) h.old h.new result }
{
    if is_full(d, key) {
        return Ok(Err(Refusal::Full));
    }
    let before = text.len();
    put_value(d, key, text)?;
    let added = add(d, alloc, key, value, h);
    whole_or_none(text, before, added)?;
    Ok(Ok(()))
}

/// Whether `put N K V` leaves it alone.
fn put_parts<T: Element<Q>, Q: Stock>(
    d: &OrderedDictionary<T, T, Q>,
    key: &Literal,
    value: &Literal,
) -> bool
    ensures { TellsParts result (keyed key.now (spec.put (pair_of key.now value.now)))
        (plain.ODict d.now.value) }
{
    match d.get(&Sought::by(key)) {
        Some(old) => !old.is_literal(value),
        None => true,
    }
}

// The pair at a place goes. Want of memory changes nothing.
fn take<T: Element<Q>, Q: Stock>(
    d: &mut OrderedDictionary<T, T, Q>,
    place: usize,
    h: &mut Holder<Q>,
) -> Result<(), NoMemory>
    requires place { place < length d.old.value }
    requires ready { IsReady 0 (odict d.old) h.old }
    ensures { Goes T.is_counted place d.old d.new h.old h.new result }
{
    let (key, value) = d.remove_at(place, h)?;
    key.end(h);
    value.end(h);
    Ok(())
}

/// `remove N X`
fn remove<T: Element<Q>, Q: Stock>(
    d: &mut OrderedDictionary<T, T, Q>,
    key: &Literal,
    text: &mut Vec<u8>,
    h: &mut Holder<Q>,
) -> Result<Result<(), Refusal>, NoMemory>
    requires ready { IsReady 1 (odict d.old) h.old }
    ensures does { Does (keyed key.now (spec.remove key.now)) (odict d.old) (odict d.new)
        text.old.items text.new.items result }
    ensures paid { Costs T.is_counted (literal T.is_counted (key.now ∷ []))
        (keyed key.now (spec.remove key.now)) (odict d.old) (odict d.new) h.old h.new result }
{
    let before = text.len();
    put_value(d, key, text)?;
    match d.index_of(&Sought::by(key)) {
        Some(place) => {
            let taken = take(d, place, h);
            whole_or_none(text, before, taken)?;
            Ok(Ok(()))
        }
        None => Ok(Ok(())),
    }
}

/// Whether `remove N X` leaves it alone.
fn remove_parts<T: Element<Q>, Q: Stock>(d: &OrderedDictionary<T, T, Q>, key: &Literal) -> bool
    ensures { TellsParts result (keyed key.now (spec.remove key.now)) (plain.ODict d.now.value) }
{
    match d.index_of(&Sought::by(key)) {
        Some(_) => true,
        None => false,
    }
}

/// `removeat N I`
fn remove_at<T: Element<Q>, Q: Stock>(
    d: &mut OrderedDictionary<T, T, Q>,
    i: i64,
    text: &mut Vec<u8>,
    h: &mut Holder<Q>,
) -> Result<Result<(), Refusal>, NoMemory>
    requires ready { IsReady 0 (odict d.old) h.old }
    ensures does { Does (whole (spec.remove_at i)) (odict d.old) (odict d.new)
        text.old.items text.new.items result }
    ensures paid { Costs T.is_counted (literal T.is_counted [])
        (whole (spec.remove_at i)) (odict d.old) (odict d.new) h.old h.new result }
{
    let Some(place) = index(0, d.count(), i) else {
        return Ok(Err(Refusal::OutOfRange));
    };
    let before = text.len();
    put_pair_at(d, place, text)?;
    let taken = take(d, place, h);
    whole_or_none(text, before, taken)?;
    Ok(Ok(()))
}

/// `swap N I J`
fn swap<T: Element<Q>, Q: Stock>(
    d: &mut OrderedDictionary<T, T, Q>,
    i: i64,
    j: i64,
    h: &mut Holder<Q>,
) -> Result<Result<(), Refusal>, NoMemory>
    requires ready { IsReady 0 (odict d.old) h.old }
    ensures does { Does (whole (spec.swap i j)) (odict d.old) (odict d.new) [] [] result }
    ensures paid { Costs T.is_counted (literal T.is_counted [])
        (whole (spec.swap i j)) (odict d.old) (odict d.new) h.old h.new result }
{
    let Some(first) = index(0, d.count(), i) else {
        return Ok(Err(Refusal::OutOfRange));
    };
    let Some(second) = index(0, d.count(), j) else {
        return Ok(Err(Refusal::OutOfRange));
    };
    d.swap_at(first, second, h)?;
    Ok(Ok(()))
}

/// Whether `swap N I J` leaves it alone: no two places have one key.
fn swap_parts<T: Element<Q>, Q: Stock>(d: &OrderedDictionary<T, T, Q>, i: i64, j: i64) -> bool
    ensures { TellsParts result (whole (spec.swap i j)) (plain.ODict d.now.value) }
{
    let (keys, _) = d.as_slices();
    match (index(0, keys.len(), i), index(0, keys.len(), j)) {
        (Some(first), Some(second)) => first != second,
        _ => false,
    }
}

/// `reverse N`
fn reverse<T: Element<Q>, Q: Stock>(
    d: &mut OrderedDictionary<T, T, Q>,
    h: &mut Holder<Q>,
) -> Result<Result<(), Refusal>, NoMemory>
    requires ready { IsReady 0 (odict d.old) h.old }
    ensures does { Does (whole spec.reversed) (odict d.old) (odict d.new) [] [] result }
    ensures paid { Costs T.is_counted (literal T.is_counted [])
        (whole spec.reversed) (odict d.old) (odict d.new) h.old h.new result }
{
    d.reverse(h)?;
    Ok(Ok(()))
}

/// Whether `reverse N` leaves it alone: the first key is not the last.
fn reverse_parts<T: Element<Q>, Q: Stock>(d: &OrderedDictionary<T, T, Q>) -> bool
    ensures { TellsParts result (whole spec.reversed) (plain.ODict d.now.value) }
{
    let (keys, _) = d.as_slices();
    keys.len() > 1
}

// The pair of two literals stands in a dictionary of a statement's literals, which counts them in one.
fn make_one<T: Element<Q>, Q: Stock>(
    d: &mut OrderedDictionary<T, T, Q>,
    alloc: Global,
    key: &Literal,
    value: &Literal,
    h: &mut Holder<Q>,
) -> Result<(), NoMemory>
    requires key { FitsText key.now }
    requires value { FitsText value.now }
    requires alone { d.old.alone ≡ true }
    requires small { length d.old.value ≤ max_count }
    requires spare { need (length d.old.value) + 2 ≤ h.old.spare }
    ensures ok { OnOk result
        (d.new.value ≡ maps.put last d.old.value (pair_of key.now value.now)) }
    ensures alone { d.new.alone ≡ true }
    ensures units { h.new.spare + sum_by (pair_units T.is_counted) d.new.value
        ≡ h.old.spare + sum_by (pair_units T.is_counted) d.old.value }
    ensures copied { h.new.copied ≡ h.old.copied }
{
    let k = T::uncounted(alloc, key, h)?;
    let v = match T::uncounted(alloc, value, h) {
        Ok(v) => v,
        Err(refused) => {
            k.end(h);
            return Err(refused);
        }
    };
    match d.update(k, v, h) {
        Ok(None) => Ok(()),
        Ok(Some(old)) => {
            old.end(h);
            Ok(())
        }
        Err((refused, k, v)) => {
            k.end(h);
            v.end(h);
            Err(refused)
        }
    }
}

// The pairs of the literals, a key and then its value, stand in an empty dictionary. Want of memory leaves some of them.
fn make_all<T: Element<Q>, Q: Stock>(
    d: &mut OrderedDictionary<T, T, Q>,
    alloc: Global,
    literals: &[Literal],
    h: &mut Holder<Q>,
) -> Result<(), NoMemory>
    requires texts { All FitsText literals.now }
    requires few { length literals.now ≤ max_count }
    requires empty { d.old.value ≡ [] }
    requires alone { d.old.alone ≡ true }
    requires spare { need (2 * length literals.now) ≤ h.old.spare }
    ensures ok { OnOk result (d.new.value ≡ fold (maps.put last) [] (maps.paired literals.now)) }
    ensures alone { d.new.alone ≡ true }
    ensures units { h.new.spare + sum_by (pair_units T.is_counted) d.new.value ≡ h.old.spare }
    ensures copied { h.new.copied ≡ h.old.copied }
{
    let mut rest = literals;
    while let [key, value, others @ ..] = rest {
        make_one(d, alloc, key, value, h)?;
        rest = others;
    }
    Ok(())
}

/// `let N = odict A*`: keys and values in turn. Each atom counts one copy.
pub fn make<T: Element<Q>, Q: Stock>(
    alloc: Global,
    atoms: &[Literal],
    h: &mut Holder<Q>,
) -> Result<OrderedDictionary<T, T, Q>, NoMemory>
    requires texts { All FitsText atoms.now }
    requires small { length atoms.now ≤ max_count }
    requires spare { need (2 * length atoms.now + 1) ≤ h.old.spare }
    ensures ok { IfOk result (λ d. odict d ≡ fresh (spec.made kind.ODict atoms.now)) }
    ensures paid { Made T.is_counted (spec.made kind.ODict atoms.now) (length atoms.now)
        h.old h.new result }
{
    let mut d = OrderedDictionary::new(alloc, h)?;
    if let Err(refused) = make_all(&mut d, alloc, atoms, h) {
        d.end(h);
        return Err(refused);
    }
    h.note(atoms.len() as u64);
    Ok(d)
}

// The pairs but the first, each behind a comma.
fn put_others<T: Element<Q>, Q: Stock>(
    d: &OrderedDictionary<T, T, Q>,
    text: &mut Vec<u8>,
) -> Result<(), NoMemory>
    ensures ok { OnOk result (text.new.items ≡ text.old.items
        ++ flat_map behind_comma (map pair_text (drop 1 d.now.value))) }
    ensures front { StartsWith text.new.items text.old.items }
{
    for place in 1..d.count() {
        match d.at(place) {
            Some(pair) => put_behind_comma(&pair, text)?,
            None => unreachable!(),
        }
    }
    Ok(())
}

// Appends the printed form. Want of memory leaves a part of it.
fn put_whole<T: Element<Q>, Q: Stock>(
    d: &OrderedDictionary<T, T, Q>,
    text: &mut Vec<u8>,
) -> Result<(), NoMemory>
    ensures ok { OnOk result (text.new.items ≡ text.old.items ++ pairs_text d.now.value) }
    ensures front { StartsWith text.new.items text.old.items }
{
    match d.at(0) {
        None => {
            text.extend_from_slice(b"[:]")?;
            Ok(())
        }
        Some(first) => {
            text.extend_from_slice(b"[")?;
            put_pair(&first, text)?;
            put_others(d, text)?;
            text.extend_from_slice(b"]")?;
            Ok(())
        }
    }
}

/// `at N I`
fn at<T: Element<Q>, Q: Stock>(
    d: &OrderedDictionary<T, T, Q>,
    i: i64,
    text: &mut Vec<u8>,
) -> Result<Result<(), Refusal>, NoMemory>
    ensures { Tells (query.at i (plain.ODict d.now.value)) text.old.items text.new.items result }
{
    let Some(place) = index(0, d.count(), i) else {
        return Ok(Err(Refusal::OutOfRange));
    };
    put_pair_at(d, place, text)?;
    Ok(Ok(()))
}

/// The line of `place N A`.
fn put_place<T: Element<Q>, Q: Stock>(
    d: &OrderedDictionary<T, T, Q>,
    key: &Literal,
    text: &mut Vec<u8>,
) -> Result<(), NoMemory>
    ensures ok { OnOk result (text.new.items ≡ text.old.items
        ++ line (nil_or decimal (place_in key.now d.now.value))) }
    ensures err { OnErr result (text.new.items ≡ text.old.items) }
{
    match d.index_of(&Sought::by(key)) {
        Some(place) => put_number(place, text),
        None => put_nil(text),
    }
}

/// The line of `equal N M`, where both are ordered dictionaries.
fn equal<T: Element<Q>, Q: Stock>(
    d: &OrderedDictionary<T, T, Q>,
    other: &OrderedDictionary<T, T, Q>,
    text: &mut Vec<u8>,
) -> Result<(), NoMemory>
    ensures ok { OnOk result (text.new.items ≡ text.old.items
        ++ line (truth (same_pairs d.now.value other.now.value))) }
    ensures err { OnErr result (text.new.items ≡ text.old.items) }
{
    put_truth(d.equals(other), text)
}

/// An ordered dictionary as a value of a script.
#[derive(Drop)]
pub struct OrderedDictValue<T: Element<Q>, Q: Stock> {
    /// The collection.
    pub held: OrderedDictionary<T, T, Q>,
}

impl<T: Element<Q>, Q: Stock> Shown for OrderedDictValue<T, Q> {
    ghost seen = { λ v. odict v.held };

    ghost counted = { T.is_counted };

    ghost is_kind = { is_odict };
}

impl<T: Element<Q>, Q: Stock> Collection<Q> for OrderedDictValue<T, Q> {
    ghost takes = { keeps_kind };

    fn count(&self) -> usize {
        self.held.count()
    }

    fn size(&self) -> usize {
        2 * self.held.count()
    }

    fn stop(&self) -> usize {
        self.held.count()
    }

    fn copy(&mut self, h: &mut Holder<Q>) -> OrderedDictValue<T, Q> {
        OrderedDictValue {
            held: self.held.copy(h),
        }
    }

    fn end(self, h: &mut Holder<Q>) {
        let OrderedDictValue { held } = self;
        held.end(h);
    }

    fn put(&self, text: &mut Vec<u8>) -> Result<(), NoMemory> {
        put_whole(&self.held, text)
    }

    fn change(
        &mut self,
        alloc: Global,
        statement: &Statement,
        text: &mut Vec<u8>,
        h: &mut Holder<Q>,
    ) -> Result<Result<(), Refusal>, NoMemory> {
        match statement {
            Statement::Put { key, value, .. } => put(&mut self.held, alloc, key, value, text, h),
            Statement::Remove { atom, .. } => remove(&mut self.held, atom, text, h),
            Statement::RemoveAt { i, .. } => remove_at(&mut self.held, *i, text, h),
            Statement::Swap { i, j, .. } => swap(&mut self.held, *i, *j, h),
            Statement::Reverse { .. } => reverse(&mut self.held, h),
            _ => Ok(Err(Refusal::WrongKind)),
        }
    }

    fn parts(&self, statement: &Statement) -> bool {
        match statement {
            Statement::Put { key, value, .. } => put_parts(&self.held, key, value),
            Statement::Remove { atom, .. } => remove_parts(&self.held, atom),
            Statement::Swap { i, j, .. } => swap_parts(&self.held, *i, *j),
            Statement::Reverse { .. } => reverse_parts(&self.held),
            _ => true,
        }
    }

    fn cost(&self, _statement: &Statement, alone: bool) -> usize {
        if alone { 0 } else { 2 * self.held.count() }
    }

    fn both_cost(&self, alone: bool) -> usize {
        if alone { 0 } else { 2 * self.held.count() }
    }

    fn tell(
        &self,
        statement: &Statement,
        text: &mut Vec<u8>,
    ) -> Result<Result<(), Refusal>, NoMemory> {
        match statement {
            Statement::Count { .. } => put_number(self.held.count(), text)?,
            Statement::Get { atom, .. } => put_value(&self.held, atom, text)?,
            Statement::At { i, .. } => return at(&self.held, *i, text),
            Statement::Has { atom, .. } => {
                put_truth(self.held.contains_key(&Sought::by(atom)), text)?;
            }
            Statement::Place { atom, .. } => put_place(&self.held, atom, text)?,
            _ => return Ok(Err(Refusal::WrongKind)),
        }
        Ok(Ok(()))
    }

    fn slice_refusal(&self, _i: i64, _j: i64) -> Option<Refusal> {
        Some(Refusal::WrongKind)
    }
}

impl<T: Element<Q>, Q: Stock, V: Holds<OrderedDictValue<T, Q>>> Meets<V, Q>
    for OrderedDictValue<T, Q> {
    fn change_by(
        &mut self,
        _statement: &Statement,
        _other: &V,
        _h: &mut Holder<Q>,
    ) -> Result<Result<(), Refusal>, NoMemory> {
        Ok(Err(Refusal::WrongKind))
    }

    fn refusal_by(&self, _statement: &Statement, _other: &V) -> Option<Refusal> {
        Some(Refusal::WrongKind)
    }

    fn parts_by(&self, _statement: &Statement, _other: &V) -> bool {
        true
    }

    fn tell_both(
        &self,
        statement: &Statement,
        other: &V,
        text: &mut Vec<u8>,
    ) -> Result<Result<(), Refusal>, NoMemory> {
        let Statement::Equal { .. } = statement else {
            return Ok(Err(Refusal::WrongKind));
        };
        let Some(other) = other.as_kind() else {
            return Ok(Err(Refusal::WrongKind));
        };
        equal(&self.held, &other.held, text)?;
        Ok(Ok(()))
    }

    fn slice(&mut self, _i: i64, _j: i64, _h: &mut Holder<Q>) -> Result<V, Refusal> {
        Err(Refusal::WrongKind)
    }
}
