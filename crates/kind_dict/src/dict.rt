// The statements on dictionaries, each as its definition says. A refused one changes nothing and makes no element.
ghost use Rattle.std.specs.Prelude.{◌≡◌, ◌+◌, ◌*◌, ◌≤◌, [], ◌∷◌, ◌++◌, length, fold, true, false, All, IfOk, OnOk, OnErr};
ghost use Rattle.std.specs.List.{sum_by};
ghost use Rattle.std.specs.Io.{StartsWith};
ghost use Rattle.cow_model.specs.Answers.{refusal_in};
ghost use Rattle.cow_model.specs.Flat.{need};
ghost use Rattle.cow_model.specs.Literals.{FitsText};
ghost use Rattle.cow_model.specs.Operation as spec;
ghost use Rattle.cow_model.specs.Pairs.{in_order};
ghost use Rattle.cow_model.specs.Pairs as maps;
ghost use Rattle.cow_model.specs.Plain.{max_count, same_pairs};
ghost use Rattle.cow_model.specs.Printed.{line, pairs_text, truth};
ghost use Rattle.cow_model.specs.Turns.{whole, keyed, TellsParts};
ghost use Rattle.cow_model.specs.Purse.{unit_if};
ghost use Rattle.cow_model.specs.Units.{pair_units};
ghost use Rattle.cow_model.specs.declared.statement.Kind.TheVariants as kind;
ghost use Rattle.cow_model.specs.declared.value.Plain.TheVariants as plain;
ghost use Rattle.cow_dict.specs.Dictionaries.{comes, has, takes};
ghost use Rattle.cow_dict.specs.Storages.{keys, pair_of};
ghost use Rattle.cow_members.specs.Ascents.{Ascends};
ghost use Rattle.kind_dict.specs.Dicts.{Puts, pairs_given};
ghost use Rattle.cow_elements.specs.Shared.{lent};
ghost use Rattle.kind_dict.specs.Values.{dict, is_dict};
ghost use Rattle.cow_value.specs.Seen.{keeps_kind};
ghost use Rattle.cow_value.specs.Calls.{IsReady, Does, Costs, Made};
ghost use Rattle.cow_value.specs.Seen.{fresh, literal};

use cow_cell::{Holder, Stock};
use cow_dict::{Dictionary, Merge};
use cow_elements::lines::{put_element, put_nil, put_number, put_truth};
use cow_elements::pairs::put_pairs;
use cow_elements::positions::MAX_COUNT;
use cow_elements::{Element, Sought};
use cow_item::Item;
use cow_model::{Literal, NoMemory, Refusal, Statement};
use cow_print::whole_or_none;
use cow_set::Set;
use cow_value::{Collection, Holds, Meets, Shown};
use kind_set::SetValue;
use std::alloc::Global;

// Whether the dictionary is full and hasn't the key, so that no pair can come.
fn is_full<T: Element<Q>, Q: Stock>(d: &Dictionary<T, T, Q>, key: &Literal) -> bool
    requires small { length d.now.value ≤ max_count }
    ensures full { result ≡ true → (length d.now.value ≡ max_count) × (has key.now d.now.value ≡ false) }
    ensures room { result ≡ false → length d.now.value + comes key.now d.now.value ≤ max_count }
{
    d.count() >= MAX_COUNT && !d.contains_key(&Sought::by(key))
}

// The line of the value under a key, or `nil`.
fn put_value<T: Element<Q>, Q: Stock>(
    d: &Dictionary<T, T, Q>,
    key: &Literal,
    text: &mut Vec<u8>,
) -> Result<(), NoMemory>
    ensures distinct { Ascends (keys d.now.value) }
    ensures ok { OnOk result
        (text.new.items ≡ text.old.items ++ line (spec.value_under key.now d.now.value)) }
    ensures err { OnErr result (text.new.items ≡ text.old.items) }
{
    match d.get(&Sought::by(key)) {
        Some(value) => put_element(value, text),
        None => put_nil(text),
    }
}

// The elements of a key and its value, each counted. Want of memory leaves none.
fn read_pair<T: Element<Q>, Q: Stock>(
    alloc: Global,
    key: &Literal,
    value: &Literal,
    h: &mut Holder<Q>,
) -> Result<(T, T), NoMemory>
    requires key { FitsText key.now }
    requires value { FitsText value.now }
    requires spare { 2 ≤ h.old.spare }
    ensures ok { IfOk result (λ p. (T.plain p.0 ≡ key.now) × (T.plain p.1 ≡ value.now)) }
    ensures spare { OnOk result (h.new.spare
        + (unit_if (T.is_counted key.now) + unit_if (T.is_counted value.now)) ≡ h.old.spare) }
    ensures kept { OnErr result (h.new.spare ≡ h.old.spare) }
    ensures copied { h.new.copied ≤ h.old.copied + 2 }
    ensures never { h.old.copied ≤ h.new.copied }
{
    let k = T::read(alloc, key, h)?;
    match T::read(alloc, value, h) {
        Ok(v) => Ok((k, v)),
        Err(refused) => {
            k.end(h);
            Err(refused)
        }
    }
}

// The value's element stands under that of the key.
fn add<T: Element<Q>, Q: Stock>(
    d: &mut Dictionary<T, T, Q>,
    alloc: Global,
    key: &Literal,
    value: &Literal,
    h: &mut Holder<Q>,
) -> Result<(), NoMemory>
    requires key { FitsText key.now }
    requires value { FitsText value.now }
    requires ready { IsReady 2 (dict d.old) h.old }
    ensures { Puts T.is_counted (pair_of key.now value.now) d.old d.new h.old h.new result }
{
    let (k, v) = read_pair(alloc, key, value, h)?;
    match d.update(k, v, h) {
        Ok(None) => Ok(()),
        Ok(Some(old)) => {
            old.end(h);
            Ok(())
        }
        Err((refused, k, v)) => {
            k.end(h);
            v.end(h);
            Err(refused)
        }
    }
}

/// `put N K V`
fn put<T: Element<Q>, Q: Stock>(
    d: &mut Dictionary<T, T, Q>,
    alloc: Global,
    key: &Literal,
    value: &Literal,
    text: &mut Vec<u8>,
    h: &mut Holder<Q>,
) -> Result<Result<(), Refusal>, NoMemory>
    requires key { FitsText key.now }
    requires value { FitsText value.now }
    requires ready { IsReady 2 (dict d.old) h.old }
    ensures does { Does (keyed key.now (spec.put (pair_of key.now value.now)))
        (dict d.old) (dict d.new) text.old.items text.new.items result }
    ensures paid { Costs T.is_counted (literal T.is_counted (key.now ∷ value.now ∷ []))
        (keyed key.now (spec.put (pair_of key.now value.now)))
        (dict d.old) (dict d.new) h.old h.new result }
{
    if is_full(d, key) {
        return Ok(Err(Refusal::Full));
    }
    let before = text.len();
    put_value(d, key, text)?;
    let added = add(d, alloc, key, value, h);
    whole_or_none(text, before, added)?;
    Ok(Ok(()))
}

/// Whether `put N K V` leaves it alone.
fn put_parts<T: Element<Q>, Q: Stock>(
    d: &Dictionary<T, T, Q>,
    key: &Literal,
    value: &Literal,
) -> bool
    ensures { TellsParts result (keyed key.now (spec.put (pair_of key.now value.now)))
        (plain.Dict d.now.value) }
{
    match d.get(&Sought::by(key)) {
        Some(old) => !old.is_literal(value),
        None => true,
    }
}

/// `remove N X`
fn remove<T: Element<Q>, Q: Stock>(
    d: &mut Dictionary<T, T, Q>,
    key: &Literal,
    text: &mut Vec<u8>,
    h: &mut Holder<Q>,
) -> Result<Result<(), Refusal>, NoMemory>
    requires ready { IsReady 1 (dict d.old) h.old }
    ensures does { Does (keyed key.now (spec.remove key.now)) (dict d.old) (dict d.new)
        text.old.items text.new.items result }
    ensures paid { Costs T.is_counted (literal T.is_counted (key.now ∷ []))
        (keyed key.now (spec.remove key.now)) (dict d.old) (dict d.new) h.old h.new result }
{
    let before = text.len();
    put_value(d, key, text)?;
    match d.remove(&Sought::by(key), h) {
        Ok(None) => Ok(Ok(())),
        Ok(Some(old)) => {
            old.end(h);
            Ok(Ok(()))
        }
        Err(refused) => {
            text.truncate(before);
            Err(refused)
        }
    }
}

/// Whether `remove N X` leaves it alone.
fn remove_parts<T: Element<Q>, Q: Stock>(d: &Dictionary<T, T, Q>, key: &Literal) -> bool
    ensures { TellsParts result (keyed key.now (spec.remove key.now)) (plain.Dict d.now.value) }
{
    match d.get(&Sought::by(key)) {
        Some(_) => true,
        None => false,
    }
}

// What the rule of a statement is called in the library.
fn rule_of(take: bool) -> Merge
    ensures { takes result ≡ take }
{
    if take { Merge::Take } else { Merge::Keep }
}

/// Why `merge N M RULE` is refused, where both are dictionaries.
fn merge_refusal<T: Element<Q>, Q: Stock>(
    d: &Dictionary<T, T, Q>,
    other: &Dictionary<T, T, Q>,
    take: bool,
) -> Option<Refusal>
    requires small { length d.now.value ≤ max_count }
    ensures { result ≡ refusal_in
        ((whole (λ v. spec.merge take v (plain.Dict other.now.value))).run (plain.Dict d.now.value)) }
{
    let room = MAX_COUNT - d.count();
    if other.count() <= room {
        return None;
    }
    (d.lacking(other) > room).then_some(Refusal::Full)
}

/// `merge N M RULE`
fn merge<T: Element<Q>, Q: Stock>(
    d: &mut Dictionary<T, T, Q>,
    other: &Dictionary<T, T, Q>,
    take: bool,
    h: &mut Holder<Q>,
) -> Result<Result<(), Refusal>, NoMemory>
    requires small { length other.now.value ≤ max_count }
    requires ready { IsReady (2 * length other.now.value) (dict d.old) h.old }
    ensures does { Does (whole (λ v. spec.merge take v (plain.Dict other.now.value)))
        (dict d.old) (dict d.new) [] [] result }
    ensures paid { Costs T.is_counted (pairs_given T.is_counted other.now.value)
        (whole (λ v. spec.merge take v (plain.Dict other.now.value)))
        (dict d.old) (dict d.new) h.old h.new result }
{
    if let Some(why) = merge_refusal(d, other, take) {
        return Ok(Err(why));
    }
    d.merge(other, rule_of(take), h)?;
    Ok(Ok(()))
}

/// Whether `merge N M keep` leaves it alone.
fn keep_parts<T: Element<Q>, Q: Stock>(d: &Dictionary<T, T, Q>, other: &Dictionary<T, T, Q>) -> bool
    ensures { TellsParts result (whole (λ v. spec.merge false v (plain.Dict other.now.value)))
        (plain.Dict d.now.value) }
{
    d.lacking(other) != 0
}

/// Whether `merge N M take` leaves it alone.
fn take_parts<T: Element<Q>, Q: Stock>(d: &Dictionary<T, T, Q>, other: &Dictionary<T, T, Q>) -> bool
    ensures { TellsParts result (whole (λ v. spec.merge true v (plain.Dict other.now.value)))
        (plain.Dict d.now.value) }
{
    !d.includes(other)
}

/// `within N M`
#[tactic(auto, using(crate::proofs::Dicts::length_within))]
fn within<T: Element<Q>, Q: Stock>(
    d: &mut Dictionary<T, T, Q>,
    members: &Set<T, Q>,
    h: &mut Holder<Q>,
) -> Result<Result<(), Refusal>, NoMemory>
    requires small { length members.now.value ≤ max_count }
    requires ready { IsReady (length members.now.value) (dict d.old) h.old }
    ensures does { Does (whole (λ v. spec.within v (plain.Set members.now.value)))
        (dict d.old) (dict d.new) [] [] result }
    ensures paid { Costs T.is_counted (lent T.is_counted members.now.value)
        (whole (λ v. spec.within v (plain.Set members.now.value)))
        (dict d.old) (dict d.new) h.old h.new result }
{
    d.filter_keys(|key| members.contains(key), h)?;
    Ok(Ok(()))
}

/// Whether `within N M` leaves it alone.
fn within_parts<T: Element<Q>, Q: Stock>(d: &Dictionary<T, T, Q>, members: &Set<T, Q>) -> bool
    ensures { TellsParts result (whole (λ v. spec.within v (plain.Set members.now.value)))
        (plain.Dict d.now.value) }
{
    !d.all_keys(|key| members.contains(key))
}

// The pair of two literals stands in a dictionary of a statement's literals, which counts them in one.
fn make_one<T: Element<Q>, Q: Stock>(
    d: &mut Dictionary<T, T, Q>,
    alloc: Global,
    key: &Literal,
    value: &Literal,
    h: &mut Holder<Q>,
) -> Result<(), NoMemory>
    requires key { FitsText key.now }
    requires value { FitsText value.now }
    requires alone { d.old.alone ≡ true }
    requires small { length d.old.value ≤ max_count }
    requires spare { need (length d.old.value) + 2 ≤ h.old.spare }
    ensures ok { OnOk result
        (d.new.value ≡ maps.put in_order d.old.value (pair_of key.now value.now)) }
    ensures alone { d.new.alone ≡ true }
    ensures units { h.new.spare + sum_by (pair_units T.is_counted) d.new.value
        ≡ h.old.spare + sum_by (pair_units T.is_counted) d.old.value }
    ensures copied { h.new.copied ≡ h.old.copied }
{
    let k = T::uncounted(alloc, key, h)?;
    let v = match T::uncounted(alloc, value, h) {
        Ok(v) => v,
        Err(refused) => {
            k.end(h);
            return Err(refused);
        }
    };
    match d.update(k, v, h) {
        Ok(None) => Ok(()),
        Ok(Some(old)) => {
            old.end(h);
            Ok(())
        }
        Err((refused, k, v)) => {
            k.end(h);
            v.end(h);
            Err(refused)
        }
    }
}

// The pairs of the literals, a key and then its value, stand in an empty dictionary. Want of memory leaves some of them.
fn make_all<T: Element<Q>, Q: Stock>(
    d: &mut Dictionary<T, T, Q>,
    alloc: Global,
    literals: &[Literal],
    h: &mut Holder<Q>,
) -> Result<(), NoMemory>
    requires texts { All FitsText literals.now }
    requires few { length literals.now ≤ max_count }
    requires empty { d.old.value ≡ [] }
    requires alone { d.old.alone ≡ true }
    requires spare { need (2 * length literals.now) ≤ h.old.spare }
    ensures ok { OnOk result
        (d.new.value ≡ fold (maps.put in_order) [] (maps.paired literals.now)) }
    ensures alone { d.new.alone ≡ true }
    ensures units { h.new.spare + sum_by (pair_units T.is_counted) d.new.value ≡ h.old.spare }
    ensures copied { h.new.copied ≡ h.old.copied }
{
    let mut rest = literals;
    while let [key, value, others @ ..] = rest {
        make_one(d, alloc, key, value, h)?;
        rest = others;
    }
    Ok(())
}

/// `let N = dict A*`: keys and values in turn. Each atom counts one copy.
pub fn make<T: Element<Q>, Q: Stock>(
    alloc: Global,
    atoms: &[Literal],
    h: &mut Holder<Q>,
) -> Result<Dictionary<T, T, Q>, NoMemory>
    requires texts { All FitsText atoms.now }
    requires small { length atoms.now ≤ max_count }
    requires spare { need (2 * length atoms.now + 1) ≤ h.old.spare }
    ensures ok { IfOk result (λ d. dict d ≡ fresh (spec.made kind.Dict atoms.now)) }
    ensures paid { Made T.is_counted (spec.made kind.Dict atoms.now) (length atoms.now)
        h.old h.new result }
{
    let mut d = Dictionary::new(alloc, h)?;
    if let Err(refused) = make_all(&mut d, alloc, atoms, h) {
        d.end(h);
        return Err(refused);
    }
    h.note(atoms.len() as u64);
    Ok(d)
}

// Appends the printed form. Want of memory leaves a part of it.
fn put_sorted<T: Element<Q>, Q: Stock>(
    d: &Dictionary<T, T, Q>,
    text: &mut Vec<u8>,
) -> Result<(), NoMemory>
    ensures ok { OnOk result (text.new.items ≡ text.old.items ++ pairs_text d.now.value) }
    ensures front { StartsWith text.new.items text.old.items }
{
    let pairs = d.sorted(*text.allocator())?;
    put_pairs(pairs.as_slice(), text)
}

/// The line of `equal N M`, where both are dictionaries.
fn equal<T: Element<Q>, Q: Stock>(
    d: &Dictionary<T, T, Q>,
    other: &Dictionary<T, T, Q>,
    text: &mut Vec<u8>,
) -> Result<(), NoMemory>
    ensures ok { OnOk result (text.new.items ≡ text.old.items
        ++ line (truth (same_pairs d.now.value other.now.value))) }
    ensures err { OnErr result (text.new.items ≡ text.old.items) }
{
    put_truth(d.equals(other), text)
}

/// A dictionary as a value of a script.
#[derive(Drop)]
pub struct DictValue<T: Element<Q>, Q: Stock> {
    /// The collection.
    pub held: Dictionary<T, T, Q>,
}

impl<T: Element<Q>, Q: Stock> Shown for DictValue<T, Q> {
    ghost seen = { λ v. dict v.held };

    ghost counted = { T.is_counted };

    ghost is_kind = { is_dict };
}

impl<T: Element<Q>, Q: Stock> Collection<Q> for DictValue<T, Q> {
    ghost takes = { keeps_kind };

    fn count(&self) -> usize {
        self.held.count()
    }

    fn size(&self) -> usize {
        2 * self.held.count()
    }

    fn stop(&self) -> usize {
        self.held.count()
    }

    fn copy(&mut self, h: &mut Holder<Q>) -> DictValue<T, Q> {
        DictValue {
            held: self.held.copy(h),
        }
    }

    fn end(self, h: &mut Holder<Q>) {
        let DictValue { held } = self;
        held.end(h);
    }

    fn put(&self, text: &mut Vec<u8>) -> Result<(), NoMemory> {
        put_sorted(&self.held, text)
    }

    fn change(
        &mut self,
        alloc: Global,
        statement: &Statement,
        text: &mut Vec<u8>,
        h: &mut Holder<Q>,
    ) -> Result<Result<(), Refusal>, NoMemory> {
        match statement {
            Statement::Put { key, value, .. } => put(&mut self.held, alloc, key, value, text, h),
            Statement::Remove { atom, .. } => remove(&mut self.held, atom, text, h),
            _ => Ok(Err(Refusal::WrongKind)),
        }
    }

    fn parts(&self, statement: &Statement) -> bool {
        match statement {
            Statement::Put { key, value, .. } => put_parts(&self.held, key, value),
            Statement::Remove { atom, .. } => remove_parts(&self.held, atom),
            _ => true,
        }
    }

    fn cost(&self, _statement: &Statement, alone: bool) -> usize {
        if alone { 0 } else { 2 * self.held.count() }
    }

    fn both_cost(&self, alone: bool) -> usize {
        if alone { 0 } else { 2 * self.held.count() }
    }

    fn tell(
        &self,
        statement: &Statement,
        text: &mut Vec<u8>,
    ) -> Result<Result<(), Refusal>, NoMemory> {
        match statement {
            Statement::Count { .. } => put_number(self.held.count(), text)?,
            Statement::Get { atom, .. } => put_value(&self.held, atom, text)?,
            Statement::Has { atom, .. } => {
                put_truth(self.held.contains_key(&Sought::by(atom)), text)?;
            }
            _ => return Ok(Err(Refusal::WrongKind)),
        }
        Ok(Ok(()))
    }

    fn slice_refusal(&self, _i: i64, _j: i64) -> Option<Refusal> {
        Some(Refusal::WrongKind)
    }
}

impl<T: Element<Q>, Q: Stock, V: Holds<DictValue<T, Q>> + Holds<SetValue<T, Q>>> Meets<V, Q>
    for DictValue<T, Q> {
    fn change_by(
        &mut self,
        statement: &Statement,
        other: &V,
        h: &mut Holder<Q>,
    ) -> Result<Result<(), Refusal>, NoMemory> {
        match statement {
            Statement::Merge { take, .. } => {
                let Some(other) = Holds::<DictValue<T, Q>>::as_kind(other) else {
                    return Ok(Err(Refusal::WrongKind));
                };
                merge(&mut self.held, &other.held, *take, h)
            }
            Statement::Within { .. } => {
                let Some(members) = Holds::<SetValue<T, Q>>::as_kind(other) else {
                    return Ok(Err(Refusal::WrongKind));
                };
                within(&mut self.held, &members.held, h)
            }
            _ => Ok(Err(Refusal::WrongKind)),
        }
    }

    fn refusal_by(&self, statement: &Statement, other: &V) -> Option<Refusal> {
        match statement {
            Statement::Merge { take, .. } => {
                let Some(other) = Holds::<DictValue<T, Q>>::as_kind(other) else {
                    return Some(Refusal::WrongKind);
                };
                merge_refusal(&self.held, &other.held, *take)
            }
            Statement::Within { .. } => match Holds::<SetValue<T, Q>>::as_kind(other) {
                Some(_members) => None,
                None => Some(Refusal::WrongKind),
            },
            _ => Some(Refusal::WrongKind),
        }
    }

    fn parts_by(&self, statement: &Statement, other: &V) -> bool {
        match statement {
            Statement::Merge { take, .. } => {
                let Some(other) = Holds::<DictValue<T, Q>>::as_kind(other) else {
                    return true;
                };
                if *take {
                    take_parts(&self.held, &other.held)
                } else {
                    keep_parts(&self.held, &other.held)
                }
            }
            Statement::Within { .. } => {
                let Some(members) = Holds::<SetValue<T, Q>>::as_kind(other) else {
                    return true;
                };
                within_parts(&self.held, &members.held)
            }
            _ => true,
        }
    }

    fn tell_both(
        &self,
        statement: &Statement,
        other: &V,
        text: &mut Vec<u8>,
    ) -> Result<Result<(), Refusal>, NoMemory> {
        let Statement::Equal { .. } = statement else {
            return Ok(Err(Refusal::WrongKind));
        };
        let Some(other) = Holds::<DictValue<T, Q>>::as_kind(other) else {
            return Ok(Err(Refusal::WrongKind));
        };
        equal(&self.held, &other.held, text)?;
        Ok(Ok(()))
    }

    fn slice(&mut self, _i: i64, _j: i64, _h: &mut Holder<Q>) -> Result<V, Refusal> {
        Err(Refusal::WrongKind)
    }
}
