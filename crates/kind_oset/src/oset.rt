// The statements on ordered sets, each as its definition says. A refused one changes nothing and makes no element.
ghost use Rattle.std.specs.Prelude.{◌≡◌, ◌+◌, ◌*◌, ◌≤◌, ◌<◌, [], ◌∷◌, ◌++◌, length, count_by, true, false, remove, if◌then◌else◌, All, IfOk, OnOk, OnErr};
ghost use Rattle.std.specs.Fmt.{decimal};
ghost use Rattle.cow_model.specs.Answers.{refusal_in};
ghost use Rattle.cow_model.specs.Flat.{need, copies};
ghost use Rattle.cow_model.specs.Literals.{FitsText};
ghost use Rattle.cow_model.specs.Members.{last, member, with_member, place_in};
ghost use Rattle.cow_model.specs.Members as members;
ghost use Rattle.cow_model.specs.Operation as spec;
ghost use Rattle.cow_model.specs.Operation.{element};
ghost use Rattle.cow_model.specs.Plain.{max_count, same_items};
ghost use Rattle.cow_model.specs.Printed.{line, nil_or, truth};
ghost use Rattle.cow_model.specs.Purse.{Moves};
ghost use Rattle.cow_model.specs.Query as query;
ghost use Rattle.cow_model.specs.Turns.{whole, keyed, TellsParts};
ghost use Rattle.cow_model.specs.declared.statement.Kind.TheVariants as kind;
ghost use Rattle.cow_model.specs.declared.value.Plain.TheVariants as plain;
ghost use Rattle.cow_elements.specs.Sets.{Adds};
ghost use Rattle.cow_elements.specs.Shared.{lent};
ghost use Rattle.kind_oset.specs.Values.{oset, is_oset};
ghost use Rattle.cow_value.specs.Seen.{keeps_kind};
ghost use Rattle.cow_ordered.specs.Ordered.{placed_at};
ghost use Rattle.cow_value.specs.Calls.{IsReady, Does, Costs, Made, Tells};
ghost use Rattle.cow_value.specs.Seen.{fresh, literal};

use cow_cell::{Holder, Stock};
use cow_elements::lines::{put_nil, put_number, put_or_nil, put_truth};
use cow_elements::positions::{MAX_COUNT, index, index_to_end};
use cow_elements::{Element, Listed, Sought, keeps, put_list};
use cow_item::Item;
use cow_model::{Literal, NoMemory, Refusal, Statement};
use cow_ordered::OrderedSet;
use cow_value::{Collection, Holds, Meets, Shown};
use std::alloc::Global;

// Whether the set is full and hasn't the atom, so that no element can be made of it.
fn is_full<T: Element<Q>, Q: Stock>(s: &OrderedSet<T, Q>, atom: &Literal) -> bool
    requires small { length s.now.value ≤ max_count }
    ensures full { result ≡ true → (length s.now.value ≡ max_count)
        × (member atom.now s.now.value ≡ false) }
    ensures room { result ≡ false → member atom.now s.now.value ≡ false
        → length s.now.value + 1 ≤ max_count }
{
    s.count() >= MAX_COUNT && !s.contains(&Sought::by(atom))
}

// The atom's element stands at a place, unless it is a member: whether it wasn't one before. Where it was, nothing changes.
fn add<T: Element<Q>, Q: Stock>(
    s: &mut OrderedSet<T, Q>,
    alloc: Global,
    place: usize,
    atom: &Literal,
    h: &mut Holder<Q>,
) -> Result<bool, NoMemory>
    requires place { place ≤ length s.old.value }
    requires text { FitsText atom.now }
    requires ready { IsReady 1 (oset s.old) h.old }
    ensures { Adds T.is_counted (placed_at place) atom.now s.old s.new h.old h.new result }
{
    let x = T::read(alloc, atom, h)?;
    match s.insert_at(place, x, h) {
        Ok(is_new) => Ok(is_new),
        Err((refused, x)) => {
            x.end(h);
            Err(refused)
        }
    }
}

// The same, and `line` is appended where the element is new. Where it isn't, nothing is.
fn add_telling<T: Element<Q>, Q: Stock>(
    s: &mut OrderedSet<T, Q>,
    alloc: Global,
    place: usize,
    atom: &Literal,
    line: &[u8],
    text: &mut Vec<u8>,
    h: &mut Holder<Q>,
) -> Result<bool, NoMemory>
    requires place { place ≤ length s.old.value }
    requires text { FitsText atom.now }
    requires ready { IsReady 1 (oset s.old) h.old }
    ensures adds { Adds T.is_counted (placed_at place) atom.now s.old s.new h.old h.new result }
    ensures told { IfOk result (λ is_new.
        text.new.items ≡ text.old.items ++ (if is_new then line.now else [])) }
    ensures kept { OnErr result (text.new.items ≡ text.old.items) }
{
    let before = text.len();
    text.extend_from_slice(line)?;
    let added = add(s, alloc, place, atom, h);
    match added {
        Ok(true) => {}
        _ => text.truncate(before),
    }
    added
}

// The same at the end.
fn add_last<T: Element<Q>, Q: Stock>(
    s: &mut OrderedSet<T, Q>,
    alloc: Global,
    atom: &Literal,
    line: &[u8],
    text: &mut Vec<u8>,
    h: &mut Holder<Q>,
) -> Result<bool, NoMemory>
    requires text { FitsText atom.now }
    requires ready { IsReady 1 (oset s.old) h.old }
    ensures adds { Adds T.is_counted last atom.now s.old s.new h.old h.new result }
    ensures told { IfOk result (λ is_new.
        text.new.items ≡ text.old.items ++ (if is_new then line.now else [])) }
    ensures kept { OnErr result (text.new.items ≡ text.old.items) }
{
    add_telling(s, alloc, s.count(), atom, line, text, h)
}

/// `append N A`
fn append<T: Element<Q>, Q: Stock>(
    s: &mut OrderedSet<T, Q>,
    alloc: Global,
    atom: &Literal,
    text: &mut Vec<u8>,
    h: &mut Holder<Q>,
) -> Result<Result<(), Refusal>, NoMemory>
    requires length { FitsText atom.now }
    requires ready { IsReady 1 (oset s.old) h.old }
    ensures does { Does (whole (spec.append atom.now)) (oset s.old) (oset s.new)
        text.old.items text.new.items result }
    ensures paid { Costs T.is_counted (literal T.is_counted (atom.now ∷ []))
        (whole (spec.append atom.now)) (oset s.old) (oset s.new) h.old h.new result }
{
    if is_full(s, atom) {
        return Ok(Err(Refusal::Full));
    }
    if !add_last(s, alloc, atom, b"true\n", text, h)? {
        put_truth(false, text)?;
    }
    Ok(Ok(()))
}

/// Whether `append N A` leaves it alone.
fn append_parts<T: Element<Q>, Q: Stock>(s: &OrderedSet<T, Q>, atom: &Literal) -> bool
    ensures { TellsParts result (whole (spec.append atom.now)) (plain.OSet s.now.value) }
{
    !s.contains(&Sought::by(atom))
}

/// `insert N I A`
fn insert_at<T: Element<Q>, Q: Stock>(
    s: &mut OrderedSet<T, Q>,
    alloc: Global,
    i: i64,
    atom: &Literal,
    text: &mut Vec<u8>,
    h: &mut Holder<Q>,
) -> Result<Result<(), Refusal>, NoMemory>
    requires length { FitsText atom.now }
    requires ready { IsReady 1 (oset s.old) h.old }
    ensures does { Does (whole (spec.insert_at i atom.now)) (oset s.old) (oset s.new)
        text.old.items text.new.items result }
    ensures paid { Costs T.is_counted (literal T.is_counted (atom.now ∷ []))
        (whole (spec.insert_at i atom.now)) (oset s.old) (oset s.new) h.old h.new result }
{
    let Some(place) = index_to_end(s.count(), i) else {
        return Ok(Err(Refusal::OutOfRange));
    };
    if is_full(s, atom) {
        return Ok(Err(Refusal::Full));
    }
    if !add_telling(s, alloc, place, atom, b"true\n", text, h)? {
        put_truth(false, text)?;
    }
    Ok(Ok(()))
}

/// Whether `insert N I A` leaves it alone.
fn insert_at_parts<T: Element<Q>, Q: Stock>(s: &OrderedSet<T, Q>, i: i64, atom: &Literal) -> bool
    ensures { TellsParts result (whole (spec.insert_at i atom.now)) (plain.OSet s.now.value) }
{
    match index_to_end(s.count(), i) {
        Some(_) => !s.contains(&Sought::by(atom)),
        None => false,
    }
}

/// `update N A`. An element in the place of one that is the same would be the same plain value, so a member stays.
fn update<T: Element<Q>, Q: Stock>(
    s: &mut OrderedSet<T, Q>,
    alloc: Global,
    atom: &Literal,
    text: &mut Vec<u8>,
    h: &mut Holder<Q>,
) -> Result<Result<(), Refusal>, NoMemory>
    requires length { FitsText atom.now }
    requires ready { IsReady 1 (oset s.old) h.old }
    ensures does { Does (keyed atom.now (spec.update atom.now)) (oset s.old) (oset s.new)
        text.old.items text.new.items result }
    ensures paid { Costs T.is_counted (literal T.is_counted (atom.now ∷ []))
        (keyed atom.now (spec.update atom.now)) (oset s.old) (oset s.new) h.old h.new result }
{
    if is_full(s, atom) {
        return Ok(Err(Refusal::Full));
    }
    if add_last(s, alloc, atom, b"nil\n", text, h)? {
        return Ok(Ok(()));
    }
    match s.index_of(&Sought::by(atom)) {
        Some(place) => put_or_nil(s.at(place), text)?,
        None => unreachable!(),
    }
    Ok(Ok(()))
}

/// Whether `update N A` leaves it alone.
fn update_parts<T: Element<Q>, Q: Stock>(s: &OrderedSet<T, Q>, atom: &Literal) -> bool
    ensures { TellsParts result (keyed atom.now (spec.update atom.now)) (plain.OSet s.now.value) }
{
    !s.contains(&Sought::by(atom))
}

// The member at a place goes, and its line is appended. Want of memory changes nothing.
fn take<T: Element<Q>, Q: Stock>(
    s: &mut OrderedSet<T, Q>,
    place: usize,
    text: &mut Vec<u8>,
    h: &mut Holder<Q>,
) -> Result<(), NoMemory>
    requires place { place < length s.old.value }
    requires ready { IsReady 0 (oset s.old) h.old }
    ensures value { OnOk result (s.new.value ≡ remove s.old.value place) }
    ensures told { OnOk result (text.new.items ≡ text.old.items ++ line (element s.old.value place)) }
    ensures kept { OnErr result ((s.new.value ≡ s.old.value) × (text.new.items ≡ text.old.items)) }
    ensures parted { OnOk result (s.new.alone ≡ true) }
    ensures alone { s.old.alone ≡ true → s.new.alone ≡ true }
    ensures moved { Moves (2 * count_by T.is_counted s.old.value)
        (copies s.old.alone (length s.old.value)) h.old h.new }
    ensures falls { h.old.spare ≤ h.new.spare + length s.old.value }
{
    let before = text.len();
    put_or_nil(s.at(place), text)?;
    match s.remove_at(place, h) {
        Ok(old) => {
            old.end(h);
            Ok(())
        }
        Err(refused) => {
            text.truncate(before);
            Err(refused)
        }
    }
}

/// `remove N X`
fn remove<T: Element<Q>, Q: Stock>(
    s: &mut OrderedSet<T, Q>,
    x: &Literal,
    text: &mut Vec<u8>,
    h: &mut Holder<Q>,
) -> Result<Result<(), Refusal>, NoMemory>
    requires ready { IsReady 1 (oset s.old) h.old }
    ensures does { Does (keyed x.now (spec.remove x.now)) (oset s.old) (oset s.new)
        text.old.items text.new.items result }
    ensures paid { Costs T.is_counted (literal T.is_counted (x.now ∷ []))
        (keyed x.now (spec.remove x.now)) (oset s.old) (oset s.new) h.old h.new result }
{
    match s.index_of(&Sought::by(x)) {
        Some(place) => take(s, place, text, h)?,
        None => put_nil(text)?,
    }
    Ok(Ok(()))
}

/// Whether `remove N X` leaves it alone.
fn remove_parts<T: Element<Q>, Q: Stock>(s: &OrderedSet<T, Q>, x: &Literal) -> bool
    ensures { TellsParts result (keyed x.now (spec.remove x.now)) (plain.OSet s.now.value) }
{
    match s.index_of(&Sought::by(x)) {
        Some(_) => true,
        None => false,
    }
}

/// `removeat N I`
fn remove_at<T: Element<Q>, Q: Stock>(
    s: &mut OrderedSet<T, Q>,
    i: i64,
    text: &mut Vec<u8>,
    h: &mut Holder<Q>,
) -> Result<Result<(), Refusal>, NoMemory>
    requires ready { IsReady 0 (oset s.old) h.old }
    ensures does { Does (whole (spec.remove_at i)) (oset s.old) (oset s.new)
        text.old.items text.new.items result }
    ensures paid { Costs T.is_counted (literal T.is_counted [])
        (whole (spec.remove_at i)) (oset s.old) (oset s.new) h.old h.new result }
{
    let Some(place) = index(0, s.count(), i) else {
        return Ok(Err(Refusal::OutOfRange));
    };
    take(s, place, text, h)?;
    Ok(Ok(()))
}

/// `swap N I J`
fn swap<T: Element<Q>, Q: Stock>(
    s: &mut OrderedSet<T, Q>,
    i: i64,
    j: i64,
    h: &mut Holder<Q>,
) -> Result<Result<(), Refusal>, NoMemory>
    requires ready { IsReady 0 (oset s.old) h.old }
    ensures does { Does (whole (spec.swap i j)) (oset s.old) (oset s.new) [] [] result }
    ensures paid { Costs T.is_counted (literal T.is_counted [])
        (whole (spec.swap i j)) (oset s.old) (oset s.new) h.old h.new result }
{
    let Some(first) = index(0, s.count(), i) else {
        return Ok(Err(Refusal::OutOfRange));
    };
    let Some(second) = index(0, s.count(), j) else {
        return Ok(Err(Refusal::OutOfRange));
    };
    s.swap_at(first, second, h)?;
    Ok(Ok(()))
}

/// `reverse N`
fn reverse<T: Element<Q>, Q: Stock>(
    s: &mut OrderedSet<T, Q>,
    h: &mut Holder<Q>,
) -> Result<Result<(), Refusal>, NoMemory>
    requires ready { IsReady 0 (oset s.old) h.old }
    ensures does { Does (whole spec.reversed) (oset s.old) (oset s.new) [] [] result }
    ensures paid { Costs T.is_counted (literal T.is_counted [])
        (whole spec.reversed) (oset s.old) (oset s.new) h.old h.new result }
{
    s.reverse(h)?;
    Ok(Ok(()))
}

/// Why `union N M` is refused, where both are ordered sets.
fn union_refusal<T: Element<Q>, Q: Stock>(
    s: &OrderedSet<T, Q>,
    other: &OrderedSet<T, Q>,
) -> Option<Refusal>
    requires small { length s.now.value ≤ max_count }
    ensures { result ≡ refusal_in
        ((whole (λ v. spec.union v (plain.OSet other.now.value))).run (plain.OSet s.now.value)) }
{
    let room = MAX_COUNT - s.count();
    if other.count() <= room {
        return None;
    }
    (s.lacking(other) > room).then_some(Refusal::Full)
}

/// `union N M`
fn union<T: Element<Q>, Q: Stock>(
    s: &mut OrderedSet<T, Q>,
    other: &OrderedSet<T, Q>,
    h: &mut Holder<Q>,
) -> Result<Result<(), Refusal>, NoMemory>
    requires small { length other.now.value ≤ max_count }
    requires ready { IsReady (length other.now.value) (oset s.old) h.old }
    ensures does { Does (whole (λ v. spec.union v (plain.OSet other.now.value)))
        (oset s.old) (oset s.new) [] [] result }
    ensures paid { Costs T.is_counted (literal T.is_counted other.now.value)
        (whole (λ v. spec.union v (plain.OSet other.now.value)))
        (oset s.old) (oset s.new) h.old h.new result }
{
    if let Some(why) = union_refusal(s, other) {
        return Ok(Err(why));
    }
    s.union(other, h)?;
    Ok(Ok(()))
}

/// `inter N M`
#[tactic(auto, using(cow_elements::proofs::Members::length_inter))]
fn inter<T: Element<Q>, Q: Stock>(
    s: &mut OrderedSet<T, Q>,
    other: &OrderedSet<T, Q>,
    h: &mut Holder<Q>,
) -> Result<Result<(), Refusal>, NoMemory>
    requires small { length other.now.value ≤ max_count }
    requires ready { IsReady (length other.now.value) (oset s.old) h.old }
    ensures does { Does (whole (λ v. spec.inter v (plain.OSet other.now.value)))
        (oset s.old) (oset s.new) [] [] result }
    ensures paid { Costs T.is_counted (lent T.is_counted other.now.value)
        (whole (λ v. spec.inter v (plain.OSet other.now.value)))
        (oset s.old) (oset s.new) h.old h.new result }
{
    s.intersection(other, h)?;
    Ok(Ok(()))
}

/// `minus N M`
#[tactic(auto, using(cow_elements::proofs::Members::length_minus))]
fn minus<T: Element<Q>, Q: Stock>(
    s: &mut OrderedSet<T, Q>,
    other: &OrderedSet<T, Q>,
    h: &mut Holder<Q>,
) -> Result<Result<(), Refusal>, NoMemory>
    requires small { length other.now.value ≤ max_count }
    requires ready { IsReady (length other.now.value) (oset s.old) h.old }
    ensures does { Does (whole (λ v. spec.minus v (plain.OSet other.now.value)))
        (oset s.old) (oset s.new) [] [] result }
    ensures paid { Costs T.is_counted (lent T.is_counted other.now.value)
        (whole (λ v. spec.minus v (plain.OSet other.now.value)))
        (oset s.old) (oset s.new) h.old h.new result }
{
    s.subtracting(other, h)?;
    Ok(Ok(()))
}

/// Why `symdiff N M` is refused, where both are ordered sets.
fn symdiff_refusal<T: Element<Q>, Q: Stock>(
    s: &OrderedSet<T, Q>,
    other: &OrderedSet<T, Q>,
) -> Option<Refusal>
    requires small { length s.now.value ≤ max_count }
    requires other { length other.now.value ≤ max_count }
    ensures { result ≡ refusal_in
        ((whole (λ v. spec.symdiff v (plain.OSet other.now.value))).run (plain.OSet s.now.value)) }
{
    if other.count() <= MAX_COUNT - s.count() {
        return None;
    }
    (s.lacking(other) + other.lacking(s) > MAX_COUNT).then_some(Refusal::Full)
}

/// `symdiff N M`
fn symdiff<T: Element<Q>, Q: Stock>(
    s: &mut OrderedSet<T, Q>,
    other: &OrderedSet<T, Q>,
    h: &mut Holder<Q>,
) -> Result<Result<(), Refusal>, NoMemory>
    requires small { length other.now.value ≤ max_count }
    requires ready { IsReady (length other.now.value) (oset s.old) h.old }
    ensures does { Does (whole (λ v. spec.symdiff v (plain.OSet other.now.value)))
        (oset s.old) (oset s.new) [] [] result }
    ensures paid { Costs T.is_counted (literal T.is_counted other.now.value)
        (whole (λ v. spec.symdiff v (plain.OSet other.now.value)))
        (oset s.old) (oset s.new) h.old h.new result }
{
    if let Some(why) = symdiff_refusal(s, other) {
        return Ok(Err(why));
    }
    s.symmetric_difference(other, h)?;
    Ok(Ok(()))
}

// The literal's element stands last in a set of a statement's literals, which counts them in one.
fn make_one<T: Element<Q>, Q: Stock>(
    s: &mut OrderedSet<T, Q>,
    alloc: Global,
    literal: &Literal,
    h: &mut Holder<Q>,
) -> Result<(), NoMemory>
    requires text { FitsText literal.now }
    requires alone { s.old.alone ≡ true }
    requires small { length s.old.value ≤ max_count }
    requires spare { need (length s.old.value) + 1 ≤ h.old.spare }
    ensures ok { OnOk result (s.new.value ≡ with_member last s.old.value literal.now) }
    ensures alone { s.new.alone ≡ true }
    ensures units { h.new.spare + count_by T.is_counted s.new.value
        ≡ h.old.spare + count_by T.is_counted s.old.value }
    ensures copied { h.new.copied ≡ h.old.copied }
{
    let x = T::uncounted(alloc, literal, h)?;
    match s.append(x, h) {
        Ok(_) => Ok(()),
        Err((refused, x)) => {
            x.end(h);
            Err(refused)
        }
    }
}

// The elements of the literals are the members of an empty set. Want of memory leaves some of them.
fn make_all<T: Element<Q>, Q: Stock>(
    s: &mut OrderedSet<T, Q>,
    alloc: Global,
    literals: &[Literal],
    h: &mut Holder<Q>,
) -> Result<(), NoMemory>
    requires texts { All FitsText literals.now }
    requires few { length literals.now ≤ max_count }
    requires empty { s.old.value ≡ [] }
    requires alone { s.old.alone ≡ true }
    requires spare { need (2 * length literals.now) ≤ h.old.spare }
    ensures ok { OnOk result (s.new.value ≡ members.union last [] literals.now) }
    ensures alone { s.new.alone ≡ true }
    ensures units { h.new.spare + count_by T.is_counted s.new.value ≡ h.old.spare }
    ensures copied { h.new.copied ≡ h.old.copied }
{
    for literal in literals {
        make_one(s, alloc, literal, h)?;
    }
    Ok(())
}

/// `let N = oset A*`. Each atom counts one copy, repeats among them.
pub fn make<T: Element<Q>, Q: Stock>(
    alloc: Global,
    atoms: &[Literal],
    h: &mut Holder<Q>,
) -> Result<OrderedSet<T, Q>, NoMemory>
    requires texts { All FitsText atoms.now }
    requires small { length atoms.now ≤ max_count }
    requires spare { need (2 * length atoms.now + 1) ≤ h.old.spare }
    ensures ok { IfOk result (λ s. oset s ≡ fresh (spec.made kind.OSet atoms.now)) }
    ensures paid { Made T.is_counted (spec.made kind.OSet atoms.now) (length atoms.now)
        h.old h.new result }
{
    let mut s = OrderedSet::new(alloc, h)?;
    if let Err(refused) = make_all(&mut s, alloc, atoms, h) {
        s.end(h);
        return Err(refused);
    }
    h.note(atoms.len() as u64);
    Ok(s)
}

/// The line of `place N A`.
fn put_place<T: Element<Q>, Q: Stock>(
    s: &OrderedSet<T, Q>,
    atom: &Literal,
    text: &mut Vec<u8>,
) -> Result<(), NoMemory>
    ensures ok { OnOk result (text.new.items ≡ text.old.items
        ++ line (nil_or decimal (place_in atom.now s.now.value))) }
    ensures err { OnErr result (text.new.items ≡ text.old.items) }
{
    match s.index_of(&Sought::by(atom)) {
        Some(place) => put_number(place, text),
        None => put_nil(text),
    }
}

/// `at N I`
fn at<T: Element<Q>, Q: Stock>(
    s: &OrderedSet<T, Q>,
    i: i64,
    text: &mut Vec<u8>,
) -> Result<Result<(), Refusal>, NoMemory>
    ensures { Tells (query.at i (plain.OSet s.now.value)) text.old.items text.new.items result }
{
    let Some(place) = index(0, s.count(), i) else {
        return Ok(Err(Refusal::OutOfRange));
    };
    put_or_nil(s.at(place), text)?;
    Ok(Ok(()))
}

/// The line of `equal N M`, where both are ordered sets.
fn equal<T: Element<Q>, Q: Stock>(
    s: &OrderedSet<T, Q>,
    other: &OrderedSet<T, Q>,
    text: &mut Vec<u8>,
) -> Result<(), NoMemory>
    ensures ok { OnOk result (text.new.items ≡ text.old.items
        ++ line (truth (same_items s.now.value other.now.value))) }
    ensures err { OnErr result (text.new.items ≡ text.old.items) }
{
    put_truth(s.equals(other), text)
}

/// An ordered set as a value of a script.
#[derive(Drop)]
pub struct OrderedSetValue<T: Element<Q>, Q: Stock> {
    /// The collection.
    pub held: OrderedSet<T, Q>,
}

impl<T: Element<Q>, Q: Stock> Shown for OrderedSetValue<T, Q> {
    ghost seen = { λ v. oset v.held };

    ghost counted = { T.is_counted };

    ghost is_kind = { is_oset };
}

impl<T: Element<Q>, Q: Stock> Collection<Q> for OrderedSetValue<T, Q> {
    ghost takes = { keeps_kind };

    fn count(&self) -> usize {
        self.held.count()
    }

    fn size(&self) -> usize {
        self.held.count()
    }

    fn stop(&self) -> usize {
        self.held.count()
    }

    fn copy(&mut self, h: &mut Holder<Q>) -> OrderedSetValue<T, Q> {
        OrderedSetValue {
            held: self.held.copy(h),
        }
    }

    fn end(self, h: &mut Holder<Q>) {
        let OrderedSetValue { held } = self;
        held.end(h);
    }

    fn put(&self, text: &mut Vec<u8>) -> Result<(), NoMemory> {
        put_list(self, text)
    }

    fn change(
        &mut self,
        alloc: Global,
        statement: &Statement,
        text: &mut Vec<u8>,
        h: &mut Holder<Q>,
    ) -> Result<Result<(), Refusal>, NoMemory> {
        match statement {
            Statement::Append { atom, .. } => append(&mut self.held, alloc, atom, text, h),
            Statement::InsertAt { i, atom, .. } => insert_at(
                &mut self.held,
                alloc,
                *i,
                atom,
                text,
                h,
            ),
            Statement::Update { atom, .. } => update(&mut self.held, alloc, atom, text, h),
            Statement::Remove { atom, .. } => remove(&mut self.held, atom, text, h),
            Statement::RemoveAt { i, .. } => remove_at(&mut self.held, *i, text, h),
            Statement::Swap { i, j, .. } => swap(&mut self.held, *i, *j, h),
            Statement::Reverse { .. } => reverse(&mut self.held, h),
            _ => Ok(Err(Refusal::WrongKind)),
        }
    }

    fn parts(&self, statement: &Statement) -> bool {
        match statement {
            Statement::Append { atom, .. } => append_parts(&self.held, atom),
            Statement::InsertAt { i, atom, .. } => insert_at_parts(&self.held, *i, atom),
            Statement::Update { atom, .. } => update_parts(&self.held, atom),
            Statement::Remove { atom, .. } => remove_parts(&self.held, atom),
            Statement::Swap { i, j, .. } => !keeps::swap(self, *i, *j),
            Statement::Reverse { .. } => !keeps::is_palindrome(self),
            _ => true,
        }
    }

    fn cost(&self, _statement: &Statement, alone: bool) -> usize {
        if alone { 0 } else { self.held.count() }
    }

    fn both_cost(&self, alone: bool) -> usize {
        if alone { 0 } else { self.held.count() }
    }

    fn tell(
        &self,
        statement: &Statement,
        text: &mut Vec<u8>,
    ) -> Result<Result<(), Refusal>, NoMemory> {
        match statement {
            Statement::Count { .. } => put_number(self.held.count(), text)?,
            Statement::At { i, .. } => return at(&self.held, *i, text),
            Statement::Has { atom, .. } => put_truth(self.held.contains(&Sought::by(atom)), text)?,
            Statement::Place { atom, .. } => put_place(&self.held, atom, text)?,
            _ => return Ok(Err(Refusal::WrongKind)),
        }
        Ok(Ok(()))
    }

    fn slice_refusal(&self, _i: i64, _j: i64) -> Option<Refusal> {
        Some(Refusal::WrongKind)
    }
}

impl<T: Element<Q>, Q: Stock, V: Holds<OrderedSetValue<T, Q>>> Meets<V, Q>
    for OrderedSetValue<T, Q> {
    fn change_by(
        &mut self,
        statement: &Statement,
        other: &V,
        h: &mut Holder<Q>,
    ) -> Result<Result<(), Refusal>, NoMemory> {
        let Some(other) = other.as_kind() else {
            return Ok(Err(Refusal::WrongKind));
        };
        match statement {
            Statement::Union { .. } => union(&mut self.held, &other.held, h),
            Statement::Inter { .. } => inter(&mut self.held, &other.held, h),
            Statement::Minus { .. } => minus(&mut self.held, &other.held, h),
            Statement::SymDiff { .. } => symdiff(&mut self.held, &other.held, h),
            _ => Ok(Err(Refusal::WrongKind)),
        }
    }

    fn refusal_by(&self, statement: &Statement, other: &V) -> Option<Refusal> {
        let Some(other) = other.as_kind() else {
            return Some(Refusal::WrongKind);
        };
        match statement {
            Statement::Union { .. } => union_refusal(&self.held, &other.held),
            Statement::Inter { .. } | Statement::Minus { .. } => None,
            Statement::SymDiff { .. } => symdiff_refusal(&self.held, &other.held),
            _ => Some(Refusal::WrongKind),
        }
    }

    fn parts_by(&self, statement: &Statement, other: &V) -> bool {
        let Some(other) = other.as_kind() else {
            return true;
        };
        match statement {
            Statement::Union { .. } => !other.held.is_subset(&self.held),
            Statement::Inter { .. } => !self.held.is_subset(&other.held),
            Statement::Minus { .. } => !self.held.is_disjoint(&other.held),
            Statement::SymDiff { .. } => !other.held.is_empty(),
            _ => true,
        }
    }

    fn tell_both(
        &self,
        statement: &Statement,
        other: &V,
        text: &mut Vec<u8>,
    ) -> Result<Result<(), Refusal>, NoMemory> {
        let Some(other) = other.as_kind() else {
            return Ok(Err(Refusal::WrongKind));
        };
        match statement {
            Statement::Subset { .. } => put_truth(self.held.is_subset(&other.held), text)?,
            Statement::Disjoint { .. } => put_truth(self.held.is_disjoint(&other.held), text)?,
            Statement::Equal { .. } => equal(&self.held, &other.held, text)?,
            _ => return Ok(Err(Refusal::WrongKind)),
        }
        Ok(Ok(()))
    }

    fn slice(&mut self, _i: i64, _j: i64, _h: &mut Holder<Q>) -> Result<V, Refusal> {
        Err(Refusal::WrongKind)
    }
}

impl<T: Element<Q>, Q: Stock> Listed<T, Q> for OrderedSetValue<T, Q> {
    ghost elements = { λ v. v.held.value };

    fn size(&self) -> usize {
        self.held.count()
    }

    fn at(&self, place: usize) -> Option<&T> {
        self.held.at(place)
    }
}
