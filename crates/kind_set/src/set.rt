// The statements on sets, each as its definition says. A refused one changes nothing and makes no element.
ghost use Rattle.std.specs.Prelude.{◌≡◌, ◌+◌, ◌*◌, ◌≤◌, [], ◌∷◌, ◌++◌, length, count_by, not, true, false, if◌then◌else◌, All, IfOk, OnOk, OnErr};
ghost use Rattle.std.specs.Io.{StartsWith};
ghost use Rattle.cow_model.specs.Answers.{refusal_in};
ghost use Rattle.cow_model.specs.Flat.{need};
ghost use Rattle.cow_model.specs.Literals.{FitsText};
ghost use Rattle.cow_model.specs.Members.{in_order, member, with_member};
ghost use Rattle.cow_model.specs.Members as members;
ghost use Rattle.cow_model.specs.Operation as spec;
ghost use Rattle.cow_model.specs.Plain.{max_count, same_items};
ghost use Rattle.cow_model.specs.Printed.{line, list_text, truth};
ghost use Rattle.cow_model.specs.Turns.{whole, keyed, TellsParts};
ghost use Rattle.cow_model.specs.declared.statement.Kind.TheVariants as kind;
ghost use Rattle.cow_model.specs.declared.value.Plain.TheVariants as plain;
ghost use Rattle.cow_elements.specs.Sets.{Adds};
ghost use Rattle.cow_elements.specs.Shared.{lent};
ghost use Rattle.kind_set.specs.Values.{set, is_set};
ghost use Rattle.cow_value.specs.Seen.{keeps_kind};
ghost use Rattle.cow_value.specs.Calls.{IsReady, Does, Costs, Made};
ghost use Rattle.cow_value.specs.Seen.{fresh, literal};

use cow_cell::{Holder, Stock};
use cow_elements::lines::{put_element, put_nil, put_number, put_truth};
use cow_elements::positions::MAX_COUNT;
use cow_elements::{Element, Sought, put_list};
use cow_item::Item;
use cow_model::{Literal, NoMemory, Refusal, Statement};
use cow_set::Set;
use cow_value::{Collection, Holds, Meets, Shown};
use std::alloc::Global;

// Whether the set is full and hasn't the atom, so that no element can be made of it.
fn is_full<T: Element<Q>, Q: Stock>(s: &Set<T, Q>, atom: &Literal) -> bool
    requires small { length s.now.value ≤ max_count }
    ensures full { result ≡ true → (length s.now.value ≡ max_count)
        × (member atom.now s.now.value ≡ false) }
    ensures room { result ≡ false → length (with_member in_order s.now.value atom.now) ≤ max_count }
{
    s.count() >= MAX_COUNT && !s.contains(&Sought::by(atom))
}

// The atom's element is a member: whether it wasn't one before. Where it was, nothing changes.
fn add<T: Element<Q>, Q: Stock>(
    s: &mut Set<T, Q>,
    alloc: Global,
    atom: &Literal,
    h: &mut Holder<Q>,
) -> Result<bool, NoMemory>
    requires text { FitsText atom.now }
    requires ready { IsReady 1 (set s.old) h.old }
    ensures { Adds T.is_counted in_order atom.now s.old s.new h.old h.new result }
{
    let x = T::read(alloc, atom, h)?;
    match s.insert(x, h) {
        Ok(is_new) => Ok(is_new),
        Err((refused, x)) => {
            x.end(h);
            Err(refused)
        }
    }
}

// The same, and `line` is appended where the element is new. Where it isn't, nothing is.
fn add_telling<T: Element<Q>, Q: Stock>(
    s: &mut Set<T, Q>,
    alloc: Global,
    atom: &Literal,
    line: &[u8],
    text: &mut Vec<u8>,
    h: &mut Holder<Q>,
) -> Result<bool, NoMemory>
    requires text { FitsText atom.now }
    requires ready { IsReady 1 (set s.old) h.old }
    ensures adds { Adds T.is_counted in_order atom.now s.old s.new h.old h.new result }
    ensures told { IfOk result (λ is_new.
        text.new.items ≡ text.old.items ++ (if is_new then line.now else [])) }
    ensures kept { OnErr result (text.new.items ≡ text.old.items) }
{
    let before = text.len();
    text.extend_from_slice(line)?;
    let added = add(s, alloc, atom, h);
    match added {
        Ok(true) => {}
        _ => text.truncate(before),
    }
    added
}

/// `insert N A`
fn insert<T: Element<Q>, Q: Stock>(
    s: &mut Set<T, Q>,
    alloc: Global,
    atom: &Literal,
    text: &mut Vec<u8>,
    h: &mut Holder<Q>,
) -> Result<Result<(), Refusal>, NoMemory>
    requires length { FitsText atom.now }
    requires ready { IsReady 1 (set s.old) h.old }
    ensures does { Does (keyed atom.now (spec.insert atom.now)) (set s.old) (set s.new)
        text.old.items text.new.items result }
    ensures paid { Costs T.is_counted (literal T.is_counted (atom.now ∷ []))
        (keyed atom.now (spec.insert atom.now)) (set s.old) (set s.new) h.old h.new result }
{
    if is_full(s, atom) {
        return Ok(Err(Refusal::Full));
    }
    if !add_telling(s, alloc, atom, b"true\n", text, h)? {
        put_truth(false, text)?;
    }
    Ok(Ok(()))
}

/// Whether `insert N A` leaves it alone.
fn insert_parts<T: Element<Q>, Q: Stock>(s: &Set<T, Q>, atom: &Literal) -> bool
    ensures { TellsParts result (keyed atom.now (spec.insert atom.now)) (plain.Set s.now.value) }
{
    !s.contains(&Sought::by(atom))
}

/// `update N A`. An element in the place of one that is the same would be the same plain value, so a member stays.
fn update<T: Element<Q>, Q: Stock>(
    s: &mut Set<T, Q>,
    alloc: Global,
    atom: &Literal,
    text: &mut Vec<u8>,
    h: &mut Holder<Q>,
) -> Result<Result<(), Refusal>, NoMemory>
    requires length { FitsText atom.now }
    requires ready { IsReady 1 (set s.old) h.old }
    ensures does { Does (keyed atom.now (spec.update atom.now)) (set s.old) (set s.new)
        text.old.items text.new.items result }
    ensures paid { Costs T.is_counted (literal T.is_counted (atom.now ∷ []))
        (keyed atom.now (spec.update atom.now)) (set s.old) (set s.new) h.old h.new result }
{
    if is_full(s, atom) {
        return Ok(Err(Refusal::Full));
    }
    if add_telling(s, alloc, atom, b"nil\n", text, h)? {
        return Ok(Ok(()));
    }
    match s.find(&Sought::by(atom)) {
        Some(x) => put_element(x, text)?,
        None => unreachable!(),
    }
    Ok(Ok(()))
}

/// Whether `update N A` leaves it alone.
fn update_parts<T: Element<Q>, Q: Stock>(s: &Set<T, Q>, atom: &Literal) -> bool
    ensures { TellsParts result (keyed atom.now (spec.update atom.now)) (plain.Set s.now.value) }
{
    !s.contains(&Sought::by(atom))
}

/// `remove N X`
fn remove<T: Element<Q>, Q: Stock>(
    s: &mut Set<T, Q>,
    x: &Literal,
    text: &mut Vec<u8>,
    h: &mut Holder<Q>,
) -> Result<Result<(), Refusal>, NoMemory>
    requires ready { IsReady 1 (set s.old) h.old }
    ensures does { Does (keyed x.now (spec.remove x.now)) (set s.old) (set s.new)
        text.old.items text.new.items result }
    ensures paid { Costs T.is_counted (literal T.is_counted (x.now ∷ []))
        (keyed x.now (spec.remove x.now)) (set s.old) (set s.new) h.old h.new result }
{
    let sought = Sought::by(x);
    let before = text.len();
    match s.find(&sought) {
        Some(member) => put_element(member, text)?,
        None => {
            put_nil(text)?;
            return Ok(Ok(()));
        }
    }
    match s.remove(&sought, h) {
        Ok(Some(old)) => {
            old.end(h);
            Ok(Ok(()))
        }
        Ok(None) => unreachable!(),
        Err(refused) => {
            text.truncate(before);
            Err(refused)
        }
    }
}

/// Whether `remove N X` leaves it alone.
fn remove_parts<T: Element<Q>, Q: Stock>(s: &Set<T, Q>, x: &Literal) -> bool
    ensures { TellsParts result (keyed x.now (spec.remove x.now)) (plain.Set s.now.value) }
{
    match s.find(&Sought::by(x)) {
        Some(_) => true,
        None => false,
    }
}

/// Why `union N M` is refused, where both are sets.
fn union_refusal<T: Element<Q>, Q: Stock>(s: &Set<T, Q>, other: &Set<T, Q>) -> Option<Refusal>
    requires small { length s.now.value ≤ max_count }
    ensures { result ≡ refusal_in
        ((whole (λ v. spec.union v (plain.Set other.now.value))).run (plain.Set s.now.value)) }
{
    let room = MAX_COUNT - s.count();
    if other.count() <= room {
        return None;
    }
    (s.lacking(other) > room).then_some(Refusal::Full)
}

/// `union N M`
fn union<T: Element<Q>, Q: Stock>(
    s: &mut Set<T, Q>,
    other: &Set<T, Q>,
    h: &mut Holder<Q>,
) -> Result<Result<(), Refusal>, NoMemory>
    requires small { length other.now.value ≤ max_count }
    requires ready { IsReady (length other.now.value) (set s.old) h.old }
    ensures does { Does (whole (λ v. spec.union v (plain.Set other.now.value)))
        (set s.old) (set s.new) [] [] result }
    ensures paid { Costs T.is_counted (literal T.is_counted other.now.value)
        (whole (λ v. spec.union v (plain.Set other.now.value)))
        (set s.old) (set s.new) h.old h.new result }
{
    if let Some(why) = union_refusal(s, other) {
        return Ok(Err(why));
    }
    s.union(other, h)?;
    Ok(Ok(()))
}

/// `inter N M`
#[tactic(auto, using(cow_elements::proofs::Members::length_inter))]
fn inter<T: Element<Q>, Q: Stock>(
    s: &mut Set<T, Q>,
    other: &Set<T, Q>,
    h: &mut Holder<Q>,
) -> Result<Result<(), Refusal>, NoMemory>
    requires small { length other.now.value ≤ max_count }
    requires ready { IsReady (length other.now.value) (set s.old) h.old }
    ensures does { Does (whole (λ v. spec.inter v (plain.Set other.now.value)))
        (set s.old) (set s.new) [] [] result }
    ensures paid { Costs T.is_counted (lent T.is_counted other.now.value)
        (whole (λ v. spec.inter v (plain.Set other.now.value)))
        (set s.old) (set s.new) h.old h.new result }
{
    s.intersection(other, h)?;
    Ok(Ok(()))
}

/// `minus N M`
#[tactic(auto, using(cow_elements::proofs::Members::length_minus))]
fn minus<T: Element<Q>, Q: Stock>(
    s: &mut Set<T, Q>,
    other: &Set<T, Q>,
    h: &mut Holder<Q>,
) -> Result<Result<(), Refusal>, NoMemory>
    requires small { length other.now.value ≤ max_count }
    requires ready { IsReady (length other.now.value) (set s.old) h.old }
    ensures does { Does (whole (λ v. spec.minus v (plain.Set other.now.value)))
        (set s.old) (set s.new) [] [] result }
    ensures paid { Costs T.is_counted (lent T.is_counted other.now.value)
        (whole (λ v. spec.minus v (plain.Set other.now.value)))
        (set s.old) (set s.new) h.old h.new result }
{
    s.subtracting(other, h)?;
    Ok(Ok(()))
}

/// Why `symdiff N M` is refused, where both are sets.
fn symdiff_refusal<T: Element<Q>, Q: Stock>(s: &Set<T, Q>, other: &Set<T, Q>) -> Option<Refusal>
    requires small { length s.now.value ≤ max_count }
    requires other { length other.now.value ≤ max_count }
    ensures { result ≡ refusal_in
        ((whole (λ v. spec.symdiff v (plain.Set other.now.value))).run (plain.Set s.now.value)) }
{
    if other.count() <= MAX_COUNT - s.count() {
        return None;
    }
    (s.lacking(other) + other.lacking(s) > MAX_COUNT).then_some(Refusal::Full)
}

/// `symdiff N M`
fn symdiff<T: Element<Q>, Q: Stock>(
    s: &mut Set<T, Q>,
    other: &Set<T, Q>,
    h: &mut Holder<Q>,
) -> Result<Result<(), Refusal>, NoMemory>
    requires small { length other.now.value ≤ max_count }
    requires ready { IsReady (length other.now.value) (set s.old) h.old }
    ensures does { Does (whole (λ v. spec.symdiff v (plain.Set other.now.value)))
        (set s.old) (set s.new) [] [] result }
    ensures paid { Costs T.is_counted (literal T.is_counted other.now.value)
        (whole (λ v. spec.symdiff v (plain.Set other.now.value)))
        (set s.old) (set s.new) h.old h.new result }
{
    if let Some(why) = symdiff_refusal(s, other) {
        return Ok(Err(why));
    }
    s.symmetric_difference(other, h)?;
    Ok(Ok(()))
}

// The literal's element is a member of a set of a statement's literals, which counts them in one.
fn make_one<T: Element<Q>, Q: Stock>(
    s: &mut Set<T, Q>,
    alloc: Global,
    literal: &Literal,
    h: &mut Holder<Q>,
) -> Result<(), NoMemory>
    requires text { FitsText literal.now }
    requires alone { s.old.alone ≡ true }
    requires small { length s.old.value ≤ max_count }
    requires spare { need (length s.old.value) + 1 ≤ h.old.spare }
    ensures ok { OnOk result (s.new.value ≡ with_member in_order s.old.value literal.now) }
    ensures alone { s.new.alone ≡ true }
    ensures units { h.new.spare + count_by T.is_counted s.new.value
        ≡ h.old.spare + count_by T.is_counted s.old.value }
    ensures copied { h.new.copied ≡ h.old.copied }
{
    let x = T::uncounted(alloc, literal, h)?;
    match s.insert(x, h) {
        Ok(_) => Ok(()),
        Err((refused, x)) => {
            x.end(h);
            Err(refused)
        }
    }
}

// The elements of the literals are the members of an empty set. Want of memory leaves some of them.
fn make_all<T: Element<Q>, Q: Stock>(
    s: &mut Set<T, Q>,
    alloc: Global,
    literals: &[Literal],
    h: &mut Holder<Q>,
) -> Result<(), NoMemory>
    requires texts { All FitsText literals.now }
    requires few { length literals.now ≤ max_count }
    requires empty { s.old.value ≡ [] }
    requires alone { s.old.alone ≡ true }
    requires spare { need (2 * length literals.now) ≤ h.old.spare }
    ensures ok { OnOk result (s.new.value ≡ members.union in_order [] literals.now) }
    ensures alone { s.new.alone ≡ true }
    ensures units { h.new.spare + count_by T.is_counted s.new.value ≡ h.old.spare }
    ensures copied { h.new.copied ≡ h.old.copied }
{
    for literal in literals {
        make_one(s, alloc, literal, h)?;
    }
    Ok(())
}

/// `let N = set A*`. Each atom counts one copy, repeats among them.
pub fn make<T: Element<Q>, Q: Stock>(
    alloc: Global,
    atoms: &[Literal],
    h: &mut Holder<Q>,
) -> Result<Set<T, Q>, NoMemory>
    requires texts { All FitsText atoms.now }
    requires small { length atoms.now ≤ max_count }
    requires spare { need (2 * length atoms.now + 1) ≤ h.old.spare }
    ensures ok { IfOk result (λ s. set s ≡ fresh (spec.made kind.Set atoms.now)) }
    ensures paid { Made T.is_counted (spec.made kind.Set atoms.now) (length atoms.now)
        h.old h.new result }
{
    let mut s = Set::new(alloc, h)?;
    if let Err(refused) = make_all(&mut s, alloc, atoms, h) {
        s.end(h);
        return Err(refused);
    }
    h.note(atoms.len() as u64);
    Ok(s)
}

// Appends the printed form. Want of memory leaves a part of it.
fn put_sorted<T: Element<Q>, Q: Stock>(s: &Set<T, Q>, text: &mut Vec<u8>) -> Result<(), NoMemory>
    ensures ok { OnOk result (text.new.items ≡ text.old.items ++ list_text s.now.value) }
    ensures front { StartsWith text.new.items text.old.items }
{
    let members = s.sorted(*text.allocator())?;
    put_list(&members, text)
}

/// The line of `equal N M`, where both are sets.
fn equal<T: Element<Q>, Q: Stock>(
    s: &Set<T, Q>,
    other: &Set<T, Q>,
    text: &mut Vec<u8>,
) -> Result<(), NoMemory>
    ensures ok { OnOk result (text.new.items ≡ text.old.items
        ++ line (truth (same_items s.now.value other.now.value))) }
    ensures err { OnErr result (text.new.items ≡ text.old.items) }
{
    put_truth(s.equals(other), text)
}

/// A set as a value of a script.
#[derive(Drop)]
pub struct SetValue<T: Element<Q>, Q: Stock> {
    /// The collection.
    pub held: Set<T, Q>,
}

impl<T: Element<Q>, Q: Stock> Shown for SetValue<T, Q> {
    ghost seen = { λ v. set v.held };

    ghost counted = { T.is_counted };

    ghost is_kind = { is_set };
}

impl<T: Element<Q>, Q: Stock> Collection<Q> for SetValue<T, Q> {
    ghost takes = { keeps_kind };

    fn count(&self) -> usize {
        self.held.count()
    }

    fn size(&self) -> usize {
        self.held.count()
    }

    fn stop(&self) -> usize {
        self.held.count()
    }

    fn copy(&mut self, h: &mut Holder<Q>) -> SetValue<T, Q> {
        SetValue {
            held: self.held.copy(h),
        }
    }

    fn end(self, h: &mut Holder<Q>) {
        let SetValue { held } = self;
        held.end(h);
    }

    fn put(&self, text: &mut Vec<u8>) -> Result<(), NoMemory> {
        put_sorted(&self.held, text)
    }

    fn change(
        &mut self,
        alloc: Global,
        statement: &Statement,
        text: &mut Vec<u8>,
        h: &mut Holder<Q>,
    ) -> Result<Result<(), Refusal>, NoMemory> {
        match statement {
            Statement::Insert { atom, .. } => insert(&mut self.held, alloc, atom, text, h),
            Statement::Update { atom, .. } => update(&mut self.held, alloc, atom, text, h),
            Statement::Remove { atom, .. } => remove(&mut self.held, atom, text, h),
            _ => Ok(Err(Refusal::WrongKind)),
        }
    }

    fn parts(&self, statement: &Statement) -> bool {
        match statement {
            Statement::Insert { atom, .. } => insert_parts(&self.held, atom),
            Statement::Update { atom, .. } => update_parts(&self.held, atom),
            Statement::Remove { atom, .. } => remove_parts(&self.held, atom),
            _ => true,
        }
    }

    fn cost(&self, _statement: &Statement, alone: bool) -> usize {
        if alone { 0 } else { self.held.count() }
    }

    fn both_cost(&self, alone: bool) -> usize {
        if alone { 0 } else { self.held.count() }
    }

    fn tell(
        &self,
        statement: &Statement,
        text: &mut Vec<u8>,
    ) -> Result<Result<(), Refusal>, NoMemory> {
        match statement {
            Statement::Count { .. } => put_number(self.held.count(), text)?,
            Statement::Has { atom, .. } => {
                put_truth(self.held.contains(&Sought::by(atom)), text)?;
            }
            _ => return Ok(Err(Refusal::WrongKind)),
        }
        Ok(Ok(()))
    }

    fn slice_refusal(&self, _i: i64, _j: i64) -> Option<Refusal> {
        Some(Refusal::WrongKind)
    }
}

impl<T: Element<Q>, Q: Stock, V: Holds<SetValue<T, Q>>> Meets<V, Q> for SetValue<T, Q> {
    fn change_by(
        &mut self,
        statement: &Statement,
        other: &V,
        h: &mut Holder<Q>,
    ) -> Result<Result<(), Refusal>, NoMemory> {
        let Some(other) = other.as_kind() else {
            return Ok(Err(Refusal::WrongKind));
        };
        match statement {
            Statement::Union { .. } => union(&mut self.held, &other.held, h),
            Statement::Inter { .. } => inter(&mut self.held, &other.held, h),
            Statement::Minus { .. } => minus(&mut self.held, &other.held, h),
            Statement::SymDiff { .. } => symdiff(&mut self.held, &other.held, h),
            _ => Ok(Err(Refusal::WrongKind)),
        }
    }

    fn refusal_by(&self, statement: &Statement, other: &V) -> Option<Refusal> {
        let Some(other) = other.as_kind() else {
            return Some(Refusal::WrongKind);
        };
        match statement {
            Statement::Union { .. } => union_refusal(&self.held, &other.held),
            Statement::Inter { .. } | Statement::Minus { .. } => None,
            Statement::SymDiff { .. } => symdiff_refusal(&self.held, &other.held),
            _ => Some(Refusal::WrongKind),
        }
    }

    fn parts_by(&self, statement: &Statement, other: &V) -> bool {
        let Some(other) = other.as_kind() else {
            return true;
        };
        match statement {
            Statement::Union { .. } => !other.held.is_subset(&self.held),
            Statement::Inter { .. } => !self.held.is_subset(&other.held),
            Statement::Minus { .. } => !self.held.is_disjoint(&other.held),
            Statement::SymDiff { .. } => !other.held.is_empty(),
            _ => true,
        }
    }

    fn tell_both(
        &self,
        statement: &Statement,
        other: &V,
        text: &mut Vec<u8>,
    ) -> Result<Result<(), Refusal>, NoMemory> {
        let Some(other) = other.as_kind() else {
            return Ok(Err(Refusal::WrongKind));
        };
        match statement {
            Statement::Subset { .. } => put_truth(self.held.is_subset(&other.held), text)?,
            Statement::Disjoint { .. } => put_truth(self.held.is_disjoint(&other.held), text)?,
            Statement::Equal { .. } => equal(&self.held, &other.held, text)?,
            _ => return Ok(Err(Refusal::WrongKind)),
        }
        Ok(Ok(()))
    }

    fn slice(&mut self, _i: i64, _j: i64, _h: &mut Holder<Q>) -> Result<V, Refusal> {
        Err(Refusal::WrongKind)
    }
}
