// A name with its value, and what one statement does to it.
ghost use Rattle.std.specs.Prelude.{◌≡◌, [], ◌+◌, ◌^◌, ◌≤◌, ◌<◌, ◌++◌, true, false, ⊤, Err, length, take, OnOk, OnErr, IfOk, IfSome, IfNone, MatchResult};
ghost use Rattle.std.specs.Io.{StartsWith};
ghost use Rattle.std.specs.Str.{bytes_eq};
ghost use Rattle.cow_model.specs.Answers.{refusal_in};
ghost use Rattle.cow_model.specs.Atoms.{FitsTexts, counted_in};
ghost use Rattle.cow_model.specs.Changes.{query_of, query_both_of};
ghost use Rattle.cow_model.specs.Lazy.{asks};
ghost use Rattle.cow_model.specs.Operation as operation;
ghost use Rattle.cow_model.specs.Plain as plain;
ghost use Rattle.cow_model.specs.Plain.{max_count, stop};
ghost use Rattle.cow_model.specs.Printed.{plain_text};
ghost use Rattle.cow_model.specs.Purse.{less};
ghost use Rattle.cow_model.specs.Sharing.{literals, both_cost_of};
ghost use Rattle.cow_model.specs.Turns.{turn_of, turn_by_of, added_of, alone_after};
ghost use Rattle.cow_model.specs.declared.statement.Statement.{out-Statement};
ghost use Rattle.cow_rule.specs.Asked.{raised};
ghost use Rattle.cow_value.specs.Calls.{Tells};
ghost use Rattle.cow_value.specs.Seen.{shared, units};
ghost use Rattle.cow_views.specs.Views.{has_views, items_of, view_cost};
ghost use Rattle.cow_eval.specs.Entries.{SeenEntry, Changes, EntryCosts, allowed_for, entry_of, entry_after};
ghost use Rattle.cow_eval.specs.Entries as entries;
ghost use Rattle.cow_eval.specs.Looks.{LooksWithin};

use cow_cell::{Holder, Stock};
use cow_model::{Name, NoMemory, Refusal, Statement, Verb};
use cow_rule::Rule;
use cow_value::{Values, added};
use cow_views::Views;
use std::alloc::Global;
use std::marker::{Model, PhantomData};
use std::mem;

/// A name, its value, and the flag: whether the sharing rule takes the value to be alone.
#[derive(Drop)]
pub struct Entry<V: Values<Q>, Q: Stock> {
    name: Name,
    value: V,
    alone: bool,
    stock: PhantomData<Q>,
}

impl<V: Values<Q>, Q: Stock> Model for Entry<V, Q> {
    ghost use Rattle.cow_eval.specs.Entries.{SeenEntry, IsKept};

    ghost Value = { SeenEntry };

    ghost view = { λ e. record { name = e.name; seen = V.seen e.value; flag = e.alone } };

    ghost invariant = { λ e. IsKept (record { name = e.name; seen = V.seen e.value; flag = e.alone }) };
}

// The flag behind a change of a value whose flag was false, of which `parts` was told before.
fn flag_after(parts: bool, done: &Result<Result<(), Refusal>, NoMemory>) -> bool
    ensures { result ≡ entries.flag_after parts done.now }
{
    match done {
        Ok(Ok(())) => parts,
        Ok(Err(_)) | Err(_) => false,
    }
}

// What is left of the room behind a line that stands behind the first `before` bytes. Where it is longer than the
// room, it is taken back.
fn keep_within(before: usize, room: u64, text: &mut Vec<u8>) -> Option<u64>
    requires within { before ≤ length text.old.items }
    ensures fits { IfSome result (λ left. (text.new.items ≡ text.old.items)
        × (left + length text.old.items ≡ room + before)) }
    ensures longer { IfNone result ((text.new.items ≡ take before text.old.items)
        × (room + before < length text.old.items)) }
{
    let length = (text.len() - before) as u64;
    if length > room {
        text.truncate(before);
        return None;
    }
    Some(room - length)
}

impl<V: Values<Q>, Q: Stock> Entry<V, Q> {
    /// A name with a value.
    pub fn new(name: Name, value: V, alone: bool) -> Entry<V, Q>
        requires kept { entries.IsKept (record { name = name; seen = V.seen value; flag = alone }) }
        ensures { result ≡ record { name = name; seen = V.seen value; flag = alone } }
    {
        Entry {
            name,
            value,
            alone,
            stock: PhantomData,
        }
    }

    /// Its name.
    pub fn name(&self) -> &[u8]
        ensures { result.now ≡ self.now.name }
    {
        self.name.as_slice()
    }

    /// The same value and flag under another name.
    pub fn renamed(self, name: Name) -> Entry<V, Q>
        ensures { result ≡ record self { name = name } }
    {
        Entry { name, ..self }
    }

    /// Whether this is its name.
    pub fn is_named(&self, name: &[u8]) -> bool
        ensures { result ≡ bytes_eq self.now.name name.now }
    {
        self.name.as_slice() == name
    }

    /// The most copies of a statement, beside its literals.
    pub fn cost(&self, statement: &Statement) -> usize
        ensures cost { result ≡ (turn_of (out-Statement statement.now)).cost self.now.flag self.now.seen.value }
        ensures small { result ≤ 131073 }
    {
        self.value.cost(statement, self.alone)
    }

    /// The most copies of a change by another value, beside those of its elements. `is_one` says that
    /// the other is this very value, which isn't alone then.
    pub fn both_cost(&self, is_one: bool) -> usize
        ensures cost { result ≡ both_cost_of (entries.flag_beside is_one self.now.flag) self.now.seen.value }
        ensures small { result ≤ 131072 }
    {
        self.value.both_cost(!is_one && self.alone)
    }

    /// The most atoms of the value that a change of another by it adds.
    pub fn added(&self, statement: &Statement) -> usize
        ensures atoms { result ≡ added_of (out-Statement statement.now) self.now.seen.value }
        ensures small { result ≤ 131072 }
    {
        added(statement, &self.value)
    }

    /// A second value; neither is alone. One step, and no memory.
    pub fn copy(&mut self, h: &mut Holder<Q>) -> V
        requires { 1 ≤ h.old.spare }
        ensures entry { self.new ≡ record self.old { seen = shared self.old.seen; flag = false } }
        ensures copy { V.seen result ≡ shared self.old.seen }
        ensures small { plain.count (V.seen result).value ≤ max_count }
        ensures spent { h.new ≡ less 1 h.old }
    {
        self.alone = false;
        self.value.copy(h)
    }

    /// A slice of it; neither is alone. One step, and no memory. A refusal changes nothing.
    pub fn slice(&mut self, i: i64, j: i64, h: &mut Holder<Q>) -> Result<V, Refusal>
        requires { 1 ≤ h.old.spare }
        ensures answer { MatchResult result
            (λ v. operation.slice i j self.old.seen.value ≡ operation.silent (V.seen v).value)
            (λ why. operation.slice i j self.old.seen.value ≡ Err why) }
        ensures entry { OnOk result (self.new ≡ record self.old { seen = shared self.old.seen; flag = false }) }
        ensures small { IfOk result (λ v. plain.count (V.seen v).value ≤ max_count) }
        ensures bare { units V.counted self.old.seen ≡ 0 → IfOk result (λ v. units V.counted (V.seen v) ≡ 0) }
        ensures spent { OnOk result (h.new ≡ less 1 h.old) }
        ensures kept { entries.IsKept self.new }
        ensures refused { OnErr result ((self.new ≡ self.old) × (h.new ≡ h.old)) }
    {
        let slice = self.value.slice(i, j, h)?;
        self.alone = false;
        Ok(slice)
    }

    /// Why no slice of it is made, told without a change.
    pub fn slice_refusal(&self, i: i64, j: i64) -> Option<Refusal>
        ensures { result ≡ refusal_in (operation.slice i j self.now.seen.value) }
    {
        self.value.slice_refusal(i, j)
    }

    /// Its flag becomes false.
    pub fn settle(&mut self)
        ensures entry { self.new ≡ record self.old { flag = false } }
        ensures kept { entries.IsKept self.new }
    {
        self.alone = false;
    }

    /// Appends the printed form. Want of memory leaves a part of it.
    pub fn put(&self, text: &mut Vec<u8>) -> Result<(), NoMemory>
        ensures ok { OnOk result (text.new.items ≡ text.old.items ++ plain_text self.now.seen.value) }
        ensures front { StartsWith text.new.items text.old.items }
    {
        self.value.put(text)
    }

    /// Appends the line of a statement that reads the value.
    pub fn tell(
        &self,
        statement: &Statement,
        text: &mut Vec<u8>,
    ) -> Result<Result<(), Refusal>, NoMemory>
        ensures { Tells (query_of (out-Statement statement.now) self.now.seen.value)
            text.old.items text.new.items result }
    {
        self.value.tell(statement, text)
    }

    /// Appends the line of a statement that reads two values.
    pub fn tell_both(
        &self,
        statement: &Statement,
        other: &Entry<V, Q>,
        text: &mut Vec<u8>,
    ) -> Result<Result<(), Refusal>, NoMemory>
        ensures { Tells
            (query_both_of (out-Statement statement.now) self.now.seen.value other.now.seen.value)
            text.old.items text.new.items result }
    {
        self.value.tell_both(statement, &other.value, text)
    }

    /// Gives the handle of the value back.
    pub fn end(self, h: &mut Holder<Q>)
        ensures spare { h.old.spare + 1 ≤ h.new.spare }
        ensures copied { h.new.copied ≡ h.old.copied }
        ensures bare { units V.counted self.seen ≡ 0 → h.new.spare ≡ h.old.spare + 1 }
    {
        self.value.end(h);
    }

    /// Takes another value, and gives the handle of the old one back. No memory.
    pub fn put_value(&mut self, value: V, alone: bool, h: &mut Holder<Q>)
        requires small { plain.count (V.seen value).value ≤ max_count }
        requires alone { alone ≡ true → (V.seen value).alone ≡ true }
        ensures entry { self.new ≡ record self.old { seen = V.seen value; flag = alone } }
        ensures spare { h.old.spare + 1 ≤ h.new.spare }
        ensures copied { h.new.copied ≡ h.old.copied }
        ensures bare { units V.counted self.old.seen ≡ 0 → h.new.spare ≡ h.old.spare + 1 }
    {
        self.alone = alone;
        mem::replace(&mut self.value, value).end(h);
    }

    /// Does a statement that changes the value, and appends what it prints. Where the flag is false, whether
    /// it leaves the value alone is told before.
    pub fn change(
        &mut self,
        alloc: Global,
        statement: &Statement,
        text: &mut Vec<u8>,
        h: &mut Holder<Q>,
    ) -> Result<Result<(), Refusal>, NoMemory>
        requires texts { FitsTexts (out-Statement statement.now) }
        requires few { literals (out-Statement statement.now) ≤ max_count }
        requires near { stop self.old.seen.value < 2 ^ 31 }
        requires spare { 2 ^ 39 ≤ h.old.spare }
        ensures does { Changes
            (alone_after (turn_of (out-Statement statement.now)) self.old.flag self.old.seen.value)
            ((turn_of (out-Statement statement.now)).run self.old.seen.value)
            self.old self.new text.old.items text.new.items result }
        ensures kept { entries.IsKept self.new }
        ensures costs { EntryCosts V.counted
            (allowed_for (literals (out-Statement statement.now)
            + (turn_of (out-Statement statement.now)).cost self.old.flag self.old.seen.value)
            ((turn_of (out-Statement statement.now)).run self.old.seen.value))
            (counted_in V.counted (out-Statement statement.now) ≡ 0) self.old self.new h.old h.new }
    {
        if self.alone {
            return self.value.change(alloc, statement, text, h);
        }
        let parts = self.value.parts(statement);
        let result = self.value.change(alloc, statement, text, h);
        self.alone = flag_after(parts, &result);
        result
    }

    /// Does a statement that changes the value by that of another name; none of them prints.
    pub fn change_by(
        &mut self,
        statement: &Statement,
        other: &Entry<V, Q>,
        h: &mut Holder<Q>,
    ) -> Result<Result<(), Refusal>, NoMemory>
        requires near { stop self.old.seen.value < 2 ^ 31 }
        requires spare { 2 ^ 39 ≤ h.old.spare }
        ensures does { Changes
            (alone_after (turn_by_of (out-Statement statement.now) other.now.seen.value)
            self.old.flag self.old.seen.value)
            ((turn_by_of (out-Statement statement.now) other.now.seen.value).run self.old.seen.value)
            self.old self.new [] [] result }
        ensures kept { entries.IsKept self.new }
        ensures costs { EntryCosts V.counted
            (allowed_for (both_cost_of self.old.flag self.old.seen.value
            + added_of (out-Statement statement.now) other.now.seen.value)
            ((turn_by_of (out-Statement statement.now) other.now.seen.value).run self.old.seen.value))
            (units V.counted other.now.seen ≡ 0) self.old self.new h.old h.new }
    {
        if self.alone {
            return self.value.change_by(statement, &other.value, h);
        }
        let parts = self.value.parts_by(statement, &other.value);
        let result = self.value.change_by(statement, &other.value, h);
        self.alone = flag_after(parts, &result);
        result
    }

    /// The same by itself: a second handle is lent, and the value isn't alone afterwards. The refusal comes
    /// before that, since a refused statement keeps the flag.
    pub fn change_by_itself(
        &mut self,
        statement: &Statement,
        h: &mut Holder<Q>,
    ) -> Result<Result<(), Refusal>, NoMemory>
        requires near { stop self.old.seen.value < 2 ^ 31 }
        requires spare { 2 ^ 39 ≤ h.old.spare }
        ensures does { Changes (λ value. false)
            ((turn_by_of (out-Statement statement.now) self.old.seen.value).run self.old.seen.value)
            self.old self.new [] [] result }
        ensures kept { entries.IsKept self.new }
        ensures costs { EntryCosts V.counted
            (allowed_for (both_cost_of false self.old.seen.value
            + added_of (out-Statement statement.now) self.old.seen.value)
            ((turn_by_of (out-Statement statement.now) self.old.seen.value).run self.old.seen.value))
            ⊤ self.old self.new h.old h.new }
    {
        if let Some(why) = self.value.refusal_by(statement, &self.value) {
            return Ok(Err(why));
        }
        self.alone = false;
        let other = self.value.copy(h);
        let result = self.value.change_by(statement, &other, h);
        other.end(h);
        result
    }
}

impl<V: Views<Q>, Q: Stock> Entry<V, Q> {
    /// Whether the value has views.
    pub fn has_views(&self) -> bool
        ensures { result ≡ has_views self.now.seen.value }
    {
        self.value.has_views()
    }

    /// The copies that a lazy statement allows.
    pub fn view_cost(&self, verb: Verb) -> usize
        requires views { has_views self.now.seen.value ≡ true }
        ensures cost { result ≡ view_cost verb (items_of self.now.seen.value) }
        ensures small { result ≤ max_count }
    {
        match verb {
            Verb::First => 1,
            Verb::Show => self.value.size(),
            Verb::Count => 0,
        }
    }

    /// Appends the line of a lazy statement, for which so many bytes are left where it uses any, and answers how many
    /// are left then. `None` where it is longer: nothing is appended then, but the rule was asked all the same. The
    /// value isn't alone afterwards.
    pub fn look(
        &mut self,
        alloc: Global,
        rule: &mut Box<dyn Rule>,
        verb: Verb,
        room: u64,
        text: &mut Vec<u8>,
        h: &mut Holder<Q>,
    ) -> Result<Option<u64>, NoMemory>
        requires views { has_views self.old.seen.value ≡ true }
        requires near { stop self.old.seen.value < 2 ^ 31 }
        requires spare { 2 ^ 39 ≤ h.old.spare }
        ensures entry { self.new ≡ record self.old { seen = shared self.old.seen; flag = false } }
        ensures told { IfOk result (LooksWithin (shape_of rule.old) verb (items_of self.old.seen.value) room
            text.old.items text.new.items) }
        ensures err { OnErr result (text.new.items ≡ text.old.items) }
        ensures shape { shape_of rule.new ≡ shape_of rule.old }
        ensures asked { OnOk result (asked_of rule.new
            ≡ raised (asks (items_of self.old.seen.value) (shape_of rule.old) verb) (asked_of rule.old)) }
        ensures kept { entries.IsKept self.new }
        ensures costs { EntryCosts V.counted (view_cost verb (items_of self.old.seen.value)) ⊤
            self.old self.new h.old h.new }
    {
        self.alone = false;
        let before = text.len();
        self.value.look(alloc, rule, verb, text, h)?;
        match verb {
            Verb::Show => Ok(keep_within(before, room, text)),
            Verb::First | Verb::Count => Ok(Some(room)),
        }
    }
}
