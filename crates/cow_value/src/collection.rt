ghost use Rattle.std.specs.Prelude.{◌≡◌, ℕ, ◌+◌, ◌*◌, ◌≤◌, ◌++◌, [], Bool, true, false, None, Err, length, All, OnOk, OnErr, IfOk, IfSome, MatchResult};
ghost use Rattle.std.specs.Io.{StartsWith};
ghost use Rattle.cow_model.specs.Answers.{refusal_in};
ghost use Rattle.cow_model.specs.Atoms.{FitsTexts};
ghost use Rattle.cow_model.specs.Changes.{query_of, query_both_of};
ghost use Rattle.cow_model.specs.Flat.{need};
ghost use Rattle.cow_model.specs.Literals.{FitsText};
ghost use Rattle.cow_model.specs.Operation as spec;
ghost use Rattle.cow_model.specs.Plain as plain;
ghost use Rattle.cow_model.specs.Plain.{max_count};
ghost use Rattle.cow_model.specs.Printed.{plain_text};
ghost use Rattle.cow_model.specs.Purse.{Moves, less, more};
ghost use Rattle.cow_model.specs.Sharing.{Layer, literals, both_cost_of};
ghost use Rattle.cow_model.specs.Turns.{turn_of, turn_by_of, TellsParts};
ghost use Rattle.cow_model.specs.Units.{nodes_of, units_of};
ghost use Rattle.cow_model.specs.declared.plain.Literal.{Literal};
ghost use Rattle.cow_model.specs.declared.statement.Statement.{out-Statement};
ghost use Rattle.cow_model.specs.declared.value.Plain.{Plain};
ghost use Rattle.cow_value.specs.Built.{is_built_kind};
ghost use Rattle.cow_value.specs.Calls.{IsReady, Does, Costs, Tells, Made};
ghost use Rattle.cow_value.specs.Seen.{Seen, shared, fresh, units, stored, literals_of, given_by};

use cow_cell::{Holder, Stock};
use cow_model::{Kind, Literal, NoMemory, Refusal, Statement};
use std::alloc::Global;

/// What contracts see of a value.
pub trait Shown: Sized + Drop {
    /// Its plain value, whether it is known to be alone, and its hidden units.
    ghost seen: { Self → Seen };

    /// Which atoms take a unit.
    ghost counted: { Literal → Bool };

    /// Which plain values are of its kind.
    ghost is_kind: { Plain → Bool };
}

/// The type of the values of all kinds, as the kind `K` sees it.
pub trait Holds<K: Shown>: Shown {
    /// The value, where it is of the kind.
    fn as_kind(&self) -> Option<&K>
        ensures some { IfSome result (λ k. K.seen k.now ≡ Self.seen self.now) }
        ensures none { result ≡ None → K.is_kind (Self.seen self.now).value ≡ false };

    /// A value of the kind as one of all kinds.
    fn of(kind: K) -> Self
        ensures { Self.seen result ≡ K.seen kind };
}

/// A collection of one kind, or the type of all kinds: what a statement on one value does to it.
pub trait Collection<Q: Stock>: Shown {
    /// The statements that `change` does: all, or all but one that gives a value of another kind.
    ghost takes: { Layer → Bool };

    /// The number of elements or pairs.
    fn count(&self) -> usize
        ensures { result ≡ plain.count (Self.seen self.now).value };

    /// The number of atoms: a pair has two.
    fn size(&self) -> usize
        ensures { result ≡ plain.size (Self.seen self.now).value };

    /// The index behind the last element.
    fn stop(&self) -> usize
        ensures { result ≡ plain.stop (Self.seen self.now).value };

    /// A second whole value, in one step: neither is alone.
    fn copy(&mut self, h: &mut Holder<Q>) -> Self
        requires { 1 ≤ h.old.spare }
        ensures same { Self.seen self.new ≡ shared (Self.seen self.old) }
        ensures copy { Self.seen result ≡ shared (Self.seen self.old) }
        ensures spent { h.new ≡ less 1 h.old };

    /// Gives the handle back; the last one of a storage ends what it holds, shown or not.
    fn end(self, h: &mut Holder<Q>)
        ensures moved { Moves (units Self.counted (Self.seen self)) 0 (more 1 h.old) h.new }
        ensures exact { (Self.seen self).alone ≡ true → nodes_of (Self.seen self).value ≡ 0 →
            h.new ≡ more (stored Self.counted (Self.seen self)) (more 1 h.old) }
        ensures never_less { h.old.spare + 1 ≤ h.new.spare };

    /// Appends the printed form. Want of memory leaves a part of it.
    fn put(&self, text: &mut Vec<u8>) -> Result<(), NoMemory>
        ensures ok { OnOk result
            (text.new.items ≡ text.old.items ++ plain_text (Self.seen self.now).value) }
        ensures front { StartsWith text.new.items text.old.items };

    /// Does a statement that changes one value, and appends what it prints to `text`.
    ///
    /// At most linear in the elements and the literals. A refused statement asks for no memory.
    fn change(
        &mut self,
        alloc: Global,
        statement: &Statement,
        text: &mut Vec<u8>,
        h: &mut Holder<Q>,
    ) -> Result<Result<(), Refusal>, NoMemory>
        requires takes { Self.takes (out-Statement statement.now) ≡ true }
        requires texts { FitsTexts (out-Statement statement.now) }
        requires ready { IsReady (literals (out-Statement statement.now))
            (Self.seen self.old) h.old }
        ensures does { Does (turn_of (out-Statement statement.now))
            (Self.seen self.old) (Self.seen self.new) text.old.items text.new.items result }
        ensures paid { Costs Self.counted (literals_of Self.counted (out-Statement statement.now))
            (turn_of (out-Statement statement.now))
            (Self.seen self.old) (Self.seen self.new) h.old h.new result };

    /// Whether a statement that isn't refused leaves the value alone where it wasn't. No memory.
    fn parts(&self, statement: &Statement) -> bool
        ensures { TellsParts result (turn_of (out-Statement statement.now))
            (Self.seen self.now).value };

    /// The most copies that the sharing rule allows a statement beside its literals, by the flag.
    fn cost(&self, statement: &Statement, alone: bool) -> usize
        ensures { result
            ≡ (turn_of (out-Statement statement.now)).cost alone (Self.seen self.now).value };

    /// The same of a change by another value, beside that value's elements.
    fn both_cost(&self, alone: bool) -> usize
        ensures { result ≡ both_cost_of alone (Self.seen self.now).value };

    /// Appends the line of a statement that reads the value.
    fn tell(
        &self,
        statement: &Statement,
        text: &mut Vec<u8>,
    ) -> Result<Result<(), Refusal>, NoMemory>
        ensures { Tells (query_of (out-Statement statement.now) (Self.seen self.now).value)
            text.old.items text.new.items result };

    /// Why `slice` refuses, told without a change.
    fn slice_refusal(&self, i: i64, j: i64) -> Option<Refusal>
        ensures { result ≡ refusal_in (spec.slice i j (Self.seen self.now).value) };
}

/// A collection beside values of any kind, whose type is `V`: what a statement on two values does, and
/// slices, which are of another kind.
pub trait Meets<V: Shown, Q: Stock>: Collection<Q> {
    /// Does a statement that changes one value by another; none of them prints.
    fn change_by(
        &mut self,
        statement: &Statement,
        other: &V,
        h: &mut Holder<Q>,
    ) -> Result<Result<(), Refusal>, NoMemory>
        requires small { plain.count (V.seen other.now).value ≤ max_count }
        requires ready { IsReady (plain.size (V.seen other.now).value) (Self.seen self.old) h.old }
        ensures does { Does (turn_by_of (out-Statement statement.now) (V.seen other.now).value)
            (Self.seen self.old) (Self.seen self.new) [] [] result }
        ensures paid { Costs Self.counted
            (given_by Self.counted (out-Statement statement.now) (V.seen other.now))
            (turn_by_of (out-Statement statement.now) (V.seen other.now).value)
            (Self.seen self.old) (Self.seen self.new) h.old h.new result };

    /// Why `change_by` refuses, told without a change.
    fn refusal_by(&self, statement: &Statement, other: &V) -> Option<Refusal>
        requires small { plain.count (Self.seen self.now).value ≤ max_count }
        requires other { plain.count (V.seen other.now).value ≤ max_count }
        ensures { result ≡ refusal_in
            ((turn_by_of (out-Statement statement.now) (V.seen other.now).value).run
            (Self.seen self.now).value) };

    /// Whether a change by another value that isn't refused leaves it alone where it wasn't. No memory.
    fn parts_by(&self, statement: &Statement, other: &V) -> bool
        ensures { TellsParts result
            (turn_by_of (out-Statement statement.now) (V.seen other.now).value)
            (Self.seen self.now).value };

    /// Appends the line of a statement that reads two values.
    fn tell_both(
        &self,
        statement: &Statement,
        other: &V,
        text: &mut Vec<u8>,
    ) -> Result<Result<(), Refusal>, NoMemory>
        ensures { Tells
            (query_both_of (out-Statement statement.now)
            (Self.seen self.now).value (V.seen other.now).value)
            text.old.items text.new.items result };

    /// `let N = slice M I J`, in one step: both show their elements, and neither is alone.
    fn slice(&mut self, i: i64, j: i64, h: &mut Holder<Q>) -> Result<V, Refusal>
        requires { 1 ≤ h.old.spare }
        ensures answer { MatchResult result
            (λ v. spec.slice i j (Self.seen self.old).value ≡ spec.silent (V.seen v).value)
            (λ why. spec.slice i j (Self.seen self.old).value ≡ Err why) }
        ensures same { OnOk result (Self.seen self.new ≡ shared (Self.seen self.old)) }
        ensures alone { IfOk result (λ v. (V.seen v).alone ≡ false) }
        ensures hidden { IfOk result
            (λ v. (V.seen v).hidden ≡ units_of Self.counted (Self.seen self.old).value) }
        ensures spent { OnOk result (h.new ≡ less 1 h.old) }
        ensures refused { OnErr result
            ((Self.seen self.new ≡ Self.seen self.old) × (h.new ≡ h.old)) };
}

/// The type of the values of all kinds that are built.
pub trait Values<Q: Stock>: Meets<Self, Q> {
    /// `let N = KIND A*`. Linear in the literals, but for what a kind's own order takes.
    fn make(
        alloc: Global,
        kind: Kind,
        atoms: &[Literal],
        h: &mut Holder<Q>,
    ) -> Result<Self, NoMemory>
        requires built { is_built_kind kind ≡ true }
        requires texts { All FitsText atoms.now }
        requires few { length atoms.now ≤ max_count }
        requires spare { need (2 * length atoms.now + 1) ≤ h.old.spare }
        ensures ok { IfOk result (λ v. Self.seen v ≡ fresh (spec.made kind atoms.now)) }
        ensures paid { Made Self.counted (spec.made kind atoms.now) (length atoms.now)
            h.old h.new result };

    /// It does every statement.
    ghost takes_all: { (s : Layer) → Self.Collection.takes s ≡ true };
}
