ghost use Rattle.std.specs.Prelude.{◌≡◌, ◌+◌, ◌*◌, ◌≤◌, map, length, count_by, slice_get, option_map, IfOk, IfSome, IfNone, OnOk, OnErr};
ghost use Rattle.cow_rule.specs.Asked.{raised, RisesTo};
ghost use Rattle.cow_model.specs.Flat.{Becomes, need};
ghost use Rattle.cow_model.specs.Lazy.{view, asks, integers_in};
ghost use Rattle.cow_model.specs.Purse.{Moves, less, more, noted, unit_if};
ghost use Rattle.cow_model.specs.declared.statement.Verb.TheVariants as verb;
ghost use Rattle.cow_row.specs.Changes.{Returns};

use crate::ask;
use crate::operand::Operand;
use cow_array::Array;
use cow_cell::{Holder, Stock};
use cow_model::{NoMemory, Shape};
use cow_rule::Rule;
use std::alloc::Global;
use std::marker::Model;

/// The elements of an array as a rule shows them, after Swift's `LazyMapSequence` and `LazyFilterSequence`: a rule
/// of shape `Add` or `Negate` maps each integer and leaves each text, one of shape `Even` or `Below` drops the
/// integers that it doesn't keep, and each text.
///
/// Nothing is computed or stored before a call asks for it, and each call asks anew. The rule stays with the
/// caller, who lends it to each call; it has to have the view's shape. It is asked about integers alone. An element
/// that a call hands out counts as one copy, also where the rule made its integer.
#[derive(Drop)]
pub struct LazyView<T: Operand<Q>, Q: Stock> {
    base: Array<T, Q>,
    shape: Shape,
}

impl<T: Operand<Q>, Q: Stock> Model for LazyView<T, Q> {
    ghost use Rattle.cow_lazy.specs.Views.{Lazy};

    ghost Value = { Lazy };

    ghost view = { λ v. record { base = v.base; shape = v.shape } };
}

impl<T: Operand<Q>, Q: Stock> LazyView<T, Q> {
    /// The view of an array through rules of this shape: Swift's `lazy.map` and `lazy.filter`. Asks nothing, and
    /// takes no memory. One step.
    pub fn new(base: Array<T, Q>, shape: Shape) -> LazyView<T, Q>
        ensures base { result.base ≡ base }
        ensures shape { result.shape ≡ shape }
    {
        LazyView { base, shape }
    }

    /// The first element of the view; `None` exactly where it has none. Swift's `first`. The rule is asked up to
    /// that element and no further: a map once at most. No memory.
    pub fn first(&mut self, rule: &mut Box<dyn Rule>, h: &mut Holder<Q>) -> Option<T>
        requires rule { shape_of rule.old ≡ self.old.shape }
        requires spare { 1 ≤ h.old.spare }
        ensures same { self.new ≡ self.old }
        ensures first { option_map T.plain result
            ≡ slice_get (view self.old.shape self.old.base.value) 0 }
        ensures spent { IfSome result (λ x.
            h.new ≡ noted T.WEIGHT (less (unit_if (T.is_counted (T.plain x))) h.old)) }
        ensures free { IfNone result (h.new ≡ h.old) }
        ensures shape { shape_of rule.new ≡ shape_of rule.old }
        ensures asked { asked_of rule.new
            ≡ raised (asks self.old.base.value self.old.shape verb.First) (asked_of rule.old) }
    {
        let found = ask::first(self.base.as_slice(), self.shape, rule, h)?;
        h.note(T::WEIGHT);
        Some(found)
    }

    /// How many elements the view has: Swift's `count`. A map asks nothing, in one step; a filter is asked about
    /// every integer once. No memory.
    pub fn count(&mut self, rule: &mut Box<dyn Rule>) -> usize
        requires rule { shape_of rule.old ≡ self.old.shape }
        ensures same { self.new ≡ self.old }
        ensures value { result ≡ length (view self.old.shape self.old.base.value) }
        ensures shape { shape_of rule.new ≡ shape_of rule.old }
        ensures asked { asked_of rule.new
            ≡ raised (asks self.old.base.value self.old.shape verb.Count) (asked_of rule.old) }
    {
        match self.shape {
            Shape::Add(_) | Shape::Negate => self.base.count(),
            Shape::Even | Shape::Below(_) => ask::count_kept(self.base.as_slice(), rule),
        }
    }

    /// All elements of the view, in an array of their own: Swift's `Array(view)`. The rule is asked about every
    /// integer once. Linear in the array, and takes memory for its number of elements.
    ///
    /// Answers `NoMemory` only for want of it. View and holder are then as they were, and each integer was asked
    /// about once at most.
    pub fn collect(
        &mut self,
        alloc: Global,
        rule: &mut Box<dyn Rule>,
        h: &mut Holder<Q>,
    ) -> Result<Array<T, Q>, NoMemory>
        requires rule { shape_of rule.old ≡ self.old.shape }
        requires spare { need (length self.old.base.value) ≤ h.old.spare }
        ensures same { self.new ≡ self.old }
        ensures ok { IfOk result (λ a. Becomes (view self.old.shape self.old.base.value) a) }
        ensures spent { IfOk result (λ a. h.new ≡ noted (T.WEIGHT * length a.value)
            (less (1 + count_by T.is_counted a.value) h.old)) }
        ensures within { OnOk result (Moves (1 + count_by T.is_counted self.old.base.value)
            (T.WEIGHT * length self.old.base.value) h.old h.new) }
        ensures refused { OnErr result (h.new ≡ h.old) }
        ensures shape { shape_of rule.new ≡ shape_of rule.old }
        ensures asked { OnOk result (asked_of rule.new
            ≡ raised (asks self.old.base.value self.old.shape verb.Show) (asked_of rule.old)) }
        ensures once { RisesTo (integers_in self.old.base.value)
            (asked_of rule.old) (asked_of rule.new) }
    {
        let taken = ask::collected(alloc, &self.base, self.shape, rule, h)?;
        ask::array_of(alloc, taken, h)
    }

    /// Ends the array under the view; the rule stays with the caller. No memory.
    pub fn end(self, h: &mut Holder<Q>)
        ensures moved { Moves (count_by T.is_counted self.base.value) 0 (more 1 h.old) h.new }
        ensures exact { Returns T.is_counted self.base (more 1 h.old) h.new }
        ensures never_less { h.old.spare + 1 ≤ h.new.spare }
    {
        let LazyView { base, shape: _ } = self;
        base.end(h);
    }
}
