ghost use Rattle.std.specs.Prelude.{◌≡◌, ℕ};
ghost use Rattle.cow_rule.specs.Asked.{raised};
ghost use Rattle.cow_model.specs.Lazy as lazy;
ghost use Rattle.cow_model.specs.declared.shape.Shape.{Shape as Form};

use cow_model::Shape;

/// What a lazy view asks about integers, where Swift's views have a closure. Whoever makes a rule boxes it and
/// lends it to a view. No call takes memory.
pub trait Rule: Drop {
    /// What it does.
    ghost shape_of: { Self → Form };

    /// How often it has been asked.
    ghost asked_of: { Self → ℕ };

    /// What it does. No call changes it. One step.
    fn shape(&self) -> Shape
        ensures { result ≡ shape_of self.now };

    /// How often it has been asked; the number stands still at 2^64 - 1. One step.
    fn asked(&self) -> u64
        ensures { result ≡ asked_of self.now };

    /// What it makes of an integer: the transform of Swift's `map`. Asks once.
    fn map(&mut self, x: i64) -> i64
        ensures value { result ≡ lazy.value_by (shape_of self.old) x }
        ensures shape { shape_of self.new ≡ shape_of self.old }
        ensures asked { asked_of self.new ≡ raised 1 (asked_of self.old) };

    /// Whether it keeps an integer: the test of Swift's `filter`. Asks once.
    fn keep(&mut self, x: i64) -> bool
        ensures value { result ≡ lazy.keeps (shape_of self.old) x }
        ensures shape { shape_of self.new ≡ shape_of self.old }
        ensures asked { asked_of self.new ≡ raised 1 (asked_of self.old) };
}

/// A rule that is its shape and how often it was asked.
#[derive(Clone, Copy, Debug, PartialEq, Eq)]
pub struct PlainRule {
    pub shape: Shape,
    /// How often it has been asked.
    pub asked: u64,
}

impl Rule for PlainRule {
    ghost shape_of = { λ r. r.shape };

    ghost asked_of = { λ r. r.asked };

    fn shape(&self) -> Shape {
        self.shape
    }

    fn asked(&self) -> u64 {
        self.asked
    }

    fn map(&mut self, x: i64) -> i64 {
        self.asked = self.asked.saturating_add(1);
        match self.shape {
            Shape::Add(k) => x.saturating_add(k),
            Shape::Negate => x.checked_neg().unwrap_or(i64::MAX),
            Shape::Even | Shape::Below(_) => x,
        }
    }

    fn keep(&mut self, x: i64) -> bool {
        self.asked = self.asked.saturating_add(1);
        match self.shape {
            Shape::Add(_) | Shape::Negate => true,
            Shape::Even => x.unsigned_abs() % 2 == 0,
            Shape::Below(k) => x < k,
        }
    }
}
