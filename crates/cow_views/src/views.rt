ghost use Rattle.std.specs.Prelude.{◌≡◌, ◌≤◌, true, OnOk};
ghost use Rattle.cow_model.specs.Lazy.{asks};
ghost use Rattle.cow_model.specs.Purse.{Moves};
ghost use Rattle.cow_rule.specs.Asked.{raised};
ghost use Rattle.cow_value.specs.Calls.{IsReady};
ghost use Rattle.cow_value.specs.Seen.{units};
ghost use Rattle.cow_views.specs.Views.{Looks, has_views, items_of, view_cost};

use cow_cell::{Holder, Stock};
use cow_model::{NoMemory, Verb};
use cow_rule::Rule;
use cow_value::Values;
use std::alloc::Global;

/// The type of the values of all kinds that are built, with the views that they have through rules.
pub trait Views<Q: Stock>: Values<Q> {
    /// Whether it has views: arrays do. No memory.
    fn has_views(&self) -> bool
        ensures { result ≡ has_views (Self.seen self.now).value };

    /// What `lazy N I VERB` prints of it through a rule: appends the whole line, or nothing. The view is over a
    /// second handle, so the value isn't alone afterwards.
    ///
    /// The rule is asked as often as the definitions say. Linear in the elements at most; `first` goes no further
    /// than its answer. Want of memory leaves the copies counted that were made.
    fn look(
        &mut self,
        alloc: Global,
        rule: &mut Box<dyn Rule>,
        verb: Verb,
        text: &mut Vec<u8>,
        h: &mut Holder<Q>,
    ) -> Result<(), NoMemory>
        requires views { has_views (Self.seen self.old).value ≡ true }
        requires ready { IsReady 0 (Self.seen self.old) h.old }
        ensures looks { Looks (shape_of rule.old) verb (Self.seen self.old) (Self.seen self.new)
            text.old.items text.new.items result }
        ensures shape { shape_of rule.new ≡ shape_of rule.old }
        ensures asked { OnOk result (asked_of rule.new
            ≡ raised (asks (items_of (Self.seen self.old).value) (shape_of rule.old) verb)
            (asked_of rule.old)) }
        ensures paid { Moves (units Self.counted (Self.seen self.old))
            (view_cost verb (items_of (Self.seen self.old).value)) h.old h.new }
        ensures never_less { h.old.spare ≤ h.new.spare };
}
