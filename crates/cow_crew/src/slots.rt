//! Plain work on the slots: what a seat does with the one that it has, and what comes out at the
//! end.
ghost use Rattle.std.specs.Prelude.{◌≡◌, ◌≤◌, vec_len, vec_capacity};
ghost use Rattle.core.specs.Mem.Slots.{slots_items, slots_len, IsFull};
ghost use Rattle.cow_crew.specs.Places.{IsSameSeat, CarriesJob, CarriesName, CarriesResult, AllDone, AreResults};

use crate::place::{Held, Place};
use crate::rule::View;
use atomic_table::{Closed, Seat, Shared, TableRule};
use std::alloc::Global;

// Takes the job out of the slot that the seat holds.
pub(crate) fn take_job<J: Drop, X: Drop, K, P: TableRule<Place<J, X>, View<J>, K>>(
    shared: &Shared<Place<J, X>, View<J>, K, P>,
    seat: &mut Seat<Place<J, X>, View<J>>,
    slot: usize,
) -> J
    requires table { seat.old.table_id ≡ shared.now.table_id }
    requires job { (j : J) × CarriesJob seat.old.me slot j }
    ensures same { IsSameSeat seat.old seat.new }
    ensures name { CarriesName seat.old.me slot result × CarriesName seat.new.me slot result }
{
    seat.slot_mut(shared, slot).take()
}

// Puts the result into the slot that the seat holds.
pub(crate) fn put_result<J: Drop, X: Drop, K, P: TableRule<Place<J, X>, View<J>, K>>(
    shared: &Shared<Place<J, X>, View<J>, K, P>,
    seat: &mut Seat<Place<J, X>, View<J>>,
    slot: usize,
    out: X,
)
    requires table { seat.old.table_id ≡ shared.now.table_id }
    requires name { (j : J) × CarriesName seat.old.me slot j }
    ensures same { IsSameSeat seat.old seat.new }
    ensures held { (j : J) → CarriesName seat.old.me slot j → CarriesResult seat.new.me slot j out }
{
    seat.slot_mut(shared, slot).put(out);
}

// The results of a table that no thread shares any more.
pub(crate) fn results<J: Drop, X: Drop>(
    mut closed: Closed<Place<J, X>, Global>,
    mut outs: Vec<X>,
) -> Vec<X>
    requires full { IsFull closed.slots }
    requires done { AllDone (slots_items closed.slots) }
    requires empty { vec_len outs ≡ 0 }
    requires room { slots_len closed.slots ≤ vec_capacity outs }
    ensures { AreResults (slots_items closed.slots) result.items }
{
    for i in 0..closed.slot_count() {
        let Place { job: _, held } = closed.take(i);
        let Held::Done(out) = held else {
            unreachable!()
        };
        if outs.push(out).is_err() {
            unreachable!()
        }
    }
    closed.free();
    outs
}
