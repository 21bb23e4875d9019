//! A table of jobs, from which workers draw.
ghost use Rattle.std.specs.Prelude.{◌≡◌, ◌+◌, ◌-◌, ◌<◌, ◌≤◌, [], false, true, length, vec_len, IfOk};
ghost use Rattle.cow_crew.specs.Order.{InOrder};

use crate::job::{Gate, Job};
use crate::pass::Pass;
use crate::place::{Place, make_places};
use crate::rule::{BoardRule, Draw, Parts, View};
use crate::slots::{put_result, results, take_job};
use atomic_table::Table;
use cow_model::NoMemory;
use std::alloc::Global;
use std::marker::Model;
use std::snapshot::Snapshot;

/// Jobs that threads share, each of which is run once by whoever draws its number.
///
/// Contracts see it as a `Listing`: its table, and the list of the jobs that it was opened with,
/// which no call changes. Threads share it by `&`, each with a pass of its own. No call waits.
#[derive(Drop)]
pub struct Board<J: Job> {
    table: Table<Place<J, J::Out>, View<J>, Snapshot<Vec<J>>, BoardRule<J>, Global>,
    alloc: Global,
}

impl<J: Job> Model for Board<J> {
    ghost use Rattle.cow_crew.specs.Passes.{Listing, listing, IsTableOf};

    ghost Value = { Listing J };

    ghost view = { λ b. listing b.table.shared.table_id b.table.shared.key.value.items };

    ghost invariant = { λ b. IsTableOf b.table.shared.table_id b.table.shared.key.value.items };
}

impl<J: Job> Board<J> {
    ghost use Rattle.cow_crew.specs.Passes.{first_pass, with_parts, joined_by, IsOf, HasJob, HasEnded, MayDraw, Draws};

    /// A board of these jobs, and its first pass, which has all parts: one more than there are
    /// jobs.
    ///
    /// It takes memory for a slot a job. Refused, the jobs are dropped.
    pub fn open(alloc: Global, jobs: Vec<J>) -> Result<(Board<J>, Pass<J>), NoMemory>
        requires some { 0 < vec_len jobs }
        requires few { vec_len jobs ≤ 65536 }
        ensures jobs { IfOk result (λ r. r.0.jobs ≡ jobs.items) }
        ensures first { IfOk result (λ r. r.1 ≡ first_pass r.0) }
    {
        let about = Snapshot::of(&jobs);
        let places = make_places(alloc, jobs)?;
        match Table::new(alloc, &[0u64], places, &about) {
            Ok((table, seat)) => Ok((Board { table, alloc }, Pass { seat, last: None })),
            Err(_) => Err(NoMemory),
        }
    }

    /// A further pass, with one part of a pass that has drawn nothing. One load.
    pub fn split(&self, pass: &mut Pass<J>) -> Pass<J>
        requires of { IsOf self.now pass.old }
        requires idle { pass.old.numbers ≡ [] }
        requires parts { 2 ≤ pass.old.parts }
        ensures kept { pass.new ≡ with_parts (pass.old.parts - 1) pass.old }
        ensures given { result ≡ with_parts 1 pass.old }
    {
        let seat = self.table.shared.split_seat::<Parts>(&mut pass.seat);
        Pass { seat, last: None }
    }

    /// Draws the next number, by one fetch_add: Some where it is that of a job, and None exactly
    /// where it is past the jobs. The pass has ended then, and may join another one.
    pub fn draw(&self, pass: &mut Pass<J>) -> Option<u32>
        requires of { IsOf self.now pass.old }
        requires ready { MayDraw pass.old }
        ensures { Draws pass.old pass.new result }
    {
        let count = self.table.slot_count() as u64;
        let found = self.table.shared.fetch_add::<Draw>(&mut pass.seat, 0, 1);
        pass.last = Some(found);
        if found < count {
            Some(found as u32)
        } else {
            None
        }
    }

    /// Runs the job of the last number, after `gate.pass` of that number, and keeps its result.
    pub fn serve<G: Gate>(&self, pass: &mut Pass<J>, gate: &G)
        requires of { IsOf self.now pass.old }
        requires job { HasJob pass.old }
        requires fresh { pass.old.served ≡ false }
        ensures { pass.new ≡ record pass.old { served = true } }
    {
        let Some(number) = pass.last else {
            unreachable!()
        };
        let slot = number as usize;
        let job = take_job(&self.table.shared, &mut pass.seat, slot);
        gate.pass(number as u32);
        let out = job.run();
        put_result(&self.table.shared, &mut pass.seat, slot, out);
    }

    /// Takes in a pass that has ended: its numbers, before those that pass has, and its parts. One
    /// load.
    pub fn join(&self, pass: &mut Pass<J>, other: Pass<J>)
        requires of { IsOf self.now pass.old }
        requires other { IsOf self.now other }
        requires over { HasEnded other }
        ensures { pass.new ≡ joined_by other pass.old }
    {
        let Pass { seat, last } = other;
        self.table.shared.join_seat::<Parts>(&mut pass.seat, seat);
        pass.last = pass.last.or(last);
    }

    /// All results, in the order of the jobs, by a pass that has ended and has all parts.
    ///
    /// It takes memory for the list of results, and moves each once. Refused, they are dropped.
    pub fn close(self, pass: Pass<J>) -> Result<Vec<J::Out>, NoMemory>
        requires of { IsOf self pass }
        requires parts { pass.parts ≡ length self.jobs + 1 }
        requires over { HasEnded pass }
        ensures { IfOk result (λ outs. InOrder J.gives self.jobs outs.items) }
    {
        let outs = Vec::with_capacity(self.alloc, self.table.slot_count())?;
        let Board { table, alloc: _ } = self;
        let Pass { seat, last: _ } = pass;
        Ok(results(table.close_with(seat), outs))
    }
}
