//! What lies in a slot of the table.
ghost use Rattle.std.specs.Prelude.{◌≡◌, IfOk};
ghost use Rattle.cow_crew.specs.Rule.{IsWaiting};
ghost use Rattle.cow_crew.specs.Places.{AllWait};
ghost use Rattle.cow_crew.specs.declared.place.Held.TheVariants.{Done};

use std::alloc::{AllocError, Global};
use std::mem;
use std::snapshot::Snapshot;

// What a slot holds of its job.
#[derive(Drop)]
pub(crate) enum Held<J, X> {
    Waiting(J),
    Taken,
    Done(X),
}

// A slot's value names a job, and holds that job, nothing, or a result.
#[derive(Drop)]
pub(crate) struct Place<J, X> {
    pub(crate) job: Snapshot<J>,
    pub(crate) held: Held<J, X>,
}

impl<J: Drop, X: Drop> Place<J, X> {
    // The slot of a job that nobody has drawn.
    pub(crate) fn waiting(job: J) -> Place<J, X>
        ensures { IsWaiting job result }
    {
        Place {
            job: Snapshot::of(&job),
            held: Held::Waiting(job),
        }
    }

    // Takes the job out.
    pub(crate) fn take(&mut self) -> J
        requires { (j : J) × IsWaiting j self.old }
        ensures job { self.old.job.value ≡ result }
        ensures name { self.new.job ≡ self.old.job }
    {
        match mem::replace(&mut self.held, Held::Taken) {
            Held::Waiting(job) => job,
            _ => unreachable!(),
        }
    }

    // Puts the result in.
    pub(crate) fn put(&mut self, out: X)
        ensures name { self.new.job ≡ self.old.job }
        ensures held { self.new.held ≡ Done out }
    {
        self.held = Held::Done(out);
    }
}

// A slot for each job. Refused, the jobs are dropped.
pub(crate) fn make_places<J: Drop, X: Drop>(
    alloc: Global,
    jobs: Vec<J>,
) -> Result<Vec<Place<J, X>>, AllocError>
    ensures { IfOk result (λ v. AllWait jobs.items v.items) }
{
    let mut places = Vec::with_capacity(alloc, jobs.len())?;
    for job in jobs {
        places.push(Place::waiting(job))?;
    }
    Ok(places)
}
