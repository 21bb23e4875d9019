//! The rule of the table, and the names of its steps.
ghost use Rattle.cow_crew.specs.Rule.{IsKept, opened, HasDrawn, left, right, both, spent};

use crate::job::Job;
use crate::place::Place;
use atomic_table::{Join, Play, Split, TableRule};
use std::collections::LinkedList;
use std::marker::PhantomData;
use std::snapshot::Snapshot;

// What a seat knows: the jobs of the board, the numbers that it has drawn, the latest last, and its
// parts. Only proofs have values of it.
pub(crate) struct View<J> {
    pub(crate) jobs: LinkedList<J>,
    pub(crate) numbers: LinkedList<u64>,
    pub(crate) parts: u64,
}

// The rule of a board. The key is the list of its jobs.
pub(crate) struct BoardRule<J> {
    job: PhantomData<J>,
}

impl<J: Job> TableRule<Place<J, J::Out>, View<J>, Snapshot<Vec<J>>> for BoardRule<J> {
    ghost holds = { λ key. IsKept J.gives key.value.items };

    ghost first = { λ key. opened key.value.items };
}

// The step of a draw.
pub(crate) struct Draw;

impl<J, X> Play<Place<J, X>, View<J>> for Draw {
    ghost then = { HasDrawn };
}

// The steps of a split and of a join.
pub(crate) struct Parts;

impl<J> Split<View<J>> for Parts {
    ghost left = { left };

    ghost right = { right };
}

impl<J> Join<View<J>> for Parts {
    ghost both = { both };

    ghost spent = { spent };
}
