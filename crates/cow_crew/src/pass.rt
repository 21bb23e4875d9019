//! What one worker has of a board.
use crate::job::Job;
use crate::place::Place;
use crate::rule::View;
use atomic_table::Seat;
use std::marker::Model;

/// The right to draw at one board.
///
/// Contracts see it as a `Progress`: the table and the jobs of its board, the numbers that it has
/// drawn, its parts, and whether its last number was served. Parts bound how many passes may end.
/// A pass may go to another thread. One that is dropped keeps its parts, so its board can't be
/// closed.
#[derive(Drop)]
pub struct Pass<J: Job> {
    pub(crate) seat: Seat<Place<J, J::Out>, View<J>>,
    // The number that was drawn last.
    pub(crate) last: Option<u64>,
}

impl<J: Job> Model for Pass<J> {
    ghost use Rattle.cow_crew.specs.Passes.{Progress, progress_of, Fits};

    ghost Value = { Progress J };

    ghost view = { λ p. progress_of p.seat };

    ghost invariant = { λ p. Fits J.gives p.seat.me p.last };
}
