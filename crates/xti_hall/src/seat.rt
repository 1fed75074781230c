ghost use Rattle.std.specs.Prelude.{◌≡◌, length};
ghost use Rattle.xti_hall.specs.Seats.{IsStanding, unfinished_bytes};

use std::marker::Model;
use xti_hall_rule::Pass;

/// One caller's token, with which it steps. What it has seen is a legal history, and its own entries are its own part of
/// that.
#[derive(Drop)]
pub struct Seat<C> {
    pub(crate) pass: Pass<C>,
    pub(crate) number: u32,
    pub(crate) next: u32,
    pub(crate) steps: u64,
    pub(crate) unfinished: Option<u32>,
}

impl<C> Model for Seat<C> {
    ghost use Rattle.xti_hall.specs.Seats.{SeatView, FitsSeat};

    ghost Value = { SeatView };

    ghost view = { λ s. record { hall = s.pass.table_id; id = s.pass.id; view = s.pass.me.0 } };

    ghost invariant = { λ s. FitsSeat s.pass.me s.number s.next s.steps s.unfinished };
}

impl<C> Seat<C> {
    /// The seat's number. `standing` is true of every seat. Takes no memory.
    pub fn number(&self) -> u32
        ensures number { result ≡ self.now.view.number }
        ensures standing { IsStanding self.now.view }
    {
        self.number
    }

    /// How many entries of the history are the seat's own. Takes no memory.
    pub fn steps(&self) -> u64
        ensures { result ≡ length self.now.view.mine }
    {
        self.steps
    }

    /// How many bytes were taken of the seat's unfinished call; `None` exactly where it has none. Takes no memory.
    pub fn unfinished(&self) -> Option<u32>
        ensures bytes { result ≡ unfinished_bytes self.now.view.mine }
        ensures standing { IsStanding self.now.view }
    {
        self.unfinished
    }
}
