//! The seats of a turn lock.
ghost use Rattle.std.specs.Prelude.{◌≡◌, IsTrue, ◌↔◌};

use crate::held::HeldTable;
use crate::rule::SeatToken;
use ring_election::RingElection;
use ring_table::{Table, Tabled};
use std::marker::Model;

/// One seat of a turn lock, for the calls of one thread.
///
/// Contracts see its lock, its number there, and how many turns it has left. They see the history
/// that the lock was opened with, the turns that the seat has seen, and its own entries, in order.
/// They see how many entries it knows to be kept for good.
///
/// At run time a seat has two counts, a flag, and the table while it holds it. The rest exists only
/// in proofs.
#[derive(Drop)]
pub struct Seat<E: RingElection, T: Tabled<E> + Drop = Table<E>> {
    pub(crate) token: SeatToken<E, T>,
    pub(crate) left: u64,
    // The number of entries that it has seen, or 0 if it knows that all of them are kept for good.
    // A call stores it, so that `settle` does nothing if there is nothing to keep.
    pub(crate) owes: usize,
    // whether the seat holds the table over its calls
    pub(crate) holds: bool,
    // the table, while a turn is open between two calls
    pub(crate) hand: Option<HeldTable<E, T>>,
}

impl<E: RingElection, T: Tabled<E> + Drop> Model for Seat<E, T> {
    ghost use Rattle.ring_turn.specs.Seats.{SeatView, seat_of, with_hand};
    ghost use Rattle.ring_turn.specs.private.Seats.{IsSeated};

    ghost Value = { SeatView E };

    ghost view = { λ seat.
        seat_of seat.token.table_id seat.left (with_hand seat.hand seat.token.me.0) };

    ghost invariant = { λ seat. IsSeated seat.left seat.owes seat.hand seat.token.me };
}

impl<E: RingElection, T: Tabled<E> + Drop> Seat<E, T> {
    /// Returns whether the seat has no turn left, so that each further call is answered
    /// `SeatSpent`. Does not allocate.
    pub fn is_spent(&self) -> bool
        ensures { IsTrue result ↔ (self.now.left ≡ 0) }
    {
        self.left == 0
    }
}
