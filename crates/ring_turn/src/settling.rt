//! How entries are kept for good: one thread has all of them kept, for all threads that wait for
//! it.
ghost use Rattle.std.specs.Prelude.{◌≡◌, ◌⊎◌, ◌<◌};
ghost use Rattle.ring_turn.specs.Calls.{Passes};
ghost use Rattle.ring_turn.specs.Seats.{IsSameSeat, Settled};
ghost use Rattle.ring_turn.specs.private.Seats.{IsIdle, Settles};
ghost use Rattle.ring_turn.specs.private.Steps.{seen_by};

use crate::lock::TurnLock;
use crate::rule::{KEPT, Learns, SeatToken, Tells};
use crate::seat::Seat;
use crate::turn::put_back;
use ring_election::RingElection;
use ring_table::Tabled;
use std::sync::Wait;
use std::thread::Parker;

impl<E: RingElection, T: Tabled<E> + Drop> TurnLock<E, T> {
    /// Has all entries that a seat of this lock has seen kept for good. The seat gains no entry. If
    /// a turn is open, it ends.
    ///
    /// If the seat knows already that they are kept, nothing changes. Otherwise the call uses one
    /// turn. It does not return if the seat has no turn left, or if the entries cannot be kept. If
    /// several threads settle, one of them may have the entries of all kept. The caller must not
    /// hold the head of the queue.
    #[inline(always)]
    pub fn settle<R: Wait>(&self, rt: &R, seat: &mut Seat<E, T>)
        requires { seat.old.lock ≡ self.now.id }
        ensures same { IsSameSeat seat.old seat.new }
        ensures passed { (seat.new ≡ seat.old) ⊎ Passes seat.old seat.new }
        ensures settled { Settled seat.new }
    {
        if seat.owes == 0 {
            return;
        }
        wait_for_turns(rt, seat.left);
        seat.left -= 1;
        let hand = seat.hand.take();
        put_back(&self.board, &mut seat.token, hand);
        self.settle_by(rt, &mut seat.token, seat.owes);
        seat.owes = 0;
    }

    // Waits until the entries that a token has seen are kept for good, or has all entries kept.
    #[inline(never)]
    fn settle_by<R: Wait>(&self, rt: &R, token: &mut SeatToken<E, T>, owes: usize)
        requires here { token.old.table_id ≡ self.now.id }
        requires idle { IsIdle token.old.me }
        requires turn { 0 < token.old.me.0.budget }
        requires owes { owes ≡ seen_by token.old.me.0 }
        ensures here { token.new.table_id ≡ token.old.table_id }
        ensures settles { Settles token.old.me token.new.me }
    {
        for _ in rt.forever() {
            let round = self.queue.round();
            if self.board.shared.load::<Learns>(token, KEPT) >= owes as u64 {
                return;
            }
            if let Some(lead) = self.queue.try_lead() {
                let head = self.queue.begin_round(rt);
                self.settle_table(rt, token);
                self.queue.end_round(head, lead);
                return;
            }
            self.queue.wait_round(rt, round);
        }
        unreachable!()
    }

    // Has all entries kept for good, in a turn of this token, and stores their number for others.
    fn settle_table<R: Wait>(&self, rt: &R, token: &mut SeatToken<E, T>)
        requires here { token.old.table_id ≡ self.now.id }
        requires idle { IsIdle token.old.me }
        requires turn { 0 < token.old.me.0.budget }
        ensures here { token.new.table_id ≡ token.old.table_id }
        ensures settles { Settles token.old.me token.new.me }
    {
        let mut table = self.reach(rt, token, None);
        table.settle(rt);
        let kept = table.entries();
        put_back(&self.board, token, Some(table));
        self.board.shared.store::<Tells>(token, KEPT, kept as u64);
    }
}

// Returns if there are turns left. Otherwise it waits for good.
fn wait_for_turns<R: Wait>(rt: &R, left: u64)
    ensures { 0 < left }
{
    if left > 0 {
        return;
    }
    let never = Parker::new();
    for _ in rt.forever() {
        never.park(rt);
    }
    unreachable!()
}
