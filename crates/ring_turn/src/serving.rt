//! The turn lock as an access to its table.
ghost use Rattle.std.specs.Prelude.{◌≡◌, map};
ghost use Rattle.ring_table.specs.Accesses.{AnswersAtSeat, BeginsAtSeat, Reports};
ghost use Rattle.ring_table.specs.Places.{HasPlaceBelow};
ghost use Rattle.ring_turn.specs.Seats.{Settled};

use crate::lock::TurnLock;
use crate::seat::Seat;
use ring_election::RingElection;
use ring_events::Command;
use ring_id::GroupName;
use ring_node::{Charter, Report};
use ring_table::{Access, Answer, Filed, QueueHead, Tabled};
use std::sync::{Arc, Wait};

impl<E: RingElection, T: Tabled<E> + Drop> Access<E> for TurnLock<E, T> {
    ghost use Rattle.ring_turn.specs.Seats.{Settled};

    type Seat = Seat<E, T>;

    ghost has_seat = { λ lock seat. seat.lock ≡ lock.id };

    ghost mine = { λ seat. seat.mine };

    ghost most = { T.most };

    ghost is_settled = { Settled };

    fn enter_queue<R: Wait>(&self, rt: &R) -> QueueHead<'_> {
        Some(TurnLock::enter_queue(self, rt))
    }

    fn hold(&self, seat: &mut Seat<E, T>)
        requires { seat.old.lock ≡ self.now.id }
        ensures { seat.new ≡ seat.old }
    {
        TurnLock::hold(self, seat);
    }

    fn release(&self, seat: &mut Seat<E, T>)
        requires { seat.old.lock ≡ self.now.id }
        ensures { seat.new ≡ seat.old }
    {
        TurnLock::release(self, seat);
    }

    #[inline(always)]
    fn call<R: Wait>(
        &self,
        rt: &R,
        seat: &mut Seat<E, T>,
        session: u32,
        command: Command<E>,
    ) -> Answer
        requires { seat.old.lock ≡ self.now.id }
        ensures seat { seat.new.lock ≡ self.now.id }
        ensures entry { AnswersAtSeat E.winner E.is_two_way E.is_greatest session command
            seat.old.mine result seat.new.mine }
        ensures place { HasPlaceBelow T.most result }
    {
        TurnLock::call(self, rt, seat, session, command)
    }

    fn begin<R: Wait>(
        &self,
        rt: &R,
        seat: &mut Seat<E, T>,
        session: u32,
        group: GroupName,
        copies: usize,
    ) -> (Answer, Vec<Arc<Charter<E>>>)
        requires { seat.old.lock ≡ self.now.id }
        ensures seat { seat.new.lock ≡ self.now.id }
        ensures entry { BeginsAtSeat E.winner E.is_two_way E.is_greatest session group copies
            seat.old.mine result.0 (map (λ charter. charter.value) result.1.items) seat.new.mine }
        ensures place { HasPlaceBelow T.most result.0 }
    {
        TurnLock::begin(self, rt, seat, session, group, copies)
    }

    fn report<R: Wait>(&self, rt: &R, seat: &mut Seat<E, T>, report: &Report<E>) -> Filed
        requires { seat.old.lock ≡ self.now.id }
        ensures seat { seat.new.lock ≡ self.now.id }
        ensures entry { Reports E.winner E.is_greatest report.now seat.old.mine result
            seat.new.mine }
    {
        TurnLock::report(self, rt, seat, report)
    }

    #[inline(always)]
    fn settle<R: Wait>(&self, rt: &R, seat: &mut Seat<E, T>)
        requires { seat.old.lock ≡ self.now.id }
        ensures seat { seat.new.lock ≡ self.now.id }
        ensures entries { seat.new.mine ≡ seat.old.mine }
        ensures settled { Settled seat.new }
    {
        TurnLock::settle(self, rt, seat);
    }
}
