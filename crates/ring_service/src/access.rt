//! A front as an access to its table. Its starts also reach the workers.
ghost use Rattle.std.specs.Prelude.{◌≡◌, map};
ghost use Rattle.ring_any.specs.Any.{any_greatest, any_two_way, any_winner};
ghost use Rattle.ring_table.specs.Accesses.{AnswersAtSeat, BeginsAtSeat, Reports};
ghost use Rattle.ring_table.specs.Places.{HasPlaceBelow};

use crate::front::Front;
use ring_any::Any;
use ring_events::Command;
use ring_id::GroupName;
use ring_node::{Charter, Report};
use ring_table::{Access, Answer, Filed, QueueHead};
use std::sync::{Arc, Wait};

/// A seat is a seat of the front's access. A call of `Start` puts a begin to each worker, as a
/// session's start does. `begin` hands its charters to the caller alone.
impl<A: Access<Any> + Drop> Access<Any> for Front<A> {
    type Seat = A::Seat;

    ghost has_seat = { λ front seat. A.has_seat front seat };

    ghost mine = { A.mine };

    ghost most = { A.most };

    ghost is_settled = { A.is_settled };

    fn enter_queue<R: Wait>(&self, rt: &R) -> QueueHead<'_> {
        self.access.enter_queue(rt)
    }

    fn hold(&self, seat: &mut A::Seat)
        requires { A.has_seat self.now seat.old }
        ensures { seat.new ≡ seat.old }
    {
        self.access.hold(seat);
    }

    fn release(&self, seat: &mut A::Seat)
        requires { A.has_seat self.now seat.old }
        ensures { seat.new ≡ seat.old }
    {
        self.access.release(seat);
    }

    fn call<R: Wait>(
        &self,
        rt: &R,
        seat: &mut A::Seat,
        session: u32,
        command: Command<Any>,
    ) -> Answer
        requires { A.has_seat self.now seat.old }
        ensures seat { A.has_seat self.now seat.new }
        ensures entry { AnswersAtSeat any_winner any_two_way any_greatest session command
            (A.mine seat.old) result (A.mine seat.new) }
        ensures place { HasPlaceBelow A.most result }
    {
        Front::answer(self, rt, seat, session, command)
    }

    fn begin<R: Wait>(
        &self,
        rt: &R,
        seat: &mut A::Seat,
        session: u32,
        group: GroupName,
        copies: usize,
    ) -> (Answer, Vec<Arc<Charter<Any>>>)
        requires { A.has_seat self.now seat.old }
        ensures seat { A.has_seat self.now seat.new }
        ensures entry { BeginsAtSeat any_winner any_two_way any_greatest session group copies
            (A.mine seat.old) result.0 (map (λ charter. charter.value) result.1.items)
            (A.mine seat.new) }
        ensures place { HasPlaceBelow A.most result.0 }
    {
        self.access.begin(rt, seat, session, group, copies)
    }

    fn report<R: Wait>(&self, rt: &R, seat: &mut A::Seat, report: &Report<Any>) -> Filed
        requires { A.has_seat self.now seat.old }
        ensures seat { A.has_seat self.now seat.new }
        ensures entry { Reports any_winner any_greatest report.now (A.mine seat.old) result
            (A.mine seat.new) }
    {
        self.access.report(rt, seat, report)
    }

    fn settle<R: Wait>(&self, rt: &R, seat: &mut A::Seat)
        requires { A.has_seat self.now seat.old }
        ensures seat { A.has_seat self.now seat.new }
        ensures entries { A.mine seat.new ≡ A.mine seat.old }
        ensures settled { A.is_settled seat.new }
    {
        self.access.settle(rt, seat);
    }
}
