ghost use Rattle.std.specs.Prelude.{◌≡◌, List, ℕ};
ghost use Rattle.ring_service.specs.private.Asking.{AsksCommand};

use crate::format::Format;
use crate::front::Front;
use ring_any::Any;
use ring_events::Command;
use ring_id::Refusal;
use ring_lines::{Answerer, parse_command};
use ring_table::{Access, Answer, QueueHead};
use std::alloc::Global;
use std::sync::Wait;

/// A session, which answers lines by the front under its number. Its state is its seat.
#[derive(Drop)]
pub(crate) struct Session<'a, A: Drop, R, F> {
    pub(crate) front: &'a Front<A>,
    pub(crate) rt: &'a R,
    pub(crate) number: u32,
    pub(crate) format: F,
}

impl<'b, A: Access<Any> + Drop, R: Wait, F: Format> Session<'b, A, R, F> {
    // Waits in the access's queue, if the session is not at its head yet, and has the seat hold the
    // table.
    #[inline(always)]
    fn lead<'a>(&'a self, seat: &mut A::Seat, head: &mut QueueHead<'a>)
        requires { A.has_seat self.now.front.now seat.old }
        ensures { seat.new ≡ seat.old }
    {
        if head.is_none() {
            let front = self.front;
            *head = front.access.enter_queue(self.rt);
            front.access.hold(seat);
        }
    }

    // Returns what is written for a question. A line that asked for no command is refused without
    // the access, and counted.
    #[inline(always)]
    fn answer<'a>(
        &'a self,
        seat: &mut A::Seat,
        head: &mut QueueHead<'a>,
        asked: Option<Command<Any>>,
    ) -> F::Written
        requires seat { A.has_seat self.now.front.now seat.old }
        requires counts { F.counts self.now.format A.most }
        ensures seat { A.has_seat self.now.front.now seat.new }
        ensures answer { (line : List ℕ) → AsksCommand line asked →
            F.answers self.now.format A.most self.now.number line (A.mine seat.old) result
            (A.mine seat.new) }
    {
        match asked {
            Some(command) => {
                self.lead(seat, head);
                self.format
                    .write(self.front.answer(self.rt, seat, self.number, command))
            }
            None => {
                self.front.count_unread();
                self.format.write(Answer::Unplaced(Refusal::BadLine))
            }
        }
    }
}

impl<A: Access<Any> + Drop, R: Wait, F: Format> Answerer for Session<'_, A, R, F> {
    ghost use Rattle.ring_service.specs.private.Asking.{AsksCommand};

    type State = A::Seat;

    type Asked = Option<Command<Any>>;

    type Answer = F::Written;

    ghost holds = { λ session seat.
        A.has_seat session.front.now seat × F.counts session.format A.most };

    ghost asks = { AsksCommand };

    ghost answers = { λ session line seat written now.
        F.answers session.format A.most session.number line (A.mine seat) written (A.mine now) };

    ghost may_tell = { λ _ seat. A.is_settled seat };

    fn read(&self, line: &[u8]) -> Option<Command<Any>> {
        parse_command(line)
    }

    fn read_long(&self) -> Option<Command<Any>> {
        None
    }

    #[inline(always)]
    fn answer_all(
        &self,
        state: &mut A::Seat,
        _alloc: Global,
        asked: &[Option<Command<Any>>],
        given: &mut Vec<F::Written>,
    ) {
        let front = self.front;
        let mut head = None;
        for question in asked {
            let written = self.answer(state, &mut head, *question);
            given.push_reserved(written);
        }
        front.access.release(state);
        // settling may wait, and other threads may answer meanwhile
        drop(head);
        front.access.settle(self.rt, state);
    }
}
