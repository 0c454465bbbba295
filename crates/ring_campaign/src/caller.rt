//! Who gives commands by a seat.
ghost use Rattle.std.specs.Prelude.{◌≡◌, ◌++◌, ◌∷◌, []};
ghost use Rattle.ring_table.specs.declared.entry.Entry.TheVariants as entry;
ghost use Rattle.ring_campaign.specs.private.Looking.{Asks};

use ring_any::Any;
use ring_events::{Command, Reply};
use ring_table::{Access, Answer};
use std::sync::Wait;
use std::thread;
use std::time::{Clock, Duration};

// After how many milliseconds a command that was not placed is given again.
const PAUSE: u64 = 10;

/// A session that gives commands by a seat.
#[derive(Drop)]
pub(crate) struct Caller<'a, A: Drop, R> {
    pub(crate) rt: &'a R,
    pub(crate) access: &'a A,
    pub(crate) session: u32,
}

impl<A: Access<Any> + Drop, R: Wait> Caller<'_, A, R> {
    /// The reply to a command, if it is placed.
    pub(crate) fn ask(&self, seat: &mut A::Seat, command: &Command<Any>) -> Option<Reply>
        requires { A.has_seat self.now.access.now seat.old }
        ensures seat { A.has_seat self.now.access.now seat.new }
        ensures asks { Asks self.now.session command.now (A.mine seat.old) result
            (A.mine seat.new) }
    {
        match self.access.call(self.rt, seat, self.session, *command) {
            Answer::Placed { reply, place: _ } => Some(reply),
            Answer::Unplaced(_) => None,
        }
    }
}

impl<A: Access<Any> + Drop, R: Wait + Clock> Caller<'_, A, R> {
    /// The reply to a command, which is given again until it is placed.
    ///
    /// Each time it is given at the head of the queue. A start waits for its turn while it holds
    /// what tells the workers, and a seat that keeps the table may wait for that.
    ///
    /// Before it is given again, all entries that the seat has seen are kept for good. If they
    /// cannot be kept, the call does not return. That is tested, not proved.
    pub(crate) fn insist(&self, seat: &mut A::Seat, command: &Command<Any>) -> Reply
        requires { A.has_seat self.now.access.now seat.old }
        ensures seat { A.has_seat self.now.access.now seat.new }
        ensures entry { A.mine seat.new
            ≡ A.mine seat.old ++ entry.Call self.now.session command.now result ∷ [] }
    {
        for _ in self.rt.forever() {
            let queued = self.access.enter_queue(self.rt);
            let placed = self.ask(seat, command);
            drop(queued);
            if let Some(reply) = placed {
                return reply;
            }
            // A failed journal refuses each command. To settle reports that failure, and the process
            // then ends.
            self.access.settle(self.rt, seat);
            thread::sleep(self.rt, Duration::from_millis(PAUSE));
        }
        unreachable!()
    }
}
