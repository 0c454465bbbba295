//! What a candidate does between its join and its leave.
ghost use Rattle.std.specs.Prelude.{◌≡◌, ◌≤◌, ℕ, IfOk, List, length};
ghost use Rattle.ring_lines.specs.Ends.{goes_on, reading};
ghost use Rattle.ring_campaign.specs.private.Telling.{Attends, Turns};

use crate::candidate::{Candidate, Look};
use ring_any::Any;
use ring_events::Reply;
use ring_lines::{Intake, Outlet, ReadFault, WriteFailed};
use ring_table::Access;
use std::sync::Wait;
use std::time::Clock;

/// What comes of a turn.
pub(crate) enum Turn {
    /// The campaign goes on.
    On,
    /// A start was refused, and the client was told.
    Over,
    /// The writer failed.
    Failed,
}

impl<A: Access<Any> + Drop, R: Wait + Clock> Candidate<'_, A, R> {
    /// Tells the client what the member knows of its leader, each time that it changes, until the
    /// campaign is over. The client was told that it has joined.
    pub(crate) fn attend<I: Intake, O: Outlet>(
        &self,
        seat: &mut A::Seat,
        reader: &mut I,
        writer: &mut O,
        text: &mut Vec<u8>,
    )
        requires { A.has_seat self.now.caller.access.now seat.old }
        ensures seat { A.has_seat self.now.caller.access.now seat.new }
        ensures attends { Attends I.read_gives O.write_gives self.now.caller.session self.now.group
            self.now.number (A.mine seat.old) reader.old writer.old (A.mine seat.new) reader.new
            writer.new }
    {
        let mut last = Reply::Done;
        let mut follows = false;
        let mut bytes = [0; 4096];
        for _ in self.caller.rt.forever() {
            match self.turn(seat, &mut follows, &mut last, text, writer) {
                Turn::On => {}
                Turn::Over | Turn::Failed => return,
            }
            if !may_go_on(reader.read(&mut bytes)) {
                return;
            }
        }
        unreachable!()
    }

    // Looks once, and tells what is to be told.
    fn turn<O: Outlet>(
        &self,
        seat: &mut A::Seat,
        follows: &mut bool,
        last: &mut Reply,
        text: &mut Vec<u8>,
        writer: &mut O,
    ) -> Turn
        requires { A.has_seat self.now.caller.access.now seat.old }
        ensures seat { A.has_seat self.now.caller.access.now seat.new }
        ensures turns { Turns O.write_gives self.now.caller.session self.now.group self.now.number
            follows.old last.old (A.mine seat.old) writer.old result follows.new last.new
            (A.mine seat.new) writer.new }
    {
        match self.look(seat, follows) {
            Look::Nothing => Turn::On,
            Look::Tell(reply) => match self.tell(seat, last, reply, text, writer) {
                Ok(()) => Turn::On,
                Err(WriteFailed) => Turn::Failed,
            },
            Look::Last(refusal) => {
                match self.tell(seat, last, Reply::Refused(refusal), text, writer) {
                    Ok(()) => Turn::Over,
                    Err(WriteFailed) => Turn::Failed,
                }
            }
        }
    }
}

// Whether a read call may follow one with this answer.
fn may_go_on(answer: Result<usize, ReadFault>) -> bool
    ensures { (bytes : List ℕ) → IfOk answer (λ n. n ≤ length bytes)
        → goes_on (reading answer bytes) ≡ result }
{
    match answer {
        Ok(count) => count > 0,
        Err(ReadFault::Interrupted) => true,
        Err(ReadFault::Failed) => false,
    }
}
