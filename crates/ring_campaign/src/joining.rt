//! A candidate from its join to its leave.
ghost use Rattle.std.specs.Prelude.{◌≡◌};
ghost use Rattle.ring_id.specs.Identity.{number_of};
ghost use Rattle.ring_campaign.specs.Campaigns.{Joins};
ghost use Rattle.ring_campaign.specs.private.Telling.{AddsLeave};

use crate::candidate::Candidate;
use crate::replies::is_done;
use ring_any::Any;
use ring_events::Command;
use ring_id::NodeId;
use ring_lines::{Intake, Outlet, WriteFailed};
use ring_table::Access;
use std::sync::Wait;
use std::time::Clock;

impl<A: Access<Any> + Drop, R: Wait + Clock> Candidate<'_, A, R> {
    /// Joins as this node, whose number is the candidate's. If that is done, it campaigns and
    /// leaves.
    pub(crate) fn join<I: Intake, O: Outlet>(
        &self,
        node: NodeId,
        seat: &mut A::Seat,
        reader: &mut I,
        writer: &mut O,
        text: &mut Vec<u8>,
    )
        requires seat { A.has_seat self.now.caller.access.now seat.old }
        requires number { self.now.number ≡ number_of node }
        ensures seat { A.has_seat self.now.caller.access.now seat.new }
        ensures joins { Joins I.read_gives O.write_gives self.now.caller.session self.now.group node
            (A.mine seat.old) reader.old writer.old (A.mine seat.new) reader.new writer.new }
        ensures settled { A.is_settled seat.new }
    {
        let command = Command::Join(self.group, node);
        let reply = self
            .caller
            .access
            .call(self.caller.rt, seat, self.caller.session, command)
            .into_reply();
        self.caller.access.settle(self.caller.rt, seat);
        let put = self.put(seat, &reply, text, writer);
        if !is_done(&reply) {
            return;
        }
        drop(reply);
        match put {
            Ok(()) => {
                self.attend(seat, reader, writer, text);
                self.part(seat);
            }
            Err(WriteFailed) => self.part(seat),
        }
    }

    // Leaves, and has all entries kept.
    fn part(&self, seat: &mut A::Seat)
        requires { A.has_seat self.now.caller.access.now seat.old }
        ensures seat { A.has_seat self.now.caller.access.now seat.new }
        ensures leaves { AddsLeave self.now.caller.session self.now.group self.now.number
            (A.mine seat.old) (A.mine seat.new) }
        ensures settled { A.is_settled seat.new }
    {
        self.leave(seat);
        self.caller.access.settle(self.caller.rt, seat);
    }
}
