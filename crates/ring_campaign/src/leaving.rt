//! How a candidate leaves.
ghost use Rattle.ring_campaign.specs.private.Telling.{AddsLeave};

use crate::candidate::Candidate;
use crate::replies::may_lead;
use ring_any::Any;
use ring_events::Command;
use ring_table::Access;
use std::sync::Wait;
use std::time::Clock;

impl<A: Access<Any> + Drop, R: Wait + Clock> Candidate<'_, A, R> {
    /// Takes the member out, and then starts a term exactly if the member may lead the last one.
    /// Each command is given again until it is placed.
    pub(crate) fn leave(&self, seat: &mut A::Seat)
        requires { A.has_seat self.now.caller.access.now seat.old }
        ensures seat { A.has_seat self.now.caller.access.now seat.new }
        ensures leaves { AddsLeave self.now.caller.session self.now.group self.now.number
            (A.mine seat.old) (A.mine seat.new) }
    {
        let left = self
            .caller
            .insist(seat, &Command::Leave(self.group, self.number));
        drop(left);
        // asked after the leave, so that no later term has this member in its ring
        let told = self
            .caller
            .insist(seat, &Command::Who(self.group, self.number));
        if may_lead(self.number, &told) {
            let started = self.caller.insist(seat, &Command::Start(self.group));
            drop(started);
        }
    }
}
