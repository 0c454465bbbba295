//! A candidate, and what it asks.
ghost use Rattle.ring_campaign.specs.private.Looking.{AddsLook, AddsWho};

use crate::caller::Caller;
use crate::finding::Found;
use ring_any::Any;
use ring_events::{Command, Reply};
use ring_id::{GroupName, NodeNo, Refusal};
use ring_table::{Access, Answer};
use std::sync::Wait;

/// What is told after a look.
pub(crate) enum Look {
    /// Nothing.
    Nothing,
    /// This reply, if it is another one than the last.
    Tell(Reply),
    /// This refusal, and nothing after it.
    Last(Refusal),
}

/// A member that campaigns, and who gives commands for it.
#[derive(Drop)]
pub(crate) struct Candidate<'a, A: Drop, R> {
    pub(crate) caller: Caller<'a, A, R>,
    pub(crate) group: GroupName,
    pub(crate) number: NodeNo,
}

impl<A: Access<Any> + Drop, R: Wait> Candidate<'_, A, R> {
    /// Looks for a leader to follow until one was found. From then on it asks what the member knows
    /// of its leader.
    pub(crate) fn look(&self, seat: &mut A::Seat, follows: &mut bool) -> Look
        requires { A.has_seat self.now.caller.access.now seat.old }
        ensures seat { A.has_seat self.now.caller.access.now seat.new }
        ensures looks { AddsLook self.now.caller.session self.now.group self.now.number follows.old
            (A.mine seat.old) result follows.new (A.mine seat.new) }
    {
        if *follows {
            return self.look_up(seat);
        }
        match self.find(seat) {
            // the last term may be one that its number leads and that began before its join
            Found::Unknown => Look::Nothing,
            Found::Follows => {
                *follows = true;
                self.look_up(seat)
            }
            Found::Refused(refusal) => {
                *follows = true;
                Look::Last(refusal)
            }
        }
    }

    // Asks what the member knows of its leader.
    fn look_up(&self, seat: &mut A::Seat) -> Look
        requires { A.has_seat self.now.caller.access.now seat.old }
        ensures seat { A.has_seat self.now.caller.access.now seat.new }
        ensures asks { AddsWho self.now.caller.session self.now.group self.now.number
            (A.mine seat.old) result (A.mine seat.new) }
    {
        let who = Command::Who(self.group, self.number);
        let Caller {
            rt,
            access,
            session,
        } = self.caller;
        match access.call(rt, seat, session, who) {
            Answer::Placed { reply, place: _ } => Look::Tell(reply),
            Answer::Unplaced(_) => Look::Nothing,
        }
    }
}
