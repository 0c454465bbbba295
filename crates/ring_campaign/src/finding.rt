//! Whether there is a leader to follow.
ghost use Rattle.std.specs.Prelude.{false, true};
ghost use Rattle.ring_campaign.specs.Entries.{HasMember, IsFirst};
ghost use Rattle.ring_campaign.specs.private.Looking.{Finds, Never, Seeks, Starts};

use crate::candidate::Candidate;
use crate::replies::{is_first, last_in, member_in};
use ring_any::Any;
use ring_events::{Command, Reply};
use ring_id::{NodeId, Refusal};
use ring_table::Access;
use std::sync::Wait;

/// What the leaders of a group's terms say of the last one.
pub(crate) enum Last {
    /// Nothing was said.
    Unknown,
    /// No term has begun.
    NoTerm,
    /// It is undecided.
    Undecided,
    /// This member leads it.
    Leader(NodeId),
}

/// Whether there is a leader to follow.
pub(crate) enum Found {
    /// Not known yet.
    Unknown,
    /// There is one, or a term was started.
    Follows,
    /// There is none, and a start was refused.
    Refused(Refusal),
}

impl<A: Access<Any> + Drop, R: Wait> Candidate<'_, A, R> {
    /// Looks for a leader to follow. If there is none, a term is started. All is asked in one turn
    /// of the seat, if it has turns that do so.
    pub(crate) fn find(&self, seat: &mut A::Seat) -> Found
        requires { A.has_seat self.now.caller.access.now seat.old }
        ensures seat { A.has_seat self.now.caller.access.now seat.new }
        ensures finds { Finds self.now.caller.session self.now.group self.now.number
            (A.mine seat.old) result (A.mine seat.new) }
    {
        let queued = self.caller.access.enter_queue(self.caller.rt);
        self.caller.access.hold(seat);
        let found = self.find_now(seat);
        self.caller.access.release(seat);
        drop(queued);
        found
    }

    // Looks for a leader to follow, and starts a term if there is none.
    fn find_now(&self, seat: &mut A::Seat) -> Found
        requires { A.has_seat self.now.caller.access.now seat.old }
        ensures seat { A.has_seat self.now.caller.access.now seat.new }
        ensures finds { Finds self.now.caller.session self.now.group self.now.number
            (A.mine seat.old) result (A.mine seat.new) }
    {
        let Some(terms) = self.caller.ask(seat, &Command::Terms(self.group)) else {
            return Found::Unknown;
        };
        let last = last_in(&terms);
        drop(terms);
        match last {
            Last::Unknown => Found::Unknown,
            Last::NoTerm => self.start(seat),
            Last::Undecided => self.find_first(seat),
            Last::Leader(leader) => {
                // That was another connection: no two of them are to lead one term.
                if leader.number() == self.number {
                    self.start(seat)
                } else {
                    self.find_leader(seat, leader)
                }
            }
        }
    }

    // Looks whether this leader is a member, and starts a term if it is none.
    fn find_leader(&self, seat: &mut A::Seat, leader: NodeId) -> Found
        requires { A.has_seat self.now.caller.access.now seat.old }
        ensures seat { A.has_seat self.now.caller.access.now seat.new }
        ensures seeks { Seeks self.now.caller.session self.now.group self.now.number
            (HasMember leader true) (HasMember leader false) (A.mine seat.old) result
            (A.mine seat.new) }
    {
        let Some(members) = self.caller.ask(seat, &Command::Members(self.group)) else {
            return Found::Unknown;
        };
        let there = member_in(leader, &members);
        drop(members);
        match there {
            None => Found::Unknown,
            Some(true) => Found::Follows,
            Some(false) => self.start(seat),
        }
    }

    // Looks whether this member joined before all others, and starts a term if so. Then nobody is
    // left who may decide the last term.
    fn find_first(&self, seat: &mut A::Seat) -> Found
        requires { A.has_seat self.now.caller.access.now seat.old }
        ensures seat { A.has_seat self.now.caller.access.now seat.new }
        ensures seeks { Seeks self.now.caller.session self.now.group self.now.number Never
            (IsFirst self.now.number) (A.mine seat.old) result (A.mine seat.new) }
    {
        let Some(members) = self.caller.ask(seat, &Command::Members(self.group)) else {
            return Found::Unknown;
        };
        let first = is_first(self.number, &members);
        drop(members);
        if first {
            self.start(seat)
        } else {
            Found::Unknown
        }
    }

    // Starts a term.
    fn start(&self, seat: &mut A::Seat) -> Found
        requires { A.has_seat self.now.caller.access.now seat.old }
        ensures seat { A.has_seat self.now.caller.access.now seat.new }
        ensures starts { Starts self.now.caller.session self.now.group self.now.number
            (A.mine seat.old) result (A.mine seat.new) }
    {
        let Some(reply) = self.caller.ask(seat, &Command::Start(self.group)) else {
            return Found::Unknown;
        };
        match reply {
            Reply::Refused(refusal) => Found::Refused(refusal),
            _ => Found::Follows,
        }
    }
}
