//! Members whose connections ended with an earlier life of the service.
ghost use Rattle.std.specs.Prelude.{◌≡◌};
ghost use Rattle.ring_campaign.specs.Clearing.{
  Clears,
  ClearsGroup,
  ClearsGroups,
  LetsGo,
  groups_in,
  members_in,
};
ghost use Rattle.ring_campaign.specs.private.Clearing.{Adds};

use crate::caller::Caller;
use ring_any::Any;
use ring_events::{Command, Reply};
use ring_id::{GroupName, NodeId};
use ring_table::Access;
use std::sync::Wait;
use std::time::Clock;

/// Takes all members out of all groups, and has that kept for good. No term is started.
///
/// A service of campaigns that goes on after a restart does so before its first client. No
/// connection of those members is left, so nobody else takes them out. Each command is given again
/// until it is placed.
pub fn clear<A, R>(rt: &R, access: &A, seat: &mut A::Seat, session: u32)
where
    A: Access<Any> + Drop,
    R: Wait + Clock,
    requires { A.has_seat access.now seat.old }
    ensures seat { A.has_seat access.now seat.new }
    ensures clears { Clears session (A.mine seat.old) (A.mine seat.new) }
    ensures settled { A.is_settled seat.new }
{
    let caller = Caller {
        rt,
        access,
        session,
    };
    let told = caller.insist(seat, &Command::Groups);
    caller.clear_told(seat, &told);
    access.settle(rt, seat);
}

impl<A: Access<Any> + Drop, R: Wait + Clock> Caller<'_, A, R> {
    // Takes all members out of the groups that a reply names.
    fn clear_told(&self, seat: &mut A::Seat, told: &Reply)
        requires { A.has_seat self.now.access.now seat.old }
        ensures seat { A.has_seat self.now.access.now seat.new }
        ensures clears { Adds (ClearsGroups self.now.session (groups_in told.now)) (A.mine seat.old)
            (A.mine seat.new) }
    {
        match told {
            Reply::Groups(names) => self.clear_groups(seat, names.as_slice()),
            _ => {}
        }
    }

    // Takes all members out of these groups.
    fn clear_groups(&self, seat: &mut A::Seat, names: &[GroupName])
        requires { A.has_seat self.now.access.now seat.old }
        ensures seat { A.has_seat self.now.access.now seat.new }
        ensures clears { Adds (ClearsGroups self.now.session names.now) (A.mine seat.old)
            (A.mine seat.new) }
    {
        for name in names {
            self.clear_group(seat, *name);
        }
    }

    // Takes all members out of a group.
    fn clear_group(&self, seat: &mut A::Seat, group: GroupName)
        requires { A.has_seat self.now.access.now seat.old }
        ensures seat { A.has_seat self.now.access.now seat.new }
        ensures clears { Adds (ClearsGroup self.now.session group) (A.mine seat.old)
            (A.mine seat.new) }
    {
        let told = self.insist(seat, &Command::Members(group));
        self.let_go_told(seat, group, &told);
    }

    // Takes out of a group the members that a reply names.
    fn let_go_told(&self, seat: &mut A::Seat, group: GroupName, told: &Reply)
        requires { A.has_seat self.now.access.now seat.old }
        ensures seat { A.has_seat self.now.access.now seat.new }
        ensures gone { Adds (LetsGo self.now.session group (members_in told.now))
            (A.mine seat.old) (A.mine seat.new) }
    {
        match told {
            Reply::Members(list) => self.let_go(seat, group, list.as_slice()),
            _ => {}
        }
    }

    // Takes these members out of a group.
    fn let_go(&self, seat: &mut A::Seat, group: GroupName, members: &[NodeId])
        requires { A.has_seat self.now.access.now seat.old }
        ensures seat { A.has_seat self.now.access.now seat.new }
        ensures gone { Adds (LetsGo self.now.session group members.now) (A.mine seat.old)
            (A.mine seat.new) }
    {
        for member in members {
            let left = self.insist(seat, &Command::Leave(group, member.number()));
            drop(left);
        }
    }
}
