//! What the members and the terms of groups are, as one session asks a table.
ghost use Rattle.std.specs.Prelude.{◌≡◌, ◌≤◌, ◌+◌, ◌++◌, ◌^◌, IfErr, IfOk, OnOk};
ghost use Rattle.ring_id.specs.declared.refusal.Refusal.TheVariants.{NoMemory};
ghost use Rattle.ring_events.specs.declared.reply.Reply.TheVariants as variant;
ghost use Rattle.ring_any.specs.Any.{any_greatest, any_two_way, any_winner};
ghost use Rattle.ring_table.specs.Accesses.{HasStep};
ghost use Rattle.ring_http.specs.Asking.{IsPlaceAfter, IsPlaceFrom, Lacks, hears_of};
ghost use Rattle.ring_http.specs.private.Asking.{AddsEach, Asks, AsksMembers, AsksNames, AsksTerms, GivesMembers, GivesTerms, Hears, IsAsked, SaysMembers, SaysNames, SaysTerms};

use crate::beside::Beside;
use ring_any::Any;
use ring_events::{Command, GroupList, MemberList, Reply, TermList};
use ring_id::{GroupName, NodeId, NodeNo, Refusal};
use ring_table::{Access, Answer};
use std::alloc::Global;
use std::sync::Wait;

/// Why a question has no answer.
#[derive(Clone, Copy)]
pub enum Lack {
    /// The question was not placed: out of memory, or the seat has used up its turns.
    Unplaced(Refusal),
    /// The table refused the question: there is no such group.
    NoGroup,
    /// The place of the answer is not greater than the last one.
    Late,
}

/// A session of a table, which asks the questions.
#[derive(Drop)]
pub struct Asker<'a, A: Drop, R, B> {
    /// The runtime.
    pub rt: &'a R,
    /// The allocator.
    pub alloc: Global,
    /// The table's access.
    pub access: &'a A,
    /// The number of the session.
    pub session: u32,
    /// The number that is added to each place of an answer.
    pub base: usize,
    /// What is known beside the table.
    pub beside: &'a B,
}

impl<A: Access<Any> + Drop, R: Wait, B: Beside> Asker<'_, A, R, B> {
    // The answer to a question. Its place is put into `place`. If it is not greater than the place
    // there, there is no answer.
    fn ask(
        &self,
        seat: &mut A::Seat,
        place: &mut usize,
        command: &Command<Any>,
    ) -> Result<Reply, Lack>
        requires seat { A.has_seat self.now.access.now seat.old }
        requires question { IsAsked self.now.session command.now }
        requires base { self.now.base + A.most ≤ 2 ^ 64 }
        ensures seat { A.has_seat self.now.access.now seat.new }
        ensures ok { IfOk result (λ answer. Asks self.now.session command.now answer
            (A.mine seat.old) (A.mine seat.new)) }
        ensures step { IfOk result
            (HasStep any_winner any_two_way any_greatest command.now) }
        ensures err { IfErr result
            (λ lack. Lacks self.now.session lack (A.mine seat.old) (A.mine seat.new)) }
        ensures placed { OnOk result
            (IsPlaceAfter self.now.base A.most place.old place.new) }
        ensures rises { place.old ≤ place.new }
    {
        match self.access.call(self.rt, seat, self.session, *command) {
            Answer::Placed { reply, place: at } => {
                let told = self.base + at;
                if told <= *place {
                    drop(reply);
                    return Err(Lack::Late);
                }
                *place = told;
                Ok(reply)
            }
            Answer::Unplaced(refusal) => Err(Lack::Unplaced(refusal)),
        }
    }

    /// The names of all groups.
    pub(crate) fn names(&self, seat: &mut A::Seat, place: &mut usize) -> Result<GroupList, Lack>
        requires seat { A.has_seat self.now.access.now seat.old }
        requires base { self.now.base + A.most ≤ 2 ^ 64 }
        ensures seat { A.has_seat self.now.access.now seat.new }
        ensures asks { AsksNames self.now.session (A.mine seat.old) result (A.mine seat.new) }
        ensures placed { OnOk result
            (IsPlaceAfter self.now.base A.most place.old place.new) }
        ensures rises { place.old ≤ place.new }
    {
        let reply = self.ask(seat, place, &Command::Groups)?;
        Ok(names_in(reply))
    }

    /// The members of a group.
    pub(crate) fn members(
        &self,
        seat: &mut A::Seat,
        place: &mut usize,
        name: GroupName,
    ) -> Result<MemberList, Lack>
        requires seat { A.has_seat self.now.access.now seat.old }
        requires base { self.now.base + A.most ≤ 2 ^ 64 }
        ensures seat { A.has_seat self.now.access.now seat.new }
        ensures asks { AsksMembers self.now.session name (A.mine seat.old) result
            (A.mine seat.new) }
        ensures placed { OnOk result
            (IsPlaceAfter self.now.base A.most place.old place.new) }
        ensures rises { place.old ≤ place.new }
    {
        let reply = self.ask(seat, place, &Command::Members(name))?;
        members_in(reply)
    }

    /// The leaders of a group's terms.
    pub(crate) fn terms(
        &self,
        seat: &mut A::Seat,
        place: &mut usize,
        name: GroupName,
    ) -> Result<TermList, Lack>
        requires seat { A.has_seat self.now.access.now seat.old }
        requires base { self.now.base + A.most ≤ 2 ^ 64 }
        ensures seat { A.has_seat self.now.access.now seat.new }
        ensures asks { AsksTerms self.now.session name (A.mine seat.old) result (A.mine seat.new) }
        ensures placed { OnOk result
            (IsPlaceAfter self.now.base A.most place.old place.new) }
        ensures rises { place.old ≤ place.new }
    {
        let reply = self.ask(seat, place, &Command::Terms(name))?;
        terms_in(reply)
    }

    /// The numbers of these members that know the leader of the last term.
    pub(crate) fn informed(
        &self,
        seat: &mut A::Seat,
        place: &mut usize,
        name: GroupName,
        members: &[NodeId],
    ) -> Result<Vec<NodeNo>, Lack>
        requires seat { A.has_seat self.now.access.now seat.old }
        requires base { self.now.base + A.most ≤ 2 ^ 64 }
        ensures seat { A.has_seat self.now.access.now seat.new }
        ensures ok { IfOk result (λ informed. AddsEach self.now.session name members.now
            informed.items (A.mine seat.old) (A.mine seat.new)) }
        ensures err { IfErr result
            (λ lack. Lacks self.now.session lack (A.mine seat.old) (A.mine seat.new)) }
        ensures kept { OnOk result (IsPlaceFrom self.now.base A.most place.old
            → IsPlaceFrom self.now.base A.most place.new) }
        ensures rises { place.old ≤ place.new }
    {
        let mut informed = Vec::new(self.alloc);
        for member in members {
            self.hear(seat, place, name, member.number(), &mut informed)?;
        }
        Ok(informed)
    }

    // Asks what a member knows of its leader, and notes its number if it knows one.
    fn hear(
        &self,
        seat: &mut A::Seat,
        place: &mut usize,
        name: GroupName,
        number: NodeNo,
        informed: &mut Vec<NodeNo>,
    ) -> Result<(), Lack>
        requires seat { A.has_seat self.now.access.now seat.old }
        requires base { self.now.base + A.most ≤ 2 ^ 64 }
        ensures seat { A.has_seat self.now.access.now seat.new }
        ensures ok { OnOk result (Hears self.now.session name number informed.old.items
            informed.new.items (A.mine seat.old) (A.mine seat.new)) }
        ensures err { IfErr result
            (λ lack. Lacks self.now.session lack (A.mine seat.old) (A.mine seat.new)) }
        ensures placed { OnOk result
            (IsPlaceAfter self.now.base A.most place.old place.new) }
        ensures rises { place.old ≤ place.new }
    {
        let reply = self.ask(seat, place, &Command::Who(name, number))?;
        let noted = note(informed, number, &reply);
        drop(reply);
        noted
    }
}

// The groups that an answer lists.
fn names_in(reply: Reply) -> GroupList
    requires { SaysNames reply }
    ensures { reply ≡ variant.Groups result }
{
    match reply {
        Reply::Groups(list) => list,
        _ => unreachable!(),
    }
}

// The members that an answer lists, if there is such a group.
fn members_in(reply: Reply) -> Result<MemberList, Lack>
    requires { SaysMembers reply }
    ensures { GivesMembers reply result }
{
    match reply {
        Reply::Members(list) => Ok(list),
        Reply::Refused(_) => Err(Lack::NoGroup),
        _ => unreachable!(),
    }
}

// The leaders that an answer lists, if there is such a group.
fn terms_in(reply: Reply) -> Result<TermList, Lack>
    requires { SaysTerms reply }
    ensures { GivesTerms reply result }
{
    match reply {
        Reply::Terms(list) => Ok(list),
        Reply::Refused(_) => Err(Lack::NoGroup),
        _ => unreachable!(),
    }
}

// Notes a member that knows its leader, given what it answered.
fn note(informed: &mut Vec<NodeNo>, number: NodeNo, reply: &Reply) -> Result<(), Lack>
    ensures ok { OnOk result
        (informed.new.items ≡ informed.old.items ++ hears_of number reply.now) }
    ensures err { IfErr result (λ lack. lack ≡ Lack.Unplaced NoMemory) }
{
    match reply {
        Reply::Leader(_, _) => match informed.push(number) {
            Ok(()) => Ok(()),
            Err(_) => Err(Lack::Unplaced(Refusal::NoMemory)),
        },
        _ => Ok(()),
    }
}
