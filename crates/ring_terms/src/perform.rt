//! The commands of clients, carried out on a book.
ghost use Rattle.std.specs.Prelude.{◌≡◌};
ghost use Rattle.ring_events.specs.declared.event.Command.TheVariants as command;
ghost use Rattle.ring_terms.specs.Steps.{StepOf, standing_reply};
ghost use Rattle.ring_terms.specs.private.Replies.{done_reply, told_reply};

use crate::book::Book;
use crate::standing::Standing;
use ring_election::RingElection;
use ring_events::{Command, Reply};
use ring_id::{GroupName, Refusal};
use std::alloc::Global;

impl<E: RingElection> Book<E> {
    /// Carries out a client's command and returns its reply: one step of the election object.
    ///
    /// A refused command changes nothing. The reply names the first refusal that holds. If none
    /// holds and an allocation fails, the reply is `NoMemory`.
    pub fn perform(&mut self, alloc: Global, command: Command<E>) -> Reply
        ensures { StepOf E.is_two_way E.is_greatest self.old command result self.new }
    {
        match command {
            Command::Create(group, algorithm) => done(self.create(alloc, group, algorithm)),
            Command::Join(group, node) => done(self.join(group, node)),
            Command::Leave(group, node) => done(self.leave(group, node)),
            Command::Start(group) => self.reply_to_start(alloc, group),
            Command::Who(group, node) => told(self.who(group, node)),
            Command::Members(group) => self.reply_with_members(alloc, group),
            Command::Terms(group) => self.reply_with_terms(alloc, group),
            Command::Groups => self.reply_with_groups(alloc),
        }
    }

    // Starts a term. The reply is its number.
    fn reply_to_start(&mut self, alloc: Global, group: GroupName) -> Reply
        ensures { StepOf E.is_two_way E.is_greatest self.old (command.Start group) result self.new }
    {
        match self.start(alloc, group) {
            Ok(charter) => Reply::Term(charter.term()),
            Err(refusal) => Reply::Refused(refusal),
        }
    }

    // The reply with the members of a group.
    fn reply_with_members(&self, alloc: Global, group: GroupName) -> Reply
        ensures { StepOf E.is_two_way E.is_greatest self.now (command.Members group) result
            self.now }
    {
        match self.members(alloc, group) {
            Ok(members) => Reply::Members(members),
            Err(refusal) => Reply::Refused(refusal),
        }
    }

    // The reply with the leaders of a group's terms.
    fn reply_with_terms(&self, alloc: Global, group: GroupName) -> Reply
        ensures { StepOf E.is_two_way E.is_greatest self.now (command.Terms group) result self.now }
    {
        match self.terms(alloc, group) {
            Ok(terms) => Reply::Terms(terms),
            Err(refusal) => Reply::Refused(refusal),
        }
    }

    // The reply with the names of all groups.
    fn reply_with_groups(&self, alloc: Global) -> Reply
        ensures { StepOf E.is_two_way E.is_greatest self.now command.Groups result self.now }
    {
        match self.groups(alloc) {
            Ok(groups) => Reply::Groups(groups),
            Err(refusal) => Reply::Refused(refusal),
        }
    }
}

// The reply to a command that returns no value.
fn done(outcome: Result<(), Refusal>) -> Reply
    ensures { result ≡ done_reply outcome }
{
    match outcome {
        Ok(()) => Reply::Done,
        Err(refusal) => Reply::Refused(refusal),
    }
}

// The reply that gives a standing.
fn told(outcome: Result<Standing, Refusal>) -> Reply
    ensures { result ≡ told_reply outcome }
{
    match outcome {
        Ok(standing) => said(standing),
        Err(refusal) => Reply::Refused(refusal),
    }
}

fn said(standing: Standing) -> Reply
    ensures { result ≡ standing_reply standing }
{
    match standing {
        Standing::Leader { term, leader } => Reply::Leader(term, leader),
        Standing::Undecided(term) => Reply::Undecided(term),
    }
}
