ghost use Rattle.std.specs.Prelude.{◌≡◌, ◌+◌, ◌<◌, ◌≤◌, IfOk, None, OnErr, OnOk, Some, filter, length, map, not, slice_get, slice_index, true, false};
ghost use Rattle.std.specs.Option.{option_copied};
ghost use Rattle.std.specs.List.{list_any};
ghost use Rattle.ring_roster.specs.Ring.{is_numbered};
ghost use Rattle.ring_terms.specs.Object.{new_group, leaders};
ghost use Rattle.ring_terms.specs.Charters.{next_charter, running_charter};
ghost use Rattle.ring_terms.specs.Commands.{join_refusal, leave_refusal, never_refused, running_refusal, start_refusal, who_refusal, Answers, Joins, Leaves, Shows, StartsWith};
ghost use Rattle.ring_terms.specs.Standings.{Tells};

use crate::standing::{Noting, Standing};
use crate::term::Term;
use ring_election::RingElection;
use ring_events::{MemberList, TermList};
use ring_id::{GroupName, NoMemory, NodeId, NodeNo, Refusal, TermNo};
use ring_node::{Charter, Report};
use ring_roster::Roster;
use std::alloc::Global;
use std::sync::Arc;

/// One group: its name, its algorithm, its members in joining order, and its terms in order.
#[derive(Drop)]
pub(crate) struct Group<E> {
    name: GroupName,
    algorithm: E,
    members: Vec<NodeId>,
    terms: Vec<Term<E>>,
}

impl<E: RingElection> Group<E> {
    ghost use Rattle.ring_terms.specs.Books.{group_view};
    ghost use Rattle.ring_terms.specs.private.Books.{IsGroupOf, NotesGroup};

    /// Returns a group without members or terms.
    pub(crate) fn new(alloc: Global, name: GroupName, algorithm: E) -> Group<E>
        ensures shown { group_view result ≡ new_group algorithm }
        ensures kept { IsGroupOf E.winner name result }
    {
        Group {
            name,
            algorithm,
            members: Vec::new(alloc),
            terms: Vec::new(alloc),
        }
    }

    /// Adds a member last.
    pub(crate) fn join(&mut self, node: NodeId) -> Result<(), Refusal>
        requires { IsGroupOf E.winner self.old.name self.old }
        ensures answer { Answers (join_refusal node (group_view self.old)) true
            (group_view self.old) result (group_view self.new)
            (λ _. Joins node (group_view self.old) (group_view self.new)) }
        ensures kept { IsGroupOf E.winner self.old.name self.new }
    {
        if self.has_member(node.number()) {
            return Err(Refusal::Member);
        }
        if self.members.len() >= Roster::MOST {
            return Err(Refusal::RingFull);
        }
        let Ok(()) = self.members.push(node) else {
            return Err(Refusal::NoMemory);
        };
        Ok(())
    }

    /// Whether a member has this number.
    fn has_member(&self, node: NodeNo) -> bool
        ensures { result ≡ list_any (is_numbered node) self.now.members.items }
    {
        self.members.iter().any(|member| member.number() == node)
    }

    /// Removes the member with this number, and keeps the order of the rest.
    pub(crate) fn leave(&mut self, node: NodeNo) -> Result<(), Refusal>
        requires { IsGroupOf E.winner self.old.name self.old }
        ensures answer { Answers (leave_refusal node (group_view self.old)) false
            (group_view self.old) result (group_view self.new)
            (λ _. Leaves node (group_view self.old) (group_view self.new)) }
        ensures kept { IsGroupOf E.winner self.old.name self.new }
    {
        if !self.has_member(node) {
            return Err(Refusal::NotMember);
        }
        take_out(&mut self.members, node);
        Ok(())
    }

    /// A copy of the member list.
    pub(crate) fn members(&self, alloc: Global) -> Result<MemberList, Refusal>
        ensures { Shows (never_refused (group_view self.now)) true result
            (λ list. list ≡ (group_view self.now).members) }
    {
        let Ok(members) = Vec::from_slice(alloc, &self.members) else {
            return Err(Refusal::NoMemory);
        };
        Ok(MemberList::new(members))
    }

    /// The algorithm of its terms.
    pub(crate) fn algorithm(&self) -> E
        ensures { result ≡ self.now.algorithm }
    {
        self.algorithm
    }

    /// The members.
    pub(crate) fn member_slice(&self) -> &[NodeId]
        ensures { result.now ≡ self.now.members.items }
    {
        &self.members
    }

    /// The term at this place, counted from 0.
    pub(crate) fn term_at(&self, place: usize) -> Option<&Term<E>>
        ensures { option_copied result ≡ slice_get self.now.terms.items place }
    {
        self.terms.get(place)
    }

    /// The leader of each term.
    pub(crate) fn terms(&self, alloc: Global) -> Result<TermList, Refusal>
        requires { IsGroupOf E.winner self.now.name self.now }
        ensures { Shows (never_refused (group_view self.now)) true result
            (λ list. list ≡ leaders (group_view self.now)) }
    {
        let Ok(leaders) = self.terms.iter().map(|term| term.leader()).collect(alloc) else {
            return Err(Refusal::NoMemory);
        };
        Ok(TermList::new(leaders))
    }

    /// The charter of the term that would start now.
    pub(crate) fn plan(&self, alloc: Global) -> Result<Arc<Charter<E>>, Refusal>
        requires { IsGroupOf E.winner self.now.name self.now }
        ensures { Shows (start_refusal (group_view self.now)) true result
            (λ c. c.value ≡ next_charter self.now.name (group_view self.now)) }
    {
        if self.members.is_empty() {
            return Err(Refusal::Empty);
        }
        let Some(term) = TermNo::new((self.terms.len() + 1) as u16) else {
            return Err(Refusal::TermLimit);
        };
        let Ok(roster) = self.ring(alloc) else {
            return Err(Refusal::NoMemory);
        };
        let Ok(charter) = Charter::new(alloc, self.name, term, self.algorithm, roster) else {
            return Err(Refusal::NoMemory);
        };
        Ok(charter)
    }

    /// The ring of the members, of whom there is at least one. It is the ring of the last term if
    /// that has the same members.
    fn ring(&self, alloc: Global) -> Result<Roster, NoMemory>
        requires kept { IsGroupOf E.winner self.now.name self.now }
        requires some { 0 < length self.now.members.items }
        ensures { IfOk result (λ ring. ring ≡ self.now.members.items) }
    {
        match self.terms.last() {
            Some(term) if term.charter().roster().is_of(&self.members) => {
                term.charter().roster().shared()
            }
            _ => Roster::of_ring(alloc, &self.members),
        }
    }

    /// Starts a term on the ring of the members.
    pub(crate) fn start(&mut self, alloc: Global) -> Result<Arc<Charter<E>>, Refusal>
        requires { IsGroupOf E.winner self.old.name self.old }
        ensures answer { Answers (start_refusal (group_view self.old)) true
            (group_view self.old) result (group_view self.new)
            (λ c. StartsWith self.old.name c.value (group_view self.old) (group_view self.new)) }
        ensures kept { IsGroupOf E.winner self.old.name self.new }
    {
        let charter = self.plan(alloc)?;
        let Ok(copy) = Arc::try_clone(&charter) else {
            return Err(Refusal::NoMemory);
        };
        let Ok(()) = self.start_planned(alloc, copy) else {
            return Err(Refusal::NoMemory);
        };
        Ok(charter)
    }

    /// Starts the term of this charter, which `plan` returned. `NoMemory` if an allocation fails;
    /// nothing has changed then.
    pub(crate) fn start_planned(
        &mut self,
        alloc: Global,
        charter: Arc<Charter<E>>,
    ) -> Result<(), NoMemory>
        requires kept { IsGroupOf E.winner self.old.name self.old }
        requires allowed { start_refusal (group_view self.old) ≡ None }
        requires planned { charter.value ≡ next_charter self.old.name (group_view self.old) }
        ensures started { OnOk result
            (StartsWith self.old.name charter.value (group_view self.old) (group_view self.new)) }
        ensures err { OnErr result (group_view self.new ≡ group_view self.old) }
        ensures kept { IsGroupOf E.winner self.old.name self.new }
    {
        let term = Term::begin(alloc, charter)?;
        let Ok(()) = self.terms.push(term) else {
            return Err(NoMemory);
        };
        Ok(())
    }

    /// The standing of the member with this number in the last term.
    pub(crate) fn who(&self, node: NodeNo) -> Result<Standing, Refusal>
        requires { IsGroupOf E.winner self.now.name self.now }
        ensures { Shows (who_refusal node (group_view self.now)) false result
            (λ s. Tells node s (group_view self.now)) }
    {
        let Some(term) = self.terms.last() else {
            return Err(Refusal::NoTerm);
        };
        term.who(node)
    }

    /// The charter of the last term.
    pub(crate) fn running(&self) -> Result<&Arc<Charter<E>>, Refusal>
        requires { IsGroupOf E.winner self.now.name self.now }
        ensures { Shows (running_refusal (group_view self.now)) false result
            (λ c. running_charter self.now.name (group_view self.now) ≡ Some c.now.value) }
    {
        let Some(term) = self.terms.last() else {
            return Err(Refusal::NoTerm);
        };
        Ok(term.charter())
    }

    /// Files a report.
    pub(crate) fn note(&mut self, report: &Report<E>) -> Noting
        requires { IsGroupOf E.winner self.old.name self.old }
        ensures notes { NotesGroup E.is_greatest self.old.name report.now
            (group_view self.old) result (group_view self.new) }
        ensures kept { IsGroupOf E.winner self.old.name self.new }
    {
        let Some(term) = self.terms.last_mut() else {
            return Noting::Stale;
        };
        term.note(report)
    }

    /// Files that the member at this position of the last term's ring knows its leader. The charter
    /// is that of the last term.
    pub(crate) fn inform(&mut self, charter: &Charter<E>, position: usize, leader: NodeId) -> Noting
        requires kept { IsGroupOf E.winner self.old.name self.old }
        requires running { running_charter self.old.name (group_view self.old) ≡ Some charter.now }
        requires inside { position < length charter.now.roster }
        requires wins { leader ≡ E.winner charter.now.algorithm charter.now.roster }
        ensures notes { NotesGroup E.is_greatest self.old.name
            (record {
              charter = charter.now;
              member = slice_index charter.now.roster position;
              leader = leader;
            }) (group_view self.old) result (group_view self.new) }
        ensures kept { IsGroupOf E.winner self.old.name self.new }
    {
        let Some(term) = self.terms.last_mut() else {
            unreachable!()
        };
        term.inform(position, leader)
    }
}

/// Removes the member with this number.
fn take_out(members: &mut Vec<NodeId>, node: NodeNo)
    ensures { members.new.items
        ≡ filter (λ member. not (is_numbered node member)) members.old.items }
{
    members.retain(|member| member.number() != node);
}
