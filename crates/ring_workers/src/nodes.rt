ghost use Rattle.std.specs.Prelude.{◌≡◌, ◌+◌, ◌-◌, ◌^◌, ◌≤◌, ◌++◌, [], false, length, min, None, vec_capacity, vec_len, IfErr, IfOk, IsTrue, MatchOption, OnOk};
ghost use Rattle.ring_workers.specs.Holdings.{AllOwned, AllSeated, NoTwoAlike, charters_of, nodes_of};
ghost use Rattle.ring_workers.specs.private.Holdings.{HasGroupAt, HasOlderAt, IsOlder, Steps};
ghost use Rattle.std.specs.Map.{lookup};
ghost use Rattle.std.specs.Str.{bytes_eq};
ghost use Rattle.ring_workers.specs.private.Fates.{HasOther, IsEnvelopeFate, IsFate, IsStranger};
ghost use Rattle.ring_workers.specs.Goings.{HasReceived};
ghost use Rattle.ring_workers.specs.Owners.{owner_of, receiver_of};

use crate::owner::Owner;
use crate::term_nodes::{Fate, TermNodes};
use indexmap::IndexMap;
use ring_election::RingElection;
use ring_id::{GroupName, NoMemory};
use ring_node::{Charter, Envelope, Node, Report};
use std::alloc::Global;
use std::collections::VecDeque;
use std::marker::Model;
use std::sync::Arc;

/// The nodes that a worker holds: of each group those of one term. Tested, not proved: it is the
/// newest term that the worker saw.
///
/// Contracts see the worker's number, how many workers there are, and the seats of each group. No
/// two nodes have one charter and one position, and the worker owns each.
#[derive(Drop)]
pub struct Nodes<E: RingElection> {
    owner: Owner,
    groups: IndexMap<GroupName, TermNodes<E>>,
}

impl<E: RingElection> Model for Nodes<E> {
    ghost use Rattle.ring_workers.specs.Holdings.{Holding};
    ghost use Rattle.ring_workers.specs.private.Holdings.{IsHolding};

    ghost Value = { Holding E E.Msg };

    ghost view = { λ a. record {
      number = a.owner.number;
      workers = a.owner.workers;
      groups = a.groups.entries;
    } };

    ghost invariant = { λ a. IsHolding a.owner.number a.owner.workers a.groups.entries };
}

impl<E: RingElection> Nodes<E> {
    /// No nodes, of this owner. Does not allocate.
    pub(crate) fn new(alloc: Global, owner: Owner) -> Nodes<E>
        ensures { result ≡ record { number = owner.number; workers = owner.workers; groups = [] } }
    {
        Nodes {
            owner,
            groups: IndexMap::new(alloc),
        }
    }

    /// The owner. The last two clauses give the invariant of the type.
    pub(crate) fn owner(&self) -> Owner
        ensures number { result.number ≡ self.now.number }
        ensures workers { result.workers ≡ self.now.workers }
        ensures owned { AllOwned self.now.number self.now.workers (nodes_of self.now) }
        ensures apart { NoTwoAlike (nodes_of self.now) }
    {
        self.owner
    }

    /// Seats each node of a charter that the owner owns. Older nodes of the group are dropped, and
    /// so is a charter of an older term. The result is `Strange` if another charter of this group
    /// and term is held. If an allocation fails, the nodes seated so far stay.
    pub(crate) fn begin(
        &mut self,
        alloc: Global,
        charter: &Arc<Charter<E>>,
        outbox: &mut VecDeque<Envelope<E>>,
    ) -> Result<Fate, NoMemory>
        ensures steps { Steps E.table charter.now.value self.old self.new
            outbox.old.items outbox.new.items }
        ensures fate { IfOk result (IsFate self.old self.new charter.now.value) }
    {
        let Some(place) = self.turn_to(alloc, charter)? else {
            return Ok(Fate::Older);
        };
        match self.begin_at(alloc, place, charter, outbox)? {
            true => Ok(Fate::Done),
            false => Ok(Fate::Strange),
        }
    }

    /// Hands an envelope to the node to which its link leads, which the owner owns. Older nodes of
    /// the group are dropped, and so is an envelope of an older term. The result is `Strange` if
    /// the envelope is of another charter of this group and term, or not the next of its link. If
    /// an allocation fails, the envelope comes back.
    pub(crate) fn hand_over(
        &mut self,
        alloc: Global,
        envelope: Envelope<E>,
        outbox: &mut VecDeque<Envelope<E>>,
    ) -> Result<(Fate, Option<Report<E>>), Envelope<E>>
        requires { owner_of self.old.workers (receiver_of envelope) ≡ self.old.number }
        ensures steps { Steps E.table envelope.charter self.old self.new
            outbox.old.items outbox.new.items }
        ensures fate { IfOk result (λ r. IsEnvelopeFate self.old self.new envelope r.0) }
        ensures back { IfErr result (λ back. back ≡ envelope) }
    {
        let place = match self.turn_to(alloc, envelope.charter()) {
            Ok(Some(place)) => place,
            Ok(None) => return Ok((Fate::Older, None)),
            Err(NoMemory) => return Err(envelope),
        };
        match self.hand_over_at(alloc, place, envelope, outbox)? {
            (true, report) => Ok((Fate::Done, report)),
            (false, report) => Ok((Fate::Strange, report)),
        }
    }

    /// Begins a charter at the place of its group, which holds seats of its term.
    fn begin_at(
        &mut self,
        alloc: Global,
        place: usize,
        charter: &Arc<Charter<E>>,
        outbox: &mut VecDeque<Envelope<E>>,
    ) -> Result<bool, NoMemory>
        requires { HasGroupAt self.old.groups place charter.now.value }
        ensures steps { Steps E.table charter.now.value self.old self.new
            outbox.old.items outbox.new.items }
        ensures seated { IfOk result (λ own. IsTrue own
            → AllSeated self.new.number self.new.workers (nodes_of self.new) charter.now.value) }
        ensures strange { IfOk result (λ own. own ≡ false → HasOther self.new charter.now.value) }
    {
        let Some(seats) = self.groups.get_index_mut(place) else {
            unreachable!()
        };
        seats.begin(alloc, charter, outbox)
    }

    /// Hands an envelope over at the place of its group, which holds seats of its term.
    fn hand_over_at(
        &mut self,
        alloc: Global,
        place: usize,
        envelope: Envelope<E>,
        outbox: &mut VecDeque<Envelope<E>>,
    ) -> Result<(bool, Option<Report<E>>), Envelope<E>>
        requires group { HasGroupAt self.old.groups place envelope.charter }
        requires owned { owner_of self.old.workers (receiver_of envelope) ≡ self.old.number }
        ensures steps { Steps E.table envelope.charter self.old self.new
            outbox.old.items outbox.new.items }
        ensures received { IfOk result
            (λ r. IsTrue r.0 → HasReceived (nodes_of self.new) envelope) }
        ensures strange { IfOk result (λ r. r.0 ≡ false → IsStranger self.new envelope) }
        ensures back { IfErr result (λ back. back ≡ envelope) }
    {
        let Some(seats) = self.groups.get_index_mut(place) else {
            unreachable!()
        };
        seats.hand_over(alloc, envelope, outbox)
    }

    /// The place of a charter's group, which then holds seats of the charter's term. The group gets
    /// a place if it has none, and seats of an older term are dropped. The result is `None` if the
    /// group's seats are of a newer term. If an allocation fails, nothing changes.
    fn turn_to(
        &mut self,
        alloc: Global,
        charter: &Arc<Charter<E>>,
    ) -> Result<Option<usize>, NoMemory>
        ensures steps { Steps E.table charter.now.value self.old self.new [] [] }
        ensures place { IfOk result (λ place. MatchOption place
            (IsOlder (charters_of self.old) charter.now.value)
            (λ i. HasGroupAt self.new.groups i charter.now.value)) }
    {
        let Some(place) = self.groups.get_index_of(&charter.group()) else {
            return self.add(alloc, charter);
        };
        let Some((_, seats)) = self.groups.get_index(place) else {
            unreachable!()
        };
        let held = seats.charter().term().get();
        let wanted = charter.term().get();
        if wanted < held {
            return Ok(None);
        }
        if held < wanted {
            self.replace(alloc, place, charter)?;
        }
        Ok(Some(place))
    }

    /// Puts empty seats of a charter in place of those of an older term of its group.
    fn replace(
        &mut self,
        alloc: Global,
        place: usize,
        charter: &Arc<Charter<E>>,
    ) -> Result<(), NoMemory>
        requires { HasOlderAt self.old.groups place charter.now.value }
        ensures steps { Steps E.table charter.now.value self.old self.new [] [] }
        ensures place { OnOk result (HasGroupAt self.new.groups place charter.now.value) }
    {
        let seats = TermNodes::new(alloc, self.owner, charter)?;
        let Some(held) = self.groups.get_index_mut(place) else {
            unreachable!()
        };
        *held = seats;
        Ok(())
    }

    /// Adds empty seats of a charter whose group has none.
    fn add(&mut self, alloc: Global, charter: &Arc<Charter<E>>) -> Result<Option<usize>, NoMemory>
        requires { lookup (bytes_eq charter.now.value.group) self.old.groups ≡ None }
        ensures steps { Steps E.table charter.now.value self.old self.new [] [] }
        ensures place { IfOk result (λ place. MatchOption place ⊥
            (λ i. HasGroupAt self.new.groups i charter.now.value)) }
    {
        let place = self.groups.len();
        let seats = TermNodes::new(alloc, self.owner, charter)?;
        let Ok(_) = self.groups.insert(charter.group(), seats) else {
            return Err(NoMemory);
        };
        Ok(Some(place))
    }

    /// The number of nodes, or the greatest `usize` if there are more nodes than it counts. No list
    /// has room for that many.
    pub(crate) fn count(&self) -> usize
        ensures { result ≡ min (length (nodes_of self.now)) (2 ^ 64 - 1) }
    {
        let mut count: usize = 0;
        for seats in self.groups.values() {
            count = count.saturating_add(seats.len());
        }
        count
    }

    /// Moves all nodes to the end of a list that has room for them.
    pub(crate) fn append_to(self, nodes: &mut Vec<Node<E>>)
        requires { vec_len nodes.old + length (nodes_of self) ≤ vec_capacity nodes.old }
        ensures { nodes.new.items ≡ nodes.old.items ++ nodes_of self }
    {
        for (_, seats) in self.groups {
            seats.append_to(nodes);
        }
    }
}
