ghost use Rattle.std.specs.Prelude.{◌≡◌, ◌+◌, ◌<◌, ◌≤◌, ◌++◌, ◌⊎◌, false, length, slice_get, slice_index, vec_capacity, vec_len, IfErr, IfOk, IsTrue, MatchBool, OnOk};
ghost use Rattle.ring_workers.specs.private.Fates.{IsTurnedAway};
ghost use Rattle.ring_workers.specs.private.Goings.{Goes};
ghost use Rattle.ring_workers.specs.Goings.{HasReceived};
ghost use Rattle.ring_workers.specs.Holdings.{AllSeated};
ghost use Rattle.ring_workers.specs.Owners.{owner_of, position_of, receiver_of};
ghost use Rattle.ring_workers.specs.Seatings.{HasNodeAt, seated_in};
ghost use Rattle.ring_workers.specs.private.Seatings.{IsFree, IsSeating, KeepsTerm, empty_seating};

use crate::owner::Owner;
use crate::post::{find_room, hand_to, position, post};
use ring_election::RingElection;
use ring_id::{NoMemory, Side};
use ring_node::{Charter, Envelope, Node, Report, TakeFault};
use std::alloc::Global;
use std::collections::VecDeque;
use std::marker::Model;
use std::sync::Arc;

/// How many packets a node sends at most when it is seated: one to each side.
const SENT_AT_SEAT: usize = 2;

/// How many packets a node sends at most because of one receipt: one to each side, and an
/// announcement.
const SENT_AT_RECEIPT: usize = 3;

/// The fate of an item.
#[derive(Clone, Copy)]
pub(crate) enum Fate {
    /// It was handled.
    Done,
    /// It was of an older term of its group than the one held here.
    Older,
    /// It was for no node here, or not the next packet of its link.
    Strange,
}

/// The nodes of one term that a worker owns, each at the place of its position.
///
/// Contracts see the owner, the charter, and for each position the node that is seated there, if
/// any.
#[derive(Drop)]
pub(crate) struct TermNodes<E: RingElection> {
    owner: Owner,
    charter: Arc<Charter<E>>,
    copies: Vec<Arc<Charter<E>>>,
    places: Vec<Option<Node<E>>>,
}

impl<E: RingElection> Model for TermNodes<E> {
    ghost use Rattle.std.specs.Prelude.{◌≡◌, All};
    ghost use Rattle.ring_workers.specs.private.Seatings.{IsSeating};
    ghost use Rattle.ring_workers.specs.Seatings.{Seating};

    ghost Value = { Seating E E.Msg };

    ghost view = { λ a. record {
      number = a.owner.number;
      workers = a.owner.workers;
      charter = a.charter.value;
      places = a.places.items;
    } };

    ghost invariant = { λ a.
        IsSeating a.owner.number a.owner.workers a.charter.value a.places.items
        × All (λ c. c.value ≡ a.charter.value) a.copies.items };
}

impl<E: RingElection> TermNodes<E> {
    /// The seats of this charter's ring, with no node yet. Fails only if an allocation fails.
    pub fn new(
        alloc: Global,
        owner: Owner,
        charter: &Arc<Charter<E>>,
    ) -> Result<TermNodes<E>, NoMemory>
        ensures empty { IfOk result
            (λ seats. seats ≡ empty_seating owner.number owner.workers charter.now.value) }
        ensures kept { IfOk result
            (λ seats. IsSeating seats.number seats.workers seats.charter seats.places) }
    {
        let ring = charter.roster().len();
        let mut places = Vec::with_capacity(alloc, ring)?;
        for _ in 0..ring {
            places.push_reserved(None);
        }
        Ok(TermNodes {
            owner,
            charter: Arc::try_clone(charter)?,
            copies: Vec::new(alloc),
            places,
        })
    }

    /// The charter of the term.
    pub fn charter(&self) -> &Arc<Charter<E>>
        ensures value { result.now.value ≡ self.now.charter }
        ensures kept { IsSeating self.now.number self.now.workers self.now.charter self.now.places }
    {
        &self.charter
    }

    /// Seats each node of the term that the owner owns and that is not seated, if the charter is
    /// the term's own. Returns whether it is. Room for the packets that they send is found first.
    /// If an allocation fails, the nodes seated so far stay.
    pub fn begin(
        &mut self,
        alloc: Global,
        charter: &Charter<E>,
        outbox: &mut VecDeque<Envelope<E>>,
    ) -> Result<bool, NoMemory>
        ensures term { KeepsTerm self.old self.new }
        ensures kept { IsSeating self.new.number self.new.workers self.new.charter self.new.places }
        ensures goes { Goes E.table (seated_in self.old.places) (seated_in self.new.places)
            outbox.old.items outbox.new.items }
        ensures seated { IfOk result (λ own. IsTrue own
            → AllSeated self.new.number self.new.workers (seated_in self.new.places) charter.now) }
        ensures strange { IfOk result (λ own. own ≡ false → self.new.charter ≡ charter.now → ⊥) }
    {
        if !self.charter.same(charter) {
            return Ok(false);
        }
        let more = self.count_free().saturating_mul(SENT_AT_SEAT);
        find_room(&self.charter, &mut self.copies, outbox, more)?;
        for position in 0..self.places.len() {
            if self.is_free(position) {
                self.seat(alloc, position, outbox)?;
            }
        }
        Ok(true)
    }

    /// Hands an envelope of this group and term to the node to which its link leads, which is
    /// seated first if it is not. Returns whether the node took it, and its report. The node does
    /// not take it if the envelope is of another charter or not the next of its link. Room for all
    /// packets that it can cause is found first. If an allocation fails, the envelope comes back; a
    /// node that was seated for it stays.
    pub fn hand_over(
        &mut self,
        alloc: Global,
        envelope: Envelope<E>,
        outbox: &mut VecDeque<Envelope<E>>,
    ) -> Result<(bool, Option<Report<E>>), Envelope<E>>
        requires { owner_of self.old.workers (receiver_of envelope) ≡ self.old.number }
        ensures term { KeepsTerm self.old self.new }
        ensures kept { IsSeating self.new.number self.new.workers self.new.charter self.new.places }
        ensures goes { Goes E.table (seated_in self.old.places) (seated_in self.new.places)
            outbox.old.items outbox.new.items }
        ensures received { IfOk result
            (λ r. IsTrue r.0 → HasReceived (seated_in self.new.places) envelope) }
        ensures away { IfOk result (λ r. r.0 ≡ false
            → IsTurnedAway (seated_in self.new.places) self.new.charter envelope) }
        ensures back { IfErr result (λ back. back ≡ envelope) }
    {
        let position = position(&envelope);
        match self.make_seat(alloc, position, envelope.charter(), outbox) {
            Ok(true) => {}
            Ok(false) => return Ok((false, None)),
            Err(NoMemory) => return Err(envelope),
        }
        match self.take(position, envelope, outbox) {
            Ok(report) => Ok((true, report)),
            Err((fault, back)) => match fault {
                TakeFault::NoMemory => Err(back),
                _ => Ok((false, None)),
            },
        }
    }

    /// Seats the node at this position of a charter, if none is seated there and the charter is the
    /// term's own. Returns whether a node is seated there.
    fn make_seat(
        &mut self,
        alloc: Global,
        position: usize,
        charter: &Charter<E>,
        outbox: &mut VecDeque<Envelope<E>>,
    ) -> Result<bool, NoMemory>
        requires inside { position < length charter.now.roster }
        requires owned { owner_of self.old.workers (slice_index charter.now.roster position)
            ≡ self.old.number }
        ensures term { KeepsTerm self.old self.new }
        ensures kept { IsSeating self.new.number self.new.workers self.new.charter self.new.places }
        ensures goes { Goes E.table (seated_in self.old.places) (seated_in self.new.places)
            outbox.old.items outbox.new.items }
        ensures seated { IfOk result (λ there. IsTrue there
            → HasNodeAt (seated_in self.new.places) self.new.charter position) }
        ensures strange { IfOk result
            (λ there. there ≡ false → self.new.charter ≡ charter.now → ⊥) }
    {
        if self.is_seated(position) {
            return Ok(true);
        }
        if !self.charter.same(charter) {
            return Ok(false);
        }
        self.seat_for_receipt(alloc, position, outbox)?;
        Ok(true)
    }

    /// Seats the node at this position, with room for the packets that it sends then and because of
    /// one receipt.
    fn seat_for_receipt(
        &mut self,
        alloc: Global,
        position: usize,
        outbox: &mut VecDeque<Envelope<E>>,
    ) -> Result<(), NoMemory>
        requires inside { position < length self.old.charter.roster }
        requires empty { slice_get self.old.places position ≡ Some None }
        requires owned { owner_of self.old.workers (slice_index self.old.charter.roster position)
            ≡ self.old.number }
        ensures term { KeepsTerm self.old self.new }
        ensures kept { IsSeating self.new.number self.new.workers self.new.charter self.new.places }
        ensures goes { Goes E.table (seated_in self.old.places) (seated_in self.new.places)
            outbox.old.items outbox.new.items }
        ensures seated { OnOk result
            (HasNodeAt (seated_in self.new.places) self.new.charter position) }
    {
        find_room(
            &self.charter,
            &mut self.copies,
            outbox,
            SENT_AT_SEAT + SENT_AT_RECEIPT,
        )?;
        self.seat(alloc, position, outbox)
    }

    /// Seats the node at this position and posts the packets that it sends.
    fn seat(
        &mut self,
        alloc: Global,
        position: usize,
        outbox: &mut VecDeque<Envelope<E>>,
    ) -> Result<(), NoMemory>
        requires inside { position < length self.old.charter.roster }
        requires empty { slice_get self.old.places position ≡ Some None }
        requires owned { owner_of self.old.workers (slice_index self.old.charter.roster position)
            ≡ self.old.number }
        ensures term { KeepsTerm self.old self.new }
        ensures kept { IsSeating self.new.number self.new.workers self.new.charter self.new.places }
        ensures goes { Goes E.table (seated_in self.old.places) (seated_in self.new.places)
            outbox.old.items outbox.new.items }
        ensures seated { OnOk result
            (HasNodeAt (seated_in self.new.places) self.new.charter position) }
    {
        find_room(&self.charter, &mut self.copies, outbox, SENT_AT_SEAT)?;
        let copy = Arc::try_clone(&self.charter)?;
        let node = Node::seat(alloc, copy, position)?;
        post(&node, Side::Left, 0, &mut self.copies, outbox);
        post(&node, Side::Right, 0, &mut self.copies, outbox);
        self.places[position] = Some(node);
        Ok(())
    }

    /// Hands an envelope to the node that is seated at this position, and posts the packets that it
    /// sends.
    fn take(
        &mut self,
        position: usize,
        envelope: Envelope<E>,
        outbox: &mut VecDeque<Envelope<E>>,
    ) -> Result<Option<Report<E>>, (TakeFault, Envelope<E>)>
        requires seated { HasNodeAt (seated_in self.old.places) self.old.charter position }
        requires led { position ≡ position_of envelope }
        ensures term { KeepsTerm self.old self.new }
        ensures kept { IsSeating self.new.number self.new.workers self.new.charter self.new.places }
        ensures goes { Goes E.table (seated_in self.old.places) (seated_in self.new.places)
            outbox.old.items outbox.new.items }
        ensures received { OnOk result (HasReceived (seated_in self.new.places) envelope) }
        ensures away { IfErr result (λ r. (r.0 ≡ TakeFault.NoMemory)
            ⊎ IsTurnedAway (seated_in self.new.places) self.new.charter envelope) }
        ensures back { IfErr result (λ r. r.1 ≡ envelope) }
    {
        if find_room(&self.charter, &mut self.copies, outbox, SENT_AT_RECEIPT).is_err() {
            return Err((TakeFault::NoMemory, envelope));
        }
        let Some(node) = &mut self.places[position] else {
            unreachable!()
        };
        hand_to(node, envelope, &mut self.copies, outbox)
    }

    /// Whether a node is seated at this position.
    fn is_seated(&self, position: usize) -> bool
        ensures { MatchBool result
            (HasNodeAt (seated_in self.now.places) self.now.charter position)
            (slice_get self.now.places position ≡ Some None
            ⊎ slice_get self.now.places position ≡ None) }
    {
        match self.places.get(position) {
            Some(Some(_)) => true,
            Some(None) => false,
            None => false,
        }
    }

    /// Whether the owner owns the node at this position, and it is not seated.
    fn is_free(&self, position: usize) -> bool
        ensures { MatchBool result (IsFree self.now position) (IsFree self.now position → ⊥) }
    {
        let Some(member) = self.charter.roster().at(position) else {
            return false;
        };
        if self.owner.of(member) != self.owner.number {
            return false;
        }
        !self.is_seated(position)
    }

    /// How many nodes the owner owns that are not seated.
    fn count_free(&self) -> usize {
        let mut free: usize = 0;
        for position in 0..self.places.len() {
            if self.is_free(position) {
                free = free.saturating_add(1);
            }
        }
        free
    }

    /// How many nodes are seated.
    pub fn len(&self) -> usize
        ensures { result ≡ length (seated_in self.now.places) }
    {
        let mut count = 0;
        for place in &self.places {
            match place {
                Some(_) => count += 1,
                None => {}
            }
        }
        count
    }

    /// Moves all nodes to the end of a list that has room for them.
    pub fn append_to(self, nodes: &mut Vec<Node<E>>)
        requires { vec_len nodes.old + length (seated_in self.places) ≤ vec_capacity nodes.old }
        ensures nodes { nodes.new.items ≡ nodes.old.items ++ seated_in self.places }
        ensures room { vec_capacity nodes.new ≡ vec_capacity nodes.old }
    {
        for place in self.places {
            match place {
                Some(node) => nodes.push_reserved(node),
                None => {}
            }
        }
    }
}
