ghost use Rattle.std.specs.Prelude.{◌≡◌, ◌+◌, ◌^◌, ◌<◌, [], IfOk, IfSome, MatchOption, OnErr, OnOk, length, slice_get, take};
ghost use Rattle.ring_id.specs.Sides.{other};
ghost use Rattle.ring_node.specs.private.Envelopes.{AllSendable};
ghost use Rattle.ring_election.specs.Traces.{taken_from};
ghost use Rattle.ring_node.specs.Nodes.{Gains, HasSentFew, IsComing, IsFaithful, IsFault, IsForNode, IsNext, IsSentWell, Takes, envelope_of, known_of, member_of, news_of, receiving, report_of, sent_of, taken_of};
ghost use Rattle.ring_node.specs.Reports.{IsTruthful};

use crate::charter::Charter;
use crate::envelope::Envelope;
use crate::fault::TakeFault;
use crate::packet::Packet;
use crate::port::Port;
use crate::report::Report;
use crate::step::{count, learn, prepare, run};
use ring_election::RingElection;
use ring_id::{NoMemory, NodeId, Side};
use std::alloc::Global;
use std::marker::Model;
use std::sync::Arc;

/// One node of a term: its state, the journal of its receipts, and the packets that it has sent.
///
/// Contracts see a node as its charter, its position and its journal. The rest follows from these.
#[derive(Drop)]
pub struct Node<E: RingElection> {
    charter: Arc<Charter<E>>,
    position: usize,
    me: NodeId,
    state: E::State,
    journal: Vec<(Side, Packet<E::Msg>)>,
    left: Port<E::Msg>,
    right: Port<E::Msg>,
    known: Option<NodeId>,
}

impl<E: RingElection> Model for Node<E> {
    ghost use Rattle.ring_node.specs.Nodes.{Seated};
    ghost use Rattle.ring_node.specs.private.Kept.{IsSeated};

    ghost Value = { Seated E E.Msg };

    ghost view = { λ a. record {
      charter = a.charter.value;
      position = a.position;
      journal = a.journal.items;
    } };

    ghost invariant = { λ a. IsSeated (E.table a.charter.value.algorithm)
        (E.fits a.charter.value.algorithm) (E.winner a.charter.value.algorithm)
        a.charter.value.roster a.position a.me a.state a.journal.items a.left a.right a.known };
}

impl<E: RingElection> Node<E> {
    ghost use Rattle.ring_node.specs.private.Kept.{IsPort};

    /// Returns the node at this position of the charter's ring, which has started and received
    /// nothing. `NoMemory` if an allocation fails.
    pub fn seat(
        alloc: Global,
        charter: Arc<Charter<E>>,
        position: usize,
    ) -> Result<Node<E>, NoMemory>
        requires { position < length charter.value.roster }
        ensures node { IfOk result
            (λ node. node ≡ record { charter = charter.value; position = position; journal = [] }) }
        ensures faithful { IfOk result (IsFaithful E.table E.fits E.winner) }
        ensures few { IfOk result (HasSentFew E.table) }
    {
        let me = charter.roster().at(position).unwrap();
        let (state, sends) = charter.algorithm().start(alloc, me);
        let ring = charter.roster().len();
        let left = Port::opened(alloc, sends.left, ring)?;
        let right = Port::opened(alloc, sends.right, ring)?;
        Ok(Node {
            charter,
            position,
            me,
            state,
            journal: Vec::new(alloc),
            left,
            right,
            known: None,
        })
    }

    /// The charter of the term. Does not allocate, like the other readers.
    pub fn charter(&self) -> &Arc<Charter<E>>
        ensures { result.now.value ≡ self.now.charter }
    {
        &self.charter
    }

    /// The position on the charter's ring.
    pub fn position(&self) -> usize
        ensures value { result ≡ self.now.position }
        ensures faithful { IsFaithful E.table E.fits E.winner self.now }
    {
        self.position
    }

    /// The number of packets that it has sent to a side.
    pub fn sent(&self, side: Side) -> usize
        ensures { result ≡ length (sent_of E.table self.now side) }
    {
        self.port(side).sent.len()
    }

    /// The number of packets that it has taken from a side.
    pub fn taken(&self, side: Side) -> usize
        ensures { result ≡ length (taken_of self.now side) }
    {
        let port = self.port(side);
        port.algos + port.leaders
    }

    /// The leader if this node has decided or the announcement has reached it; otherwise `None`.
    pub fn known(&self) -> Option<NodeId>
        ensures value { result ≡ known_of E.table self.now }
        ensures wins { IfSome result
            (λ v. v ≡ E.winner self.now.charter.algorithm self.now.charter.roster) }
    {
        self.known
    }

    /// The packet that it sent to a side at this place, from 0 on; `None` past the last.
    pub fn packet(&self, side: Side, place: usize) -> Option<Packet<E::Msg>>
        ensures value { result ≡ slice_get (sent_of E.table self.now side) place }
        ensures sendable { IfSome result (IsSentWell E.table E.fits E.winner self.now side place) }
    {
        self.port(side).nth(place)
    }

    /// The packet that it took from a side at this place, from 0 on; `None` past the last.
    pub fn receipt(&self, side: Side, place: usize) -> Option<Packet<E::Msg>>
        ensures { result ≡ slice_get (taken_of self.now side) place }
    {
        nth_from(&self.journal, side, place)
    }

    /// The receipts in order: the side from which each packet came, and the packet.
    pub fn receipts(&self) -> &[(Side, Packet<E::Msg>)]
        ensures { result.now ≡ self.now.journal }
    {
        &self.journal
    }

    /// The envelope of the packet that it sent to a side at this place; `None` past the last.
    /// `copy` is a share of this node's charter: the caller makes it, since that can fail.
    pub fn envelope(&self, copy: Arc<Charter<E>>, side: Side, place: usize) -> Option<Envelope<E>>
        requires { copy.value ≡ self.now.charter }
        ensures { result ≡ envelope_of E.table self.now side place }
    {
        let packet = self.packet(side, place)?;
        let index = match packet {
            Packet::Algo(_) => self.port(side).algos_before(place),
            Packet::Leader(_) => 0,
        };
        Some(Envelope::new(copy, self.position, side, index, packet))
    }

    /// The report that this node knows the leader; `None` if it does not. `copy` is a share of this
    /// node's charter.
    pub fn report(&self, copy: Arc<Charter<E>>) -> Option<Report<E>>
        requires { copy.value ≡ self.now.charter }
        ensures { result ≡ report_of E.table self.now }
    {
        let leader = self.known?;
        Some(Report::new(copy, self.position, self.me, leader))
    }

    /// Takes an envelope. Returns this node's report if this receipt is the first by which the node
    /// knows the leader, and `None` otherwise. The packets already sent stay, and at most one to
    /// the left and two to the right follow them.
    ///
    /// Faults, the first that holds: `Stranger`, `Repeat`, `Gap`, `NoMemory`. A fault returns the
    /// envelope and leaves the node unchanged.
    pub fn take(
        &mut self,
        envelope: Envelope<E>,
    ) -> Result<Option<Report<E>>, (TakeFault, Envelope<E>)>
        ensures takes { Takes E.table self.old envelope result self.new }
        ensures gains { OnOk result
            (Gains E.table self.old (other envelope.side) envelope.packet self.new) }
    {
        if let Some(fault) = self.fault_of(&envelope) {
            return Err((fault, envelope));
        }
        let from = envelope.side().other();
        match self.accept(from, envelope.packet()) {
            Ok(None) => Ok(None),
            Ok(Some(leader)) => {
                let charter = envelope.into_charter();
                Ok(Some(Report::new(charter, self.position, self.me, leader)))
            }
            Err(NoMemory) => Err((TakeFault::NoMemory, envelope)),
        }
    }

    /// Takes the next packet from a side. Returns the leader if this receipt is the first by which
    /// the node knows it, and `None` otherwise. `NoMemory` if an allocation fails; the node is then
    /// unchanged.
    #[inline(always)]
    pub fn accept(&mut self, from: Side, packet: Packet<E::Msg>) -> Result<Option<NodeId>, NoMemory>
        requires { IsComing E.fits E.winner self.old from packet }
        ensures journal { OnOk result (self.new ≡ receiving self.old from packet) }
        ensures gains { OnOk result (Gains E.table self.old from packet self.new) }
        ensures news { IfOk result (λ leader. leader ≡ news_of E.table self.old self.new) }
        ensures truthful { IfOk result
            (λ leader. IfSome leader
            (IsTruthful (E.winner self.old.charter.algorithm) self.old.charter.roster
            (member_of self.old))) }
        ensures faithful { OnOk result (IsFaithful E.table E.fits E.winner self.new) }
        ensures err { OnErr result (self.new ≡ self.old) }
    {
        let algorithm = self.charter.algorithm();
        let ring = self.charter.roster().len();
        prepare(
            algorithm.two_way(),
            ring,
            &mut self.left,
            &mut self.right,
            &mut self.journal,
        )?;
        let brought = run(
            algorithm,
            &mut self.state,
            from,
            packet,
            &mut self.left,
            &mut self.right,
        )?;
        let news = learn(&mut self.known, brought);
        self.right.announce(&news);
        count(from, packet, &mut self.left, &mut self.right);
        self.journal.push_reserved((from, packet));
        Ok(news)
    }

    /// The fault of this envelope, apart from memory; `None` if it can be taken.
    fn fault_of(&self, envelope: &Envelope<E>) -> Option<TakeFault>
        ensures { MatchOption result
            (IsForNode self.now envelope.now
            × IsNext (taken_of self.now (other envelope.now.side)) envelope.now.index
            envelope.now.packet) (IsFault self.now envelope.now) }
    {
        let packet = envelope.packet();
        let index = envelope.index();
        let ring = envelope.charter().roster();
        if ring.neighbour(envelope.from(), envelope.side()) != self.position
            || !self.charter.same(envelope.charter())
        {
            return Some(TakeFault::Stranger);
        }
        let port = self.port(envelope.side().other());
        match packet {
            Packet::Algo(_) if index < port.algos => Some(TakeFault::Repeat),
            Packet::Algo(_) if index > port.algos => Some(TakeFault::Gap),
            Packet::Leader(_) if port.leaders > 0 => Some(TakeFault::Repeat),
            _ => None,
        }
    }

    fn port(&self, side: Side) -> &Port<E::Msg>
        ensures port { IsPort (sent_of E.table self.now side) (taken_of self.now side) result.now }
        ensures few { result.now.algos + result.now.leaders < 2 ^ 63 }
        ensures sendable { AllSendable (E.fits self.now.charter.algorithm)
            (E.winner self.now.charter.algorithm) self.now.charter.roster self.now.position side
            (sent_of E.table self.now side) }
    {
        match side {
            Side::Left => &self.left,
            Side::Right => &self.right,
        }
    }
}

/// The packet at this place of those that came from a side; `None` past the last.
fn nth_from<M: Copy>(journal: &[(Side, Packet<M>)], side: Side, place: usize) -> Option<Packet<M>>
    ensures { result ≡ slice_get (taken_from side journal.now) place }
{
    let mut before = place;
    for receipt in journal {
        if receipt.0 == side {
            if before == 0 {
                return Some(receipt.1);
            }
            before -= 1;
        }
    }
    None
}
