ghost use Rattle.std.specs.Prelude.{◌≡◌, ◌+◌, ◌<◌, ◌≤◌, ◌==◌, ◌&&◌, false, not, [], IfOk, IfSome, OnErr, OnOk, length, option_map, replicate, slice_get};
ghost use Rattle.ring_id.specs.declared.side.Side.TheVariants.{Right};
ghost use Rattle.ring_id.specs.Sides.{other, same_side};
ghost use Rattle.ring_roster.specs.Ring.{neighbour};
ghost use Rattle.ring_node.specs.Nodes.{IsComing, news_of, sent_of};
ghost use Rattle.ring_world.specs.private.Tallies.{HasMarked, HasMarkedSent};
ghost use Rattle.ring_world.specs.Worlds.{IsSoundWorld, after_cut, after_receipt, is_cut, no_cuts, node_at, nodes_of, on_link};

use crate::link_set::{LinkSet, place_of};
use ring_election::RingElection;
use ring_id::{NoMemory, NodeId, Side};
use ring_node::{Charter, Node, Packet};
use std::alloc::Global;
use std::marker::Model;
use std::sync::Arc;

/// The nodes of one term in the order of their ring, and which links between them are cut.
///
/// It does not store the packets in flight or stuck. They follow from the packets that each node
/// has sent and taken.
#[derive(Drop)]
pub struct Circle<E: RingElection> {
    charter: Arc<Charter<E>>,
    nodes: Vec<Node<E>>,
    cut: LinkSet,
}

impl<E: RingElection> Model for Circle<E> {
    ghost use Rattle.std.specs.Prelude.{◌*◌, length};
    ghost use Rattle.ring_world.specs.private.LinkSets.{bits_from};
    ghost use Rattle.ring_world.specs.private.Worlds.{IsWorld, journals_of};
    ghost use Rattle.ring_world.specs.Worlds.{Running};

    ghost Value = { Running E E.Msg };

    ghost view = { λ a. record {
      charter = a.charter.value;
      journals = journals_of a.nodes.items;
      cut = bits_from a.cut.words 0 (2 * length a.charter.value.roster);
    } };

    ghost invariant = { λ a. IsWorld E.table E.fits E.winner a.charter.value a.nodes.items
        (bits_from a.cut.words 0 (2 * length a.charter.value.roster)) };
}

impl<E: RingElection> Circle<E> {
    /// The nodes of this charter, which have started, and no link is cut. Fails only if an
    /// allocation fails.
    pub fn begin(alloc: Global, charter: Arc<Charter<E>>) -> Result<Circle<E>, NoMemory>
        ensures { IfOk result (λ circle. circle ≡ record {
          charter = charter.value;
          journals = replicate (length charter.value.roster) [];
          cut = no_cuts (length charter.value.roster);
        }) }
    {
        let size = charter.roster().len();
        let Ok(mut nodes) = Vec::with_capacity(alloc, size) else {
            return Err(NoMemory);
        };
        for position in 0..size {
            let Ok(copy) = Arc::try_clone(&charter) else {
                return Err(NoMemory);
            };
            let Ok(node) = Node::seat(alloc, copy, position) else {
                return Err(NoMemory);
            };
            nodes.push_reserved(node);
        }
        Ok(Circle {
            charter,
            nodes,
            cut: LinkSet::empty(),
        })
    }

    /// The charter of this term. Does not allocate, like the other readers.
    pub fn charter(&self) -> &Arc<Charter<E>>
        ensures value { result.now.value ≡ self.now.charter }
        ensures sound { IsSoundWorld E.table E.fits E.winner self.now }
    {
        &self.charter
    }

    /// The node of each position, in order.
    pub fn nodes(&self) -> &[Node<E>]
        ensures { result.now ≡ nodes_of self.now }
    {
        &self.nodes
    }

    /// The node at a position.
    pub fn node(&self, position: usize) -> &Node<E>
        requires { position < length self.now.charter.roster }
        ensures node { result.now ≡ node_at self.now position }
        ensures sound { IsSoundWorld E.table E.fits E.winner self.now }
    {
        &self.nodes[position]
    }

    /// The length of the ring.
    pub fn size(&self) -> usize
        ensures value { result ≡ length self.now.charter.roster }
        ensures few { result ≤ 256 }
        ensures sound { IsSoundWorld E.table E.fits E.winner self.now }
    {
        self.charter().roster().len()
    }

    /// The position next to this one at a side.
    pub fn neighbour(&self, position: usize, side: Side) -> usize
        requires { position < length self.now.charter.roster }
        ensures value { result ≡ neighbour (length self.now.charter.roster) position side }
        ensures inside { result < length self.now.charter.roster }
        ensures few { result < 256 }
    {
        self.charter().roster().neighbour(position, side)
    }

    /// Whether nothing is ever sent on the links that arrive from this side.
    pub fn is_closed(&self, side: Side) -> bool
        ensures value { result
            ≡ (same_side side Right && not (E.is_two_way self.now.charter.algorithm)) }
        ensures sound { IsSoundWorld E.table E.fits E.winner self.now }
    {
        let one_way = !self.charter().algorithm().two_way();
        match side {
            Side::Left => false,
            Side::Right => one_way,
        }
    }

    /// Cuts the link into a position from a side.
    pub fn cut(&mut self, position: usize, side: Side)
        requires { position < length self.old.charter.roster }
        ensures cut { self.new ≡ after_cut self.old position side }
        ensures sound { IsSoundWorld E.table E.fits E.winner self.new }
        ensures inside { position < 256 }
    {
        self.cut.put(place_of(position, side), true);
    }

    /// Whether a link is cut.
    pub fn is_cut(&self, position: usize, side: Side) -> bool
        requires { position < length self.now.charter.roster }
        ensures { result ≡ is_cut self.now position side }
    {
        self.cut.has(place_of(position, side))
    }

    /// Gives the first packet on a link to its receiver. Returns the leader exactly if this receipt
    /// is the first by which the receiver knows it.
    #[inline(always)]
    pub fn hand_over(
        &mut self,
        position: usize,
        side: Side,
        packet: Packet<E::Msg>,
    ) -> Result<Option<NodeId>, NoMemory>
        requires inside { position < length self.old.charter.roster }
        requires front { slice_get (on_link E.table self.old position side) 0 ≡ Some packet }
        requires proper { IsComing E.fits E.winner (node_at self.old position) side packet }
        ensures journals { OnOk result (self.new ≡ after_receipt self.old position side packet) }
        ensures news { IfOk result (λ leader.
            leader ≡ news_of E.table (node_at self.old position) (node_at self.new position)) }
        ensures err { OnErr result (self.new ≡ self.old) }
        ensures sound { IsSoundWorld E.table E.fits E.winner self.new }
    {
        let node = &mut self.nodes[position];
        node.accept(side, packet)
    }

    /// The first packet on a link, which is proper there, and whether it is the last.
    pub fn front(&self, position: usize, side: Side) -> Option<(Packet<E::Msg>, bool)>
        requires { position < length self.now.charter.roster }
        ensures value { option_map (λ front. front.0) result
            ≡ slice_get (on_link E.table self.now position side) 0 }
        ensures last { IfSome result
            (λ front. front.1 ≡ (length (on_link E.table self.now position side) == 1)) }
        ensures proper { IfSome result
            (λ front. IsComing E.fits E.winner (node_at self.now position) side front.0) }
    {
        let sender = self.node(self.neighbour(position, side));
        let to = side.other();
        let taken = self.node(position).taken(side);
        let Some(packet) = sender.packet(to, taken) else {
            return None;
        };
        Some((packet, sender.sent(to) - taken == 1))
    }

    /// How many packets are on a link, be they in flight or stuck.
    pub fn waiting(&self, position: usize, side: Side) -> usize
        requires { position < length self.now.charter.roster }
        ensures value { result ≡ length (on_link E.table self.now position side) }
        ensures inside { position < 256 }
    {
        let sender = self.node(self.neighbour(position, side));
        sender.sent(side.other()) - self.node(position).taken(side)
    }

    /// How many packets the node at a position has sent to a side.
    pub fn sent(&self, position: usize, to: Side) -> usize
        requires { position < length self.now.charter.roster }
        ensures { result ≡ length (sent_of E.table (node_at self.now position) to) }
    {
        self.node(position).sent(to)
    }

    /// Marks in a set whether a link that isn't cut has a packet. No other link's mark changes.
    pub fn mark(&self, ready: &mut LinkSet, position: usize, side: Side)
        requires inside { position < length self.now.charter.roster }
        requires uncut { is_cut self.now position side ≡ false }
        ensures { HasMarked E.table self.now ready.old.words position side ready.new.words }
    {
        let here = self.waiting(position, side) > 0;
        ready.put(place_of(position, side), here);
    }

    /// How many packets the node at a position has sent to a side since it had sent `before` there.
    /// If there are any, their link has a packet, and it is marked in a set unless it is cut. If
    /// there are none, no mark changes.
    pub fn mark_sent(&self, ready: &mut LinkSet, position: usize, to: Side, before: usize) -> usize
        requires inside { position < length self.now.charter.roster }
        requires grown { before ≤ length (sent_of E.table (node_at self.now position) to) }
        requires waits { before < length (sent_of E.table (node_at self.now position) to)
            → 0 < length (on_link E.table self.now
            (neighbour (length self.now.charter.roster) position to) (other to)) }
        ensures more { before + result ≡ length (sent_of E.table (node_at self.now position) to) }
        ensures marked { HasMarkedSent E.table self.now
            ready.old.words position to result ready.new.words }
    {
        let more = self.sent(position, to) - before;
        if more > 0 {
            let receiver = self.neighbour(position, to);
            let from = to.other();
            let place = place_of(receiver, from);
            if self.is_cut(receiver, from) {
                ready.put(place, false);
            } else {
                ready.insert(place);
            }
        }
        more
    }
}
