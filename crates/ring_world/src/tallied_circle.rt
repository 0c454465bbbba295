ghost use Rattle.std.specs.Prelude.{◌≡◌, ◌+◌, ◌-◌, ◌^◌, ◌<◌, ◌==◌, [], IfOk, OnErr, OnOk, Some, length, replicate, slice_get};
ghost use Rattle.ring_node.specs.Nodes.{IsComing, news_of};
ghost use Rattle.ring_world.specs.Worlds.{HasPassed, IsSoundWorld, after_receipt, delivered_of, in_flight, is_cut, no_cuts, node_at, nodes_of, on_link};

use crate::circle::Circle;
use crate::link_set::{LinkSet, link_at, place_of};
use crate::passage::{Passage, Passages, PassagesEnd};
use crate::traffic::Traffic;
use ring_election::RingElection;
use ring_id::{NoMemory, NodeId, Refusal, Side};
use ring_node::{Charter, Node, Packet};
use std::alloc::Global;
use std::marker::Model;
use std::sync::Arc;

/// All nodes of one term, the links that are cut, how many packets are in flight or stuck, and the
/// links with something in flight.
#[derive(Drop)]
pub struct TalliedCircle<E: RingElection> {
    circle: Circle<E>,
    pending: u128,
    ready: LinkSet,
}

impl<E: RingElection> Model for TalliedCircle<E> {
    ghost use Rattle.ring_world.specs.private.Tallies.{IsTallied};
    ghost use Rattle.ring_world.specs.Worlds.{Running};

    ghost Value = { Running E E.Msg };

    ghost view = { λ a. a.circle };

    ghost invariant = { λ a. IsTallied E.table a.circle E.fits E.winner a.pending a.ready.words };
}

impl<E: RingElection> Traffic<E> for TalliedCircle<E> {
    ghost running = { λ a. a };

    fn begin(alloc: Global, charter: Arc<Charter<E>>) -> Result<TalliedCircle<E>, NoMemory>
        ensures started { IfOk result (λ made. made ≡ record {
          charter = charter.value;
          journals = replicate (length charter.value.roster) [];
          cut = no_cuts (length charter.value.roster);
        }) }
        ensures sound { IfOk result (λ made. IsSoundWorld E.table E.fits E.winner made) }
    {
        let Ok(circle) = Circle::begin(alloc, charter) else {
            return Err(NoMemory);
        };
        let mut ready = LinkSet::empty();
        let mut pending = 0;
        for position in 0..circle.size() {
            circle.mark(&mut ready, position, Side::Left);
            circle.mark(&mut ready, position, Side::Right);
            let left = circle.waiting(position, Side::Left);
            let right = circle.waiting(position, Side::Right);
            pending += left as u128 + right as u128;
        }
        Ok(TalliedCircle {
            circle,
            pending,
            ready,
        })
    }

    /// Takes constant time.
    fn cut(&mut self, position: usize, side: Side) -> Result<(), Refusal> {
        if self.circle.is_closed(side) {
            return Err(Refusal::OneWay);
        }
        self.circle.cut(position, side);
        self.ready.put(place_of(position, side), false);
        Ok(())
    }

    fn pass(&mut self, position: usize, side: Side, may_tell: bool) -> Passage {
        if self.circle.is_closed(side) {
            return Passage::Refused(Refusal::OneWay);
        }
        if self.circle.is_cut(position, side) {
            return Passage::Idle;
        }
        let Some((packet, is_last)) = self.circle.front(position, side) else {
            return Passage::Idle;
        };
        if !may_tell {
            return Passage::Refused(Refusal::NoMemory);
        }
        match self.hand_over(position, side, packet, is_last) {
            Ok(leader) => Passage::Moved(leader),
            Err(NoMemory) => Passage::Refused(Refusal::NoMemory),
        }
    }

    #[inline(never)]
    fn pass_ready(&mut self, most: u32) -> Passages {
        // a read, so that the prover has the invariant before the first passage
        let _ = &self.circle;
        for done in 0..most {
            let Some((position, side)) = self.ready() else {
                return Passages {
                    done,
                    end: PassagesEnd::Quiet,
                };
            };
            match self.pass_front(position, side) {
                Ok(None) => {}
                Ok(Some(leader)) => {
                    return Passages {
                        done: done + 1,
                        end: PassagesEnd::Told(position, leader),
                    };
                }
                Err(NoMemory) => {
                    return Passages {
                        done,
                        end: PassagesEnd::Starved,
                    };
                }
            }
        }
        Passages {
            done: most,
            end: PassagesEnd::Made,
        }
    }

    fn pending(&self) -> u128 {
        self.pending
    }

    fn ready(&self) -> Option<(usize, Side)> {
        let Some(place) = self.ready.first() else {
            return None;
        };
        Some(link_at(place))
    }
}

impl<E: RingElection> TalliedCircle<E> {
    /// The node of each position, in order. Does not allocate, like the next two.
    pub fn nodes(&self) -> &[Node<E>]
        ensures { result.now ≡ nodes_of self.now }
    {
        self.circle.nodes()
    }

    /// Whether the link into a position from a side was cut.
    pub fn is_cut(&self, position: usize, side: Side) -> bool
        requires { position < length self.now.charter.roster }
        ensures { result ≡ is_cut self.now position side }
    {
        self.circle.is_cut(position, side)
    }

    /// How many packets were taken in all.
    pub fn delivered(&self) -> u128
        ensures { result ≡ delivered_of self.now }
    {
        let mut delivered = 0;
        for position in 0..self.circle.size() {
            let node = self.circle.node(position);
            delivered += node.taken(Side::Left) as u128 + node.taken(Side::Right) as u128;
        }
        delivered
    }

    /// Passes the first packet in flight on a link, on which there is one, to its receiver. Returns
    /// the leader exactly if this receipt is the first by which the receiver knows it.
    #[inline(always)]
    fn pass_front(&mut self, position: usize, side: Side) -> Result<Option<NodeId>, NoMemory>
        requires inside { position < length self.old.charter.roster }
        requires waits { 0 < length (in_flight E.table self.old position side) }
        ensures passed { IfOk result
            (λ leader. HasPassed E.table self.old position side leader self.new) }
        ensures err { OnErr result (self.new ≡ self.old) }
        ensures sound { IsSoundWorld E.table E.fits E.winner self.new }
    {
        let Some((packet, is_last)) = self.circle.front(position, side) else {
            unreachable!()
        };
        self.hand_over(position, side, packet, is_last)
    }

    /// Gives the first packet in flight on a link, which may be the last there, to its receiver.
    /// Then it counts and marks what is in flight or stuck: the packet's link has one packet less,
    /// and the links from the receiver have the packets that it has sent because of it.
    #[inline(always)]
    fn hand_over(
        &mut self,
        position: usize,
        side: Side,
        packet: Packet<E::Msg>,
        is_last: bool,
    ) -> Result<Option<NodeId>, NoMemory>
        requires inside { position < length self.old.charter.roster }
        requires front { slice_get (in_flight E.table self.old position side) 0 ≡ Some packet }
        requires last { is_last ≡ (length (on_link E.table self.old position side) == 1) }
        requires proper { IsComing E.fits E.winner (node_at self.old position) side packet }
        ensures journals { OnOk result (self.new ≡ after_receipt self.old position side packet) }
        ensures news { IfOk result (λ leader.
            leader ≡ news_of E.table (node_at self.old position) (node_at self.new position)) }
        ensures err { OnErr result (self.new ≡ self.old) }
        ensures sound { IsSoundWorld E.table E.fits E.winner self.new }
    {
        let left_before = self.circle.sent(position, Side::Left);
        let right_before = self.circle.sent(position, Side::Right);
        let Ok(leader) = self.circle.hand_over(position, side, packet) else {
            return Err(NoMemory);
        };
        self.ready.leave(place_of(position, side), is_last);
        let left = self
            .circle
            .mark_sent(&mut self.ready, position, Side::Left, left_before);
        let right = self
            .circle
            .mark_sent(&mut self.ready, position, Side::Right, right_before);
        self.pending = after_one(self.pending, left, right);
        Ok(leader)
    }
}

/// How many packets are in flight or stuck once one of `pending` was taken, and `left` and `right`
/// were sent because of it. Mostly one is passed on, and the number stays.
fn after_one(pending: u128, left: usize, right: usize) -> u128
    requires some { 0 < (pending + left) + right }
    requires few { (pending + left) + right < 2 ^ 128 }
    ensures { result ≡ ((pending + left) + right) - 1 }
{
    match (left, right) {
        (0, 1) => pending,
        _ => pending + left as u128 + right as u128 - 1,
    }
}
