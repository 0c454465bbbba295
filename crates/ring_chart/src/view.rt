//! The views of a world of any election, and the changes of its links.
//!
//! A recorder has a world of one election. These functions are for any election and any traffic, so
//! that the recorder makes few calls for one.
ghost use Rattle.std.specs.Prelude.{◌≡◌, IfNone};
ghost use Rattle.ring_world.specs.Quiet.{AllKnow};
ghost use Rattle.ring_world.specs.Worlds.{IsReady, IsUncut, pending_of};

use ring_election::RingElection;
use ring_id::{GroupName, Side};
use ring_node::{Node, Packet};
use ring_roster::Roster;
use ring_world::{Passage, Traffic, World};

/// What a world shows at one moment: its charter, the first link with a packet in flight, and how
/// many packets are in flight or stuck.
#[derive(Drop)]
pub struct View<'a, E> {
    pub group: GroupName,
    pub term: u16,
    pub algorithm: E,
    pub roster: &'a Roster,
    pub ready: Option<(usize, Side)>,
    pub pending: u128,
}

/// A change of a link.
#[derive(Clone, Copy)]
pub enum Change {
    /// Its first packet is delivered.
    Pass,
    /// It is cut.
    Cut,
}

/// Returns the view of a world. Does not allocate.
pub fn view_of<E: RingElection, T: Traffic<E>>(world: &World<E, T>) -> View<'_, E>
    ensures group { result.group ≡ world.now.charter.group }
    ensures term { result.term ≡ world.now.charter.term }
    ensures algorithm { result.algorithm ≡ world.now.charter.algorithm }
    ensures ready { IsReady E.table world.now result.ready }
    ensures quiet { IfNone result.ready
        (IsUncut world.now → AllKnow E.table E.winner world.now) }
    ensures pending { result.pending ≡ pending_of E.table world.now }
{
    let charter = world.charter();
    View {
        group: charter.group(),
        term: charter.term().get(),
        algorithm: charter.algorithm(),
        roster: charter.roster(),
        ready: world.ready(),
        pending: world.pending(),
    }
}

/// Changes the link to a position from a side. Returns `Idle` if there is no such position, and
/// after a cut.
pub fn change_link<E: RingElection, T: Traffic<E>>(
    world: &mut World<E, T>,
    position: usize,
    side: Side,
    change: Change,
) -> Passage {
    if position >= world.charter().roster().len() {
        return Passage::Idle;
    }
    match change {
        Change::Pass => world.pass(position, side),
        Change::Cut => {
            let _ = world.cut(position, side);
            Passage::Idle
        }
    }
}

/// Returns a packet on the link to a position from a side: the packet after `before` others.
/// Returns the position of its sender and its place among the packets to that side, too. `None` if
/// there is no such packet.
pub fn packet_on<E: RingElection>(
    nodes: &[Node<E>],
    roster: &Roster,
    position: usize,
    side: Side,
    before: usize,
) -> Option<(usize, usize, Packet<E::Msg>)> {
    if position >= roster.len() {
        return None;
    }
    let from = roster.neighbour(position, side);
    match (nodes.get(position), nodes.get(from)) {
        (Some(receiver), Some(sender)) => {
            let place = receiver.taken(side).saturating_add(before);
            let packet = sender.packet(side.other(), place)?;
            Some((from, place, packet))
        }
        _ => None,
    }
}
