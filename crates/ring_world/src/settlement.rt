ghost use Rattle.std.specs.Prelude.{◌≡◌, ◌+◌, ◌^◌, ◌<◌, ◌↔◌, IfSome, IsTrue, length};
ghost use Rattle.ring_id.specs.Sides.{other};
ghost use Rattle.ring_roster.specs.Ring.{IsRing};
ghost use Rattle.ring_node.specs.Nodes.{sent_of, taken_of};
ghost use Rattle.ring_world.specs.private.Places.{IsPlaced};
ghost use Rattle.ring_world.specs.PacketKinds.{of_kind};
ghost use Rattle.ring_world.specs.Settlements.{EachKnows, EachReports, IsFed, IsSettled, IsSettledAt};
ghost use Rattle.ring_world.specs.private.Settlements.{IsNextOf};

use crate::packet_kind::PacketKind;
use crate::places::Places;
use ring_election::RingElection;
use ring_id::Side;
use ring_node::{Charter, Node, Packet};

/// Whether nodes that come back from elsewhere are all of their term, with nothing left to take.
#[derive(Clone, Copy, Debug, PartialEq, Eq)]
pub enum Settlement {
    /// Each position has one node, and each link's receiver has taken all that was sent there.
    Settled,
    /// A position has no node or several, or something that was sent wasn't taken.
    Incomplete,
}

/// Whether a term has come to rest, by its nodes alone (Lynch, Distributed Algorithms, 3.1).
///
/// Among these nodes it looks at those of this charter. The result is `Settled` exactly if each
/// position of the ring occurs once, and on each link the messages of the algorithm that were taken
/// are those that were sent, in order, and likewise the announcements. Then each of these nodes
/// knows the leader, and the node of each position reports it. Does not allocate. The time grows
/// with the number of nodes, and with the ring's length and the journal of each node of the
/// charter.
pub fn settle<E: RingElection>(charter: &Charter<E>, nodes: &[Node<E>]) -> Settlement
    ensures settled { (result ≡ Settlement.Settled) ↔ IsSettled E.table charter.now nodes.now }
    ensures knows { result ≡ Settlement.Settled → EachKnows E.table E.winner charter.now nodes.now }
    ensures reports { result ≡ Settlement.Settled
        → EachReports E.table E.winner charter.now nodes.now }
{
    match Places::of(charter, nodes) {
        Some(places) if are_settled(charter, nodes, &places) => Settlement::Settled,
        _ => Settlement::Incomplete,
    }
}

/// Whether each position of the ring has exactly one of these nodes, and that node has taken all
/// that was sent to it.
fn are_settled<E: RingElection>(charter: &Charter<E>, nodes: &[Node<E>], places: &Places) -> bool
    requires { IsPlaced charter.now nodes.now (length nodes.now) places.now.at }
    ensures settled { IsTrue result ↔ IsSettled E.table charter.now nodes.now }
    ensures ring { IsRing charter.now.roster }
{
    for position in 0..charter.roster().len() {
        if !is_settled_at(charter, nodes, places, position) {
            return false;
        }
    }
    true
}

/// Whether exactly one of these nodes is at this position, and it has taken all that was sent to
/// it.
fn is_settled_at<E: RingElection>(
    charter: &Charter<E>,
    nodes: &[Node<E>],
    places: &Places,
    position: usize,
) -> bool
    requires inside { position < length charter.now.roster }
    requires placed { IsPlaced charter.now nodes.now (length nodes.now) places.now.at }
    ensures { IsTrue result ↔ IsSettledAt E.table charter.now nodes.now position }
{
    let Some(node) = places.find(nodes, position) else {
        return false;
    };
    is_fed(charter, nodes, places, node, Side::Left)
        && is_fed(charter, nodes, places, node, Side::Right)
}

/// Whether a node has taken all that its neighbour at a side has sent to it, and that neighbour is
/// alone at its position.
fn is_fed<E: RingElection>(
    charter: &Charter<E>,
    nodes: &[Node<E>],
    places: &Places,
    node: &Node<E>,
    side: Side,
) -> bool
    requires inside { node.now.position < length charter.now.roster }
    requires placed { IsPlaced charter.now nodes.now (length nodes.now) places.now.at }
    ensures { IsTrue result ↔ IsFed E.table charter.now nodes.now node.now side }
{
    let position = charter.roster().neighbour(node.position(), side);
    let Some(sender) = places.find(nodes, position) else {
        return false;
    };
    has_taken(node, sender, side, PacketKind::Message)
        && has_taken(node, sender, side, PacketKind::Announcement)
}

/// Whether the packets of this kind that a node took from a side are those that its neighbour there
/// has sent to it, in order.
fn has_taken<E: RingElection>(
    node: &Node<E>,
    sender: &Node<E>,
    side: Side,
    kind: PacketKind,
) -> bool
    ensures { IsTrue result ↔ (of_kind kind (taken_of node.now side)
        ≡ of_kind kind (sent_of E.table sender.now (other side))) }
{
    let mut next = 0;
    let receipts = node.receipts();
    for receipt in receipts {
        let packet = receipt.1;
        if receipt.0 == side && kind.has(packet) {
            let Some((at, sent)) = next_of(sender, side.other(), kind, next) else {
                return false;
            };
            if !same_packet::<E>(sent, packet) {
                return false;
            }
            next = at + 1;
        }
    }
    next_of(sender, side.other(), kind, next).is_none()
}

/// Whether two packets are the same.
fn same_packet<E: RingElection>(one: Packet<E::Msg>, another: Packet<E::Msg>) -> bool
    ensures { IsTrue result ↔ (one ≡ another) }
{
    one == another
}

/// The first packet of this kind that a node sent to a side from this place on, with its place.
fn next_of<E: RingElection>(
    node: &Node<E>,
    side: Side,
    kind: PacketKind,
    from: usize,
) -> Option<(usize, Packet<E::Msg>)>
    ensures next { IsNextOf kind (sent_of E.table node.now side) from result }
    ensures few { IfSome result (λ next. next.0 + 1 < 2 ^ 64) }
{
    for place in from..node.sent(side) {
        let Some(packet) = node.packet(side, place) else {
            return None;
        };
        if kind.has(packet) {
            return Some((place, packet));
        }
    }
    None
}
