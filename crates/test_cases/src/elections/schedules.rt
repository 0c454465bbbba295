//! Two worked schedules on 3, 1, 2: what is in flight after each delivery. What each node sends on
//! the worked rings of Peterson's election.

use crate::elections::worlds::{begun, deliver, drained, end, seen};
use crate::equal::equal;
use ring_any::{Any, AnyMsg};
use ring_election::{RingElection, one_winner};
use ring_id::{NodeId, Side};
use ring_node::{Node, Packet};
use ring_world::{Passage, World};
use std::alloc::Global;
use std::process::Abort;

/// An election whose messages have digits.
trait Digits: RingElection {
    /// The digit of a message that goes one way, and 0 for another message or identity.
    fn digit(message: Self::Msg) -> u32;
}

impl Digits for Any {
    fn digit(message: AnyMsg) -> u32 {
        match message {
            AnyMsg::LeLann(id) | AnyMsg::Chang(id) | AnyMsg::Peterson(id) => match id.get() {
                number @ 1..=9 => number,
                _ => 0,
            },
            AnyMsg::Out { .. } | AnyMsg::Back { .. } => 0,
        }
    }
}

/// The digits of what a node has sent to the right from a place on, the first packet first; 8 is the
/// announcement.
fn sent_from<E: Digits>(node: &Node<E>, first: usize) -> u32 {
    let mut digits = 0u32;
    for place in first..node.sent(Side::Right) {
        let digit = match node.packet(Side::Right, place) {
            Some(Packet::Algo(message)) => E::digit(message),
            Some(Packet::Leader(_)) => 8,
            None => 0,
        };
        digits = digits.saturating_mul(10).saturating_add(digit);
    }
    digits
}

/// The digits of what is in flight into each of three positions from its left.
fn in_flight<E: Digits>(rt: &impl Abort, world: &World<E>) -> [u32; 3] {
    let [first, second, third] = world.nodes() else {
        panic!(rt; "not three nodes");
    };
    [
        sent_from(third, first.taken(Side::Left)),
        sent_from(first, second.taken(Side::Left)),
        sent_from(second, third.taken(Side::Left)),
    ]
}

/// A delivery whose receiver learns no leader.
const MOVED: Passage = Passage::Moved(None);

/// A delivery from the left: the position, the outcome, and the digits of what is in flight after
/// it.
type Leg = (usize, Passage, [u32; 3]);

/// The legs on 3, 1, 2, one after another. Nothing is in flight then, and there is one leader.
/// Returns how many legs are on the link on which a drain would deliver next.
fn goes<E: Digits>(rt: &impl Abort, alloc: Global, kind: E, legs: &[Leg]) -> usize {
    let mut world = begun(rt, alloc, kind, &[3, 1, 2]);
    equal(rt, "in flight", in_flight(rt, &world), [2, 3, 1]);
    let mut first = 0usize;
    for (position, wanted, links) in legs {
        let is_ready = seen(&world).0 == Some((*position, Side::Left));
        first = first.saturating_add(is_ready as usize);
        let done = deliver(rt, &mut world, *position, Side::Left);
        let found = (done, in_flight(rt, &world));
        equal(rt, "a delivery, and in flight", found, (*wanted, *links));
    }
    equal(rt, "the ready link", seen(&world).0, None);
    end(world);
    one_winner::<E>();
    first
}

#[test]
fn the_worked_schedule(rt: HostRuntime) {
    let legs: [Leg; 9] = [
        (1, MOVED, [2, 0, 13]),
        (2, MOVED, [2, 0, 3]),
        (2, MOVED, [23, 0, 0]),
        (0, MOVED, [3, 0, 0]),
        (0, Passage::Moved(NodeId::new(3)), [0, 8, 0]),
        (1, Passage::Moved(NodeId::new(3)), [0, 0, 8]),
        (2, Passage::Moved(NodeId::new(3)), [8, 0, 0]),
        (0, MOVED, [0, 0, 0]),
        (0, Passage::Idle, [0, 0, 0]),
    ];
    // the first three are on other links, and the last finds nothing in flight
    let first = goes(&rt, rt.alloc(), Any::Chang, &legs);
    equal(&rt, "legs of a drain", first, 5);
}

#[test]
fn the_worked_order_of_a_drain(rt: HostRuntime) {
    let legs: [Leg; 15] = [
        (0, MOVED, [0, 32, 1]),
        (1, MOVED, [0, 2, 13]),
        (1, MOVED, [0, 0, 133]),
        (2, MOVED, [1, 0, 33]),
        (0, MOVED, [0, 0, 33]),
        (2, MOVED, [0, 0, 3]),
        (2, MOVED, [3, 0, 0]),
        (0, MOVED, [0, 3, 0]),
        (1, Passage::Moved(NodeId::new(1)), [0, 0, 38]),
        (2, MOVED, [3, 0, 8]),
        (0, MOVED, [0, 3, 8]),
        (1, MOVED, [0, 0, 8]),
        (2, Passage::Moved(NodeId::new(1)), [8, 0, 0]),
        (0, Passage::Moved(NodeId::new(1)), [0, 8, 0]),
        (1, MOVED, [0, 0, 0]),
    ];
    let first = goes(&rt, rt.alloc(), Any::Peterson, &legs);
    equal(&rt, "legs of a drain", first, 15);
}

/// Each member of the ring of these numbers sends these packets to the right.
fn sends<E: Digits>(rt: &impl Abort, alloc: Global, kind: E, numbers: &[u32], packets: &[u32]) {
    let mut world = begun(rt, alloc, kind, numbers);
    drained(rt, &mut world, 100);
    for position in 0..packets.len() {
        let node = world.nodes().get(position).expect(rt, "no such node");
        let found = (position, sent_from(node, 0));
        equal(rt, "packets", found, (position, packets[position]));
    }
    end(world);
}

#[test]
fn members_send_the_values_of_petersons_rounds(rt: HostRuntime) {
    let rings: [(&[u32], &[u32]); 4] = [
        (&[3, 1, 2], &[32338, 13338, 21338]),
        (&[4, 1, 3, 2], &[4234448, 1443448, 3143448, 2334448]),
        (&[5, 9], &[59998, 95998]),
        (&[7], &[778]),
    ];
    for (numbers, packets) in &rings {
        sends(&rt, rt.alloc(), Any::Peterson, *numbers, *packets);
    }
}
