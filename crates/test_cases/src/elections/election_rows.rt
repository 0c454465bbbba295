//! What the calls of single algorithms show: the ways that messages go, what a node has seen, and
//! the messages that fit a ring. Whole elections are in `tests/rows`.

use crate::elections::rings::{falling, identity, ring};
use crate::equal::equal;
use ring_chang::{fitting, work_is_triangular};
use ring_election::RingElection;
use ring_hirschberg::{Hirschberg, messages_are_few, phases_are_few};
use ring_id::{NodeId, Side};
use ring_lelann::{LeLann, LeLannState, work_is_square};
use std::alloc::Global;
use std::process::Abort;

#[test]
fn hirschberg_sends_both_ways_and_elects_the_greatest(rt: HostRuntime) {
    phases_are_few();
    messages_are_few();
    let found = (Hirschberg.two_way(), Hirschberg.greatest());
    equal(&rt, "two ways, and the greatest", found, (true, true));
}

/// A node of LeLann receives these messages, each from its side, and has decided so after each.
fn receives(rt: &impl Abort, state: &mut LeLannState, messages: &[(Side, NodeId, Option<NodeId>)]) {
    for (from, message, decision) in messages {
        let received = LeLann.receive(state, *from, *message).is_ok();
        let found = (received, LeLann.decision(state));
        equal(rt, "received, and decided", found, (true, *decision));
    }
}

#[test]
fn a_node_of_lelann_shows_what_it_has_seen(rt: HostRuntime) {
    work_is_square();
    let me = identity(&rt, 3);
    let (second, third) = (identity(&rt, 2), identity(&rt, 1));
    let messages = [
        (Side::Left, second, None),
        (Side::Right, me, None),
        (Side::Left, third, None),
        (Side::Left, me, Some(me)),
    ];
    let (mut state, _) = LeLann.start(rt.alloc(), me);
    receives(&rt, &mut state, &messages);
    equal(&rt, "seen", state.seen(), [second, third].as_slice());
    drop(state);
}

/// The messages of Chang and Roberts that fit the right links of the ring of these numbers are as
/// many as wanted.
fn fit(rt: &impl Abort, alloc: Global, numbers: &[u32], wanted: usize) {
    let ring = ring(rt, alloc, numbers);
    let mut sum: usize = 0;
    for position in 0..ring.len() {
        let fits = fitting(alloc, &ring, position).expect(rt, "no memory");
        sum = sum.saturating_add(fits.len());
        drop(fits);
    }
    drop(ring);
    equal(rt, "messages", sum, wanted);
}

#[test]
fn a_falling_ring_reaches_the_bound_of_chang(rt: HostRuntime) {
    work_is_triangular();
    let alloc = rt.alloc();
    fit(&rt, alloc, &[3, 1, 2], 5);
    let mut bound: usize = 0;
    for length in 1..17_u32 {
        bound = bound.saturating_add(length as usize);
        fit(&rt, alloc, &falling(&rt, alloc, length), bound);
    }
}
