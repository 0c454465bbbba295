//! One worker that may run out of memory, on the election of LeLann, whose nodes keep a list: what
//! the worker hands over then.
//!
//! If an allocation fails before the worker begins, or after it has ended, the call is made once
//! more. So the test passes if any one allocation fails. A sweep lets each fail in turn.

use crate::elections::workers::courses::{Comes, Course, Run, ran};
use crate::elections::workers::items::Ring;
use crate::equal::equal;
use ring_lelann::LeLann;
use ring_node::Node;
use ring_workers::{Filed, Why};
use ring_world::Settlement;
use std::process::Abort;

/// The ring of the test case.
const RING: Ring = (1, &[3, 1, 2]);

/// How many items it takes: its charter, nine messages and three announcements.
const ITEMS: u64 = 13;

/// The course of a worker on the ring.
const COURSE: Course = Course {
    items: &[Comes::Begin(RING)],
    halt: 0,
    stop: ITEMS,
    filed: Filed::Noted,
};

/// A worker stopped with a settled ring, or ran out of memory before that. It dropped no item.
///
/// It has all nodes of the ring, or ran out of memory in the middle of the charter and has each
/// node that it had seated by then. Of each such node one packet waits: a node of LeLann's sends it
/// when it is seated.
fn is_whole_or_starved(rt: &impl Abort, run: &Run<LeLann>) {
    let settlement = match run.why {
        Why::Starved => Settlement::Incomplete,
        _ => Settlement::Settled,
    };
    let nodes = run.nodes.len();
    let seated = if nodes == RING.1.len() {
        nodes
    } else {
        run.outbox
    };
    let found = (run.settlement, run.dropped, nodes);
    let wanted = (settlement, 0, seated);
    equal(rt, "the ring, dropped items, and nodes", found, wanted);
}

/// Whether the receipts of this node are a prefix of those of the node at its position.
fn begins_its_peer(node: &Node<LeLann>, whole: &[Node<LeLann>]) -> bool {
    for peer in whole {
        if peer.position() == node.position() {
            return peer.receipts().starts_with(node.receipts());
        }
    }
    false
}

/// The receipts of each node of one run are a prefix of those of a run without a failed allocation.
fn is_first_part(rt: &impl Abort, part: &Run<LeLann>, whole: &Run<LeLann>) {
    equal(rt, "why the whole run ended", whole.why, Why::Stopped);
    is_whole_or_starved(rt, whole);
    is_whole_or_starved(rt, part);
    for node in &part.nodes {
        assert!(rt; begins_its_peer(node, &whole.nodes));
    }
}

/// At least one of two runs meets no failed allocation. If the other run is starved, the receipts
/// of its nodes are prefixes of the whole receipts.
#[test]
fn a_starved_worker_has_handled_a_first_part(rt: HostRuntime) {
    let first = ran(&rt, rt.alloc(), LeLann, &COURSE, RING);
    let second = ran(&rt, rt.alloc(), LeLann, &COURSE, RING);
    if first.why == Why::Starved {
        is_first_part(&rt, &first, &second);
    } else {
        is_first_part(&rt, &second, &first);
    }
    drop(first);
    drop(second);
}
