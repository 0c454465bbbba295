//! One worker, in one thread, on the election of Chang and Roberts: how it settles a ring, what it
//! drops, and how it ends.

use crate::elections::workers::courses::{Comes, Course, Place, ran, why_alone, worked};
use crate::elections::workers::gates::EndGate;
use crate::elections::workers::items::{Ring, stores};
use crate::equal::equal;
use ring_chang::Chang;
use ring_id::Refusal;
use ring_workers::{Filed, Item, Why};
use ring_world::Settlement;
use std::alloc::Global;
use std::process::Abort;
use std::sync::Wait;
use std::time::Clock;

/// The ring of the test cases.
const RING: Ring = (1, &[3, 1, 2]);

/// How many items it takes: its charter, five messages and three announcements.
const ITEMS: u64 = 9;

/// Another ring of the same term.
const OTHER: Ring = (1, &[3, 1, 4]);

/// The ring of the next term.
const NEWER: Ring = (2, &[1, 2]);

/// Why a worker ended, whether its nodes have settled, how many nodes it has, how many items it
/// dropped, and how many reports and packets it hands over.
type End = (Why, Settlement, usize, u64, usize, usize);

/// The end of a worker on its course. Its nodes are judged by the charter of a ring.
fn ended<R: Abort + Wait + Clock + Copy>(
    rt: &R,
    alloc: Global,
    course: &Course,
    ring: Ring,
) -> End {
    let run = ran(rt, alloc, Chang, course, ring);
    let end = (
        run.why,
        run.settlement,
        run.nodes.len(),
        run.dropped,
        run.unfiled,
        run.outbox,
    );
    drop(run);
    end
}

/// The items of a worker, the item after which the gate sends it a stop, and the ring by which its
/// nodes are judged. Then whether the nodes have settled, how many there are, and how many items it
/// dropped.
type Case<'a> = (&'a [Comes], u64, Ring, Settlement, usize, u64);

/// A repeat and a stranger are dropped and counted. A newer term drops the older nodes. Items of an
/// older term are dropped and not counted.
///
/// A packet seats its receiver first: nothing was dropped, so by the contract of `run_worker` the
/// one node is the receiver.
#[test]
fn a_worker_settles_its_ring_and_counts_what_it_drops(rt: HostRuntime) {
    let (whole, part) = (Settlement::Settled, Settlement::Incomplete);
    let (begin, packet) = (Comes::Begin(RING), Comes::Packet(RING));
    let (other, newer) = (Comes::Packet(OTHER), Comes::Begin(NEWER));
    let cases: [Case; 5] = [
        (&[begin], ITEMS, RING, whole, 3, 0),
        (&[begin, packet, other], ITEMS + 2, RING, whole, 3, 2),
        (&[begin, newer], 10, NEWER, whole, 2, 0),
        (&[newer, begin, packet], 8, NEWER, whole, 2, 0),
        (&[packet], 1, RING, part, 1, 0),
    ];
    for (items, stop, ring, settlement, nodes, dropped) in cases {
        let course = Course {
            items,
            halt: 0,
            stop,
            filed: Filed::Noted,
        };
        let end = ended(&rt, rt.alloc(), &course, ring);
        let wanted = (Why::Stopped, settlement, nodes, dropped, 0, 0);
        equal(&rt, "the end", (stop, end), (stop, wanted));
    }
}

#[test]
fn a_halted_worker_has_not_handled_all(rt: HostRuntime) {
    let items = [
        Comes::Begin(RING),
        Comes::Packet(RING),
        Comes::Packet(OTHER),
    ];
    for halt in 1..ITEMS + 3 {
        let course = Course {
            items: &items,
            halt,
            stop: 0,
            filed: Filed::Noted,
        };
        let end = ended(&rt, rt.alloc(), &course, RING);
        let wanted = (halt, Why::Halted, Settlement::Incomplete);
        equal(&rt, "the end at an item", (halt, end.0, end.1), wanted);
    }
}

/// The desk of a worker refuses each report. The worker ends for this reason, with this number of
/// reports.
#[test]
fn a_refused_report_stays_with_the_worker(rt: HostRuntime) {
    let cases = [
        (RING, Refusal::NoMemory, Why::Stopped, 3),
        (RING, Refusal::SeatSpent, Why::Spent, 1),
        ((1, &[7]), Refusal::SeatSpent, Why::Spent, 1),
    ];
    for (ring, refusal, why, unfiled) in cases {
        let course = Course {
            items: &[Comes::Begin(ring)],
            halt: 0,
            stop: ITEMS,
            filed: Filed::Refused(refusal),
        };
        let end = ended(&rt, rt.alloc(), &course, ring);
        equal(&rt, "why, and reports", (end.0, end.4), (why, unfiled));
    }
}

/// Worker 1 stops at its first item. Returns how many calls of its gate had the worker's own
/// number, and how many had another.
fn told<R: Abort + Wait + Clock + Copy>(rt: &R, alloc: Global) -> (u64, u64) {
    let mut place = Place::<Chang>::opened(rt, alloc, 1, 3);
    let mut own = place.senders.pop().expect(rt, "three passes");
    assert!(rt; stores(rt, &mut own, Item::Stop));
    let gate = EndGate::new(*rt, 1, 0, 0, own);
    let handed = worked(rt, alloc, 1, place, &gate, Filed::Noted);
    drop(handed);
    let told = gate.told();
    drop(gate);
    told
}

/// Each of the two calls is about the worker that took the item.
#[test]
fn the_gate_is_told_the_workers_own_number(rt: HostRuntime) {
    let told = told(&rt, rt.alloc());
    equal(&rt, "what the gate was told", told, (2, 0));
}

#[test]
fn a_worker_without_senders_ends_closed(rt: HostRuntime) {
    let why = why_alone(&rt, rt.alloc());
    equal(&rt, "why", why, Why::Closed);
}
