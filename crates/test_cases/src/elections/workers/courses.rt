//! Courses of one worker, in one thread: the items that come to it, and its end. If an allocation
//! outside the worker fails, the call is made once more.
ghost use Rattle.std.specs.Prelude.{◌<◌};

use crate::elections::workers::gates::{Answers, EndGate};
use crate::elections::workers::items::{Ring, charter, first_packet, stores};
use crate::memory::TWICE;
use ring_chang::Chang;
use ring_election::RingElection;
use ring_inbox::{ReceiverPass, SenderPass, inbox};
use ring_node::Node;
use ring_workers::{Filed, Gate, Handed, Item, OpenGate, Why, Worker, run_worker};
use ring_world::{Settlement, settle};
use std::alloc::Global;
use std::process::Abort;
use std::sync::Wait;
use std::time::Clock;

/// An item that comes to a worker.
#[derive(Clone, Copy)]
pub enum Comes {
    /// The charter of a ring, which begins.
    Begin(Ring),
    /// The first packet of a ring.
    Packet(Ring),
}

/// What comes to a worker, and when it ends.
#[derive(Clone, Copy)]
pub struct Course<'a> {
    /// What comes, in order.
    pub items: &'a [Comes],
    /// The item at which it is halted; 0 for none.
    pub halt: u64,
    /// The item after which the gate sends it a stop; 0 for none.
    pub stop: u64,
    /// What its desk answers.
    pub filed: Filed,
}

/// Puts what comes to a worker into its inbox.
fn fill<E: RingElection, R: Abort + Wait>(
    rt: &R,
    alloc: Global,
    algorithm: E,
    items: &[Comes],
    to: &mut SenderPass<Item<E>>,
) {
    for comes in items {
        let item = match comes {
            Comes::Begin(ring) => Item::Begin(charter(rt, alloc, algorithm, *ring)),
            Comes::Packet(ring) => { first_packet(rt, alloc, charter(rt, alloc, algorithm, *ring)) }
        };
        assert!(rt; stores(rt, to, item));
    }
}

/// A worker's inbox, and its passes to the inboxes of all workers.
#[derive(Drop)]
pub struct Place<E: RingElection> {
    pub receiver: ReceiverPass<Item<E>>,
    pub senders: Vec<SenderPass<Item<E>>>,
}

impl<E: RingElection> Place<E> {
    /// An inbox of this capacity, and `senders` passes, all to this inbox.
    pub fn opened(rt: &impl Abort, alloc: Global, capacity: usize, senders: usize) -> Place<E>
        requires capacity { 0 < capacity }
        requires senders { 0 < senders }
    {
        let (receiver, senders) = match inbox::<Item<E>>(alloc, capacity, senders) {
            Ok(opened) => opened,
            Err(_) => inbox::<Item<E>>(alloc, capacity, senders).expect(rt, TWICE),
        };
        Place { receiver, senders }
    }
}

/// Runs the worker of this number. There are as many workers as it has passes.
pub fn worked<E: RingElection, R: Abort + Wait + Clock, G: Gate>(
    rt: &R,
    alloc: Global,
    number: usize,
    mut place: Place<E>,
    gate: &G,
    filed: Filed,
) -> Handed<E> {
    let workers = place.senders.len();
    assert!(rt; number < workers);
    let worker = Worker::new(alloc, number, workers);
    let handed = run_worker(
        rt,
        worker,
        &mut place.receiver,
        &mut place.senders,
        gate,
        Answers(filed),
    );
    drop(place);
    handed
}

/// Runs a worker on its course.
fn handed<E: RingElection, R: Abort + Wait + Clock + Copy>(
    rt: &R,
    alloc: Global,
    algorithm: E,
    course: &Course,
) -> Handed<E> {
    let mut place = Place::opened(rt, alloc, 64, 2);
    let mut own = place.senders.pop().expect(rt, "two passes");
    fill(rt, alloc, algorithm, course.items, &mut own);
    let gate = EndGate::new(*rt, 0, course.halt, course.stop, own);
    let handed = worked(rt, alloc, 0, place, &gate, course.filed);
    drop(gate);
    handed
}

/// Why a worker ends whose inbox has no senders left. Its own pass is to another inbox.
pub fn why_alone<R: Abort + Wait + Clock>(rt: &R, alloc: Global) -> Why {
    let Place { receiver, senders } = Place::<Chang>::opened(rt, alloc, 1, 1);
    drop(senders);
    let Place {
        receiver: other,
        senders,
    } = Place::<Chang>::opened(rt, alloc, 1, 1);
    let place = Place { receiver, senders };
    let handed = worked(rt, alloc, 0, place, &OpenGate, Filed::Noted);
    let why = handed.why;
    drop(handed);
    drop(other);
    why
}

/// Moves the nodes of a worker to the end of a list. Returns why it ended, how many items it
/// dropped, and how many reports and packets it hands over.
pub fn moved<E: RingElection>(
    rt: &impl Abort,
    handed: Handed<E>,
    nodes: &mut Vec<Node<E>>,
) -> (Why, u64, usize, usize) {
    let rest = match handed.append_to(nodes) {
        Ok(rest) => rest,
        Err(back) => back.append_to(nodes).ok().expect(rt, TWICE),
    };
    let left = (
        rest.why,
        rest.dropped,
        rest.unfiled.len(),
        rest.outbox.len(),
    );
    drop(rest);
    left
}

/// A worker's run: why it ended, how much it hands over, and whether its nodes have settled.
#[derive(Drop)]
pub struct Run<E: RingElection> {
    pub why: Why,
    pub dropped: u64,
    pub unfiled: usize,
    pub outbox: usize,
    pub settlement: Settlement,
    pub nodes: Vec<Node<E>>,
}

/// Runs a worker on its course, and judges its nodes by the charter of a ring.
pub fn ran<E: RingElection, R: Abort + Wait + Clock + Copy>(
    rt: &R,
    alloc: Global,
    algorithm: E,
    course: &Course,
    ring: Ring,
) -> Run<E> {
    let mut nodes = Vec::new(alloc);
    let handed = handed(rt, alloc, algorithm, course);
    let (why, dropped, unfiled, outbox) = moved(rt, handed, &mut nodes);
    let charter = charter(rt, alloc, algorithm, ring);
    let settlement = settle(&charter, &nodes);
    drop(charter);
    Run {
        why,
        dropped,
        unfiled,
        outbox,
        settlement,
        nodes,
    }
}
