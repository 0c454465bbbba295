//! Worlds of the test cases, and calls of them. If an allocation fails, the call is made once more.
//!
//! Each call of a world, and each drop, proves anew what the world's traffic has. So test cases read
//! worlds by `seen` and drop them by `end`.
ghost use Rattle.std.specs.Prelude.{◌<◌, length};

use crate::drain;
use crate::elections::rings::charter;
use crate::equal::equal;
use crate::memory::TWICE;
use ring_election::RingElection;
use ring_id::{NoMemory, Refusal, Side};
use ring_node::Charter;
use ring_world::{Delivery, Passage, World};
use std::alloc::Global;
use std::process::Abort;
use std::sync::Arc;

/// The world of a charter, in which nothing was delivered.
pub fn begun_on<E: RingElection>(
    rt: &impl Abort,
    alloc: Global,
    charter: &Arc<Charter<E>>,
) -> World<E> {
    match World::begin(alloc, Arc::try_clone(charter).expect(rt, "no copy")) {
        Ok(world) => world,
        Err(NoMemory) => {
            let copy = Arc::try_clone(charter).expect(rt, "no copy");
            World::begin(alloc, copy).expect(rt, TWICE)
        }
    }
}

/// The world of a first term on the ring of these numbers.
pub fn begun<E: RingElection>(
    rt: &impl Abort,
    alloc: Global,
    algorithm: E,
    numbers: &[u32],
) -> World<E> {
    begun_on(rt, alloc, &charter(rt, alloc, 1, algorithm, numbers))
}

/// The link of a world on which a drain would deliver next, if something is in flight. Then how many
/// packets are in flight or stuck, and how many were delivered.
pub type Seen = (Option<(usize, Side)>, u128, u128);

/// What a world shows.
pub fn seen<E: RingElection>(world: &World<E>) -> Seen {
    (world.ready(), world.pending(), world.delivered())
}

/// Drops a world.
pub fn end<E: RingElection>(world: World<E>) {
    drop(world);
}

/// Stops the test if a world has no such position.
fn assert_has<E: RingElection>(rt: &impl Abort, world: &World<E>, position: usize)
    ensures { position < length world.now.charter.roster }
{
    assert!(rt; position < world.charter().roster().len());
}

/// Delivers on the link into this position from a side, which is not cut. A refusal changes nothing.
fn deliver_once<E: RingElection>(
    rt: &impl Abort,
    world: &mut World<E>,
    position: usize,
    side: Side,
) -> Delivery<E> {
    assert_has(rt, world, position);
    assert!(rt; !world.is_cut(position, side));
    let before = seen(world);
    let delivery = world.deliver(position, side);
    if matches!(delivery, Delivery::Refused(_)) {
        equal(rt, "after a refusal", seen(world), before);
    }
    delivery
}

/// Delivers on the link into this position from a side.
pub fn delivery<E: RingElection>(
    rt: &impl Abort,
    world: &mut World<E>,
    position: usize,
    side: Side,
) -> Delivery<E> {
    match deliver_once(rt, world, position, side) {
        Delivery::Refused(Refusal::NoMemory) => deliver_once(rt, world, position, side),
        delivery => delivery,
    }
}

/// What a delivery on the link into this position from a side comes to, as a passage there would.
pub fn deliver<E: RingElection>(
    rt: &impl Abort,
    world: &mut World<E>,
    position: usize,
    side: Side,
) -> Passage {
    match delivery(rt, world, position, side) {
        Delivery::Moved(None) => Passage::Moved(None),
        Delivery::Moved(Some(report)) => Passage::Moved(Some(report.leader())),
        Delivery::Idle => Passage::Idle,
        Delivery::Refused(refusal) => Passage::Refused(refusal),
    }
}

/// Drains a world, and returns the number of deliveries.
pub fn drained<E: RingElection>(rt: &impl Abort, world: &mut World<E>, most: u32) -> u32 {
    let before = world.delivered();
    if let Ok(done) = drain(world, most) {
        return done;
    }
    let made = u32::try_from(world.delivered().saturating_sub(before));
    let made = made.expect(rt, "more deliveries than were asked for");
    let rest = drain(world, most.saturating_sub(made)).expect(rt, TWICE);
    made.saturating_add(rest)
}
