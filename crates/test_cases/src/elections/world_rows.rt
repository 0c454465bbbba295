//! A world of the election of Chang and Roberts on 3, 1, 2 by its calls alone. More deliveries, and
//! cuts, are in `tests/rows`.

use crate::elections::worlds::{Seen, begun, deliver, drained, end, seen};
use crate::equal::equal;
use ring_chang::Chang;
use ring_id::{Refusal, Side};
use ring_world::{Passage, World};
use std::process::Abort;

/// A call of a world, and what it comes to.
#[derive(Clone, Copy)]
enum Step {
    /// A delivery on the link into this position from a side.
    Deliver(usize, Side, Passage),
    /// A drain of at most this number of deliveries makes this many.
    Drain(u32, u32),
    /// The world shows this.
    Shows(Seen),
}

/// A call comes to what its step says.
fn goes(rt: &impl Abort, world: &mut World<Chang>, step: &Step) {
    match step {
        Step::Deliver(position, side, wanted) => {
            let done = deliver(rt, world, *position, *side);
            equal(rt, "a delivery", done, *wanted);
        }
        Step::Drain(most, made) => equal(rt, "deliveries", drained(rt, world, *most), *made),
        Step::Shows(wanted) => equal(rt, "what a world shows", seen(world), *wanted),
    }
}

#[test]
fn a_link_gives_one_packet_and_is_idle_then(rt: HostRuntime) {
    let steps = [
        Step::Shows((Some((0, Side::Left)), 3, 0)),
        Step::Deliver(0, Side::Left, Passage::Moved(None)),
        Step::Deliver(0, Side::Left, Passage::Idle),
        Step::Deliver(2, Side::Right, Passage::Refused(Refusal::OneWay)),
        Step::Shows((Some((1, Side::Left)), 2, 1)),
        Step::Drain(6, 6),
        Step::Shows((Some((0, Side::Left)), 1, 7)),
        Step::Drain(100, 1),
        Step::Shows((None, 0, 8)),
    ];
    let mut world = begun(&rt, rt.alloc(), Chang, &[3, 1, 2]);
    for step in &steps {
        goes(&rt, &mut world, step);
    }
    end(world);
}
