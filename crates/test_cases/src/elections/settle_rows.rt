//! When nodes of the election of Chang and Roberts on 3, 1, 2 have settled.

use crate::elections::rings::charter;
use crate::elections::worlds::{begun_on, drained, end};
use crate::equal::equal;
use ring_chang::Chang;
use ring_world::{Settlement, settle};
use std::alloc::Global;
use std::process::Abort;

/// The world of an election on 3, 1, 2 has settled so after this number of deliveries, by the
/// charter and this number of its nodes.
fn world_settles(
    rt: &impl Abort,
    alloc: Global,
    deliveries: u32,
    nodes: usize,
    wanted: Settlement,
) {
    let charter = charter(rt, alloc, 1, Chang, &[3, 1, 2]);
    let mut world = begun_on(rt, alloc, &charter);
    drained(rt, &mut world, deliveries);
    let part = world.nodes().get(..nodes).expect(rt, "no such nodes");
    let settlement = settle(&charter, part);
    end(world);
    drop(charter);
    let found = (deliveries, nodes, settlement);
    equal(rt, "a world", found, (deliveries, nodes, wanted));
}

#[test]
fn all_nodes_settle_with_the_last_delivery(rt: HostRuntime) {
    for deliveries in 0..9 {
        for nodes in 0..4 {
            let wanted = if deliveries == 8 && nodes == 3 {
                Settlement::Settled
            } else {
                Settlement::Incomplete
            };
            world_settles(&rt, rt.alloc(), deliveries, nodes, wanted);
        }
    }
}
