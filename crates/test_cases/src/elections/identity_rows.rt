//! The order of identities.

use crate::elections::rings::identity;
use crate::equal::equal;
use ring_id::{NodeId, is_greater};

#[test]
fn a_weight_counts_before_a_number(rt: HostRuntime) {
    let light = identity(&rt, 4294967295);
    let heavy = NodeId::weighted(1, 9).expect(&rt, "no identity is 0");
    let found = [is_greater(heavy, light), is_greater(light, heavy)];
    equal(&rt, "greater", found, [true, false]);
}
