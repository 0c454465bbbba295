//! The winners of worked rings. A call that ran out of memory is repeated once.

use crate::elections::rings::ring;
use crate::equal::equal;
use crate::memory::TWICE;
use ring_any::Any;
use ring_id::NodeId;
use ring_roster::Roster;
use ring_winner::winner_of;
use std::alloc::Global;
use std::process::Abort;

/// The winner of this ring by this algorithm.
fn winner(rt: &impl Abort, alloc: Global, algorithm: Any, ring: &Roster) -> NodeId {
    match winner_of(alloc, algorithm, ring) {
        Ok(winner) => winner,
        Err(_) => winner_of(alloc, algorithm, ring).expect(rt, TWICE),
    }
}

/// The numbers of a ring, its greatest one, and the one that Peterson's election leaves active. The
/// election of the last ring has rounds of 8, 4, 2 and 1.
const ROWS: [(&[u32], u32, u32); 5] = [
    (&[7], 7, 7),
    (&[5, 9], 9, 5),
    (&[3, 1, 2], 3, 1),
    (&[4, 1, 3, 2], 4, 2),
    (&[8, 1, 6, 2, 7, 3, 5, 4], 8, 4),
];

#[test]
fn winners_are_those_of_the_worked_rings(rt: HostRuntime) {
    for (numbers, greatest, last) in &ROWS {
        let ring = ring(&rt, rt.alloc(), *numbers);
        for (algorithm, wanted) in [
            (Any::LeLann, *greatest),
            (Any::Chang, *greatest),
            (Any::Hirschberg, *greatest),
            (Any::Peterson, *last),
        ] {
            let found = winner(&rt, rt.alloc(), algorithm, &ring).get();
            equal(&rt, "the winner", found, wanted);
        }
        drop(ring);
    }
}
