//! The rounds of Peterson's election: the active positions of each round.

use crate::elections::rings::ring;
use crate::equal::equal;
use ring_peterson::{round_of, rounds_shrink};
use std::alloc::Global;
use std::process::Abort;

/// Puts a digit after others.
fn add_digit(digits: &mut usize, digit: usize) {
    *digits = digits.saturating_mul(10).saturating_add(digit);
}

/// A round of the ring of these numbers: two digits for each active position, the position itself
/// and the number that it holds.
fn round(rt: &impl Abort, alloc: Global, numbers: &[u32], round: usize) -> usize {
    let mut digits = 0;
    let active = round_of(alloc, &ring(rt, alloc, numbers), round).expect(rt, "no memory");
    for entry in &active {
        add_digit(&mut digits, entry.0);
        add_digit(&mut digits, entry.1.get() as usize);
    }
    drop(active);
    digits
}

/// The numbers of a ring, one of its rounds, and two digits for each active position, the position
/// itself and the number that it holds. A zero at the front is left out.
const WORKED: [(&[u32], usize, usize); 10] = [
    (&[3, 1, 2], 0, 3_11_22),
    (&[3, 1, 2], 1, 13),
    (&[3, 1, 2], 2, 0),
    (&[4, 1, 3, 2], 0, 4_11_23_32),
    (&[4, 1, 3, 2], 1, 14_33),
    (&[4, 1, 3, 2], 2, 34),
    (&[4, 1, 3, 2], 3, 0),
    (&[5, 9], 1, 9),
    (&[7], 0, 7),
    (&[7], 1, 0),
];

#[test]
fn rounds_are_those_of_the_worked_rings(rt: HostRuntime) {
    rounds_shrink();
    for row in &WORKED {
        let active = round(&rt, rt.alloc(), row.0, row.1);
        equal(&rt, "a round", (row.0, row.1, active), *row);
    }
}
