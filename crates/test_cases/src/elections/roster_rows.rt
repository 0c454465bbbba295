//! Rings: which lists of identities are rings, and what a ring shows.

use crate::elections::rings::{identities, identity, ring, rising};
use crate::equal::equal;
use ring_id::{NodeId, Refusal, Side};
use ring_roster::Roster;
use std::alloc::Global;
use std::process::Abort;

/// The identities with these numbers are no ring, for this reason.
fn is_refused(rt: &impl Abort, alloc: Global, numbers: &[u32], refusal: Refusal) {
    let members = identities(rt, alloc, numbers);
    let answer = Roster::from_members(alloc, &members).err();
    drop(members);
    equal(rt, "a list", answer, Some(refusal));
}

#[test]
fn a_list_is_refused_for_the_first_that_holds(rt: HostRuntime) {
    let alloc = rt.alloc();
    is_refused(&rt, alloc, &[], Refusal::Empty);
    is_refused(&rt, alloc, &[3, 1, 3], Refusal::Member);
    is_refused(&rt, alloc, &rising(&rt, alloc, 257), Refusal::RingFull);
    let mut repeating = rising(&rt, alloc, 256);
    repeating.push(1).expect(&rt, "no memory");
    is_refused(&rt, alloc, &repeating, Refusal::RingFull);
    drop(repeating);
}

#[test]
fn a_ring_shows_its_members_and_neighbours(rt: HostRuntime) {
    let (one, four) = (identity(&rt, 1).number(), identity(&rt, 4).number());
    let three = ring(&rt, rt.alloc(), &[3, 1, 2]);
    let other = ring(&rt, rt.alloc(), &[1, 2, 3]);
    assert_eq!(rt; three.len(), 3);
    let members = (three.at(2), three.at(3));
    let positions = (three.position(one), three.position(four));
    let same = (three.same(&three), three.same(&other));
    let neighbours = (
        three.neighbour(2, Side::Right),
        three.neighbour(0, Side::Left),
    );
    drop(three);
    drop(other);
    equal(&rt, "members", members, (NodeId::new(2), None));
    let found = (positions, neighbours, same);
    let wanted = ((Some(1), None), (0, 2), (true, false));
    equal(&rt, "positions, neighbours, the same", found, wanted);
}
