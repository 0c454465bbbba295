//! The identities and rings of the test cases, and their charters. If an allocation fails, the call
//! is made once more.

use crate::equal::equal;
use crate::memory::{TWICE, add};
use ring_election::RingElection;
use ring_id::{GroupName, NoMemory, NodeId, Refusal, TermNo};
use ring_node::Charter;
use ring_roster::Roster;
use std::alloc::Global;
use std::process::Abort;
use std::sync::Arc;

/// The identity with this number and no weight.
pub fn identity(rt: &impl Abort, number: u32) -> NodeId {
    NodeId::new(number).expect(rt, "no identity is 0")
}

/// The identities with these numbers.
pub fn identities(rt: &impl Abort, alloc: Global, numbers: &[u32]) -> Vec<NodeId> {
    let mut members = Vec::new(alloc);
    for number in numbers {
        add(rt, &mut members, identity(rt, *number));
    }
    members
}

/// The numbers from 1 to this one.
pub fn rising(rt: &impl Abort, alloc: Global, most: u32) -> Vec<u32> {
    let mut numbers = Vec::new(alloc);
    for number in 0..most {
        add(rt, &mut numbers, number + 1);
    }
    numbers
}

/// The same numbers, the greatest first.
pub fn falling(rt: &impl Abort, alloc: Global, most: u32) -> Vec<u32> {
    let mut numbers = rising(rt, alloc, most);
    numbers.reverse();
    numbers
}

/// The name of the group of the test cases.
pub fn name(rt: &impl Abort) -> GroupName {
    GroupName::from_bytes(b"a").expect(rt, "no name")
}

/// The ring of these numbers, in this order.
pub fn ring(rt: &impl Abort, alloc: Global, numbers: &[u32]) -> Roster {
    let members = identities(rt, alloc, numbers);
    let ring = match Roster::from_members(alloc, &members) {
        Ok(ring) => ring,
        Err(refusal) => {
            equal(rt, "why there is no ring", refusal, Refusal::NoMemory);
            Roster::from_members(alloc, &members).expect(rt, TWICE)
        }
    };
    drop(members);
    ring
}

/// The charter of a term of group `a` on the ring of these numbers.
pub fn charter<E: RingElection>(
    rt: &impl Abort,
    alloc: Global,
    term: u16,
    algorithm: E,
    numbers: &[u32],
) -> Arc<Charter<E>> {
    let term = TermNo::new(term).expect(rt, "terms go from 1 to 1000");
    match Charter::new(alloc, name(rt), term, algorithm, ring(rt, alloc, numbers)) {
        Ok(charter) => charter,
        Err(NoMemory) => {
            let ring = ring(rt, alloc, numbers);
            Charter::new(alloc, name(rt), term, algorithm, ring).expect(rt, TWICE)
        }
    }
}
