//! Pictures of groups: the answers about them.

use ring_any::Any;
use ring_events::{MemberList, TermList};
use ring_id::{GroupName, NodeId, NodeNo};

// The first sum, and the factor of each step.
const FIRST: u64 = 14_695_981_039_346_656_037;

const PRIME: u64 = 1_099_511_628_211;

/// The answers about one group.
#[derive(Drop)]
pub struct GroupPicture {
    /// Its name.
    pub name: GroupName,
    /// The algorithm that elects in it, if it is known.
    pub algorithm: Option<Any>,
    /// Its members in joining order.
    pub members: MemberList,
    /// The leader of each term.
    pub leaders: TermList,
    /// The numbers of the members that know the leader of the last term, in joining order.
    pub informed: Vec<NodeNo>,
}

impl GroupPicture {
    /// Whether another picture says the same. Tested, not proved: it decides when a watch ends, and
    /// not what is answered then.
    pub(crate) fn is_same(&self, other: &GroupPicture) -> bool {
        self.members.as_slice() == other.members.as_slice()
            && self.leaders.as_slice() == other.leaders.as_slice()
            && self.informed.as_slice() == other.informed.as_slice()
    }

    /// Whether it is news to a client that has seen a picture with this sum, or that has seen none.
    /// Tested, not proved, as above.
    pub(crate) fn is_news(&self, seen: Option<u64>) -> bool {
        match seen {
            Some(seen) => self.sum() != seen,
            None => true,
        }
    }

    /// A sum that stands for what it says. It is the FNV-1a hash of its name and of its numbers,
    /// with 0 after the members, for a term without a leader, and after the terms.
    pub(crate) fn sum(&self) -> u64 {
        let mut sum = FIRST;
        for byte in self.name.bytes() {
            sum = with(sum, u32::from(*byte));
        }
        for member in self.members.as_slice() {
            sum = with_node(sum, *member);
        }
        sum = with(sum, 0);
        for leader in self.leaders.as_slice() {
            sum = match leader {
                Some(leader) => with_node(sum, *leader),
                None => with(sum, 0),
            };
        }
        sum = with(sum, 0);
        for number in self.informed.as_slice() {
            sum = with(sum, number.get());
        }
        sum
    }
}

// Adds an identity to a sum.
fn with_node(sum: u64, node: NodeId) -> u64 {
    with(with(sum, node.get()), u32::from(node.weight()))
}

// Adds a number to a sum.
fn with(sum: u64, number: u32) -> u64 {
    (sum ^ u64::from(number)).wrapping_mul(PRIME)
}
