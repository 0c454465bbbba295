use crate::count::Count;
use crate::lists::{GroupList, MemberList, TermList};
use ring_id::{NodeId, Refusal, TermNo};

/// The answer to an event.
#[derive(Drop)]
pub enum Reply {
    /// Done.
    Done,
    /// A term was started.
    Term(TermNo),
    /// The member is informed: the term and its leader.
    Leader(TermNo, NodeId),
    /// The member is not informed in this term.
    Undecided(TermNo),
    /// The members of a group in joining order.
    Members(MemberList),
    /// The leader of each term of a group, or `None`.
    Terms(TermList),
    /// The groups in order of creation.
    Groups(GroupList),
    /// A packet was delivered.
    Moved,
    /// Nothing was in flight on that link, or it is cut.
    Idle,
    /// This number of packets are in flight or stuck.
    Pending(Count),
    /// The number of deliveries made, the number of packets left, and whether a delivery ran out of
    /// memory.
    Drained {
        done: u32,
        left: Count,
        starved: bool,
    },
    /// Refused, and nothing has changed.
    Refused(Refusal),
}
