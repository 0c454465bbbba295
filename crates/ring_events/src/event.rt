use ring_id::{GroupName, NodeId, NodeNo, Side};
use std::alloc::AllocError;

/// A client's request.
#[derive(Copy)]
pub enum Command<E> {
    /// Make a new group that elects by this algorithm.
    Create(GroupName, E),
    /// Add a member to a group, the last in joining order.
    Join(GroupName, NodeId),
    /// Remove the member with this number from a group.
    Leave(GroupName, NodeNo),
    /// Start a new term of a group.
    Start(GroupName),
    /// Ask for the leader that the member with this number knows, in the ring of the last term.
    Who(GroupName, NodeNo),
    /// Ask for the members of a group.
    Members(GroupName),
    /// Ask for the leaders of the terms of a group.
    Terms(GroupName),
    /// Ask for all groups.
    Groups,
}

// By hand, since a derived one is proved variant by variant.
impl<E: Copy> Clone for Command<E> {
    ghost use Rattle.std.specs.Prelude.{◌≡◌, ⊤};

    ghost is_clone = { λ value copy. copy ≡ value };

    ghost is_infallible = { λ _. ⊤ };

    fn clone(&self) -> Result<Command<E>, AllocError> {
        Ok(*self)
    }
}

/// A client's command, or a line of a schedule.
#[derive(Copy)]
pub enum Event<E> {
    /// A command of a client.
    Client(Command<E>),
    /// Deliver one packet from this side to the member with the number `node` of a group's running
    /// term.
    Deliver {
        group: GroupName,
        node: NodeNo,
        side: Side,
    },
    /// Cut the link into the member with the number `node` of a group's running term, from this
    /// side. No packet moves there any more.
    Cut {
        group: GroupName,
        node: NodeNo,
        side: Side,
    },
    /// Ask how many packets are in flight or stuck in a group's running term.
    Pending {
        group: GroupName,
    },
    /// Make at most `count` deliveries in a group's running term, each at the first ready link.
    Drain {
        group: GroupName,
        count: u32,
    },
}

// By hand, since a derived one is proved variant by variant.
impl<E: Copy> Clone for Event<E> {
    ghost use Rattle.std.specs.Prelude.{◌≡◌, ⊤};

    ghost is_clone = { λ value copy. copy ≡ value };

    ghost is_infallible = { λ _. ⊤ };

    fn clone(&self) -> Result<Event<E>, AllocError> {
        Ok(*self)
    }
}
