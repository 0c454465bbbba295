use ring_events::Command;
use ring_id::{GroupName, NodeId, TermNo};
use ring_terms::Noting;
use std::alloc::AllocError;

/// What an entry says, except the reply to a call.
#[derive(Copy)]
pub enum Happening<E> {
    /// A session's command.
    Call {
        session: u32,
        command: Command<E>,
    },
    /// A report that this member knows this leader of this term, and what became of it.
    Filing {
        group: GroupName,
        term: TermNo,
        member: NodeId,
        leader: NodeId,
        noting: Noting,
    },
}

// By hand, since a derived one is proved variant by variant.
impl<E: Copy> Clone for Happening<E> {
    ghost use Rattle.std.specs.Prelude.{◌≡◌, ⊤};

    ghost is_clone = { λ value copy. copy ≡ value };

    ghost is_infallible = { λ _. ⊤ };

    fn clone(&self) -> Result<Happening<E>, AllocError> {
        Ok(*self)
    }
}
