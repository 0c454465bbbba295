ghost use Rattle.std.specs.Prelude.{◌≡◌, IsTrue, true};
ghost use Rattle.ring_change.specs.Changes.{change_by, is_refused, noted_change};

use ring_election::RingElection;
use ring_events::{Command, Reply};
use ring_id::{GroupName, NodeId, NodeNo, TermNo};
use ring_node::Report;
use ring_terms::Noting;
use std::alloc::AllocError;

/// A change that a command or a report made.
#[derive(Copy)]
pub enum Change<E> {
    /// A group was created, which elects by this algorithm.
    Create(GroupName, E),
    /// A member joined a group.
    Join(GroupName, NodeId),
    /// The member with this number left a group.
    Leave(GroupName, NodeNo),
    /// A term of a group was started.
    Start(GroupName),
    /// A member came to know the leader of a term.
    Know {
        group: GroupName,
        term: TermNo,
        member: NodeId,
        leader: NodeId,
    },
}

// By hand, since a derived one is proved variant by variant.
impl<E: Copy> Clone for Change<E> {
    ghost use Rattle.std.specs.Prelude.{◌≡◌, ⊤};

    ghost is_clone = { λ value copy. copy ≡ value };

    ghost is_infallible = { λ _. ⊤ };

    fn clone(&self) -> Result<Change<E>, AllocError> {
        Ok(*self)
    }
}

/// Returns the change that a command with this reply made.
///
/// Returns `None` if the reply is a refusal, or if the command is a question. Does not allocate.
pub fn change_of<E: Copy>(command: &Command<E>, reply: &Reply) -> Option<Change<E>>
    ensures { result ≡ change_by command.now reply.now }
{
    if is_refusal(reply) {
        return None;
    }
    match command {
        Command::Create(group, algorithm) => Some(Change::Create(*group, *algorithm)),
        Command::Join(group, node) => Some(Change::Join(*group, *node)),
        Command::Leave(group, node) => Some(Change::Leave(*group, *node)),
        Command::Start(group) => Some(Change::Start(*group)),
        Command::Who(..) | Command::Members(_) | Command::Terms(_) | Command::Groups => None,
    }
}

// Whether a reply is a refusal.
fn is_refusal(reply: &Reply) -> bool
    ensures { result ≡ is_refused reply.now }
{
    match reply {
        Reply::Refused(_) => true,
        _ => false,
    }
}

/// Returns the change that a filed report made.
///
/// Returns `None` if the report was known or stale. Does not allocate.
pub fn change_of_filing<E: RingElection>(report: &Report<E>, noting: Noting) -> Option<Change<E>>
    ensures { result ≡ noted_change
        report.now.charter.group report.now.charter.term
        report.now.member report.now.leader noting }
{
    match noting {
        Noting::Noted => Some(Change::Know {
            group: report.charter().group(),
            term: report.charter().term(),
            member: report.member(),
            leader: report.leader(),
        }),
        Noting::Known | Noting::Stale => None,
    }
}
