ghost use Rattle.std.specs.Prelude.{◌≡◌, IfOk};
ghost use Rattle.ring_any.specs.Any.{any_winner};
ghost use Rattle.ring_roster.specs.Ring.{greatest_of};

use crate::rounds::last_active;
use ring_any::Any;
use ring_id::NodeId;
use ring_roster::Roster;
use std::alloc::{AllocError, Global};

/// Returns the member that wins the election on this ring. Fails only if an allocation fails.
///
/// It walks over the ring once. For Peterson's election it allocates once and walks over each
/// round, which has at most half as many entries as the one before. No clause says this.
pub fn winner_of(alloc: Global, algorithm: Any, roster: &Roster) -> Result<NodeId, AllocError>
    ensures { IfOk result (λ leader. leader ≡ any_winner algorithm roster.now) }
{
    match algorithm {
        Any::LeLann => Ok(greatest(roster)),
        Any::Chang => Ok(greatest(roster)),
        Any::Hirschberg => Ok(greatest(roster)),
        Any::Peterson => last_active(alloc, roster),
    }
}

/// Returns the greatest member.
fn greatest(roster: &Roster) -> NodeId
    ensures { result ≡ greatest_of roster.now }
{
    let mut greatest = roster.at(0).unwrap();
    for position in 1..roster.len() {
        greatest = greatest.max(roster.at(position).unwrap());
    }
    greatest
}
