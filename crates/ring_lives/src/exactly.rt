ghost use Rattle.ring_lives.specs.Lives.{MayBeExact};

use ring_election::RingElection;

/// If each life begins with the very changes that were left before it, each begins with the groups
/// that these lead to.
pub fn may_be_exact<E: RingElection>()
    ensures { MayBeExact E.is_two_way E.is_greatest }
{}
