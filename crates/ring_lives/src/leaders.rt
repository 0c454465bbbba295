ghost use Rattle.ring_lives.specs.Lives.{TellOneLeader};

use ring_election::RingElection;

/// No two clients get different leaders of the same term of a group, in all lives of a service.
pub fn one_leader<E: RingElection>()
    ensures { TellOneLeader E.is_two_way E.is_greatest }
{}
