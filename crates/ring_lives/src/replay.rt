ghost use Rattle.ring_lives.specs.Replays.{AreExact, HaveTheirEffect};

use ring_election::RingElection;

/// A history has the effect of its changes alone. Its questions, its refusals and its reports that
/// were known or stale have none.
pub fn follows_replays<E: RingElection>()
    ensures { HaveTheirEffect E.is_two_way E.is_greatest }
{}

/// The same changes lead from the same groups to the same groups.
pub fn replays_exact<E: RingElection>()
    ensures { AreExact E.is_greatest }
{}
