ghost use Rattle.ring_lives.specs.Lives.{AreOneRun};

use ring_election::RingElection;

/// All lives of a service are one legal history, however often it is started again. The entries
/// that the crashes left are one run of the election object.
///
/// Each entry whose reply a client got is in that history, at its place after the entries of
/// earlier lives. Each life begins with the groups that the entries of earlier lives lead to, as
/// far as they are left. It may begin with fewer changes, which lead to the same groups.
pub fn all_lives<E: RingElection>()
    ensures { AreOneRun E.is_two_way E.is_greatest }
{}
