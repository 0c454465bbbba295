ghost use Rattle.ring_election.specs.Agreement.{HasOneLeader};

use crate::election::RingElection;

/// At most one leader: in every schedule, no two nodes of a ring decide on different identities
/// (Lynch, Distributed Algorithms, 3.1). The law holds for every algorithm that meets the laws, in
/// every family of receipts that fits. The call does nothing.
pub fn one_winner<E: RingElection>()
    ensures { (algorithm : E) → HasOneLeader (E.table algorithm) (E.fits algorithm) }
{}
