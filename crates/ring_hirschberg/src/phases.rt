ghost use Rattle.ring_hirschberg.specs.Phases.{LogarithmIsLeast, PhasesAreFew};

/// No phase exceeds the logarithm of the ring's length to the base 2, rounded up (Lynch,
/// Distributed Algorithms, 3.4: the time and communication of HS).
///
/// The law is the contract; the call does nothing. It holds of every sound family of receipts, so
/// in every schedule. On a ring of 256 no node comes beyond phase 8.
pub fn phases_are_few()
    ensures few { PhasesAreFew }
    ensures logarithm { LogarithmIsLeast }
{}
