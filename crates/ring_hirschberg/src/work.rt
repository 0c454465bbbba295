ghost use Rattle.ring_hirschberg.specs.Work.{MessagesAreFew, PhasesAreRare};

/// An election on a ring of n takes at most 4n + 8n ceil(log₂ n) messages, so at most 8n(1 +
/// ceil(log₂ n)) (Lynch, Distributed Algorithms, 3.4: the communication of HS; D. Hirschberg, J.
/// Sinclair, CACM 23(11), 1980). Of n members at most n / (2^k + 1) come to phase k + 1.
///
/// The laws are the contract; the call does nothing. They hold of every sound family of receipts,
/// so in every schedule. The first law also asks that the family fits. `hirschberg_bound`, which
/// the trait uses, is n/2 times as large.
pub fn messages_are_few()
    ensures messages { MessagesAreFew }
    ensures phases { PhasesAreRare }
{}
