ghost use Rattle.ring_chang.specs.Work.{WorkIsTriangular};

/// An election on a ring of n takes at most n(n + 1)/2 messages (E. Chang, R. Roberts, CACM 22(5),
/// 1979; Lynch, Distributed Algorithms, 3.3, has O(n²)). A falling ring reaches the bound: tested,
/// not proved, by `a_falling_ring_reaches_the_bound_of_chang`.
///
/// The law is the contract; the call does nothing. It holds of every family of receipts that fits,
/// so in every schedule. `chang_bound`, which the trait uses, is less than twice as large.
pub fn work_is_triangular()
    ensures { WorkIsTriangular }
{}
