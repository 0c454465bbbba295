ghost use Rattle.ring_lelann.specs.Work.{WorkIsSquare};

/// An election on a ring of n in which every message was taken took exactly n² messages (LeLann,
/// Distributed systems: towards a formal approach, IFIP 1977: each identity goes once all round).
///
/// The law is the contract; the call does nothing. It holds of every complete family of receipts
/// that fits, so in every schedule that leaves nothing in flight.
pub fn work_is_square()
    ensures { WorkIsSquare }
{}
