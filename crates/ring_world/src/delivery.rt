use ring_election::RingElection;
use ring_id::Refusal;
use ring_node::Report;

/// The outcome of a delivery.
#[derive(Drop)]
pub enum Delivery<E: RingElection> {
    /// The first packet was taken. The receiver's report is there if it now knows the leader for
    /// the first time.
    Moved(Option<Report<E>>),
    /// Nothing is in flight on this link, or it is cut.
    Idle,
    /// Refused, and nothing has changed.
    Refused(Refusal),
}
