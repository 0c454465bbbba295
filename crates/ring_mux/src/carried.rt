use ring_id::Refusal;

/// The outcome of a delivery in a group's running term.
#[derive(Clone, Copy)]
pub enum Carried {
    /// The first packet of the link was taken, and the leader that it brought was filed.
    Moved,
    /// Nothing is in flight on the link, or it is cut.
    Idle,
    /// Refused, and nothing has changed.
    Refused(Refusal),
}
