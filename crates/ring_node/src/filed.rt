use ring_id::Refusal;

/// The result of filing a report.
#[derive(Clone, Copy, Debug, PartialEq, Eq)]
pub enum Filed {
    /// The member was not informed, and now is.
    Noted,
    /// The member was informed already.
    Known,
    /// The report's term is not the last term of its group.
    Stale,
    /// Refused, and nothing has changed.
    Refused(Refusal),
}
