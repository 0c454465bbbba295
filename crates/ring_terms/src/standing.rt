use ring_id::{NodeId, TermNo};

/// The standing of a member in the last term of a group.
#[derive(Clone, Copy, Debug, PartialEq, Eq)]
pub enum Standing {
    /// The member is informed: this is the leader of this term.
    Leader { term: TermNo, leader: NodeId },
    /// The member is not informed in this term.
    Undecided(TermNo),
}

/// The result of filing a report.
#[derive(Clone, Copy, Debug, PartialEq, Eq)]
pub enum Noting {
    /// The member was not informed, and now is.
    Noted,
    /// The member was informed already.
    Known,
    /// The report's term is not the last term of its group here.
    Stale,
}
