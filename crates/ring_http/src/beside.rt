//! What is known of a running service beside its table.

use ring_any::Any;
use ring_id::GroupName;
use ring_node::Charter;
use std::sync::Arc;

/// How many clients of one port are served.
#[derive(Clone, Copy)]
pub struct Served {
    /// Now.
    pub now: u64,
    /// At most.
    pub limit: u64,
}

/// How a journal is.
#[derive(Clone, Copy)]
pub struct JournalFigures {
    /// The bytes of its text.
    pub bytes: u64,
    /// The syncs since the start.
    pub syncs: u64,
    /// The microseconds that these syncs took.
    pub micros: u64,
}

/// Numbers of a running service that its table does not say.
#[derive(Clone, Copy)]
pub struct Figures {
    /// Its sessions.
    pub sessions: Served,
    /// Its campaigns, if they are served.
    pub campaigns: Option<Served>,
    /// Its clients of HTTP.
    pub viewers: Served,
    /// The accepts that failed since the start.
    pub failed_accepts: u64,
    /// The answers since the start that were a refusal, for each refusal by its number. The first
    /// count is that of number 1.
    pub refusals: [u64; 14],
    /// The resident memory of the process in bytes, if it can be read.
    pub resident: Option<u64>,
    /// Its journal, if it has one.
    pub journal: Option<JournalFigures>,
}

/// What is known of a running service beside its table. Of members, terms and leaders it decides
/// nothing but a picture of an election, and when a poll is answered. Each other answer about them
/// is what the table answers. What it knows is tested, not proved.
pub trait Beside {
    /// The numbers of the service now.
    fn figures(&self) -> Figures;

    /// The algorithm of a group, if the group was created.
    fn algorithm(&self, group: GroupName) -> Option<Any>;

    /// The charter of a group's last term, if a term was started in this life of the process or was
    /// running at its start.
    fn charter(&self, group: GroupName) -> Option<Arc<Charter<Any>>>;

    /// The sum of the group that was shown at a place, if that is remembered.
    fn shown_at(&self, place: usize) -> Option<u64>;

    /// Remembers the sum of a group that is shown at a place. Does not allocate.
    fn note_shown(&self, place: usize, sum: u64);
}
