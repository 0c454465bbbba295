//! A table that goes on after a restart.
ghost use Rattle.std.specs.Prelude.{◌≡◌, ◌≤◌, length, map};
ghost use Rattle.ring_recovery.specs.Charters.{running_charters};

use crate::metering::Meter;
use ring_any::Any;
use ring_journal::Medium;
use ring_node::Charter;
use ring_recovery::{Alarm, Life, Written};
use ring_table::Recorded;
use std::sync::Arc;

/// A table over its journal, with all that its service needs to go on.
#[derive(Drop)]
pub struct Resumed<D: Medium + Drop> {
    /// The table. All its entries are kept for good.
    pub table: Recorded<Any, Written<D>>,
    /// The charters of the running terms, which begin again.
    pub charters: Vec<Arc<Charter<Any>>>,
    /// The alarm, which is rung if the journal fails.
    pub alarm: Arc<Alarm>,
    /// The life of the journal. Places are counted from its base.
    pub life: Life,
    /// The meter of the journal.
    pub meter: Arc<Meter>,
    ghost kept: { length table.history ≤ table.sure },
    ghost running: { map (λ charter. charter.value) charters.items ≡ running_charters table.book },
}
