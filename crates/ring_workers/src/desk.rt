use ring_election::RingElection;
use ring_node::{Filed, Report};

/// A desk at which a worker files the reports of its nodes.
pub trait Desk<E: RingElection> {
    /// Files a report. A report that is refused stays with the worker.
    fn report(&mut self, report: &Report<E>) -> Filed;
}
