//! Gates that end a worker at one of its items, and a desk that answers all reports alike.

use crate::elections::workers::items::stores;
use ring_election::RingElection;
use ring_inbox::SenderPass;
use ring_node::Report;
use ring_workers::{Desk, Filed, Gate, Item, Pass};
use std::sync::atomic::{AtomicU64, Ordering};
use std::sync::{Mutex, Wait};

/// Ends a worker, and counts how often it is called with the worker's own number, and with another.
#[derive(Drop)]
pub struct EndGate<E: RingElection, R> {
    rt: R,
    number: usize,
    halt: u64,
    stop: u64,
    to: Mutex<SenderPass<Item<E>>>,
    own: AtomicU64,
    others: AtomicU64,
}

impl<E: RingElection, R: Wait> EndGate<E, R> {
    /// The gate of the worker with this number. It halts the worker at item `halt`, and puts the
    /// word to stop into the worker's inbox after item `stop`. Items count from 1 on.
    pub fn new(
        rt: R,
        number: usize,
        halt: u64,
        stop: u64,
        to: SenderPass<Item<E>>,
    ) -> EndGate<E, R> {
        EndGate {
            rt,
            number,
            halt,
            stop,
            to: Mutex::new(to),
            own: AtomicU64::new(0),
            others: AtomicU64::new(0),
        }
    }

    /// How often it was called with the worker's own number, and how often with another.
    pub fn told(&self) -> (u64, u64) {
        (
            self.own.load(Ordering::SeqCst),
            self.others.load(Ordering::SeqCst),
        )
    }

    fn count(&self, worker: usize) {
        if worker == self.number {
            self.own.fetch_add(1, Ordering::SeqCst);
        } else {
            self.others.fetch_add(1, Ordering::SeqCst);
        }
    }
}

impl<E: RingElection, R: Wait> Gate for EndGate<E, R> {
    fn enter(&self, worker: usize, turn: u64) -> Pass {
        self.count(worker);
        if turn == self.halt {
            Pass::Halt
        } else {
            Pass::Go
        }
    }

    fn leave(&self, worker: usize, turn: u64) {
        self.count(worker);
        if turn == self.stop {
            stores(&self.rt, &mut self.to.lock(&self.rt), Item::Stop);
        }
    }
}

/// Answers each report alike.
#[derive(Drop)]
pub struct Answers(pub Filed);

impl<E: RingElection> Desk<E> for Answers {
    fn report(&mut self, _report: &Report<E>) -> Filed {
        self.0
    }
}
