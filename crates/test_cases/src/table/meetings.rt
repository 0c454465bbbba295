//! A gate at which two workers wait for each other.

use crate::memory::shared;
use ring_workers::{Gate, Pass};
use std::alloc::Global;
use std::process::Abort;
use std::sync::Arc;
use std::sync::atomic::{AtomicU64, Ordering};
use std::thread;
use std::time::{Clock, Duration};

/// Looks enough for two workers that run: ten seconds of them.
pub const LOOKS: u32 = 10000;

/// Holds the first item of each of two workers until the other has its first item, for `looks`
/// looks. Then the worker is halted, with no looks at once. Counts the items.
#[derive(Drop)]
pub struct Meeting<R> {
    rt: R,
    looks: u32,
    /// The number of first items that were entered.
    pub entered: AtomicU64,
    /// The number of items that were left.
    pub left: AtomicU64,
}

impl<R: Clock> Meeting<R> {
    /// Returns whether a number comes to `goal` within the looks, which are a millisecond apart.
    pub fn reaches(&self, number: &AtomicU64, goal: u64) -> bool {
        for _ in 0..self.looks {
            if goal <= number.load(Ordering::SeqCst) {
                return true;
            }
            thread::sleep(&self.rt, Duration::from_millis(1));
        }
        false
    }
}

impl<R: Clock> Gate for Meeting<R> {
    fn enter(&self, _worker: usize, turn: u64) -> Pass {
        if turn != 1 {
            return Pass::Go;
        }
        self.entered.fetch_add(1, Ordering::SeqCst);
        if self.reaches(&self.entered, 2) {
            Pass::Go
        } else {
            Pass::Halt
        }
    }

    fn leave(&self, _worker: usize, _turn: u64) {
        self.left.fetch_add(1, Ordering::SeqCst);
    }
}

/// Returns a gate that nobody has entered.
pub fn new_meeting<R: Abort + Copy>(rt: &R, alloc: Global, looks: u32) -> Arc<Meeting<R>> {
    let gate = Meeting {
        rt: *rt,
        looks,
        entered: AtomicU64::new(0),
        left: AtomicU64::new(0),
    };
    shared(rt, alloc, gate)
}
