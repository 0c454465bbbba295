ghost use Rattle.std.specs.Prelude.{◌≡◌, ◌<◌, ◌≤◌, ◌+◌, ◌⊎◌, ◌↔◌, [], ◌++◌, All, IfOk, IsTrue, OnErr, OnOk, map, vec_len};
ghost use Rattle.std.specs.List.{flat_map};
ghost use Rattle.std.specs.VecDeque.{deque_capacity, deque_len};
ghost use Rattle.ring_service.specs.private.PendingBegins.{AddsTerms, PutsBegin, Tries, begins_from, says, term_begins};

use ring_any::Any;
use ring_id::NoMemory;
use ring_inbox::{Put, SenderPass};
use ring_node::Charter;
use ring_workers::Item;
use std::alloc::Global;
use std::collections::VecDeque;
use std::sync::{Arc, Wait};
use std::thread;

/// A begin that the inbox of this worker has not stored.
#[derive(Drop)]
pub struct Waiting {
    /// The worker's number.
    pub worker: usize,
    /// The term's charter.
    pub charter: Arc<Charter<Any>>,
}

/// The service's pass to the inbox of each worker, and the begins that wait.
#[derive(Drop)]
pub(crate) struct PendingBegins {
    passes: Vec<SenderPass<Item<Any>>>,
    waiting: VecDeque<Waiting>,
    ghost known: { All (λ begin. begin.worker < vec_len passes) waiting.items },
}

impl PendingBegins {
    /// Returns pending with these passes, for which no begin waits. Does not allocate.
    pub(crate) fn new(alloc: Global, passes: Vec<SenderPass<Item<Any>>>) -> PendingBegins
        ensures waiting { result.waiting.items ≡ [] }
        ensures passes { result.passes ≡ passes }
    {
        PendingBegins {
            passes,
            waiting: VecDeque::new(alloc),
        }
    }

    /// Returns how many workers there are. Does not allocate.
    pub(crate) fn workers(&self) -> usize
        ensures { result ≡ vec_len self.now.passes }
    {
        self.passes.len()
    }

    /// Returns whether no begin waits. Does not allocate.
    pub(crate) fn is_idle(&self) -> bool
        ensures { IsTrue result ↔ (self.now.waiting.items ≡ []) }
    {
        self.waiting.is_empty()
    }

    /// Finds room for one more begin for each worker. Fails only if an allocation fails.
    pub(crate) fn find_room(&mut self) -> Result<(), NoMemory>
        ensures passes { self.new.passes ≡ self.old.passes }
        ensures waiting { self.new.waiting.items ≡ self.old.waiting.items }
        ensures room { OnOk result (deque_len self.new.waiting + vec_len self.new.passes
            ≤ deque_capacity self.new.waiting) }
    {
        match self.waiting.reserve(self.passes.len()) {
            Ok(()) => Ok(()),
            Err(_) => Err(NoMemory),
        }
    }

    /// Adds a begin for each worker after those that wait, each with one of the charters. Adds none
    /// if there are no charters. Does not allocate.
    pub(crate) fn add(&mut self, charters: Vec<Arc<Charter<Any>>>)
        requires room { deque_len self.old.waiting + vec_len self.old.passes
            ≤ deque_capacity self.old.waiting }
        requires charters { (charters.items ≡ []) ⊎ (vec_len charters ≡ vec_len self.old.passes) }
        ensures passes { self.new.passes ≡ self.old.passes }
        ensures waiting { self.new.waiting.items
            ≡ self.old.waiting.items ++ begins_from 0 charters.items }
    {
        for (worker, charter) in charters.into_iter().enumerate() {
            self.waiting.push_back_reserved(Waiting { worker, charter });
        }
    }

    /// Adds a begin of each of these terms for each worker, after those that wait, in the order of
    /// the terms. If an allocation fails, none is added.
    pub(crate) fn add_terms(
        &mut self,
        alloc: Global,
        charters: &[Arc<Charter<Any>>],
    ) -> Result<(), NoMemory>
        ensures passes { self.new.passes ≡ self.old.passes }
        ensures ok { OnOk result
            (AddsTerms (vec_len self.old.passes) charters.now self.old.waiting.items
            self.new.waiting.items) }
        ensures err { OnErr result (self.new.waiting.items ≡ self.old.waiting.items) }
    {
        let Ok(mut begins) = begins_of(alloc, charters, self.passes.len()) else {
            return Err(NoMemory);
        };
        let Ok(()) = self.waiting.append(&mut begins) else {
            return Err(NoMemory);
        };
        Ok(())
    }

    /// Tries each begin that waits once, in order. A begin that is not stored waits on, in order.
    /// Does not allocate.
    pub(crate) fn try_waiting<R: Wait>(&mut self, rt: &R)
        ensures { Tries self.old.waiting.items self.new.waiting.items self.old.passes.items
            self.new.passes.items }
    {
        for _ in 0..self.waiting.len() {
            let Some(Waiting { worker, charter }) = self.waiting.pop_front() else {
                return;
            };
            if let Some(charter) = put_begin(rt, &mut self.passes[worker], charter) {
                self.waiting.push_back_reserved(Waiting { worker, charter });
            }
        }
    }

    /// Puts a stop into each inbox, again and again while the inbox is full. Returns the begins
    /// that still wait. Does not allocate.
    pub(crate) fn stop<R: Wait>(self, rt: &R) -> VecDeque<Waiting>
        ensures { result.items ≡ self.waiting.items }
    {
        let PendingBegins { passes, waiting } = self;
        for mut pass in passes {
            stop_one(rt, &mut pass);
            drop(pass);
        }
        waiting
    }
}

// Returns a begin of each of these terms for each of the first `workers` workers.
fn begins_of(
    alloc: Global,
    charters: &[Arc<Charter<Any>>],
    workers: usize,
) -> Result<VecDeque<Waiting>, NoMemory>
    ensures said { IfOk result (λ begins.
        map says begins.items ≡ flat_map (term_begins workers) charters.now) }
    ensures known { IfOk result (λ begins. All (λ begin. begin.worker < workers) begins.items) }
{
    let mut begins = VecDeque::new(alloc);
    for charter in charters {
        for worker in 0..workers {
            let Ok(copy) = Arc::try_clone(charter) else {
                return Err(NoMemory);
            };
            let begin = Waiting {
                worker,
                charter: copy,
            };
            let Ok(()) = begins.push_back(begin) else {
                return Err(NoMemory);
            };
        }
    }
    Ok(begins)
}

// Puts a begin into an inbox. If the inbox does not store it, the charter is returned.
fn put_begin<R: Wait>(
    rt: &R,
    pass: &mut SenderPass<Item<Any>>,
    charter: Arc<Charter<Any>>,
) -> Option<Arc<Charter<Any>>>
    ensures { PutsBegin pass.old charter result pass.new }
{
    match pass.put(rt, Item::Begin(charter)) {
        Put::Stored => None,
        Put::Full(Item::Begin(back)) | Put::Gone(Item::Begin(back)) => Some(back),
        _ => unreachable!(),
    }
}

// Puts a stop into an inbox, again and again while the inbox is full.
fn stop_one<R: Wait>(rt: &R, pass: &mut SenderPass<Item<Any>>) {
    for _ in rt.forever() {
        let put = pass.put(rt, Item::Stop);
        let is_full = matches!(put, Put::Full(_));
        drop(put);
        if !is_full {
            return;
        }
        thread::yield_now();
    }
    unreachable!()
}
