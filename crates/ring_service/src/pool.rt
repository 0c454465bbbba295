ghost use Rattle.std.specs.Prelude.{◌≡◌, ◌+◌, ◌<◌, ◌≤◌, IfErr, IfOk, OnErr, OnOk, Some, map, slice_get, vec_capacity, vec_len};
ghost use Rattle.ring_inbox.specs.Values.{fresh_sender};
ghost use Rattle.ring_service.specs.Handing.{HandsFrom};

use crate::service::StartFault;
use ring_any::Any;
use ring_id::NoMemory;
use ring_inbox::{ReceiverPass, SenderPass};
use ring_node::Report;
use ring_table::Access;
use ring_workers::{Desk, Filed, Gate, Handed, Item, Worker, run_worker};
use std::alloc::Global;
use std::marker::Model;
use std::snapshot::Snapshot;
use std::sync::{Arc, Wait};
use std::thread;
use std::thread::{Promise, PromisedHandle, Threads};
use std::time::Clock;

/// The receivers of the workers' inboxes, in the order of the workers, for contracts. The value has
/// no bytes.
pub(crate) type Inboxes = Snapshot<Vec<ReceiverPass<Item<Any>>>>;

/// The promise of a thread: its worker, and the inboxes of all workers. The value has no bytes.
#[derive(Drop)]
pub(crate) struct Work {
    worker: Snapshot<Worker<Any>>,
    inboxes: Snapshot<Inboxes>,
}

impl Promise<Handed<Any>> for Work {
    ghost use Rattle.ring_service.specs.private.Pools.{Keeps};

    ghost kept_by = { Keeps };
}

/// The threads of the workers that were started, and room for their results.
#[derive(Drop)]
pub(crate) struct WorkerPool {
    pub(crate) threads: Vec<PromisedHandle<Handed<Any>, Work>>,
    handed: Vec<Handed<Any>>,
    ghost none: { vec_len handed ≡ 0 },
    ghost room: { vec_len threads ≤ vec_capacity handed },
}

impl WorkerPool {
    ghost use Rattle.ring_service.specs.private.Pools.{Joins, StartsOne};

    /// Returns no threads, with room for `workers` of them. Fails only if an allocation fails.
    pub(crate) fn new(alloc: Global, workers: usize) -> Result<WorkerPool, NoMemory>
        ensures { IfOk result (λ pool.
            (vec_len pool.threads ≡ 0) × (workers ≤ vec_capacity pool.threads)
            × (workers ≤ vec_capacity pool.handed)) }
    {
        let Ok(threads) = Vec::with_capacity(alloc, workers) else {
            return Err(NoMemory);
        };
        let Ok(handed) = Vec::with_capacity(alloc, workers) else {
            return Err(NoMemory);
        };
        Ok(WorkerPool { threads, handed })
    }

    /// Starts a worker in a thread of its own. The input has the receiver of the worker's own inbox
    /// and a sender of each worker's inbox, in the order of the workers. If no thread can be made,
    /// the input is dropped.
    pub(crate) fn start<
        A: Access<Any> + Send + Sync + Drop + 'static,
        G: Gate + Send + Sync + Drop + 'static,
        R: Threads + Wait + Clock + Copy + Send + Drop + 'static,
    >(&mut self, input: WorkerInput<A, G, R>, inboxes: &Inboxes) -> Result<(), StartFault>
    where
        A::Seat: Send + 'static,
        requires receiver { slice_get inboxes.now.value.items input.worker.owner.number
            ≡ Some input.receiver }
        requires senders { input.senders.items
            ≡ map (λ receiver. fresh_sender receiver.inbox input.worker.owner.number)
            inboxes.now.value.items }
        requires threads { vec_len self.old.threads < vec_capacity self.old.threads }
        requires handed { vec_len self.old.threads < vec_capacity self.old.handed }
        ensures started { OnOk result
            (StartsOne inboxes.now.value.items input.worker.owner.number self.old.threads.items
            self.new.threads.items) }
        ensures refused { IfErr result (λ fault. fault ≡ StartFault.Thread) }
        ensures same { OnErr result (self.new.threads.items ≡ self.old.threads.items) }
        ensures room { (vec_capacity self.new.threads ≡ vec_capacity self.old.threads)
            × (vec_capacity self.new.handed ≡ vec_capacity self.old.handed) }
    {
        let rt = input.rt;
        let work = Work {
            worker: Snapshot::of(&input.worker),
            inboxes: Snapshot::of(inboxes),
        };
        match thread::spawn_with(&rt, work, move || input.run()) {
            Ok(thread) => {
                self.threads.push_reserved(thread);
                Ok(())
            }
            Err(refused) => {
                // one `drop` call: an implicit drop would be proved field by field, down to the
                // inbox's
                drop(refused);
                Err(StartFault::Thread)
            }
        }
    }

    /// Waits for each thread to end, from the last that was started to the first, and returns what
    /// they hand over. Does not allocate.
    pub(crate) fn join<R: Threads + Wait>(self, rt: &R) -> Vec<Handed<Any>>
        ensures { Joins self.threads.items result.items }
    {
        let WorkerPool { threads, handed } = self;
        let (mut threads, mut handed) = (threads, handed);
        while let Some(thread) = threads.pop() {
            handed.push_reserved(thread.join(rt));
        }
        handed
    }
}

/// The values that move into a worker's thread.
#[derive(Drop)]
pub(crate) struct WorkerInput<A: Access<Any> + Drop, G: Drop, R: Drop> {
    pub(crate) rt: R,
    pub(crate) worker: Worker<Any>,
    pub(crate) receiver: ReceiverPass<Item<Any>>,
    pub(crate) senders: Vec<SenderPass<Item<Any>>>,
    pub(crate) gate: Arc<G>,
    pub(crate) desk: SeatDesk<A, R>,
    ghost whole: { vec_len senders ≡ worker.owner.workers },
}

impl<A: Access<Any> + Drop, G: Gate + Drop, R: Wait + Clock + Drop> WorkerInput<A, G, R> {
    // Runs the worker to its end, and drops its passes.
    fn run(self) -> Handed<Any>
        ensures { HandsFrom self.worker.owner.number self.worker.owner.workers self.receiver
            self.senders.items result }
    {
        let WorkerInput {
            rt,
            worker,
            receiver,
            senders,
            gate,
            desk,
        } = self;
        let (mut receiver, mut senders) = (receiver, senders);
        let handed = run_worker(&rt, worker, &mut receiver, &mut senders, &*gate, desk);
        drop(senders);
        // one `drop` call, as for a input without a thread
        drop(receiver);
        handed
    }
}

/// The desk at which a worker files its reports: a seat of the access.
#[derive(Drop)]
pub(crate) struct SeatDesk<A: Access<Any> + Drop, R: Drop> {
    rt: R,
    access: Arc<A>,
    seat: A::Seat,
}

impl<A: Access<Any> + Drop, R: Drop> Model for SeatDesk<A, R> {
    ghost Value = { A };

    ghost view = { λ desk. desk.access.value };

    ghost invariant = { λ desk. A.has_seat desk.access.value desk.seat };
}

impl<A: Access<Any> + Drop, R: Drop> SeatDesk<A, R> {
    /// Returns the desk of this seat. Does not allocate.
    pub(crate) fn new(rt: R, access: Arc<A>, seat: A::Seat) -> SeatDesk<A, R>
        requires { A.has_seat access.value seat }
        ensures { result ≡ access.value }
    {
        SeatDesk { rt, access, seat }
    }
}

impl<A: Access<Any> + Drop, R: Wait + Drop> Desk<Any> for SeatDesk<A, R> {
    fn report(&mut self, report: &Report<Any>) -> Filed {
        let _queued = self.access.enter_queue(&self.rt);
        self.access.report(&self.rt, &mut self.seat, report)
    }
}
