ghost use Rattle.std.specs.Prelude.{◌≡◌, ◌≤◌, ◌+◌, All, IfOk, OnOk, length, map, vec_capacity, vec_len};
ghost use Rattle.ring_inbox.specs.Values.{fresh_sender};
ghost use Rattle.ring_service.specs.Handing.{AllHand};
ghost use Rattle.ring_service.specs.private.Pools.{IsManned, IsWhole, Joins};
ghost use Rattle.ring_service.specs.private.Meshes.{IsFresh, SendersOf};

use crate::front::Front;
use crate::mesh::{Mesh, open, take_last};
use crate::pending::{PendingBegins, Waiting};
use crate::pool::{Inboxes, SeatDesk, WorkerInput, WorkerPool};
use ring_any::Any;
use ring_id::NoMemory;
use ring_node::Charter;
use ring_table::Access;
use ring_workers::{Gate, Handed, OpenGate, Worker};
use std::alloc::Global;
use std::collections::VecDeque;
use std::marker::Model;
use std::snapshot::Snapshot;
use std::sync::{Arc, Wait};
use std::thread::Threads;
use std::time::Clock;

/// Why a service could not be started.
#[derive(Clone, Copy, Debug, PartialEq, Eq)]
pub enum StartFault {
    /// An allocation failed.
    NoMemory,
    /// A thread could not be made.
    Thread,
}

/// The parts of a service that was closed.
#[derive(Drop)]
pub struct Closing<A: Drop> {
    /// The access to its table.
    pub access: Arc<A>,
    /// The result of each worker, in the order of their numbers.
    pub handed: Vec<Handed<Any>>,
    /// The begins that no inbox stored, in order.
    pub waiting: VecDeque<Waiting>,
}

/// Sessions over a table that they share, and the workers that run the terms of their starts.
#[derive(Drop)]
pub struct Service<A: Access<Any> + Drop> {
    front: Front<A>,
    pool: WorkerPool,
}

impl<A: Access<Any> + Drop> Model for Service<A> {
    ghost use Rattle.ring_service.specs.private.Pools.{IsWhole};

    ghost Value = { A };

    ghost view = { λ service. service.front };

    ghost invariant = { λ service. IsWhole service.pool.threads.items };
}

impl<A: Access<Any> + Send + Sync + Drop + 'static> Service<A>
where
    A::Seat: Send + 'static,
{
    /// Returns a service over a table, with `workers` workers whose inboxes hold `inbox` items.
    /// Each worker files its reports by a seat of its own.
    ///
    /// Fails if an allocation fails or a thread cannot be made. Then the workers that were started
    /// are stopped first, for which it may wait, and the seats are dropped.
    pub fn new<R: Threads + Wait + Clock + Copy + Send + Drop + 'static>(
        rt: &R,
        alloc: Global,
        access: Arc<A>,
        seats: Vec<A::Seat>,
        workers: usize,
        inbox: usize,
    ) -> Result<Service<A>, StartFault>
        requires workers { (1 ≤ workers) × (workers ≤ 8) }
        requires inbox { (1 ≤ inbox) × (inbox ≤ 65536) }
        requires seats { (length seats.items ≡ workers)
            × All (A.has_seat access.value) seats.items }
        ensures { IfOk result (λ service. service ≡ access.value) }
    {
        let Ok(gate) = Arc::new(alloc, OpenGate) else {
            return Err(StartFault::NoMemory);
        };
        Service::gated(rt, alloc, access, seats, workers, inbox, gate)
    }

    /// Returns a service as `new` does. The gate looks at each item of each worker.
    pub fn gated<
        G: Gate + Send + Sync + Drop + 'static,
        R: Threads + Wait + Clock + Copy + Send + Drop + 'static,
    >(
        rt: &R,
        alloc: Global,
        access: Arc<A>,
        seats: Vec<A::Seat>,
        workers: usize,
        inbox: usize,
        gate: Arc<G>,
    ) -> Result<Service<A>, StartFault>
        requires workers { (1 ≤ workers) × (workers ≤ 8) }
        requires inbox { (1 ≤ inbox) × (inbox ≤ 65536) }
        requires seats { (length seats.items ≡ workers)
            × All (A.has_seat access.value) seats.items }
        ensures { IfOk result (λ service. service ≡ access.value) }
    {
        let Ready {
            mut pool,
            mut mesh,
            pending,
        } = prepare(alloc, workers, inbox)?;
        let mut seats = seats;
        let started = start_all(rt, alloc, &access, &gate, &mut mesh, &mut seats, &mut pool);
        drop(mesh);
        drop(seats);
        drop(gate);
        let front = Front::new(alloc, access, pending);
        match started {
            Ok(()) => Ok(Service { front, pool }),
            Err(fault) => {
                drop(end(rt, front, pool));
                Err(fault)
            }
        }
    }

    /// Returns the front, which sessions in other threads share. Does not allocate.
    pub fn front(&self) -> &Front<A>
        ensures { result.now ≡ self.now }
    {
        &self.front
    }

    /// Has the workers run these terms, which were running when an earlier process ended. A begin
    /// of each term is put to each worker, as a start of the term does, in the order of the terms.
    /// If a worker's inbox cannot store a begin, it waits, and is tried again before each later
    /// command of any session.
    ///
    /// Fails only if an allocation fails; then no begin is put. That the begins come to the workers
    /// is tested, not proved.
    pub fn resume<R: Wait>(
        &self,
        rt: &R,
        charters: Vec<Arc<Charter<Any>>>,
    ) -> Result<(), NoMemory> {
        let resumed = self.front.resume(rt, &charters);
        drop(charters);
        resumed
    }

    /// Ends the service: tries the begins that wait once, stops each worker, and returns what the
    /// workers hand over. Does not allocate. Waits for the workers.
    pub fn close<R: Threads + Wait>(self, rt: &R) -> Closing<A>
        ensures access { result.access.value ≡ self }
        ensures handed { AllHand result.handed.items }
    {
        let Service { front, pool } = self;
        end(rt, front, pool)
    }
}

// Ends the workers of this front, as `close` does.
fn end<A: Access<Any> + Drop, R: Threads + Wait>(
    rt: &R,
    front: Front<A>,
    pool: WorkerPool,
) -> Closing<A>
    ensures access { result.access.value ≡ front }
    ensures handed { Joins pool.threads.items result.handed.items }
{
    let (access, mut pending) = front.into_parts();
    pending.try_waiting(rt);
    let waiting = pending.stop(rt);
    let handed = pool.join(rt);
    Closing {
        access,
        handed,
        waiting,
    }
}

// The parts of a service before its workers start: room for their threads, the inboxes, and the
// passes to them.
#[derive(Drop)]
struct Ready {
    pool: WorkerPool,
    mesh: Mesh,
    pending: PendingBegins,
}

// Returns the parts of a service of `workers` workers, whose inboxes hold `inbox` items.
fn prepare(alloc: Global, workers: usize, inbox: usize) -> Result<Ready, StartFault>
    requires workers { workers ≤ 8 }
    requires inbox { 1 ≤ inbox }
    ensures threads { IfOk result (λ made.
        (vec_len made.pool.threads ≡ 0) × (workers ≤ vec_capacity made.pool.threads)
        × (workers ≤ vec_capacity made.pool.handed)) }
    ensures inboxes { IfOk result (λ made.
        (vec_len made.mesh.receivers ≡ workers) × (vec_len made.mesh.senders ≡ workers)) }
    ensures senders { IfOk result (λ made.
        SendersOf workers made.mesh.receivers.items made.mesh.senders.items) }
    ensures fresh { IfOk result (λ made. All IsFresh made.mesh.receivers.items) }
    ensures pending { IfOk result (λ made.
        made.pending.passes.items ≡ map (λ receiver. fresh_sender receiver.inbox workers)
        made.mesh.receivers.items) }
{
    let Ok(pool) = WorkerPool::new(alloc, workers) else {
        return Err(StartFault::NoMemory);
    };
    let Ok(mut mesh) = open(alloc, workers, inbox) else {
        return Err(StartFault::NoMemory);
    };
    let Ok(passes) = take_last(alloc, &mut mesh.senders, workers) else {
        return Err(StartFault::NoMemory);
    };
    let pending = PendingBegins::new(alloc, passes);
    Ok(Ready {
        pool,
        mesh,
        pending,
    })
}

// Starts the workers, from the last one down to the first.
fn start_all<
    A: Access<Any> + Send + Sync + Drop + 'static,
    G: Gate + Send + Sync + Drop + 'static,
    R: Threads + Wait + Clock + Copy + Send + Drop + 'static,
>(
    rt: &R,
    alloc: Global,
    access: &Arc<A>,
    gate: &Arc<G>,
    mesh: &mut Mesh,
    seats: &mut Vec<A::Seat>,
    pool: &mut WorkerPool,
) -> Result<(), StartFault>
where
    A::Seat: Send + 'static,
    requires receivers { vec_len mesh.old.receivers ≡ vec_len seats.old }
    requires inboxes { vec_len mesh.old.senders ≡ vec_len seats.old }
    requires senders { SendersOf (vec_len seats.old) mesh.old.receivers.items
        mesh.old.senders.items }
    requires seats { All (A.has_seat access.now.value) seats.old.items }
    requires none { vec_len pool.old.threads ≡ 0 }
    requires threads { vec_len seats.old ≤ vec_capacity pool.old.threads }
    requires handed { vec_len seats.old ≤ vec_capacity pool.old.handed }
    ensures manned { OnOk result (IsManned mesh.old.receivers.items pool.new.threads.items) }
    ensures started { OnOk result (vec_len pool.new.threads ≡ vec_len seats.old) }
{
    let workers = seats.len();
    let inboxes: Inboxes = Snapshot::of(&mesh.receivers);
    while let Some(seat) = seats.pop() {
        let number = seats.len();
        let Ok(gate) = Arc::try_clone(gate) else {
            return Err(StartFault::NoMemory);
        };
        let Ok(access) = Arc::try_clone(access) else {
            return Err(StartFault::NoMemory);
        };
        let Ok(senders) = take_last(alloc, &mut mesh.senders, number) else {
            return Err(StartFault::NoMemory);
        };
        let input = WorkerInput {
            rt: *rt,
            worker: Worker::new(alloc, number, workers),
            receiver: mesh.receivers.pop().unwrap(),
            senders,
            gate,
            desk: SeatDesk::new(*rt, access, seat),
        };
        pool.start(input, &inboxes)?;
    }
    Ok(())
}
