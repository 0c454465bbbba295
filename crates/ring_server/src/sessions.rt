//! The service that the program runs, and its sessions over sockets.
ghost use Rattle.std.specs.Prelude.{◌≡◌, ◌⊎◌, ◌<◌, ◌≤◌, ◌*◌, ◌+◌, ◌-◌, ◌/◌, ◌^◌, ◌↔◌, All, IfErr, IfOk, IfSome, IsTrue, ℕ, MatchOption, vec_len};
ghost use Rattle.ring_service.specs.Handing.{AllHand};
ghost use Rattle.ring_service.specs.Places.{ServesPlaced};
ghost use Rattle.ring_service.specs.Sessions.{Serves};
ghost use Rattle.ring_turn.specs.Seats.{Settled};
ghost use Rattle.ring_server.specs.Faults.{IsOfStart};
ghost use Rattle.ring_server.specs.private.Faults.{start_told_as};
ghost use Rattle.ring_server.specs.Sessions.{GainsCalls, HasServed, base_if};
ghost use Rattle.ring_accept.specs.declared.fault.ProgramFault.TheVariants.{NoMemory};

use crate::base::Base;
use crate::watched::Watched;
use crate::watching::{Port, Watch};
use ring_accept::{ClientHandler, ProgramFault};
use ring_any::Any;
use ring_config::Config;
use ring_lines::{FromRead, Intake, LineFault, Outlet, ToWrite};
use ring_service::StartFault;
use ring_table::{Table, Tabled};
use ring_turn::TurnLock;
use ring_workers::{Gate, OpenGate};
use std::alloc::Global;
use std::marker::PhantomData;
use std::net::TcpStream;
use std::sync::{Arc, Wait};
use std::thread::Threads;
use std::time::Clock;

// the most read calls of a handler in one session, unless it has another limit
const READS: u32 = u32::MAX;

/// The lock by which the sessions and workers of a program share its table. Its answers are noted.
pub type Access<T = Table<Any>> = Watched<T>;

/// The seat by which a session or a worker reaches the table.
pub type Seat<T = Table<Any>> = ring_turn::Seat<Any, T>;

/// The front that sessions share.
pub type Front<T = Table<Any>> = ring_service::Front<Access<T>>;

/// The service over a program's table.
pub type Service<T = Table<Any>> = ring_service::Service<Access<T>>;

/// The parts of a service that was closed.
pub type Closing<T = Table<Any>> = ring_service::Closing<Access<T>>;

/// A seat of the table, for one session after another. A session makes at most `reads` read calls.
#[derive(Drop)]
pub struct SessionHandler<'a, T: Tabled<Any> + Drop = Table<Any>> {
    front: &'a Front<T>,
    seat: Seat<T>,
    base: Base<T>,
    reads: u32,
    // counts its clients
    watch: &'a Watch,
    ghost of_front: { seat.lock ≡ front.now.id },
}

/// Opens the service that a configuration describes over this table, with `sessions` seats for
/// sessions.
///
/// Workers and sessions have equal shares of the turns of a lock, of which there are 2^64 - 1. The
/// watch notes the answers of the table.
pub fn open<R, T>(
    rt: &R,
    config: &Config,
    sessions: u32,
    table: T,
    watch: Arc<Watch>,
) -> Result<(Service<T>, Vec<Seat<T>>), ProgramFault>
where
    R: Threads + Wait + Clock + AllocGlobal + Copy + Send + Drop + 'static,
    T: Tabled<Any> + Send + Sync + Drop + 'static,
    ensures seats { IfOk result (λ opened. vec_len opened.1 ≡ sessions) }
    ensures theirs { IfOk result (λ opened. All (λ seat. seat.lock ≡ opened.0.id) opened.1.items) }
    ensures turns { IfOk result (λ opened.
        All (λ seat. seat.left ≡ (2 ^ 64 - 1) / (config.now.workers + sessions)) opened.1.items) }
    ensures workers { IfOk result (λ opened. opened.0.seats ≡ config.now.workers + sessions) }
    ensures opening { IfOk result (λ opened. opened.0.opening ≡ (T.shows table).history) }
    ensures fault { IfErr result IsOfStart }
{
    let Ok(gate) = Arc::new(rt.alloc(), OpenGate) else {
        drop(table);
        return Err(ProgramFault::NoMemory);
    };
    open_gated(rt, config, sessions, table, watch, gate)
}

/// Opens a service as `open` does, over a table whose answers a shared watch notes.
pub(crate) fn open_watched<R, T>(
    rt: &R,
    config: &Config,
    sessions: u32,
    table: T,
    watch: &Arc<Watch>,
) -> Result<(Service<T>, Vec<Seat<T>>), ProgramFault>
where
    R: Threads + Wait + Clock + AllocGlobal + Copy + Send + Drop + 'static,
    T: Tabled<Any> + Send + Sync + Drop + 'static,
    ensures seats { IfOk result (λ opened. vec_len opened.1 ≡ sessions) }
    ensures theirs { IfOk result (λ opened. All (λ seat. seat.lock ≡ opened.0.id) opened.1.items) }
    ensures opening { IfOk result (λ opened. opened.0.opening ≡ (T.shows table).history) }
    ensures fault { IfErr result IsOfStart }
{
    match Arc::try_clone(watch) {
        Ok(theirs) => open(rt, config, sessions, table, theirs),
        Err(_) => {
            drop(table);
            Err(ProgramFault::NoMemory)
        }
    }
}

/// Opens a service as `open` does. The gate looks at each item of each worker. The capacity of the
/// inboxes is tested, not proved.
pub fn open_gated<R, G, T>(
    rt: &R,
    config: &Config,
    sessions: u32,
    table: T,
    watch: Arc<Watch>,
    gate: Arc<G>,
) -> Result<(Service<T>, Vec<Seat<T>>), ProgramFault>
where
    R: Threads + Wait + Clock + AllocGlobal + Copy + Send + Drop + 'static,
    T: Tabled<Any> + Send + Sync + Drop + 'static,
    G: Gate + Send + Sync + Drop + 'static,
    ensures seats { IfOk result (λ opened. vec_len opened.1 ≡ sessions) }
    ensures theirs { IfOk result (λ opened. All (λ seat. seat.lock ≡ opened.0.id) opened.1.items) }
    ensures turns { IfOk result (λ opened.
        All (λ seat. seat.left ≡ (2 ^ 64 - 1) / (config.now.workers + sessions)) opened.1.items) }
    ensures workers { IfOk result (λ opened. opened.0.seats ≡ config.now.workers + sessions) }
    ensures opening { IfOk result (λ opened. opened.0.opening ≡ (T.shows table).history) }
    ensures fault { IfErr result IsOfStart }
{
    let alloc = rt.alloc();
    let all = config.workers + sessions as usize;
    let turns = u64::MAX / all as u64;
    let Ok((lock, mut seats)) = TurnLock::new(alloc, table, all, turns) else {
        return Err(ProgramFault::NoMemory);
    };
    let session_seats = seats.split_off(config.workers)?;
    let Ok(access) = Arc::new(alloc, Watched::new(lock, watch)) else {
        return Err(ProgramFault::NoMemory);
    };
    match Service::gated(rt, alloc, access, seats, config.workers, config.inbox, gate) {
        Ok(service) => Ok((service, session_seats)),
        Err(fault) => Err(told_of_start(fault)),
    }
}

// Returns the program's fault for a service that could not be started.
fn told_of_start(fault: StartFault) -> ProgramFault
    ensures { result ≡ start_told_as fault }
{
    match fault {
        StartFault::NoMemory => ProgramFault::NoMemory,
        StartFault::Thread => ProgramFault::Thread,
    }
}

/// Returns the front that the sessions of a service share. Does not allocate.
pub fn front<T: Tabled<Any> + Send + Sync + Drop + 'static>(service: &Service<T>) -> &Front<T>
    ensures { result.now ≡ service.now }
{
    service.front()
}

/// Ends the service, and returns its parts.
pub fn close<R: Threads + Wait, T: Tabled<Any> + Send + Sync + Drop + 'static>(
    rt: &R,
    service: Service<T>,
) -> Closing<T>
    ensures access { result.access.value ≡ service }
    ensures handed { AllHand result.handed.items }
{
    service.close(rt)
}

/// Returns a handler for each seat. Its sessions make at most 4294967295 read calls each, and count
/// places from `base`. The watch counts its clients. Fails only if an allocation fails.
pub fn session_handlers<'a, T: Tabled<Any> + Drop>(
    alloc: Global,
    front: &'a Front<T>,
    seats: Vec<Seat<T>>,
    base: usize,
    watch: &'a Watch,
) -> Result<Vec<SessionHandler<'a, T>>, ProgramFault>
    requires base { base + T.most ≤ 2 ^ 64 }
    requires seats { All (λ seat. seat.lock ≡ front.now.id) seats.items }
    ensures handlers { IfOk result (λ handlers. vec_len handlers ≡ vec_len seats) }
    ensures reads { IfOk result (λ handlers.
        All (λ handler. handler.reads ≡ 4294967295) handlers.items) }
    ensures base { IfOk result (λ handlers.
        All (λ handler. handler.base.number ≡ base) handlers.items) }
    ensures fault { IfErr result (λ fault. fault ≡ NoMemory) }
{
    limited_handlers(alloc, front, seats, base, READS, watch)
}

/// Returns a handler for each seat. Its sessions make at most `reads` read calls each, and count
/// places from `base`. The watch counts its clients. Fails only if an allocation fails.
pub fn limited_handlers<'a, T: Tabled<Any> + Drop>(
    alloc: Global,
    front: &'a Front<T>,
    seats: Vec<Seat<T>>,
    base: usize,
    reads: u32,
    watch: &'a Watch,
) -> Result<Vec<SessionHandler<'a, T>>, ProgramFault>
    requires base { base + T.most ≤ 2 ^ 64 }
    requires seats { All (λ seat. seat.lock ≡ front.now.id) seats.items }
    ensures handlers { IfOk result (λ handlers. vec_len handlers ≡ vec_len seats) }
    ensures reads { IfOk result (λ handlers.
        All (λ handler. handler.reads ≡ reads) handlers.items) }
    ensures base { IfOk result (λ handlers.
        All (λ handler. handler.base.number ≡ base) handlers.items) }
    ensures fault { IfErr result (λ fault. fault ≡ NoMemory) }
{
    let mut rest = seats;
    let Ok(mut handlers) = Vec::with_capacity(alloc, rest.len()) else {
        return Err(ProgramFault::NoMemory);
    };
    while let Some(seat) = rest.pop() {
        handlers.push_reserved(SessionHandler {
            front,
            seat,
            base: Base {
                number: base,
                of: PhantomData,
            },
            reads,
            watch,
        });
    }
    Ok(handlers)
}

impl<T: Tabled<Any> + Drop> ClientHandler for SessionHandler<'_, T> {
    fn is_spent(&self) -> bool
        ensures { IsTrue result ↔ (self.now.seat.left ≡ 0) }
    {
        self.seat.is_spent()
    }

    fn serve<R: Wait + Clock>(&mut self, rt: &R, session: u32, stream: &TcpStream, places: bool)
        ensures served { HasServed (base_if places self.old.base.number) T.most session
            self.old.reads self.old.seat self.new.seat }
        ensures gained { GainsCalls session self.old.seat.mine self.new.seat.mine }
        ensures told { (self.new.seat ≡ self.old.seat) ⊎ Settled self.new.seat }
    {
        let _ = stream.set_nodelay(true);
        let (mut reader, mut writer) = (FromRead(stream), ToWrite(stream));
        let (front, reads, seat) = (self.front, self.reads, &mut self.seat);
        let base = told_base(places, self.base.number);
        self.watch.enter(Port::Sessions);
        let _ = answer(
            rt,
            front,
            seat,
            session,
            base,
            reads,
            &mut reader,
            &mut writer,
        );
        self.watch.leave(Port::Sessions);
    }
}

// Returns the base of the places of a session, or `None` if it writes none.
fn told_base(places: bool, base: usize) -> Option<usize>
    ensures value { result ≡ base_if places base }
    ensures within { (most : ℕ) → base + most ≤ 2 ^ 64
        → IfSome result (λ base. base + most ≤ 2 ^ 64) }
{
    if places { Some(base) } else { None }
}

// Serves one session by a seat. If there is a base, replies have their places, counted from it.
fn answer<R: Wait, I: Intake, O: Outlet, T: Tabled<Any> + Drop>(
    rt: &R,
    front: &Front<T>,
    seat: &mut Seat<T>,
    session: u32,
    base: Option<usize>,
    reads: u32,
    reader: &mut I,
    writer: &mut O,
) -> Result<u64, LineFault>
    requires seat { seat.old.lock ≡ front.now.id }
    requires base { IfSome base (λ base. base + T.most ≤ 2 ^ 64) }
    ensures seat { seat.new.lock ≡ front.now.id }
    ensures gained { GainsCalls session seat.old.mine seat.new.mine }
    ensures told { (seat.new ≡ seat.old) ⊎ Settled seat.new }
    ensures served { MatchOption base
        (Serves
        (record { gives = I.read_gives; from = reader.old; to = reader.new })
        (record { gives = O.write_gives; from = writer.old; to = writer.new })
        (λ seat. seat.mine) session reads result seat.old seat.new)
        (λ base.
        ServesPlaced
        (record { gives = I.read_gives; from = reader.old; to = reader.new })
        (record { gives = O.write_gives; from = writer.old; to = writer.new })
        (λ seat. seat.mine) base T.most session reads result seat.old seat.new) }
{
    match base {
        Some(base) => front.serve_placed(rt, seat, base, session, reader, writer, reads),
        None => front.serve(rt, seat, session, reader, writer, reads),
    }
}
