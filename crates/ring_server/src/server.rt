//! The thread that serves.
ghost use Rattle.std.specs.Prelude.{◌≡◌, ◌≤◌, ◌+◌, ◌^◌, All, IfErr, IfOk};
ghost use Rattle.ring_campaign.specs.Clearing.{Clears};
ghost use Rattle.ring_turn.specs.Seats.{Settled};
ghost use Rattle.ring_server.specs.Faults.{IsOfStart};

use crate::crowd::{Others, gather};
use crate::handshake::Handshake;
use crate::sessions;
use crate::sessions::{Front, Seat, Service};
use crate::watching::Watch;
use ring_accept::{Limits, ProgramFault};
use ring_any::Any;
use ring_campaign::clear;
use ring_config::Config;
use ring_node::Charter;
use ring_recovery::{Alarm, Ending};
use ring_table::Tabled;
use std::net::{OpenListener, TcpStream};
use std::sync::{Arc, Wait};
use std::thread::Threads;
use std::time::Clock;

/// The values that move into the thread that serves.
#[derive(Drop)]
pub(crate) struct Server<L: Drop, T: Tabled<Any> + Drop> {
    pub(crate) listener: L,
    // the listeners for campaigns and for HTTP, if they are served
    pub(crate) others: Others<L>,
    pub(crate) config: Config,
    pub(crate) limits: Limits,
    pub(crate) table: T,
    // the charters of the running terms
    pub(crate) charters: Vec<Arc<Charter<Any>>>,
    // the number that is added to each place
    pub(crate) base: usize,
    pub(crate) handshake: Arc<Handshake>,
    // rung when no client is served any more
    pub(crate) bell: Arc<Alarm>,
    pub(crate) watch: Arc<Watch>,
    ghost fits: { base + T.most ≤ 2 ^ 64 },
}

impl<L, T> Server<L, T>
where
    L: OpenListener<Stream = TcpStream> + Send + Drop,
    T: Tabled<Any> + Send + Sync + Drop + 'static,
{
    /// Opens the service, and serves once the handshake says so. Returns whether all its threads
    /// were started.
    pub(crate) fn run<R>(self, rt: &R) -> bool
    where
        R: Threads + Wait + AllocGlobal + Eprint + Clock + Copy + Send + Sync + Drop + 'static,
    {
        let Server {
            listener,
            others,
            config,
            limits,
            table,
            charters,
            base,
            handshake,
            bell,
            watch,
        } = self;
        // one more than serve, by which the members of an earlier life leave
        let seats = others.seats_for(limits.sessions).saturating_add(1);
        let served = match open(rt, &config, seats, table, charters, &watch) {
            Ok((service, seats)) => serve_open(
                rt, service, listener, others, seats, base, limits, &handshake, &watch,
            ),
            Err(fault) => {
                drop(listener);
                drop(others);
                Err(fault)
            }
        };
        if let Err(fault) = served {
            handshake.refuse(rt, fault);
        }
        bell.ring(rt, Ending::Stopped);
        served.is_ok()
    }
}

// Opens the service over the table, and begins the terms of these charters. The watch notes the
// answers of the table.
fn open<R, T>(
    rt: &R,
    config: &Config,
    sessions: u32,
    table: T,
    charters: Vec<Arc<Charter<Any>>>,
    watch: &Arc<Watch>,
) -> Result<(Service<T>, Vec<Seat<T>>), ProgramFault>
where
    R: Threads + Wait + AllocGlobal + Clock + Copy + Send + Drop + 'static,
    T: Tabled<Any> + Send + Sync + Drop + 'static,
    ensures theirs { IfOk result (λ opened. All (λ seat. seat.lock ≡ opened.0.id) opened.1.items) }
    ensures opening { IfOk result (λ opened. opened.0.opening ≡ (T.shows table).history) }
    ensures fault { IfErr result IsOfStart }
{
    let (service, seats) = sessions::open_watched(rt, config, sessions, table, watch)?;
    if service.resume(rt, charters).is_err() {
        drop(seats);
        let _ = sessions::close(rt, service);
        return Err(ProgramFault::NoMemory);
    }
    Ok((service, seats))
}

// Serves by a service that is open, and then closes it.
fn serve_open<R, L, T>(
    rt: &R,
    service: Service<T>,
    listener: L,
    others: Others<L>,
    seats: Vec<Seat<T>>,
    base: usize,
    limits: Limits,
    handshake: &Handshake,
    watch: &Watch,
) -> Result<(), ProgramFault>
where
    R: Threads + Wait + AllocGlobal + Eprint + Clock + Sync,
    L: OpenListener<Stream = TcpStream> + Send + Drop,
    T: Tabled<Any> + Send + Sync + Drop + 'static,
    requires seats { All (λ seat. seat.lock ≡ service.id) seats.items }
    requires base { base + T.most ≤ 2 ^ 64 }
    ensures fault { IfErr result IsOfStart }
{
    let front = sessions::front(&service);
    let served = serve(
        rt, front, listener, others, seats, base, limits, handshake, watch,
    );
    let _ = sessions::close(rt, service);
    served
}

// Says that the service is open, and lets the session handlers of its table serve once they may.
fn serve<R, L, T>(
    rt: &R,
    front: &Front<T>,
    listener: L,
    others: Others<L>,
    seats: Vec<Seat<T>>,
    base: usize,
    limits: Limits,
    handshake: &Handshake,
    watch: &Watch,
) -> Result<(), ProgramFault>
where
    R: Threads + Wait + AllocGlobal + Eprint + Clock + Sync,
    L: OpenListener<Stream = TcpStream> + Send + Drop,
    T: Tabled<Any> + Send + Sync + Drop + 'static,
    requires seats { All (λ seat. seat.lock ≡ front.now.id) seats.items }
    requires base { base + T.most ≤ 2 ^ 64 }
    ensures fault { IfErr result IsOfStart }
{
    let mut seats = seats;
    let own = seats.pop();
    let crowd = gather(rt.alloc(), front, seats, base, limits.idle, &others, watch)?;
    if !handshake.open(rt) {
        return Ok(());
    }
    if others.campaigns.is_some()
        && let Some(seat) = own
    {
        drop(clear_by(rt, front, seat));
    }
    crowd.serve(rt, listener, others, limits)
}

// Takes out the members of an earlier life, for the service itself, which is session 0. Returns the
// seat by which it was done.
fn clear_by<R: Wait + Clock, T: Tabled<Any> + Drop>(
    rt: &R,
    front: &Front<T>,
    seat: Seat<T>,
) -> Seat<T>
    requires { seat.lock ≡ front.now.id }
    ensures clears { Clears 0 seat.mine result.mine }
    ensures settled { Settled result }
{
    let mut seat = seat;
    clear(rt, front, &mut seat, 0);
    seat
}
