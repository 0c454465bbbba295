//! Serves a given number of clients, each in a thread of its own.
ghost use Rattle.std.specs.Prelude.{◌≡◌, ◌≤◌, ◌++◌, ◌^◌, All, MatchResult, vec_len};
ghost use Rattle.ring_lines.specs.Ends.{Wrote};
ghost use Rattle.ring_accept.specs.Telling.{closed_line};
ghost use Rattle.ring_server.specs.Listening.{BothAt};
ghost use Rattle.ring_server.specs.private.Listening.{FirstAt};

use crate::sessions;
use crate::sessions::{Front, Seat, limited_handlers};
use crate::watching::Watch;
use ring_accept::{ProgramFault, accept_all, say_closed, tell};
use ring_any::Any;
use ring_config::Config;
use ring_lines::Outlet;
use ring_table::{Table, Tabled};
use std::net::{OpenListener, TcpStream};
use std::sync::Wait;
use std::thread::Threads;
use std::time::Clock;

// the most read calls of a session
const READS: u32 = 1_000_000_000;

/// Makes the service, prints the line `listening`, and accepts `connections` connections. Waits for
/// their sessions to end, closes the service, and prints that it closed.
///
/// Each connection is a session in a thread of its own, numbered from 1 in the order of their
/// accepts. A session makes at most 1000000000 read calls. A session's fault ends that session
/// alone. The listener is dropped after the last accept, so later clients are refused.
///
/// After a failed accept, a thread that could not be started or a failed write, the running
/// sessions are waited for. The service is closed before the fault is returned.
pub fn accept_loop<R, L, O>(
    rt: &R,
    listener: L,
    config: &Config,
    connections: u32,
    listening: &str,
    out: &mut O,
) -> Result<(), ProgramFault>
where
    R: Threads + Wait + Clock + AllocGlobal + Copy + Send + Sync + Drop + 'static,
    L: OpenListener<Stream = TcpStream> + Drop,
    O: Outlet,
    ensures { MatchResult result
        (λ _. Wrote O.write_gives out.old
        (listening.now ++ closed_line connections) out.new)
        (λ fault.
        BothAt O.write_gives out.old listening.now (closed_line connections) fault out.new) }
{
    let table = Table::new(rt.alloc());
    accept_over(rt, table, listener, config, connections, listening, out)
}

// Accepts as `accept_loop` does, over a table without groups. It is for any table, as no proof spells
// out the table's type then.
fn accept_over<R, L, T, O>(
    rt: &R,
    table: T,
    listener: L,
    config: &Config,
    connections: u32,
    listening: &str,
    out: &mut O,
) -> Result<(), ProgramFault>
where
    R: Threads + Wait + Clock + AllocGlobal + Copy + Send + Sync + Drop + 'static,
    L: OpenListener<Stream = TcpStream> + Drop,
    T: Tabled<Any> + Send + Sync + Drop + 'static,
    O: Outlet,
    requires { T.most ≤ 2 ^ 64 }
    ensures { MatchResult result
        (λ _. Wrote O.write_gives out.old
        (listening.now ++ closed_line connections) out.new)
        (λ fault.
        BothAt O.write_gives out.old listening.now (closed_line connections) fault out.new) }
{
    let alloc = rt.alloc();
    let closed = say_closed(alloc, connections)?;
    let watch = Watch::new(alloc, connections)?.shared(alloc)?;
    let (service, seats) = sessions::open_watched(rt, config, connections, table, &watch)?;
    let served = serve_all(
        rt,
        sessions::front(&service),
        &watch,
        listener,
        listening,
        seats,
        out,
    );
    let _ = sessions::close(rt, service);
    match served {
        Ok(_) => tell(out, closed.as_str()),
        Err(fault) => Err(fault),
    }
}

// Prints that it listens, and serves all connections. Returns how many there were: one for each
// seat.
fn serve_all<R, L, T, O>(
    rt: &R,
    front: &Front<T>,
    watch: &Watch,
    listener: L,
    listening: &str,
    seats: Vec<Seat<T>>,
    out: &mut O,
) -> Result<usize, ProgramFault>
where
    R: Threads + Wait + Clock + AllocGlobal + Sync,
    L: OpenListener<Stream = TcpStream> + Drop,
    T: Tabled<Any> + Send + Sync + Drop,
    O: Outlet,
    requires seats { All (λ seat. seat.lock ≡ front.now.id) seats.items }
    requires base { T.most ≤ 2 ^ 64 }
    ensures { MatchResult result
        (λ accepted. (accepted ≡ vec_len seats) × Wrote O.write_gives out.old listening.now out.new)
        (λ fault. FirstAt O.write_gives out.old listening.now fault out.new) }
{
    let session_handlers = limited_handlers(rt.alloc(), front, seats, 0, READS, watch)?;
    tell(out, listening)?;
    accept_all(rt, listener, session_handlers)
}
