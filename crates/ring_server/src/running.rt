//! Serves clients until the process ends, `sessions` at a time.
ghost use Rattle.std.specs.Prelude.{◌≡◌, ◌≤◌, ◌^◌, All, IfErr, MatchResult};
ghost use Rattle.ring_lines.specs.Ends.{Wrote};
ghost use Rattle.ring_server.specs.Running.{FirstOrNone};

use crate::counting::Heeded;
use crate::crowd::{Others, gather};
use crate::hosting::CampaignHandler;
use crate::sessions;
use crate::sessions::{Front, Seat, SessionHandler};
use crate::viewing::Viewer;
use crate::watching::Watch;
use ring_accept::{Entrance, Limits, ProgramFault, attend, tell};
use ring_any::Any;
use ring_config::Config;
use ring_lines::Outlet;
use ring_table::{Recorded, Tabled, Unkept};
use std::alloc::{AllocError, Global};
use std::fs::{File, Files};
use std::net::{OpenListener, TcpStream};
use std::sync::{Arc, Mutex, Wait};
use std::thread::Threads;
use std::time::Clock;

// The table. Its history is not kept, so that questions do not fill the memory.
type Forgetful = Recorded<Any, Unkept<Any>>;

/// Makes the service, prints the line `listening`, and serves clients until the process ends.
///
/// `sessions` threads accept one client after another, so a further client waits until a session
/// has ended. Each thread has a seat of the table for its sessions. If the seat is spent, a spare
/// seat takes its place. Sessions are numbered from 1 in the order of their accepts, and from 1
/// again after 4294967295. A session's fault ends that session alone.
///
/// The first failed accept, for want of a descriptor or of memory, is reported on standard error. A
/// failed accept is tried again after 100 ms. If there are listeners for campaigns or for HTTP, as
/// many threads accept those there, with seats of their own.
///
/// It returns only if it could not begin: an allocation or a write failed, or a thread could not be
/// started.
pub fn run_loop<R, L, O>(
    rt: &R,
    listener: L,
    others: Others<L>,
    config: &Config,
    limits: Limits,
    listening: &str,
    out: &mut O,
) -> Result<(), ProgramFault>
where
    R: Threads
        + Wait
        + AllocGlobal
        + Eprint
        + Clock
        + Files<File = File>
        + Copy
        + Send
        + Sync
        + Drop
        + 'static,
    L: OpenListener<Stream = TcpStream> + Send + Drop,
    O: Outlet,
    ensures { MatchResult result
        (λ _. Wrote O.write_gives out.old listening.now out.new)
        (λ fault. FirstOrNone O.write_gives out.old listening.now fault out.new) }
{
    let alloc = rt.alloc();
    let table: Forgetful = Recorded::new(alloc, Unkept::new(alloc));
    run_over(rt, table, listener, others, config, limits, listening, out)
}

// Makes the service over a table without groups, and serves. It is for any table, as no proof spells
// out the table's type then.
fn run_over<R, L, T, O>(
    rt: &R,
    table: T,
    listener: L,
    others: Others<L>,
    config: &Config,
    limits: Limits,
    listening: &str,
    out: &mut O,
) -> Result<(), ProgramFault>
where
    R: Threads
        + Wait
        + AllocGlobal
        + Eprint
        + Clock
        + Files<File = File>
        + Copy
        + Send
        + Sync
        + Drop
        + 'static,
    L: OpenListener<Stream = TcpStream> + Send + Drop,
    T: Tabled<Any> + Send + Sync + Drop + 'static,
    O: Outlet,
    requires { T.most ≤ 2 ^ 64 }
    ensures { MatchResult result
        (λ _. Wrote O.write_gives out.old listening.now out.new)
        (λ fault. FirstOrNone O.write_gives out.old listening.now fault out.new) }
{
    let alloc = rt.alloc();
    let watch = watch_of(rt, alloc, limits, &others)?.shared(alloc)?;
    let seats = others.seats_for(limits.sessions);
    let (service, seats) = sessions::open_watched(rt, config, seats, table, &watch)?;
    let front = sessions::front(&service);
    let begun = begin(
        rt, front, &watch, listener, others, listening, seats, limits, out,
    );
    let _ = sessions::close(rt, service);
    begun
}

// Prints that it listens, and lets the threads serve.
fn begin<R, L, T, O>(
    rt: &R,
    front: &Front<T>,
    watch: &Watch,
    listener: L,
    others: Others<L>,
    listening: &str,
    seats: Vec<Seat<T>>,
    limits: Limits,
    out: &mut O,
) -> Result<(), ProgramFault>
where
    R: Threads + Wait + AllocGlobal + Eprint + Clock + Sync,
    L: OpenListener<Stream = TcpStream> + Send + Drop,
    T: Tabled<Any> + Send + Sync + Drop + 'static,
    O: Outlet,
    requires seats { All (λ seat. seat.lock ≡ front.now.id) seats.items }
    requires base { T.most ≤ 2 ^ 64 }
    ensures { MatchResult result
        (λ _. Wrote O.write_gives out.old listening.now out.new)
        (λ fault. FirstOrNone O.write_gives out.old listening.now fault out.new) }
{
    let crowd = gather(rt.alloc(), front, seats, 0, limits.idle, &others, watch)?;
    tell(out, listening)?;
    crowd.serve(rt, listener, others, limits)
}

/// Returns the watch of a service without groups, with these limits and listeners.
pub(crate) fn watch_of<R: Files<File = File>, L: Drop>(
    rt: &R,
    alloc: Global,
    limits: Limits,
    others: &Others<L>,
) -> Result<Watch, AllocError> {
    let watch = Watch::new(alloc, limits.sessions)?;
    let watch = watch.with_campaigns(others.campaigns.is_some());
    Ok(watch.with_memory(rt))
}

/// Lets the session handlers, campaign handlers and viewers of a table serve, each at their own
/// entrance.
pub(crate) fn seat<'a, 'b, R, L, T>(
    rt: &'a R,
    first: Entrance<'a, Heeded<'b, L>, SessionHandler<'b, T>>,
    second: Entrance<'a, Heeded<'b, L>, CampaignHandler<'b, T>>,
    third: Entrance<'a, Heeded<'b, L>, Viewer<'b, T>>,
    limits: Limits,
) -> Result<(), ProgramFault>
where
    R: Threads + Wait + Eprint + Clock + Sync,
    L: OpenListener<Stream = TcpStream> + Send + Drop,
    T: Tabled<Any> + Send + Sync + Drop,
    ensures { IfErr result (λ fault. fault ≡ ProgramFault.Thread) }
{
    attend(rt, first, second, third, limits)
}
