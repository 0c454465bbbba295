//! Serves clients by a table that goes on after a restart, until its journal fails.
ghost use Rattle.std.specs.Prelude.{◌≡◌, All, IfErr, IfOk, MatchResult};
ghost use Rattle.ring_lines.specs.Ends.{Wrote};
ghost use Rattle.ring_server.specs.Faults.{IsOfStart};
ghost use Rattle.ring_server.specs.Resuming.{ResumedAt};
ghost use Rattle.ring_server.specs.Running.{FirstOrNone};
ghost use Rattle.ring_server.specs.private.Faults.{start_told_as};
ghost use Rattle.ring_server.specs.private.Resuming.{IsOfEnd};

use crate::crowd::Others;
use crate::handshake::Handshake;
use crate::resumed::Resumed;
use crate::running::watch_of;
use crate::server::Server;
use crate::watching::Watch;
use ring_accept::{JournalFault, Limits, ProgramFault, tell};
use ring_any::Any;
use ring_config::Config;
use ring_journal::Medium;
use ring_lines::Outlet;
use ring_recovery::{Alarm, Ending};
use ring_service::StartFault;
use ring_table::Tabled;
use std::alloc::Global;
use std::fs::{File, Files};
use std::net::{OpenListener, TcpStream};
use std::sync::{Arc, Wait};
use std::thread;
use std::thread::{JoinHandle, Threads};
use std::time::Clock;

/// Makes the service over a table that was recovered, and begins its running terms again. Prints
/// the line `listening`, and serves clients as `run_loop` does, until the process ends or the
/// journal fails.
///
/// If there is a listener for campaigns, all members of the life before are taken out first. None
/// of their connections is left.
///
/// If the journal fails, no more replies go out, and the fault is returned at once. The threads are
/// not joined then, and end with the process. If the service could not begin, the fault is that of
/// `run_loop`.
pub fn resume_loop<R, L, D, O>(
    rt: &R,
    listener: L,
    others: Others<L>,
    config: &Config,
    limits: Limits,
    resumed: Resumed<D>,
    listening: &str,
    out: &mut O,
) -> Result<(), ProgramFault>
where
    R: Threads
        + Wait
        + AllocGlobal
        + Eprint
        + Clock
        + Files<File = File>
        + Copy
        + Send
        + Sync
        + Drop
        + 'static,
    L: OpenListener<Stream = TcpStream> + Send + Drop + 'static,
    D: Medium + Send + Sync + Drop + 'static,
    O: Outlet,
    ensures { MatchResult result
        (λ _. Wrote O.write_gives out.old listening.now out.new)
        (λ fault. ResumedAt O.write_gives out.old listening.now fault out.new) }
{
    let Started {
        thread,
        handshake,
        alarm,
    } = start_over(rt, listener, others, *config, limits, resumed)?;
    match begin(rt, &handshake, listening, out) {
        Ok(()) => wait_for_end(rt, &alarm, thread),
        Err(fault) => {
            thread.join(rt);
            Err(fault)
        }
    }
}

// The thread that serves, and what this one shares with it.
#[derive(Drop)]
struct Started {
    thread: JoinHandle<bool>,
    handshake: Arc<Handshake>,
    alarm: Arc<Alarm>,
}

// Starts the thread that serves by a table that was recovered.
fn start_over<R, L, D>(
    rt: &R,
    listener: L,
    others: Others<L>,
    config: Config,
    limits: Limits,
    resumed: Resumed<D>,
) -> Result<Started, ProgramFault>
where
    R: Threads
        + Wait
        + AllocGlobal
        + Eprint
        + Clock
        + Files<File = File>
        + Copy
        + Send
        + Sync
        + Drop
        + 'static,
    L: OpenListener<Stream = TcpStream> + Send + Drop + 'static,
    D: Medium + Send + Sync + Drop + 'static,
    ensures { IfErr result IsOfStart }
{
    let handles = make_handles(rt, limits, &others, &resumed)?;
    let Resumed {
        table,
        charters,
        alarm,
        life,
        meter: _,
    } = resumed;
    let server = Server {
        listener,
        others,
        config,
        limits,
        table,
        charters,
        base: life.base(),
        handshake: handles.theirs,
        bell: handles.bell,
        watch: handles.watch,
    };
    let thread = start(rt, server)?;
    Ok(Started {
        thread,
        handshake: handles.handshake,
        alarm,
    })
}

// What the thread that serves shares with other threads, a handle for each.
#[derive(Drop)]
struct Handles {
    // one handle for the thread that waits, one for the thread that serves
    handshake: Arc<Handshake>,
    theirs: Arc<Handshake>,
    bell: Arc<Alarm>,
    watch: Arc<Watch>,
}

// Returns the handles of a service over a table that was recovered. Its watch has noted the groups
// of the table, and counts its journal.
fn make_handles<R: Files<File = File> + AllocGlobal, L: Drop, D: Medium + Drop>(
    rt: &R,
    limits: Limits,
    others: &Others<L>,
    resumed: &Resumed<D>,
) -> Result<Handles, ProgramFault>
    ensures { IfErr result (λ fault. fault ≡ ProgramFault.NoMemory) }
{
    let alloc = rt.alloc();
    let (handshake, theirs) = handshakes(alloc)?;
    let bell = Arc::try_clone(&resumed.alarm)?;
    let meter = Arc::try_clone(&resumed.meter)?;
    let watch = watch_of(rt, alloc, limits, others)?.with_groups(alloc, resumed.table.book())?;
    Ok(Handles {
        handshake,
        theirs,
        bell,
        watch: watch.with_journal(meter).shared(alloc)?,
    })
}

// Returns a handshake: one handle for the thread that waits, one for the thread that serves.
fn handshakes(alloc: Global) -> Result<(Arc<Handshake>, Arc<Handshake>), ProgramFault>
    ensures { IfErr result (λ fault. fault ≡ ProgramFault.NoMemory) }
{
    let Ok(handshake) = Arc::new(alloc, Handshake::new()) else {
        return Err(ProgramFault::NoMemory);
    };
    let theirs = Arc::try_clone(&handshake)?;
    Ok((handshake, theirs))
}

// Starts the thread that serves. Its result is whether all its own threads were started.
fn start<R, L, T>(rt: &R, server: Server<L, T>) -> Result<JoinHandle<bool>, ProgramFault>
where
    R: Threads + Wait + AllocGlobal + Eprint + Clock + Copy + Send + Sync + Drop + 'static,
    L: OpenListener<Stream = TcpStream> + Send + Drop + 'static,
    T: Tabled<Any> + Send + Sync + Drop + 'static,
    ensures { IfErr result (λ fault. fault ≡ ProgramFault.Thread) }
{
    let rt = *rt;
    match thread::spawn(&rt, move || server.run(&rt)) {
        Ok(thread) => Ok(thread),
        Err(refused) => {
            drop(refused);
            Err(ProgramFault::Thread)
        }
    }
}

// Waits until the service is open, prints that it listens, and lets it serve.
fn begin<R: Wait, O: Outlet>(
    rt: &R,
    handshake: &Handshake,
    listening: &str,
    out: &mut O,
) -> Result<(), ProgramFault>
    ensures { MatchResult result
        (λ _. Wrote O.write_gives out.old listening.now out.new)
        (λ fault. FirstOrNone O.write_gives out.old listening.now fault out.new) }
{
    match handshake.wait_open(rt) {
        Ok(()) => {
            let told = tell(out, listening);
            handshake.answer(rt, told.is_ok());
            told
        }
        Err(StartFault::NoMemory) => Err(ProgramFault::NoMemory),
        Err(StartFault::Thread) => Err(ProgramFault::Thread),
    }
}

// Waits until the alarm is rung. Fails if the journal failed, or as `joined` does.
fn wait_for_end<R: Threads + Wait>(
    rt: &R,
    alarm: &Alarm,
    thread: JoinHandle<bool>,
) -> Result<(), ProgramFault>
    ensures { IfErr result IsOfEnd }
{
    match alarm.wait(rt) {
        Ending::Failed => Err(ProgramFault::Journal(JournalFault::Failed)),
        Ending::Stopped => joined(rt, thread),
    }
}

// Waits for the thread that served. Fails if one of its threads could not be started.
fn joined<R: Threads>(rt: &R, thread: JoinHandle<bool>) -> Result<(), ProgramFault>
    ensures { IfErr result (λ fault. fault ≡ ProgramFault.Thread) }
{
    if thread.join(rt) {
        Ok(())
    } else {
        Err(ProgramFault::Thread)
    }
}
