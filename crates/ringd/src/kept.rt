//! Serving by a table that a journal keeps, in a file or in etcd.
ghost use Rattle.std.specs.Prelude.{◌≡◌, ℕ, MatchResult};
ghost use Rattle.ring_lines.specs.Ends.{Wrote};
ghost use Rattle.ringd.specs.private.Run.{IsCauseOf};
ghost use Rattle.ringd.specs.Run.{KeptAt, first_line};

use crate::journal::shared;
use crate::listening::{Places, listen_all};
use crate::loading::load;
use crate::run::say_first;
use crate::sockets::Sockets;
use crate::{journal, replicated};
use ring_accept::{JournalFault, Limits, ProgramFault};
use ring_config::Config;
use ring_etcd::Standing;
use ring_file::Replaces;
use ring_journal::Medium;
use ring_lines::Outlet;
use ring_server::{Metered, Resumed, resume_loop};
use ring_words::JournalAt;
use std::fs::{File, Files};
use std::net::{Net, TcpListener, TcpStream};
use std::random::RandomSource;
use std::sync::Wait;
use std::thread::Threads;
use std::time::Clock;

/// Serves clients as `run` does, by the table that a journal keeps, until the journal fails, another
/// process takes it over, or the process ends.
///
/// The faults, in their order: those of the configuration; those of taking up the journal; a socket
/// or a port cannot be listened on; those of `resume_loop`. If the journal failed since it was
/// taken over, the fault says so.
#[tactic(auto, using(crate::proofs::Causes::kept_unloaded, crate::proofs::Causes::kept_unsaid))]
pub fn run_kept<R, O>(
    rt: &R,
    path: &str,
    at: JournalAt<'_>,
    limits: Limits,
    places: Places<'_>,
    out: &mut O,
) -> Result<(), ProgramFault>
where
    R: Files<File = File>
        + Replaces
        + Eprint
        + Clock
        + AllocGlobal
        + RandomSource
        + Threads
        + Wait
        + Copy
        + Send
        + Sync
        + Drop
        + 'static
        + Net<Stream = TcpStream, Listener = TcpListener>,
    O: Outlet,
    ensures { MatchResult result
        (λ _. (port : ℕ)
        × Wrote O.write_gives out.old (first_line port places.entry.sessions) out.new)
        (λ fault. (port : ℕ)
        × KeptAt O.write_gives out.old (first_line port places.entry.sessions) fault out.new) }
{
    let config = load(rt, path)?;
    let first = say_first(rt.alloc(), config.port, places.sessions)?;
    let mut sockets = Sockets::new(rt.alloc());
    let first = first.as_str();
    let ran = resume_from(rt, &config, limits, places, at, first, &mut sockets, out);
    sockets.remove(rt);
    ran
}

// Takes up a journal, listens at the places, and serves clients there.
#[tactic(auto, using(crate::proofs::Causes::kept_not_over, crate::proofs::Causes::kept_untaken))]
fn resume_from<R, O>(
    rt: &R,
    config: &Config,
    limits: Limits,
    places: Places<'_>,
    at: JournalAt<'_>,
    first: &str,
    sockets: &mut Sockets,
    out: &mut O,
) -> Result<(), ProgramFault>
where
    R: Files<File = File>
        + Replaces
        + Eprint
        + Clock
        + AllocGlobal
        + RandomSource
        + Threads
        + Wait
        + Copy
        + Send
        + Sync
        + Drop
        + 'static
        + Net<Stream = TcpStream, Listener = TcpListener>,
    O: Outlet,
    ensures { MatchResult result
        (λ _. Wrote O.write_gives out.old first.now out.new)
        (λ fault. KeptAt O.write_gives out.old first.now fault out.new) }
{
    match at {
        JournalAt::File(path) => {
            let resumed = journal::take_up(rt, path)?;
            resume_at(rt, config, limits, places, resumed, first, sockets, out)
        }
        JournalAt::Etcd { members, name } => {
            let standing = shared(rt.alloc(), Standing::new())?;
            let resumed = replicated::take_over(rt, members, name, &standing)?;
            let ran = resume_at(rt, config, limits, places, resumed, first, sockets, out);
            match ran {
                Ok(()) => Ok(()),
                Err(fault) => Err(why_ended(fault, &standing)),
            }
        }
    }
}

// Returns the fault of a service: if its journal failed and another process has taken it over, that
// this happened, otherwise the fault as it is.
fn why_ended(fault: ProgramFault, standing: &Standing) -> ProgramFault
    ensures { IsCauseOf fault result }
{
    match fault {
        ProgramFault::Journal(JournalFault::Failed) if standing.is_taken_over() => {
            ProgramFault::Journal(JournalFault::TakenOver)
        }
        fault => fault,
    }
}

// Listens at the places, and serves clients there by a table that was taken up.
#[tactic(auto, using(crate::proofs::Causes::kept_unlistened))]
fn resume_at<R, D, O>(
    rt: &R,
    config: &Config,
    limits: Limits,
    places: Places<'_>,
    resumed: Resumed<Metered<D, R>>,
    first: &str,
    sockets: &mut Sockets,
    out: &mut O,
) -> Result<(), ProgramFault>
where
    R: Files<File = File>
        + Eprint
        + Clock
        + AllocGlobal
        + RandomSource
        + Threads
        + Wait
        + Copy
        + Send
        + Sync
        + Drop
        + 'static
        + Net<Stream = TcpStream, Listener = TcpListener>,
    D: Medium + Send + Sync + Drop + 'static,
    O: Outlet,
    ensures { MatchResult result
        (λ _. Wrote O.write_gives out.old first.now out.new)
        (λ fault. KeptAt O.write_gives out.old first.now fault out.new) }
{
    match listen_all(rt, config.port, places, sockets) {
        Ok((listener, others)) => {
            resume_loop(rt, listener, others, config, limits, resumed, first, out)
        }
        Err(fault) => {
            drop(resumed);
            Err(fault)
        }
    }
}
