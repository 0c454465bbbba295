//! The orders of the command line: standard streams, the configuration's file and the listeners.
ghost use Rattle.std.specs.Prelude.{◌≡◌, ◌++◌, ◌⊎◌, ℕ, List, IfErr, IfOk, MatchResult, string_bytes};
ghost use Rattle.ring_lines.specs.Ends.{Wrote, WroteFront};
ghost use Rattle.ring_accept.specs.Telling.{closed_line};
ghost use Rattle.ringd.specs.private.Run.{Replayed};
ghost use Rattle.ringd.specs.Run.{IsOfLines, RanAt, ServedAt, first_line};

use crate::listening::{Places, listen, listen_all, place_or};
use crate::loading::load;
use crate::sockets::Sockets;
use ring_accept::{Limits, ProgramFault, say_listening, say_listening_at, tell};
use ring_config::Config;
use ring_lines::{FromRead, Intake, Outlet, ToWrite};
use ring_server::{accept_loop, run_loop};
use ring_words::Place;
use std::alloc::Global;
use std::fs::{File, Files};
use std::net::{Net, TcpListener, TcpStream};
use std::random::RandomSource;
use std::sync::Wait;
use std::thread::Threads;
use std::time::Clock;

// the most read calls before the input counts as endless
const READS: u32 = 1_000_000_000;

/// Answers each line of standard input by one line on standard output, to the end of the input.
///
/// The faults are those of `ring_schedule::replay`: a failed read, a failed write, endless input,
/// or a failed allocation before the first read.
pub fn replay(rt: &(impl Input + Print + AllocGlobal)) -> Result<(), ProgramFault>
    ensures { IfErr result IsOfLines }
{
    let mut reader = FromRead(rt.reader());
    let mut writer = ToWrite(std::io::writer(rt));
    replay_ends(rt.alloc(), &mut reader, &mut writer)
}

// Answers the lines of any reader to any writer.
fn replay_ends<I: Intake, O: Outlet>(
    alloc: Global,
    reader: &mut I,
    writer: &mut O,
) -> Result<(), ProgramFault>
    ensures { Replayed (record { gives = I.read_gives; from = reader.old; to = reader.new })
        (record { gives = O.write_gives; from = writer.old; to = writer.new }) 1000000000 result }
{
    match ring_schedule::replay(alloc, reader, writer, READS) {
        Ok(_) => Ok(()),
        Err(fault) => Err(ProgramFault::from(fault)),
    }
}

/// Prints the version, which is clap's text in this error.
pub fn tell_version<O: Outlet>(
    alloc: Global,
    version: &clap::Error,
    out: &mut O,
) -> Result<(), ProgramFault>
    ensures { MatchResult result
        (λ _. (text : List ℕ) × Wrote O.write_gives out.old text out.new)
        (λ fault. ((fault ≡ ProgramFault.NoMemory) × (out.new ≡ out.old))
        ⊎ ((fault ≡ ProgramFault.Write)
        × ((text : List ℕ) × WroteFront O.write_gives out.old text out.new))) }
{
    let Ok(text) = version.to_string(alloc) else {
        return Err(ProgramFault::NoMemory);
    };
    tell(out, text.as_str())
}

/// Serves `connections` clients of this machine: on a socket at this path if there is one,
/// otherwise at the port of the configuration in this file. The socket has this mode, and is
/// removed at the end.
///
/// The faults, in their order: the file is unreadable, is too long or spells no configuration; the
/// socket or the port cannot be listened on; those of `accept_loop`.
#[tactic(auto, using(crate::proofs::Causes::served_unloaded, crate::proofs::Causes::served_unsaid))]
pub fn serve<R, O>(
    rt: &R,
    path: &str,
    connections: u32,
    socket: Option<&str>,
    mode: u32,
    out: &mut O,
) -> Result<(), ProgramFault>
where
    R: Files<File = File>
        + Clock
        + AllocGlobal
        + Threads
        + Wait
        + Copy
        + Send
        + Sync
        + Drop
        + 'static
        + Net<Stream = TcpStream, Listener = TcpListener>,
    O: Outlet,
    ensures { MatchResult result
        (λ _. (port : ℕ) × Wrote O.write_gives out.old
        (first_line port socket.entry ++ closed_line connections) out.new)
        (λ fault.
        (port : ℕ) × ServedAt O.write_gives out.old (first_line port socket.entry)
        (closed_line connections) fault out.new) }
{
    let config = load(rt, path)?;
    let first = say_first(rt.alloc(), config.port, socket)?;
    let mut sockets = Sockets::new(rt.alloc());
    let first = first.as_str();
    let place = place_or(socket, config.port);
    let served = serve_at(
        rt,
        &config,
        connections,
        place,
        mode,
        first,
        &mut sockets,
        out,
    );
    sockets.remove(rt);
    served
}

// Listens at a place, and serves `connections` clients there.
#[tactic(auto, using(crate::proofs::Causes::served_unlistened))]
fn serve_at<R, O>(
    rt: &R,
    config: &Config,
    connections: u32,
    place: Place<'_>,
    mode: u32,
    first: &str,
    sockets: &mut Sockets,
    out: &mut O,
) -> Result<(), ProgramFault>
where
    R: Files<File = File>
        + Clock
        + AllocGlobal
        + Threads
        + Wait
        + Copy
        + Send
        + Sync
        + Drop
        + 'static
        + Net<Stream = TcpStream, Listener = TcpListener>,
    O: Outlet,
    ensures { MatchResult result
        (λ _. Wrote O.write_gives out.old (first.now ++ closed_line connections) out.new)
        (λ fault. ServedAt O.write_gives out.old first.now (closed_line connections) fault
        out.new) }
{
    let listener = listen(rt, place, mode, sockets)?;
    accept_loop(rt, listener, config, connections, first, out)
}

/// Serves clients of this machine until the process ends. Sessions are served on the socket of
/// `places` if it has one, otherwise at the port of the configuration in this file. If there are
/// places for campaigns and for HTTP, serves those there. If it returns, the sockets are removed.
///
/// The faults, in their order: the file is unreadable, is too long or spells no configuration; a
/// socket or a port cannot be listened on; those of `run_loop`.
#[tactic(auto, using(crate::proofs::Causes::ran_unloaded, crate::proofs::Causes::ran_unsaid))]
pub fn run<R, O>(
    rt: &R,
    path: &str,
    limits: Limits,
    places: Places<'_>,
    out: &mut O,
) -> Result<(), ProgramFault>
where
    R: Files<File = File>
        + Eprint
        + Clock
        + AllocGlobal
        + RandomSource
        + Threads
        + Wait
        + Copy
        + Send
        + Sync
        + Drop
        + 'static
        + Net<Stream = TcpStream, Listener = TcpListener>,
    O: Outlet,
    ensures { MatchResult result
        (λ _. (port : ℕ)
        × Wrote O.write_gives out.old (first_line port places.entry.sessions) out.new)
        (λ fault. (port : ℕ)
        × RanAt O.write_gives out.old (first_line port places.entry.sessions) fault out.new) }
{
    let config = load(rt, path)?;
    let first = say_first(rt.alloc(), config.port, places.sessions)?;
    let mut sockets = Sockets::new(rt.alloc());
    let ran = run_at(
        rt,
        &config,
        limits,
        places,
        first.as_str(),
        &mut sockets,
        out,
    );
    sockets.remove(rt);
    ran
}

// Listens at the places, and serves clients there until the process ends.
#[tactic(auto, using(crate::proofs::Causes::ran_unlistened))]
fn run_at<R, O>(
    rt: &R,
    config: &Config,
    limits: Limits,
    places: Places<'_>,
    first: &str,
    sockets: &mut Sockets,
    out: &mut O,
) -> Result<(), ProgramFault>
where
    R: Files<File = File>
        + Eprint
        + Clock
        + AllocGlobal
        + RandomSource
        + Threads
        + Wait
        + Copy
        + Send
        + Sync
        + Drop
        + 'static
        + Net<Stream = TcpStream, Listener = TcpListener>,
    O: Outlet,
    ensures { MatchResult result
        (λ _. Wrote O.write_gives out.old first.now out.new)
        (λ fault. RanAt O.write_gives out.old first.now fault out.new) }
{
    let (listener, others) = listen_all(rt, config.port, places, sockets)?;
    run_loop(rt, listener, others, config, limits, first, out)
}

/// Returns the first line of a service for sessions: with the path of its socket if there is one,
/// otherwise with its port.
pub(crate) fn say_first(
    alloc: Global,
    port: u16,
    socket: Option<&str>,
) -> Result<String, ProgramFault>
    ensures line { IfOk result (λ line. string_bytes line ≡ first_line port socket.entry) }
    ensures fault { IfErr result (λ fault. fault ≡ ProgramFault.NoMemory) }
{
    let line = match socket {
        Some(path) => say_listening_at(alloc, path),
        None => say_listening(alloc, port),
    };
    Ok(line?)
}
