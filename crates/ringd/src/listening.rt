//! Listeners: on a port of this machine, or on a socket in the file system.
ghost use Rattle.std.specs.Prelude.{◌≡◌, IfErr, MatchOption, MatchResult, Ok, Err};
ghost use Rattle.ring_words.specs.declared.places.Place.TheVariants.{Path, Port};
ghost use Rattle.ringd.specs.Run.{IsOfListening};

use crate::sockets::Sockets;
use ring_accept::ProgramFault;
use ring_server::{Others, Web};
use ring_words::Place;
use std::fs::{File, Files};
use std::hash::RandomState;
use std::io;
use std::net::{Ipv4Addr, Net, OpenListener, SocketAddr, TcpListener, TcpStream};
use std::os::fd::OwnedFd;
use std::os::unix::net::UnixListener;
use std::random::RandomSource;

/// A listener on a port, or on a socket in the file system.
#[derive(Drop)]
pub enum Listener {
    /// A listener on a port.
    Port(TcpListener),
    /// A listener on a socket in the file system.
    Path(UnixListener),
}

impl OpenListener for Listener {
    type Stream = TcpStream;

    /// Accepts a client. A stream over a socket in the file system is read, written and timed as
    /// one over a port is, so it has the same type. Its client has no address.
    fn accept(&self) -> io::Result<(TcpStream, SocketAddr)> {
        match self {
            Listener::Port(listener) => listener.accept(),
            Listener::Path(listener) => {
                let (stream, _) = listener.accept()?;
                let nowhere = SocketAddr::from((Ipv4Addr::UNSPECIFIED, 0));
                Ok((TcpStream::from(OwnedFd::from(stream)), nowhere))
            }
        }
    }
}

/// The places at which clients are served.
#[derive(Clone, Copy)]
pub struct Places<'a> {
    /// The path of the socket for sessions, if there is one in place of the port.
    pub sessions: Option<&'a str>,
    /// The place for campaigns, if they are served.
    pub campaigns: Option<Place<'a>>,
    /// The place for HTTP, if it is served.
    pub web: Option<Place<'a>>,
    /// The mode of each socket.
    pub mode: u32,
}

/// Listens for sessions, and for campaigns and HTTP if there are places for them. Sessions have
/// this port if no path is given for them. Notes the sockets that were made in the file system.
pub fn listen_all<R>(
    rt: &R,
    port: u16,
    places: Places<'_>,
    sockets: &mut Sockets,
) -> Result<(Listener, Others<Listener>), ProgramFault>
where
    R: Files<File = File>
        + RandomSource
        + AllocGlobal
        + Net<Stream = TcpStream, Listener = TcpListener>,
    ensures { IfErr result IsOfListening }
{
    let place = place_or(places.sessions, port);
    let listener = listen(rt, place, places.mode, sockets)?;
    match listen_others(rt, places, sockets) {
        Ok(others) => Ok((listener, others)),
        Err(fault) => {
            drop(listener);
            Err(fault)
        }
    }
}

// Listens for campaigns and HTTP, if there are places for them.
fn listen_others<R>(
    rt: &R,
    places: Places<'_>,
    sockets: &mut Sockets,
) -> Result<Others<Listener>, ProgramFault>
where
    R: Files<File = File>
        + RandomSource
        + AllocGlobal
        + Net<Stream = TcpStream, Listener = TcpListener>,
    ensures { IfErr result IsOfListening }
{
    let campaigns = listen_if(rt, places.campaigns, places.mode, sockets)?;
    match listen_for_web(rt, places.web, places.mode, sockets) {
        Ok(web) => Ok(Others { campaigns, web }),
        Err(fault) => {
            drop(campaigns);
            Err(fault)
        }
    }
}

/// Returns the place for sessions: the socket at this path if there is one, otherwise this port.
pub fn place_or(path: Option<&str>, port: u16) -> Place<'_>
    ensures { MatchOption path.entry (result ≡ Port port) (λ path. result ≡ Path path) }
{
    match path {
        Some(path) => Place::Path(path),
        None => Place::Port(port),
    }
}

// Listens for HTTP, if there is a place for it. Fails too if there are no random numbers.
fn listen_for_web<R>(
    rt: &R,
    place: Option<Place<'_>>,
    mode: u32,
    sockets: &mut Sockets,
) -> Result<Option<Web<Listener>>, ProgramFault>
where
    R: Files<File = File>
        + RandomSource
        + AllocGlobal
        + Net<Stream = TcpStream, Listener = TcpListener>,
    ensures { IfErr result IsOfListening }
{
    match listen_if(rt, place, mode, sockets)? {
        Some(listener) => match RandomState::new(rt) {
            Ok(keys) => Ok(Some(Web { listener, keys })),
            Err(_) => {
                drop(listener);
                Err(ProgramFault::Listen)
            }
        },
        None => Ok(None),
    }
}

// Listens at a place, if there is one.
fn listen_if<R>(
    rt: &R,
    place: Option<Place<'_>>,
    mode: u32,
    sockets: &mut Sockets,
) -> Result<Option<Listener>, ProgramFault>
where
    R: Files<File = File> + AllocGlobal + Net<Stream = TcpStream, Listener = TcpListener>,
    ensures { IfErr result IsOfListening }
{
    match place {
        Some(place) => Ok(Some(listen(rt, place, mode, sockets)?)),
        None => Ok(None),
    }
}

/// Listens at a place. A socket has this mode, and is noted.
pub fn listen<R>(
    rt: &R,
    place: Place<'_>,
    mode: u32,
    sockets: &mut Sockets,
) -> Result<Listener, ProgramFault>
where
    R: Files<File = File> + AllocGlobal + Net<Stream = TcpStream, Listener = TcpListener>,
    ensures { IfErr result IsOfListening }
{
    match place {
        Place::Port(port) => Ok(Listener::Port(listen_on(rt, port)?)),
        Place::Path(path) => Ok(Listener::Path(sockets.bind(rt, path, mode)?)),
    }
}

// Listens on a port of this machine alone.
fn listen_on<R: Net>(rt: &R, port: u16) -> Result<R::Listener, ProgramFault>
    ensures { IfErr result (λ fault. fault ≡ ProgramFault.Listen) }
{
    listening(rt.bind(SocketAddr::from((Ipv4Addr::LOCALHOST, port))))
}

// Returns the listener, or a fault exactly if it could not be bound.
fn listening<L: Drop>(bound: io::Result<L>) -> Result<L, ProgramFault>
    ensures { MatchResult bound (λ listener. result ≡ Ok listener)
        (λ _. result ≡ Err ProgramFault.Listen) }
{
    match bound {
        Ok(listener) => Ok(listener),
        Err(_) => Err(ProgramFault::Listen),
    }
}
