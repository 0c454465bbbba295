//! A connection to a service.
ghost use Rattle.std.specs.Fn.{FnReturnsAt};
ghost use Rattle.ringctl.specs.private.Firsts.{IsFirst};

use crate::addresses::path_of;
use crate::fault::Fault;
use crate::reply::{Reply, reply_in};
use std::alloc::Global;
use std::io::{self, BufRead, BufReader, ErrorKind, Read, Write};
use std::net::{Net, TcpStream, ToSocketAddrs};
use std::os::fd::OwnedFd;
use std::os::unix::net::UnixStream;
use std::time::Duration;

// The time limit of a connection, a write and a read, in seconds.
const PATIENCE: u64 = 10;

// The most bytes of a reply with its LF. The longest reply of a service has 22000.
const LONGEST: u64 = 65536;

/// A connection to a service, over which one line after another is sent.
#[derive(Drop)]
pub struct Client<S: Drop> {
    alloc: Global,
    reader: BufReader<S>,
    request: String,
    reply: String,
}

impl Client<TcpStream> {
    /// Connects to the first of these addresses that accepts a connection: each is `HOST:PORT` or
    /// `unix:PATH`. Tries each address of a host. Fails with `NoService` if none can be connected
    /// to, and with `NoMemory` if an allocation fails.
    pub fn reach<R>(rt: &R, addresses: &[&str]) -> Result<Client<TcpStream>, Fault>
    where
        R: AllocGlobal + Net<Stream = TcpStream>,
    {
        let reached = first_of(addresses, |address: &str| connect_at(rt, address));
        let Some(stream) = reached else {
            return Err(Fault::NoService);
        };
        let patience = Duration::from_secs(PATIENCE);
        let _ = stream.set_nodelay(true);
        let _ = stream.set_read_timeout(Some(patience));
        let _ = stream.set_write_timeout(Some(patience));
        Client::over(rt.alloc(), stream)
    }

    /// Sets how long `hear` waits for a reply, in milliseconds. Fails with `NoService` if the
    /// system refuses it.
    pub fn wait_for(&mut self, pace: u64) -> Result<(), Fault> {
        let pace = Some(Duration::from_millis(pace));
        match self.reader.get_ref().set_read_timeout(pace) {
            Ok(()) => Ok(()),
            Err(_) => Err(Fault::NoService),
        }
    }
}

impl<S: Read + Write + Drop> Client<S> {
    /// Returns a client over this stream. Fails only if an allocation fails.
    pub fn over(alloc: Global, stream: S) -> Result<Client<S>, Fault> {
        let Ok(reader) = BufReader::new(alloc, stream) else {
            return Err(Fault::NoMemory);
        };
        Ok(Client {
            alloc,
            reader,
            request: String::new(alloc),
            reply: String::new(alloc),
        })
    }

    /// Sends a line, given in two parts and without its LF, and returns its reply.
    pub fn ask(&mut self, word: &str, others: &str) -> Result<Reply<'_>, Fault> {
        self.send(word, others)?;
        self.reply.clear();
        match self.hear()? {
            Some(reply) => Ok(reply),
            None => Err(Fault::NoService),
        }
    }

    /// Sends a line as `ask` does, and returns the line of the reply. A refusal is a fault.
    pub fn demand(&mut self, word: &str, others: &str) -> Result<&str, Fault> {
        let alloc = self.alloc;
        match self.ask(word, others)? {
            Reply::Done(reply) => Ok(reply),
            Reply::Refused(word) => Err(Fault::refused(alloc, word)),
        }
    }

    /// Returns the next reply, or `None` if it has not come within the time limit of a read. The
    /// part of a line that has come is kept for the next call.
    pub fn hear(&mut self) -> Result<Option<Reply<'_>>, Fault> {
        if self.reply.ends_with('\n') {
            self.reply.clear();
        }
        if let Err(error) = read_bounded(&mut self.reader, &mut self.reply) {
            return match error.kind() {
                ErrorKind::WouldBlock => Ok(None),
                _ => Err(Fault::NoService),
            };
        }
        match self.reply.as_str().strip_suffix('\n').and_then(reply_in) {
            Some(reply) => Ok(Some(reply)),
            None => Err(Fault::NoService),
        }
    }

    /// Sends a line by one write, given in two parts and without its LF.
    pub fn send(&mut self, word: &str, others: &str) -> Result<(), Fault> {
        self.request.clear();
        self.request.push_str(word)?;
        self.request.push_str(others)?;
        self.request.push('\n')?;
        match self.reader.get_mut().write_all(self.request.as_bytes()) {
            Ok(()) => Ok(()),
            Err(_) => Err(Fault::NoService),
        }
    }
}

// Returns the first thing that `connect` gives for these addresses, which are tried in their order.
fn first_of<T: Drop, F: Fn(&str) -> Option<T>>(addresses: &[&str], connect: F) -> Option<T>
    requires { F.IsAlwaysCallable connect }
    ensures { IsFirst (λ address given. FnReturnsAt F.Fn connect address.now given) addresses.now
        result }
{
    for address in addresses {
        if let Some(given) = connect(address) {
            return Some(given);
        }
    }
    None
}

// Connects to the port or the socket at an address.
fn connect_at<R: Net<Stream = TcpStream>>(rt: &R, address: &str) -> Option<TcpStream> {
    match path_of(address) {
        Some(path) => connect_to(rt, path),
        None => connect(rt, address),
    }
}

// Connects to the first address of `HOST:PORT` that answers.
fn connect<R: Net<Stream = TcpStream>>(rt: &R, address: &str) -> Option<TcpStream> {
    let Ok(addresses) = address.to_socket_addrs(rt) else {
        return None;
    };
    for address in addresses {
        let patience = Duration::from_secs(PATIENCE);
        if let Ok(stream) = TcpStream::connect_timeout(rt, &address, patience) {
            return Some(stream);
        }
    }
    None
}

// Connects to the socket at a path. Its stream is read, written and timed as one to a port is, so
// it has the same type.
fn connect_to<R: Net>(rt: &R, path: &str) -> Option<TcpStream> {
    match UnixStream::connect(rt, path) {
        Ok(stream) => Some(TcpStream::from(OwnedFd::from(stream))),
        Err(_) => None,
    }
}

// Reads a line with its LF, or its first `LONGEST` bytes if it is longer.
fn read_bounded<R: BufRead>(reader: &mut R, line: &mut String) -> io::Result<usize> {
    reader.take(LONGEST).read_line(line)
}
