//! The members of a cluster, which are asked in turn until one of them answers.
ghost use Rattle.std.specs.Prelude.{◌≡◌, IfOk, OnErr};
ghost use Rattle.ring_etcd.specs.Hearing.{Hears, Reads};

use crate::gateway::{Gateway, NoReply};
use crate::replies::Answer;
use serde_json::Value;
use std::alloc::{AllocError, Global};
use std::net::{Net, SocketAddr, TcpStream, ToSocketAddrs};
use std::time::{Clock, Duration};
use std::{io, thread};

/// How often a request is sent at most.
const ATTEMPTS: u64 = 256;

/// How many milliseconds an attempt waits for a connection, and for each read and write.
const WAIT_MILLIS: u64 = 300;

/// How many milliseconds pass between two attempts, once each member was asked.
const PAUSE_MILLIS: u64 = 50;

/// A request got no reply that answers it. It may have been carried out or not.
#[derive(Clone, Copy)]
pub(crate) struct NoAnswer;

/// The members of a cluster, one of which may be connected. Replies of another cluster are not
/// believed.
#[derive(Drop)]
pub(crate) struct Cluster<R> {
    rt: R,
    members: Vec<String>,
    // the member that is asked next
    at: usize,
    gateway: Option<Gateway<TcpStream>>,
    // the identity of the cluster that answered first; no other one is believed
    identity: Option<u64>,
    // how many replies were heard, by which contracts know a new one, and the text of the last
    heard: u64,
    last: Vec<u8>,
}

impl<R: Net<Stream = TcpStream> + Clock + AllocGlobal + Drop> Cluster<R> {
    /// Returns a cluster of these members, none of them connected. They are HOST:PORT,HOST:PORT and
    /// so on.
    pub(crate) fn new(rt: R, members: &str) -> Result<Cluster<R>, AllocError>
        ensures { IfOk result (λ cluster. cluster.heard ≡ 0) }
    {
        let mut each = Vec::new(rt.alloc());
        for member in members.split(',') {
            each.push(String::from_str(rt.alloc(), member)?)?;
        }
        let last = Vec::new(rt.alloc());
        Ok(Cluster {
            rt,
            members: each,
            at: 0,
            gateway: None,
            identity: None,
            heard: 0,
            last,
        })
    }

    /// Returns the allocator.
    pub(crate) fn alloc(&self) -> Global {
        self.rt.alloc()
    }

    /// Sleeps for so many milliseconds.
    pub(crate) fn pause(&self, millis: u64) {
        thread::sleep(&self.rt, Duration::from_millis(millis));
    }

    /// Sends a request until a member gives a reply in JSON that answers it, 256 times at most.
    ///
    /// A request may be carried out more than once, so it has to be one of which that makes no
    /// difference.
    pub(crate) fn ask<T: Answer + Drop>(&mut self, path: &str, body: &str) -> Result<T, NoAnswer>
        ensures ok { IfOk result (λ answer.
            Hears (λ json. T.says json answer)
            self.old.heard self.new.heard self.new.last.items) }
        ensures err { OnErr result (self.new.heard ≡ self.old.heard) }
    {
        let members = self.members.len() as u64;
        for attempt in 0..ATTEMPTS {
            if attempt > members {
                self.pause(PAUSE_MILLIS);
            }
            let answer = self.ask_once(path, body);
            if answer.is_ok() {
                return answer;
            }
            self.move_on();
        }
        Err(NoAnswer)
    }

    // Sends a request to the member that is next, and hears its reply.
    fn ask_once<T: Answer>(&mut self, path: &str, body: &str) -> Result<T, NoAnswer>
        ensures ok { IfOk result (λ answer.
            Hears (λ json. T.says json answer)
            self.old.heard self.new.heard self.new.last.items) }
        ensures err { OnErr result (self.new.heard ≡ self.old.heard) }
    {
        let Ok(text) = self.reply_to(path, body) else {
            return Err(NoAnswer);
        };
        self.hear(text)
    }

    // Sends a request to the member that is next, and returns the text of its reply. A connection
    // that failed is closed.
    fn reply_to(&mut self, path: &str, body: &str) -> Result<Vec<u8>, NoReply>
        ensures { self.new.heard ≡ self.old.heard }
    {
        let alloc = self.alloc();
        let mut gateway = match self.gateway.take() {
            Some(gateway) => gateway,
            None => self.connect()?,
        };
        let text = gateway.ask(alloc, path, body)?;
        if gateway.is_idle() {
            self.gateway = Some(gateway);
        }
        Ok(text)
    }

    // Keeps the text of a reply if it answers, and returns what it says.
    fn hear<T: Answer>(&mut self, text: Vec<u8>) -> Result<T, NoAnswer>
        ensures ok { IfOk result (λ answer. Hears (λ json. T.says json answer)
            self.old.heard self.new.heard self.new.last.items) }
        ensures err { OnErr result (self.new.heard ≡ self.old.heard) }
    {
        let Some(heard) = self.heard.checked_add(1) else {
            return Err(NoAnswer);
        };
        let answer = self.answer_in(&text);
        if answer.is_ok() {
            self.heard = heard;
            self.last = text;
        }
        answer
    }

    // Returns what the text of a reply says. One of another cluster says nothing.
    fn answer_in<T: Answer>(&mut self, text: &[u8]) -> Result<T, NoAnswer>
        ensures ok { IfOk result (λ answer. Reads (λ json. T.says json answer) text.now) }
        ensures same { self.new.heard ≡ self.old.heard }
    {
        let alloc = self.alloc();
        let Ok(reply) = Value::from_slice(alloc, text) else {
            return Err(NoAnswer);
        };
        if !self.is_of_cluster(&reply) {
            return Err(NoAnswer);
        }
        T::read(alloc, &reply)
    }

    // Whether a reply is from the cluster that answered first.
    fn is_of_cluster(&mut self, reply: &Value) -> bool
        ensures { self.new.heard ≡ self.old.heard }
    {
        let identity = identity_in(reply);
        if self.identity.is_none() {
            self.identity = identity;
        }
        identity.is_some() && identity == self.identity
    }

    // The next member is asked next.
    fn move_on(&mut self)
        ensures { self.new.heard ≡ self.old.heard }
    {
        self.gateway = None;
        self.at = self.at.saturating_add(1);
        if self.at >= self.members.len() {
            self.at = 0;
        }
    }

    // Connects to the member that is next.
    fn connect(&self) -> Result<Gateway<TcpStream>, NoReply> {
        let Some(member) = self.members.get(self.at) else {
            return Err(NoReply);
        };
        let Ok(addresses) = member.as_str().to_socket_addrs(&self.rt) else {
            return Err(NoReply);
        };
        for address in addresses {
            if let Ok(stream) = connected(&self.rt, &address) {
                return Ok(Gateway::new(self.alloc(), stream));
            }
        }
        Err(NoReply)
    }
}

// Connects to an address, with a limit on how long each call waits.
fn connected<R: Net<Stream = TcpStream>>(rt: &R, address: &SocketAddr) -> io::Result<TcpStream> {
    let limit = Duration::from_millis(WAIT_MILLIS);
    let stream = TcpStream::connect_timeout(rt, address, limit)?;
    stream.set_nodelay(true)?;
    stream.set_read_timeout(Some(limit))?;
    stream.set_write_timeout(Some(limit))?;
    Ok(stream)
}

// The identity of the cluster that a reply is from.
fn identity_in(reply: &Value) -> Option<u64> {
    let text = reply.pointer("/header/cluster_id").and_then(Value::as_str)?;
    text.parse().ok()
}
