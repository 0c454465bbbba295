//! Requests to the JSON gateway of etcd, over one connection.
ghost use Rattle.std.specs.Prelude.{◌≡◌, ◌≤◌, ◌+◌, ◌++◌, length, List, ℕ, OnOk};
ghost use Rattle.std.specs.Io.KnownBytes.{Appends};
ghost use Rattle.ring_etcd.specs.private.Http.{request_text};

use bytes::{Buf, BytesMut};
use http1::{BodySize, Client, Event, Header, Limits};
use httparse::spans::EMPTY_HEADER_SPAN;
use std::alloc::Global;
use std::io::{Read, Write};

/// How many bytes the body of a reply has at most.
pub(crate) const LONGEST_REPLY: usize = 1 << 24;

/// The greatest number of bytes that are read at a time.
const PIECE: usize = 65536;

/// A request got no reply that can be read: the connection failed, or the reply was no reply of
/// HTTP, was too long, or had another status than 200.
#[derive(Clone, Copy)]
pub(crate) struct NoReply;

// What a step of reading a reply came to.
#[derive(Clone, Copy)]
enum Step {
    // bytes were read or are to be read
    Goes,
    // the body is whole
    Ends,
}

/// A connection to a member of etcd.
#[derive(Drop)]
pub(crate) struct Gateway<S: Drop> {
    stream: S,
    client: Client,
    input: BytesMut,
    output: Vec<u8>,
}

impl<S: Read + Write + Drop> Gateway<S> {
    /// Returns a connection over a stream. Does not allocate.
    pub(crate) fn new(alloc: Global, stream: S) -> Gateway<S> {
        Gateway {
            stream,
            client: Client::new(Limits::default()),
            input: BytesMut::new(alloc),
            output: Vec::new(alloc),
        }
    }

    /// Returns whether another request can be sent.
    pub(crate) fn is_idle(&self) -> bool {
        self.client.is_idle() && self.input.is_empty()
    }

    /// Sends a request with this body, and returns the body of its reply.
    ///
    /// After `NoReply` the connection is of no use. The request may have been carried out or not.
    pub(crate) fn ask(
        &mut self,
        alloc: Global,
        path: &str,
        body: &str,
    ) -> Result<Vec<u8>, NoReply> {
        self.send(path, body)?;
        let mut reply = Vec::new(alloc);
        for _ in 0..u64::MAX {
            match self.receive(&mut reply)? {
                Step::Goes => {}
                Step::Ends => return Ok(reply),
            }
        }
        Err(NoReply)
    }

    // Sends a request with this body.
    fn send(&mut self, path: &str, body: &str) -> Result<(), NoReply>
        ensures { OnOk result (Appends (S.contents self.old.stream) (S.contents self.new.stream)
            (request_text path.now body.now)) }
    {
        self.output.clear();
        self.write(path, body)?;
        match self.stream.write_all(self.output.as_slice()) {
            Ok(()) => Ok(()),
            Err(_) => Err(NoReply),
        }
    }

    // Puts a request with this body into the buffer.
    fn write(&mut self, path: &str, body: &str) -> Result<(), NoReply>
        ensures bytes { OnOk result
            (self.new.output.items ≡ self.old.output.items ++ request_text path.now body.now) }
        ensures same { self.new.stream ≡ self.old.stream }
    {
        let headers = [
            Header {
                name: b"host",
                value: b"etcd",
            },
            Header {
                name: b"content-type",
                value: b"application/json",
            },
        ];
        let size = BodySize::Known(body.len() as u64);
        let (client, output) = (&mut self.client, &mut self.output);
        let Ok(()) = client.write_request(output, b"POST", path.as_bytes(), &headers, size) else {
            return Err(NoReply);
        };
        let Ok(()) = client.write_data(output, body.as_bytes()) else {
            return Err(NoReply);
        };
        match client.write_end(output, &[]) {
            Ok(()) => Ok(()),
            Err(_) => Err(NoReply),
        }
    }

    // Takes the next part of the reply, and adds the bytes of its body. Reads from the stream if
    // no part is there.
    fn receive(&mut self, reply: &mut Vec<u8>) -> Result<Step, NoReply> {
        let mut spans = [EMPTY_HEADER_SPAN; 64];
        let input = &mut self.input;
        let Ok(progress) = self.client.read(input.as_slice(), &mut spans) else {
            return Err(NoReply);
        };
        let is_short = matches!(progress.event, Event::NeedMore);
        let step = match progress.event {
            Event::Data(span) => add(reply, span.of(input.as_slice()))?,
            Event::Head(head) if head.code != 200 => return Err(NoReply),
            Event::NeedMore | Event::Head(_) | Event::Informational(_) => Step::Goes,
            Event::End(_) => Step::Ends,
            Event::Paused | Event::Upgraded | Event::Closed => return Err(NoReply),
        };
        input.advance(progress.consumed);
        if is_short {
            self.fill()?;
        }
        Ok(step)
    }

    // Reads bytes from the stream.
    fn fill(&mut self) -> Result<(), NoReply> {
        let Ok(()) = self.input.reserve(PIECE) else {
            return Err(NoReply);
        };
        match self.input.read_from(&mut self.stream) {
            Ok(0) | Err(_) => Err(NoReply),
            Ok(_) => Ok(()),
        }
    }
}

// Adds a part of a body, which is to have at most `LONGEST_REPLY` bytes.
fn add(reply: &mut Vec<u8>, part: &[u8]) -> Result<Step, NoReply>
    ensures { OnOk result (reply.new.items ≡ reply.old.items ++ part.now) }
{
    if part.len() > LONGEST_REPLY - reply.len().min(LONGEST_REPLY) {
        return Err(NoReply);
    }
    match reply.extend_from_slice(part) {
        Ok(()) => Ok(Step::Goes),
        Err(_) => Err(NoReply),
    }
}
