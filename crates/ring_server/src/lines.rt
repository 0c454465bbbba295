//! What a client of HTTP sends, a line at a time.
ghost use Rattle.std.specs.Prelude.{◌≤◌, length};

use std::io;
use std::io::{ErrorKind, Read};
use std::net::TcpStream;

// how many bytes a read call of the socket takes at most
const ROOM: usize = 8192;

/// A reader of a client's socket. A read call gives the bytes of one line at most.
///
/// So of the requests that a client has sent together, the next one is looked at only when the
/// answer to the one before was sent. If the client has gone, that soon fails, and the connection
/// ends: requests that wait for news do not hold its place one after another. This is tested, not
/// proved.
#[derive(Drop)]
pub(crate) struct Lines<'a> {
    stream: &'a TcpStream,
    // what was read and not given yet is between `from` and `to`
    held: [u8; ROOM],
    from: usize,
    to: usize,
}

impl<'a> Lines<'a> {
    /// Returns a reader of this socket.
    pub(crate) fn new(stream: &'a TcpStream) -> Lines<'a> {
        Lines {
            stream,
            held: [0; ROOM],
            from: 0,
            to: 0,
        }
    }

    // Reads what has come. A call that a signal interrupted is made again.
    fn fill(&mut self) -> io::Result<()> {
        let mut stream = self.stream;
        for _ in 0..u64::MAX {
            match stream.read(&mut self.held) {
                Ok(count) => {
                    self.from = 0;
                    self.to = count;
                    return Ok(());
                }
                Err(error) => {
                    if error.kind() != ErrorKind::Interrupted {
                        return Err(error);
                    }
                }
            }
        }
        Err(ErrorKind::Interrupted.into())
    }
}

impl Read for Lines<'_> {
    fn read(&mut self, buf: &mut [u8]) -> io::Result<usize> {
        if self.from >= self.to {
            self.fill()?;
        }
        let held = self.held.get(self.from..self.to).unwrap_or(&[]);
        let len = line_len(held).min(buf.len());
        buf[..len].copy_from_slice(&held[..len]);
        self.from = self.from.saturating_add(len);
        Ok(len)
    }
}

// The number of bytes up to the end of the first line, or of all if none ends.
fn line_len(held: &[u8]) -> usize
    ensures { result ≤ length held.now }
{
    match held.iter().position(|&byte| byte == b'\n') {
        Some(at) => at + 1,
        None => held.len(),
    }
}
