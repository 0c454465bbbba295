//! A socket whose client may be silent for a while.
use ring_lines::{Intake, ReadFault};
use std::io::{ErrorKind, Read};
use std::net::TcpStream;
use std::time::{Clock, Duration, Instant};

// the longest wait of a read call for a byte, in milliseconds; the system may round it up
const LOOK: u64 = 4;

/// A reader of a client's socket.
///
/// A read call that waited in vain counts as interrupted. If nothing has come for the client's
/// number of seconds, a read call fails. This is tested, not proved.
#[derive(Drop)]
pub(crate) struct Patient<'a, R> {
    rt: &'a R,
    stream: &'a TcpStream,
    // how long the client may be silent
    idle: Option<Duration>,
    // when it was first found silent after its last byte
    since: Option<Instant>,
}

impl<'a, R: Clock> Patient<'a, R> {
    /// Returns a reader of this socket. Its client may be silent for `idle` seconds, or without end
    /// if `idle` is 0. Returns `None` if the socket cannot get a time limit.
    pub(crate) fn new(rt: &'a R, stream: &'a TcpStream, idle: u32) -> Option<Patient<'a, R>> {
        let look = Some(Duration::from_millis(LOOK));
        let Ok(()) = stream.set_read_timeout(look) else {
            return None;
        };
        let idle = if idle == 0 {
            None
        } else {
            Some(Duration::from_secs(u64::from(idle)))
        };
        Some(Patient {
            rt,
            stream,
            idle,
            since: None,
        })
    }

    // Returns whether the client was silent for too long.
    fn is_silent(&mut self) -> bool {
        let Some(idle) = self.idle else {
            return false;
        };
        let Ok(now) = Instant::now(self.rt) else {
            return false;
        };
        match self.since {
            Some(since) => now.duration_since(since) >= idle,
            None => {
                self.since = Some(now);
                false
            }
        }
    }
}

impl<R: Clock> Intake for Patient<'_, R> {
    ghost read_gives = { λ _ _ _. Unit {0} };

    fn read(&mut self, buffer: &mut [u8]) -> Result<usize, ReadFault> {
        let mut stream = self.stream;
        match stream.read(buffer) {
            Ok(count) => {
                self.since = None;
                Ok(count)
            }
            Err(error) => match error.kind() {
                ErrorKind::Interrupted => Err(ReadFault::Interrupted),
                ErrorKind::WouldBlock | ErrorKind::TimedOut => {
                    if self.is_silent() {
                        Err(ReadFault::Failed)
                    } else {
                        Err(ReadFault::Interrupted)
                    }
                }
                _ => Err(ReadFault::Failed),
            },
        }
    }
}
