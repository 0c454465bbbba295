//! ClientHandler clients, each session in a thread of its own.
ghost use Rattle.std.specs.Prelude.{◌≡◌, MatchResult, vec_len};
ghost use Rattle.ring_accept.specs.Numbers.{next_number};
ghost use Rattle.ring_accept.specs.Serving.{IsOfConnections};

use crate::fault::ProgramFault;
use std::net::{OpenListener, TcpStream};
use std::sync::Wait;
use std::thread;
use std::thread::Threads;
use std::time::{Clock, Duration};

/// A value that serves one client after another.
pub trait ClientHandler: Drop {
    /// Returns whether it has no turn left for its clients.
    fn is_spent(&self) -> bool;

    /// Serves one session over a socket: each line of the client is answered by one line. With
    /// `places`, the place of each reply is written before it.
    ///
    /// It ends when the client has sent all, when reading or writing fails, or when an allocation
    /// fails before its first line. Every reply goes out at once. The session's number is in the
    /// history with each of its commands; no reply has it.
    fn serve<R: Wait + Clock>(&mut self, rt: &R, session: u32, stream: &TcpStream, places: bool);
}

/// Accepts a connection for each handler, and waits for their sessions. Returns how many were
/// accepted: one for each handler.
///
/// Each session is in a thread of its own, and they are numbered from 1 in the order of their
/// accepts. If an accept fails or a thread cannot be started, no further connection is accepted.
pub fn accept_all<R, L, G>(rt: &R, listener: L, handlers: Vec<G>) -> Result<usize, ProgramFault>
where
    R: Threads + Wait + Clock + Sync,
    L: OpenListener<Stream = TcpStream> + Drop,
    G: ClientHandler + Send,
    ensures { MatchResult result (λ accepted. accepted ≡ vec_len handlers) IsOfConnections }
{
    thread::scope(
        thread::scope_env(),
        rt,
        move |scope| -> Result<usize, ProgramFault>
            ensures { MatchResult result (λ accepted. accepted ≡ vec_len handlers) IsOfConnections }
        {
            let mut accepted = 0;
            let mut last = 0;
            for mut handler in handlers {
                let session = number_after(last);
                let Ok((stream, _)) = listener.accept() else {
                    return Err(ProgramFault::Accept);
                };
                let Ok(_) = scope.spawn(move || handler.serve(rt, session, &stream, false)) else {
                    return Err(ProgramFault::Thread);
                };
                accepted += 1;
                last = session;
            }
            Ok(accepted)
        },
    )
}

// Returns the number of the session after this one: one more, and 1 after the greatest.
pub(crate) fn number_after(last: u32) -> u32
    ensures { result ≡ next_number last }
{
    if last == u32::MAX { 1 } else { last + 1 }
}

// Ends a session whose client sends nothing, or takes no reply, for `seconds` seconds; 0 is never.
pub(crate) fn limit_silence(stream: &TcpStream, seconds: u32) {
    if seconds > 0 {
        let longest = Some(Duration::from_secs(u64::from(seconds)));
        let _ = stream.set_read_timeout(longest);
        let _ = stream.set_write_timeout(longest);
    }
}
