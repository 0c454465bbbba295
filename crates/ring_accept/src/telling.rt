//! The lines on standard output.
ghost use Rattle.std.specs.Prelude.{◌≡◌, IfOk, MatchResult, string_bytes};
ghost use Rattle.ring_lines.specs.Ends.{Wrote, WroteFront};
ghost use Rattle.ring_accept.specs.Telling.{closed_line, listening_at, listening_line};

use crate::fault::ProgramFault;
use ring_lines::{Outlet, put};
use std::alloc::{AllocError, Global};

/// Returns the line with the port of 127.0.0.1 on which the program listens.
pub fn say_listening(alloc: Global, port: u16) -> Result<String, AllocError>
    ensures { IfOk result (λ line. string_bytes line ≡ listening_line port) }
{
    format!(in alloc; "listening 127.0.0.1:{port}\n")
}

/// Returns the line with the path of the socket on which the program listens.
pub fn say_listening_at(alloc: Global, path: &str) -> Result<String, AllocError>
    ensures { IfOk result (λ line. string_bytes line ≡ listening_at path.now) }
{
    format!(in alloc; "listening {path}\n")
}

/// Returns the line with the number of sessions, all of which have ended.
pub fn say_closed(alloc: Global, connections: u32) -> Result<String, AllocError>
    ensures { IfOk result (λ line. string_bytes line ≡ closed_line connections) }
{
    format!(in alloc; "closed {connections}\n")
}

/// Writes one line.
pub fn tell<O: Outlet>(out: &mut O, line: &str) -> Result<(), ProgramFault>
    ensures { MatchResult result
        (λ _. Wrote O.write_gives out.old line.now out.new)
        (λ fault. (fault ≡ ProgramFault.Write)
        × WroteFront O.write_gives out.old line.now out.new) }
{
    match put(out, line.as_bytes()) {
        Ok(()) => Ok(()),
        Err(_) => Err(ProgramFault::Write),
    }
}
