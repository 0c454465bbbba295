//! How clients are accepted, and the threads that serve them.
ghost use Rattle.std.specs.Prelude.{◌≡◌, IfErr, MatchOption, false, true};
ghost use Rattle.ring_accept.specs.Numbers.{next_number};

use crate::fault::ProgramFault;
use crate::serving::{ClientHandler, limit_silence, number_after};
use std::net::{OpenListener, TcpStream};
use std::sync::{Mutex, MutexGuard, Wait};
use std::thread;
use std::thread::{Scope, Threads};
use std::time::{Clock, Duration};

/// The limits of sessions.
#[derive(Clone, Copy)]
pub struct Limits {
    /// How many clients are served at a time.
    pub sessions: u32,
    /// After how many seconds without a byte read or written a session ends; 0 is never.
    pub idle: u32,
    /// Whether the place of each reply is written.
    pub places: bool,
}

/// Accepts one client after another, while it is open.
#[derive(Drop)]
pub struct Acceptor<L> {
    listener: L,
    /// Whether clients are admitted.
    pub is_open: bool,
    /// The number of the last session; 0 before the first.
    pub last: u32,
    // whether a failed accept was reported
    has_told: bool,
}

impl<L: OpenListener<Stream = TcpStream>> Acceptor<L> {
    /// Returns an acceptor that is shut, and that has accepted no client.
    pub fn new(listener: L) -> Acceptor<L>
        ensures shut { result.is_open ≡ false }
        ensures none { result.last ≡ 0 }
        ensures silent { result.has_told ≡ false }
    {
        Acceptor {
            listener,
            is_open: false,
            last: 0,
            has_told: false,
        }
    }

    /// Admits the next client and numbers its session. Returns `None` if the acceptor is shut.
    pub fn admit<R: Wait + Eprint + Clock>(&mut self, rt: &R) -> Option<(u32, TcpStream)>
        ensures client { MatchOption result (self.old.is_open ≡ false) (λ client.
            (self.old.is_open ≡ true) × (client.0 ≡ next_number self.old.last)
            × (self.new.last ≡ client.0) × (self.new.is_open ≡ self.old.is_open)) }
        ensures told { self.old.has_told ≡ true → self.new.has_told ≡ true }
    {
        if !self.is_open {
            return None;
        }
        let stream = self.accept(rt);
        self.last = number_after(self.last);
        Some((self.last, stream))
    }

    // Accepts a client. A failed accept is tried again after a pause.
    fn accept<R: Wait + Eprint + Clock>(&mut self, rt: &R) -> TcpStream
        ensures number { self.new.last ≡ self.old.last }
        ensures open { self.new.is_open ≡ self.old.is_open }
        ensures told { self.old.has_told ≡ true → self.new.has_told ≡ true }
    {
        for _ in rt.forever() {
            if let Ok((stream, _)) = self.listener.accept() {
                return stream;
            }
            self.tell_once(rt);
            thread::sleep(rt, Duration::from_millis(100));
        }
        unreachable!()
    }

    // Reports a failed accept on standard error, unless one was reported before.
    fn tell_once<R: Eprint>(&mut self, rt: &R)
        ensures number { self.new.last ≡ self.old.last }
        ensures open { self.new.is_open ≡ self.old.is_open }
        ensures told { self.new.has_told ≡ true }
    {
        if !self.has_told {
            let _ = eprintln!(rt; "ringd: accept failed, trying again");
            self.has_told = true;
        }
    }
}

/// Where clients of one kind come in, and the handlers that serve them.
#[derive(Drop)]
pub struct Entrance<'a, L: Drop, G: Drop> {
    /// Accepts the clients; `None` if they are not served.
    pub acceptor: Option<&'a Mutex<Acceptor<L>>>,
    /// The handlers that do not serve yet. The last one is taken first.
    pub handlers: &'a Mutex<Vec<G>>,
}

/// Starts `limits.sessions` threads for each entrance, and opens the acceptors once all threads are
/// started. An entrance has fewer threads if it has fewer handlers, and none without an acceptor.
///
/// Each thread takes a handler, which serves one client after another until the acceptor is shut.
/// If the handler's seat is spent, another handler takes its place, as long as there is one. If a
/// thread cannot be started, no acceptor is opened.
pub fn attend<'a, R, L, G, H, I>(
    rt: &'a R,
    first: Entrance<'a, L, G>,
    second: Entrance<'a, L, H>,
    third: Entrance<'a, L, I>,
    limits: Limits,
) -> Result<(), ProgramFault>
where
    R: Threads + Wait + Eprint + Clock + Sync,
    L: OpenListener<Stream = TcpStream> + Send + Drop,
    G: ClientHandler + Send,
    H: ClientHandler + Send,
    I: ClientHandler + Send,
    ensures { IfErr result (λ fault. fault ≡ ProgramFault.Thread) }
{
    let (one, two, three) = (held(rt, &first), held(rt, &second), held(rt, &third));
    thread::scope(
        thread::scope_env(),
        rt,
        move |scope| -> Result<(), ProgramFault>
            ensures { IfErr result (λ fault. fault ≡ ProgramFault.Thread) }
        {
            let started = start_each(scope, rt, first, limits)
                && start_each(scope, rt, second, limits)
                && start_each(scope, rt, third, limits);
            if !started {
                return Err(ProgramFault::Thread);
            }
            open(one);
            open(two);
            open(three);
            Ok(())
        },
    )
}

// Locks the acceptor of an entrance, if there is one.
fn held<'a, R: Wait, L: Drop, G: Drop>(
    rt: &R,
    entrance: &Entrance<'a, L, G>,
) -> Option<MutexGuard<'a, Acceptor<L>>> {
    match entrance.acceptor {
        Some(acceptor) => Some(acceptor.lock(rt)),
        None => None,
    }
}

// Starts the threads of an entrance, in which handlers serve the clients of its acceptor. Returns
// whether all were started.
fn start_each<'s, S, R, L, G>(
    scope: &Scope<'s, S>,
    rt: &'s R,
    entrance: Entrance<'s, L, G>,
    limits: Limits,
) -> bool
where
    R: Wait + Eprint + Clock + Sync,
    L: OpenListener<Stream = TcpStream> + Send + Drop,
    G: ClientHandler + Send + 's,
{
    let Entrance { acceptor, handlers } = entrance;
    let Some(acceptor) = acceptor else {
        return true;
    };
    for _ in 0..limits.sessions {
        let Some(handler) = handlers.lock(rt).pop() else {
            break;
        };
        let Ok(_) = scope.spawn(move || serve_each(rt, acceptor, handlers, handler, limits)) else {
            return false;
        };
    }
    true
}

// Opens an acceptor, if there is one.
fn open<L>(acceptor: Option<MutexGuard<'_, Acceptor<L>>>) {
    if let Some(mut acceptor) = acceptor {
        acceptor.is_open = true;
    }
}

// Serves one client after another by this handler's seat, until the acceptor is shut.
fn serve_each<R, L, G>(
    rt: &R,
    acceptor: &Mutex<Acceptor<L>>,
    spare: &Mutex<Vec<G>>,
    handler: G,
    limits: Limits,
)
where
    R: Wait + Eprint + Clock,
    L: OpenListener<Stream = TcpStream> + Drop,
    G: ClientHandler,
{
    let mut handler = handler;
    for _ in rt.forever() {
        let Some((session, stream)) = acceptor.lock(rt).admit(rt) else {
            return;
        };
        handler = with_turns(rt, handler, spare);
        limit_silence(&stream, limits.idle);
        handler.serve(rt, session, &stream, limits.places);
    }
}

// Returns the handler, or a spare one if the handler's seat is spent and there is one.
fn with_turns<R: Wait, G: ClientHandler>(rt: &R, handler: G, spare: &Mutex<Vec<G>>) -> G {
    if !handler.is_spent() {
        return handler;
    }
    match spare.lock(rt).pop() {
        Some(fresh) => fresh,
        None => handler,
    }
}
