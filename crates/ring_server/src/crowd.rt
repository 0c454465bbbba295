//! The handlers of sessions, of campaigns and of HTTP that serve the clients of a running service.
ghost use Rattle.std.specs.Prelude.{◌≡◌, ◌≤◌, ◌+◌, ◌^◌, All, IfErr, IfOk, None};
ghost use Rattle.atomic_table.specs.Seated.{TableId};
ghost use Rattle.ring_accept.specs.declared.fault.ProgramFault.TheVariants.{NoMemory};

use crate::counting::Heeded;
use crate::hosting::{CampaignHandler, campaign_handlers};
use crate::running::seat;
use crate::sessions::{Front, Seat, SessionHandler, session_handlers};
use crate::viewing::{Viewer, viewers};
use crate::watching::Watch;
use ring_accept::{Acceptor, Entrance, Limits, ProgramFault};
use ring_any::Any;
use ring_table::Tabled;
use std::alloc::Global;
use std::hash::RandomState;
use std::net::{OpenListener, TcpStream};
use std::sync::{Mutex, Wait};
use std::thread::Threads;
use std::time::Clock;

// the number of seats for each session that may run
const SEATS_EACH: u32 = 16;

/// The listeners for clients other than sessions.
#[derive(Drop)]
pub struct Others<L: Drop> {
    /// The listener for campaigns, if they are served.
    pub campaigns: Option<L>,
    /// The listener for HTTP, if it is served.
    pub web: Option<Web<L>>,
}

/// The listener for HTTP.
#[derive(Drop)]
pub struct Web<L: Drop> {
    /// The listener.
    pub listener: L,
    /// The keys that hash the names of header fields.
    pub keys: RandomState,
}

impl<L: Drop> Others<L> {
    /// Returns listeners for no clients other than sessions. Does not allocate.
    pub fn none() -> Others<L>
        ensures { result ≡ record { campaigns = None; web = None } }
    {
        Others {
            campaigns: None,
            web: None,
        }
    }

    // Returns the number of kinds of clients, sessions included.
    fn kinds(&self) -> u32
        ensures { (1 ≤ result) × (result ≤ 3) }
    {
        let campaigns = if self.campaigns.is_some() { 1 } else { 0 };
        let web = if self.web.is_some() { 1 } else { 0 };
        1 + campaigns + web
    }

    /// Returns how many seats a service needs that serves `sessions` clients of each kind at a
    /// time.
    pub(crate) fn seats_for(&self, sessions: u32) -> u32 {
        sessions
            .saturating_mul(SEATS_EACH)
            .saturating_mul(self.kinds())
    }
}

/// The handlers of sessions and campaigns, and viewers for HTTP.
#[derive(Drop)]
pub(crate) struct Crowd<'a, T: Tabled<Any> + Drop> {
    watch: &'a Watch,
    sessions: Vec<SessionHandler<'a, T>>,
    campaigns: Vec<CampaignHandler<'a, T>>,
    viewers: Vec<Viewer<'a, T>>,
}

/// Returns the handlers and viewers of these seats. Each kind of clients that is served gets as
/// many seats. Places are counted from `base`, and a campaign's client may be silent for `idle`
/// seconds. The watch counts their clients. Fails only if an allocation fails.
pub(crate) fn gather<'a, T: Tabled<Any> + Drop, L: Drop>(
    alloc: Global,
    front: &'a Front<T>,
    seats: Vec<Seat<T>>,
    base: usize,
    idle: u32,
    others: &Others<L>,
    watch: &'a Watch,
) -> Result<Crowd<'a, T>, ProgramFault>
    requires seats { All (λ seat. seat.lock ≡ front.now.id) seats.items }
    requires base { base + T.most ≤ 2 ^ 64 }
    ensures sessions { IfOk result (λ crowd.
        All (λ handler. handler.base.number ≡ base) crowd.sessions.items) }
    ensures viewers { IfOk result (λ crowd.
        All (λ viewer. viewer.base.number ≡ base) crowd.viewers.items) }
    ensures fault { IfErr result (λ fault. fault ≡ NoMemory) }
{
    let (first, views) = match part(seats, others.web.is_some(), others.kinds()) {
        Ok(parts) => parts,
        Err(fault) => return Err(fault),
    };
    let viewers = match &others.web {
        Some(web) => viewers(alloc, front, views, base, web.keys, watch)?,
        None => Vec::new(alloc),
    };
    let (ours, theirs) = match part(first, others.campaigns.is_some(), 2) {
        Ok(parts) => parts,
        Err(fault) => return Err(fault),
    };
    let campaigns = campaign_handlers(alloc, front, theirs, idle, watch)?;
    let sessions = session_handlers(alloc, front, ours, base, watch)?;
    Ok(Crowd {
        watch,
        sessions,
        campaigns,
        viewers,
    })
}

// Returns two parts of the seats. The second is one of `parts` equal parts if it is asked for, else
// empty.
fn part<T: Tabled<Any> + Drop>(
    seats: Vec<Seat<T>>,
    asked: bool,
    parts: u32,
) -> Result<(Vec<Seat<T>>, Vec<Seat<T>>), ProgramFault>
    ensures ours { (id : TableId) → All (λ seat. seat.lock ≡ id) seats.items
        → IfOk result (λ parts. All (λ seat. seat.lock ≡ id) parts.0.items) }
    ensures theirs { (id : TableId) → All (λ seat. seat.lock ≡ id) seats.items
        → IfOk result (λ parts. All (λ seat. seat.lock ≡ id) parts.1.items) }
    ensures fault { IfErr result (λ fault. fault ≡ NoMemory) }
{
    let mut ours = seats;
    let theirs = ours.split_off(kept_of(ours.len(), asked, parts))?;
    Ok((ours, theirs))
}

// Returns how many of `seats` seats are in the first part.
fn kept_of(seats: usize, asked: bool, parts: u32) -> usize
    ensures { result ≤ seats }
{
    if asked && parts > 0 {
        seats - seats / parts as usize
    } else {
        seats
    }
}

impl<'a, T: Tabled<Any> + Send + Sync + Drop> Crowd<'a, T> {
    /// Serves the clients of a listener, and those of the other listeners.
    pub(crate) fn serve<R, L>(
        self,
        rt: &R,
        listener: L,
        others: Others<L>,
        limits: Limits,
    ) -> Result<(), ProgramFault>
    where
        R: Threads + Wait + Eprint + Clock + Sync,
        L: OpenListener<Stream = TcpStream> + Send + Drop,
        ensures { IfErr result (λ fault. fault ≡ ProgramFault.Thread) }
    {
        let Crowd {
            watch,
            sessions,
            campaigns,
            viewers,
        } = self;
        let first = acceptor(watch, Some(listener));
        let second = acceptor(watch, others.campaigns);
        let third = acceptor(watch, listener_of(others.web));
        let (sessions, campaigns, viewers) = (
            Mutex::new(sessions),
            Mutex::new(campaigns),
            Mutex::new(viewers),
        );
        seat(
            rt,
            Entrance {
                acceptor: first.as_ref(),
                handlers: &sessions,
            },
            Entrance {
                acceptor: second.as_ref(),
                handlers: &campaigns,
            },
            Entrance {
                acceptor: third.as_ref(),
                handlers: &viewers,
            },
            limits,
        )
    }
}

// Returns the listener for HTTP, if it is served.
fn listener_of<L: Drop>(web: Option<Web<L>>) -> Option<L> {
    match web {
        Some(web) => Some(web.listener),
        None => None,
    }
}

// Returns an acceptor at a listener, if there is one. The watch counts failed accepts.
fn acceptor<L>(watch: &Watch, listener: Option<L>) -> Option<Mutex<Acceptor<Heeded<'_, L>>>>
where
    L: OpenListener<Stream = TcpStream> + Drop,
{
    match listener {
        Some(listener) => Some(Mutex::new(Acceptor::new(watch.heeded(listener)))),
        None => None,
    }
}
