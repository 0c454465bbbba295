//! HTTP over sockets.
ghost use Rattle.std.specs.Prelude.{◌≡◌, ◌≤◌, ◌+◌, ◌⊎◌, ◌↔◌, ◌^◌, All, IfErr, IfOk, IfSome, IsTrue, MatchOption, OnErr, OnOk, vec_len};
ghost use Rattle.http.specs.Request.{head_of};
ghost use Rattle.http_server.specs.Response.{IsBlank};
ghost use Rattle.ring_accept.specs.declared.fault.ProgramFault.TheVariants.{NoMemory};
ghost use Rattle.ring_http.specs.Answering.{IsAnswered};
ghost use Rattle.ring_http.specs.Asking.{AddsQuestions};
ghost use Rattle.ring_turn.specs.Seats.{Settled};
ghost use Rattle.std.specs.Option.{option_map};
ghost use Rattle.ring_server.specs.Viewing.{GainsQuestions, HasViewed, IfSeated, IsTold};

use crate::base::Base;
use crate::lines::Lines;
use crate::sessions::{Front, Seat};
use crate::watching::{Port, Watch};
use bytes::Bytes;
use http::Request;
use http_server::{Config, Connection, Response, Service, serve};
use ring_accept::{ClientHandler, ProgramFault};
use ring_any::Any;
use ring_http::Asker;
use ring_table::{Table, Tabled};
use std::alloc::{AllocError, Global};
use std::hash::RandomState;
use std::io::{Read, Write};
use std::marker::PhantomData;
use std::net::TcpStream;
use std::sync::Wait;
use std::time::Clock;

/// A seat of the table, for one HTTP connection after another.
#[derive(Drop)]
pub struct Viewer<'a, T: Tabled<Any> + Drop = Table<Any>> {
    alloc: Global,
    // `None` while a connection is served
    seated: Option<Seated<'a, T>>,
    base: Base<T>,
    keys: RandomState,
    watch: &'a Watch,
}

/// A seat, and the front by which it asks.
#[derive(Drop)]
pub(crate) struct Seated<'a, T: Tabled<Any> + Drop> {
    front: &'a Front<T>,
    seat: Seat<T>,
    ghost of_front: { seat.lock ≡ front.now.id },
}

/// Returns a viewer for each seat. Its places are counted from `base`, and the names of header
/// fields are hashed by `keys`. It shows what the watch knows. Fails only if an allocation fails.
pub fn viewers<'a, T: Tabled<Any> + Drop>(
    alloc: Global,
    front: &'a Front<T>,
    seats: Vec<Seat<T>>,
    base: usize,
    keys: RandomState,
    watch: &'a Watch,
) -> Result<Vec<Viewer<'a, T>>, ProgramFault>
    requires seats { All (λ seat. seat.lock ≡ front.now.id) seats.items }
    requires base { base + T.most ≤ 2 ^ 64 }
    ensures viewers { IfOk result (λ viewers. vec_len viewers ≡ vec_len seats) }
    ensures base { IfOk result (λ viewers.
        All (λ viewer. viewer.base.number ≡ base) viewers.items) }
    ensures fault { IfErr result (λ fault. fault ≡ NoMemory) }
{
    let mut rest = seats;
    let Ok(mut viewers) = Vec::with_capacity(alloc, rest.len()) else {
        return Err(ProgramFault::NoMemory);
    };
    while let Some(seat) = rest.pop() {
        viewers.push_reserved(Viewer {
            alloc,
            seated: Some(Seated { front, seat }),
            base: base_of(base),
            keys,
            watch,
        });
    }
    Ok(viewers)
}

impl<T: Tabled<Any> + Drop> ClientHandler for Viewer<'_, T> {
    fn is_spent(&self) -> bool
        ensures { MatchOption (option_map (λ seated. seated.seat) self.now.seated)
            (IsTrue result) (λ seat. IsTrue result ↔ (seat.left ≡ 0)) }
    {
        match &self.seated {
            Some(seated) => seated.seat.is_spent(),
            None => true,
        }
    }

    fn serve<R: Wait + Clock>(&mut self, rt: &R, session: u32, stream: &TcpStream, _places: bool)
        ensures served { IfSeated (HasViewed self.old.base.number T.most session)
            (option_map (λ seated. seated.seat) self.old.seated)
            (option_map (λ seated. seated.seat) self.new.seated) }
        ensures gained { IfSeated (GainsQuestions session)
            (option_map (λ seated. seated.seat) self.old.seated)
            (option_map (λ seated. seated.seat) self.new.seated) }
        ensures told { IfSeated IsTold (option_map (λ seated. seated.seat) self.old.seated)
            (option_map (λ seated. seated.seat) self.new.seated) }
    {
        let _ = stream.set_nodelay(true);
        let Some(seated) = self.seated.take() else {
            return;
        };
        let site = Site {
            rt,
            alloc: self.alloc,
            seated,
            base: base_of(self.base.number),
            session,
            last: 0,
            watch: self.watch,
        };
        let (mut reader, mut writer) = (Lines::new(stream), stream);
        self.watch.enter(Port::Http);
        self.seated = Some(view(site, self.keys, &mut reader, &mut writer));
        self.watch.leave(Port::Http);
    }
}

// Answers the requests of one connection, until it ends. Returns the seat.
fn view<'a, R: Wait + Clock, T: Tabled<Any> + Drop, I: Read, O: Write>(
    site: Site<'a, '_, R, T>,
    keys: RandomState,
    reader: &mut I,
    writer: &mut O,
) -> Seated<'a, T>
    requires { site.last ≡ 0 }
    ensures served { HasViewed site.entry.base.number T.most site.entry.session
        site.entry.seated.seat result.seat }
    ensures gained { GainsQuestions site.entry.session site.entry.seated.seat result.seat }
    ensures told { IsTold site.entry.seated.seat result.seat }
{
    let mut site = site;
    let mut connection = Connection::new(site.alloc, keys, Config::default());
    let _ = serve(&mut connection, &mut site, reader, writer);
    drop(connection);
    let Site { seated, .. } = site;
    seated
}

/// Answers the requests of one connection.
#[derive(Drop)]
struct Site<'a, 'b, R, T: Tabled<Any> + Drop> {
    rt: &'b R,
    alloc: Global,
    seated: Seated<'a, T>,
    base: Base<T>,
    session: u32,
    // the last place that was told, or 0
    last: usize,
    watch: &'b Watch,
}

impl<R: Wait + Clock, T: Tabled<Any> + Drop> Service for Site<'_, '_, R, T> {
    ghost use Rattle.std.specs.Prelude.{◌≡◌};
    ghost use Rattle.ring_server.specs.private.Viewing.{Views};

    ghost answers = { λ old request response new.
        Views old.base.number T.most old.session (old.seated.seat, old.last) request response
        (new.seated.seat, new.last)
        × (new.base.number ≡ old.base.number) × (new.session ≡ old.session) };

    fn call(
        &mut self,
        request: &Request<Bytes>,
        response: &mut Response,
    ) -> Result<(), AllocError> {
        let (rt, alloc, session) = (self.rt, self.alloc, self.session);
        let (base, watch, last) = (self.base.number, self.watch, &mut self.last);
        let seated = &mut self.seated;
        let (front, seat) = (seated.front, &mut seated.seat);
        answer(
            rt, alloc, front, watch, seat, base, session, last, request, response,
        )
    }
}

// Returns the base with this number.
fn base_of<T: Tabled<Any> + Drop>(number: usize) -> Base<T>
    requires { number + T.most ≤ 2 ^ 64 }
    ensures { result.number ≡ number }
{
    Base {
        number,
        of: PhantomData,
    }
}

// Answers a request by a seat.
fn answer<R: Wait + Clock, T: Tabled<Any> + Drop>(
    rt: &R,
    alloc: Global,
    front: &Front<T>,
    watch: &Watch,
    seat: &mut Seat<T>,
    base: usize,
    session: u32,
    last: &mut usize,
    request: &Request<Bytes>,
    response: &mut Response,
) -> Result<(), AllocError>
    requires seat { seat.old.lock ≡ front.now.id }
    requires base { base + T.most ≤ 2 ^ 64 }
    requires blank { IsBlank response.old }
    ensures seat { seat.new.lock ≡ front.now.id }
    ensures ok { OnOk result (IsAnswered base T.most session (head_of request.now) seat.old.mine
        last.old response.new seat.new.mine last.new) }
    ensures err { OnErr result ((seat.new ≡ seat.old) × (last.new ≡ last.old)) }
    ensures questions { AddsQuestions session seat.old.mine seat.new.mine }
    ensures told { (seat.new ≡ seat.old) ⊎ Settled seat.new }
{
    let asker = Asker {
        rt,
        alloc,
        access: front,
        session,
        base,
        beside: &watch.beside(rt, front.unread()),
    };
    asker.answer(seat, last, request, response)
}
