//! Campaigns over sockets.
ghost use Rattle.std.specs.Prelude.{◌≡◌, ◌⊎◌, ◌+◌, ◌≤◌, ◌↔◌, All, IfErr, IfOk, IsTrue, vec_capacity, vec_len};
ghost use Rattle.ring_campaign.specs.Entries.{GainsCampaign};
ghost use Rattle.ring_accept.specs.declared.fault.ProgramFault.TheVariants.{NoMemory};
ghost use Rattle.ring_turn.specs.Seats.{Settled};

use crate::patient::Patient;
use crate::sessions::{Front, Seat};
use crate::watching::{Port, Watch};
use ring_accept::{ClientHandler, ProgramFault};
use ring_any::Any;
use ring_campaign::campaign;
use ring_lines::{Intake, Outlet, ToWrite};
use ring_table::{Table, Tabled};
use std::alloc::Global;
use std::net::TcpStream;
use std::sync::Wait;
use std::time::Clock;

/// A seat of the table, for one campaign after another.
#[derive(Drop)]
pub struct CampaignHandler<'a, T: Tabled<Any> + Drop = Table<Any>> {
    alloc: Global,
    front: &'a Front<T>,
    seat: Seat<T>,
    idle: u32,
    // counts its clients
    watch: &'a Watch,
    ghost of_front: { seat.lock ≡ front.now.id },
}

/// Returns a handler for each seat. Its clients may be silent for `idle` seconds, or without end if
/// `idle` is 0. The watch counts its clients. Fails only if an allocation fails.
pub fn campaign_handlers<'a, T: Tabled<Any> + Drop>(
    alloc: Global,
    front: &'a Front<T>,
    seats: Vec<Seat<T>>,
    idle: u32,
    watch: &'a Watch,
) -> Result<Vec<CampaignHandler<'a, T>>, ProgramFault>
    requires { All (λ seat. seat.lock ≡ front.now.id) seats.items }
    ensures handlers { IfOk result (λ handlers. vec_len handlers ≡ vec_len seats) }
    ensures fault { IfErr result (λ fault. fault ≡ NoMemory) }
{
    let mut rest = seats;
    let Ok(mut campaign_handlers) = Vec::with_capacity(alloc, rest.len()) else {
        return Err(ProgramFault::NoMemory);
    };
    while let Some(seat) = rest.pop() {
        campaign_handlers.push_reserved(CampaignHandler {
            alloc,
            front,
            seat,
            idle,
            watch,
        });
    }
    Ok(campaign_handlers)
}

impl<T: Tabled<Any> + Drop> ClientHandler for CampaignHandler<'_, T> {
    fn is_spent(&self) -> bool
        ensures { IsTrue result ↔ (self.now.seat.left ≡ 0) }
    {
        self.seat.is_spent()
    }

    fn serve<R: Wait + Clock>(&mut self, rt: &R, session: u32, stream: &TcpStream, _places: bool)
        ensures gained { GainsCampaign session self.old.seat.mine self.new.seat.mine }
        ensures told { (self.new.seat ≡ self.old.seat) ⊎ Settled self.new.seat }
    {
        let _ = stream.set_nodelay(true);
        let Some(mut reader) = Patient::new(rt, stream, self.idle) else {
            return;
        };
        let mut writer = ToWrite(stream);
        let (alloc, front, seat) = (self.alloc, self.front, &mut self.seat);
        self.watch.enter(Port::Campaigns);
        let refused = run_campaign(rt, alloc, front, seat, session, &mut reader, &mut writer);
        self.watch.count_first(refused);
        self.watch.leave(Port::Campaigns);
    }
}

// Runs one campaign by a seat. Returns whether its first line was refused.
fn run_campaign<R: Wait + Clock, I: Intake, O: Outlet, T: Tabled<Any> + Drop>(
    rt: &R,
    alloc: Global,
    front: &Front<T>,
    seat: &mut Seat<T>,
    session: u32,
    reader: &mut I,
    writer: &mut O,
) -> bool
    requires { seat.old.lock ≡ front.now.id }
    ensures seat { seat.new.lock ≡ front.now.id }
    ensures gained { GainsCampaign session seat.old.mine seat.new.mine }
    ensures told { (seat.new ≡ seat.old) ⊎ Settled seat.new }
{
    campaign(rt, alloc, front, seat, session, reader, writer)
}
