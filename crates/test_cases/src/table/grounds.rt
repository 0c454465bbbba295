//! Services over an access, with the seats of their callers.
ghost use Rattle.std.specs.Prelude.{◌≤◌, All};

use crate::memory::shared;
use ring_any::Any;
use ring_service::{Closing, Service, StartFault, Waiting};
use ring_table::{Access, LockedTable, Table};
use ring_workers::{Gate, Handed};
use std::alloc::Global;
use std::collections::VecDeque;
use std::marker::Model;
use std::process::Abort;
use std::sync::{Arc, Wait};
use std::thread::Threads;
use std::time::Clock;

/// A service, and the seats of two callers.
#[derive(Drop)]
pub struct Opened<A: Access<Any> + Drop> {
    /// The service.
    pub service: Service<A>,
    /// The first caller's seat.
    pub one: A::Seat,
    /// The other caller's seat.
    pub other: A::Seat,
}

impl<A: Access<Any> + Drop> Model for Opened<A> {
    ghost Value = { A };

    ghost view = { λ opened. opened.service };

    ghost invariant = { λ opened.
        A.has_seat opened.service opened.one × A.has_seat opened.service opened.other };
}

/// Starts the service at an access. Its last two seats are the callers', and the others the
/// workers'.
pub fn open<A, G, R>(
    rt: &R,
    alloc: Global,
    access: A,
    seats: Vec<A::Seat>,
    inbox: usize,
    gate: &Arc<G>,
) -> Result<Opened<A>, StartFault>
where
    A: Access<Any> + Send + Sync + Drop + 'static,
    A::Seat: Send + 'static,
    G: Gate + Send + Sync + Drop + 'static,
    R: Abort + Threads + Wait + Clock + Copy + Send + Drop + 'static,
    requires seats { All (A.has_seat access) seats.items }
    requires inbox { (1 ≤ inbox) × (inbox ≤ 65536) }
{
    let mut seats = seats;
    let one = seats.pop().expect(rt, "no seat for a caller");
    let other = seats.pop().expect(rt, "one seat for two callers");
    let workers = seats.len();
    assert!(rt; workers >= 1 && workers <= 8);
    let access = shared(rt, alloc, access);
    let copy = Arc::try_clone(gate).expect(rt, "no copy");
    match Service::gated(rt, alloc, access, seats, workers, inbox, copy) {
        Ok(service) => Ok(Opened {
            service,
            one,
            other,
        }),
        Err(fault) => Err(fault),
    }
}

/// A service at a locked table.
pub type Ground = Opened<LockedTable<Any>>;

/// Starts a service with `workers` workers over this table, under a lock.
pub fn open_locked<G, R>(
    rt: &R,
    alloc: Global,
    table: Table<Any>,
    workers: usize,
    inbox: usize,
    gate: &Arc<G>,
) -> Result<Ground, StartFault>
where
    G: Gate + Send + Sync + Drop + 'static,
    R: Abort + Threads + Wait + Clock + Copy + Send + Drop + 'static,
    requires workers { workers ≤ 8 }
    requires inbox { (1 ≤ inbox) × (inbox ≤ 65536) }
{
    let Ok((table, seats)) = LockedTable::new(alloc, table, workers + 2) else {
        return Err(StartFault::NoMemory);
    };
    open(rt, alloc, table, seats, inbox, gate)
}

/// Returns the table of an access that nobody shares any more.
pub fn table_of(rt: &impl Abort, access: Arc<LockedTable<Any>>) -> Table<Any> {
    Arc::into_inner(access)
        .expect(rt, "somebody shares the table still")
        .into_table()
}

/// Ends a service. Returns its table, the results of the workers, and the begins that no inbox
/// stored.
pub fn end<R: Abort + Threads + Wait>(
    rt: &R,
    ground: Ground,
) -> (Table<Any>, Vec<Handed<Any>>, VecDeque<Waiting>) {
    let Opened {
        service,
        one,
        other,
    } = ground;
    drop(one);
    drop(other);
    let Closing {
        access,
        handed,
        waiting,
    } = service.close(rt);
    (table_of(rt, access), handed, waiting)
}
