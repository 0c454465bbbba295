//! Test cases of a service over a turn lock: what two sessions are told, when a seat is spent, and
//! that two workers decide a term in turn. A test that runs out of memory stops.
ghost use Rattle.std.specs.Prelude.{◌<◌, ◌≤◌, All};

use crate::table::election_rows::decide;
use crate::table::grounds::{Opened, open};
use crate::table::meetings::{LOOKS, new_meeting};
use crate::table::telling::{FIRST, FIRST_TOLD, SECOND, SECOND_TOLD, tells};
use ring_any::Any;
use ring_table::{Access, Table};
use ring_turn::TurnLock;
use std::alloc::Global;
use std::process::Abort;
use std::sync::Wait;
use std::thread::Threads;
use std::time::Clock;

// What is done with a service over an access.
#[derive(Drop)]
enum Deed {
    // Two sessions by two seats.
    Talk,
    // Two sessions by two seats with two turns each. Each further line gets the reply that the seat
    // is spent, and adds no entry.
    Spend,
    // Two workers decide a term.
    Decide,
}

// The lines of two sessions that spend their seats.
const SPENDING: [&[u8]; 2] = [
    b"create a chang\njoin a 5\nmembers a\nstart a\n",
    b"members a\ngroups\nstart a\n",
];

// The replies to them.
const SPENT_TOLD: [&[u8]; 2] = [
    b"ok\nok\nno seat-spent\nno seat-spent\n",
    b"members 5\ngroups a\nno seat-spent\n",
];

// Does it with the service at an access, by a gate with this number of looks. The last two seats
// are the callers', and the others the workers'.
fn run<A, R>(
    rt: &R,
    alloc: Global,
    access: A,
    seats: Vec<A::Seat>,
    inbox: usize,
    looks: u32,
    deed: Deed,
)
where
    A: Access<Any> + Send + Sync + Drop + 'static,
    A::Seat: Send + 'static,
    R: Abort + Threads + Wait + Clock + Copy + Send + Sync + Drop + 'static,
    requires seats { All (A.has_seat access) seats.items }
    requires inbox { (1 ≤ inbox) × (inbox ≤ 65536) }
{
    let gate = new_meeting(rt, alloc, looks);
    let opened = open(rt, alloc, access, seats, inbox, &gate).expect(rt, "no service");
    match deed {
        Deed::Talk => converse(
            rt,
            alloc,
            opened,
            [FIRST, SECOND],
            [FIRST_TOLD, SECOND_TOLD],
        ),
        Deed::Spend => converse(rt, alloc, opened, SPENDING, SPENT_TOLD),
        Deed::Decide => drop(decide(rt, alloc, opened, &gate, Vec::new(alloc))),
    }
    drop(gate);
}

// Does it with a service with two workers at a turn lock, each of whose seats has `turns` turns.
fn run_in_turn<R>(rt: &R, alloc: Global, turns: u64, inbox: usize, looks: u32, deed: Deed)
where
    R: Abort + Threads + Wait + Clock + Copy + Send + Sync + Drop + 'static,
    requires turns { (0 < turns) × (turns ≤ 1000) }
    requires inbox { (1 ≤ inbox) × (inbox ≤ 65536) }
{
    let Ok((lock, seats)) = TurnLock::new(alloc, Table::new(alloc), 4, turns) else {
        panic!(rt; "no lock")
    };
    run(rt, alloc, lock, seats, inbox, looks, deed);
}

// Two sessions, one after the other, each by a seat of its own.
fn converse<R, A>(rt: &R, alloc: Global, opened: Opened<A>, lines: [&[u8]; 2], told: [&[u8]; 2])
where
    R: Abort + Threads + Wait,
    A: Access<Any> + Send + Sync + Drop + 'static,
    A::Seat: Send + 'static,
{
    let Opened {
        service,
        mut one,
        mut other,
    } = opened;
    let front = service.front();
    tells(rt, alloc, front, &mut one, 1, lines[0], told[0]);
    tells(rt, alloc, front, &mut other, 2, lines[1], told[1]);
    drop(one);
    drop(other);
    drop(service.close(rt));
}

#[test]
fn a_second_session_finds_what_the_first_one_left(rt: HostRuntime) {
    run_in_turn(&rt, rt.alloc(), 100, 64, 0, Deed::Talk);
}

#[test]
fn a_spent_seat_is_told_so(rt: HostRuntime) {
    run_in_turn(&rt, rt.alloc(), 2, 64, 0, Deed::Spend);
}

#[test]
fn two_workers_decide_a_term_in_turn(rt: HostRuntime) {
    for inbox in [64, 1] {
        run_in_turn(&rt, rt.alloc(), 100, inbox, LOOKS, Deed::Decide);
    }
}
