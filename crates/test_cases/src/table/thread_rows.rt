//! A test case of two threads that take turns at a table: each call is at its place, and the table
//! has no other entries. A call that ran out of memory is repeated once.
ghost use Rattle.std.specs.Prelude.{◌≡◌, ℕ};
ghost use Rattle.ring_turn.specs.Seats.{IsSameSeat};

use crate::equal::equal;
use crate::memory::with_room;
use crate::table::desks::new_lock;
use crate::table::telling::joined;
use ring_any::Any;
use ring_election::RingElection;
use ring_events::{Command, Reply};
use ring_id::{GroupName, NodeId, Refusal};
use ring_table::{Answer, Table};
use ring_turn::{Seat, TurnLock};
use std::alloc::Global;
use std::process::Abort;
use std::sync::Wait;
use std::thread;
use std::thread::Threads;

// Carries out a command of a session, which is done. Returns its place.
fn place_of<E: RingElection, R: Abort + Wait>(
    rt: &R,
    lock: &TurnLock<E>,
    seat: &mut Seat<E>,
    session: u32,
    command: Command<E>,
) -> usize
    requires { seat.old.lock ≡ lock.now.id }
    ensures { IsSameSeat seat.old seat.new }
{
    let answer = match lock.call(rt, seat, session, command) {
        Answer::Unplaced(Refusal::NoMemory) => lock.call(rt, seat, session, command),
        answer => answer,
    };
    let Answer::Placed { reply, place } = answer else {
        panic!(rt; "a call has no place")
    };
    assert!(rt; matches!(reply, Reply::Done));
    drop(reply);
    place
}

// The command by which this number joins the group `a`.
fn join<E>(rt: &impl Abort, number: u32) -> Command<E> {
    let group = GroupName::from_bytes(b"a").expect(rt, "no name");
    Command::Join(group, NodeId::new(number).expect(rt, "no identity is 0"))
}

// Has a hundred numbers from `from` on join the group `a`, in session `from`. The seat keeps the
// table for ten of them at a time. Returns the seat and the places of the calls.
fn join_hundred<E: RingElection, R: Abort + Wait>(
    rt: &R,
    alloc: Global,
    lock: &TurnLock<E>,
    seat: Seat<E>,
    from: u32,
) -> (Seat<E>, Vec<usize>)
    requires { seat.lock ≡ lock.now.id }
    ensures { IsSameSeat seat result.0 }
{
    let mut seat = seat;
    let mut places = with_room(rt, alloc, 100);
    for number in from..from.saturating_add(100) {
        if number % 10 == 1 {
            lock.hold(&mut seat);
        }
        let place = place_of(rt, lock, &mut seat, from, join(rt, number));
        assert!(rt; places.push(place).is_ok());
        if number % 10 == 0 {
            lock.release(&mut seat);
        }
    }
    (seat, places)
}

// Stops the test if these are not the places of a hundred joins from `from` on, which are done and
// rise. The calls that a seat made while it kept the table follow each other.
fn are_placed<E: RingElection>(rt: &impl Abort, table: &Table<E>, places: &[usize], from: u32) {
    let (mut last, mut number) = (0_usize, from);
    for place in places {
        // other calls may come before the first of ten
        let next = last.saturating_add(1);
        let is_first = number % 10 == 1;
        let due = if is_first { next.max(*place) } else { next };
        let found = (*place, joined(table.history().get(place.saturating_sub(1))));
        let wanted = (due, Some((from, number, true)));
        equal(rt, "a place, and its join", found, wanted);
        last = *place;
        number = number.saturating_add(1);
    }
    equal(rt, "places", places.len(), 100);
}

// Creates the group `a` by the first call, while the seat keeps the table, and joins after the seat
// rests. If the seat kept the table after that, calls through other seats would wait for good.
fn create<E: RingElection, R: Abort + Wait>(rt: &R, lock: &TurnLock<E>, seat: &mut Seat<E>, kind: E)
    requires { seat.old.lock ≡ lock.now.id }
    ensures { IsSameSeat seat.old seat.new }
{
    let group = GroupName::from_bytes(b"a").expect(rt, "no name");
    lock.hold(seat);
    let created = place_of(rt, lock, seat, 0, Command::Create(group, kind));
    lock.release(seat);
    let after = place_of(rt, lock, seat, 0, join(rt, 250));
    equal(rt, "two places", (created, after), (1, 2));
}

// Closes a lock with its three seats. Stops the test if the table has other entries than the calls
// at these places and the two of `create`.
fn end<E: RingElection>(
    rt: &impl Abort,
    alloc: Global,
    lock: TurnLock<E>,
    seats: (Seat<E>, Seat<E>, Seat<E>),
    places: (Vec<usize>, Vec<usize>),
)
    requires three { lock.seats ≡ 3 }
    requires first { (seats.0.lock ≡ lock.id) × (seats.0.number ≡ 0) }
    requires second { (seats.1.lock ≡ lock.id) × (seats.1.number ≡ 1) }
    requires third { (seats.2.lock ≡ lock.id) × (seats.2.number ≡ 2) }
{
    let (first, second, third) = seats;
    let mut all = with_room(rt, alloc, 3);
    all.push_reserved(first);
    all.push_reserved(second);
    all.push_reserved(third);
    let table = lock.close(all);
    are_placed(rt, &table, &places.0, 1);
    are_placed(rt, &table, &places.1, 101);
    drop(places);
    let entries = table.history().len();
    drop(table);
    equal(rt, "entries", entries, 202);
}

/// A lock by whose seats a hundred numbers join. Threads can share it if it is `Sync`.
trait Joins {
    ghost use Rattle.std.specs.Prelude.{ℕ};

    type Seat: Send + Drop;

    // the seat is the one of this number
    ghost sits: { Self → ℕ → Self.Seat → Type 0 };

    // Calls `join_hundred`.
    fn join<R: Abort + Wait>(
        &self,
        rt: &R,
        alloc: Global,
        seat: Self::Seat,
        from: u32,
    ) -> (Self::Seat, Vec<usize>)
        requires { (number : ℕ) × sits self.now number seat }
        ensures { (number : ℕ) → sits self.now number seat → sits self.now number result.0 };
}

impl Joins for TurnLock<Any> {
    type Seat = Seat<Any>;

    ghost sits = { λ lock number seat. (seat.lock ≡ lock.id) × (seat.number ≡ number) };

    fn join<R: Abort + Wait>(
        &self,
        rt: &R,
        alloc: Global,
        seat: Seat<Any>,
        from: u32,
    ) -> (Seat<Any>, Vec<usize>)
        requires { (number : ℕ) × (seat.lock ≡ self.now.id) × (seat.number ≡ number) }
        ensures { (number : ℕ) → (seat.lock ≡ self.now.id) × (seat.number ≡ number)
            → (result.0.lock ≡ self.now.id) × (result.0.number ≡ number) }
    {
        join_hundred(rt, alloc, self, seat, from)
    }
}

// A hundred joins in each of two threads, each by a seat of its own.
fn join_in_two<R, L>(
    rt: &R,
    alloc: Global,
    lock: &L,
    first: L::Seat,
    second: L::Seat,
) -> ((L::Seat, Vec<usize>), (L::Seat, Vec<usize>))
where
    R: Abort + Threads + Wait + Sync,
    L: Joins + Sync,
    requires { L.sits lock.now 0 first × L.sits lock.now 1 second }
    ensures { L.sits lock.now 0 result.0.0 × L.sits lock.now 1 result.1.0 }
{
    thread::join(
        rt,
        || -> (L::Seat, Vec<usize>)
            requires { (number : ℕ) × L.sits lock.now number first }
        { lock.join(rt, alloc, first, 1) },
        || -> (L::Seat, Vec<usize>)
            requires { (number : ℕ) × L.sits lock.now number second }
        { lock.join(rt, alloc, second, 101) },
    )
}

// A turn lock over a table without groups, and its three seats in order.
fn opened<E: RingElection>(
    rt: &impl Abort,
    alloc: Global,
) -> (TurnLock<E>, (Seat<E>, Seat<E>, Seat<E>))
    ensures three { result.0.seats ≡ 3 }
    ensures first { (result.1.0.lock ≡ result.0.id) × (result.1.0.number ≡ 0) }
    ensures second { (result.1.1.lock ≡ result.0.id) × (result.1.1.number ≡ 1) }
    ensures third { (result.1.2.lock ≡ result.0.id) × (result.1.2.number ≡ 2) }
{
    let (lock, mut seats) = new_lock(rt, alloc, 3, 200);
    let third = seats.pop().expect(rt, "no third seat");
    let second = seats.pop().expect(rt, "no second seat");
    let first = seats.pop().expect(rt, "no first seat");
    drop(seats);
    (lock, (first, second, third))
}

#[test]
fn two_threads_take_turns(rt: HostRuntime) {
    let alloc = rt.alloc();
    let (lock, (first, second, mut third)) = opened::<Any>(&rt, alloc);
    create(&rt, &lock, &mut third, Any::Chang);
    let ((first, low), (second, high)) = join_in_two(&rt, alloc, &lock, first, second);
    end(&rt, alloc, lock, (first, second, third), (low, high));
}
