//! A test case of the order in which a session calls its access for the lines of a batch.
ghost use Rattle.std.specs.Prelude.{◌^◌, map};
ghost use Rattle.ring_any.specs.Any.{any_greatest, any_two_way, any_winner};
ghost use Rattle.ring_table.specs.Accesses.{AnswersAtSeat, BeginsAtSeat, Reports};
ghost use Rattle.ring_table.specs.Places.{HasPlaceBelow};

use crate::equal::equal;
use crate::memory::with_room;
use crate::table::grounds::{Opened, open};
use crate::table::meetings::new_meeting;
use crate::table::telling::tells;
use ring_any::Any;
use ring_events::Command;
use ring_id::GroupName;
use ring_node::{Charter, Report};
use ring_service::Closing;
use ring_table::{Access, Answer, Filed, LockedSeat, LockedTable, QueueHead, Table};
use std::process::Abort;
use std::sync::{Arc, Mutex, Wait};
use std::thread::Threads;
use std::time::Clock;

// A locked table before which callers queue, and a mark of each call: `q` one queues, `h` its seat
// holds the table, `c` a command is carried out, `b` a term is started, `r` the table is released,
// `s` the seat settles. If the head of the queue is held, the mark is a capital letter.
#[derive(Drop)]
struct Marked {
    table: LockedTable<Any>,
    head: Mutex<()>,
    marks: Mutex<Vec<u8>>,
}

impl Marked {
    // Notes one of two marks; nothing if an allocation fails.
    fn note(&self, free: u8, held: u8) {
        let mark = match self.head.try_lock() {
            Some(_) => free,
            None => held,
        };
        if let Some(mut marks) = self.marks.try_lock() {
            let _ = marks.push(mark);
        }
    }
}

impl Access<Any> for Marked {
    ghost use Rattle.std.specs.Prelude.{◌^◌};

    type Seat = LockedSeat<Any>;

    ghost has_seat = { λ _ _. Unit {0} };

    ghost mine = { λ seat. seat };

    ghost most = { 2 ^ 64 };

    ghost is_settled = { λ _. Unit {0} };

    fn enter_queue<R: Wait>(&self, rt: &R) -> QueueHead<'_> {
        self.note(b'q', b'Q');
        Some(self.head.lock(rt))
    }

    fn hold(&self, _seat: &mut LockedSeat<Any>) {
        self.note(b'h', b'H');
    }

    fn release(&self, _seat: &mut LockedSeat<Any>) {
        self.note(b'r', b'R');
    }

    fn call<R: Wait>(
        &self,
        rt: &R,
        seat: &mut LockedSeat<Any>,
        session: u32,
        command: Command<Any>,
    ) -> Answer
        ensures seat { Unit {0} }
        ensures entry { AnswersAtSeat any_winner any_two_way any_greatest session command
            seat.old result seat.new }
        ensures place { HasPlaceBelow (2 ^ 64) result }
    {
        self.note(b'c', b'C');
        self.table.call(rt, seat, session, command)
    }

    fn begin<R: Wait>(
        &self,
        rt: &R,
        seat: &mut LockedSeat<Any>,
        session: u32,
        group: GroupName,
        copies: usize,
    ) -> (Answer, Vec<Arc<Charter<Any>>>)
        ensures seat { Unit {0} }
        ensures entry { BeginsAtSeat any_winner any_two_way any_greatest session group copies
            seat.old result.0 (map (λ charter. charter.value) result.1.items) seat.new }
        ensures place { HasPlaceBelow (2 ^ 64) result.0 }
    {
        self.note(b'b', b'B');
        self.table.begin(rt, seat, session, group, copies)
    }

    fn report<R: Wait>(&self, rt: &R, seat: &mut LockedSeat<Any>, report: &Report<Any>) -> Filed
        ensures seat { Unit {0} }
        ensures entry { Reports any_winner any_greatest report.now seat.old result seat.new }
    {
        self.table.report(rt, seat, report)
    }

    fn settle<R: Wait>(&self, _rt: &R, _seat: &mut LockedSeat<Any>) {
        self.note(b's', b'S');
    }
}

// Serves a session over lines that are read at once, and closes the service. Returns the access.
fn served<R, A>(rt: &R, opened: Opened<A>, lines: &[u8], told: &[u8]) -> Arc<A>
where
    R: Abort + AllocGlobal + Threads + Wait,
    A: Access<Any> + Send + Sync + Drop + 'static,
    A::Seat: Send + 'static,
{
    let Opened {
        service,
        mut one,
        other,
    } = opened;
    tells(rt, rt.alloc(), service.front(), &mut one, 1, lines, told);
    drop(one);
    drop(other);
    let Closing {
        access,
        handed,
        waiting,
    } = service.close(rt);
    drop(handed);
    drop(waiting);
    access
}

// Stops the test if a session over these lines calls its access in another order.
fn has_marks<R>(rt: &R, lines: &[u8], told: &[u8], wanted: &[u8])
where
    R: Abort + AllocGlobal + Threads + Wait + Clock + Copy + Send + Sync + Drop + 'static,
{
    let alloc = rt.alloc();
    let made = LockedTable::new(alloc, Table::new(alloc), 3);
    let (table, seats) = made.expect(rt, "no table");
    let access = Marked {
        table,
        head: Mutex::new(()),
        marks: Mutex::new(with_room(rt, alloc, 40)),
    };
    let gate = new_meeting(rt, alloc, 0);
    let opened = open(rt, alloc, access, seats, 64, &gate);
    drop(gate);
    let access = served(rt, opened.expect(rt, "no service"), lines, told);
    let Marked { table, head, marks } = Arc::into_inner(access).expect(
        rt,
        "somebody shares the access still",
    );
    drop(table);
    drop(head);
    let marks = marks.into_inner();
    equal(rt, "the marks", marks.as_slice(), wanted);
    drop(marks);
}

#[test]
fn a_session_queues_once_for_a_batch_and_settles_after_it(rt: HostRuntime) {
    // three commands and two other lines, of which one comes first; the start is refused, so that
    // the worker calls nothing
    let lines = b"x\ncreate a chang\njoin a 5\ny\nstart b\n";
    let told = b"no bad-line\nok\nok\nno bad-line\nno no-group\n";
    has_marks(&rt, lines, told, b"qHCCBRs");
    // a batch without a command takes nothing
    has_marks(&rt, b"x\ny\n", b"no bad-line\nno bad-line\n", b"rs");
}
