//! A table that campaigns and a caller share, and the steps of test cases.

use crate::equal::equal;
use crate::memory::drip_out;
use crate::table::desks::new_locked;
use crate::table::rings_of_one::{elect, is_line, told_by};
use ring_any::Any;
use ring_campaign::{campaign, clear};
use ring_events::Reply;
use ring_id::{GroupName, Refusal};
use ring_lines::{DripIn, parse_command};
use ring_table::{Access, Answer, LockedSeat, LockedTable};
use std::alloc::Global;
use std::process::Abort;
use std::sync::Wait;
use std::time::Clock;

/// A locked table, the seat of its campaigns and the seat of a caller.
#[derive(Drop)]
struct Field {
    table: LockedTable<Any>,
    seat: LockedSeat<Any>,
    other: LockedSeat<Any>,
}

/// A step of a test case.
pub enum Step {
    /// A caller's line gets this reply.
    Says(&'static [u8], &'static [u8]),
    /// A campaign whose client sends these lines writes this.
    Tells(&'static [u8], &'static [u8]),
    /// A term of the group `a` starts, and its one member learns that it leads.
    Elects,
    /// All members are taken out of all groups.
    Clears,
}

/// Takes these steps with a table in which these lines got the reply `ok`.
pub fn run<R: Abort + Wait + Clock>(rt: &R, alloc: Global, made: &[&[u8]], steps: &[Step]) {
    let mut field = Field::new(rt, alloc);
    for line in made {
        field.says(rt, alloc, line, b"ok\n");
    }
    for step in steps {
        match step {
            Step::Says(line, wanted) => field.says(rt, alloc, line, wanted),
            Step::Tells(lines, told) => field.tells(rt, alloc, lines, told),
            Step::Elects => field.elect(rt, alloc),
            Step::Clears => clear(rt, &field.table, &mut field.seat, 0),
        }
    }
    drop(field);
}

impl Field {
    // A table without groups.
    fn new(rt: &impl Abort, alloc: Global) -> Field {
        let (table, mut seats) = new_locked(rt, alloc, 2);
        let seat = seats.pop().expect(rt, "no seat");
        let other = seats.pop().expect(rt, "one seat");
        drop(seats);
        Field { table, seat, other }
    }

    // The answer to a line.
    fn answer<R: Abort + Wait>(&mut self, rt: &R, line: &[u8]) -> Answer {
        let command = parse_command(line).expect(rt, "no command");
        self.table.call(rt, &mut self.other, 9, command)
    }

    // Stops the test unless the reply to a line is `wanted`. A call that ran out of memory is
    // repeated once.
    fn says<R: Abort + Wait>(&mut self, rt: &R, alloc: Global, line: &[u8], wanted: &[u8]) {
        let reply = match self.answer(rt, line).into_reply() {
            Reply::Refused(Refusal::NoMemory) => self.answer(rt, line).into_reply(),
            reply => reply,
        };
        is_line(rt, alloc, line, &reply, wanted);
        drop(reply);
    }

    // Stops the test unless a campaign whose client sends these lines writes `told`.
    fn tells<R: Abort + Wait + Clock>(&mut self, rt: &R, alloc: Global, lines: &[u8], told: &[u8]) {
        let mut reader = DripIn::new(lines, 0);
        let mut out = drip_out(rt, alloc, 200, 0);
        let (table, seat) = (&self.table, &mut self.seat);
        campaign(rt, alloc, table, seat, 7, &mut reader, &mut out);
        let found = (lines, out.taken());
        equal(rt, "lines, and what is told", found, (lines, told));
        drop(out);
    }

    // Starts a term of the group `a`, whose one member learns that it leads.
    fn elect<R: Abort + Wait>(&mut self, rt: &R, alloc: Global) {
        let name = GroupName::from_bytes(b"a").expect(rt, "no name");
        let (answer, charters) = self.table.begin(rt, &mut self.other, 9, name, 1);
        drop(answer);
        let node = elect(rt, alloc, charters.first().expect(rt, "no term began"));
        drop(charters);
        let report = told_by(rt, &node);
        drop(node);
        drop(self.table.report(rt, &mut self.other, &report));
        drop(report);
    }
}
