//! Test cases of sessions over ends of one byte for each call: what each line is answered, at the
//! end of the input and at a fault. Each session runs twice: over these ends themselves, and over
//! them as a reader and a writer of std. A session that ran out of memory is repeated once.

use crate::equal::equal;
use crate::memory::{drip_out, tells_of_memory};
use crate::table::grounds::{end, open_locked};
use crate::table::meetings::new_meeting;
use crate::table::telling::{FIRST, FIRST_TOLD};
use ring_lines::{DripIn, DripOut, FromRead, Intake, LineFault, Outlet, ToWrite};
use ring_table::Table;
use std::alloc::Global;
use std::process::Abort;
use std::sync::Wait;
use std::thread::Threads;
use std::time::Clock;

const LINES: &[u8] = b"create a chang\njoin a 5\nstart a\nwho a 5\n";

/// The input of a session, the numbers of the read call and the write call that fail, and how many
/// read calls it may make. A call with the number 0 is none.
#[derive(Clone, Copy)]
struct Drip<'a> {
    lines: &'a [u8],
    faults: [u64; 2],
    reads: u32,
}

// What a session comes to, and its writer.
type Came = (Result<u64, LineFault>, DripOut);

// Serves a session by a service of its own, whose worker does nothing. Returns what it comes to;
// `NoMemory` if there is no memory for the service.
fn served<R, I: Intake, O: Outlet>(
    rt: &R,
    alloc: Global,
    reader: &mut I,
    writer: &mut O,
    reads: u32,
) -> Result<u64, LineFault>
where
    R: Abort + Threads + Wait + Clock + Copy + Send + Sync + Drop + 'static,
{
    let gate = new_meeting(rt, alloc, 0);
    let made = open_locked(rt, alloc, Table::new(alloc), 1, 64, &gate);
    drop(gate);
    let Ok(mut ground) = made else {
        return Err(LineFault::NoMemory);
    };
    let (front, seat) = (ground.service.front(), &mut ground.one);
    let served = front.serve(rt, seat, 1, reader, writer, reads);
    drop(end(rt, ground));
    served
}

// Returns whether a session ran out of memory and so came to something else than this.
fn is_refused(came: &Came, wanted: Result<u64, LineFault>, replies: &[u8]) -> bool {
    let is_starved = came.0 == Err(LineFault::NoMemory) || tells_of_memory(came.1.taken());
    is_starved && (came.0 != wanted || came.1.taken() != replies)
}

// Runs a session over the ends themselves, or over them as a reader and a writer of std.
fn run<R>(rt: &R, alloc: Global, drip: Drip, by_std: bool) -> Came
where
    R: Abort + Threads + Wait + Clock + Copy + Send + Sync + Drop + 'static,
{
    let mut out = drip_out(rt, alloc, 200, drip.faults[1]);
    let mut reader = DripIn::new(drip.lines, drip.faults[0]);
    if by_std {
        let mut out = ToWrite(out);
        let result = served(rt, alloc, &mut FromRead(reader), &mut out, drip.reads);
        (result, out.0)
    } else {
        let result = served(rt, alloc, &mut reader, &mut out, drip.reads);
        (result, out)
    }
}

// Stops the test if such a session comes to something else, or is told something else.
fn assert_comes<R>(rt: &R, drip: Drip, wanted: Result<u64, LineFault>, replies: &[u8])
where
    R: Abort + AllocGlobal + Threads + Wait + Clock + Copy + Send + Sync + Drop + 'static,
{
    for by_std in [false, true] {
        let mut came = run(rt, rt.alloc(), drip, by_std);
        if is_refused(&came, wanted, replies) {
            drop(came);
            came = run(rt, rt.alloc(), drip, by_std);
        }
        let found = (came.0, came.1.taken());
        equal(rt, "lines, and replies", found, (wanted, replies));
        drop(came);
    }
}

// Returns the first `len` bytes of a text.
fn front(text: &[u8], len: usize) -> &[u8] {
    text.get(..len).unwrap_or(text)
}

// The numbers of bytes up to the end of each line of `FIRST`, and up to that of its reply.
const ENDS: [(usize, usize); 5] = [(15, 3), (24, 6), (32, 13), (42, 23), (52, 35)];

// Returns the replies to the lines of `FIRST` that end within its first `len` bytes.
fn told_after(len: usize) -> &'static [u8] {
    let mut told = 0_usize;
    for (line, reply) in ENDS {
        if line <= len {
            told = reply;
        }
    }
    front(FIRST_TOLD, told)
}

#[test]
fn a_session_counts_its_lines_and_ends_after_its_reads(rt: HostRuntime) {
    let replies = b"ok\nok\nterm 1\nundecided 1\n".as_slice();
    for (reads, wanted, told) in [
        (1000, Ok(4), replies),
        (15, Err(LineFault::Endless), b"ok\n"),
    ] {
        let drip = Drip {
            lines: LINES,
            faults: [0, 0],
            reads,
        };
        assert_comes(&rt, drip, wanted, told);
    }
}

// The session makes 53 read calls.
#[test]
fn a_failed_read_ends_a_session_at_its_last_whole_line(rt: HostRuntime) {
    for call in 1..55_u64 {
        let drip = Drip {
            lines: FIRST,
            faults: [call, 0],
            reads: 1000,
        };
        let (wanted, told) = if call == 54 {
            (Ok(5), FIRST_TOLD)
        } else {
            (Err(LineFault::Read), told_after(call as usize - 1))
        };
        assert_comes(&rt, drip, wanted, told);
    }
}

// The session makes 35 write calls.
#[test]
fn a_failed_write_ends_a_session_with_a_prefix_of_its_replies(rt: HostRuntime) {
    for call in 1..37_u64 {
        let drip = Drip {
            lines: FIRST,
            faults: [0, call],
            reads: 1000,
        };
        let (wanted, told) = if call == 36 {
            (Ok(5), FIRST_TOLD)
        } else {
            (Err(LineFault::Write), front(FIRST_TOLD, call as usize - 1))
        };
        assert_comes(&rt, drip, wanted, told);
    }
}
