use crate::equal::equal;
use crate::lines::texts::Text;
use crate::memory::{drip_out, tells_of_memory};
use ring_lines::{DripIn, FromRead, LineFault, ToWrite};
use ring_schedule::replay;
use std::alloc::Global;
use std::process::Abort;

// A group, its term, and its leader.
const LINES: &[u8] =
    b"create a chang\njoin a 3\njoin a 1\njoin a 2\nstart a\npending a\ndrain a 100\nwho a 1\n";

const REPLIES: &[u8] = b"ok\nok\nok\nok\nterm 1\npending 3\ndrained 8 left 0\nleader 1 3\n";

// The ends of each line and of its reply.
const ENDS: [(usize, usize); 8] = [
    (15, 3),
    (24, 6),
    (33, 9),
    (42, 12),
    (50, 19),
    (60, 29),
    (72, 46),
    (80, 57),
];

// The input of a replay, the calls at which its ends fail, the number of read calls, the bytes that
// its writer has room for, its result and the bytes that it writes. Its ends pass one byte a call.
#[derive(Clone, Copy)]
struct Case<'a> {
    input: &'a [u8],
    read_fault: u64,
    reads: u32,
    room: usize,
    write_fault: u64,
    answer: Result<u64, LineFault>,
    written: &'a [u8],
}

const WHOLE: Case<'static> = Case {
    input: LINES,
    read_fault: 0,
    reads: 1000,
    room: 100,
    write_fault: 0,
    answer: Ok(8),
    written: REPLIES,
};

// The result of a replay, and what it writes.
type Came = (Result<u64, LineFault>, Text);

// A replay by these ends, or by a reader and a writer of std over them.
fn replayed(rt: &impl Abort, alloc: Global, case: &Case, is_by_std: bool) -> Came {
    let mut reader = DripIn::new(case.input, case.read_fault);
    let mut writer = drip_out(rt, alloc, case.room, case.write_fault);
    let answer = if is_by_std {
        let writer = &mut ToWrite(&mut writer);
        replay(alloc, &mut FromRead(reader), writer, case.reads)
    } else {
        replay(alloc, &mut reader, &mut writer, case.reads)
    };
    let written = Text::of(writer.taken());
    drop(writer);
    (answer, written)
}

// Whether a replay that came to something else ran out of memory.
fn is_refused(answer: Result<u64, LineFault>, written: &[u8], case: &Case) -> bool {
    let is_starved = answer == Err(LineFault::NoMemory) || tells_of_memory(written);
    is_starved && (answer != case.answer || written != case.written)
}

// Stops the test unless a replay comes to this, by these ends and by std. A replay that ran out of
// memory is repeated.
fn comes(rt: &impl Abort, alloc: Global, case: &Case) {
    for is_by_std in [false, true] {
        let (mut answer, mut written) = replayed(rt, alloc, case, is_by_std);
        if is_refused(answer, written.bytes(), case) {
            (answer, written) = replayed(rt, alloc, case, is_by_std);
        }
        equal(
            rt,
            "by std, the answer, and what is written",
            (is_by_std, answer, written.bytes()),
            (is_by_std, case.answer, case.written),
        );
    }
}

// The first bytes of the replies.
fn front(len: usize) -> &'static [u8] {
    REPLIES.get(..len).unwrap_or(REPLIES)
}

// The replies to the lines that end in the first bytes of the input.
fn replies_within(len: usize) -> &'static [u8] {
    let mut told = 0;
    for (line, reply) in &ENDS {
        if *line <= len {
            told = *reply;
        }
    }
    front(told)
}

#[test]
fn a_failed_read_drops_the_line_that_it_cuts(rt: HostRuntime) {
    for call in 1..=82u64 {
        let case = Case {
            read_fault: call,
            answer: if call < 82 {
                Err(LineFault::Read)
            } else {
                Ok(8)
            },
            written: replies_within(call as usize - 1),
            ..WHOLE
        };
        comes(&rt, rt.alloc(), &case);
    }
}

#[test]
fn endless_input_is_answered_as_far_as_it_was_read(rt: HostRuntime) {
    for (reads, answer) in [(15, Err(LineFault::Endless)), (16, Ok(1))] {
        let case = Case {
            input: b"create a chang\n",
            reads,
            answer,
            written: b"ok\n",
            ..WHOLE
        };
        comes(&rt, rt.alloc(), &case);
    }
}

// A writer that is full takes no byte, which is a failed write too.
#[test]
fn a_failed_write_leaves_a_front_of_the_replies(rt: HostRuntime) {
    for call in 1..=58u64 {
        let written = call as usize - 1;
        let failing = Case {
            write_fault: call,
            answer: if call < 58 {
                Err(LineFault::Write)
            } else {
                Ok(8)
            },
            written: front(written),
            ..WHOLE
        };
        let full = Case {
            write_fault: 0,
            room: written,
            ..failing
        };
        comes(&rt, rt.alloc(), &failing);
        comes(&rt, rt.alloc(), &full);
    }
}
