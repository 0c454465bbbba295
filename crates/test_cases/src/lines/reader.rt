use crate::equal::equal;
use crate::memory::TWICE;
use ring_lines::{DripIn, FromRead, Intake, LineFault, LineReader, Next};
use std::alloc::{AllocFailed, Global};
use std::io;
use std::io::{ErrorKind, Read};
use std::process::Abort;

// A reader of one byte per call. If it was not interrupted at a call, it is at the next one.
#[derive(Drop)]
struct Stutter<'a> {
    bytes: DripIn<'a>,
    interrupted: bool,
}

impl Read for Stutter<'_> {
    fn read(&mut self, buffer: &mut [u8]) -> io::Result<usize> {
        self.interrupted = !self.interrupted;
        if self.interrupted {
            return Err(io::Error::new(ErrorKind::Interrupted, "a signal"));
        }
        Read::read(&mut self.bytes, buffer)
    }
}

// The lines of a reader. If an allocation fails, the call is made once more, with the reader that
// came back.
fn lines_of<R: Intake + Drop>(
    rt: &impl Abort,
    alloc: Global,
    reader: R,
    reads: u32,
) -> LineReader<R> {
    match LineReader::new(alloc, reader, reads) {
        Ok(lines) => lines,
        Err(AllocFailed { value }) => {
            let again = LineReader::new(alloc, value, reads).ok();
            again.expect(rt, TWICE)
        }
    }
}

// An answer as text: a line as itself, and any other answer in angle brackets.
fn shown(next: &Next) -> &[u8] {
    match next {
        Next::Line(line) => line.bytes(),
        Next::Long => b"<long>",
        Next::End => b"<end>",
        Next::Fault(LineFault::Read) => b"<read>",
        Next::Fault(LineFault::Endless) => b"<endless>",
        Next::Fault(_) => b"<other>",
    }
}

// The next answers of a reader are these.
fn gives<R: Intake>(rt: &impl Abort, lines: &mut LineReader<R>, answers: &[&[u8]]) {
    for answer in answers {
        equal(rt, "a line", shown(&lines.next()), *answer);
    }
}

// A text, the byte at which its reader fails, the number of read calls, and the answers.
type Case<'a> = (&'a [u8], u64, u32, &'a [&'a [u8]]);

// Each byte takes two read calls, and so does the end.
const CASES: [Case<'static>; 9] = [
    // an end needs no LF
    (
        b"create a chang\njoin a 3",
        0,
        1000,
        &[b"create a chang", b"join a 3", b"<end>", b"<end>"],
    ),
    (b"", 0, 1000, &[b"<end>"]),
    // a failed read drops the line that it cuts
    (
        b"create a chang\njoin a 3\njoi",
        28,
        1000,
        &[b"create a chang", b"join a 3", b"<read>", b"<read>"],
    ),
    // read calls are counted, also if they are interrupted
    (
        b"create a chang\n",
        0,
        30,
        &[b"create a chang", b"<endless>", b"<endless>"],
    ),
    (
        b"create a chang\n",
        0,
        32,
        &[b"create a chang", b"<end>", b"<end>"],
    ),
    (b"a\n", 0, 5, &[b"a", b"<endless>"]),
    (b"a\n", 0, 6, &[b"a", b"<end>"]),
    // a line has at most 128 bytes, and a longer one is answered once
    (&[b'x'; 128], 0, 1000, &[&[b'x'; 128], b"<end>"]),
    (&[b'x'; 129], 0, 1000, &[b"<long>", b"<end>"]),
];

#[test]
fn lines_are_read_byte_by_byte(rt: HostRuntime) {
    for (text, fault_at, reads, answers) in &CASES {
        let reader = Stutter {
            bytes: DripIn::new(text, *fault_at),
            interrupted: false,
        };
        let mut lines = lines_of(&rt, rt.alloc(), FromRead(reader), *reads);
        gives(&rt, &mut lines, answers);
        drop(lines);
    }
}

#[test]
fn a_line_is_held_once_it_was_read(rt: HostRuntime) {
    let mut lines = lines_of(&rt, rt.alloc(), FromRead(b"a\n\nb\n".as_slice()), 1000);
    let at_first = lines.has_line();
    gives(&rt, &mut lines, &[b"a"]);
    let then = lines.has_line();
    gives(&rt, &mut lines, &[b"", b"b"]);
    let at_last = lines.has_line();
    gives(&rt, &mut lines, &[b"<end>"]);
    drop(lines);
    equal(
        &rt,
        "the ends",
        (at_first, then, at_last),
        (false, true, false),
    );
}
