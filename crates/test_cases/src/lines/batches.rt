//! The log of a case has a mark of each step: `r` a line was read, `l` a long one, `(` a batch is
//! answered, `a` or `A` one of its lines was, `)` all were, `s` an answer was spelled, `<` a read
//! call, `>` a write call.

use crate::equal::equal;
use crate::lines::texts::{Log, Text, note};
use ring_grammar::{Sink, SinkFailed};
use ring_lines::{
    Answerer, Intake, LineFault, Outlet, ReadFault, Spell, WriteFailed, answer_lines,
};
use std::alloc::Global;
use std::cell::Cell;

// Answers each line by a text. The question of a line is the mark of its answer.
#[derive(Drop)]
struct Marking<'a> {
    log: &'a Log,
    text: &'a [u8],
}

// A text that notes when it is spelled.
#[derive(Drop)]
struct Marked<'a> {
    log: &'a Log,
    text: &'a [u8],
}

impl Spell for Marked<'_> {
    ghost spelling = { λ marked. marked.text.now };

    ghost is_legal = { λ _. Unit {0} };

    fn spell<S: Sink>(&self, out: &mut S) -> Result<(), SinkFailed> {
        note(self.log, b"s");
        out.put(self.text)
    }
}

impl<'b> Answerer for Marking<'b> {
    type State = ();

    type Asked = u8;

    type Answer = Marked<'b>;

    ghost holds = { λ _ _. Unit {0} };

    ghost asks = { λ _ _. Unit {0} };

    ghost answers = { λ _ _ _ _ _. Unit {0} };

    ghost may_tell = { λ _ _. Unit {0} };

    fn read(&self, _line: &[u8]) -> u8 {
        note(self.log, b"r");
        b'a'
    }

    fn read_long(&self) -> u8 {
        note(self.log, b"l");
        b'A'
    }

    fn answer_all(
        &self,
        _state: &mut (),
        _alloc: Global,
        asked: &[u8],
        given: &mut Vec<Marked<'b>>,
    ) {
        note(self.log, b"(");
        for mark in asked {
            note(self.log, &[*mark]);
            given.push_reserved(Marked {
                log: self.log,
                text: self.text,
            });
        }
        note(self.log, b")");
    }
}

// A reader that gives these pieces, one for each read call.
#[derive(Drop)]
struct Pieces<'a> {
    log: &'a Log,
    pieces: &'a [&'a [u8]],
    next: usize,
}

impl Intake for Pieces<'_> {
    ghost read_gives = { λ _ _ _. Unit {0} };

    fn read(&mut self, buffer: &mut [u8]) -> Result<usize, ReadFault> {
        note(self.log, b"<");
        let Some(piece) = self.pieces.get(self.next) else {
            return Ok(0);
        };
        self.next = self.next.saturating_add(1);
        let len = piece.len().min(buffer.len());
        buffer[..len].copy_from_slice(&piece[..len]);
        Ok(len)
    }
}

// A writer that takes all.
#[derive(Drop)]
struct Taking<'a> {
    log: &'a Log,
}

impl Outlet for Taking<'_> {
    ghost write_gives = { λ _ _ _. Unit {0} };

    fn write(&mut self, bytes: &[u8]) -> Result<usize, WriteFailed> {
        note(self.log, b">");
        Ok(bytes.len())
    }
}

// Pieces, the text that answers each of their lines, the number of lines, and the marks.
type Case<'a> = (&'a [&'a [u8]], &'a [u8], u64, &'a [u8]);

// A text of which the page holds one, but not two.
const LONG: [u8; 40000] = [0; 40000];

// At most 64 lines are answered together.
const MANY: &[u8] = b"<\
    rrrrrrrrrrrrrrrrrrrrrrrrrrrrrrrrrrrrrrrrrrrrrrrrrrrrrrrrrrrrrrrr\
    (\
    aaaaaaaaaaaaaaaaaaaaaaaaaaaaaaaaaaaaaaaaaaaaaaaaaaaaaaaaaaaaaaaa\
    )\
    ssssssssssssssssssssssssssssssssssssssssssssssssssssssssssssssss\
    r(a)s><";

const CASES: [Case<'static>; 5] = [
    (&[b"a\nb\nc", b"d\n"], b"short", 3, b"<rr(aa)ss><r(a)s><"),
    (&[b"a\n", b"b"], b"short", 2, b"<r(a)s><<r(a)s>"),
    (&[&[b'a'; 200], b"\nb\n"], b"short", 2, b"<<lr(Aa)ss><"),
    // the page is full after the first answer of three
    (&[b"a\nb\nc\nd"], &LONG, 4, b"<rrr(aaa)ss>>s><r(a)s>"),
    (&[&[b'\n'; 65]], b"short", 65, MANY),
];

// The result of the lines of a case, and the marks that are noted.
fn noted(alloc: Global, case: &Case) -> (Result<u64, LineFault>, Text) {
    let (pieces, text, ..) = *case;
    let log = Cell::new(Text::of(b""));
    let marking = Marking { log: &log, text };
    let mut reader = Pieces {
        log: &log,
        pieces,
        next: 0,
    };
    let mut writer = Taking { log: &log };
    let answer = answer_lines(alloc, &marking, &mut (), &mut reader, &mut writer, 100);
    (answer, log.get())
}

// Lines are answered again if the call ran out of memory.
#[test]
fn lines_are_read_and_then_answered_and_then_written_in_batches(rt: HostRuntime) {
    for case in &CASES {
        let (mut answer, mut marks) = noted(rt.alloc(), case);
        if answer == Err(LineFault::NoMemory) {
            (answer, marks) = noted(rt.alloc(), case);
        }
        let wanted = (Ok(case.2), case.3);
        equal(
            &rt,
            "the answer and the marks",
            (answer, marks.bytes()),
            wanted,
        );
    }
}
