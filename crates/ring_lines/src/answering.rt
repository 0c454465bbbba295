ghost use Rattle.std.specs.Prelude.{◌≡◌, ◌⊎◌};
ghost use Rattle.ring_lines.specs.Rounds.{AnswersLines};

use crate::answers::{Found, Line, LineFault};
use crate::batch::Batch;
use crate::buffer::LineBuffer;
use crate::ends::{Intake, Outlet};
use crate::page::Page;
use crate::passing::{close, pass_on, turn_to_next};
use ring_grammar::Spell;
use std::alloc::Global;

/// How many bytes of answers a page has room for before it is written.
const PAGE: usize = 65536;

/// Answers lines, one after another.
///
/// A line is read before it is answered: its question depends on its bytes alone. Answers change
/// the state, and never the answerer itself. A line is given without its LF.
///
/// The ghost members say what a line asks, and what answers need of the state and keep. They say
/// which answer a line may get in which state, and what the state is after it.
pub trait Answerer {
    ghost use Rattle.std.specs.Prelude.{List, ℕ, ◌≡◌, ◌<◌, ◌≤◌, [], length, vec_capacity};
    ghost use Rattle.ring_lines.specs.Batches.{AnswersAll};

    /// The state that answers change.
    type State;

    /// The question of a line.
    type Asked: Copy;

    /// An answer to a line.
    type Answer: Spell + Drop;

    ghost holds: { Self → Self.State → Type 0 };

    ghost asks: { List ℕ → Self.Asked → Type 0 };

    ghost answers: { Self → List ℕ → Self.State → Self.Answer → Self.State → Type 0 };

    // in this state the answers so far may be sent
    ghost may_tell: { Self → Self.State → Type 0 };

    /// Returns what a line asks.
    fn read(&self, line: &[u8]) -> Self::Asked
        ensures { asks line.now result };

    /// Returns what a line of more than 128 bytes asks. Those bytes were dropped.
    fn read_long(&self) -> Self::Asked
        ensures { (line : List ℕ) → 128 < length line → asks line result };

    /// Puts the answers to the questions of a batch, in order, into an empty list with room for
    /// them. Afterwards they may be sent.
    ///
    /// It may wait, and does not return if the answers may never be sent.
    fn answer_all(
        &self,
        state: &mut Self::State,
        alloc: Global,
        asked: &[Self::Asked],
        given: &mut Vec<Self::Answer>,
    )
        requires holds { holds self.now state.old }
        requires some { 0 < length asked.now }
        requires none { given.old.items ≡ [] }
        requires room { length asked.now ≤ vec_capacity given.old }
        ensures kept { holds self.now state.new }
        ensures told { may_tell self.now state.new }
        ensures answered { AnswersAll asks (answers self.now) asked.now state.old
            given.new.items state.new }
        ensures room { vec_capacity given.new ≡ vec_capacity given.old };
}

/// Answers each line of the reader by the spelling of one answer to the writer, in order.
///
/// `Ok` is the number of lines, and comes only at the end of the input. At `Read` and at `Endless`
/// the lines that an LF ends are answered. At `Write` a prefix of the answers was written. At
/// `NoMemory` nothing was read or answered. Unless writing failed, each answer is legal. Makes at
/// most `reads` read calls.
///
/// Before each read call exactly the answers to the lines that were read whole are written. Each
/// line gets its answer in the state that the lines before it left.
///
/// Lines are answered in batches of at most 64 buffered lines. All lines of a batch are read before
/// the first is answered. All are answered, by one call, before the first answer is spelled. This
/// order is tested, not proved.
///
/// However the call ends, the state is as it was, or all answers that were given may be sent in the
/// state that it leaves. That holds also if a write failed in the middle of these answers.
pub fn answer_lines<A: Answerer, R: Intake, W: Outlet>(
    alloc: Global,
    answerer: &A,
    state: &mut A::State,
    reader: &mut R,
    writer: &mut W,
    reads: u32,
) -> Result<u64, LineFault>
    requires { A.holds answerer.now state.old }
    ensures kept { A.holds answerer.now state.new }
    ensures told { (state.new ≡ state.old) ⊎ A.may_tell answerer.now state.new }
    ensures lines { AnswersLines
        (record { gives = R.read_gives; from = reader.old; to = reader.new })
        (record { gives = W.write_gives; from = writer.old; to = writer.new })
        (record {
          answers = A.answers answerer.now;
          spelling = A.Answer.spelling;
          is_legal = A.Answer.is_legal;
        })
        reads result state.old state.new }
{
    let Ok(mut lines) = LineBuffer::new(alloc, reads) else {
        return Err(LineFault::NoMemory);
    };
    let Ok(mut page) = Page::new(alloc, PAGE) else {
        return Err(LineFault::NoMemory);
    };
    let Ok(mut batch) = Batch::new(alloc) else {
        return Err(LineFault::NoMemory);
    };
    let mut line = Line::new();
    let mut count = 0;
    loop {
        let Ok(found) = turn_to_next(&mut lines, reader, &mut line, &mut page, writer) else {
            return Err(LineFault::Write);
        };
        let asked = match found {
            Found::Line => answerer.read(line.bytes()),
            Found::Long => answerer.read_long(),
            Found::End => return close(&mut page, writer, Ok(count)),
            Found::Fault(fault) => return close(&mut page, writer, Err(fault)),
        };
        batch.begin(asked);
        batch.read_held(answerer, &mut lines);
        batch.answer(answerer, state, alloc);
        let given = batch.given(answerer, state);
        let Ok(()) = pass_on(given, &mut page, writer) else {
            return Err(LineFault::Write);
        };
        count += given.len() as u64;
    }
}
