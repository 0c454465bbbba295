ghost use Rattle.std.specs.Prelude.{List, ℕ};
ghost use Rattle.ring_schedule.specs.Replay.{RepliesTo, Replays};
ghost use Rattle.ring_schedule.specs.private.Asking.{AsksEvent};

use crate::any_traffic::AnyTraffic;
use ring_any::Any;
use ring_events::{Event, Reply};
use ring_id::Refusal;
use ring_lines::{Answerer, Intake, LineFault, Outlet, answer_lines, parse_event};
use ring_mux::Mux;
use std::alloc::Global;

/// What answers a schedule: a line that spells an event by the reply of a mux to its step, and any
/// other line by `no bad-line`.
struct Replayer;

impl Answerer for Replayer {
    ghost use Rattle.std.specs.Prelude.{◌≡◌};
    ghost use Rattle.ring_schedule.specs.Replay.{RepliesTo};
    ghost use Rattle.ring_schedule.specs.private.Asking.{AsksEvent};

    type State = Mux<Any, AnyTraffic>;

    type Asked = Option<Event<Any>>;

    type Answer = Reply;

    ghost holds = { λ _ _. Unit {0} };

    ghost asks = { AsksEvent };

    ghost answers = { λ _. RepliesTo };

    ghost may_tell = { λ _ _. Unit {0} };

    fn read(&self, line: &[u8]) -> Option<Event<Any>> {
        parse_event(line)
    }

    fn read_long(&self) -> Option<Event<Any>> {
        None
    }

    fn answer_all(
        &self,
        state: &mut Mux<Any, AnyTraffic>,
        alloc: Global,
        asked: &[Option<Event<Any>>],
        given: &mut Vec<Reply>,
    ) {
        for question in asked {
            given.push_reserved(reply_to(state, alloc, *question));
        }
    }
}

// Returns the reply to the question of a line.
#[inline(always)]
fn reply_to(mux: &mut Mux<Any, AnyTraffic>, alloc: Global, asked: Option<Event<Any>>) -> Reply
    ensures { (line : List ℕ) → AsksEvent line asked → RepliesTo line mux.old result mux.new }
{
    match asked {
        Some(event) => mux.step(alloc, event),
        None => Reply::Refused(Refusal::BadLine),
    }
}

/// Answers a schedule: each line of the reader by one line to the writer, from no groups at all.
///
/// A line that spells an event is answered by the reply of a step of the election object and of the
/// worlds, and any other line by `no bad-line`. Before each read call exactly the replies to the
/// lines that were read whole are written. `Ok` is the number of lines, and comes at the end of the
/// input alone. At `Read` and at `Endless` the lines that an LF ends are answered; at `Write` a
/// front of the replies was written; at `NoMemory` nothing was read. Unless writing failed, each
/// reply is one of the grammar, so no two of them share a line. Makes at most `reads` read calls.
pub fn replay<R: Intake, W: Outlet>(
    alloc: Global,
    reader: &mut R,
    writer: &mut W,
    reads: u32,
) -> Result<u64, LineFault>
    ensures { Replays (record { gives = R.read_gives; from = reader.old; to = reader.new })
        (record { gives = W.write_gives; from = writer.old; to = writer.new }) reads result }
{
    let Ok(mut mux) = Mux::new(alloc) else {
        return Err(LineFault::NoMemory);
    };
    answer_lines(alloc, &Replayer, &mut mux, reader, writer, reads)
}
