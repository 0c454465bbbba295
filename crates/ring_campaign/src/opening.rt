//! One campaign, from the first line of its client to the leave of its member.
ghost use Rattle.std.specs.Prelude.{◌≡◌, ◌⊎◌, ℕ, List};
ghost use Rattle.ring_events.specs.declared.event.Command.TheVariants as command;
ghost use Rattle.ring_events.specs.declared.event.Event.TheVariants.{Client};
ghost use Rattle.ring_events.specs.declared.reply.Reply.TheVariants.{Refused};
ghost use Rattle.ring_grammar.specs.Spelling.{Spells, reply_line};
ghost use Rattle.ring_id.specs.declared.refusal.Refusal.TheVariants.{BadLine};
ghost use Rattle.ring_campaign.specs.Campaigns.{Campaigns, Given, no_line_yet};
ghost use Rattle.ring_campaign.specs.Entries.{GainsCampaign};
ghost use Rattle.ring_campaign.specs.private.Telling.{Asked, IsWish, Wishes};

use crate::caller::Caller;
use crate::candidate::Candidate;
use crate::telling::spell;
use ring_any::Any;
use ring_events::{Command, Reply};
use ring_id::{GroupName, NodeId, Refusal};
use ring_lines::{Found, Intake, Line, LineBuffer, Outlet, parse_command, put};
use ring_table::Access;
use std::alloc::Global;
use std::sync::Wait;
use std::time::Clock;

// the most read calls for the first line
const READS: u32 = u32::MAX;

// the longest line of a reply that needs no further allocation, in bytes
const ROOM: usize = 128;

/// The member that a client asks to be.
#[derive(Clone, Copy)]
pub(crate) struct Wish {
    pub(crate) group: GroupName,
    pub(crate) node: NodeId,
}

/// The content of a client's first line.
pub(crate) enum First {
    /// There is no line.
    NoLine,
    /// It spells no join.
    NoJoin,
    /// It spells the join of this member.
    Join(Wish),
}

/// Runs one campaign: the client is a member from its first line, which spells a join, to the end
/// of its connection.
///
/// The client gets the reply to the join. Before the first read call and after each, it gets the
/// reply to `who` for its member, unless that equals the last one. Bytes after the first line are
/// dropped. The campaign notices a change when a read call is interrupted, so the reader should
/// interrupt a call after some milliseconds.
///
/// A term is started if there is nobody to follow. There are four such cases:
///
/// - no term has begun;
/// - the leader of the last one is no member any more;
/// - this member's number led the last one, which was over another connection;
/// - the last one is undecided, and this member joined before all others.
///
/// If that start is refused, the client gets the refusal and the campaign ends. It also ends when a
/// read call fails or finds the end of the input, or when a write fails.
///
/// Then the member leaves. A term is started if the member led the last one or did not know its
/// leader. These commands are tried again until they are placed. Before a reply is written, all
/// entries that it was given from are kept for good.
///
/// Returns whether the first line was refused: it was read, and spells no join or is too long.
pub fn campaign<A, R, I, O>(
    rt: &R,
    alloc: Global,
    access: &A,
    seat: &mut A::Seat,
    session: u32,
    reader: &mut I,
    writer: &mut O,
) -> bool
where
    A: Access<Any> + Drop,
    R: Wait + Clock,
    I: Intake,
    O: Outlet,
    requires { A.has_seat access.now seat.old }
    ensures seat { A.has_seat access.now seat.new }
    ensures campaigns { Campaigns I.read_gives O.write_gives session (A.mine seat.old) reader.old
        writer.old (A.mine seat.new) reader.new writer.new result }
    ensures gained { GainsCampaign session (A.mine seat.old) (A.mine seat.new) }
    ensures told { (seat.new ≡ seat.old) ⊎ A.is_settled seat.new }
{
    begin(rt, alloc, access, seat, session, reader, writer)
}

// Runs a campaign, without the clause that follows from the others.
fn begin<A, R, I, O>(
    rt: &R,
    alloc: Global,
    access: &A,
    seat: &mut A::Seat,
    session: u32,
    reader: &mut I,
    writer: &mut O,
) -> bool
where
    A: Access<Any> + Drop,
    R: Wait + Clock,
    I: Intake,
    O: Outlet,
    requires { A.has_seat access.now seat.old }
    ensures seat { A.has_seat access.now seat.new }
    ensures campaigns { Campaigns I.read_gives O.write_gives session (A.mine seat.old) reader.old
        writer.old (A.mine seat.new) reader.new writer.new result }
    ensures told { (seat.new ≡ seat.old) ⊎ A.is_settled seat.new }
{
    let Ok(mut text) = Vec::with_capacity(alloc, ROOM) else {
        return false;
    };
    let Ok(mut lines) = LineBuffer::new(alloc, READS) else {
        return false;
    };
    match first_line(&mut lines, reader) {
        First::NoLine => false,
        First::NoJoin => {
            refuse(rt, &mut text, writer);
            true
        }
        First::Join(wish) => {
            let caller = Caller {
                rt,
                access,
                session,
            };
            let candidate = Candidate {
                caller,
                group: wish.group,
                number: wish.node.number(),
            };
            candidate.join(wish.node, seat, reader, writer, &mut text);
            false
        }
    }
}

// Writes that the first line is refused.
fn refuse<R: Wait + Clock, O: Outlet>(rt: &R, text: &mut Vec<u8>, writer: &mut O)
    ensures { Given O.write_gives writer.old (reply_line (Refused BadLine)) writer.new }
{
    spell(rt, &Reply::Refused(Refusal::BadLine), text);
    let _ = put(writer, text);
}

// Reads the first line, and returns its content.
fn first_line<I: Intake>(lines: &mut LineBuffer, reader: &mut I) -> First
    requires { lines.old ≡ no_line_yet }
    ensures { Asked I.read_gives reader.old result reader.new }
{
    let mut line = Line::new();
    match lines.next(reader, &mut line) {
        Found::Line => wish_in(line.bytes()),
        Found::Long => First::NoJoin,
        Found::End | Found::Fault(_) => First::NoLine,
    }
}

// Returns the member whose join a line spells, or `NoJoin` if it spells none.
fn wish_in(line: &[u8]) -> First
    ensures { IsWish line.now result }
{
    match parse_command(line) {
        Some(command) => wish_of(command),
        None => First::NoJoin,
    }
}

// Returns the member that a command joins, or `NoJoin` if it is no join.
fn wish_of(command: Command<Any>) -> First
    ensures { Wishes command result }
{
    match command {
        Command::Join(group, node) => First::Join(Wish { group, node }),
        _ => First::NoJoin,
    }
}
