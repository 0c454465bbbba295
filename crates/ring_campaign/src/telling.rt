//! The replies that a candidate writes to its client.
ghost use Rattle.std.specs.Prelude.{◌≡◌, ◌∷◌, [], OnErr, OnOk, false, true};
ghost use Rattle.ring_grammar.specs.Spelling.{reply_line};
ghost use Rattle.ring_campaign.specs.private.Looking.{IsTold};
ghost use Rattle.ring_campaign.specs.private.Telling.{Tells};
ghost use Rattle.ring_lines.specs.Ends.{Wrote, WroteFront};

use crate::candidate::Candidate;
use crate::replies::is_same;
use ring_any::Any;
use ring_events::Reply;
use ring_lines::{Outlet, WriteFailed, print_reply, put};
use ring_table::Access;
use std::sync::Wait;
use std::thread;
use std::time::{Clock, Duration};

// the pause before an allocation is tried again, in milliseconds
const PAUSE: u64 = 10;

impl<A: Access<Any> + Drop, R: Wait + Clock> Candidate<'_, A, R> {
    /// Writes a reply, unless it equals the last one. It is the last one from then on. Before that,
    /// all entries that it was given from are kept for good.
    pub(crate) fn tell<O: Outlet>(
        &self,
        seat: &mut A::Seat,
        last: &mut Reply,
        reply: Reply,
        text: &mut Vec<u8>,
        writer: &mut O,
    ) -> Result<(), WriteFailed>
        requires seat { A.has_seat self.now.caller.access.now seat.old }
        requires told { IsTold reply }
        ensures seat { A.has_seat self.now.caller.access.now seat.new }
        ensures entries { A.mine seat.new ≡ A.mine seat.old }
        ensures ok { OnOk result
            (Tells O.write_gives last.old writer.old (reply ∷ []) true last.new writer.new) }
        ensures err { OnErr result
            (Tells O.write_gives last.old writer.old (reply ∷ []) false last.new writer.new) }
    {
        if is_same(last, &reply) {
            drop(reply);
            return Ok(());
        }
        self.caller.access.settle(self.caller.rt, seat);
        let put = self.put(seat, &reply, text, writer);
        *last = reply;
        put
    }

    /// Writes the line of a reply. All entries from which the seat's answers were given are kept
    /// for good.
    pub(crate) fn put<O: Outlet>(
        &self,
        seat: &A::Seat,
        reply: &Reply,
        text: &mut Vec<u8>,
        writer: &mut O,
    ) -> Result<(), WriteFailed>
        requires { A.is_settled seat.now }
        ensures ok { OnOk result
            (Wrote O.write_gives writer.old (reply_line reply.now) writer.new) }
        ensures err { OnErr result
            (WroteFront O.write_gives writer.old (reply_line reply.now) writer.new) }
    {
        spell(self.caller.rt, reply, text);
        put(writer, text)
    }
}

/// Spells the line of a reply. If an allocation fails, waits and tries again.
pub(crate) fn spell<R: Wait + Clock>(rt: &R, reply: &Reply, text: &mut Vec<u8>)
    ensures { text.new.items ≡ reply_line reply.now }
{
    for _ in rt.forever() {
        text.clear();
        if print_reply(reply, text).is_ok() {
            return;
        }
        thread::sleep(rt, Duration::from_millis(PAUSE));
    }
    unreachable!()
}
