ghost use Rattle.std.specs.Prelude.{◌≡◌};
ghost use Rattle.ring_table.specs.Accesses.{filing};
ghost use Rattle.ring_table.specs.declared.entry.Entry.TheVariants as entry;

use crate::happening::Happening;
use ring_any::Any;
use ring_election::RingElection;
use ring_events::{Command, Reply};
use ring_node::Report;
use ring_terms::Noting;
use std::marker::Model;
use std::mem::size_of;
use std::snapshot::Snapshot;

/// An entry without bytes. Contracts see it as that entry.
#[derive(Drop)]
pub struct Trace<E> {
    happening: Snapshot<Happening<E>>,
    reply: Snapshot<Reply>,
}

const _: () = prove!(size_of::<Trace<Any>>() == 0);

impl<E> Model for Trace<E> {
    ghost use Rattle.ring_table.specs.private.Traces.{entry_of};
    ghost use Rattle.ring_table.specs.declared.entry.Entry.{Entry};

    ghost Value = { Entry E };

    ghost view = { λ trace. entry_of trace.happening.value trace.reply.value };
}

impl<E: RingElection> Trace<E> {
    /// Returns the trace of a session's command and its reply.
    pub(crate) fn of_call(session: u32, command: Command<E>, reply: &Reply) -> Trace<E>
        ensures { result ≡ entry.Call session command reply.now }
    {
        let happening = Happening::Call { session, command };
        Trace {
            happening: Snapshot::of(&happening),
            reply: Snapshot::of(reply),
        }
    }

    /// Returns the trace of a report and what became of it.
    pub(crate) fn of_filing(report: &Report<E>, noting: Noting) -> Trace<E>
        ensures { result ≡ filing report.now noting }
    {
        let happening = Happening::Filing {
            group: report.charter().group(),
            term: report.charter().term(),
            member: report.member(),
            leader: report.leader(),
            noting,
        };
        // a filing has no reply: a trace of one ignores this
        let no_reply = Reply::Done;
        Trace {
            happening: Snapshot::of(&happening),
            reply: Snapshot::of(&no_reply),
        }
    }
}
