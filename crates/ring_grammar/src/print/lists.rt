//! The lines of replies that are lists, given only the list.
ghost use Rattle.std.specs.Prelude.{OnErr, OnOk};
ghost use Rattle.ring_grammar.specs.Spelling.{IsReply, reply_line};
ghost use Rattle.ring_events.specs.declared.reply.Reply.TheVariants as reply;

use super::{put_groups, put_members, put_terms};
use crate::sink::{Sink, SinkFailed};
use ring_events::{GroupList, MemberList, TermList};

/// Puts the line of the reply that lists these members, as `print_reply` does.
///
/// At `Err` a prefix of the line was put. Does not allocate.
pub fn print_members<W: Sink>(members: &MemberList, out: &mut W) -> Result<(), SinkFailed>
    ensures ok { OnOk result (W.takes out.old (reply_line (reply.Members members.now)) out.new) }
    ensures err { OnErr result
        (W.takes_front out.old (reply_line (reply.Members members.now)) out.new) }
    ensures legal { OnOk result (IsReply (reply.Members members.now)) }
{
    put_members(members.as_slice(), out)?;
    out.put(b"\n")
}

/// Puts the line of the reply that lists these leaders, as `print_reply` does.
///
/// At `Err` a prefix of the line was put. Does not allocate.
pub fn print_terms<W: Sink>(leaders: &TermList, out: &mut W) -> Result<(), SinkFailed>
    ensures ok { OnOk result (W.takes out.old (reply_line (reply.Terms leaders.now)) out.new) }
    ensures err { OnErr result
        (W.takes_front out.old (reply_line (reply.Terms leaders.now)) out.new) }
    ensures legal { OnOk result (IsReply (reply.Terms leaders.now)) }
{
    put_terms(leaders.as_slice(), out)?;
    out.put(b"\n")
}

/// Puts the line of the reply that lists these groups, as `print_reply` does.
///
/// At `Err` a prefix of the line was put. Does not allocate.
pub fn print_groups<W: Sink>(names: &GroupList, out: &mut W) -> Result<(), SinkFailed>
    ensures ok { OnOk result (W.takes out.old (reply_line (reply.Groups names.now)) out.new) }
    ensures err { OnErr result
        (W.takes_front out.old (reply_line (reply.Groups names.now)) out.new) }
    ensures legal { OnOk result (IsReply (reply.Groups names.now)) }
{
    put_groups(names.as_slice(), out)?;
    out.put(b"\n")
}
