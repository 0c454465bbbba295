ghost use Rattle.std.specs.Prelude.{◌++◌, ◌∷◌, decimal, All, IfSome, OnErr, OnOk};
ghost use Rattle.ring_id.specs.GroupName.{IsName};
ghost use Rattle.ring_grammar.specs.Identities.{IsNode, node_word, weight_text};
ghost use Rattle.ring_grammar.specs.Spelling.{IsReply, line_of, reply_line, reply_words, term_word};
ghost use Rattle.ring_events.specs.declared.reply.Reply.TheVariants as reply;

mod lists;

use crate::sink::{Sink, SinkFailed};
use itoa::{Buffer, Integer};
pub use lists::{print_groups, print_members, print_terms};
use ring_events::Reply;
use ring_id::{GroupName, NodeId};

/// Puts the line of a reply: its one spelling and an LF. A reply that is put whole is one of the
/// grammar.
///
/// At `Err` a prefix of the line was put. Does not allocate.
#[inline(always)]
pub fn print_reply<W: Sink>(reply: &Reply, out: &mut W) -> Result<(), SinkFailed>
    ensures ok { OnOk result (W.takes out.old (reply_line reply.now) out.new) }
    ensures err { OnErr result (W.takes_front out.old (reply_line reply.now) out.new) }
    ensures legal { OnOk result (IsReply reply.now) }
{
    put_words(reply, out)?;
    out.put(b"\n")
}

// Puts the words of a reply, joined by one space.
#[inline(always)]
fn put_words<W: Sink>(reply: &Reply, out: &mut W) -> Result<(), SinkFailed>
    ensures ok { OnOk result (W.takes out.old (line_of (reply_words reply.now)) out.new) }
    ensures err { OnErr result (W.takes_front out.old (line_of (reply_words reply.now)) out.new) }
    ensures legal { OnOk result (IsReply reply.now) }
{
    match reply {
        Reply::Done => out.put(b"ok"),
        Reply::Term(term) => put_number(b"term ", term.get(), out),
        Reply::Leader(term, leader) => put_leader(term.get(), *leader, out),
        Reply::Undecided(term) => put_number(b"undecided ", term.get(), out),
        Reply::Members(members) => put_members(members.as_slice(), out),
        Reply::Terms(leaders) => put_terms(leaders.as_slice(), out),
        Reply::Groups(names) => put_groups(names.as_slice(), out),
        Reply::Moved => out.put(b"moved"),
        Reply::Idle => out.put(b"idle"),
        Reply::Pending(left) => put_number(b"pending ", left.get(), out),
        Reply::Drained {
            done,
            left,
            starved,
        } => put_drained(u128::from(*done), left.get(), *starved, out),
        Reply::Refused(refusal) => put_both(b"no ", refusal.word(), out),
    }
}

// Puts one text and then another.
#[inline(always)]
fn put_both<W: Sink>(first: &[u8], second: &[u8], out: &mut W) -> Result<(), SinkFailed>
    ensures ok { OnOk result (W.takes out.old (first.now ++ second.now) out.new) }
    ensures err { OnErr result (W.takes_front out.old (first.now ++ second.now) out.new) }
{
    out.put(first)?;
    out.put(second)
}

// Puts a text and then a number.
#[inline(always)]
fn put_number<N: Integer, W: Sink>(text: &[u8], number: N, out: &mut W) -> Result<(), SinkFailed>
    ensures ok { OnOk result (W.takes out.old (text.now ++ N.text number) out.new) }
    ensures err { OnErr result (W.takes_front out.old (text.now ++ N.text number) out.new) }
{
    put_both(text, Buffer::new().format(number).as_bytes(), out)
}

// Puts a text and then an identity.
#[inline(always)]
fn put_node<W: Sink>(text: &[u8], node: NodeId, out: &mut W) -> Result<(), SinkFailed>
    ensures ok { OnOk result (W.takes out.old (text.now ++ node_word node) out.new) }
    ensures err { OnErr result (W.takes_front out.old (text.now ++ node_word node) out.new) }
    ensures legal { IsNode node }
{
    put_number(text, node.get(), out)?;
    put_weight(node.weight(), out)
}

// Puts a slash and a weight, and nothing for the weight 0.
fn put_weight<W: Sink>(weight: u16, out: &mut W) -> Result<(), SinkFailed>
    ensures ok { OnOk result (W.takes out.old (weight_text weight) out.new) }
    ensures err { OnErr result (W.takes_front out.old (weight_text weight) out.new) }
{
    if weight == 0 {
        return Ok(());
    }
    put_number(b"/", weight, out)
}

#[inline(always)]
fn put_leader<W: Sink>(term: u16, leader: NodeId, out: &mut W) -> Result<(), SinkFailed>
    ensures ok { OnOk result
        (W.takes out.old (line_of (reply_words (reply.Leader term leader))) out.new) }
    ensures err { OnErr result
        (W.takes_front out.old (line_of (reply_words (reply.Leader term leader))) out.new) }
    ensures legal { IsNode leader }
{
    put_number(b"leader ", term, out)?;
    put_node(b" ", leader, out)
}

// Puts a text and a number, twice.
fn put_numbers<W: Sink>(
    text: &[u8],
    number: u128,
    next_text: &[u8],
    next_number: u128,
    out: &mut W,
) -> Result<(), SinkFailed>
    ensures ok { OnOk result
        (W.takes out.old ((text.now ++ decimal number) ++ (next_text.now ++ decimal next_number))
        out.new) }
    ensures err { OnErr result
        (W.takes_front out.old
        ((text.now ++ decimal number) ++ (next_text.now ++ decimal next_number)) out.new) }
{
    put_number(text, number, out)?;
    put_number(next_text, next_number, out)
}

fn put_drained<W: Sink>(
    done: u128,
    left: u128,
    starved: bool,
    out: &mut W,
) -> Result<(), SinkFailed>
    ensures ok { OnOk result
        (W.takes out.old (line_of (reply_words (reply.Drained done left starved))) out.new) }
    ensures err { OnErr result
        (W.takes_front out.old (line_of (reply_words (reply.Drained done left starved))) out.new) }
{
    put_numbers(b"drained ", done, b" left ", left, out)?;
    if starved {
        out.put(b" no-memory")
    } else {
        Ok(())
    }
}

fn put_members<W: Sink>(members: &[NodeId], out: &mut W) -> Result<(), SinkFailed>
    ensures ok { OnOk result
        (W.takes out.old (line_of (reply_words (reply.Members members.now))) out.new) }
    ensures err { OnErr result
        (W.takes_front out.old (line_of (reply_words (reply.Members members.now))) out.new) }
    ensures legal { OnOk result (All IsNode members.now) }
{
    out.put(b"members")?;
    for member in members {
        put_node(b" ", *member, out)?;
    }
    Ok(())
}

fn put_groups<W: Sink>(names: &[GroupName], out: &mut W) -> Result<(), SinkFailed>
    ensures ok { OnOk result
        (W.takes out.old (line_of (reply_words (reply.Groups names.now))) out.new) }
    ensures err { OnErr result
        (W.takes_front out.old (line_of (reply_words (reply.Groups names.now))) out.new) }
    ensures legal { OnOk result (All IsName names.now) }
{
    out.put(b"groups")?;
    for name in names {
        put_both(b" ", name.bytes(), out)?;
    }
    Ok(())
}

fn put_terms<W: Sink>(leaders: &[Option<NodeId>], out: &mut W) -> Result<(), SinkFailed>
    ensures ok { OnOk result
        (W.takes out.old (line_of (reply_words (reply.Terms leaders.now))) out.new) }
    ensures err { OnErr result
        (W.takes_front out.old (line_of (reply_words (reply.Terms leaders.now))) out.new) }
    ensures legal { OnOk result (All (λ leader. IfSome leader IsNode) leaders.now) }
{
    out.put(b"terms")?;
    for (index, leader) in leaders.iter().enumerate() {
        put_term(index as u128 + 1, *leader, out)?;
    }
    Ok(())
}

// Puts a space, the number of a term, a colon, and its leader or a hyphen.
fn put_term<W: Sink>(number: u128, leader: Option<NodeId>, out: &mut W) -> Result<(), SinkFailed>
    ensures ok { OnOk result (W.takes out.old (32 ∷ term_word number leader) out.new) }
    ensures err { OnErr result (W.takes_front out.old (32 ∷ term_word number leader) out.new) }
    ensures legal { OnOk result (IfSome leader IsNode) }
{
    put_number(b" ", number, out)?;
    match leader {
        Some(leader) => put_node(b":", leader, out),
        None => out.put(b":-"),
    }
}
