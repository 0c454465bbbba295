ghost use Rattle.std.specs.Prelude.{◌++◌, ◌≡◌, ◌∷◌, OnErr, OnOk};
ghost use Rattle.ring_grammar.specs.Identities.{IsNode, node_word, weight_text};
ghost use Rattle.ring_change.specs.private.Parts.{group_in, known_text, rest_text, verb_text};
ghost use Rattle.ring_change.specs.Spelling.{IsChange, change_line};

use crate::change::Change;
use itoa::{Buffer, Integer};
use ring_any::Any;
use ring_grammar::{Sink, SinkFailed};
use ring_id::{GroupName, NodeId, TermNo};

/// Puts the line of a change: its one spelling, without an LF.
///
/// At `Err` a prefix of it was put. Does not allocate.
pub fn print_change<S: Sink>(change: &Change<Any>, out: &mut S) -> Result<(), SinkFailed>
    ensures ok { OnOk result (S.takes out.old (change_line change.now) out.new) }
    ensures err { OnErr result (S.takes_front out.old (change_line change.now) out.new) }
    ensures legal { IsChange change.now }
{
    legal(change);
    put_both(verb(change), group(change).bytes(), out)?;
    put_rest(change, out)
}

// The types of a change keep that it is legal. These calls do nothing when they run.
fn legal(change: &Change<Any>)
    ensures { IsChange change.now }
{
    let _name = group(change).bytes();
    match change {
        Change::Create(..) | Change::Start(_) => {}
        Change::Join(_, node) => legal_node(*node),
        Change::Leave(_, number) => {
            let _number = number.get();
        }
        Change::Know {
            term,
            member,
            leader,
            ..
        } => {
            let _term = term.get();
            legal_node(*member);
            legal_node(*leader);
        }
    }
}

fn legal_node(node: NodeId)
    ensures { IsNode node }
{
    let (_number, _weight) = (node.get(), node.weight());
}

// The first word of a change and a space.
fn verb(change: &Change<Any>) -> &'static [u8]
    ensures { result.now ≡ verb_text change.now }
{
    match change {
        Change::Create(..) => b"create ",
        Change::Join(..) => b"join ",
        Change::Leave(..) => b"leave ",
        Change::Start(_) => b"start ",
        Change::Know { .. } => b"know ",
    }
}

fn group(change: &Change<Any>) -> GroupName
    ensures { result ≡ group_in change.now }
{
    match change {
        Change::Create(group, _) => *group,
        Change::Join(group, _) => *group,
        Change::Leave(group, _) => *group,
        Change::Start(group) => *group,
        Change::Know { group, .. } => *group,
    }
}

// The text after the name of the group.
fn put_rest<S: Sink>(change: &Change<Any>, out: &mut S) -> Result<(), SinkFailed>
    ensures ok { OnOk result (S.takes out.old (rest_text change.now) out.new) }
    ensures err { OnErr result (S.takes_front out.old (rest_text change.now) out.new) }
{
    match change {
        Change::Create(_, algorithm) => put_both(b" ", algorithm.word(), out),
        Change::Join(_, node) => put_node(b" ", *node, out),
        Change::Leave(_, number) => put_number(b" ", number.get(), out),
        Change::Start(_) => Ok(()),
        Change::Know {
            term,
            member,
            leader,
            ..
        } => put_known(*term, *member, *leader, out),
    }
}

fn put_known<S: Sink>(
    term: TermNo,
    member: NodeId,
    leader: NodeId,
    out: &mut S,
) -> Result<(), SinkFailed>
    ensures ok { OnOk result (S.takes out.old (known_text term member leader) out.new) }
    ensures err { OnErr result (S.takes_front out.old (known_text term member leader) out.new) }
{
    put_number(b" ", term.get(), out)?;
    put_nodes(member, leader, out)
}

// A space and an identity, twice.
fn put_nodes<S: Sink>(first: NodeId, second: NodeId, out: &mut S) -> Result<(), SinkFailed>
    ensures ok { OnOk result (S.takes out.old
        ((32 ∷ node_word first) ++ (32 ∷ node_word second)) out.new) }
    ensures err { OnErr result (S.takes_front out.old
        ((32 ∷ node_word first) ++ (32 ∷ node_word second)) out.new) }
{
    put_node(b" ", first, out)?;
    put_node(b" ", second, out)
}

// One text and then another.
#[inline(always)]
fn put_both<S: Sink>(first: &[u8], second: &[u8], out: &mut S) -> Result<(), SinkFailed>
    ensures ok { OnOk result (S.takes out.old (first.now ++ second.now) out.new) }
    ensures err { OnErr result (S.takes_front out.old (first.now ++ second.now) out.new) }
{
    out.put(first)?;
    out.put(second)
}

// A text and then a number.
#[inline(always)]
fn put_number<N: Integer, S: Sink>(text: &[u8], number: N, out: &mut S) -> Result<(), SinkFailed>
    ensures ok { OnOk result (S.takes out.old (text.now ++ N.text number) out.new) }
    ensures err { OnErr result (S.takes_front out.old (text.now ++ N.text number) out.new) }
{
    put_both(text, Buffer::new().format(number).as_bytes(), out)
}

// A text and then an identity.
fn put_node<S: Sink>(text: &[u8], node: NodeId, out: &mut S) -> Result<(), SinkFailed>
    ensures ok { OnOk result (S.takes out.old (text.now ++ node_word node) out.new) }
    ensures err { OnErr result (S.takes_front out.old (text.now ++ node_word node) out.new) }
{
    put_number(text, node.get(), out)?;
    put_weight(node.weight(), out)
}

// A slash and a weight, and nothing for the weight 0.
fn put_weight<S: Sink>(weight: u16, out: &mut S) -> Result<(), SinkFailed>
    ensures ok { OnOk result (S.takes out.old (weight_text weight) out.new) }
    ensures err { OnErr result (S.takes_front out.old (weight_text weight) out.new) }
{
    if weight == 0 {
        return Ok(());
    }
    put_number(b"/", weight, out)
}
