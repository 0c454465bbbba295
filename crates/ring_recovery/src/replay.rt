//! Changes that are carried out again, each by the call that made it.
ghost use Rattle.std.specs.Prelude.{◌≡◌, ◌≢◌, ℕ, Err, IfNone, IfOk, IfSome, OnOk, Some, slice_get};
ghost use Rattle.ring_roster.specs.Ring.{IsRing};
ghost use Rattle.ring_change.specs.Changes.{asked_change};
ghost use Rattle.ring_change.specs.Lines.{marked_line};
ghost use Rattle.ring_change.specs.Spelling.{IsChange};
ghost use Rattle.ring_change.specs.declared.change.Change.{Change};
ghost use Rattle.ring_change.specs.declared.change.Change.TheVariants as change;
ghost use Rattle.ring_any.specs.Any.{any_greatest, any_two_way, any_winner};
ghost use Rattle.ring_node.specs.declared.charter.Charter.{Charter};
ghost use Rattle.ring_terms.specs.Charters.{running_in};
ghost use Rattle.ring_any.specs.declared.any.Any.{Any};
ghost use Rattle.ring_table.specs.Histories.{IsLegal};
ghost use Rattle.ring_recovery.specs.Damage.{MayCome, MayKnow};
ghost use Rattle.ring_recovery.specs.private.Replaying.{IsRefusedAt, IsReportOf, Redoes, RedoesLine};
ghost use Rattle.ring_recovery.specs.declared.replay.ReplayFault.TheVariants as replay_fault;

use ring_any::Any;
use ring_change::{Change, Check, change_of, one_change, read_line};
use ring_events::Command;
use ring_id::{GroupName, NodeId, NodeNo, TermNo};
use ring_node::{Charter, Filed, Report};
use ring_roster::Roster;
use ring_table::{Recorded, Unkept, is_starved};
use ring_terms::{Book, Standing};
use ring_winner::winner_of;
use std::alloc::{AllocError, Global};
use std::sync::Arc;

/// A table on which changes are carried out again.
pub(crate) type Replayed = Recorded<Any, Unkept<Any>>;

/// Why a change was not carried out.
#[derive(Clone, Copy)]
pub(crate) enum ReplayFault {
    /// It may not come there.
    Refused,
    /// An allocation failed.
    NoMemory,
}

// A member's news of the leader of a term.
#[derive(Clone, Copy)]
struct News {
    group: GroupName,
    term: TermNo,
    member: NodeId,
    leader: NodeId,
}

/// Carries out the change of a line, which is given without its LF. Leaves the check after this
/// line in `check`.
pub(crate) fn replay_line(
    alloc: Global,
    line: &[u8],
    check: &mut Check,
    table: &mut Replayed,
) -> Result<(), ReplayFault>
    ensures ok { OnOk result (RedoesLine check.old line.now table.old check.new table.new) }
    ensures legal { IsLegal any_two_way any_greatest table.old.history table.old.book }
    ensures refused { result ≡ Err replay_fault.Refused
        → (change : Change Any) → IsChange change → line.now ≡ marked_line check.old change
        → ¬ (MayCome table.old.book change) }
{
    // for their laws: the history so far is legal, and no two changes have this line
    let _count = table.count();
    one_change();
    match read_line(line, check) {
        Some(change) => replay(alloc, change, table),
        None => Err(ReplayFault::Refused),
    }
}

/// Carries out a change.
pub(crate) fn replay(
    alloc: Global,
    change: Change<Any>,
    table: &mut Replayed,
) -> Result<(), ReplayFault>
    ensures ok { OnOk result (Redoes table.old change table.new) }
    ensures refused { result ≡ Err replay_fault.Refused → ¬ (MayCome table.old.book change) }
{
    match change {
        Change::Create(group, algorithm) => redo(Command::Create(group, algorithm), table),
        Change::Join(group, node) => redo(Command::Join(group, node), table),
        Change::Leave(group, number) => redo(Command::Leave(group, number), table),
        Change::Start(group) => redo(Command::Start(group), table),
        Change::Know {
            group,
            term,
            member,
            leader,
        } => know(
            alloc,
            News {
                group,
                term,
                member,
                leader,
            },
            table,
        ),
    }
}

// Carries out a command again.
fn redo(command: Command<Any>, table: &mut Replayed) -> Result<(), ReplayFault>
    ensures ok { OnOk result ((change : Change Any) → asked_change command ≡ Some change
        → Redoes table.old change table.new) }
    ensures refused { result ≡ Err replay_fault.Refused
        → (change : Change Any) → asked_change command ≡ Some change
        → IsRefusedAt command table.old.book }
{
    let reply = table.call(0, command);
    if is_starved(&reply) {
        return Err(ReplayFault::NoMemory);
    }
    match change_of(&command, &reply) {
        Some(_) => Ok(()),
        None => Err(ReplayFault::Refused),
    }
}

// Files a report again.
fn know(alloc: Global, news: News, table: &mut Replayed) -> Result<(), ReplayFault>
    ensures ok { OnOk result (Redoes table.old
        (change.Know news.group news.term news.member news.leader) table.new) }
    ensures refused { result ≡ Err replay_fault.Refused
        → ¬ (MayKnow news.group news.term news.member news.leader table.old.book) }
{
    let report = report_of(alloc, news, table.book())?;
    match table.report(&report) {
        Filed::Noted => Ok(()),
        Filed::Known => Err(ReplayFault::Refused),
        Filed::Stale => Err(ReplayFault::Refused),
        Filed::Refused(_) => Err(ReplayFault::NoMemory),
    }
}

// The report of this news, if it is of the last term of its group and true.
fn report_of(alloc: Global, news: News, book: &Book<Any>) -> Result<Report<Any>, ReplayFault>
    ensures ok { IfOk result (IsReportOf news.group news.term news.member news.leader book.now) }
    ensures refused { result ≡ Err replay_fault.Refused
        → ¬ (MayKnow news.group news.term news.member news.leader book.now) }
{
    let Ok(charter) = book.running(news.group) else {
        return Err(ReplayFault::Refused);
    };
    let Some(position) = position_of(news.member, charter.roster()) else {
        return Err(ReplayFault::Refused);
    };
    let Ok(winner) = winner_in(alloc, book, charter, news.leader) else {
        return Err(ReplayFault::NoMemory);
    };
    if news.term != charter.term() || news.leader != winner {
        return Err(ReplayFault::Refused);
    }
    let Ok(charter) = Arc::try_clone(charter) else {
        return Err(ReplayFault::NoMemory);
    };
    Ok(Report::new(charter, position, news.member, news.leader))
}

// The winner of a running term. The book names it if this member is informed of it. Callers pass
// the leader, which is mostly the first to be informed. Otherwise the winner is worked out.
fn winner_in(
    alloc: Global,
    book: &Book<Any>,
    charter: &Charter<Any>,
    member: NodeId,
) -> Result<NodeId, AllocError>
    requires { running_in charter.now.group book.now ≡ Some charter.now }
    ensures { IfOk result (λ winner. winner ≡ any_winner charter.now.algorithm charter.now.roster) }
{
    match named(book, charter.group(), member.number()) {
        Some(leader) => Ok(leader),
        None => winner_of(alloc, charter.algorithm(), charter.roster()),
    }
}

// The leader of the last term of a group; `None` if this member is not informed of it.
fn named(book: &Book<Any>, group: GroupName, member: NodeNo) -> Option<NodeId>
    ensures { IfSome result (λ leader. (charter : Charter Any)
        → running_in group book.now ≡ Some charter
        → leader ≡ any_winner charter.algorithm charter.roster) }
{
    // for its law: in every book the leader of a term is the winner of its ring
    let _count = book.len();
    let Ok(standing) = book.who(group, member) else {
        return None;
    };
    match standing {
        Standing::Leader { leader, .. } => Some(leader),
        Standing::Undecided(_) => None,
    }
}

// The position of the member with this identity; `None` if no member has it.
fn position_of(member: NodeId, ring: &Roster) -> Option<usize>
    ensures some { IfSome result (λ position. slice_get ring.now position ≡ Some member) }
    ensures none { IfNone result ((position : ℕ) → slice_get ring.now position ≢ Some member) }
    ensures ring { IfSome result (λ _. IsRing ring.now) }
{
    let Some(position) = ring.position(member.number()) else {
        return None;
    };
    if ring.at(position) == Some(member) {
        return Some(position);
    }
    None
}
