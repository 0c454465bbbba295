//! The changes of one group.
ghost use Rattle.std.specs.Prelude.{◌≡◌, ◌++◌, ◌∷◌, ◌≤◌, ◌+◌, [], length, map, IfOk, OnOk};
ghost use Rattle.ring_recovery.specs.BookChanges.{group_changes, moves, news, term_changes};
ghost use Rattle.ring_change.specs.declared.change.Change.TheVariants as change;

use ring_change::Change;
use ring_election::RingElection;
use ring_id::{GroupName, NoMemory, NodeId, TermNo};
use ring_roster::Roster;
use ring_terms::{ShownGroup, ShownTerm};
use std::alloc::Global;

/// Adds the changes of a group, from its creation on.
pub(crate) fn add_group<E: RingElection>(
    alloc: Global,
    group: &ShownGroup<'_, E>,
    changes: &mut Vec<Change<E>>,
) -> Result<(), NoMemory>
    requires { length group.now.1.terms ≤ 1000 }
    ensures { OnOk result (changes.new.items
        ≡ changes.old.items ++ group_changes group.now.0 group.now.1) }
{
    let name = group.name();
    add(changes, Change::Create(name, group.algorithm()))?;
    let mut before = Vec::new(alloc);
    let mut place: u16 = 0;
    while let Some(term) = group.term_at(place as usize) {
        let Some(number) = TermNo::new(place + 1) else {
            unreachable!()
        };
        let ring = members_of(alloc, term.ring())?;
        add_term(name, number, &before, &ring, &term, changes)?;
        before = ring;
        place += 1;
    }
    add_moves(name, &before, group.members(), changes)
}

// The members of a ring in order.
fn members_of(alloc: Global, ring: &Roster) -> Result<Vec<NodeId>, NoMemory>
    ensures { IfOk result (λ members. members.items ≡ ring.now) }
{
    let mut members = Vec::new(alloc);
    for position in 0..ring.len() {
        let Some(member) = ring.at(position) else {
            unreachable!()
        };
        let Ok(()) = members.push(member) else {
            return Err(NoMemory);
        };
    }
    Ok(members)
}

// Adds the changes of the term `number` on `ring`, of which `before` were the members until then.
fn add_term<E: RingElection>(
    name: GroupName,
    number: TermNo,
    before: &[NodeId],
    ring: &[NodeId],
    term: &ShownTerm<'_, E>,
    changes: &mut Vec<Change<E>>,
) -> Result<(), NoMemory>
    requires { ring.now ≡ term.now.ring }
    ensures { OnOk result (changes.new.items
        ≡ changes.old.items ++ term_changes name number before.now term.now) }
{
    add_moves(name, before, ring, changes)?;
    add(changes, Change::Start(name))?;
    match term.leader() {
        Some(leader) => add_news(name, number, leader, ring, term.informed(), changes),
        None => Ok(()),
    }
}

// Adds the changes by which the members `before` become the members `after`.
fn add_moves<E: RingElection>(
    name: GroupName,
    before: &[NodeId],
    after: &[NodeId],
    changes: &mut Vec<Change<E>>,
) -> Result<(), NoMemory>
    ensures { OnOk result (changes.new.items
        ≡ changes.old.items ++ moves name before.now after.now) }
{
    let mut rest = after;
    for member in before {
        match rest.split_first() {
            Some((next, others)) if *next == *member => rest = others,
            _ => add(changes, Change::Leave(name, member.number()))?,
        }
    }
    add_joins(name, rest, changes)
}

// Adds a change for each of these members, which join.
fn add_joins<E: RingElection>(
    name: GroupName,
    members: &[NodeId],
    changes: &mut Vec<Change<E>>,
) -> Result<(), NoMemory>
    ensures { OnOk result (changes.new.items
        ≡ changes.old.items ++ map (λ node. change.Join name node) members.now) }
{
    for member in members {
        add(changes, Change::Join(name, *member))?;
    }
    Ok(())
}

// Adds a change for each member that is informed of the leader of a term.
fn add_news<E: RingElection>(
    name: GroupName,
    number: TermNo,
    leader: NodeId,
    ring: &[NodeId],
    informed: &[bool],
    changes: &mut Vec<Change<E>>,
) -> Result<(), NoMemory>
    ensures { OnOk result (changes.new.items
        ≡ changes.old.items ++ news name number leader ring.now informed.now) }
{
    let mut marks = informed;
    for member in ring {
        let Some((mark, rest)) = marks.split_first() else {
            return Ok(());
        };
        if *mark {
            add(
                changes,
                Change::Know {
                    group: name,
                    term: number,
                    member: *member,
                    leader,
                },
            )?;
        }
        marks = rest;
    }
    Ok(())
}

// Adds a change.
fn add<E: Copy>(changes: &mut Vec<Change<E>>, change: Change<E>) -> Result<(), NoMemory>
    ensures { OnOk result (changes.new.items ≡ changes.old.items ++ change ∷ []) }
{
    let Ok(()) = changes.push(change) else {
        return Err(NoMemory);
    };
    Ok(())
}
