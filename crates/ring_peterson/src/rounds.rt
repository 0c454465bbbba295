ghost use Rattle.std.specs.Prelude.{◌≡◌, [], IfOk, MatchOption};
ghost use Rattle.ring_peterson.specs.Rounds.{LastRoundIsOne, LogarithmIsGreatest, MessagesAreOfRounds, RoundsShrink, first_round, rounds, stays_active, two_of};
ghost use Rattle.ring_peterson.specs.laws.Walk.{two_ends, walk_next};

use ring_id::{NoMemory, NodeId};
use ring_roster::Roster;
use std::alloc::Global;

/// Peterson's election shrinks by rounds (Lynch, Distributed Algorithms, 15.1.3: at least half of
/// the active processes become relays in each phase).
///
/// The laws are the contract; the call does nothing. Each round of two or more active nodes leaves
/// at least one of them active, and at most half. The last round has one node, which wins. A link
/// carries two messages for each round. The logarithm in the bound on all messages is the greatest
/// exponent whose power of two is at most the ring's length.
pub fn rounds_shrink()
    ensures shrink { RoundsShrink }
    ensures last { LastRoundIsOne }
    ensures messages { MessagesAreOfRounds }
    ensures logarithm { LogarithmIsGreatest }
{}

/// Returns round `number` of Peterson's election on a ring: the positions that are still active, in
/// their order, each with its value (Lynch, Distributed Algorithms, 15.1.3). In round 0 all
/// positions hold their own identities. Past the last round the list is empty. Tests compare
/// elections with this plain reading of the definition; nodes do not use it. `NoMemory` if an
/// allocation fails.
pub fn round_of(
    alloc: Global,
    ring: &Roster,
    number: usize,
) -> Result<Vec<(usize, NodeId)>, NoMemory>
    ensures { IfOk result (λ round. round.items ≡ rounds number (first_round ring.now)) }
{
    let mut round = first_of(alloc, ring)?;
    for _ in 0..number {
        if round.is_empty() {
            break;
        }
        round = next_of(alloc, &round)?;
    }
    Ok(round)
}

/// The first round: each position with its own identity.
fn first_of(alloc: Global, ring: &Roster) -> Result<Vec<(usize, NodeId)>, NoMemory>
    ensures { IfOk result (λ round. round.items ≡ first_round ring.now) }
{
    let mut round = Vec::new(alloc);
    for position in 0..ring.len() {
        if let Some(node) = ring.at(position) {
            round.push((position, node)).map_err(|_| NoMemory)?;
        }
    }
    Ok(round)
}

/// The next round, in one walk over the entries that carries the two values met last.
fn next_of(alloc: Global, round: &[(usize, NodeId)]) -> Result<Vec<(usize, NodeId)>, NoMemory>
    ensures { IfOk result (λ next. next.items ≡ walk_next round.now) }
{
    let mut next = Vec::new(alloc);
    let Some((mut before, mut last)) = ends(round) else {
        return Ok(next);
    };
    for entry in round {
        if stays(entry.1, before, last) {
            next.push((entry.0, last)).map_err(|_| NoMemory)?;
        }
        before = last;
        last = entry.1;
    }
    Ok(next)
}

/// Whether a position that holds this value stays active, if these two values are to its left.
fn stays(value: NodeId, before: NodeId, last: NodeId) -> bool
    ensures { result ≡ stays_active value (two_of before last) }
{
    value < last && before < last
}

/// The last two values of a round, which are to the left of its first position. A position that is
/// alone is its own predecessor.
fn ends(round: &[(usize, NodeId)]) -> Option<(NodeId, NodeId)>
    ensures { MatchOption result (round.now ≡ []) (λ two. two_of two.0 two.1 ≡ two_ends round.now) }
{
    let first = round.first()?;
    let mut before = first.1;
    let mut last = first.1;
    for entry in round {
        before = last;
        last = entry.1;
    }
    Some((before, last))
}
