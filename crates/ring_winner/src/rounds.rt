ghost use Rattle.std.specs.Prelude.{◌≡◌, ◌≤◌, IfOk, length};
ghost use Rattle.ring_peterson.specs.Rounds.{first_round, peterson_winner};
ghost use Rattle.ring_peterson.specs.laws.Walk.{walk_next};
ghost use Rattle.ring_roster.specs.Ring.{IsRing};

use ring_id::NodeId;
use ring_roster::Roster;
use std::alloc::{AllocError, Global};

/// Returns the member that is still active in the last round of Peterson's election. Each round has
/// at most half as many entries as the one before. Fails only if the one allocation fails.
pub(crate) fn last_active(alloc: Global, ring: &Roster) -> Result<NodeId, AllocError>
    ensures { IfOk result (λ leader. leader ≡ peterson_winner ring.now) }
{
    let mut round = first_round(alloc, ring)?;
    while round.len() > 1 {
        advance(&mut round);
    }
    Ok(ring.at(round[0].0).unwrap())
}

/// Returns the first round: each position with its own identity.
fn first_round(alloc: Global, ring: &Roster) -> Result<Vec<(usize, NodeId)>, AllocError>
    ensures round { IfOk result (λ round. round.items ≡ first_round ring.now) }
    ensures ring { IsRing ring.now }
{
    let mut round = Vec::with_capacity(alloc, ring.len())?;
    for position in 0..ring.len() {
        round.push_reserved((position, ring.at(position).unwrap()));
    }
    Ok(round)
}

/// Turns a round of two or more entries into the next one, in place.
///
/// An entry stays if its predecessor's value is greater than its own, and greater than the value
/// before that. It takes over its predecessor's value.
fn advance(round: &mut Vec<(usize, NodeId)>)
    requires { 2 ≤ length round.old.items }
    ensures { round.new.items ≡ walk_next round.old.items }
{
    let mut before = round[round.len() - 2].1;
    let mut last = round[round.len() - 1].1;
    let mut kept = 0;
    for place in 0..round.len() {
        let (position, value) = round[place];
        if value < last && before < last {
            round[kept] = (position, last);
            kept += 1;
        }
        before = last;
        last = value;
    }
    round.truncate(kept);
}
