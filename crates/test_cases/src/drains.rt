ghost use Rattle.std.specs.Prelude.{◌<◌, ◌≤◌, IfOk};
ghost use Rattle.ring_world.specs.Quiet.{AllKnow};
ghost use Rattle.ring_world.specs.Worlds.{IsUncut};
ghost use Rattle.test_cases.specs.Deliveries.{DeliversTimes};

use ring_election::RingElection;
use ring_id::NoMemory;
use ring_world::{Delivery, Traffic, World};

/// Delivers on the least ready link of a world until nothing is in flight or `most` deliveries are
/// made. Returns how many were made. If they are fewer than `most` and no link is cut, every node
/// knows the leader. Fails only if an allocation fails; the deliveries until then were made.
pub fn drain<E: RingElection, T: Traffic<E>>(
    world: &mut World<E, T>,
    most: u32,
) -> Result<u32, NoMemory>
    ensures few { IfOk result (λ done. done ≤ most) }
    ensures made { IfOk result (λ done. DeliversTimes E.table done world.old world.new) }
    ensures quiet { IfOk result
        (λ done. done < most → IsUncut world.new → AllKnow E.table E.winner world.new) }
{
    for done in 0..most {
        let Some((position, side)) = world.ready() else {
            return Ok(done);
        };
        // A ready link is never idle.
        let Delivery::Moved(_) = world.deliver(position, side) else {
            return Err(NoMemory);
        };
    }
    Ok(most)
}
