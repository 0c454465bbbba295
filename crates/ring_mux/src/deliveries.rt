ghost use Rattle.std.specs.Prelude.{◌≡◌, ◌<◌, length};
ghost use Rattle.ring_terms.specs.Object.{names};
ghost use Rattle.ring_mux.specs.private.Journeys.{CarriesAmong, MakesAmong};
ghost use Rattle.ring_mux.specs.private.Views.{StandsAt};

use crate::carried::Carried;
use ring_election::RingElection;
use ring_id::Side;
use ring_terms::Book;
use ring_world::{Passage, PassagesEnd, Traffic, World};

/// Makes a delivery on the link into a position, in the world of the group at this place. If its
/// member then knows the leader for the first time, the book files that, by the same place.
pub fn carry<E: RingElection, T: Traffic<E>>(
    book: &mut Book<E>,
    place: usize,
    world: &mut World<E, T>,
    position: usize,
    side: Side,
) -> Carried
    requires stands { StandsAt E.table E.fits E.winner place book.old world.old }
    requires inside { position < length world.old.charter.roster }
    ensures { CarriesAmong E.table E.fits E.winner E.is_two_way E.is_greatest
        position side book.old world.old result book.new world.new }
{
    let leader = match world.pass(position, side) {
        Passage::Moved(leader) => leader,
        Passage::Idle => return Carried::Idle,
        Passage::Refused(refusal) => return Carried::Refused(refusal),
    };
    let Some(leader) = leader else {
        return Carried::Moved;
    };
    let _ = book.inform(place, world.charter(), position, leader);
    Carried::Moved
}

/// Makes at most `count` deliveries in the world of the group at this place, each at the first
/// ready link. Returns how many were made, and whether an allocation failed at the next one.
pub fn carry_many<E: RingElection, T: Traffic<E>>(
    book: &mut Book<E>,
    place: usize,
    world: &mut World<E, T>,
    count: u32,
) -> (u32, bool)
    requires { StandsAt E.table E.fits E.winner place book.old world.old }
    ensures { MakesAmong E.table E.fits E.winner E.is_greatest
        count book.old world.old result.0 result.1 book.new world.new }
{
    let mut done = 0;
    while done < count {
        let passages = world.pass_ready(count - done);
        done += passages.done;
        let end = passages.end;
        match end {
            PassagesEnd::Told(position, leader) => {
                let _ = book.inform(place, world.charter(), position, leader);
            }
            PassagesEnd::Made => return (done, false),
            PassagesEnd::Quiet => return (done, false),
            PassagesEnd::Starved => return (done, true),
        }
    }
    (done, false)
}
