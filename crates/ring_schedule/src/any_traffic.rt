ghost use Rattle.std.specs.Prelude.{◌≡◌, [], IfOk, length, replicate};
ghost use Rattle.ring_any.specs.Any.{any_fits, any_table, any_winner};
ghost use Rattle.ring_schedule.specs.Under.{charter_under};
ghost use Rattle.ring_world.specs.Worlds.{IsSoundWorld, no_cuts};

use ring_any::{Any, AnyMsg};
use ring_chang::Chang;
use ring_election::RingElection;
use ring_hirschberg::Hirschberg;
use ring_id::{NoMemory, Refusal, Side};
use ring_lelann::LeLann;
use ring_node::Charter;
use ring_peterson::Peterson;
use ring_world::{Passage, Passages, TalliedCircle, Traffic};
use std::alloc::Global;
use std::marker::Model;
use std::sync::Arc;

/// The nodes of a term of one of the four elections, and the packets between them.
///
/// Contracts see it as the traffic of the sum.
#[derive(Drop)]
pub struct AnyTraffic {
    kind: Kind,
}

/// The circle of a term's algorithm.
#[derive(Drop)]
enum Kind {
    LeLann(TalliedCircle<LeLann>),
    Chang(TalliedCircle<Chang>),
    Hirschberg(TalliedCircle<Hirschberg>),
    Peterson(TalliedCircle<Peterson>),
}

impl Model for AnyTraffic {
    ghost use Rattle.ring_any.specs.declared.any.Any.{Any};
    ghost use Rattle.ring_any.specs.declared.any.AnyMsg.{AnyMsg};
    ghost use Rattle.ring_world.specs.Worlds.{Running};

    ghost Value = { Running Any AnyMsg };

    ghost use Rattle.ring_schedule.specs.Kinds.{any_running};

    ghost view = { λ a. any_running a.kind };
}

impl Traffic<Any> for AnyTraffic {
    ghost running = { λ a. a };

    fn begin(alloc: Global, charter: Arc<Charter<Any>>) -> Result<AnyTraffic, NoMemory>
        ensures started { IfOk result (λ made. made ≡ record {
          charter = charter.value;
          journals = replicate (length charter.value.roster) [];
          cut = no_cuts (length charter.value.roster);
        }) }
        ensures sound { IfOk result (λ made. IsSoundWorld any_table any_fits any_winner made) }
    {
        let kind = match charter.algorithm() {
            Any::LeLann => Kind::LeLann(circle_under(alloc, &charter, LeLann)?),
            Any::Chang => Kind::Chang(circle_under(alloc, &charter, Chang)?),
            Any::Hirschberg => Kind::Hirschberg(circle_under(alloc, &charter, Hirschberg)?),
            Any::Peterson => Kind::Peterson(circle_under(alloc, &charter, Peterson)?),
        };
        Ok(AnyTraffic { kind })
    }

    fn cut(&mut self, position: usize, side: Side) -> Result<(), Refusal> {
        match &mut self.kind {
            Kind::LeLann(circle) => circle.cut(position, side),
            Kind::Chang(circle) => circle.cut(position, side),
            Kind::Hirschberg(circle) => circle.cut(position, side),
            Kind::Peterson(circle) => circle.cut(position, side),
        }
    }

    fn pass(&mut self, position: usize, side: Side, may_tell: bool) -> Passage {
        match &mut self.kind {
            Kind::LeLann(circle) => circle.pass(position, side, may_tell),
            Kind::Chang(circle) => circle.pass(position, side, may_tell),
            Kind::Hirschberg(circle) => circle.pass(position, side, may_tell),
            Kind::Peterson(circle) => circle.pass(position, side, may_tell),
        }
    }

    fn pass_ready(&mut self, most: u32) -> Passages {
        match &mut self.kind {
            Kind::LeLann(circle) => circle.pass_ready(most),
            Kind::Chang(circle) => circle.pass_ready(most),
            Kind::Hirschberg(circle) => circle.pass_ready(most),
            Kind::Peterson(circle) => circle.pass_ready(most),
        }
    }

    fn pending(&self) -> u128 {
        match &self.kind {
            Kind::LeLann(circle) => circle.pending(),
            Kind::Chang(circle) => circle.pending(),
            Kind::Hirschberg(circle) => circle.pending(),
            Kind::Peterson(circle) => circle.pending(),
        }
    }

    fn ready(&self) -> Option<(usize, Side)> {
        match &self.kind {
            Kind::LeLann(circle) => circle.ready(),
            Kind::Chang(circle) => circle.ready(),
            Kind::Hirschberg(circle) => circle.ready(),
            Kind::Peterson(circle) => circle.ready(),
        }
    }
}

/// The circle of a term's nodes, which have started, with states and messages of this algorithm.
fn circle_under<E: RingElection>(
    alloc: Global,
    charter: &Charter<Any>,
    algorithm: E,
) -> Result<TalliedCircle<E>, NoMemory>
    ensures started { IfOk result (λ made. made ≡ record {
      charter = charter_under algorithm charter.now;
      journals = replicate (length charter.now.roster) [];
      cut = no_cuts (length charter.now.roster);
    }) }
    ensures sound { IfOk result (λ made. IsSoundWorld E.table E.fits E.winner made) }
{
    let own = charter.under(alloc, algorithm)?;
    TalliedCircle::begin(alloc, own)
}
