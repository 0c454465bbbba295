ghost use Rattle.std.specs.Prelude.{◌≡◌, ◌<◌, [], Some, None, IsOk, IfOk, OnErr, OnOk, true, false};
ghost use Rattle.ring_roster.specs.Ring.{position_of};
ghost use Rattle.ring_terms.specs.Commands.{Shows, in_group, running_refusal, who_refusal};
ghost use Rattle.ring_terms.specs.Object.{OfGroup, OfLast, names};
ghost use Rattle.ring_mux.specs.Quiet.{QuietIsKnown};
ghost use Rattle.ring_terms.specs.private.Replies.{done_reply};
ghost use Rattle.ring_terms.specs.Steps.{KnownIfNone, Run, Step, StepOf};
ghost use Rattle.ring_mux.specs.private.Views.{HasGrown, IsAt};
ghost use Rattle.ring_mux.specs.Views.{IsHeld, IsPendingIn};
ghost use Rattle.ring_mux.specs.WorldSteps.{CommandOfWorlds, LeavesQuiet, RunOfWorlds, StartOfWorlds, StepOfWorlds};

use crate::carried::Carried;
use crate::deliveries::{carry, carry_many};
use ring_election::RingElection;
use ring_events::{Command, Count, Event, Reply};
use ring_id::{GroupName, NoMemory, NodeNo, Refusal, Side};
use ring_terms::Book;
use ring_world::{TalliedCircle, Traffic, World};
use std::alloc::Global;
use std::marker::Model;
use std::sync::Arc;

/// Many groups at once: a book, and the world of the last term of each group at the group's place.
///
/// `T` keeps what is in flight in a world. Contracts see a mux as the election object and the
/// worlds under the names of their groups.
#[derive(Drop)]
pub struct Mux<E: RingElection, T: Traffic<E> = TalliedCircle<E>> {
    book: Book<E>,
    worlds: Vec<Option<World<E, T>>>,
}

impl<E: RingElection, T: Traffic<E>> Model for Mux<E, T> {
    ghost use Rattle.ring_terms.specs.Object.{names};
    ghost use Rattle.ring_mux.specs.Views.{Held, placed};
    ghost use Rattle.ring_mux.specs.private.Views.{IsKeptAt};

    ghost Value = { Held E E.Msg };

    ghost view = { λ a. record { object = a.book; worlds = placed (names a.book) a.worlds.items } };

    ghost invariant = { λ a. IsKeptAt E.table E.fits E.winner a.book a.worlds.items };
}

impl<E: RingElection, T: Traffic<E>> Mux<E, T> {
    /// A mux without groups. Does not allocate.
    pub fn new(alloc: Global) -> Result<Mux<E, T>, NoMemory>
        ensures free { IsOk result }
        ensures empty { IfOk result (λ mux. mux ≡ record { object = []; worlds = [] }) }
    {
        Ok(Mux {
            book: Book::new(alloc),
            worlds: Vec::new(alloc),
        })
    }

    /// The book of groups and terms. Does not allocate.
    pub fn book(&self) -> &Book<E>
        ensures { result.now ≡ self.now.object }
    {
        &self.book
    }

    /// The reply to one event, which is a step of the election object, and at once a step of the
    /// worlds. Afterwards a member of a running term is informed exactly if its own node knows the
    /// leader. A running term with nothing in flight and no cut link is known at all its members.
    pub fn step(&mut self, alloc: Global, event: Event<E>) -> Reply
        ensures object { Step E.is_two_way E.is_greatest
            self.old.object event result self.new.object }
        ensures worlds { StepOfWorlds E.table E.is_two_way E.is_greatest
            self.old event result self.new }
        ensures informed { IsHeld E.table self.new.object self.new.worlds }
        ensures quiet { QuietIsKnown E.table self.new }
    {
        let reply = match event {
            Event::Client(command) => self.command(alloc, command),
            Event::Deliver { group, node, side } => self.deliver(group, node, side),
            Event::Cut { group, node, side } => self.cut(group, node, side),
            Event::Pending { group } => self.count(group),
            Event::Drain { group, count } => self.drain(group, count),
        };
        // a read, so that the prover has the invariant of the new state
        let _ = &self.worlds;
        reply
    }

    /// The replies to events that are taken one after another: a run of the election object, and of
    /// the worlds. After each event a member of a running term is informed exactly if its own node
    /// knows the leader. A running term with nothing in flight and no cut link is then known at all
    /// its members. Room for all replies is found first: if that allocation fails, no event was
    /// taken.
    pub fn run(&mut self, alloc: Global, events: &[Event<E>]) -> Result<Vec<Reply>, NoMemory>
        ensures run { IfOk result (λ replies. Run E.is_two_way E.is_greatest
            self.old.object events.now replies.items self.new.object) }
        ensures worlds { IfOk result (λ replies. RunOfWorlds E.table E.is_two_way E.is_greatest
            self.old events.now replies.items self.new) }
        ensures informed { IsHeld E.table self.new.object self.new.worlds }
        ensures quiet { QuietIsKnown E.table self.new }
        ensures err { OnErr result (self.new ≡ self.old) }
    {
        // a read, so that the prover has the invariant before the first event
        let _ = &self.worlds;
        let Ok(mut replies) = Vec::with_capacity(alloc, events.len()) else {
            return Err(NoMemory);
        };
        for event in events {
            let reply = self.step(alloc, *event);
            replies.push_reserved(reply);
        }
        Ok(replies)
    }

    /// The reply to a client's command. A start also makes the world of its term; every other
    /// command leaves the worlds as they are.
    #[inline(always)]
    fn command(&mut self, alloc: Global, command: Command<E>) -> Reply
        ensures object { StepOf E.is_two_way E.is_greatest
            self.old.object command result self.new.object }
        ensures worlds { CommandOfWorlds self.old command result self.new }
    {
        match command {
            Command::Start(group) => self.start(alloc, group),
            other => self.book.perform(alloc, other),
        }
    }

    /// Starts a term. Its world is made, and room for it is found, before anything changes.
    fn start(&mut self, alloc: Global, group: GroupName) -> Reply
        ensures object { StepOf E.is_two_way E.is_greatest
            self.old.object (Command.Start group) result self.new.object }
        ensures worlds { StartOfWorlds group self.old result self.new }
    {
        let Some(place) = self.book.place(group) else {
            return Reply::Refused(Refusal::NoGroup);
        };
        let charter = match self.book.plan(alloc, group) {
            Ok(charter) => charter,
            Err(refusal) => return Reply::Refused(refusal),
        };
        let Ok(copy) = Arc::try_clone(&charter) else {
            return Reply::Refused(Refusal::NoMemory);
        };
        let Ok(world) = World::begin(alloc, copy) else {
            return Reply::Refused(Refusal::NoMemory);
        };
        if make_place(&mut self.worlds, place).is_err() {
            return Reply::Refused(Refusal::NoMemory);
        }
        let term = charter.term();
        let Ok(()) = self.book.start_planned(alloc, charter) else {
            return Reply::Refused(Refusal::NoMemory);
        };
        self.worlds[place] = Some(world);
        Reply::Term(term)
    }

    /// How many packets are in flight or stuck in a group's running term. If there are none, the
    /// term is known at all its members. Does not allocate. Refused with the first of `NoGroup` and
    /// `NoTerm` that holds.
    pub fn pending(&self, group: GroupName) -> Result<u128, Refusal>
        ensures number { Shows (in_group group running_refusal self.now.object) false result
            (λ number. IsPendingIn E.table group number self.now) }
        ensures known { IfOk result (λ number. KnownIfNone group number self.now.object) }
    {
        let place = self.place(group)?;
        let Some(world) = &self.worlds[place] else {
            return Err(Refusal::NoTerm);
        };
        Ok(world.pending())
    }

    /// Makes deliveries at the first ready link of a group's running term. It ends when `count` are
    /// made, when no link is ready, or when an allocation fails; the deliveries that were made
    /// stay. A cut link is never ready, and packets that are stuck there stay. Refused with the
    /// first of `NoGroup` and `NoTerm` that holds. A drain of more than the algorithm's bound and
    /// the length of the ring together leaves nothing that can move, unless an allocation failed.
    /// The news of a delivery is filed before the next one: a member is informed exactly if its own
    /// node knows the leader.
    pub fn drain(&mut self, group: GroupName, count: u32) -> Reply
        ensures object { Step E.is_two_way E.is_greatest
            self.old.object (Event.Drain group count) result self.new.object }
        ensures worlds { StepOfWorlds E.table E.is_two_way E.is_greatest
            self.old (Event.Drain group count) result self.new }
        ensures bounded { LeavesQuiet E.table E.bound group count
            self.old.worlds self.new.worlds result }
        ensures informed { IsHeld E.table self.new.object self.new.worlds }
    {
        let place = match self.place(group) {
            Ok(place) => place,
            Err(refusal) => return Reply::Refused(refusal),
        };
        let Some(world) = &mut self.worlds[place] else {
            return Reply::Refused(Refusal::NoTerm);
        };
        let (done, starved) = carry_many(&mut self.book, place, world, count);
        Reply::Drained {
            done,
            left: Count::new(world.pending()),
            starved,
        }
    }

    /// Makes one delivery at a member of a group's running term, from a side.
    fn deliver(&mut self, group: GroupName, node: NodeNo, side: Side) -> Reply
        ensures object { Step E.is_two_way E.is_greatest
            self.old.object (Event.Deliver group node side) result self.new.object }
        ensures worlds { StepOfWorlds E.table E.is_two_way E.is_greatest
            self.old (Event.Deliver group node side) result self.new }
    {
        let (place, position) = match self.seat(group, node) {
            Ok(seat) => seat,
            Err(refusal) => return Reply::Refused(refusal),
        };
        let Some(world) = &mut self.worlds[place] else {
            return Reply::Refused(Refusal::NoTerm);
        };
        match carry(&mut self.book, place, world, position, side) {
            Carried::Moved => Reply::Moved,
            Carried::Idle => Reply::Idle,
            Carried::Refused(refusal) => Reply::Refused(refusal),
        }
    }

    /// Cuts the link into a member's position from a side, in a group's running term.
    fn cut(&mut self, group: GroupName, node: NodeNo, side: Side) -> Reply
        ensures object { Step E.is_two_way E.is_greatest
            self.old.object (Event.Cut group node side) result self.new.object }
        ensures worlds { StepOfWorlds E.table E.is_two_way E.is_greatest
            self.old (Event.Cut group node side) result self.new }
    {
        let (place, position) = match self.seat(group, node) {
            Ok(seat) => seat,
            Err(refusal) => return Reply::Refused(refusal),
        };
        let Some(world) = &mut self.worlds[place] else {
            return Reply::Refused(Refusal::NoTerm);
        };
        done(world.cut(position, side))
    }

    /// How many packets are in flight or stuck, as a reply.
    fn count(&self, group: GroupName) -> Reply
        ensures object { Step E.is_two_way E.is_greatest
            self.now.object (Event.Pending group) result self.now.object }
        ensures worlds { StepOfWorlds E.table E.is_two_way E.is_greatest
            self.now (Event.Pending group) result self.now }
    {
        match self.pending(group) {
            Ok(pending) => Reply::Pending(Count::new(pending)),
            Err(refusal) => Reply::Refused(refusal),
        }
    }

    /// The place of a group that has a running term.
    fn place(&self, group: GroupName) -> Result<usize, Refusal>
        ensures { Shows (in_group group running_refusal self.now.object) false result (λ place.
            IsAt group place (names self.now.object)
            × OfGroup group (λ g. running_refusal g ≡ None) self.now.object) }
    {
        self.book.running(group)?;
        self.book.place(group).ok_or(Refusal::NoGroup)
    }

    /// The place of a group, and the position of a member on the ring of its running term.
    fn seat(&self, group: GroupName, node: NodeNo) -> Result<(usize, usize), Refusal>
        ensures { Shows (in_group group (who_refusal node) self.now.object) false result (λ seat.
            IsAt group seat.0 (names self.now.object)
            × OfGroup group (OfLast (λ term. position_of node term.ring ≡ Some seat.1))
            self.now.object) }
    {
        let charter = self.book.running(group)?;
        let Some(position) = charter.roster().position(node) else {
            return Err(Refusal::NotInTerm);
        };
        let Some(place) = self.book.place(group) else {
            return Err(Refusal::NoGroup);
        };
        Ok((place, position))
    }
}

/// Makes the list long enough to have this place; each new place has no world. Fails only if an
/// allocation fails; the list is then unchanged.
fn make_place<T>(list: &mut Vec<Option<T>>, place: usize) -> Result<(), NoMemory>
    requires { place < 256 }
    ensures grown { OnOk result (HasGrown place list.old.items list.new.items) }
    ensures err { OnErr result (list.new.items ≡ list.old.items) }
{
    let more = (place + 1).saturating_sub(list.len());
    if list.reserve(more).is_err() {
        return Err(NoMemory);
    }
    for _ in 0..more {
        list.push_reserved(None);
    }
    Ok(())
}

/// The reply to a command that has no other answer than that it is done.
fn done(answer: Result<(), Refusal>) -> Reply
    ensures { result ≡ done_reply answer }
{
    match answer {
        Ok(()) => Reply::Done,
        Err(refusal) => Reply::Refused(refusal),
    }
}
