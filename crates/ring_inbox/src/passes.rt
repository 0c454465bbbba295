//! The two kinds of pass of an inbox, and their calls.
ghost use Rattle.std.specs.Prelude.{◌≡◌, ◌+◌, ◌≤◌, [], ◌∷◌, ◌++◌, length};
ghost use mathlib.Core.List.{IsPrefix};
ghost use Rattle.ring_inbox.specs.Inbox.{items_of};
ghost use Rattle.ring_inbox.specs.Passes.{AfterPut, AfterTake, AfterTryTake, IsClosedAfterAll, IsEmptyAfterAll, IsFullIfAlone, IsNumbered, IsNumberedIfTaken, PutMoment, TakeMoment, TryTakeMoment};

use crate::rule::{Hears, InOrder, Known, Meets, Stores, Takes, Tells};
use crossbeam_channel::{Pass, RuledReceiver, RuledSender, TrySendError};
use std::marker::Model;
use std::sync::Wait;

/// The result of a put.
#[must_use]
#[derive(Debug, Drop, PartialEq, Eq)]
pub enum Put<T> {
    /// It was stored at the back of the queue.
    Stored,
    /// The queue was full at a moment since the sender last stored an item. The item is given back.
    Full(T),
    /// The channel says that the receiver ended, which no clause claims. The item is given back.
    Gone(T),
}

/// The result of a take that waits.
#[must_use]
#[derive(Debug, Drop, PartialEq, Eq)]
pub enum Take<T> {
    /// The number of a sender, and the oldest item of the queue, which that sender stored.
    Taken(usize, T),
    /// The queue was empty at a moment since the receiver last took an item. The channel says that
    /// all senders ended, which no clause claims.
    Closed,
}

/// The result of a take that does not wait.
#[must_use]
#[derive(Debug, Drop, PartialEq, Eq)]
pub enum TryTake<T> {
    /// The number of a sender, and the oldest item of the queue, which that sender stored.
    Taken(usize, T),
    /// The queue was empty at a moment since the receiver last took an item.
    Empty,
}

/// The pass of one sender. Contracts see its inbox, its number there, and the items that it has
/// stored, in order. They also see how many items the receiver had taken when the sender last heard
/// it, or 0.
#[derive(Drop)]
pub struct SenderPass<T: Drop> {
    pub(crate) to: RuledSender<(usize, T), Known<T>, InOrder>,
    pub(crate) pass: Pass<(usize, T), Known<T>>,
    pub(crate) number: usize,
}

impl<T: Drop> Model for SenderPass<T> {
    ghost use Rattle.ring_inbox.specs.Values.{SenderLog, name_of};

    ghost Value = { SenderLog T };

    ghost use Rattle.std.specs.Prelude.{◌≡◌};
    ghost use Rattle.crossbeam_channel.specs.Claims.{view as known, IsSeatAt};
    ghost use Rattle.crossbeam_channel.specs.Ends.{sends_on, ruled_capacity};
    ghost use Rattle.ring_inbox.specs.Rule.{sender};

    ghost view = { λ s. record {
      inbox = name_of (ruled_capacity (sends_on s.to)) (known s.pass).senders s.pass;
      number = s.number;
      stored = (known s.pass).stored;
      heard = (known s.pass).seen;
    } };

    ghost invariant = { λ s. IsSeatAt (sends_on s.to) s.pass
        × (known s.pass
        ≡ sender (ruled_capacity (sends_on s.to)) (known s.pass).senders s.number
        (known s.pass).stored (known s.pass).seen) };
}

/// The pass of the one receiver. Contracts see its inbox, the number of its senders, and the items
/// taken, in order. They also see which senders it heard, and how many items each had stored then.
#[derive(Drop)]
pub struct ReceiverPass<T: Drop> {
    pub(crate) from: RuledReceiver<(usize, T), Known<T>, InOrder>,
    pub(crate) pass: Pass<(usize, T), Known<T>>,
}

impl<T: Drop> Model for ReceiverPass<T> {
    ghost use Rattle.ring_inbox.specs.Values.{ReceiverLog, name_of};

    ghost Value = { ReceiverLog T };

    ghost use Rattle.std.specs.Prelude.{◌≡◌};
    ghost use Rattle.crossbeam_channel.specs.Claims.{view as known, IsSeatAt};
    ghost use Rattle.crossbeam_channel.specs.Ends.{receives_on, ruled_capacity};
    ghost use Rattle.ring_inbox.specs.Rule.{receiver};

    ghost view = { λ r. record {
      inbox = name_of (ruled_capacity (receives_on r.from)) (known r.pass).senders r.pass;
      senders = (known r.pass).made;
      taken = (known r.pass).taken;
      heard = (known r.pass).heard;
    } };

    ghost invariant = { λ r. IsSeatAt (receives_on r.from) r.pass
        × (known r.pass
        ≡ receiver (ruled_capacity (receives_on r.from)) (known r.pass).senders
        (known r.pass).made (known r.pass).taken (known r.pass).heard) };
}

impl<T: Drop> SenderPass<T> {
    /// Stores the item at the back of the queue, or returns it and changes nothing. `Full` comes
    /// only if the queue was full at a moment since this sender last stored an item. The only
    /// sender of an inbox gets it only if it has stored at least `capacity` items more than it
    /// heard to be taken.
    ///
    /// Does not allocate. `Gone` comes when the receiver has ended: tested, not proved, by
    /// `a_call_says_that_the_other_end_is_gone`. No clause claims that the call returns.
    pub fn put<R: Wait>(&mut self, rt: &R, item: T) -> Put<T>
        ensures pass { AfterPut self.old item result self.new }
        ensures moment { PutMoment self.old item result }
        ensures full { IsFullIfAlone self.old result }
    {
        let message = (self.number, item);
        match self
            .to
            .try_send_as::<Stores, R>(rt, &mut self.pass, message)
        {
            Ok(()) => Put::Stored,
            Err(TrySendError::Full((_, item))) => Put::Full(item),
            Err(refused) => Put::Gone(refused.into_inner().1),
        }
    }

    /// Returns the receiver, and proves that the items taken of the sender are a prefix of those
    /// that it stored. So no item is lost, doubled, or out of its turn. At most `capacity` items
    /// are stored and not taken. Both passes are in one thread. It is for proofs: nothing is put or
    /// taken, and neither pass changes.
    pub fn meet(&mut self, receiver: ReceiverPass<T>) -> ReceiverPass<T>
        requires { receiver.inbox ≡ self.old.inbox }
        ensures same { (self.new ≡ self.old) × (result ≡ receiver) }
        ensures prefix { IsPrefix (items_of self.old.number receiver.taken) self.old.stored }
        ensures within { length self.old.stored
            ≤ length (items_of self.old.number receiver.taken) + self.old.inbox.capacity }
    {
        let ReceiverPass { from, pass } = receiver;
        self.to.absorb::<Meets>(&mut self.pass, pass);
        self.to.learn_as::<Meets>(&mut self.pass);
        let pass = self.to.another::<Meets>(&mut self.pass);
        ReceiverPass { from, pass }
    }

    /// Returns the receiver, and remembers how many items it has taken. Both passes are in one
    /// thread. It is for proofs: nothing is put or taken, and the receiver does not change. If the
    /// inbox has no other sender, a later `put` returns `Full` only if this one has stored at least
    /// `capacity` items more than that.
    pub fn hear(&mut self, receiver: ReceiverPass<T>) -> ReceiverPass<T>
        requires { receiver.inbox ≡ self.old.inbox }
        ensures heard { self.new ≡ record self.old { heard = length receiver.taken } }
        ensures same { result ≡ receiver }
    {
        let ReceiverPass { from, pass } = receiver;
        self.to.absorb::<Meets>(&mut self.pass, pass);
        let pass = self.to.another::<Tells>(&mut self.pass);
        ReceiverPass { from, pass }
    }
}

impl<T: Drop> ReceiverPass<T> {
    /// Returns the receiver, which remembers how many items the sender has stored. Both passes are
    /// in one thread. It is for proofs: nothing is put or taken, and the sender does not change. A
    /// later `try_take` returns `Empty`, and a later `take` returns `Closed`, only if at least that
    /// number of the sender's items was taken.
    pub fn hear(self, sender: &mut SenderPass<T>) -> ReceiverPass<T>
        requires { self.inbox ≡ sender.old.inbox }
        ensures heard { result ≡ record self {
          heard = self.heard ++ (sender.old.number, length sender.old.stored) ∷ [];
        } }
        ensures same { sender.new ≡ sender.old }
    {
        let ReceiverPass { from, pass } = self;
        sender.to.absorb::<Meets>(&mut sender.pass, pass);
        let pass = sender.to.another::<Hears>(&mut sender.pass);
        ReceiverPass { from, pass }
    }

    /// Waits for an item and takes the oldest of the queue, or returns `Closed` and changes
    /// nothing. `Closed` comes only if the queue was empty at a moment since an item was last
    /// taken. It also comes only if the receiver has taken all items that it heard to be stored.
    ///
    /// Does not allocate. `Closed` comes when all senders have ended: tested, not proved, by
    /// `a_call_says_that_the_other_end_is_gone`. No clause claims that the call returns.
    pub fn take<R: Wait>(&mut self, rt: &R) -> Take<T>
        ensures pass { AfterTake self.old result self.new }
        ensures sender { IsNumbered self.old result }
        ensures moment { TakeMoment self.old result }
        ensures closed { IsClosedAfterAll self.old result }
    {
        match self.from.recv_as::<Takes, R>(rt, &mut self.pass) {
            Ok((sender, item)) => Take::Taken(sender, item),
            Err(_) => Take::Closed,
        }
    }

    /// Takes the oldest item of the queue, or returns `Empty` and changes nothing. `Empty` comes
    /// only if the queue was empty at a moment since an item was last taken. It also comes only if
    /// the receiver has taken all items that it heard to be stored.
    ///
    /// Does not allocate. No clause claims that the call returns.
    pub fn try_take<R: Wait>(&mut self, rt: &R) -> TryTake<T>
        ensures pass { AfterTryTake self.old result self.new }
        ensures sender { IsNumberedIfTaken self.old result }
        ensures moment { TryTakeMoment self.old result }
        ensures empty { IsEmptyAfterAll self.old result }
    {
        match self.from.try_recv_as::<Takes, R>(rt, &mut self.pass) {
            Ok((sender, item)) => TryTake::Taken(sender, item),
            Err(_) => TryTake::Empty,
        }
    }
}
