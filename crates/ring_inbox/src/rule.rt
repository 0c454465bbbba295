//! The knowledge of each pass of an inbox, the rule that keeps it true, and the steps under that
//! rule.

ghost use Rattle.std.specs.Prelude.{ℕ};

use crossbeam_channel::protocol::{Join, Lesson, Outcome, Protocol, Split};
use std::collections::LinkedList;
use std::marker::{Brand, PhantomData};

// The knowledge of a pass: whether it may send or receive, the most items of the inbox, and the
// number of its senders in the end. A sender knows its number, the items that it stored, and how
// many items it heard that the receiver took. The receiver knows how many senders it has made, and
// the items that it took. It also knows how many items it heard that each sender stored. No value
// of this type is made.
pub struct Known<T> {
    pub sends: bool,
    pub gets: bool,
    pub capacity: u64,
    pub senders: u64,
    pub number: u64,
    pub stored: LinkedList<T>,
    pub seen: u64,
    pub made: u64,
    pub taken: LinkedList<(usize, T)>,
    pub heard: LinkedList<(u64, u64)>,
}

// The rule of an inbox.
pub struct InOrder;

impl<T> Protocol<(usize, T), Known<T>> for InOrder {
    ghost use Rattle.std.specs.Prelude.{[]};
    ghost use Rattle.ring_inbox.specs.Rule.{receiver};
    ghost use Rattle.ring_inbox.specs.private.Rule.{Holds};

    ghost holds = { Holds };

    ghost first = { receiver 0 0 0 [] [] };
}

// The most items of an inbox, and the number of its senders. The call that makes the inbox picks
// both.
pub trait Room {
    ghost capacity: { ℕ };

    ghost senders: { ℕ };
}

impl Room for Brand {
    ghost capacity = { 0 };

    ghost senders = { 0 };
}

// The step that fixes both, before there are senders.
pub struct Sizes<K>(PhantomData<K>);

impl<T, K: Room> Split<Known<T>> for Sizes<K> {
    ghost use Rattle.ring_inbox.specs.Rule.{receiver, nobody};

    ghost left = { λ v. receiver K.capacity K.senders v.made v.taken v.heard };

    ghost right = { λ v. nobody };
}

// The step by which the receiver makes one more sender.
pub struct Makes;

impl<T> Split<Known<T>> for Makes {
    ghost use Rattle.std.specs.Prelude.{◌+◌, []};
    ghost use Rattle.ring_inbox.specs.Rule.{receiver, sender};

    ghost left = { λ v. receiver v.capacity v.senders (v.made + 1) v.taken v.heard };

    ghost right = { λ v. sender v.capacity v.senders v.made [] 0 };
}

// The steps by which a sender takes in the receiver's knowledge, compares, and gives it back.
pub struct Meets;

impl<T> Join<Known<T>> for Meets {
    ghost use Rattle.ring_inbox.specs.private.Rule.{met};
    ghost use Rattle.ring_inbox.specs.Rule.{nobody};

    ghost both = { λ v w. met v.capacity v.senders v.number v.stored v.seen w.made w.taken
        w.heard };

    ghost spent = { nobody };
}

impl<T> Lesson<(usize, T), Known<T>> for Meets {
    ghost use Rattle.ring_inbox.specs.private.Rule.{Compares};

    ghost fact = { λ v queue. Compares v };
}

impl<T> Split<Known<T>> for Meets {
    ghost use Rattle.ring_inbox.specs.Rule.{receiver, sender};

    ghost left = { λ v. sender v.capacity v.senders v.number v.stored v.seen };

    ghost right = { λ v. receiver v.capacity v.senders v.made v.taken v.heard };
}

// The step that returns the receiver, which has heard how many items the sender has stored.
pub struct Hears;

impl<T> Split<Known<T>> for Hears {
    ghost use Rattle.std.specs.Prelude.{[], ◌∷◌, ◌++◌, length};
    ghost use Rattle.ring_inbox.specs.Rule.{receiver, sender};

    ghost left = { λ v. sender v.capacity v.senders v.number v.stored v.seen };

    ghost right = { λ v. receiver v.capacity v.senders v.made v.taken
        (v.heard ++ (v.number, length v.stored) ∷ []) };
}

// The step that returns the receiver; the sender has heard how many items it has taken.
pub struct Tells;

impl<T> Split<Known<T>> for Tells {
    ghost use Rattle.std.specs.Prelude.{length};
    ghost use Rattle.ring_inbox.specs.Rule.{receiver, sender};

    ghost left = { λ v. sender v.capacity v.senders v.number v.stored (length v.taken) };

    ghost right = { λ v. receiver v.capacity v.senders v.made v.taken v.heard };
}

// The step of a sender that stores, and the fact that its look at a full queue gives.
pub struct Stores;

impl<T> Outcome<(usize, T), Known<T>> for Stores {
    ghost use Rattle.ring_inbox.specs.private.Rule.{IsStored};

    ghost then = { IsStored };
}

impl<T> Lesson<(usize, T), Known<T>> for Stores {
    ghost use Rattle.ring_inbox.specs.private.Rule.{SenderSees};

    ghost fact = { SenderSees };
}

// The step of the receiver that takes, and the fact that its look at an empty queue gives.
pub struct Takes;

impl<T> Outcome<(usize, T), Known<T>> for Takes {
    ghost use Rattle.ring_inbox.specs.private.Rule.{IsTaken};

    ghost then = { IsTaken };
}

impl<T> Lesson<(usize, T), Known<T>> for Takes {
    ghost use Rattle.ring_inbox.specs.private.Rule.{ReceiverSees};

    ghost fact = { ReceiverSees };
}
