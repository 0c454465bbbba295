//! What a pass knows after it has heard another: the other branches are unreachable by the
//! contracts alone.
ghost use Rattle.std.specs.Prelude.{◌≡◌, ◌+◌, ◌<◌, [], ◌∷◌, ◌++◌, length, OnSome};
ghost use Rattle.ring_inbox.specs.Inbox.{items_of};

use super::alone;
use super::one_thread::tries;
use crate::equal::equal;
use ring_inbox::{Put, ReceiverPass, SenderPass, TryTake};
use std::process::Abort;
use std::sync::Wait;

// Stores an item of an only sender, which knows that there is room. The receiver is not gone.
fn store<R: Abort + Wait>(rt: &R, sender: &mut SenderPass<u64>, item: u64)
    requires alone { sender.old.inbox.senders ≡ 1 }
    requires room { length sender.old.stored < sender.old.inbox.capacity + sender.old.heard }
    ensures { sender.new ≡ record sender.old { stored = sender.old.stored ++ item ∷ [] } }
{
    match sender.put(rt, item) {
        Put::Stored => (),
        Put::Full(_) => unreachable!(),
        Put::Gone(_) => panic!(rt; "the receiver is there"),
    }
}

// The item comes back, since there is no room. So it is not stored, as a later put has to know.
fn finds_no_room<R: Abort + Wait>(rt: &R, sender: &mut SenderPass<u64>, item: u64)
    ensures { sender.new ≡ sender.old }
{
    let Put::Full(back) = sender.put(rt, item) else {
        panic!(rt; "there is room, or no receiver");
    };
    equal(rt, "the item", back, item);
}

// The next item, which is there, since the receiver hears a sender of which not all is taken.
fn take_heard<R: Wait>(
    rt: &R,
    receiver: ReceiverPass<u64>,
    sender: &mut SenderPass<u64>,
) -> (ReceiverPass<u64>, u64)
    requires same { receiver.inbox ≡ sender.old.inbox }
    requires left { length (items_of sender.old.number receiver.taken) < length sender.old.stored }
    ensures receiver { (result.0.inbox ≡ receiver.inbox)
        × (length result.0.taken ≡ length receiver.taken + 1) }
    ensures sender { sender.new ≡ sender.old }
{
    let mut receiver = receiver.hear(sender);
    match receiver.try_take(rt) {
        TryTake::Taken(_, item) => (receiver, item),
        TryTake::Empty => unreachable!(),
    }
}

#[test]
fn a_pass_that_heard_another_knows_of_items_and_of_room(rt: HostRuntime) {
    let (receiver, mut sender) = alone(&rt, rt.alloc());
    store(&rt, &mut sender, 5);
    store(&rt, &mut sender, 6);
    finds_no_room(&rt, &mut sender, 7);
    let (receiver, item) = take_heard(&rt, receiver, &mut sender);
    equal(&rt, "the first item", item, 5);
    let mut receiver = sender.hear(receiver);
    store(&rt, &mut sender, 7);
    tries(&rt, &mut receiver, TryTake::Taken(0, 6));
    tries(&rt, &mut receiver, TryTake::Taken(0, 7));
    tries(&rt, &mut receiver, TryTake::Empty);
    drop(receiver);
    drop(sender);
}
