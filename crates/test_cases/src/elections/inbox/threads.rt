ghost use Rattle.std.specs.Prelude.{◌≡◌};

use crate::elections::inbox::alone;
use crate::equal::equal;
use ring_inbox::{Put, ReceiverPass, SenderPass, Take, TryTake};
use std::process::Abort;
use std::sync::Wait;
use std::thread;

// How many items the sender stores.
const ITEMS: u64 = 1000;

// Puts the item until it is stored or the receiver is gone, and returns whether it was stored.
fn put_once<R: Wait>(rt: &R, pass: &mut SenderPass<u64>, item: u64) -> bool
    ensures { pass.new.inbox ≡ pass.old.inbox }
{
    for _ in rt.forever() {
        match pass.put(rt, item) {
            Put::Stored => return true,
            Put::Full(_) => thread::yield_now(),
            Put::Gone(_) => return false,
        }
    }
    unreachable!()
}

// Stores the numbers below ITEMS in order.
fn put_all<R: Abort + Wait>(rt: &R, mut pass: SenderPass<u64>) -> SenderPass<u64>
    ensures { result.inbox ≡ pass.inbox }
{
    for number in 0..ITEMS {
        assert!(rt; put_once(rt, &mut pass, number));
    }
    pass
}

// The next item. If there is none, it is awaited.
fn take_next<R: Wait>(rt: &R, receiver: &mut ReceiverPass<u64>) -> Option<u64>
    ensures { receiver.new.inbox ≡ receiver.old.inbox }
{
    if let TryTake::Taken(_, item) = receiver.try_take(rt) {
        return Some(item);
    }
    match receiver.take(rt) {
        Take::Taken(_, item) => Some(item),
        Take::Closed => None,
    }
}

// Takes the numbers below ITEMS, which come in order.
fn take_all<R: Abort + Wait>(rt: &R, receiver: &mut ReceiverPass<u64>)
    ensures { receiver.new.inbox ≡ receiver.old.inbox }
{
    for number in 0..ITEMS {
        equal(rt, "an item", take_next(rt, receiver), Some(number));
    }
}

// Stores one item in an empty inbox, and takes it.
fn pass_one<R: Abort + Wait>(
    rt: &R,
    sender: &mut SenderPass<u64>,
    receiver: &mut ReceiverPass<u64>,
) {
    assert!(rt; put_once(rt, sender, 3));
    equal(rt, "the one", receiver.try_take(rt), TryTake::Taken(0, 3));
    equal(rt, "none", receiver.try_take(rt), TryTake::Empty);
}

#[test]
fn a_sender_meets_the_receiver_after_two_threads(rt: HostRuntime) {
    let (mut receiver, sender) = alone(&rt, rt.alloc());
    let (mut sender, receiver) = thread::join(
        &rt,
        move || -> SenderPass<u64>
            ensures { result.inbox ≡ sender.inbox }
        { put_all(&rt, sender) },
        move || -> ReceiverPass<u64>
            ensures { result.inbox ≡ receiver.inbox }
        {
            take_all(&rt, &mut receiver);
            receiver
        },
    );
    let mut receiver = sender.meet(receiver);
    pass_one(&rt, &mut sender, &mut receiver);
    drop(sender);
    drop(receiver);
}
