use crate::elections::inbox::alone;
use crate::equal::equal;
use ring_inbox::{Put, ReceiverPass, SenderPass, Take, TryTake, inbox};
use std::alloc::Global;
use std::process::Abort;
use std::sync::{Arc, Wait};

// The receiver and the two senders of an inbox of one item.
fn opened(rt: &impl Abort, alloc: Global) -> (ReceiverPass<u64>, SenderPass<u64>, SenderPass<u64>) {
    let (receiver, mut senders) = inbox::<u64>(alloc, 1, 2).expect(rt, "no memory");
    let second = senders.pop().expect(rt, "an inbox of two senders");
    let first = senders.pop().expect(rt, "an inbox of two senders");
    drop(senders);
    (receiver, first, second)
}

// A put of an item comes to this.
fn puts<R: Abort + Wait>(rt: &R, sender: &mut SenderPass<u64>, item: u64, wanted: Put<u64>) {
    equal(rt, "a put", sender.put(rt, item), wanted);
}

// A take comes to this.
fn takes<R: Abort + Wait>(rt: &R, receiver: &mut ReceiverPass<u64>, wanted: Take<u64>) {
    equal(rt, "a take", receiver.take(rt), wanted);
}

/// A take that does not wait comes to this.
pub fn tries<R: Abort + Wait>(rt: &R, receiver: &mut ReceiverPass<u64>, wanted: TryTake<u64>) {
    equal(rt, "what there is", receiver.try_take(rt), wanted);
}

#[test]
fn an_inbox_of_one_item_is_full_for_each_sender(rt: HostRuntime) {
    let (mut receiver, mut first, mut second) = opened(&rt, rt.alloc());
    tries(&rt, &mut receiver, TryTake::Empty);
    puts(&rt, &mut first, 7, Put::Stored);
    puts(&rt, &mut second, 8, Put::Full(8));
    takes(&rt, &mut receiver, Take::Taken(0, 7));
    puts(&rt, &mut second, 8, Put::Stored);
    takes(&rt, &mut receiver, Take::Taken(1, 8));
    drop(receiver);
    drop(first);
    drop(second);
}

#[test]
fn a_call_says_that_the_other_end_is_gone(rt: HostRuntime) {
    let (mut receiver, mut sender) = alone(&rt, rt.alloc());
    puts(&rt, &mut sender, 5, Put::Stored);
    drop(sender);
    takes(&rt, &mut receiver, Take::Taken(0, 5));
    takes(&rt, &mut receiver, Take::Closed);
    tries(&rt, &mut receiver, TryTake::Empty);
    drop(receiver);
    let (receiver, mut sender) = alone(&rt, rt.alloc());
    drop(receiver);
    puts(&rt, &mut sender, 6, Put::Gone(6));
    drop(sender);
}

// Puts one more owner of a value by each sender.
fn put_owners<R: Abort + Wait>(
    rt: &R,
    senders: &mut Vec<SenderPass<Arc<u64, Global>>>,
    kept: &Arc<u64, Global>,
) {
    for sender in senders {
        let owner = Arc::try_clone(kept).expect(rt, "no memory");
        equal(rt, "room", sender.put(rt, owner), Put::Stored);
    }
}

#[test]
fn an_inbox_drops_what_it_holds(rt: HostRuntime) {
    let kept = Arc::new(rt.alloc(), 7u64).expect(&rt, "no memory");
    let opened = inbox::<Arc<u64, Global>>(rt.alloc(), 3, 3);
    let (receiver, mut senders) = opened.expect(&rt, "no memory");
    put_owners(&rt, &mut senders, &kept);
    equal(&rt, "owners", Arc::strong_count(&kept), 4);
    drop(receiver);
    drop(senders);
    equal(&rt, "owners left", Arc::strong_count(&kept), 1);
    drop(kept);
}
