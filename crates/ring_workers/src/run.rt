ghost use Rattle.std.specs.Prelude.{◌≡◌, vec_len};
ghost use Rattle.ring_workers.specs.Handed.{Hands};
ghost use Rattle.ring_workers.specs.private.Runs.{EndsAt, Gives, Turns, held_of};

use crate::desk::Desk;
use crate::gate::{Gate, Pass};
use crate::handed::{Handed, Why};
use crate::item::Item;
use crate::outbox::send;
use crate::owner::Worker;
use crate::worker_state::WorkerState;
use ring_election::RingElection;
use ring_inbox::{ReceiverPass, SenderPass, Take, TryTake};
use std::sync::Wait;
use std::thread;
use std::time::{Clock, Duration};

/// How often an idle worker looks into its inbox before it waits, or sleeps between two looks.
const LOOKS_BEFORE_WAIT: u32 = 100;

/// How long an idle worker sleeps between two looks, in milliseconds.
const SLEEP_MILLIS: u64 = 1;

/// The result of a look into the inbox.
#[derive(Drop)]
enum Next<E: RingElection> {
    /// An item.
    Item(Item<E>),
    /// Nothing now.
    Nothing,
    /// Nothing any more.
    Closed,
}

/// Runs a worker. It takes one item at a time from its inbox and handles it. It puts the packets of
/// its nodes into the inboxes of the receivers' owners, its own among them. The pass at place v is
/// for worker v. It ends when it takes the word to stop, or when the inbox is closed, the gate
/// halts it, an allocation fails, or its desk has used up its turns. No contract claims that it
/// returns.
///
/// If a packet cannot be stored, it stays at the front of the outbox, and the worker goes on with
/// its own inbox. An idle worker looks into it a hundred times, and lets other threads run between
/// two looks, since to wake a thread that waits is dear. After that it waits in its inbox if its
/// outbox is empty, and else sleeps a millisecond between two looks. How it waits is neither proved
/// nor tested.
///
/// If an allocation fails for an envelope, the envelope is in hand at the end and is not counted as
/// dropped: that is the contract of the inner function that handles an item. Tested, not proved:
/// the gate is called with this worker's number.
pub fn run_worker<E: RingElection, G: Gate, D: Desk<E> + Drop, R: Wait + Clock>(
    rt: &R,
    worker: Worker<E>,
    receiver: &mut ReceiverPass<Item<E>>,
    senders: &mut Vec<SenderPass<Item<E>>>,
    gate: &G,
    mut desk: D,
) -> Handed<E>
    requires { vec_len senders.old ≡ worker.owner.workers }
    ensures { Hands E.table worker.owner.number worker.owner.workers
        receiver.old receiver.new senders.old.items senders.new.items result }
{
    let mut worker_state = WorkerState::new(worker);
    let mut turn: u64 = 0;
    let mut idle: u32 = 0;
    for _ in rt.forever() {
        let owner = worker_state.nodes.owner();
        send(rt, &owner, &mut worker_state.outbox, senders);
        let waits = worker_state.outbox.is_empty() && idle >= LOOKS_BEFORE_WAIT;
        let item = match next_item(rt, receiver, waits) {
            Next::Item(item) => item,
            Next::Nothing => {
                idle = pause(rt, idle);
                continue;
            }
            Next::Closed => return worker_state.hand_back(None, Why::Closed),
        };
        idle = 0;
        turn = turn.saturating_add(1);
        if let Some((why, held)) = handle_at(&mut worker_state, item, turn, gate, &mut desk) {
            return worker_state.hand_back(held, why);
        }
    }
    unreachable!()
}

/// Handles an item between the gate's two calls, unless the gate halts the worker. If the worker
/// ends, the result says why, and has the item if it was not handled.
fn handle_at<E: RingElection, G: Gate, D: Desk<E>>(
    worker_state: &mut WorkerState<E>,
    item: Item<E>,
    turn: u64,
    gate: &G,
    desk: &mut D,
) -> Option<(Why, Option<Item<E>>)>
    ensures turns { Turns E.table item worker_state.old.nodes worker_state.new.nodes
        worker_state.old.outbox.items worker_state.new.outbox.items
        worker_state.old.dropped worker_state.new.dropped (held_of result) }
    ensures ends { EndsAt item result }
{
    let number = worker_state.nodes.owner().number;
    match gate.enter(number, turn) {
        Pass::Halt => Some((Why::Halted, Some(item))),
        Pass::Go => {
            let ends = worker_state.handle(item, desk);
            gate.leave(number, turn);
            ends
        }
    }
}

/// The next item of the inbox. It waits for an item only if `waits`.
fn next_item<E: RingElection, R: Wait>(
    rt: &R,
    receiver: &mut ReceiverPass<Item<E>>,
    waits: bool,
) -> Next<E>
    ensures { Gives receiver.old result receiver.new }
{
    if waits {
        match receiver.take(rt) {
            Take::Taken(_, item) => Next::Item(item),
            Take::Closed => Next::Closed,
        }
    } else {
        match receiver.try_take(rt) {
            TryTake::Taken(_, item) => Next::Item(item),
            TryTake::Empty => Next::Nothing,
        }
    }
}

/// Lets other threads run between two looks, and sleeps if there were many looks in vain. Returns
/// how many there were.
fn pause<R: Clock>(rt: &R, idle: u32) -> u32 {
    if idle < LOOKS_BEFORE_WAIT {
        thread::yield_now();
        return idle.saturating_add(1);
    }
    thread::sleep(rt, Duration::from_millis(SLEEP_MILLIS));
    idle
}
