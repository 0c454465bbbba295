ghost use Rattle.std.specs.Prelude.{◌≡◌, All};

use crate::equal::equal;
use crate::trial::{client, hear_all, listener};
use ring_accept::ClientHandler;
use ring_config::Config;
use ring_server::{Front, Seat, SessionHandler, Watch, close, front, open_gated, session_handlers};
use ring_table::Table;
use ring_workers::{Gate, Pass};
use std::net::{Net, OpenListener, Shutdown, TcpListener, TcpStream};
use std::process::Abort;
use std::sync::atomic::{AtomicBool, Ordering};
use std::sync::{Arc, Wait};
use std::thread;
use std::thread::Threads;
use std::time::{Clock, Duration};

// How often a flag is looked at, a millisecond apart.
const LOOKS: u32 = 10000;

// Whether a flag was set within so many looks.
fn has_come<R: Clock>(rt: &R, flag: &AtomicBool) -> bool {
    for _ in 0..LOOKS {
        if flag.load(Ordering::SeqCst) {
            return true;
        }
        thread::sleep(rt, Duration::from_millis(1));
    }
    false
}

// Keeps a worker at its first item until it may end, and ends it there.
#[derive(Drop)]
struct LastItem<R> {
    rt: R,
    has_entered: AtomicBool,
    may_end: AtomicBool,
}

impl<R: Clock> Gate for LastItem<R> {
    fn enter(&self, _worker: usize, _turn: u64) -> Pass {
        self.has_entered.store(true, Ordering::SeqCst);
        let _ = has_come(&self.rt, &self.may_end);
        Pass::Halt
    }

    fn leave(&self, _worker: usize, _turn: u64) {}
}

// Stops the test if a client is told something else that sends these lines to a handler.
fn is_told<R>(rt: &R, handler: &mut SessionHandler<'_>, lines: &[u8], told: &[u8])
where
    R: Abort + Wait + Clock + AllocGlobal + Net<Stream = TcpStream, Listener = TcpListener>,
{
    let (listener, address) = listener(rt);
    let client = client(rt, address, lines);
    client.shutdown(Shutdown::Write).expect(rt, "no end");
    let (stream, _) = listener.accept().expect(rt, "no session");
    drop(listener);
    handler.serve(rt, 1, &stream, false);
    drop(stream);
    let mut replies = Vec::new(rt.alloc());
    hear_all(rt, client, &mut replies);
    equal(rt, "replies", replies.as_slice(), told);
    drop(replies);
}

// A handler of these seats serves a client for each of these pairs of lines and replies. The worker
// takes an item meanwhile.
fn serves<R>(
    rt: &R,
    front: &Front,
    watch: &Watch,
    seats: Vec<Seat>,
    has_entered: &AtomicBool,
    asked: &[(&[u8], &[u8])],
)
where
    R: Abort + Wait + Clock + AllocGlobal + Net<Stream = TcpStream, Listener = TcpListener>,
    requires { All (λ seat. seat.lock ≡ front.now.id) seats.items }
{
    let mut all = session_handlers(rt.alloc(), front, seats, 0, watch).expect(
        rt,
        "no session_handlers",
    );
    let handler = all.pop();
    drop(all);
    let mut handler = handler.expect(rt, "no handler");
    for &(lines, told) in asked {
        is_told(rt, &mut handler, lines, told);
        assert!(rt; has_come(rt, has_entered));
    }
    drop(handler);
}

// How many begins wait for the one worker when a service is closed that has served such clients. The
// worker waits at its first item until the last client has left, and ends.
fn waiting_after<R>(rt: &R, config: &Config, asked: &[(&[u8], &[u8])]) -> usize
where
    R: Abort
        + Threads
        + Wait
        + Clock
        + AllocGlobal
        + Copy
        + Send
        + Sync
        + Drop
        + 'static
        + Net<Stream = TcpStream, Listener = TcpListener>,
{
    let alloc = rt.alloc();
    let watch = Watch::new(alloc, 1).expect(rt, "no watch");
    let watch = Arc::new(alloc, watch).expect(rt, "no watch");
    let other = Arc::try_clone(&watch).expect(rt, "no watch");
    let gate = LastItem {
        rt: *rt,
        has_entered: AtomicBool::new(false),
        may_end: AtomicBool::new(false),
    };
    let gate = Arc::new(alloc, gate).expect(rt, "no gate");
    let theirs = Arc::try_clone(&gate).expect(rt, "no gate");
    let opened = open_gated(rt, config, 1, Table::new(alloc), other, theirs);
    let (service, seats) = opened.expect(rt, "no service");
    serves(rt, front(&service), &watch, seats, &gate.has_entered, asked);
    gate.may_end.store(true, Ordering::SeqCst);
    drop(gate);
    drop(watch);
    let closing = close(rt, service);
    let waiting = closing.waiting.len();
    drop(closing);
    waiting
}

// A group that is started, five more, and what is told of them.
const ONE: &[u8] = b"create a chang\njoin a 1\nstart a\n";

const ONE_TOLD: &[u8] = b"ok\nok\nterm 1\n";

const FIVE: &[u8] = b"create b chang\njoin b 1\nstart b\n\
    create c chang\njoin c 1\nstart c\n\
    create d chang\njoin d 1\nstart d\n\
    create e chang\njoin e 1\nstart e\n\
    create f chang\njoin f 1\nstart f\n";

const FIVE_TOLD: &[u8] =
    b"ok\nok\nterm 1\nok\nok\nterm 1\nok\nok\nterm 1\nok\nok\nterm 1\nok\nok\nterm 1\n";

// Services with inboxes of one, three and five, and how many of five begins wait while the worker
// takes none: those for which the inbox has no room.
const INBOXES: [(Config, usize); 3] = [
    (
        Config {
            workers: 1,
            inbox: 1,
            port: 80,
        },
        4,
    ),
    (
        Config {
            workers: 1,
            inbox: 3,
            port: 80,
        },
        2,
    ),
    (
        Config {
            workers: 1,
            inbox: 5,
            port: 80,
        },
        0,
    ),
];

#[test]
fn an_inbox_holds_what_the_configuration_says(rt: HostRuntime) {
    let asked = [(ONE, ONE_TOLD), (FIVE, FIVE_TOLD)];
    for (config, left) in INBOXES {
        let waiting = waiting_after(&rt, &config, &asked);
        let inbox = config.inbox;
        equal(
            &rt,
            "an inbox, and what waits",
            (inbox, waiting),
            (inbox, left),
        );
    }
}
