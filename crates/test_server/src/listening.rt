use crate::equal::equal;
use crate::trial::{Idler, client, hear_all, listener, send_numbers};
use ring_accept::accept_all;
use ring_config::Config;
use ring_lines::DripOut;
use ring_server::accept_loop;
use std::net::{Net, Shutdown, SocketAddr, TcpListener, TcpStream};
use std::process::Abort;
use std::sync::{Mutex, Wait};
use std::thread;
use std::thread::Threads;
use std::time::Clock;

// A service of two workers.
const CONFIG: Config = Config {
    workers: 2,
    inbox: 1024,
    port: 7400,
};

// The first line.
const LINE: &str = "listening 127.0.0.1:7400\n";

// Each of three clients, one after another, has its session.
#[test]
fn sessions_have_the_numbers_of_their_clients(rt: HostRuntime) {
    let (listener, address) = listener(&rt);
    send_numbers(&rt, address, 3);
    let served = Mutex::new(0);
    let mut idlers = Vec::new(rt.alloc());
    for _ in 0..3 {
        let idler = Idler {
            number: 1,
            left: 3,
            places: false,
            served: &served,
            acceptor: None,
        };
        idlers.push(idler).expect(&rt, "no handler");
    }
    let accepted = accept_all(&rt, listener, idlers);
    equal(
        &rt,
        "sessions",
        (accepted, served.into_inner()),
        (Ok(3), 111),
    );
}

// Accepts two clients. All ends well, and both lines are written.
fn accepts_two<R>(rt: &R, listener: TcpListener)
where
    R: Abort + AllocGlobal + Threads + Wait + Clock + Copy + Send + Sync + Drop + 'static,
{
    let mut out = DripOut::new(rt.alloc(), 64, 0).expect(rt, "no writer");
    let served = accept_loop(rt, listener, &CONFIG, 2, LINE, &mut out);
    let both = b"listening 127.0.0.1:7400\nclosed 2\n".as_slice();
    equal(rt, "a run", (served, out.taken()), (Ok(()), both));
    drop(out);
}

// Two clients come, one after another. Each gets its replies to the end, and the second one finds
// what the first one left.
fn are_told<R>(rt: &R, address: SocketAddr)
where
    R: Abort + AllocGlobal + Net<Stream = TcpStream>,
{
    let rows: [(&[u8], &[u8]); 2] = [
        (b"create a chang\njoin a 5\n", b"ok\nok\n"),
        (b"members a\n", b"members 5\n"),
    ];
    for (lines, replies) in rows {
        let client = client(rt, address, lines);
        client.shutdown(Shutdown::Write).expect(rt, "no end");
        let mut told = Vec::new(rt.alloc());
        hear_all(rt, client, &mut told);
        equal(rt, "replies", told.as_slice(), replies);
        drop(told);
    }
}

#[test]
fn two_clients_are_accepted_and_told(rt: HostRuntime) {
    let (listener, address) = listener(&rt);
    thread::join(
        &rt,
        || accepts_two(&rt, listener),
        || are_told(&rt, address),
    );
}
