use crate::equal::equal;
use crate::trial::{Idler, client, listener, send_numbers};
use ring_accept::{Acceptor, Entrance, Limits, attend};
use std::net::{Net, SocketAddr, TcpListener, TcpStream};
use std::process::Abort;
use std::sync::{Mutex, Wait};
use std::time::Clock;

// One session at a time, told with places.
const ONE_SESSION: Limits = Limits {
    sessions: 1,
    idle: 0,
    places: true,
};

// The number of the handler that comes after this last one; `None` if the acceptor is shut.
fn next<R>(
    rt: &R,
    acceptor: &mut Acceptor<TcpListener>,
    address: SocketAddr,
    last: u32,
) -> Option<u32>
where
    R: Abort + Wait + Eprint + Clock + Net<Stream = TcpStream>,
{
    drop(client(rt, address, b""));
    acceptor.last = last;
    let (number, stream) = acceptor.admit(rt)?;
    drop(stream);
    Some(number)
}

// A new acceptor is shut, and is opened after the first client.
#[test]
fn a_door_numbers_its_guests(rt: HostRuntime) {
    let (listener, address) = listener(&rt);
    let mut acceptor = Acceptor::new(listener);
    for (last, number) in [
        (0, None),
        (0, Some(1)),
        (1, Some(2)),
        (4_294_967_294, Some(4_294_967_295)),
        (4_294_967_295, Some(1)),
    ] {
        let found = next(&rt, &mut acceptor, address, last);
        equal(
            &rt,
            "the last handler, and the next",
            (last, found),
            (last, number),
        );
        acceptor.is_open = true;
    }
    drop(acceptor);
}

// A handler at this acceptor. Its seat is spent after `left` sessions, and their replies have
// places.
fn idler<'a>(
    number: u32,
    left: u32,
    served: &'a Mutex<u32>,
    acceptor: &'a Mutex<Acceptor<TcpListener>>,
) -> Idler<'a> {
    Idler {
        number,
        left,
        places: true,
        served,
        acceptor: Some(acceptor),
    }
}

// Four clients come, one after another. A handler with a turn left stays. A spent one gives way to
// the spare one, and stays if there is none. Each session is told places.
#[test]
fn a_spent_guest_gives_way_to_a_spare_one(rt: HostRuntime) {
    let (listener, address) = listener(&rt);
    send_numbers(&rt, address, 4);
    let acceptor = Mutex::new(Acceptor::new(listener));
    let served = Mutex::new(0);
    let handlers = vec![in rt.alloc();
        idler(2, 1, &served, &acceptor),
        idler(1, 2, &served, &acceptor),
    ]
    .expect(&rt, "no handlers");
    let handlers = Mutex::new(handlers);
    let first = Entrance {
        acceptor: Some(&acceptor),
        handlers: &handlers,
    };
    let second = Entrance {
        acceptor: None,
        handlers: &handlers,
    };
    let third = Entrance {
        acceptor: None,
        handlers: &handlers,
    };
    let attended = attend(&rt, first, second, third, ONE_SESSION);
    drop(handlers);
    drop(acceptor);
    equal(
        &rt,
        "session_handlers",
        (attended, served.into_inner()),
        (Ok(()), 1122),
    );
}
