//! Parts that tests of the server share: listeners, clients, and handlers that note who served.
use ring_accept::{Acceptor, ClientHandler};
use std::io::{Read, Write};
use std::net::{Ipv4Addr, Net, SocketAddr, TcpListener, TcpStream};
use std::process::Abort;
use std::sync::{Mutex, Wait};
use std::time::Clock;

/// A listener on a free port, and its address.
pub fn listener<R>(rt: &R) -> (TcpListener, SocketAddr)
where
    R: Abort + Net<Stream = TcpStream, Listener = TcpListener>,
{
    let address = SocketAddr::from((Ipv4Addr::LOCALHOST, 0));
    let listener = rt.bind(address).expect(rt, "no listener");
    let address = listener.local_addr().expect(rt, "no address");
    (listener, address)
}

/// A client that has sent these bytes.
pub fn client<R>(rt: &R, address: SocketAddr, bytes: &[u8]) -> TcpStream
where
    R: Abort + Net<Stream = TcpStream>,
{
    let mut client = rt.connect(address).expect(rt, "no client");
    client.write_all(bytes).expect(rt, "nothing was sent");
    client
}

/// Adds to `told` all that a client is told from now on, to the end of its session.
pub fn hear_all(rt: &impl Abort, client: TcpStream, told: &mut Vec<u8>) {
    let mut client = client;
    let read = client.read_to_end(told);
    drop(client);
    read.expect(rt, "a client has failed");
}

/// `count` clients come, one after another. Each has sent its number, and leaves.
pub fn send_numbers<R>(rt: &R, address: SocketAddr, count: u8)
where
    R: Abort + Net<Stream = TcpStream>,
{
    for number in 1..=count {
        drop(client(rt, address, &[number]));
    }
}

// Whether the client of a session has sent the session's number.
fn is_numbered(session: u32, stream: &TcpStream) -> bool {
    let mut stream = stream;
    let mut number = [0];
    matches!(stream.read(&mut number), Ok(1)) && u32::from(number[0]) == session
}

/// A handler with a number, whose seat is spent after `left` sessions.
///
/// It adds its number to the digits of those that served. It adds a 9 if a session has another
/// number than its client, or if the session is told anything but `places`. If it has an acceptor,
/// it shuts that after the fourth session.
#[derive(Drop)]
pub struct Idler<'a> {
    pub number: u32,
    pub left: u32,
    pub places: bool,
    pub served: &'a Mutex<u32>,
    pub acceptor: Option<&'a Mutex<Acceptor<TcpListener>>>,
}

impl ClientHandler for Idler<'_> {
    fn is_spent(&self) -> bool {
        self.left == 0
    }

    fn serve<R: Wait + Clock>(&mut self, rt: &R, session: u32, stream: &TcpStream, places: bool) {
        self.left = self.left.saturating_sub(1);
        let is_right = places == self.places && is_numbered(session, stream);
        let digit = if is_right { self.number } else { 9 };
        let mut served = self.served.lock(rt);
        *served = served.saturating_mul(10).saturating_add(digit);
        let is_last = *served >= 1000;
        drop(served);
        if let (true, Some(acceptor)) = (is_last, self.acceptor) {
            acceptor.lock(rt).is_open = false;
        }
    }
}
