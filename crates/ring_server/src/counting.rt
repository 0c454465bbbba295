//! Failed accepts that are counted.

use std::io;
use std::net::{OpenListener, SocketAddr, TcpStream};
use std::sync::atomic::{AtomicU64, Ordering};

/// A listener whose failed accepts are counted.
#[derive(Drop)]
pub struct Heeded<'a, L: Drop> {
    listener: L,
    failed: &'a AtomicU64,
}

impl<'a, L: Drop> Heeded<'a, L> {
    /// Returns this listener, whose failed accepts `failed` counts.
    pub(crate) fn new(listener: L, failed: &'a AtomicU64) -> Heeded<'a, L> {
        Heeded { listener, failed }
    }
}

impl<L: OpenListener<Stream = TcpStream> + Drop> OpenListener for Heeded<'_, L> {
    type Stream = TcpStream;

    fn accept(&self) -> io::Result<(TcpStream, SocketAddr)> {
        let accepted = self.listener.accept();
        if accepted.is_err() {
            self.failed.fetch_add(1, Ordering::SeqCst);
        }
        accepted
    }

    fn local_addr(&self) -> io::Result<SocketAddr> {
        self.listener.local_addr()
    }
}
