use mio::net::TcpStream;
use mio::{Events, Interest, Poll, Registry, Token, Waker};
use std::alloc::Global;
use std::io;
use std::net::Net as Sockets;
use std::time::{Clock, Duration};

/// The most events that one poll takes from the system. What is left over ends the next poll at once.
const EVENTS: usize = 64;

/// The token of every socket: nobody looks at what a poll reports.
const ANY: Token = Token(0);

/// Waits until one of its sockets becomes ready to be read or written.
///
/// A socket is reported when it becomes ready, not while it is: whoever rests has seen `WouldBlock`, and bounds its rest.
#[derive(Drop)]
pub struct Poller {
    poll: Poll,
    events: Events,
}

impl Poller {
    /// A poller without sockets.
    pub fn new<H: Sockets>(alloc: Global, handle: &H) -> io::Result<Poller> {
        Ok(Poller {
            poll: Poll::new(handle)?,
            events: Events::with_capacity(alloc, EVENTS)?,
        })
    }

    /// What sockets are put in and taken out by, also while another thread rests.
    pub fn registry(&self) -> io::Result<Registry> {
        self.poll.registry().try_clone()
    }

    /// What ends a rest from another thread.
    pub fn waker(&self) -> io::Result<Waker> {
        Waker::new(self.poll.registry(), ANY)
    }

    /// Has rests end when this socket becomes ready.
    pub fn put(&self, socket: &mut TcpStream) -> io::Result<()> {
        put(self.poll.registry(), socket)
    }

    /// Rests at most for so long; where the system cannot poll, lets the time pass.
    pub fn rest<R: Clock>(&mut self, rt: &R, most: Duration) {
        let polled = self.poll.poll(&mut self.events, Some(most));
        if polled.is_err() {
            rt.sleep(most);
        }
    }
}

/// Has a registry's poller report this socket.
pub fn put(registry: &Registry, socket: &mut TcpStream) -> io::Result<()> {
    registry.register(socket, ANY, Interest::READABLE | Interest::WRITABLE)
}
