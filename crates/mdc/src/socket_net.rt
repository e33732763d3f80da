ghost use Rattle.std.specs.Prelude.{◌≡◌, ◌<◌, ◌≤◌, []};
ghost use Rattle.net_link.specs.Causes.{Rose, count_of, count_of-below};

use crate::connection::{Connection, is_not_yet};
use crate::socket_watch::SocketWatch;
use mio::net::TcpStream;
use net_link::{Came, Dialed, Net, Wrote};
use std::alloc::Global;
use std::io;
use std::io::ErrorKind;
use std::net::{Net as Sockets, SocketAddr, ToSocketAddrs};
use std::sync::Arc;

/// A net of non-blocking sockets, which send at once what they are given (TCP_NODELAY). It tells nothing.
///
/// A dial begins a connection, and until that stands `write` and `read` answer `NotYet`. An address in digits is not
/// looked up; a host's name is, and the lookup may wait. Rests of the clock that has the same watch end when a socket is
/// ready.
#[derive(Drop)]
pub struct SocketNet<'a, H: Sockets> {
    alloc: Global,
    handle: &'a H,
    watch: &'a SocketWatch,
    lines: Vec<Line>,
    next: u64,
    faults: u64,
}

/// A stream's number and its connection.
#[derive(Drop)]
struct Line {
    stream: u64,
    connection: Arc<Connection>,
}

impl<'a, H: Sockets> SocketNet<'a, H> {
    pub fn new(alloc: Global, handle: &'a H, watch: &'a SocketWatch) -> SocketNet<'a, H> {
        SocketNet {
            alloc,
            handle,
            watch,
            lines: Vec::new(alloc),
            next: 0,
            faults: 0,
        }
    }

    /// Counts a fault.
    fn fail(&mut self)
        ensures later { count_of self.old.faults ≤ count_of self.new.faults }
        ensures rose { Rose (count_of self.old.faults) (count_of self.new.faults) }
        ensures next { self.new.next ≡ self.old.next }
    {
        self.faults = self.faults.saturating_add(1);
    }

    /// Begins a connection to the first address that the text names.
    fn connect(&self, address: &str) -> io::Result<Arc<Connection>> {
        let found = match address.parse::<SocketAddr>() {
            Ok(digits) => Some(digits),
            Err(_) => address.to_socket_addrs(self.handle)?.next(),
        };
        let Some(address) = found else {
            return Err(io::Error::from(ErrorKind::NotFound));
        };
        let mut socket = TcpStream::connect(self.handle, address)?;
        // A socket that gathers small pieces all the same is slower, no more.
        let _ = socket.set_nodelay(true);
        self.watch.watch(&mut socket);
        let connection = Connection::new(self.alloc, socket)?;
        Ok(Arc::new(self.alloc, connection)?)
    }
}

fn find(lines: &[Line], stream: u64) -> io::Result<&Arc<Connection>> {
    for line in lines {
        if line.stream == stream {
            return Ok(&line.connection);
        }
    }
    Err(io::Error::from(ErrorKind::NotFound))
}

/// Memory was wanting, here or in the system.
fn is_memory(error: &io::Error) -> bool {
    error.kind() == ErrorKind::OutOfMemory
}

impl<'a, H: Sockets> Net for SocketNet<'a, H> {
    ghost faults = { λ s. count_of s.faults };

    ghost is_open = { λ s t. t < s.next };

    ghost next = { λ s. s.next };

    ghost tells = { ⊥ };

    ghost history = { λ _. [] };

    ghost inbox = { λ _ _. [] };

    ghost has_ended = { λ _ _. ⊥ };

    ghost is_full = { λ _ _. ⊥ };

    ghost counts = { λ s. count_of-below s.faults };

    ghost below = { λ _ _ given. given };

    fn dial(&mut self, address: &str) -> Dialed {
        let connection = match self.connect(address) {
            Ok(connection) => connection,
            Err(error) if is_memory(&error) => return Dialed::Memory,
            Err(_) => {
                self.fail();
                return Dialed::Failed;
            }
        };
        let stream = self.next;
        let Some(next) = stream.checked_add(1) else {
            self.fail();
            return Dialed::Failed;
        };
        self.watch.note(&connection);
        let Ok(()) = self.lines.push(Line { stream, connection }) else {
            return Dialed::Memory;
        };
        self.next = next;
        Dialed::Stream(stream)
    }

    fn write(&mut self, stream: u64, bytes: &[u8]) -> Wrote {
        let result = match find(self.lines.as_slice(), stream) {
            Ok(connection) => {
                self.watch.note(connection);
                connection.write(bytes)
            }
            Err(error) => Err(error),
        };
        match result {
            Ok(0) => Wrote::NotYet,
            Ok(count) => Wrote::Took(count),
            Err(error) if is_not_yet(&error) => Wrote::NotYet,
            Err(error) if is_memory(&error) => Wrote::Memory,
            Err(_) => {
                self.fail();
                Wrote::Failed
            }
        }
    }

    fn read(&mut self, stream: u64, into: &mut [u8]) -> Came {
        let result = match find(self.lines.as_slice(), stream) {
            Ok(connection) => {
                let result = connection.read(into);
                if result.is_err() {
                    self.watch.note(connection);
                }
                result
            }
            Err(error) => Err(error),
        };
        match result {
            Ok(0) => Came::End,
            Ok(count) => Came::Got(count),
            Err(error) if is_not_yet(&error) => Came::NotYet,
            Err(error) if is_memory(&error) => Came::Memory,
            Err(_) => {
                self.fail();
                Came::Failed
            }
        }
    }

    fn close(&mut self, stream: u64) {
        if let Ok(connection) = find(self.lines.as_slice(), stream) {
            connection.flush();
        }
        self.lines.retain(|line| line.stream != stream);
    }
}
