ghost use Rattle.std.specs.Prelude.{◌≡◌, ◌≤◌, ◌+◌, []};
ghost use Rattle.net_link.specs.Causes.{Rose, count_of, count_of-below};
ghost use Rattle.member_prog.specs.Sockets.{is-below};

use mio::net::TcpStream;
use mio::{Interest, Registry, Token};
use net_link::{Came, Dialed, Net, Wrote};
use std::io;
use std::io::{ErrorKind, Read, Write};
use std::net::Shutdown;

/// A connection that a client made, as a net of one stream. It tells nothing, and dials none.
#[derive(Drop)]
pub struct AcceptedSocket {
    /// The number of its stream.
    pub stream: u64,
    socket: TcpStream,
    faults: u64,
}

impl AcceptedSocket {
    /// The connection as a stream of that number, which sends at once what it is given (TCP_NODELAY).
    pub fn new(stream: u64, socket: TcpStream) -> AcceptedSocket
        ensures { result.stream ≡ stream }
    {
        // A socket that gathers small pieces all the same is slower, no more.
        let _ = socket.set_nodelay(true);
        AcceptedSocket {
            stream,
            socket,
            faults: 0,
        }
    }

    /// Has a poll report it under that token when it becomes ready to be read or written.
    pub fn register(&mut self, registry: &Registry, token: Token) -> io::Result<()>
        ensures { self.new.stream ≡ self.old.stream }
    {
        let both = Interest::READABLE | Interest::WRITABLE;
        registry.register(&mut self.socket, token, both)
    }

    /// Counts a fault.
    fn fail(&mut self)
        ensures later { count_of self.old.faults ≤ count_of self.new.faults }
        ensures rose { Rose (count_of self.old.faults) (count_of self.new.faults) }
        ensures stream { self.new.stream ≡ self.old.stream }
    {
        self.faults = self.faults.saturating_add(1);
    }
}

/// It has nothing to give or no room to take.
fn is_not_yet(error: &io::Error) -> bool {
    matches!(error.kind(), ErrorKind::WouldBlock | ErrorKind::Interrupted)
}

/// Memory was wanting, here or in the system.
fn is_memory(error: &io::Error) -> bool {
    error.kind() == ErrorKind::OutOfMemory
}

impl Net for AcceptedSocket {
    ghost faults = { λ s. count_of s.faults };

    ghost is_open = { λ s t. t ≡ s.stream };

    ghost next = { λ s. s.stream + 1 };

    ghost tells = { ⊥ };

    ghost history = { λ _. [] };

    ghost inbox = { λ _ _. [] };

    ghost has_ended = { λ _ _. ⊥ };

    ghost is_full = { λ _ _. ⊥ };

    ghost counts = { λ s. count_of-below s.faults };

    ghost below = { λ s t given. is-below t s.stream given };

    fn dial(&mut self, _address: &str) -> Dialed {
        self.fail();
        Dialed::Failed
    }

    fn write(&mut self, _stream: u64, bytes: &[u8]) -> Wrote {
        match self.socket.write(bytes) {
            Ok(0) => Wrote::NotYet,
            Ok(count) => Wrote::Took(count),
            Err(error) if is_not_yet(&error) => Wrote::NotYet,
            Err(error) if is_memory(&error) => Wrote::Memory,
            Err(_) => {
                self.fail();
                Wrote::Failed
            }
        }
    }

    fn read(&mut self, _stream: u64, into: &mut [u8]) -> Came {
        match self.socket.read(into) {
            Ok(0) => Came::End,
            Ok(count) => Came::Got(count),
            Err(error) if is_not_yet(&error) => Came::NotYet,
            Err(error) if is_memory(&error) => Came::Memory,
            Err(_) => {
                self.fail();
                Came::Failed
            }
        }
    }

    fn close(&mut self, _stream: u64) {
        // One that cannot be shut is closed when it is dropped.
        let _ = self.socket.shutdown(Shutdown::Both);
    }
}
