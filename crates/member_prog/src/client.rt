ghost use Rattle.std.specs.Prelude.{◌≡◌};

use crate::accepted_socket::AcceptedSocket;
use member_core::Member;
use member_serve::{Connection, Served};
use mio::net::TcpStream;
use mio::{Registry, Token};
use std::alloc::Global;
use std::io;

/// The most requests of one client that are answered before the others get their turns.
const MOST_AT_ONCE: u32 = 16;

/// A client: its socket, and the connection on it.
#[derive(Drop)]
pub struct Client {
    /// Whether it is among those that get turns next.
    pub is_ready: bool,
    socket: AcceptedSocket,
    connection: Connection,
    ghost stream: { connection.wire.stream ≡ socket.stream },
}

/// What a client waits for behind its turns.
#[derive(Clone, Copy, Debug, PartialEq, Eq)]
pub enum After {
    /// For more turns: it answered as many requests as it may at once.
    Turns,
    /// For its socket, which has nothing to give or no room to take.
    Socket,
    /// For nothing: it is over.
    Nothing,
    /// Memory was wanting.
    Memory,
}

impl Client {
    /// The client whose connection was made as a stream of that number.
    pub fn new(alloc: Global, stream: u64, socket: TcpStream) -> Client {
        Client {
            is_ready: false,
            socket: AcceptedSocket::new(stream, socket),
            connection: Connection::new(alloc, stream),
        }
    }

    /// Has a poll report it under that token.
    pub fn register(&mut self, registry: &Registry, token: Token) -> io::Result<()> {
        self.socket.register(registry, token)
    }

    /// Answers requests that are there, as many as it may at once.
    pub fn serve(&mut self, alloc: Global, member: &mut Member) -> After {
        for _ in 0..MOST_AT_ONCE {
            match self.turn(alloc, member) {
                Served::Answered => {}
                Served::NotYet => return After::Socket,
                Served::End | Served::Fault | Served::Bad(_) => return After::Nothing,
                Served::Memory => return After::Memory,
            }
        }
        After::Turns
    }

    /// One turn of its connection.
    fn turn(&mut self, alloc: Global, member: &mut Member) -> Served {
        if self.connection.is_over() {
            return Served::End;
        }
        self.connection.turn(alloc, &mut self.socket, member)
    }
}
