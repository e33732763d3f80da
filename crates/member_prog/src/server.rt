use crate::client::{After, Client};
use member_core::Member;
use mio::net::{TcpListener, TcpStream};
use mio::{Events, Interest, Poll, Token};
use slab::Slab;
use std::alloc::{AllocError, Global};
use std::io::ErrorKind;
use std::net::{IpAddr, Ipv4Addr, Net as Sockets, SocketAddr};
use std::sync::Wait;
use std::time::{Clock, Duration};
use std::{io, mem};

/// How long a turn waits at most until something comes, in milliseconds.
const REST_MILLIS: u64 = 100;

/// How often a port that is taken is tried, with such a rest behind each.
const TRIES: u32 = 20;

/// The most events that one turn takes from the system. What is left over ends the next turn's wait at once.
const EVENTS: usize = 256;

/// The most connections that one turn accepts. Those left over get the next turn.
const ACCEPTS: u32 = 256;

/// The token of the listening socket. A connection's is its key, which is smaller.
const LISTENER: Token = Token(usize::MAX);

/// Why there is no server.
#[derive(Clone, Copy, Debug, PartialEq, Eq)]
pub enum Stop {
    /// The port cannot be listened on.
    Port,
    /// Memory was wanting.
    Memory,
}

/// A member that is served to any number of connections.
///
/// Each turn waits until sockets are ready, and gives the connections that are their turns, in order. A socket is reported
/// when it becomes ready, not while it is: so a connection that was reported gets turns until it waits for its socket.
#[derive(Drop)]
pub struct Server {
    alloc: Global,
    listener: TcpListener,
    poll: Poll,
    events: Events,
    clients: Slab<Client>,
    /// The keys of the connections that get turns next.
    ready: Vec<usize>,
    /// Whether connections may wait to be accepted.
    is_called: bool,
    /// How many connections were accepted.
    accepted: u64,
    member: Member,
}

impl Server {
    /// Listens on that port of the loopback address. One that is taken is tried again for some time.
    pub fn listen<R: Sockets + Clock>(
        alloc: Global,
        rt: &R,
        port: u16,
        member: Member,
    ) -> Result<Server, Stop> {
        let (listener, poll, events) = open_at_last(alloc, rt, port)?;
        Ok(Server {
            alloc,
            listener,
            poll,
            events,
            clients: Slab::new(alloc),
            ready: Vec::new(alloc),
            is_called: true,
            accepted: 0,
            member,
        })
    }

    /// Takes turns until nothing came in so many of them, one behind another.
    pub fn run<R: Clock + Wait>(&mut self, rt: &R, turns: u32) -> Result<(), AllocError> {
        let mut idle = 0u32;
        'turns: for _ in rt.forever() {
            idle = if self.turn(rt)? {
                0
            } else {
                idle.saturating_add(1)
            };
            if idle >= turns {
                return Ok(());
            }
        }
        unreachable!()
    }

    /// One turn; whether something came in it, or was left from the one before.
    fn turn<R: Clock>(&mut self, rt: &R) -> Result<bool, AllocError> {
        self.wait(rt);
        self.note_events()?;
        self.accept_some()?;
        let came = !self.ready.is_empty();
        self.serve_ready()?;
        Ok(came)
    }

    /// Waits until a socket is ready; not at all where a connection is to get turns.
    fn wait<R: Clock>(&mut self, rt: &R) {
        let most = if self.ready.is_empty() {
            Duration::from_millis(REST_MILLIS)
        } else {
            Duration::ZERO
        };
        if self.poll.poll(&mut self.events, Some(most)).is_err() {
            rt.sleep(most);
        }
    }

    /// Notes what became ready.
    fn note_events(&mut self) -> Result<(), AllocError> {
        for event in self.events.iter() {
            let token = event.token();
            if token == LISTENER {
                self.is_called = true;
            } else {
                let Token(key) = token;
                mark(&mut self.clients, &mut self.ready, key)?;
            }
        }
        Ok(())
    }

    /// Accepts connections that wait. Where one cannot be accepted now, as where no more files may be open, the next turn
    /// tries again.
    fn accept_some(&mut self) -> Result<(), AllocError> {
        if !self.is_called {
            return Ok(());
        }
        for _ in 0..ACCEPTS {
            match self.listener.accept() {
                Ok((socket, _)) => self.take(socket)?,
                Err(error) if error.kind() == ErrorKind::WouldBlock => {
                    self.is_called = false;
                    return Ok(());
                }
                Err(error) if error.kind() == ErrorKind::OutOfMemory => return Err(AllocError),
                Err(_) => return Ok(()),
            }
        }
        Ok(())
    }

    /// Takes a connection, which gets its first turns at once. One that cannot be watched is closed.
    fn take(&mut self, socket: TcpStream) -> Result<(), AllocError> {
        let client = Client::new(self.alloc, self.accepted, socket);
        self.accepted = self.accepted.saturating_add(1);
        let key = self.clients.insert(client)?;
        if self.watch(key).is_err() {
            self.clients.try_remove(key);
            return Ok(());
        }
        mark(&mut self.clients, &mut self.ready, key)
    }

    /// Has the poll report the connection of that key.
    fn watch(&mut self, key: usize) -> io::Result<()> {
        match self.clients.get_mut(key) {
            Some(client) => client.register(self.poll.registry(), Token(key)),
            None => Ok(()),
        }
    }

    /// Gives turns to the connections that are to get them.
    fn serve_ready(&mut self) -> Result<(), AllocError> {
        let ready = mem::replace(&mut self.ready, Vec::new(self.alloc));
        for key in ready {
            self.serve(key)?;
        }
        Ok(())
    }

    /// Gives the connection of that key its turns, and closes it where it is over.
    fn serve(&mut self, key: usize) -> Result<(), AllocError> {
        let Some(client) = self.clients.get_mut(key) else {
            return Ok(());
        };
        client.is_ready = false;
        match client.serve(self.alloc, &mut self.member) {
            After::Turns => mark(&mut self.clients, &mut self.ready, key),
            After::Socket => Ok(()),
            After::Nothing => {
                self.clients.try_remove(key);
                Ok(())
            }
            After::Memory => Err(AllocError),
        }
    }
}

/// Has the connection of that key get turns next. A key of none is of one that was closed.
fn mark(clients: &mut Slab<Client>, ready: &mut Vec<usize>, key: usize) -> Result<(), AllocError> {
    let Some(client) = clients.get_mut(key) else {
        return Ok(());
    };
    if !client.is_ready {
        client.is_ready = true;
        ready.push(key)?;
    }
    Ok(())
}

/// A listening socket, and the poll that it is watched by. Where another program has the port, tries again for some time,
/// since that may be about to end.
fn open_at_last<R: Sockets + Clock>(
    alloc: Global,
    rt: &R,
    port: u16,
) -> Result<(TcpListener, Poll, Events), Stop> {
    for _ in 0..TRIES {
        match open(alloc, rt, port) {
            Ok(opened) => return Ok(opened),
            Err(error) if error.kind() == ErrorKind::AddrInUse => {
                rt.sleep(Duration::from_millis(REST_MILLIS));
            }
            Err(error) if error.kind() == ErrorKind::OutOfMemory => return Err(Stop::Memory),
            Err(_) => return Err(Stop::Port),
        }
    }
    Err(Stop::Port)
}

/// The same, where the port is free.
fn open<H: Sockets>(
    alloc: Global,
    handle: &H,
    port: u16,
) -> io::Result<(TcpListener, Poll, Events)> {
    let address = SocketAddr::new(IpAddr::V4(Ipv4Addr::LOCALHOST), port);
    let mut listener = TcpListener::bind(handle, address)?;
    let poll = Poll::new(handle)?;
    let events = Events::with_capacity(alloc, EVENTS)?;
    poll.registry()
        .register(&mut listener, LISTENER, Interest::READABLE)?;
    Ok((listener, poll, events))
}
