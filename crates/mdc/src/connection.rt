ghost use Rattle.std.specs.Io.{ReadsAtMost, WritesAtMost};

use crate::poller::Poller;
use crate::socket_watch::SocketWatch;
use mio::net::TcpStream;
use std::alloc::Global;
use std::io;
use std::io::{BufRead, BufReader, ErrorKind, Read, Write};
use std::net::Net as Sockets;
use std::sync::{Mutex, Wait};
use std::time::{Clock, Duration};

/// The most bytes that a socket is read ahead of what a caller asks for: a message's header and a short message behind it are
/// one call of the system. Of a longer one what is behind these bytes is read to where the caller wants it.
const AHEAD: usize = 512;

/// The most bytes that are kept to be sent by a rest. What is longer is sent at once.
const KEPT: usize = 4_096;

/// A stream's socket, shared by the net and by the lane whose command waits for what comes on it.
///
/// From when a lane first rests on it a short piece that is written is kept, and the lane's next rest sends it, waits, and
/// reads ahead what has come: so these calls of the system are made outside the client's lock. A read and a close send what
/// is kept, too.
#[derive(Drop)]
pub struct Connection {
    socket: Mutex<Socket>,
}

#[derive(Drop)]
struct Socket {
    stream: BufReader<TcpStream>,
    /// What reports this socket alone, from when a lane first rested on it.
    poller: Option<Poller>,
    /// What is to be sent ahead of any other piece.
    kept: Vec<u8>,
    /// Whether nothing was read since that was kept: no answer to it can be there.
    is_fresh: bool,
    /// Of what kind the fault was that a rest met.
    fault: Option<ErrorKind>,
}

impl Connection {
    /// A connection of a socket that does not block.
    pub fn new(alloc: Global, socket: TcpStream) -> io::Result<Connection> {
        let stream = BufReader::with_capacity(alloc, AHEAD, socket)?;
        Ok(Connection {
            socket: Mutex::new(Socket {
                stream,
                poller: None,
                kept: Vec::new(alloc),
                is_fresh: false,
                fault: None,
            }),
        })
    }

    /// Takes the front of a piece; `WouldBlock` where it takes nothing now, also while a lane rests on it.
    pub fn write(&self, bytes: &[u8]) -> io::Result<usize>
        ensures bound { WritesAtMost result bytes.now }
    {
        match self.socket.try_lock() {
            Some(mut socket) => socket.write(bytes),
            None => Err(io::Error::from(ErrorKind::WouldBlock)),
        }
    }

    /// Reads what has come; `WouldBlock` where nothing has, also while a lane rests on it.
    pub fn read(&self, into: &mut [u8]) -> io::Result<usize>
        ensures bound { ReadsAtMost result into.new }
    {
        match self.socket.try_lock() {
            Some(mut socket) => socket.read(into),
            None => Err(io::Error::from(ErrorKind::WouldBlock)),
        }
    }

    /// Sends what is kept, as far as the system takes it now.
    pub fn flush(&self) {
        if let Some(mut socket) = self.socket.try_lock() {
            let _ = socket.flush();
        }
    }

    /// Sends what is kept, waits until something has come, at most for so long, and reads it ahead. False where the system
    /// gives nothing to wait with.
    pub fn rest<R: Clock + Sockets + Wait>(
        &self,
        rt: &R,
        watch: &SocketWatch,
        most: Duration,
    ) -> bool {
        let mut socket = self.socket.lock(rt);
        socket.rest(rt, watch, most)
    }
}

impl Socket {
    fn write(&mut self, bytes: &[u8]) -> io::Result<usize>
        ensures bound { WritesAtMost result bytes.now }
    {
        if let Some(kind) = self.fault {
            return Err(io::Error::from(kind));
        }
        let is_short = self.poller.is_some() && self.kept.is_empty() && bytes.len() <= KEPT;
        if is_short && self.kept.extend_from_slice(bytes).is_ok() {
            self.is_fresh = true;
            return Ok(bytes.len());
        }
        self.flush()?;
        self.stream.get_mut().write(bytes)
    }

    fn read(&mut self, into: &mut [u8]) -> io::Result<usize>
        ensures bound { ReadsAtMost result into.new }
    {
        if self.stream.buffer().is_empty() {
            if let Some(kind) = self.fault {
                return Err(io::Error::from(kind));
            }
            if self.is_fresh {
                self.is_fresh = false;
                return Err(io::Error::from(ErrorKind::WouldBlock));
            }
            self.flush()?;
        }
        self.stream.read(into)
    }

    /// Sends what is kept; `WouldBlock` where some of it is left.
    fn flush(&mut self) -> io::Result<()> {
        if self.kept.is_empty() {
            return Ok(());
        }
        self.is_fresh = false;
        let count = self.stream.get_mut().write(self.kept.as_slice())?;
        if count == self.kept.len() {
            self.kept.clear();
            return Ok(());
        }
        drop(self.kept.drain(..count));
        Err(io::Error::from(ErrorKind::WouldBlock))
    }

    fn rest<R: Clock + Sockets>(&mut self, rt: &R, watch: &SocketWatch, most: Duration) -> bool {
        if !self.has_poller(rt, watch) {
            return false;
        }
        if self.send() && self.stream.buffer().is_empty() {
            if let Some(poller) = &mut self.poller {
                poller.rest(rt, most);
            }
            if self.send() {
                self.read_ahead();
            }
        }
        true
    }

    /// Whether it has a poller of its own, which takes over from the watch where there was none yet.
    fn has_poller<R: Sockets>(&mut self, rt: &R, watch: &SocketWatch) -> bool {
        if self.poller.is_none() {
            self.poller = watch.hand_over(rt, self.stream.get_mut());
        }
        self.poller.is_some()
    }

    /// Sends what is kept, as far as the system takes it now; false behind a fault.
    fn send(&mut self) -> bool {
        let sent = self.flush();
        self.is_sound(sent.err())
    }

    /// Reads what has come, up to what the buffer takes.
    fn read_ahead(&mut self) {
        let came = self.stream.fill_buf().err();
        self.is_sound(came);
    }

    /// Notes a fault.
    fn is_sound(&mut self, error: Option<io::Error>) -> bool {
        match error {
            Some(error) if !is_not_yet(&error) => {
                self.fault = Some(error.kind());
            }
            _ => {}
        }
        self.fault.is_none()
    }
}

/// The connection does not stand yet, or it has nothing to give or no room to take.
pub fn is_not_yet(error: &io::Error) -> bool {
    matches!(
        error.kind(),
        ErrorKind::WouldBlock | ErrorKind::Interrupted | ErrorKind::NotConnected
    )
}
