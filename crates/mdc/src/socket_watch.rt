use crate::connection::Connection;
use crate::poller::{Poller, put};
use desk_share::{LANES, Waits};
use mio::net::TcpStream;
use mio::{Registry, Waker};
use std::alloc::Global;
use std::mem;
use std::net::Net as Sockets;
use std::sync::atomic::{AtomicU64, Ordering};
use std::sync::{Arc, Condvar, Mutex, Wait};
use std::time::{Clock, Duration};

/// Ends rests early: the net and the clock of a run share it.
///
/// A lane whose command waits for what comes on a connection rests on that connection alone. A lane whose command waits for
/// a server or for a connection rests until a step of another command or of a check changed something. Whoever else rests
/// does so until any socket of the run is ready on which no lane rested yet: several may, as leader and followers, of whom
/// the first one polls, the others wait for it, and all come back when its poll ends. Where the system gives nothing to
/// poll with, a rest lasts its time.
#[derive(Drop)]
pub struct SocketWatch {
    alloc: Global,
    registry: Option<Registry>,
    waker: Option<Waker>,
    polling: Mutex<Polling>,
    ended: Condvar,
    /// What the net's last call was about, where it has not all that its caller wants.
    last: Mutex<Option<Arc<Connection>>>,
    /// By lane.
    lanes: Vec<Lane>,
    /// The lanes whose rests are to end, a bit for each, the first one's the lowest.
    to_wake: AtomicU64,
}

/// A lane, where it rests.
#[derive(Drop)]
struct Lane {
    awaited: Mutex<Awaited>,
    woken: Condvar,
}

/// What those that rest share.
#[derive(Drop)]
struct Polling {
    /// None while one of them polls.
    poller: Option<Poller>,
    /// Another number behind each poll.
    round: u64,
}

/// What a lane's command waits for.
#[derive(Drop)]
enum Awaited {
    /// What comes on a connection.
    Bytes(Arc<Connection>),
    /// To be first in the line of a pool.
    Line,
    /// Another topology.
    Servers,
    /// Its time alone.
    Time,
    /// Nothing any more: its rest is to end.
    Nothing,
}

impl SocketWatch {
    pub fn new<H: Sockets>(alloc: Global, handle: &H) -> SocketWatch {
        let poller = Poller::new(alloc, handle).ok();
        let (registry, waker) = match &poller {
            Some(poller) => (poller.registry().ok(), poller.waker().ok()),
            None => (None, None),
        };
        SocketWatch {
            alloc,
            registry,
            waker,
            polling: Mutex::new(Polling { poller, round: 0 }),
            ended: Condvar::new(),
            last: Mutex::new(None),
            lanes: lanes_of(alloc),
            to_wake: AtomicU64::new(0),
        }
    }

    /// Has rests end when this socket is ready. A socket that cannot be watched ends none: they last their time.
    pub fn watch(&self, socket: &mut TcpStream) {
        if let Some(registry) = &self.registry {
            let _ = put(registry, socket);
        }
    }

    /// A poller that reports this socket alone, in place of this watch; None where the system gives none.
    pub fn hand_over<H: Sockets>(&self, handle: &H, socket: &mut TcpStream) -> Option<Poller> {
        let poller = Poller::new(self.alloc, handle).ok()?;
        poller.put(socket).ok()?;
        if let Some(registry) = &self.registry {
            let _ = registry.deregister(socket);
        }
        Some(poller)
    }

    /// Notes what the net's last call was about, which has not all that its caller wants.
    pub fn note(&self, connection: &Arc<Connection>) {
        if let Some(mut last) = self.last.try_lock() {
            *last = Arc::try_clone(connection).ok();
        }
    }

    /// Notes what a lane's command waits for: for bytes on what the net noted last. Where it rested for something else its rest is to end.
    /// Of lane 0 forgets what the net noted.
    pub fn note_step<R: Wait>(&self, rt: &R, lane: u32, waits: Option<Waits>) {
        let last = self.take_last(rt);
        let awaited = match (waits, last) {
            (Some(Waits::Stream), Some(connection)) => Awaited::Bytes(connection),
            (Some(Waits::Line { .. }), _) => Awaited::Line,
            (Some(Waits::Server), _) => Awaited::Servers,
            (Some(Waits::Stream), None) => Awaited::Time,
            (None, _) => Awaited::Nothing,
        };
        let Some(place) = self.lanes.get(lane as usize) else {
            return;
        };
        if place.note(rt, awaited) {
            self.to_wake(lane);
        }
    }

    /// The lane's rest is to end, where its command waits in a line.
    pub fn note_line<R: Wait>(&self, rt: &R, lane: u32) {
        self.end_rest(rt, lane, false);
    }

    /// The rests of all lanes whose commands wait for a server are to end.
    pub fn note_servers<R: Wait>(&self, rt: &R) {
        for lane in 1..=LANES as u32 {
            self.end_rest(rt, lane, true);
        }
    }

    fn end_rest<R: Wait>(&self, rt: &R, lane: u32, is_for_server: bool) {
        let Some(place) = self.lanes.get(lane as usize) else {
            return;
        };
        if place.end_rest(rt, is_for_server) {
            self.to_wake(lane);
        }
    }

    fn to_wake(&self, lane: u32) {
        if let Some(place) = lane.checked_sub(1) {
            if place < LANES as u32 {
                self.to_wake.fetch_or(1 << place, Ordering::SeqCst);
            }
        }
    }

    /// Wakes the lanes whose rests are to end.
    pub fn wake_lanes(&self) {
        if self.to_wake.load(Ordering::SeqCst) == 0 {
            return;
        }
        let lanes = self.to_wake.swap(0, Ordering::SeqCst);
        for place in 0..LANES as u32 {
            if lanes >> place & 1 == 1 {
                if let Some(lane) = self.lanes.get(place as usize + 1) {
                    lane.woken.notify_one();
                }
            }
        }
    }

    /// Ends the rest of whoever polls the watched sockets.
    pub fn wake(&self) {
        if let Some(waker) = &self.waker {
            let _ = waker.wake();
        }
    }

    /// Waits for what the lane's command waits for, at most for so long.
    pub fn rest_of<R: Clock + Sockets + Wait>(&self, rt: &R, lane: u32, most: Duration) {
        let Some(lane) = self.lanes.get(lane as usize) else {
            rt.sleep(most);
            return;
        };
        match lane.take_connection(rt) {
            Some(connection) => {
                if !connection.rest(rt, self, most) {
                    self.rest(rt, most);
                }
            }
            None => lane.rest(rt, most),
        }
    }

    /// Waits until a watched socket becomes ready, at most for so long.
    pub fn rest<R: Clock + Wait>(&self, rt: &R, most: Duration) {
        let mut polling = self.polling.lock(rt);
        match polling.poller.take() {
            Some(mut poller) => {
                // Nothing is locked while it polls.
                drop(polling);
                poller.rest(rt, most);
                self.hand_back(rt, poller);
            }
            None => {
                let round = polling.round;
                let _ = self
                    .ended
                    .wait_timeout_while(rt, polling, most, |polling| polling.round == round);
            }
        }
    }

    /// Gives the poller back, and wakes all that waited for it.
    fn hand_back<R: Wait>(&self, rt: &R, poller: Poller) {
        let mut polling = self.polling.lock(rt);
        polling.poller = Some(poller);
        polling.round = polling.round.wrapping_add(1);
        drop(polling);
        self.ended.notify_all();
    }

    fn take_last<R: Wait>(&self, rt: &R) -> Option<Arc<Connection>> {
        let mut last = self.last.lock(rt);
        last.take()
    }
}

impl Lane {
    fn new() -> Lane {
        Lane {
            awaited: Mutex::new(Awaited::Time),
            woken: Condvar::new(),
        }
    }

    /// Notes what it waits for; whether it may rest in a line, and that rest is to end.
    fn note<R: Wait>(&self, rt: &R, awaited: Awaited) -> bool {
        let mut place = self.awaited.lock(rt);
        let may_rest = matches!(*place, Awaited::Line) && !matches!(awaited, Awaited::Line);
        *place = match awaited {
            Awaited::Servers | Awaited::Time if may_rest => Awaited::Nothing,
            awaited => awaited,
        };
        may_rest
    }

    /// Its rest is to end, where it waits for a server, or for its turn in a line; whether it does.
    fn end_rest<R: Wait>(&self, rt: &R, is_for_server: bool) -> bool {
        let mut awaited = self.awaited.lock(rt);
        let is_awaited = match &*awaited {
            Awaited::Servers => is_for_server,
            Awaited::Line => !is_for_server,
            _ => false,
        };
        if is_awaited {
            *awaited = Awaited::Nothing;
        }
        is_awaited
    }

    /// The connection on which it waits for bytes.
    fn take_connection<R: Wait>(&self, rt: &R) -> Option<Arc<Connection>> {
        let mut awaited = self.awaited.lock(rt);
        if !matches!(*awaited, Awaited::Bytes(_)) {
            return None;
        }
        match mem::replace(&mut *awaited, Awaited::Time) {
            Awaited::Bytes(connection) => Some(connection),
            _ => None,
        }
    }

    /// Rests until it waits for nothing any more or for bytes, at most for so long.
    fn rest<R: Clock + Wait>(&self, rt: &R, most: Duration) {
        let awaited = self.awaited.lock(rt);
        let _ = self.woken.wait_timeout_while(
            rt,
            awaited,
            most,
            |awaited| !matches!(awaited, Awaited::Nothing | Awaited::Bytes(_)),
        );
    }
}

/// A place for each lane, and one for checks; none where memory is wanting, and then rests last their time.
fn lanes_of(alloc: Global) -> Vec<Lane> {
    let mut all = Vec::new(alloc);
    for _ in 0..=LANES {
        let Ok(()) = all.push(Lane::new()) else {
            return Vec::new(alloc);
        };
    }
    all
}
