use crate::lane_clock::Waits;
use crate::turned::Turned;
use std::sync::atomic::{AtomicU64, Ordering};
use std::sync::{Condvar, Mutex, Wait};

/// A lane's turn, from when the lane asks for it until it knows what came of it.
#[derive(Drop)]
pub struct LaneTurn {
    /// 1 from when it was taken.
    taken: AtomicU64,
    state: Mutex<TurnState>,
    woken: Condvar,
}

/// What the lane and whoever takes its turn share.
#[derive(Clone, Copy, Debug, Drop)]
struct TurnState {
    /// For what its command waited behind the last turn.
    waited: Waits,
    /// Whether the lane asks for it.
    is_asked: bool,
    /// What came of it.
    turned: Option<Turned>,
    /// Whether the lane is to take turns itself.
    is_called: bool,
    /// Whether the lane sleeps.
    sleeps: bool,
}

impl LaneTurn {
    pub fn new() -> LaneTurn {
        LaneTurn {
            taken: AtomicU64::new(0),
            state: Mutex::new(TurnState {
                waited: Waits::Server,
                is_asked: false,
                turned: None,
                is_called: false,
                sleeps: false,
            }),
            woken: Condvar::new(),
        }
    }

    /// The lane asks for it; false where it was taken already, while the lane rested.
    pub fn begin<R: Wait>(&self, rt: &R, waited: Waits) -> bool {
        let mut state = self.state.lock(rt);
        state.is_called = false;
        if state.turned.is_some() {
            return false;
        }
        state.waited = waited;
        state.is_asked = true;
        true
    }

    /// Whether the lane asks for it.
    pub fn is_asked<R: Wait>(&self, rt: &R) -> bool {
        let state = self.state.lock(rt);
        state.is_asked
    }

    /// For what the lane's command waited behind the last turn.
    pub fn waited<R: Wait>(&self, rt: &R) -> Waits {
        let state = self.state.lock(rt);
        state.waited
    }

    /// It was taken, and came to that. Whether the lane sleeps.
    pub fn answer<R: Wait>(&self, rt: &R, turned: Turned) -> bool {
        let mut state = self.state.lock(rt);
        state.waited = turned.waits;
        state.is_asked = false;
        state.turned = Some(turned);
        let sleeps = state.sleeps;
        drop(state);
        self.taken.store(1, Ordering::SeqCst);
        sleeps
    }

    /// What came of it, once it was taken.
    pub fn end<R: Wait>(&self, rt: &R) -> Option<Turned> {
        if self.taken.load(Ordering::SeqCst) == 0 {
            return None;
        }
        self.taken.store(0, Ordering::SeqCst);
        let mut state = self.state.lock(rt);
        state.turned.take()
    }

    /// Sleeps until it was taken, or the lane is called to take turns.
    pub fn sleep<R: Wait>(&self, rt: &R) {
        let mut state = self.state.lock(rt);
        state.sleeps = true;
        let mut state = self.woken.wait_while(rt, state, |state| {
            state.turned.is_none() && !state.is_called
        });
        state.sleeps = false;
        state.is_called = false;
    }

    /// The lane is to take turns.
    pub fn call<R: Wait>(&self, rt: &R) {
        let mut state = self.state.lock(rt);
        state.is_called = true;
        let sleeps = state.sleeps;
        drop(state);
        if sleeps {
            self.woken.notify_one();
        }
    }

    /// Wakes the lane, where it sleeps.
    pub fn wake(&self) {
        self.woken.notify_one();
    }
}
