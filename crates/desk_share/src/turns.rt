use crate::driven::LANES;
use crate::lane_clock::Waits;
use crate::lane_turn::LaneTurn;
use crate::lines::Lines;
use crate::turned::Turned;
use desk_trail::Step;
use std::alloc::Global;
use std::hint::spin_loop;
use std::sync::atomic::{AtomicU64, Ordering};
use std::sync::{Mutex, Wait};
use std::thread;

/// How many lanes have a place.
pub const PLACES: u32 = LANES as u32;

/// How often a lane that waits tries before it sleeps: so often with some pauses between two tries, and then with other threads let run.
const QUICK_TRIES: u32 = 30;

const TRIES: u32 = 130;

const PAUSES: u32 = 4;

/// The turns of lanes. One thread at a time takes those of all that ask (flat combining), and that of a lane that rests in the line of a
/// pool when it is first there, so that no lane has to wake before the next turn is taken.
#[derive(Drop)]
pub struct Turns {
    /// 1 while a thread takes turns.
    entered: AtomicU64,
    /// The lanes that ask, a bit for each, the first one's the lowest.
    asking: AtomicU64,
    /// By lane, from the first one.
    lanes: Vec<LaneTurn>,
    /// The lanes that have a place here and wait in lines.
    lines: Mutex<Lines>,
}

impl Turns {
    /// Places for so many lanes, for no more than [`PLACES`]; for none where memory is wanting.
    pub fn new(alloc: Global, count: u32) -> Turns {
        Turns {
            entered: AtomicU64::new(0),
            asking: AtomicU64::new(0),
            lanes: places_of(alloc, count),
            lines: Mutex::new(Lines::new(alloc)),
        }
    }

    /// A lane asks for its turn, and says for what its command waited behind the last one. None where it has no place.
    pub fn ask<R: Wait>(&self, rt: &R, lane: u32, waited: Waits) -> Option<&LaneTurn> {
        let place = lane.checked_sub(1)?;
        if place >= PLACES {
            return None;
        }
        let turn = self.lanes.get(place as usize)?;
        if turn.begin(rt, waited) {
            self.asking.fetch_or(1 << place, Ordering::SeqCst);
        }
        Some(turn)
    }

    /// Waits for a turn that was asked for: what came of it, or None where this thread has entered and is to take the turns of all lanes
    /// that ask.
    pub fn wait<R: Wait>(&self, rt: &R, turn: &LaneTurn) -> Option<Turned> {
        'waiting: for _ in rt.forever() {
            for tried in 0..TRIES {
                if let Some(turned) = turn.end(rt) {
                    return Some(turned);
                }
                if self.enter() {
                    return None;
                }
                pause(tried);
            }
            turn.sleep(rt);
        }
        unreachable!()
    }

    fn enter(&self) -> bool {
        self.entered.load(Ordering::SeqCst) == 0
            && self
                .entered
                .compare_exchange(0, 1, Ordering::SeqCst, Ordering::SeqCst)
                .is_ok()
    }

    /// The lanes that may ask, a bit for each.
    pub fn take_asking(&self) -> u64 {
        self.asking.swap(0, Ordering::SeqCst)
    }

    /// Whether the lane at a place asks: its turn was not taken since, while it rested.
    pub fn is_asked<R: Wait>(&self, rt: &R, place: u32) -> bool {
        match self.lanes.get(place as usize) {
            Some(turn) => turn.is_asked(rt),
            None => false,
        }
    }

    /// Follows a step of the lane's command: for what that waits now, if it waits, and which entries the step appended.
    pub fn follow<R: Wait>(&self, rt: &R, lane: u32, waits: Option<Waits>, told: &[Step]) {
        let mut lines = self.lines.lock(rt);
        if lane as usize <= self.lanes.len() {
            lines.stand(lane, waits);
        }
        lines.follow(told);
    }

    /// Follows a step of a check, which appended these entries.
    pub fn follow_check<R: Wait>(&self, rt: &R, told: &[Step]) {
        let mut lines = self.lines.lock(rt);
        lines.follow(told);
    }

    /// The place of a lane that stands first in a line and may go on, once.
    pub fn take_due<R: Wait>(&self, rt: &R) -> Option<u32> {
        let mut lines = self.lines.lock(rt);
        lines.take_due()?.checked_sub(1)
    }

    /// For what the command of the lane at a place waits since its last turn.
    pub fn waited<R: Wait>(&self, rt: &R, place: u32) -> Waits {
        match self.lanes.get(place as usize) {
            Some(turn) => turn.waited(rt),
            None => Waits::Server,
        }
    }

    /// The turn of the lane at a place was taken, and came to that. Whether the lane sleeps.
    pub fn answer<R: Wait>(&self, rt: &R, place: u32, turned: Turned) -> bool {
        match self.lanes.get(place as usize) {
            Some(turn) => turn.answer(rt, turned),
            None => false,
        }
    }

    /// This thread takes no more turns. Where lanes ask still, one of them is called to take them.
    pub fn leave<R: Wait>(&self, rt: &R) {
        self.entered.store(0, Ordering::SeqCst);
        let asking = self.asking.load(Ordering::SeqCst);
        for place in 0..PLACES {
            if asking >> place & 1 == 1 {
                if let Some(turn) = self.lanes.get(place as usize) {
                    turn.call(rt);
                }
                return;
            }
        }
    }

    /// Wakes those of the lanes that sleep, a bit for each.
    pub fn wake(&self, sleeping: u64) {
        if sleeping == 0 {
            return;
        }
        for place in 0..PLACES {
            if sleeping >> place & 1 == 1 {
                if let Some(turn) = self.lanes.get(place as usize) {
                    turn.wake();
                }
            }
        }
    }
}

/// Lets a little time go by behind a try of that number.
fn pause(tried: u32) {
    if tried < QUICK_TRIES {
        for _ in 0..PAUSES {
            spin_loop();
        }
    } else {
        thread::yield_now();
    }
}

/// Places for so many lanes.
fn places_of(alloc: Global, count: u32) -> Vec<LaneTurn> {
    let mut all = Vec::new(alloc);
    for place in 0..count {
        if place >= PLACES {
            break;
        }
        let Ok(()) = all.push(LaneTurn::new()) else {
            return Vec::new(alloc);
        };
    }
    all
}
