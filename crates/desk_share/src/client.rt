use crate::Opening;
use crate::driven::DrivenDesk;
use crate::lane_clock::{LaneClock, Waits};
use crate::lane_gate::LaneGate;
use crate::patience::Patience;
use crate::telling::{tell_check, tell_step};
use crate::turned::Turned;
use crate::turns::{PLACES, Turns};
use desk_core::Sight;
use desk_trail::Step;
use drv_events::Listener;
use net_link::{Clock, Dice, Net, Phase};
use server_pick::Picker;
use std::alloc::Global;
use std::sync::atomic::{AtomicU64, Ordering};
use std::sync::{Mutex, MutexGuard, Wait};

/// A client that threads share: a desk with listeners under a lock, whose type says what holds of it (own). Each of the functions that
/// lock makes at most one call under the lock that appends, and none rests there. A lane asks for its turns; whoever takes some, in a
/// hold each, takes those of all lanes that ask.
pub struct Client<N: Net, P: Picker, L: Listener, D: Dice, C: Clock, J: Opening> {
    alloc: Global,
    desk: Mutex<DrivenDesk<N, P, L, D, C, J>>,
    turns: Turns,
    lanes: u32,
    // whether the gate that they pass is open
    is_open: bool,
    // how many of them ended
    ended: AtomicU64,
}

/// How often in a row a thread takes the turns of all lanes that ask.
const ROUNDS: u32 = 4;

impl<N: Net, P: Picker, L: Listener, D: Dice, C: LaneClock, J: Opening> Client<N, P, L, D, C, J> {
    /// A client of a desk, for so many lanes, whose gate is open or is passed around each command. Where memory is wanting each lane takes
    /// its own turns.
    pub fn new(
        alloc: Global,
        desk: DrivenDesk<N, P, L, D, C, J>,
        lanes: u32,
        is_open: bool,
    ) -> Client<N, P, L, D, C, J> {
        Client {
            alloc,
            desk: Mutex::new(desk),
            turns: Turns::new(alloc, lanes),
            lanes,
            is_open,
            ended: AtomicU64::new(0),
        }
    }

    /// Runs the lane's commands in order, until each is answered or the desk stopped. The lane is one of those that the client was made
    /// for, counted from 1, and runs once. The gate is passed ahead of each command's first step and behind its last, outside the lock, where
    /// it is not open.
    pub fn lane<R: Wait, G: LaneGate>(&self, rt: &R, lane: u32, clock: &C, gate: &G) {
        let mut next = self.next_of(rt, lane);
        'commands: for _ in rt.forever() {
            let Some(op) = next else {
                break;
            };
            if self.is_open {
                next = self.drive(rt, lane, clock);
            } else {
                gate.pass(lane, op, Phase::Before);
                next = self.drive(rt, lane, clock);
                gate.pass(lane, op, Phase::After);
            }
        }
        self.ended.fetch_add(1, Ordering::SeqCst);
        clock.note_end();
    }

    /// Drives the checks of servers until no lane is left running.
    pub fn watcher<R: Wait>(&self, rt: &R, clock: &C) {
        let mut patience = Patience::new();
        'watching: for _ in rt.forever() {
            if self.ended.load(Ordering::SeqCst) >= u64::from(self.lanes) {
                break;
            }
            let due = self.count_due(rt, clock);
            self.check_each(rt, due, clock);
            clock.rest(patience.next_rest(0));
        }
    }

    /// The desk, when no thread is left that drives it.
    pub fn into_desk(self) -> DrivenDesk<N, P, L, D, C, J> {
        let Client {
            alloc: _,
            desk,
            turns: _,
            lanes: _,
            is_open: _,
            ended: _,
        } = self;
        desk.into_inner()
    }

    /// Steps the lane's next command until it is answered, or the desk stopped; the one that comes behind it. Where the gate is open it goes
    /// on with that one, until none comes.
    fn drive<R: Wait>(&self, rt: &R, lane: u32, clock: &C) -> Option<u32> {
        let mut patience = Patience::new();
        let mut waited = Waits::Server;
        'turns: for _ in rt.forever() {
            let Turned {
                sight,
                waits,
                due,
                next,
            } = self.turn(rt, lane, clock, waited);
            waited = waits;
            match sight {
                Some(Sight::Again) => {}
                Some(Sight::Wait { until }) => {
                    self.check_each(rt, due, clock);
                    clock.rest_of(lane, patience.next_rest(until));
                }
                Some(Sight::Answered) if self.is_open && next.is_some() => {}
                Some(Sight::Answered) | None => return next,
            }
        }
        unreachable!()
    }

    /// The turn of a lane, by this thread or by another.
    fn turn<R: Wait>(&self, rt: &R, lane: u32, clock: &C, waited: Waits) -> Turned {
        let Some(asked) = self.turns.ask(rt, lane, waited) else {
            let turned = self.take_turn(rt, lane, clock, waited);
            self.free(rt, clock);
            return turned;
        };
        'waiting: for _ in rt.forever() {
            match self.turns.wait(rt, asked) {
                Some(turned) => return turned,
                None => self.take_turns(rt, clock),
            }
        }
        unreachable!()
    }

    /// Takes the turns of all lanes that ask and of those that come first in lines, then lets others in, and wakes the lanes of those turns.
    fn take_turns<R: Wait>(&self, rt: &R, clock: &C) {
        let mut sleeping: u64 = 0;
        'rounds: for _ in 0..ROUNDS {
            let asking = self.turns.take_asking();
            if asking == 0 {
                break;
            }
            sleeping |= self.take_round(rt, asking, clock);
        }
        self.turns.leave(rt);
        self.turns.wake(sleeping);
        self.free(rt, clock);
    }

    /// Takes the turns of those of these lanes that ask, a bit for each; the lanes of the turns that were taken that sleep.
    fn take_round<R: Wait>(&self, rt: &R, asking: u64, clock: &C) -> u64 {
        let mut sleeping: u64 = 0;
        'taking: for place in 0..PLACES {
            if asking >> place & 1 == 1 && self.turns.is_asked(rt, place) {
                sleeping |= self.take_asked(rt, place, clock);
            }
        }
        sleeping
    }

    /// Takes the turn of the lane at a place; where that answered its command and the gate is open, the first one of its next command, too;
    /// and then those of lanes that come first in lines by it. The lanes of those turns that sleep.
    fn take_asked<R: Wait>(&self, rt: &R, place: u32, clock: &C) -> u64 {
        let lane = place.saturating_add(1);
        let waited = self.turns.waited(rt, place);
        let mut turned = self.take_turn(rt, lane, clock, waited);
        if self.is_open && turned.next.is_some() {
            turned = self.take_turn(rt, lane, clock, turned.waits);
        }
        let sleeping = self.answer(rt, place, turned);
        sleeping | self.take_lines(rt, clock)
    }

    /// Takes the turns of lanes that stand first in lines and may go on; those of them that sleep. Of a turn that came to nothing the lane
    /// does not learn.
    fn take_lines<R: Wait>(&self, rt: &R, clock: &C) -> u64 {
        let mut sleeping: u64 = 0;
        'taking: for _ in 0..PLACES {
            let Some(place) = self.turns.take_due(rt) else {
                break;
            };
            let waited = self.turns.waited(rt, place);
            let turned = self.take_turn(rt, place.saturating_add(1), clock, waited);
            if !turned.is_in_line() {
                sleeping |= self.answer(rt, place, turned);
            }
        }
        sleeping
    }

    /// Has the lane at a place learn what its turn came to; its bit, where it sleeps.
    fn answer<R: Wait>(&self, rt: &R, place: u32, turned: Turned) -> u64 {
        if place < PLACES && self.turns.answer(rt, place, turned) {
            1 << place
        } else {
            0
        }
    }

    /// The client is unlocked: wakes whoever is to go on.
    fn free<R: Wait>(&self, rt: &R, clock: &C) {
        'waking: for _ in 0..PLACES {
            match self.turns.take_due(rt) {
                Some(place) => clock.note_line(place.saturating_add(1)),
                None => break,
            }
        }
        clock.note_free();
    }

    /// Drives the checks of so many servers, each in a hold of its own.
    fn check_each<R: Wait>(&self, rt: &R, count: u32, clock: &C) {
        'checking: for host in 0..count {
            self.check(rt, host, clock);
        }
    }

    // ---- The functions that lock

    fn next_of<R: Wait>(&self, rt: &R, lane: u32) -> Option<u32> {
        let mut desk = self.desk.lock(rt);
        desk.next_of(lane)
    }

    fn take_turn<R: Wait>(&self, rt: &R, lane: u32, clock: &C, waited: Waits) -> Turned {
        let mut desk = self.desk.lock(rt);
        let moment = clock.now();
        let place = desk.steps().len();
        let sight = desk.turn(self.alloc, lane, moment);
        let told = told_behind(desk.steps(), place);
        let mut turned = Turned {
            sight,
            waits: tell_step(clock, lane, sight, told, waited),
            due: 0,
            next: None,
        };
        self.turns.follow(rt, lane, turned.awaited(), told);
        match sight {
            Some(Sight::Wait { .. }) => {
                turned.due = desk.count_due(moment);
            }
            Some(Sight::Answered) => {
                turned.next = desk.next_of(lane);
            }
            _ => {}
        }
        MutexGuard::unlock(desk);
        turned
    }

    fn count_due<R: Wait>(&self, rt: &R, clock: &C) -> u32 {
        let desk = self.desk.lock(rt);
        desk.count_due(clock.now())
    }

    fn check<R: Wait>(&self, rt: &R, host: u32, clock: &C) {
        let mut desk = self.desk.lock(rt);
        let moment = clock.now();
        let place = desk.steps().len();
        desk.check(self.alloc, host, moment);
        let told = told_behind(desk.steps(), place);
        tell_check(clock, told);
        self.turns.follow_check(rt, told);
        MutexGuard::unlock(desk);
        self.free(rt, clock);
    }
}

/// What stands behind that place of a trail.
fn told_behind(steps: &[Step], place: usize) -> &[Step] {
    if place <= steps.len() {
        &steps[place..]
    } else {
        &[]
    }
}
