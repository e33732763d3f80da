//! Several lanes run at once, and each of their writes takes effect once.
use crate::real_clock::RealClock;
use crate::setting::{Setting, setting_of};
use bson_doc::Memory;
use desk_share::{LaneClock, LaneGate};
use drv_events::Hooks;
use effect_count::RequestIndex;
use member_hall::{Act, Hall, Planned};
use net_link::{Gate, OpenGate, Phase, VecSink};
use server_pick::KeepAll;
use shell_top::{Ended, run};
use soak_plan::SeedDice;
use std::alloc::Global;
use std::sync::Wait;
use std::sync::atomic::{AtomicBool, AtomicU64, Ordering};
use std::test::Fail;
use std::thread;
use std::thread::Threads;
use std::time::{Clock, Duration};

/// How often a gate looks, a millisecond apart, before it gives up.
const LOOKS: u32 = 10_000;

/// Twelve finds and writes that may be tried again, in two lanes.
const TWO_LANES: &str = r#"{"lane":1,"op":"insert","coll":"s","doc":{"_id":1}}
{"lane":2,"op":"insert","coll":"s","doc":{"_id":2}}
{"lane":1,"op":"find","coll":"s","filter":{"_id":1}}
{"lane":2,"op":"update","coll":"s","filter":{"_id":2},"change":{"$set":{"v":1}}}
{"lane":1,"op":"update","coll":"s","filter":{"_id":1},"change":{"$set":{"v":2}}}
{"lane":2,"op":"find","coll":"s","filter":{"_id":2}}
{"lane":1,"op":"insert","coll":"s","doc":{"_id":3}}
{"lane":2,"op":"insert","coll":"s","doc":{"_id":4}}
{"lane":1,"op":"delete","coll":"s","filter":{"_id":3}}
{"lane":2,"op":"delete","coll":"s","filter":{"_id":4}}
{"lane":1,"op":"insert","coll":"s","doc":{"_id":5}}
{"lane":2,"op":"insert","coll":"s","doc":{"_id":6}}
"#;

/// The second member is elected in the middle, and the first one follows it.
const ELECTION: [Planned; 2] = [
    Planned {
        turn: 30,
        act: Act::Elect { host: 1 },
    },
    Planned {
        turn: 30,
        act: Act::Follow { host: 0 },
    },
];

/// How many lanes run under schedules, how many commands each has, and how many schedules there are.
const LANES: u32 = 12;

const EACH: u32 = 4;

const SCHEDULES: u32 = 40;

/// Holds the first command of lane 1 until the first one of lane 2 was answered.
#[derive(Drop)]
struct HeldLane<'a, R: Clock> {
    rt: &'a R,
    is_answered: AtomicBool,
    has_given_up: AtomicBool,
}

impl<'a, R: Clock> Gate for HeldLane<'a, R> {
    fn pass(&self, lane: u32, op: u32, phase: Phase) {
        match (lane, phase) {
            (2, Phase::After) => self.is_answered.store(true, Ordering::SeqCst),
            (1, Phase::Before) if op == 0 => {
                for _ in 0..LOOKS {
                    if self.is_answered.load(Ordering::SeqCst) {
                        return;
                    }
                    thread::sleep(self.rt, Duration::from_millis(1));
                }
                self.has_given_up.store(true, Ordering::SeqCst);
            }
            _ => {}
        }
    }
}

impl<'a, R: Clock> LaneGate for HeldLane<'a, R> {}

/// Holds one command until so many of the others were answered.
#[derive(Drop)]
struct HeldCommand<'a, R: Clock> {
    rt: &'a R,
    op: u32,
    others: u64,
    answered: AtomicU64,
    has_given_up: AtomicBool,
}

impl<'a, R: Clock> Gate for HeldCommand<'a, R> {
    fn pass(&self, _lane: u32, op: u32, phase: Phase) {
        match phase {
            Phase::After => {
                self.answered.fetch_add(1, Ordering::SeqCst);
            }
            Phase::Before if op == self.op => {
                for _ in 0..LOOKS {
                    if self.answered.load(Ordering::SeqCst) >= self.others {
                        return;
                    }
                    thread::sleep(self.rt, Duration::from_millis(1));
                }
                self.has_given_up.store(true, Ordering::SeqCst);
            }
            Phase::Before => {}
        }
    }
}

impl<'a, R: Clock> LaneGate for HeldCommand<'a, R> {}

/// What is run, over three members to which that is to happen.
#[derive(Clone, Copy)]
struct Given<'a> {
    script: &'a str,
    /// Options of the connection string.
    options: &'a str,
    plan: &'a [Planned],
}

/// What a run left.
#[derive(Drop)]
struct Left {
    ended: Ended<Hall>,
    out: VecSink,
}

/// Runs a script under a gate.
fn under<R: Threads + Wait + Sync, C: LaneClock + Send + Sync, G: LaneGate + Sync>(
    rt: &R,
    alloc: Global,
    clock: &C,
    given: Given<'_>,
    gate: &G,
) -> Result<Left, Memory> {
    let Setting {
        words,
        mut script,
        mut out,
        hall,
    } = setting_of(alloc, given.script, given.options, given.plan)?;
    let picker = Box::new(alloc, KeepAll)?;
    let ended = run(
        rt,
        alloc,
        &words,
        &mut script,
        &mut out,
        hall,
        clock,
        SeedDice::new(1),
        Hooks::new(alloc),
        picker,
        gate,
    );
    Ok(Left { ended, out })
}

/// How often a command of so many stands in a member's log at most; a hundred where some command does not stand in that of the member
/// that was elected last.
fn greatest_count(alloc: Global, left: &Left, commands: u32) -> Result<u64, Memory> {
    let index = RequestIndex::of(alloc, &left.ended.trail)?;
    let hall = &left.ended.net;
    let mut greatest = 0;
    for member in 0..hall.members() {
        let counts = index.effects(alloc, hall.log(member).as_slice(), commands as usize)?;
        for count in counts.iter() {
            greatest = greatest.max(*count);
            if member == hall.last_elected() && *count == 0 {
                greatest = 100;
            }
        }
    }
    Ok(greatest)
}

/// Lane 2 goes on while lane 1 is held, and another member is elected in the middle: both threads ran at once.
#[test]
fn held_lane(rt: HostRuntime) -> Result<(), Fail> {
    let gate = HeldLane {
        rt: &rt,
        is_answered: AtomicBool::new(false),
        has_given_up: AtomicBool::new(false),
    };
    let left = under(
        &rt,
        rt.alloc(),
        &RealClock::new(&rt),
        Given {
            script: TWO_LANES,
            options: "",
            plan: &ELECTION,
        },
        &gate,
    )?;
    assert!(rt; gate.is_answered.load(Ordering::SeqCst));
    assert!(rt; !gate.has_given_up.load(Ordering::SeqCst));
    assert_eq!(rt; left.ended.status.code(), 0);
    assert!(rt; left.out.written().ends_with(b"done 12 ok 12\n"));
    assert_eq!(rt; left.ended.net.elections(), 1);
    Ok(())
}

/// Inserts of all lanes, in turn.
fn inserts(alloc: Global) -> Result<String, Memory> {
    let mut script = String::new(alloc);
    for number in 0..EACH {
        for lane in 1..=LANES {
            let id = number * 100 + lane;
            let line = format!(in alloc;
                "{{\"lane\":{lane},\"op\":\"insert\",\"coll\":\"s\",\"doc\":{{\"_id\":{id}}}}}\n"
            )?;
            script.push_str(line.as_str())?;
        }
    }
    Ok(script)
}

/// Each lane in turn is held at one of its commands until all that do not wait for it were answered.
#[test]
fn twelve_lanes_under_forty_schedules(rt: HostRuntime) -> Result<(), Fail> {
    let alloc = rt.alloc();
    let script = inserts(alloc)?;
    let commands = LANES * EACH;
    for schedule in 0..SCHEDULES {
        // The place of the command in the script, and how many of its lane wait for it.
        let lane = schedule % LANES;
        let number = schedule / LANES;
        let gate = HeldCommand {
            rt: &rt,
            op: number * LANES + lane,
            others: u64::from(commands - (EACH - number)),
            answered: AtomicU64::new(0),
            has_given_up: AtomicBool::new(false),
        };
        let left = under(
            &rt,
            alloc,
            &RealClock::new(&rt),
            Given {
                script: script.as_str(),
                options: "",
                plan: &[],
            },
            &gate,
        )?;
        assert!(rt; !gate.has_given_up.load(Ordering::SeqCst));
        assert_eq!(rt; left.ended.status.code(), 0);
        assert!(rt; left.out.written().ends_with(b"done 48 ok 48\n"));
        assert_eq!(rt; greatest_count(alloc, &left, commands)?, 1);
    }
    Ok(())
}

/// Twelve lanes go on over two connections, for which most of them have to wait.
#[test]
fn twelve_lanes_over_two_connections(rt: HostRuntime) -> Result<(), Fail> {
    let alloc = rt.alloc();
    let script = inserts(alloc)?;
    let left = under(
        &rt,
        alloc,
        &RealClock::new(&rt),
        Given {
            script: script.as_str(),
            options: "&maxPoolSize=2",
            plan: &[],
        },
        &OpenGate,
    )?;
    assert_eq!(rt; left.ended.status.code(), 0);
    assert!(rt; left.out.written().ends_with(b"done 48 ok 48\n"));
    assert_eq!(rt; greatest_count(alloc, &left, LANES * EACH)?, 1);
    Ok(())
}
