//! Listeners in a run.
ghost use Rattle.std.specs.Prelude.{◌≡◌, All, IfOk, []};

use crate::real_clock::RealClock;
use crate::setting::{Setting, setting_of};
use crate::shared_count::SharedCount;
use bson_doc::Memory;
use desk_share::{LaneClock, LaneGate};
use drv_events::{Hooks, Listener};
use member_hall::Hall;
use net_link::{Gate, OpenGate, Phase, VecSink};
use server_pick::KeepAll;
use shell_top::{Ended, run};
use soak_plan::SeedDice;
use std::alloc::{AllocError, Global};
use std::sync::atomic::{AtomicBool, AtomicU64, Ordering};
use std::sync::{Arc, Wait};
use std::test::Fail;
use std::thread;
use std::thread::Threads;
use std::time::{Clock, Duration};
use trail_events::told;

/// How often a gate looks, a millisecond apart, before it gives up.
const LOOKS: u32 = 10_000;

/// Two finds in two lanes.
const TWO_FINDS: &str = r#"{"lane":1,"op":"find","coll":"s","filter":{}}
{"lane":2,"op":"find","coll":"s","filter":{}}
"#;

/// Holds each command until a listener has heard that a check succeeded. No command waits for a server meanwhile.
#[derive(Drop)]
struct HeldWatch<'a, R: Clock> {
    rt: &'a R,
    beats: Arc<AtomicU64>,
    has_given_up: AtomicBool,
}

impl<'a, R: Clock> Gate for HeldWatch<'a, R> {
    fn pass(&self, _lane: u32, _op: u32, phase: Phase) {
        if phase == Phase::After {
            return;
        }
        for _ in 0..LOOKS {
            if self.beats.load(Ordering::SeqCst) > 0 {
                return;
            }
            thread::sleep(self.rt, Duration::from_millis(1));
        }
        self.has_given_up.store(true, Ordering::SeqCst);
    }
}

impl<'a, R: Clock> LaneGate for HeldWatch<'a, R> {}

/// Two listeners that a run is given, and what each of them counts.
#[derive(Drop)]
struct Given {
    hooks: Hooks,
    first: Counts,
    second: Counts,
}

/// What a listener counts.
#[derive(Drop)]
struct Counts {
    events: Arc<AtomicU64>,
    beats: Arc<AtomicU64>,
}

/// A listener that leaves behind so many events, with what it counts.
fn listener(alloc: Global, most: usize) -> Result<(Box<dyn Listener>, Counts), Memory>
    ensures unheard { IfOk result (λ r. (⟦<dyn Listener as Listener>⟧ r.0.vtable).heard r.0.value ≡ []) }
{
    let counts = Counts {
        events: Arc::new(alloc, AtomicU64::new(0))?,
        beats: Arc::new(alloc, AtomicU64::new(0))?,
    };
    let listener: Box<dyn Listener> = Box::new(
        alloc,
        SharedCount {
            heard: Vec::new(alloc),
            most,
            count: Arc::try_clone(&counts.events)?,
            beats: Arc::try_clone(&counts.beats)?,
            leaves: false,
        },
    )?;
    Ok((listener, counts))
}

/// Two listeners, of which the first leaves behind so many events.
fn listeners(alloc: Global, most: usize) -> Result<Given, Memory>
    ensures unheard { IfOk result (λ r. All (λ b. (⟦<dyn Listener as Listener>⟧ b.vtable).heard b.value ≡ []) r.hooks.listeners.items) }
{
    let (one, first) = listener(alloc, most)?;
    let (other, second) = listener(alloc, usize::MAX)?;
    let mut hooks = Hooks::new(alloc);
    let Ok(()) = hooks.add(one) else {
        return Err(AllocError);
    };
    let Ok(()) = hooks.add(other) else {
        return Err(AllocError);
    };
    Ok(Given {
        hooks,
        first,
        second,
    })
}

/// What a run left.
#[derive(Drop)]
struct Left {
    ended: Ended<Hall>,
    out: VecSink,
}

/// Runs the two finds under a gate. No listener heard anything yet.
fn under<R: Threads + Wait + Sync, C: LaneClock + Send + Sync, G: LaneGate + Sync>(
    rt: &R,
    alloc: Global,
    clock: &C,
    hooks: Hooks,
    gate: &G,
) -> Result<Left, Memory>
    requires unheard { All (λ b. (⟦<dyn Listener as Listener>⟧ b.vtable).heard b.value ≡ []) hooks.listeners.items }
{
    let Setting {
        words,
        mut script,
        mut out,
        hall,
    } = setting_of(alloc, TWO_FINDS, "", &[])?;
    let picker = Box::new(alloc, KeepAll)?;
    let ended = run(
        rt,
        alloc,
        &words,
        &mut script,
        &mut out,
        hall,
        clock,
        SeedDice::new(1),
        hooks,
        picker,
        gate,
    );
    Ok(Left { ended, out })
}

/// While both lanes are held the watcher drives the checks.
#[test]
fn held_watch(rt: HostRuntime) -> Result<(), Fail> {
    let Given {
        hooks,
        first,
        second: _,
    } = listeners(rt.alloc(), usize::MAX)?;
    let gate = HeldWatch {
        rt: &rt,
        beats: first.beats,
        has_given_up: AtomicBool::new(false),
    };
    let left = under(&rt, rt.alloc(), &RealClock::new(&rt), hooks, &gate)?;
    assert!(rt; !gate.has_given_up.load(Ordering::SeqCst));
    assert_eq!(rt; left.ended.status.code(), 0);
    assert!(rt; left.out.written().ends_with(b"done 2 ok 2\n"));
    Ok(())
}

/// A listener that leaves behind three events heard just those, and is not handed back; the one beside it heard all.
#[test]
fn a_listener_leaves_behind_three_events(rt: HostRuntime) -> Result<(), Fail> {
    let Given {
        hooks,
        first,
        second,
    } = listeners(rt.alloc(), 3)?;
    let left = under(&rt, rt.alloc(), &RealClock::new(&rt), hooks, &OpenGate)?;
    assert_eq!(rt; left.ended.status.code(), 0);
    assert_eq!(rt; (left.ended.hooks.len(), left.ended.hooks.left()), (1, 1));
    assert_eq!(rt; first.events.load(Ordering::SeqCst), 3);
    let events = told(rt.alloc(), &left.ended.trail)?;
    assert_eq!(rt; second.events.load(Ordering::SeqCst), events.len() as u64);
    Ok(())
}
