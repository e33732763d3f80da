//! An application's picker in a run.
use crate::setting::{Setting, setting_of};
use bson_doc::Memory;
use desk_trail::{Entry, Trail};
use drv_events::Hooks;
use member_hall::Hall;
use net_link::{OpenGate, TickClock, VecSink};
use server_pick::{Candidate, Picker};
use shell_top::{Ended, run};
use soak_plan::SeedDice;
use std::alloc::Global;
use std::sync::Wait;
use std::test::Fail;
use std::thread::Threads;

/// A find that any server may answer.
const FIND: &str =
    "{\"lane\":1,\"op\":\"find\",\"coll\":\"s\",\"filter\":{},\"mode\":\"nearest\"}\n";

/// Allows the host of this port alone.
#[derive(Drop)]
struct Only(u16);

impl Picker for Only {
    ghost use Rattle.std.specs.Prelude.{◌≡◌, ◌==◌};

    ghost allows = { λ p c. c.host.port == p.0 };

    ghost follows = { λ p _ q. q ≡ p };

    fn keep(&mut self, candidate: &Candidate) -> bool {
        candidate.host.port() == self.0
    }
}

/// What a run left.
#[derive(Drop)]
struct Left {
    ended: Ended<Hall>,
    out: VecSink,
}

/// Runs the find with a picker that allows the host of that port alone.
fn picking<R: Threads + Wait + Sync>(rt: &R, alloc: Global, port: u16) -> Result<Left, Memory> {
    let Setting {
        words,
        mut script,
        mut out,
        hall,
    } = setting_of(alloc, FIND, "&serverSelectionTimeoutMS=50", &[])?;
    let clock = TickClock::new(0, 1);
    let picker: Box<dyn Picker> = Box::new(alloc, Only(port))?;
    let ended = run(
        rt,
        alloc,
        &words,
        &mut script,
        &mut out,
        hall,
        &clock,
        SeedDice::new(1),
        Hooks::new(alloc),
        picker,
        &OpenGate,
    );
    Ok(Left { ended, out })
}

/// The hosts that looks kept, and those whose pools were asked for a connection, each that often.
fn asked(trail: &Trail) -> ([u32; 3], [u32; 3]) {
    let mut kept = [0; 3];
    let mut entered = [0; 3];
    for step in trail.steps.as_slice() {
        match &step.entry {
            Entry::Looked { kept: hosts, .. } => {
                for host in hosts.as_slice() {
                    count(&mut kept, *host);
                }
            }
            Entry::Entered { host, .. } => count(&mut entered, *host),
            _ => {}
        }
    }
    (kept, entered)
}

/// Counts a host once more.
fn count(counts: &mut [u32; 3], host: u32) {
    let at = host as usize;
    if at < 3 {
        counts[at] = counts[at].saturating_add(1);
    }
}

/// A find with mode nearest goes to the one server that the picker allows.
#[test]
fn the_allowed_server_is_asked(rt: HostRuntime) -> Result<(), Fail> {
    let left = picking(&rt, rt.alloc(), 2)?;
    assert_eq!(rt; left.ended.status.code(), 0);
    assert_eq!(rt;
        left.out.written(),
        b"1: ok n=0 modified=0 attempts=1\ndone 1 ok 1\n".as_slice()
    );
    assert_eq!(rt; asked(&left.ended.trail), ([0, 1, 0], [0, 1, 0]));
    Ok(())
}

/// Where the picker allows no server, none is selected.
#[test]
fn no_server_is_allowed(rt: HostRuntime) -> Result<(), Fail> {
    let left = picking(&rt, rt.alloc(), 4)?;
    assert_eq!(rt; left.ended.status.code(), 1);
    assert_eq!(rt;
        left.out.written(),
        b"1: no-server attempts=0\ndone 1 ok 0\n".as_slice()
    );
    assert_eq!(rt; asked(&left.ended.trail), ([0, 0, 0], [0, 0, 0]));
    Ok(())
}
