//! The program `example_script`: a script of four commands is run over a replica set in memory, of which another member is elected
//! in the middle.
//!
//! `run` is generic over its source, sink, net, clock, dice and gate. The program `mdc` hands it sockets and the standard input; here it
//! gets stand-ins. A `Hall` is a net that plays the members of a set, with a plan of what happens to them.
#![tactic(auto)]

ghost use Rattle.std.specs.Prelude.{◌≡◌, [], IfOk};

use bson_doc::{Bytes, Memory, Rows, Text};
use drv_events::Hooks;
use host_name::Host;
use member_core::is_within;
use member_hall::{Act, Hall, Planned};
use net_link::{OpenGate, SliceSource, TickClock, VecSink};
use server_pick::KeepAll;
use shell_top::run;
use soak_plan::SeedDice;
use std::alloc::{AllocError, Global};
use std::sync::Wait;
use std::thread::Threads;

/// The name of the set, and how it is reached.
const SET: &str = "rs0";

const URI: &str = "mongodb://a,b,c/?replicaSet=rs0";

/// One command a line.
const SCRIPT: &str =
    "{\"lane\":1,\"op\":\"insert\",\"coll\":\"people\",\"doc\":{\"_id\":7,\"name\":\"Ada\"}}
{\"lane\":1,\"op\":\"update\",\"coll\":\"people\",\"filter\":{\"_id\":7},\"change\":{\"$set\":{\"name\":\"Eve\"}}}
{\"lane\":1,\"op\":\"delete\",\"coll\":\"people\",\"filter\":{\"name\":\"Eve\"},\"limit\":0}
{\"lane\":1,\"op\":\"find\",\"coll\":\"people\",\"filter\":{\"_id\":7}}
";

/// At which dial, write or read another member is elected.
const TURN: u64 = 20;

/// The second member is elected then, and the first one follows it.
const PLAN: [Planned; 2] = [
    Planned {
        turn: TURN,
        act: Act::Elect { host: 1 },
    },
    Planned {
        turn: TURN,
        act: Act::Follow { host: 0 },
    },
];

/// How many bytes the report has at most.
const ROOM: usize = 1_000;

/// What is run, and over which members.
#[derive(Drop)]
struct Setting {
    words: Rows<Text>,
    script: SliceSource,
    out: VecSink,
    hall: Hall,
}

/// What a run left: its members, and what was written.
#[derive(Drop)]
struct Ran {
    hall: Hall,
    out: VecSink,
}

fn main(rt: HostRuntime) -> anyhow::Result<()> {
    let setting = setting_of(rt.alloc())?;
    let ran = run_over(&rt, rt.alloc(), setting)?;
    print!(rt; "{}", std::str::from_utf8(ran.out.written())?)?;
    println!(rt; "elections {}", ran.hall.elections())?;
    Ok(())
}

/// Runs the script over members to which nothing happened yet. The clock goes on by a microsecond at each look.
fn run_over<R: Threads + Wait + Sync>(
    rt: &R,
    alloc: Global,
    setting: Setting,
) -> Result<Ran, Memory>
    requires { setting.hall.events ≡ [] }
{
    let words = setting.words;
    let hall = setting.hall;
    let mut script = setting.script;
    let mut out = setting.out;
    let clock = TickClock::new(0, 1);
    let dice = SeedDice::new(1);
    let hooks = Hooks::new(alloc);
    let picker = Box::new(alloc, KeepAll)?;
    let ended = run(
        rt,
        alloc,
        &words,
        &mut script,
        &mut out,
        hall,
        &clock,
        dice,
        hooks,
        picker,
        &OpenGate,
    );
    Ok(Ran {
        hall: ended.net,
        out,
    })
}

fn setting_of(alloc: Global) -> Result<Setting, Memory>
    ensures fresh { IfOk result (λ setting. setting.hall.events ≡ []) }
{
    Ok(Setting {
        words: words(alloc)?,
        script: SliceSource::new(Bytes::take(alloc, SCRIPT.as_bytes())?, Rows::new(alloc)),
        out: VecSink::new(alloc, ROOM, Rows::new(alloc))?,
        hall: hall(alloc)?,
    })
}

/// The words of the command line.
fn words(alloc: Global) -> Result<Rows<Text>, Memory> {
    let mut words = Rows::new(alloc);
    words.push(Text::take(alloc, "run")?)?;
    words.push(Text::take(alloc, URI)?)?;
    Ok(words)
}

/// Three members, to which happens what is planned.
fn hall(alloc: Global) -> Result<Hall, Memory>
    ensures fresh { IfOk result (λ hall. hall.events ≡ []) }
{
    let hosts = hosts(alloc)?;
    let plan = Rows::take(alloc, &PLAN)?;
    if !is_within(alloc, SET, hosts.as_slice())? {
        return Err(AllocError);
    }
    match Hall::new(alloc, SET, hosts.as_slice(), plan) {
        Ok(hall) => Ok(hall),
        Err(_) => Err(AllocError),
    }
}

/// Their hosts.
fn hosts(alloc: Global) -> Result<Rows<Host>, Memory> {
    let mut hosts = Rows::new(alloc);
    for name in ["a", "b", "c"] {
        hosts.push(host(alloc, name)?)?;
    }
    Ok(hosts)
}

/// The host of that name.
fn host(alloc: Global, name: &str) -> Result<Host, Memory> {
    match Host::parse(alloc, name) {
        Ok(host) => Ok(host),
        Err(_) => Err(AllocError),
    }
}
