//! The program `example_listener`: a client runs three commands over a replica set in memory, of which another member is elected
//! in the middle, and a listener writes a line for each event.
//!
//! A `HookedDesk` is a client's core with listeners. It waits for nothing: each call moves one command or one check as far as it
//! goes, and tells the listeners what it did before it returns. The caller has the clock, and calls again. A `Hall` is a net that
//! plays the members of a set, with a plan of what happens to them.
#![tactic(auto)]

ghost use Rattle.std.specs.Prelude.{◌≡◌, [], IfOk, OnOk, false};
ghost use Rattle.script_text.specs.Bounds.{IsBounded};

mod lines;
mod log;

use crate::log::Log;
use anyhow::{Result, bail};
use bson_doc::{Bytes, Rows};
use cmd_build::Command;
use conn_uri::parse;
use desk_core::{Sight, Words};
use desk_hooks::{HookedDesk, Memory};
use drv_events::HooksOf;
use host_name::Host;
use member_core::is_within;
use member_hall::{Act, Hall, Planned};
use net_link::{Clock, Dice, SliceSource, TickClock};
use script_text::read_script;
use server_pick::KeepAll;
use soak_plan::SeedDice;
use std::alloc::Global;

/// What the client is told to talk to.
const URI: &str = "mongodb://a,b,c/test?replicaSet=rs0";

/// One command a line.
const SCRIPT: &str =
    "{\"lane\":1,\"op\":\"insert\",\"coll\":\"people\",\"doc\":{\"_id\":7,\"name\":\"Ada\"}}
{\"lane\":1,\"op\":\"update\",\"coll\":\"people\",\"filter\":{\"_id\":7},\"change\":{\"$set\":{\"name\":\"Eve\"}}}
{\"lane\":1,\"op\":\"find\",\"coll\":\"people\",\"filter\":{\"_id\":7}}
";

/// What happens to the members. The turn of the update is the 20th dial, write or read: the first member does it, but its answer
/// is lost with the connection. Then the second one is elected, and the first one follows it.
const ACTS: [Planned; 3] = [
    Planned {
        turn: 20,
        act: Act::Mute { host: 0 },
    },
    Planned {
        turn: 21,
        act: Act::Elect { host: 1 },
    },
    Planned {
        turn: 21,
        act: Act::Follow { host: 0 },
    },
];

/// How many members there are.
const MEMBERS: u32 = 3;

/// The lane of the commands.
const LANE: u32 = 1;

/// How many steps are made at most.
const STEPS: u32 = 10_000;

/// How long the program waits where a command waits, in microseconds.
const REST: u64 = 10_000;

/// A client over members in memory, whose listeners are logs.
type Client = HookedDesk<Hall, KeepAll, Log>;

fn main(rt: HostRuntime) -> Result<()> {
    let hooks = run(rt.alloc())?;
    for log in hooks.listeners.iter() {
        print!(rt; "{}", log.lines.as_str())?;
    }
    println!(rt; "listeners that left: {}", hooks.left())?;
    Ok(())
}

/// The listeners of a client that ran the script.
fn run(alloc: Global) -> Result<HooksOf<Log>> {
    let clock = TickClock::new(0, 1);
    let client = client(alloc, clock.now())?;
    run_client(alloc, client, &clock)
}

/// Runs the script, and ends the client whatever came of it.
fn run_client(alloc: Global, mut client: Client, clock: &TickClock) -> Result<HooksOf<Log>>
    requires runs { client.desk.is_stopped ≡ false }
{
    let driven = drive(alloc, &mut client, clock);
    let hooks = end(alloc, client, clock.now());
    driven?;
    Ok(hooks)
}

/// Ends the client, which tells its listeners so; what is left of the client otherwise is dropped.
fn end(alloc: Global, client: Client, moment: u64) -> HooksOf<Log> {
    client.finish(alloc, moment).hooks
}

/// A client that is to run the script, with a log.
fn client(alloc: Global, moment: u64) -> Result<Client>
    ensures runs { IfOk result (λ client. client.desk.is_stopped ≡ false) }
{
    let commands = commands(alloc)?;
    let hooks = hooks(alloc)?;
    let hall = hall(alloc)?;
    let settings = parse(alloc, URI)?;
    match HookedDesk::new(alloc, hall, settings, commands, KeepAll, hooks, moment) {
        Ok(client) => Ok(client),
        Err(_) => bail!("no client"),
    }
}

/// The commands of the script. A client takes documents that are not too deep, and those of a script are not.
fn commands(alloc: Global) -> Result<Rows<Command>>
    ensures bounded { IfOk result IsBounded }
{
    let bytes = Bytes::take(alloc, SCRIPT.as_bytes())?;
    let mut script = SliceSource::new(bytes, Rows::new(alloc));
    match read_script(alloc, &mut script) {
        Ok(commands) => Ok(commands),
        Err(_) => bail!("no script"),
    }
}

/// One listener, a log.
fn hooks(alloc: Global) -> Result<HooksOf<Log>> {
    let mut hooks = HooksOf::new(alloc);
    match hooks.add(Log::new(alloc)) {
        Ok(()) => Ok(hooks),
        Err(_) => bail!("no listener"),
    }
}

/// Three members to which nothing happened yet.
fn hall(alloc: Global) -> Result<Hall>
    ensures fresh { IfOk result (λ hall. hall.events ≡ []) }
{
    let mut hosts = Rows::new(alloc);
    for name in ["a", "b", "c"] {
        hosts.push(Host::parse(alloc, name)?)?;
    }
    if !is_within(alloc, "rs0", hosts.as_slice())? {
        bail!("too many hosts");
    }
    match Hall::new(alloc, "rs0", hosts.as_slice(), Rows::take(alloc, &ACTS)?) {
        Ok(hall) => Ok(hall),
        Err(_) => bail!("no members"),
    }
}

/// Runs the commands, each until it is answered. While one waits checks are driven.
fn drive(alloc: Global, client: &mut Client, clock: &TickClock) -> Result<()>
    requires runs { client.old.desk.is_stopped ≡ false }
{
    let mut dice = SeedDice::new(1);
    'steps: for _ in 0..STEPS {
        match step(alloc, client, clock.now(), words_of(&mut dice))? {
            None => return Ok(()),
            Some(Sight::Wait { .. }) => {
                check(alloc, client, clock.now())?;
                clock.rest(REST);
            }
            Some(_) => {}
        }
    }
    bail!("too many steps")
}

/// Moves the lane's next command as far as it goes; None where all were answered.
fn step(
    alloc: Global,
    client: &mut Client,
    moment: u64,
    words: Words,
) -> Result<Option<Sight>, Memory>
    requires runs { client.old.desk.is_stopped ≡ false }
    ensures runs { OnOk result (client.new.desk.is_stopped ≡ false) }
{
    let Some(op) = client.next_of(LANE) else {
        return Ok(None);
    };
    let sight = client.step_op(alloc, op, moment, words)?;
    Ok(Some(sight))
}

/// Drives the check of each server, where that of some is due or runs.
fn check(alloc: Global, client: &mut Client, moment: u64) -> Result<(), Memory>
    requires runs { client.old.desk.is_stopped ≡ false }
    ensures runs { OnOk result (client.new.desk.is_stopped ≡ false) }
{
    match client.next_due() {
        Some(due) if due.at <= moment => {}
        _ => return Ok(()),
    }
    'servers: for host in 0..MEMBERS {
        client.step_check(alloc, host, moment)?;
    }
    Ok(())
}

/// Four words of the dice.
fn words_of(dice: &mut SeedDice) -> Words {
    Words {
        a: dice.word(),
        b: dice.word(),
        c: dice.word(),
        d: dice.word(),
    }
}
