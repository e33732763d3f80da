//! What a listener hears of a command that is sent again behind a failover, and of a clear of a pool that has connections of each
//! kind: event by event, beside the order that the standards give.
ghost use Rattle.std.specs.Prelude.{◌≡◌, ◌≤◌, [], false, IfOk, OnOk, length};
ghost use Rattle.script_text.specs.Bounds.{IsBounded};

use crate::setting::hall;
use crate::shared_count::SharedCount;
use bson_doc::{Bytes, Memory, Rows};
use cmd_build::Command;
use conn_uri::parse;
use desk_core::{Sight, Words};
use desk_hooks::HookedDesk;
use drv_events::HooksOf;
use member_hall::{Act, Hall, Planned};
use net_link::SliceSource;
use script_text::read_script;
use server_pick::KeepAll;
use std::alloc::Global;
use std::sync::Arc;
use std::sync::atomic::AtomicU64;
use std::test::Fail;

/// A client over members in memory, with one listener.
type Client = HookedDesk<Hall, KeepAll, SharedCount>;

/// Inserts of five lanes.
const FIVE_LANES: &str = r#"{"lane":1,"op":"insert","coll":"s","doc":{"_id":1}}
{"lane":2,"op":"insert","coll":"s","doc":{"_id":2}}
{"lane":3,"op":"insert","coll":"s","doc":{"_id":3}}
{"lane":4,"op":"insert","coll":"s","doc":{"_id":4}}
{"lane":5,"op":"insert","coll":"s","doc":{"_id":5}}
"#;

/// A client that is to run a script, over members to which that is to happen.
fn client(alloc: Global, uri: &str, script: &str, plan: &[Planned]) -> Result<Client, Fail>
    requires short { length uri.now ≤ 16777216 }
    ensures runs { IfOk result (λ client. client.desk.is_stopped ≡ false) }
{
    let commands = commands(alloc, script)?;
    let mut hooks = HooksOf::new(alloc);
    let listener = SharedCount {
        heard: Vec::new(alloc),
        most: usize::MAX,
        count: Arc::new(alloc, AtomicU64::new(0))?,
        beats: Arc::new(alloc, AtomicU64::new(0))?,
        leaves: false,
    };
    let Ok(()) = hooks.add(listener) else {
        return Err(Fail::from("no listener"));
    };
    let hall = hall(alloc, plan)?;
    let Ok(settings) = parse(alloc, uri) else {
        return Err(Fail::from("no connection string"));
    };
    match HookedDesk::new(alloc, hall, settings, commands, KeepAll, hooks, 0) {
        Ok(client) => Ok(client),
        Err(_) => Err(Fail::from("no client")),
    }
}

/// The commands of a script.
fn commands(alloc: Global, script: &str) -> Result<Rows<Command>, Fail>
    ensures bounded { IfOk result IsBounded }
{
    let mut source = SliceSource::new(Bytes::take(alloc, script.as_bytes())?, Rows::new(alloc));
    match read_script(alloc, &mut source) {
        Ok(commands) => Ok(commands),
        Err(_) => Err(Fail::from("no script")),
    }
}

/// One step of the lane's next command, where there is one.
fn step(alloc: Global, client: &mut Client, lane: u32, moment: u64) -> Result<Option<Sight>, Memory>
    requires runs { client.old.desk.is_stopped ≡ false }
    ensures runs { OnOk result (client.new.desk.is_stopped ≡ false) }
{
    let Some(op) = client.next_of(lane) else {
        return Ok(None);
    };
    let words = Words {
        a: 0,
        b: 0,
        c: u64::from(lane),
        d: moment,
    };
    let sight = client.step_op(alloc, op, moment, words)?;
    Ok(Some(sight))
}

/// One step of the check of each of the three servers.
fn check_all(alloc: Global, client: &mut Client, moment: u64) -> Result<(), Memory>
    requires runs { client.old.desk.is_stopped ≡ false }
    ensures runs { OnOk result (client.new.desk.is_stopped ≡ false) }
{
    client.step_check(alloc, 0, moment)?;
    client.step_check(alloc, 1, moment)?;
    client.step_check(alloc, 2, moment)?;
    Ok(())
}

/// A line for each event that the listener heard from a place on; the place behind them.
fn heard(alloc: Global, client: &Client, from: &mut usize) -> Result<String, Memory> {
    let mut lines = String::new(alloc);
    if let Some(listener) = client.hooks().listeners.first() {
        for event in listener.heard.iter().skip(*from) {
            write!(&mut lines, "{event:?}\n")?;
        }
        *from = listener.heard.len();
    }
    Ok(lines)
}

/// Another member is elected between two writes: the second one is refused, the topology changes and no pool is cleared, since the
/// member goes on (SDAM, Not writable primary errors: since 4.2 the pool is cleared where the member shuts down). It is sent again
/// behind the checks that find the new primary.
#[test]
fn a_failover(rt: HostRuntime) -> Result<(), Fail> {
    let alloc = rt.alloc();
    let plan = [
        Planned {
            turn: 20,
            act: Act::Elect { host: 1 },
        },
        Planned {
            turn: 20,
            act: Act::Follow { host: 0 },
        },
    ];
    let uri = "mongodb://a:1,b:2,c:3/?replicaSet=rs0";
    let mut client = client(alloc, uri, FIVE_LANES, &plan)?;
    let mut from = 0;
    check_all(alloc, &mut client, 1000)?;
    assert_eq!(rt; heard(alloc, &client, &mut from)?.as_str(), OPENING);
    step(alloc, &mut client, 1, 2000)?;
    assert_eq!(rt; heard(alloc, &client, &mut from)?.as_str(), FIRST_WRITE);
    step(alloc, &mut client, 2, 3000)?;
    step(alloc, &mut client, 2, 3000)?;
    assert_eq!(rt; heard(alloc, &client, &mut from)?.as_str(), REFUSED_WRITE);
    check_all(alloc, &mut client, 600_000)?;
    assert_eq!(rt; heard(alloc, &client, &mut from)?.as_str(), NEW_PRIMARY);
    step(alloc, &mut client, 2, 700_000)?;
    assert_eq!(rt; heard(alloc, &client, &mut from)?.as_str(), SECOND_ATTEMPT);
    Ok(())
}

/// The seeds, in order, each with its pool; then each check, and what it says.
const OPENING: &str = "TopologyOpened
ServerOpened { host: 0 }
PoolCreated { host: 0 }
ServerOpened { host: 1 }
PoolCreated { host: 1 }
ServerOpened { host: 2 }
PoolCreated { host: 2 }
BeatStarted { host: 0 }
BeatSucceeded { host: 0, micros: 0 }
TopologyChanged
PoolReady { host: 0 }
BeatStarted { host: 1 }
BeatSucceeded { host: 1, micros: 0 }
TopologyChanged
PoolReady { host: 1 }
BeatStarted { host: 2 }
BeatSucceeded { host: 2, micros: 0 }
TopologyChanged
PoolReady { host: 2 }
";

/// The primary, whose pool has no connection yet.
const FIRST_WRITE: &str = "OutStarted { host: 0, op: 0 }
ConnCreated { host: 0, conn: 1 }
ConnReady { host: 0, conn: 1 }
CheckedOut { host: 0, conn: 1, op: 0 }
CommandStarted { op: 0 }
CommandSucceeded { op: 0 }
CheckedIn { host: 0, conn: 1, op: 0 }
";

/// The member is primary no more: the server is known no more, and its connection is kept.
const REFUSED_WRITE: &str = "OutStarted { host: 0, op: 1 }
CheckedOut { host: 0, conn: 1, op: 1 }
CommandStarted { op: 1 }
CommandFailed { op: 1 }
TopologyChanged
CheckedIn { host: 0, conn: 1, op: 1 }
";

/// The checks of all servers. That of the third one says nothing new.
const NEW_PRIMARY: &str = "BeatStarted { host: 0 }
BeatSucceeded { host: 0, micros: 0 }
TopologyChanged
BeatStarted { host: 1 }
BeatSucceeded { host: 1, micros: 0 }
TopologyChanged
BeatStarted { host: 2 }
BeatSucceeded { host: 2, micros: 0 }
";

/// The new primary, whose pool has no connection yet.
const SECOND_ATTEMPT: &str = "OutStarted { host: 1, op: 1 }
ConnCreated { host: 1, conn: 1 }
ConnReady { host: 1, conn: 1 }
CheckedOut { host: 1, conn: 1, op: 1 }
CommandStarted { op: 1 }
CommandSucceeded { op: 1 }
CheckedIn { host: 1, conn: 1, op: 1 }
";

/// A pool is cleared that has connections of each kind: one whose greeting is awaited (1), one that is lent and awaits its answer (2),
/// one that is free (4), and the one that failed (3).
#[test]
fn a_clear(rt: HostRuntime) -> Result<(), Fail> {
    let alloc = rt.alloc();
    let held = |turn: u64, turns: u64| Planned {
        turn,
        act: Act::Hold { host: 0, turns },
    };
    let plan = [
        held(6, 25),
        held(12, 22),
        held(18, 8),
        Planned {
            turn: 29,
            act: Act::Mute { host: 0 },
        },
    ];
    let uri = "mongodb://a:1/?directConnection=true";
    let mut client = client(alloc, uri, FIVE_LANES, &plan)?;
    let mut from = 0;
    client.step_check(alloc, 0, 1000)?;
    step(alloc, &mut client, 1, 2000)?;
    step(alloc, &mut client, 2, 2000)?;
    step(alloc, &mut client, 3, 2000)?;
    step(alloc, &mut client, 4, 2000)?;
    step(alloc, &mut client, 3, 2000)?;
    assert_eq!(rt; heard(alloc, &client, &mut from)?.as_str(), EACH_KIND);
    step(alloc, &mut client, 5, 2000)?;
    assert_eq!(rt; heard(alloc, &client, &mut from)?.as_str(), CLEARED);
    step(alloc, &mut client, 1, 2000)?;
    assert_eq!(rt; heard(alloc, &client, &mut from)?.as_str(), PENDING_CLOSED);
    step(alloc, &mut client, 2, 2000)?;
    step(alloc, &mut client, 1, 2000)?;
    step(alloc, &mut client, 2, 2000)?;
    assert_eq!(rt; heard(alloc, &client, &mut from)?.as_str(), LENT_CLOSED);
    client.step_check(alloc, 0, 600_000)?;
    assert_eq!(rt; heard(alloc, &client, &mut from)?.as_str(), READY_AGAIN);
    step(alloc, &mut client, 1, 600_000)?;
    assert_eq!(rt; heard(alloc, &client, &mut from)?.as_str(), FREE_CLOSED);
    step(alloc, &mut client, 5, 600_000)?;
    assert_eq!(rt; heard(alloc, &client, &mut from)?.as_str(), SENT_AGAIN);
    Ok(())
}

/// Four check-outs begin. Each has a connection begin, and gets it once that is established (CMAP, Checking Out a Connection).
const EACH_KIND: &str = "TopologyOpened
ServerOpened { host: 0 }
PoolCreated { host: 0 }
BeatStarted { host: 0 }
BeatSucceeded { host: 0, micros: 0 }
TopologyChanged
PoolReady { host: 0 }
OutStarted { host: 0, op: 0 }
ConnCreated { host: 0, conn: 1 }
OutStarted { host: 0, op: 1 }
ConnCreated { host: 0, conn: 2 }
ConnReady { host: 0, conn: 2 }
CheckedOut { host: 0, conn: 2, op: 1 }
CommandStarted { op: 1 }
OutStarted { host: 0, op: 2 }
ConnCreated { host: 0, conn: 3 }
ConnReady { host: 0, conn: 3 }
CheckedOut { host: 0, conn: 3, op: 2 }
CommandStarted { op: 2 }
OutStarted { host: 0, op: 3 }
ConnCreated { host: 0, conn: 4 }
ConnReady { host: 0, conn: 4 }
CheckedOut { host: 0, conn: 4, op: 3 }
CommandStarted { op: 3 }
CommandSucceeded { op: 3 }
CheckedIn { host: 0, conn: 4, op: 3 }
CommandSucceeded { op: 2 }
CheckedIn { host: 0, conn: 3, op: 2 }
";

/// The stream of a command ends: the server is known no more, and then its pool is cleared (SDAM, Network error when reading or
/// writing). The connection comes back and is closed, by its error (CMAP, Checking In a Connection).
const CLEARED: &str = "OutStarted { host: 0, op: 4 }
CheckedOut { host: 0, conn: 3, op: 4 }
CommandStarted { op: 4 }
CommandFailed { op: 4 }
TopologyChanged
PoolCleared { host: 0 }
CheckedIn { host: 0, conn: 3, op: 4 }
ConnClosed { host: 0, conn: 3, reason: Errored }
";

/// The check-out whose connection was being established fails: the connection is closed, and then that is told (CMAP, Checking Out a
/// Connection; that the pool was cleared is a reason of this project's).
const PENDING_CLOSED: &str = "ConnClosed { host: 0, conn: 1, reason: Stale }
OutFailed { host: 0, op: 0, why: Cleared }
";

/// The command goes on over its connection, which is closed when it comes back, by its generation (CMAP, Clearing a Connection Pool;
/// Checking In a Connection).
const LENT_CLOSED: &str = "CommandSucceeded { op: 1 }
CheckedIn { host: 0, conn: 2, op: 1 }
ConnClosed { host: 0, conn: 2, reason: Stale }
";

/// A check succeeds: the topology changes, and the pool is ready (SDAM, Connection Pool Management).
const READY_AGAIN: &str = "BeatStarted { host: 0 }
BeatSucceeded { host: 0, micros: 0 }
TopologyChanged
PoolReady { host: 0 }
";

/// A check-out finds the free connection of the older generation, closes it and begins another (CMAP, Checking Out a Connection).
const FREE_CLOSED: &str = "OutStarted { host: 0, op: 0 }
ConnClosed { host: 0, conn: 4, reason: Stale }
ConnCreated { host: 0, conn: 5 }
ConnReady { host: 0, conn: 5 }
CheckedOut { host: 0, conn: 5, op: 0 }
CommandStarted { op: 0 }
CommandSucceeded { op: 0 }
CheckedIn { host: 0, conn: 5, op: 0 }
";

/// The second attempt of the command whose stream ended begins as the first one did (Retryable Writes, Executing Retryable Write
/// Commands).
const SENT_AGAIN: &str = "OutStarted { host: 0, op: 4 }
CheckedOut { host: 0, conn: 5, op: 4 }
CommandStarted { op: 4 }
CommandSucceeded { op: 4 }
CheckedIn { host: 0, conn: 5, op: 4 }
";
