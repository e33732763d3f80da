//! The public call on its happy path, and a net of one's own in `waiting`. The crate `shell_cases` runs scripts over nets in
//! memory. Expected bytes are worked by hand from the standards.

ghost use Rattle.std.specs.Prelude.{◌≡◌, [], IfOk};

mod waiting;

use bson_doc::{Bytes, Rows, Text};
use desk_trail::{Purpose, Request};
use drv_events::Hooks;
use net_link::{
    ListDice, NetEvent, OpenGate, ScriptNet, SliceSource, StreamPlan, TickClock, VecSink,
};
use server_pick::KeepAll;
use shell_top::{Ended, run};
use std::alloc::Global;
use std::sync::Wait;
use std::test::Fail;
use std::thread::Threads;

/// The script of one insert.
const SCRIPT: &str = r#"{"lane":1,"op":"insert","coll":"a","doc":{"_id":7}}"#;

/// Its request: the insert of `{_id: 7}` into collection `a` of database `test`, with id 3.
const REQUEST: &[u8] =
    b"\x96\0\0\0\x03\0\0\0\0\0\0\0\xdd\x07\0\0\0\0\0\0\0\x81\0\0\0\x02insert\0\x02\0\0\0a\0\x04documents\0\x16\0\0\0\x030\0\x0e\0\0\0\x10_id\0\x07\0\0\0\0\0\x08ordered\0\x01\x03writeConcern\0\x15\0\0\0\x02w\0\x09\0\0\0majority\0\0\x02apiVersion\0\x02\0\0\x001\0\x02$db\0\x05\0\0\0test\0\0";

/// `{ok: 1.0, minWireVersion: 0, maxWireVersion: 21}` in answer to the hello of the check, with id 1.
const CHECK: &[u8] =
    b"\x4e\0\0\0\x07\0\0\0\x01\0\0\0\xdd\x07\0\0\0\0\0\0\0\x39\0\0\0\x01ok\0\0\0\0\0\0\0\xf0\x3f\x10minWireVersion\0\0\0\0\0\x10maxWireVersion\0\x15\0\0\0\0";

/// The same in answer to the hello of the connection, with id 2, and `{n: 1, ok: 1.0}` in answer to the request.
const CONNECTION: &[u8] =
    b"\x4e\0\0\0\x07\0\0\0\x02\0\0\0\xdd\x07\0\0\0\0\0\0\0\x39\0\0\0\x01ok\0\0\0\0\0\0\0\xf0\x3f\x10minWireVersion\0\0\0\0\0\x10maxWireVersion\0\x15\0\0\0\0\x2d\0\0\0\x07\0\0\0\x03\0\0\0\xdd\x07\0\0\0\0\0\0\0\x18\0\0\0\x10n\0\x01\0\0\0\x01ok\0\0\0\0\0\0\0\xf0\x3f\0";

/// The words of a run against one host.
fn one_host(alloc: Global) -> Result<Rows<Text>, Fail> {
    let mut words = Rows::new(alloc);
    for word in ["run", "mongodb://127.0.0.1:27017"] {
        words.push(Text::take(alloc, word)?)?;
    }
    Ok(words)
}

/// A source of the script, none of whose reads fails.
fn source(alloc: Global) -> Result<SliceSource, Fail> {
    Ok(SliceSource::new(Bytes::take(alloc, SCRIPT.as_bytes())?, Rows::new(alloc)))
}

/// A stream that gives these bytes.
fn plan(alloc: Global, bytes: &[u8]) -> Result<StreamPlan, Fail> {
    Ok(StreamPlan {
        bytes: Bytes::take(alloc, bytes)?,
        most: 4096,
        ends: false,
    })
}

/// A net with two streams, of the check and of the connection.
fn two_streams(alloc: Global) -> Result<ScriptNet, Fail>
    ensures fresh { IfOk result (λ net. net.events ≡ []) }
{
    let mut plans = Rows::new(alloc);
    for bytes in [CHECK, CONNECTION] {
        plans.push(plan(alloc, bytes)?)?;
    }
    Ok(ScriptNet::new(alloc, plans, Rows::new(alloc)))
}

/// Runs the script over a net with two streams, of the check and of the connection.
fn over_script<R: Threads + Wait + Sync>(
    rt: &R,
    alloc: Global,
    out: &mut VecSink,
) -> Result<Ended<ScriptNet>, Fail> {
    let clock = TickClock::new(0, 1_000);
    let words = one_host(alloc)?;
    let mut script = source(alloc)?;
    let dice = ListDice::new(Rows::take(alloc, &[1])?);
    let picker = Box::new(alloc, KeepAll)?;
    let net = two_streams(alloc)?;
    Ok(run(
        rt,
        alloc,
        &words,
        &mut script,
        out,
        net,
        &clock,
        dice,
        Hooks::new(alloc),
        picker,
        &OpenGate,
    ))
}

#[test]
fn the_request_goes_out_whole_and_each_stream_is_closed(rt: HostRuntime) -> Result<(), Fail> {
    let alloc = rt.alloc();
    let mut out = VecSink::new(alloc, 4096, Rows::new(alloc))?;
    let ended = over_script(&rt, alloc, &mut out)?;
    let line = b"1: ok n=1 modified=0 attempts=1\ndone 1 ok 1\n";
    let came = (ended.status.code(), out.written() == line.as_slice());
    let counted = sent_and_closed(ended.net.events());
    let asked = are_as_sent(ended.trail.requests.as_slice());
    drop(ended);
    assert_eq!(rt; came, (0, true));
    assert_eq!(rt; counted, (1, 2));
    assert!(rt; asked);
    Ok(())
}

/// How often the request went out whole, and how many streams were closed.
fn sent_and_closed(events: &[NetEvent]) -> (u32, u32) {
    let mut sent = 0u32;
    let mut closed = 0u32;
    for event in events {
        match event {
            NetEvent::Out { bytes, .. } if bytes.as_slice() == REQUEST => sent =
                sent.saturating_add(1),
            NetEvent::Closed { .. } => closed = closed.saturating_add(1),
            _ => {}
        }
    }
    (sent, closed)
}

/// Whether the trail has the request of each command as it went out.
fn are_as_sent(requests: &[Request]) -> bool {
    for request in requests {
        if let Purpose::Command { .. } = request.purpose {
            if request.bytes.as_slice() != REQUEST {
                return false;
            }
        }
    }
    true
}
