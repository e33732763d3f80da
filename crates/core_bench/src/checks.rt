//! How long `desk_core` takes for a check of a server, and how many entries its trail gets of it.
//!
//! `checks CHECKS` runs that many checks of one server, each at the moment at which it is due, over a net in memory that answers
//! each hello at once. It prints the nanoseconds of a check among the first tenth and among the last tenth, each in the quickest
//! of five runs, and the entries of the trail.

ghost use Rattle.std.specs.Prelude.{◌≡◌, ◌≢◌, [], IfSome};

use crate::timing::{Ends, tenths};
use crate::trouble::Trouble;
use crate::words::tenth;
use bson_doc::{Bytes, Rows};
use conn_uri::parse;
use desk_core::Desk;
use net_link::{ScriptNet, StreamPlan};
use server_pick::KeepAll;
use std::alloc::Global;
use std::env::Args;

/// How often the checks are run; the quickest run counts.
const RUNS: u32 = 5;

/// A hello reply of a standalone server as a message (MongoDB wire protocol): `{ok: 1.0, maxWireVersion: 21}`. The four bytes at
/// the place [`TO`] are the id of the request that it answers.
const REPLY: [u8; 58] =
    *b"\x3a\x00\x00\x00\x00\x00\x00\x00\x00\x00\x00\x00\xdd\x07\x00\x00\x00\x00\x00\x00\x00\x25\x00\x00\x00\x01ok\x00\x00\x00\x00\x00\x00\x00\xf0\x3f\x10maxWireVersion\x00\x15\x00\x00\x00\x00";

/// The place of the id in a reply.
const TO: usize = 8;

/// Measures what the words ask for.
pub fn measure(rt: &HostRuntime, words: &mut Args) -> Result<(), Trouble> {
    let tenth = tenth(words).ok_or(Trouble::Words)?;
    let (mut best, entries) = run(rt, tenth)?;
    for _ in 1..RUNS {
        let (ends, _) = run(rt, tenth)?;
        best = best.quicker(ends);
    }
    let _ = println!(rt; "check {} last {} entries {entries}", best.first, best.last);
    Ok(())
}

/// Ten times that many checks of a client of its own, and the entries of its trail.
fn run(rt: &HostRuntime, tenth: u32) -> Result<(Ends, usize), Trouble>
    requires { tenth ≢ 0 }
{
    let mut desk = desk_of(rt.alloc(), tenth).ok_or(Trouble::Answer)?;
    let ends = tenths(rt, tenth, |_| check(rt.alloc(), &mut desk))?;
    Ok((ends, desk.steps().len()))
}

/// A client of one server that answers ten times that many checks.
fn desk_of(alloc: Global, tenth: u32) -> Option<Desk<ScriptNet, KeepAll>> {
    let settings = parse(alloc, "mongodb://a").ok()?;
    let net = net_of(alloc, tenth)?;
    Desk::new(alloc, net, settings, Rows::new(alloc), KeepAll, 0).ok()
}

/// A net whose first stream brings ten times that many replies.
fn net_of(alloc: Global, tenth: u32) -> Option<ScriptNet>
    ensures fresh { IfSome result (λ net. net.events ≡ []) }
{
    let mut plans = Rows::new(alloc);
    push_plan(alloc, &mut plans, tenth)?;
    Some(ScriptNet::new(alloc, plans, Rows::new(alloc)))
}

/// Appends what comes on such a stream.
fn push_plan(alloc: Global, plans: &mut Rows<StreamPlan>, tenth: u32) -> Option<()> {
    let bytes = replies(alloc, tenth)?;
    let plan = StreamPlan {
        bytes,
        most: u32::MAX,
        ends: false,
    };
    plans.push(plan).ok()
}

/// The replies to ten times that many requests, with ids from 1 on.
fn replies(alloc: Global, tenth: u32) -> Option<Bytes> {
    let mut bytes = Bytes::new(alloc);
    append_replies(&mut bytes, tenth)?;
    Some(bytes)
}

/// Appends ten times that many replies.
fn append_replies(bytes: &mut Bytes, tenth: u32) -> Option<()> {
    for _ in 0..10 {
        for _ in 0..tenth {
            let id = u32::try_from(bytes.len() / REPLY.len())
                .ok()?
                .checked_add(1)?;
            append_reply(bytes, id)?;
        }
    }
    Some(())
}

/// Appends the reply to the request of that id.
fn append_reply(bytes: &mut Bytes, id: u32) -> Option<()> {
    let mut reply = REPLY;
    reply[TO..TO + 4].copy_from_slice(&id.to_le_bytes());
    for byte in reply {
        bytes.push(byte).ok()?;
    }
    Some(())
}

/// Runs the check that comes next, at the moment at which it is due; None where the client stopped for want of memory.
fn check(alloc: Global, desk: &mut Desk<ScriptNet, KeepAll>) -> Option<()> {
    if desk.is_stopped() {
        return None;
    }
    let due = desk.next_due()?;
    desk.step_check(alloc, due.host, due.at).ok()?;
    Some(())
}
