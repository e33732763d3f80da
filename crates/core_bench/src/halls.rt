//! How long `member_hall` takes for a write, and how its cost grows with the history.
//!
//! `halls WRITES` makes a hall of three members and sends that many retryable inserts to the primary over one stream, reading each
//! answer. It prints the nanoseconds of a write with its answer among the first tenth and among the last tenth, each in the
//! quickest of three runs, and the events of the history.

ghost use Rattle.std.specs.Prelude.{◌≢◌};

use crate::fields::put_text;
use crate::timing::{Ends, tenths};
use crate::trouble::Trouble;
use crate::words::tenth;
use bson_doc::{Bytes, Document, Rows, Value};
use host_name::Host;
use member_core::is_within;
use member_hall::Hall;
use msg_wire::write;
use net_link::{Came, Dialed, Net, Wrote};
use std::alloc::Global;
use std::env::Args;

/// How often the writes are sent; the quickest run counts.
const RUNS: u32 = 3;

/// A hall, a stream to its primary, and the number of the next write.
#[derive(Drop)]
struct Played {
    hall: Hall,
    stream: u64,
    next: i64,
}

/// Measures what the words ask for.
pub fn measure(rt: &HostRuntime, words: &mut Args) -> Result<(), Trouble> {
    let tenth = tenth(words).ok_or(Trouble::Words)?;
    let (mut best, events) = run(rt, tenth)?;
    for _ in 1..RUNS {
        let (ends, _) = run(rt, tenth)?;
        best = best.quicker(ends);
    }
    let _ = println!(rt; "write {} last {} events {events}", best.first, best.last);
    Ok(())
}

/// Ten times that many writes to a hall of their own, and the events of its history.
fn run(rt: &HostRuntime, tenth: u32) -> Result<(Ends, usize), Trouble>
    requires { tenth ≢ 0 }
{
    let mut played = dialled(rt.alloc()).ok_or(Trouble::Answer)?;
    let ends = tenths(rt, tenth, |_| send(rt.alloc(), &mut played))?;
    Ok((ends, played.hall.events().len()))
}

/// A hall of three, and a stream to its primary.
fn dialled(alloc: Global) -> Option<Played> {
    let mut hall = hall_of(alloc)?;
    let stream = match hall.dial("a:27017") {
        Dialed::Stream(stream) => stream,
        _ => return None,
    };
    Some(Played {
        hall,
        stream,
        next: 1,
    })
}

/// A hall of three.
fn hall_of(alloc: Global) -> Option<Hall> {
    let mut hosts = Rows::new(alloc);
    push_hosts(alloc, &mut hosts)?;
    hall_with(alloc, hosts.as_slice())
}

/// Appends the three hosts.
fn push_hosts(alloc: Global, hosts: &mut Rows<Host>) -> Option<()> {
    for name in ["a", "b", "c"] {
        let host = Host::parse(alloc, name).ok()?;
        hosts.push(host).ok()?;
    }
    Some(())
}

/// A hall with these members.
fn hall_with(alloc: Global, hosts: &[Host]) -> Option<Hall> {
    if !is_within(alloc, "rs", hosts).ok()? {
        return None;
    }
    Hall::new(alloc, "rs", hosts, Rows::new(alloc)).ok()
}

/// Sends the next write and reads its answer; None where it was not taken or not answered.
fn send(alloc: Global, played: &mut Played) -> Option<()> {
    let bytes = insert(alloc, played.next)?;
    play(played, bytes.as_slice())
}

/// Sends these bytes and reads the answer to them; None where they were not taken or not answered.
fn play(played: &mut Played, bytes: &[u8]) -> Option<()> {
    played.next = played.next.checked_add(1)?;
    let stream = played.stream;
    if bytes.is_empty() || !played.hall.is_open(stream) {
        return None;
    }
    let Wrote::Took(_) = played.hall.write(stream, bytes) else {
        return None;
    };
    let mut piece = [0; 256];
    if !played.hall.is_open(stream) {
        return None;
    }
    match played.hall.read(stream, &mut piece) {
        Came::Got(_) => Some(()),
        _ => None,
    }
}

/// A retryable insert of that number.
fn insert(alloc: Global, number: i64) -> Option<Bytes> {
    let mut body = Document::new(alloc);
    put_fields(alloc, &mut body, number)?;
    write(alloc, 7, 0, 0, &body).ok()
}

/// Puts the fields of a retryable insert of that number.
fn put_fields(alloc: Global, body: &mut Document, number: i64) -> Option<()> {
    put_text(alloc, body, "insert", "c")?;
    put_session(alloc, body)?;
    body.put(alloc, "txnNumber", Value::Int64(number)).ok()?;
    put_text(alloc, body, "$db", "d")
}

/// Puts the session that every write has.
fn put_session(alloc: Global, body: &mut Document) -> Option<()> {
    let mut lsid = Document::new(alloc);
    put_id(alloc, &mut lsid)?;
    body.put(alloc, "lsid", Value::Doc(lsid)).ok()
}

/// Puts a session's id.
fn put_id(alloc: Global, lsid: &mut Document) -> Option<()> {
    let bytes = Bytes::take(alloc, &[1; 16]).ok()?;
    lsid.put(alloc, "id", Value::Binary { subtype: 4, bytes })
        .ok()
}
