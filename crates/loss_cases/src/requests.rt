//! The requests of a client's commands, and where members find them.
use bson_doc::{Document, Lsid, Memory, Value};
use desk_trail::{Entry, Purpose, Request, Trail};
use member_core::Key;
use msg_wire::read;
use std::alloc::Global;

/// The subtype of a UUID (bsonspec 1.1, binary).
const UUID: u8 = 4;

/// How many bytes a UUID has.
const UUID_SIZE: usize = 16;

/// A request.
#[derive(Clone, Copy, Debug)]
pub struct Asked {
    /// Its stream.
    pub stream: u64,
    /// Which of the stream's requests it is, counted from 0.
    pub nth: u64,
    /// The command that it is of, counted from 0; None where it is of none.
    pub op: Option<u32>,
    /// What members know it by.
    pub key: Key,
}

/// All requests of a client, in order.
#[derive(Drop)]
pub struct Requests {
    all: Vec<Asked>,
}

impl Requests {
    /// The requests that a trail tells.
    pub fn of(alloc: Global, trail: &Trail) -> Result<Requests, Memory> {
        let mut all = Vec::new(alloc);
        for step in trail.steps.as_slice() {
            if let Entry::Asked { request } = &step.entry {
                push_request(alloc, &mut all, trail, *request)?;
            }
        }
        Ok(Requests { all })
    }

    /// The request of that number on the stream; None where there is none.
    pub fn find(&self, stream: u64, nth: u64) -> Option<Asked> {
        for asked in self.all.iter() {
            if asked.stream == stream && asked.nth == nth {
                return Some(*asked);
            }
        }
        None
    }
}

/// Appends the request at that place of the trail's requests.
fn push_request(
    alloc: Global,
    all: &mut Vec<Asked>,
    trail: &Trail,
    place: u64,
) -> Result<(), Memory> {
    match trail.requests.as_slice().get(place as usize) {
        Some(request) => {
            let asked = behind(alloc, all, request);
            all.push(asked)?;
            Ok(())
        }
        None => Ok(()),
    }
}

/// The request behind those.
fn behind(alloc: Global, before: &[Asked], request: &Request) -> Asked {
    let stream = request.stream;
    let nth = count_on(before, stream);
    Asked {
        stream,
        nth,
        op: op_of(request.purpose),
        key: key(alloc, request.bytes.as_slice(), stream, nth),
    }
}

/// How many requests are on the stream.
fn count_on(all: &[Asked], stream: u64) -> u64 {
    all.iter().filter(|asked| asked.stream == stream).count() as u64
}

/// The command that a request is of.
fn op_of(purpose: Purpose) -> Option<u32> {
    match purpose {
        Purpose::Command { op } => Some(op),
        _ => None,
    }
}

/// What members know a request by: its session's id and its number, else its place.
fn key(alloc: Global, bytes: &[u8], stream: u64, nth: u64) -> Key {
    match read(alloc, bytes) {
        Ok(message) => key_of(&message.body, stream, nth),
        Err(_) => Key::Placed { stream, nth },
    }
}

fn key_of(body: &Document, stream: u64, nth: u64) -> Key {
    match (lsid_in(body), number_in(body)) {
        (Some(lsid), Some(number)) => Key::Numbered { lsid, number },
        _ => Key::Placed { stream, nth },
    }
}

/// The session's id (Driver Sessions, lsid).
fn lsid_in(body: &Document) -> Option<Lsid> {
    id_in(body.get("lsid")?.document()?.get("id")?)
}

/// The transaction number (Retryable Writes).
fn number_in(body: &Document) -> Option<i64> {
    body.get("txnNumber")?.int64()
}

/// A UUID.
fn id_in(value: &Value) -> Option<Lsid> {
    match value {
        Value::Binary { subtype, bytes } if *subtype == UUID && bytes.len() == UUID_SIZE => {
            let mut id = [0; UUID_SIZE];
            id.copy_from_slice(bytes.as_slice());
            Some(Lsid(id))
        }
        _ => None,
    }
}
