//! Requests in words.
use crate::entries::push_stamp;
use crate::hosts::push_host;
use crate::log::Log;
use bson_doc::{Document, Value};
use case_files::{CaseFault, Memory, push_hex};
use desk_trail::{Purpose, Request};
use msg_wire::{Message, MsgFault, read};
use std::alloc::Global;

/// `Asked id=N stream=N` and what is asked:
///
/// - of a check, whose host the entry ahead of it tells, `first` for the first hello on a stream and `next` for a further one;
/// - of a new connection `greeting HOST conn=N first`;
/// - of a command `op=N NAME COLL`, by the name of what it does and its collection, and then, each where it is there, `lsid=HEX`,
///   `txnNumber=N`, `clusterTime=SECONDS.INCREMENT` and `readPreference=MODE`;
/// - at the end of sessions `farewell`, and ` lsid=HEX` for each of them.
pub fn push_asked(
    alloc: Global,
    line: &mut String,
    log: &Log<'_>,
    request: u64,
) -> Result<(), CaseFault> {
    match log.requests.get(request as usize) {
        Some(request) => {
            write!(line, "Asked id={} stream={}", request.id, request.stream)?;
            push_request(alloc, line, log, request)
        }
        None => Ok(line.push_str("Asked none")?),
    }
}

fn push_request(
    alloc: Global,
    line: &mut String,
    log: &Log<'_>,
    request: &Request,
) -> Result<(), CaseFault> {
    match read(alloc, request.bytes.as_slice()) {
        Ok(message) => Ok(push_message(line, log, request.purpose, &message)?),
        Err(MsgFault::Memory) => Err(CaseFault::Memory),
        Err(_) => Ok(line.push_str(" unreadable")?),
    }
}

fn push_message(
    line: &mut String,
    log: &Log<'_>,
    purpose: Purpose,
    message: &Message,
) -> Result<(), Memory> {
    match purpose {
        Purpose::Check { .. } => line.push_str(hello_text(message)),
        Purpose::Greeting { host, conn } => {
            line.push_str(" greeting ")?;
            push_host(line, log, host)?;
            write!(line, " conn={conn}")?;
            line.push_str(hello_text(message))
        }
        Purpose::Command { op } => {
            write!(line, " op={op}")?;
            push_command(line, &message.body)
        }
        Purpose::Farewell => {
            line.push_str(" farewell")?;
            push_ended(line, &message.body)
        }
    }
}

/// Whether a hello says who is asking.
fn hello_text(message: &Message) -> &'static str {
    if message.body.get("hello").is_none() {
        return " no_hello";
    }
    match message.body.get("client") {
        Some(_) => " first",
        None => " next",
    }
}

fn push_command(line: &mut String, body: &Document) -> Result<(), Memory> {
    push_head(line, body)?;
    push_lsid(line, body)?;
    if let Some(Value::Int64(number)) = body.get("txnNumber") {
        write!(line, " txnNumber={number}")?;
    }
    push_time(line, body)?;
    push_mode(line, body)
}

/// The name of the command and its collection: its first member.
fn push_head(line: &mut String, body: &Document) -> Result<(), Memory> {
    match body.elements.as_slice().first() {
        Some((name, Value::Str(coll))) => write!(line, " {} {}", name.as_str(), coll.as_str()),
        Some((name, _)) => write!(line, " {}", name.as_str()),
        None => line.push_str(" nothing"),
    }
}

/// The value of a member of the member of a document, which is one.
fn member_of<'a>(body: &'a Document, name: &str, member: &str) -> Option<&'a Value> {
    match body.get(name) {
        Some(Value::Doc(inner)) => inner.get(member),
        _ => None,
    }
}

/// The id of a session, where it is one.
fn push_id(line: &mut String, id: Option<&Value>) -> Result<(), Memory> {
    match id {
        Some(Value::Binary { subtype: 4, bytes }) => {
            line.push_str(" lsid=")?;
            push_hex(line, bytes.as_slice())
        }
        _ => Ok(()),
    }
}

fn push_lsid(line: &mut String, body: &Document) -> Result<(), Memory> {
    push_id(line, member_of(body, "lsid", "id"))
}

/// The ids of the sessions that end.
fn push_ended(line: &mut String, body: &Document) -> Result<(), Memory> {
    let Some(Value::Array(sessions)) = body.get("endSessions") else {
        return Ok(());
    };
    for session in sessions.as_slice() {
        if let Value::Doc(session) = session {
            push_id(line, session.get("id"))?;
        }
    }
    Ok(())
}

fn push_time(line: &mut String, body: &Document) -> Result<(), Memory> {
    match member_of(body, "$clusterTime", "clusterTime") {
        Some(Value::Stamp(stamp)) => push_stamp(line, " clusterTime=", *stamp),
        _ => Ok(()),
    }
}

fn push_mode(line: &mut String, body: &Document) -> Result<(), Memory> {
    match member_of(body, "$readPreference", "mode") {
        Some(Value::Str(mode)) => write!(line, " readPreference={}", mode.as_str()),
        _ => Ok(()),
    }
}
