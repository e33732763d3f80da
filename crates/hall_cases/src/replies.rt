//! What a read gave, in words: `reply to=ID VERDICT [retryable] [no_writes]`, of a hello `hello to=ID KIND` with what
//! `hello_reply` reads in it, and `bytes COUNT` where it was no whole message.
use bson_doc::{Document, Oid, Text};
use case_files::{CaseFault, push_hex};
use cmd_outcome::{ReplyResult, classify};
use hello_reply::{ServerDescription, describe};
use host_name::Host;
use msg_wire::read;
use std::alloc::Global;

/// What these bytes say.
pub fn reply_text(alloc: Global, bytes: &[u8]) -> Result<String, CaseFault> {
    let Ok(message) = read(alloc, bytes) else {
        return Ok(format!(in alloc; "bytes {}", bytes.len())?);
    };
    let to = message.to;
    if message.body.get("maxWireVersion").is_some() {
        let text = hello_text(alloc, &message.body)?;
        return Ok(format!(in alloc; "hello to={to} {text}")?);
    }
    let text = verdict_text(alloc, &message.body)?;
    Ok(format!(in alloc; "reply to={to} {text}")?)
}

fn verdict_text(alloc: Global, body: &Document) -> Result<String, CaseFault> {
    let reading = classify(body);
    let mut text = match reading.result {
        ReplyResult::Ok { n, modified } => format!(in alloc; "ok n={n} modified={modified}")?,
        ReplyResult::WriteErrors { count, first } => format!(in alloc;
            "write_errors {count} {first}"
        )?,
        ReplyResult::Concern { code } => format!(in alloc; "concern {code}")?,
        ReplyResult::Error { code } => format!(in alloc; "error {code}")?,
    };
    if reading.retryable {
        text.push_str(" retryable")?;
    }
    if reading.no_writes {
        text.push_str(" no_writes")?;
    }
    Ok(text)
}

fn hello_text(alloc: Global, body: &Document) -> Result<String, CaseFault> {
    let Ok(host) = Host::parse(alloc, "h0") else {
        return Err(CaseFault::Memory);
    };
    match describe(alloc, body, &host) {
        Ok(said) => said_text(alloc, &said),
        Err(_) => Ok(String::from_str(alloc, "fault")?),
    }
}

fn said_text(alloc: Global, said: &ServerDescription) -> Result<String, CaseFault> {
    let kind = said.kind;
    let listed = said.listed.len();
    let (min, max) = (said.min_wire, said.max_wire);
    let mut text = format!(in alloc; "{kind:?} hosts={listed} wire={min}-{max}")?;
    if let Some(set) = &said.set_name {
        text.push_str(" set=")?;
        text.push_str(set.as_str())?;
    }
    if let Some(version) = said.set_version {
        let more = format!(in alloc; " set_version={version}")?;
        text.push_str(more.as_str())?;
    }
    if let Some(minutes) = said.session_minutes {
        let more = format!(in alloc; " minutes={minutes}")?;
        text.push_str(more.as_str())?;
    }
    if let Some(election) = &said.election {
        text.push_str(" election=")?;
        push_oid(&mut text, election)?;
    }
    if let Some(version) = &said.version {
        text.push_str(" process=")?;
        push_oid(&mut text, &version.process)?;
        let more = format!(in alloc; " counter={}", version.counter)?;
        text.push_str(more.as_str())?;
    }
    Ok(text)
}

fn push_oid(text: &mut String, oid: &Oid) -> Result<(), CaseFault> {
    Ok(push_hex(text, &oid.0)?)
}
