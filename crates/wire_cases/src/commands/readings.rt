//! The facts of a reply, as it is read: its `result`, which is `ok N MODIFIED`, `write errors COUNT FIRST`, `concern CODE` or
//! `error CODE`; its `labels`, of `retryable` and `no_writes` those that it has; the change of `state`, `state CODE` with
//! `shutdown` where it is one, or `state none`; its topology `version`, the process in hexadecimal and the counter; and the
//! `time` that it gossips, `time STAMP ELEMENTS`, as many as its document has.
use bson_doc::{Document, TopologyVersion};
use case_files::{CaseFault, Memory, push_hex};
use cmd_outcome::{Reading, ReplyResult, StateChange, classify, cluster_time};
use std::alloc::Global;

/// The fact of that name.
pub fn reading_fact(
    alloc: Global,
    reply: &Document,
    name: &str,
) -> Result<Option<String>, CaseFault> {
    let reading = classify(reply);
    let fact = match name {
        "result" => result_text(alloc, reading.result)?,
        "labels" => labels(alloc, reading)?,
        "state" => state(alloc, reading.state)?,
        "version" => version(alloc, reading.version)?,
        "time" => time(alloc, reply)?,
        _ => return Ok(None),
    };
    Ok(Some(fact))
}

fn result_text(alloc: Global, came: ReplyResult) -> Result<String, Memory> {
    match came {
        ReplyResult::Ok { n, modified } => format!(in alloc; "result ok {n} {modified}"),
        ReplyResult::WriteErrors { count, first } => {
            format!(in alloc; "result write errors {count} {first}")
        }
        ReplyResult::Concern { code } => format!(in alloc; "result concern {code}"),
        ReplyResult::Error { code } => format!(in alloc; "result error {code}"),
    }
}

fn labels(alloc: Global, reading: Reading) -> Result<String, Memory> {
    let mut line = String::from_str(alloc, "labels")?;
    if reading.retryable {
        line.push_str(" retryable")?;
    }
    if reading.no_writes {
        line.push_str(" no_writes")?;
    }
    Ok(line)
}

fn state(alloc: Global, state: Option<StateChange>) -> Result<String, Memory> {
    match state {
        Some(
            StateChange {
                code,
                shutdown: true,
            },
        ) => format!(in alloc; "state {code} shutdown"),
        Some(StateChange { code, .. }) => format!(in alloc; "state {code}"),
        None => String::from_str(alloc, "state none"),
    }
}

fn version(alloc: Global, version: Option<TopologyVersion>) -> Result<String, Memory> {
    match version {
        Some(version) => {
            let mut line = String::from_str(alloc, "version ")?;
            push_hex(&mut line, &version.process.0)?;
            write!(line, " {}", version.counter)?;
            Ok(line)
        }
        None => String::from_str(alloc, "version none"),
    }
}

fn time(alloc: Global, reply: &Document) -> Result<String, CaseFault> {
    match cluster_time(alloc, reply)? {
        Some(time) => {
            let elements = time.body.elements.len();
            Ok(format!(in alloc; "time {} {elements}", time.stamp)?)
        }
        None => Ok(String::from_str(alloc, "time none")?),
    }
}
