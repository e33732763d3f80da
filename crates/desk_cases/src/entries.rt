//! Entries of a client's trail in words. A host is `NAME/NUMBER`.
use crate::checkouts::push_check_out;
use crate::ends::push_answer;
use crate::hosts::push_of_host;
use crate::log::Log;
use crate::looks::push_look;
use crate::requests::push_asked;
use case_files::{CaseFault, Memory};
use desk_trail::{CheckHow, Entry, OfferedHow};
use std::alloc::Global;
use topo_rules::TopoEvent;

/// The line of an entry. Of the topology, the pools and the checks:
///
/// - `entry Named HOST`, `Dropped HOST`, `PoolReady HOST`, `PoolClear HOST`, `PoolShut HOST`;
/// - `entry Offered EVENT NAME TAKEN`: EVENT is `Reply`, `Broken` or `Refused`, and TAKEN `accepted`, `differs` where the
///   description of the topology is another one by it, `gone`, `stale_version` or `stale_generation`;
/// - `entry CheckBegan HOST stream=N`, `entry CheckDry HOST`, `entry CheckEnded HOST HOW`;
/// - `entry Asked ..` as [`push_asked`] says, and `entry Time SECONDS.INCREMENT`.
///
/// Those of commands are as [`push_look`], [`push_check_out`] and [`push_answer`] say.
pub fn entry_text(alloc: Global, log: &Log<'_>, entry: &Entry) -> Result<String, CaseFault> {
    let mut line = String::from_str(alloc, "entry ")?;
    match entry {
        Entry::Asked { request } => push_asked(alloc, &mut line, log, *request)?,
        _ => push_entry(&mut line, log, entry)?,
    }
    Ok(line)
}

/// An entry that tells no request.
fn push_entry(line: &mut String, log: &Log<'_>, entry: &Entry) -> Result<(), Memory> {
    match entry {
        Entry::Offered { event, taken } => push_offered(line, log, *event, *taken),
        Entry::Time { stamp } => push_stamp(line, "Time ", *stamp),
        Entry::CheckBegan { host, stream } => push_check(line, log, *host, *stream),
        Entry::CheckEnded { host, how } => push_checked(line, log, *host, *how),
        _ => push_plain(line, log, entry),
    }
}

/// An entry that says no more than a host, or one of a command.
fn push_plain(line: &mut String, log: &Log<'_>, entry: &Entry) -> Result<(), Memory> {
    match entry {
        Entry::Named { host } => push_of_host(line, log, "Named", *host),
        Entry::Dropped { host } => push_of_host(line, log, "Dropped", *host),
        Entry::PoolReady { host } => push_of_host(line, log, "PoolReady", *host),
        Entry::PoolClear { host } => push_of_host(line, log, "PoolClear", *host),
        Entry::PoolShut { host } => push_of_host(line, log, "PoolShut", *host),
        Entry::CheckDry { host } => push_of_host(line, log, "CheckDry", *host),
        _ => push_of_command(line, log, entry),
    }
}

/// An entry of a command.
fn push_of_command(line: &mut String, log: &Log<'_>, entry: &Entry) -> Result<(), Memory> {
    if push_look(line, log, entry)? || push_check_out(line, log, entry)? {
        return Ok(());
    }
    if push_answer(line, log, entry)? {
        return Ok(());
    }
    line.push_str("another")
}

/// A cluster time's stamp: `SECONDS.INCREMENT`.
pub fn push_stamp(line: &mut String, front: &str, stamp: u64) -> Result<(), Memory> {
    let seconds = stamp >> 32;
    let increment = stamp & 0xffff_ffff;
    write!(line, "{front}{seconds}.{increment}")
}

fn push_check(line: &mut String, log: &Log<'_>, host: u32, stream: u64) -> Result<(), Memory> {
    push_of_host(line, log, "CheckBegan", host)?;
    write!(line, " stream={stream}")
}

fn push_checked(line: &mut String, log: &Log<'_>, host: u32, how: CheckHow) -> Result<(), Memory> {
    push_of_host(line, log, "CheckEnded", host)?;
    push_how(line, how)
}

fn push_how(line: &mut String, how: CheckHow) -> Result<(), Memory> {
    match how {
        CheckHow::Reply { sample } => write!(line, " Reply sample={sample}"),
        CheckHow::Refused { code } => write!(line, " Refused code={code}"),
        CheckHow::Cut => line.push_str(" Cut"),
        CheckHow::Fault => line.push_str(" Fault"),
        CheckHow::Late => line.push_str(" Late"),
        CheckHow::Bad { at } => write!(line, " Bad at={at}"),
        CheckHow::NoDial => line.push_str(" NoDial"),
    }
}

fn push_offered(
    line: &mut String,
    log: &Log<'_>,
    event: u64,
    taken: OfferedHow,
) -> Result<(), Memory> {
    line.push_str("Offered ")?;
    match log.events.get(event as usize) {
        Some(event) => write!(line, "{} {}", event_name(event), event.host().name())?,
        None => line.push_str("none")?,
    }
    line.push_str(taken_text(taken))
}

fn event_name(event: &TopoEvent) -> &'static str {
    match event {
        TopoEvent::Reply { .. } => "Reply",
        TopoEvent::Broken { .. } => "Broken",
        TopoEvent::Refused { .. } => "Refused",
    }
}

fn taken_text(taken: OfferedHow) -> &'static str {
    match taken {
        OfferedHow::Accepted { differs: true } => " differs",
        OfferedHow::Accepted { differs: false } => " accepted",
        OfferedHow::Gone => " gone",
        OfferedHow::StaleVersion => " stale_version",
        OfferedHow::StaleGeneration => " stale_generation",
    }
}
