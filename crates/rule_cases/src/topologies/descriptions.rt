use crate::servers::host;
use case_files::{CaseFault, Memory, Words};
use hello_reply::{ReplyFault, ServerDescription, default_unknown};
use std::alloc::Global;
use std::fmt::Display;

/// How many hosts the fact `listed` shows.
const FIRST_LISTED: usize = 3;

/// `unknown HOST`: what is known of a server of which nothing is known.
pub fn unknown(alloc: Global, words: &mut Words<'_>) -> Result<ServerDescription, CaseFault> {
    let host = host(alloc, words.next_as("host")?)?;
    Ok(default_unknown(alloc, &host)?)
}

/// `set [mean=N] [doc=N] [message=N] [batch=N] [least=N]`: a copy of the description with these fields.
pub fn set_fields(
    alloc: Global,
    description: &ServerDescription,
    words: &mut Words<'_>,
) -> Result<ServerDescription, CaseFault> {
    let mut full = description.copy(alloc)?;
    full.mean = words.number(alloc, "mean")?;
    full.max_doc = words.number(alloc, "doc")?.unwrap_or(full.max_doc);
    full.max_message = words.number(alloc, "message")?.unwrap_or(full.max_message);
    full.max_batch = words.number(alloc, "batch")?.unwrap_or(full.max_batch);
    full.min_wire = words.number(alloc, "least")?.unwrap_or(full.min_wire);
    Ok(full)
}

/// The fact of the description that has this name.
pub fn description_fact(
    alloc: Global,
    description: &ServerDescription,
    name: &str,
) -> Result<Option<String>, CaseFault> {
    match name {
        "listed" => Ok(Some(listed(alloc, description)?)),
        "copy" => {
            let copy = description.copy(alloc)?;
            Ok(Some(shown(alloc, "copy", &copy)?))
        }
        "description" | "fault" | "many" => Ok(Some(shown(alloc, "description", description)?)),
        _ => Ok(None),
    }
}

/// The fact of the fault that has this name.
pub fn reply_fault_fact(
    alloc: Global,
    fault: &ReplyFault,
    name: &str,
) -> Result<Option<String>, CaseFault> {
    match (name, fault) {
        (_, ReplyFault::Memory) => Err(CaseFault::Memory),
        ("text", fault) => Ok(Some(format!(in alloc; "text {fault}")?)),
        ("description" | "fault" | "many", ReplyFault::Field(field)) => {
            Ok(Some(format!(in alloc; "fault {field}")?))
        }
        ("description" | "fault" | "many", ReplyFault::Many { count }) => {
            Ok(Some(format!(in alloc; "many {count}")?))
        }
        _ => Ok(None),
    }
}

/// `listed COUNT HOST..`: how many hosts are listed, and the first three.
fn listed(alloc: Global, description: &ServerDescription) -> Result<String, Memory> {
    let hosts = description.listed.as_slice();
    let mut line = format!(in alloc; "listed {}", hosts.len())?;
    for host in hosts.iter().take(FIRST_LISTED) {
        write!(&mut line, " {host}")?;
    }
    Ok(line)
}

/// The description in one line, without what is absent, empty or at its default.
fn shown(alloc: Global, name: &str, d: &ServerDescription) -> Result<String, Memory> {
    let mut line = format!(in alloc; "{name} {} {:?}", d.host, d.kind)?;
    show_set(&mut line, d)?;
    show_hosts(&mut line, d)?;
    show_numbers(&mut line, d)?;
    show_limits(&mut line, d)?;
    Ok(line)
}

fn put<T: Display + Drop>(line: &mut String, word: &str, value: T) -> Result<(), Memory> {
    write!(line, " {word}={value}")
}

fn show_set(line: &mut String, d: &ServerDescription) -> Result<(), Memory> {
    if let Some(set) = &d.set_name {
        put(line, "set", set.as_str())?;
    }
    if let Some(version) = d.set_version {
        put(line, "setVersion", version)?;
    }
    if let Some(election) = d.election {
        put(line, "election", election.0[0])?;
    }
    Ok(())
}

fn show_hosts(line: &mut String, d: &ServerDescription) -> Result<(), Memory> {
    if let Some(primary) = &d.primary {
        put(line, "primary", primary)?;
    }
    if let Some(me) = &d.me {
        put(line, "me", me)?;
    }
    for host in d.listed.as_slice() {
        write!(line, " +{host}")?;
    }
    for tag in d.tags.as_slice() {
        put(line, tag.name.as_str(), tag.value.as_str())?;
    }
    Ok(())
}

fn show_numbers(line: &mut String, d: &ServerDescription) -> Result<(), Memory> {
    if d.min_wire != 0 || d.max_wire != 0 {
        write!(line, " wire={}..{}", d.min_wire, d.max_wire)?;
    }
    if let Some(minutes) = d.session_minutes {
        put(line, "minutes", minutes)?;
    }
    if let Some(version) = d.version {
        let process = version.process.0[0];
        let counter = version.counter;
        write!(line, " version={process}/{counter}")?;
    }
    Ok(())
}

fn show_limits(line: &mut String, d: &ServerDescription) -> Result<(), Memory> {
    if d.max_doc != 16_777_216 {
        put(line, "doc", d.max_doc)?;
    }
    if d.max_message != 48_000_000 {
        put(line, "message", d.max_message)?;
    }
    if d.max_batch != 100_000 {
        put(line, "batch", d.max_batch)?;
    }
    if let Some(mean) = d.mean {
        put(line, "mean", mean)?;
    }
    Ok(())
}
