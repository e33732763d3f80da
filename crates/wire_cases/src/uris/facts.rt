//! The facts: `ok HOST,.. DB` and what is not at its default, or `fault` and which. Behind `ok` stand, in this order, `set=`,
//! `direct`, `once` where writes are not sent again, `connect=`, `socket=`, `select=`, `beat=`, `threshold=`, `wait=` and
//! `idle=`, `pool=` and `connecting=`, the mode (`read=`), `tags=` for each tag set and `warn=` for each warning.
//! `count N` is how many hosts there are.
use crate::uris::spelling::push_word;
use crate::uris::state::State;
use case_files::{CaseFault, Memory};
use conn_uri::{Clash, Settings, UriFault};
use host_name::HostFault;
use read_pref::{Mode, TagSet};
use std::alloc::Global;

/// The fact of that name behind the last step.
pub fn fact_of(alloc: Global, state: &State, name: &str) -> Result<Option<String>, CaseFault> {
    match name {
        "ok" | "fault" => match &state.told {
            Ok(settings) => Ok(Some(settings_text(alloc, settings)?)),
            Err(fault) => Ok(Some(fault_text(alloc, fault)?)),
        },
        "count" => match &state.told {
            Ok(settings) => Ok(Some(format!(in alloc; "count {}", settings.hosts.len())?)),
            Err(fault) => Ok(Some(fault_text(alloc, fault)?)),
        },
        _ => Ok(None),
    }
}

fn fault_text(alloc: Global, fault: &UriFault) -> Result<String, Memory> {
    match fault {
        UriFault::Scheme => String::from_str(alloc, "fault scheme"),
        UriFault::Credentials => String::from_str(alloc, "fault credentials"),
        UriFault::Escape { at } => format!(in alloc; "fault escape {at}"),
        UriFault::Host(HostFault::Bracket) => String::from_str(alloc, "fault host bracket"),
        UriFault::Host(HostFault::Empty) => String::from_str(alloc, "fault host empty"),
        UriFault::Host(HostFault::Port) => String::from_str(alloc, "fault host port"),
        UriFault::Host(HostFault::Memory) => String::from_str(alloc, "fault host memory"),
        UriFault::Left { name } => {
            let mut line = String::from_str(alloc, "fault left ")?;
            push_word(&mut line, name.as_str())?;
            Ok(line)
        }
        UriFault::Clash(Clash::DirectMany) => String::from_str(alloc, "fault clash direct"),
        UriFault::Clash(Clash::TagsOnPrimary) => String::from_str(alloc, "fault clash tags"),
        UriFault::Memory => String::from_str(alloc, "fault memory"),
    }
}

fn settings_text(alloc: Global, settings: &Settings) -> Result<String, Memory> {
    let mut line = String::from_str(alloc, "ok ")?;
    push_hosts(&mut line, settings)?;
    line.push(' ')?;
    push_word(&mut line, settings.db.as_str())?;
    if let Some(name) = &settings.set_name {
        line.push_str(" set=")?;
        push_word(&mut line, name.as_str())?;
    }
    push_flag(&mut line, "direct", settings.direct)?;
    push_flag(&mut line, "once", !settings.retry_writes)?;
    push_numbers(&mut line, settings)?;
    push_read(&mut line, settings)?;
    for name in settings.warnings.as_slice() {
        line.push_str(" warn=")?;
        push_word(&mut line, name.as_str())?;
    }
    Ok(line)
}

fn push_hosts(line: &mut String, settings: &Settings) -> Result<(), Memory> {
    let mut is_first = true;
    for host in settings.hosts.as_slice() {
        if !is_first {
            line.push(',')?;
        }
        is_first = false;
        push_word(line, host.name())?;
        write!(line, ":{}", host.port())?;
    }
    Ok(())
}

fn push_flag(line: &mut String, name: &str, is_set: bool) -> Result<(), Memory> {
    if is_set {
        write!(line, " {name}")?;
    }
    Ok(())
}

fn push_numbers(line: &mut String, settings: &Settings) -> Result<(), Memory> {
    push_number(line, "connect", settings.connect_ms, 10000)?;
    push_number(line, "socket", settings.socket_ms, 30000)?;
    push_number(line, "select", settings.select_ms, 30000)?;
    push_number(line, "beat", settings.beat_ms, 10000)?;
    push_number(line, "threshold", settings.threshold_ms, 15)?;
    push_number(line, "wait", settings.wait_ms, 30000)?;
    push_number(line, "idle", settings.idle_ms, 0)?;
    push_number(line, "pool", u64::from(settings.max_pool), 100)?;
    push_number(line, "connecting", u64::from(settings.max_connecting), 2)
}

/// The number, where it is not the one that it is by default.
fn push_number(line: &mut String, name: &str, number: u64, usual: u64) -> Result<(), Memory> {
    if number != usual {
        write!(line, " {name}={number}")?;
    }
    Ok(())
}

fn push_read(line: &mut String, settings: &Settings) -> Result<(), Memory> {
    let mode = settings.read.mode();
    if mode != Mode::Primary {
        write!(line, " read={}", mode.name())?;
    }
    for tags in settings.read.tag_sets().as_slice() {
        line.push_str(" tags=")?;
        push_tags(line, tags)?;
    }
    Ok(())
}

fn push_tags(line: &mut String, tags: &TagSet) -> Result<(), Memory> {
    let mut is_first = true;
    for tag in tags.as_slice() {
        if !is_first {
            line.push(',')?;
        }
        is_first = false;
        push_word(line, tag.name.as_str())?;
        line.push(':')?;
        push_word(line, tag.value.as_str())?;
    }
    Ok(())
}
