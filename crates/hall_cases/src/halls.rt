//! A hall by its hosts and acts. An act is `TURN:NAME:HOST` with the place of its host, and behind that, where it has them, its
//! other numbers: `late:HOST:TURNS`, `hold:HOST:TURNS`, `split:HOST:BYTES` and
//! `refuse:HOST:CODE:retryable|no_writes|both|plain`. The others are `drop`, `mute`, `elect`, `follow`, `dead` and `alive`.
use crate::state::{State, Told};
use bson_doc::Rows;
use case_files::{CaseFault, Words, parsed};
use host_name::Host;
use member_core::is_within;
use member_hall::{Act, Hall, HallFault, Planned};
use std::alloc::Global;

/// The step `hall`.
pub fn hall(alloc: Global, state: &mut State, words: &mut Words<'_>) -> Result<Told, CaseFault> {
    let hosts = hosts(alloc, words.next_as("hosts")?)?;
    let acts = acts(alloc, words)?;
    state.hall = None;
    if !is_within(alloc, "rs", hosts.as_slice())? {
        return Err(CaseFault::Refused("too many hosts"));
    }
    match Hall::new(alloc, "rs", hosts.as_slice(), acts) {
        Ok(hall) => {
            state.hall = Some(hall);
            Ok(Told::Made)
        }
        Err(HallFault::NoMember) => Ok(Told::NoMember),
        Err(HallFault::Twice { host }) => Ok(Told::Twice(host)),
        Err(HallFault::Act { place }) => Ok(Told::Stranger(place)),
        Err(HallFault::Memory) => Err(CaseFault::Memory),
    }
}

/// The hosts that commas part; `-` stands for none.
fn hosts(alloc: Global, text: &str) -> Result<Rows<Host>, CaseFault> {
    let mut hosts = Rows::new(alloc);
    if text == "-" {
        return Ok(hosts);
    }
    for name in text.split(',') {
        match Host::parse(alloc, name) {
            Ok(host) => hosts.push(host)?,
            Err(_) => return Err(CaseFault::form(alloc, name)),
        }
    }
    Ok(hosts)
}

/// The acts that are left.
fn acts(alloc: Global, words: &mut Words<'_>) -> Result<Rows<Planned>, CaseFault> {
    let mut acts = Rows::new(alloc);
    for word in words.rest(alloc) {
        acts.push(planned(alloc, word)?)?;
    }
    Ok(acts)
}

/// An act and its turn.
fn planned(alloc: Global, word: &str) -> Result<Planned, CaseFault> {
    let Some((turn, act)) = word.split_once(':') else {
        return Err(CaseFault::form(alloc, word));
    };
    let Some((name, numbers)) = act.split_once(':') else {
        return Err(CaseFault::form(alloc, word));
    };
    let turn: u64 = parsed(alloc, turn)?;
    let act = match numbers.split_once(':') {
        Some((host, more)) => act_with(alloc, name, parsed(alloc, host)?, more)?,
        None => act_alone(alloc, name, parsed(alloc, numbers)?)?,
    };
    Ok(Planned { turn, act })
}

/// An act that has a host alone.
fn act_alone(alloc: Global, name: &str, host: u32) -> Result<Act, CaseFault> {
    match name {
        "drop" => Ok(Act::Drop { host }),
        "mute" => Ok(Act::Mute { host }),
        "elect" => Ok(Act::Elect { host }),
        "follow" => Ok(Act::Follow { host }),
        "dead" => Ok(Act::Dead { host }),
        "alive" => Ok(Act::Alive { host }),
        _ => Err(CaseFault::form(alloc, name)),
    }
}

/// An act that has more numbers.
fn act_with(alloc: Global, name: &str, host: u32, more: &str) -> Result<Act, CaseFault> {
    match name {
        "late" => Ok(Act::Late {
            host,
            turns: parsed(alloc, more)?,
        }),
        "hold" => Ok(Act::Hold {
            host,
            turns: parsed(alloc, more)?,
        }),
        "split" => Ok(Act::Split {
            host,
            bytes: parsed(alloc, more)?,
        }),
        "refuse" => refusal(alloc, host, more),
        _ => Err(CaseFault::form(alloc, name)),
    }
}

/// A refusal by its code and labels.
fn refusal(alloc: Global, host: u32, more: &str) -> Result<Act, CaseFault> {
    let Some((code, labels)) = more.split_once(':') else {
        return Err(CaseFault::form(alloc, more));
    };
    Ok(Act::Refuse {
        host,
        code: parsed(alloc, code)?,
        retryable: labels == "retryable" || labels == "both",
        no_writes: labels == "no_writes" || labels == "both",
    })
}
