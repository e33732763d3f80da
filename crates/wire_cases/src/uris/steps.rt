//! The steps, each by its first word:
//!
//! - `uri [TEXT]` reads a connection string;
//! - `plain HOST[,HOST..] [set=NAME] [db=NAME]` makes plain settings;
//! - `copy` copies the settings;
//! - `long COUNT` reads a connection string of so many hosts, h0 and up, each of them twice.
//!
//! Texts are spelled as [`crate::uris::spelling`] says.
use crate::uris::spelling::text_of;
use crate::uris::state::State;
use bson_doc::{Rows, Text};
use case_files::{CaseFault, Words, parsed};
use conn_uri::{Settings, UriFault, distinct, parse};
use host_name::Host;
use std::alloc::Global;

/// The most bytes of a connection string.
const MOST: usize = 16_777_216;

/// The most seeds.
const MOST_SEEDS: usize = 16_777_216;

/// Takes the step of these words.
pub fn step_of(
    alloc: Global,
    state: &State,
    words: &mut Words<'_>,
) -> Result<Result<Settings, UriFault>, CaseFault> {
    let verb = words.next_as("step")?;
    match verb {
        "uri" => {
            let text = text_of(alloc, words.next().unwrap_or(""))?;
            read(alloc, text.as_str())
        }
        "plain" => plain(alloc, words),
        "copy" => match &state.told {
            Ok(settings) => Ok(Ok(settings.copy(alloc)?)),
            Err(_) => Err(CaseFault::Refused("no settings")),
        },
        "long" => {
            let count = parsed(alloc, words.next_as("count")?)?;
            long(alloc, count)
        }
        _ => Err(CaseFault::word(alloc, verb)),
    }
}

/// Reads a connection string.
fn read(alloc: Global, text: &str) -> Result<Result<Settings, UriFault>, CaseFault> {
    if text.len() > MOST {
        return Err(CaseFault::Refused("the text is too long"));
    }
    match parse(alloc, text) {
        Err(UriFault::Memory) => Err(CaseFault::Memory),
        told => Ok(told),
    }
}

/// Plain settings.
fn plain(alloc: Global, words: &mut Words<'_>) -> Result<Result<Settings, UriFault>, CaseFault> {
    let mut hosts = Rows::new(alloc);
    for text in words.next_as("hosts")?.split(',') {
        match Host::parse(alloc, text) {
            Ok(host) => hosts.push(host)?,
            Err(_) => return Err(CaseFault::form(alloc, text)),
        }
    }
    let set_name = match words.value("set") {
        Some(name) => Some(Text::from_string(text_of(alloc, name)?)),
        None => None,
    };
    let db = match words.value("db") {
        Some(name) => Text::from_string(text_of(alloc, name)?),
        None => Text::new(alloc),
    };
    let seeds = distinct(alloc, hosts.as_slice())?;
    if seeds.len() == 0 || seeds.len() > MOST_SEEDS {
        return Err(CaseFault::Refused("these are no seeds"));
    }
    Ok(Ok(Settings::plain(alloc, seeds, set_name, db)))
}

/// Reads a connection string of so many hosts, each of them twice.
fn long(alloc: Global, count: u64) -> Result<Result<Settings, UriFault>, CaseFault> {
    let mut text = String::from_str(alloc, "mongodb://h0")?;
    for number in 0..count {
        write!(&mut text, ",h{number},H{number}:27017")?;
    }
    read(alloc, text.as_str())
}
