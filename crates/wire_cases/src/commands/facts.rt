//! The facts, each by its first word:
//!
//! - of a command its document's bytes, `sends HEX..`, how many they are, `length N`, or for both `too large SIZE MOST`;
//!   whether it is a write, `write TRUTH`, and one that may be sent again, `retry TRUTH`; and `copy`, the bytes that a copy of
//!   it sends;
//! - of what is sent without a command `sends` and `length`;
//! - of a reply those of [`readings`](crate::commands::readings).
use crate::commands::asked::Asked;
use crate::commands::readings::reading_fact;
use crate::commands::state::State;
use bson_doc::Document;
use bson_wire::{EncodeFault, encode, size};
use case_files::{CaseFault, Memory};
use cmd_build::{BuildFault, Command, append, is_retryable, is_write, measure};
use std::alloc::Global;

/// How many bytes a message has beside its document: a header of sixteen, four of flags, the section's kind.
const AROUND_DOCUMENT: u64 = 21;

/// The fact of that name.
pub fn fact_of(alloc: Global, state: &State, name: &str) -> Result<Option<String>, CaseFault> {
    match state {
        State::Nothing => Ok(None),
        State::Asked(asked) => command_fact(alloc, asked, name),
        State::Sent(document) => sent_fact(alloc, document, name),
        State::Reply(reply) => reading_fact(alloc, reply, name),
    }
}

fn command_fact(alloc: Global, asked: &Asked, name: &str) -> Result<Option<String>, CaseFault> {
    let fact = match name {
        "sends" => built(alloc, asked, &asked.command, "sends")?,
        "copy" => built(alloc, asked, &asked.command.copy(alloc)?, "copy")?,
        "length" => length(alloc, asked)?,
        "write" => format!(in alloc; "write {}", is_write(&asked.command))?,
        "retry" => format!(in alloc; "retry {}", is_retryable(&asked.command))?,
        _ => return Ok(None),
    };
    Ok(Some(fact))
}

/// The bytes that the command sends, with what is given, behind the fact's name.
fn built(alloc: Global, asked: &Asked, command: &Command, name: &str) -> Result<String, CaseFault> {
    let given = &asked.given;
    let db = given.client.as_str();
    let extras = given.extras();
    let time = given.time.as_ref();
    if let Err(fault) = measure(command, db, &extras, time, given.sizes) {
        return fault_text(alloc, name, fault);
    }
    match append(alloc, Vec::new(alloc), command, db, &extras, time) {
        Ok(bytes) => Ok(line_of(alloc, name, bytes.as_slice())?),
        Err(EncodeFault::Deep) => Ok(format!(in alloc; "{name} too deep")?),
        Err(EncodeFault::Long) => Ok(format!(in alloc; "{name} too long")?),
        Err(EncodeFault::Memory) => Err(CaseFault::Memory),
    }
}

/// How many bytes the command's document has.
fn length(alloc: Global, asked: &Asked) -> Result<String, CaseFault> {
    let given = &asked.given;
    let db = given.client.as_str();
    let time = given.time.as_ref();
    match measure(&asked.command, db, &given.extras(), time, given.sizes) {
        Ok(size) => Ok(format!(in alloc; "length {}", size.saturating_sub(AROUND_DOCUMENT))?),
        Err(fault) => fault_text(alloc, "length", fault),
    }
}

fn fault_text(alloc: Global, name: &str, fault: BuildFault) -> Result<String, CaseFault> {
    match fault {
        BuildFault::TooLarge { size, most } => {
            Ok(format!(in alloc; "{name} too large {size} {most}")?)
        }
        BuildFault::Memory => Err(CaseFault::Memory),
    }
}

fn sent_fact(alloc: Global, document: &Document, name: &str) -> Result<Option<String>, CaseFault> {
    match name {
        "sends" => Ok(Some(spelled(alloc, "sends", document)?)),
        "length" => Ok(Some(format!(in alloc; "length {}", size(document))?)),
        _ => Ok(None),
    }
}

/// The document's bytes behind the fact's name.
fn spelled(alloc: Global, name: &str, document: &Document) -> Result<String, Memory> {
    match encode(alloc, document) {
        Ok(bytes) => line_of(alloc, name, bytes.as_slice()),
        Err(_) => String::from_str(alloc, name),
    }
}

/// Bytes behind the fact's name.
fn line_of(alloc: Global, name: &str, bytes: &[u8]) -> Result<String, Memory> {
    let mut line = String::from_str(alloc, name)?;
    for byte in bytes {
        write!(line, " {byte:02x}")?;
    }
    Ok(line)
}
