//! The steps, each by its first word:
//!
//! - `document [id=N] [to=N] [flags=HEX] ELEMENT..` is a document, with the header that it is written with as a message;
//! - `levels KIND COUNT` is one of so many levels, the one element `a` each: `documents`, `arrays` or `scopes`;
//! - `decode HEX..` are bytes that a document is read from;
//! - `wrapped KIND TIMES HEX..` are such bytes inside so many documents or arrays, by their type byte;
//! - `raw HEX..` are bytes that a message is read from;
//! - `message [total=N] [code=N] [flags=HEX] HEX..` are those of a message with id 7 to the id 1 and these sections, whose
//!   length is that of its bytes where no total is given;
//! - `deep LEVELS` are those of a message whose document has so many levels, each under the empty name.
use crate::bytes::frames::{Frame, deep, message, number};
use crate::bytes::levels::{levels, wrapped};
use crate::bytes::state::State;
use case_documents::document;
use case_files::{CaseFault, Words, hex_bytes, parsed};
use std::alloc::Global;

/// The opCode of OP_MSG.
const OP_MSG: u32 = 2013;

/// Takes the step of these words.
pub fn step_of(alloc: Global, words: &mut Words<'_>) -> Result<State, CaseFault> {
    let verb = words.next_as("step")?;
    match verb {
        "document" => {
            let frame = Frame {
                id: words.number(alloc, "id")?.unwrap_or(1),
                to: words.number(alloc, "to")?.unwrap_or(0),
                flags: number(alloc, words.value("flags"), 0)?,
            };
            Ok(State::Document(document(alloc, words)?, frame))
        }
        "levels" => {
            let kind = words.next_as("kind")?;
            let count = parsed(alloc, words.next_as("count")?)?;
            Ok(State::Document(levels(alloc, kind, count)?, Frame::PLAIN))
        }
        "decode" => Ok(State::Bytes(bytes(alloc, words)?)),
        "wrapped" => {
            let kind = parsed(alloc, words.next_as("kind")?)?;
            let times = parsed(alloc, words.next_as("times")?)?;
            let inner = bytes(alloc, words)?;
            Ok(State::Bytes(wrapped(alloc, kind, times, &inner)?))
        }
        _ => step_of_message(alloc, verb, words),
    }
}

fn step_of_message(alloc: Global, verb: &str, words: &mut Words<'_>) -> Result<State, CaseFault> {
    match verb {
        "raw" => Ok(State::Message(bytes(alloc, words)?)),
        "message" => {
            let total = words.number(alloc, "total")?;
            let code = words.number(alloc, "code")?.unwrap_or(OP_MSG);
            let flags = number(alloc, words.value("flags"), 0)?;
            let sections = bytes(alloc, words)?;
            Ok(State::Message(message(alloc, total, code, flags, &sections)?))
        }
        "deep" => {
            let levels = parsed(alloc, words.next_as("levels")?)?;
            Ok(State::Message(deep(alloc, levels)?))
        }
        _ => Err(CaseFault::word(alloc, verb)),
    }
}

/// The bytes of all words that are left.
fn bytes(alloc: Global, words: &mut Words<'_>) -> Result<Vec<u8>, CaseFault> {
    let mut bytes = Vec::new(alloc);
    for word in words.rest(alloc) {
        bytes.extend_from_slice(&hex_bytes(alloc, word)?)?;
    }
    Ok(bytes)
}
