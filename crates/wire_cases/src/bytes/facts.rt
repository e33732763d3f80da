//! The facts, each by its first word:
//!
//! - of bytes of a document, `reads`, which is `reads whole` or `reads FAULT`, how many bytes are read, `size`, what is read,
//!   `elements`, how that is spelled, `encodes`, and whether so, `again`;
//! - of a document how it is spelled, `encodes`, in so many bytes, `length`, or with which fault; how it is written as a
//!   message, `writes`, in so many bytes, `framed`, or with which fault; and of its spelling what is said of bytes, `reads`,
//!   `size` and `elements`;
//! - of bytes of a message those of [`message_fact`].
use crate::bytes::faults::{push_bson_fault, push_bytes, push_encode_fault};
use crate::bytes::frames::Frame;
use crate::bytes::messages::message_fact;
use crate::bytes::state::State;
use bson_doc::{Bytes, Document};
use bson_wire::{EncodeFault, decode, encode};
use case_documents::push_elements;
use case_files::{CaseFault, Memory};
use msg_wire::write;
use std::alloc::Global;

/// The flags that a message may be written with here: none, and the bits 1 and 16.
const TWO_FLAGS: u32 = 0x0001_0002;

/// The fact of that name.
pub fn fact_of(alloc: Global, state: &State, name: &str) -> Result<Option<String>, CaseFault> {
    match state {
        State::Nothing => Ok(None),
        State::Document(document, frame) => document_fact(alloc, document, *frame, name),
        State::Bytes(bytes) => bytes_fact(alloc, bytes, name),
        State::Message(bytes) => message_fact(alloc, bytes, name),
    }
}

fn document_fact(
    alloc: Global,
    document: &Document,
    frame: Frame,
    name: &str,
) -> Result<Option<String>, CaseFault> {
    match name {
        "encodes" => Ok(Some(spelling(alloc, "encodes", encode(alloc, document))?)),
        "length" => Ok(Some(length(alloc, "length", encode(alloc, document))?)),
        "writes" => Ok(Some(spelling(alloc, "writes", written(alloc, document, frame)?)?)),
        "framed" => Ok(Some(length(alloc, "framed", written(alloc, document, frame)?)?)),
        _ => match encode(alloc, document) {
            Ok(bytes) => bytes_fact(alloc, bytes.as_slice(), name),
            Err(_) => Ok(None),
        },
    }
}

/// The message of a document.
pub fn written(
    alloc: Global,
    document: &Document,
    frame: Frame,
) -> Result<Result<Bytes, EncodeFault>, CaseFault> {
    match frame.flags {
        0 => Ok(write_plain(alloc, frame, document)),
        TWO_FLAGS => Ok(write_flagged(alloc, frame, document)),
        _ => Err(CaseFault::Refused("such flags are not written here")),
    }
}

#[tactic(auto, unfolding(msg_wire::specs::Flags::refused_bit))]
fn write_plain(alloc: Global, frame: Frame, document: &Document) -> Result<Bytes, EncodeFault> {
    write(alloc, frame.id, frame.to, 0, document)
}

#[tactic(auto, unfolding(msg_wire::specs::Flags::refused_bit))]
fn write_flagged(alloc: Global, frame: Frame, document: &Document) -> Result<Bytes, EncodeFault> {
    write(alloc, frame.id, frame.to, TWO_FLAGS, document)
}

/// The bytes or the fault, behind the fact's name.
fn spelling(
    alloc: Global,
    name: &str,
    bytes: Result<Bytes, EncodeFault>,
) -> Result<String, CaseFault> {
    let mut line = String::from_str(alloc, name)?;
    match bytes {
        Ok(bytes) => push_bytes(&mut line, bytes.as_slice())?,
        Err(fault) => {
            line.push_str(" ")?;
            push_encode_fault(&mut line, &fault)?;
        }
    }
    Ok(line)
}

/// How many bytes there are, or the fault, behind the fact's name.
fn length(
    alloc: Global,
    name: &str,
    bytes: Result<Bytes, EncodeFault>,
) -> Result<String, CaseFault> {
    let mut line = String::from_str(alloc, name)?;
    match bytes {
        Ok(bytes) => write!(&mut line, " {}", bytes.len())?,
        Err(fault) => {
            line.push_str(" ")?;
            push_encode_fault(&mut line, &fault)?;
        }
    }
    Ok(line)
}

fn bytes_fact(alloc: Global, bytes: &[u8], name: &str) -> Result<Option<String>, CaseFault> {
    let (document, size) = match decode(alloc, bytes) {
        Ok((document, size)) => (document, size),
        Err(fault) => {
            let mut line = String::from_str(alloc, "reads ")?;
            push_bson_fault(&mut line, &fault)?;
            return Ok(Some(line));
        }
    };
    match name {
        "reads" => Ok(Some(String::from_str(alloc, "reads whole")?)),
        "size" => Ok(Some(format!(in alloc; "size {size}")?)),
        "elements" => Ok(Some(elements(alloc, "elements", &document)?)),
        "encodes" => Ok(Some(spelling(alloc, "encodes", encode(alloc, &document))?)),
        "again" => Ok(Some(again(alloc, &document, bytes)?)),
        _ => Ok(None),
    }
}

/// `again the same`, where the bytes are the spelling of what is read from them, or `again another`.
fn again(alloc: Global, document: &Document, bytes: &[u8]) -> Result<String, CaseFault> {
    let text = match encode(alloc, document) {
        Ok(spelled) => {
            if spelled.as_slice() == bytes {
                "again the same"
            } else {
                "again another"
            }
        }
        Err(EncodeFault::Memory) => return Err(CaseFault::Memory),
        Err(_) => "again nothing",
    };
    Ok(String::from_str(alloc, text)?)
}

/// The document as words, behind the fact's name.
pub fn elements(alloc: Global, name: &str, document: &Document) -> Result<String, Memory> {
    let mut line = String::from_str(alloc, name)?;
    push_elements(&mut line, document)?;
    Ok(line)
}
