use crate::bytes::facts::{elements, written};
use crate::bytes::faults::{push_bytes, push_msg_fault};
use crate::bytes::frames::Frame;
use case_documents::push_elements;
use case_files::{CaseFault, Memory};
use msg_wire::{Message, MsgFault, need, read};
use std::alloc::Global;

/// How many bytes a header has.
const HEADER: usize = 16;

/// The fact of that name about bytes of a message: `reads`, which is `reads whole` or `reads FAULT`, the same of the bytes
/// with five zeros behind, `longer`, and of their header alone, `header`; how many bytes the header asks for, `needs`. Of a
/// message that is read, `id`, `to`, `flags`, `length`, its document, `body`, its sequences of documents, `sequences`, and how
/// its document is written, `writes`.
pub fn message_fact(alloc: Global, bytes: &[u8], name: &str) -> Result<Option<String>, CaseFault> {
    match name {
        "reads" => Ok(Some(reading(alloc, "reads", bytes)?)),
        "longer" => {
            let mut longer = Vec::from_slice(alloc, bytes)?;
            longer.extend_from_slice(&[0, 0, 0, 0, 0])?;
            Ok(Some(reading(alloc, "longer", &longer)?))
        }
        "header" if bytes.len() >= HEADER => {
            Ok(Some(reading(alloc, "header", &bytes[..HEADER])?))
        }
        "needs" => Ok(Some(match need(bytes) {
            Some(count) => format!(in alloc; "needs {count}")?,
            None => String::from_str(alloc, "needs unknown")?,
        })),
        _ => match read(alloc, bytes) {
            Ok(message) => read_fact(alloc, &message, name),
            Err(MsgFault::Memory) => Err(CaseFault::Memory),
            Err(_) => Ok(None),
        },
    }
}

fn reading(alloc: Global, name: &str, bytes: &[u8]) -> Result<String, CaseFault> {
    let mut line = format!(in alloc; "{name} ")?;
    match read(alloc, bytes) {
        Ok(_) => line.push_str("whole")?,
        Err(fault) => push_msg_fault(&mut line, &fault)?,
    }
    Ok(line)
}

fn read_fact(alloc: Global, message: &Message, name: &str) -> Result<Option<String>, CaseFault> {
    match name {
        "id" => Ok(Some(format!(in alloc; "id {}", message.id)?)),
        "to" => Ok(Some(format!(in alloc; "to {}", message.to)?)),
        "flags" => Ok(Some(format!(in alloc; "flags {:08x}", message.flags)?)),
        "length" => Ok(Some(format!(in alloc; "length {}", message.length)?)),
        "body" => Ok(Some(elements(alloc, "body", &message.body)?)),
        "sequences" => Ok(Some(sequences(alloc, message)?)),
        "writes" => Ok(Some(rewritten(alloc, message)?)),
        _ => Ok(None),
    }
}

/// `sequences NAME[ { ELEMENT.. } .. ] ..`.
fn sequences(alloc: Global, message: &Message) -> Result<String, Memory> {
    let mut line = String::from_str(alloc, "sequences")?;
    for sequence in message.sequences.as_slice() {
        write!(&mut line, " {}[", sequence.name.as_str())?;
        for document in sequence.docs.as_slice() {
            line.push_str(" {")?;
            push_elements(&mut line, document)?;
            line.push_str(" }")?;
        }
        line.push_str(" ]")?;
    }
    Ok(line)
}

/// `writes HEX..`, the bytes of the message's document with its header.
fn rewritten(alloc: Global, message: &Message) -> Result<String, CaseFault> {
    let frame = Frame {
        id: message.id,
        to: message.to,
        flags: message.flags,
    };
    let mut line = String::from_str(alloc, "writes")?;
    match written(alloc, &message.body, frame)? {
        Ok(bytes) => push_bytes(&mut line, bytes.as_slice())?,
        Err(_) => line.push_str(" nothing")?,
    }
    Ok(line)
}
