//! Documents inside the sections of a message.

ghost use Rattle.std.specs.Prelude.{ℕ, ◌≡◌, ◌≤◌, ◌+◌, ◌-◌, ◌<◌, length, IfOk};
ghost use Rattle.msg_wire.specs.Sections.{body_fault, document_at, documents_at};
ghost use Rattle.msg_wire.specs.Steps.{Gives};
ghost use Rattle.bson_doc.specs.wire.Reading as documents;

use crate::MsgFault;
use bson_doc::{Document, Rows};
use bson_wire::{BsonFault, decode};
use std::alloc::Global;

/// The place where the bytes begin, which end at the place `end`.
pub fn place(end: u32, bytes: &[u8]) -> u32
    requires { length bytes.now ≤ end }
    ensures { result ≡ end - length bytes.now }
{
    end - bytes.len() as u32
}

/// The document at the front of the bytes, which stands at the place, and the bytes behind it.
pub fn document_of(alloc: Global, at: u32, bytes: &[u8]) -> Result<(Document, &[u8]), MsgFault>
    ensures gives { Gives (λ x. (x.0, x.1.now)) result (document_at at (documents.read bytes.now)) }
    ensures rest { IfOk result (λ x. length x.1.now + 5 ≤ length bytes.now) }
{
    match decode(alloc, bytes) {
        Ok((document, n)) => Ok((document, &bytes[n..])),
        Err(fault) => Err(body_fault_of(at, fault)),
    }
}

fn body_fault_of(at: u32, fault: BsonFault) -> MsgFault
    ensures { result ≡ body_fault at fault }
{
    match fault {
        BsonFault::Memory => MsgFault::Memory,
        _ => MsgFault::Body { at, fault },
    }
}

/// Documents one after another, which are all of the bytes.
pub fn documents_of(alloc: Global, end: u32, bytes: &[u8]) -> Result<Rows<Document>, MsgFault>
    requires { length bytes.now ≤ end }
    ensures { (fuel : ℕ) → length bytes.now < fuel
        → Gives (λ x. x) result (documents_at fuel end bytes.now) }
{
    let mut docs = Rows::new(alloc);
    let mut rest = bytes;
    while !rest.is_empty() {
        let (document, after) = document_of(alloc, place(end, rest), rest)?;
        docs.push(document)?;
        rest = after;
    }
    Ok(docs)
}
