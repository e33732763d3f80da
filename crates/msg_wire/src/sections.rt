//! The sections of a message.

ghost use Rattle.std.specs.Prelude.{ℕ, ◌≤◌, ◌<◌, length, None, IfOk};
ghost use Rattle.msg_wire.specs.Sections.{closed_at, section_at, sections_at};
ghost use Rattle.msg_wire.specs.Steps.{Gives};

use crate::documents::{document_of, place};
use crate::section::Section;
use crate::sequences::sequence_of;
use crate::{MsgFault, Sequence};
use bson_doc::{Document, Rows};
use std::alloc::Global;

/// The document of the section of kind 0, and the sections of kind 1, in bytes that end at the place `end` of the message
/// with `spare` bytes of a checksum.
pub fn sections_of(
    alloc: Global,
    spare: usize,
    end: u32,
    bytes: &[u8],
) -> Result<(Document, Rows<Sequence>), MsgFault>
    requires { length bytes.now ≤ end }
    ensures { (fuel : ℕ) → length bytes.now < fuel
        → Gives (λ x. x) result (sections_at fuel spare end None bytes.now) }
{
    let mut body = None;
    let mut sequences = Rows::new(alloc);
    let mut rest = bytes;
    while rest.len() > spare {
        let (section, after) = section_of(alloc, body.is_some(), end, rest)?;
        rest = after;
        match section {
            Section::Body(document) => body = Some(document),
            Section::Sequence(sequence) => sequences.push(sequence)?,
        }
    }
    let body = closed_of(spare, end, rest.len(), body)?;
    Ok((body, sequences))
}

/// A section, where one of kind 0 was found before or was not, and the bytes behind it.
#[tactic(auto, unfolding(crate::specs::Sections::section_at))]
fn section_of(
    alloc: Global,
    found: bool,
    end: u32,
    bytes: &[u8],
) -> Result<(Section, &[u8]), MsgFault>
    requires { length bytes.now ≤ end }
    ensures gives { Gives (λ x. (x.0, x.1.now)) result (section_at found end bytes.now) }
    ensures rest { IfOk result (λ x. length x.1.now < length bytes.now) }
{
    match bytes {
        [0, rest @ ..] if !found => {
            let (document, after) = document_of(alloc, place(end, rest), rest)?;
            Ok((Section::Body(document), after))
        }
        [1, rest @ ..] => {
            let (sequence, after) = sequence_of(alloc, end, rest)?;
            Ok((Section::Sequence(sequence), after))
        }
        _ => Err(MsgFault::Sections {
            at: place(end, bytes),
        }),
    }
}

/// The body, where the sections ended with so many bytes left, of which `spare` are the checksum's.
fn closed_of(
    spare: usize,
    end: u32,
    left: usize,
    body: Option<Document>,
) -> Result<Document, MsgFault>
    requires { left ≤ end }
    ensures { Gives (λ x. x) result (closed_at spare end left body) }
{
    let at = end - left as u32;
    if left < spare {
        return Err(MsgFault::Sections { at });
    }
    match body {
        Some(document) => Ok(document),
        None => Err(MsgFault::Sections { at }),
    }
}
