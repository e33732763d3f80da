//! Sections of kind 1: document sequences.

ghost use Rattle.std.specs.Prelude.{◌≤◌, ◌+◌, ◌<◌, length, IfOk};
ghost use Rattle.bson_doc.specs.Names.{HasNoZero};
ghost use Rattle.msg_wire.specs.Sections.{name_at, sequence_at, size_at, text_at};
ghost use Rattle.msg_wire.specs.Steps.{Gives};

use crate::documents::{documents_of, place};
use crate::fields::number;
use crate::limits::{LEAST_SIZE, SIZE};
use crate::{MsgFault, Sequence};
use bson_doc::{Name, first_zero};
use std::alloc::Global;
use std::str;

/// A section of kind 1 behind its kind's byte, and the bytes behind it.
#[tactic(auto, unfolding(crate::specs::Sections::sequence_at))]
pub fn sequence_of(alloc: Global, end: u32, bytes: &[u8]) -> Result<(Sequence, &[u8]), MsgFault>
    requires { length bytes.now < end }
    ensures gives { Gives (λ x. (x.0, x.1.now)) result (sequence_at end bytes.now) }
    ensures rest { IfOk result (λ x. length x.1.now ≤ length bytes.now) }
{
    let at = place(end, bytes) - 1;
    let size = size_of(at, bytes)?;
    let (inside, after) = bytes.split_at(size);
    let (name, documents) = name_of(at, &inside[SIZE..])?;
    let name = Name::take(alloc, name)?;
    let docs = documents_of(alloc, place(end, after), documents)?;
    Ok((Sequence { name, docs }, after))
}

/// The size of the section at the place, which stands at the front of the bytes.
#[tactic(auto, unfolding(crate::specs::Sections::size_at))]
fn size_of(at: u32, bytes: &[u8]) -> Result<usize, MsgFault>
    ensures gives { Gives (λ n. n) result (size_at at bytes.now) }
    ensures least { IfOk result (λ n. 5 ≤ n) }
    ensures there { IfOk result (λ n. n ≤ length bytes.now) }
{
    if bytes.len() < SIZE {
        return Err(MsgFault::Sections { at });
    }
    let size = number(bytes, 0) as usize;
    if size < LEAST_SIZE || bytes.len() < size {
        return Err(MsgFault::Sections { at });
    }
    Ok(size)
}

/// The name of the section at the place, and the bytes behind its 00.
#[tactic(auto, unfolding(crate::specs::Sections::name_at))]
fn name_of(at: u32, bytes: &[u8]) -> Result<(&str, &[u8]), MsgFault>
    ensures gives { Gives (λ x. (x.0.now, x.1.now)) result (name_at at bytes.now) }
    ensures no_zero { IfOk result (λ x. HasNoZero x.0.now) }
    ensures rest { IfOk result (λ x. length x.1.now < length bytes.now) }
{
    let Some(zero) = first_zero(bytes) else {
        return Err(MsgFault::Sections { at });
    };
    let name = text_of(at, &bytes[..zero])?;
    Ok((name, &bytes[zero + 1..]))
}

/// All of the bytes as a text of the section at the place.
#[tactic(auto, using(crate::proofs::Names::texts))]
fn text_of(at: u32, bytes: &[u8]) -> Result<&str, MsgFault>
    ensures { Gives (λ x. x.now) result (text_at at bytes.now) }
{
    match str::from_utf8(bytes) {
        Ok(text) => Ok(text),
        Err(_) => Err(MsgFault::Sections { at }),
    }
}
