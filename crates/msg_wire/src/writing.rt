ghost use Rattle.std.specs.Prelude.{◌≡◌, ◌+◌, ◌≤◌, ◌<◌, [], ◌∷◌, ◌++◌, length, false, None, Err, IfOk, OnOk, IfErr};
ghost use Rattle.std.specs.Int.{cast_unsigned};
ghost use Rattle.bson_doc.specs.Documents.{depth_of};
ghost use Rattle.bson_doc.specs.wire.Limits.{most_levels};
ghost use Rattle.bson_doc.specs.wire.Spelled.{number32};
ghost use Rattle.msg_wire.specs.Flags.{refused_bit, is_set};
ghost use Rattle.msg_wire.specs.Framing.{Framed, frame, header, message_of};
ghost use Rattle.msg_wire.specs.Limits.{most_message};

use crate::limits::{FRONT, MOST_SPELLING, OP_MSG};
use bson_doc::{Bytes, Document, Memory};
use bson_wire::{EncodeFault, MOST_LEVELS, append, size};
use byteorder::{ByteOrder, LittleEndian};
use std::alloc::Global;

/// The bytes of a message with one section of kind 0, whose requestID is `id` and whose responseTo is `to`.
///
/// Flag bit 0 and bits 2 to 15 must be clear. `Long` speaks of the whole message. Memory is taken once, for all of it.
pub fn write(
    alloc: Global,
    id: i32,
    to: i32,
    flags: u32,
    body: &Document,
) -> Result<Bytes, EncodeFault>
    requires known { refused_bit flags ≡ None }
    requires no_checksum { is_set flags 0 ≡ false }
    ensures ok { IfOk result (λ bytes. bytes ≡ frame id to flags body.now) }
    ensures framed { IfOk result (λ bytes. Framed bytes (message_of id to flags body.now)) }

    // Each fault comes exactly where the document has it, and is answered whatever the memory.
    ensures fits { OnOk result
        ((depth_of body.now ≤ most_levels) × (length (frame id to flags body.now) ≤ most_message)) }
    ensures levels { most_levels < depth_of body.now → result ≡ Err EncodeFault.Deep }
    ensures deep { IfErr result (λ e. e ≡ EncodeFault.Deep → most_levels < depth_of body.now) }
    ensures size { depth_of body.now ≤ most_levels → most_message < length (frame id to flags body.now)
        → result ≡ Err EncodeFault.Long }
    ensures long { IfErr result
        (λ e. e ≡ EncodeFault.Long
        → (depth_of body.now ≤ most_levels) × (most_message < length (frame id to flags body.now))) }
{
    if body.depth() > MOST_LEVELS {
        return Err(EncodeFault::Deep);
    }
    let spelling = size(body);
    if spelling > MOST_SPELLING {
        return Err(EncodeFault::Long);
    }
    let front = front_of(alloc, spelling as usize, id, to, flags)?;
    let bytes = append(front, body)?;
    Ok(Bytes::from_vec(bytes))
}

/// What stands in front of the document of a message with one section of kind 0, whose requestID is `id` and whose responseTo is `to`: the
/// header, flagBits and the section's kind; with room for the document, which has so many bytes.
pub fn front_of(
    alloc: Global,
    spelling: usize,
    id: i32,
    to: i32,
    flags: u32,
) -> Result<Vec<u8>, Memory>
    requires { spelling + 21 ≤ most_message }
    ensures { IfOk result (λ bytes. bytes.items ≡ header (spelling + 21) id to ++ number32 flags ++ 0 ∷ []) }
{
    let total = FRONT + spelling;
    let mut out = Vec::with_capacity(alloc, total)?;
    put_header(&mut out, total as u32, id, to)?;
    put_number(&mut out, flags)?;
    out.push(0)?;
    Ok(out)
}

fn put_header(out: &mut Vec<u8>, total: u32, id: i32, to: i32) -> Result<(), Memory>
    ensures { OnOk result (out.new.items ≡ out.old.items ++ header total id to) }
{
    put_number(out, total)?;
    put_number(out, id.cast_unsigned())?;
    put_number(out, to.cast_unsigned())?;
    put_number(out, OP_MSG)
}

fn put_number(out: &mut Vec<u8>, number: u32) -> Result<(), Memory>
    ensures { OnOk result (out.new.items ≡ out.old.items ++ number32 number) }
{
    let mut bytes = [0; 4];
    LittleEndian::write_u32(&mut bytes, number);
    out.extend_from_slice(&bytes)
}
