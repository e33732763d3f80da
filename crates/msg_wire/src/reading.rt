ghost use Rattle.std.specs.Prelude.{◌≡◌, ◌≢◌, ◌≤◌, ℕ, List, ◌++◌, length, take, Some, None, IfOk, IfErr, OnOk, Ok, Err, MatchResult};
ghost use Rattle.msg_wire.specs.declared.message.Message.{Message};
ghost use Rattle.msg_wire.specs.declared.fault.MsgFault.{MsgFault};
ghost use Rattle.msg_wire.specs.Asking.{IsWhole};
ghost use Rattle.msg_wire.specs.Framing.{Framed};
ghost use Rattle.msg_wire.specs.Limits.{least_message, most_message};
ghost use Rattle.msg_wire.specs.Places.{flag_bits_at};
ghost use Rattle.msg_wire.specs.Reading.{number_at, header_at, checked_flags, message_at, need_of, flaw};
ghost use Rattle.msg_wire.specs.Reading as spec;
ghost use Rattle.msg_wire.specs.Steps.{Gives};
ghost use Rattle.msg_wire.specs.Flags.{refused_bit};

use crate::fields::{number, signed};
use crate::flags::{checksum_size_of, refused_bit_of};
use crate::limits::{
    FLAG_BITS, HEADER, LEAST_BYTES, MOST_BYTES, OP_CODE, OP_MSG, REQUEST_ID, RESPONSE_TO, SECTIONS,
};
use crate::sections::sections_of;
use crate::{Message, MsgFault};
use bson_wire::BsonFault;
use std::alloc::Global;

/// The messageLength at the front of the bytes, where four bytes are there and it is from 26 to 48,000,000.
pub fn need(bytes: &[u8]) -> Option<u32>
    ensures { result ≡ need_of bytes.now }
{
    if bytes.len() < 4 {
        return None;
    }
    let total = number(bytes, 0);
    (LEAST_BYTES..=MOST_BYTES).contains(&total).then_some(total)
}

/// Reads the message at the front of the bytes. Bytes behind it do not matter ([`settled`](crate::laws::settled)), and a header
/// that is out of order is refused before more than its 16 bytes are there.
pub fn read(alloc: Global, bytes: &[u8]) -> Result<Message, MsgFault>
    // What is read is framed so.
    ensures found { IfOk result
        (λ m. (m.length ≤ length bytes.now) × Framed (take m.length bytes.now) m) }

    // What is framed so is read, whatever follows, unless memory runs out.
    ensures only { (text more : List ℕ) (message : Message)
        → bytes.now ≡ text ++ more → Framed text message
        → MatchResult result (λ m. m ≡ message) (λ e. e ≡ MsgFault.Memory) }

    // An Ok comes only where the bytes have no flaw, and a fault is the first one that is met.
    ensures sound { OnOk result (flaw bytes.now ≡ None) }
    ensures fault { IfErr result (λ e. e ≢ MsgFault.Memory → flaw bytes.now ≡ Some e) }
    ensures body { (at : ℕ) → result ≢ Err (MsgFault.Body at BsonFault.Memory) }

    // Where the bytes are as many as their header says, the message is all of them, and no more are asked for.
    ensures whole { IsWhole bytes.now
        → MatchResult result (λ m. Framed bytes.now m) (λ e. (n : ℕ) → e ≢ MsgFault.Short n) }

    // What is wrong with the header, that bytes are missing, or that a flag is refused, is answered whatever the memory.
    ensures header { (e : MsgFault) → header_at bytes.now ≡ Err e → result ≡ Err e }
    ensures flags { (total bit : ℕ)
        → header_at bytes.now ≡ Ok total → refused_bit (number_at flag_bits_at bytes.now) ≡ Some bit
        → result ≡ Err (MsgFault.Flags bit) }
{
    whole(alloc, bytes)
}

#[tactic(auto, unfolding(crate::specs::Reading::read))]
fn whole(alloc: Global, bytes: &[u8]) -> Result<Message, MsgFault>
    ensures gives { Gives (λ m. m) result (spec.read bytes.now) }
    ensures header { (e : MsgFault) → header_at bytes.now ≡ Err e → result ≡ Err e }
    ensures flags { (total bit : ℕ)
        → header_at bytes.now ≡ Ok total → refused_bit (number_at flag_bits_at bytes.now) ≡ Some bit
        → result ≡ Err (MsgFault.Flags bit) }
{
    let total = header_of(bytes)?;
    message_of(alloc, &bytes[..total as usize])
}

#[tactic(auto, unfolding(crate::specs::Reading::header_at))]
fn header_of(bytes: &[u8]) -> Result<u32, MsgFault>
    ensures gives { Gives (λ n. n) result (header_at bytes.now) }
    ensures exact { result ≡ header_at bytes.now }
    ensures whole { IfOk result (λ n. n ≤ length bytes.now) }
    ensures least { IfOk result (λ n. least_message ≤ n) }
    ensures most { IfOk result (λ n. n ≤ most_message) }
{
    if bytes.len() < HEADER {
        return Err(MsgFault::Short {
            need: HEADER as u32,
        });
    }
    let total = number(bytes, 0);
    if !(LEAST_BYTES..=MOST_BYTES).contains(&total) {
        return Err(MsgFault::Length {
            got: total.cast_signed(),
        });
    }
    let code = number(bytes, OP_CODE);
    if code != OP_MSG {
        return Err(MsgFault::Opcode {
            got: code.cast_signed(),
        });
    }
    if bytes.len() < total as usize {
        return Err(MsgFault::Short { need: total });
    }
    Ok(total)
}

#[tactic(auto, unfolding(crate::specs::Reading::message_at))]
fn message_of(alloc: Global, bytes: &[u8]) -> Result<Message, MsgFault>
    requires least { least_message ≤ length bytes.now }
    requires most { length bytes.now ≤ most_message }
    ensures gives { Gives (λ m. m) result (message_at bytes.now) }
    ensures flags { (bit : ℕ) → refused_bit (number_at flag_bits_at bytes.now) ≡ Some bit
        → result ≡ Err (MsgFault.Flags bit) }
{
    let flags = flags_of(number(bytes, FLAG_BITS))?;
    let length = bytes.len() as u32;
    let (body, sequences) = sections_of(
        alloc,
        checksum_size_of(flags),
        length,
        &bytes[SECTIONS..],
    )?;
    Ok(Message {
        id: signed(bytes, REQUEST_ID),
        to: signed(bytes, RESPONSE_TO),
        flags,
        body,
        sequences,
        length,
    })
}

fn flags_of(flags: u32) -> Result<u32, MsgFault>
    ensures gives { Gives (λ n. n) result (checked_flags flags (refused_bit flags)) }
    ensures exact { result ≡ checked_flags flags (refused_bit flags) }
{
    match refused_bit_of(flags) {
        Some(bit) => Err(MsgFault::Flags { bit }),
        None => Ok(flags),
    }
}
