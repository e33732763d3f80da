//! The parts that values are made of: numbers of bytes, lengths, names and texts.

ghost use Rattle.std.specs.Prelude.{◌≡◌, ◌≤◌, ◌+◌, ◌-◌, length, IfOk, IfErr};
ghost use Rattle.bson_doc.specs.Names.{HasNoZero};
ghost use Rattle.bson_doc.specs.wire.Limits.{most_bytes};
ghost use Rattle.bson_doc.specs.wire.Reading.{Gives, bytes_at, byte_at, behind_zero, text_at, name_at, length_at, string_at};

use crate::BsonFault;
use bson_doc::{Name, Text, first_zero};
use byteorder::{ByteOrder, LittleEndian};
use std::alloc::Global;
use std::str;

/// The place where the bytes begin, which end at the place `end`.
pub fn place(end: usize, bytes: &[u8]) -> u32
    requires within { length bytes.now ≤ end }
    requires small { end ≤ most_bytes }
    ensures { result ≡ end - length bytes.now }
{
    (end - bytes.len()) as u32
}

/// So many bytes, and those behind them.
pub fn bytes_of(at: u32, n: usize, bytes: &[u8]) -> Result<(&[u8], &[u8]), BsonFault>
    ensures gives { Gives (λ x. (x.0.now, x.1.now)) result (bytes_at at n bytes.now) }
    ensures count { IfOk result (λ x. length x.0.now ≡ n) }
    ensures rest { IfOk result (λ x. length x.1.now + n ≡ length bytes.now) }
{
    if bytes.len() < n {
        return Err(BsonFault::Length { at });
    }
    Ok(bytes.split_at(n))
}

/// Bytes as an array of as many.
pub fn raw<const N: usize>(bytes: &[u8]) -> [u8; N]
    requires { length bytes.now ≡ N }
    ensures { result ≡ bytes.now }
{
    let mut raw = [0; N];
    raw.copy_from_slice(bytes);
    raw
}

/// A byte, and the bytes behind it.
pub fn byte_of(at: u32, bytes: &[u8]) -> Result<(u8, &[u8]), BsonFault>
    ensures gives { Gives (λ x. (x.0, x.1.now)) result (byte_at at bytes.now) }
    ensures rest { IfOk result (λ x. length x.1.now ≤ length bytes.now) }
{
    match bytes {
        [byte, rest @ ..] => Ok((*byte, rest)),
        [] => Err(BsonFault::Length { at }),
    }
}

/// What stands behind a 00 at the front.
pub fn zero_of(at: u32, bytes: &[u8]) -> Result<&[u8], BsonFault>
    ensures gives { Gives (λ x. x.now) result (behind_zero at bytes.now) }
    ensures rest { IfOk result (λ x. length x.now ≤ length bytes.now) }
{
    match bytes {
        [0, rest @ ..] => Ok(rest),
        _ => Err(BsonFault::Length { at }),
    }
}

/// All of the bytes as a text.
#[tactic(auto, using(bson_doc::proofs::wire::Texts::texts))]
pub fn text_of(at: u32, bytes: &[u8]) -> Result<&str, BsonFault>
    requires { at + length bytes.now ≤ most_bytes }
    ensures { Gives (λ x. x.now) result (text_at at bytes.now) }
{
    match str::from_utf8(bytes) {
        Ok(text) => Ok(text),
        Err(fault) => Err(BsonFault::Utf8 {
            at: at + fault.valid_up_to() as u32,
        }),
    }
}

/// The name of an element.
#[tactic(auto, unfolding(bson_doc::specs::wire::Reading::name_at))]
pub fn name_of(start: u32, end: usize, bytes: &[u8]) -> Result<(&str, &[u8]), BsonFault>
    requires within { length bytes.now ≤ end }
    requires small { end ≤ most_bytes }
    ensures gives { Gives (λ x. (x.0.now, x.1.now)) result (name_at start end bytes.now) }
    ensures no_zero { IfOk result (λ x. HasNoZero x.0.now) }
    ensures rest { IfOk result (λ x. length x.1.now ≤ length bytes.now) }
{
    let Some(zero) = first_zero(bytes) else {
        return Err(BsonFault::Length { at: start });
    };
    let name = text_of(place(end, bytes), &bytes[..zero])?;
    Ok((name, &bytes[zero + 1..]))
}

/// A copy of a text that is a name.
pub fn taken_name(alloc: Global, text: &str) -> Result<Name, BsonFault>
    requires { HasNoZero text.now }
    ensures ok { IfOk result (λ name. name ≡ text.now) }
    ensures err { IfErr result (λ e. e ≡ BsonFault.Memory) }
{
    let name = Name::take(alloc, text)?;
    Ok(name)
}

/// A length field: its number, and what stands behind it.
#[tactic(auto, unfolding(bson_doc::specs::wire::Reading::length_at))]
pub fn length_of(
    least: usize,
    own: usize,
    end: usize,
    bytes: &[u8],
) -> Result<(usize, &[u8]), BsonFault>
    requires within { length bytes.now ≤ end }
    requires small { end ≤ most_bytes }
    requires own { own ≤ 4 }
    ensures gives { Gives (λ x. (x.0, x.1.now)) result (length_at least own end bytes.now) }
    ensures range { IfOk result (λ x. (least ≤ x.0) × (x.0 ≤ length x.1.now + own)) }
    ensures rest { IfOk result (λ x. length x.1.now + 4 ≡ length bytes.now) }
{
    let at = place(end, bytes);
    let (number, rest) = bytes_of(at, 4, bytes)?;
    let n = LittleEndian::read_u32(number) as usize;
    if n < least || rest.len() + own < n {
        return Err(BsonFault::Length { at });
    }
    Ok((n, rest))
}

/// A text with its length in front and 00 behind.
#[tactic(auto, unfolding(bson_doc::specs::wire::Reading::string_at))]
pub fn string_of(alloc: Global, end: usize, bytes: &[u8]) -> Result<(Text, &[u8]), BsonFault>
    requires within { length bytes.now ≤ end }
    requires small { end ≤ most_bytes }
    ensures gives { Gives (λ x. (x.0, x.1.now)) result (string_at end bytes.now) }
    ensures rest { IfOk result (λ x. length x.1.now ≤ length bytes.now) }
{
    let (n, behind) = length_of(1, 0, end, bytes)?;
    let (text, after) = behind.split_at(n - 1);
    let rest = zero_of(place(end, bytes), after)?;
    let text = text_of(place(end, behind), text)?;
    Ok((Text::take(alloc, text)?, rest))
}
