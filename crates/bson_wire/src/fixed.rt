//! Values of a fixed size.

ghost use Rattle.std.specs.Prelude.{◌≡◌, ◌≤◌, length, IfOk};
ghost use Rattle.bson_doc.specs.wire.Limits.{most_bytes};
ghost use Rattle.bson_doc.specs.wire.Reading.{Gives, plain_at};

use crate::BsonFault;
use crate::parts::{bytes_of, place, raw};
use crate::span::Span;
use bson_doc::{Oid, PlainKind, Value};
use byteorder::{ByteOrder, LittleEndian};

/// A double, as its eight bytes.
#[tactic(auto, unfolding(bson_doc::specs::wire::Reading::plain_at))]
pub fn double_of(span: Span, bytes: &[u8]) -> Result<(Value, &[u8]), BsonFault>
    ensures gives { Gives (λ x. (x.0, x.1.now)) result
        (plain_at span.start span.end PlainKind.Double bytes.now) }
    ensures rest { IfOk result (λ x. length x.1.now ≤ length bytes.now) }
{
    let (inside, rest) = bytes_of(span.start, 8, bytes)?;
    Ok((Value::Double(raw(inside)), rest))
}

/// An ObjectId.
#[tactic(auto, unfolding(bson_doc::specs::wire::Reading::plain_at))]
pub fn oid_of(span: Span, bytes: &[u8]) -> Result<(Value, &[u8]), BsonFault>
    ensures gives { Gives (λ x. (x.0, x.1.now)) result
        (plain_at span.start span.end PlainKind.Oid bytes.now) }
    ensures rest { IfOk result (λ x. length x.1.now ≤ length bytes.now) }
{
    let (inside, rest) = bytes_of(span.start, 12, bytes)?;
    Ok((Value::Oid(Oid(raw(inside))), rest))
}

/// A truth value.
#[tactic(auto, unfolding(bson_doc::specs::wire::Reading::plain_at, bson_doc::specs::wire::Reading::bool_at))]
pub fn bool_of(span: Span, bytes: &[u8]) -> Result<(Value, &[u8]), BsonFault>
    requires within { length bytes.now ≤ span.end }
    requires small { span.end ≤ most_bytes }
    ensures gives { Gives (λ x. (x.0, x.1.now)) result
        (plain_at span.start span.end PlainKind.Bool bytes.now) }
    ensures rest { IfOk result (λ x. length x.1.now ≤ length bytes.now) }
{
    match bytes {
        [] => Err(BsonFault::Length { at: span.start }),
        [0, rest @ ..] => Ok((Value::Bool(false), rest)),
        [1, rest @ ..] => Ok((Value::Bool(true), rest)),
        [byte, ..] => Err(BsonFault::Bool {
            at: place(span.end, bytes),
            byte: *byte,
        }),
    }
}

/// A UTC datetime.
#[tactic(auto, unfolding(bson_doc::specs::wire::Reading::plain_at))]
pub fn date_of(span: Span, bytes: &[u8]) -> Result<(Value, &[u8]), BsonFault>
    ensures gives { Gives (λ x. (x.0, x.1.now)) result
        (plain_at span.start span.end PlainKind.Date bytes.now) }
    ensures rest { IfOk result (λ x. length x.1.now ≤ length bytes.now) }
{
    let (inside, rest) = bytes_of(span.start, 8, bytes)?;
    Ok((Value::Date(LittleEndian::read_i64(inside)), rest))
}

/// A signed number of four bytes.
#[tactic(auto, unfolding(bson_doc::specs::wire::Reading::plain_at))]
pub fn int32_of(span: Span, bytes: &[u8]) -> Result<(Value, &[u8]), BsonFault>
    ensures gives { Gives (λ x. (x.0, x.1.now)) result
        (plain_at span.start span.end PlainKind.Int32 bytes.now) }
    ensures rest { IfOk result (λ x. length x.1.now ≤ length bytes.now) }
{
    let (inside, rest) = bytes_of(span.start, 4, bytes)?;
    Ok((Value::Int32(LittleEndian::read_i32(inside)), rest))
}

/// A timestamp.
#[tactic(auto, unfolding(bson_doc::specs::wire::Reading::plain_at))]
pub fn stamp_of(span: Span, bytes: &[u8]) -> Result<(Value, &[u8]), BsonFault>
    ensures gives { Gives (λ x. (x.0, x.1.now)) result
        (plain_at span.start span.end PlainKind.Stamp bytes.now) }
    ensures rest { IfOk result (λ x. length x.1.now ≤ length bytes.now) }
{
    let (inside, rest) = bytes_of(span.start, 8, bytes)?;
    Ok((Value::Stamp(LittleEndian::read_u64(inside)), rest))
}

/// A signed number of eight bytes.
#[tactic(auto, unfolding(bson_doc::specs::wire::Reading::plain_at))]
pub fn int64_of(span: Span, bytes: &[u8]) -> Result<(Value, &[u8]), BsonFault>
    ensures gives { Gives (λ x. (x.0, x.1.now)) result
        (plain_at span.start span.end PlainKind.Int64 bytes.now) }
    ensures rest { IfOk result (λ x. length x.1.now ≤ length bytes.now) }
{
    let (inside, rest) = bytes_of(span.start, 8, bytes)?;
    Ok((Value::Int64(LittleEndian::read_i64(inside)), rest))
}

/// A decimal number, as its sixteen bytes.
#[tactic(auto, unfolding(bson_doc::specs::wire::Reading::plain_at))]
pub fn decimal_of(span: Span, bytes: &[u8]) -> Result<(Value, &[u8]), BsonFault>
    ensures gives { Gives (λ x. (x.0, x.1.now)) result
        (plain_at span.start span.end PlainKind.Decimal bytes.now) }
    ensures rest { IfOk result (λ x. length x.1.now ≤ length bytes.now) }
{
    let (inside, rest) = bytes_of(span.start, 16, bytes)?;
    Ok((Value::Decimal(raw(inside)), rest))
}
