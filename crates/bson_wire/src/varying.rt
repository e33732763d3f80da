//! Values of any size that hold no document.

ghost use Rattle.std.specs.Prelude.{◌≡◌, ◌≤◌, length, IfOk};
ghost use Rattle.bson_doc.specs.wire.Limits.{most_bytes};
ghost use Rattle.bson_doc.specs.wire.Reading.{Gives, plain_at};

use crate::BsonFault;
use crate::parts::{byte_of, bytes_of, length_of, name_of, place, raw, string_of, taken_name};
use crate::span::Span;
use bson_doc::{Bytes, Oid, PlainKind, Value};
use std::alloc::Global;

/// A text.
#[tactic(auto, unfolding(bson_doc::specs::wire::Reading::plain_at))]
pub fn str_of(alloc: Global, span: Span, bytes: &[u8]) -> Result<(Value, &[u8]), BsonFault>
    requires within { length bytes.now ≤ span.end }
    requires small { span.end ≤ most_bytes }
    ensures gives { Gives (λ x. (x.0, x.1.now)) result
        (plain_at span.start span.end PlainKind.Str bytes.now) }
    ensures rest { IfOk result (λ x. length x.1.now ≤ length bytes.now) }
{
    let (text, rest) = string_of(alloc, span.end, bytes)?;
    Ok((Value::Str(text), rest))
}

/// JavaScript code.
#[tactic(auto, unfolding(bson_doc::specs::wire::Reading::plain_at))]
pub fn code_of(alloc: Global, span: Span, bytes: &[u8]) -> Result<(Value, &[u8]), BsonFault>
    requires within { length bytes.now ≤ span.end }
    requires small { span.end ≤ most_bytes }
    ensures gives { Gives (λ x. (x.0, x.1.now)) result
        (plain_at span.start span.end PlainKind.Code bytes.now) }
    ensures rest { IfOk result (λ x. length x.1.now ≤ length bytes.now) }
{
    let (text, rest) = string_of(alloc, span.end, bytes)?;
    Ok((Value::Code(text), rest))
}

/// A symbol.
#[tactic(auto, unfolding(bson_doc::specs::wire::Reading::plain_at))]
pub fn symbol_of(alloc: Global, span: Span, bytes: &[u8]) -> Result<(Value, &[u8]), BsonFault>
    requires within { length bytes.now ≤ span.end }
    requires small { span.end ≤ most_bytes }
    ensures gives { Gives (λ x. (x.0, x.1.now)) result
        (plain_at span.start span.end PlainKind.Symbol bytes.now) }
    ensures rest { IfOk result (λ x. length x.1.now ≤ length bytes.now) }
{
    let (text, rest) = string_of(alloc, span.end, bytes)?;
    Ok((Value::Symbol(text), rest))
}

/// Bytes with a subtype.
#[tactic(auto, unfolding(bson_doc::specs::wire::Reading::plain_at, bson_doc::specs::wire::Reading::binary_at))]
pub fn binary_of(alloc: Global, span: Span, bytes: &[u8]) -> Result<(Value, &[u8]), BsonFault>
    requires within { length bytes.now ≤ span.end }
    requires small { span.end ≤ most_bytes }
    ensures gives { Gives (λ x. (x.0, x.1.now)) result
        (plain_at span.start span.end PlainKind.Binary bytes.now) }
    ensures rest { IfOk result (λ x. length x.1.now ≤ length bytes.now) }
{
    let at = place(span.end, bytes);
    let (count, behind) = length_of(0, 0, span.end, bytes)?;
    let (subtype, behind) = byte_of(at, behind)?;
    let (held, rest) = bytes_of(at, count, behind)?;
    let bytes = Bytes::from_vec(Vec::from_slice(alloc, held)?);
    Ok((Value::Binary { subtype, bytes }, rest))
}

/// A regular expression: its pattern and its options.
#[tactic(auto, unfolding(bson_doc::specs::wire::Reading::plain_at, bson_doc::specs::wire::Reading::regex_at))]
pub fn regex_of(alloc: Global, span: Span, bytes: &[u8]) -> Result<(Value, &[u8]), BsonFault>
    requires within { length bytes.now ≤ span.end }
    requires small { span.end ≤ most_bytes }
    ensures gives { Gives (λ x. (x.0, x.1.now)) result
        (plain_at span.start span.end PlainKind.Regex bytes.now) }
    ensures rest { IfOk result (λ x. length x.1.now ≤ length bytes.now) }
{
    let (pattern, behind) = name_of(span.start, span.end, bytes)?;
    let (options, rest) = name_of(span.start, span.end, behind)?;
    let pattern = taken_name(alloc, pattern)?;
    let options = taken_name(alloc, options)?;
    Ok((Value::Regex { pattern, options }, rest))
}

/// A pointer into a collection.
#[tactic(auto, unfolding(bson_doc::specs::wire::Reading::plain_at, bson_doc::specs::wire::Reading::pointer_at))]
pub fn pointer_of(alloc: Global, span: Span, bytes: &[u8]) -> Result<(Value, &[u8]), BsonFault>
    requires within { length bytes.now ≤ span.end }
    requires small { span.end ≤ most_bytes }
    ensures gives { Gives (λ x. (x.0, x.1.now)) result
        (plain_at span.start span.end PlainKind.DbPointer bytes.now) }
    ensures rest { IfOk result (λ x. length x.1.now ≤ length bytes.now) }
{
    let (space, behind) = string_of(alloc, span.end, bytes)?;
    let (id, rest) = bytes_of(span.start, 12, behind)?;
    let oid = Oid(raw(id));
    Ok((Value::DbPointer { space, oid }, rest))
}
