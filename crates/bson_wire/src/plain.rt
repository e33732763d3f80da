//! Values that hold no document, by their kind.

ghost use Rattle.std.specs.Prelude.{◌≤◌, length, IfOk};
ghost use Rattle.bson_doc.specs.wire.Limits.{most_bytes};
ghost use Rattle.bson_doc.specs.wire.Reading.{Gives, plain_at};

use crate::BsonFault;
use crate::fixed::{bool_of, date_of, decimal_of, double_of, int32_of, int64_of, oid_of, stamp_of};
use crate::span::Span;
use crate::varying::{binary_of, code_of, pointer_of, regex_of, str_of, symbol_of};
use bson_doc::{PlainKind, Value};
use std::alloc::Global;

/// A value of a kind that holds no document.
#[tactic(auto, unfolding(bson_doc::specs::wire::Reading::plain_at))]
pub fn plain_of(
    alloc: Global,
    kind: PlainKind,
    span: Span,
    bytes: &[u8],
) -> Result<(Value, &[u8]), BsonFault>
    requires within { length bytes.now ≤ span.end }
    requires small { span.end ≤ most_bytes }
    ensures gives { Gives (λ x. (x.0, x.1.now)) result (plain_at span.start span.end kind bytes.now) }
    ensures rest { IfOk result (λ x. length x.1.now ≤ length bytes.now) }
{
    match kind {
        PlainKind::Double => double_of(span, bytes),
        PlainKind::Str => str_of(alloc, span, bytes),
        PlainKind::Binary => binary_of(alloc, span, bytes),
        PlainKind::Undefined => Ok((Value::Undefined, bytes)),
        PlainKind::Oid => oid_of(span, bytes),
        PlainKind::Bool => bool_of(span, bytes),
        PlainKind::Date => date_of(span, bytes),
        PlainKind::Null => Ok((Value::Null, bytes)),
        PlainKind::Regex => regex_of(alloc, span, bytes),
        PlainKind::DbPointer => pointer_of(alloc, span, bytes),
        PlainKind::Code => code_of(alloc, span, bytes),
        PlainKind::Symbol => symbol_of(alloc, span, bytes),
        PlainKind::Int32 => int32_of(span, bytes),
        PlainKind::Stamp => stamp_of(span, bytes),
        PlainKind::Int64 => int64_of(span, bytes),
        PlainKind::Decimal => decimal_of(span, bytes),
        PlainKind::Max => Ok((Value::Max, bytes)),
        PlainKind::Min => Ok((Value::Min, bytes)),
    }
}
