//! Documents, arrays and code with a scope, and the values, elements and bodies inside them. Each reader goes from the left to the right.

ghost use Rattle.std.specs.Prelude.{ℕ, ◌≡◌, ◌≤◌, ◌+◌, ◌-◌, ◌<◌, length, take, drop, IfOk};
ghost use Rattle.bson_doc.specs.wire.Limits.{most_bytes};
ghost use Rattle.bson_doc.specs.wire.Reading.{Gives, unnamed_element, unnamed_elements, unnamed_document, kind_at, value_at, scope_at, element_at, elements_at, body_at, document_at};

use crate::BsonFault;
use crate::parts::{length_of, name_of, place, string_of, taken_name, zero_of};
use crate::plain::plain_of;
use crate::span::Span;
use bson_doc::{Document, Kind, Name, Rows, Text, Value};
use std::alloc::Global;

/// The elements of a document of that total and the bytes from its last one on, of the bytes behind its length.
fn split_body(total: usize, bytes: &[u8]) -> (&[u8], &[u8])
    requires least { 5 ≤ total }
    requires within { total ≤ length bytes.now + 4 }
    ensures elements { result.0.now ≡ take (total - 5) bytes.now }
    ensures count { length result.0.now + 5 ≡ total }
    ensures last { result.1.now ≡ drop (total - 5) bytes.now }
{
    bytes.split_at(total - 5)
}

/// The kind of the type byte at a place.
fn kind_of(start: u32, at: u32, byte: u8) -> Result<Kind, BsonFault>
    ensures { Gives (λ kind. kind) result (kind_at start at byte) }
{
    match Kind::of_byte(byte) {
        Some(kind) => Ok(kind),
        None if byte == 0 => Err(BsonFault::Length { at: start }),
        None => Err(BsonFault::Kind { at, byte }),
    }
}

/// A document inside another, where so many levels are left.
#[cycle(reading)]
#[tactic(auto, unfolding(bson_doc::specs::wire::Reading::document_at))]
fn document_of(
    alloc: Global,
    levels: u32,
    end: usize,
    bytes: &[u8],
) -> Result<(Document, &[u8]), BsonFault>
    requires within { length bytes.now ≤ end }
    requires small { end ≤ most_bytes }
    ensures gives { Gives (λ x. (x.0, x.1.now)) result (document_at levels end bytes.now) }
    ensures rest { IfOk result (λ x. length x.1.now ≤ length bytes.now) }
{
    let start = place(end, bytes);
    if levels == 0 {
        return Err(BsonFault::Deep { at: start });
    }
    let (total, behind) = length_of(5, 4, end, bytes)?;
    body_of(alloc, levels - 1, start, total, behind)
}

/// What stands behind the length field of a document.
#[cycle(reading)]
#[tactic(auto, unfolding(bson_doc::specs::wire::Reading::body_at))]
pub fn body_of(
    alloc: Global,
    levels: u32,
    start: u32,
    total: usize,
    bytes: &[u8],
) -> Result<(Document, &[u8]), BsonFault>
    requires least { 5 ≤ total }
    requires within { total ≤ length bytes.now + 4 }
    requires small { start + total ≤ most_bytes }
    ensures gives { Gives (λ x. (x.0, x.1.now)) result
        (body_at (document_at levels) start total bytes.now) }
    ensures rest { IfOk result (λ x. length x.1.now ≤ length bytes.now) }
{
    let (inside, after) = split_body(total, bytes);
    let elements = elements_of(alloc, levels, Span::of(start, total), inside)?;
    let rest = zero_of(start, after)?;
    Ok((Document { elements }, rest))
}

/// The elements of a document, which are all of the bytes.
#[cycle(reading)]
fn elements_of(
    alloc: Global,
    levels: u32,
    span: Span,
    bytes: &[u8],
) -> Result<Rows<(Name, Value)>, BsonFault>
    requires within { length bytes.now ≤ span.end }
    requires small { span.end ≤ most_bytes }
    ensures { (fuel : ℕ) → length bytes.now ≤ fuel
        → Gives (λ x. x) result (elements_at (document_at levels) fuel span.start span.end bytes.now) }
{
    let mut elements = Rows::new(alloc);
    let mut rest = bytes;
    while let [byte, behind @ ..] = rest {
        let (element, after) = element_of(alloc, levels, span, *byte, behind)?;
        elements.push(element)?;
        rest = after;
    }
    Ok(elements)
}

/// What stands behind a type byte: a name and a value.
#[cycle(reading)]
#[tactic(auto, unfolding(bson_doc::specs::wire::Reading::element_at))]
fn element_of(
    alloc: Global,
    levels: u32,
    span: Span,
    byte: u8,
    bytes: &[u8],
) -> Result<((Name, Value), &[u8]), BsonFault>
    requires within { length bytes.now < span.end }
    requires small { span.end ≤ most_bytes }
    ensures gives { Gives (λ x. (x.0, x.1.now)) result
        (element_at (document_at levels) span.start span.end byte bytes.now) }
    ensures rest { IfOk result (λ x. length x.1.now ≤ length bytes.now) }
{
    let kind = kind_of(span.start, place(span.end, bytes) - 1, byte)?;
    let (name, behind) = name_of(span.start, span.end, bytes)?;
    let name = taken_name(alloc, name)?;
    let (value, rest) = value_of(alloc, levels, span, kind, behind)?;
    Ok(((name, value), rest))
}

/// A value of a kind.
#[cycle(reading)]
#[tactic(auto, unfolding(bson_doc::specs::wire::Reading::value_at))]
fn value_of(
    alloc: Global,
    levels: u32,
    span: Span,
    kind: Kind,
    bytes: &[u8],
) -> Result<(Value, &[u8]), BsonFault>
    requires within { length bytes.now ≤ span.end }
    requires small { span.end ≤ most_bytes }
    ensures gives { Gives (λ x. (x.0, x.1.now)) result
        (value_at (document_at levels) span.start span.end kind bytes.now) }
    ensures rest { IfOk result (λ x. length x.1.now ≤ length bytes.now) }
{
    match kind {
        Kind::Doc => {
            let (document, rest) = document_of(alloc, levels, span.end, bytes)?;
            Ok((Value::Doc(document), rest))
        }
        Kind::Array => {
            let (items, rest) = array_of(alloc, levels, span.end, bytes)?;
            Ok((Value::Array(items), rest))
        }
        Kind::Scope => {
            let ((code, scope), rest) = scope_of(alloc, levels, span.end, bytes)?;
            Ok((Value::Scope { code, scope }, rest))
        }
        Kind::Plain(kind) => plain_of(alloc, kind, span, bytes),
    }
}

/// Code with the values of its names: a string and a document, which end where the total says.
#[cycle(reading)]
#[tactic(auto, unfolding(bson_doc::specs::wire::Reading::scope_at, bson_doc::specs::wire::Reading::inside_scope_at))]
fn scope_of(
    alloc: Global,
    levels: u32,
    end: usize,
    bytes: &[u8],
) -> Result<((Text, Document), &[u8]), BsonFault>
    requires within { length bytes.now ≤ end }
    requires small { end ≤ most_bytes }
    ensures gives { Gives (λ x. (x.0, x.1.now)) result (scope_at (document_at levels) end bytes.now) }
    ensures rest { IfOk result (λ x. length x.1.now ≤ length bytes.now) }
{
    let at = place(end, bytes);
    let (total, behind) = length_of(14, 4, end, bytes)?;
    let (inside, rest) = behind.split_at(total - 4);
    let inside_end = at as usize + total;
    let (code, inside) = string_of(alloc, inside_end, inside)?;
    let (scope, left) = document_of(alloc, levels, inside_end, inside)?;
    if !left.is_empty() {
        return Err(BsonFault::Length { at });
    }
    Ok(((code, scope), rest))
}

/// An array inside a document, where so many levels are left.
#[cycle(reading)]
#[tactic(auto, unfolding(bson_doc::specs::wire::Reading::document_at))]
fn array_of(
    alloc: Global,
    levels: u32,
    end: usize,
    bytes: &[u8],
) -> Result<(Rows<Value>, &[u8]), BsonFault>
    requires within { length bytes.now ≤ end }
    requires small { end ≤ most_bytes }
    ensures gives { Gives (λ x. (x.0, x.1.now)) result
        (unnamed_document (document_at levels end bytes.now)) }
    ensures rest { IfOk result (λ x. length x.1.now ≤ length bytes.now) }
{
    let start = place(end, bytes);
    if levels == 0 {
        return Err(BsonFault::Deep { at: start });
    }
    let (total, behind) = length_of(5, 4, end, bytes)?;
    array_body_of(alloc, levels - 1, start, total, behind)
}

/// What stands behind the length field of an array: elements whose names are looked at and not kept.
#[cycle(reading)]
fn array_body_of(
    alloc: Global,
    levels: u32,
    start: u32,
    total: usize,
    bytes: &[u8],
) -> Result<(Rows<Value>, &[u8]), BsonFault>
    requires least { 5 ≤ total }
    requires within { total ≤ length bytes.now + 4 }
    requires small { start + total ≤ most_bytes }
    ensures gives { Gives (λ x. (x.0, x.1.now)) result
        (unnamed_document (body_at (document_at levels) start total bytes.now)) }
    ensures rest { IfOk result (λ x. length x.1.now ≤ length bytes.now) }
{
    let (inside, after) = split_body(total, bytes);
    let items = items_of(alloc, levels, Span::of(start, total), inside)?;
    let rest = zero_of(start, after)?;
    Ok((items, rest))
}

/// The values of an array's elements, which are all of the bytes.
#[cycle(reading)]
fn items_of(alloc: Global, levels: u32, span: Span, bytes: &[u8]) -> Result<Rows<Value>, BsonFault>
    requires within { length bytes.now ≤ span.end }
    requires small { span.end ≤ most_bytes }
    ensures { (fuel : ℕ) → length bytes.now ≤ fuel
        → Gives (λ x. x) result
        (unnamed_elements (elements_at (document_at levels) fuel span.start span.end bytes.now)) }
{
    let mut items = Rows::new(alloc);
    let mut rest = bytes;
    while let [byte, behind @ ..] = rest {
        let (value, after) = item_of(alloc, levels, span, *byte, behind)?;
        items.push(value)?;
        rest = after;
    }
    Ok(items)
}

/// What stands behind a type byte in an array: a name, which is not kept, and a value.
#[cycle(reading)]
#[tactic(auto, unfolding(bson_doc::specs::wire::Reading::element_at))]
fn item_of(
    alloc: Global,
    levels: u32,
    span: Span,
    byte: u8,
    bytes: &[u8],
) -> Result<(Value, &[u8]), BsonFault>
    requires within { length bytes.now < span.end }
    requires small { span.end ≤ most_bytes }
    ensures gives { Gives (λ x. (x.0, x.1.now)) result
        (unnamed_element (element_at (document_at levels) span.start span.end byte bytes.now)) }
    ensures rest { IfOk result (λ x. length x.1.now ≤ length bytes.now) }
{
    let kind = kind_of(span.start, place(span.end, bytes) - 1, byte)?;
    let (_, behind) = name_of(span.start, span.end, bytes)?;
    value_of(alloc, levels, span, kind, behind)
}
