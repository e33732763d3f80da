//! How many bytes the spelling of a document has, without writing it.

ghost use Rattle.std.specs.Prelude.{◌≡◌, ◌+◌, ◌-◌, ◌^◌, min, length, map};
ghost use Rattle.bson_doc.specs.wire.Spelled.{numbered, payload, spelled, spelled_elements, string};
ghost use Rattle.bson_wire.specs.Written.{IsPlain};

use bson_doc::{Document, Name, Oid, Value};

/// How many bytes a document has beside its elements: its total in front, and 00 behind.
const AROUND_ELEMENTS: u64 = 5;

/// How many bytes an element has beside its name and its payload: its type byte, and 00 behind the name.
const AROUND_NAME: u64 = 2;

/// How many bytes a text has beside its own: its length in front, and 00 behind.
const AROUND_TEXT: u64 = 5;

/// How many bytes the spelling of the document has (bsonspec 1.1, document). Past u64's greatest number it stays there.
#[cycle(size)]
pub fn size(document: &Document) -> u64
    ensures size { result ≡ min (length (spelled document.now)) (2 ^ 64 - 1) }
{
    size_of_elements(document.elements.as_slice()).saturating_add(AROUND_ELEMENTS)
}

/// The elements of a document.
#[cycle(size)]
fn size_of_elements(elements: &[(Name, Value)]) -> u64
    ensures { result ≡ min (length (spelled_elements elements.now)) (2 ^ 64 - 1) }
{
    let mut total: u64 = 0;
    for (name, value) in elements {
        total = total.saturating_add(size_of_element(name.as_str(), value));
    }
    total
}

/// The elements of an array, whose names are "0", "1" and so on.
#[cycle(size)]
fn size_of_items(items: &[Value]) -> u64
    ensures { result ≡ min (length (numbered 0 (map payload items.now))) (2 ^ 64 - 1) }
{
    let mut total: u64 = 0;
    let mut digits = itoa::Buffer::new();
    for (place, value) in items.iter().enumerate() {
        total = total.saturating_add(size_of_element(digits.format(place), value));
    }
    total
}

/// An element.
#[cycle(size)]
fn size_of_element(name: &str, value: &Value) -> u64
    ensures { result ≡ min (length name.now + length (payload value.now).1 + 2) (2 ^ 64 - 1) }
{
    size_of_value(value)
        .saturating_add(name.len() as u64)
        .saturating_add(AROUND_NAME)
}

/// The payload of a value.
#[cycle(size)]
fn size_of_value(value: &Value) -> u64
    ensures { result ≡ min (length (payload value.now).1) (2 ^ 64 - 1) }
{
    match value {
        Value::Doc(document) => size(document),
        Value::Array(items) => { size_of_items(items.as_slice()).saturating_add(AROUND_ELEMENTS) }
        Value::Scope { code, scope } => size(scope)
            .saturating_add(size_of_text(code.as_str()))
            .saturating_add(4),
        plain => size_of_plain(plain),
    }
}

/// The payload of a value that holds no document.
fn size_of_plain(value: &Value) -> u64
    requires { IsPlain value.now }
    ensures { result ≡ min (length (payload value.now).1) (2 ^ 64 - 1) }
{
    match value {
        Value::Double(raw) => size_of_double(raw),
        Value::Str(text) => size_of_text(text.as_str()),
        Value::Undefined => 0,
        Value::Oid(oid) => size_of_oid(oid),
        Value::Bool(_) => 1,
        Value::Date(_) => 8,
        Value::Null => 0,
        Value::Code(text) => size_of_text(text.as_str()),
        Value::Symbol(text) => size_of_text(text.as_str()),
        Value::Int32(_) => 4,
        Value::Stamp(_) => 8,
        Value::Int64(_) => 8,
        Value::Decimal(raw) => size_of_decimal(raw),
        Value::Max => 0,
        Value::Min => 0,
        Value::DbPointer { space, oid } => {
            size_of_text(space.as_str()).saturating_add(size_of_oid(oid))
        }
        Value::Binary { subtype: _, bytes } => (bytes.len() as u64).saturating_add(5),
        Value::Regex { pattern, options } => (pattern.as_str().len() as u64)
            .saturating_add(options.as_str().len() as u64)
            .saturating_add(2),
        Value::Doc(_) | Value::Array(_) | Value::Scope { .. } => unreachable!(),
    }
}

/// A text with its length in front and 00 behind.
fn size_of_text(text: &str) -> u64
    ensures { result ≡ min (length (string text.now)) (2 ^ 64 - 1) }
{
    (text.len() as u64).saturating_add(AROUND_TEXT)
}

/// The bytes of a double.
fn size_of_double(raw: &[u8; 8]) -> u64
    ensures { result ≡ length raw.now }
{
    raw.len() as u64
}

/// The bytes of a decimal number.
fn size_of_decimal(raw: &[u8; 16]) -> u64
    ensures { result ≡ length raw.now }
{
    raw.len() as u64
}

/// The bytes of an ObjectId.
fn size_of_oid(oid: &Oid) -> u64
    ensures { result ≡ length oid.now.0 }
{
    let raw: &[u8] = &oid.0;
    raw.len() as u64
}
