//! The objects of Extended JSON that stand for a value of another kind (Extended JSON, Conversion table).
use crate::Fault;
use crate::decimal::decimal_bytes;
use base64::engine::general_purpose::STANDARD;
use bson_doc::{Bytes, Document, Name, Oid, Text, Value};
use hex::FromHex;
use std::alloc::Global;
use std::str::FromStr;

/// The bytes of the double that is no number, as the corpus has it.
const NAN: [u8; 8] = [0, 0, 0, 0, 0, 0, 0xf8, 0x7f];

/// The value that an object stands for, of which the members' values were read: the document itself where it is none of the
/// objects for other kinds.
pub fn unwrapped(alloc: Global, document: Document) -> Result<Value, Fault> {
    match other_kind(alloc, &document)? {
        Some(value) => Ok(value),
        None => Ok(Value::Doc(document)),
    }
}

fn other_kind(alloc: Global, document: &Document) -> Result<Option<Value>, Fault> {
    let Some((name, value)) = document.at(0) else {
        return Ok(None);
    };
    match document.elements.len() {
        1 => of_one(alloc, name.as_str(), value),
        2 => scoped(alloc, document),
        _ => Ok(None),
    }
}

/// The value of an object with one member.
fn of_one(alloc: Global, name: &str, value: &Value) -> Result<Option<Value>, Fault> {
    match value {
        Value::Str(text) => of_text(alloc, name, text),
        Value::Doc(document) => of_document(alloc, name, document),
        Value::Int64(n) if name == "$date" => Ok(Some(Value::Date(*n))),
        Value::Int32(1) if name == "$minKey" => Ok(Some(Value::Min)),
        Value::Int32(1) if name == "$maxKey" => Ok(Some(Value::Max)),
        Value::Bool(true) if name == "$undefined" => Ok(Some(Value::Undefined)),
        _ => Ok(None),
    }
}

fn of_text(alloc: Global, name: &str, text: &Text) -> Result<Option<Value>, Fault> {
    let words = text.as_str();
    let value = match name {
        "$numberInt" => Value::Int32(parsed(alloc, words)?),
        "$numberLong" => Value::Int64(parsed(alloc, words)?),
        "$numberDouble" => Value::Double(double_bytes(alloc, words)?),
        "$numberDecimal" => match decimal_bytes(words) {
            Some(raw) => Value::Decimal(raw),
            None => return Err(Fault::told(alloc, "a decimal number is not in form")),
        },
        "$oid" => Value::Oid(oid(alloc, words)?),
        "$symbol" => Value::Symbol(text.copy(alloc)?),
        "$code" => Value::Code(text.copy(alloc)?),
        _ => return Ok(None),
    };
    Ok(Some(value))
}

fn of_document(alloc: Global, name: &str, inner: &Document) -> Result<Option<Value>, Fault> {
    match name {
        "$binary" => binary(alloc, inner),
        "$timestamp" => Ok(timestamp(inner)),
        "$regularExpression" => regex(alloc, inner),
        "$dbPointer" => pointer(alloc, inner),
        _ => Ok(None),
    }
}

/// Code with a scope.
fn scoped(alloc: Global, document: &Document) -> Result<Option<Value>, Fault> {
    match (document.get("$code"), document.get("$scope")) {
        (Some(Value::Str(code)), Some(Value::Doc(scope))) => Ok(Some(Value::Scope {
            code: code.copy(alloc)?,
            scope: scope.copy(alloc)?,
        })),
        _ => Ok(None),
    }
}

fn binary(alloc: Global, inner: &Document) -> Result<Option<Value>, Fault> {
    match (inner.get("base64"), inner.get("subType")) {
        (Some(Value::Str(text)), Some(Value::Str(subtype))) => {
            let bytes = binary_of(alloc, text.as_str(), subtype.as_str())?;
            Ok(Some(bytes))
        }
        _ => Ok(None),
    }
}

fn binary_of(alloc: Global, text: &str, subtype: &str) -> Result<Value, Fault> {
    let Ok(bytes) = STANDARD.decode(alloc, text.as_bytes()) else {
        return Err(Fault::told(alloc, "base64 is not in form"));
    };
    match <[u8; 1] as FromHex>::from_hex(subtype) {
        Ok(raw) => Ok(Value::Binary {
            subtype: raw[0],
            bytes: Bytes::from_vec(bytes),
        }),
        Err(_) => Err(Fault::told(alloc, "a subtype is not in form")),
    }
}

fn timestamp(inner: &Document) -> Option<Value> {
    let seconds = half(inner.get("t")?)?;
    let increment = half(inner.get("i")?)?;
    Some(Value::Stamp(u64::from(seconds) << 32 | u64::from(increment)))
}

/// A half of a timestamp.
fn half(value: &Value) -> Option<u32> {
    match value {
        Value::Int32(n) => u32::try_from(*n).ok(),
        Value::Int64(n) => u32::try_from(*n).ok(),
        _ => None,
    }
}

fn regex(alloc: Global, inner: &Document) -> Result<Option<Value>, Fault> {
    match (inner.get("pattern"), inner.get("options")) {
        (Some(Value::Str(pattern)), Some(Value::Str(options))) => Ok(Some(Value::Regex {
            pattern: cstring(alloc, pattern)?,
            options: cstring(alloc, options)?,
        })),
        _ => Ok(None),
    }
}

fn cstring(alloc: Global, text: &Text) -> Result<Name, Fault> {
    match Name::new(text.copy(alloc)?) {
        Ok(name) => Ok(name),
        Err(_) => Err(Fault::told(alloc, "a regular expression has a zero byte")),
    }
}

fn pointer(alloc: Global, inner: &Document) -> Result<Option<Value>, Fault> {
    match (inner.get("$ref"), inner.get("$id")) {
        (Some(Value::Str(space)), Some(Value::Oid(oid))) => Ok(Some(Value::DbPointer {
            space: space.copy(alloc)?,
            oid: *oid,
        })),
        _ => Ok(None),
    }
}

fn oid(alloc: Global, digits: &str) -> Result<Oid, Fault> {
    match <[u8; 12] as FromHex>::from_hex(digits) {
        Ok(raw) => Ok(Oid(raw)),
        Err(_) => Err(Fault::told(alloc, "an ObjectId is not in form")),
    }
}

fn double_bytes(alloc: Global, words: &str) -> Result<[u8; 8], Fault> {
    Ok(raw_of(parsed(alloc, words)?))
}

/// The bytes of a double, lowest first.
pub fn raw_of(x: f64) -> [u8; 8] {
    if x.is_nan() { NAN } else { x.to_le_bytes() }
}

fn parsed<T: FromStr>(alloc: Global, words: &str) -> Result<T, Fault>
where
    T::Err: Drop,
{
    match words.parse::<T>() {
        Ok(value) => Ok(value),
        Err(_) => Err(Fault::told(alloc, "a number is not in form")),
    }
}
