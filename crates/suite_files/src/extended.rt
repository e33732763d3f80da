//! Documents from MongoDB Extended JSON, and values as texts.
use crate::wrapped::{raw_of, unwrapped};
use crate::{Fault, Memory};
use bson_doc::{Document, Name, Rows, Text, Value};
use serde_json::{Map, Number, Value as Json};
use std::alloc::Global;

/// The value that a JSON value stands for. The elements of a document come in the order of their names' bytes, since JSON
/// objects are held so.
#[cycle(extended)]
pub fn value_of(alloc: Global, json: &Json) -> Result<Value, Fault> {
    match json {
        Json::Null => Ok(Value::Null),
        Json::Bool(truth) => Ok(Value::Bool(*truth)),
        Json::Number(number) => number_of(alloc, number),
        Json::String(text) => Ok(Value::Str(Text::take(alloc, text.as_str())?)),
        Json::Array(items) => Ok(Value::Array(values_of(alloc, items)?)),
        Json::Object(members) => {
            let document = elements_of(alloc, members)?;
            unwrapped(alloc, document)
        }
    }
}

/// The values of an array's items.
#[cycle(extended)]
fn values_of(alloc: Global, items: &Vec<Json>) -> Result<Rows<Value>, Fault> {
    let mut values = Rows::new(alloc);
    for item in items.iter() {
        values.push(value_of(alloc, item)?)?;
    }
    Ok(values)
}

/// The document of an object's members.
#[cycle(extended)]
fn elements_of(alloc: Global, members: &Map<String, Json>) -> Result<Document, Fault> {
    let mut document = Document::new(alloc);
    for (key, member) in members.iter() {
        let name = name_of(alloc, key.as_str())?;
        let value = value_of(alloc, member)?;
        document.push(name, value)?;
    }
    Ok(document)
}

/// The document that a JSON object stands for, as a whole.
pub fn document_of(alloc: Global, json: &Json) -> Result<Document, Fault> {
    match value_of(alloc, json)? {
        Value::Doc(document) => Ok(document),
        _ => Err(Fault::told(alloc, "a document is wanted")),
    }
}

/// The document that a text of Extended JSON stands for.
pub fn document_in(alloc: Global, text: &str) -> Result<Document, Fault> {
    match Json::from_str(alloc, text) {
        Ok(json) => document_of(alloc, &json),
        Err(e) if e.is_memory() => Err(Fault::Memory),
        Err(_) => Err(Fault::told(alloc, "is no JSON")),
    }
}

/// The value of a number that is written plain.
fn number_of(alloc: Global, number: &Number) -> Result<Value, Fault> {
    if let Some(n) = number.as_i64() {
        return Ok(match i32::try_from(n) {
            Ok(small) => Value::Int32(small),
            Err(_) => Value::Int64(n),
        });
    }
    match number.as_f64() {
        Some(x) => Ok(Value::Double(raw_of(x))),
        None => Err(Fault::told(alloc, "a number is out of range")),
    }
}

fn name_of(alloc: Global, key: &str) -> Result<Name, Fault> {
    match Name::new(Text::take(alloc, key)?) {
        Ok(name) => Ok(name),
        Err(_) => Err(Fault::told(alloc, "a name has a zero byte")),
    }
}

/// A value as text, as facts of tests are compared: a text as it is, a number in digits, an ObjectId in hexadecimal digits, a
/// topology version as `PROCESS/COUNTER`, null as `none`.
pub fn value_text(alloc: Global, value: &Value) -> Result<String, Fault> {
    let text = match value {
        Value::Null => String::from_str(alloc, "none")?,
        Value::Str(text) => String::from_str(alloc, text.as_str())?,
        Value::Bool(truth) => format!(in alloc; "{truth}")?,
        Value::Int32(n) => format!(in alloc; "{n}")?,
        Value::Int64(n) => format!(in alloc; "{n}")?,
        Value::Oid(oid) => hex::encode(alloc, oid.0.as_slice())?,
        Value::Doc(document) => return version_text(alloc, document),
        _ => return Err(Fault::told(alloc, "a value that no fact has")),
    };
    Ok(text)
}

fn version_text(alloc: Global, document: &Document) -> Result<String, Fault> {
    match (document.get("processId"), document.get("counter")) {
        (Some(Value::Oid(process)), Some(Value::Int64(counter))) => {
            let process = hex::encode(alloc, process.0.as_slice())?;
            Ok(format!(in alloc; "{}/{counter}", process.as_str())?)
        }
        _ => Err(Fault::told(alloc, "a value that no fact has")),
    }
}

/// Bytes in hexadecimal digits, 0 to 9 and a to f.
pub fn digits_of(alloc: Global, bytes: &[u8]) -> Result<String, Memory> {
    hex::encode(alloc, bytes)
}

/// The bytes that hexadecimal digits give, in upper or lower case.
pub fn bytes_of(alloc: Global, digits: &str) -> Result<Vec<u8>, Fault> {
    match hex::decode(alloc, digits) {
        Ok(bytes) => Ok(bytes),
        Err(_) => Err(Fault::told(alloc, "hexadecimal digits are wanted")),
    }
}
