//! Members of JSON objects.
use crate::Fault;
use serde_json::{Map, Value};
use std::alloc::Global;

/// The members of an object.
pub fn object(alloc: Global, value: &Value) -> Result<&Map<String, Value>, Fault> {
    match value {
        Value::Object(members) => Ok(members),
        _ => Err(Fault::told(alloc, "an object is wanted")),
    }
}

/// The items of an array.
pub fn array(alloc: Global, value: &Value) -> Result<&[Value], Fault> {
    match value {
        Value::Array(items) => Ok(items.as_slice()),
        _ => Err(Fault::told(alloc, "an array is wanted")),
    }
}

/// A text.
pub fn text(alloc: Global, value: &Value) -> Result<&str, Fault> {
    match value {
        Value::String(text) => Ok(text.as_str()),
        _ => Err(Fault::told(alloc, "a text is wanted")),
    }
}

/// A whole number without a sign.
pub fn number(alloc: Global, value: &Value) -> Result<u64, Fault> {
    match value.as_u64() {
        Some(number) => Ok(number),
        None => Err(Fault::told(alloc, "a whole number is wanted")),
    }
}

/// The member of that name, which must be there.
pub fn member<'a>(alloc: Global, value: &'a Value, name: &str) -> Result<&'a Value, Fault> {
    match value.get(name) {
        Some(found) => Ok(found),
        None => Err(Fault::told(alloc, format_args!("no {name}"))),
    }
}

/// The items of the member of that name; none where it is absent.
pub fn items<'a>(alloc: Global, value: &'a Value, name: &str) -> Result<&'a [Value], Fault> {
    match value.get(name) {
        Some(found) => array(alloc, found),
        None => Ok(&[]),
    }
}

/// The text of the member of that name, which must be there.
pub fn text_member<'a>(alloc: Global, value: &'a Value, name: &str) -> Result<&'a str, Fault> {
    text(alloc, member(alloc, value, name)?)
}

/// The whole number of the member of that name; none where it is absent.
pub fn number_member(alloc: Global, value: &Value, name: &str) -> Result<Option<u64>, Fault> {
    match value.get(name) {
        Some(found) => Ok(Some(number(alloc, found)?)),
        None => Ok(None),
    }
}
