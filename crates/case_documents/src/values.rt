use bson_doc::{Bytes, Name, Oid, Text, Value};
use case_files::{CaseFault, hex_bytes, parsed};
use std::alloc::Global;

/// The value of a word: `true`, `false`, `null`, `undefined`, `min`, `max`; a text in quotes, without blanks; or its kind, a
/// colon and the rest. Numbers are `int32`, `int64`, `date` and `stamp`; bytes in hexadecimal are `double` and `decimal`,
/// the lowest first, `oid`, `string`, `code` and `symbol`, `binary:SUBTYPE:HEX`, `regex:HEX:HEX` and `pointer:HEX:HEX`.
pub fn plain_value(alloc: Global, word: &str) -> Result<Value, CaseFault> {
    match word {
        "true" => return Ok(Value::Bool(true)),
        "false" => return Ok(Value::Bool(false)),
        "null" => return Ok(Value::Null),
        "undefined" => return Ok(Value::Undefined),
        "min" => return Ok(Value::Min),
        "max" => return Ok(Value::Max),
        _ => {}
    }
    if let Some(text) = word
        .strip_prefix('"')
        .and_then(|rest| rest.strip_suffix('"'))
    {
        return Ok(Value::Str(Text::take(alloc, text)?));
    }
    let Some((kind, rest)) = word.split_once(':') else {
        return Err(CaseFault::form(alloc, word));
    };
    match kind {
        "int32" => Ok(Value::Int32(parsed(alloc, rest)?)),
        "int64" => Ok(Value::Int64(parsed(alloc, rest)?)),
        "date" => Ok(Value::Date(parsed(alloc, rest)?)),
        "stamp" => Ok(Value::Stamp(parsed(alloc, rest)?)),
        _ => value_of_bytes(alloc, word, kind, rest),
    }
}

/// A value that is written as bytes.
fn value_of_bytes(alloc: Global, word: &str, kind: &str, rest: &str) -> Result<Value, CaseFault> {
    match kind {
        "double" => Ok(Value::Double(fixed(alloc, rest)?)),
        "decimal" => Ok(Value::Decimal(fixed(alloc, rest)?)),
        "oid" => Ok(Value::Oid(Oid(fixed(alloc, rest)?))),
        "string" => Ok(Value::Str(text(alloc, rest)?)),
        "code" => Ok(Value::Code(text(alloc, rest)?)),
        "symbol" => Ok(Value::Symbol(text(alloc, rest)?)),
        _ => value_of_two(alloc, word, kind, rest),
    }
}

/// A value that is written as two parts.
fn value_of_two(alloc: Global, word: &str, kind: &str, rest: &str) -> Result<Value, CaseFault> {
    let Some((first, second)) = rest.split_once(':') else {
        return Err(CaseFault::form(alloc, word));
    };
    match kind {
        "binary" => Ok(Value::Binary {
            subtype: parsed(alloc, first)?,
            bytes: Bytes::from_vec(hex_bytes(alloc, second)?),
        }),
        "regex" => Ok(Value::Regex {
            pattern: name_of(alloc, text(alloc, first)?)?,
            options: name_of(alloc, text(alloc, second)?)?,
        }),
        "pointer" => Ok(Value::DbPointer {
            space: text(alloc, first)?,
            oid: Oid(fixed(alloc, second)?),
        }),
        _ => Err(CaseFault::form(alloc, word)),
    }
}

/// So many bytes as are wanted.
fn fixed<const N: usize>(alloc: Global, word: &str) -> Result<[u8; N], CaseFault> {
    let bytes = hex_bytes(alloc, word)?;
    match bytes.as_slice().try_into() {
        Ok(bytes) => Ok(bytes),
        Err(_) => Err(CaseFault::form(alloc, word)),
    }
}

/// The text of these bytes.
pub fn text(alloc: Global, word: &str) -> Result<Text, CaseFault> {
    let bytes = hex_bytes(alloc, word)?;
    match std::str::from_utf8(bytes.as_slice()) {
        Ok(text) => Ok(Text::take(alloc, text)?),
        Err(_) => Err(CaseFault::form(alloc, word)),
    }
}

/// The name of this text.
pub fn name(alloc: Global, text: &str) -> Result<Name, CaseFault> {
    name_of(alloc, Text::take(alloc, text)?)
}

fn name_of(alloc: Global, text: Text) -> Result<Name, CaseFault> {
    match Name::new(text) {
        Ok(name) => Ok(name),
        Err(_) => Err(CaseFault::form(alloc, "name")),
    }
}
