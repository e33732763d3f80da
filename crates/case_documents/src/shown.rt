//! Documents as words, as [`documents`](crate::documents) reads them.
use bson_doc::{Document, Value};
use case_files::{Memory, push_hex};

/// Appends the elements, each with a blank in front.
#[cycle(shown)]
pub fn push_elements(line: &mut String, document: &Document) -> Result<(), Memory> {
    for (name, value) in document.elements.as_slice() {
        write!(line, " {}=", name.as_str())?;
        push_value(line, value)?;
    }
    Ok(())
}

#[cycle(shown)]
fn push_value(line: &mut String, value: &Value) -> Result<(), Memory> {
    match value {
        Value::Doc(inside) => {
            line.push_str("{")?;
            push_elements(line, inside)?;
            line.push_str(" }")
        }
        Value::Array(items) => {
            line.push_str("[")?;
            push_items(line, items.as_slice())?;
            line.push_str(" ]")
        }
        Value::Scope { code, scope } => {
            line.push_str("scope:")?;
            push_hex(line, code.as_str().as_bytes())?;
            line.push_str("{")?;
            push_elements(line, scope)?;
            line.push_str(" }")
        }
        _ => push_plain(line, value),
    }
}

#[cycle(shown)]
fn push_items(line: &mut String, items: &[Value]) -> Result<(), Memory> {
    for item in items {
        line.push_str(" ")?;
        push_value(line, item)?;
    }
    Ok(())
}

/// A value that holds no other.
fn push_plain(line: &mut String, value: &Value) -> Result<(), Memory> {
    match value {
        Value::Bool(truth) => write!(line, "{truth}"),
        Value::Null => line.push_str("null"),
        Value::Undefined => line.push_str("undefined"),
        Value::Min => line.push_str("min"),
        Value::Max => line.push_str("max"),
        Value::Int32(n) => write!(line, "int32:{n}"),
        Value::Int64(n) => write!(line, "int64:{n}"),
        Value::Date(n) => write!(line, "date:{n}"),
        Value::Stamp(n) => write!(line, "stamp:{n}"),
        _ => push_bytes(line, value),
    }
}

/// A value that is shown by its bytes.
fn push_bytes(line: &mut String, value: &Value) -> Result<(), Memory> {
    match value {
        Value::Str(text) if is_plain(text.as_str()) => write!(line, "\"{}\"", text.as_str()),
        Value::Str(text) => push_kind(line, "string:", text.as_str().as_bytes()),
        Value::Code(text) => push_kind(line, "code:", text.as_str().as_bytes()),
        Value::Symbol(text) => push_kind(line, "symbol:", text.as_str().as_bytes()),
        Value::Double(raw) => push_kind(line, "double:", raw),
        Value::Decimal(raw) => push_kind(line, "decimal:", raw),
        Value::Oid(oid) => push_kind(line, "oid:", &oid.0),
        Value::Binary { subtype, bytes } => {
            write!(line, "binary:{subtype}")?;
            push_kind(line, ":", bytes.as_slice())
        }
        Value::Regex { pattern, options } => {
            push_kind(line, "regex:", pattern.as_str().as_bytes())?;
            push_kind(line, ":", options.as_str().as_bytes())
        }
        Value::DbPointer { space, oid } => {
            push_kind(line, "pointer:", space.as_str().as_bytes())?;
            push_kind(line, ":", &oid.0)
        }
        _ => line.push_str("another"),
    }
}

fn push_kind(line: &mut String, kind: &str, bytes: &[u8]) -> Result<(), Memory> {
    line.push_str(kind)?;
    push_hex(line, bytes)
}

/// Whether the text is shown in quotes: it has graphic ASCII characters alone, and no quote.
fn is_plain(text: &str) -> bool {
    !text.is_empty()
        && text
            .bytes()
            .all(|byte| byte.is_ascii_graphic() && byte != b'"')
}
