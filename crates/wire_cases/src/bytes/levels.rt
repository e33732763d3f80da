use bson_doc::{Document, Name, Rows, Text, Value};
use case_files::{CaseFault, Memory};
use std::alloc::Global;

/// A document of so many levels, at least one: documents, arrays or codes with a scope inside one another, each the one
/// element `a`, or the one item, of the next. The outermost level is a document.
pub fn levels(alloc: Global, kind: &str, count: u32) -> Result<Document, CaseFault> {
    match kind {
        "documents" => {
            let mut document = Document::new(alloc);
            for _ in 1..count {
                document = single(alloc, Value::Doc(document))?;
            }
            Ok(document)
        }
        "scopes" => {
            let mut document = Document::new(alloc);
            for _ in 1..count {
                let code = Text::new(alloc);
                let scope = document;
                document = single(alloc, Value::Scope { code, scope })?;
            }
            Ok(document)
        }
        "arrays" => {
            let mut array = Value::Array(Rows::new(alloc));
            for _ in 2..count {
                let mut outer = Rows::new(alloc);
                outer.push(array)?;
                array = Value::Array(outer);
            }
            Ok(single(alloc, array)?)
        }
        _ => Err(CaseFault::form(alloc, kind)),
    }
}

/// The document with the one element `a`.
fn single(alloc: Global, value: Value) -> Result<Document, CaseFault> {
    let Ok(name) = Name::new(Text::take(alloc, "a")?) else {
        return Err(CaseFault::form(alloc, "a"));
    };
    let mut document = Document::new(alloc);
    document.push(name, value)?;
    Ok(document)
}

/// The bytes put into so many documents or arrays, each of them the one element `a` of the next.
pub fn wrapped(alloc: Global, kind: u8, times: u32, inner: &[u8]) -> Result<Vec<u8>, Memory> {
    let mut bytes = Vec::from_slice(alloc, inner)?;
    for _ in 0..times {
        let total = u32::try_from(bytes.len())
            .unwrap_or(u32::MAX)
            .saturating_add(8);
        let mut outer = Vec::from_slice(alloc, &total.to_le_bytes())?;
        outer.extend_from_slice(&[kind, 97, 0])?;
        outer.extend_from_slice(&bytes)?;
        outer.push(0)?;
        bytes = outer;
    }
    Ok(bytes)
}
