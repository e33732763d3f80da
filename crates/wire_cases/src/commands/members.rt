//! What stands in a step's document.
use bson_doc::{Bytes, Document, Lsid, Name, Text, Value};
use case_files::CaseFault;
use std::alloc::Global;

/// The first value of that name.
pub fn member<'a>(says: &'a Document, name: &str) -> Option<&'a Value> {
    says.get(name)
}

/// Each name is one of these, and none stands twice.
pub fn knows(alloc: Global, says: &Document, names: &[&str]) -> Result<(), CaseFault> {
    for (place, (name, _)) in says.elements.as_slice().iter().enumerate() {
        let name = name.as_str();
        if !names.iter().any(|known| *known == name) || stands_before(says, place, name) {
            return Err(CaseFault::word(alloc, name));
        }
    }
    Ok(())
}

/// Whether the name stands ahead of that place.
fn stands_before(says: &Document, place: usize, name: &str) -> bool {
    says.elements
        .as_slice()
        .iter()
        .take(place)
        .any(|(found, _)| found.as_str() == name)
}

/// The truth value, false where it is absent.
pub fn truth(value: Option<&Value>) -> Result<bool, CaseFault> {
    match value {
        Some(Value::Bool(truth)) => Ok(*truth),
        Some(_) => Err(CaseFault::Refused("a truth value is of another kind")),
        None => Ok(false),
    }
}

/// The text.
pub fn text(value: &Value) -> Result<&Text, CaseFault> {
    value
        .text()
        .ok_or(CaseFault::Refused("a text is of another kind"))
}

/// The text as a name.
pub fn name(alloc: Global, value: &Value) -> Result<Name, CaseFault> {
    let found = text(value)?;
    match Name::new(found.copy(alloc)?) {
        Ok(name) => Ok(name),
        Err(_) => Err(CaseFault::form(alloc, found.as_str())),
    }
}

/// The document: an int32 stands for one of so many bytes, `{a: Binary}`, at least 13.
pub fn document(alloc: Global, value: Option<&Value>) -> Result<Document, CaseFault> {
    match value {
        Some(Value::Doc(document)) => Ok(document.copy(alloc)?),
        Some(Value::Int32(size)) => document_of_size(alloc, *size),
        Some(_) => Err(CaseFault::Refused("a document is of another kind")),
        None => Err(CaseFault::Missing("document")),
    }
}

/// The document `{a: Binary}` of so many bytes: 13 stand round the held ones.
fn document_of_size(alloc: Global, size: i32) -> Result<Document, CaseFault> {
    let Ok(size) = usize::try_from(size) else {
        return Err(CaseFault::Refused("a size below 0"));
    };
    let Some(held) = size.checked_sub(13) else {
        return Err(CaseFault::Refused("a size below 13"));
    };
    let mut document = Document::new(alloc);
    let bytes = Bytes::from_vec(vec![in alloc; 0u8; held]?);
    document.put(alloc, "a", Value::Binary { subtype: 0, bytes })?;
    Ok(document)
}

/// The session's id: sixteen bytes of the subtype 4.
pub fn lsid(value: &Value) -> Result<Lsid, CaseFault> {
    let Value::Binary { subtype: 4, bytes } = value else {
        return Err(CaseFault::Refused("a session's id is of another kind"));
    };
    match bytes.as_slice().try_into() {
        Ok(bytes) => Ok(Lsid(bytes)),
        Err(_) => Err(CaseFault::Refused("a session's id has another length")),
    }
}
