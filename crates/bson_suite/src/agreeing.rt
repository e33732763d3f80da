//! Whether two values are one but for the order of elements.
use bson_doc::{Document, Name, Value};

/// Whether the two documents have the same names, and values that agree.
#[cycle(agreeing)]
pub fn agree(document: &Document, other: &Document) -> bool {
    document.elements.len() == other.elements.len()
        && elements_agree(document.elements.as_slice(), other)
}

/// Whether each element agrees with the one of its name.
#[cycle(agreeing)]
fn elements_agree(elements: &[(Name, Value)], other: &Document) -> bool {
    for element in elements {
        let Some(found) = other.get(element.0.as_str()) else {
            return false;
        };
        if !values_agree(&element.1, found) {
            return false;
        }
    }
    true
}

#[cycle(agreeing)]
fn values_agree(value: &Value, other: &Value) -> bool {
    match value {
        Value::Doc(document) => match other {
            Value::Doc(held) => agree(document, held),
            _ => false,
        },
        Value::Scope { code, scope } => match other {
            Value::Scope {
                code: text,
                scope: held,
            } => code.same(text) && agree(scope, held),
            _ => false,
        },
        Value::Array(items) => match other {
            Value::Array(held) => items_agree(items.as_slice(), held.as_slice()),
            _ => false,
        },
        _ => value.same(other),
    }
}

#[cycle(agreeing)]
fn items_agree(items: &[Value], others: &[Value]) -> bool {
    if items.len() != others.len() {
        return false;
    }
    for (item, other) in items.iter().zip(others.iter()) {
        if !values_agree(item, other) {
            return false;
        }
    }
    true
}
