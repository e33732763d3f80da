//! Whether two values are one, told exactly in both directions. None of the calls takes memory.

ghost use Rattle.std.specs.Prelude.{◌≡◌, ◌↔◌, IsTrue};

use crate::{Bytes, Document, Name, Text, Value};

impl Text {
    /// Whether the two are one text.
    pub fn same(&self, other: &Text) -> bool
        ensures same { IsTrue result ↔ (self.now ≡ other.now) }
    {
        self.as_str() == other.as_str()
    }
}

impl Name {
    /// Whether the two are one name.
    pub fn same(&self, other: &Name) -> bool
        ensures same { IsTrue result ↔ (self.now ≡ other.now) }
    {
        self.as_str() == other.as_str()
    }
}

/// Whether the two are the same bytes.
pub fn same_bytes(bytes: &Bytes, other: &Bytes) -> bool
    ensures same { IsTrue result ↔ (bytes.now ≡ other.now) }
{
    bytes.as_slice() == other.as_slice()
}

impl Document {
    /// Whether the two are one document: the same elements in the same order. Calls nest as deep as the documents do.
    #[cycle(same)]
    pub fn same(&self, other: &Document) -> bool
        ensures same { IsTrue result ↔ (self.now ≡ other.now) }
    {
        same_elements(self.elements.as_slice(), other.elements.as_slice())
    }
}

impl Value {
    /// Whether the two are one value: of one kind, and the same in each part. Numbers of two kinds are never one, and a
    /// double is compared by its bytes.
    #[cycle(same)]
    pub fn same(&self, other: &Value) -> bool
        ensures same { IsTrue result ↔ (self.now ≡ other.now) }
    {
        match self {
            Value::Double(raw) => match other {
                Value::Double(held) => held == raw,
                _ => false,
            },
            Value::Str(text) => match other {
                Value::Str(held) => held.same(text),
                _ => false,
            },
            Value::Doc(inner) => match other {
                Value::Doc(held) => inner.same(held),
                _ => false,
            },
            Value::Array(items) => match other {
                Value::Array(held) => same_values(items.as_slice(), held.as_slice()),
                _ => false,
            },
            Value::Binary { subtype, bytes } => match other {
                Value::Binary {
                    subtype: of,
                    bytes: held,
                } => of == subtype && same_bytes(held, bytes),
                _ => false,
            },
            Value::Undefined => matches!(other, Value::Undefined),
            Value::Oid(oid) => match other {
                Value::Oid(held) => held == oid,
                _ => false,
            },
            Value::Bool(truth) => match other {
                Value::Bool(held) => held == truth,
                _ => false,
            },
            Value::Date(millis) => match other {
                Value::Date(held) => held == millis,
                _ => false,
            },
            Value::Null => matches!(other, Value::Null),
            Value::Regex { pattern, options } => match other {
                Value::Regex {
                    pattern: held,
                    options: letters,
                } => held.same(pattern) && letters.same(options),
                _ => false,
            },
            Value::DbPointer { space, oid } => match other {
                Value::DbPointer {
                    space: held,
                    oid: of,
                } => held.same(space) && of == oid,
                _ => false,
            },
            Value::Code(code) => match other {
                Value::Code(held) => held.same(code),
                _ => false,
            },
            Value::Symbol(symbol) => match other {
                Value::Symbol(held) => held.same(symbol),
                _ => false,
            },
            Value::Scope { code, scope } => match other {
                Value::Scope {
                    code: held,
                    scope: names,
                } => held.same(code) && scope.same(names),
                _ => false,
            },
            Value::Int32(n) => match other {
                Value::Int32(held) => held == n,
                _ => false,
            },
            Value::Stamp(stamp) => match other {
                Value::Stamp(held) => held == stamp,
                _ => false,
            },
            Value::Int64(n) => match other {
                Value::Int64(held) => held == n,
                _ => false,
            },
            Value::Decimal(raw) => match other {
                Value::Decimal(held) => held == raw,
                _ => false,
            },
            Value::Min => matches!(other, Value::Min),
            Value::Max => matches!(other, Value::Max),
        }
    }
}

/// Whether the two lists have the same elements in the same order.
#[cycle(same)]
fn same_elements(elements: &[(Name, Value)], others: &[(Name, Value)]) -> bool
    ensures same { IsTrue result ↔ (elements.now ≡ others.now) }
{
    if elements.len() != others.len() {
        return false;
    }
    for (place, (name, value)) in elements.iter().enumerate() {
        let (other_name, other) = &others[place];
        if !name.same(other_name) || !value.same(other) {
            return false;
        }
    }
    true
}

/// Whether the two lists have the same values in the same order.
#[cycle(same)]
fn same_values(values: &[Value], others: &[Value]) -> bool
    ensures same { IsTrue result ↔ (values.now ≡ others.now) }
{
    if values.len() != others.len() {
        return false;
    }
    for (place, value) in values.iter().enumerate() {
        if !value.same(&others[place]) {
            return false;
        }
    }
    true
}
