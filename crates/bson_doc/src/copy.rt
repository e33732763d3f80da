ghost use Rattle.std.specs.Prelude.{◌≡◌, IfOk};

use crate::{Bytes, Document, Memory, Name, Rows, Value};
use std::alloc::Global;

impl Document {
    /// An equal document.
    #[cycle(copy)]
    pub fn copy(&self, alloc: Global) -> Result<Document, Memory>
        ensures equal { IfOk result (λ d. d ≡ self.now) }
    {
        let elements = copy_elements(alloc, self.elements.as_slice())?;
        Ok(Document { elements })
    }
}

impl Value {
    /// An equal value.
    #[cycle(copy)]
    pub fn copy(&self, alloc: Global) -> Result<Value, Memory>
        ensures equal { IfOk result (λ v. v ≡ self.now) }
    {
        match self {
            Value::Double(raw) => Ok(Value::Double(*raw)),
            Value::Str(text) => Ok(Value::Str(text.copy(alloc)?)),
            Value::Doc(inner) => Ok(Value::Doc(inner.copy(alloc)?)),
            Value::Array(items) => Ok(Value::Array(copy_values(alloc, items.as_slice())?)),
            Value::Binary { subtype, bytes } => Ok(Value::Binary {
                subtype: *subtype,
                bytes: Bytes::take(alloc, bytes.as_slice())?,
            }),
            Value::Undefined => Ok(Value::Undefined),
            Value::Oid(oid) => Ok(Value::Oid(*oid)),
            Value::Bool(truth) => Ok(Value::Bool(*truth)),
            Value::Date(millis) => Ok(Value::Date(*millis)),
            Value::Null => Ok(Value::Null),
            Value::Regex { pattern, options } => Ok(Value::Regex {
                pattern: pattern.copy(alloc)?,
                options: options.copy(alloc)?,
            }),
            Value::DbPointer { space, oid } => Ok(Value::DbPointer {
                space: space.copy(alloc)?,
                oid: *oid,
            }),
            Value::Code(code) => Ok(Value::Code(code.copy(alloc)?)),
            Value::Symbol(symbol) => Ok(Value::Symbol(symbol.copy(alloc)?)),
            Value::Scope { code, scope } => Ok(Value::Scope {
                code: code.copy(alloc)?,
                scope: scope.copy(alloc)?,
            }),
            Value::Int32(n) => Ok(Value::Int32(*n)),
            Value::Stamp(stamp) => Ok(Value::Stamp(*stamp)),
            Value::Int64(n) => Ok(Value::Int64(*n)),
            Value::Decimal(raw) => Ok(Value::Decimal(*raw)),
            Value::Min => Ok(Value::Min),
            Value::Max => Ok(Value::Max),
        }
    }
}

#[cycle(copy)]
fn copy_elements(alloc: Global, elements: &[(Name, Value)]) -> Result<Rows<(Name, Value)>, Memory>
    ensures { IfOk result (λ copies. copies ≡ elements.now) }
{
    let mut copies = Rows::new(alloc);
    for (name, value) in elements {
        copies.push((name.copy(alloc)?, value.copy(alloc)?))?;
    }
    Ok(copies)
}

#[cycle(copy)]
fn copy_values(alloc: Global, values: &[Value]) -> Result<Rows<Value>, Memory>
    ensures { IfOk result (λ copies. copies ≡ values.now) }
{
    let mut copies = Rows::new(alloc);
    for value in values {
        copies.push(value.copy(alloc)?)?;
    }
    Ok(copies)
}
