//! Documents, arrays and code with a scope, and the elements and values inside them.

ghost use Rattle.std.specs.Prelude.{◌≡◌, ◌≤◌, ◌+◌, ◌∷◌, [], ◌++◌, length, take, drop, vec_len, OnOk, IfErr};
ghost use Rattle.std.specs.List.{AllByRecursion};
ghost use Rattle.bson_doc.specs.wire.Limits.{most_bytes};
ghost use Rattle.bson_doc.specs.wire.Spelled.{element, payload, scope, spelled, spelled_items, string};
ghost use Rattle.bson_wire.specs.Written.{Stops, PayloadSpells, ElementSpells};

use crate::EncodeFault;
use crate::plain_put::{kind_of, put_plain};
use crate::put::{end_document, put_bytes, put_front, put_string, set_total};
use bson_doc::{Document, Value};

/// A document.
#[cycle(writing)]
pub fn put_document(out: &mut Vec<u8>, document: &Document) -> Result<(), EncodeFault>
    ensures ok { OnOk result (out.new.items ≡ out.old.items ++ spelled document.now) }
    ensures size { OnOk result (length (spelled document.now) ≤ most_bytes) }
    ensures long { IfErr result (Stops (length (spelled document.now))) }
    ensures known { OnOk result (AllByRecursion ElementSpells document.now.elements) }
{
    let start = out.len();
    put_bytes(out, &[0; 4])?;
    for (name, value) in document.elements.as_slice() {
        put_element(out, name.as_str(), value)?;
    }
    end_document(out, start)
}

/// An array: a document whose names are "0", "1" and so on.
#[cycle(writing)]
fn put_array(out: &mut Vec<u8>, items: &[Value]) -> Result<(), EncodeFault>
    ensures ok { OnOk result (out.new.items ≡ out.old.items ++ spelled_items items.now) }
    ensures size { OnOk result (length (spelled_items items.now) ≤ most_bytes) }
    ensures long { IfErr result (Stops (length (spelled_items items.now))) }
    ensures known { OnOk result (AllByRecursion PayloadSpells items.now) }
{
    let start = out.len();
    put_bytes(out, &[0; 4])?;
    let mut digits = itoa::Buffer::new();
    for (place, value) in items.iter().enumerate() {
        put_element(out, digits.format(place), value)?;
    }
    end_document(out, start)
}

/// Code with the values of its names: a total, a string and a document.
#[cycle(writing)]
fn put_scope(out: &mut Vec<u8>, code: &str, document: &Document) -> Result<(), EncodeFault>
    ensures ok { OnOk result (out.new.items ≡ out.old.items ++ scope (string code.now) (spelled document.now)) }
    ensures size { OnOk result (length (scope (string code.now) (spelled document.now)) ≤ most_bytes) }
    ensures long { IfErr result (Stops (length (scope (string code.now) (spelled document.now)))) }
    ensures known { OnOk result (AllByRecursion ElementSpells document.now.elements) }
{
    let start = out.len();
    put_bytes(out, &[0; 4])?;
    put_string(out, code)?;
    put_document(out, document)?;
    set_total(out, start)
}

/// An element.
#[cycle(writing)]
fn put_element(out: &mut Vec<u8>, name: &str, value: &Value) -> Result<(), EncodeFault>
    ensures ok { OnOk result (out.new.items ≡ out.old.items ++ element name.now (payload value.now)) }
    ensures long { IfErr result (Stops (length (element name.now (payload value.now)))) }
    ensures known { OnOk result (PayloadSpells value.now) }
{
    put_front(out, kind_of(value), name)?;
    put_value(out, value)
}

/// The payload of a value.
#[cycle(writing)]
fn put_value(out: &mut Vec<u8>, value: &Value) -> Result<(), EncodeFault>
    ensures ok { OnOk result (out.new.items ≡ out.old.items ++ (payload value.now).1) }
    ensures long { IfErr result (Stops (length (payload value.now).1)) }
    ensures known { OnOk result (PayloadSpells value.now) }
{
    match value {
        Value::Doc(document) => put_document(out, document),
        Value::Array(items) => put_array(out, items.as_slice()),
        Value::Scope { code, scope } => put_scope(out, code.as_str(), scope),
        plain => put_plain(out, plain),
    }
}
