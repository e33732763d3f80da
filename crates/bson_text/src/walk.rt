//! The walk through a JSON value, which makes the value of a document or stops at the first flaw.

ghost use Rattle.std.specs.Prelude.{◌≡◌, ◌+◌, ◌^◌, ◌<◌, [], ◌∷◌, IfOk, IfErr, decimal};
ghost use Rattle.serde_json.specs.Data.{array, object};
ghost use Rattle.serde_json.specs.View.{view, number_view, items_view, members_view};
ghost use Rattle.bson_text.specs.Documents.{value_from, values_from, elements_from, number_value, integer_value};
ghost use Rattle.bson_text.specs.Flaws.{flaws, number_flaws, item_flaws, member_flaws, name_flaws};
ghost use Rattle.bson_text.specs.Reading.{Stops, StopsUnder};

use crate::flaw::{Flaw, FlawKind, Stop};
use crate::{Memory, TextFault};
use bson_doc::{Document, Name, Rows, Text, Value};
use serde_json::{Map, Number, Value as Json};
use std::alloc::Global;

/// The greatest depth of an array or object; the outermost object has depth 1.
const MOST_DEPTH: u32 = 90;

/// The document's value for a JSON value that lies at the depth.
#[cycle(walk)]
fn value_at(alloc: Global, json: &Json, depth: u32) -> Result<Value, Stop>
    requires { depth < 2 ^ 31 }
    ensures ok { IfOk result (λ v. (v ≡ value_from (view json.now)) × (flaws depth (view json.now) ≡ [])) }
    ensures stop { IfErr result (λ s. Stops s (flaws depth (view json.now))) }
{
    match json {
        Json::Null => Ok(Value::Null),
        Json::Bool(truth) => Ok(Value::Bool(*truth)),
        Json::Number(number) => number_at(number),
        Json::String(text) => match Text::take(alloc, text.as_str()) {
            Ok(text) => Ok(Value::Str(text)),
            Err(_) => Err(Stop::Memory),
        },
        Json::Array(items) => {
            if depth > MOST_DEPTH {
                return Err(Stop::Flawed(Flaw::here(FlawKind::Deep)));
            }
            match values_at(alloc, items, depth + 1) {
                Ok(values) => Ok(Value::Array(values)),
                Err(stop) => Err(stop),
            }
        }
        Json::Object(members) => {
            if depth > MOST_DEPTH {
                return Err(Stop::Flawed(Flaw::here(FlawKind::Deep)));
            }
            match document_at(alloc, members, depth + 1) {
                Ok(document) => Ok(Value::Doc(document)),
                Err(stop) => Err(stop),
            }
        }
    }
}

/// The values of an array's items, which lie at the depth.
#[cycle(walk)]
fn values_at(alloc: Global, items: &Vec<Json>, depth: u32) -> Result<Rows<Value>, Stop>
    requires { depth < 2 ^ 31 }
    ensures ok { IfOk result (λ vs. (vs ≡ values_from (items_view items.now.items)) × (item_flaws depth 0 (items_view items.now.items) ≡ [])) }
    ensures stop { IfErr result (λ s. Stops s (item_flaws depth 0 (items_view items.now.items))) }
{
    let mut values = Rows::new(alloc);
    for (place, item) in items.iter().enumerate() {
        let value = match value_at(alloc, item, depth) {
            Ok(value) => value,
            Err(stop) => return Err(stop_at_place(alloc, stop, place)),
        };
        let Ok(()) = values.push(value) else {
            return Err(Stop::Memory);
        };
    }
    Ok(values)
}

/// The document of an object's members, whose values lie at the depth.
#[cycle(walk)]
pub fn document_at(alloc: Global, members: &Map<String, Json>, depth: u32) -> Result<Document, Stop>
    requires { depth < 2 ^ 31 }
    ensures ok { IfOk result (λ d. (d.elements ≡ elements_from (members_view members.now.entries)) × (member_flaws depth (members_view members.now.entries) ≡ [])) }
    ensures stop { IfErr result (λ s. Stops s (member_flaws depth (members_view members.now.entries))) }
{
    let mut document = Document::new(alloc);
    for (key, member) in members.iter() {
        let name = match name_of(alloc, key.as_str()) {
            Ok(name) => name,
            Err(stop) => return Err(stop),
        };
        let value = match value_at(alloc, member, depth) {
            Ok(value) => value,
            Err(stop) => return Err(stop_under(alloc, stop, key.as_str())),
        };
        let Ok(()) = document.push(name, value) else {
            return Err(Stop::Memory);
        };
    }
    Ok(document)
}

/// The value of a number.
fn number_at(number: &Number) -> Result<Value, Stop>
    ensures ok { IfOk result (λ v. (v ≡ number_value (number_view number.now)) × (number_flaws (number_view number.now) ≡ [])) }
    ensures stop { IfErr result (λ s. Stops s (number_flaws (number_view number.now))) }
{
    match number.as_i64() {
        Some(n) => Ok(integer(n)),
        None if number.is_f64() => Err(Stop::Flawed(Flaw::here(FlawKind::Fraction))),
        None => Err(Stop::Flawed(Flaw::here(FlawKind::TooBig))),
    }
}

/// The value of an integer, in the smaller kind that holds it.
fn integer(n: i64) -> Value
    ensures { result ≡ integer_value n }
{
    if i32::MIN as i64 <= n && n <= i32::MAX as i64 {
        Value::Int32(n as i32)
    } else {
        Value::Int64(n)
    }
}

/// A member's name.
fn name_of(alloc: Global, key: &str) -> Result<Name, Stop>
    ensures ok { IfOk result (λ n. (n ≡ key.now) × (name_flaws key.now ≡ [])) }
    ensures stop { IfErr result (λ s. Stops s (name_flaws key.now)) }
{
    let Ok(text) = Text::take(alloc, key) else {
        return Err(Stop::Memory);
    };
    match Name::new(text) {
        Ok(name) => Ok(name),
        Err(_) => Err(stop_under(alloc, Stop::Flawed(Flaw::here(FlawKind::Nul)), key)),
    }
}

/// What stopped the walk of a member's value, as it is told of the object.
fn stop_under(alloc: Global, stop: Stop, step: &str) -> Stop
    ensures { StopsUnder step.now stop result }
{
    let Stop::Flawed(flaw) = stop else {
        return Stop::Memory;
    };
    match flaw.under(alloc, step) {
        Ok(flaw) => Stop::Flawed(flaw),
        Err(_) => Stop::Memory,
    }
}

/// What stopped the walk of an item, as it is told of the array.
fn stop_at_place(alloc: Global, stop: Stop, place: usize) -> Stop
    ensures { StopsUnder (decimal place) stop result }
{
    let mut digits = itoa::Buffer::new();
    stop_under(alloc, stop, digits.format(place))
}
