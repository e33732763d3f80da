//! What a reply says in each field, by the kind of its column; None where the field is absent, Null or at fault.
ghost use Rattle.std.specs.Prelude.{◌≡◌, ◌⊎◌, IfOk, IfSome, find};
ghost use Rattle.std.specs.Option.{option_copied};
ghost use Rattle.hello_reply.specs.Fields.{given as given_at, is_at_fault as has_fault, first_fault as fault_of, text_at, whole_at, oid_at, host_at, hosts_at, tags_at, version_at, size_at, column_of, short as short_column, bytes, documents};
ghost use Rattle.hello_reply.specs.Columns.{IsWithin};

use crate::field_name::FIELDS;
use crate::readers::{fits, host_in, hosts_in, tags_in, whole_in};
use crate::{FieldName, Memory, Tag};
use bson_doc::{Document, Oid, Rows, Text, TopologyVersion, Value};
use host_name::Host;
use std::alloc::Global;

/// The first field that is at fault.
pub(crate) fn first_fault(alloc: Global, reply: &Document) -> Result<Option<FieldName>, Memory>
    ensures { IfOk result (λ o. o ≡ fault_of reply.now.elements) }
{
    first_among(alloc, reply, &FIELDS)
}

/// The first of these fields that is at fault.
fn first_among(
    alloc: Global,
    reply: &Document,
    fields: &[FieldName],
) -> Result<Option<FieldName>, Memory>
    ensures { IfOk result (λ o. o ≡ find (λ f. has_fault f reply.now.elements) fields.now) }
{
    for field in fields {
        if is_at_fault(alloc, reply, *field)? {
            return Ok(Some(*field));
        }
    }
    Ok(None)
}

fn is_at_fault(alloc: Global, reply: &Document, field: FieldName) -> Result<bool, Memory>
    ensures { IfOk result (λ b. b ≡ has_fault field reply.now.elements) }
{
    match given(reply, field) {
        Some(value) => Ok(!fits(alloc, field.column(), value)?),
        None => Ok(false),
    }
}

/// The field's value, None where the reply has no such field, or Null.
pub(crate) fn given(reply: &Document, field: FieldName) -> Option<&Value>
    ensures { option_copied result ≡ given_at field reply.now.elements }
{
    match reply.get(field.name()) {
        Some(Value::Null) => None,
        found => found,
    }
}

/// The text of a field that is a string.
pub(crate) fn text(
    alloc: Global,
    reply: &Document,
    field: FieldName,
) -> Result<Option<Text>, Memory>
    ensures { IfOk result (λ o. o ≡ text_at field reply.now.elements) }
{
    let Some(value) = given(reply, field) else {
        return Ok(None);
    };
    match value.text() {
        Some(text) => Ok(Some(text.copy(alloc)?)),
        None => Ok(None),
    }
}

/// The number of a field that is a whole number.
pub(crate) fn whole(reply: &Document, field: FieldName) -> Option<i64>
    ensures value { result ≡ whole_at field reply.now.elements }
    ensures bounds { IfSome result (IsWithin (column_of field)) }
{
    whole_in(field.column(), given(reply, field)?)
}

/// The number of a field that is a whole number of 32 bits.
pub(crate) fn short(reply: &Document, field: FieldName) -> Option<i32>
    requires { column_of field ≡ short_column }
    ensures { result ≡ whole_at field reply.now.elements }
{
    let number = whole(reply, field)?;
    Some(number as i32)
}

/// The number of a field that is a count of bytes or documents.
pub(crate) fn size(reply: &Document, field: FieldName) -> Option<u32>
    requires { (column_of field ≡ bytes) ⊎ (column_of field ≡ documents) }
    ensures { result ≡ size_at field reply.now.elements }
{
    let number = whole(reply, field)?;
    Some(number as u32)
}

/// The ObjectId of a field that is one.
pub(crate) fn oid(reply: &Document, field: FieldName) -> Option<Oid>
    ensures { result ≡ oid_at field reply.now.elements }
{
    given(reply, field)?.oid()
}

/// The host of a field that spells one.
pub(crate) fn host(
    alloc: Global,
    reply: &Document,
    field: FieldName,
) -> Result<Option<Host>, Memory>
    ensures { IfOk result (λ o. o ≡ host_at field reply.now.elements) }
{
    match given(reply, field) {
        Some(value) => host_in(alloc, value),
        None => Ok(None),
    }
}

/// The hosts of a field that is an array of them; none where it is absent.
pub(crate) fn hosts(alloc: Global, reply: &Document, field: FieldName) -> Result<Rows<Host>, Memory>
    ensures { IfOk result (λ hosts. hosts ≡ hosts_at field reply.now.elements) }
{
    let Some(value) = given(reply, field) else {
        return Ok(Rows::new(alloc));
    };
    match hosts_in(alloc, value)? {
        Some(hosts) => Ok(hosts),
        None => Ok(Rows::new(alloc)),
    }
}

/// The tags of a field that is a document of them; none where it is absent.
pub(crate) fn tags(alloc: Global, reply: &Document, field: FieldName) -> Result<Rows<Tag>, Memory>
    ensures { IfOk result (λ tags. tags ≡ tags_at field reply.now.elements) }
{
    let Some(value) = given(reply, field) else {
        return Ok(Rows::new(alloc));
    };
    match tags_in(alloc, value)? {
        Some(tags) => Ok(tags),
        None => Ok(Rows::new(alloc)),
    }
}

/// The topology version of a field that is one.
pub(crate) fn version(reply: &Document, field: FieldName) -> Option<TopologyVersion>
    ensures { result ≡ version_at field reply.now.elements }
{
    given(reply, field)?.topology_version()
}
