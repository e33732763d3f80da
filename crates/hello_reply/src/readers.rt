//! One reader for each kind of column: what a value means in it, None where the value does not belong there.
ghost use Rattle.std.specs.Prelude.{◌≡◌, ◌≤ℤ◌, IfOk, IfSome};
ghost use Rattle.hello_reply.specs.Columns.{IsWithin, whole_in as whole_in_column, within as number_within, host_of, hosts_of, tag_of, tags_of, fits as fits_column};
ghost use Rattle.hello_reply.specs.Each.{each_or_none};

use crate::column::Column;
use crate::{Memory, Tag};
use bson_doc::{Name, Rows, Text, Value};
use host_name::{Host, HostFault};
use std::alloc::{AllocError, Global};

/// A whole number within the column's bounds.
pub(crate) fn whole_in(column: Column, value: &Value) -> Option<i64>
    ensures value { result ≡ whole_in_column column value.now }
    ensures bounds { IfSome result (IsWithin column) }
{
    let Column::Whole { least, most } = column else {
        return None;
    };
    within(least, most, value.whole()?)
}

/// The number, if it lies from the least to the most.
fn within(least: i64, most: i64, n: i64) -> Option<i64>
    ensures value { result ≡ number_within least most n }
    ensures bounds { IfSome result (λ n. (least ≤ℤ n) × (n ≤ℤ most)) }
{
    if least <= n && n <= most {
        Some(n)
    } else {
        None
    }
}

/// The host that a string spells.
pub(crate) fn host_in(alloc: Global, value: &Value) -> Result<Option<Host>, Memory>
    ensures { IfOk result (λ o. o ≡ host_of value.now) }
{
    let Some(text) = value.text() else {
        return Ok(None);
    };
    match Host::parse(alloc, text.as_str()) {
        Ok(host) => Ok(Some(host)),
        Err(HostFault::Memory) => Err(AllocError),
        Err(_) => Ok(None),
    }
}

/// The hosts that an array of strings spells.
pub(crate) fn hosts_in(alloc: Global, value: &Value) -> Result<Option<Rows<Host>>, Memory>
    ensures { IfOk result (λ o. o ≡ hosts_of value.now) }
{
    let Some(items) = value.items() else {
        return Ok(None);
    };
    each_host(alloc, items)
}

fn each_host(alloc: Global, items: &[Value]) -> Result<Option<Rows<Host>>, Memory>
    ensures { IfOk result (λ o. o ≡ each_or_none host_of items.now) }
{
    let mut hosts = Rows::new(alloc);
    for item in items {
        match host_in(alloc, item)? {
            Some(host) => hosts.push(host)?,
            None => return Ok(None),
        }
    }
    Ok(Some(hosts))
}

/// The tags of a document of strings.
pub(crate) fn tags_in(alloc: Global, value: &Value) -> Result<Option<Rows<Tag>>, Memory>
    ensures { IfOk result (λ o. o ≡ tags_of value.now) }
{
    let Some(inner) = value.document() else {
        return Ok(None);
    };
    each_tag(alloc, inner.elements.as_slice())
}

fn each_tag(alloc: Global, elements: &[(Name, Value)]) -> Result<Option<Rows<Tag>>, Memory>
    ensures { IfOk result (λ o. o ≡ each_or_none tag_of elements.now) }
{
    let mut tags = Rows::new(alloc);
    for (name, value) in elements {
        match tag_in(alloc, name, value)? {
            Some(tag) => tags.push(tag)?,
            None => return Ok(None),
        }
    }
    Ok(Some(tags))
}

fn tag_in(alloc: Global, name: &Name, value: &Value) -> Result<Option<Tag>, Memory>
    ensures { IfOk result (λ o. o ≡ tag_of (name.now, value.now)) }
{
    let Some(text) = value.text() else {
        return Ok(None);
    };
    let name = Text::take(alloc, name.as_str())?;
    let value = text.copy(alloc)?;
    Ok(Some(Tag { name, value }))
}

/// Whether the value belongs in the column.
pub(crate) fn fits(alloc: Global, column: Column, value: &Value) -> Result<bool, Memory>
    ensures { IfOk result (λ b. b ≡ fits_column column value.now) }
{
    match column {
        Column::Text => Ok(value.text().is_some()),
        Column::Whole { .. } => Ok(whole_in(column, value).is_some()),
        Column::ObjectId => Ok(value.oid().is_some()),
        Column::Host => Ok(host_in(alloc, value)?.is_some()),
        Column::Hosts => Ok(hosts_in(alloc, value)?.is_some()),
        Column::Tags => Ok(tags_in(alloc, value)?.is_some()),
        Column::Version => Ok(value.topology_version().is_some()),
    }
}
