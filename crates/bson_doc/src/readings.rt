//! What a value says where one kind is wanted.
ghost use Rattle.std.specs.Prelude.{◌≡◌, codes};
ghost use Rattle.std.specs.Option.{option_copied, option_map, option_and_then};
ghost use Rattle.bson_doc.specs.Documents.{value_of};
ghost use Rattle.bson_doc.specs.Readings.{text_of, whole_of, int32_of, int64_of, oid_of, stamp_of, document_of, items_of, version_of};

use crate::{Document, Oid, Text, TopologyVersion, Value};

impl Value {
    /// The text of a string.
    pub fn text(&self) -> Option<&Text>
        ensures text { option_map (λ t. t.now) result ≡ text_of self.now }
    {
        match self {
            Value::Str(text) => Some(text),
            _ => None,
        }
    }

    /// The number of an int32 or an int64.
    pub fn whole(&self) -> Option<i64>
        ensures number { result ≡ whole_of self.now }
    {
        match self {
            Value::Int32(n) => Some(i64::from(*n)),
            Value::Int64(n) => Some(*n),
            _ => None,
        }
    }

    /// The number of an int32.
    pub fn int32(&self) -> Option<i32>
        ensures number { result ≡ int32_of self.now }
    {
        match self {
            Value::Int32(n) => Some(*n),
            _ => None,
        }
    }

    /// The number of an int64.
    pub fn int64(&self) -> Option<i64>
        ensures number { result ≡ int64_of self.now }
    {
        match self {
            Value::Int64(n) => Some(*n),
            _ => None,
        }
    }

    /// An ObjectId.
    pub fn oid(&self) -> Option<Oid>
        ensures id { result ≡ oid_of self.now }
    {
        match self {
            Value::Oid(oid) => Some(*oid),
            _ => None,
        }
    }

    /// A timestamp: seconds in the high half, an increment in the low one.
    pub fn stamp(&self) -> Option<u64>
        ensures stamp { result ≡ stamp_of self.now }
    {
        match self {
            Value::Stamp(stamp) => Some(*stamp),
            _ => None,
        }
    }

    /// A document.
    pub fn document(&self) -> Option<&Document>
        ensures document { option_copied result ≡ document_of self.now }
    {
        match self {
            Value::Doc(document) => Some(document),
            _ => None,
        }
    }

    /// The items of an array, in order.
    pub fn items(&self) -> Option<&[Value]>
        ensures items { option_map (λ items. items.now) result ≡ items_of self.now }
    {
        match self {
            Value::Array(items) => Some(items.as_slice()),
            _ => None,
        }
    }

    /// The topology version that a document spells (SDAM, Topology Version): `processId`, an ObjectId, and `counter`, an
    /// int64; other elements do not count.
    pub fn topology_version(&self) -> Option<TopologyVersion>
        ensures version { result ≡ version_of self.now }
    {
        let version = self.document()?;
        let process = process_in(version)?;
        let counter = counter_in(version)?;
        Some(TopologyVersion { process, counter })
    }
}

fn process_in(version: &Document) -> Option<Oid>
    ensures id { result ≡ option_and_then oid_of (value_of (codes "processId") version.now.elements) }
{
    version.get("processId")?.oid()
}

fn counter_in(version: &Document) -> Option<i64>
    ensures counter { result ≡ option_and_then int64_of (value_of (codes "counter") version.now.elements) }
{
    version.get("counter")?.int64()
}
