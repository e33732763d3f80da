//! Facts as texts, as `suite_files::extended::value_text` writes what is expected of them.
use bson_doc::{Oid, Text, TopologyVersion};
use hello_reply::ServerKind;
use std::alloc::Global;
use std::fmt::Display;
use suite_files::Memory;
use suite_files::extended::digits_of;
use topo_rules::TopoKind;

/// The standard's name of a server's kind.
pub fn server_kind(kind: ServerKind) -> &'static str {
    match kind {
        ServerKind::Unknown => "Unknown",
        ServerKind::Standalone => "Standalone",
        ServerKind::Mongos => "Mongos",
        ServerKind::Primary => "RSPrimary",
        ServerKind::Secondary => "RSSecondary",
        ServerKind::Arbiter => "RSArbiter",
        ServerKind::Other => "RSOther",
        ServerKind::Ghost => "RSGhost",
    }
}

/// The standard's name of a topology's kind.
pub fn topology_kind(kind: TopoKind) -> &'static str {
    match kind {
        TopoKind::Single => "Single",
        TopoKind::NoPrimary => "ReplicaSetNoPrimary",
        TopoKind::WithPrimary => "ReplicaSetWithPrimary",
        TopoKind::Sharded => "Sharded",
        TopoKind::Unknown => "Unknown",
    }
}

/// A value that may be absent.
pub fn shown<T: Display + Drop>(alloc: Global, value: Option<T>) -> Result<String, Memory> {
    match value {
        Some(value) => format!(in alloc; "{value}"),
        None => String::from_str(alloc, "none"),
    }
}

/// A text that may be absent.
pub fn text(alloc: Global, value: &Option<Text>) -> Result<String, Memory> {
    match value {
        Some(value) => String::from_str(alloc, value.as_str()),
        None => String::from_str(alloc, "none"),
    }
}

/// An ObjectId that may be absent.
pub fn oid(alloc: Global, value: Option<Oid>) -> Result<String, Memory> {
    match value {
        Some(oid) => digits_of(alloc, oid.0.as_slice()),
        None => String::from_str(alloc, "none"),
    }
}

/// A topology version that may be absent.
pub fn version(alloc: Global, value: Option<TopologyVersion>) -> Result<String, Memory> {
    match value {
        Some(TopologyVersion { process, counter }) => {
            let process = digits_of(alloc, process.0.as_slice())?;
            format!(in alloc; "{}/{counter}", process.as_str())
        }
        None => String::from_str(alloc, "none"),
    }
}
