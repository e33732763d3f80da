//! Each public call on its happy path, and printed text. The crate `rule_cases` runs tables of replies, versions and faults.
use bson_doc::{Document, Name, Oid, Text, TopologyVersion, Value};
use hello_reply::{
    ReplyFault, ServerDescription, ServerKind, compare_version, default_unknown, describe,
};
use host_name::Host;
use std::alloc::Global;
use std::cmp::Ordering;
use std::test::Fail;

fn add(alloc: Global, reply: &mut Document, name: &str, value: Value) -> Result<(), Fail> {
    let name = Name::new(Text::take(alloc, name)?)?;
    reply.push(name, value)?;
    Ok(())
}

/// What a router's reply describes.
fn described(alloc: Global, host: &Host) -> Result<ServerDescription, Fail> {
    let mut reply = Document::new(alloc);
    add(alloc, &mut reply, "ok", Value::Int32(1))?;
    let msg = Value::Str(Text::take(alloc, "isdbgrid")?);
    add(alloc, &mut reply, "msg", msg)?;
    Ok(describe(alloc, &reply, host)?)
}

#[test]
fn servers_are_described(rt: HostRuntime) -> Result<(), Fail> {
    let host = Host::parse(rt.alloc(), "H:1")?;
    let unknown = default_unknown(rt.alloc(), &host)?.kind;
    let description = described(rt.alloc(), &host)?;
    let copy = description.copy(rt.alloc())?;
    let kinds = [unknown, description.kind, copy.kind];
    let is_lower = copy.host.name() == "h";
    assert_eq!(rt;
        kinds,
        [ServerKind::Unknown, ServerKind::Mongos, ServerKind::Mongos,]
    );
    assert!(rt; is_lower);
    Ok(())
}

#[test]
fn versions_are_compared(rt: HostRuntime) {
    let version = TopologyVersion {
        process: Oid([1; 12]),
        counter: 5,
    };
    assert_eq!(rt;
        compare_version(Some(version), Some(version)),
        Ordering::Equal
    );
}

#[test]
fn want_of_memory_is_shown(rt: HostRuntime) -> Result<(), Fail> {
    let shown = format!(in rt.alloc(); "{}", ReplyFault::Memory)?;
    assert_eq!(rt; shown.as_str(), "out of memory");
    Ok(())
}
