//! Each public call on its happy path. The crate `rule_cases` runs scenarios, changes and readings.
use bson_doc::{Document, Name, Oid, Rows, Text, Value};
use hello_reply::{ServerDescription, ServerKind, default_unknown, describe};
use host_name::Host;
use std::alloc::Global;
use std::test::Fail;
use topo_rules::{TopoEvent, TopoKind, Topology};

/// The reply of a primary that lists itself.
fn primary(alloc: Global, host: &Host) -> Result<TopoEvent, Fail> {
    let mut description = default_unknown(alloc, host)?;
    fill(alloc, &mut description, host)?;
    Ok(TopoEvent::Reply {
        description,
        sample: 9,
    })
}

/// Has a description be that of a primary that lists this host.
fn fill(alloc: Global, description: &mut ServerDescription, host: &Host) -> Result<(), Fail> {
    description.kind = ServerKind::Primary;
    description.set_name = Some(Text::take(alloc, "rs")?);
    description.set_version = Some(7);
    description.election = Some(Oid([1; 12]));
    description.session_minutes = Some(30);
    description.listed.push(host.copy(alloc)?)?;
    Ok(())
}

/// A topology without a set's name that starts with these hosts.
fn start_of(alloc: Global, hosts: &[Host]) -> Result<Topology, Fail> {
    if !Topology::may_start(alloc, hosts, false)? {
        return Err(Fail::from("no hosts to start with"));
    }
    Ok(Topology::start(alloc, hosts, None, false)?)
}

fn started(alloc: Global, name: &str) -> Result<Topology, Fail> {
    let host = Host::parse(alloc, name)?;
    start_of(alloc, &[host])
}

/// The topology behind an event that changes it, apart from it.
fn behind(alloc: Global, topology: &Topology, event: &TopoEvent) -> Result<Topology, Fail> {
    if topology.find(event.host()).is_none() {
        return Err(Fail::from("no such host"));
    }
    let (after, change) = topology.after(alloc, event)?;
    if change.differs {
        Ok(after)
    } else {
        Err(Fail::from("the event changes nothing"))
    }
}

/// What an event that is taken in adds and removes: how many hosts, the first one's port, how many.
fn take_in(
    alloc: Global,
    topology: &mut Topology,
    event: &TopoEvent,
) -> Result<(usize, Option<u16>, usize), Fail> {
    if topology.find(event.host()).is_none() {
        return Err(Fail::from("no such host"));
    }
    let change = topology.apply(alloc, event)?;
    let first = change.added.as_slice().first().map(|host| host.port());
    Ok((change.added.len(), first, change.removed.len()))
}

#[test]
fn topologies_take_events_in(rt: HostRuntime) -> Result<(), Fail> {
    let event = primary_of(rt.alloc(), "a")?;
    let mut topology = started(rt.alloc(), "a")?;
    let apart = behind(rt.alloc(), &topology, &event)?.kind();
    let before = topology.kind();
    let taken = take_in(rt.alloc(), &mut topology, &event)?;
    let kinds = [apart, before, topology.kind()];
    drop(topology);
    assert_eq!(rt;
        kinds,
        [
            TopoKind::WithPrimary,
            TopoKind::Unknown,
            TopoKind::WithPrimary,
        ]
    );
    assert_eq!(rt; taken, (0, None, 0));
    Ok(())
}

/// A copy of the reply of a primary of that name that lists itself.
fn primary_of(alloc: Global, name: &str) -> Result<TopoEvent, Fail> {
    let host = Host::parse(alloc, name)?;
    let event = primary(alloc, &host)?;
    Ok(event.copy(alloc)?)
}

#[test]
fn topologies_are_read(rt: HostRuntime) -> Result<(), Fail> {
    let event = primary_of(rt.alloc(), "a")?;
    let topology = started(rt.alloc(), "a")?;
    let after = behind(rt.alloc(), &topology, &event)?;
    let copy = after.copy(rt.alloc())?;
    let servers = (
        copy.len(),
        copy.at(0).map(|server| server.kind),
        copy.at(1).is_none(),
    );
    let read = (
        copy.session_minutes(),
        copy.misfit().map(|server| server.host.port()),
    );
    assert_eq!(rt; servers, (1, Some(ServerKind::Primary), true));
    assert_eq!(rt; read, (Some(30), Some(27017)));
    Ok(())
}

fn add(alloc: Global, reply: &mut Document, name: &str, value: Value) -> Result<(), Fail> {
    let name = Name::new(Text::take(alloc, name)?)?;
    reply.push(name, value)?;
    Ok(())
}

fn string(alloc: Global, text: &str) -> Result<Value, Fail> {
    Ok(Value::Str(Text::take(alloc, text)?))
}

/// The reply of a primary of the set rs that lists a and b.
fn hello(alloc: Global) -> Result<Document, Fail> {
    let mut reply = Document::new(alloc);
    fill_hello(alloc, &mut reply)?;
    Ok(reply)
}

fn fill_hello(alloc: Global, reply: &mut Document) -> Result<(), Fail> {
    add(alloc, reply, "ok", Value::Int32(1))?;
    add(alloc, reply, "setName", string(alloc, "rs")?)?;
    add(alloc, reply, "isWritablePrimary", Value::Bool(true))?;
    let hosts = two_hosts(alloc)?;
    add(alloc, reply, "hosts", Value::Array(hosts))?;
    add(alloc, reply, "maxWireVersion", Value::Int32(21))
}

fn two_hosts(alloc: Global) -> Result<Rows<Value>, Fail> {
    let mut hosts = Rows::new(alloc);
    for name in ["a:27017", "B:27018"] {
        hosts.push(string(alloc, name)?)?;
    }
    Ok(hosts)
}

/// A copy of what that reply tells of the host.
fn described(alloc: Global, host: &Host) -> Result<TopoEvent, Fail> {
    let reply = hello(alloc)?;
    let description = describe(alloc, &reply, host)?;
    let event = TopoEvent::Reply {
        description,
        sample: 9,
    };
    Ok(event.copy(alloc)?)
}

#[test]
fn a_described_reply_is_copied_and_taken_in(rt: HostRuntime) -> Result<(), Fail> {
    let host = Host::parse(rt.alloc(), "a")?;
    let event = described(rt.alloc(), &host)?;
    let mut topology = started(rt.alloc(), "a")?;
    let taken = take_in(rt.alloc(), &mut topology, &event)?;
    let is_named = topology.set_name() == Some("rs");
    let mean = topology.find(&host).map(|server| server.mean);
    let now = (topology.kind(), is_named, topology.len());
    assert_eq!(rt; taken, (1, Some(27018), 0));
    assert_eq!(rt; now, (TopoKind::WithPrimary, true, 2));
    assert_eq!(rt; mean, Some(Some(9)));
    Ok(())
}

#[test]
fn what_broke_is_copied(rt: HostRuntime) -> Result<(), Fail> {
    let host = Host::parse(rt.alloc(), "a:1")?;
    let generation = Some(2);
    let copy = TopoEvent::Broken { host, generation }.copy(rt.alloc())?;
    assert_eq!(rt; copy.host().port(), 1);
    assert!(rt;
        matches!(
            copy,
            TopoEvent::Broken {
                generation: Some(2),
                ..
            }
        )
    );
    Ok(())
}
