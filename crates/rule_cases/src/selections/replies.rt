//! Replies of the servers of a topology.
use crate::selections::values::pair;
use crate::servers::{host, server_kind};
use bson_doc::Text;
use case_files::{CaseFault, Words};
use hello_reply::{ServerDescription, Tag, default_unknown};
use std::alloc::Global;
use topo_rules::{TopoEvent, Topology};

/// The greatest wire version of a reply that names none.
const WIRE: i32 = 21;

/// `reply HOST KIND [took=MICROSECONDS] [least=N] [wire=N] [NAME:VALUE..]`: the round trip, the wire versions and the tags. A
/// member of a set lists every server of the topology.
pub fn reply(
    alloc: Global,
    topology: &mut Topology,
    words: &mut Words<'_>,
) -> Result<(), CaseFault> {
    let host = host(alloc, words.next_as("host")?)?;
    let mut description = default_unknown(alloc, &host)?;
    description.kind = server_kind(alloc, words.next_as("kind")?)?;
    description.max_wire = words.number(alloc, "wire")?.unwrap_or(WIRE);
    description.min_wire = words.number(alloc, "least")?.unwrap_or(0);
    let sample = words.number(alloc, "took")?.unwrap_or(0);
    set_member(alloc, topology, &mut description)?;
    set_tags(alloc, &mut description, words)?;
    let event = TopoEvent::Reply {
        description,
        sample,
    };
    if topology.find(event.host()).is_none() {
        return Err(CaseFault::Refused("no such host"));
    }
    topology.apply(alloc, &event)?;
    Ok(())
}

/// Sets the name of the topology's set and the hosts that a member lists.
fn set_member(
    alloc: Global,
    topology: &Topology,
    description: &mut ServerDescription,
) -> Result<(), CaseFault> {
    let Some(name) = topology.set_name() else {
        return Ok(());
    };
    description.set_name = Some(Text::take(alloc, name)?);
    for place in 0..topology.len() {
        if let Some(server) = topology.at(place) {
            description.listed.push(server.host.copy(alloc)?)?;
        }
    }
    Ok(())
}

/// Sets the tags of the words.
fn set_tags(
    alloc: Global,
    description: &mut ServerDescription,
    words: &mut Words<'_>,
) -> Result<(), CaseFault> {
    for word in words.rest(alloc) {
        let (name, value) = pair(alloc, word)?;
        let tag = Tag {
            name: Text::take(alloc, name)?,
            value: Text::take(alloc, value)?,
        };
        description.tags.push(tag)?;
    }
    Ok(())
}
