//! Events: `reply HOST KIND`, `broken HOST` and `refused HOST`, with the words of [`set_reply_word`] and of the functions
//! below.
use crate::servers::{host, server_kind};
use crate::topologies::values::{hosts, oid, version};
use bson_doc::{Text, TopologyVersion};
use case_files::{CaseFault, Words};
use hello_reply::{ServerDescription, default_unknown};
use host_name::Host;
use std::alloc::Global;
use topo_rules::TopoEvent;

/// The greatest wire version of a reply that names none.
const WIRE: i32 = 21;

/// The event of the verb and the words behind it.
pub fn event(alloc: Global, verb: &str, words: &mut Words<'_>) -> Result<TopoEvent, CaseFault> {
    let host = host(alloc, words.next_as("host")?)?;
    match verb {
        "reply" => reply(alloc, &host, words),
        "broken" => Ok(TopoEvent::Broken {
            host,
            generation: words.number(alloc, "generation")?,
        }),
        "refused" => refused(alloc, host, words),
        _ => Err(CaseFault::word(alloc, verb)),
    }
}

/// `reply HOST KIND [set=NAME] [hosts=HOST,..] [e=BYTE] [v=N] [me=HOST] [wire=N] [least=N] [minutes=N] [version=VERSION]
/// [took=MICROSECONDS]`. `e` is the last byte of the election, `wire` the greatest wire version and `least` the least one.
fn reply(alloc: Global, host: &Host, words: &mut Words<'_>) -> Result<TopoEvent, CaseFault> {
    let mut description = default_unknown(alloc, host)?;
    description.kind = server_kind(alloc, words.next_as("kind")?)?;
    set_member(alloc, &mut description, words)?;
    description.max_wire = words.number(alloc, "wire")?.unwrap_or(WIRE);
    description.min_wire = words.number(alloc, "least")?.unwrap_or(0);
    description.session_minutes = words.number(alloc, "minutes")?;
    description.version = version_word(alloc, words)?;
    let sample = words.number(alloc, "took")?.unwrap_or(0);
    Ok(TopoEvent::Reply {
        description,
        sample,
    })
}

/// Sets what a member of a replica set says.
fn set_member(
    alloc: Global,
    description: &mut ServerDescription,
    words: &mut Words<'_>,
) -> Result<(), CaseFault> {
    if let Some(name) = words.value("set") {
        description.set_name = Some(Text::take(alloc, name)?);
    }
    if let Some(listed) = words.value("hosts") {
        description.listed = hosts(alloc, listed)?;
    }
    if let Some(last) = words.number(alloc, "e")? {
        description.election = Some(oid(last));
    }
    description.set_version = words.number(alloc, "v")?;
    if let Some(me) = words.value("me") {
        description.me = Some(host(alloc, me)?);
    }
    Ok(())
}

/// `refused HOST [shutdown] [version=VERSION] [generation=N]`; the generation is 0 where it is absent.
fn refused(alloc: Global, host: Host, words: &mut Words<'_>) -> Result<TopoEvent, CaseFault> {
    Ok(TopoEvent::Refused {
        host,
        version: version_word(alloc, words)?,
        generation: words.number(alloc, "generation")?.unwrap_or(0),
        shutdown: words.flag("shutdown"),
    })
}

fn version_word(
    alloc: Global,
    words: &mut Words<'_>,
) -> Result<Option<TopologyVersion>, CaseFault> {
    match words.value("version") {
        Some(text) => version(alloc, text),
        None => Ok(None),
    }
}
