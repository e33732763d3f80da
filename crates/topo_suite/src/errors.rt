//! The errors of applications (SDAM, Error handling; its tests, "Application Error").
use crate::client::{Client, host_of};
use cmd_outcome::classify;
use host_name::Host;
use serde_json::Value;
use std::alloc::Global;
use suite_files::Fault;
use suite_files::extended::document_of;
use suite_files::members::{member, number_member, text_member};
use topo_rules::TopoEvent;

/// The event of an error, by a connection of the generation that it names, else of the pool's; none where it says nothing of
/// its server: a time that was up behind the handshake, or a command's error that is no state change error.
pub fn error_event(
    alloc: Global,
    client: &Client,
    error: &Value,
) -> Result<Option<TopoEvent>, Fault> {
    let host = host_of(alloc, text_member(alloc, error, "address")?)?;
    let generation = match number_member(alloc, error, "generation")? {
        Some(generation) => generation,
        None => client.generation(&host),
    };
    let when = text_member(alloc, error, "when")?;
    match (text_member(alloc, error, "type")?, when) {
        ("command", _) => refused(alloc, host, generation, member(alloc, error, "response")?),
        ("timeout", "afterHandshakeCompletes") => Ok(None),
        ("network", _) | ("timeout", "beforeHandshakeCompletes") => Ok(Some(TopoEvent::Broken {
            host,
            generation: Some(generation),
        })),
        (kind, when) => Err(Fault::told(alloc, format_args!("no call for {kind} {when}"))),
    }
}

/// The event of a command's reply.
fn refused(
    alloc: Global,
    host: Host,
    generation: u64,
    response: &Value,
) -> Result<Option<TopoEvent>, Fault> {
    let reading = classify(&document_of(alloc, response)?);
    let Some(change) = reading.state else {
        return Ok(None);
    };
    Ok(Some(TopoEvent::Refused {
        host,
        version: reading.version,
        generation,
        shutdown: change.shutdown,
    }))
}
