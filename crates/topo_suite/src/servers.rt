//! The servers that must stand behind a phase.
use crate::client::{Client, host_of};
use crate::facts::{oid, server_kind, shown, text, version};
use crate::lifting::lifted;
use hello_reply::ServerDescription;
use serde_json::Value;
use std::alloc::Global;
use suite_files::extended::{value_of, value_text};
use suite_files::members::{number, object};
use suite_files::{Fault, Tally};

/// Compares how many servers there are, and each fact of each server.
pub fn compare_servers(
    alloc: Global,
    client: &Client,
    phase: u64,
    servers: &Value,
    tally: &mut Tally,
) -> Result<(), Fault> {
    let servers = object(alloc, servers)?;
    let expected = format!(in alloc; "{}", servers.len())?;
    let got = format!(in alloc; "{}", client.topology().len())?;
    let what = format_args!("phase {phase}: servers");
    tally.compare(alloc, what, expected.as_str(), got.as_str())?;
    for (address, facts) in servers.iter() {
        let address = address.as_str();
        let host = host_of(alloc, address)?;
        match client.topology().find(&host) {
            Some(server) => {
                compare_server(alloc, client, phase, server, facts, tally)?;
            }
            None => {
                let what = format_args!("phase {phase}: {address}");
                tally.compare(alloc, what, "a server", "none")?;
            }
        }
    }
    Ok(())
}

/// Compares each fact of a server.
fn compare_server(
    alloc: Global,
    client: &Client,
    phase: u64,
    server: &ServerDescription,
    facts: &Value,
    tally: &mut Tally,
) -> Result<(), Fault> {
    for (name, expected) in object(alloc, facts)?.iter() {
        let name = name.as_str();
        let Some(got) = server_fact(alloc, client, server, name)? else {
            return Err(Fault::told(alloc, format_args!("no fact {name}")));
        };
        let expected = expected_fact(alloc, name, expected)?;
        let what = format_args!("phase {phase}: {} {name}", server.host);
        tally.compare(alloc, what, expected.as_str(), got.as_str())?;
    }
    Ok(())
}

/// What is expected of a fact: of a pool its generation, of a greatest wire version what it is read as.
fn expected_fact(alloc: Global, name: &str, expected: &Value) -> Result<String, Fault> {
    match name {
        "pool" => match expected.get("generation") {
            Some(generation) => Ok(format!(in alloc; "{}", number(alloc, generation)?)?),
            None => Err(Fault::told(alloc, "no generation")),
        },
        "maxWireVersion" => match i32::try_from(number(alloc, expected)?) {
            Ok(max_wire) => Ok(format!(in alloc; "{}", lifted(max_wire))?),
            Err(_) => Err(Fault::told(alloc, "a wire version is out of range")),
        },
        _ => value_text(alloc, &value_of(alloc, expected)?),
    }
}

/// The fact of the server that has this name.
fn server_fact(
    alloc: Global,
    client: &Client,
    server: &ServerDescription,
    name: &str,
) -> Result<Option<String>, Fault> {
    let fact = match name {
        "type" => String::from_str(alloc, server_kind(server.kind))?,
        "setName" => text(alloc, &server.set_name)?,
        "setVersion" => shown(alloc, server.set_version)?,
        "electionId" => oid(alloc, server.election)?,
        "logicalSessionTimeoutMinutes" => shown(alloc, server.session_minutes)?,
        "minWireVersion" => shown(alloc, Some(server.min_wire))?,
        "maxWireVersion" => shown(alloc, Some(server.max_wire))?,
        "topologyVersion" => version(alloc, server.version)?,
        "pool" => shown(alloc, Some(client.generation(&server.host)))?,
        _ => return Ok(None),
    };
    Ok(Some(fact))
}
