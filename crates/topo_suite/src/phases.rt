//! The phases of a file.
use crate::client::{Client, host_of};
use crate::errors::error_event;
use crate::lifting::{is_lifted, lifted};
use crate::outcomes::compare_outcome;
use hello_reply::{ReplyFault, describe};
use serde_json::Value;
use std::alloc::Global;
use suite_files::extended::document_of;
use suite_files::members::{array, items, member, object, text, text_member};
use suite_files::{Fault, Tally};
use topo_rules::TopoEvent;

/// Runs the phases of a file, each behind the one before it whatever came of that.
pub fn run_phases(alloc: Global, file: &Value, tally: &mut Tally) -> Result<(), Fault> {
    let mut client = Client::open(alloc, text_member(alloc, file, "uri")?)?;
    let mut number = 0u64;
    for phase in items(alloc, file, "phases")? {
        number = number.saturating_add(1);
        if let Err(fault) = run_phase(alloc, &mut client, number, phase, tally) {
            return Err(fault.at(alloc, format_args!("phase {number}")));
        }
    }
    tally.note(client.lifted, "wire versions lifted")?;
    Ok(())
}

/// Runs a phase: its replies, then its errors, then what must stand behind them.
fn run_phase(
    alloc: Global,
    client: &mut Client,
    number: u64,
    phase: &Value,
    tally: &mut Tally,
) -> Result<(), Fault> {
    for (name, _) in object(alloc, phase)?.iter() {
        match name.as_str() {
            "description" | "responses" | "applicationErrors" | "outcome" => {}
            other => return Err(Fault::told(alloc, format_args!("no call for {other}"))),
        }
    }
    for response in items(alloc, phase, "responses")? {
        let event = reply_event(alloc, client, response)?;
        client.offer(alloc, event)?;
    }
    for error in items(alloc, phase, "applicationErrors")? {
        if let Some(event) = error_event(alloc, client, error)? {
            client.offer(alloc, event)?;
        }
    }
    compare_outcome(
        alloc,
        client,
        number,
        member(alloc, phase, "outcome")?,
        tally,
    )
}

/// The event of a server's answer to a check, `[ADDRESS, REPLY]`; one without elements is a check that broke.
fn reply_event(alloc: Global, client: &mut Client, response: &Value) -> Result<TopoEvent, Fault> {
    let [address, reply] = array(alloc, response)? else {
        return Err(Fault::told(alloc, "an address and a reply are wanted"));
    };
    let host = host_of(alloc, text(alloc, address)?)?;
    let reply = document_of(alloc, reply)?;
    if reply.elements.len() == 0 {
        return Ok(TopoEvent::Broken {
            host,
            generation: None,
        });
    }
    match describe(alloc, &reply, &host) {
        Ok(mut description) => {
            if is_lifted(description.max_wire) {
                description.max_wire = lifted(description.max_wire);
                client.lifted = client.lifted.saturating_add(1);
            }
            Ok(TopoEvent::Reply {
                description,
                sample: 0,
            })
        }
        Err(ReplyFault::Memory) => Err(Fault::Memory),
        Err(fault) => Err(Fault::told(alloc, fault)),
    }
}
