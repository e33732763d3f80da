//! The program `example_topology`: a hello reply is described and put into a topology, and then the connection to that server
//! breaks.
//!
//! The crates decide and the program acts: `describe` reads what a server says of itself, `Topology::apply` says what follows
//! from it, and the answer, a `Change`, tells which hosts are new, which are gone, and whose pool is to be made ready or
//! cleared. Nothing here opens a socket: who sent the hello, and when, is up to the caller.
#![tactic(auto)]

ghost use Rattle.std.specs.Prelude.{◌≡◌, IfOk, IfSome, OnErr};
ghost use Rattle.topo_rules.specs.Rules.{after};

use bson_doc::{Document, Rows, Text, Value};
use hello_reply::describe;
use host_name::Host;
use std::alloc::Global;
use topo_rules::{Change, Memory, TopoEvent, Topology};

/// How long the hello took, in microseconds.
const SAMPLE: u64 = 1_500;

fn main(rt: HostRuntime) -> anyhow::Result<()> {
    let alloc = rt.alloc();
    let seed = Host::parse(alloc, "ONE.example")?;
    let Some(mut topology) = opened(alloc, &seed)? else {
        println!(rt; "these hosts are no seeds")?;
        return Ok(());
    };
    show(&rt, &topology)?;

    // The seed answers that it is the primary of a set of two.
    let description = describe(alloc, &hello_of_primary(alloc)?, &seed)?;
    let event = TopoEvent::Reply {
        description,
        sample: SAMPLE,
    };
    tell(&rt, take_in(alloc, &mut topology, &event)?)?;
    show(&rt, &topology)?;

    // A connection of its pool breaks, one that was dialled before the pool was ever cleared.
    let event = TopoEvent::Broken {
        host: seed,
        generation: Some(0),
    };
    tell(&rt, take_in(alloc, &mut topology, &event)?)?;
    show(&rt, &topology)
}

/// The topology of one seed, by the set's name. `start` requires seeds that differ, at least one; `may_start` is the test of
/// that, and its answer is all that the check goes by.
fn opened(alloc: Global, seed: &Host) -> Result<Option<Topology>, Memory> {
    let seeds = [seed.copy(alloc)?];
    if !Topology::may_start(alloc, &seeds, false)? {
        return Ok(None);
    }
    let topology = Topology::start(alloc, &seeds, Some("rs"), false)?;
    Ok(Some(topology))
}

/// Takes an event in; None where its server is not in the topology any more. `apply` requires that it is, which `find` tells.
fn take_in(
    alloc: Global,
    topology: &mut Topology,
    event: &TopoEvent,
) -> Result<Option<Change>, Memory>
    ensures taken { IfOk result (λ answer. IfSome answer (λ _. topology.new ≡ after topology.old event.now)) }
    ensures err { OnErr result (topology.new ≡ topology.old) }
{
    if topology.find(event.host()).is_none() {
        return Ok(None);
    }
    let change = topology.apply(alloc, event)?;
    Ok(Some(change))
}

/// What a primary answers to hello, as `decode` would give it.
fn hello_of_primary(alloc: Global) -> Result<Document, Memory> {
    let mut hosts = Rows::new(alloc);
    for host in ["one.example:27017", "two.example:27017"] {
        hosts.push(Value::Str(Text::take(alloc, host)?))?;
    }
    let mut reply = Document::new(alloc);
    reply.put(alloc, "ok", Value::Int32(1))?;
    reply.put(alloc, "isWritablePrimary", Value::Bool(true))?;
    reply.put(alloc, "setName", Value::Str(Text::take(alloc, "rs")?))?;
    reply.put(alloc, "hosts", Value::Array(hosts))?;
    reply.put(alloc, "maxWireVersion", Value::Int32(21))?;
    Ok(reply)
}

/// Prints the topology: its kind, and each of its servers in the order of hosts.
fn show(rt: &impl Print, topology: &Topology) -> anyhow::Result<()> {
    print!(rt; "{:?}:", topology.kind())?;
    for place in 0..topology.len() {
        if let Some(server) = topology.at(place) {
            print!(rt; " {} {:?}", server.host, server.kind)?;
        }
    }
    println!(rt; "")?;
    Ok(())
}

/// Prints what an event changed.
fn tell(rt: &impl Print, change: Option<Change>) -> anyhow::Result<()> {
    let Some(change) = change else {
        println!(rt; "  the server is not in the topology")?;
        return Ok(());
    };
    for host in change.added.as_slice() {
        println!(rt; "  {host} came")?;
    }
    for host in change.removed.as_slice() {
        println!(rt; "  {host} left")?;
    }
    if let Some(host) = &change.ready {
        println!(rt; "  the pool of {host} is to be made ready")?;
    }
    if let Some(host) = &change.clear {
        println!(rt; "  the pool of {host} is to be cleared")?;
    }
    Ok(())
}
