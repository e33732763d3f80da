//! How long `server_pick` takes to select a server.
//!
//! `selection HOSTS ROUNDS` makes a replica set of that many servers, a primary and secondaries, all of which answered in the same
//! time, selects one of them for a read of mode nearest ROUNDS times, with a picker that keeps all, and prints the nanoseconds
//! that one selection took in the quickest of five batches, and the servers that were kept.

ghost use Rattle.std.specs.Prelude.{◌≢◌, ◌≤◌, IfSome};

use crate::replica_set::{MOST_HOSTS, member, opened, take_in};
use crate::timing::quickest;
use crate::trouble::Trouble;
use crate::words::{number, rounds};
use bson_doc::Rows;
use hello_reply::ServerKind;
use host_name::Host;
use read_pref::{Mode, ReadPref};
use server_pick::{Criteria, KeepAll, Loads, Need, Picked, pick_by};
use std::alloc::Global;
use std::env::Args;
use topo_rules::{TopoEvent, Topology};

/// The round trip of every server, in microseconds.
const ROUND_TRIP: u64 = 1_000;

/// What is measured.
#[derive(Clone, Copy, Drop)]
struct Asked {
    /// How many servers.
    count: u32,
    /// How often one is selected.
    rounds: u32,
}

/// No server has an operation in flight.
struct Idle;

impl Loads for Idle {
    ghost load = { λ _ _. 0 };

    fn in_flight(&self, _host: &Host) -> u32 {
        0
    }
}

/// Measures what the words ask for.
pub fn measure(rt: &HostRuntime, words: &mut Args) -> Result<(), Trouble> {
    let asked = parsed(words).ok_or(Trouble::Words)?;
    let topology = replica_set(rt.alloc(), asked.count).ok_or(Trouble::Answer)?;
    let nearest = ReadPref::new(Mode::Nearest, Rows::new(rt.alloc())).map_err(|_| Trouble::Answer)?;
    selecting(rt, asked.rounds, &topology, &nearest)
}

/// How long a selection takes.
fn selecting(
    rt: &HostRuntime,
    rounds: u32,
    topology: &Topology,
    nearest: &ReadPref,
) -> Result<(), Trouble>
    requires { rounds ≢ 0 }
{
    let mut kept = Rows::new(rt.alloc());
    let best = quickest(rt, rounds, |word| {
        select(rt.alloc(), topology, nearest, word, &mut kept)
    })?;
    let _ = println!(rt; "pick {best} {}", kept.len());
    Ok(())
}

/// What the words ask for: 1 to 1,000 servers, and at least one round.
fn parsed(words: &mut Args) -> Option<Asked>
    ensures rounds { IfSome result (λ m. m.rounds ≢ 0) }
    ensures hosts { IfSome result (λ m. m.count ≤ 1000) }
{
    let count = number(words, 1, MOST_HOSTS)?;
    let rounds = rounds(words)?;
    Some(Asked { count, rounds })
}

/// A replica set of so many servers, of which the first is the primary.
fn replica_set(alloc: Global, count: u32) -> Option<Topology> {
    let hosts = hosts(alloc, count)?;
    let mut topology = opened(alloc, hosts.as_slice())?;
    take_members_in(alloc, &mut topology, hosts.as_slice())?;
    Some(topology)
}

/// Takes in the replies of the hosts, of the first as the primary.
fn take_members_in(alloc: Global, topology: &mut Topology, hosts: &[Host]) -> Option<()> {
    let mut kind = ServerKind::Primary;
    for host in hosts {
        let event = reply(alloc, host, kind, hosts)?;
        take_in(alloc, topology, &event)?;
        kind = ServerKind::Secondary;
    }
    Some(())
}

/// So many different hosts.
fn hosts(alloc: Global, count: u32) -> Option<Rows<Host>> {
    let mut hosts = Rows::new(alloc);
    push_hosts(alloc, &mut hosts, count)?;
    Some(hosts)
}

/// Appends so many different hosts.
fn push_hosts(alloc: Global, hosts: &mut Rows<Host>, count: u32) -> Option<()> {
    for number in 0..count {
        let host = host_of(alloc, number)?;
        hosts.push(host).ok()?;
    }
    Some(())
}

/// The host of that number.
fn host_of(alloc: Global, number: u32) -> Option<Host> {
    let text = format!(in alloc; "h{number}.example").ok()?;
    Host::parse(alloc, text.as_str()).ok()
}

/// The reply of a host as a member of this kind that lists all.
fn reply(alloc: Global, host: &Host, kind: ServerKind, hosts: &[Host]) -> Option<TopoEvent> {
    let mut description = member(alloc, host, kind, hosts)?;
    description.max_wire = 21;
    Some(TopoEvent::Reply {
        description,
        sample: ROUND_TRIP,
    })
}

/// Selects a server, by a word and the next one.
fn select(
    alloc: Global,
    topology: &Topology,
    nearest: &ReadPref,
    word: u32,
    kept: &mut Rows<Host>,
) -> Option<()> {
    let criteria = Criteria {
        need: Need::Read(nearest),
        avoid: None,
        threshold_micros: 15_000,
    };
    let word = u64::from(word);
    let picked = pick_by(
        alloc,
        topology,
        &criteria,
        &mut KeepAll,
        &Idle,
        word,
        word + 1,
        kept,
    );
    match picked {
        Picked::Chosen(_) => Some(()),
        _ => None,
    }
}
