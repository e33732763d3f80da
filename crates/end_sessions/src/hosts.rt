//! To which servers a read may go that prefers the primary (Server Selection, primaryPreferred).
ghost use Rattle.std.specs.Prelude.{◌≡◌, IfOk};
ghost use Rattle.std.specs.List.{list_any};
ghost use Rattle.host_name.specs.Addresses.{is_same_address};
ghost use Rattle.end_sessions.specs.Carriers.{AreReadable};

use crate::Memory;
use bson_doc::Rows;
use host_name::Host;
use read_pref::{Mode, ReadPref};
use server_pick::{Criteria, KeepAll, Loads, Need, Picked, pick_by};
use std::alloc::{AllocError, Global};
use topo_rules::Topology;

/// Nothing is in flight: it decides only between servers of which each will do.
struct NothingInFlight;

impl Loads for NothingInFlight {
    ghost load = { λ _ _. 0 };

    fn in_flight(&self, _host: &Host) -> u32 {
        0
    }
}

/// The hosts to which a read may go that prefers the primary, in the order of hosts.
pub fn readable_hosts(alloc: Global, topology: &Topology) -> Result<Rows<Host>, Memory>
    ensures hosts { IfOk result (λ hosts. AreReadable topology.now hosts) }
{
    let Ok(read) = ReadPref::new(Mode::PrimaryPreferred, Rows::new(alloc)) else {
        unreachable!()
    };
    let criteria = Criteria {
        need: Need::Read(&read),
        avoid: None,
        threshold_micros: 0,
    };
    let mut hosts = Rows::new(alloc);
    let picked = pick_by(
        alloc,
        topology,
        &criteria,
        &mut KeepAll,
        &NothingInFlight,
        0,
        0,
        &mut hosts,
    );
    match picked {
        Picked::Memory => Err(AllocError),
        _ => Ok(hosts),
    }
}

/// Whether the host is one of these.
pub fn is_among(hosts: &[Host], host: &Host) -> bool
    ensures { result ≡ list_any (λ h. is_same_address h host.now) hosts.now }
{
    hosts.iter().any(|it| *it == *host)
}
