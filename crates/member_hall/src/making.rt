//! Which lists of hosts and acts make a hall.
ghost use Rattle.std.specs.Prelude.{◌≡◌, ◌≤◌, ◌<◌, ◌^◌, length, map, IfOk, IfSome};
ghost use Rattle.std.specs.List.{list_any, range_with_len};
ghost use Rattle.host_name.specs.Addresses.{is_same_address};
ghost use Rattle.member_core.specs.Sizes.{IsWithin};
ghost use Rattle.member_hall.specs.Making.{peer_of};
ghost use Rattle.member_hall.specs.Plans.{fault_in as fault_of_lists, stranger_in, twice_in};

use crate::fault::HallFault;
use crate::peer::Peer;
use crate::{Memory, Planned};
use host_name::Host;
use std::alloc::Global;

/// Why there is no hall of these hosts and acts, if memory is not the reason.
pub(crate) fn fault_in(hosts: &[Host], acts: &[Planned]) -> Option<HallFault>
    requires { length hosts.now < 2 ^ 32 }
    ensures { result ≡ fault_of_lists hosts.now acts.now }
{
    if hosts.is_empty() {
        return Some(HallFault::NoMember);
    }
    if let Some(host) = first_twice(hosts) {
        return Some(HallFault::Twice { host });
    }
    match first_stranger(hosts.len(), acts) {
        Some(place) => Some(HallFault::Act {
            place: place as u64,
        }),
        None => None,
    }
}

/// The first place whose host stands before it too.
fn first_twice(hosts: &[Host]) -> Option<u32>
    requires { length hosts.now < 2 ^ 32 }
    ensures { result ≡ twice_in hosts.now }
{
    for place in 0..hosts.len() {
        if stands_in(&hosts[place], &hosts[..place]) {
            return Some(place as u32);
        }
    }
    None
}

/// Whether the host stands in the list.
fn stands_in(host: &Host, hosts: &[Host]) -> bool
    ensures { result ≡ list_any (is_same_address host.now) hosts.now }
{
    hosts.iter().any(|other| host == other)
}

/// The place of the first act of a host that is not there.
fn first_stranger(many: usize, acts: &[Planned]) -> Option<usize>
    ensures { result ≡ stranger_in many acts.now }
{
    acts.iter()
        .position(|planned| planned.act.host() as usize >= many)
}

/// All members, by their places, to which nothing happened.
pub(crate) fn members(alloc: Global, set: &str, hosts: &[Host]) -> Result<Vec<Peer>, Memory>
    requires few { length hosts.now < 2 ^ 32 }
    requires within { IsWithin set.now hosts.now }
    ensures { IfOk result (λ peers. peers.items ≡ map (peer_of set.now hosts.now) (range_with_len 0 (length hosts.now))) }
{
    let mut peers = Vec::new(alloc);
    for place in 0..hosts.len() {
        peers.push(Peer::new(alloc, set, hosts, place as u32)?)?;
    }
    Ok(peers)
}
