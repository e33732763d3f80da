//! The members that are run over.
ghost use Rattle.std.specs.Prelude.{◌≡◌, [], IfOk};

use bson_doc::{Memory, Rows};
use host_name::Host;
use member_core::is_within;
use member_hall::{Hall, Planned};
use std::alloc::{AllocError, Global};

/// The name of their set.
const SET: &str = "rs0";

/// Three members, to which that is to happen.
pub fn hall(alloc: Global, acts: Rows<Planned>) -> Result<Hall, Memory>
    ensures fresh { IfOk result (λ hall. hall.events ≡ []) }
{
    let hosts = hosts(alloc)?;
    if !is_within(alloc, SET, hosts.as_slice())? {
        return Err(AllocError);
    }
    match Hall::new(alloc, SET, hosts.as_slice(), acts) {
        Ok(hall) => Ok(hall),
        Err(_) => Err(AllocError),
    }
}

/// Their hosts.
fn hosts(alloc: Global) -> Result<Rows<Host>, Memory> {
    let mut hosts = Rows::new(alloc);
    for name in ["a", "b", "c"] {
        hosts.push(host(alloc, name)?)?;
    }
    Ok(hosts)
}

/// The host of that name.
fn host(alloc: Global, name: &str) -> Result<Host, Memory> {
    match Host::parse(alloc, name) {
        Ok(host) => Ok(host),
        Err(_) => Err(AllocError),
    }
}
