//! How much of a set its members tell in a hello.
ghost use Rattle.std.specs.Prelude.{◌↔◌, IsTrue, IfOk};
ghost use Rattle.member_core.specs.Sizes.{IsWithin};

use crate::Memory;
use host_name::Host;
use std::alloc::Global;

/// What is counted for the set's name and for each host, beside their bytes.
const AROUND: u64 = 64;

/// The most that a set's name and hosts come to.
const MOST: u64 = 15_000_000;

/// Whether the set's name and the hosts are within the bound of [`Member::new`](crate::Member::new).
pub fn is_within(alloc: Global, set: &str, hosts: &[Host]) -> Result<bool, Memory>
    ensures { IfOk result (λ within. IsTrue within ↔ IsWithin set.now hosts.now) }
{
    let mut size = (set.len() as u64).saturating_add(AROUND);
    for host in hosts {
        let text = host.text(alloc)?;
        size = size
            .saturating_add(text.len() as u64)
            .saturating_add(AROUND);
    }
    Ok(size <= MOST)
}
