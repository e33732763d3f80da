ghost use Rattle.std.specs.Prelude.{◌≡◌, ◌≢◌, ◌-◌, ◌^◌, List, [], ◌∷◌, ◌++◌, fold, map, min, not, Err, IfOk, OnOk, if◌then◌else◌};
ghost use Rattle.std.specs.List.{list_any};
ghost use Rattle.host_name.specs.Addresses.{Address, is_same_address};
ghost use Rattle.hello_reply.specs.Listed.{with_host, listed as listed_hosts, within_limit, HasSeen};
ghost use Rattle.hello_reply.specs.declared.fault.ReplyFault.{ReplyFault};

use crate::{FieldName, Memory, ReplyFault, fields};
use bson_doc::{Document, Rows};
use host_name::Host;
use std::alloc::{AllocError, Global};
use std::collections::BTreeSet;

/// The most hosts that a reply may list.
const MOST_HOSTS: usize = 1_000;

/// The hosts that the reply lists, one list after the other, each where it comes first, and once; `Many` where they are
/// more than 1,000.
///
/// A peer picks the names, so they are compared and not hashed: n of them take at most n log n comparisons. Hosts are
/// counted by reference, and copied only where they are few enough.
pub(crate) fn listed(alloc: Global, reply: &Document) -> Result<Rows<Host>, ReplyFault>
    ensures { result ≢ Err ReplyFault.Memory → result ≡ within_limit (listed_hosts reply.now.elements) }
{
    let hosts = fields::hosts(alloc, reply, FieldName::Hosts)?;
    let passives = fields::hosts(alloc, reply, FieldName::Passives)?;
    let arbiters = fields::hosts(alloc, reply, FieldName::Arbiters)?;
    let mut seen = BTreeSet::new(alloc);
    let mut kept = Vec::new(alloc);
    keep(&mut seen, &mut kept, hosts.as_slice())?;
    keep(&mut seen, &mut kept, passives.as_slice())?;
    keep(&mut seen, &mut kept, arbiters.as_slice())?;
    let count = kept.len();
    if count > MOST_HOSTS {
        return Err(ReplyFault::Many {
            count: capped(count),
        });
    }
    Ok(copied(alloc, kept.as_slice())?)
}

/// Puts those of the hosts that are not there yet last, in order.
fn keep<'a>(
    seen: &mut BTreeSet<&'a Host>,
    kept: &mut Vec<&'a Host>,
    hosts: &'a [Host],
) -> Result<(), Memory>
    requires { HasSeen seen.old (map (λ h. h.now) kept.old.items) }
    ensures kept { OnOk result (map (λ h. h.now) kept.new.items ≡ fold with_host (map (λ h. h.now) kept.old.items) hosts.now) }
    ensures seen { OnOk result (HasSeen seen.new (map (λ h. h.now) kept.new.items)) }
{
    for host in hosts {
        keep_one(seen, kept, host)?;
    }
    Ok(())
}

/// Puts the host last, unless it is there.
fn keep_one<'a>(
    seen: &mut BTreeSet<&'a Host>,
    kept: &mut Vec<&'a Host>,
    host: &'a Host,
) -> Result<(), Memory>
    requires { HasSeen seen.old (map (λ h. h.now) kept.old.items) }
    ensures kept { OnOk result (map (λ h. h.now) kept.new.items ≡ with_host (map (λ h. h.now) kept.old.items) host.now) }
    ensures seen { OnOk result (HasSeen seen.new (map (λ h. h.now) kept.new.items)) }
{
    if is_new(seen, host)? {
        kept.push(host)?;
    }
    Ok(())
}

/// Puts the host into the set, and tells whether it is new there.
fn is_new<'a>(seen: &mut BTreeSet<&'a Host>, host: &'a Host) -> Result<bool, Memory>
    ensures new { IfOk result (λ new. (kept : List Address) → HasSeen seen.old kept → new ≡ not (list_any (is_same_address host.now) kept)) }
    ensures seen { IfOk result (λ new. (kept : List Address) → HasSeen seen.old kept → HasSeen seen.new (if new then kept ++ host.now ∷ [] else kept)) }
{
    match seen.insert(host) {
        Ok(new) => Ok(new),
        Err(_) => Err(AllocError),
    }
}

/// The hosts to which these refer.
fn copied(alloc: Global, hosts: &[&Host]) -> Result<Rows<Host>, Memory>
    ensures { IfOk result (λ copies. copies ≡ map (λ h. h.now) hosts.now) }
{
    let mut copies = Rows::new(alloc);
    for host in hosts {
        copies.push(host.copy(alloc)?)?;
    }
    Ok(copies)
}

/// The count, or the greatest number of 32 bits where it is more.
fn capped(count: usize) -> u32
    ensures { result ≡ min count (2 ^ 32 - 1) }
{
    count.min(u32::MAX as usize) as u32
}
