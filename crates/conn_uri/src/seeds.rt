//! The hosts of a connection string (Connection String, Host Information).
ghost use Rattle.std.specs.Prelude.{◌≡◌, ◌≢◌, List, [], ◌∷◌, ◌++◌, filter, fold, length, map, not, ◌≤◌, Err, IfOk, OnOk, if◌then◌else◌};
ghost use Rattle.std.specs.List.{list_any};
ghost use Rattle.host_name.specs.Addresses.{Address, is_same_address};
ghost use Rattle.conn_uri.specs.Configurations.{AreSeeds};
ghost use Rattle.conn_uri.specs.Each.{read_each};
ghost use Rattle.conn_uri.specs.Seeds.{host_in, is_path as is_socket_path, kept_once, seeds_in, with_host};
ghost use Rattle.conn_uri.specs.Inside.{HasSeen};
ghost use Rattle.conn_uri.specs.declared.fault.UriFault.{UriFault};

use crate::cutting::has;
use crate::{Memory, UriFault};
use bson_doc::{Rows, Text};
use host_name::{Host, HostFault};
use std::alloc::{AllocError, Global};
use std::collections::BTreeSet;

/// The hosts that the texts spell, each once, but for those that are paths of sockets; or the first fault among them.
pub(crate) fn seeds(alloc: Global, texts: &[Text]) -> Result<Rows<Host>, UriFault>
    ensures { result ≢ Err UriFault.Memory → result ≡ seeds_in texts.now }
{
    match hosts(alloc, texts) {
        Ok(hosts) => Ok(distinct(alloc, hosts.as_slice())?),
        Err(fault) => Err(fault),
    }
}

/// Whether some text is the path of a socket.
pub(crate) fn has_path(texts: &[Text]) -> bool
    ensures { result ≡ list_any is_socket_path texts.now }
{
    texts.iter().any(|text| is_path(text.as_str()))
}

/// Whether a host is the path of a Unix domain socket.
fn is_path(text: &str) -> bool
    ensures { result ≡ is_socket_path text.now }
{
    has(text, '/')
}

/// The hosts that the texts spell, but for those that are paths of sockets.
fn hosts(alloc: Global, texts: &[Text]) -> Result<Rows<Host>, UriFault>
    ensures { result ≢ Err UriFault.Memory → result ≡ read_each host_in (filter (λ t. not (is_socket_path t)) texts.now) }
{
    let mut hosts = Rows::new(alloc);
    for text in texts {
        if is_path(text.as_str()) {
            continue;
        }
        match host(alloc, text.as_str()) {
            Ok(host) => hosts.push(host)?,
            Err(fault) => return Err(fault),
        }
    }
    Ok(hosts)
}

/// The host that a text spells.
fn host(alloc: Global, text: &str) -> Result<Host, UriFault>
    ensures { result ≢ Err UriFault.Memory → result ≡ host_in text.now }
{
    match Host::parse(alloc, text) {
        Ok(host) => Ok(host),
        Err(HostFault::Memory) => Err(UriFault::Memory),
        Err(fault) => Err(UriFault::Host(fault)),
    }
}

/// Each host once, where it comes first. Where there are 1 to 16,777,216 of them they are seeds that
/// [`Settings::plain`](crate::Settings::plain) takes.
pub fn distinct(alloc: Global, hosts: &[Host]) -> Result<Rows<Host>, Memory>
    ensures once { IfOk result (λ kept. kept ≡ kept_once hosts.now) }
    ensures seeds { IfOk result (λ kept. 1 ≤ length kept → length kept ≤ 16777216 → AreSeeds kept) }
{
    let kept = each_once(alloc, hosts)?;
    Ok(kept)
}

/// Each host once. Hosts are compared and not hashed: n of them take at most n log n comparisons.
fn each_once(alloc: Global, hosts: &[Host]) -> Result<Rows<Host>, Memory>
    ensures { IfOk result (λ kept. kept ≡ kept_once hosts.now) }
{
    let mut seen = BTreeSet::new(alloc);
    let mut kept = Vec::new(alloc);
    keep(&mut seen, &mut kept, hosts)?;
    copied(alloc, kept.as_slice())
}

/// Puts those of the hosts that are not there yet last, in order.
fn keep<'a>(
    seen: &mut BTreeSet<&'a Host>,
    kept: &mut Vec<&'a Host>,
    hosts: &'a [Host],
) -> Result<(), Memory>
    requires { HasSeen seen.old (map (λ h. h.now) kept.old.items) }
    ensures kept { OnOk result (map (λ h. h.now) kept.new.items ≡ fold with_host (map (λ h. h.now) kept.old.items) hosts.now) }
    ensures seen { OnOk result (HasSeen seen.new (map (λ h. h.now) kept.new.items)) }
{
    for host in hosts {
        keep_one(seen, kept, host)?;
    }
    Ok(())
}

/// Puts the host last, unless it is there.
fn keep_one<'a>(
    seen: &mut BTreeSet<&'a Host>,
    kept: &mut Vec<&'a Host>,
    host: &'a Host,
) -> Result<(), Memory>
    requires { HasSeen seen.old (map (λ h. h.now) kept.old.items) }
    ensures kept { OnOk result (map (λ h. h.now) kept.new.items ≡ with_host (map (λ h. h.now) kept.old.items) host.now) }
    ensures seen { OnOk result (HasSeen seen.new (map (λ h. h.now) kept.new.items)) }
{
    if is_new(seen, host)? {
        kept.push(host)?;
    }
    Ok(())
}

/// Puts the host into the set, and tells whether it is new there.
fn is_new<'a>(seen: &mut BTreeSet<&'a Host>, host: &'a Host) -> Result<bool, Memory>
    ensures new { IfOk result (λ new. (kept : List Address) → HasSeen seen.old kept → new ≡ not (list_any (is_same_address host.now) kept)) }
    ensures seen { IfOk result (λ new. (kept : List Address) → HasSeen seen.old kept → HasSeen seen.new (if new then kept ++ host.now ∷ [] else kept)) }
{
    match seen.insert(host) {
        Ok(new) => Ok(new),
        Err(_) => Err(AllocError),
    }
}

/// The hosts to which these refer.
fn copied(alloc: Global, hosts: &[&Host]) -> Result<Rows<Host>, Memory>
    ensures { IfOk result (λ copies. copies ≡ map (λ h. h.now) hosts.now) }
{
    let mut copies = Rows::new(alloc);
    for host in hosts {
        copies.push(host.copy(alloc)?)?;
    }
    Ok(copies)
}
