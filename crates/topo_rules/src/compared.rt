ghost use Rattle.std.specs.Prelude.{◌≡◌, ◌∷◌, [], ◌++◌, ◌↔◌, OnOk, IfOk, IsTrue, IsSome, is_some, slice_get, if◌then◌else◌};
ghost use Rattle.std.specs.Option.{option_map_or};
ghost use Rattle.std.specs.FinMap as map;
ghost use Rattle.topo_rules.specs.Changes.{AlikeBeside, IsMoves, hosts_beyond, meanless, plain};
ghost use Rattle.topo_rules.specs.Outcomes.{PutsAt, edited};

use crate::Memory;
use crate::outcome::Edit;
use crate::same::is_same_but_mean;
use crate::servers::Servers;
use bson_doc::Rows;
use hello_reply::ServerDescription;
use host_name::Host;
use std::alloc::Global;

/// What an event changes of the servers.
#[derive(Drop)]
pub struct Moves {
    /// The hosts that come, in order.
    pub added: Rows<Host>,
    /// The hosts that leave, in order.
    pub removed: Rows<Host>,
    /// Whether hosts and descriptions stay, means aside.
    pub same: bool,
}

impl Servers {
    /// What the edit changes; it puts nothing at another host than the one that is given.
    pub fn moves(&self, alloc: Global, edit: &Edit, host: &Host) -> Result<Moves, Memory>
        requires stands { IsSome (map.get self.now host.now) }
        requires puts { PutsAt host.now edit.now }
        requires alike { AlikeBeside host.now self.now (edited self.now edit.now) }
        ensures { IfOk result (IsMoves self.now (edited self.now edit.now)) }
    {
        match edit {
            Edit::Put(description) => Ok(Moves {
                added: Rows::new(alloc),
                removed: Rows::new(alloc),
                same: self.keeps(host, description),
            }),
            Edit::Whole(servers) => {
                let added = servers.hosts_beyond(alloc, self)?;
                let removed = self.hosts_beyond(alloc, servers)?;
                Ok(Moves {
                    added,
                    removed,
                    same: self.is_same(servers, host),
                })
            }
        }
    }

    /// Whether the description says what is known of the host already, means aside.
    fn keeps(&self, host: &Host, description: &ServerDescription) -> bool
        requires stands { IsSome (map.get self.now host.now) }
        ensures { IsTrue result ↔ (plain self.now ≡ plain (map.insert self.now host.now description.now)) }
    {
        match self.get(host) {
            Some(known) => is_same_but_mean(known, description),
            None => false,
        }
    }

    /// Appends the host at a place, unless the other servers have it too.
    fn note_beyond(
        &self,
        alloc: Global,
        other: &Servers,
        place: usize,
        hosts: &mut Rows<Host>,
    ) -> Result<(), Memory>
        ensures { OnOk result (hosts.new ≡ option_map_or (λ e. if is_some (map.get other.now e.0) then hosts.old else hosts.old ++ e.0 ∷ []) (slice_get (map.entries self.now) place) hosts.old) }
    {
        let Some((host, _)) = self.entry_at(place) else {
            return Ok(());
        };
        if other.get(host).is_some() {
            return Ok(());
        }
        let host = host.copy(alloc)?;
        hosts.push(host)
    }

    /// The hosts that the other servers do not have, in order.
    fn hosts_beyond(&self, alloc: Global, other: &Servers) -> Result<Rows<Host>, Memory>
        ensures { IfOk result (λ hosts. hosts ≡ hosts_beyond self.now other.now) }
    {
        let mut hosts = Rows::new(alloc);
        for place in 0..self.len() {
            self.note_beyond(alloc, other, place, &mut hosts)?;
        }
        Ok(hosts)
    }

    /// Whether the two have the same host at a place and know the same of it, means aside.
    fn is_same_at(&self, other: &Servers, changed: &Host, place: usize) -> bool
        requires { AlikeBeside changed.now self.now other.now }
        ensures { IsTrue result ↔ (slice_get (plain self.now) place ≡ slice_get (plain other.now) place) }
    {
        match (self.entry_at(place), other.entry_at(place)) {
            (None, None) => true,
            (Some((host, description)), Some((other_host, other_description))) => {
                *host == *other_host && is_same_of(host, changed, description, other_description)
            }
            _ => false,
        }
    }

    /// Whether the two have the same hosts and know the same of each, means aside. The two lie before and behind an event
    /// of the host that is given.
    fn is_same(&self, other: &Servers, changed: &Host) -> bool
        requires { AlikeBeside changed.now self.now other.now }
        ensures { IsTrue result ↔ (plain self.now ≡ plain other.now) }
    {
        if self.len() != other.len() {
            return false;
        }
        for place in 0..self.len() {
            if !self.is_same_at(other, changed, place) {
                return false;
            }
        }
        true
    }
}

/// Whether the two descriptions of a host are equal, means aside. All of them is compared for one host alone, the one that
/// an event changed; for another the kind tells, so that an event costs no comparison of long lists.
fn is_same_of(
    host: &Host,
    changed: &Host,
    description: &ServerDescription,
    other: &ServerDescription,
) -> bool
    requires { (host.now ≡ changed.now → ⊥) → description.now.kind ≡ other.now.kind → description.now ≡ other.now }
    ensures { IsTrue result ↔ (meanless description.now ≡ meanless other.now) }
{
    if *host == *changed {
        return is_same_but_mean(description, other);
    }
    description.kind == other.kind
}
