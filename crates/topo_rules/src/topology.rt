ghost use Rattle.std.specs.Prelude.{◌≡◌, ◌≤◌, length, true, IfOk, OnOk, OnErr, IfSome, IsSome, IsTrue, option_copied, slice_get, ◌↔◌};
ghost use Rattle.std.specs.Arc.{arc_value};
ghost use Rattle.std.specs.Option.{option_map};
ghost use Rattle.topo_rules.specs.Laws.{MayStart};
ghost use Rattle.topo_rules.specs.Maps.{StandAtHosts, StandInOrder};
ghost use Rattle.topo_rules.specs.Outcomes.{IsOutcome, made};
ghost use Rattle.std.specs.FinMap as map;
ghost use Rattle.topo_rules.specs.Changes.{IsChange};
ghost use Rattle.topo_rules.specs.Readings.{misfit_of, session_minutes_of};
ghost use Rattle.topo_rules.specs.Rules.{opened, event_host, fresh, after};

use crate::cell::cell_at;
use crate::kinds::is_known;
use crate::outcome::{Edit, Outcome};
use crate::same::is_same_text;
use crate::served::pools_behind;
use crate::servers::Servers;
use crate::table::share;
use crate::texts::{copy_text, take_text};
use crate::{Change, Memory, TopoEvent, TopoKind};
use bson_doc::{Oid, Text};
use hello_reply::{ServerDescription, default_unknown};
use host_name::Host;
use rtt_mean::next;
use std::alloc::Global;
use std::sync::Arc;

/// The most seeds that a topology may start with.
const MOST_SEEDS: usize = 16_777_216;

/// The topology: servers and what is known of them as a whole (SDAM, TopologyDescription).
#[derive(Drop)]
pub struct Topology {
    pub(crate) kind: TopoKind,
    pub(crate) set_name: Option<Text>,
    pub(crate) max_election: Option<Oid>,
    pub(crate) max_set_version: Option<i64>,
    pub(crate) seeds: u32,
    pub(crate) direct: bool,
    pub(crate) servers: Servers,
}

impl Topology {
    /// Whether a topology may start with the hosts: there are 1 to 16,777,216, they differ, and a direct connection has one.
    pub fn may_start(alloc: Global, hosts: &[Host], direct: bool) -> Result<bool, Memory>
        ensures { IfOk result (λ may. IsTrue may ↔ MayStart hosts.now direct) }
    {
        if !counts(hosts.len(), direct) {
            return Ok(false);
        }
        let servers = Servers::of_hosts(alloc, hosts)?;
        Ok(servers.len() == hosts.len())
    }

    /// The topology of the seeds, each a default Unknown (SDAM, Initial Servers). A direct connection gives Single, else a
    /// set name NoPrimary, else the kind is Unknown. [`Topology::may_start`] tells whether the hosts are in order.
    pub fn start(
        alloc: Global,
        hosts: &[Host],
        set_name: Option<&str>,
        direct: bool,
    ) -> Result<Topology, Memory>
        requires { MayStart hosts.now direct }
        ensures { IfOk result (λ topology. topology ≡ opened hosts.now (option_map (λ name. name.now) set_name.entry) direct) }
    {
        let servers = Servers::of_hosts(alloc, hosts)?;
        let set_name = take_text(alloc, set_name)?;
        let kind = if direct {
            TopoKind::Single
        } else if set_name.is_some() {
            TopoKind::NoPrimary
        } else {
            TopoKind::Unknown
        };
        Ok(Topology {
            kind,
            set_name,
            max_election: None,
            max_set_version: None,
            seeds: hosts.len() as u32,
            direct,
            servers,
        })
    }

    /// The kind of the topology.
    pub fn kind(&self) -> TopoKind
        ensures { result ≡ self.now.kind }
    {
        self.kind
    }

    /// The name of the replica set; none where none was given or learned yet (SDAM, TopologyDescription: setName).
    pub fn set_name(&self) -> Option<&str>
        ensures value { option_copied result ≡ self.now.set_name }
    {
        match &self.set_name {
            Some(name) => Some(name.as_str()),
            None => None,
        }
    }

    /// The election that a later primary is compared with; none until a primary brought one (SDAM, TopologyDescription:
    /// maxElectionId).
    pub fn max_election(&self) -> Option<Oid>
        ensures value { result ≡ self.now.max_election }
    {
        self.max_election
    }

    /// The set version that a later primary is compared with; none until a primary brought one (SDAM, TopologyDescription:
    /// maxSetVersion).
    pub fn max_set_version(&self) -> Option<i64>
        ensures value { result ≡ self.now.max_set_version }
    {
        self.max_set_version
    }

    /// What is known of the server at a host; none where it is not in the topology.
    pub fn find(&self, host: &Host) -> Option<&ServerDescription>
        ensures value { option_copied result ≡ map.get self.now.servers host.now }
        ensures host { IfSome result (λ d. d.now.host ≡ host.now) }
    {
        self.servers.get(host)
    }

    /// What is known of the server at a host, shared with the topology, so that it is not copied; none where it is not in the
    /// topology. What the caller has stays as it is, whatever becomes of the topology.
    pub fn share(&self, host: &Host) -> Result<Option<Arc<ServerDescription, Global>>, Memory>
        ensures value { IfOk result (λ found. option_map (λ s. arc_value s) found ≡ map.get self.now.servers host.now) }
    {
        self.servers.share(host)
    }

    /// How many servers there are. What stands at a host is that host's description, and hosts stand in their order, each
    /// below those behind it by the bytes of its name and then by its port.
    pub fn len(&self) -> usize
        ensures len { result ≡ map.len self.now.servers }
        ensures hosts { StandAtHosts self.now.servers }
        ensures order { StandInOrder self.now.servers }
    {
        self.servers.len()
    }

    /// What is known of the server at a place in the order of hosts; none from the place `len` on. Each host stands at one
    /// place below `len`.
    pub fn at(&self, place: usize) -> Option<&ServerDescription>
        ensures value { option_copied result ≡ slice_get (map.values self.now.servers) place }
        ensures entry { option_map (λ d. (d.now.host, d.now)) result ≡ slice_get (map.entries self.now.servers) place }
    {
        self.servers.at(place)
    }

    /// The least session timeout of the data-bearing servers, in minutes; none where one has none or there are no such
    /// servers (SDAM, logicalSessionTimeoutMinutes).
    pub fn session_minutes(&self) -> Option<i64>
        ensures { result ≡ session_minutes_of self.now.servers }
    {
        self.servers.session_minutes()
    }

    /// The least host's known server that speaks none of the wire versions 13 to 25 (SDAM, Checking wire protocol
    /// compatibility).
    pub fn misfit(&self) -> Option<&ServerDescription>
        ensures { option_copied result ≡ misfit_of self.now.servers }
    {
        self.servers.misfit()
    }

    /// An equal topology. It shares the servers with this one, and so takes no more memory than its set name.
    pub fn copy(&self, alloc: Global) -> Result<Topology, Memory>
        ensures { IfOk result (λ topology. topology ≡ self.now) }
    {
        let set_name = copy_text(alloc, &self.set_name)?;
        let servers = self.servers.copy()?;
        Ok(Topology {
            kind: self.kind,
            set_name,
            max_election: self.max_election,
            max_set_version: self.max_set_version,
            seeds: self.seeds,
            direct: self.direct,
            servers,
        })
    }

    /// What the event says of its host.
    fn fresh(&self, alloc: Global, event: &TopoEvent) -> Result<ServerDescription, Memory>
        ensures { IfOk result (λ description. description ≡ fresh self.now.servers event.now) }
    {
        match event {
            TopoEvent::Reply {
                description,
                sample,
            } => {
                let mut fresh = description.copy(alloc)?;
                fresh.mean = if is_known(description) {
                    Some(next(self.servers.mean(&description.host), *sample))
                } else {
                    None
                };
                Ok(fresh)
            }
            TopoEvent::Broken { host, .. } => {
                let fresh = default_unknown(alloc, host)?;
                Ok(fresh)
            }
            TopoEvent::Refused { host, version, .. } => {
                let mut fresh = default_unknown(alloc, host)?;
                fresh.version = *version;
                Ok(fresh)
            }
        }
    }

    /// What the event makes of the topology.
    fn outcome(&self, alloc: Global, event: &TopoEvent) -> Result<Outcome, Memory>
        ensures { IfOk result (IsOutcome self.now (event_host event.now) (after self.now event.now)) }
    {
        let fresh = self.fresh(alloc, event)?;
        let kind = fresh.kind;
        let fresh = share(alloc, fresh)?;
        self.settle(alloc, cell_at(self.kind, kind), &fresh)
    }

    /// Whether the outcome leaves the set name and the maxima as they are.
    fn keeps(&self, outcome: &Outcome) -> bool
        ensures { IsTrue result ↔ ((self.now.set_name ≡ (made self.now outcome.now).set_name) × (self.now.max_election ≡ (made self.now outcome.now).max_election) × (self.now.max_set_version ≡ (made self.now outcome.now).max_set_version)) }
    {
        (outcome.name.is_none() || is_same_text(&self.set_name, &outcome.name))
            && self.max_election == outcome.most.election
            && self.max_set_version == outcome.most.version
    }

    /// Makes the topology what the outcome says.
    fn take(&mut self, alloc: Global, outcome: Outcome) -> Result<(), Memory>
        ensures ok { OnOk result (self.new ≡ made self.old outcome) }
        ensures err { OnErr result (self.new ≡ self.old) }
    {
        let Outcome {
            edit,
            kind,
            name,
            most,
        } = outcome;
        match edit {
            Edit::Put(description) => self.servers.put(alloc, description)?,
            Edit::Whole(servers) => self.servers = servers,
        }
        if name.is_some() {
            self.set_name = name;
        }
        self.max_election = most.election;
        self.max_set_version = most.version;
        self.kind = self.servers.kind_by(kind);
        Ok(())
    }

    /// Takes an event in, and tells what it changed. The event's host is in the topology. Where memory is wanting the
    /// topology is as it was. All that needs memory is prepared first: a table that no copy shares is written in place, and
    /// no host that the event leaves alone is copied.
    pub fn apply(&mut self, alloc: Global, event: &TopoEvent) -> Result<Change, Memory>
        requires { IsSome (map.get self.old.servers (event_host event.now)) }
        ensures topology { OnOk result (self.new ≡ after self.old event.now) }
        ensures change { IfOk result (IsChange self.old event.now (after self.old event.now)) }
        ensures err { OnErr result (self.new ≡ self.old) }
    {
        let host = event.host().copy(alloc)?;
        let outcome = self.outcome(alloc, event)?;
        let moves = self.servers.moves(alloc, &outcome.edit, &host)?;
        let kept = self.keeps(&outcome);
        let kind = self.kind;
        self.take(alloc, outcome)?;
        let same = moves.same && kept && kind == self.kind;
        let (ready, clear) = pools_behind(event, host, self);
        Ok(Change {
            added: moves.added,
            removed: moves.removed,
            ready,
            clear,
            differs: !same,
        })
    }

    /// The topology after an event, beside this one, and what the event changed. The event's host is in this topology.
    pub fn after(&self, alloc: Global, event: &TopoEvent) -> Result<(Topology, Change), Memory>
        requires { IsSome (map.get self.now.servers (event_host event.now)) }
        ensures topology { IfOk result (λ r. r.0 ≡ after self.now event.now) }
        ensures change { IfOk result (λ r. IsChange self.now event.now (after self.now event.now) r.1) }
    {
        let mut next = self.copy(alloc)?;
        let change = next.apply(alloc, event)?;
        Ok((next, change))
    }
}

/// Whether a topology may start with so many hosts.
fn counts(hosts: usize, direct: bool) -> bool
    ensures { IsTrue result ↔ ((1 ≤ hosts) × (hosts ≤ 16777216) × (direct ≡ true → hosts ≡ 1)) }
{
    1 <= hosts && hosts <= MOST_SEEDS && (!direct || hosts == 1)
}
