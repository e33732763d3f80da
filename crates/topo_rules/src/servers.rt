ghost use Rattle.std.specs.Prelude.{◌≡◌, ◌<◌, option_copied, option_map, OnOk, OnErr, IfOk, IfSome, IfNone, HoldsAt, None, T, slice_get};
ghost use Rattle.std.specs.FinMap as map;
ghost use Rattle.std.specs.Arc.{arc_value};
ghost use Rattle.topo_rules.specs.Maps.{StandAtHosts, StandInOrder, kept_mean, known_or_new, has_primary};
ghost use Rattle.topo_rules.specs.Outcomes.{kind_by};
ghost use Rattle.topo_rules.specs.Readings.{misfit_of, session_minutes_of};
ghost use Rattle.host_name.specs.Addresses.{address_cmp};
ghost use Rattle.topo_rules.specs.Seen.{by_host, described, seen};

use crate::outcome::KindRule;
use crate::readings::{first_misfit, least_minutes, some_is_primary};
use crate::table::{
    Shared, Table, append, append_other, find_in, place_of, put_in_order, set_at, share_table,
    shared_at, shared_table, unknown,
};
use crate::{Memory, TopoKind};
use hello_reply::ServerDescription;
use host_name::Host;
use std::alloc::Global;
use std::marker::Model;
use std::sync::Arc;

/// The servers of a topology, in the order of hosts.
///
/// They are found by halves, since hosts are named by peers: a hash of a fixed seed would let a peer choose names that all
/// meet. The table and each description in it are shared with copies, and one that is shared no more is written in place.
#[derive(Drop)]
pub struct Servers {
    table: Arc<Table, Global>,
}

impl Model for Servers {
    ghost use Rattle.std.specs.Prelude.{T};
    ghost use Rattle.std.specs.FinMap as map;
    ghost use Rattle.std.specs.Arc.{arc_value};
    ghost use Rattle.host_name.specs.Addresses.{address_cmp};
    ghost use Rattle.hello_reply.specs.declared.server_description.ServerDescription.{ServerDescription};

    ghost Value = { map.FinMap address_cmp ServerDescription };

    ghost use Rattle.host_name.specs.contracts.host.Host as hosts;
    ghost use Rattle.hello_reply.specs.contracts.server_description.ServerDescription as described_as;

    ghost coded = { map.code hosts.the_row.coded described_as.the_row.coded };

    ghost use Rattle.topo_rules.specs.Seen.{by_host, described, seen};

    ghost view = { λ s. seen (arc_value s.table).items };

    ghost invariant = { λ s. T (map.is_sorted address_cmp (by_host (described (arc_value s.table).items))) };
}

impl Servers {
    /// What is known of the server at a place, with its host.
    pub fn entry_at(&self, place: usize) -> Option<(&Host, &ServerDescription)>
        ensures { option_map (λ e. (e.0.now, e.1.now)) result ≡ slice_get (map.entries self.now) place }
    {
        match self.at(place) {
            Some(description) => Some((&description.host, description)),
            None => None,
        }
    }

    /// The servers of a table.
    pub fn sorted(alloc: Global, mut table: Table) -> Result<Servers, Memory>
        ensures { IfOk result (λ servers. servers ≡ seen table.items) }
    {
        put_in_order(&mut table)?;
        let table = share_table(alloc, table)?;
        Ok(Servers { table })
    }

    /// The descriptions, in the order of hosts.
    fn rows(&self) -> &[Shared]
        ensures seen { seen result.now ≡ self.now }
        ensures order { T (map.is_sorted address_cmp (by_host (described result.now))) }
        ensures hosts { StandAtHosts self.now }
    {
        self.table.as_slice()
    }

    /// How many servers there are.
    pub fn len(&self) -> usize
        ensures len { result ≡ map.len self.now }
        ensures hosts { StandAtHosts self.now }
        ensures order { StandInOrder self.now }
    {
        self.rows().len()
    }

    /// What is known of the server at a place in the order of hosts.
    pub fn at(&self, place: usize) -> Option<&ServerDescription>
        ensures value { option_copied result ≡ slice_get (map.values self.now) place }
        ensures entry { option_map (λ d. (d.now.host, d.now)) result ≡ slice_get (map.entries self.now) place }
    {
        match shared_at(self.rows(), place) {
            Some(shared) => Some(&**shared),
            None => None,
        }
    }

    /// What is known of the server at a host, to be shared. The host is found by halves.
    fn find(&self, host: &Host) -> Option<&Shared>
        ensures value { option_map (λ s. arc_value s) (option_copied result) ≡ map.get self.now host.now }
        ensures hosts { StandAtHosts self.now }
    {
        find_in(self.rows(), host)
    }

    /// What is known of the server at a host.
    pub fn get(&self, host: &Host) -> Option<&ServerDescription>
        ensures value { option_copied result ≡ map.get self.now host.now }
        ensures host { IfSome result (λ d. d.now.host ≡ host.now) }
    {
        match self.find(host) {
            Some(shared) => Some(&**shared),
            None => None,
        }
    }

    /// What is known of the server at a host, shared with these.
    pub fn share(&self, host: &Host) -> Result<Option<Shared>, Memory>
        ensures { IfOk result (λ found. option_map (λ s. arc_value s) found ≡ map.get self.now host.now) }
    {
        match self.find(host) {
            Some(shared) => {
                let shared = Arc::try_clone(shared)?;
                Ok(Some(shared))
            }
            None => Ok(None),
        }
    }

    /// What is known of a host, to be shared; a default Unknown where it is not there.
    pub fn known(&self, alloc: Global, host: &Host) -> Result<Shared, Memory>
        ensures { IfOk result (λ shared. arc_value shared ≡ known_or_new self.now host.now) }
    {
        match self.find(host) {
            Some(shared) => {
                let shared = Arc::try_clone(shared)?;
                Ok(shared)
            }
            None => {
                let shared = unknown(alloc, host)?;
                Ok(shared)
            }
        }
    }

    /// The mean round trip time that is kept for a host.
    pub fn mean(&self, host: &Host) -> Option<u64>
        ensures { result ≡ kept_mean self.now host.now }
    {
        match self.get(host) {
            Some(description) => description.mean,
            None => None,
        }
    }

    /// Equal servers, which share the table with these.
    pub fn copy(&self) -> Result<Servers, Memory>
        ensures { IfOk result (λ servers. servers ≡ self.now) }
    {
        let table = Arc::try_clone(&self.table)?;
        Ok(Servers { table })
    }

    /// A table of its own that shares the descriptions.
    pub fn table(&self, alloc: Global) -> Result<Table, Memory>
        ensures value { IfOk result (λ table. described table.items ≡ map.values self.now) }
        ensures hosts { IfOk result (λ _. StandAtHosts self.now) }
    {
        let table = shared_table(alloc, self.rows())?;
        Ok(table)
    }

    /// The place of a host, which is found by halves.
    fn place(&self, host: &Host) -> Option<usize>
        ensures found { IfSome result (HoldsAt (λ d. d.host ≡ host.now) (map.values self.now)) }
        ensures within { IfSome result (λ i. i < map.len self.now) }
        ensures absent { IfNone result (map.get self.now host.now ≡ None) }
    {
        match place_of(self.rows(), host) {
            Some(place) => Some(place),
            None => None,
        }
    }

    /// Puts a description at its host.
    pub fn put(&mut self, alloc: Global, description: Shared) -> Result<(), Memory>
        ensures ok { OnOk result (self.new ≡ map.insert self.old (arc_value description).host (arc_value description)) }
        ensures err { OnErr result (self.new ≡ self.old) }
    {
        match self.place(&description.host) {
            Some(place) => self.replace(alloc, place, description),
            None => self.add(alloc, description),
        }
    }

    /// Puts a description at the place of its host.
    fn replace(&mut self, alloc: Global, place: usize, description: Shared) -> Result<(), Memory>
        requires within { place < map.len self.old }
        requires host { HoldsAt (λ d. d.host ≡ (arc_value description).host) (map.values self.old) place }
        ensures ok { OnOk result (self.new ≡ map.insert self.old (arc_value description).host (arc_value description)) }
        ensures err { OnErr result (self.new ≡ self.old) }
    {
        set_at(alloc, &mut self.table, place, description)?;
        Ok(())
    }

    /// Puts a description at a host that is not there.
    fn add(&mut self, alloc: Global, description: Shared) -> Result<(), Memory>
        requires { map.get self.old (arc_value description).host ≡ None }
        ensures ok { OnOk result (self.new ≡ map.insert self.old (arc_value description).host (arc_value description)) }
        ensures err { OnErr result (self.new ≡ self.old) }
    {
        let mut table = self.table(alloc)?;
        append(&mut table, description)?;
        let servers = Servers::sorted(alloc, table)?;
        *self = servers;
        Ok(())
    }

    /// These servers without a host.
    pub fn without(&self, alloc: Global, host: &Host) -> Result<Servers, Memory>
        ensures { IfOk result (λ servers. servers ≡ map.remove self.now host.now) }
    {
        let rows = self.rows();
        let mut table = Vec::with_capacity(alloc, rows.len())?;
        for shared in rows {
            append_other(&mut table, shared, host)?;
        }
        let servers = Servers::sorted(alloc, table)?;
        Ok(servers)
    }

    /// Whether some server is a primary.
    pub fn has_primary(&self) -> bool
        ensures { result ≡ has_primary self.now }
    {
        some_is_primary(self.rows())
    }

    /// The kind that the rule gives over these servers.
    pub fn kind_by(&self, rule: KindRule) -> TopoKind
        ensures { result ≡ kind_by rule self.now }
    {
        match rule {
            KindRule::Is(kind) => kind,
            KindRule::ByPrimary => {
                if self.has_primary() {
                    TopoKind::WithPrimary
                } else {
                    TopoKind::NoPrimary
                }
            }
        }
    }

    /// The misfit of the least host.
    pub fn misfit(&self) -> Option<&ServerDescription>
        ensures { option_copied result ≡ misfit_of self.now }
    {
        first_misfit(self.rows())
    }

    /// The least session timeout of the data-bearing servers, in minutes.
    pub fn session_minutes(&self) -> Option<i64>
        ensures { result ≡ session_minutes_of self.now }
    {
        least_minutes(self.rows())
    }
}
