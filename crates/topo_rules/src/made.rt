ghost use Rattle.std.specs.Prelude.{◌≡◌, IfOk};
ghost use Rattle.std.specs.Arc.{arc_value};
ghost use Rattle.hello_reply.specs.Descriptions.{unknown as default_unknown_of};
ghost use Rattle.topo_rules.specs.Maps.{tabulate, joined, beside_primary, servers_of_primary};

use crate::Memory;
use crate::kinds::is_primary;
use crate::servers::Servers;
use crate::table::{Shared, append, unknown};
use host_name::Host;
use std::alloc::Global;
use std::sync::Arc;

/// Servers that are made anew, where an event adds or removes hosts.
impl Servers {
    /// The servers of these hosts, each a default Unknown.
    pub fn of_hosts(alloc: Global, hosts: &[Host]) -> Result<Servers, Memory>
        ensures { IfOk result (λ servers. servers ≡ tabulate hosts.now default_unknown_of) }
    {
        let mut table = Vec::with_capacity(alloc, hosts.len())?;
        for host in hosts {
            let description = unknown(alloc, host)?;
            append(&mut table, description)?;
        }
        let servers = Servers::sorted(alloc, table)?;
        Ok(servers)
    }

    /// These servers, and a default Unknown for each host that is not there.
    pub fn joined(&self, alloc: Global, hosts: &[Host]) -> Result<Servers, Memory>
        ensures { IfOk result (λ servers. servers ≡ joined self.now hosts.now) }
    {
        let mut table = self.table(alloc)?;
        for host in hosts {
            let description = self.known(alloc, host)?;
            append(&mut table, description)?;
        }
        let servers = Servers::sorted(alloc, table)?;
        Ok(servers)
    }

    /// What stands at a host that the primary lists.
    fn beside_primary(&self, alloc: Global, primary: &Shared, host: &Host) -> Result<Shared, Memory>
        ensures { IfOk result (λ shared. arc_value shared ≡ beside_primary self.now (arc_value primary.now) host.now) }
    {
        if *host == primary.host {
            return Arc::try_clone(primary);
        }
        let description = self.known(alloc, host)?;
        if is_primary(&description) {
            return unknown(alloc, host);
        }
        Ok(description)
    }

    /// The servers that the primary lists, and no others.
    pub fn of_primary(&self, alloc: Global, primary: &Shared) -> Result<Servers, Memory>
        ensures { IfOk result (λ servers. servers ≡ servers_of_primary self.now (arc_value primary.now)) }
    {
        let mut table = Vec::with_capacity(alloc, self.len())?;
        for host in primary.listed.as_slice() {
            let description = self.beside_primary(alloc, primary, host)?;
            append(&mut table, description)?;
        }
        let servers = Servers::sorted(alloc, table)?;
        Ok(servers)
    }
}
