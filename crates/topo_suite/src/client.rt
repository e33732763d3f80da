use conn_uri::{Settings, UriFault, parse};
use host_name::{Host, HostFault};
use pool_book::{PoolBook, PoolRules};
use std::alloc::Global;
use suite_files::{Fault, Memory};
use topo_book::{Taken, TopoBook};
use topo_rules::{Change, TopoEvent, Topology};

/// The rules of all pools: no limit plays a part here.
const RULES: PoolRules = PoolRules {
    max_size: 1,
    max_connecting: 1,
    idle_micros: 0,
    wait_micros: 0,
};

/// The longest connection string that is read, in bytes.
const LONGEST: usize = 16_777_216;

/// A topology's book, with a pool for each server.
#[derive(Drop)]
pub struct Client {
    book: TopoBook,
    pools: Vec<(Host, PoolBook)>,
    /// How many wire versions were lifted.
    pub lifted: u64,
}

impl Client {
    /// The client of a connection string.
    pub fn open(alloc: Global, uri: &str) -> Result<Client, Fault> {
        let settings = settings_of(alloc, uri)?;
        let hosts = settings.hosts.as_slice();
        let name = settings.set_name.as_ref().map(|name| name.as_str());
        let topology = Topology::start(alloc, hosts, name, settings.direct)?;
        Client::of_topology(alloc, topology, hosts)
    }

    fn of_topology(alloc: Global, topology: Topology, hosts: &[Host]) -> Result<Client, Fault> {
        let mut client = Client {
            book: TopoBook::new(alloc, topology),
            pools: Vec::new(alloc),
            lifted: 0,
        };
        for host in hosts {
            client.add_pool(alloc, host)?;
        }
        Ok(client)
    }

    /// The topology.
    pub fn topology(&self) -> &Topology {
        self.book.topology()
    }

    /// The generation of a server's pool, 0 where there is none.
    pub fn generation(&self, host: &Host) -> u64 {
        match self.pools.iter().find(|pool| pool.0 == *host) {
            Some(pool) => pool.1.generation(),
            None => 0,
        }
    }

    /// Offers an event to the book, and lets the pools follow what it changed.
    pub fn offer(&mut self, alloc: Global, event: TopoEvent) -> Result<(), Fault> {
        let generation = self.generation(event.host());
        match self.book.offer(alloc, event, generation)? {
            Taken::Accepted(change) => self.follow(alloc, &change),
            Taken::Gone | Taken::StaleVersion { .. } | Taken::StaleGeneration { .. } => Ok(()),
        }
    }

    /// Lets the pools follow a change: servers that left have none, and those that came have a new one.
    fn follow(&mut self, alloc: Global, change: &Change) -> Result<(), Fault> {
        for host in change.removed.as_slice() {
            if let Some(place) = self.pools.iter().position(|pool| pool.0 == *host) {
                self.pools.remove(place);
            }
        }
        for host in change.added.as_slice() {
            self.add_pool(alloc, host)?;
        }
        if let Some(host) = &change.ready {
            self.make_ready(host);
        }
        if let Some(host) = &change.clear {
            self.clear(host);
        }
        Ok(())
    }

    fn add_pool(&mut self, alloc: Global, host: &Host) -> Result<(), Memory> {
        let pool = PoolBook::new(alloc, RULES);
        self.pools.push((host.copy(alloc)?, pool))?;
        Ok(())
    }

    fn make_ready(&mut self, host: &Host) {
        for pool in self.pools.iter_mut() {
            if pool.0 == *host {
                pool.1.ready();
            }
        }
    }

    fn clear(&mut self, host: &Host) {
        for pool in self.pools.iter_mut() {
            if pool.0 == *host && pool.1.generation() < u64::MAX {
                pool.1.clear();
            }
        }
    }
}

/// The settings of a connection string.
fn settings_of(alloc: Global, uri: &str) -> Result<Settings, Fault> {
    if uri.len() > LONGEST {
        return Err(Fault::told(alloc, "the connection string is too long"));
    }
    match parse(alloc, uri) {
        Ok(settings) => Ok(settings),
        Err(UriFault::Memory) => Err(Fault::Memory),
        Err(UriFault::Left { name }) => {
            let text = format_args!("the connection string asks for {}", name.as_str());
            Err(Fault::told(alloc, text))
        }
        Err(fault) => Err(Fault::told(alloc, fault)),
    }
}

/// The host of a name.
pub fn host_of(alloc: Global, name: &str) -> Result<Host, Fault> {
    match Host::parse(alloc, name) {
        Ok(host) => Ok(host),
        Err(HostFault::Memory) => Err(Fault::Memory),
        Err(fault) => Err(Fault::told(alloc, fault)),
    }
}
