ghost use Rattle.std.specs.Prelude.{◌≡◌, ◌≤◌, ◌<◌, ◌+◌, ◌^◌, ◌++◌, ◌∷◌, [], ℕ, List, IfOk, OnOk, length};
ghost use Rattle.desk_trail.specs.Clients.{Client, beat, pool_rules};
ghost use Rattle.desk_trail.specs.Owed.{Owed};
ghost use Rattle.desk_trail.specs.Owed as owed;
ghost use Rattle.desk_trail.specs.States.{fresh_server, number_from};
ghost use Rattle.desk_core.specs.Appends.{AppendsAside};
ghost use Rattle.desk_core.specs.Kept.{IsWriting};
ghost use Rattle.desk_core.specs.Rests.{KeepsChecks};
ghost use Rattle.desk_core.specs.Servers.{TouchesOnly};

use crate::Memory;
use crate::reserving::reserve_beside;
use crate::state::Core;
use conn_uri::Settings;
use desk_trail::Room;
use host_name::Host;
use net_link::Net;
use pool_book::PoolRules;
use server_state::Server;
use std::alloc::{AllocError, Global};

/// Room for the name of a host.
const A_NAME: Room = Room {
    names: 1,
    events: 0,
    sessions: 0,
    requests: 0,
    steps: 1,
};

/// One more than a count; where there is none, as where memory is wanting.
fn one_more(count: usize) -> Result<usize, Memory>
    ensures { IfOk result (λ n. n ≡ count + 1) }
{
    count.checked_add(1).ok_or(AllocError)
}

/// The number of the first of the servers that stands in the topology with that address.
pub fn number_from(servers: &[Server], host: &Host) -> Option<u32>
    requires { length servers.now ≤ 2 ^ 32 }
    ensures { result ≡ number_from 0 servers.now host.now }
{
    let mut place: usize = 0;
    'seeking: while place < servers.len() {
        if servers[place].is_at(host) {
            return Some(place as u32);
        }
        place += 1;
    }
    None
}

/// The rules of the pools of a client with those settings.
fn rules_of(settings: &Settings) -> PoolRules
    ensures rules { (client : Client) → client.settings ≡ settings.now → result ≡ pool_rules client }
    ensures size { 1 ≤ result.max_size }
    ensures connecting { 1 ≤ result.max_connecting }
{
    PoolRules {
        max_size: settings.max_pool,
        max_connecting: settings.max_connecting,
        idle_micros: settings.idle_ms * 1_000,
        wait_micros: settings.wait_ms * 1_000,
    }
}

/// A host that is to be named: its name for the trail, and its server.
fn newcomer(
    alloc: Global,
    settings: &Settings,
    moment: u64,
    host: &Host,
) -> Result<(Host, Server), Memory>
    requires { moment ≤ 2 ^ 62 }
    ensures name { IfOk result (λ made. made.0 ≡ host.now) }
    ensures server { IfOk result (λ made. (client : Client) → client.settings ≡ settings.now → made.1 ≡ fresh_server client moment host.now) }
    ensures paced { IfOk result (λ made. 0 < made.1.checks.beat) }
{
    let name = host.copy(alloc)?;
    let host = host.copy(alloc)?;
    let server = Server::new(
        alloc,
        host,
        rules_of(settings),
        settings.beat_ms * 1_000,
        moment,
    );
    Ok((name, server))
}

impl<N: Net> Core<N> {
    /// Names a host that was added to the topology: it gets the next number, a paused pool and a first check that is due at
    /// once (SDAM, Updating the TopologyDescription).
    pub fn name(&mut self, alloc: Global, moment: u64, host: &Host) -> Result<(), Memory>
        requires writing { (rest : List Owed) × (n : ℕ) × IsWriting self.old moment (n + 2) (owed.Named host.now ∷ rest) }
        requires count { length self.old.trail.lists.names < 2 ^ 32 }
        ensures ok { (rest : List Owed) (n : ℕ) → IsWriting self.old moment (n + 2) (owed.Named host.now ∷ rest) → OnOk result (IsWriting self.new moment n rest) }
        ensures others { OnOk result (TouchesOnly host.now self.old.trail.point.state self.new.trail.point.state) }
        ensures checks { OnOk result (KeepsChecks self.old.trail.point.state self.new.trail.point.state) }
        ensures names { OnOk result (self.new.trail.lists.names ≡ self.old.trail.lists.names ++ host.now ∷ []) }
        ensures net { self.new.net ≡ self.old.net }
        ensures lines { self.new.lines ≡ self.old.lines }
        ensures appends { AppendsAside ⊥ moment self.old.trail self.new.trail }
    {
        let (name, server) = newcomer(alloc, self.wired.settings(), moment, host)?;
        let closings = one_more(self.closings)?;
        reserve_beside(&mut self.wired, self.begun, A_NAME)?;
        self.servers.reserve(1)?;
        self.wired.name(moment, name);
        self.servers.push_reserved(server);
        self.closings = closings;
        Ok(())
    }
}
