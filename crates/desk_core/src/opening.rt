ghost use Rattle.std.specs.Prelude.{◌≡◌, ◌≤◌, ◌^◌, [], false, length, map, IfErr, IfOk, OnOk};
ghost use Rattle.legal_trail.specs.Recorded.{told_in};
ghost use Rattle.sess_book.specs.Sessions.{no_sessions};
ghost use Rattle.topo_rules.specs.Rules.{opened};
ghost use Rattle.desk_trail.specs.Legal.{beginning};
ghost use Rattle.desk_trail.specs.States.{fresh_command};
ghost use Rattle.desk_trail.specs.Written.{no_lists};
ghost use Rattle.desk_core.specs.Appends.{AppendsAside, AreQuiet, TellsNone};
ghost use Rattle.desk_core.specs.Kept.{IsReady};

use crate::Memory;
use crate::operation::Operation;
use crate::state::Core;
use bson_doc::Rows;
use cmd_build::Command;
use conn_uri::Settings;
use desk_trail::Room;
use host_name::Host;
use net_link::Net;
use std::alloc::Global;
use time_gossip::TimeGossip;
use topo_book::TopoBook;
use topo_rules::Topology;
use wired_trail::WiredTrail;

/// The topology of the seeds (SDAM, Initial Servers).
fn seeds_of(alloc: Global, settings: &Settings) -> Result<Topology, Memory>
    ensures { IfOk result (λ topology. topology ≡ opened settings.now.hosts settings.now.set_name settings.now.direct) }
{
    let name = settings.set_name.as_ref().map(|name| name.as_str());
    Topology::start(alloc, settings.hosts.as_slice(), name, settings.direct)
}

/// Copies of the seeds, which are named while the desk owns its settings.
fn copies_of(alloc: Global, hosts: &[Host]) -> Result<Rows<Host>, Memory>
    ensures { IfOk result (λ copies. copies ≡ hosts.now) }
{
    let mut copies = Rows::new(alloc);
    copies.reserve(hosts.len())?;
    for host in hosts {
        let copy = host.copy(alloc)?;
        copies.push(copy)?;
    }
    Ok(copies)
}

/// The commands, for each of which nothing was done.
pub fn operations_of(alloc: Global, commands: &[Command]) -> Result<Vec<Operation>, Memory>
    ensures { IfOk result (λ operations. operations.items ≡ map fresh_command commands.now) }
{
    let mut operations = Vec::new(alloc);
    for command in commands {
        operations.push(Operation::new(command))?;
    }
    Ok(operations)
}

/// What a client has once its seeds are named. Where memory is wanting the net comes back as it was.
pub fn core_of<N: Net>(
    alloc: Global,
    net: N,
    settings: Settings,
    commands: Rows<Command>,
    moment: u64,
) -> Result<Core<N>, N>
    requires moment { moment ≤ 2 ^ 62 }
    requires fresh { N.tells → N.history net ≡ [] }
    ensures client { IfOk result (λ d. d.trail.client ≡ record { settings = settings; commands = commands; began = moment }) }
    ensures ready { IfOk result (λ d. IsReady d moment) }
    ensures quiet { IfOk result (λ d. AreQuiet moment d.trail.steps) }
    ensures names { IfOk result (λ d. TellsNone (told_in d.trail)) }
    ensures net { IfOk result (λ d. d.net ≡ net) }
    ensures commands { IfOk result (λ d. d.trail.point.state.commands ≡ map fresh_command commands) }
    ensures sessions { IfOk result (λ d. d.trail.point.state.sessions ≡ no_sessions) }
    ensures ids { IfOk result (λ d. d.trail.lists.sessions ≡ []) }
    ensures returned { IfErr result (λ n. n ≡ net) }
{
    let Ok(topology) = seeds_of(alloc, &settings) else {
        return Err(net);
    };
    let Ok(seeds) = copies_of(alloc, settings.hosts.as_slice()) else {
        return Err(net);
    };
    let wired = WiredTrail::new(alloc, settings, commands, moment, net);
    let mut core = Core::new(alloc, wired, topology, moment);
    match core.name_seeds(alloc, moment, seeds.as_slice()) {
        Ok(()) => Ok(core),
        Err(_) => Err(core.into_net()),
    }
}

impl<N: Net> Core<N> {
    /// What a client has before its seeds are named. It takes no memory.
    pub fn new(alloc: Global, wired: WiredTrail<N>, topology: Topology, moment: u64) -> Core<N>
        requires moment { moment ≤ 2 ^ 62 }
        requires began { wired.trail.client.began ≡ moment }
        requires lists { wired.trail.lists ≡ no_lists }
        requires point { wired.trail.point ≡ beginning wired.trail.client }
        requires topology { topology ≡ opened wired.trail.client.settings.hosts wired.trail.client.settings.set_name wired.trail.client.settings.direct }
        ensures wired { result.trail ≡ wired.trail }
        ensures lines { result.lines ≡ wired.lines }
        ensures net { result.net ≡ wired.net }
        ensures last { result.last ≡ moment }
        ensures runs { result.is_stopped ≡ false }
        ensures none { result.closings ≡ 0 }
    {
        Core {
            wired,
            topology: TopoBook::new(alloc, topology),
            servers: Vec::new(alloc),
            gossip: TimeGossip::new(),
            closings: 0,
            begun: 0,
            last: moment,
            stopped: false,
        }
    }

    /// Names the seeds, in this order.
    pub fn name_seeds(&mut self, alloc: Global, moment: u64, seeds: &[Host]) -> Result<(), Memory>
        requires seeds { seeds.now ≡ self.old.trail.client.settings.hosts }
        requires begins { self.old.trail.point ≡ beginning self.old.trail.client }
        requires began { self.old.trail.client.began ≡ moment }
        requires last { self.old.last ≡ moment }
        requires lists { self.old.trail.lists ≡ no_lists }
        requires runs { self.old.is_stopped ≡ false }
        requires none { self.old.closings ≡ 0 }
        requires few { length seeds.now ≤ 16777216 }
        ensures ok { OnOk result (IsReady self.new moment) }
        ensures appends { AppendsAside ⊥ moment self.old.trail self.new.trail }
        ensures net { self.new.net ≡ self.old.net }
        ensures lines { self.new.lines ≡ self.old.lines }
    {
        self.wired.reserve(Room {
            names: seeds.len(),
            events: 0,
            sessions: 0,
            requests: 0,
            steps: seeds.len() * 2,
        })?;
        self.name_all(alloc, moment, seeds)
    }

    /// Whether it stopped for want of memory.
    pub fn is_stopped(&self) -> bool
        ensures { result ≡ self.now.is_stopped }
    {
        self.stopped
    }

    /// The net of a desk of which no stream is in use.
    pub fn into_net(self) -> N
        requires { self.lines ≡ [] }
        ensures { result ≡ self.net }
    {
        let Core { wired, .. } = self;
        wired.into_net()
    }
}
