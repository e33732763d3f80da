ghost use Rattle.std.specs.Prelude.{◌≡◌, false, None, OnOk};
ghost use Rattle.desk_trail.specs.States.{number_of};
ghost use Rattle.wired_trail.specs.Hearing.{told_of};

use crate::Memory;
use crate::naming::number_from;
use cmd_build::Command;
use host_name::Host;
use net_link::Net;
use server_state::Server;
use std::alloc::AllocError;
use std::marker::Model;
use time_gossip::TimeGossip;
use topo_book::TopoBook;
use wired_trail::WiredTrail;

/// All that a desk has, between any two entries of its trail.
#[derive(Drop)]
pub struct Core<N: Net> {
    pub wired: WiredTrail<N>,
    pub topology: TopoBook,
    pub servers: Vec<Server>,
    pub gossip: TimeGossip,
    pub closings: usize,
    /// How many commands looked for a server and are not answered.
    pub begun: usize,
    pub last: u64,
    pub stopped: bool,
}

impl<N: Net> Model for Core<N> {
    ghost use Rattle.desk_core.specs.State.{Core as State};
    ghost use Rattle.desk_core.specs.Kept.{IsKept};
    ghost use Rattle.std.specs.Coded.{codes};
    ghost use Rattle.bson_doc.specs.contracts.value.Value as values;
    ghost use Rattle.topo_rules.specs.contracts.topology.Topology as topologies;

    ghost Value = { State N };

    ghost coded = { Prim.hlevel (codes, N.code, values.the_row.coded, topologies.the_row.coded) };

    ghost view = { λ d. record {
      net = d.wired.net;
      lines = d.wired.lines;
      trail = d.wired.trail;
      closings = d.closings;
      last = d.last;
      is_stopped = d.stopped;
    } };

    ghost invariant = { λ d. IsKept d.wired.trail d.wired.lines d.topology.topology d.servers.items d.gossip d.closings d.last d.stopped };
}

impl<N: Net> Core<N> {
    /// The commands that the client is to run, by their numbers.
    pub fn commands(&self) -> &[Command]
        ensures { result.now ≡ self.now.trail.client.commands }
    {
        self.wired.commands()
    }

    /// Each request on a stream that is to carry another was answered.
    pub fn check_free(&self, stream: u64) -> Result<(), Memory>
        ensures free { OnOk result (N.tells → (told_of self.now.trail stream).last ≡ None) }
    {
        if self.wired.is_free(stream) {
            Ok(())
        } else {
            // (cannot be: a command has its connection alone, and a check begins where none runs)
            Err(AllocError)
        }
    }

    /// The number of the server that stands in the topology with that address.
    pub fn number_of(&self, host: &Host) -> Option<u32>
        requires { self.now.is_stopped ≡ false }
        ensures { result ≡ number_of self.now.trail.point.state host.now }
    {
        number_from(&self.servers, host)
    }
}
