ghost use Rattle.std.specs.Prelude.{◌≡◌, ◌≤◌, ◌^◌, Some, OnOk, slice_get, slice_set};
ghost use Rattle.write_retry.specs.declared.events.Next.TheVariants as next_of;
ghost use Rattle.desk_trail.specs.declared.entry.Entry.TheVariants as entry_of;
ghost use Rattle.desk_trail.specs.Clients.{Client};
ghost use Rattle.desk_trail.specs.Facts as fact;
ghost use Rattle.desk_trail.specs.Looks.{IsLook};
ghost use Rattle.desk_trail.specs.States.{ClientState};
ghost use Rattle.desk_trail.specs.Written.{an_entry};
ghost use Rattle.legal_trail.specs.Recorded.{Adds};
ghost use Rattle.server_look.specs.Inputs.{IsDescribed};
ghost use Rattle.cmd_step.specs.Free.{IsFree};
ghost use Rattle.cmd_step.specs.Looked.{looked_by, servers_behind};

use crate::Memory;
use crate::asking::ask_all;
use crate::choosing::{choose, misfit};
use cmd_state::RunningCommand;
use conn_uri::Settings;
use desk_trail::{Entry, LookedHow};
use net_link::Net;
use server_look::LookAnswer;
use server_state::Server;
use topo_rules::Topology;
use wired_trail::WiredTrail;

/// Which command looked, when, with which words, and at which topology.
#[derive(Clone, Copy)]
pub struct Looking<'a> {
    /// The topology.
    pub topology: &'a Topology,
    /// The command's number.
    pub op: u32,
    /// The moment of the look, in microseconds.
    pub moment: u64,
    /// The words that drew two of the servers in the latency window.
    pub words: (u64, u64),
}

/// Moves the command and the servers by what its look came to. Where a description cannot be shared once more they are as they
/// were.
fn conclude(
    settings: &Settings,
    looking: Looking<'_>,
    servers: &mut [Server],
    running: &mut RunningCommand,
    how: LookedHow,
) -> Result<(), Memory>
    requires moment { looking.moment ≤ 2 ^ 62 }
    requires selects { running.old.op.next ≡ next_of.Select }
    requires described { IsDescribed looking.topology.now.servers servers.old how }
    ensures command { OnOk result ((client : Client) (w : ClientState) → client.settings ≡ settings.now → w.topology ≡ looking.entry.topology.now
        → w.servers ≡ servers.old → running.new ≡ looked_by client w looking.entry.moment how running.old) }
    ensures servers { OnOk result (servers.new ≡ servers_behind looking.entry.moment how servers.old) }
{
    match how {
        LookedHow::Chosen { host } => {
            let server = &servers[host as usize];
            choose(settings, looking.topology, server, host, running)?;
        }
        LookedHow::Incompatible { host } => {
            let server = &servers[host as usize];
            misfit(looking.topology, server, host, running);
        }
        LookedHow::Failed => running.find_none(),
        LookedHow::NoneFits => {
            running.wait_for_server(looking.moment, servers.len());
            ask_all(servers, looking.moment);
        }
    }
    Ok(())
}

/// Appends a look to the trail, where it may stand, within room that was taken, and moves the command and the servers by it. Where
/// a description cannot be shared once more the entry stands, and the command and the servers are as they were.
pub fn record_look<N: Net>(
    wired: &mut WiredTrail<N>,
    looking: Looking<'_>,
    servers: &mut [Server],
    running: &mut RunningCommand,
    answer: LookAnswer,
) -> Result<(), Memory>
    requires free { IsFree wired.old.trail.point looking.moment }
    requires room { 1 ≤ wired.old.trail.room.steps }
    requires moment { looking.moment ≤ 2 ^ 62 }
    requires topology { wired.old.trail.point.state.topology ≡ looking.topology.now }
    requires servers { wired.old.trail.point.state.servers ≡ servers.old }
    requires command { slice_get wired.old.trail.point.state.commands looking.op ≡ Some running.old }
    requires selects { running.old.op.next ≡ next_of.Select }
    requires looks { IsLook wired.old.trail.client wired.old.trail.point.state looking.moment looking.op looking.words.0 looking.words.1 answer.kept answer.how }
    requires described { IsDescribed wired.old.trail.point.state.topology.servers wired.old.trail.point.state.servers answer.how }
    ensures adds { Adds an_entry wired.old.trail.lists looking.entry.moment
        (entry_of.Looked looking.entry.op looking.entry.words.0 looking.entry.words.1 answer.kept answer.how)
        (fact.Looked looking.entry.op looking.entry.words.0 looking.entry.words.1 answer.kept answer.how) wired.old.trail wired.new.trail }
    ensures same { wired.new ≡ record wired.old { trail = wired.new.trail } }
    ensures moved { OnOk result (wired.new.trail.point.state ≡ record wired.old.trail.point.state {
      servers = servers.new;
      commands = slice_set wired.old.trail.point.state.commands looking.entry.op running.new;
    }) }
{
    let LookAnswer { kept, how } = answer;
    let (a, b) = looking.words;
    wired.append(
        looking.moment,
        Entry::Looked {
            op: looking.op,
            a,
            b,
            kept,
            picked: how,
        },
    );
    conclude(wired.settings(), looking, servers, running, how)?;
    Ok(())
}
