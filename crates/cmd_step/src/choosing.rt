ghost use Rattle.std.specs.Prelude.{◌≡◌, ℕ, Some, IfOk, IfSome, OnOk, slice_get};
ghost use Rattle.std.specs.Option.{option_map};
ghost use Rattle.write_retry.specs.declared.events.Next.TheVariants as next_of;
ghost use Rattle.desk_trail.specs.declared.entry.LookedHow.TheVariants as looked;
ghost use Rattle.desk_trail.specs.Clients.{Client};
ghost use Rattle.desk_trail.specs.Looks.{is_numbered, selected_of as selected_at};
ghost use Rattle.desk_trail.specs.States.{ClientState};
ghost use Rattle.cmd_state.specs.Inside.{selected_of};
ghost use Rattle.server_look.specs.Inputs.{HasDescription};
ghost use Rattle.cmd_step.specs.Looked.{looked_by};

use crate::Memory;
use cmd_state::{RunningCommand, Selected};
use conn_uri::Settings;
use hello_reply::{ServerDescription, ServerKind};
use server_state::Server;
use topo_rules::Topology;

/// The server of a number, as the topology has it; its description is shared with that.
fn selected_at(topology: &Topology, server: &Server, host: u32) -> Result<Option<Selected>, Memory>
    ensures selected { IfOk result (λ s. (w : ClientState) → w.topology ≡ topology.now → slice_get w.servers host ≡ Some server.now
        → option_map selected_of s ≡ selected_at w host) }
    ensures host { IfOk result (λ s. IfSome s (λ t. t.host ≡ host)) }
{
    match topology.share(server.host())? {
        Some(description) => Ok(Some(Selected {
            host,
            kind: topology.kind(),
            server: description,
            minutes: topology.session_minutes(),
        })),
        None => Ok(None),
    }
}

/// Whether transaction numbers are drawn at the server (Retryable Writes, Supported Server Versions, retryWrites).
fn is_numbered(settings: &Settings, selected: &Selected) -> bool
    ensures numbered { (client : Client) → client.settings ≡ settings.now → result ≡ is_numbered client (selected_of selected.now) }
{
    let server = &selected.server;
    settings.retry_writes
        && server.kind != ServerKind::Standalone
        && server.session_minutes.is_some()
}

/// The command chose the server of a number, which the topology has.
pub fn choose(
    settings: &Settings,
    topology: &Topology,
    server: &Server,
    host: u32,
    running: &mut RunningCommand,
) -> Result<(), Memory>
    requires selects { running.old.op.next ≡ next_of.Select }
    ensures ok { OnOk result ((client : Client) (w : ClientState) (moment : ℕ) → client.settings ≡ settings.now → w.topology ≡ topology.now
        → slice_get w.servers host ≡ Some server.now → HasDescription w.topology.servers w.servers host
        → running.new ≡ looked_by client w moment (looked.Chosen host) running.old) }
{
    if let Some(selected) = selected_at(topology, server, host)? {
        let numbered = is_numbered(settings, &selected);
        running.choose(selected, numbered);
    }
    Ok(())
}

/// The least wire version that a server speaks.
fn min_wire(description: &ServerDescription) -> i32
    ensures { result ≡ description.now.min_wire }
{
    description.min_wire
}

/// The greatest wire version that a server speaks.
fn max_wire(description: &ServerDescription) -> i32
    ensures { result ≡ description.now.max_wire }
{
    description.max_wire
}

/// The command found that the server of a number, which the topology has, speaks no wire version of this client (SDAM, Checking
/// wire protocol compatibility).
pub fn misfit(topology: &Topology, server: &Server, host: u32, running: &mut RunningCommand)
    requires selects { running.old.op.next ≡ next_of.Select }
    ensures found { (client : Client) (w : ClientState) (moment : ℕ) → w.topology ≡ topology.now → slice_get w.servers host ≡ Some server.now
        → HasDescription w.topology.servers w.servers host → running.new ≡ looked_by client w moment (looked.Incompatible host) running.old }
{
    if let Some(description) = topology.find(server.host()) {
        let min = min_wire(description);
        let max = max_wire(description);
        running.find_incompatible(host, min, max);
    }
}
