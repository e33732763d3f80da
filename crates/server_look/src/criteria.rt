ghost use Rattle.std.specs.Prelude.{◌≡◌};
ghost use Rattle.std.specs.Option.{option_and_then, option_copied};
ghost use Rattle.desk_trail.specs.Clients.{Client};
ghost use Rattle.desk_trail.specs.Looks.{IsAskedBy, NeedsFor};
ghost use Rattle.desk_trail.specs.States.{ClientState, address_of};
ghost use Rattle.server_look.specs.Inputs.{IsOf};

use crate::{Asking, Input};
use cmd_build::{Act, Command};
use conn_uri::Settings;
use host_name::Host;
use server_pick::{Criteria, Need};
use server_state::Server;

/// A read goes by the command's own preference, else by the client's; every other command writes (Server Selection, Read
/// Preference).
fn need_of<'a>(settings: &'a Settings, command: &'a Command) -> Need<'a>
    ensures need { (client : Client) → client.settings ≡ settings.now → NeedsFor client command.now.act result }
{
    match &command.act {
        Act::Find {
            read: Some(read),
            ..
        } => Need::Read(read),
        Act::Find { read: None, .. } => Need::Read(&settings.read),
        _ => Need::Write,
    }
}

/// The address of the server that was tried first.
fn avoided<'a>(servers: &'a [Server], tried: Option<u32>) -> Option<&'a Host>
    ensures avoid { (w : ClientState) → w.servers ≡ servers.now → option_copied result ≡ option_and_then (address_of w) tried }
{
    let number = tried?;
    match servers.get(number as usize) {
        Some(server) => Some(server.host()),
        None => None,
    }
}

/// What the command's look asks for (Server Selection; Retryable Writes, a retry avoids the server of the first attempt).
pub fn criteria_of<'a>(input: Input<'a>, asking: Asking<'a>) -> Criteria<'a>
    ensures asks { (client : Client) (w : ClientState) → IsOf client w input.entry → IsAskedBy client w asking.entry.command.now.act asking.entry.running.now result }
{
    let settings = input.settings;
    let running = asking.running;
    Criteria {
        need: need_of(settings, asking.command),
        avoid: avoided(input.servers, running.first_tried()),
        threshold_micros: settings.threshold_ms * 1_000,
    }
}
