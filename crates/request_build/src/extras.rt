//! What a command sends beside what it asks for (Driver Sessions; Server Selection, Passing read preference).
ghost use Rattle.std.specs.Prelude.{◌≡◌};
ghost use Rattle.cmd_state.specs.Inside.{selected_of};
ghost use Rattle.desk_trail.specs.Clients.{Client};
ghost use Rattle.desk_trail.specs.Looks.{preference_for};
ghost use Rattle.desk_trail.specs.Requests.{AreExtras, lsid_of, member_mode as mode_of_member, mode_out as mode_that_goes_out, single_mode as mode_of_single, sizes_of as sizes_at};
ghost use Rattle.desk_trail.specs.States.{ClientState};

use crate::Sending;
use cmd_build::{Act, Extras, Sizes};
use cmd_state::Selected;
use conn_uri::Settings;
use hello_reply::{ServerDescription, ServerKind};
use read_pref::Mode;
use topo_rules::TopoKind;

/// The mode of an act's own preference, else that of the client's.
fn mode_for(settings: &Settings, act: &Act) -> Mode
    ensures mode { (client : Client) → client.settings ≡ settings.now → result ≡ (preference_for client act.now).mode }
{
    match act {
        Act::Find {
            read: Some(read),
            ..
        } => read.mode(),
        _ => settings.read.mode(),
    }
}

/// The mode that a member of a set is sent that is talked to alone.
fn member_mode(mode: Mode) -> Mode
    ensures { result ≡ mode_of_member mode }
{
    match mode {
        Mode::Primary => Mode::PrimaryPreferred,
        _ => mode,
    }
}

/// The mode that goes out to a server that is talked to alone.
fn single_mode(kind: ServerKind, mode: Mode) -> Option<Mode>
    ensures { result ≡ mode_of_single kind mode }
{
    match kind {
        ServerKind::Standalone => None,
        ServerKind::Primary | ServerKind::Secondary | ServerKind::Arbiter | ServerKind::Other =>
            Some(member_mode(mode)),
        _ => Some(mode),
    }
}

/// The mode that goes out to the server of a choice (Server Selection, Passing read preference).
fn mode_out(topology: TopoKind, kind: ServerKind, mode: Mode) -> Option<Mode>
    ensures { result ≡ mode_that_goes_out topology kind mode }
{
    match topology {
        TopoKind::Single => single_mode(kind, mode),
        _ => Some(mode),
    }
}

/// The kind of a server.
fn kind_of(server: &ServerDescription) -> ServerKind
    ensures { result ≡ server.now.kind }
{
    server.kind
}

/// What the command sends beside what it asks for.
pub fn extras_of<'a>(sending: Sending<'a>, selected: &Selected) -> Extras<'a>
    ensures extras { (client : Client) (w : ClientState) → client.settings ≡ sending.entry.settings.now
        → sending.entry.lsid ≡ lsid_of w.sessions sending.entry.running.now.session
        → AreExtras client w sending.entry.command.now.act sending.entry.running.now (selected_of selected.now) result }
{
    let settings = sending.settings;
    let mode = mode_for(settings, &sending.command.act);
    let kind = kind_of(&selected.server);
    Extras {
        lsid: sending.lsid,
        number: sending.running.number(),
        mode: mode_out(selected.kind, kind, mode),
        read: Some(&settings.read),
    }
}

/// What the server of a choice takes (MongoDB, Limits).
pub fn sizes_of(selected: &Selected) -> Sizes
    ensures { result ≡ sizes_at (selected_of selected.now) }
{
    let server = &selected.server;
    Sizes {
        max_doc: server.max_doc,
        max_message: server.max_message,
    }
}
