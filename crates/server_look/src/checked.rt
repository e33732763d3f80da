ghost use Rattle.std.specs.Prelude.{◌≡◌, ◌≤◌, ◌<◌, ◌⊎◌, ◌+◌, ◌^◌, ℕ, true, false, Some, IfSome};
ghost use Rattle.watch_step.specs.Checks.{HALF_SECOND};
ghost use Rattle.desk_trail.specs.Checks.{is_due};
ghost use Rattle.desk_trail.specs.Clients.{Client};
ghost use Rattle.desk_trail.specs.Looks.{deadline, first_look, hosts_known};
ghost use Rattle.server_look.specs.Inputs.{IsTimely, deadline_by};
ghost use Rattle.server_look.specs.Waits.{AreChecked, IsChecked};

use crate::{Asking, Input};
use cmd_state::RunningCommand;
use conn_uri::Settings;
use server_state::Server;
use watch_step::HALF_SECOND;

/// What a selection waits for before it fails: its first look and its deadline, in microseconds, and how many hosts had been
/// named at its last look that found none.
#[derive(Clone, Copy)]
pub struct Wait {
    pub first: u64,
    pub deadline: u64,
    pub known: usize,
}

/// The moment of the selection's first look, which this one is where there was none.
fn first_look(running: &RunningCommand, moment: u64) -> u64
    ensures first { result ≡ first_look running.now moment }
{
    match running.selection() {
        Some(selection) => selection.first,
        None => moment,
    }
}

/// How many hosts had been named at the selection's last look that found none.
fn hosts_known(running: &RunningCommand) -> usize
    ensures known { result ≡ hosts_known running.now }
{
    match running.selection() {
        Some(selection) => selection.known,
        None => 0,
    }
}

/// The moment from which on the selection may fail, where the command looks at a moment (Server Selection,
/// serverSelectionTimeoutMS).
pub fn deadline(settings: &Settings, running: &RunningCommand, moment: u64) -> u64
    requires first { first_look running.now moment ≤ 2 ^ 62 }
    ensures deadline { result ≡ deadline_by settings.now running.now moment }
    ensures client { (client : Client) → client.settings ≡ settings.now → result ≡ deadline client running.now moment }
{
    first_look(running, moment) + settings.select_ms * 1_000
}

/// Whether a check of a server that stands in the topology is due.
fn is_due(server: &Server, moment: u64) -> bool
    requires stays { server.now.has_left ≡ false }
    ensures due { result ≡ is_due moment server.now }
{
    server.began().is_none() && server.due() <= moment
}

/// Whether a check of the server ended no earlier than half a second ahead of the first look, and none is due.
fn has_ended(server: &Server, first: u64, moment: u64) -> bool
    requires stays { server.now.has_left ≡ false }
    ensures yes { result ≡ true → (last : ℕ) × (server.now.checks.ended ≡ Some last) × (first ≤ last + HALF_SECOND) × (is_due moment server.now ≡ false) }
    ensures no { result ≡ false → (last : ℕ) → server.now.checks.ended ≡ Some last → first ≤ last + HALF_SECOND → is_due moment server.now ≡ false → ⊥ }
{
    match server.ended() {
        Some(last) => first <= last + HALF_SECOND && !is_due(server, moment),
        None => false,
    }
}

/// Whether a check runs that had no answer at or past the deadline, and that began ahead of it or is of a server that was named
/// behind the selection's last look.
fn runs_dry(server: &Server, host: usize, wait: Wait) -> bool
    requires stays { server.now.has_left ≡ false }
    ensures yes { result ≡ true → (began : ℕ) × (dry : ℕ) × (server.now.checks.began ≡ Some began) × (server.now.dry ≡ Some dry)
        × (wait.deadline ≤ dry) × ((began < wait.deadline) ⊎ (wait.known ≤ host)) }
    ensures no { result ≡ false → (began dry : ℕ) → server.now.checks.began ≡ Some began → server.now.dry ≡ Some dry
        → wait.deadline ≤ dry → (began < wait.deadline) ⊎ (wait.known ≤ host) → ⊥ }
{
    match (server.began(), server.dry()) {
        (Some(began), Some(dry)) => {
            wait.deadline <= dry && (began < wait.deadline || wait.known <= host)
        }
        _ => false,
    }
}

/// Whether a server that stands in the topology was checked for the selection.
fn is_checked(server: &Server, host: usize, wait: Wait, moment: u64) -> bool
    requires stays { server.now.has_left ≡ false }
    ensures yes { result ≡ true → IsChecked moment wait host server.now }
    ensures no { result ≡ false → IsChecked moment wait host server.now → ⊥ }
{
    if wait.deadline <= server.named() {
        return true;
    }
    if has_ended(server, wait.first, moment) {
        return true;
    }
    runs_dry(server, host, wait)
}

/// Whether the selection still waits for a server: it stands in the topology and was not checked.
fn waits_for(server: &Server, host: usize, wait: Wait, moment: u64) -> bool
    ensures yes { result ≡ true → (server.now.has_left ≡ false) × (IsChecked moment wait host server.now → ⊥) }
    ensures no { result ≡ false → server.now.has_left ≡ false → IsChecked moment wait host server.now }
{
    !server.has_left() && !is_checked(server, host, wait, moment)
}

/// Whether each server of the topology was.
fn are_checked(servers: &[Server], wait: Wait, moment: u64) -> bool
    ensures yes { result ≡ true → AreChecked moment wait servers.now }
    ensures no { result ≡ false → AreChecked moment wait servers.now → ⊥ }
{
    let mut place: usize = 0;
    'checking: while place < servers.len() {
        if waits_for(&servers[place], place, wait, moment) {
            return false;
        }
        place += 1;
    }
    true
}

/// Whether the command may look now: its selection's deadline is not reached, or every server of the topology was checked for it
/// (Server Selection, serverSelectionTimeoutMS).
pub fn may_look(input: Input<'_>, asking: Asking<'_>) -> bool
    requires first { first_look asking.running.now asking.moment ≤ 2 ^ 62 }
    ensures yes { result ≡ true → IsTimely input.entry.settings.now input.entry.servers.now asking.entry.running.now asking.entry.moment }
    ensures no { result ≡ false → IsTimely input.entry.settings.now input.entry.servers.now asking.entry.running.now asking.entry.moment → ⊥ }
{
    let wait = Wait {
        first: first_look(asking.running, asking.moment),
        deadline: deadline(input.settings, asking.running, asking.moment),
        known: hosts_known(asking.running),
    };
    asking.moment < wait.deadline || are_checked(input.servers, wait, asking.moment)
}
