ghost use Rattle.std.specs.Prelude.{◌≡◌, ◌≤◌, ◌^◌, false, length};
ghost use Rattle.desk_trail.specs.States.{ClientState};
ghost use Rattle.desk_core.specs.Due.{IsNext, due_at, is_earlier, nearer};

use crate::Due;
use crate::state::Core;
use net_link::Net;
use server_state::Server;

/// When the server's check is due, where the last step was made at a moment.
fn due_at(server: &Server, last: u64) -> u64
    requires { server.now.has_left ≡ false }
    ensures { result ≡ due_at last server.now }
{
    if server.began().is_some() {
        last
    } else {
        server.due()
    }
}

/// Whether a check that is due at a moment comes ahead of the earliest so far.
fn is_earlier(at: u64, earliest: Option<Due>) -> bool
    ensures { result ≡ is_earlier at earliest }
{
    match earliest {
        Some(due) => at < due.at,
        None => true,
    }
}

/// The earlier of the earliest check so far and that of one more server.
fn nearer(earliest: Option<Due>, server: &Server, host: u32, last: u64) -> Option<Due>
    ensures { result ≡ nearer last host server.now earliest }
{
    if server.has_left() {
        return earliest;
    }
    let at = due_at(server, last);
    if is_earlier(at, earliest) {
        Some(Due { host, at })
    } else {
        earliest
    }
}

/// The earliest check of servers, of those the one of the least number, where the last step was made at a moment.
fn earliest_of(servers: &[Server], last: u64) -> Option<Due>
    requires { length servers.now ≤ 2 ^ 32 }
    ensures { (w : ClientState) → w.servers ≡ servers.now → IsNext w last result }
{
    let mut earliest: Option<Due> = None;
    let mut place: usize = 0;
    'looking: while place < servers.len() {
        earliest = nearer(earliest, &servers[place], place as u32, last);
        place += 1;
    }
    earliest
}

impl<N: Net> Core<N> {
    /// The server whose check is due or running and earliest, of those the least number; None where the topology has none.
    pub fn next_due(&self) -> Option<Due>
        requires { self.now.is_stopped ≡ false }
        ensures { IsNext self.now.trail.point.state self.now.last result }
    {
        earliest_of(&self.servers, self.last)
    }
}
