ghost use Rattle.std.specs.Prelude.{◌≡◌, ◌≤◌, ◌^◌, map};
ghost use Rattle.desk_trail.specs.Checks.{asked};

use server_state::Server;

/// A check of every server of the topology is asked for (Server Selection, requesting an immediate topology check).
pub fn ask_all(servers: &mut [Server], moment: u64)
    requires moment { moment ≤ 2 ^ 62 }
    ensures asked { servers.new ≡ map (asked moment) servers.old }
{
    let mut place: usize = 0;
    'asking: while place < servers.len() {
        servers[place].ask(moment);
        place += 1;
    }
}
