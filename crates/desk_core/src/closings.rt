ghost use Rattle.std.specs.Prelude.{◌≡◌};
ghost use Rattle.desk_core.specs.Servers.{closing_of};

use server_state::Server;

/// How many entries closing a server's pool takes, 0 where the server left the topology (CMAP, Closing a Connection Pool).
pub fn closing_of(server: &Server) -> usize
    ensures { result ≡ closing_of server.now }
{
    if server.has_left() {
        0
    } else {
        server.available().len() + 1
    }
}
