ghost use Rattle.std.specs.Prelude.{◌≡◌, ◌≤◌, ◌++◌, List, Some, length, slice_get};
ghost use Rattle.desk_trail.specs.Owed.{Owed};
ghost use Rattle.desk_trail.specs.States.{ServerState};
ghost use Rattle.desk_core.specs.Appends.{AppendsAside};
ghost use Rattle.desk_core.specs.Shutting.{KeepsUses, Shuts, is_of_pool, owed_shuts, owing};

use desk_trail::Entry;
use net_link::Net;
use pool_book::CloseReason;
use server_state::Server;
use wired_trail::{StreamUse, WiredTrail};

/// Closes a stream, where it is in use for that connection of a server's pool.
fn close_conn<N: Net>(wired: &mut WiredTrail<N>, stream: u64, host: u32, conn: u64)
    ensures trail { wired.new.trail ≡ wired.old.trail }
    ensures uses { KeepsUses (is_of_pool host) wired.old.lines wired.new.lines }
    ensures faults { N.faults wired.old.net ≤ N.faults wired.new.net }
{
    if wired.use_of(stream) == Some(StreamUse::Conn { host, conn }) {
        wired.close(stream);
    }
}

/// Closes the stream of a connection of a server's pool, where it has one.
fn close_stream_of<N: Net>(wired: &mut WiredTrail<N>, server: &Server, host: u32, conn: u64)
    ensures trail { wired.new.trail ≡ wired.old.trail }
    ensures uses { KeepsUses (is_of_pool host) wired.old.lines wired.new.lines }
    ensures faults { N.faults wired.old.net ≤ N.faults wired.new.net }
{
    if let Some(stream) = server.stream_of(conn) {
        close_conn(wired, stream, host, conn);
    }
}

/// Shuts the connections that were available in the pool of a server as it was closed, which must come next, and closes their
/// streams (CMAP, Closing a Connection Pool). The server is as it was ahead of that.
pub fn shut_available<N: Net>(wired: &mut WiredTrail<N>, server: &Server, host: u32, moment: u64)
    requires owes { (rest : List Owed) × (wired.old.trail.point.owed ≡ owed_shuts host server.now.pool.state.available ++ rest) }
    requires there { (s : ServerState) × (slice_get wired.old.trail.point.state.servers host ≡ Some (owing server.now.pool.state.available s)) }
    requires time { wired.old.trail.point.moment ≡ moment }
    requires room { length server.now.pool.state.available ≤ wired.old.trail.room.steps }
    ensures shuts { (s : ServerState) → slice_get wired.old.trail.point.state.servers host ≡ Some (owing server.now.pool.state.available s)
        → Shuts moment host server.now.pool.state.available s wired.old.trail wired.new.trail }
    ensures uses { KeepsUses (is_of_pool host) wired.old.lines wired.new.lines }
    ensures faults { N.faults wired.old.net ≤ N.faults wired.new.net }
    ensures appends { AppendsAside ⊥ moment wired.old.trail wired.new.trail }
{
    let available = server.available();
    let mut place: usize = 0;
    'shutting: while place < available.len() {
        let conn = available[place].conn;
        wired.append(
            moment,
            Entry::ConnShut {
                host,
                conn,
                reason: CloseReason::PoolClosed,
            },
        );
        close_stream_of(wired, server, host, conn);
        place += 1;
    }
}
