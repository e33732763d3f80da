ghost use Rattle.std.specs.Prelude.{◌≡◌, ◌≤◌, [], true, Some, IfSome, length, slice_get};
ghost use Rattle.pool_book.specs.Entries as pool;
ghost use Rattle.pool_book.specs.Pool.{is_swept};
ghost use Rattle.desk_trail.specs.declared.entry.Entry.TheVariants as entry_of;
ghost use Rattle.desk_trail.specs.Facts as fact;
ghost use Rattle.desk_trail.specs.States.{ServerState, stream_of};
ghost use Rattle.desk_trail.specs.Written.{an_entry};
ghost use Rattle.legal_trail.specs.Recorded.{Adds};
ghost use Rattle.server_state.specs.PoolMoves.{MovesBy};
ghost use Rattle.wired_trail.specs.declared.stream_use.StreamUse.TheVariants as for_use;
ghost use Rattle.cmd_step.specs.Closed.{ClosesOnly, IsUnused};
ghost use Rattle.cmd_step.specs.Free.{IsFree};
ghost use Rattle.cmd_step.specs.Sweeps.{AreUnused, IsOfConn, IsSweeping, with_one};

use crate::closing::close_conn;
use desk_trail::Entry;
use net_link::Net;
use pool_book::Swept;
use server_state::Server;
use wired_trail::WiredTrail;

/// A connection that its pool took out of the available ones is shut, and its stream closed.
fn shut<N: Net>(wired: &mut WiredTrail<N>, server: &Server, host: u32, moment: u64, swept: Swept)
    requires free { IsFree wired.old.trail.point moment }
    requires room { 1 ≤ wired.old.trail.room.steps }
    requires moves { (s : ServerState) × (slice_get wired.old.trail.point.state.servers host ≡ Some s) × (s.pool.owed ≡ [])
        × MovesBy moment (pool.ConnShut swept.conn swept.reason) s server.now }
    ensures adds { Adds an_entry wired.old.trail.lists moment (entry_of.ConnShut host swept.conn swept.reason) (fact.ConnShut host swept.conn swept.reason)
        wired.old.trail wired.new.trail }
    ensures moved { wired.new.trail.point.state ≡ with_one wired.old.trail.point.state host server.now }
    ensures closes { ClosesOnly (λ u. u ≡ for_use.Conn host swept.conn) wired.old.lines wired.new.lines }
    ensures gone { IfSome (stream_of server.now swept.conn) (λ stream. IsUnused wired.new.lines stream (for_use.Conn host swept.conn)) }
    ensures faults { N.faults wired.old.net ≤ N.faults wired.new.net }
{
    wired.append(
        moment,
        Entry::ConnShut {
            host,
            conn: swept.conn,
            reason: swept.reason,
        },
    );
    close_conn(wired, host, server, swept.conn);
}

/// Shuts the connections of a server's pool that are available and have perished, within room that was taken for each (CMAP,
/// Checking Out a Connection).
pub fn sweep<N: Net>(wired: &mut WiredTrail<N>, server: &mut Server, host: u32, moment: u64)
    requires free { IsFree wired.old.trail.point moment }
    requires room { length server.old.pool.state.available ≤ wired.old.trail.room.steps }
    requires there { slice_get wired.old.trail.point.state.servers host ≡ Some server.old }
    requires idle { server.old.pool.owed ≡ [] }
    ensures swept { is_swept server.new.pool.state moment ≡ true }
    ensures goes { IsSweeping host moment wired.old.trail wired.new.trail server.old server.new }
    ensures closes { ClosesOnly (IsOfConn host) wired.old.lines wired.new.lines }
    ensures gone { AreUnused host wired.new.lines server.old server.new }
    ensures faults { N.faults wired.old.net ≤ N.faults wired.new.net }
{
    'sweeping: while let Some(swept) = server.sweep(moment) {
        shut(wired, server, host, moment, swept);
    }
}
