ghost use Rattle.std.specs.Prelude.{◌≡◌, ◌≤◌, [], IfSome};
ghost use Rattle.desk_trail.specs.States.{stream_of};
ghost use Rattle.wired_trail.specs.declared.stream_use.StreamUse.TheVariants as for_use;
ghost use Rattle.cmd_step.specs.Closed.{ClosesOnly, IsUnused};
ghost use Rattle.cmd_step.specs.CheckIns.{ComesBack, HasLent, IsToComeBack};
ghost use Rattle.cmd_step.specs.Places.{AreAt};

use crate::At;
use crate::closing::close_conn;
use cmd_state::RunningCommand;
use desk_trail::Entry;
use net_link::Net;
use pool_book::{CloseReason, Fate};
use server_state::Server;
use wired_trail::WiredTrail;

/// A connection that comes back, by its number in its pool.
#[derive(Clone, Copy, Debug, PartialEq, Eq)]
pub struct Back {
    /// The connection.
    pub conn: u64,
    /// Whether it failed.
    pub errored: bool,
}

/// A command whose attempt ended gives its connection back: it is available again, or it is shut and its stream closed (CMAP,
/// Checking In a Connection).
pub fn check_in<N: Net>(
    wired: &mut WiredTrail<N>,
    at: At,
    server: &mut Server,
    running: &mut RunningCommand,
    back: Back,
) -> Fate
    requires next { IsToComeBack wired.old.trail.point at back }
    requires room { 2 ≤ wired.old.trail.room.steps }
    requires places { AreAt wired.old.trail.point.state at server.old running.old }
    requires idle { server.old.pool.owed ≡ [] }
    requires lent { HasLent at back server.old running.old }
    ensures back { ComesBack at back result wired.old.trail wired.new.trail server.new running.new }
    ensures idle { server.new.pool.owed ≡ [] }
    ensures closes { ClosesOnly (λ u. u ≡ for_use.Conn at.host back.conn) wired.old.lines wired.new.lines }
    ensures kept { result ≡ Fate.Kept → wired.new.lines ≡ wired.old.lines }
    ensures gone { (reason : CloseReason) → result ≡ Fate.Shut reason
        → IfSome (stream_of server.new back.conn) (λ stream. IsUnused wired.new.lines stream (for_use.Conn at.host back.conn)) }
    ensures faults { N.faults wired.old.net ≤ N.faults wired.new.net }
{
    let fate = server.check_in(back.conn, at.moment, back.errored);
    wired.append(
        at.moment,
        Entry::CheckedIn {
            op: at.op,
            host: at.host,
            conn: back.conn,
            errored: back.errored,
        },
    );
    running.leave_pool();
    let reason = match fate {
        Fate::Kept => return Fate::Kept,
        Fate::Shut(reason) => reason,
    };
    wired.append(
        at.moment,
        Entry::ConnShut {
            host: at.host,
            conn: back.conn,
            reason,
        },
    );
    close_conn(wired, at.host, server, back.conn);
    Fate::Shut(reason)
}
