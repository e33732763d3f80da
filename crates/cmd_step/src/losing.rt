//! A connection that a command dialled comes to nothing (CMAP, Establishing a Connection; SDAM, Error handling).
ghost use Rattle.std.specs.Prelude.{◌≡◌, ◌≤◌, [], None, Some, IfSome};
ghost use Rattle.pool_book.specs.declared.connections.Held.{Held};
ghost use Rattle.pool_book.specs.Entries as pool;
ghost use Rattle.pool_book.specs.Pool.{held_of};
ghost use Rattle.desk_trail.specs.Facts as fact;
ghost use Rattle.desk_trail.specs.States.{stream_of};
ghost use Rattle.server_state.specs.PoolMoves.{MovesBy};
ghost use Rattle.wired_trail.specs.Hearing.{TellsHeard};
ghost use Rattle.wired_trail.specs.Wired.{HasCome};
ghost use Rattle.wired_trail.specs.declared.stream_use.StreamUse.TheVariants as for_use;
ghost use Rattle.cmd_step.specs.Closed.{ClosesOnly, IsUnused};
ghost use Rattle.cmd_step.specs.Losses.{HasDialled, IsLoss, IsLost, IsNews, IsToTell, loss_owes};
ghost use Rattle.cmd_step.specs.Places.{AreAt};

use crate::At;
use crate::closing::close_conn;
use crate::ending::end_unsent;
use crate::time::tell_news;
use cmd_state::RunningCommand;
use desk_trail::Entry;
use net_link::Net;
use pool_book::CloseReason;
use server_state::Server;
use wired_trail::WiredTrail;
use write_retry::{AttemptEnd, Unsent};

/// A connection that a command dialled and that came to nothing.
#[derive(Clone, Copy, Debug, PartialEq, Eq)]
pub struct Loss {
    /// The connection, by its number in its pool.
    pub conn: u64,
    /// Why: it could not be made, or its greeting was refused.
    pub why: Unsent,
    /// The stamp of the refusal's cluster time, where that exceeds the greatest that was seen.
    pub news: Option<u64>,
}

/// A connection that a command dialled is lost: the command gets none, its attempt ends, and the connection is shut and its
/// stream closed. What is owed behind it is the event that its server is broken, where the loss tells that.
pub fn lose<N: Net>(
    wired: &mut WiredTrail<N>,
    at: At,
    server: &mut Server,
    running: &mut RunningCommand,
    loss: Loss,
)
    requires tells { IsToTell wired.old.trail.point at loss.why }
    requires room { 4 ≤ wired.old.trail.room.steps }
    requires places { AreAt wired.old.trail.point.state at server.old running.old }
    requires idle { server.old.pool.owed ≡ [] }
    requires dialled { HasDialled at loss.conn server.old running.old }
    requires loss { IsLoss loss.why }
    requires news { IsNews wired.old.trail.point loss.why loss.news }
    requires heard { N.tells → TellsHeard (N.history wired.old.net) wired.old.trail at.moment (fact.NotLent at.op at.host loss.why) }
    requires came { N.tells → IfSome loss.news (HasCome (N.history wired.old.net)) }
    ensures lost { IsLost at loss wired.old.trail wired.new.trail server.new running.new }
    ensures offers { (h : Held) → held_of loss.conn server.old.pool.state.pending ≡ Some h
        → wired.new.trail.point.owed ≡ loss_owes server.old h loss.why }
    ensures moves { (h : Held) → held_of loss.conn server.old.pool.state.pending ≡ Some h
        → MovesBy at.moment (pool.NotLent h.ticket (pool.Lost loss.conn)) server.old server.new }
    ensures idle { server.new.pool.owed ≡ [] }
    ensures closes { ClosesOnly (λ u. u ≡ for_use.Conn at.host loss.conn) wired.old.lines wired.new.lines }
    ensures gone { IfSome (stream_of server.new loss.conn) (λ stream. IsUnused wired.new.lines stream (for_use.Conn at.host loss.conn)) }
    ensures streamless { stream_of server.old loss.conn ≡ None → wired.new.lines ≡ wired.old.lines }
    ensures faults { N.faults wired.old.net ≤ N.faults wired.new.net }
{
    let stream = server.stream_of(loss.conn);
    server.lost(loss.conn, at.moment);
    wired.tell(
        at.moment,
        Entry::NotLent {
            op: at.op,
            host: at.host,
            why: loss.why,
        },
        stream,
    );
    tell_news(wired, at.moment, loss.news);
    wired.append(
        at.moment,
        Entry::Ended {
            op: at.op,
            end: AttemptEnd::Unsent(loss.why),
        },
    );
    end_unsent(running, loss.why);
    wired.append(
        at.moment,
        Entry::ConnShut {
            host: at.host,
            conn: loss.conn,
            reason: CloseReason::Errored,
        },
    );
    close_conn(wired, at.host, server, loss.conn);
}
