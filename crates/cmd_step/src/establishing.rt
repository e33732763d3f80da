//! The greeting of a connection that a command dialled was answered (CMAP, Establishing a Connection).
ghost use Rattle.std.specs.Prelude.{◌≡◌, ◌≤◌, Bool, [], true, false, Some, IfSome};
ghost use Rattle.pool_book.specs.Pool.{shut_reason};
ghost use Rattle.desk_trail.specs.Legal.{Exceeds};
ghost use Rattle.desk_trail.specs.Facts as fact;
ghost use Rattle.desk_trail.specs.States.{stream_of};
ghost use Rattle.desk_trail.specs.Streams.{conn_stream_at};
ghost use Rattle.wired_trail.specs.Hearing.{TellsHeard};
ghost use Rattle.wired_trail.specs.Wired.{HasCome};
ghost use Rattle.wired_trail.specs.declared.stream_use.StreamUse.TheVariants as for_use;
ghost use Rattle.cmd_step.specs.Closed.{ClosesOnly, IsUnused};
ghost use Rattle.cmd_step.specs.Free.{IsFree};
ghost use Rattle.cmd_step.specs.Losses.{HasDialled};
ghost use Rattle.cmd_step.specs.Places.{AreAt};
ghost use Rattle.cmd_step.specs.Settlings.{IsEstablished, IsSettled, IsStale, Settles, why_stale};

use crate::closing::close_conn;
use crate::ending::end_unsent;
use crate::time::tell_news;
use crate::{At, Greeted, Settling};
use cmd_state::RunningCommand;
use desk_trail::Entry;
use net_link::Net;
use pool_book::{CloseReason, Settled};
use server_state::Server;
use wired_trail::WiredTrail;
use write_retry::{AttemptEnd, Unsent};

/// Why a connection that settled too late is shut.
fn reason_of(server: &Server) -> CloseReason
    ensures { result ≡ shut_reason server.now.pool.state.state false }
{
    if server.is_closed() {
        CloseReason::PoolClosed
    } else {
        CloseReason::Stale
    }
}

/// Why the command gets none.
fn why_of(host: u32, server: &Server) -> Unsent
    ensures { result ≡ why_stale host server.now.pool.state }
{
    if server.is_closed() {
        Unsent::PoolClosed { host }
    } else {
        Unsent::PoolCleared {
            generation: server.generation(),
        }
    }
}

/// The connection is of use still: it is lent to the command that dialled it.
fn lend_dialled<N: Net>(
    wired: &mut WiredTrail<N>,
    at: At,
    server: &Server,
    running: &mut RunningCommand,
    greeted: Greeted,
)
    requires free { IsFree wired.old.trail.point at.moment }
    requires room { 3 ≤ wired.old.trail.room.steps }
    requires settled { IsSettled wired.old.trail.point.state at greeted.conn false server.now running.old }
    requires news { IfSome greeted.news (λ stamp. Exceeds stamp wired.old.trail.point.time) }
    requires heard { N.tells → TellsHeard (N.history wired.old.net) wired.old.trail at.moment (fact.Settled at.op at.host greeted.conn false) }
    requires came { N.tells → IfSome greeted.news (HasCome (N.history wired.old.net)) }
    requires on { conn_stream_at wired.old.trail.point.state at.host greeted.conn ≡ Some greeted.stream }
    ensures lent { IsEstablished at greeted wired.old.trail wired.new.trail server.now running.new }
    ensures paid { wired.new.trail.point.owed ≡ [] }
    ensures same { wired.new ≡ record wired.old { trail = wired.new.trail } }
{
    wired.tell(
        at.moment,
        Entry::Settled {
            op: at.op,
            host: at.host,
            conn: greeted.conn,
            stale: false,
        },
        Some(greeted.stream),
    );
    tell_news(wired, at.moment, greeted.news);
    wired.append(
        at.moment,
        Entry::Lent {
            op: at.op,
            host: at.host,
            conn: greeted.conn,
        },
    );
    running.take(greeted.conn);
}

/// The connection is of no more use: it is shut, and the attempt of the command that dialled it ends.
fn shut_dialled<N: Net>(
    wired: &mut WiredTrail<N>,
    at: At,
    server: &Server,
    running: &mut RunningCommand,
    greeted: Greeted,
) -> Unsent
    requires free { IsFree wired.old.trail.point at.moment }
    requires room { 5 ≤ wired.old.trail.room.steps }
    requires settled { IsSettled wired.old.trail.point.state at greeted.conn true server.now running.old }
    requires news { IfSome greeted.news (λ stamp. Exceeds stamp wired.old.trail.point.time) }
    requires heard { N.tells → TellsHeard (N.history wired.old.net) wired.old.trail at.moment (fact.Settled at.op at.host greeted.conn true) }
    requires came { N.tells → IfSome greeted.news (HasCome (N.history wired.old.net)) }
    requires on { conn_stream_at wired.old.trail.point.state at.host greeted.conn ≡ Some greeted.stream }
    ensures stale { IsStale at greeted result wired.old.trail wired.new.trail server.now running.new }
    ensures paid { wired.new.trail.point.owed ≡ [] }
    ensures closes { ClosesOnly (λ u. u ≡ for_use.Conn at.host greeted.conn) wired.old.lines wired.new.lines }
    ensures gone { IfSome (stream_of server.now greeted.conn) (λ stream. IsUnused wired.new.lines stream (for_use.Conn at.host greeted.conn)) }
    ensures faults { N.faults wired.old.net ≤ N.faults wired.new.net }
{
    wired.tell(
        at.moment,
        Entry::Settled {
            op: at.op,
            host: at.host,
            conn: greeted.conn,
            stale: true,
        },
        Some(greeted.stream),
    );
    tell_news(wired, at.moment, greeted.news);
    let reason = reason_of(server);
    wired.append(
        at.moment,
        Entry::ConnShut {
            host: at.host,
            conn: greeted.conn,
            reason,
        },
    );
    let why = why_of(at.host, server);
    wired.append(
        at.moment,
        Entry::NotLent {
            op: at.op,
            host: at.host,
            why,
        },
    );
    wired.append(
        at.moment,
        Entry::Ended {
            op: at.op,
            end: AttemptEnd::Unsent(why),
        },
    );
    end_unsent(running, why);
    close_conn(wired, at.host, server, greeted.conn);
    why
}

/// The greeting of a connection that a command dialled was answered: the connection is lent to the command; or it is shut and its
/// stream closed, since its pool was closed or cleared in the meantime, and the attempt ends.
pub fn settle<N: Net>(
    wired: &mut WiredTrail<N>,
    at: At,
    server: &mut Server,
    running: &mut RunningCommand,
    greeted: Greeted,
) -> Settling
    requires free { IsFree wired.old.trail.point at.moment }
    requires room { 5 ≤ wired.old.trail.room.steps }
    requires places { AreAt wired.old.trail.point.state at server.old running.old }
    requires idle { server.old.pool.owed ≡ [] }
    requires dialled { HasDialled at greeted.conn server.old running.old }
    requires news { IfSome greeted.news (λ stamp. Exceeds stamp wired.old.trail.point.time) }
    requires heard { N.tells → (stale : Bool) → TellsHeard (N.history wired.old.net) wired.old.trail at.moment (fact.Settled at.op at.host greeted.conn stale) }
    requires came { N.tells → IfSome greeted.news (HasCome (N.history wired.old.net)) }
    requires on { conn_stream_at wired.old.trail.point.state at.host greeted.conn ≡ Some greeted.stream }
    ensures settles { Settles at greeted result wired.old.trail wired.new.trail server.new running.new }
    ensures paid { wired.new.trail.point.owed ≡ [] }
    ensures idle { server.new.pool.owed ≡ [] }
    ensures closes { ClosesOnly (λ u. u ≡ for_use.Conn at.host greeted.conn) wired.old.lines wired.new.lines }
    ensures kept { result ≡ Settling.Lent → wired.new.lines ≡ wired.old.lines }
    ensures gone { (why : Unsent) → result ≡ Settling.Refused why
        → IfSome (stream_of server.new greeted.conn) (λ stream. IsUnused wired.new.lines stream (for_use.Conn at.host greeted.conn)) }
    ensures faults { N.faults wired.old.net ≤ N.faults wired.new.net }
{
    match server.established(greeted.conn, at.moment) {
        Settled::Lent => {
            lend_dialled(wired, at, server, running, greeted);
            Settling::Lent
        }
        Settled::Stale { .. } => {
            let why = shut_dialled(wired, at, server, running, greeted);
            Settling::Refused { why }
        }
    }
}
