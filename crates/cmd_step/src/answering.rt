ghost use Rattle.std.specs.Prelude.{◌≡◌, ◌≤◌, ℕ, [], true, Ok, Some, OnErr, IfOk, IsSome, length};
ghost use Rattle.pool_book.specs.Entries as pool;
ghost use Rattle.pool_book.specs.Entries.{CheckOutFailure};
ghost use Rattle.pool_book.specs.Pool.{is_swept, ticket_of};
ghost use Rattle.write_retry.specs.declared.events.Next.TheVariants as next;
ghost use Rattle.desk_trail.specs.States.{Waits};
ghost use Rattle.net_link.specs.Causes.{HasCause};
ghost use Rattle.cmd_step.specs.Answers.{IsAnswer, IsInLine, IsLent, IsRefused};
ghost use Rattle.cmd_step.specs.Closed.{AreSame};
ghost use Rattle.cmd_step.specs.Free.{IsFree};
ghost use Rattle.cmd_step.specs.Places.{AreAt, IsAnswered};
ghost use Rattle.cmd_step.specs.Refusals.{refusal_by};

use crate::dialling::{ToDial, dial};
use crate::{Answer, At, Memory};
use cmd_state::{CheckOut, RunningCommand};
use desk_trail::Entry;
use net_link::Net;
use pool_book::{Take, Ticket};
use server_state::Server;
use std::alloc::Global;
use wired_trail::WiredTrail;
use write_retry::{AttemptEnd, Unsent};

/// A command that waits is lent an available connection.
fn lend<N: Net>(
    wired: &mut WiredTrail<N>,
    at: At,
    server: &Server,
    running: &mut RunningCommand,
    conn: u64,
)
    requires free { IsFree wired.old.trail.point at.moment }
    requires room { 1 ≤ wired.old.trail.room.steps }
    requires answered { IsAnswered wired.old.trail.point.state at (λ t. pool.Lent t conn) server.now running.old }
    ensures same { wired.new ≡ record wired.old { trail = wired.new.trail } }
    ensures lent { IsLent at conn wired.old.trail wired.new.trail server.now running.new }
{
    wired.append(
        at.moment,
        Entry::Lent {
            op: at.op,
            host: at.host,
            conn,
        },
    );
    running.take(conn);
}

/// A command that waits gets no connection, and its attempt ends.
fn refuse<N: Net>(
    wired: &mut WiredTrail<N>,
    at: At,
    server: &Server,
    running: &mut RunningCommand,
    why: Unsent,
)
    requires free { IsFree wired.old.trail.point at.moment }
    requires room { 2 ≤ wired.old.trail.room.steps }
    requires answered { (f : CheckOutFailure) × (refusal_by at.host why ≡ Some f)
        × IsAnswered wired.old.trail.point.state at (λ t. pool.NotLent t f) server.now running.old }
    ensures same { wired.new ≡ record wired.old { trail = wired.new.trail } }
    ensures refused { IsRefused at why wired.old.trail wired.new.trail server.now running.new }
{
    wired.append(
        at.moment,
        Entry::NotLent {
            op: at.op,
            host: at.host,
            why,
        },
    );
    wired.append(
        at.moment,
        Entry::Ended {
            op: at.op,
            end: AttemptEnd::Unsent(why),
        },
    );
    running.leave_pool();
    running.end(AttemptEnd::Unsent(why));
}

/// A command that waits at a server, by a ticket.
#[derive(Clone, Copy)]
struct Waiting {
    at: At,
    ticket: Ticket,
}

/// The ticket by which a command waits.
fn ticket(running: &RunningCommand) -> Ticket
    requires waits { (host : ℕ) × (number : ℕ) × (running.now.check_out ≡ Waits host number) }
    ensures ticket { (host : ℕ) (number : ℕ) → running.now.check_out ≡ Waits host number → result.number ≡ number }
{
    match running.check_out() {
        CheckOut::Waits { ticket, .. } => ticket,
        CheckOut::Nothing | CheckOut::Dials { .. } | CheckOut::Has { .. } => unreachable!(),
    }
}

/// What a command gets by its ticket.
fn answer<N: Net>(
    alloc: Global,
    wired: &mut WiredTrail<N>,
    server: &mut Server,
    running: &mut RunningCommand,
    waiting: Waiting,
) -> Result<Answer, Memory>
    requires free { IsFree wired.old.trail.point waiting.at.moment }
    requires steps { 5 ≤ wired.old.trail.room.steps }
    requires requests { 1 ≤ wired.old.trail.room.requests }
    requires places { AreAt wired.old.trail.point.state waiting.at server.old running.old }
    requires idle { server.old.pool.owed ≡ [] }
    requires waits { running.old.check_out ≡ Waits waiting.at.host waiting.ticket.number }
    requires asks { running.old.op.next ≡ next.CheckOut waiting.at.host }
    requires there { IsSome (ticket_of waiting.ticket.number server.old.pool.state.waiting) }
    requires swept { is_swept server.old.pool.state waiting.at.moment ≡ true }
    requires counted { wired.old.trail.point.state.requests ≡ length wired.old.trail.lists.requests }
    ensures answer { IfOk result (λ a. IsAnswer waiting.at a wired.old.trail wired.new.trail wired.old.lines wired.new.lines
        server.old server.new running.old running.new) }
    ensures err { OnErr result ((wired.new.trail ≡ wired.old.trail) × AreSame wired.old.lines wired.new.lines) }
    ensures idle { server.new.pool.owed ≡ [] }
    ensures cause { HasCause (N.faults wired.old.net) (N.faults wired.new.net) ((conn : ℕ) × (result ≡ Ok (Answer.Failed conn))) }
{
    let Waiting { at, ticket } = waiting;
    let why = match server.take(&ticket, at.moment) {
        Take::Lent { conn } => {
            lend(wired, at, server, running, conn);
            return Ok(Answer::Lent { conn });
        }
        Take::Dial { conn } => return dial(alloc, wired, server, running, ToDial { at, conn }),
        Take::Wait => return Ok(Answer::Wait),
        Take::Cleared { generation } => Unsent::PoolCleared { generation },
        Take::Closed => Unsent::PoolClosed { host: at.host },
        Take::Late => Unsent::PoolLate,
    };
    refuse(wired, at, server, running, why);
    Ok(Answer::Refused { why })
}

/// What a command that waits for a connection gets, of a pool that is swept. Where it is to dial one, that is dialled and says
/// hello. Where memory is wanting for that, nothing is written and no stream is in use for it, but the server is behind the dial:
/// the client is to stop.
pub fn check_out<N: Net>(
    alloc: Global,
    wired: &mut WiredTrail<N>,
    at: At,
    server: &mut Server,
    running: &mut RunningCommand,
) -> Result<Answer, Memory>
    requires free { IsFree wired.old.trail.point at.moment }
    requires steps { 5 ≤ wired.old.trail.room.steps }
    requires requests { 1 ≤ wired.old.trail.room.requests }
    requires places { AreAt wired.old.trail.point.state at server.old running.old }
    requires idle { server.old.pool.owed ≡ [] }
    requires in_line { IsInLine at server.old running.old }
    requires swept { is_swept server.old.pool.state at.moment ≡ true }
    requires counted { wired.old.trail.point.state.requests ≡ length wired.old.trail.lists.requests }
    ensures answer { IfOk result (λ a. IsAnswer at a wired.old.trail wired.new.trail wired.old.lines wired.new.lines
        server.old server.new running.old running.new) }
    ensures err { OnErr result ((wired.new.trail ≡ wired.old.trail) × AreSame wired.old.lines wired.new.lines) }
    ensures idle { server.new.pool.owed ≡ [] }
    ensures cause { HasCause (N.faults wired.old.net) (N.faults wired.new.net) ((conn : ℕ) × (result ≡ Ok (Answer.Failed conn))) }
{
    let ticket = ticket(running);
    answer(alloc, wired, server, running, Waiting { at, ticket })
}
