//! A command dials a connection, which says hello (CMAP, Establishing a Connection; MongoDB Handshake).
ghost use Rattle.std.specs.Prelude.{◌≡◌, ◌≤◌, ℕ, [], true, None, Ok, Some, OnErr, OnOk, IfOk, length, slice_get};
ghost use Rattle.pool_book.specs.Entries as pool;
ghost use Rattle.pool_book.specs.Sound.{times_of};
ghost use Rattle.desk_trail.specs.declared.request.Purpose.TheVariants as purpose_of;
ghost use Rattle.desk_trail.specs.Checks.{IsNew};
ghost use Rattle.desk_trail.specs.Owed.{IsHello};
ghost use Rattle.desk_trail.specs.Requests.{id_at};
ghost use Rattle.desk_trail.specs.States.{ServerState, stream_of};
ghost use Rattle.desk_wire.specs.State.{opened};
ghost use Rattle.net_link.specs.Causes.{HasCause};
ghost use Rattle.wired_trail.specs.Faults.{IsUntold};
ghost use Rattle.wired_trail.specs.Hearing.{HasUntoldDial, told_of};
ghost use Rattle.wired_trail.specs.Lines.{IsThere, KeepsOthers, line_at};
ghost use Rattle.wired_trail.specs.declared.stream_use.StreamUse.TheVariants as for_use;
ghost use Rattle.cmd_step.specs.Answers.{IsDial};
ghost use Rattle.cmd_step.specs.Closed.{AreSame};
ghost use Rattle.cmd_step.specs.Dials.{HasFailed, HasGreeted};
ghost use Rattle.cmd_step.specs.Free.{IsFree};
ghost use Rattle.cmd_step.specs.Places.{IsAnswered};

use crate::losing::lose;
use crate::{Answer, At, Loss, Memory};
use cmd_state::RunningCommand;
use desk_trail::{Entry, Purpose};
use net_link::{Dialed, Net};
use request_build::{HelloFor, MadeRequest, hello_request};
use server_state::Server;
use std::alloc::{AllocError, Global};
use wired_trail::{StreamUse, WiredTrail};
use write_retry::Unsent;

/// The connection that a command has leave to dial.
#[derive(Clone, Copy)]
pub(crate) struct ToDial {
    /// The command at its server.
    pub(crate) at: At,
    /// The connection, by its number in its pool.
    pub(crate) conn: u64,
}

/// In each pool of the trail's client each connection stands at most once.
fn stands_once<N: Net>(wired: &WiredTrail<N>)
    ensures once { (host : ℕ) (s : ServerState) → slice_get wired.now.trail.point.state.servers host ≡ Some s → (conn : ℕ) → times_of s.pool.state conn ≤ 1 }
{
    wired.steps();
    desk_trail::laws::pools::each_pool_has_its_trail();
    pool_book::laws::each_connection_stands_once();
}

/// The stream was given: the connection is dialled and says hello on it.
fn greet<N: Net>(
    wired: &mut WiredTrail<N>,
    server: &mut Server,
    running: &mut RunningCommand,
    dial: ToDial,
    made: MadeRequest,
)
    requires free { IsFree wired.old.trail.point dial.at.moment }
    requires steps { 2 ≤ wired.old.trail.room.steps }
    requires requests { 1 ≤ wired.old.trail.room.requests }
    requires answered { IsAnswered wired.old.trail.point.state dial.at (λ t. pool.Dialled t dial.conn) server.old running.old }
    requires last { dial.conn ≡ server.old.pool.state.dialled }
    requires streamless { stream_of server.old dial.conn ≡ None }
    requires counted { wired.old.trail.point.state.requests ≡ length wired.old.trail.lists.requests }
    requires is_new { IsNew wired.old.trail.point.state made.request.stream }
    requires line { line_at wired.old.lines made.request.stream
        ≡ Some (record { wire = opened made.request.stream; is_for = for_use.Conn dial.at.host dial.conn }) }
    requires hello { IsHello (purpose_of.Greeting dial.at.host dial.conn) made.request.stream true made.request }
    requires id { made.request.id ≡ id_at (length wired.old.trail.lists.requests) }
    requires bytes { made.bytes ≡ made.request.bytes }
    requires free_stream { N.tells → (told_of wired.old.trail made.request.stream).last ≡ None }
    ensures greeted { HasGreeted dial.at dial.conn made.request wired.old.trail wired.new.trail server.new running.new }
    ensures queued { line_at wired.new.lines made.request.stream
        ≡ Some (record { wire = record (opened made.request.stream) { unsent = made.request.bytes }; is_for = for_use.Conn dial.at.host dial.conn }) }
    ensures others { KeepsOthers made.request.stream wired.old.lines wired.new.lines }
    ensures idle { server.new.pool.owed ≡ server.old.pool.owed }
    ensures net { wired.new.net ≡ wired.old.net }
{
    let stream = made.request.stream;
    wired.append(
        dial.at.moment,
        Entry::Dialled {
            op: dial.at.op,
            host: dial.at.host,
            conn: dial.conn,
            stream: Some(stream),
        },
    );
    running.dial(dial.conn, dial.at.moment);
    server.keep_stream(stream);
    wired.ask(dial.at.moment, made.request, made.bytes);
}

/// The net gave no stream: the connection is lost as soon as it is dialled.
fn fail<N: Net>(
    wired: &mut WiredTrail<N>,
    server: &mut Server,
    running: &mut RunningCommand,
    dial: ToDial,
)
    requires free { IsFree wired.old.trail.point dial.at.moment }
    requires steps { 5 ≤ wired.old.trail.room.steps }
    requires answered { IsAnswered wired.old.trail.point.state dial.at (λ t. pool.Dialled t dial.conn) server.old running.old }
    requires streamless { stream_of server.old dial.conn ≡ None }
    requires untold { N.tells → HasUntoldDial (N.history wired.old.net) wired.old.trail }
    requires counted { IsUntold (N.faults wired.old.net) wired.old.trail.steps }
    ensures failed { HasFailed dial.at dial.conn wired.old.trail wired.new.trail wired.old.lines wired.new.lines server.new running.new }
    ensures idle { server.new.pool.owed ≡ [] }
    ensures faults { N.faults wired.old.net ≤ N.faults wired.new.net }
{
    wired.tell_undialled(
        dial.at.moment,
        Entry::Dialled {
            op: dial.at.op,
            host: dial.at.host,
            conn: dial.conn,
            stream: None,
        },
    );
    stands_once(wired);
    running.dial(dial.conn, dial.at.moment);
    let loss = Loss {
        conn: dial.conn,
        why: Unsent::Dial { bad: false },
        news: None,
    };
    lose(wired, dial.at, server, running, loss);
}

/// The greeting of a connection, as the request that comes next. Where memory is wanting its stream is closed again.
fn greeting<N: Net>(
    alloc: Global,
    wired: &mut WiredTrail<N>,
    dial: ToDial,
    stream: u64,
) -> Result<MadeRequest, Memory>
    requires there { IsThere wired.old.lines stream }
    ensures trail { wired.new.trail ≡ wired.old.trail }
    ensures ok { OnOk result (wired.new ≡ wired.old) }
    ensures stream { IfOk result (λ made. made.request.stream ≡ stream) }
    ensures hello { IfOk result (λ made. IsHello (purpose_of.Greeting dial.at.host dial.conn) stream true made.request) }
    ensures id { IfOk result (λ made. made.request.id ≡ id_at (length wired.old.trail.lists.requests)) }
    ensures bytes { IfOk result (λ made. made.bytes ≡ made.request.bytes) }
    ensures gone { OnErr result (line_at wired.new.lines stream ≡ None) }
    ensures others { KeepsOthers stream wired.old.lines wired.new.lines }
    ensures faults { N.faults wired.old.net ≤ N.faults wired.new.net }
{
    let hello = HelloFor {
        purpose: Purpose::Greeting {
            host: dial.at.host,
            conn: dial.conn,
        },
        stream,
        first: true,
    };
    match hello_request(alloc, hello, wired.requests().len()) {
        Ok(made) => Ok(made),
        Err(memory) => {
            wired.close(stream);
            Err(memory)
        }
    }
}

/// Dials a connection that a command has leave to dial, and queues its greeting. Where memory is wanting, nothing is written and
/// no stream is in use for it.
pub(crate) fn dial<N: Net>(
    alloc: Global,
    wired: &mut WiredTrail<N>,
    server: &mut Server,
    running: &mut RunningCommand,
    dial: ToDial,
) -> Result<Answer, Memory>
    requires free { IsFree wired.old.trail.point dial.at.moment }
    requires steps { 5 ≤ wired.old.trail.room.steps }
    requires requests { 1 ≤ wired.old.trail.room.requests }
    requires answered { IsAnswered wired.old.trail.point.state dial.at (λ t. pool.Dialled t dial.conn) server.old running.old }
    requires idle { server.old.pool.owed ≡ [] }
    requires last { dial.conn ≡ server.old.pool.state.dialled }
    requires streamless { stream_of server.old dial.conn ≡ None }
    requires counted { wired.old.trail.point.state.requests ≡ length wired.old.trail.lists.requests }
    ensures ok { IfOk result (λ a. IsDial dial.at dial.conn a wired.old.trail wired.new.trail wired.old.lines wired.new.lines server.new running.new) }
    ensures err { OnErr result ((wired.new.trail ≡ wired.old.trail) × AreSame wired.old.lines wired.new.lines) }
    ensures idle { server.new.pool.owed ≡ [] }
    ensures cause { HasCause (N.faults wired.old.net) (N.faults wired.new.net) ((conn : ℕ) × (result ≡ Ok (Answer.Failed conn))) }
{
    let address = server.host().text(alloc)?;
    let is_for = StreamUse::Conn {
        host: dial.at.host,
        conn: dial.conn,
    };
    match wired.dial(alloc, &address, is_for) {
        Dialed::Stream(stream) => {
            let made = greeting(alloc, wired, dial, stream)?;
            let hello = made.request.id;
            greet(wired, server, running, dial, made);
            Ok(Answer::Dials {
                conn: dial.conn,
                hello,
            })
        }
        Dialed::Failed => {
            fail(wired, server, running, dial);
            Ok(Answer::Failed { conn: dial.conn })
        }
        Dialed::Memory => Err(AllocError),
    }
}
