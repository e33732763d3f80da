//! A command waits for the greeting of the connection that it dialled (CMAP, Establishing a Connection; MongoDB Handshake).
ghost use Rattle.std.specs.Prelude.{◌≡◌, ◌≢◌, ◌≤◌, ◌<◌, ◌+◌, ℕ, Bool, List, None, false, true, IfNone, IfOk, IfSome, OnOk};
ghost use Rattle.std.specs.Option.{option_map};
ghost use Rattle.bson_doc.specs.declared.cluster_time.ClusterTime.{ClusterTime as Time};
ghost use Rattle.cmd_step.specs.Losses.{IsLoss};
ghost use Rattle.desk_trail.specs.Checks.{AtServer};
ghost use Rattle.desk_trail.specs.Clients.{Client, connect_limit};
ghost use Rattle.desk_trail.specs.Facts as fact;
ghost use Rattle.desk_trail.specs.Legal.{is_greeting};
ghost use Rattle.desk_trail.specs.States.{Dials};
ghost use Rattle.net_link.specs.Causes.{Rose};
ghost use Rattle.net_link.specs.declared.event.NetEvent.{NetEvent};
ghost use Rattle.wired_trail.specs.Hearing.{TellsHeard};
ghost use Rattle.wired_trail.specs.Lines.{IsThere, KeepsOthers};
ghost use Rattle.wired_trail.specs.Wired.{HasCome};
ghost use Rattle.desk_core.specs.Appends.{AppendsAside, AppendsOf, IsOfOp};
ghost use Rattle.desk_core.specs.CheckOuts.{IsToOfferLoss, KeepsAddress, heard, news_of};
ghost use Rattle.desk_core.specs.Commands.{IsAtWork, MovesOne};
ghost use Rattle.desk_core.specs.Greetings.{IsDialledBy, IsDialledOn};
ghost use Rattle.desk_core.specs.Hearing.{HasComeWith, HearsGreeting};
ghost use Rattle.desk_core.specs.Kept.{IsReady};
ghost use Rattle.desk_core.specs.Steps.{MeansPhase};
ghost use Rattle.desk_core.specs.declared.progress.Progress.TheVariants as progress;

use crate::Memory;
use crate::checks::{exceeds, room_for};
use crate::closings::closing_of;
use crate::operation::Operation;
use crate::progress::Progress;
use crate::state::Core;
use bson_doc::ClusterTime;
use cmd_reply::{GreetingResult, Waiting, greeting_result};
use cmd_state::{CheckOut, RunningCommand};
use cmd_step::{At, Greeted, Loss, lose, settle};
use conn_uri::Settings;
use host_name::Host;
use net_link::Net;
use std::alloc::{AllocError, Global};
use time_gossip::TimeGossip;
use wired_trail::{StreamUse, WiredTrail};
use write_retry::Unsent;

/// Until when the greeting of a connection is waited for that was dialled at a moment (URI Options, connectTimeoutMS); None where
/// that is more than there can be.
fn greeting_limit(settings: &Settings, dialled: u64) -> Option<u64>
    ensures limit { IfSome result (λ limit. (client : Client) → client.settings ≡ settings.now → limit ≡ dialled + connect_limit client) }
{
    dialled.checked_add(settings.connect_ms * 1_000)
}

/// A connection that a command dialled, and whose greeting is waited for.
#[derive(Clone, Copy, Drop)]
pub struct Dialled {
    /// The server's number.
    pub host: u32,
    /// The connection, by its number in the server's pool.
    pub conn: u64,
    /// Its generation.
    pub generation: u64,
    /// Its stream.
    pub stream: u64,
}

/// A command in a step, with the connection that it dialled.
#[derive(Clone, Copy, Drop)]
pub struct DialledAt {
    /// The moment of the step, in microseconds.
    pub moment: u64,
    /// The command's number.
    pub op: u32,
    /// The connection.
    pub dialled: Dialled,
}

/// A reply's cluster time is taken in: its stamp, where that exceeds the greatest that was seen (Driver Sessions, Gossipping the
/// cluster time).
fn take_news(gossip: &mut TimeGossip, time: Option<ClusterTime>) -> Option<u64>
    ensures news { result ≡ option_map (λ (t : Time). t.stamp) (news_of gossip.old time) }
    ensures greatest { gossip.new ≡ heard gossip.old time }
    ensures came { (history : List NetEvent) → HasComeWith history time → IfSome result (HasCome history) }
{
    let Some(time) = time else {
        return None;
    };
    let stamp = time.stamp;
    if !exceeds(gossip, stamp) {
        return None;
    }
    gossip.advance(time);
    Some(stamp)
}

/// A turn on the stream of a connection whose greeting is waited for: what came of it; None where its answer may still come.
fn hear<N: Net>(
    alloc: Global,
    wired: &mut WiredTrail<N>,
    stream: u64,
    waiting: Waiting,
    moment: u64,
) -> Result<Option<GreetingResult>, Memory>
    requires there { IsThere wired.old.lines stream }
    ensures trail { wired.new.trail ≡ wired.old.trail }
    ensures others { KeepsOthers stream wired.old.lines wired.new.lines }
    ensures early { IfOk result (λ r. IfNone r (moment < waiting.limit)) }
    ensures hears { N.tells → IfOk result (λ r. IfSome r (HearsGreeting (N.history wired.new.net) wired.new.trail stream waiting moment)) }
    ensures faults { N.faults wired.old.net ≤ N.faults wired.new.net }
{
    let pulled = wired.turn(alloc, stream, waiting.id);
    greeting_result(alloc, waiting, moment, pulled)
}

impl<N: Net> Core<N> {
    /// The connection that a command dialled; None where there is none.
    fn dialled_by(&self, moment: u64, op: u32, running: &RunningCommand) -> Option<Dialled>
        requires work { IsAtWork self.now moment op running.now }
        ensures dialled { IfSome result (IsDialledBy self.now.trail.point.state running.now) }
        ensures line { IfSome result (IsDialledOn self.now.lines) }
    {
        let CheckOut::Dials { host, ticket, conn } = running.check_out() else {
            return None;
        };
        self.wired.steps();
        trail_laws::commands::each_command_waits_at_its_server();
        let server = self.servers.get(host as usize)?;
        let held = server.find_pending(conn)?;
        if held.ticket != ticket {
            return None;
        }
        let stream = server.stream_of(conn)?;
        if self.wired.use_of(stream) != Some(StreamUse::Conn { host, conn }) {
            return None;
        }
        Some(Dialled {
            host,
            conn,
            generation: held.generation,
            stream,
        })
    }

    /// The address of a connection's server.
    fn address_of(&self, alloc: Global, host: u32) -> Result<Host, Memory>
        requires runs { self.now.is_stopped ≡ false }
        requires there { AtServer self.now.trail.point.state host (λ s. Unit {0}) }
        ensures address { IfOk result (λ a. AtServer self.now.trail.point.state host (λ s. a ≡ s.address)) }
    {
        self.servers[host as usize].host().copy(alloc)
    }

    /// A turn on the stream of a connection whose greeting is waited for, behind which there is room for all that may follow it.
    fn turn_greeting(
        &mut self,
        alloc: Global,
        moment: u64,
        dialled: Dialled,
        waiting: Waiting,
    ) -> Result<Option<GreetingResult>, Memory>
        requires runs { self.old.is_stopped ≡ false }
        requires line { IsDialledOn self.old.lines dialled }
        ensures same { self.new ≡ record self.old { net = self.new.net; lines = self.new.lines; trail = record self.old.trail { room = self.new.trail.room } } }
        ensures room { OnOk result (self.new.closings + 5 ≤ self.new.trail.room.steps) }
        ensures early { IfOk result (λ r. IfNone r (moment < waiting.limit)) }
        ensures hears { N.tells → IfOk result (λ r. IfSome r (HearsGreeting (N.history self.new.net) self.new.trail dialled.stream waiting moment)) }
        ensures faults { N.faults self.old.net ≤ N.faults self.new.net }
    {
        let room = room_for(self.closings, 5, 0)?;
        self.wired.reserve(room)?;
        hear(alloc, &mut self.wired, dialled.stream, waiting, moment)
    }

    /// The greeting was answered: the connection is lent to the command; or it is shut, since its pool was closed or cleared in the
    /// meantime, and the attempt ends (CMAP, Establishing a Connection).
    fn settle_greeted(
        &mut self,
        operation: &mut Operation,
        at: DialledAt,
        time: Option<ClusterTime>,
    )
        requires work { IsAtWork self.old at.moment at.op operation.old }
        requires dialled { IsDialledBy self.old.trail.point.state operation.old at.dialled }
        requires room { self.old.closings + 5 ≤ self.old.trail.room.steps }
        requires heard { N.tells → (stale : Bool) → TellsHeard (N.history self.old.net) self.old.trail at.moment
            (fact.Settled at.op at.dialled.host at.dialled.conn stale) }
        requires came { N.tells → HasComeWith (N.history self.old.net) time }
        ensures ready { IsReady self.new at.moment }
        ensures moves { MovesOne at.op operation.new self.old.trail self.new.trail }
        ensures appends { AppendsOf ⊥ (IsOfOp at.op) at.moment self.old.trail self.new.trail }
        ensures faults { N.faults self.old.net ≤ N.faults self.new.net }
    {
        let DialledAt {
            moment,
            op,
            dialled,
        } = at;
        let Dialled {
            host,
            conn,
            stream,
            ..
        } = dialled;
        let place = At { op, host, moment };
        let news = take_news(&mut self.gossip, time);
        let greeted = Greeted { conn, stream, news };
        let server = &mut self.servers[host as usize];
        let before = closing_of(server);
        settle(
            &mut self.wired,
            place,
            server,
            &mut operation.running,
            greeted,
        );
        let behind = closing_of(server);
        self.closings = self.closings - before + behind;
    }

    /// The connection is lost: it could not be made, or its greeting was refused. The command gets none, and its attempt ends.
    fn lose_dialled(
        &mut self,
        operation: &mut Operation,
        at: DialledAt,
        why: Unsent,
        time: Option<ClusterTime>,
    )
        requires work { IsAtWork self.old at.moment at.op operation.old }
        requires dialled { IsDialledBy self.old.trail.point.state operation.old at.dialled }
        requires room { self.old.closings + 5 ≤ self.old.trail.room.steps }
        requires loss { IsLoss why }
        requires reply { time ≢ None → is_greeting why ≡ true }
        requires heard { N.tells → TellsHeard (N.history self.old.net) self.old.trail at.moment (fact.NotLent at.op at.dialled.host why) }
        requires came { N.tells → HasComeWith (N.history self.old.net) time }
        ensures owes { AtServer self.new.trail.point.state at.dialled.host (IsToOfferLoss self.new at.moment at.dialled.generation why) }
        ensures stays { KeepsAddress at.dialled.host self.old.trail.point.state self.new.trail.point.state }
        ensures moves { MovesOne at.op operation.new self.old.trail self.new.trail }
        ensures appends { AppendsOf ⊥ (IsOfOp at.op) at.moment self.old.trail self.new.trail }
        ensures faults { N.faults self.old.net ≤ N.faults self.new.net }
    {
        let DialledAt {
            moment,
            op,
            dialled,
        } = at;
        let Dialled { host, conn, .. } = dialled;
        let place = At { op, host, moment };
        let news = take_news(&mut self.gossip, time);
        let loss = Loss { conn, why, news };
        let server = &mut self.servers[host as usize];
        let before = closing_of(server);
        lose(&mut self.wired, place, server, &mut operation.running, loss);
        let behind = closing_of(server);
        self.closings = self.closings - before + behind;
    }

    /// Offers what a lost connection tells of its server, which must come next: that it is broken, with the connection's generation,
    /// unless what came was no message (SDAM, Error handling: network error before the handshake completes; own: bad bytes).
    fn offer_loss(
        &mut self,
        alloc: Global,
        at: DialledAt,
        address: Host,
        why: Unsent,
    ) -> Result<(), Memory>
        requires owes { AtServer self.old.trail.point.state at.dialled.host
            (λ s. (address ≡ s.address) × IsToOfferLoss self.old at.moment at.dialled.generation why s) }
        ensures ok { OnOk result (IsReady self.new at.moment) }
        ensures faults { N.faults self.old.net ≤ N.faults self.new.net }
        ensures appends { AppendsAside ⊥ at.moment self.old.trail self.new.trail }
    {
        let DialledAt {
            moment,
            dialled,
            ..
        } = at;
        let Dialled {
            host,
            generation,
            ..
        } = dialled;
        match why {
            Unsent::Dial { bad: false } | Unsent::Greeting { .. } => {
                self.offer_broken(alloc, moment, host, address, generation)
            }
            Unsent::Dial { bad: true }
            | Unsent::PoolLate
            | Unsent::PoolCleared { .. }
            | Unsent::PoolClosed { .. }
            | Unsent::TooLarge { .. } => Ok(()),
        }
    }

    /// The connection is lost, and its server is told to be broken where that follows.
    fn fail_dialled(
        &mut self,
        alloc: Global,
        operation: &mut Operation,
        at: DialledAt,
        address: Host,
        why: Unsent,
        time: Option<ClusterTime>,
    ) -> Result<Progress, Memory>
        requires work { IsAtWork self.old at.moment at.op operation.old }
        requires dialled { IsDialledBy self.old.trail.point.state operation.old at.dialled }
        requires room { self.old.closings + 5 ≤ self.old.trail.room.steps }
        requires loss { IsLoss why }
        requires reply { time ≢ None → is_greeting why ≡ true }
        requires heard { N.tells → TellsHeard (N.history self.old.net) self.old.trail at.moment (fact.NotLent at.op at.dialled.host why) }
        requires came { N.tells → HasComeWith (N.history self.old.net) time }
        requires address { AtServer self.old.trail.point.state at.dialled.host (λ s. address ≡ s.address) }
        ensures ok { OnOk result (IsReady self.new at.moment) }
        ensures done { IfOk result (λ p. p ≡ progress.Done) }
        ensures moves { OnOk result (MovesOne at.op operation.new self.old.trail self.new.trail) }
        ensures appends { AppendsOf ⊥ (IsOfOp at.op) at.moment self.old.trail self.new.trail }
        ensures faults { N.faults self.old.net ≤ N.faults self.new.net }
    {
        self.lose_dialled(operation, at, why, time);
        self.offer_loss(alloc, at, address, why)?;
        Ok(Progress::Done)
    }

    /// The connection that a command dialled waits for the answer to its hello: it is lent to the command, or shut, or lost; or its
    /// greeting is waited for until connectTimeoutMS is over (CMAP, Establishing a Connection; MongoDB Handshake; URI Options).
    pub fn greet(
        &mut self,
        alloc: Global,
        moment: u64,
        op: u32,
        operation: &mut Operation,
    ) -> Result<Progress, Memory>
        requires work { IsAtWork self.old moment op operation.old }
        requires dials { (host : ℕ) × (ticket : ℕ) × (conn : ℕ) × (operation.old.check_out ≡ Dials host ticket conn) }
        ensures ok { OnOk result (IsReady self.new moment) }
        ensures moves { OnOk result (MovesOne op operation.new self.old.trail self.new.trail) }
        ensures means { IfOk result (MeansPhase self.old.trail.client self.new.trail.point.state moment operation.new) }
        ensures appends { AppendsOf (Rose (N.faults self.old.net) (N.faults self.new.net)) (IsOfOp op) moment self.old.trail self.new.trail }
        ensures faults { N.faults self.old.net ≤ N.faults self.new.net }
    {
        // (cannot be: the connection that it dialled is pending, and its stream is in use for it)
        let Some(dialled) = self.dialled_by(moment, op, &operation.running) else {
            return Err(AllocError);
        };
        let address = self.address_of(alloc, dialled.host)?;
        // (cannot be: it dialled that connection in this attempt)
        let since = operation.running.dialled().ok_or(AllocError)?;
        let limit = greeting_limit(self.wired.settings(), since).ok_or(AllocError)?;
        let waiting = Waiting {
            id: operation.awaited,
            limit,
        };
        let Some(result) = self.turn_greeting(alloc, moment, dialled, waiting)? else {
            return Ok(Progress::Wait { until: limit });
        };
        let at = DialledAt {
            moment,
            op,
            dialled,
        };
        match result {
            GreetingResult::Greeted { time } => {
                self.settle_greeted(operation, at, time);
                Ok(Progress::Done)
            }
            GreetingResult::Refused { code, time } => {
                let why = Unsent::Greeting { code };
                self.fail_dialled(alloc, operation, at, address, why, time)
            }
            GreetingResult::Lost { bad } => {
                let why = Unsent::Dial { bad };
                self.fail_dialled(alloc, operation, at, address, why, None)
            }
        }
    }
}
