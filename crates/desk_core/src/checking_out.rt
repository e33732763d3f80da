//! A command that waits in the line of a pool is answered (CMAP, Checking Out a Connection).
ghost use Rattle.std.specs.Prelude.{◌≡◌, ◌≤◌, ◌<◌, ℕ, true, false, Ok, Some, IfOk, OnOk, slice_get};
ghost use Rattle.pool_book.specs.Answers.{IsWaitLimit};
ghost use Rattle.pool_book.specs.Pool.{is_swept};
ghost use Rattle.desk_trail.specs.Checks.{AtServer};
ghost use Rattle.desk_trail.specs.States.{ServerState, Waits};
ghost use Rattle.net_link.specs.Causes.{Rose};
ghost use Rattle.desk_core.specs.Appends.{AppendsAside, AppendsOf, IsOfOp};
ghost use Rattle.desk_core.specs.CheckOuts.{IsBehindAnswer, IsBroken, IsPlain, KeepsAddress};
ghost use Rattle.desk_core.specs.Commands.{IsAtWork, MovesOne};
ghost use Rattle.desk_core.specs.Kept.{IsReady};
ghost use Rattle.desk_core.specs.Steps.{MeansPhase};

use crate::Memory;
use crate::checks::room_for;
use crate::closings::closing_of;
use crate::operation::Operation;
use crate::progress::Progress;
use crate::reserving::reserve_beside;
use crate::state::Core;
use cmd_state::CheckOut;
use cmd_step::{Answer, At};
use host_name::Host;
use net_link::Net;
use pool_book::Ticket;
use std::alloc::{AllocError, Global};
use topo_rules::TopoEvent;
use write_retry::Unsent;

/// The line in which a command waits: its server's number, and its ticket.
fn line_of(operation: &Operation) -> (u32, Ticket)
    requires waits { (host : ℕ) × (ticket : ℕ) × (operation.now.check_out ≡ Waits host ticket) }
    ensures line { operation.now.check_out ≡ Waits result.0 result.1.number }
{
    match operation.running.check_out() {
        CheckOut::Waits { host, ticket } => (host, ticket),
        CheckOut::Nothing | CheckOut::Dials { .. } | CheckOut::Has { .. } => unreachable!(),
    }
}

/// An answer, where it is no refusal of another kind than a pool tells a command that waits in its line.
fn plain(answer: Result<Answer, Memory>) -> Result<Answer, Memory>
    ensures same { IfOk result (λ a. answer ≡ Ok a) }
    ensures plain { IfOk result IsPlain }
{
    match answer? {
        Answer::Refused { why } => match why {
            Unsent::PoolLate | Unsent::PoolCleared { .. } | Unsent::PoolClosed { .. } => Ok(
                Answer::Refused { why },
            ),
            // (cannot be: the command dialled no connection, and asked nothing)
            Unsent::Dial { .. } | Unsent::Greeting { .. } | Unsent::TooLarge { .. } => Err(
                AllocError,
            ),
        },
        answer => Ok(answer),
    }
}

impl<N: Net> Core<N> {
    /// The connections of a server's pool that are available and have perished are shut.
    fn sweep_at(&mut self, moment: u64, host: u32) -> Result<(), Memory>
        requires ready { IsReady self.old moment }
        requires there { AtServer self.old.trail.point.state host (λ s. Unit {0}) }
        ensures ok { OnOk result (IsReady self.new moment) }
        ensures swept { OnOk result (AtServer self.new.trail.point.state host (λ s. is_swept s.pool.state moment ≡ true)) }
        ensures stays { OnOk result (KeepsAddress host self.old.trail.point.state self.new.trail.point.state) }
        ensures faults { N.faults self.old.net ≤ N.faults self.new.net }
        ensures appends { AppendsAside ⊥ moment self.old.trail self.new.trail }
    {
        let available = self.servers[host as usize].available().len();
        let room = room_for(self.closings, available, 0)?;
        reserve_beside(&mut self.wired, self.begun, room)?;
        let server = &mut self.servers[host as usize];
        let before = closing_of(server);
        cmd_step::sweep(&mut self.wired, server, host, moment);
        let behind = closing_of(server);
        self.closings = self.closings - before + behind;
        Ok(())
    }

    /// What a command that waits in line gets, of a pool that is swept. Where no stream could be made, the event that its server is
    /// broken must come next.
    fn check_out_at(
        &mut self,
        alloc: Global,
        moment: u64,
        op: u32,
        host: u32,
        operation: &mut Operation,
    ) -> Result<Answer, Memory>
        requires work { IsAtWork self.old moment op operation.old }
        requires waits { (ticket : ℕ) × (operation.old.check_out ≡ Waits host ticket) }
        requires swept { AtServer self.old.trail.point.state host (λ s. is_swept s.pool.state moment ≡ true) }
        ensures answer { IfOk result (IsBehindAnswer self.new moment host operation.new) }
        ensures moves { OnOk result (MovesOne op operation.new self.old.trail self.new.trail) }
        ensures stays { OnOk result (KeepsAddress host self.old.trail.point.state self.new.trail.point.state) }
        ensures appends { AppendsOf (Rose (N.faults self.old.net) (N.faults self.new.net)) (IsOfOp op) moment self.old.trail self.new.trail }
        ensures faults { N.faults self.old.net ≤ N.faults self.new.net }
    {
        let room = room_for(self.closings, 5, 1)?;
        self.wired.reserve(room)?;
        self.wired.steps();
        desk_trail::laws::pools::each_command_is_where_its_pool_has_it();
        trail_laws::commands::each_command_waits_at_its_server();
        let at = At { op, host, moment };
        let server = &mut self.servers[host as usize];
        let before = closing_of(server);
        let told = cmd_step::check_out(alloc, &mut self.wired, at, server, &mut operation.running);
        let Ok(answer) = plain(told) else {
            self.stopped = true;
            self.servers = Vec::new(alloc);
            self.closings = 0;
            return Err(AllocError);
        };
        let behind = closing_of(server);
        self.closings = self.closings - before + behind;
        Ok(answer)
    }

    /// The generation of the pool of the server of that number.
    fn generation_at(&self, host: u32) -> u64
        requires runs { self.now.is_stopped ≡ false }
        requires there { AtServer self.now.trail.point.state host (λ s. Unit {0}) }
        ensures { (s : ServerState) → slice_get self.now.trail.point.state.servers host ≡ Some s → result ≡ s.pool.state.generation }
    {
        self.servers[host as usize].generation()
    }

    /// Until when a ticket waits in the line of the pool of the server of that number, at a moment at which it is not late.
    fn line_limit(&self, moment: u64, host: u32, ticket: u64) -> Result<u64, Memory>
        requires runs { self.now.is_stopped ≡ false }
        ensures limit { IfOk result (λ until. AtServer self.now.trail.point.state host (λ s. IsWaitLimit s.pool.state ticket until)) }
        ensures later { IfOk result (λ until. moment < until) }
    {
        let Some(server) = self.servers.get(host as usize) else {
            // (cannot be: a command waits in the line of a server that was named)
            return Err(AllocError);
        };
        // (cannot be: the ticket waits, entered at a step's moment, and is not late)
        let until = server.wait_limit(ticket).ok_or(AllocError)?;
        if until <= moment {
            return Err(AllocError);
        }
        Ok(until)
    }

    /// Offers the event that a server is broken, which must come next where the server stands in the topology still (SDAM, Error
    /// handling). `address` is the server's, `generation` that of the pool's connection.
    pub fn offer_broken(
        &mut self,
        alloc: Global,
        moment: u64,
        host: u32,
        address: Host,
        generation: u64,
    ) -> Result<(), Memory>
        requires broken { AtServer self.old.trail.point.state host (λ s. (address ≡ s.address) × IsBroken self.old moment generation s) }
        ensures ok { OnOk result (IsReady self.new moment) }
        ensures faults { N.faults self.old.net ≤ N.faults self.new.net }
        ensures appends { AppendsAside ⊥ moment self.old.trail self.new.trail }
    {
        if self.servers[host as usize].has_left() {
            return Ok(());
        }
        let event = TopoEvent::Broken {
            host: address,
            generation: Some(generation),
        };
        self.offer(alloc, moment, event)
    }

    /// What a command that waits in the line of a pool gets: the connections of that pool that perished are shut first. It is lent
    /// one, gets none, dials one whose greeting is waited for until connectTimeoutMS is over, or waits on until waitQueueTimeoutMS is
    /// (CMAP, Checking Out a Connection; URI Options).
    pub fn check_out(
        &mut self,
        alloc: Global,
        moment: u64,
        op: u32,
        operation: &mut Operation,
    ) -> Result<Progress, Memory>
        requires work { IsAtWork self.old moment op operation.old }
        requires waits { (host : ℕ) × (ticket : ℕ) × (operation.old.check_out ≡ Waits host ticket) }
        ensures ok { OnOk result (IsReady self.new moment) }
        ensures moves { OnOk result (MovesOne op operation.new self.old.trail self.new.trail) }
        ensures appends { AppendsOf (Rose (N.faults self.old.net) (N.faults self.new.net)) (IsOfOp op) moment self.old.trail self.new.trail }
        ensures faults { N.faults self.old.net ≤ N.faults self.new.net }
        ensures means { IfOk result (MeansPhase self.old.trail.client self.new.trail.point.state moment operation.new) }
    {
        let (host, _) = line_of(operation);
        // (cannot be: a command waits in the line of a server that was named)
        if self.servers.len() <= host as usize {
            return Err(AllocError);
        }
        let address = self.servers[host as usize].host().copy(alloc)?;
        self.sweep_at(moment, host)?;
        match self.check_out_at(alloc, moment, op, host, operation)? {
            Answer::Lent { .. } | Answer::Refused { .. } => Ok(Progress::Done),
            Answer::Dials { hello, .. } => {
                operation.awaited = hello;
                Ok(Progress::Done)
            }
            Answer::Failed { .. } => {
                let generation = self.generation_at(host);
                self.offer_broken(alloc, moment, host, address, generation)?;
                Ok(Progress::Done)
            }
            Answer::Wait => {
                let (_, ticket) = line_of(operation);
                let until = self.line_limit(moment, host, ticket.number)?;
                Ok(Progress::Wait { until })
            }
        }
    }
}
