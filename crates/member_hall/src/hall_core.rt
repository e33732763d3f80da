//! The parts of a hall, and what becomes of them: each call is exact.
ghost use Rattle.std.specs.Prelude.{◌≡◌, ◌≢◌, ◌<◌, ◌^◌, All, length, true, false, Ok, Some, IfOk, OnOk, OnErr};
ghost use Rattle.msg_wire.specs.Reading.{flaw};
ghost use Rattle.msg_wire.specs.declared.fault.MsgFault.TheVariants as faults;
ghost use Rattle.member_hall.specs.Acts.{host_of};
ghost use Rattle.member_hall.specs.Halls.{line_at};
ghost use Rattle.member_hall.specs.Plans.{hall_with};
ghost use Rattle.member_hall.specs.Playing.{IsNext, Plays};
ghost use Rattle.member_hall.specs.Turns.{ServesOn, begun, end_on, place_in, request_on, rest_length, resumed, served};

use crate::line::Line;
use crate::peer::Peer;
use crate::place::Place;
use crate::plan::Plan;
use crate::requests::request;
use crate::shares::Shares;
use crate::{Memory, Planned};
use bson_doc::Rows;
use msg_wire::{Message, MsgFault, read};
use net_link::EventLog;
use std::alloc::{AllocError, Global};
use std::marker::Model;

mod acts;
mod calls;
mod lates;

use lates::note_late;

/// Members, the streams to them, what is planned, and the history. Contracts see all but the room that the history keeps.
#[derive(Drop)]
pub(crate) struct HallCore {
    peers: Vec<Peer>,
    last: u32,
    shares: Shares,
    elections: u32,
    plan: Plan,
    turn: u64,
    lines: Vec<Line>,
    /// The streams that hold a late request.
    late: Vec<u64>,
    unserved: Option<u64>,
    log: EventLog,
    faults: u64,
    alloc: Global,
}

impl Model for HallCore {
    ghost use Rattle.std.specs.Coded.{codes};
    ghost use Rattle.bson_doc.specs.contracts.value.Value as values;
    ghost use Rattle.member_hall.specs.Halls.{HallState};
    ghost use Rattle.member_hall.specs.Inside.{IsKept, hall_of};

    ghost Value = { HallState };

    ghost coded = { Prim.hlevel (codes, values.the_row.coded) };

    ghost view = { hall_of };

    ghost invariant = { IsKept };
}

impl HallCore {
    /// These members, to which nothing happened, and their plan.
    pub(crate) fn new(
        alloc: Global,
        peers: Vec<Peer>,
        acts: Rows<Planned>,
    ) -> Result<HallCore, Memory>
        requires some { 0 < length peers.items }
        requires few { length peers.items < 2 ^ 32 }
        requires hosts { All (λ planned. host_of planned.act < length peers.items) acts }
        ensures { IfOk result (λ hall. hall ≡ hall_with peers.items acts) }
    {
        let shares = Shares::new(alloc, peers.len())?;
        Ok(HallCore {
            peers,
            last: 0,
            shares,
            elections: 0,
            plan: Plan::new(acts),
            turn: 0,
            lines: Vec::new(alloc),
            late: Vec::new(alloc),
            unserved: None,
            log: EventLog::new(alloc),
            faults: 0,
            alloc,
        })
    }

    /// Where a stream's next request stands, now.
    fn place_in(&self, stream: u64) -> Place
        requires { stream < length self.now.lines }
        ensures { result ≡ place_in self.now stream }
    {
        let line = &self.lines[stream as usize];
        Place {
            stream,
            nth: line.count,
            member: line.member,
            turn: self.turn,
            lead: self.last == line.member,
        }
    }

    /// The next request of a stream comes to its member.
    fn request(&mut self, stream: u64, message: Message) -> Result<(), Memory>
        requires { IsNext self.old stream message }
        ensures ok { OnOk result (self.new ≡ request_on stream self.old message) }
        ensures err { OnErr result (self.new ≡ self.old) }
        ensures plays { Plays self.old self.new }
    {
        let at = self.place_in(stream);
        self.late.reserve(1)?;
        let peer = &mut self.peers[at.member as usize];
        let line = &mut self.lines[stream as usize];
        let kept = request(at, message, peer, line, &mut self.log)?;
        note_late(&mut self.late, stream, line);
        self.shares.answer(at.member, self.last, kept);
        Ok(())
    }

    /// The member of a stream that goes on ends it.
    fn end(&mut self, stream: u64)
        requires stream { stream < length self.old.lines }
        requires goes_on { (line_at self.old.lines stream).ended ≡ false }
        ensures ended { self.new ≡ end_on stream self.old }
        ensures plays { Plays self.old self.new }
    {
        let turn = self.turn;
        let line = &mut self.lines[stream as usize];
        line.end(turn);
    }

    /// The stream's next request comes to its member, where the stream goes on and one stands whole at the front of its rest; bytes
    /// with a flaw end the stream. Answers whether there may be more.
    fn serve_next(&mut self, stream: u64) -> Result<bool, Memory>
        requires { stream < length self.old.lines }
        ensures more { IfOk result (λ more. ServesOn more stream self.old self.new) }
        ensures less { result ≡ Ok true → rest_length self.new stream < rest_length self.old stream }
        ensures plays { Plays self.old self.new }
    {
        let line = &self.lines[stream as usize];
        if line.ended {
            return Ok(false);
        }
        match read(self.alloc, line.rest.as_slice()) {
            Ok(message) => {
                self.request(stream, message)?;
                Ok(true)
            }
            Err(fault) => {
                self.judge(stream, fault)?;
                Ok(false)
            }
        }
    }

    /// No request stands whole at the front of a stream's rest: bytes with a flaw end the stream.
    fn judge(&mut self, stream: u64, fault: MsgFault) -> Result<(), Memory>
        requires stream { stream < length self.old.lines }
        requires goes_on { (line_at self.old.lines stream).ended ≡ false }
        requires flaw { fault ≢ faults.Memory → flaw (line_at self.old.lines stream).rest ≡ Some fault }
        ensures ok { OnOk result (self.new ≡ served stream self.old) }
        ensures plays { Plays self.old self.new }
    {
        match fault {
            MsgFault::Short { .. } => Ok(()),
            MsgFault::Memory => Err(AllocError),
            _ => {
                self.end(stream);
                Ok(())
            }
        }
    }

    /// All whole requests of a stream come to its member, one after another, until the member ends the stream. Where memory runs
    /// out the one that wants it stays at the front of the rest.
    fn serve(&mut self, stream: u64) -> Result<(), Memory>
        requires { stream < length self.old.lines }
        ensures ok { OnOk result (self.new ≡ served stream self.old) }
        ensures plays { Plays self.old self.new }
    {
        'serving: while self.serve_next(stream)? {}
        Ok(())
    }

    /// What was left of a write for want of memory is served.
    fn resume(&mut self) -> Result<(), Memory>
        ensures ok { OnOk result (self.new ≡ resumed self.old) }
        ensures plays { Plays self.old self.new }
    {
        if let Some(stream) = self.unserved {
            self.serve(stream)?;
            self.unserved = None;
        }
        Ok(())
    }

    /// A turn starts: what is left of a write is served, the acts of the turn happen, and late requests are handled.
    fn begin(&mut self) -> Result<(), Memory>
        ensures ok { OnOk result (self.new ≡ begun self.old) }
        ensures plays { Plays self.old self.new }
    {
        self.turn = self.turn.saturating_add(1);
        self.resume()?;
        self.act()?;
        self.handle_late_requests()
    }
}
