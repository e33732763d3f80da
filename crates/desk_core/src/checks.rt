ghost use Rattle.std.specs.Prelude.{◌≡◌, ◌≢◌, ◌≤◌, ◌⊎◌, ◌+◌, ◌^◌, ℕ, List, [], ◌∷◌, true, false, not, Ok, None, Some, OnOk, IfNone, IfOk, IfSome, is_some, length, nat_lt, slice_get};
ghost use Rattle.std.specs.Option.{option_map_or};
ghost use Rattle.desk_trail.specs.declared.request.Purpose.TheVariants as purpose_of;
ghost use Rattle.desk_trail.specs.Checks.{AtServer, IsCheckStream, IsDue, IsNew, Runs};
ghost use Rattle.desk_trail.specs.Owed.{IsHello, Owed};
ghost use Rattle.desk_trail.specs.Requests.{id_at};
ghost use Rattle.desk_trail.specs.States.{ServerState};
ghost use Rattle.desk_trail.specs.Topologies.{asks_of, offered_after};
ghost use Rattle.desk_wire.specs.State.{opened};
ghost use Rattle.host_name.specs.Addresses.{Address};
ghost use Rattle.net_link.specs.Causes.{HasCause, Rose};
ghost use Rattle.topo_book.specs.Means.{stands_known};
ghost use Rattle.topo_rules.specs.declared.event.TopoEvent.TheVariants as event_as;
ghost use Rattle.topo_rules.specs.Laws.{listed_by};
ghost use Rattle.wired_trail.specs.Faults.{IsUntold};
ghost use Rattle.wired_trail.specs.Hearing.{HasUntoldDial, told_of};
ghost use Rattle.wired_trail.specs.Lines.{line_at};
ghost use Rattle.wired_trail.specs.declared.lines.Line.{Line};
ghost use Rattle.wired_trail.specs.declared.stream_use.StreamUse.TheVariants as for_use;
ghost use Rattle.desk_core.specs.Appends.{AppendsAside};
ghost use Rattle.desk_core.specs.Follows.{IsToOffer};
ghost use Rattle.desk_core.specs.Hearing.{HasComeWith, HeardReply};
ghost use Rattle.desk_core.specs.Kept.{IsReady, IsToBegin, IsWriting};
ghost use Rattle.desk_core.specs.Rests.{HasBegun, HasEnded, KeepsChecks};
ghost use Rattle.desk_core.specs.Sights.{IsAtRest, IsAwaited};

use crate::Memory;
use crate::check_result::{CheckResult, Running, broken};
use crate::driven::{EndAt, drive, limit_of, tell_end};
use crate::hello::{hello_bytes, id_of};
use crate::reserving::reserve_beside;
use crate::state::Core;
use bson_doc::{Bytes, ClusterTime};
use desk_trail::{CheckHow, Entry, Purpose, Request, Room};
use hello_reply::ServerKind;
use host_name::Host;
use net_link::{Dialed, Net};
use std::alloc::{AllocError, Global};
use time_gossip::TimeGossip;
use topo_book::TopoBook;
use topo_rules::TopoEvent;
use wired_trail::StreamUse;

/// Room for so many more entries, beside the closings of so many pools, and for so many requests.
pub(crate) fn room_for(closings: usize, entries: usize, requests: usize) -> Result<Room, Memory>
    ensures { IfOk result (λ room. room ≡ record { names = 0; events = 0; sessions = 0; requests = requests; steps = closings + entries }) }
{
    let steps = closings.checked_add(entries).ok_or(AllocError)?;
    Ok(Room {
        names: 0,
        events: 0,
        sessions: 0,
        requests,
        steps,
    })
}

/// Whether the topology knows the server.
fn is_known(book: &TopoBook, host: &Host) -> bool
    ensures { result ≡ stands_known book.now.topology host.now }
{
    match book.topology().find(host) {
        Some(description) => description.kind != ServerKind::Unknown,
        None => false,
    }
}

/// Whether a stamp exceeds that of the greatest cluster time that was seen.
pub(crate) fn exceeds(gossip: &TimeGossip, stamp: u64) -> bool
    ensures { result ≡ option_map_or (λ kept. nat_lt kept.stamp stamp) gossip.now true }
{
    match gossip.greatest() {
        Some(kept) => kept.stamp < stamp,
        None => true,
    }
}

/// The hello of a check on a stream, as the request at that place, and its bytes once more.
fn check_hello(
    alloc: Global,
    host: u32,
    stream: u64,
    place: usize,
    first: bool,
) -> Result<(Request, Bytes), Memory>
    ensures hello { IfOk result (λ made. IsHello (purpose_of.Check host) stream first made.0) }
    ensures id { IfOk result (λ made. made.0.id ≡ id_at place) }
    ensures bytes { IfOk result (λ made. made.1 ≡ made.0.bytes) }
{
    let id = id_of(place);
    let bytes = hello_bytes(alloc, id, first)?;
    let sent = Bytes::take(alloc, bytes.as_slice())?;
    let purpose = Purpose::Check { host };
    let request = Request {
        stream,
        id,
        purpose,
        bytes,
    };
    Ok((request, sent))
}

impl<N: Net> Core<N> {
    /// Dials a stream for the checks of a server; None where the net could give none.
    fn dial_check(&mut self, alloc: Global, host: u32) -> Result<Option<u64>, Memory>
        requires there { (s : ServerState) × (slice_get self.old.trail.point.state.servers host ≡ Some s) }
        requires runs { self.old.is_stopped ≡ false }
        ensures same { self.new ≡ record self.old { net = self.new.net; lines = self.new.lines } }
        ensures stream { IfOk result (λ r. IfSome r (λ stream. IsNew self.old.trail.point.state stream
            × (line_at self.new.lines stream ≡ Some (record { wire = opened stream; is_for = for_use.Check host })))) }
        ensures untold { N.tells → result ≡ Ok None → HasUntoldDial (N.history self.new.net) self.new.trail }
        ensures counted { result ≡ Ok None → IsUntold (N.faults self.new.net) self.new.trail.steps }
        ensures cause { HasCause (N.faults self.old.net) (N.faults self.new.net) (result ≡ Ok None) }
    {
        let address = self.servers[host as usize].host().text(alloc)?;
        match self.wired.dial(alloc, &address, StreamUse::Check { host }) {
            Dialed::Stream(stream) => Ok(Some(stream)),
            Dialed::Failed => Ok(None),
            Dialed::Memory => Err(AllocError),
        }
    }

    /// Begins a check of a server that is due, where nothing must come next or that check must: its hello is queued on the stream
    /// that the last check kept, or on a new one (Server Monitoring). Where the net gives no stream the check ends at once.
    pub fn begin_check(&mut self, alloc: Global, moment: u64, host: u32) -> Result<(), Memory>
        requires begins { (rest : List Owed) × IsToBegin self.old moment host rest }
        requires due { AtServer self.old.trail.point.state host (IsDue moment) }
        ensures ok { (rest : List Owed) → IsToBegin self.old moment host rest → OnOk result (IsWriting self.new moment 0 rest) }
        ensures begins { OnOk result (IsAtRest self.new.trail.point.state moment host
            ⊎ HasBegun self.old.trail.point.state self.new.trail.point.state host) }
        ensures faults { N.faults self.old.net ≤ N.faults self.new.net }
        ensures appends { AppendsAside (Rose (N.faults self.old.net) (N.faults self.new.net)) moment self.old.trail self.new.trail }
    {
        match self.servers[host as usize].check_stream() {
            Some(stream) => self.begin_on(alloc, moment, host, stream, false),
            None => match self.dial_check(alloc, host)? {
                Some(stream) => self.begin_on(alloc, moment, host, stream, true),
                None => self.end_undialled(alloc, moment, host),
            },
        }
    }

    /// Begins a check on a stream on which nothing is unsent; `first` where no check ran on it.
    fn begin_on(
        &mut self,
        alloc: Global,
        moment: u64,
        host: u32,
        stream: u64,
        first: bool,
    ) -> Result<(), Memory>
        requires begins { (rest : List Owed) × IsToBegin self.old moment host rest }
        requires due { AtServer self.old.trail.point.state host (λ s. IsDue moment s
            × IsCheckStream self.old.trail.point.state s.check_stream stream × (first ≡ not (is_some s.check_stream))) }
        requires line { (line : Line) × (line_at self.old.lines stream ≡ Some line) × (line.is_for ≡ for_use.Check host) × (line.wire.unsent ≡ []) }
        ensures ok { (rest : List Owed) → IsToBegin self.old moment host rest → OnOk result (IsWriting self.new moment 0 rest) }
        ensures begins { OnOk result (HasBegun self.old.trail.point.state self.new.trail.point.state host) }
        ensures faults { N.faults self.old.net ≤ N.faults self.new.net }
        ensures appends { AppendsAside ⊥ moment self.old.trail self.new.trail }
    {
        self.check_free(stream)?;
        let place = self.wired.requests().len();
        let (request, bytes) = check_hello(alloc, host, stream, place, first)?;
        let id = request.id;
        let room = room_for(self.closings, 2, 1)?;
        reserve_beside(&mut self.wired, self.begun, room)?;
        self.wired
            .append(moment, Entry::CheckBegan { host, stream });
        self.wired.ask(moment, request, bytes);
        let server = &mut self.servers[host as usize];
        server.begin_check(moment, stream, id);
        Ok(())
    }

    /// A check ends for which the net gave no stream.
    fn end_undialled(&mut self, alloc: Global, moment: u64, host: u32) -> Result<(), Memory>
        requires begins { (rest : List Owed) × IsToBegin self.old moment host rest }
        requires due { AtServer self.old.trail.point.state host (λ s. IsDue moment s × (s.check_stream ≡ None)) }
        requires untold { N.tells → HasUntoldDial (N.history self.old.net) self.old.trail }
        requires counted { IsUntold (N.faults self.old.net) self.old.trail.steps }
        ensures ok { (rest : List Owed) → IsToBegin self.old moment host rest → OnOk result (IsWriting self.new moment 0 rest) }
        ensures rests { OnOk result (IsAtRest self.new.trail.point.state moment host) }
        ensures faults { N.faults self.old.net ≤ N.faults self.new.net }
        ensures appends { AppendsAside (Unit {0}) moment self.old.trail self.new.trail }
    {
        let end = broken(
            alloc,
            self.servers[host as usize].host(),
            CheckHow::NoDial,
            None,
        )?;
        let room = room_for(self.closings, 1, 0)?;
        reserve_beside(&mut self.wired, self.begun, room)?;
        let known = is_known(&self.topology, self.servers[host as usize].host());
        self.wired
            .tell_undialled(moment, Entry::CheckEnded { host, how: end.how });
        let server = &mut self.servers[host as usize];
        server.end_check(moment, &end.how, known);
        self.offer(alloc, moment, end.event)
    }

    /// A reply carried a cluster time: where that exceeds the greatest that was seen, it is the greatest now (Driver Sessions,
    /// Gossipping the cluster time).
    pub fn hear_time(&mut self, moment: u64, time: Option<ClusterTime>)
        requires writing { (debts : List Owed) × IsWriting self.old moment 1 debts }
        requires reply { time ≢ None → self.old.trail.point.is_reply ≡ true }
        requires came { N.tells → HasComeWith (N.history self.old.net) time }
        ensures writing { (debts : List Owed) → IsWriting self.old moment 1 debts → IsWriting self.new moment 0 debts }
        ensures servers { self.new.trail.point.state ≡ self.old.trail.point.state }
        ensures names { self.new.trail.lists.names ≡ self.old.trail.lists.names }
        ensures net { self.new.net ≡ self.old.net }
        ensures told { (stream : ℕ) → told_of self.new.trail stream ≡ told_of self.old.trail stream }
        ensures faults { N.faults self.old.net ≤ N.faults self.new.net }
        ensures appends { AppendsAside ⊥ moment self.old.trail self.new.trail }
    {
        let Some(time) = time else {
            return;
        };
        if !exceeds(&self.gossip, time.stamp) {
            return;
        }
        self.wired.tell_time(moment, time.stamp);
        self.gossip.advance(time);
    }

    /// Writes what follows the end of a check: its reply's cluster time, where that is news, and its event with all that must
    /// follow that.
    fn follow_end(
        &mut self,
        alloc: Global,
        moment: u64,
        event: TopoEvent,
        time: Option<ClusterTime>,
        stream: u64,
    ) -> Result<(), Memory>
        requires writing { (first : Owed) × IsWriting self.old moment 1 (first ∷ []) × IsToOffer first event }
        requires reply { time ≢ None → self.old.trail.point.is_reply ≡ true }
        requires count { length self.old.trail.lists.names + length (listed_by event) ≤ 2 ^ 32 }
        requires heard { N.tells → HeardReply (N.history self.old.net) self.old.trail stream event }
        requires came { N.tells → HasComeWith (N.history self.old.net) time }
        ensures ok { OnOk result (IsReady self.new moment) }
        ensures checks { OnOk result (KeepsChecks (offered_after moment event self.old.trail.point.state) self.new.trail.point.state) }
        ensures unknown { OnOk result ((host : Address) → event ≡ event_as.Broken host None → stands_known self.new.trail.point.state.topology host ≡ false) }
        ensures faults { N.faults self.old.net ≤ N.faults self.new.net }
        ensures appends { AppendsAside ⊥ moment self.old.trail self.new.trail }
    {
        self.hear_time(moment, time);
        self.check_reply(&event, stream)?;
        self.offer(alloc, moment, event)
    }

    /// Drives a check that runs: sends what is unsent of its hello, and takes its answer where that came. Some moment where
    /// the answer is still waited for, which is that until which it is.
    pub fn drive_check(
        &mut self,
        alloc: Global,
        moment: u64,
        host: u32,
    ) -> Result<Option<u64>, Memory>
        requires ready { IsReady self.old moment }
        requires runs { AtServer self.old.trail.point.state host (λ s. (began : ℕ) × Runs began s) }
        ensures ok { OnOk result (IsReady self.new moment) }
        ensures waits { IfOk result (λ r. IfSome r (λ until. IsAwaited self.new.trail.client self.new.trail.point.state moment host until)) }
        ensures ends { IfOk result (λ r. IfNone r (HasEnded self.old.trail.point.state self.new.trail.point.state moment host)) }
        ensures faults { N.faults self.old.net ≤ N.faults self.new.net }
        ensures appends { AppendsAside (Rose (N.faults self.old.net) (N.faults self.new.net)) moment self.old.trail self.new.trail }
    {
        let room = room_for(self.closings, 2, 0)?;
        reserve_beside(&mut self.wired, self.begun, room)?;
        let server = &self.servers[host as usize];
        let (Some(stream), Some(began)) = (server.check_stream(), server.began()) else {
            unreachable!()
        };
        let limit = limit_of(self.wired.settings(), began);
        let check = Running {
            host: server.host(),
            began,
            limit,
            hello: server.hello(),
            hosts: self.servers.len(),
        };
        match drive(alloc, &mut self.wired, stream, check, moment) {
            Ok(None) => Ok(Some(limit)),
            Ok(Some(end)) => {
                let CheckResult { how, event, time } = end;
                let known = is_known(&self.topology, self.servers[host as usize].host());
                tell_end(&mut self.wired, moment, EndAt { host, stream }, how);
                let server = &mut self.servers[host as usize];
                server.end_check(moment, &how, known);
                self.follow_end(alloc, moment, event, time, stream)?;
                Ok(None)
            }
            Err(memory) => {
                self.stopped = true;
                Err(memory)
            }
        }
    }
}
