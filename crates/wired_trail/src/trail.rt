ghost use Rattle.std.specs.Prelude.{◌≡◌, ◌≢◌, ◌≤◌, ◌<◌, ◌^◌, ℕ, true, false, None, Some, [], ◌∷◌, ◌++◌, length, OnErr, OnOk, IfSome};
ghost use Rattle.std.specs.Option.{option_map};
ghost use Rattle.net_link.specs.Calls.{IfStream};
ghost use Rattle.net_link.specs.Causes.{HasCause};
ghost use Rattle.desk_trail.specs.declared.entry.Entry.TheVariants as entry_of;
ghost use Rattle.desk_trail.specs.Checks.{IsNew};
ghost use Rattle.desk_trail.specs.Facts.{Fact, Lists, fact_of, facts_of};
ghost use Rattle.desk_trail.specs.Facts as fact;
ghost use Rattle.desk_trail.specs.Legal.{IsLegal, StandsAt, beginning, point_behind, tells_reply};
ghost use Rattle.desk_trail.specs.Streams.{of_offered};
ghost use Rattle.desk_trail.specs.Written.{IsAtLeast, a_name, a_request, a_session, an_entry, an_event, lists_of, no_lists};
ghost use Rattle.desk_wire.specs.Exchange.{MustWait};
ghost use Rattle.desk_wire.specs.Pull.{pull_shuts};
ghost use Rattle.desk_wire.specs.Push.{push_shuts};
ghost use Rattle.legal_trail.specs.Recorded.{Adds};
ghost use Rattle.net_link.specs.Prefix.{IsPrefixOf};
ghost use Rattle.net_link.specs.Seen.{seen};
ghost use Rattle.wired_trail.specs.Faults.{IsCounted, IsUntold, tells_fault};
ghost use Rattle.wired_trail.specs.Hearing.{HasUntoldDial, Heard, IsPlain, OffersOf, SpeaksOf, TellsHeard, WasHeard, told_of};
ghost use Rattle.wired_trail.specs.Inside.{KeepsPending, pending_at, stream_offered};
ghost use Rattle.wired_trail.specs.Lines.{Begins, BeginsBy, IsIdle, IsThere, KeepsOthers, line_at, with_unsent};
ghost use Rattle.wired_trail.specs.declared.pending.Pending.TheVariants as pending;
ghost use Rattle.wired_trail.specs.Turns.{Sends, Turns};
ghost use Rattle.wired_trail.specs.Wired.{HasCome, IsWired, says_no_dial};

use crate::lines::Lines;
use crate::pending::Pending;
use crate::pendings::Pendings;
use crate::{Finished, Memory, StreamUse};
use bson_doc::{Bytes, Lsid, Rows};
use cmd_build::Command;
use conn_uri::Settings;
use desk_trail::{CheckHow, Entry, OfferedHow, Request, Room, Step};
use desk_wire::{Pulled, Pushed};
use host_name::Host;
use legal_trail::LegalTrail;
use net_link::{Dialed, Net};
use std::alloc::Global;
use std::marker::Model;
use topo_rules::TopoEvent;
use write_retry::{AttemptEnd, Unsent};

/// A client's trail while it is written, with the net that the client talks over and the streams that are in use.
#[derive(Drop)]
pub struct WiredTrail<N: Net> {
    trail: LegalTrail,
    net: N,
    lines: Lines,
    pendings: Pendings,
}

impl<N: Net> Model for WiredTrail<N> {
    ghost use Rattle.wired_trail.specs.Inside.{IsKept};
    ghost use Rattle.wired_trail.specs.Standing.{Standing};
    ghost use Rattle.bson_doc.specs.contracts.value.Value as values;
    ghost use Rattle.topo_rules.specs.contracts.topology.Topology as topologies;
    ghost use Rattle.std.specs.Coded.{codes};

    ghost Value = { Standing N };

    ghost coded = { Prim.hlevel (codes, N.code, values.the_row.coded, topologies.the_row.coded) };

    ghost view = { λ w. record { net = w.net; lines = w.lines; trail = w.trail } };

    ghost invariant = { λ w. IsKept N.tells (N.is_open w.net) (N.next w.net) (N.faults w.net) (N.history w.net) w.lines w.pendings w.trail };
}

impl<N: Net> WiredTrail<N> {
    /// The trail of a client that did nothing yet, over a net of which no stream is in use, and which, where it tells, told nothing
    /// yet. It takes no memory.
    pub fn new(
        alloc: Global,
        settings: Settings,
        commands: Rows<Command>,
        began: u64,
        net: N,
    ) -> WiredTrail<N>
        requires fresh { N.tells → N.history net ≡ [] }
        ensures net { result.net ≡ net }
        ensures lines { result.lines ≡ [] }
        ensures client { result.trail.client ≡ record { settings = settings; commands = commands; began = began } }
        ensures lists { result.trail.lists ≡ no_lists }
        ensures steps { result.trail.steps ≡ [] }
        ensures point { result.trail.point ≡ beginning result.trail.client }
    {
        WiredTrail {
            trail: LegalTrail::new(alloc, settings, commands, began),
            net,
            lines: Lines::new(alloc),
            pendings: Pendings::new(alloc),
        }
    }

    /// The client's settings.
    pub fn settings(&self) -> &Settings
        ensures value { result.now ≡ self.now.trail.client.settings }
    {
        self.trail.settings()
    }

    /// The commands that the client is to run, by their numbers.
    pub fn commands(&self) -> &[Command]
        ensures value { result.now ≡ self.now.trail.client.commands }
    {
        self.trail.commands()
    }

    /// The names of the hosts, by their numbers.
    pub fn names(&self) -> &[Host]
        ensures value { result.now ≡ self.now.trail.lists.names }
    {
        self.trail.names()
    }

    /// The events that were offered.
    pub fn events(&self) -> &[TopoEvent]
        ensures value { result.now ≡ self.now.trail.lists.events }
    {
        self.trail.events()
    }

    /// The ids of the sessions.
    pub fn sessions(&self) -> &[Lsid]
        ensures value { result.now ≡ self.now.trail.lists.sessions }
    {
        self.trail.sessions()
    }

    /// The requests.
    pub fn requests(&self) -> &[Request]
        ensures value { result.now ≡ self.now.trail.lists.requests }
    {
        self.trail.requests()
    }

    /// The entries. They are legal, lead to the point, and are what the net told, where that tells. They tell at most as many failed
    /// calls as the net counted.
    pub fn steps(&self) -> &[Step]
        ensures value { result.now ≡ self.now.trail.steps }
        ensures wired { N.tells → IsWired self.now.trail.client (N.history self.now.net) (facts_of self.now.trail.lists self.now.trail.steps) }
        ensures counted { IsCounted (N.faults self.now.net) self.now.trail.steps }
        ensures legal { IsLegal self.now.trail.client self.now.trail.lists self.now.trail.steps }
        ensures point { self.now.trail.point ≡ point_behind self.now.trail.client (facts_of self.now.trail.lists self.now.trail.steps) }
    {
        self.trail.steps()
    }

    /// What a stream is for; None where it is not in use.
    pub fn use_of(&self, stream: u64) -> Option<StreamUse>
        ensures value { result ≡ option_map (λ line. line.is_for) (line_at self.now.lines stream) }
    {
        self.lines.use_of(stream)
    }

    /// Whether a stream is in use, and all that was queued on it is sent.
    pub fn is_idle(&self, stream: u64) -> bool
        ensures yes { result ≡ true → IsIdle self.now.lines stream }
        ensures no { result ≡ false → IsIdle self.now.lines stream → ⊥ }
    {
        self.lines.is_idle(stream)
    }

    /// Whether a stream is in use, and each request on it was answered, by the trail.
    pub fn is_free(&self, stream: u64) -> bool
        ensures free { N.tells → result ≡ true → (told_of self.now.trail stream).last ≡ None }
    {
        self.lines.use_of(stream).is_some() && self.pendings.is_nothing(stream)
    }

    /// Takes room for so much more. After its Ok as much can be appended without memory. Nothing that is written changes, and
    /// no room is lost, also where memory is wanting.
    pub fn reserve(&mut self, more: Room) -> Result<(), Memory>
        ensures same { self.new ≡ record self.old { trail = record self.old.trail { room = self.new.trail.room } } }
        ensures room { OnOk result (IsAtLeast more self.new.trail.room) }
        ensures kept { IsAtLeast self.old.trail.room self.new.trail.room }
    {
        self.trail.reserve(more)
    }

    /// Appends an entry that names no place that is new, and may stand next. It says nothing of a stream, of a dial without one or of
    /// a cluster time; where it begins to use a stream, that one is in use.
    pub fn append(&mut self, moment: u64, entry: Entry)
        requires room { IsAtLeast an_entry self.old.trail.room }
        requires stands { (told : Fact) × (fact_of self.old.trail.lists entry ≡ Some told)
            × StandsAt self.old.trail.client self.old.trail.point (record { at = moment; what = told }) }
        requires plain { (told : Fact) → fact_of self.old.trail.lists entry ≡ Some told → IsPlain self.old.lines told }
        ensures adds { (told : Fact) → fact_of self.old.trail.lists entry ≡ Some told
            → Adds an_entry self.old.trail.lists moment entry told self.old.trail self.new.trail }
        ensures same { self.new ≡ record self.old { trail = self.new.trail } }
        ensures silent { (stream : ℕ) → told_of self.new.trail stream ≡ told_of self.old.trail stream }
    {
        self.trail.append(moment, entry);
    }

    /// Appends an entry that tells what became of the last request on a stream, and may stand next; None where no stream was dialled.
    /// Where the net tells, that was heard there by a turn, and nothing was told of it since. Where it tells a failed call, the net
    /// counted one more than the entries tell.
    pub fn tell(&mut self, moment: u64, entry: Entry, stream: Option<u64>)
        requires room { IsAtLeast an_entry self.old.trail.room }
        requires stands { (told : Fact) × (fact_of self.old.trail.lists entry ≡ Some told)
            × StandsAt self.old.trail.client self.old.trail.point (record { at = moment; what = told }) }
        requires speaks { (told : Fact) → fact_of self.old.trail.lists entry ≡ Some told
            → SpeaksOf self.old.trail.client self.old.trail.point.state moment stream told }
        requires heard { N.tells → (told : Fact) → fact_of self.old.trail.lists entry ≡ Some told
            → TellsHeard (N.history self.old.net) self.old.trail moment told }
        requires counted { tells_fault entry ≡ true → IsUntold (N.faults self.old.net) self.old.trail.steps }
        ensures adds { (told : Fact) → fact_of self.old.trail.lists entry ≡ Some told
            → Adds an_entry self.old.trail.lists moment entry told self.old.trail self.new.trail }
        ensures same { self.new ≡ record self.old { trail = self.new.trail } }
    {
        self.pendings.tell(stream, is_reply(&entry));
        self.trail.append(moment, entry);
    }

    /// Appends an entry that tells of a dial without a stream, and may stand next. Where the net tells, it told of such a dial of which
    /// no entry tells yet. The net counted one failed call more than the entries tell.
    pub fn tell_undialled(&mut self, moment: u64, entry: Entry)
        requires room { IsAtLeast an_entry self.old.trail.room }
        requires stands { (told : Fact) × (fact_of self.old.trail.lists entry ≡ Some told)
            × StandsAt self.old.trail.client self.old.trail.point (record { at = moment; what = told }) }
        requires undialled { (told : Fact) → fact_of self.old.trail.lists entry ≡ Some told → says_no_dial told ≡ true }
        requires untold { N.tells → HasUntoldDial (N.history self.old.net) self.old.trail }
        requires counted { tells_fault entry ≡ true → IsUntold (N.faults self.old.net) self.old.trail.steps }
        ensures adds { (told : Fact) → fact_of self.old.trail.lists entry ≡ Some told
            → Adds an_entry self.old.trail.lists moment entry told self.old.trail self.new.trail }
        ensures same { self.new ≡ record self.old { trail = self.new.trail } }
        ensures silent { (stream : ℕ) → told_of self.new.trail stream ≡ told_of self.old.trail stream }
    {
        self.trail.append(moment, entry);
    }

    /// Appends an entry that tells of a cluster time, and may stand next. Where the net tells, that time came.
    pub fn tell_time(&mut self, moment: u64, stamp: u64)
        requires room { IsAtLeast an_entry self.old.trail.room }
        requires stands { StandsAt self.old.trail.client self.old.trail.point (record { at = moment; what = fact.Time stamp }) }
        requires came { N.tells → HasCome (N.history self.old.net) stamp }
        ensures adds { Adds an_entry self.old.trail.lists moment (entry_of.Time stamp) (fact.Time stamp) self.old.trail self.new.trail }
        ensures same { self.new ≡ record self.old { trail = self.new.trail } }
        ensures silent { (stream : ℕ) → told_of self.new.trail stream ≡ told_of self.old.trail stream }
    {
        self.trail.append(moment, Entry::Time { stamp });
    }

    /// Names a host: it gets the next number, and an entry says so, which may stand next.
    pub fn name(&mut self, moment: u64, host: Host)
        requires room { IsAtLeast a_name self.old.trail.room }
        requires count { length self.old.trail.lists.names < 2 ^ 32 }
        requires stands { StandsAt self.old.trail.client self.old.trail.point
            (record { at = moment; what = fact.Named (length self.old.trail.lists.names) host }) }
        ensures adds { Adds a_name (record self.old.trail.lists { names = self.old.trail.lists.names ++ host ∷ [] }) moment
            (entry_of.Named (length self.old.trail.lists.names)) (fact.Named (length self.old.trail.lists.names) host) self.old.trail self.new.trail }
        ensures same { self.new ≡ record self.old { trail = self.new.trail } }
    {
        self.trail.name(moment, host);
    }

    /// Offers an event: it is the next one, and an entry says what became of it, which may stand next. Where it is a reply's, `stream`
    /// is that of the server's checks, and where the net tells the reply was heard there.
    pub fn offer(&mut self, moment: u64, event: TopoEvent, taken: OfferedHow, stream: Option<u64>)
        requires speaks { OffersOf self.old.trail.point.state stream event }
        requires heard { N.tells → WasHeard (N.history self.old.net) self.old.trail (of_offered self.old.trail.point.state event) }
        requires room { IsAtLeast an_event self.old.trail.room }
        requires stands { StandsAt self.old.trail.client self.old.trail.point
            (record { at = moment; what = fact.Offered (length self.old.trail.lists.events) event taken }) }
        ensures adds { Adds an_event (record self.old.trail.lists { events = self.old.trail.lists.events ++ event ∷ [] }) moment
            (entry_of.Offered (length self.old.trail.lists.events) taken) (fact.Offered (length self.old.trail.lists.events) event taken)
            self.old.trail self.new.trail }
        ensures same { self.new ≡ record self.old { trail = self.new.trail } }
    {
        self.pendings.tell(reply_stream(&event, stream), true);
        self.trail.offer(moment, event, taken);
    }

    /// Leases a new session to a command: its id is the next one, and an entry says so, which may stand next.
    pub fn lease(&mut self, moment: u64, op: u32, id: Lsid)
        requires room { IsAtLeast a_session self.old.trail.room }
        requires stands { StandsAt self.old.trail.client self.old.trail.point
            (record { at = moment; what = fact.Leased op (length self.old.trail.lists.sessions) id true }) }
        ensures adds { Adds a_session (record self.old.trail.lists { sessions = self.old.trail.lists.sessions ++ id ∷ [] }) moment
            (entry_of.Leased op (length self.old.trail.lists.sessions) true) (fact.Leased op (length self.old.trail.lists.sessions) id true)
            self.old.trail self.new.trail }
        ensures same { self.new ≡ record self.old { trail = self.new.trail } }
    {
        self.trail.lease(moment, op, id);
    }

    /// Queues a request whole on its stream, of which all is sent, and on which each request was answered: it is the next one, and an
    /// entry says so, which may stand next. `bytes` are the request's.
    pub fn ask(&mut self, moment: u64, request: Request, bytes: Bytes)
        requires bytes { bytes ≡ request.bytes }
        requires idle { IsIdle self.old.lines request.stream }
        requires free { N.tells → (told_of self.old.trail request.stream).last ≡ None }
        requires room { IsAtLeast a_request self.old.trail.room }
        requires stands { StandsAt self.old.trail.client self.old.trail.point
            (record { at = moment; what = fact.Asked (length self.old.trail.lists.requests) request }) }
        ensures adds { Adds a_request (record self.old.trail.lists { requests = self.old.trail.lists.requests ++ request ∷ [] }) moment
            (entry_of.Asked (length self.old.trail.lists.requests)) (fact.Asked (length self.old.trail.lists.requests) request)
            self.old.trail self.new.trail }
        ensures queued { line_at self.new.lines request.stream ≡ option_map (with_unsent request.bytes) (line_at self.old.lines request.stream) }
        ensures others { KeepsOthers request.stream self.old.lines self.new.lines }
        ensures net { self.new.net ≡ self.old.net }
    {
        let id = id_of(&request);
        self.lines.queue(request.stream, bytes);
        self.pendings.queue(request.stream, id);
        self.trail.ask(moment, request);
    }

    /// Dials a stream for that use. It is new to the net and to the trail. Where there is no memory to keep it, it is closed
    /// again.
    pub fn dial(&mut self, alloc: Global, address: &str, is_for: StreamUse) -> Dialed
        ensures trail { self.new.trail ≡ self.old.trail }
        ensures lines { BeginsBy result is_for self.old.lines self.new.lines }
        ensures fresh { IfStream result (IsNew self.old.trail.point.state) }
        ensures free { N.tells → IfStream result (λ stream. (told_of self.old.trail stream).last ≡ None) }
        ensures untold { N.tells → result ≡ Dialed.Failed → HasUntoldDial (N.history self.new.net) self.new.trail }
        ensures cause { HasCause (N.faults self.old.net) (N.faults self.new.net) (result ≡ Dialed.Failed) }
        ensures counted { result ≡ Dialed.Failed → IsUntold (N.faults self.new.net) self.new.trail.steps }
    {
        match self.net.dial(address) {
            Dialed::Stream(stream) => {
                match keep(alloc, &mut self.lines, &mut self.pendings, stream, is_for) {
                    Ok(()) => Dialed::Stream(stream),
                    Err(_) => {
                        self.net.close(stream);
                        Dialed::Memory
                    }
                }
            }
            Dialed::Failed => Dialed::Failed,
            Dialed::Memory => Dialed::Memory,
        }
    }

    /// Sends and receives on a stream what the net takes and has now, for the request of that id, which waits there for its answer: the
    /// next message of it, where that is there whole. A stream that ended, failed or brought what is no message is closed.
    pub fn turn(&mut self, alloc: Global, stream: u64, id: i32) -> Pulled
        requires there { IsThere self.old.lines stream }
        ensures trail { self.new.trail ≡ self.old.trail }
        ensures heard { N.tells → result ≢ Pulled.Memory → Heard result id (seen stream (N.history self.new.net)) (told_of self.old.trail stream) }
        ensures turns { IfSome (line_at self.old.lines stream) (λ before. Turns N.tells stream result before (line_at self.new.lines stream)
            (N.history self.old.net) (N.history self.new.net)) }
        ensures others { KeepsOthers stream self.old.lines self.new.lines }
        ensures cause { HasCause (N.faults self.old.net) (N.faults self.new.net) (result ≡ Pulled.Fault) }
        ensures counted { result ≡ Pulled.Fault → IsUntold (N.faults self.new.net) self.new.trail.steps }
        ensures waits { N.tells → result ≡ Pulled.NotYet → IfSome (line_at self.new.lines stream) (λ now.
            MustWait now.wire.unsent (N.is_full self.new.net stream) (N.inbox self.new.net stream) (N.has_ended self.new.net stream)) }
    {
        if !self.pendings.is_reply(stream, id) {
            // (cannot be: a request is waited for from when it is queued until an entry tells what became of it)
            return Pulled::Memory;
        }
        let answer = self.lines.turn(alloc, &mut self.net, stream);
        if is_over(&answer) {
            self.lines.take_out(stream);
            self.pendings.remove(stream);
            self.net.close(stream);
        } else {
            self.pendings.set(stream, Pending::behind(&answer, id));
        }
        answer
    }

    /// Sends on a stream what the net takes now of the request that waits there for its answer, and reads nothing. A stream that failed
    /// is closed.
    pub fn push(&mut self, stream: u64) -> Pushed
        requires there { IsThere self.old.lines stream }
        ensures trail { self.new.trail ≡ self.old.trail }
        ensures sends { IfSome (line_at self.old.lines stream) (λ before. Sends N.tells stream result before (line_at self.new.lines stream)
            (N.history self.old.net) (N.history self.new.net)) }
        ensures others { KeepsOthers stream self.old.lines self.new.lines }
        ensures cause { HasCause (N.faults self.old.net) (N.faults self.new.net) (result ≡ Pushed.Fault) }
        ensures counted { result ≡ Pushed.Fault → IsUntold (N.faults self.new.net) self.new.trail.steps }
    {
        if !self.pendings.is_waiting(stream) {
            // (cannot be: a request was queued on it, and nothing was read there since)
            return Pushed::Memory;
        }
        let answer = self.lines.push(&mut self.net, stream);
        if is_fault(answer) {
            self.lines.take_out(stream);
            self.pendings.remove(stream);
            self.net.close(stream);
        }
        answer
    }

    /// Closes a stream.
    pub fn close(&mut self, stream: u64)
        requires there { IsThere self.old.lines stream }
        ensures trail { self.new.trail ≡ self.old.trail }
        ensures gone { line_at self.new.lines stream ≡ None }
        ensures others { KeepsOthers stream self.old.lines self.new.lines }
        ensures seen { N.tells → (other : ℕ) → seen other (N.history self.new.net) ≡ seen other (N.history self.old.net) }
        ensures cause { N.faults self.old.net ≤ N.faults self.new.net }
    {
        self.lines.take_out(stream);
        self.pendings.remove(stream);
        self.net.close(stream);
    }

    /// The net, of which no stream is in use.
    pub fn into_net(self) -> N
        requires { self.lines ≡ [] }
        ensures { result ≡ self.net }
    {
        let WiredTrail { net, .. } = self;
        net
    }

    /// Closes all streams. It gives the net back, and the trail as it is: what the net told, where that tells, with at most as many
    /// failed calls as the net counted.
    pub fn finish(self) -> Finished<N>
        ensures wired { N.tells → IsWired self.trail.client (N.history result.net) (facts_of (lists_of result.parts.trail) result.parts.trail.steps) }
        ensures lists { lists_of result.parts.trail ≡ self.trail.lists }
        ensures steps { result.parts.trail.steps ≡ self.trail.steps }
        ensures settings { result.parts.settings ≡ self.trail.client.settings }
        ensures commands { result.parts.commands ≡ self.trail.client.commands }
        ensures legal { IsLegal self.trail.client (lists_of result.parts.trail) result.parts.trail.steps }
        ensures point { self.trail.point ≡ point_behind self.trail.client (facts_of (lists_of result.parts.trail) result.parts.trail.steps) }
        ensures cause { N.faults self.net ≤ N.faults result.net }
        ensures counted { IsCounted (N.faults result.net) result.parts.trail.steps }
    {
        let WiredTrail {
            trail,
            mut net,
            lines,
            ..
        } = self;
        close_all(&mut net, lines);
        Finished {
            net,
            parts: trail.into_parts(),
        }
    }
}

/// Whether a stream is not to be used any more behind this answer.
fn is_over(answer: &Pulled) -> bool
    ensures { result ≡ pull_shuts answer.now }
{
    match answer {
        Pulled::Whole(_) => false,
        Pulled::NotYet => false,
        Pulled::End => true,
        Pulled::Fault => true,
        Pulled::Bad(_) => true,
        Pulled::Memory => false,
    }
}

/// Keeps a stream that was dialled, on which nothing is pending.
fn keep(
    alloc: Global,
    lines: &mut Lines,
    pendings: &mut Pendings,
    stream: u64,
    is_for: StreamUse,
) -> Result<(), Memory>
    requires unused { line_at lines.old stream ≡ None }
    ensures ok { OnOk result (Begins is_for lines.old lines.new stream) }
    ensures nothing { OnOk result (pending_at pendings.new stream ≡ Some pending.Nothing) }
    ensures others { KeepsPending stream pendings.old pendings.new }
    ensures err { OnErr result (lines.new ≡ lines.old) }
{
    pendings.add(stream)?;
    if let Err(memory) = lines.add(alloc, stream, is_for) {
        pendings.remove(stream);
        return Err(memory);
    }
    Ok(())
}

/// The id of a request.
fn id_of(request: &Request) -> i32
    ensures { result ≡ request.now.id }
{
    request.id
}

/// The stream of a reply that is offered; None where the event is no reply's.
fn reply_stream(event: &TopoEvent, stream: Option<u64>) -> Option<u64>
    ensures { result ≡ stream_offered event.now stream }
{
    match event {
        TopoEvent::Reply { .. } => stream,
        TopoEvent::Broken { .. } | TopoEvent::Refused { .. } => None,
    }
}

/// Whether an entry tells of a reply.
fn is_reply(entry: &Entry) -> bool
    ensures { (lists : Lists) (told : Fact) → fact_of lists entry.now ≡ Some told → result ≡ tells_reply told }
{
    match entry {
        Entry::CheckEnded { how, .. } => {
            matches!(how, CheckHow::Reply { .. } | CheckHow::Refused { .. })
        }
        Entry::Settled { .. } => true,
        Entry::NotLent { why, .. } => matches!(why, Unsent::Greeting { .. }),
        Entry::Ended { end, .. } => matches!(end, AttemptEnd::Replied(_)),
        _ => false,
    }
}

/// Whether a stream is not to be used any more behind this answer.
fn is_fault(answer: Pushed) -> bool
    ensures { result ≡ push_shuts answer }
{
    match answer {
        Pushed::Fault => true,
        Pushed::Done | Pushed::NotYet | Pushed::Memory => false,
    }
}

/// Closes the streams of lines, which are open.
fn close_all<N: Net>(net: &mut N, mut lines: Lines)
    requires { (stream : ℕ) → IsThere lines stream → N.is_open net.old stream }
    ensures cause { N.faults net.old ≤ N.faults net.new }
    ensures seen { N.tells → (stream : ℕ) → seen stream (N.history net.new) ≡ seen stream (N.history net.old) }
    ensures grows { N.tells → IsPrefixOf (N.history net.old) (N.history net.new) }
{
    'closing: while let Some(stream) = lines.take_first() {
        net.close(stream);
    }
}
