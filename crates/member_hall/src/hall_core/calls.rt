//! What each call on a hall does behind the start of its turn. Where memory runs out a call took and gave nothing.
ghost use Rattle.std.specs.Prelude.{◌≡◌, ◌≢◌, ◌⊎◌, ◌<◌, ◌≤◌, ◌+◌, ◌^◌, [], ◌∷◌, ◌++◌, length, take, not, true, false, Ok, Some, IfOk, IfSome, OnOk, OnErr};
ghost use Rattle.member_core.specs.Members.{entries};
ghost use Rattle.net_link.specs.declared.event.NetEvent.TheVariants as event;
ghost use Rattle.net_link.specs.declared.net.Came.TheVariants as came;
ghost use Rattle.member_hall.specs.Calls.{IsGiven, close_state, dial_state, dial_stream, faulted, is_dead, noted, opened, reached, read_answer, read_size, read_state, taken, write_fails, write_state};
ghost use Rattle.member_hall.specs.Halls.{IsLive, line_at, peer_at};
ghost use Rattle.member_hall.specs.Lines.{front_at};
ghost use Rattle.member_hall.specs.Playing.{Plays};
ghost use Rattle.member_hall.specs.Turns.{begun, served};

use super::HallCore;
use crate::Memory;
use crate::line::Line;
use bson_doc::{Bytes, Rows, Text};
use member_core::LogEntry;
use net_link::{Came, NetEvent};

impl HallCore {
    /// A dial: the stream that it began, if it reached a member.
    pub(crate) fn dial(&mut self, address: &str) -> Result<Option<u64>, Memory>
        ensures stream { IfOk result (λ stream. stream ≡ dial_stream address.now (begun self.old)) }
        ensures state { OnOk result (self.new ≡ dial_state address.now (begun self.old)) }
        ensures begun { OnOk result (Plays self.old (begun self.old)) }
        ensures err { OnErr result (Plays self.old self.new) }
    {
        self.begin()?;
        let text = Text::take(self.alloc, address)?;
        match self.reach(address) {
            Some(member) => Ok(Some(self.open(member, text)?)),
            None => {
                self.fail(NetEvent::NoDial { address: text })?;
                Ok(None)
            }
        }
    }

    /// A write: whether it took the bytes.
    pub(crate) fn write(&mut self, stream: u64, bytes: &[u8]) -> Result<bool, Memory>
        requires { stream < length self.old.lines }
        ensures took { IfOk result (λ took. took ≡ not (write_fails (begun self.old) stream)) }
        ensures state { OnOk result (Plays (write_state stream bytes.now (begun self.old)) self.new) }
        ensures failed { result ≡ Ok false → self.new ≡ faulted (event.Fault stream) (begun self.old) }
        ensures served { result ≡ Ok true → (self.new ≡ served stream (taken stream bytes.now (begun self.old))) ⊎ (self.new.unserved ≡ Some stream) }
        ensures begun { OnOk result (Plays self.old (begun self.old)) }
        ensures err { OnErr result (Plays self.old self.new) }
    {
        self.begin()?;
        if self.write_fails(stream) {
            self.fail(NetEvent::Fault { stream })?;
            return Ok(false);
        }
        self.take(stream, bytes)?;
        self.serve_or_wait(stream);
        Ok(true)
    }

    /// A read.
    pub(crate) fn read(&mut self, stream: u64, into: &mut [u8]) -> Result<Came, Memory>
        requires stream { stream < length self.old.lines }
        requires piece { 0 < length into.old }
        ensures answer { IfOk result (λ came. came ≡ read_answer stream (length into.old) (begun self.old)) }
        ensures given { IfOk result (λ came. IsGiven stream into.new came (begun self.old)) }
        ensures state { IfOk result (λ came. self.new ≡ read_state stream into.new came (begun self.old)) }
        ensures piece { length into.new ≡ length into.old }
        ensures begun { OnOk result (Plays self.old (begun self.old)) }
        ensures err { OnErr result (Plays self.old self.new) }
    {
        self.begin()?;
        self.read_now(stream, into)
    }

    /// Closes a stream. It takes no memory.
    pub(crate) fn close(&mut self, stream: u64)
        requires { IsLive self.old.lines stream }
        ensures { self.new ≡ close_state stream self.old }
    {
        self.log.note_kept(NetEvent::Closed { stream });
        let line = &mut self.lines[stream as usize];
        line.shut();
    }
}

impl HallCore {
    /// The place of the member that a dial of the address reaches.
    fn reach(&self, address: &str) -> Option<u32>
        ensures { result ≡ reached self.now.peers address.now }
    {
        match self.place_of(address) {
            Some(place) => Some(place as u32),
            None => None,
        }
    }

    /// The same as a place.
    fn place_of(&self, address: &str) -> Option<usize>
        ensures place { result ≡ reached self.now.peers address.now }
        ensures within { IfSome result (λ place. place < 2 ^ 32) }
    {
        self.peers.iter().position(|peer| peer.takes_dials(address))
    }

    /// Begins a stream to a member, and keeps room for the event of its close.
    fn open(&mut self, member: u32, address: Text) -> Result<u64, Memory>
        requires { member < length self.old.peers }
        ensures stream { IfOk result (λ stream. stream ≡ length self.old.lines) }
        ensures ok { OnOk result (self.new ≡ opened member address self.old) }
        ensures err { OnErr result (self.new ≡ self.old) }
    {
        self.lines.reserve(1)?;
        self.log.keep(2)?;
        let stream = self.lines.len() as u64;
        self.lines.push_reserved(Line::new(self.alloc, member));
        self.log.note_kept(NetEvent::Dialled { stream, address });
        Ok(stream)
    }

    /// Notes the event of a call.
    fn note(&mut self, event: NetEvent) -> Result<(), Memory>
        ensures ok { OnOk result (self.new ≡ noted event self.old) }
        ensures err { OnErr result (self.new ≡ self.old) }
    {
        self.log.note(event)
    }

    /// Notes the event of a call that fails.
    fn fail(&mut self, event: NetEvent) -> Result<(), Memory>
        ensures ok { OnOk result (self.new ≡ faulted event self.old) }
        ensures err { OnErr result (self.new ≡ self.old) }
    {
        self.log.note(event)?;
        self.faults = self.faults.saturating_add(1);
        Ok(())
    }

    /// Whether the member of a stream is dead.
    fn is_dead(&self, stream: u64) -> bool
        requires { stream < length self.now.lines }
        ensures { result ≡ is_dead self.now stream }
    {
        let line = &self.lines[stream as usize];
        let peer = &self.peers[line.member as usize];
        peer.dead
    }

    /// Whether its member ended a stream.
    fn has_ended(&self, stream: u64) -> bool
        requires { stream < length self.now.lines }
        ensures { result ≡ (line_at self.now.lines stream).ended }
    {
        let line = &self.lines[stream as usize];
        line.ended
    }

    /// Whether a write on a stream fails.
    fn write_fails(&self, stream: u64) -> bool
        requires { stream < length self.now.lines }
        ensures { result ≡ write_fails self.now stream }
    {
        self.is_dead(stream) || self.has_ended(stream)
    }

    /// A stream gets bytes.
    fn take(&mut self, stream: u64, bytes: &[u8]) -> Result<(), Memory>
        requires { stream < length self.old.lines }
        ensures ok { OnOk result (self.new ≡ taken stream bytes.now self.old) }
        ensures err { OnErr result (self.new ≡ self.old) }
    {
        let out = Bytes::take(self.alloc, bytes)?;
        self.log.keep(1)?;
        let line = &mut self.lines[stream as usize];
        line.rest.extend(bytes)?;
        self.log.note_kept(NetEvent::Out { stream, bytes: out });
        Ok(())
    }

    /// The whole requests of a stream come to its member; those for which memory is wanting wait for the next turn.
    fn serve_or_wait(&mut self, stream: u64)
        requires { stream < length self.old.lines }
        ensures served { (self.new ≡ served stream self.old) ⊎ (self.new.unserved ≡ Some stream) }
        ensures plays { Plays self.old self.new }
    {
        if self.serve(stream).is_err() {
            self.unserved = Some(stream);
        }
    }

    /// What a read does, at this turn.
    fn read_now(&mut self, stream: u64, into: &mut [u8]) -> Result<Came, Memory>
        requires stream { stream < length self.old.lines }
        requires piece { 0 < length into.old }
        ensures answer { IfOk result (λ came. came ≡ read_answer stream (length into.old) self.old) }
        ensures given { IfOk result (λ came. IsGiven stream into.new came self.old) }
        ensures state { IfOk result (λ came. self.new ≡ read_state stream into.new came self.old) }
        ensures piece { length into.new ≡ length into.old }
        ensures err { OnErr result (self.new ≡ self.old) }
    {
        if self.is_dead(stream) {
            self.fail(NetEvent::Fault { stream })?;
            return Ok(Came::Failed);
        }
        let count = self.read_size(stream, into.len());
        if count > 0 {
            self.give(stream, count, into)?;
            return Ok(Came::Got(count));
        }
        if self.has_ended(stream) {
            self.note(NetEvent::Ended { stream })?;
            return Ok(Came::End);
        }
        self.note(NetEvent::Dry { stream })?;
        Ok(Came::NotYet)
    }

    /// How much a read gives into a piece of that size, at this turn.
    fn read_size(&self, stream: u64, room: usize) -> usize
        requires { stream < length self.now.lines }
        ensures { result ≡ read_size stream room self.now }
    {
        let line = &self.lines[stream as usize];
        let peer = &self.peers[line.member as usize];
        let most = match peer.split {
            Some(most) => most.max(1) as usize,
            None => room,
        };
        room.min(most.min(line.front(self.turn).len()))
    }

    /// Gives so many bytes of what can be read.
    fn give(&mut self, stream: u64, count: usize, into: &mut [u8]) -> Result<(), Memory>
        requires stream { stream < length self.old.lines }
        requires some { 0 < count }
        requires there { count ≤ length (front_at self.old.turn (line_at self.old.lines stream)) }
        requires room { count ≤ length into.old }
        ensures ok { OnOk result (self.new ≡ read_state stream into.new (came.Got count) self.old) }
        ensures given { OnOk result (take count into.new ≡ take count (front_at self.old.turn (line_at self.old.lines stream))) }
        ensures piece { length into.new ≡ length into.old }
        ensures err { OnErr result (self.new ≡ self.old) }
    {
        let turn = self.turn;
        let line = &mut self.lines[stream as usize];
        let bytes = Bytes::take(self.alloc, &line.front(turn)[..count])?;
        into[..count].copy_from_slice(bytes.as_slice());
        self.log.note(NetEvent::Came { stream, bytes })?;
        line.give(count);
        Ok(())
    }
}

impl HallCore {
    /// The history.
    pub(crate) fn events(&self) -> &[NetEvent]
        ensures { result.now ≡ self.now.events }
    {
        self.log.as_slice()
    }

    /// Whether a stream is open.
    pub(crate) fn is_open(&self, stream: u64) -> bool
        ensures { result ≡ (line_at self.now.lines stream).live }
    {
        if stream >= self.lines.len() as u64 {
            return false;
        }
        let line = &self.lines[stream as usize];
        line.live
    }

    /// How many members there are.
    pub(crate) fn members(&self) -> u32
        ensures { result ≡ length self.now.peers }
    {
        self.peers.len() as u32
    }

    /// The log of the member at a place.
    pub(crate) fn log(&self, member: u32) -> &Rows<LogEntry>
        requires { member < length self.now.peers }
        ensures { result.now ≡ entries (peer_at self.now.peers member).member.log }
    {
        let peer = &self.peers[member as usize];
        peer.member.log()
    }

    /// How many elections there were.
    pub(crate) fn elections(&self) -> u32
        ensures { result ≡ self.now.elections }
    {
        self.elections
    }

    /// The member that was elected last.
    pub(crate) fn last_elected(&self) -> u32
        ensures { result ≡ self.now.last }
    {
        self.last
    }
}
