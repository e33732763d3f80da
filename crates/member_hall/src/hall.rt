ghost use Rattle.std.specs.Prelude.{◌≡◌, ◌≢◌, ◌⊎◌, ◌↔◌, ◌<◌, ◌≤◌, ◌^◌, ◌++◌, [], ℕ, length, map, take, Some, Err, IfOk, IsTrue};
ghost use Rattle.net_link.specs.Calls.{dial_events, write_events, read_events, close_events, IfStream, IsNewStream, TakesWithin, GotWithin};
ghost use Rattle.net_link.specs.Causes.{HasCause, count_of};
ghost use Rattle.net_link.specs.Events.{Adds, IsFresh};
ghost use Rattle.net_link.specs.Inbox.{ReadsInbox};
ghost use Rattle.net_link.specs.Keeps.{all, all_but, all_but_inbox_of};
ghost use Rattle.net_link.specs.declared.event.NetEvent.TheVariants as event;
ghost use Rattle.member_core.specs.Honest.{IsHonest};
ghost use Rattle.member_core.specs.Logs.{set_after};
ghost use Rattle.member_core.specs.Members.{entries};
ghost use Rattle.member_core.specs.Sizes.{IsWithin};
ghost use Rattle.member_hall.specs.Calls.{came_of, close_state, dial_answer, dial_state, dialed_of, faulted, read_answer, read_state, taken, write_answer, wrote_of};
ghost use Rattle.member_hall.specs.Halls.{HasEnded, IsLive, inbox_of, peer_at};
ghost use Rattle.member_hall.specs.Honest.{elections_in};
ghost use Rattle.member_hall.specs.Plans.{fault_in as fault_of_lists, new_hall};
ghost use Rattle.member_hall.specs.Playing.{HallKeeps};
ghost use Rattle.member_hall.specs.Turns.{begun, served};

use crate::fault::HallFault;
use crate::hall_core::HallCore;
use crate::making::{fault_in, members};
use crate::{Memory, Planned};
use bson_doc::Rows;
use host_name::Host;
use member_core::LogEntry;
use net_link::{Came, Dialed, Net, NetEvent, Wrote};
use std::alloc::Global;
use std::marker::Model;

/// A net in memory that plays the members of a replica set, with a plan of what happens to them.
///
/// Each `dial`, `write` and `read` is a turn. At its start the acts of the turn happen, in the plan's order, and late requests
/// are handled. A write takes its whole piece, and each request that it completes is handled at its end. A call that answers
/// `Memory` took and gave nothing; what its turn had done by then stays done, and the rest is done at the start of the next.
/// A request for which memory was wanting at the end of a write is handled then too.
///
/// To contracts a hall is its state (`specs/Halls.antt`), and its history is honest behind any calls.
#[derive(Drop)]
pub struct Hall {
    core: HallCore,
}

impl Model for Hall {
    ghost use Rattle.std.specs.Coded.{codes};
    ghost use Rattle.bson_doc.specs.contracts.value.Value as values;
    ghost use Rattle.member_hall.specs.Halls.{HallState};
    ghost use Rattle.member_hall.specs.Honest.{IsSound};

    ghost Value = { HallState };

    ghost coded = { Prim.hlevel (codes, values.the_row.coded) };

    ghost view = { λ h. h.core };

    ghost invariant = { λ h. IsSound h.core };
}

impl Hall {
    /// A hall of one member for each host, by the hosts' places, that plays these acts. The bytes of the set's name and of the
    /// displayed hosts, with 64 more for the name and for each host, come to at most 15,000,000.
    pub fn new(
        alloc: Global,
        set: &str,
        hosts: &[Host],
        acts: Rows<Planned>,
    ) -> Result<Hall, HallFault>
        requires { IsWithin set.now hosts.now }
        ensures hall { IfOk result (λ hall. hall ≡ new_hall set.now hosts.now acts) }
        ensures fault { (fault : HallFault) → fault ≢ HallFault.Memory → (result ≡ Err fault) ↔ (fault_of_lists hosts.now acts ≡ Some fault) }
    {
        if let Some(fault) = fault_in(hosts, acts.as_slice()) {
            return Err(fault);
        }
        let Ok(peers) = members(alloc, set, hosts) else {
            return Err(HallFault::Memory);
        };
        match HallCore::new(alloc, peers, acts) {
            Ok(core) => Ok(Hall { core }),
            Err(_) => Err(HallFault::Memory),
        }
    }
}

impl Net for Hall {
    ghost use Rattle.std.specs.Prelude.{length};
    ghost use Rattle.net_link.specs.Causes.{count_of, count_of-below};
    ghost use Rattle.member_hall.specs.Halls.{HasEnded, IsLive, inbox_of};
    ghost use Rattle.member_hall.specs.Streams.{IsLive-below};

    ghost faults = { λ h. count_of h.faults };

    ghost is_open = { λ h s. IsLive h.lines s };

    ghost next = { λ h. length h.lines };

    ghost tells = { Unit {0} };

    ghost history = { λ h. h.events };

    ghost inbox = { λ h s. inbox_of h s };

    ghost has_ended = { λ h s. HasEnded h.lines s };

    ghost is_full = { λ _ _. ⊥ };

    ghost counts = { λ h. count_of-below h.faults };

    ghost below = { λ h s live. IsLive-below h.lines s live };

    /// Fails exactly where the address is no member's or the member is dead.
    fn dial(&mut self, address: &str) -> Dialed
        ensures cause { HasCause (count_of self.old.faults) (count_of self.new.faults) (result ≡ Dialed.Failed) }
        ensures keeps { HallKeeps all self.old self.new }
        ensures stream { IfStream result (IsNewStream (length self.old.lines) (length self.new.lines) (IsLive self.new.lines)) }
        ensures told { Adds (dial_events address.now result) self.old.events self.new.events }
        ensures fresh { IfStream result (λ s. IsFresh s self.old.events) }

        ensures answer { result ≢ Dialed.Memory → result ≡ dial_answer address.now (begun self.old) }
        ensures state { result ≢ Dialed.Memory → self.new ≡ dial_state address.now (begun self.old) }
    {
        let answer = self.core.dial(address);
        dialed(answer)
    }

    /// Fails exactly where the stream's member is dead or ended it, and else takes the whole piece. The requests that it
    /// completes are handled at its end; where memory for one is wanting the stream stays to be served.
    fn write(&mut self, stream: u64, bytes: &[u8]) -> Wrote
        requires is_open { IsLive self.old.lines stream }
        requires piece { 0 < length bytes.now }

        ensures within { TakesWithin bytes.now result }
        ensures cause { HasCause (count_of self.old.faults) (count_of self.new.faults) (result ≡ Wrote.Failed) }
        ensures keeps { HallKeeps all self.old self.new }
        ensures told { Adds (write_events stream bytes.now result) self.old.events self.new.events }
        ensures full { result ≢ Wrote.NotYet }

        ensures answer { result ≢ Wrote.Memory → result ≡ write_answer stream bytes.now (begun self.old) }
        ensures failed { result ≡ Wrote.Failed → self.new ≡ faulted (event.Fault stream) (begun self.old) }
        ensures served { result ≡ Wrote.Took (length bytes.now)
            → (self.new ≡ served stream (taken stream bytes.now (begun self.old))) ⊎ (self.new.unserved ≡ Some stream) }
    {
        let answer = self.core.write(stream, bytes);
        wrote(bytes.len(), answer)
    }

    /// Fails exactly where the stream's member is dead. It gives bytes of the first answer that can be read, where there is one;
    /// else it says that the stream ended, where its member ended it, or that nothing has come.
    fn read(&mut self, stream: u64, into: &mut [u8]) -> Came
        requires is_open { IsLive self.old.lines stream }
        requires piece { 0 < length into.old }

        ensures within { GotWithin into.new result }
        ensures cause { HasCause (count_of self.old.faults) (count_of self.new.faults) (result ≡ Came.Failed) }
        ensures keeps { HallKeeps (all_but_inbox_of stream) self.old self.new }
        ensures told { Adds (read_events stream into.new result) self.old.events self.new.events }
        ensures inbox { ReadsInbox (inbox_of self.old stream) (inbox_of self.new stream) (HasEnded self.new.lines stream) into.new result }

        ensures answer { result ≢ Came.Memory → result ≡ read_answer stream (length into.old) (begun self.old) }
        ensures state { result ≢ Came.Memory → self.new ≡ read_state stream into.new result (begun self.old) }
    {
        let answer = self.core.read(stream, into);
        came(answer)
    }

    fn close(&mut self, stream: u64)
        requires { IsLive self.old.lines stream }

        ensures cause { count_of self.old.faults ≤ count_of self.new.faults }
        ensures keeps { HallKeeps (all_but stream) self.old self.new }
        ensures told { Adds (close_events stream) self.old.events self.new.events }

        ensures state { self.new ≡ close_state stream self.old }
    {
        self.core.close(stream);
    }
}

/// What a dial answers.
fn dialed(answer: Result<Option<u64>, Memory>) -> Dialed
    ensures { result ≡ dialed_of answer }
{
    match answer {
        Ok(Some(stream)) => Dialed::Stream(stream),
        Ok(None) => Dialed::Failed,
        Err(_) => Dialed::Memory,
    }
}

/// What a write of so many bytes answers.
fn wrote(size: usize, answer: Result<bool, Memory>) -> Wrote
    ensures { result ≡ wrote_of size answer }
{
    match answer {
        Ok(true) => Wrote::Took(size),
        Ok(false) => Wrote::Failed,
        Err(_) => Wrote::Memory,
    }
}

/// What a read answers.
fn came(answer: Result<Came, Memory>) -> Came
    ensures { result ≡ came_of answer }
{
    match answer {
        Ok(came) => came,
        Err(_) => Came::Memory,
    }
}

impl Hall {
    /// All that happened, in order: an honest history.
    pub fn events(&self) -> &[NetEvent]
        ensures events { result.now ≡ self.now.events }
        ensures honest { IsHonest result.now }
    {
        self.core.events()
    }

    /// Whether a stream is open: a dial gave it and no close had it.
    pub fn is_open(&self, stream: u64) -> bool
        ensures { IsTrue result ↔ IsLive self.now.lines stream }
    {
        self.core.is_open(stream)
    }

    /// How many members there are.
    pub fn members(&self) -> u32
        ensures { result ≡ length self.now.peers }
    {
        self.core.members()
    }

    /// The log of the member at a place: the one that the history tells.
    pub fn log(&self, member: u32) -> &Rows<LogEntry>
        requires { member < length self.now.peers }
        ensures log { result.now ≡ entries (peer_at self.now.peers member).member.log }
        ensures told { result.now ≡ (set_after self.now.events).log member }
    {
        self.core.log(member)
    }

    /// How many elections the history tells.
    pub fn elections(&self) -> u32
        ensures elections { result ≡ self.now.elections }
        ensures told { result ≡ elections_in self.now.events }
    {
        self.core.elections()
    }

    /// The member that was elected last, as the history tells.
    pub fn last_elected(&self) -> u32
        ensures last { result ≡ self.now.last }
        ensures told { result ≡ (set_after self.now.events).last }
    {
        self.core.last_elected()
    }
}
