ghost use Rattle.std.specs.Prelude.{◌≡◌, ◌≤◌, ◌<◌, ◌+◌, ◌*◌, ◌^◌, ◌++◌, ◌∷◌, ℕ, List, None, false, IfSome, OnOk, length, map};
ghost use Rattle.std.specs.Option.{option_and_then};
ghost use Rattle.host_name.specs.Addresses.{Address};
ghost use Rattle.topo_book.specs.Means.{stands_known};
ghost use Rattle.topo_book.specs.Offers.{IfAccepted, verdict_of};
ghost use Rattle.topo_rules.specs.declared.event.TopoEvent.{TopoEvent};
ghost use Rattle.topo_rules.specs.declared.event.TopoEvent.TheVariants as event_as;
ghost use Rattle.topo_rules.specs.Changes.{IsChange};
ghost use Rattle.topo_rules.specs.Laws.{listed_by};
ghost use Rattle.topo_rules.specs.Rules as rules;
ghost use Rattle.desk_trail.specs.Owed.{Owed};
ghost use Rattle.desk_trail.specs.Owed as owed;
ghost use Rattle.desk_trail.specs.States.{ClientState, number_of};
ghost use Rattle.desk_trail.specs.Topologies.{Says, asks_of, offered_after};
ghost use Rattle.desk_core.specs.Answered.{added_by, removed_by};
ghost use Rattle.desk_core.specs.Appends.{AppendsAside};
ghost use Rattle.desk_core.specs.Follows.{AreApart, IsNone, IsToOffer, asked_in, entries_for, owed_by};
ghost use Rattle.wired_trail.specs.Hearing.{OffersOf};
ghost use Rattle.desk_core.specs.Hearing.{IsReplyOn, OffersHeard};
ghost use Rattle.desk_core.specs.Kept.{IsWriting};
ghost use Rattle.desk_core.specs.Rests.{KeepsChecks};
ghost use Rattle.desk_core.specs.Servers.{IsUntouched};

use crate::Memory;
use crate::reserving::reserve_beside;
use crate::state::Core;
use desk_trail::{OfferedHow, Room};
use host_name::Host;
use net_link::Net;
use server_state::Server;
use std::alloc::{AllocError, Global};
use topo_book::Taken;
use topo_rules::{Change, TopoEvent};

/// Room for an event that was offered and for all that must follow it, beside the closings of so many pools. None where that
/// is more than there can be.
fn room_for(closings: usize, taken: &Taken) -> Option<Room>
    ensures names { IfSome result (λ room. room.names ≡ length (added_by taken.now)) }
    ensures events { IfSome result (λ room. room.events ≡ 1) }
    ensures steps { IfSome result (λ room. room.steps ≡ closings + (3 + length (removed_by taken.now) + 2 * length (added_by taken.now))) }
{
    let (added, removed) = match taken {
        Taken::Accepted(change) => (change.added.len(), change.removed.len()),
        _ => (0, 0),
    };
    let named = added.checked_mul(2)?;
    let moved = removed.checked_add(named)?.checked_add(3)?;
    Some(Room {
        names: added,
        events: 1,
        sessions: 0,
        requests: 0,
        steps: closings.checked_add(moved)?,
    })
}

/// What the trail says of an event.
fn said_of(taken: &Taken) -> OfferedHow
    ensures says { (w : ClientState) (event : TopoEvent) → IfAccepted taken.now (IsChange w.topology event (rules.after w.topology event))
        → Says w event (verdict_of taken.now) result }
{
    match taken {
        Taken::Accepted(change) => OfferedHow::Accepted {
            differs: change.differs,
        },
        Taken::Gone => OfferedHow::Gone,
        Taken::StaleVersion { .. } => OfferedHow::StaleVersion,
        Taken::StaleGeneration { .. } => OfferedHow::StaleGeneration,
    }
}

/// A check of the server of that number is asked for, where there is one (Server Monitoring, requestCheck).
fn ask_at(servers: &mut Vec<Server>, moment: u64, host: Option<u32>)
    requires moment { moment ≤ 2 ^ 62 }
    requires within { IfSome host (λ x. x < length servers.old.items) }
    ensures asked { servers.new.items ≡ asked_in moment host servers.old.items }
{
    if let Some(number) = host {
        let server = &mut servers[number as usize];
        server.ask(moment);
    }
}

impl<N: Net> Core<N> {
    /// The server of which an event asks for a check, where it is taken in: that of a command that was refused (SDAM, Error
    /// handling: request an immediate check).
    fn asked_by(&self, event: &TopoEvent) -> Option<u32>
        requires { self.now.is_stopped ≡ false }
        ensures { result ≡ option_and_then (number_of self.now.trail.point.state) (asks_of event.now) }
    {
        match event {
            TopoEvent::Refused { host, .. } => self.number_of(host),
            TopoEvent::Reply { .. } | TopoEvent::Broken { .. } => None,
        }
    }

    /// The stream of the checks of an event's server, where the event is a reply's.
    fn check_stream_of(&self, event: &TopoEvent) -> Option<u64>
        requires { self.now.is_stopped ≡ false }
        ensures { OffersOf self.now.trail.point.state result event.now }
    {
        match event {
            TopoEvent::Reply { description, .. } => {
                let host = self.number_of(&description.host)?;
                self.servers.get(host as usize)?.check_stream()
            }
            TopoEvent::Broken { .. } | TopoEvent::Refused { .. } => None,
        }
    }

    /// How many commands have begun, where the event is of a check; 0 of one that a command's attempt makes, for which it has room.
    fn begun_beside(&self, event: &TopoEvent) -> usize {
        match event {
            TopoEvent::Reply { .. }
            | TopoEvent::Broken {
                generation: None,
                ..
            } => self.begun,
            TopoEvent::Broken { .. } | TopoEvent::Refused { .. } => 0,
        }
    }

    /// A reply that is to be offered came on the stream of its server's checks.
    pub fn check_reply(&self, event: &TopoEvent, stream: u64) -> Result<(), Memory>
        requires { self.now.is_stopped ≡ false }
        ensures on { OnOk result (IsReplyOn self.now.trail.point.state stream event.now) }
    {
        match (event, self.check_stream_of(event)) {
            (TopoEvent::Broken { .. } | TopoEvent::Refused { .. }, _) => Ok(()),
            (TopoEvent::Reply { .. }, Some(kept)) if kept == stream => Ok(()),
            // (cannot be: the server of a check that ended by its reply stands in the topology, and keeps the check's stream)
            (TopoEvent::Reply { .. }, _) => Err(AllocError),
        }
    }

    /// Names the hosts, in this order.
    pub fn name_all(&mut self, alloc: Global, moment: u64, hosts: &[Host]) -> Result<(), Memory>
        requires writing { (rest : List Owed) × (n : ℕ)
            × IsWriting self.old moment (n + 2 * length hosts.now) (map (λ h. owed.Named h) hosts.now ++ rest) }
        requires count { length self.old.trail.lists.names + length hosts.now ≤ 2 ^ 32 }
        ensures ok { (rest : List Owed) (n : ℕ)
            → IsWriting self.old moment (n + 2 * length hosts.now) (map (λ h. owed.Named h) hosts.now ++ rest)
            → OnOk result (IsWriting self.new moment n rest) }
        ensures others { OnOk result ((a : Address) → IsNone a hosts.now → IsUntouched self.old.trail.point.state self.new.trail.point.state a) }
        ensures checks { OnOk result (KeepsChecks self.old.trail.point.state self.new.trail.point.state) }
        ensures names { OnOk result (self.new.trail.lists.names ≡ self.old.trail.lists.names ++ hosts.now) }
        ensures net { self.new.net ≡ self.old.net }
        ensures lines { self.new.lines ≡ self.old.lines }
        ensures appends { AppendsAside ⊥ moment self.old.trail self.new.trail }
    {
        for host in hosts {
            self.name(alloc, moment, host)?;
        }
        Ok(())
    }

    /// Writes all that must follow a change of the topology: hosts that were added are named, hosts that were removed leave,
    /// and then a pool is made ready or cleared (SDAM, Updating the TopologyDescription; CMAP).
    pub fn follow(&mut self, alloc: Global, moment: u64, change: &Change) -> Result<(), Memory>
        requires writing { (rest : List Owed) × (n : ℕ)
            × IsWriting self.old moment (n + entries_for change.now) (owed_by self.old.trail.point.state change.now ++ rest) }
        requires apart { AreApart change.now }
        requires count { length self.old.trail.lists.names + length change.now.added ≤ 2 ^ 32 }
        ensures ok { (rest : List Owed) (n : ℕ)
            → IsWriting self.old moment (n + entries_for change.now) (owed_by self.old.trail.point.state change.now ++ rest)
            → OnOk result (IsWriting self.new moment n rest) }
        ensures checks { OnOk result (KeepsChecks self.old.trail.point.state self.new.trail.point.state) }
        ensures names { OnOk result (self.new.trail.lists.names ≡ self.old.trail.lists.names ++ change.now.added) }
        ensures faults { N.faults self.old.net ≤ N.faults self.new.net }
        ensures appends { AppendsAside ⊥ moment self.old.trail self.new.trail }
    {
        self.name_all(alloc, moment, change.added.as_slice())?;
        self.drop_all(moment, change.removed.as_slice());
        self.ready_some(moment, &change.ready);
        self.clear_some(moment, &change.clear);
        Ok(())
    }

    /// Offers an event, which must come next, to the topology, and writes all that must follow it. A check of the server is asked
    /// for where a refused command was taken in (SDAM, Error handling).
    pub fn offer(&mut self, alloc: Global, moment: u64, event: TopoEvent) -> Result<(), Memory>
        requires writing { (first : Owed) × (rest : List Owed) × IsWriting self.old moment 0 (first ∷ rest) × IsToOffer first event }
        requires count { length self.old.trail.lists.names + length (listed_by event) ≤ 2 ^ 32 }
        requires heard { N.tells → OffersHeard (N.history self.old.net) self.old.trail event }
        ensures ok { (first : Owed) (rest : List Owed) → IsWriting self.old moment 0 (first ∷ rest) → OnOk result (IsWriting self.new moment 0 rest) }
        ensures checks { OnOk result (KeepsChecks (offered_after moment event self.old.trail.point.state) self.new.trail.point.state) }
        ensures unknown { OnOk result ((host : Address) → event ≡ event_as.Broken host None → stands_known self.new.trail.point.state.topology host ≡ false) }
        ensures names { OnOk result (length self.new.trail.lists.names ≤ length self.old.trail.lists.names + length (listed_by event)) }
        ensures faults { N.faults self.old.net ≤ N.faults self.new.net }
        ensures appends { AppendsAside ⊥ moment self.old.trail self.new.trail }
    {
        let generation = self.generation_of(event.host());
        let asked = self.asked_by(&event);
        let stream = self.check_stream_of(&event);
        let begun = self.begun_beside(&event);
        let copy = event.copy(alloc)?;
        let taken = self.topology.offer(alloc, copy, generation)?;
        let Some(room) = room_for(self.closings, &taken) else {
            self.stopped = true;
            return Err(AllocError);
        };
        if let Err(memory) = reserve_beside(&mut self.wired, begun, room) {
            self.stopped = true;
            return Err(memory);
        }
        topo_rules::laws::moves_are_bounded();
        topo_rules::laws::nothing_else_stands();
        self.wired.offer(moment, event, said_of(&taken), stream);
        match taken {
            Taken::Accepted(change) => {
                ask_at(&mut self.servers, moment, asked);
                self.follow(alloc, moment, &change)
            }
            _ => Ok(()),
        }
    }
}
