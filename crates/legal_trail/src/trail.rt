ghost use Rattle.std.specs.Prelude.{◌≡◌, ◌<◌, ◌^◌, true, Some, [], ◌∷◌, ◌++◌, length, OnOk};
ghost use Rattle.desk_trail.specs.declared.entry.Entry.TheVariants as entry_of;
ghost use Rattle.desk_trail.specs.Facts.{Fact, fact_of, facts_of};
ghost use Rattle.desk_trail.specs.Facts as fact;
ghost use Rattle.desk_trail.specs.Legal.{IsLegal, StandsAt, beginning, point_behind};
ghost use Rattle.desk_trail.specs.Written.{IsAtLeast, a_name, a_request, a_session, an_entry, an_event, lists_of, no_lists};
ghost use Rattle.legal_trail.specs.Recorded.{Adds};

use crate::{Memory, Parts};
use bson_doc::{Lsid, Rows};
use cmd_build::Command;
use conn_uri::Settings;
use desk_trail::{Entry, OfferedHow, Request, Room, Step, TrailWriter};
use host_name::Host;
use std::alloc::Global;
use std::marker::Model;
use topo_rules::TopoEvent;

/// A client's trail while it is written: each entry may stand where those ahead of it lead.
#[derive(Debug, Drop)]
pub struct LegalTrail {
    settings: Settings,
    commands: Rows<Command>,
    began: u64,
    writer: TrailWriter,
}

impl Model for LegalTrail {
    ghost use Rattle.desk_trail.specs.Legal.{IsLegal};
    ghost use Rattle.legal_trail.specs.Recorded.{Recorded, recorded};
    ghost use Rattle.bson_doc.specs.contracts.value.Value as values;
    ghost use Rattle.topo_rules.specs.contracts.topology.Topology as topologies;
    ghost use Rattle.std.specs.Coded.{codes};

    ghost Value = { Recorded };

    ghost coded = { Prim.hlevel (codes, values.the_row.coded, topologies.the_row.coded) };

    ghost view = { λ t. recorded (record { settings = t.settings; commands = t.commands; began = t.began }) t.writer };

    ghost invariant = { λ t. IsLegal (record { settings = t.settings; commands = t.commands; began = t.began }) t.writer.lists t.writer.steps };
}

impl LegalTrail {
    /// The trail of a client that did nothing yet. It takes no memory.
    pub fn new(alloc: Global, settings: Settings, commands: Rows<Command>, began: u64) -> LegalTrail
        ensures client { result.client ≡ record { settings = settings; commands = commands; began = began } }
        ensures lists { result.lists ≡ no_lists }
        ensures steps { result.steps ≡ [] }
        ensures point { result.point ≡ beginning result.client }
    {
        LegalTrail {
            settings,
            commands,
            began,
            writer: TrailWriter::new(alloc),
        }
    }

    /// The client's settings.
    pub fn settings(&self) -> &Settings
        ensures value { result.now ≡ self.now.client.settings }
    {
        &self.settings
    }

    /// The commands that the client is to run, by their numbers.
    pub fn commands(&self) -> &[Command]
        ensures value { result.now ≡ self.now.client.commands }
    {
        self.commands.as_slice()
    }

    /// The names of the hosts, by their numbers.
    pub fn names(&self) -> &[Host]
        ensures value { result.now ≡ self.now.lists.names }
    {
        self.writer.names()
    }

    /// The events that were offered.
    pub fn events(&self) -> &[TopoEvent]
        ensures value { result.now ≡ self.now.lists.events }
    {
        self.writer.events()
    }

    /// The ids of the sessions.
    pub fn sessions(&self) -> &[Lsid]
        ensures value { result.now ≡ self.now.lists.sessions }
    {
        self.writer.sessions()
    }

    /// The requests.
    pub fn requests(&self) -> &[Request]
        ensures value { result.now ≡ self.now.lists.requests }
    {
        self.writer.requests()
    }

    /// The entries. They are legal, and lead to the point.
    pub fn steps(&self) -> &[Step]
        ensures value { result.now ≡ self.now.steps }
        ensures legal { IsLegal self.now.client self.now.lists self.now.steps }
        ensures point { self.now.point ≡ point_behind self.now.client (facts_of self.now.lists self.now.steps) }
    {
        self.writer.steps()
    }

    /// Takes room for so much more. After its Ok as much can be appended without memory. Nothing that is written changes, and
    /// no room is lost, also where memory is wanting.
    pub fn reserve(&mut self, more: Room) -> Result<(), Memory>
        ensures same { self.new ≡ record self.old { room = self.new.room } }
        ensures room { OnOk result (IsAtLeast more self.new.room) }
        ensures kept { IsAtLeast self.old.room self.new.room }
    {
        self.writer.reserve(more)
    }

    /// Appends an entry that names no place that is new, and may stand next.
    pub fn append(&mut self, moment: u64, entry: Entry)
        requires room { IsAtLeast an_entry self.old.room }
        requires stands { (told : Fact) × (fact_of self.old.lists entry ≡ Some told)
            × StandsAt self.old.client self.old.point (record { at = moment; what = told }) }
        ensures adds { (told : Fact) → fact_of self.old.lists entry ≡ Some told
            → Adds an_entry self.old.lists moment entry told self.old self.new }
    {
        self.writer.append(moment, entry);
    }

    /// Names a host: it gets the next number, and an entry says so, which may stand next.
    pub fn name(&mut self, moment: u64, host: Host)
        requires room { IsAtLeast a_name self.old.room }
        requires count { length self.old.lists.names < 2 ^ 32 }
        requires stands { StandsAt self.old.client self.old.point (record { at = moment; what = fact.Named (length self.old.lists.names) host }) }
        ensures adds { Adds a_name (record self.old.lists { names = self.old.lists.names ++ host ∷ [] }) moment
            (entry_of.Named (length self.old.lists.names)) (fact.Named (length self.old.lists.names) host) self.old self.new }
    {
        desk_trail::laws::places::a_legal_trail_is_legal_by_longer_lists();
        self.writer.name(moment, host);
    }

    /// Offers an event: it is the next one, and an entry says what became of it, which may stand next.
    pub fn offer(&mut self, moment: u64, event: TopoEvent, taken: OfferedHow)
        requires room { IsAtLeast an_event self.old.room }
        requires stands { StandsAt self.old.client self.old.point (record { at = moment; what = fact.Offered (length self.old.lists.events) event taken }) }
        ensures adds { Adds an_event (record self.old.lists { events = self.old.lists.events ++ event ∷ [] }) moment
            (entry_of.Offered (length self.old.lists.events) taken) (fact.Offered (length self.old.lists.events) event taken) self.old self.new }
    {
        desk_trail::laws::places::a_legal_trail_is_legal_by_longer_lists();
        self.writer.offer(moment, event, taken);
    }

    /// Leases a new session to a command: its id is the next one, and an entry says so, which may stand next.
    pub fn lease(&mut self, moment: u64, op: u32, id: Lsid)
        requires room { IsAtLeast a_session self.old.room }
        requires stands { StandsAt self.old.client self.old.point (record { at = moment; what = fact.Leased op (length self.old.lists.sessions) id true }) }
        ensures adds { Adds a_session (record self.old.lists { sessions = self.old.lists.sessions ++ id ∷ [] }) moment
            (entry_of.Leased op (length self.old.lists.sessions) true) (fact.Leased op (length self.old.lists.sessions) id true) self.old self.new }
    {
        desk_trail::laws::places::a_legal_trail_is_legal_by_longer_lists();
        self.writer.lease(moment, op, id);
    }

    /// Queues a request: it is the next one, and an entry says so, which may stand next.
    pub fn ask(&mut self, moment: u64, request: Request)
        requires room { IsAtLeast a_request self.old.room }
        requires stands { StandsAt self.old.client self.old.point (record { at = moment; what = fact.Asked (length self.old.lists.requests) request }) }
        ensures adds { Adds a_request (record self.old.lists { requests = self.old.lists.requests ++ request ∷ [] }) moment
            (entry_of.Asked (length self.old.lists.requests)) (fact.Asked (length self.old.lists.requests) request) self.old self.new }
    {
        desk_trail::laws::places::a_legal_trail_is_legal_by_longer_lists();
        self.writer.ask(moment, request);
    }

    /// The trail as it is, which is legal, and what the client was given.
    pub fn into_parts(self) -> Parts
        ensures lists { lists_of result.trail ≡ self.lists }
        ensures steps { result.trail.steps ≡ self.steps }
        ensures settings { result.settings ≡ self.client.settings }
        ensures commands { result.commands ≡ self.client.commands }
        ensures legal { IsLegal self.client (lists_of result.trail) result.trail.steps }
        ensures point { self.point ≡ point_behind self.client (facts_of (lists_of result.trail) result.trail.steps) }
    {
        let LegalTrail {
            settings,
            commands,
            began: _,
            writer,
        } = self;
        Parts {
            trail: writer.into_trail(),
            settings,
            commands,
        }
    }
}
