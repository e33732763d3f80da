ghost use Rattle.std.specs.Prelude.{◌≡◌, ◌<◌, ◌^◌, true, [], ◌∷◌, ◌++◌, length, OnOk};
ghost use Rattle.desk_trail.specs.Written.{IsAtLeast, IsUsed, a_name, a_request, a_session, an_entry, an_event, lists_of, no_lists, no_room, with_entry};
ghost use Rattle.desk_trail.specs.declared.entry.Entry.TheVariants as entry_of;

use crate::{Entry, Memory, OfferedHow, Request, Room, Step, Trail};
use bson_doc::{Buffer, Lsid};
use host_name::Host;
use std::alloc::Global;
use std::marker::Model;
use topo_rules::TopoEvent;

/// A trail while it is written: entries are appended within room that was taken ahead of them, so that what belongs together
/// is written whole.
#[derive(Debug, Drop)]
pub struct TrailWriter {
    names: Buffer<Host>,
    events: Buffer<TopoEvent>,
    sessions: Buffer<Lsid>,
    requests: Buffer<Request>,
    steps: Buffer<Step>,
}

impl Model for TrailWriter {
    ghost use Rattle.desk_trail.specs.Written.{Written};

    ghost Value = { Written };

    ghost view = { λ w. record {
      lists = record {
        names = w.names.items;
        events = w.events.items;
        sessions = w.sessions.items;
        requests = w.requests.items;
      };
      steps = w.steps.items;
      room = record {
        names = w.names.room;
        events = w.events.room;
        sessions = w.sessions.room;
        requests = w.requests.room;
        steps = w.steps.room;
      };
    } };
}

impl TrailWriter {
    /// A trail in which nothing is written yet. It takes no memory.
    pub fn new(alloc: Global) -> TrailWriter
        ensures lists { result.lists ≡ no_lists }
        ensures steps { result.steps ≡ [] }
    {
        TrailWriter {
            names: Buffer::new(alloc),
            events: Buffer::new(alloc),
            sessions: Buffer::new(alloc),
            requests: Buffer::new(alloc),
            steps: Buffer::new(alloc),
        }
    }

    /// The names of the hosts, by their numbers.
    pub fn names(&self) -> &[Host]
        ensures value { result.now ≡ self.now.lists.names }
    {
        self.names.as_slice()
    }

    /// The events that were offered.
    pub fn events(&self) -> &[TopoEvent]
        ensures value { result.now ≡ self.now.lists.events }
    {
        self.events.as_slice()
    }

    /// The ids of the sessions.
    pub fn sessions(&self) -> &[Lsid]
        ensures value { result.now ≡ self.now.lists.sessions }
    {
        self.sessions.as_slice()
    }

    /// The requests.
    pub fn requests(&self) -> &[Request]
        ensures value { result.now ≡ self.now.lists.requests }
    {
        self.requests.as_slice()
    }

    /// The entries.
    pub fn steps(&self) -> &[Step]
        ensures value { result.now ≡ self.now.steps }
    {
        self.steps.as_slice()
    }

    /// Takes room for so much more. After its Ok as much can be appended without memory. Nothing that is written changes, and
    /// no room is lost, also where memory is wanting.
    pub fn reserve(&mut self, more: Room) -> Result<(), Memory>
        ensures lists { self.new.lists ≡ self.old.lists }
        ensures steps { self.new.steps ≡ self.old.steps }
        ensures room { OnOk result (IsAtLeast more self.new.room) }
        ensures kept { IsAtLeast self.old.room self.new.room }
    {
        self.names.reserve(more.names)?;
        self.events.reserve(more.events)?;
        self.sessions.reserve(more.sessions)?;
        self.requests.reserve(more.requests)?;
        self.steps.reserve(more.steps)
    }

    /// Appends an entry that names no place that is new.
    pub fn append(&mut self, moment: u64, entry: Entry)
        requires { IsAtLeast an_entry self.old.room }
        ensures lists { self.new.lists ≡ self.old.lists }
        ensures steps { self.new.steps ≡ with_entry self.old.steps moment entry }
        ensures room { IsUsed an_entry self.old.room self.new.room }
    {
        self.steps.put(Step { moment, entry });
    }

    /// Names a host: it gets the next number, and an entry says so.
    pub fn name(&mut self, moment: u64, host: Host)
        requires room { IsAtLeast a_name self.old.room }
        requires count { length self.old.lists.names < 2 ^ 32 }
        ensures lists { self.new.lists ≡ record self.old.lists { names = self.old.lists.names ++ host ∷ [] } }
        ensures steps { self.new.steps ≡ with_entry self.old.steps moment (entry_of.Named (length self.old.lists.names)) }
        ensures room { IsUsed a_name self.old.room self.new.room }
    {
        let number = self.names.len() as u32;
        self.names.put(host);
        self.append(moment, Entry::Named { host: number });
    }

    /// Offers an event: it is the next one, and an entry says what became of it.
    pub fn offer(&mut self, moment: u64, event: TopoEvent, taken: OfferedHow)
        requires { IsAtLeast an_event self.old.room }
        ensures lists { self.new.lists ≡ record self.old.lists { events = self.old.lists.events ++ event ∷ [] } }
        ensures steps { self.new.steps ≡ with_entry self.old.steps moment (entry_of.Offered (length self.old.lists.events) taken) }
        ensures room { IsUsed an_event self.old.room self.new.room }
    {
        let place = self.events.len() as u64;
        self.events.put(event);
        self.append(
            moment,
            Entry::Offered {
                event: place,
                taken,
            },
        );
    }

    /// Leases a new session to a command: its id is the next one, and an entry says so.
    pub fn lease(&mut self, moment: u64, op: u32, id: Lsid)
        requires { IsAtLeast a_session self.old.room }
        ensures lists { self.new.lists ≡ record self.old.lists { sessions = self.old.lists.sessions ++ id ∷ [] } }
        ensures steps { self.new.steps ≡ with_entry self.old.steps moment (entry_of.Leased op (length self.old.lists.sessions) true) }
        ensures room { IsUsed a_session self.old.room self.new.room }
    {
        let place = self.sessions.len() as u64;
        self.sessions.put(id);
        self.append(
            moment,
            Entry::Leased {
                op,
                session: place,
                fresh: true,
            },
        );
    }

    /// Queues a request: it is the next one, and an entry says so.
    pub fn ask(&mut self, moment: u64, request: Request)
        requires { IsAtLeast a_request self.old.room }
        ensures lists { self.new.lists ≡ record self.old.lists { requests = self.old.lists.requests ++ request ∷ [] } }
        ensures steps { self.new.steps ≡ with_entry self.old.steps moment (entry_of.Asked (length self.old.lists.requests)) }
        ensures room { IsUsed a_request self.old.room self.new.room }
    {
        let place = self.requests.len() as u64;
        self.requests.put(request);
        self.append(moment, Entry::Asked { request: place });
    }

    /// The trail as it is, with the same memory.
    pub fn into_trail(self) -> Trail
        ensures lists { lists_of result ≡ self.lists }
        ensures steps { result.steps ≡ self.steps }
    {
        let TrailWriter {
            names,
            events,
            sessions,
            requests,
            steps,
        } = self;
        Trail {
            names: names.into_rows(),
            events: events.into_rows(),
            sessions: sessions.into_rows(),
            requests: requests.into_rows(),
            steps: steps.into_rows(),
        }
    }
}
