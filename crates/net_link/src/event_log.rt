ghost use Rattle.std.specs.Prelude.{◌≡◌, ◌+◌, ◌<◌, [], ◌∷◌, ◌++◌, OnOk, OnErr};

use crate::NetEvent;
use bson_doc::{Buffer, Memory};
use std::alloc::{AllocError, Global};
use std::marker::Model;

/// The history of a net that tells it. Room for events to come can be kept, so that noting them takes no memory: a
/// net keeps it at `dial` for the event of `close`.
#[derive(Debug, Drop)]
pub struct EventLog {
    events: Buffer<NetEvent>,
    kept: usize,
}

impl Model for EventLog {
    ghost use Rattle.std.specs.Prelude.{◌≤◌};
    ghost use Rattle.net_link.specs.Told.{Told};

    ghost Value = { Told };

    ghost view = { λ l. record { events = l.events.items; kept = l.kept } };

    ghost invariant = { λ l. l.kept ≤ l.events.room };
}

impl EventLog {
    /// The empty history, which takes no memory.
    pub fn new(alloc: Global) -> EventLog
        ensures events { result.events ≡ [] }
        ensures kept { result.kept ≡ 0 }
    {
        EventLog {
            events: Buffer::new(alloc),
            kept: 0,
        }
    }

    /// All events, in order.
    pub fn as_slice(&self) -> &[NetEvent]
        ensures { result.now ≡ self.now.events }
    {
        self.events.as_slice()
    }

    /// Keeps room for so many more events.
    pub fn keep(&mut self, more: usize) -> Result<(), Memory>
        ensures ok { OnOk result (self.new ≡ record self.old { kept = self.old.kept + more }) }
        ensures err { OnErr result (self.new ≡ self.old) }
    {
        let Some(kept) = self.kept.checked_add(more) else {
            return Err(AllocError);
        };
        self.events.reserve(kept)?;
        self.kept = kept;
        Ok(())
    }

    /// Notes an event.
    pub fn note(&mut self, event: NetEvent) -> Result<(), Memory>
        ensures ok { OnOk result (self.new ≡ record self.old { events = self.old.events ++ event ∷ [] }) }
        ensures err { OnErr result (self.new ≡ self.old) }
    {
        self.keep(1)?;
        self.note_kept(event);
        Ok(())
    }

    /// Notes an event in the room that was kept.
    pub fn note_kept(&mut self, event: NetEvent)
        requires { 0 < self.old.kept }
        ensures events { self.new.events ≡ self.old.events ++ event ∷ [] }
        ensures kept { self.new.kept + 1 ≡ self.old.kept }
    {
        self.events.put(event);
        self.kept -= 1;
    }
}
