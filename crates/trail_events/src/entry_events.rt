ghost use Rattle.std.specs.Prelude.{◌≡◌, ◌∷◌, [], Some, option_to_list, slice_get};
ghost use Rattle.desk_trail.specs.declared.request.Request.{Request as TrailRequest};
ghost use Rattle.desk_trail.specs.Facts.{Fact, Lists, fact_of};
ghost use Rattle.desk_trail.specs.Facts as fact;
ghost use Rattle.drv_events.specs.declared.event.Event.TheVariants as told_event;
ghost use Rattle.trail_events.specs.InEntry.{events_in};
ghost use Rattle.trail_events.specs.Told.{asked_tells, check_tells, tells};

use crate::alone::{event_of, of_check};
use desk_trail::{CheckHow, Entry, Purpose, Request, Step};
use drv_events::Event;

/// The events that an entry tells, in order: none, one or two.
#[derive(Clone, Copy, Debug, PartialEq, Eq)]
pub struct EntryEvents {
    /// The first of two.
    pub ahead: Option<Event>,
    /// The only one, or the second of two.
    pub last: Option<Event>,
}

/// The events that an entry tells, by the trail's requests and by whether the pool that the entry clears was ready (SDAM
/// Monitoring, Events; CMAP, Events; Command Monitoring, Events). It takes no memory.
///
/// An entry is taken to name a place at which something stands.
pub fn events_of(step: &Step, requests: &[Request], was_ready: bool) -> EntryEvents
    ensures { (lists : Lists) (f : Fact) → lists.requests ≡ requests.now → fact_of lists step.now.entry ≡ Some f → events_in result ≡ tells was_ready f }
{
    match &step.entry {
        Entry::Named { host } => of_named(*host),
        Entry::PoolClear { host } => of_clear(*host, was_ready),
        Entry::CheckEnded { host, how } => of_ended(*host, *how),
        Entry::Asked { request } => of_asked(requests, *request),
        _ => alone(event_of(step)),
    }
}

/// An event, if any.
fn alone(event: Option<Event>) -> EntryEvents
    ensures { events_in result ≡ option_to_list event }
{
    EntryEvents {
        ahead: None,
        last: event,
    }
}

/// Of a server that came into the topology, with a pool.
fn of_named(host: u32) -> EntryEvents
    ensures { events_in result ≡ told_event.ServerOpened host ∷ told_event.PoolCreated host ∷ [] }
{
    EntryEvents {
        ahead: Some(Event::ServerOpened { host }),
        last: Some(Event::PoolCreated { host }),
    }
}

/// Of a pool that was cleared.
fn of_clear(host: u32, was_ready: bool) -> EntryEvents
    ensures { events_in result ≡ tells was_ready (fact.PoolClear host) }
{
    if was_ready {
        return alone(Some(Event::PoolCleared { host }));
    }
    alone(None)
}

/// Of a check that ended.
fn of_ended(host: u32, how: CheckHow) -> EntryEvents
    ensures { events_in result ≡ check_tells host how }
{
    let last = of_check(host, how);
    if let CheckHow::NoDial = how {
        return EntryEvents {
            ahead: Some(Event::BeatStarted { host }),
            last: Some(last),
        };
    }
    alone(Some(last))
}

/// Of the request at that place, which was queued.
fn of_asked(requests: &[Request], place: u64) -> EntryEvents
    ensures { (r : TrailRequest) → slice_get requests.now place ≡ Some r → events_in result ≡ asked_tells r.purpose }
{
    match requests.get(place as usize) {
        Some(request) => of_request(request.purpose),
        None => alone(None),
    }
}

/// Of a request that was queued.
fn of_request(purpose: Purpose) -> EntryEvents
    ensures { events_in result ≡ asked_tells purpose }
{
    if let Purpose::Command { op } = purpose {
        return alone(Some(Event::CommandStarted { op }));
    }
    alone(None)
}
