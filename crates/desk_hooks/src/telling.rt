ghost use Rattle.std.specs.Prelude.{◌≡◌, ◌+◌, ◌<◌, ◌++◌, List, length, option_to_list, take};
ghost use Rattle.desk_trail.specs.Facts.{ArePlaced, Fact, Lists, facts_of};
ghost use Rattle.entry_judge.specs.declared.timed.Timed.{Timed};
ghost use Rattle.trail_events.specs.InEntry.{events_in};
ghost use Rattle.trail_events.specs.Telling.{begun};
ghost use Rattle.trail_events.specs.Told.{told};
ghost use Rattle.desk_hooks.specs.Hearing.{AreTold, HearMore};
ghost use Rattle.desk_hooks.specs.Telling.{IsFront, opening};

use crate::ready::was_ready;
use desk_trail::{Request, Step};
use drv_events::{Event, HooksOf, Listener, deliver};
use host_name::Host;
use trail_events::{EntryEvents, events_of};

/// Tells what the entries tell that stand behind so many, one event after another. It takes no memory.
pub(crate) fn tell_behind<L: Listener>(
    hooks: &mut HooksOf<L>,
    names: &[Host],
    requests: &[Request],
    steps: &[Step],
    behind: usize,
)
    ensures { (lists : Lists) (ts : List (Timed Fact)) → lists.requests ≡ requests.now → ArePlaced lists steps.now
        → IsFront ts behind lists steps.now → HearMore L.heard L.leaves ts (facts_of lists steps.now) hooks.old hooks.new }
{
    let mut place = behind;
    'telling: while place < steps.len() {
        tell_step(hooks, names, requests, steps, place);
        place += 1;
    }
}

/// Tells what the entry at that place tells.
fn tell_step<L: Listener>(
    hooks: &mut HooksOf<L>,
    names: &[Host],
    requests: &[Request],
    steps: &[Step],
    place: usize,
)
    requires { place < length steps.now }
    ensures { (lists : Lists) → lists.requests ≡ requests.now → ArePlaced lists steps.now
        → HearMore L.heard L.leaves (facts_of lists (take place steps.now)) (facts_of lists (take (place + 1) steps.now))
        hooks.old hooks.new }
{
    tell_some(hooks, names, opening(place));
    tell_all(hooks, names, events_at(requests, steps, place));
}

/// What is told ahead of what the entry at that place tells.
fn opening(place: usize) -> Option<Event>
    ensures { result ≡ opening place }
{
    if place == 0 {
        return Some(Event::TopologyOpened);
    }
    None
}

/// What the entry at that place tells.
fn events_at(requests: &[Request], steps: &[Step], place: usize) -> EntryEvents
    requires { place < length steps.now }
    ensures { (lists : Lists) → lists.requests ≡ requests.now → ArePlaced lists steps.now
        → told (facts_of lists (take (place + 1) steps.now)) ≡ begun (told (facts_of lists (take place steps.now))) ++ events_in result }
{
    let step = &steps[place];
    let was_ready = was_ready(steps, place, &step.entry);
    events_of(step, requests, was_ready)
}

/// Tells what an entry tells.
fn tell_all<L: Listener>(hooks: &mut HooksOf<L>, names: &[Host], events: EntryEvents)
    ensures { AreTold L.heard L.leaves (events_in events) hooks.old hooks.new }
{
    tell_some(hooks, names, events.ahead);
    tell_some(hooks, names, events.last);
}

/// Tells an event, if any.
fn tell_some<L: Listener>(hooks: &mut HooksOf<L>, names: &[Host], event: Option<Event>)
    ensures { AreTold L.heard L.leaves (option_to_list event) hooks.old hooks.new }
{
    if let Some(event) = event {
        deliver(hooks, names, &event);
    }
}
