ghost use Rattle.std.specs.Prelude.{◌≡◌, ◌∷◌, ◌++◌, List, [], Some, IfOk, OnOk};
ghost use Rattle.desk_trail.specs.declared.step.Step.{Step as TrailStep};
ghost use Rattle.desk_trail.specs.Facts.{Fact, fact_of, facts_of};
ghost use Rattle.desk_trail.specs.Written.{lists_of};
ghost use Rattle.entry_judge.specs.declared.timed.Timed.{Timed};
ghost use Rattle.trail_events.specs.Telling.{IsTelling, begun};
ghost use Rattle.trail_events.specs.Told.{told};

use crate::placed::is_placed;
use crate::ready::{note_pool, was_ready};
use crate::tell::tell;
use bson_doc::{Memory, Rows};
use desk_trail::{Step, Trail};
use drv_events::Event;
use std::alloc::Global;

/// All events that a client tells of a trail, in order: that it began to watch its topology, and what each entry tells (SDAM
/// Monitoring, Events; CMAP, Events; Command Monitoring, Events).
///
/// It takes memory for the events, and for a mark for each host up to the last whose pool was made ready. An entry that names a
/// place at which nothing stands tells nothing.
///
/// # Errors
///
/// [`Memory`] where memory is wanting, and in no other case.
pub fn told(alloc: Global, trail: &Trail) -> Result<Rows<Event>, Memory>
    ensures { IfOk result (λ events. events ≡ told (facts_of (lists_of trail.now) trail.now.steps)) }
{
    let mut telling = Telling {
        events: Rows::new(alloc),
        ready: Vec::new(alloc),
    };
    'telling: for step in trail.steps.as_slice() {
        note_step(&mut telling, trail, step)?;
    }
    Ok(telling.events)
}

/// What was told of the entries so far, and which pools are ready behind them, by their hosts' numbers.
#[derive(Drop)]
struct Telling {
    events: Rows<Event>,
    ready: Vec<bool>,
}

/// Tells an entry, unless it names a place at which nothing stands.
fn note_step(telling: &mut Telling, trail: &Trail, step: &Step) -> Result<(), Memory>
    ensures { (steps : List TrailStep) → IsTelling (facts_of (lists_of trail.now) steps) telling.old
        → OnOk result (IsTelling (facts_of (lists_of trail.now) (steps ++ step.now ∷ [])) telling.new) }
{
    if is_placed(trail, &step.entry) {
        note_placed(telling, trail, step)?;
    }
    Ok(())
}

/// Tells an entry.
fn note_placed(telling: &mut Telling, trail: &Trail, step: &Step) -> Result<(), Memory>
    ensures { (ts : List (Timed Fact)) (t : Timed Fact) → fact_of (lists_of trail.now) step.now.entry ≡ Some t.what → IsTelling ts telling.old
        → OnOk result (IsTelling (ts ++ t ∷ []) telling.new) }
{
    begin(&mut telling.events)?;
    let was_ready = was_ready(telling.ready.as_slice(), &step.entry);
    tell(&mut telling.events, trail, step, was_ready)?;
    note_pool(&mut telling.ready, &step.entry)
}

/// Tells that the client began to watch its topology, where nothing was told yet.
fn begin(events: &mut Rows<Event>) -> Result<(), Memory>
    ensures { OnOk result (events.new ≡ begun events.old) }
{
    if events.len() == 0 {
        events.push(Event::TopologyOpened)?;
    }
    Ok(())
}
