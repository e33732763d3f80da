ghost use Rattle.std.specs.Prelude.{◌≡◌, ◌++◌, Some, OnOk, option_to_list};
ghost use Rattle.desk_trail.specs.Facts.{Fact, fact_of};
ghost use Rattle.desk_trail.specs.Written.{lists_of};
ghost use Rattle.trail_events.specs.Told.{tells};

use crate::entry_events::events_of;
use bson_doc::{Memory, Rows};
use desk_trail::{Step, Trail};
use drv_events::Event;

/// Tells what an entry tells; `was_ready` says whether the pool that it clears was ready.
pub(crate) fn tell(
    events: &mut Rows<Event>,
    trail: &Trail,
    step: &Step,
    was_ready: bool,
) -> Result<(), Memory>
    ensures { (f : Fact) → fact_of (lists_of trail.now) step.now.entry ≡ Some f → OnOk result (events.new ≡ events.old ++ tells was_ready f) }
{
    let told = events_of(step, trail.requests.as_slice(), was_ready);
    tell_some(events, told.ahead)?;
    tell_some(events, told.last)
}

/// Tells an event, if any.
fn tell_some(events: &mut Rows<Event>, event: Option<Event>) -> Result<(), Memory>
    ensures { OnOk result (events.new ≡ events.old ++ option_to_list event) }
{
    if let Some(event) = event {
        events.push(event)?;
    }
    Ok(())
}
