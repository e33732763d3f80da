ghost use Rattle.std.specs.Prelude.{◌≡◌, is_some};
ghost use Rattle.desk_trail.specs.Facts.{fact_of};
ghost use Rattle.desk_trail.specs.Written.{lists_of};

use desk_trail::{Entry, Trail};

/// Whether something stands at the place that an entry names.
pub(crate) fn is_placed(trail: &Trail, entry: &Entry) -> bool
    ensures { result ≡ is_some (fact_of (lists_of trail.now) entry.now) }
{
    match entry {
        Entry::Named { host } => (*host as usize) < trail.names.len(),
        Entry::Offered { event, .. } => (*event as usize) < trail.events.len(),
        Entry::Leased { session, .. } => (*session as usize) < trail.sessions.len(),
        Entry::Asked { request } => (*request as usize) < trail.requests.len(),
        _ => true,
    }
}
