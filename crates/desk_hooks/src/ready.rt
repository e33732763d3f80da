ghost use Rattle.std.specs.Prelude.{◌≡◌, ◌≤◌, Bool, Some, length, take, unwrap_or, if◌then◌else◌};
ghost use Rattle.desk_trail.specs.Facts.{Fact, Lists, fact_of, facts_of};
ghost use Rattle.desk_hooks.specs.Telling.{ready_behind};
ghost use Rattle.trail_events.specs.Told.{is_ready, was_ready};

use desk_trail::{Entry, Step};

/// Whether the pool that an entry clears was ready behind so many entries (CMAP, PoolClearedEvent); of another entry false.
///
/// It takes no memory and keeps none: of an entry that clears a pool it looks backwards through those ahead of it, up to the last
/// that made the same pool ready, cleared or closed it, and so through all of them at most. A pool is cleared at most once for each
/// error of its server.
pub(crate) fn was_ready(steps: &[Step], ahead: usize, entry: &Entry) -> bool
    requires { ahead ≤ length steps.now }
    ensures { (lists : Lists) (f : Fact) → fact_of lists entry.now ≡ Some f
        → result ≡ was_ready (facts_of lists (take ahead steps.now)) f }
{
    match entry {
        Entry::PoolClear { host } => is_ready(steps, ahead, *host),
        _ => false,
    }
}

/// Whether the host's pool is ready behind so many entries: the last of them that made it ready, cleared or closed it made it ready
/// (CMAP, Pool state).
fn is_ready(steps: &[Step], ahead: usize, host: u32) -> bool
    requires { ahead ≤ length steps.now }
    ensures { (lists : Lists) → result ≡ is_ready host (facts_of lists (take ahead steps.now)) }
{
    let mut place = ahead;
    'looking: while place > 0 {
        place -= 1;
        if let Some(ready) = ready_by(&steps[place].entry, host) {
            return ready;
        }
    }
    false
}

/// Whether the host's pool is ready behind an entry, where that says so.
fn ready_by(entry: &Entry, host: u32) -> Option<bool>
    ensures { (lists : Lists) (was : Bool) → unwrap_or result was ≡ ready_behind lists host was entry.now }
{
    match entry {
        Entry::PoolReady { host: of } => said(*of == host, true),
        Entry::PoolClear { host: of } => said(*of == host, false),
        Entry::PoolShut { host: of } => said(*of == host, false),
        _ => None,
    }
}

/// What an entry says of a host's pool, where it is of that host.
fn said(is_of_host: bool, ready: bool) -> Option<bool>
    ensures { (was : Bool) → unwrap_or result was ≡ (if is_of_host then ready else was) }
{
    if is_of_host {
        return Some(ready);
    }
    None
}
