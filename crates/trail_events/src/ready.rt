ghost use Rattle.std.specs.Prelude.{◌≡◌, Some, OnOk};
ghost use Rattle.desk_trail.specs.Facts.{Fact, Lists, fact_of};
ghost use Rattle.desk_trail.specs.Facts as fact;
ghost use Rattle.trail_events.specs.Telling.{NotesPool, ready_at, ready_there};

use bson_doc::Memory;
use desk_trail::Entry;

/// Whether the pool that an entry clears is ready.
pub(crate) fn was_ready(ready: &[bool], entry: &Entry) -> bool
    ensures { result ≡ ready_there ready.now entry.now }
{
    match entry {
        Entry::PoolClear { host } => is_ready(ready, *host),
        _ => false,
    }
}

/// Whether the host's pool is ready.
fn is_ready(ready: &[bool], host: u32) -> bool
    ensures { result ≡ ready_at ready.now host }
{
    let place = host as usize;
    if place < ready.len() {
        return ready[place];
    }
    false
}

/// Keeps whether the pool of an entry is ready behind it (CMAP, Pool state).
pub(crate) fn note_pool(ready: &mut Vec<bool>, entry: &Entry) -> Result<(), Memory>
    ensures { (lists : Lists) (f : Fact) → fact_of lists entry.now ≡ Some f → OnOk result (NotesPool f ready.old.items ready.new.items) }
{
    match entry {
        Entry::PoolReady { host } => mark_ready(ready, *host)?,
        Entry::PoolClear { host } => mark_unready(ready, *host),
        Entry::PoolShut { host } => mark_unready(ready, *host),
        _ => {}
    }
    Ok(())
}

/// The host's pool is ready.
fn mark_ready(ready: &mut Vec<bool>, host: u32) -> Result<(), Memory>
    ensures { OnOk result (NotesPool (fact.PoolReady host) ready.old.items ready.new.items) }
{
    let place = host as usize;
    'growing: while ready.len() <= place {
        ready.push(false)?;
    }
    ready[place] = true;
    Ok(())
}

/// The host's pool is not ready.
fn mark_unready(ready: &mut Vec<bool>, host: u32)
    ensures { NotesPool (fact.PoolClear host) ready.old.items ready.new.items }
{
    let place = host as usize;
    if place < ready.len() {
        ready[place] = false;
    }
}
