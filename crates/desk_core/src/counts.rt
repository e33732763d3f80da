//! How many commands are in flight at each server (Server Selection, operationCount).
ghost use Rattle.std.specs.Prelude.{◌≡◌, ◌+◌, ◌<◌, ℕ, List, [], None, Some, OnOk, length, slice_get, slice_set};
ghost use Rattle.desk_trail.specs.States.{CommandState};
ghost use Rattle.desk_core.specs.Counts.{IsCounted, count_at, host_chosen, one_at};

use crate::Memory;
use cmd_state::RunningCommand;
use std::alloc::{AllocError, Global};
use std::marker::Model;

/// How many commands are in flight at each server, by the server's number: those that chose it and whose attempt goes on. To
/// contracts it is the list of its counts; a server behind its end has none.
#[derive(Drop)]
pub struct InFlight {
    counts: Vec<u32>,
}

impl Model for InFlight {
    ghost use Rattle.std.specs.Prelude.{ℕ, List};

    ghost Value = { List ℕ };

    ghost view = { λ f. f.counts.items };
}

/// The server at which a command is in flight.
pub fn selected_host(running: &RunningCommand) -> Option<u32>
    ensures { result ≡ host_chosen running.now }
{
    match running.selected() {
        Some(selected) => Some(selected.host),
        None => None,
    }
}

/// The list has a count for that server: zeros come behind it where it has none yet.
fn reach(counts: &mut Vec<u32>, host: u32) -> Result<(), Memory>
    ensures there { OnOk result (host < length counts.new.items) }
    ensures same { OnOk result ((h : ℕ) → count_at counts.new.items h ≡ count_at counts.old.items h) }
{
    let place = host as usize;
    if place < counts.len() {
        return Ok(());
    }
    counts.resize(place + 1, 0)
}

/// One more is in flight there; None: nowhere.
fn count_one(counts: &mut Vec<u32>, host: Option<u32>) -> Result<(), Memory>
    ensures { OnOk result ((h : ℕ) → count_at counts.new.items h ≡ count_at counts.old.items h + one_at h host) }
{
    let Some(host) = host else {
        return Ok(());
    };
    reach(counts, host)?;
    let place = host as usize;
    // (cannot be: there are fewer commands)
    let more = counts[place].checked_add(1).ok_or(AllocError)?;
    counts[place] = more;
    Ok(())
}

/// One fewer is in flight there.
fn discount_one(counts: &mut Vec<u32>, host: Option<u32>) -> Result<(), Memory>
    ensures { OnOk result ((h : ℕ) → count_at counts.new.items h + one_at h host ≡ count_at counts.old.items h) }
{
    let Some(host) = host else {
        return Ok(());
    };
    let place = host as usize;
    // (cannot be: the command was counted there)
    if place >= counts.len() {
        return Err(AllocError);
    }
    let fewer = counts[place].checked_sub(1).ok_or(AllocError)?;
    counts[place] = fewer;
    Ok(())
}

impl InFlight {
    /// No command is in flight. It takes no memory.
    pub fn new(alloc: Global) -> InFlight
        ensures { result ≡ [] }
    {
        InFlight {
            counts: Vec::new(alloc),
        }
    }

    /// The counts, by the servers' numbers.
    pub fn as_slice(&self) -> &[u32]
        ensures { result.now ≡ self.now }
    {
        self.counts.as_slice()
    }

    /// A command that was in flight at the first of these servers is at the second now; None: at none. Behind an Err the counts are
    /// to be read no more.
    pub fn move_one(&mut self, before: Option<u32>, after: Option<u32>) -> Result<(), Memory>
        ensures counted { OnOk result ((commands : List CommandState) (op : ℕ) (c d : CommandState) → IsCounted self.old commands
            → slice_get commands op ≡ Some c → before ≡ host_chosen c → after ≡ host_chosen d → IsCounted self.new (slice_set commands op d)) }
    {
        count_one(&mut self.counts, after)?;
        discount_one(&mut self.counts, before)?;
        Ok(())
    }
}
