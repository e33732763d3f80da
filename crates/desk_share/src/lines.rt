use crate::lane_clock::Waits;
use desk_trail::{Entry, Step};
use std::alloc::Global;

/// A lane whose command stands in the line of a host's pool.
#[derive(Clone, Copy, Debug, PartialEq, Eq, Drop)]
struct Standing {
    host: u32,
    lane: u32,
    /// Whether it stands first, and its command may go on.
    is_due: bool,
}

/// The lanes whose commands stand in lines of pools, in the order in which they came (CMAP, WaitQueue). It follows what the steps of a
/// client tell.
#[derive(Drop)]
pub struct Lines {
    standing: Vec<Standing>,
}

impl Lines {
    pub fn new(alloc: Global) -> Lines {
        Lines {
            standing: Vec::new(alloc),
        }
    }

    /// Has a lane stand in the line that its command waits in, behind those that came before, and in no other. One for whom there is no
    /// memory stands in none.
    pub fn stand(&mut self, lane: u32, waits: Option<Waits>) {
        let place = self.standing.iter().position(|other| other.lane == lane);
        match (place, waits) {
            (Some(place), Some(Waits::Line { host })) => {
                self.standing[place].host = host;
            }
            (Some(place), _) => {
                self.standing.remove(place);
            }
            (None, Some(Waits::Line { host })) => {
                let is_due = false;
                let _ = self.standing.push(Standing { host, lane, is_due });
            }
            (None, _) => {}
        }
    }

    /// Whoever stands first in a line that may have moved behind these entries is due, once where entries of one line follow each other.
    pub fn follow(&mut self, told: &[Step]) {
        let mut last = None;
        for step in told {
            let host = line_of(&step.entry);
            if host.is_some() && host != last {
                last = host;
                self.move_line(host);
            }
        }
    }

    fn move_line(&mut self, host: Option<u32>) {
        for standing in self.standing.iter_mut() {
            if Some(standing.host) == host {
                standing.is_due = true;
                return;
            }
        }
    }

    /// A lane that is due, and is no longer then.
    pub fn take_due(&mut self) -> Option<u32> {
        for standing in self.standing.iter_mut() {
            if standing.is_due {
                standing.is_due = false;
                return Some(standing.lane);
            }
        }
        None
    }
}

/// The host in the line of whose pool another command may be first behind the entry, or the first one may go on.
fn line_of(entry: &Entry) -> Option<u32> {
    match entry {
        Entry::PoolReady { host }
        | Entry::PoolClear { host }
        | Entry::PoolShut { host }
        | Entry::Lent { host, .. }
        | Entry::Dialled { host, .. }
        | Entry::Settled { host, .. }
        | Entry::NotLent { host, .. }
        | Entry::CheckedIn { host, .. }
        | Entry::ConnShut { host, .. } => Some(*host),
        _ => None,
    }
}
