//! Room in the trail beside that of the commands that have begun (own: want of memory stops a command at a look, and not between the
//! entries that it appends otherwise).
ghost use Rattle.std.specs.Prelude.{◌≡◌, IfSome, OnOk};
ghost use Rattle.desk_trail.specs.Written.{IsAtLeast};

use crate::Memory;
use desk_trail::Room;
use net_link::Net;
use std::alloc::AllocError;
use wired_trail::WiredTrail;

/// For how many entries beside its looks a command that has begun has room. An attempt appends at most 13: it enters a line (1); dials,
/// asks the greeting, settles, hears a time and is lent its connection (5); queues its request (1); ends, hears a time, and its event is
/// offered and clears a pool (4); its connection comes back (1), and is shut then or as its pool is closed (1). Of a command there are at
/// most two attempts, and it leases, draws, is answered and returns its session (4): 30 in all. A phase asks for at most 5 more than it
/// appends, which leaves 5.
const ENTRIES: usize = 40;

/// For how many events: one an attempt.
const EVENTS: usize = 2;

/// For how many requests: the greeting of a connection and the command's own, each an attempt.
const REQUESTS: usize = 4;

/// So much room, and that of so many commands; None where that is more than there can be.
fn beside(begun: usize, more: Room) -> Option<Room>
    ensures { IfSome result (λ room. IsAtLeast more room) }
{
    Some(Room {
        names: more.names,
        events: more.events.checked_add(begun.checked_mul(EVENTS)?)?,
        sessions: more.sessions.checked_add(begun)?,
        requests: more.requests.checked_add(begun.checked_mul(REQUESTS)?)?,
        steps: more.steps.checked_add(begun.checked_mul(ENTRIES)?)?,
    })
}

/// Takes room for so much more beside that of so many commands, as [`WiredTrail::reserve`] does.
pub fn reserve_beside<N: Net>(
    wired: &mut WiredTrail<N>,
    begun: usize,
    more: Room,
) -> Result<(), Memory>
    ensures same { wired.new ≡ record wired.old { trail = record wired.old.trail { room = wired.new.trail.room } } }
    ensures room { OnOk result (IsAtLeast more wired.new.trail.room) }
    ensures kept { IsAtLeast wired.old.trail.room wired.new.trail.room }
{
    let room = beside(begun, more).ok_or(AllocError)?;
    wired.reserve(room)
}
