//! What a step of a client tells the clock of its lanes: for what its command waits, and whose wait may be over.
use crate::lane_clock::{LaneClock, Waits};
use desk_core::Sight;
use desk_trail::{Entry, LookedHow, OfferedHow, Step};

/// Tells the clock what came of a step of the lane's command, which appended these entries and waited for that before; what it waits for
/// now.
pub fn tell_step<C: LaneClock>(
    clock: &C,
    lane: u32,
    sight: Option<Sight>,
    told: &[Step],
    waited: Waits,
) -> Waits {
    let mut waits = waited;
    for step in told {
        waits = waits_behind(&step.entry, waits);
    }
    match sight {
        Some(Sight::Wait { .. }) => clock.note_step(lane, Some(waits)),
        _ => clock.note_step(lane, None),
    }
    tell_servers(clock, told);
    waits
}

/// Tells the clock what entries of a check's step may change for the commands that wait for a server.
pub fn tell_check<C: LaneClock>(clock: &C, told: &[Step]) {
    clock.note_step(0, None);
    tell_servers(clock, told);
}

/// What a command waits for behind an entry of its own.
fn waits_behind(entry: &Entry, waits: Waits) -> Waits {
    match entry {
        Entry::Looked {
            picked: LookedHow::NoneFits,
            ..
        } => Waits::Server,
        Entry::Entered { host, .. } => Waits::Line { host: *host },
        Entry::Lent { .. } | Entry::Dialled { .. } => Waits::Stream,
        _ => waits,
    }
}

fn tell_servers<C: LaneClock>(clock: &C, told: &[Step]) {
    for step in told {
        if is_of_servers(&step.entry) {
            clock.note_servers();
        }
    }
}

/// Whether a look may find another server behind the entry.
fn is_of_servers(entry: &Entry) -> bool {
    matches!(
        entry,
        Entry::Offered {
            taken: OfferedHow::Accepted { .. },
            ..
        } | Entry::PoolReady { .. }
    )
}
