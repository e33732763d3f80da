ghost use Rattle.std.specs.Prelude.{◌≢◌};

use crate::trouble::Trouble;
use std::time::Instant;

/// How often a measurement is taken; the quickest counts.
const BATCHES: u32 = 5;

/// What the calls of a run took at its ends.
#[derive(Clone, Copy, Drop)]
pub struct Ends {
    /// The nanoseconds of a call among the first tenth.
    pub first: u64,
    /// The same among the last tenth.
    pub last: u64,
}

impl Ends {
    /// At each end, what the quicker of two runs took.
    pub fn quicker(self, other: Ends) -> Ends {
        Ends {
            first: self.first.min(other.first),
            last: self.last.min(other.last),
        }
    }
}

/// The nanoseconds of one call, in the quickest of five batches of so many. A call is told its place in the batch.
pub fn quickest<F: FnMut(u32) -> Option<()>>(
    rt: &HostRuntime,
    rounds: u32,
    mut once: F,
) -> Result<u64, Trouble>
    requires some { rounds ≢ 0 }
    requires callable { (state : F) (place : _) → F.pre state place }
{
    let mut best = u64::MAX;
    for _ in 0..BATCHES {
        best = best.min(timed(rt, rounds, &mut once)?);
    }
    Ok(best)
}

/// Ten times that many calls, and what one took at each end.
pub fn tenths<F: FnMut(u32) -> Option<()>>(
    rt: &HostRuntime,
    tenth: u32,
    mut once: F,
) -> Result<Ends, Trouble>
    requires some { tenth ≢ 0 }
    requires callable { (state : F) (place : _) → F.pre state place }
{
    let first = timed(rt, tenth, &mut once)?;
    for _ in 0..8 {
        let _ = timed(rt, tenth, &mut once)?;
    }
    let last = timed(rt, tenth, &mut once)?;
    Ok(Ends { first, last })
}

/// So many calls, and the nanoseconds of one.
fn timed<F: FnMut(u32) -> Option<()>>(
    rt: &HostRuntime,
    rounds: u32,
    once: &mut F,
) -> Result<u64, Trouble>
    requires some { rounds ≢ 0 }
    requires callable { (state : F) (place : _) → F.pre state place }
{
    let start = Instant::now(rt).map_err(|_| Trouble::Clock)?;
    for place in 0..rounds {
        once(place).ok_or(Trouble::Answer)?;
    }
    let took = start.elapsed(rt).map_err(|_| Trouble::Clock)?;
    let nanos = u64::try_from(took.as_nanos()).unwrap_or(u64::MAX);
    Ok(nanos / u64::from(rounds))
}
