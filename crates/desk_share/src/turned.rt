use crate::lane_clock::Waits;
use desk_core::Sight;

/// What a lane learns of a turn.
#[derive(Clone, Copy, Debug, Drop)]
pub struct Turned {
    /// What the step of its command came to; None where it has nothing to do.
    pub sight: Option<Sight>,
    /// What it waits for, where it waits.
    pub waits: Waits,
    /// Of how many servers the check is to be driven, where the command waits.
    pub due: u32,
    /// The lane's next command, where this one was answered.
    pub next: Option<u32>,
}

impl Turned {
    /// What the lane's command waits for, if it waits.
    pub fn awaited(&self) -> Option<Waits> {
        match self.sight {
            Some(Sight::Wait { .. }) => Some(self.waits),
            _ => None,
        }
    }

    /// Whether the command waits in a line.
    pub fn is_in_line(&self) -> bool {
        matches!(self.awaited(), Some(Waits::Line { .. }))
    }
}
