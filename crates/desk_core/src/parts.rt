use crate::counts::InFlight;
use sess_step::LeaseBook;

/// What a client keeps for all its commands, beside its core.
#[derive(Drop)]
pub struct Parts<P: Drop> {
    /// How many commands are in flight at each server, by number.
    pub in_flight: InFlight,
    /// The server sessions.
    pub sessions: LeaseBook,
    /// Which servers may be selected.
    pub picker: P,
}
