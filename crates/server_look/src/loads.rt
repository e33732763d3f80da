use crate::numbers::number_of;
use host_name::Host;
use server_pick::Loads;
use server_state::Server;

/// How many commands are in flight at each server, as a selection asks for it.
#[derive(Clone, Copy)]
pub struct InFlight<'a> {
    /// The servers, by number.
    pub servers: &'a [Server],
    /// How many commands are in flight at each of them, by number.
    pub counts: &'a [u32],
}

impl Loads for InFlight<'_> {
    ghost use Rattle.server_look.specs.Loads.{count_by};

    ghost load = { λ l address. count_by l.servers.now l.counts.now address };

    fn in_flight(&self, host: &Host) -> u32 {
        match number_of(self.servers, host) {
            Some(number) => match self.counts.get(number) {
                Some(count) => *count,
                None => 0,
            },
            None => 0,
        }
    }
}
