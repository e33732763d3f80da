ghost use Rattle.std.specs.Prelude.{◌≡◌, ℕ};
ghost use Rattle.host_name.specs.Addresses.{Address};

use host_name::Host;

/// Tells how many operations each server has in flight (Server Selection, operationCount).
pub trait Loads {
    /// How many operations a host has in flight.
    ghost load: { Self → Address → ℕ };

    /// How many operations the host has in flight.
    fn in_flight(&self, host: &Host) -> u32
        ensures { result ≡ load self.now host.now };
}
