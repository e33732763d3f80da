ghost use Rattle.desk_share.specs.Shared.{Opened, no_opening};

use std::marker::Brand;

/// What a client began with, as contracts name it. Who drives a desk picks it, by `std::marker::Brand`: so what holds behind a lock
/// speaks of the client that was put there.
pub trait Opening {
    /// The client's settings and commands, the failed calls that its net had counted, and how many listeners it was given.
    ghost opened: { Opened };
}

impl Opening for Brand {
    ghost opened = { no_opening };
}
