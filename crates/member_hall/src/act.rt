ghost use Rattle.std.specs.Prelude.{◌≡◌};
ghost use Rattle.member_hall.specs.Acts.{host_of};

/// What happens at a turn to a member, or to what goes to it. `host` is the member's place in the hall's list.
#[derive(Clone, Copy, Debug, PartialEq, Eq)]
pub enum Act {
    /// The member's next write request is never handled, and its stream ends.
    Drop {
        host: u32,
    },
    /// Its next write request is handled, the answer is lost, and the stream ends.
    Mute {
        host: u32,
    },
    /// Its next write request is handled at the start of the turn that is so many later, the next one at the earliest. The
    /// stream ends now, and the answer is lost.
    Late {
        host: u32,
        turns: u64,
    },
    /// Its next answer comes so many turns later.
    Hold {
        host: u32,
        turns: u64,
    },
    /// Its next write request is refused with that error, and nothing is added.
    Refuse {
        host: u32,
        code: i32,
        retryable: bool,
        no_writes: bool,
    },
    /// It is elected.
    Elect {
        host: u32,
    },
    /// It follows the last elected one. This does nothing to the last elected one itself.
    Follow {
        host: u32,
    },
    /// Dials, reads and writes there fail from now on.
    Dead {
        host: u32,
    },
    /// They fail no longer.
    Alive {
        host: u32,
    },
    /// Reads there give at most so many bytes, at 0 one.
    Split {
        host: u32,
        bytes: u32,
    },
}

impl Act {
    /// The place of the member that it concerns.
    pub fn host(&self) -> u32
        ensures { result ≡ host_of self.now }
    {
        match *self {
            Act::Drop { host } => host,
            Act::Mute { host } => host,
            Act::Late { host, .. } => host,
            Act::Hold { host, .. } => host,
            Act::Refuse { host, .. } => host,
            Act::Elect { host } => host,
            Act::Follow { host } => host,
            Act::Dead { host } => host,
            Act::Alive { host } => host,
            Act::Split { host, .. } => host,
        }
    }
}

/// An act, and the turn at whose start it happens.
#[derive(Clone, Copy, Debug, PartialEq, Eq)]
pub struct Planned {
    /// Turns count from 1.
    pub turn: u64,
    /// The act.
    pub act: Act,
}
