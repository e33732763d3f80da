ghost use Rattle.std.specs.Prelude.{◌≡◌, ◌↔◌, IsTrue};
ghost use Rattle.member_core.specs.Keys.{same_key};

use bson_doc::Lsid;

/// What a member knows a write by, so that one that comes again is not done again.
#[derive(Clone, Copy, Debug, PartialEq, Eq, PartialOrd, Ord, Drop)]
pub enum Key {
    /// The session's id and the transaction number that the command carries (Retryable Writes).
    Numbered { lsid: Lsid, number: i64 },
    /// Where the request stands, of a command that lacks either: the request of that number, counted from 0, on the stream.
    Placed { stream: u64, nth: u64 },
}

impl Key {
    /// Whether the two are one key: of one kind, and the same in both parts.
    pub fn same(&self, other: &Key) -> bool
        ensures value { result ≡ same_key self.now other.now }
        ensures same { IsTrue result ↔ (self.now ≡ other.now) }
    {
        match self {
            Key::Numbered { lsid, number } => match other {
                Key::Numbered {
                    lsid: held,
                    number: of,
                } => lsid == held && number == of,
                Key::Placed { .. } => false,
            },
            Key::Placed { stream, nth } => match other {
                Key::Placed {
                    stream: held,
                    nth: of,
                } => stream == held && nth == of,
                Key::Numbered { .. } => false,
            },
        }
    }
}
