ghost use Rattle.std.specs.Prelude.{◌≡◌};

use bson_doc::Lsid;
use read_pref::{Mode, ReadPref};

/// What a command's document has beside what the command asks for: its session, and how its server may be read.
#[derive(Clone, Copy, Debug)]
pub struct Extras<'a> {
    /// The session's id (Driver Sessions, lsid).
    pub lsid: Option<Lsid>,
    /// The transaction number of a retryable write (Retryable Writes, txnNumber).
    pub number: Option<i64>,
    /// The mode that goes out in a find's `$readPreference`; None, and primary, send none. It is not always the mode of the
    /// preference: a set member that is asked directly is sent `primaryPreferred` in place of primary, and a standalone
    /// server is sent none (Server Selection, Passing read preference to mongos and load balancers; single servers).
    pub mode: Option<Mode>,
    /// The client's own preference, whose tag sets go out where the command has no preference.
    pub read: Option<&'a ReadPref>,
}

/// How large a server lets documents and messages be, as its hello reply says.
#[derive(Clone, Copy, Debug, PartialEq, Eq)]
pub struct Sizes {
    /// The most bytes of a stored document, of a filter and of a change: maxBsonObjectSize.
    pub max_doc: u32,
    /// The most bytes of a message: maxMessageSizeBytes.
    pub max_message: u32,
}

impl Extras<'_> {
    ghost use Rattle.cmd_build.specs.Commands.{no_extras};

    /// Nothing beside what the command asks for.
    pub fn none() -> Extras<'static>
        ensures extras { result ≡ no_extras }
    {
        Extras {
            lsid: None,
            number: None,
            mode: None,
            read: None,
        }
    }
}

impl Sizes {
    ghost use Rattle.cmd_build.specs.Sizes.{usual_sizes};

    /// What servers take unless their hello reply says otherwise.
    pub fn usual() -> Sizes
        ensures sizes { result ≡ usual_sizes }
    {
        Sizes {
            max_doc: 16_777_216,
            max_message: 48_000_000,
        }
    }
}
