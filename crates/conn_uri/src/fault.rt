ghost use Rattle.std.specs.Prelude.{◌≡◌};

use crate::Memory;
use bson_doc::Text;
use host_name::HostFault;
use thiserror::Error;

/// Why a connection string gives no settings: the first that applies, in this order. No fault holds any of the string's
/// text but a name that the table of options has.
#[derive(Debug, Drop, Error)]
pub enum UriFault {
    /// The text does not begin with `mongodb://`.
    #[error("the connection string does not begin with mongodb://")]
    Scheme,
    /// Text stands before an `@`: there are credentials, which this client does not take.
    #[error("the connection string has credentials")]
    Credentials,
    /// A `%` is not followed by two hexadecimal digits, or begins bytes that are not UTF-8 after decoding.
    #[error("the escape at {at} of the connection string is at fault")]
    Escape {
        /// The place of the `%`, in bytes from the text's beginning, 0.
        at: u32,
    },
    /// A host is at fault.
    #[error("a host of the connection string is at fault: {0}")]
    Host(HostFault),
    /// Something is asked for that this client leaves out.
    #[error("the connection string asks for something that is left out")]
    Left {
        /// The option's name in lower case; `unix` for a host that is a socket's path.
        name: Text,
    },
    /// Two things that were read do not go together.
    #[error("{0}")]
    Clash(Clash),
    /// Want of memory.
    #[error("out of memory")]
    Memory,
}

impl From<Memory> for UriFault {
    ghost use Rattle.conn_uri.specs.declared.fault.UriFault.TheVariants.{Memory as memory};

    ghost from_gives = { λ _ fault. fault ≡ memory };

    fn from(_: Memory) -> UriFault {
        UriFault::Memory
    }
}

/// What does not go together.
#[derive(Clone, Copy, Debug, PartialEq, Eq, Error)]
pub enum Clash {
    /// A direct connection, and more than one host (URI Options, directConnection).
    #[error("a direct connection has one host")]
    DirectMany,
    /// Tags, and the mode primary (Server Selection, Read Preference).
    #[error("a read preference of mode primary has no tags")]
    TagsOnPrimary,
}
