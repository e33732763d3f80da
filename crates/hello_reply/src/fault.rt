ghost use Rattle.std.specs.Prelude.{◌≡◌};

use crate::{FieldName, Memory};
use thiserror::Error;

/// Why a hello reply describes no server.
#[derive(Clone, Copy, Debug, PartialEq, Eq, Error)]
pub enum ReplyFault {
    /// That field is at fault, the first one in the order of [`FieldName`]: its value has a kind or a size that it must
    /// not have.
    #[error("the hello reply's field {0} is at fault")]
    Field(FieldName),
    /// No field is at fault, and more than 1,000 hosts are listed.
    #[error("the hello reply lists {count} hosts")]
    Many {
        /// How many different hosts are listed, `u32::MAX` where there are more than that.
        count: u32,
    },
    /// Want of memory.
    #[error("out of memory")]
    Memory,
}

impl From<Memory> for ReplyFault {
    ghost use Rattle.hello_reply.specs.declared.fault.ReplyFault.TheVariants.{Memory as memory};

    ghost from_gives = { λ _ fault. fault ≡ memory };

    fn from(_: Memory) -> ReplyFault {
        ReplyFault::Memory
    }
}
