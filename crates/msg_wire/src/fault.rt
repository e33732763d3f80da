ghost use Rattle.std.specs.Prelude.{◌≡◌, IsSome};
ghost use Rattle.msg_wire.specs.Fronts.{IsRefusal};
ghost use Rattle.msg_wire.specs.Places.{place_of};

use crate::limits::{FLAG_BITS, MESSAGE_LENGTH, OP_CODE};
use bson_wire::BsonFault;
use std::alloc::AllocError;
use thiserror::Error;

/// Why some bytes do not begin with a message: the first fault that is met. Places count from the front of the bytes.
#[derive(Clone, Copy, Debug, PartialEq, Eq, Error)]
pub enum MsgFault {
    /// More bytes are needed: 16 where the header is not there, else the header's messageLength.
    #[error("{need} bytes are needed")]
    Short { need: u32 },
    /// The messageLength is not from 26 to 48,000,000.
    #[error("the message's length {got} is out of range")]
    Length { got: i32 },
    /// The opCode is not that of OP_MSG.
    #[error("the opcode {got} is not OP_MSG")]
    Opcode { got: i32 },
    /// The flag bit is set, is the lowest such, and a message that has it is refused.
    #[error("the flag bit {bit} is not known")]
    Flags { bit: u32 },
    /// The sections are out of order at the place: the first byte of a section of another kind than 0 and 1, of a second
    /// one of kind 0, or of one of kind 1 whose size or name does not fit; or where the sections end, without one of kind
    /// 0, or with fewer than four bytes left for the checksum.
    #[error("the sections are out of order at {at}")]
    Sections { at: u32 },
    /// The document at the place does not read. The place in its fault counts from the document's front, and the fault
    /// is never `Memory`.
    #[error("the document at {at} does not read")]
    Body { at: u32, fault: BsonFault },
    /// There is not enough memory.
    #[error("out of memory")]
    Memory,
}

impl MsgFault {
    /// The place in the message that the fault names: that of messageLength, of opCode or of flagBits, else the one that
    /// it tells. That bytes or memory are wanting has none.
    pub fn place(self) -> Option<u32>
        ensures place { result ≡ place_of self }
        ensures found { IsRefusal self → IsSome result }
    {
        match self {
            MsgFault::Short { .. } | MsgFault::Memory => None,
            MsgFault::Length { .. } => Some(MESSAGE_LENGTH as u32),
            MsgFault::Opcode { .. } => Some(OP_CODE as u32),
            MsgFault::Flags { .. } => Some(FLAG_BITS as u32),
            MsgFault::Sections { at } | MsgFault::Body { at, .. } => Some(at),
        }
    }
}

impl From<AllocError> for MsgFault {
    ghost use Rattle.msg_wire.specs.declared.fault.MsgFault.TheVariants.{Memory};

    ghost from_gives = { λ _ e. e ≡ Memory };

    fn from(_e: AllocError) -> MsgFault {
        MsgFault::Memory
    }
}
