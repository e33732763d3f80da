ghost use Rattle.std.specs.Prelude.{◌≡◌};

use std::alloc::AllocError;
use thiserror::Error;

/// Why some bytes do not begin with a document: the first fault from the left. Places count from the front.
#[derive(Clone, Copy, Debug, PartialEq, Eq, Error)]
pub enum BsonFault {
    /// Fewer than four bytes are there, or the total is in its range and exceeds the bytes.
    #[error("the bytes end before the document does")]
    Short,
    /// The length field at the place is below the least that it can be, what it counts passes the end of what encloses
    /// it, or what it counts does not end there: a text or a document with another byte than 00, or a code with a scope
    /// whose string and document do not fill it. Where an element without a length field of its own passes the end of
    /// its document, it is the field of that document.
    #[error("the length at {at} does not fit")]
    Length { at: u32 },
    /// The type byte at the place has no kind.
    #[error("the type byte {byte} at {at} has no kind")]
    Kind { at: u32, byte: u8 },
    /// The byte at the place, of a name or a text, is no UTF-8.
    #[error("the byte at {at} is no UTF-8")]
    Utf8 { at: u32 },
    /// The truth value at the place is neither 00 nor 01.
    #[error("the truth value {byte} at {at} is neither 0 nor 1")]
    Bool { at: u32, byte: u8 },
    /// The length at the place is that of a document or an array at depth 101.
    #[error("the document at {at} lies too deep")]
    Deep { at: u32 },
    /// There is not enough memory.
    #[error("out of memory")]
    Memory,
}

impl From<AllocError> for BsonFault {
    ghost use Rattle.bson_doc.specs.declared.bson_fault.BsonFault.TheVariants.{Memory};

    ghost from_gives = { λ _ e. e ≡ Memory };

    fn from(_e: AllocError) -> BsonFault {
        BsonFault::Memory
    }
}
