ghost use Rattle.std.specs.Prelude.{◌≡◌};

use std::alloc::{AllocError, AllocFailed};
use thiserror::Error;

/// Why a document has no spelling.
#[derive(Clone, Copy, Debug, PartialEq, Eq, Error)]
pub enum EncodeFault {
    /// It has more than 100 levels.
    #[error("the document has more than 100 levels")]
    Deep,
    /// It has at most 100 levels, and its spelling more than 48,000,000 bytes.
    #[error("the document has more than 48,000,000 bytes")]
    Long,
    /// There is not enough memory.
    #[error("out of memory")]
    Memory,
}

impl From<AllocError> for EncodeFault {
    ghost use Rattle.bson_wire.specs.declared.fault.EncodeFault.TheVariants.{Memory};

    ghost from_gives = { λ _ e. e ≡ Memory };

    fn from(_e: AllocError) -> EncodeFault {
        EncodeFault::Memory
    }
}

impl<T: Drop> From<AllocFailed<T>> for EncodeFault {
    ghost use Rattle.bson_wire.specs.declared.fault.EncodeFault.TheVariants.{Memory};

    ghost from_gives = { λ _ e. e ≡ Memory };

    fn from(_e: AllocFailed<T>) -> EncodeFault {
        EncodeFault::Memory
    }
}
