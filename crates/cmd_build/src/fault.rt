use thiserror::Error;

/// Why a command is not built.
#[derive(Clone, Copy, Debug, PartialEq, Eq, Error)]
pub enum BuildFault {
    /// Its document, its filter or its change has more bytes than the server's `max_doc`, the first of them; or else its
    /// whole message more than the server's `max_message`.
    #[error("{size} bytes are more than {most}")]
    TooLarge {
        /// How many bytes it has; past u64's greatest number it stays there.
        size: u64,
        /// How many bytes it may have.
        most: u64,
    },
    /// There is not enough memory.
    #[error("out of memory")]
    Memory,
}
