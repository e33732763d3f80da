use conn_uri::UriFault;
use thiserror::Error;

/// Why words are refused. The first that applies is told, in this order.
#[derive(Debug, Drop, Error)]
pub enum UseFault {
    /// A word begins with a dash: there are no options.
    #[error("word {place} of the command line begins with a dash")]
    Dash {
        /// The word's place, counted from 0.
        place: u64,
    },
    /// They are neither `run URI` nor `soak SEED N`, or a word is longer than 16,777,216 bytes.
    #[error("the command line is neither `run URI` nor `soak SEED N`")]
    Words,
    /// The connection string is at fault; this is never `UriFault::Memory`.
    #[error("{0}")]
    Uri(UriFault),
}
