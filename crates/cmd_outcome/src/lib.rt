//! What the reply to a command says (CRUD, Retryable Writes, Server Discovery and Monitoring: error handling).
//!
//! [`classify`] reads a reply once: what the command came to, whether it may be sent again, whether the server's state
//! changed. [`cluster_time`] reads the time that servers gossip. `specs/Replies.antt` says what each field of a
//! [`Reading`] means.
#![tactic(auto)]

mod classifying;
mod codes;
mod fields;
mod reading;
mod times;

pub use classifying::classify;
pub use codes::{
    INTERRUPTED_AT_SHUTDOWN, INTERRUPTED_DUE_TO_REPL_STATE_CHANGE, LEGACY_NOT_PRIMARY,
    NO_WRITES_PERFORMED, NOT_PRIMARY_NO_SECONDARY_OK, NOT_PRIMARY_OR_SECONDARY,
    NOT_WRITABLE_PRIMARY, PRIMARY_STEPPED_DOWN, RETRYABLE_WRITE_ERROR, SHUTDOWN_IN_PROGRESS,
    state_change,
};
pub use reading::{Reading, ReplyResult, StateChange};
pub use times::cluster_time;

/// Want of memory, the error of calls that can fail in no other way.
pub type Memory = std::alloc::AllocError;
