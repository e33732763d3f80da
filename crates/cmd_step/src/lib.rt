//! What a command does, as entries of the trail: its looks for a server, its connection, and its request (Server Selection; CMAP,
//! Checking Out a Connection, Checking In a Connection; Retryable Writes, Executing Retryable Write Commands).
//!
//! Each call appends entries that may stand, within room that was taken, and moves the command and the servers as `desk_trail`
//! says that those entries move them: contracts say which entries came, and that the client behind them has the servers and the
//! command as the call leaves them.
//!
//! ```text
//!   record_look     a look for a server (server_look::look) is written, and moves the command
//!   enter           the command's ticket joins the line of its server's pool
//!     sweep         the connections that are available and have perished are shut
//!     check_out     it is lent one, is refused, dials one that says hello, or waits
//!     settle        the greeting was answered: the connection is lent, or shut as stale
//!     lose          the connection could not be made, or its greeting was refused
//!   send            its request is queued on its connection
//!     end_too_large it is larger than its server takes
//!   end_attempt     its attempt ended behind its request
//!   check_in        its connection comes back, and is kept or shut
//!   finish          it is answered
//! ```
//!
//! A stream is closed only where it is in use for the connection that is shut. [`tell_time`] tells the cluster time of a reply.
//! Sessions are leased and given back by `sess_step`.
#![tactic(auto)]

mod answering;
mod asking;
mod checking_in;
mod choosing;
mod closing;
mod dialling;
mod ending;
mod entering;
mod establishing;
mod got;
mod looking;
mod losing;
mod place;
mod sending;
mod settled;
mod sweeping;
mod time;

pub use answering::check_out;
pub use checking_in::{Back, check_in};
pub use ending::{AskedAt, end_attempt, finish};
pub use entering::enter;
pub use establishing::settle;
pub use got::Answer;
pub use looking::{Looking, record_look};
pub use losing::{Loss, lose};
pub use place::At;
pub use sending::{end_too_large, send};
pub use settled::{Greeted, Settling};
pub use sweeping::sweep;
pub use time::tell_time;

/// Want of memory, the error of calls that can fail in no other way.
pub type Memory = std::alloc::AllocError;
