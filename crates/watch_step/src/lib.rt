//! When a server's next check is due: Server Monitoring, single-threaded and multi-threaded clients' check intervals.
//!
//! A [`Watch`] belongs to one server. [`Watch::due`] tells when its next check is due, [`Watch::begin`] and [`Watch::end`]
//! tell it that a check began and ended, and [`Watch::ask`] that somebody waits for the server. [`CheckEnd::is_again`] says
//! behind which ends the next check is due at once. `specs/Entries.antt` says what each call does; [`laws`] says what follows
//! of whole lists of calls.
//!
//! It knows no clock: each call is told its moment, in microseconds, at most [`LAST_MOMENT`].
#![tactic(auto)]

mod check_end;
pub mod laws;
mod watch;

pub use check_end::CheckEnd;
pub use watch::{HALF_SECOND, LAST_MOMENT, LONGEST_BEAT, Watch};
