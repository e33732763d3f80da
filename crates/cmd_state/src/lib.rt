//! Where each command of a client is: its selection, its connection, its session and number, its attempts (Server Selection;
//! CMAP, Checking Out a Connection; Driver Sessions; Retryable Writes).
//!
//! A [`RunningCommand`] moves by what happens to its command, call by call, as `desk_trail` says that a command moves by the
//! entries of a trail: contracts see it as that crate's `CommandState` (`specs/States.antt` there). No call takes memory.
//!
//! ```text
//!   RunningCommand::new
//!     wait_for_server | choose | find_none | find_incompatible     a look for a server
//!     hold, draw                                                    at the choice
//!     enter, dial, take, leave_pool                                 a connection
//!     ask, end                                                      an attempt
//!   finish, give_back                                               once it is answered
//! ```
#![tactic(auto)]

mod attempts;
mod check_out;
mod check_outs;
mod leases;
mod looks;
mod running_command;
mod selected;

pub use check_out::CheckOut;
pub use running_command::RunningCommand;
pub use selected::{Selected, Selection};
