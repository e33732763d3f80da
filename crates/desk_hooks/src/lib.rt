//! A client's core with listeners: each call tells them what it appended to the trail before it returns (SDAM Monitoring; CMAP,
//! Events; Command Monitoring).
//!
//! A [`HookedDesk`] is a [`desk_core::Desk`] and the [`drv_events::HooksOf`] that an application handed in. Its calls are the
//! desk's, with the desk's clauses; behind each of them every listener that is still there has heard, once and in order, what the
//! trail tells (`told` of `trail_events`), and one that leaves is dropped and counted.
//!
//! ```text
//! HookedDesk::new(alloc, net, settings, commands, picker, hooks, moment)
//!   step_op, step_check       as the desk's
//!   finish                    the desk's, with the hooks
//! ```
//!
//! To tell takes no memory. [`laws`] says what a listener that stays has heard at the end.
#![tactic(auto)]

mod desk;
pub mod laws;
mod ready;
mod telling;

pub use desk::{Ended, HookedDesk, Refused};

/// Want of memory, the error of calls that can fail in no other way.
pub type Memory = std::alloc::AllocError;
