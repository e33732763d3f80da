//! The events of a client and who hears them: SDAM Monitoring, Events; CMAP, Events; Command Monitoring, Events.
//!
//! An [`Event`] is plain data. An application makes [`Listener`]s, adds them to [`Hooks`] by [`HooksOf::add`] and hands the
//! hooks to a client, which tells each of its events by [`deliver`]; it gets back those that are still there.
//! [`HooksOf::len`] and [`HooksOf::left`] count. Code that is generic in its listeners keeps a [`HooksOf`] of them.
//! [`laws`] says what is heard behind any list of additions and events.
#![tactic(auto)]

mod event;
mod hooks;
pub mod laws;
mod listener;

pub use event::{Event, OutWhy};
pub use hooks::{Hooks, HooksOf, deliver};
pub use listener::Listener;
