//! What a client tells its listeners of its trail (SDAM Monitoring, Events; CMAP, Events; Command Monitoring, Events).
//!
//! ```text
//! event_of(step)                             the event that one entry alone shows
//! events_of(step, requests, was_ready)       all events that an entry tells
//! told(alloc, trail)                         all events of a trail, in order
//! ```
//!
//! [`event_of`] knows neither whether a pool that is cleared was ready nor for what a request was asked; [`events_of`] is given
//! both, and [`told`] finds them in the trail. `specs/Told.antt` says what each entry tells, `specs/Alone.antt` what it shows alone.
//! [`laws`] says how the two go together, and that a pool counts as ready where it is.
#![tactic(auto)]

mod alone;
mod entry_events;
pub mod laws;
mod placed;
mod ready;
mod tell;
mod telling;

pub use alone::event_of;
pub use entry_events::{EntryEvents, events_of};
pub use telling::told;
