//! The outside of the driver core: nets, sources, sinks, clocks, dice and gates, as traits with contracts, and
//! implementations of each in memory.
//!
//! The core does no input or output of its own. Whoever runs it hands in a [`Net`] for the streams to servers, a
//! [`Source`] for a script, a [`Sink`] for a report, a [`Clock`], [`Dice`] and a [`Gate`]. Code above is generic over
//! these traits, so that what it promises holds for every implementation: sockets, memory, or a hall of members.
//!
//! Three rules hold for all of them, and are this product's own:
//!
//! - A failure is told only where a count of faults rose in that call. Counts are u64 and stay at the greatest number.
//! - No call of a net waits. What can't be had yet is answered by `NotYet`.
//! - A type may tell what it did: a net its history as a list of [`NetEvent`] and its streams' inboxes, a source what
//!   is left, a sink what was written. Adapters of real sockets and files tell nothing; all that stands here tells all.
//!
//! Of a net call [`Net::dial`] first; the stream that it gives goes to [`Net::write`] and [`Net::read`], and at last to
//! [`Net::close`]. [`send_some`] and [`receive_some`] are one write of what is unsent and one read into a buffer, and
//! [`write_all`] writes a whole text to a sink.
//!
//! In memory: [`ScriptNet`] follows one [`StreamPlan`] a dial, [`SliceSource`] reads bytes, [`VecSink`] takes bytes up
//! to a size; each fails at the calls whose numbers it is given. [`TickClock`] counts its looks, [`ListDice`] rolls a
//! list of words, [`OpenGate`] never waits. [`EventLog`] is the history of a net that tells one.
#![tactic(auto)]

mod clock;
mod dice;
mod event;
mod event_log;
mod failures;
mod gate;
pub mod laws;
mod line;
mod list_dice;
mod net;
mod pieces;
mod script_net;
mod sink;
mod slice_source;
mod source;
mod stream_plan;
mod tick_clock;
mod turns;
mod vec_sink;
mod writing;

pub use clock::Clock;
pub use dice::Dice;
pub use event::{Effect, NetEvent};
pub use event_log::EventLog;
pub use gate::{Gate, OpenGate, Phase};
pub use list_dice::ListDice;
pub use net::{Came, Dialed, Net, Wrote};
pub use script_net::ScriptNet;
pub use sink::{Sink, SinkTook};
pub use slice_source::SliceSource;
pub use source::{Source, SourceCame};
pub use stream_plan::StreamPlan;
pub use tick_clock::TickClock;
pub use turns::{receive_some, send_some};
pub use vec_sink::VecSink;
pub use writing::{SinkFault, write_all};
