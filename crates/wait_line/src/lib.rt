//! The line in which check-outs wait for a pooled connection: CMAP (Connection Monitoring and Pooling), WaitQueue.
//!
//! A [`WaitLine`] is a queue of ticket numbers in the order in which they entered. [`WaitLine::enter`] gives the next
//! number and appends it, [`WaitLine::is_front`] tells whose turn it is, and [`WaitLine::leave`] takes a number out,
//! served or not. Only `enter` takes memory. No call walks the line: numbers rise, so one is found by halves.
//!
//! A line knows neither time nor threads: who waits asks again.
#![tactic(auto)]

mod wait_line;

pub use wait_line::WaitLine;

/// Want of memory, the error of calls that can fail in no other way.
pub type Memory = std::alloc::AllocError;
