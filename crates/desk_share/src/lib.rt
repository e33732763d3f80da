//! A client's desk with listeners (`desk_hooks`) and its dice, driven by one thread or by many (own: an application's threads run
//! commands over one client; a command's requests are its lane's, one lane is one thread).
//!
//! ```text
//! DrivenDesk::new(desk, dice)       what a client begins with
//!   next_of(lane), turn(lane)       one step of the command that comes next in a lane
//!   count_due(moment), check(host)  one step of the check of a server
//!   close(moment)                   what is left of the desk and its listeners
//! run_lanes(desk, lanes)            a thread a lane, and one for checks; the desk when all lanes ended
//! share(desk, dice, lanes)          all of this
//! ```
//!
//! Nobody rests while they hold the lock of a [`Client`]: each hold is one call of a [`DrivenDesk`], which makes at most one call of the
//! desk that appends. One thread takes the turns of all lanes that ask, each in a hold. A lane whose command waits gives the lock up,
//! drives the checks that are due or run, each in a hold of its own, and rests outside the lock. What is known of a value that a lock
//! guards is what its type says; so the type of [`DrivenDesk`] keeps what is to hold at the end: that it is the desk of the client that was
//! put there ([`Opening`]), that each lane's commands ran one after another, that moments and words are those of the clock's and the dice's
//! types, and that each listener heard exactly what the trail tells. Read `specs/Shared.antt`, then `Holds` and `Closed`.
#![tactic(auto)]

mod client;
mod driven;
mod lane_clock;
mod lane_gate;
mod lane_turn;
mod lanes;
pub mod laws;
mod lines;
mod opening;
mod patience;
mod telling;
mod turned;
mod turns;

pub use client::Client;
pub use desk_hooks::Ended;
pub use driven::{DrivenDesk, LANES};
pub use lane_clock::{LaneClock, Waits};
pub use lane_gate::LaneGate;
pub use lanes::{run_lanes, share};
pub use opening::Opening;
pub use patience::Patience;
