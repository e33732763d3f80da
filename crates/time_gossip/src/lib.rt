//! The cluster time that a client gossips: Driver Sessions, Gossipping the cluster time.
//!
//! A [`TimeGossip`] keeps the greatest cluster time that any server sent: [`TimeGossip::advance`] takes one in,
//! [`TimeGossip::greatest`] gives the one that goes out with the next command. [`laws`] says what is kept behind any list
//! of times.
#![tactic(auto)]

mod gossip;
pub mod laws;

pub use gossip::TimeGossip;
