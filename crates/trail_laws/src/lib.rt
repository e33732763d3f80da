//! Laws of legal trails on which a client's core stands, beside those of `desk_trail`: what holds of each point to which one leads.
//!
//! - [`hosts`]: each host of the topology has its number (SDAM, Updating the TopologyDescription).
//! - [`commands`]: what a command waits for, and since when (Server Selection; CMAP, Checking Out a Connection).
//! - [`sessions`]: how the sessions of commands are held (Driver Sessions; Retryable Writes).
//! - [`answers`]: which commands go on (Retryable Writes).
//! - [`ending`]: the end of a client (Driver Sessions, endSessions).
#![tactic(auto)]

pub mod answers;
pub mod commands;
pub mod ending;
pub mod hosts;
pub mod sessions;
