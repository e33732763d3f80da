//! Worked trails, made by hand from what the standards ask for: each is shown legal and complete, and each has neighbours,
//! trails that differ from it in one entry, that are shown not legal. A trail stands in a file of `specs/` with its client and
//! its servers; `specs/Words.antt` has what the trails are written in. Each function here does nothing: its clauses say what is
//! shown.
//!
//! - [`commands`]: one insert with its check (`OneInsert`), commands over one connection (`LentAgain`), a session that is leased
//!   again (`LeasedAgain`), a failover with a retry (`Failover`), a command that is too large (`TooLarge`).
//! - [`pools`]: a pool that is cleared (`PoolCleared`), a greeting that is stale (`StaleGreeting`), a host that is dropped
//!   (`HostDropped`), a dial that fails (`DialFailed`).
//! - [`checks`]: selections that fail at their deadline (`NoServer`), checks that end late (`CheckLate`).
//! - [`ending`]: the end of a client (`ClientEnds`).
//! - [`histories`]: what nets tell, with what a trail says of their streams (`Histories`): each that fits, with neighbours that do not.
#![tactic(auto)]

pub mod checks;
pub mod commands;
pub mod ending;
pub mod histories;
pub mod pools;
pub mod writing;
