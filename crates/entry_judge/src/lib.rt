//! Judges of entries: what happens is written down as a list of entries, each of which may stand only where those ahead
//! of it lead. The rules of a pool, of sessions or of a whole client are such judges; what they have in common is here.
//!
//! - `specs/Judge.antt`: a list of entries is `Legal` where each may stand in the state to which those ahead of it lead.
//! - `specs/Groups.antt`: an entry may owe others that must come next, at once and in order; the entry that owes them
//!   changes the state for all. A `Judge` is when an entry may stand, where it leads and what it owes; `IsTrail` is
//!   legal by it, `Goes` is what one call does, and `LeadsTo` what whole calls leave.
//! - `specs/Parts.antt`: one trail of several parts, each judged by itself.
//! - `specs/Moments.antt`: moments that never fall.
//!
//! [`laws`] has what holds of every judge. Those of its laws that proofs of other crates cite stand in `specs/` too
//! (`LegalLaws`, `GroupLaws`, `InvariantLaws`, `PartLaws`).
#![tactic(auto)]

pub mod laws;
mod moments;
mod timed;

pub use laws::HasJudge;
pub use moments::never_falls;
pub use timed::Timed;
