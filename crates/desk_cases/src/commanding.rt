//! Steps of a client's commands.
ghost use Rattle.std.specs.Prelude.{◌≡◌, true, false};
ghost use Rattle.desk_trail.specs.Attempts.{AtCommand};

use crate::calls::Client;
use crate::state::Told;
use case_files::CaseFault;
use desk_core::{Desk, Words};
use desk_trail::{Entry, Step};
use net_link::Net;
use server_pick::KeepAll;
use std::alloc::Global;

/// How many lanes there are, from 1 on (own).
const LANES: u32 = 64;

/// No client is there that runs commands.
const NO_CLIENT: CaseFault = CaseFault::Refused("no client is there");

/// Whether the entries say that a command was answered.
fn is_answered(steps: &[Step], op: u32) -> bool {
    steps.iter().any(
        |step| matches!(&step.entry, Entry::Finished { op: answered, .. } if *answered == op),
    )
}

/// Whether a command comes next in a lane: then it is there, and not answered.
#[tactic(auto, using(crate::proofs::NextLemmas::next_is_there))]
fn comes_next<N: Net>(desk: &Desk<N, KeepAll>, lane: u32, op: u32) -> bool
    requires runs { desk.now.is_stopped ≡ false }
    ensures waits { result ≡ true → AtCommand desk.now.trail.point.state op (λ c. c.is_finished ≡ false) }
{
    match desk.next_of(lane) {
        Some(next) => next == op,
        None => false,
    }
}

/// Whether a command comes next in some lane.
fn is_next<N: Net>(desk: &Desk<N, KeepAll>, op: u32) -> bool
    requires runs { desk.now.is_stopped ≡ false }
    ensures waits { result ≡ true → AtCommand desk.now.trail.point.state op (λ c. c.is_finished ≡ false) }
{
    let mut before: u32 = 0;
    'lanes: while before < LANES {
        if comes_next(desk, before + 1, op) {
            return true;
        }
        before += 1;
    }
    false
}

/// Steps a command that may be stepped.
fn stepped<N: Net>(
    desk: &mut Desk<N, KeepAll>,
    alloc: Global,
    op: u32,
    moment: u64,
    words: Words,
) -> Result<Told, CaseFault>
    requires runs { desk.old.is_stopped ≡ false }
{
    if is_answered(desk.steps(), op) {
        return Err(CaseFault::Refused("the command is answered"));
    }
    if !is_next(desk, op) {
        return Err(CaseFault::Refused("no such command, or one ahead of it in its lane"));
    }
    match desk.step_op(alloc, op, moment, words) {
        Ok(sight) => Ok(Told::Sight(sight)),
        Err(_) => Ok(Told::Memory),
    }
}

impl<N: Net + Drop> Client<N> {
    /// Steps a command, the next one of its lane, with these words.
    pub fn op(
        &mut self,
        alloc: Global,
        op: u32,
        moment: u64,
        words: Words,
    ) -> Result<Told, CaseFault> {
        let Some(desk) = &mut self.desk else {
            return Err(NO_CLIENT);
        };
        if desk.is_stopped() {
            return Err(CaseFault::Refused("the client stopped"));
        }
        stepped(desk, alloc, op, moment, words)
    }

    /// The command that comes next in a lane.
    pub fn next_of(&self, lane: u32) -> Result<Told, CaseFault> {
        let Some(desk) = &self.desk else {
            return Err(NO_CLIENT);
        };
        if desk.is_stopped() {
            return Err(CaseFault::Refused("the client stopped"));
        }
        Ok(Told::Next(desk.next_of(lane)))
    }
}
