//! What a trail says of each command.
ghost use Rattle.std.specs.Prelude.{◌≡◌, ◌++◌, ◌∷◌, List, None, Some, [], IfOk, IsSome, false, length, slice_get, true};
ghost use Rattle.desk_trail.specs.declared.step.Step.{Step as TrailStep};
ghost use Rattle.trail_tally.specs.Tallies.{AreTallies, Changes, with_answer, with_end};
ghost use Rattle.trail_tally.specs.declared.tally.Tally.{Tally as CommandTally};

use crate::tally::Tally;
use bson_doc::Memory;
use desk_trail::{Entry, Step};
use std::alloc::Global;
use write_retry::Outcome;

/// Nothing was done for any of so many commands.
pub fn fresh_tallies(alloc: Global, count: usize) -> Result<Vec<Tally>, Memory>
    ensures count { IfOk result (λ ts. length ts.items ≡ count) }
    ensures fresh { IfOk result (λ ts. AreTallies [] ts.items) }
{
    let mut tallies = Vec::new(alloc);
    'making: for _ in 0..count {
        tallies.push(Tally {
            attempts: 0,
            answer: None,
        })?;
    }
    Ok(tallies)
}

/// Counts what was appended to a trail.
pub fn note(tallies: &mut [Tally], appended: &[Step])
    ensures count { length tallies.new ≡ length tallies.old }
    ensures each { (before : List TrailStep) → AreTallies before tallies.old → AreTallies (before ++ appended.now) tallies.new }
{
    'noting: for step in appended {
        note_step(tallies, step);
    }
}

/// Counts one entry.
fn note_step(tallies: &mut [Tally], step: &Step)
    ensures count { length tallies.new ≡ length tallies.old }
    ensures each { (before : List TrailStep) → AreTallies before tallies.old → AreTallies (before ++ step.now ∷ []) tallies.new }
{
    match &step.entry {
        Entry::Ended { op, .. } => note_end(tallies, *op),
        Entry::Finished { op, outcome } => note_answer(tallies, *op, *outcome),
        _ => {}
    }
}

/// An attempt of the command ended.
fn note_end(tallies: &mut [Tally], op: u32)
    ensures { Changes op with_end tallies.old tallies.new }
{
    let place = op as usize;
    if place < tallies.len() {
        let tally = tallies[place];
        tallies[place] = with_end(tally);
    }
}

fn with_end(tally: Tally) -> Tally
    ensures { result ≡ with_end tally }
{
    Tally {
        attempts: tally.attempts.saturating_add(1),
        answer: tally.answer,
    }
}

/// The command was answered; its first answer stands.
fn note_answer(tallies: &mut [Tally], op: u32, outcome: Outcome)
    ensures { Changes op (with_answer outcome) tallies.old tallies.new }
{
    let place = op as usize;
    if place < tallies.len() {
        let tally = tallies[place];
        tallies[place] = with_answer(tally, outcome);
    }
}

fn with_answer(tally: Tally, outcome: Outcome) -> Tally
    ensures { result ≡ with_answer outcome tally }
{
    match tally.answer {
        Some(_) => tally,
        None => Tally {
            attempts: tally.attempts,
            answer: Some(outcome),
        },
    }
}

/// Whether the command was answered.
pub fn is_answered(tallies: &[Tally], op: u32) -> bool
    ensures yes { result ≡ true → (t : CommandTally) → slice_get tallies.now op ≡ Some t → IsSome t.answer }
    ensures no { result ≡ false → (t : CommandTally) × (slice_get tallies.now op ≡ Some t) × (t.answer ≡ None) }
{
    match tallies.get(op as usize) {
        Some(tally) => tally.answer.is_some(),
        None => true,
    }
}
