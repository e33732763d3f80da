//! The steps, each by its first word:
//!
//! - `start HOST.. [set=NAME] [direct]` and `reply HOST KIND ..` make a topology, as [`crate::selections::replies`] says;
//! - `loads HOST=N..` says how many operations are in flight;
//! - `pick write|MODE [tags=SETS] [avoid=HOST] [within=MICROSECONDS] [w1=WORD] [w2=WORD] [keeps=all|none|second]` selects, with
//!   the tag sets of [`crate::selections::criteria`]; numbers that are absent are 0, and a picker keeps all where none is named.
use crate::selections::criteria::preference;
use crate::selections::loads::ListedLoads;
use crate::selections::picker::{CountingPicker, Rule, rule_named};
use crate::selections::replies::reply;
use crate::selections::state::State;
use crate::servers::{host, started};
use case_files::{CaseFault, Words};
use server_pick::{Criteria, Need, pick_by};
use std::alloc::Global;

/// Takes the step of these words.
pub fn take_step(alloc: Global, state: &mut State, words: &mut Words<'_>) -> Result<(), CaseFault> {
    state.picked = None;
    let verb = words.next_as("step")?;
    match verb {
        "start" => {
            state.topology = started(alloc, words)?;
            state.loads = ListedLoads::new(alloc);
            Ok(())
        }
        "reply" => reply(alloc, &mut state.topology, words),
        "loads" => {
            state.loads = ListedLoads::of_words(alloc, words)?;
            Ok(())
        }
        "pick" => pick(alloc, state, words),
        _ => Err(CaseFault::word(alloc, verb)),
    }
}

fn pick(alloc: Global, state: &mut State, words: &mut Words<'_>) -> Result<(), CaseFault> {
    let need = words.next_as("need")?;
    let tag_sets = words.value("tags");
    if need == "write" {
        return select(alloc, state, Need::Write, words);
    }
    let preference = preference(alloc, need, tag_sets)?;
    select(alloc, state, Need::Read(&preference), words)
}

fn select(
    alloc: Global,
    state: &mut State,
    need: Need<'_>,
    words: &mut Words<'_>,
) -> Result<(), CaseFault> {
    let avoid = match words.value("avoid") {
        Some(name) => Some(host(alloc, name)?),
        None => None,
    };
    let criteria = Criteria {
        need,
        avoid: avoid.as_ref(),
        threshold_micros: words.number(alloc, "within")?.unwrap_or(0),
    };
    let w1 = words.number(alloc, "w1")?.unwrap_or(0);
    let w2 = words.number(alloc, "w2")?.unwrap_or(0);
    let rule = match words.value("keeps") {
        Some(text) => rule_named(alloc, text)?,
        None => Rule::All,
    };
    let mut picker = CountingPicker { rule, asked: 0 };
    let picked = pick_by(
        alloc,
        &state.topology,
        &criteria,
        &mut picker,
        &state.loads,
        w1,
        w2,
        &mut state.kept,
    );
    state.asked = picker.asked;
    state.picked = Some(picked);
    Ok(())
}
