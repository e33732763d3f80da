//! Each loss at each turn.
use crate::judging::{Verdict, judge, logs_of};
use crate::losses::{Loss, plan};
use crate::playing::{Played, play};
use crate::script::COMMANDS;
use crate::settings::setting_of;
use bson_doc::Memory;
use std::alloc::Global;
use std::sync::Wait;
use std::thread::Threads;

/// What came of runs in which the same is lost, each at another turn.
#[derive(Clone, Copy, Debug)]
pub struct Row {
    /// How many runs there were.
    pub runs: u64,
    /// How many commands were not carried out, in all.
    pub failed: u64,
    /// How many writes were told as carried out, and did not take effect once.
    pub wrong: u64,
    /// How often a command stood in a log at most.
    pub most: u64,
    /// Whether each report has a line for each command, and the members have the logs that their histories tell.
    pub is_whole: bool,
}

impl Row {
    /// No run.
    pub fn empty() -> Row {
        Row {
            runs: 0,
            failed: 0,
            wrong: 0,
            most: 0,
            is_whole: true,
        }
    }

    /// With one run more.
    pub fn with(self, run: Verdict) -> Row {
        Row {
            runs: self.runs.saturating_add(1),
            failed: self.failed.saturating_add(run.failed),
            wrong: self.wrong.saturating_add(run.wrong),
            most: self.most.max(run.most),
            is_whole: self.is_whole && run.is_told && run.lines == u64::from(COMMANDS),
        }
    }

    /// Whether each write took effect at most once, and exactly once where it was told as carried out.
    pub fn is_right(&self) -> bool {
        self.is_whole && self.wrong == 0 && self.most == 1
    }
}

/// Runs a script in which that is lost, at each turn from 0 to that one. An act of turn 0 happens at the first turn.
pub fn try_turns<R: Threads + Wait + Sync>(
    rt: &R,
    alloc: Global,
    script: &str,
    loss: Loss,
    turns: u64,
) -> Result<Row, Memory> {
    let mut row = Row::empty();
    for turn in 0..=turns {
        let run = try_turn(rt, alloc, script, loss, turn)?;
        row = row.with(run);
    }
    Ok(row)
}

/// Runs a script in which that is lost at that turn.
pub fn try_turn<R: Threads + Wait + Sync>(
    rt: &R,
    alloc: Global,
    script: &str,
    loss: Loss,
    turn: u64,
) -> Result<Verdict, Memory> {
    let acts = plan(alloc, loss, turn)?;
    let setting = setting_of(alloc, script, acts)?;
    let played = play(rt, alloc, setting)?;
    judge_played(alloc, &played)
}

fn judge_played(alloc: Global, played: &Played) -> Result<Verdict, Memory> {
    let hall = &played.hall;
    let logs = logs_of(alloc, &played.trail, hall)?;
    Ok(judge(played.report(), hall, &logs))
}
