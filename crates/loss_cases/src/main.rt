//! The program `loss_cases`: whatever is lost, each write takes effect at most once.
//!
//! It runs three scripts of one command, and a script of forty over three members in memory (`member_hall`) once for each loss of
//! [`losses`] and each turn. A turn is a dial, a write or a read of the net. Of each run it follows the members' history event by
//! event ([`logs`]), and counts how often a command stands in a member's log. Which command a request is of, it takes from the
//! client's trail ([`requests`]).
//!
//! It prints what came of each of the three, and a line for each loss: how many turns a run takes where nothing is lost, how many
//! runs were made, how often a command stood in a log at most, how many commands were not carried out, and how many writes were told
//! as carried out and did not take effect exactly once. It ends with 1 where a command stood in a log twice, an ok write did not take
//! effect once, a report lacks a line, a log is not the one that the history tells, or a worked run came out in another way.
#![tactic(auto)]

mod judging;
mod logs;
mod losses;
mod members;
mod playing;
mod requests;
mod script;
mod settings;
mod table;
mod worked;

use losses::{LOSSES, Loss};
use script::script;
use std::alloc::Global;
use std::process::ExitCode;
use std::sync::Wait;
use std::thread::Threads;
use table::{Row, try_turn, try_turns};
use worked::{WORKED, try_worked};

fn main(rt: HostRuntime) -> anyhow::Result<ExitCode> {
    let alloc = rt.alloc();
    let script = script(alloc)?;
    let worked_right = print_worked(&rt, alloc)?;
    let table_right = print_table(&rt, alloc, script.as_str())?;
    if worked_right && table_right {
        Ok(ExitCode::SUCCESS)
    } else {
        Ok(ExitCode::FAILURE)
    }
}

/// Prints what came of the worked runs, and answers whether that is what must come of them.
fn print_worked<R: Threads + Wait + Sync + Print>(rt: &R, alloc: Global) -> anyhow::Result<bool> {
    let mut right = true;
    for worked in &WORKED {
        let came = try_worked(rt, alloc, worked)?;
        println!(rt;
            "{}\n  {}\n  effects {}",
            worked.name, came.line, came.effects
        )?;
        right = right && came.is_of(worked);
    }
    Ok(right)
}

/// Prints a line for each loss, and answers whether each is right.
fn print_table<R: Threads + Wait + Sync + Print>(
    rt: &R,
    alloc: Global,
    script: &str,
) -> anyhow::Result<bool> {
    let whole = try_turn(rt, alloc, script, Loss::Nothing, 0)?;
    let mut right = print_row(rt, Loss::Nothing, whole.turns, Row::empty().with(whole))?;
    for loss in LOSSES {
        let row = try_turns(rt, alloc, script, loss, whole.turns)?;
        right = print_row(rt, loss, whole.turns, row)? && right;
    }
    Ok(right)
}

/// Prints a line, and answers whether it is right.
fn print_row<R: Print>(rt: &R, loss: Loss, turns: u64, row: Row) -> anyhow::Result<bool> {
    println!(rt;
        "{}: turns {turns} runs {} most {} not-ok {} ok-not-once {}",
        loss.name(),
        row.runs,
        row.most,
        row.failed,
        row.wrong
    )?;
    Ok(row.is_right())
}
