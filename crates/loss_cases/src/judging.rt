//! What came of a run.
use crate::logs::Logs;
use crate::requests::Requests;
use crate::script::is_write;
use bson_doc::Memory;
use desk_trail::Trail;
use member_hall::Hall;
use net_link::NetEvent;
use std::alloc::Global;

/// What came of a run.
#[derive(Clone, Copy, Debug)]
pub struct Verdict {
    /// How many turns it took: dials, writes and reads.
    pub turns: u64,
    /// How many commands have a line in the report.
    pub lines: u64,
    /// How many of these are not ok.
    pub failed: u64,
    /// How many writes have an ok in their line and do not stand once in the log of the member that was elected last.
    pub wrong: u64,
    /// How often a command stood in a log at most, at any moment.
    pub most: u64,
    /// Whether the logs that the history tells are those that the members have.
    pub is_told: bool,
}

/// The logs of members that a client with that trail ran over, as their history tells them.
pub fn logs_of(alloc: Global, trail: &Trail, hall: &Hall) -> Result<Logs, Memory> {
    let requests = Requests::of(alloc, trail)?;
    Logs::behind(alloc, hall.members(), hall.events(), &requests)
}

/// Judges a run by its report, its members, and their logs as the history tells them.
pub fn judge(report: &str, hall: &Hall, logs: &Logs) -> Verdict {
    Verdict {
        turns: count_turns(hall.events()),
        lines: count_lines(report),
        failed: count_failed(report),
        wrong: count_wrong(report, logs),
        most: logs.most(),
        is_told: !logs.is_broken() && are_told(logs, hall),
    }
}

/// How many turns a history tells.
fn count_turns(history: &[NetEvent]) -> u64 {
    history.iter().filter(|event| is_turn(event)).count() as u64
}

/// Whether a dial, a write or a read left the event.
fn is_turn(event: &NetEvent) -> bool {
    match event {
        NetEvent::Dialled { .. } | NetEvent::NoDial { .. } => true,
        NetEvent::Out { .. } | NetEvent::Full { .. } => true,
        NetEvent::Came { .. } | NetEvent::Ended { .. } | NetEvent::Dry { .. } => true,
        NetEvent::Fault { .. } => true,
        _ => false,
    }
}

/// Whether each member has the log that the history tells.
fn are_told(logs: &Logs, hall: &Hall) -> bool {
    for member in 0..hall.members() {
        if !logs.is_log(member, hall.log(member).as_slice()) {
            return false;
        }
    }
    true
}

/// How many commands have a line.
fn count_lines(report: &str) -> u64 {
    report
        .split('\n')
        .filter(|line| command_line(line).is_some())
        .count() as u64
}

/// How many lines of commands are not ok.
fn count_failed(report: &str) -> u64 {
    report.split('\n').filter(|line| is_failed(line)).count() as u64
}

fn is_failed(line: &str) -> bool {
    match command_line(line) {
        Some((_, is_ok)) => !is_ok,
        None => false,
    }
}

/// How many lines are ok, of a write that does not stand once in the log of the member that was elected last.
fn count_wrong(report: &str, logs: &Logs) -> u64 {
    report
        .split('\n')
        .filter(|line| is_wrong(line, logs))
        .count() as u64
}

fn is_wrong(line: &str, logs: &Logs) -> bool {
    match command_line(line) {
        Some((op, is_ok)) => is_ok && is_write(op) && logs.count_of(op) != 1,
        None => false,
    }
}

/// The command that a line is of, counted from 0, and whether it was carried out.
fn command_line(line: &str) -> Option<(u32, bool)> {
    let (number, said) = line.split_once(": ")?;
    let number: u32 = number.parse().ok()?;
    Some((number.checked_sub(1)?, said.starts_with("ok ")))
}
