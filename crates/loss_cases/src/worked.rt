//! Runs of one command, and what must come of them.
use crate::judging::logs_of;
use crate::playing::{Played, play};
use crate::settings::setting_of;
use bson_doc::{Memory, Rows};
use member_hall::{Act, Planned};
use std::alloc::Global;
use std::sync::Wait;
use std::thread::Threads;

/// The member that is elected when a run begins.
const FIRST: u32 = 0;

/// A run of one command.
#[derive(Clone, Copy, Debug)]
pub struct Worked {
    /// What it shows.
    pub name: &'static str,
    /// The command.
    pub script: &'static str,
    /// What its first attempt meets, and its second one.
    pub first: Act,
    pub second: Option<Act>,
    /// The report's first line.
    pub line: &'static str,
    /// How often the command takes effect.
    pub effects: u64,
}

/// Each has its reason in the standard (Retryable Writes, Executing Retryable Write Commands; Supported Write Operations).
pub const WORKED: [Worked; 3] = [
    // The insert is sent again under its number, by which the member knows it.
    Worked {
        name: "the answer of an insert is lost",
        script: "{\"lane\":1,\"op\":\"insert\",\"coll\":\"s\",\"doc\":{\"_id\":1}}\n",
        first: Act::Mute { host: FIRST },
        second: None,
        line: "1: ok n=1 modified=0 attempts=2",
        effects: 1,
    },
    // The second error says that it changed nothing: the first one is told.
    Worked {
        name: "the second attempt of an insert is refused with NoWritesPerformed",
        script: "{\"lane\":1,\"op\":\"insert\",\"coll\":\"s\",\"doc\":{\"_id\":2}}\n",
        first: Act::Refuse {
            host: FIRST,
            code: 91,
            retryable: true,
            no_writes: false,
        },
        second: Some(Act::Refuse {
            host: FIRST,
            code: 189,
            retryable: true,
            no_writes: true,
        }),
        line: "1: error 91 attempts=2",
        effects: 0,
    },
    // An update of many has no number, and is not sent again.
    Worked {
        name: "the answer of an update of many is lost",
        script: "{\"lane\":1,\"op\":\"update\",\"coll\":\"s\",\"filter\":{},\"change\":{\"$inc\":{\"v\":1}},\"multi\":true}\n",
        first: Act::Mute { host: FIRST },
        second: None,
        line: "1: network attempts=1",
        effects: 1,
    },
];

/// What came of a run of one command.
#[derive(Drop)]
pub struct Came {
    /// The report's first line.
    pub line: String,
    /// How often the command took effect, by the log of the member that was elected last.
    pub effects: u64,
}

impl Came {
    /// Whether it is what must come of that run.
    pub fn is_of(&self, worked: &Worked) -> bool {
        self.line.as_str() == worked.line && self.effects == worked.effects
    }
}

/// Runs the command.
pub fn try_worked<R: Threads + Wait + Sync>(
    rt: &R,
    alloc: Global,
    worked: &Worked,
) -> Result<Came, Memory> {
    let acts = plan(alloc, worked)?;
    let setting = setting_of(alloc, worked.script, acts)?;
    let played = play(rt, alloc, setting)?;
    came_of(alloc, &played)
}

/// What the attempts meet.
fn plan(alloc: Global, worked: &Worked) -> Result<Rows<Planned>, Memory> {
    let mut acts = Rows::new(alloc);
    let turn = 1;
    acts.push(Planned {
        turn,
        act: worked.first,
    })?;
    if let Some(act) = worked.second {
        acts.push(Planned { turn, act })?;
    }
    Ok(acts)
}

fn came_of(alloc: Global, played: &Played) -> Result<Came, Memory> {
    let logs = logs_of(alloc, &played.trail, &played.hall)?;
    Ok(Came {
        line: first_line(alloc, played.report())?,
        effects: logs.count_of(0),
    })
}

fn first_line(alloc: Global, report: &str) -> Result<String, Memory> {
    match report.split_once('\n') {
        Some((line, _)) => String::from_str(alloc, line),
        None => String::from_str(alloc, report),
    }
}
