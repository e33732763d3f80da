ghost use Rattle.std.specs.Prelude.{◌≡◌, [], IfOk};

use crate::known::Known;
use crate::quoted::in_quotes;
use bson_doc::{Bytes, Rows, Text};
use case_files::{CaseFault, Words, hex_bytes, parsed};
use desk_trail::Trail;
use drv_events::Hooks;
use member_hall::Hall;
use net_link::{ListDice, OpenGate, ScriptNet, SliceSource, StreamPlan, TickClock, VecSink};
use server_pick::KeepAll;
use shell_top::{Ended, Status, run};
use std::alloc::Global;
use std::sync::Wait;
use std::thread::Threads;

/// By how many microseconds the clock goes on at each look, where nothing is said.
const STEP: u64 = 1_000_000;

/// How many bytes a read hands out at most, and the report has at most, where nothing is said.
const ROOM: u32 = 4_096;

/// What a run left.
#[derive(Drop)]
pub struct Run {
    /// How it ended.
    pub status: Status,
    /// The net that it was given.
    pub net: ScriptNet,
    /// What the client did.
    pub trail: Trail,
    /// The members of a soak.
    pub soaked: Option<Hall>,
    /// What was written.
    pub out: VecSink,
}

/// Runs a script: `mdc WORD.. [script=NAME] [unreadable=N,..] [streams=NAME,..] [most=N] [fails=N,..] [step=N] [room=N]`.
///
/// The words are those of the command line; one that is empty, or has a sign of equality, stands in quotes, and `hex:` stands
/// ahead of one in hexadecimal. The script is the bytes of that name, of which the reads with these numbers fail. The k-th
/// dial gets the k-th stream, which gives the bytes of those names, which plus signs join, at most so many a read; where a
/// point stands behind them the peer ends there. Of the net's calls those with the numbers in `fails` fail. The clock begins
/// at 0 and goes on by so many microseconds at each look. What is written has room for so many bytes. The dice roll 1, 2 and
/// so on to 8, and again from 1.
pub fn ran<R: Threads + Wait + Sync>(
    rt: &R,
    alloc: Global,
    known: &Known,
    words: &mut Words<'_>,
) -> Result<Run, CaseFault> {
    let net = net(alloc, known, words)?;
    let Asked {
        mut script,
        clock,
        mut out,
        line,
        dice,
        picker,
    } = asked_by(alloc, known, words)?;
    let Ended {
        status,
        net,
        trail,
        soaked,
        ..
    } = run(
        rt,
        alloc,
        &line,
        &mut script,
        &mut out,
        net,
        &clock,
        dice,
        Hooks::new(alloc),
        picker,
        &OpenGate,
    );
    Ok(Run {
        status,
        net,
        trail,
        soaked,
        out,
    })
}

/// What a run is asked for, beside the net.
#[derive(Drop)]
struct Asked {
    script: SliceSource,
    clock: TickClock,
    out: VecSink,
    line: Rows<Text>,
    dice: ListDice,
    picker: Box<KeepAll>,
}

/// What a run is asked for by the words, none of which is left.
fn asked_by(alloc: Global, known: &Known, words: &mut Words<'_>) -> Result<Asked, CaseFault> {
    let step = words.number(alloc, "step")?.unwrap_or(STEP);
    let room: u32 = words.number(alloc, "room")?.unwrap_or(ROOM);
    let picker = Box::new(alloc, KeepAll)?;
    let dice = dice(alloc)?;
    let script = source(alloc, known, words)?;
    let line = command_line(alloc, words)?;
    let out = VecSink::new(alloc, room as usize, Rows::new(alloc))?;
    Ok(Asked {
        script,
        clock: TickClock::new(0, step),
        out,
        line,
        dice,
        picker,
    })
}

fn source(alloc: Global, known: &Known, words: &mut Words<'_>) -> Result<SliceSource, CaseFault> {
    let bytes = match words.value("script") {
        Some(name) => known.find(alloc, name)?,
        None => Bytes::new(alloc),
    };
    let fails = numbers(alloc, words.value("unreadable"))?;
    Ok(SliceSource::new(bytes, fails))
}

fn net(alloc: Global, known: &Known, words: &mut Words<'_>) -> Result<ScriptNet, CaseFault>
    ensures fresh { IfOk result (λ net. net.events ≡ []) }
{
    let most = words.number(alloc, "most")?.unwrap_or(ROOM);
    let fails = numbers(alloc, words.value("fails"))?;
    let mut plans = Rows::new(alloc);
    if let Some(names) = words.value("streams") {
        push_plans(alloc, known, names, most, &mut plans)?;
    }
    Ok(ScriptNet::new(alloc, plans, fails))
}

/// Appends the streams of the names between commas, each of which gives at most so many bytes a read.
fn push_plans(
    alloc: Global,
    known: &Known,
    names: &str,
    most: u32,
    plans: &mut Rows<StreamPlan>,
) -> Result<(), CaseFault> {
    for name in names.split(',') {
        let (name, ends) = match name.strip_suffix('.') {
            Some(name) => (name, true),
            None => (name, false),
        };
        let bytes = joined(alloc, known, name)?;
        plans.push(StreamPlan { bytes, most, ends })?;
    }
    Ok(())
}

/// The bytes of the names between plus signs, one behind the other.
fn joined(alloc: Global, known: &Known, names: &str) -> Result<Bytes, CaseFault> {
    let mut all = Vec::new(alloc);
    for name in names.split('+') {
        all.extend_from_slice(known.find(alloc, name)?.as_slice())?;
    }
    Ok(Bytes::from_vec(all))
}

/// The words 1 to 8.
fn dice(alloc: Global) -> Result<ListDice, CaseFault> {
    let words = Rows::take(alloc, &[1, 2, 3, 4, 5, 6, 7, 8])?;
    Ok(ListDice::new(words))
}

/// The numbers between commas; none where there is no word.
fn numbers(alloc: Global, word: Option<&str>) -> Result<Rows<u64>, CaseFault> {
    let mut numbers = Rows::new(alloc);
    if let Some(word) = word {
        for number in word.split(',') {
            numbers.push(parsed(alloc, number)?)?;
        }
    }
    Ok(numbers)
}

/// The words of the command line, which are all that are left.
fn command_line(alloc: Global, words: &mut Words<'_>) -> Result<Rows<Text>, CaseFault> {
    let mut line = Rows::new(alloc);
    for word in words.rest(alloc) {
        line.push(argument(alloc, word)?)?;
    }
    Ok(line)
}

/// The word of the command line that a word stands for. One with a sign of equality, and without quotes, is none.
fn argument(alloc: Global, word: &str) -> Result<Text, CaseFault> {
    if let Some(text) = in_quotes(word) {
        return Ok(Text::take(alloc, text)?);
    }
    if word.contains('=') {
        return Err(CaseFault::word(alloc, word));
    }
    let Some(hex) = word.strip_prefix("hex:") else {
        return Ok(Text::take(alloc, word)?);
    };
    let bytes = hex_bytes(alloc, hex)?;
    match std::str::from_utf8(bytes.as_slice()) {
        Ok(text) => Ok(Text::take(alloc, text)?),
        Err(_) => Err(CaseFault::form(alloc, word)),
    }
}
