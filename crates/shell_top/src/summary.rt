//! What a soak sums up.
ghost use Rattle.std.specs.Prelude.{◌≡◌, ◌≤◌, ◌<◌, ◌++◌, ◌^◌, IfOk, OnOk, count_by, if◌then◌else◌, length, string_bytes};
ghost use Rattle.shell_top.specs.Summary.{greatest, is_end, is_write as writes, number_line, of_writes, summary_text};

use bson_doc::Memory;
use cmd_build::{Command, is_write};
use desk_trail::{Entry, Step};
use std::alloc::Global;

/// Seven numbers of a client and of the members that it talked to.
#[derive(Clone, Copy, Debug, PartialEq, Eq, Drop)]
pub struct Summary {
    /// How many commands there were.
    pub commands: u32,
    /// How many of them were carried out.
    pub ok: u32,
    /// How many attempts of commands ended.
    pub attempts: u64,
    /// How many elections there were.
    pub elections: u32,
    /// How many of the commands may change data.
    pub writes: u32,
    /// How often these took effect, by the log of the member that was elected last.
    pub effects: u64,
    /// How often a command took effect at most, by the log of any member.
    pub most: u64,
}

/// The seven lines.
pub fn summary_text(alloc: Global, summary: &Summary) -> Result<String, Memory>
    ensures { IfOk result (λ text. string_bytes text ≡ summary_text summary.now) }
{
    let mut text = String::new(alloc);
    push_line(alloc, &mut text, "commands", u64::from(summary.commands))?;
    push_line(alloc, &mut text, "ok", u64::from(summary.ok))?;
    push_line(alloc, &mut text, "attempts", summary.attempts)?;
    push_line(alloc, &mut text, "elections", u64::from(summary.elections))?;
    push_line(alloc, &mut text, "writes", u64::from(summary.writes))?;
    push_line(alloc, &mut text, "effects", summary.effects)?;
    push_line(alloc, &mut text, "most", summary.most)?;
    Ok(text)
}

/// Appends a line.
fn push_line(alloc: Global, text: &mut String, name: &str, number: u64) -> Result<(), Memory>
    ensures { OnOk result (string_bytes text.new ≡ string_bytes text.old ++ number_line name.now number) }
{
    let line = format!(in alloc; "{name} {number}\n")?;
    text.push_str(line.as_str())
}

/// How many attempts ended.
pub fn attempts_in(steps: &[Step]) -> u64
    ensures { result ≡ count_by (λ s. is_end s.entry) steps.now }
{
    steps.iter().filter(|step| is_end(&step.entry)).count() as u64
}

/// Whether an attempt of a command ended there.
fn is_end(entry: &Entry) -> bool
    ensures { result ≡ is_end entry.now }
{
    match entry {
        Entry::Ended { .. } => true,
        _ => false,
    }
}

/// Whether the command may change data.
fn changes(command: &Command) -> bool
    ensures { result ≡ writes command.now }
{
    is_write(command)
}

/// How many commands may change data.
pub fn count_writes(commands: &[Command]) -> u32
    requires { length commands.now ≤ 100000 }
    ensures { result ≡ count_by writes commands.now }
{
    commands.iter().filter(|command| changes(command)).count() as u32
}

/// The numbers of the commands that may change data, added up, as far as 64 bits reach.
pub fn of_writes(commands: &[Command], counts: &[u64]) -> u64
    requires { length counts.now ≡ length commands.now }
    ensures { of_writes commands.now counts.now < 2 ^ 64 → result ≡ of_writes commands.now counts.now }
{
    let mut sum: u64 = 0;
    'adding: for (place, command) in commands.iter().enumerate() {
        sum = sum.saturating_add(of_write(command, counts[place]));
    }
    sum
}

/// The number of a command that may change data, else 0.
fn of_write(command: &Command, count: u64) -> u64
    ensures { result ≡ (if writes command.now then count else 0) }
{
    if changes(command) { count } else { 0 }
}

/// The greatest of numbers; 0 where there is none.
pub fn greatest(counts: &[u64]) -> u64
    ensures { result ≡ greatest counts.now }
{
    let mut most = 0;
    'comparing: for count in counts {
        most = most.max(*count);
    }
    most
}
