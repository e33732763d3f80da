ghost use Rattle.std.specs.Prelude.{◌≡◌, ◌≢◌, ◌+◌, ◌<◌, ◌≤◌, ◌++◌, List, Ok, Err, length, OnOk, IfOk, IfErr};
ghost use Rattle.net_link.specs.Causes.{HasCause};
ghost use Rattle.script_text.specs.Bounds.{IsBounded};
ghost use Rattle.script_text.specs.Lines.{lines_of};
ghost use Rattle.script_text.specs.Scripts.{Reading, AddsLine, StopsAt, most_bytes, read_line, readings, faults_of, lines_reading};
ghost use Rattle.script_text.specs.Taken.{Answers, Reads};

use crate::line::{command_in_line, has_only_spaces};
use crate::lines::{first_line, line_of_end};
use crate::stop::LineStop;
use crate::taking::{MOST_BYTES, take_text};
use crate::{ScriptFault, ScriptKind, ScriptRead};
use bson_doc::Rows;
use cmd_build::Command;
use net_link::Source;
use std::alloc::Global;

/// The most commands of a script.
const MOST_COMMANDS: usize = 100_000;

/// Reads a script, at most 16,777,217 bytes of its source, and answers its commands in order, or its first fault.
///
/// `ReadFault` comes only where the source's count of faults rose in this call, or stands at its end. After a fault of the
/// script the source is read to its end, unless the script has too many bytes; after `ReadFault` and `Memory` what was
/// taken is lost.
pub fn read_script<S: Source>(alloc: Global, source: &mut S) -> Result<Rows<Command>, ScriptRead>
    ensures reads { Reads S.tells (S.left source.old) (S.left source.new) result }
    ensures cause { HasCause (S.faults source.old) (S.faults source.new) (result ≡ Err ScriptRead.ReadFault) }
    ensures bounded { IfOk result IsBounded }
{
    match take_text(alloc, source) {
        Ok(text) => read_text(alloc, text.as_slice()),
        Err(stop) => Err(stop),
    }
}

/// The commands of a text, or its first fault. A text that is too long is so before any line is read.
#[tactic(auto, unfolding(crate::specs::Scripts::script_reading))]
fn read_text(alloc: Global, text: &[u8]) -> Result<Rows<Command>, ScriptRead>
    requires { length text.now ≤ most_bytes + 1 }
    ensures answers { Answers result text.now }
    ensures no_read { result ≢ Err ScriptRead.ReadFault }
{
    if text.len() > MOST_BYTES {
        let line = line_of_end(&text[..MOST_BYTES]);
        return Err(ScriptRead::Fault(ScriptFault {
            line,
            kind: ScriptKind::Long,
        }));
    }
    read_lines(alloc, text)
}

/// The commands of a text's lines, or the first fault.
fn read_lines(alloc: Global, text: &[u8]) -> Result<Rows<Command>, ScriptRead>
    requires { length text.now ≤ most_bytes }
    ensures ok { IfOk result (λ c. lines_reading (lines_of text.now) ≡ Ok c) }
    ensures stop { IfErr result (λ s. StopsAt s (faults_of 0 (readings 1 (lines_of text.now)))) }
{
    let mut commands = Rows::new(alloc);
    let mut rest = text;
    let mut number: u32 = 1;
    'lines: loop {
        let (line, behind) = first_line(rest);
        match add_line(alloc, &mut commands, number, line) {
            Ok(()) => {}
            Err(stop) => return Err(stop),
        }
        let Some(next) = behind else {
            return Ok(commands);
        };
        rest = next;
        number += 1;
    }
}

/// Adds the command of a line that is not blank, unless the line is at fault.
fn add_line(
    alloc: Global,
    commands: &mut Rows<Command>,
    number: u32,
    line: &[u8],
) -> Result<(), ScriptRead>
    ensures ok { OnOk result (AddsLine number line.now commands.old commands.new) }
    ensures stop { IfErr result (λ s. (rs : List Reading) → StopsAt s (faults_of (length commands.old) (read_line number line.now ++ rs))) }
{
    if has_only_spaces(line) {
        return Ok(());
    }
    let command = match command_in_line(alloc, line) {
        Ok(command) => command,
        Err(LineStop::Fault(kind)) => return Err(ScriptRead::Fault(ScriptFault {
            line: number,
            kind,
        })),
        Err(LineStop::Memory) => return Err(ScriptRead::Memory),
    };
    if commands.len() >= MOST_COMMANDS {
        return Err(ScriptRead::Fault(ScriptFault {
            line: number,
            kind: ScriptKind::Long,
        }));
    }
    match commands.push(command) {
        Ok(()) => Ok(()),
        Err(_) => Err(ScriptRead::Memory),
    }
}
