ghost use Rattle.std.specs.Prelude.{IfOk};
ghost use Rattle.script_text.specs.Bounds.{IsBounded};

use bson_doc::{Bytes, Rows};
use case_files::{CaseFault, Words};
use cmd_build::Command;
use net_link::SliceSource;
use script_text::{ScriptKind, ScriptRead, read_script};
use std::alloc::Global;

/// The commands of the next client, a line each.
#[derive(Drop)]
pub struct Script {
    text: String,
    count: usize,
}

impl Script {
    /// No command yet.
    pub fn new(alloc: Global) -> Script {
        Script {
            text: String::new(alloc),
            count: 0,
        }
    }

    /// Adds a command, the line of the words that are left; how many there are then.
    pub fn add(&mut self, alloc: Global, words: &mut Words<'_>) -> Result<usize, CaseFault> {
        let line = line_of(alloc, words)?;
        if commands_of(alloc, line.as_bytes())?.len() == 0 {
            return Err(CaseFault::Missing("command"));
        }
        self.text.push_str(line.as_str())?;
        self.text.push_str("\n")?;
        self.count = self.count.saturating_add(1);
        Ok(self.count)
    }

    /// The commands.
    pub fn commands(&self, alloc: Global) -> Result<Rows<Command>, CaseFault>
        ensures bounded { IfOk result IsBounded }
    {
        commands_of(alloc, self.text.as_bytes())
    }
}

/// The words that are left, with a blank between them.
fn line_of(alloc: Global, words: &mut Words<'_>) -> Result<String, CaseFault> {
    let mut line = String::new(alloc);
    for word in words.rest(alloc) {
        if !line.is_empty() {
            line.push_str(" ")?;
        }
        line.push_str(word)?;
    }
    Ok(line)
}

/// The commands of a script.
fn commands_of(alloc: Global, text: &[u8]) -> Result<Rows<Command>, CaseFault>
    ensures bounded { IfOk result IsBounded }
{
    let mut source = SliceSource::new(Bytes::take(alloc, text)?, Rows::new(alloc));
    match read_script(alloc, &mut source) {
        Ok(commands) => Ok(commands),
        Err(ScriptRead::Fault(fault)) => Err(fault_of(&fault.kind)),
        Err(ScriptRead::ReadFault) => Err(CaseFault::Refused("the command could not be read")),
        Err(ScriptRead::Memory) => Err(CaseFault::Memory),
    }
}

/// What is wrong with a command.
fn fault_of(kind: &ScriptKind) -> CaseFault {
    match kind {
        ScriptKind::Json => CaseFault::Refused("the command is no JSON"),
        ScriptKind::Shape => CaseFault::Refused("the JSON is no command"),
        ScriptKind::Lane => CaseFault::Refused("the lane is not from 1 to 64"),
        ScriptKind::Text(_) => CaseFault::Refused("a document of the command is at fault"),
        ScriptKind::Long => CaseFault::Refused("the commands are too long"),
    }
}
