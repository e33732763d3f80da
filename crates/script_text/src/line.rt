ghost use Rattle.std.specs.Prelude.{◌≡◌, ◌==◌, Ok, IfOk, IfErr};
ghost use Rattle.std.specs.List.{list_all};
ghost use Rattle.script_text.specs.Commands.{line_reading, Stops};
ghost use Rattle.script_text.specs.Lines.{is_blank};

use crate::ScriptKind;
use crate::command::command_of;
use crate::stop::LineStop;
use cmd_build::Command;
use serde_json::Value;
use std::alloc::Global;

/// The command that a line says, or its first fault.
#[tactic(auto, using(crate::proofs::ParsedLemmas::parsed_lemmas))]
pub fn command_in_line(alloc: Global, line: &[u8]) -> Result<Command, LineStop>
    ensures ok { IfOk result (λ c. line_reading line.now ≡ Ok c) }
    ensures stop { IfErr result (λ s. Stops s (line_reading line.now)) }
{
    match Value::from_slice(alloc, line) {
        Ok(value) => command_of(alloc, &value),
        Err(e) if e.is_memory() => Err(LineStop::Memory),
        Err(_) => Err(LineStop::Fault(ScriptKind::Json)),
    }
}

/// Whether the line has nothing but spaces.
pub fn has_only_spaces(line: &[u8]) -> bool
    ensures { result ≡ is_blank line.now }
{
    line.iter().all(|b| *b == b' ')
}
