//! The step, `line WORD..`: a script of one line, of these words with a blank between them.
use crate::scripts::state::State;
use bson_doc::{Bytes, Rows};
use case_files::{CaseFault, Words};
use net_link::SliceSource;
use script_text::{ScriptRead, read_script};
use std::alloc::Global;

/// Takes the step of these words.
pub fn step_of(alloc: Global, words: &mut Words<'_>) -> Result<State, CaseFault> {
    let verb = words.next_as("step")?;
    if verb != "line" {
        return Err(CaseFault::word(alloc, verb));
    }
    let mut line = String::new(alloc);
    for word in words.rest(alloc) {
        if !line.is_empty() {
            line.push_str(" ")?;
        }
        line.push_str(word)?;
    }
    read(alloc, line.as_bytes())
}

/// What a script says.
fn read(alloc: Global, script: &[u8]) -> Result<State, CaseFault> {
    let mut source = SliceSource::new(Bytes::take(alloc, script)?, Rows::new(alloc));
    match read_script(alloc, &mut source) {
        Ok(commands) => Ok(State::Commands(commands)),
        Err(ScriptRead::Fault(fault)) => Ok(State::Fault(fault)),
        Err(ScriptRead::ReadFault) => Err(CaseFault::Refused("the script could not be read")),
        Err(ScriptRead::Memory) => Err(CaseFault::Memory),
    }
}
