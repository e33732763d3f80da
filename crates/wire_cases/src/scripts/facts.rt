//! The facts. Behind a line that asks for a command stands what it does, as `update lane=1 db=b coll=a`, with a dash for the
//! client's own database; and the members of its act by their names: the documents `doc`, `filter` and `change` as
//! `case_documents` shows them, the truth values `multi`, `upsert` and `all`, and the read preference, as `read Nearest [
//! dc="a" ]`; a change or a preference that is absent is `none`. Behind a line at fault stands its `fault`, and behind a
//! blank one `blank`.
use crate::scripts::acts::member;
use crate::scripts::faults::fault_text;
use crate::scripts::state::State;
use case_files::{CaseFault, Memory};
use cmd_build::{Command, Op};
use std::alloc::Global;

/// The fact of that name behind the last step.
pub fn fact_of(alloc: Global, state: &State, name: &str) -> Result<Option<String>, CaseFault> {
    match state {
        State::Nothing => Ok(None),
        State::Fault(fault) => Ok(Some(fault_text(alloc, fault)?)),
        State::Commands(commands) => match commands.as_slice().first() {
            Some(command) => Ok(command_fact(alloc, command, name)?),
            None => Ok(Some(String::from_str(alloc, "blank")?)),
        },
    }
}

/// What a command does, or a member of its act.
fn command_fact(alloc: Global, command: &Command, name: &str) -> Result<Option<String>, Memory> {
    if Op::from_name(name).is_some() || name == "fault" || name == "blank" {
        return Ok(Some(head(alloc, command)?));
    }
    member(alloc, &command.act, name)
}

/// What the line of every command says.
fn head(alloc: Global, command: &Command) -> Result<String, Memory> {
    let op = command.act.op().name();
    let lane = command.lane;
    let db = match &command.db {
        Some(db) => db.as_str(),
        None => "-",
    };
    let coll = command.coll.as_str();
    format!(in alloc; "{op} lane={lane} db={db} coll={coll}")
}
