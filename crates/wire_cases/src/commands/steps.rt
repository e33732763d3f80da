//! The steps, each by its first word. What stands behind it is a document:
//!
//! - `insert`, `update`, `delete`, `findAndModify` and `find` are commands, by [`asked`](crate::commands::asked);
//! - `hello first=TRUTH` and `farewell ids=[ binary:4:HEX .. ]` are what is sent without a command;
//! - `reply ELEMENT..` is a reply.
use crate::commands::asked::command_asked;
use crate::commands::members::{knows, lsid, member, truth};
use crate::commands::state::State;
use bson_doc::{Document, Lsid, Rows};
use case_documents::document;
use case_files::{CaseFault, Words};
use cmd_build::{Op, farewell, hello};
use std::alloc::Global;

/// Takes the step of these words.
pub fn step_of(alloc: Global, words: &mut Words<'_>) -> Result<State, CaseFault> {
    let verb = words.next_as("step")?;
    let says = document(alloc, words)?;
    if let Some(op) = Op::from_name(verb) {
        return Ok(State::Asked(command_asked(alloc, op, &says)?));
    }
    match verb {
        "hello" => {
            knows(alloc, &says, &["first"])?;
            let first = truth(member(&says, "first"))?;
            Ok(State::Sent(hello(alloc, first)?))
        }
        "farewell" => {
            knows(alloc, &says, &["ids"])?;
            Ok(State::Sent(farewell(alloc, &ids(alloc, &says)?)?))
        }
        "reply" => Ok(State::Reply(says)),
        _ => Err(CaseFault::word(alloc, verb)),
    }
}

/// The sessions of a farewell.
fn ids(alloc: Global, says: &Document) -> Result<Rows<Lsid>, CaseFault> {
    let mut ids = Rows::new(alloc);
    let Some(items) = member(says, "ids").and_then(|value| value.items()) else {
        return Err(CaseFault::Missing("ids"));
    };
    for item in items {
        ids.push(lsid(item)?)?;
    }
    Ok(ids)
}
