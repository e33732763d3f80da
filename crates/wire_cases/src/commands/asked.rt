//! Commands. Each step has `coll`, may have `db`, and `with`, what the command is built with, by [`given`](crate::commands::given). An
//! `insert` has `doc`, the others a `filter`; an `update` has a `change` and may have `multi` and `upsert`, a `delete` may have
//! `all`, a `findAndModify` may have a `change`, and a `find` may have a preference, `read`. An int32 in place of one of these
//! documents stands for a document of so many bytes.
use crate::commands::given::{Given, all_given, preference};
use crate::commands::members::{document, knows, member, name, truth};
use bson_doc::{Document, Name, Value};
use case_files::CaseFault;
use cmd_build::{Act, Command, Op};
use std::alloc::Global;

/// A command, with what it is built with.
#[derive(Drop)]
pub struct Asked {
    /// The command, in the lane 1.
    pub command: Command,
    /// What it is built with.
    pub given: Given,
}

/// The command of a step's document.
pub fn command_asked(alloc: Global, op: Op, says: &Document) -> Result<Asked, CaseFault> {
    let Some(coll) = member(says, "coll") else {
        return Err(CaseFault::Missing("coll"));
    };
    let command = Command {
        lane: 1,
        db: database(alloc, member(says, "db"))?,
        coll: name(alloc, coll)?,
        act: act(alloc, op, says)?,
    };
    let given = all_given(alloc, member(says, "with"))?;
    Ok(Asked { command, given })
}

fn database(alloc: Global, value: Option<&Value>) -> Result<Option<Name>, CaseFault> {
    match value {
        Some(value) => Ok(Some(name(alloc, value)?)),
        None => Ok(None),
    }
}

/// The act, whose members are those of its command alone.
fn act(alloc: Global, op: Op, says: &Document) -> Result<Act, CaseFault> {
    match op {
        Op::Insert => {
            knows(alloc, says, &["coll", "db", "with", "doc"])?;
            let doc = document(alloc, member(says, "doc"))?;
            Ok(Act::Insert { doc })
        }
        Op::Update => {
            knows(
                alloc,
                says,
                &["coll", "db", "with", "filter", "change", "multi", "upsert"],
            )?;
            Ok(Act::Update {
                filter: document(alloc, member(says, "filter"))?,
                change: document(alloc, member(says, "change"))?,
                multi: truth(member(says, "multi"))?,
                upsert: truth(member(says, "upsert"))?,
            })
        }
        Op::Delete => {
            knows(alloc, says, &["coll", "db", "with", "filter", "all"])?;
            Ok(Act::Delete {
                filter: document(alloc, member(says, "filter"))?,
                all: truth(member(says, "all"))?,
            })
        }
        Op::FindAndModify => {
            knows(alloc, says, &["coll", "db", "with", "filter", "change"])?;
            Ok(Act::FindAndModify {
                filter: document(alloc, member(says, "filter"))?,
                change: change(alloc, member(says, "change"))?,
            })
        }
        Op::Find => {
            knows(alloc, says, &["coll", "db", "with", "filter", "read"])?;
            Ok(Act::Find {
                filter: document(alloc, member(says, "filter"))?,
                read: preference(alloc, member(says, "read"))?,
            })
        }
    }
}

fn change(alloc: Global, value: Option<&Value>) -> Result<Option<Document>, CaseFault> {
    match value {
        Some(value) => Ok(Some(document(alloc, Some(value))?)),
        None => Ok(None),
    }
}
