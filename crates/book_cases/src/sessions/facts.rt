//! The facts. What a call answered is `done`, `fresh LEASE ID`, `again LEASE ID`, `repeated ID`, `pair ID NUMBER`, `kept` or
//! `dropped`, with an id as its bytes in hexadecimal digits. Behind each call stand the moment of the book's `last` lease or
//! return, how many ids each list of those that end has (`ending`), and the `greatest` cluster time with its mark.
use crate::sessions::state::{State, Told};
use bson_doc::Lsid;
use case_files::{CaseFault, Memory, push_hex};
use std::alloc::Global;

/// The fact of that name behind the last step.
pub fn fact_of(alloc: Global, state: &State, name: &str) -> Result<Option<String>, CaseFault> {
    let fact = match name {
        "last" => format!(in alloc; "last {}", state.book.last())?,
        "ending" => ending(alloc, state)?,
        "greatest" => greatest(alloc, state)?,
        "done" | "fresh" | "again" | "repeated" | "pair" | "kept" | "dropped" => {
            answer_text(alloc, state.told)?
        }
        _ => return Ok(None),
    };
    Ok(Some(fact))
}

fn answer_text(alloc: Global, told: Told) -> Result<String, Memory> {
    match told {
        Told::Done => String::from_str(alloc, "done"),
        Told::Fresh(number, lsid) => with_id(format!(in alloc; "fresh {number} ")?, lsid),
        Told::Again(number, lsid) => with_id(format!(in alloc; "again {number} ")?, lsid),
        Told::Repeated(lsid) => with_id(String::from_str(alloc, "repeated ")?, lsid),
        Told::Drew(pair) => {
            let mut line = with_id(String::from_str(alloc, "pair ")?, pair.lsid)?;
            write!(line, " {}", pair.number)?;
            Ok(line)
        }
        Told::Kept => String::from_str(alloc, "kept"),
        Told::Dropped => String::from_str(alloc, "dropped"),
    }
}

/// The line with an id behind it.
fn with_id(line: String, lsid: Lsid) -> Result<String, Memory> {
    let mut line = line;
    push_hex(&mut line, &lsid.0)?;
    Ok(line)
}

/// How many ids each list has.
fn ending(alloc: Global, state: &State) -> Result<String, Memory> {
    let lists = state.book.ending(alloc)?;
    let mut line = String::from_str(alloc, "ending")?;
    for list in lists.as_slice() {
        write!(line, " {}", list.len())?;
    }
    Ok(line)
}

/// The greatest cluster time and its mark.
fn greatest(alloc: Global, state: &State) -> Result<String, Memory> {
    match state.gossip.greatest() {
        Some(time) => {
            let mark = match time.body.get("mark") {
                Some(value) => value.int64().unwrap_or(0),
                None => 0,
            };
            format!(in alloc; "greatest {} {mark}", time.stamp)
        }
        None => String::from_str(alloc, "greatest none"),
    }
}
