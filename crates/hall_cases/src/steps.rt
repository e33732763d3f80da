//! The steps, each by its first word. Hosts are named `h0`, `h1` and so on, and streams go by their numbers:
//!
//! - `hall HOSTS [ACT..]` is a new hall of the hosts, which commas part, with the acts of [`halls`](crate::halls);
//! - `dial HOST`, `close STREAM`;
//! - `send STREAM COMMAND [n=NUMBER] [id=ID] [from=BYTE] [to=BYTE] [twice]` writes a message of
//!   [`messages`](crate::messages), or its bytes from one place up to another, or all of it two times over; `junk STREAM`
//!   writes bytes that no message begins with;
//! - `read STREAM [most=N]` reads into a piece of so many bytes, or of 4,096.
use crate::halls::hall;
use crate::messages::{junk, message};
use crate::replies::reply_text;
use crate::state::{State, Told};
use bson_doc::Bytes;
use case_files::{CaseFault, Words, parsed};
use member_hall::Hall;
use net_link::{Came, Dialed, Net, Wrote};
use std::alloc::Global;

/// The most that a read asks for.
const PIECE: usize = 4096;

/// Takes the step of these words.
pub fn step_of(alloc: Global, state: &mut State, words: &mut Words<'_>) -> Result<Told, CaseFault> {
    let verb = words.next_as("step")?;
    if verb == "hall" {
        state.before = 0;
        return hall(alloc, state, words);
    }
    let Some(hall) = &mut state.hall else {
        return Err(CaseFault::Refused("no hall was made"));
    };
    match verb {
        "dial" => dial(alloc, hall, words),
        "close" => close(alloc, hall, words),
        "send" => {
            let stream = number(alloc, words)?;
            let bytes = message(alloc, words)?;
            write(hall, stream, &bytes)
        }
        "junk" => {
            let stream = number(alloc, words)?;
            let bytes = junk(alloc)?;
            write(hall, stream, &bytes)
        }
        "read" => read(alloc, hall, words),
        _ => Err(CaseFault::word(alloc, verb)),
    }
}

fn dial(alloc: Global, hall: &mut Hall, words: &mut Words<'_>) -> Result<Told, CaseFault> {
    let host = words.next_as("host")?;
    let address = format!(in alloc; "{host}:27017")?;
    match hall.dial(address.as_str()) {
        Dialed::Stream(stream) => Ok(Told::Stream(stream)),
        Dialed::Failed => Ok(Told::Failed),
        Dialed::Memory => Err(CaseFault::Memory),
    }
}

fn close(alloc: Global, hall: &mut Hall, words: &mut Words<'_>) -> Result<Told, CaseFault> {
    let stream = number(alloc, words)?;
    if !hall.is_open(stream) {
        return Err(CaseFault::Refused("the stream is not open"));
    }
    hall.close(stream);
    Ok(Told::Closed)
}

fn write(hall: &mut Hall, stream: u64, bytes: &Bytes) -> Result<Told, CaseFault> {
    if !hall.is_open(stream) {
        return Err(CaseFault::Refused("the stream is not open"));
    }
    let piece = bytes.as_slice();
    if piece.is_empty() {
        return Err(CaseFault::Refused("nothing is written"));
    }
    match hall.write(stream, piece) {
        Wrote::Took(count) => Ok(Told::Took(count, piece.len())),
        Wrote::NotYet => Ok(Told::NotYet),
        Wrote::Failed => Ok(Told::Failed),
        Wrote::Memory => Err(CaseFault::Memory),
    }
}

fn read(alloc: Global, hall: &mut Hall, words: &mut Words<'_>) -> Result<Told, CaseFault> {
    let stream = number(alloc, words)?;
    let most: usize = words.number(alloc, "most")?.unwrap_or(PIECE);
    if !hall.is_open(stream) {
        return Err(CaseFault::Refused("the stream is not open"));
    }
    let mut piece = [0; PIECE];
    let size = most.min(PIECE);
    if size == 0 {
        return Err(CaseFault::Refused("nothing is asked for"));
    }
    match hall.read(stream, &mut piece[..size]) {
        Came::Got(count) => Ok(Told::Came(reply_text(alloc, &piece[..count])?)),
        Came::NotYet => Ok(Told::NotYet),
        Came::End => Ok(Told::End),
        Came::Failed => Ok(Told::Failed),
        Came::Memory => Err(CaseFault::Memory),
    }
}

fn number(alloc: Global, words: &mut Words<'_>) -> Result<u64, CaseFault> {
    parsed(alloc, words.next_as("stream")?)
}
