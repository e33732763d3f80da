//! The steps, each by its first word:
//!
//! - `bytes NAME WORD..` puts bytes behind those of the name, of texts in quotes and of hexadecimal digits;
//! - `text NAME [times=N] [open] WORD..` puts the words there as a line, so many times, which ends with LF unless it is open;
//! - `zeros NAME count=N letters=N` puts there the line of an insert whose document has an array of so many zeros and a text
//!   of so many letters;
//! - `mdc WORD..` runs a script, as [`ran`](crate::runs::ran) says.
use crate::known::Known;
use crate::quoted::push_word;
use case_files::{CaseFault, Memory, Words, parsed};
use std::alloc::Global;

/// The first word of a step that runs a script.
pub const RUN: &str = "mdc";

/// Takes the step of these words behind their first one, which is no run: how many bytes its name has then.
pub fn name_bytes(
    alloc: Global,
    known: &mut Known,
    verb: &str,
    words: &mut Words<'_>,
) -> Result<usize, CaseFault> {
    let bytes_of = match verb {
        "bytes" | "text" | "zeros" => words.next_as("name")?,
        _ => return Err(CaseFault::word(alloc, verb)),
    };
    let bytes = match verb {
        "bytes" => bytes(alloc, words)?,
        "text" => text(alloc, words)?,
        _ => zeros(alloc, words)?,
    };
    Ok(known.add(alloc, bytes_of, &bytes)?)
}

fn bytes(alloc: Global, words: &mut Words<'_>) -> Result<Vec<u8>, CaseFault> {
    let mut bytes = Vec::new(alloc);
    for word in words.rest(alloc) {
        push_word(alloc, &mut bytes, word)?;
    }
    Ok(bytes)
}

fn text(alloc: Global, words: &mut Words<'_>) -> Result<Vec<u8>, CaseFault> {
    let times: u16 = words.number(alloc, "times")?.unwrap_or(1);
    let open = words.flag("open");
    let mut line = Vec::new(alloc);
    push_line(alloc, words, &mut line)?;
    if !open {
        line.push(b'\n')?;
    }
    let mut lines = Vec::new(alloc);
    for _ in 0..times {
        lines.extend_from_slice(&line)?;
    }
    Ok(lines)
}

/// Appends the words that are left, with blanks between them.
fn push_line(alloc: Global, words: &mut Words<'_>, line: &mut Vec<u8>) -> Result<(), CaseFault> {
    for word in words.rest(alloc) {
        if !line.is_empty() {
            line.push(b' ')?;
        }
        line.extend_from_slice(word.as_bytes())?;
    }
    Ok(())
}

fn zeros(alloc: Global, words: &mut Words<'_>) -> Result<Vec<u8>, CaseFault> {
    let count: u32 = parsed(alloc, words.must_value("count")?)?;
    let letters: u32 = parsed(alloc, words.must_value("letters")?)?;
    let mut line = Vec::new(alloc);
    push_zeros(&mut line, count, letters)?;
    Ok(line)
}

/// Appends the line of an insert of so many zeros and so many letters.
fn push_zeros(line: &mut Vec<u8>, count: u32, letters: u32) -> Result<(), Memory> {
    line.extend_from_slice(br#"{"lane":1,"op":"insert","coll":"a","doc":{"a":["#)?;
    for place in 0..count {
        if place > 0 {
            line.push(b',')?;
        }
        line.push(b'0')?;
    }
    line.extend_from_slice(br#"],"b":""#)?;
    for _ in 0..letters {
        line.push(b'x')?;
    }
    line.extend_from_slice(b"\"}}\n")
}
