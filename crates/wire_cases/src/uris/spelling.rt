//! How texts stand in a line: a backslash and two hexadecimal digits, of 0 to 9 and a to f, are a byte that a line does not
//! hold as it is.
use case_files::{CaseFault, Memory, hex_bytes, push_hex};
use std::alloc::Global;
use std::str;

/// The text that a word spells.
pub fn text_of(alloc: Global, word: &str) -> Result<String, CaseFault> {
    let mut bytes = Vec::new(alloc);
    let mut parts = word.split('\\');
    if let Some(first) = parts.next() {
        bytes.extend_from_slice(first.as_bytes())?;
    }
    for part in parts {
        let Some((digits, rest)) = part.as_bytes().split_at_checked(2) else {
            return Err(CaseFault::form(alloc, word));
        };
        let Ok(digits) = str::from_utf8(digits) else {
            return Err(CaseFault::form(alloc, word));
        };
        bytes.extend_from_slice(hex_bytes(alloc, digits)?.as_slice())?;
        bytes.extend_from_slice(rest)?;
    }
    match String::from_utf8(bytes) {
        Ok(text) => Ok(text),
        Err(_) => Err(CaseFault::form(alloc, word)),
    }
}

/// Appends the word that spells a text: bytes from `!` to `~`, but for the backslash, stand as they are.
pub fn push_word(line: &mut String, text: &str) -> Result<(), Memory> {
    for part in text.chars() {
        if part > ' ' && part <= '~' && part != '\\' {
            line.push(part)?;
        } else {
            push_escaped(line, part)?;
        }
    }
    Ok(())
}

fn push_escaped(line: &mut String, part: char) -> Result<(), Memory> {
    let mut bytes = [0; 4];
    for byte in part.encode_utf8(&mut bytes).as_bytes() {
        line.push('\\')?;
        push_hex(line, &[*byte])?;
    }
    Ok(())
}
