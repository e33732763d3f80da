ghost use Rattle.std.specs.Prelude.{◌<◌, IfSome};

use crate::{CaseFault, Memory};
use std::alloc::Global;

/// The bytes that a word gives: two hexadecimal digits, of 0 to 9 and a to f, each.
pub fn hex_bytes(alloc: Global, word: &str) -> Result<Vec<u8>, CaseFault> {
    let mut bytes = Vec::new(alloc);
    for pair in word.as_bytes().chunks(2) {
        match byte_of(pair) {
            Some(byte) => bytes.push(byte)?,
            None => return Err(CaseFault::form(alloc, word)),
        }
    }
    Ok(bytes)
}

/// The byte that two digits give.
fn byte_of(pair: &[u8]) -> Option<u8> {
    if pair.len() != 2 {
        return None;
    }
    let high = digit(pair[0])?;
    let low = digit(pair[1])?;
    Some(high * 16 + low)
}

/// What a digit counts.
fn digit(byte: u8) -> Option<u8>
    ensures { IfSome result (λ count. count < 16) }
{
    match byte {
        b'0'..=b'9' => Some(byte - b'0'),
        b'a'..=b'f' => Some(byte - b'a' + 10),
        _ => None,
    }
}

/// Appends the bytes, two digits each, without blanks.
pub fn push_hex(line: &mut String, bytes: &[u8]) -> Result<(), Memory> {
    for byte in bytes {
        write!(line, "{byte:02x}")?;
    }
    Ok(())
}
