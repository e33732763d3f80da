use case_files::{CaseFault, Memory, hex_bytes, push_hex};
use std::alloc::Global;

/// The text of a word that stands in quotes.
pub fn in_quotes(word: &str) -> Option<&str> {
    word.strip_prefix('"')
        .and_then(|rest| rest.strip_suffix('"'))
}

/// Appends the bytes of a word: a text in quotes, or hexadecimal digits, two a byte.
pub fn push_word(alloc: Global, bytes: &mut Vec<u8>, word: &str) -> Result<(), CaseFault> {
    match in_quotes(word) {
        Some(text) => bytes.extend_from_slice(text.as_bytes())?,
        None => bytes.extend_from_slice(&hex_bytes(alloc, word)?)?,
    }
    Ok(())
}

/// Appends bytes as a text in quotes, with `\n` for the end of a line; bytes that are no text in hexadecimal.
pub fn push_quoted(line: &mut String, bytes: &[u8]) -> Result<(), Memory> {
    let Ok(text) = std::str::from_utf8(bytes) else {
        return push_hex(line, bytes);
    };
    line.push('"')?;
    for c in text.chars() {
        match c {
            '\n' => line.push_str("\\n")?,
            '"' => line.push_str("\\\"")?,
            '\\' => line.push_str("\\\\")?,
            _ => line.push(c)?,
        }
    }
    line.push('"')
}
