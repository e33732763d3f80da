ghost use Rattle.std.specs.Prelude.{◌≤◌};

use case_files::{CaseFault, Memory};
use std::alloc::Global;

/// The most levels of a document that a message is made of here.
const MOST_LEVELS: u32 = 1_000;

/// The header that a document is written with.
#[derive(Clone, Copy)]
pub struct Frame {
    /// requestID.
    pub id: i32,
    /// responseTo.
    pub to: i32,
    /// flagBits.
    pub flags: u32,
}

impl Frame {
    /// The header of a message that answers the id 1.
    pub const PLAIN: Frame = Frame {
        id: 7,
        to: 1,
        flags: 0,
    };
}

/// The number of eight hexadecimal digits that a word gives; the other one where there is no word.
pub fn number(alloc: Global, word: Option<&str>, other: u32) -> Result<u32, CaseFault> {
    let Some(word) = word else {
        return Ok(other);
    };
    match u32::from_str_radix(word, 16) {
        Ok(number) if word.len() == 8 => Ok(number),
        _ => Err(CaseFault::form(alloc, word)),
    }
}

/// The bytes of a message with the id 7 to the id 1; its length is that of the bytes where no total is given.
pub fn message(
    alloc: Global,
    total: Option<u32>,
    code: u32,
    flags: u32,
    sections: &[u8],
) -> Result<Vec<u8>, CaseFault> {
    let Ok(length) = u32::try_from(sections.len()) else {
        return Err(CaseFault::Refused("too many bytes"));
    };
    let total = total.unwrap_or(length.saturating_add(20));
    let mut bytes = Vec::new(alloc);
    for field in [total, 7, 1, code, flags] {
        bytes.extend_from_slice(&field.to_le_bytes())?;
    }
    bytes.extend_from_slice(sections)?;
    Ok(bytes)
}

/// The bytes of a message whose document has so many levels.
pub fn deep(alloc: Global, levels: u32) -> Result<Vec<u8>, CaseFault> {
    if levels > MOST_LEVELS {
        return Err(CaseFault::Refused("too many levels"));
    }
    let mut sections = Vec::new(alloc);
    sections.push(0)?;
    sections.extend_from_slice(&nested(alloc, levels)?)?;
    message(alloc, None, 2013, 0, &sections)
}

/// Documents inside one another, each under the empty name, in so many levels.
fn nested(alloc: Global, levels: u32) -> Result<Vec<u8>, Memory>
    requires { levels ≤ 1000 }
{
    let mut bytes = Vec::new(alloc);
    for inside in (0..levels).rev() {
        let total = 5 + 7 * inside;
        bytes.extend_from_slice(&total.to_le_bytes())?;
        if inside > 0 {
            bytes.extend_from_slice(&[3, 0])?;
        }
    }
    for _ in 0..levels {
        bytes.push(0)?;
    }
    Ok(bytes)
}
