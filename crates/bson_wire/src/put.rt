//! The parts that elements and values are written by: bytes, numbers, an element's front, texts, totals, and the end of a document.

ghost use Rattle.std.specs.Prelude.{◌≡◌, ◌≤◌, ◌+◌, ◌∷◌, [], ◌++◌, length, take, drop, vec_len, OnOk, IfErr};
ghost use Rattle.bson_doc.specs.wire.Kinds.{byte_of};
ghost use Rattle.bson_doc.specs.wire.Limits.{most_bytes};
ghost use Rattle.bson_doc.specs.wire.Spelled.{number32, string, document, counted};
ghost use Rattle.bson_wire.specs.Written.{Stops};

use crate::EncodeFault;
use crate::limits::MOST_BYTES;
use bson_doc::Kind;
use byteorder::{ByteOrder, LittleEndian};

/// A byte.
pub fn put_byte(out: &mut Vec<u8>, byte: u8) -> Result<(), EncodeFault>
    ensures ok { OnOk result (out.new.items ≡ out.old.items ++ byte ∷ []) }
    ensures err { IfErr result (λ e. e ≡ EncodeFault.Memory) }
{
    out.push(byte)?;
    Ok(())
}

/// Some bytes.
pub fn put_bytes(out: &mut Vec<u8>, bytes: &[u8]) -> Result<(), EncodeFault>
    ensures ok { OnOk result (out.new.items ≡ out.old.items ++ bytes.now) }
    ensures err { IfErr result (λ e. e ≡ EncodeFault.Memory) }
{
    out.extend_from_slice(bytes)?;
    Ok(())
}

/// A number of four bytes.
pub fn put_number(out: &mut Vec<u8>, n: u32) -> Result<(), EncodeFault>
    ensures ok { OnOk result (out.new.items ≡ out.old.items ++ number32 n) }
    ensures err { IfErr result (λ e. e ≡ EncodeFault.Memory) }
{
    let mut number = [0; 4];
    LittleEndian::write_u32(&mut number, n);
    put_bytes(out, &number)
}

/// What stands in front of a payload: the type byte, the name and 00.
pub fn put_front(out: &mut Vec<u8>, kind: Kind, name: &str) -> Result<(), EncodeFault>
    ensures ok { OnOk result (out.new.items ≡ out.old.items ++ (byte_of kind ∷ (name.now ++ 0 ∷ []))) }
    ensures err { IfErr result (λ e. e ≡ EncodeFault.Memory) }
{
    put_byte(out, kind.byte())?;
    put_bytes(out, name.as_bytes())?;
    put_byte(out, 0)
}

/// A number of four bytes, over those that stand at the place.
fn set_number(out: &mut Vec<u8>, at: usize, n: u32)
    requires { at + 4 ≤ vec_len out.old }
    ensures { out.new.items ≡ (take at out.old.items ++ number32 n) ++ drop (at + 4) out.old.items }
{
    let mut number = [0; 4];
    LittleEndian::write_u32(&mut number, n);
    out[at..at + 4].copy_from_slice(&number);
}

/// A text with its length in front and 00 behind.
pub fn put_string(out: &mut Vec<u8>, text: &str) -> Result<(), EncodeFault>
    ensures ok { OnOk result (out.new.items ≡ out.old.items ++ string text.now) }
    ensures size { OnOk result (length (string text.now) ≤ most_bytes) }
    ensures long { IfErr result (Stops (length (string text.now))) }
{
    if text.len() > MOST_BYTES - 5 {
        return Err(EncodeFault::Long);
    }
    put_number(out, text.len() as u32 + 1)?;
    put_bytes(out, text.as_bytes())?;
    put_byte(out, 0)
}

/// The total of what began at `start`, where four bytes were left for it; it counts itself.
pub fn set_total(out: &mut Vec<u8>, start: usize) -> Result<(), EncodeFault>
    requires { start + 4 ≤ vec_len out.old }
    ensures ok { OnOk result
        (out.new.items ≡ take start out.old.items ++ counted (drop (start + 4) out.old.items)) }
    ensures size { OnOk result (length (counted (drop (start + 4) out.old.items)) ≤ most_bytes) }
    ensures long { IfErr result (Stops (length (counted (drop (start + 4) out.old.items)))) }
{
    let total = out.len() - start;
    if total > MOST_BYTES {
        return Err(EncodeFault::Long);
    }
    set_number(out, start, total as u32);
    Ok(())
}

/// The end of a document that began at `start`, where four bytes were left for its total.
pub fn end_document(out: &mut Vec<u8>, start: usize) -> Result<(), EncodeFault>
    requires { start + 4 ≤ vec_len out.old }
    ensures ok { OnOk result
        (out.new.items ≡ take start out.old.items ++ document (drop (start + 4) out.old.items)) }
    ensures size { OnOk result (length (document (drop (start + 4) out.old.items)) ≤ most_bytes) }
    ensures long { IfErr result (Stops (length (document (drop (start + 4) out.old.items)))) }
{
    put_byte(out, 0)?;
    set_total(out, start)
}
