use bson_wire::{BsonFault, EncodeFault};
use case_files::{CaseFault, Memory};
use msg_wire::MsgFault;

/// Appends a fault of a document's bytes.
pub fn push_bson_fault(line: &mut String, fault: &BsonFault) -> Result<(), CaseFault> {
    match fault {
        BsonFault::Short => line.push_str("short")?,
        BsonFault::Length { at } => write!(line, "length {at}")?,
        BsonFault::Kind { at, byte } => write!(line, "kind {at} {byte}")?,
        BsonFault::Utf8 { at } => write!(line, "utf8 {at}")?,
        BsonFault::Bool { at, byte } => write!(line, "bool {at} {byte}")?,
        BsonFault::Deep { at } => write!(line, "deep {at}")?,
        BsonFault::Memory => return Err(CaseFault::Memory),
    }
    Ok(())
}

/// Appends a fault of a message's bytes.
pub fn push_msg_fault(line: &mut String, fault: &MsgFault) -> Result<(), CaseFault> {
    match fault {
        MsgFault::Short { need } => write!(line, "short {need}")?,
        MsgFault::Length { got } => write!(line, "length {got}")?,
        MsgFault::Opcode { got } => write!(line, "opcode {got}")?,
        MsgFault::Flags { bit } => write!(line, "flags {bit}")?,
        MsgFault::Sections { at } => write!(line, "sections {at}")?,
        MsgFault::Body { at, fault } => {
            write!(line, "body {at} ")?;
            push_bson_fault(line, fault)?;
        }
        MsgFault::Memory => return Err(CaseFault::Memory),
    }
    Ok(())
}

/// Appends why a document has no spelling.
pub fn push_encode_fault(line: &mut String, fault: &EncodeFault) -> Result<(), CaseFault> {
    match fault {
        EncodeFault::Deep => line.push_str("deep")?,
        EncodeFault::Long => line.push_str("long")?,
        EncodeFault::Memory => return Err(CaseFault::Memory),
    }
    Ok(())
}

/// Appends bytes, two digits each, with a blank in front.
pub fn push_bytes(line: &mut String, bytes: &[u8]) -> Result<(), Memory> {
    for byte in bytes {
        write!(line, " {byte:02x}")?;
    }
    Ok(())
}
