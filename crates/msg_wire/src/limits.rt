//! The sizes and places of OP_MSG, and this product's own limits of a message.

/// How many bytes a header has.
pub const HEADER: usize = 16;

/// The places of the header's fields, of flagBits, and of the sections.
pub const MESSAGE_LENGTH: usize = 0;

pub const REQUEST_ID: usize = 4;

pub const RESPONSE_TO: usize = 8;

pub const OP_CODE: usize = 12;

pub const FLAG_BITS: usize = 16;

pub const SECTIONS: usize = 20;

/// How many bytes stand in front of the document: the header, flagBits and the section's kind.
pub const FRONT: usize = 21;

/// The least length of a message: that of one with the empty document.
pub const LEAST_BYTES: u32 = 26;

/// The greatest length of a message.
pub const MOST_BYTES: u32 = 48_000_000;

/// The greatest length of the document of a message that has one section alone.
pub const MOST_SPELLING: u64 = MOST_BYTES as u64 - FRONT as u64;

/// The opCode of OP_MSG.
pub const OP_MSG: u32 = 2013;

/// The bit of flagBits that says that a checksum ends the message (checksumPresent).
pub const CHECKSUM_PRESENT: u32 = 0;

/// How many bytes a checksum has.
pub const CHECKSUM: usize = 4;

/// How many bytes the size of a section of kind 1 has.
pub const SIZE: usize = 4;

/// The least size of a section of kind 1: itself, and the 00 of an empty name.
pub const LEAST_SIZE: usize = 5;
