use crate::Sequence;
use bson_doc::{Document, Rows};

/// A message (MongoDB wire protocol, OP_MSG).
#[derive(Debug, Drop)]
pub struct Message {
    /// requestID: the number that the sender gave it.
    pub id: i32,
    /// responseTo: the number of the message that it answers, 0 where it answers none.
    pub to: i32,
    /// flagBits.
    pub flags: u32,
    /// The document of its section of kind 0.
    pub body: Document,
    /// Its sections of kind 1, in order.
    pub sequences: Rows<Sequence>,
    /// messageLength: how many bytes it has, those of a checksum too.
    pub length: u32,
}
