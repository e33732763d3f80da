use bson_doc::Bytes;

/// What a scripted net does on one stream.
#[derive(Debug, Drop)]
pub struct StreamPlan {
    /// What lies in the inbox from the dial on.
    pub bytes: Bytes,
    /// How many bytes a read hands out at most; at 0 it is one.
    pub most: u32,
    /// Whether the peer ends the stream behind its bytes; else reads then say that nothing has come yet.
    pub ends: bool,
}
